//! The sums as text.

ghost use Rattle.std.specs.Prelude.{◌≡◌, ◌≤◌, ◌++◌, All, OnOk, length, string_bytes};
ghost use Rattle.plan_sums.specs.Rows.{AreRows};
ghost use Rattle.plan_sums.specs.Texts.{open_count, time_text, tour_text, total_text};

use crate::pieces::push_filled;
use crate::row::Row;
use crate::tour::{Tour, cost};
use limits::MOST_VEHICLES;
use std::alloc::AllocError;

/// Appends a time, or a hyphen where it is not known.
fn push_time(out: &mut String, time: Option<u64>) -> Result<(), AllocError>
    ensures { OnOk result (string_bytes out.new ≡ string_bytes out.old ++ time_text time) }
{
    match time {
        Some(time) => write!(out, "{time}"),
        None => out.push_str("-"),
    }
}

/// Appends the line of a vehicle, with its line end: its stops in the listing, the places that are missing between them, its load of the
/// capacity, when it leaves the depot and is back, and its distance, in tenths.
pub fn push_tour(out: &mut String, capacity: u32, tour: &Tour) -> Result<(), AllocError>
    ensures { OnOk result (string_bytes out.new ≡ string_bytes out.old ++ tour_text capacity tour.now) }
{
    push_filled(
        out,
        &["vehicle ", " stops ", " hidden ", " load ", " of "],
        &[
            tour.vehicle as u64,
            tour.stops,
            tour.hidden,
            tour.load,
            capacity as u64,
        ],
        " start ",
    )?;
    push_time(out, tour.start)?;
    push_filled(
        out,
        &[" back ", " distance "],
        &[tour.back, tour.distance],
        "\n",
    )
}

/// How many customers of the rows are not planned.
pub fn open_count(rows: &[Row]) -> usize
    ensures value { result ≡ open_count rows.now }
    ensures within { result ≤ length rows.now }
{
    let mut count = 0;
    for row in rows {
        if row.is_planned() {
            continue;
        }
        count += 1;
    }
    count
}

/// Appends the last line, with its line end: how many vehicles have a row, of all, how many customers of the listing are planned and how many are not,
/// and what the tours cost.
pub fn push_total(
    out: &mut String,
    vehicles: u32,
    rows: &[Row],
    tours: &[Tour],
) -> Result<(), AllocError>
    requires few { length tours.now ≤ MOST_VEHICLES }
    requires small { All (λ tour. tour.distance ≤ 1000141421342) tours.now }
    ensures { OnOk result (string_bytes out.new ≡ string_bytes out.old ++ total_text vehicles rows.now tours.now) }
{
    let open = open_count(rows);
    push_filled(
        out,
        &["plan vehicles ", " of ", " stops ", " open ", " cost "],
        &[
            tours.len() as u64,
            vehicles as u64,
            (rows.len() - open) as u64,
            open as u64,
            cost(tours),
        ],
        "\n",
    )
}
