//! The sums, a line for each vehicle.

ghost use Rattle.std.specs.Prelude.{◌≡◌, ◌≤◌, ◌++◌, All, IfErr, OnErr, OnOk, length, string_bytes};
ghost use Rattle.std.specs.List.{flat_map};
ghost use Rattle.std.specs.Io.KnownBytes.{Appends};
ghost use Rattle.line_engine.specs.Running.{AppendsPrefix};
ghost use Rattle.plan_sums.specs.Tours.{tours_of};
ghost use Rattle.plan_sums.specs.Texts.{sums_text, tour_text};
ghost use Rattle.plan_program.specs.Stops.{IsWriting};

use crate::stop::ViewStop;
use limits::MOST_VEHICLES;
use line_engine::write_whole;
use plan_sums::{Roads, Row, Tour, push_total, push_tour};
use std::alloc::{AllocError, Global};
use std::io::Write;

/// Appends the line of each vehicle.
fn push_tours(text: &mut String, capacity: u32, tours: &[Tour]) -> Result<(), AllocError>
    ensures { OnOk result (string_bytes text.new ≡ string_bytes text.old ++ flat_map (tour_text capacity) tours.now) }
{
    for tour in tours {
        push_tour(text, capacity, tour)?;
    }
    Ok(())
}

/// Writes the sums of a listing.
pub(crate) fn write_sums<W: Write>(
    alloc: Global,
    roads: &Roads,
    rows: &[Row],
    tours: &[Tour],
    writer: &mut W,
) -> Result<(), ViewStop>
    requires tours { tours.now ≡ tours_of roads.now rows.now }
    requires few { length tours.now ≤ MOST_VEHICLES }
    requires small { All (λ tour. tour.distance ≤ 1000141421342) tours.now }
    ensures ok { OnOk result (Appends (W.contents writer.old) (W.contents writer.new) (sums_text roads.now rows.now)) }
    ensures part { OnErr result (AppendsPrefix (W.contents writer.old) (W.contents writer.new) (sums_text roads.now rows.now)) }
    ensures err { IfErr result IsWriting }
{
    let mut text = String::new(alloc);
    push_tours(&mut text, roads.capacity(), tours)?;
    push_total(&mut text, roads.vehicles(), rows, tours)?;
    write_whole(writer, text.as_bytes())?;
    Ok(())
}
