//! The text of each mark.

ghost use Rattle.std.specs.Prelude.{◌≡◌, ◌+◌, ◌/◌, ◌++◌, OnOk, string_bytes};
ghost use Rattle.plan_picture.specs.Texts.{unit_text, start_text, stop_note, leg_text, depot_text, stop_open, stop_text, open_text, label_text, stops_end, entry_open, entry_end, entry_text, tick_text, lane_open, lane_end, lane_text, mark_text};

use plan_marks::{Depot, Entry, Label, Lane, Leg, Mark, Spot, Tick, push_text};
use plan_sums::{Tour, Visit, push_filled};
use std::alloc::AllocError;

/// Appends tenths, in the file's unit.
#[tactic(auto, unfolding(crate::specs::Texts::unit_text))]
pub(crate) fn push_units(out: &mut String, tenths: u64) -> Result<(), AllocError>
    ensures { OnOk result (string_bytes out.new ≡ string_bytes out.old ++ unit_text tenths) }
{
    write!(out, "{}.{}", tenths / 10, tenths % 10)
}

/// The same of a start, or a question mark where it is not known.
fn push_start(out: &mut String, start: Option<u64>) -> Result<(), AllocError>
    ensures { OnOk result (string_bytes out.new ≡ string_bytes out.old ++ start_text start) }
{
    match start {
        Some(start) => push_units(out, start),
        None => push_text(out, "?"),
    }
}

/// Appends what a planned customer's mark says of itself.
fn push_stop_note(out: &mut String, visit: &Visit) -> Result<(), AllocError>
    ensures { OnOk result (string_bytes out.new ≡ string_bytes out.old ++ stop_note visit.now) }
{
    push_filled(
        out,
        &[
            "customer ",
            ", vehicle ",
            ", place ",
            ": window ",
            " to ",
            ", demand ",
            ", arrival ",
            ".",
            ", service from ",
            ".",
        ],
        &[
            visit.row.customer as u64,
            visit.row.vehicle as u64,
            visit.row.place as u64,
            visit.node.ready as u64,
            visit.node.due as u64,
            visit.node.demand as u64,
            visit.arrival / 10,
            visit.arrival % 10,
            visit.row.early as u64 / 10,
            visit.row.early as u64 % 10,
        ],
        "",
    )
}

/// The middle of two places.
fn middle(a: u64, b: u64) -> u64
    ensures { result ≡ a / 2 + b / 2 }
{
    a / 2 + b / 2
}

/// Appends a way.
fn push_leg(out: &mut String, leg: &Leg) -> Result<(), AllocError>
    ensures { OnOk result (string_bytes out.new ≡ string_bytes out.old ++ leg_text leg.now) }
{
    push_filled(
        out,
        &[
            "<path class=\"l c",
            " p",
            "\" d=\"M",
            " ",
            "L",
            " ",
            "L",
            " ",
            "\"><title>vehicle ",
            ": ",
            " to ",
            ", ",
            ".",
        ],
        &[
            leg.vehicle as u64 % 8,
            leg.vehicle as u64 / 8 % 4,
            leg.start.x,
            leg.start.y,
            middle(leg.start.x, leg.end.x),
            middle(leg.start.y, leg.end.y),
            leg.end.x,
            leg.end.y,
            leg.vehicle as u64,
            leg.from as u64,
            leg.to as u64,
            leg.way / 10,
            leg.way % 10,
        ],
        "</title></path>\n",
    )
}

/// Appends the depot.
fn push_depot(out: &mut String, depot: &Depot) -> Result<(), AllocError>
    ensures { OnOk result (string_bytes out.new ≡ string_bytes out.old ++ depot_text depot.now) }
{
    push_filled(
        out,
        &[
            "<path class=\"d\" d=\"M",
            " ",
            "m-80 -80h160v160h-160z\"><title>depot: ",
            " to ",
        ],
        &[depot.at.x, depot.at.y, depot.ready as u64, depot.due as u64],
        "</title></path>\n",
    )
}

/// Appends a planned customer's circle, up to what it says of itself.
fn push_stop_open(out: &mut String, spot: &Spot) -> Result<(), AllocError>
    ensures { OnOk result (string_bytes out.new ≡ string_bytes out.old ++ stop_open spot.now) }
{
    push_filled(
        out,
        &["<circle class=\"s f", "\" cx=\"", "\" cy=\"", "\" r=\""],
        &[
            spot.visit.row.vehicle as u64 % 8,
            spot.at.x,
            spot.at.y,
            spot.radius,
        ],
        "\"><title>",
    )
}

/// Appends a planned customer.
fn push_stop(out: &mut String, spot: &Spot) -> Result<(), AllocError>
    ensures { OnOk result (string_bytes out.new ≡ string_bytes out.old ++ stop_text spot.now) }
{
    push_stop_open(out, spot)?;
    push_stop_note(out, &spot.visit)?;
    push_text(out, "</title></circle>\n")
}

/// Appends a customer who is not planned.
fn push_open(out: &mut String, spot: &Spot) -> Result<(), AllocError>
    ensures { OnOk result (string_bytes out.new ≡ string_bytes out.old ++ open_text spot.now) }
{
    push_filled(
        out,
        &[
            "<circle class=\"o\" cx=\"",
            "\" cy=\"",
            "\" r=\"",
            "\"><title>customer ",
            ", not planned: window ",
            " to ",
            ", demand ",
        ],
        &[
            spot.at.x,
            spot.at.y,
            spot.radius,
            spot.visit.row.customer as u64,
            spot.visit.node.ready as u64,
            spot.visit.node.due as u64,
            spot.visit.node.demand as u64,
        ],
        "</title></circle>\n",
    )
}

/// Appends the number of a customer.
fn push_label(out: &mut String, label: &Label) -> Result<(), AllocError>
    ensures { OnOk result (string_bytes out.new ≡ string_bytes out.old ++ label_text label.now) }
{
    push_filled(
        out,
        &[
            "<text class=\"n\" dx=\"80\" dy=\"-50\" x=\"",
            "\" y=\"",
            "\">",
        ],
        &[label.at.x, label.at.y, label.customer as u64],
        "</text>\n",
    )
}

/// What is between the stops of a vehicle and its load: a plus sign first, where places between the stops are not in the listing.
#[tactic(auto, unfolding(crate::specs::Texts::stops_end))]
fn stops_end(tour: &Tour) -> &str
    ensures { result.now ≡ stops_end tour.now }
{
    if tour.hidden == 0 {
        "</text><text class=\"e\" x=\"9500\">"
    } else {
        "+</text><text class=\"e\" x=\"9500\">"
    }
}

/// Appends the vehicle of a line of the table, how many stops it has, and its load.
fn push_entry_open(out: &mut String, entry: &Entry) -> Result<(), AllocError>
    ensures { OnOk result (string_bytes out.new ≡ string_bytes out.old ++ entry_open entry.now) }
{
    push_filled(
        out,
        &[
            "<g transform=\"translate(0 ",
            ")\"><use href=\"#r\" class=\"r c",
            " p",
            "\"/><text class=\"e\" x=\"7650\">",
            "</text><text class=\"e\" x=\"8350\">",
            stops_end(&entry.tour),
            " of ",
        ],
        &[
            entry.y,
            entry.tour.vehicle as u64 % 8,
            entry.tour.vehicle as u64 / 8 % 4,
            entry.tour.vehicle as u64,
            entry.tour.stops,
            entry.tour.load,
            entry.capacity as u64,
        ],
        "</text><text class=\"e\" x=\"10450\">",
    )
}

/// Appends when it is back, and its distance.
fn push_entry_end(out: &mut String, entry: &Entry) -> Result<(), AllocError>
    ensures { OnOk result (string_bytes out.new ≡ string_bytes out.old ++ entry_end entry.now) }
{
    push_filled(
        out,
        &[
            "</text><text class=\"e\" x=\"11450\">",
            ".",
            "</text><text class=\"e\" x=\"12600\">",
            ".",
        ],
        &[
            entry.tour.back / 10,
            entry.tour.back % 10,
            entry.tour.distance / 10,
            entry.tour.distance % 10,
        ],
        "</text></g>\n",
    )
}

/// Appends a line of the table.
fn push_entry(out: &mut String, entry: &Entry) -> Result<(), AllocError>
    ensures { OnOk result (string_bytes out.new ≡ string_bytes out.old ++ entry_text entry.now) }
{
    push_entry_open(out, entry)?;
    push_start(out, entry.tour.start)?;
    push_entry_end(out, entry)
}

/// Appends a time of the timelines, with its line across them.
fn push_tick(out: &mut String, tick: &Tick) -> Result<(), AllocError>
    ensures { OnOk result (string_bytes out.new ≡ string_bytes out.old ++ tick_text tick.now) }
{
    push_filled(
        out,
        &[
            "<path class=\"x\" d=\"M",
            " ",
            "V",
            "\"/><text class=\"y\" dy=\"-40\" x=\"",
            "\" y=\"",
            "\">",
            ".",
        ],
        &[
            tick.x,
            tick.top,
            tick.bottom,
            tick.x,
            tick.top,
            tick.time / 10,
            tick.time % 10,
        ],
        "</text>\n",
    )
}

/// Appends the place of a lane.
fn push_lane_open(out: &mut String, lane: &Lane) -> Result<(), AllocError>
    ensures { OnOk result (string_bytes out.new ≡ string_bytes out.old ++ lane_open lane.now) }
{
    push_filled(
        out,
        &["<g transform=\"translate(0 "],
        &[lane.y],
        ")\"><title>",
    )
}

/// Appends its horizon and its numbers; its window; the travel to the stop and home; the waiting; and the service, with a line where it
/// starts.
fn push_lane_end(out: &mut String, lane: &Lane) -> Result<(), AllocError>
    ensures { OnOk result (string_bytes out.new ≡ string_bytes out.old ++ lane_end lane.now) }
{
    let colour = lane.visit.row.vehicle as u64 % 8;
    push_filled(
        out,
        &[
            "</title><use href=\"#h\"/><text class=\"e\" x=\"650\" y=\"120\">",
            "</text><text class=\"e\" x=\"1350\" y=\"120\">",
            "</text><rect class=\"w\" y=\"30\" height=\"100\" x=\"",
            "\" width=\"",
            "\"/><path class=\"t c",
            "\" d=\"M",
            " 80H",
            "M",
            " 80H",
            "\"/><path class=\"q c",
            "\" d=\"M",
            " 80H",
            "\"/><rect class=\"f",
            "\" y=\"30\" height=\"100\" x=\"",
            "\" width=\"",
            "\"/><path class=\"v c",
            "\" d=\"M",
        ],
        &[
            lane.visit.row.vehicle as u64,
            lane.visit.row.customer as u64,
            lane.ready,
            lane.due.saturating_sub(lane.ready),
            colour,
            lane.depart,
            lane.arrival,
            lane.leave,
            lane.back,
            colour,
            lane.arrival,
            lane.early,
            colour,
            lane.early,
            lane.leave.saturating_sub(lane.early),
            colour,
            lane.early,
        ],
        " 15V145\"/></g>\n",
    )
}

/// Appends a stop on a timeline.
fn push_lane(out: &mut String, lane: &Lane) -> Result<(), AllocError>
    ensures { OnOk result (string_bytes out.new ≡ string_bytes out.old ++ lane_text lane.now) }
{
    push_lane_open(out, lane)?;
    push_stop_note(out, &lane.visit)?;
    push_lane_end(out, lane)
}

/// Appends the text of a mark, as SVG.
pub fn push_mark(out: &mut String, mark: &Mark) -> Result<(), AllocError>
    ensures { OnOk result (string_bytes out.new ≡ string_bytes out.old ++ mark_text mark.now) }
{
    match mark {
        Mark::Leg(leg) => push_leg(out, leg),
        Mark::Depot(depot) => push_depot(out, depot),
        Mark::Stop(spot) => push_stop(out, spot),
        Mark::Open(spot) => push_open(out, spot),
        Mark::Label(label) => push_label(out, label),
        Mark::Entry(entry) => push_entry(out, entry),
        Mark::Tick(tick) => push_tick(out, tick),
        Mark::Lane(lane) => push_lane(out, lane),
    }
}
