//! Notes as text.

ghost use Rattle.std.specs.Prelude.{◌≡◌, ◌++◌, OnOk, string_bytes};
ghost use Rattle.std.specs.Fmt.{decimal};
ghost use Rattle.board_text.specs.Texts.{stop_text, times_text, late_text, cause_text, rule_text, note_text};

use crate::cause::Cause;
use crate::note::Note;
use board_rules::Denial;
use std::alloc::AllocError;

/// Appends a text.
fn push_text(out: &mut String, text: &str) -> Result<(), AllocError>
    ensures { OnOk result (string_bytes out.new ≡ string_bytes out.old ++ text.now) }
{
    out.push_str(text)
}

/// Appends a number behind a text.
fn push_last(out: &mut String, before: &str, number: u32) -> Result<(), AllocError>
    ensures { OnOk result (string_bytes out.new ≡ string_bytes out.old ++ (before.now ++ decimal number)) }
{
    write!(out, "{before}{number}")
}

/// Appends a number between two texts.
fn push_one(out: &mut String, before: &str, number: u32, after: &str) -> Result<(), AllocError>
    ensures { OnOk result (string_bytes out.new ≡ string_bytes out.old ++ (before.now ++ (decimal number ++ after.now))) }
{
    write!(out, "{before}{number}{after}")
}

/// Appends two numbers, each behind a text.
fn push_two(
    out: &mut String,
    before: &str,
    first: u32,
    between: &str,
    second: u32,
) -> Result<(), AllocError>
    ensures { OnOk result (string_bytes out.new
        ≡ string_bytes out.old ++ (before.now ++ (decimal first ++ (between.now ++ decimal second)))) }
{
    write!(out, "{before}{first}{between}{second}")
}

/// Appends where a vehicle would be late: at a customer, or, where the node is 0, back at the depot.
fn push_stop(out: &mut String, vehicle: u32, place: usize, node: u32) -> Result<(), AllocError>
    ensures { OnOk result (string_bytes out.new ≡ string_bytes out.old ++ stop_text vehicle place node) }
{
    if node == 0 {
        write!(out, "vehicle {vehicle} would be back at the depot at ")
    } else {
        write!(
            out,
            "vehicle {vehicle} would serve customer {node} at place {place} at "
        )
    }
}

/// Appends when it would be there, and by how much that is late.
fn push_times(out: &mut String, least: u64, most: u64) -> Result<(), AllocError>
    ensures { OnOk result (string_bytes out.new ≡ string_bytes out.old ++ times_text least most) }
{
    write!(
        out,
        "{least} at the earliest, {} after its due date {most}",
        least.saturating_sub(most)
    )
}

/// Appends where a vehicle would be late, and by how much.
fn push_late(
    out: &mut String,
    vehicle: u32,
    place: usize,
    node: u32,
    least: u64,
    most: u64,
) -> Result<(), AllocError>
    ensures { OnOk result (string_bytes out.new ≡ string_bytes out.old ++ late_text vehicle place node least most) }
{
    push_stop(out, vehicle, place, node)?;
    push_times(out, least, most)
}

// ---- which number of a move is wrong

/// There is no such place.
fn push_no_place(out: &mut String, vehicle: u32, place: u32, most: u32) -> Result<(), AllocError>
    ensures { OnOk result (string_bytes out.new ≡ string_bytes out.old ++ cause_text (Cause.NoPlace vehicle place most)) }
{
    write!(
        out,
        "place {place} of vehicle {vehicle} is not from 1 to {most}"
    )
}

/// Not as many customers stand there.
fn push_too_long(out: &mut String, vehicle: u32, place: u32, count: u32) -> Result<(), AllocError>
    ensures { OnOk result (string_bytes out.new ≡ string_bytes out.old ++ cause_text (Cause.TooLong vehicle place count)) }
{
    write!(
        out,
        "vehicle {vehicle} has fewer than {count} customers from place {place} on"
    )
}

/// The vehicle has fewer customers than are to be kept.
fn push_no_keep(out: &mut String, vehicle: u32, keep: u32, most: u32) -> Result<(), AllocError>
    ensures { OnOk result (string_bytes out.new ≡ string_bytes out.old ++ cause_text (Cause.NoKeep vehicle keep most)) }
{
    write!(
        out,
        "vehicle {vehicle} has {most} customers and cannot keep {keep}"
    )
}

/// Appends which number of a move is wrong.
fn push_cause(out: &mut String, cause: Cause) -> Result<(), AllocError>
    ensures { OnOk result (string_bytes out.new ≡ string_bytes out.old ++ cause_text cause) }
{
    match cause {
        Cause::NoVehicle { vehicle } => push_last(out, "there is no vehicle ", vehicle),
        Cause::NoCustomer { customer, most } => push_two(
            out,
            "customer ",
            customer,
            " is not from 1 to ",
            most,
        ),
        Cause::Planned { customer } => push_one(out, "customer ", customer, " is planned already"),
        Cause::NoPlace {
            vehicle,
            place,
            most,
        } => push_no_place(out, vehicle, place, most),
        Cause::TooLong {
            vehicle,
            place,
            count,
        } => push_too_long(out, vehicle, place, count),
        Cause::Empty => push_text(out, "no customer is to be shifted"),
        Cause::SamePlace => push_text(out, "both places are the same"),
        Cause::Order { first, last } => push_two(
            out,
            "place ",
            first,
            " is not before place ",
            last,
        ),
        Cause::NoKeep {
            vehicle,
            keep,
            most,
        } => push_no_keep(out, vehicle, keep, most),
        Cause::SameVehicle { vehicle } => push_last(out, "both vehicles are ", vehicle),
        Cause::NoTails => push_text(out, "neither vehicle has a customer to exchange"),
        Cause::Nothing => push_text(out, "the move has no effect"),
    }
}

// ---- which rule of the board failed

/// The customer at a place is pinned.
fn push_pinned(out: &mut String, vehicle: u32, place: u32) -> Result<(), AllocError>
    ensures { OnOk result (string_bytes out.new ≡ string_bytes out.old ++ rule_text (Denial.Pinned vehicle place)) }
{
    write!(
        out,
        "the customer of vehicle {vehicle} at place {place} is pinned to its vehicle"
    )
}

/// Appends which rule of the board failed.
fn push_rule(out: &mut String, denial: Denial) -> Result<(), AllocError>
    ensures { OnOk result (string_bytes out.new ≡ string_bytes out.old ++ rule_text denial) }
{
    match denial {
        Denial::NoSession => push_text(out, "there is no such session"),
        Denial::BadVehicle => push_text(out, "a vehicle that the move names is not in the fleet"),
        Denial::AccessVehicle(vehicle) => push_last(
            out,
            "the session may not move vehicle ",
            vehicle,
        ),
        Denial::Ahead => push_text(out, "the base is above the version"),
        Denial::Stale(vehicle) => push_one(out, "vehicle ", vehicle, " has changed since the base"),
        Denial::BadPlace => push_text(out, "the move has no effect"),
        Denial::AccessCustomer(vehicle, place) => push_two(
            out,
            "the session may not move the customer of vehicle ",
            vehicle,
            " at place ",
            place,
        ),
        Denial::Frozen(vehicle) => push_one(
            out,
            "frozen stops of vehicle ",
            vehicle,
            " would change",
        ),
        Denial::Pinned(vehicle, place) => push_pinned(out, vehicle, place),
        Denial::Bound(vehicle, dimension) => push_two(
            out,
            "vehicle ",
            vehicle,
            " would be out of bounds in dimension ",
            dimension,
        ),
    }
}

// ---- notes

/// The load that a vehicle would have, and by how much that is above its capacity.
fn push_load(out: &mut String, vehicle: u32, total: u64, most: u64) -> Result<(), AllocError>
    ensures { OnOk result (string_bytes out.new ≡ string_bytes out.old ++ note_text (Note.Load vehicle total most)) }
{
    write!(
        out,
        "vehicle {vehicle} would carry {total}, {} above its capacity {most}",
        total.saturating_sub(most)
    )
}

/// The customer that the session may not move.
fn push_customer(
    out: &mut String,
    vehicle: u32,
    place: u32,
    customer: u32,
) -> Result<(), AllocError>
    ensures { OnOk result (string_bytes out.new ≡ string_bytes out.old ++ note_text (Note.Customer vehicle place customer)) }
{
    write!(
        out,
        "the session may not move customer {customer}, at place {place} of vehicle {vehicle}"
    )
}

/// The commit that changed the vehicle.
fn push_stale(out: &mut String, vehicle: u32, commit: u32, version: u32) -> Result<(), AllocError>
    ensures { OnOk result (string_bytes out.new ≡ string_bytes out.old ++ note_text (Note.Stale vehicle commit version)) }
{
    write!(
        out,
        "commit {commit} changed vehicle {vehicle}, and the version is {version}"
    )
}

/// Appends a note, without a line end. Loads are in the unit of the instance, times in tenths, as in listings.
pub fn push_note(out: &mut String, note: Note) -> Result<(), AllocError>
    ensures { OnOk result (string_bytes out.new ≡ string_bytes out.old ++ note_text note) }
{
    match note {
        Note::Load {
            vehicle,
            total,
            most,
        } => push_load(out, vehicle, total, most),
        Note::Late {
            vehicle,
            place,
            node,
            least,
            most,
        } => push_late(out, vehicle, place, node, least, most),
        Note::Start { vehicle } => push_one(out, "vehicle ", vehicle, " could not leave the depot"),
        Note::Customer {
            vehicle,
            place,
            customer,
        } => push_customer(out, vehicle, place, customer),
        Note::Stale {
            vehicle,
            commit,
            version,
        } => push_stale(out, vehicle, commit, version),
        Note::Ahead { version } => push_last(out, "the version is ", version),
        Note::Place(cause) => push_cause(out, cause),
        Note::Rule(denial) => push_rule(out, denial),
    }
}
