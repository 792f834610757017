//! How a run with workers ends.
ghost use Rattle.std.specs.Prelude.{◌≡◌, ◌∷◌, [], List, IfOk, IfErr, IfSome, OnOk, ℕ};
ghost use Rattle.std.specs.Io.KnownBytes.{Appends};
ghost use mathlib.Core.List.{IsPrefix};
ghost use Rattle.line_engine.specs.Running.{AppendsPrefix};
ghost use Rattle.worker_runs.specs.Halls.{IsClosing, IsClosedShort};
ghost use Rattle.worker_runs.specs.Closings.{IsVersionOf, IsWrittenShort};
ghost use Rattle.worker_runs.specs.Tallies.{closing_text};

use crate::search::Searched;
use crate::tallies::closing_lines;
use board_lock::{Naming, Seat};
use board_rules::histories_go_on;
use line_engine::{RunFault, write_whole};
use program_parts::Stop;
use rbac_core::{Object, Operation};
use search_workers::Tally;
use std::alloc::Global;
use std::io::Write;
use std::sync::Wait;

/// The version of the plan after all that a seat has seen, and no further call of its desk.
#[tactic(auto, using(crate::proofs::Prefixes::prefix_trans))]
fn version_at<N: Naming, D: Wait + Drop, W: Wait>(rt: &W, seat: &mut Seat<N, D>) -> Option<u32>
    ensures grows { IsPrefix seat.old.seen seat.new.seen }
    ensures version { IfSome result (IsVersionOf N.opening (seat.old ∷ []) seat.new.seen) }
{
    histories_go_on();
    seat.turns_are_seen();
    let view = seat.snapshot();
    let _may = seat.check(rt, 1, Operation::View, Object::Board);
    match view {
        Ok(view) => Some(view.version),
        Err(_) => None,
    }
}

/// The version of the plan after all that a seat and the others have seen, and no further call of their desks: each of the others meets
/// the seat before the version is read, and once more after it.
#[tactic(auto, using(crate::proofs::Prefixes::prefix_trans))]
fn version_of<N: Naming, D: Wait + Drop, W: Wait>(
    rt: &W,
    seat: &mut Seat<N, D>,
    others: Vec<Seat<N, D>>,
) -> Option<u32>
    ensures grows { IsPrefix seat.old.seen seat.new.seen }
    ensures version { IfSome result (IsVersionOf N.opening (seat.old ∷ others.items) seat.new.seen) }
{
    histories_go_on();
    let mut others = others;
    let Some(mut last) = others.pop() else {
        return version_at(rt, seat);
    };
    seat.meet(rt, &mut last);
    let version = version_of(rt, seat, others);
    seat.meet(rt, &mut last);
    version
}

/// Writes the lines of the workers and of the version, and flushes them.
fn write_closing<O: Write>(
    alloc: Global,
    tallies: &[Tally],
    version: u32,
    writer: &mut O,
) -> Result<(), RunFault>
    ensures ok { OnOk result (Appends (O.contents writer.old) (O.contents writer.new) (closing_text tallies.now version)) }
    ensures err { IfErr result (λ fault. IsWrittenShort fault (O.contents writer.old)
        (O.contents writer.new) (closing_text tallies.now version)) }
{
    let text = closing_lines(alloc, tallies, version)?;
    write_whole(writer, text.as_bytes())?;
    match writer.flush() {
        Ok(()) => Ok(()),
        Err(_) => Err(RunFault::Write),
    }
}

/// Brings desk 1 up to all that the workers have seen, and writes their lines and that of the version.
pub(crate) fn close<N: Naming, D: Wait + Drop, W: Wait, O: Write>(
    rt: &W,
    alloc: Global,
    seat: &mut Seat<N, D>,
    searched: Searched<N, D>,
    writer: &mut O,
) -> Result<(), Stop>
    ensures ok { OnOk result ((text : List ℕ) × IsClosing N.opening (seat.old ∷ searched.seats.items) searched.tallies.items text
        × Appends (O.contents writer.old) (O.contents writer.new) text) }
    ensures err { IfErr result (λ stop. IsClosedShort N.opening (seat.old ∷ searched.seats.items) searched.tallies.items
        (O.contents writer.old) (O.contents writer.new) stop) }
{
    let Searched { seats, tallies } = searched;
    let Some(version) = version_of(rt, seat, seats) else {
        return Err(Stop::Open);
    };
    match write_closing(alloc, tallies.as_slice(), version, writer) {
        Ok(()) => Ok(()),
        Err(fault) => Err(Stop::Run(fault)),
    }
}
