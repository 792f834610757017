//! Runs in a hall: live lines on desk 1, beside the workers.
ghost use Rattle.std.specs.Prelude.{◌≡◌, ◌∷◌, ◌+◌, ◌-◌, ◌⊎◌, ℕ, List, Ok, Err, IfOk, IfErr, MatchResult, option_map};
ghost use Rattle.std.specs.Option.{IsSomeAnd};
ghost use Rattle.dimension_core.specs.Setup.{setting};
ghost use Rattle.board_lock.specs.Watches.{watch_at};
ghost use Rattle.line_engine.specs.Running.{AppendsPrefix};
ghost use Rattle.program_parts.specs.declared.stop.Stop.TheVariants as stops;
ghost use Rattle.worker_runs.specs.Halls.{IsClosing, IsEnd, IsHallRun, IsHallShort, worker_desks};

use crate::beside::beside;
use crate::closing::close;
use crate::orders::Orders;
use crate::search::{Searched, Waiting};
use crate::setups::{SetupOf, Setups};
use board_lock::{Anteroom, Foyer, Naming, Seat, open_seats};
use desk_text::{Seated, run_desk_lines};
use line_engine::{Counts, RunFault};
use program_parts::Stop;
use std::alloc::Global;
use std::io::{Eprint, Read, Write};
use std::sync::Wait;
use std::thread::Threads;
use std::time::Clock;

/// The seat of desk 1, and those of the workers.
fn seats_of<N: Naming, D: Wait + Drop>(
    alloc: Global,
    room: Anteroom<D>,
) -> Result<(Seat<N, D>, Vec<Seat<N, D>>), Stop>
    requires opening { room.opening ≡ N.opening }
    requires book { room.book ≡ N.book }
    ensures first { IfOk result (λ p. p.0 ≡ watch_at room.entries 1) }
    ensures others { IfOk result (λ p. p.1.items ≡ worker_desks room.entries (N.opening.desks - 1)) }
    ensures err { IfErr result (λ stop. stop ≡ Stop.Open) }
{
    let Ok(mut seats) = open_seats::<N, D>(alloc, room) else {
        return Err(Stop::Open);
    };
    if seats.is_empty() {
        return Err(Stop::Open);
    }
    let seat = seats.remove(0);
    Ok((seat, seats))
}

/// Closes a run whose live lines ended early, as far as memory and the writer allow, unless it was the writer that failed.
fn close_early<N: Naming, D: Wait + Drop, W: Wait, O: Write>(
    rt: &W,
    alloc: Global,
    fault: RunFault,
    seat: &mut Seat<N, D>,
    searched: Option<Searched<N, D>>,
    writer: &mut O,
)
    ensures write { fault ≡ RunFault.Write → O.contents writer.new ≡ O.contents writer.old }
    ensures may { (O.contents writer.new ≡ O.contents writer.old)
        ⊎ IsSomeAnd searched (λ s. (text : List ℕ) × IsClosing N.opening (seat.old ∷ s.seats.items) s.tallies.items text
        × AppendsPrefix (O.contents writer.old) (O.contents writer.new) text) }
{
    if fault == RunFault::Write {
        return;
    }
    if let Some(searched) = searched {
        let _end = close(rt, alloc, seat, searched, writer);
    }
}

/// Ends a run that has workers, by what came of the live lines and of the workers. How many of the lines counted as refused.
fn ended<N: Naming, D: Wait + Drop, W: Wait, O: Write>(
    rt: &W,
    alloc: Global,
    seat: &mut Seat<N, D>,
    answered: Result<Counts, RunFault>,
    searched: Option<Searched<N, D>>,
    writer: &mut O,
) -> Result<u64, Stop>
    ensures { IsEnd N.opening seat.old answered (option_map (λ s. (s.seats.items, s.tallies.items)) searched)
        (O.contents writer.old) (O.contents writer.new) result }
{
    match answered {
        Ok(counts) => {
            let Some(searched) = searched else {
                return Err(Stop::Open);
            };
            match close(rt, alloc, seat, searched, writer) {
                Ok(()) => Ok(counts.refused),
                Err(stop) => Err(stop),
            }
        }
        Err(fault) => {
            close_early(rt, alloc, fault, seat, searched, writer);
            Err(Stop::Run(fault))
        }
    }
}

/// How many lines of a run counted as refused, or why it stopped.
fn counted(answered: Result<Counts, RunFault>) -> Result<u64, Stop>
    ensures { MatchResult answered (λ counts. result ≡ Ok counts.refused) (λ fault. result ≡ Err (stops.Run fault)) }
{
    match answered {
        Ok(counts) => Ok(counts.refused),
        Err(fault) => Err(Stop::Run(fault)),
    }
}

/// Opens the seats of a hall, and answers live lines on desk 1 while workers search from the others. How many of the lines counted as
/// refused.
pub(crate) fn hall_run<
    N: Naming + Send + Sync + 'static,
    S: Setups + Drop,
    W: Threads + Wait + Clock + Eprint + AllocGlobal + Copy + Drop + Send + Sync + 'static,
    I: Read,
    O: Write,
>(
    rt: W,
    foyer: Foyer<W>,
    lines: S,
    orders: Orders,
    live: &mut I,
    writer: &mut O,
) -> Result<u64, Stop>
    requires opening { foyer.room.opening ≡ N.opening }
    requires book { foyer.room.book ≡ N.book }
    requires setup { setting foyer.setup.value ≡ foyer.room.opening.setting }
    requires lines { S.setting_of lines ≡ foyer.room.opening.setting }
    requires desks { N.opening.desks ≡ orders.workers + 1 }
    ensures { MatchResult result
        (IsHallRun N.opening orders foyer.room.entries (I.remaining live.old) (I.remaining live.new)
        (O.contents writer.old) (O.contents writer.new))
        (IsHallShort N.opening orders foyer.room.entries (I.remaining live.old) (I.remaining live.new)
        (O.contents writer.old) (O.contents writer.new)) }
{
    let alloc = rt.alloc();
    let Foyer { setup, room } = foyer;
    let Ok((seat, others)) = seats_of::<N, W>(alloc, room) else {
        return Err(Stop::Open);
    };
    let mut front = Seated {
        setup: SetupOf { setup: lines },
        seat,
    };
    if orders.workers == 0 {
        return counted(run_desk_lines(&rt, alloc, &mut front, live, writer));
    }
    let workers = Waiting {
        setup,
        seats: others,
        orders,
    };
    let (answered, searched) = beside(rt, alloc, workers, &mut front, live, writer);
    ended(&rt, alloc, &mut front.seat, answered, searched, writer)
}
