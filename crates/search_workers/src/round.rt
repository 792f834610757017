//! One round.
ghost use Rattle.std.specs.Prelude.{◌≡◌, ◌+◌, ◌≤◌, ◌<◌, [], ℕ, List, length, vec_capacity, OnOk, IfOk, IfErr};
ghost use mathlib.Core.List.{IsPrefix};
ghost use Rattle.dimension_core.specs.Setup.{setting};
ghost use Rattle.board_rules.specs.declared.call.Call.{Call};
ghost use Rattle.board_lock.specs.Commits.{Submitted, Faulted, Legal};
ghost use Rattle.search_workers.specs.Kinds.{Round};
ghost use Rattle.search_workers.specs.Jobs.{job_of, view_after, first_vehicle, second_vehicle};
ghost use Rattle.search_workers.specs.Rounds.{number_after, IsBestIn};
ghost use Rattle.search_workers.specs.Steps.{IsFound, AreSkipped, IsDone};

use crate::draws::Drawn;
use crate::finder::{Finder, Found};
use crate::gate::{Gate, Point};
use crate::laws::laws_below;
use crate::skips::Skips;
use crate::tally::Outcome;
use crate::worker::Order;
use board_lock::{Naming, Seat, SnapFault, commits_stay_in_views};
use board_rules::{Call, Fault, Reply, legal_histories_leave_good_states};
use dimension_core::Setup;
use std::alloc::Global;
use std::sync::Wait;

/// What a worker does its next round with: the hall's setup, the gate, its order and its number; and the number of that round.
#[derive(Drop)]
pub(crate) struct Attempt<'a, G> {
    pub setup: &'a Setup,
    pub gate: &'a G,
    pub order: Order,
    pub worker: u32,
    pub number: u32,
}

/// What a worker keeps of its search from round to round.
#[derive(Drop)]
pub(crate) struct Search {
    pub skips: Skips,
    pub finder: Finder,
}

impl Search {
    pub fn new(alloc: Global) -> Search
        ensures version { result.skips.version ≡ 0 }
        ensures moves { result.skips.moves.items ≡ [] }
    {
        Search {
            skips: Skips::new(alloc),
            finder: Finder::new(alloc),
        }
    }
}

/// Brings the view up to the published plan, and finds the best move there.
fn look<N: Naming, R: Wait + Drop, W: Wait, G: Gate<W>>(
    rt: &W,
    seat: &mut Seat<N, R>,
    attempt: &Attempt<'_, G>,
    search: &mut Search,
    drawn: Drawn,
) -> Result<Option<Found>, SnapFault>
    requires setup { setting attempt.now.setup.now ≡ N.opening.setting }
    requires first { (1 ≤ drawn.first) × (drawn.first ≤ N.opening.setting.vehicles) }
    requires second { (1 ≤ drawn.second) × (drawn.second ≤ N.opening.setting.vehicles) }
    requires version { search.old.skips.version ≤ (view_after N.opening seat.old.seen).version }
    ensures kept { (seat.new.number ≡ seat.old.number) × (seat.new.own ≡ seat.old.own) }
    ensures grows { IsPrefix seat.old.seen seat.new.seen }
    ensures version { search.new.skips.version ≤ (view_after N.opening seat.new.seen).version }
    ensures turned { OnOk result (search.new.skips.version ≡ (view_after N.opening seat.new.seen).version) }
    ensures skipped { (done : List Round) → AreSkipped done search.old.skips.version search.old.skips.moves.items
        → AreSkipped done search.new.skips.version search.new.skips.moves.items }
    ensures found { IfOk result (λ found. IsFound N.opening.setting (view_after N.opening seat.new.seen)
        search.new.skips.moves.items drawn.first drawn.second found) }
{
    legal_histories_leave_good_states();
    commits_stay_in_views();
    let Ok(()) = seat.refresh() else {
        return Err(SnapFault::NoMemory);
    };
    let gate = attempt.gate;
    gate.pass(rt, attempt.worker, attempt.number, Point::Seen);
    let Some(view) = seat.view() else {
        unreachable!()
    };
    search.skips.turn_to(view.version);
    let skip = search.skips.moves.as_slice();
    match search.finder.find(view, attempt.setup, drawn, skip) {
        Ok(found) => Ok(found),
        Err(_) => Err(SnapFault::NoMemory),
    }
}

/// Submits a move.
fn hand_in<N: Naming, R: Wait + Drop, W: Wait, G: Gate<W>>(
    rt: &W,
    seat: &mut Seat<N, R>,
    attempt: &Attempt<'_, G>,
    found: Found,
) -> Result<Reply, Fault>
    requires setup { setting attempt.now.setup.now ≡ N.opening.setting }
    ensures number { seat.new.number ≡ seat.old.number }
    ensures ok { IfOk result (λ r. Submitted N.opening seat.old.number seat.old.own
        (Call.Propose attempt.now.order.session found.version found.mv) r seat.old.seen seat.new.seen × (seat.new.own ≡ seat.old.own + 1)) }
    ensures err { IfErr result (λ f. Faulted N.opening seat.old.number seat.old.own f seat.old.seen seat.new.seen
        × (seat.new.own ≡ seat.old.own)) }
{
    let gate = attempt.gate;
    gate.pass(rt, attempt.worker, attempt.number, Point::Before);
    let call = Call::Propose {
        session: attempt.order.session,
        base: found.version,
        mv: found.mv,
    };
    let answer = seat.submit(rt, attempt.setup, call);
    gate.pass(rt, attempt.worker, attempt.number, Point::After);
    answer
}

/// Submits the move that was found, if there is room to note it.
fn propose<N: Naming, R: Wait + Drop, W: Wait, G: Gate<W>>(
    rt: &W,
    seat: &mut Seat<N, R>,
    attempt: &Attempt<'_, G>,
    skips: &mut Skips,
    found: Found,
) -> Outcome
    requires setup { setting attempt.now.setup.now ≡ N.opening.setting }
    requires found { found.version ≡ (view_after N.opening seat.old.seen).version }
    requires turned { skips.old.version ≡ (view_after N.opening seat.old.seen).version }
    ensures version { skips.new.version ≤ (view_after N.opening seat.new.seen).version }
    ensures done { (done : List Round) → AreSkipped done skips.old.version skips.old.moves.items
        → IsBestIn (job_of N.opening seat.old.number attempt.now.order.session attempt.now.order.seed) done
        seat.old.seen found.mv found.gain
        → IsDone (job_of N.opening seat.old.number attempt.now.order.session attempt.now.order.seed) done seat.old seat.new
        skips.new.version skips.new.moves.items result }
{
    laws_below();
    let Ok(()) = skips.make_room() else {
        return Outcome::Refused;
    };
    match hand_in(rt, seat, attempt, found) {
        Ok(reply) => skips.note(found.mv, reply),
        Err(_) => Outcome::Refused,
    }
}

/// One round, near two vehicles that were drawn for it.
pub(crate) fn one_round<N: Naming, R: Wait + Drop, W: Wait, G: Gate<W>>(
    rt: &W,
    seat: &mut Seat<N, R>,
    attempt: &Attempt<'_, G>,
    search: &mut Search,
    drawn: Drawn,
) -> Outcome
    requires setup { setting attempt.now.setup.now ≡ N.opening.setting }
    requires first_known { (1 ≤ drawn.first) × (drawn.first ≤ N.opening.setting.vehicles) }
    requires second_known { (1 ≤ drawn.second) × (drawn.second ≤ N.opening.setting.vehicles) }
    requires first { drawn.first
        ≡ first_vehicle (job_of N.opening seat.old.number attempt.now.order.session attempt.now.order.seed) attempt.now.number }
    requires second { drawn.second
        ≡ second_vehicle (job_of N.opening seat.old.number attempt.now.order.session attempt.now.order.seed) attempt.now.number }
    requires version { search.old.skips.version ≤ (view_after N.opening seat.old.seen).version }
    ensures version { search.new.skips.version ≤ (view_after N.opening seat.new.seen).version }
    ensures done { (done : List Round) → number_after done ≡ attempt.now.number
        → AreSkipped done search.old.skips.version search.old.skips.moves.items
        → IsDone (job_of N.opening seat.old.number attempt.now.order.session attempt.now.order.seed) done seat.old seat.new
        search.new.skips.version search.new.skips.moves.items result }
{
    match look(rt, seat, attempt, search, drawn) {
        Err(_) => Outcome::Refused,
        Ok(None) => Outcome::Idle,
        Ok(Some(found)) => propose(rt, seat, attempt, &mut search.skips, found),
    }
}
