//! A worker.
ghost use Rattle.std.specs.Prelude.{◌≡◌};
ghost use Rattle.dimension_core.specs.Setup.{setting};
ghost use Rattle.search_workers.specs.Works.{Worked};

use crate::draws::{draw_round, sow};
use crate::gate::Gate;
use crate::round::{Attempt, Search, one_round};
use crate::tally::Tally;
use board_lock::{Naming, Seat};
use dimension_core::Setup;
use rbac_core::{Object, Operation};
use std::alloc::Global;
use std::sync::Wait;

/// The session by which a worker proposes, the seed from which it draws, and how many rounds it does.
#[derive(Clone, Copy, Drop)]
pub struct Order {
    pub session: u32,
    pub seed: u64,
    pub rounds: u32,
}

/// A worker: its number among the workers, from 1, a desk without its setup, and an order.
#[derive(Drop)]
pub struct Worker<N: Naming, R: Wait + Drop> {
    pub number: u32,
    pub seat: Seat<N, R>,
    pub order: Order,
}

/// What comes of a worker: its desk, and how its rounds ended.
#[derive(Drop)]
pub struct Work<N: Naming, R: Wait + Drop> {
    pub seat: Seat<N, R>,
    pub tally: Tally,
}

/// The rounds of a worker, as its order has them, by a desk whose setup is lent. `work` of `search_workers` says what a round is.
pub fn work_at<N: Naming, R: Wait + Drop, W: Wait, G: Gate<W>>(
    rt: &W,
    alloc: Global,
    setup: &Setup,
    worker: Worker<N, R>,
    gate: &G,
) -> Work<N, R>
    requires { setting setup.now ≡ N.opening.setting }
    ensures { Worked N.opening worker.order.session worker.order.seed worker.order.rounds worker.seat result.seat result.tally }
{
    let Worker {
        number,
        seat,
        order,
    } = worker;
    let mut seat = seat;
    seat.turns_are_seen();
    let vehicles = setup.vehicles();
    let mut rng = sow(order.seed);
    let mut search = Search::new(alloc);
    let mut tally = Tally::new();
    for done in 0..order.rounds {
        let drawn = draw_round(&mut rng, order.seed, vehicles, done);
        let attempt = Attempt {
            setup,
            gate,
            order,
            worker: number,
            number: done + 1,
        };
        let outcome = one_round(rt, &mut seat, &attempt, &mut search, drawn);
        tally.count(outcome);
        gate.done(rt, number, attempt.number, outcome);
    }
    let _may = seat.check(rt, order.session, Operation::View, Object::Board);
    Work { seat, tally }
}
