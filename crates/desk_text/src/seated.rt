//! A seat with the setup of its hall, as a front.

use crate::seating::Seating;
use board_lock::{Naming, Seat, proposals_have_verdicts, verdict_of};
use board_rules::{AskFault, Call, Denial, Fault, Reply, Review, Row};
use line_engine::{Front, append_journal};
use move_core::Move;
use rbac_core::{Object, Operation};
use separation_core::Name;
use std::sync::Wait;

/// A seat and the setup of its hall, whose type is open: a desk, to functions that may not see the closures of a setup.
#[derive(Drop)]
pub struct Seated<N: Naming, D: Wait + Drop, S: Drop> {
    pub setup: S,
    pub seat: Seat<N, D>,
}

impl<N: Naming, D: Wait + Drop, S: Seating<N, D> + Drop, R: Wait> Front<R> for Seated<N, D, S> {
    ghost use Rattle.board_lock.specs.Watches.{Watch};
    ghost use Rattle.board_lock.specs.DeskSteps.{IsDeskStep, DeskLacksMemory};

    ghost State = { Watch };

    ghost seen = { λ front. front.seat };

    ghost ready = { λ front. S.is_hall front.setup };

    ghost step = { λ old command answer new. IsDeskStep N.opening old command answer new };

    ghost refuses = { λ old command new. DeskLacksMemory N.opening old command new };

    fn submit(&mut self, rt: &R, call: Call) -> Result<Reply, Fault> {
        self.setup.submit(rt, &mut self.seat, call)
    }

    fn propose(
        &mut self,
        rt: &R,
        session: u32,
        base: u32,
        mv: Move,
    ) -> Result<Result<u32, Denial>, Fault> {
        proposals_have_verdicts();
        let call = Call::Propose { session, base, mv };
        match self.setup.submit(rt, &mut self.seat, call) {
            Ok(reply) => Ok(verdict_of(reply)),
            Err(fault) => Err(fault),
        }
    }

    fn list(&mut self, rt: &R, session: u32) -> Result<Vec<Row>, AskFault> {
        self.setup.list(rt, &mut self.seat, session)
    }

    fn audit(&mut self, rt: &R, session: u32, text: &mut String) -> Result<(), AskFault> {
        match self.seat.audit(rt, session) {
            Ok(journal) => append_journal(text, &journal),
            Err(fault) => Err(fault),
        }
    }

    fn review(&mut self, rt: &R, session: u32, which: Review) -> Result<Vec<Name>, AskFault> {
        self.seat.review(rt, session, which)
    }

    fn check(&mut self, rt: &R, session: u32, operation: Operation, object: Object) -> bool {
        self.seat.check(rt, session, operation, object)
    }
}
