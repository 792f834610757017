//! A desk as a front: what answers lines while other desks may submit calls.

use crate::desk::DeskOf;
use crate::held::Held;
use crate::laws::proposals_have_verdicts;
use crate::verdict::verdict_of;
use board_rules::{AskFault, Call, Denial, Fault, Reply, Review, Row};
use line_engine::{Front, append_journal};
use move_core::Move;
use published_board::Naming;
use rbac_core::{Object, Operation};
use separation_core::Name;
use std::sync::Wait;

impl<N: Naming, D: Wait + Drop, R: Wait> Front<R> for DeskOf<N, Held<N, D>> {
    ghost use Rattle.std.specs.Prelude.{◌≡◌};
    ghost use Rattle.dimension_core.specs.Setup.{setting};
    ghost use Rattle.board_lock.specs.Watches.{Watch};
    ghost use Rattle.board_lock.specs.DeskSteps.{IsDeskStep, DeskLacksMemory};

    ghost State = { Watch };

    ghost seen = { λ desk. desk.seat };

    ghost ready = { λ desk. setting desk.setup.value ≡ N.opening.setting };

    ghost step = { λ old command answer new. IsDeskStep N.opening old command answer new };

    ghost refuses = { λ old command new. DeskLacksMemory N.opening old command new };

    fn submit(&mut self, rt: &R, call: Call) -> Result<Reply, Fault> {
        self.seat.submit(rt, &self.setup, call)
    }

    fn propose(
        &mut self,
        rt: &R,
        session: u32,
        base: u32,
        mv: Move,
    ) -> Result<Result<u32, Denial>, Fault> {
        proposals_have_verdicts();
        let call = Call::Propose { session, base, mv };
        match self.seat.submit(rt, &self.setup, call) {
            Ok(reply) => Ok(verdict_of(reply)),
            Err(fault) => Err(fault),
        }
    }

    fn list(&mut self, rt: &R, session: u32) -> Result<Vec<Row>, AskFault> {
        self.seat.list(rt, &self.setup, session)
    }

    // The lock is held while the journal is taken, whose pages are shared, and not while its text is written.
    fn audit(&mut self, rt: &R, session: u32, text: &mut String) -> Result<(), AskFault> {
        match self.seat.audit(rt, session) {
            Ok(journal) => append_journal(text, &journal),
            Err(fault) => Err(fault),
        }
    }

    fn review(&mut self, rt: &R, session: u32, which: Review) -> Result<Vec<Name>, AskFault> {
        self.seat.review(rt, session, which)
    }

    fn check(&mut self, rt: &R, session: u32, operation: Operation, object: Object) -> bool {
        self.seat.check(rt, session, operation, object)
    }
}
