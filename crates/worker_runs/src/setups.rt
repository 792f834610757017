//! The setup of a hall, as its desks need it.
//!
//! A function that has it as a type parameter sees none of the closures in it. So it may ask that it is the setup of a named hall, and pass
//! it on.
ghost use Rattle.std.specs.Prelude.{◌≡◌, IfOk, IfErr};
ghost use Rattle.dimension_core.specs.Setting.{Setting};
ghost use Rattle.board_lines.specs.declared.command.Command.TheVariants as commands;
ghost use Rattle.line_engine.specs.Answers.{Replied, Listed};
ghost use Rattle.line_engine.specs.Fronts.{MayFault, MayRefuse};
ghost use Rattle.board_lock.specs.DeskSteps.{IsDeskStep, DeskLacksMemory};

use board_lock::{Naming, Seat};
use board_rules::{AskFault, Call, Fault, Reply, Row};
use desk_text::Seating;
use dimension_core::Setup;
use std::sync::{Arc, Wait};

/// The setup of a hall.
pub trait Setups {
    // What a board is opened with.
    ghost setting_of: { Self → Setting };

    /// Submits a call of a seat of the hall.
    fn submit<N: Naming, D: Wait + Drop, W: Wait>(
        &self,
        rt: &W,
        seat: &mut Seat<N, D>,
        call: Call,
    ) -> Result<Reply, Fault>
        requires { setting_of self.now ≡ N.opening.setting }
        ensures ok { IfOk result (λ reply. IsDeskStep N.opening seat.old (commands.Submit call) (Replied reply) seat.new) }
        ensures err { IfErr result (λ fault. MayFault (IsDeskStep N.opening) (DeskLacksMemory N.opening) seat.old call fault seat.new) };

    /// The rows that a session of a seat of the hall may view.
    fn list<N: Naming, D: Wait + Drop, W: Wait>(
        &self,
        rt: &W,
        seat: &mut Seat<N, D>,
        session: u32,
    ) -> Result<Vec<Row>, AskFault>
        requires { setting_of self.now ≡ N.opening.setting }
        ensures ok { IfOk result (λ rows. IsDeskStep N.opening seat.old (commands.List session) (Listed rows.items) seat.new) }
        ensures err { IfErr result (λ fault. MayRefuse (IsDeskStep N.opening)
            (DeskLacksMemory N.opening) seat.old (commands.List session) fault seat.new) };
}

impl Setups for Arc<Setup> {
    ghost use Rattle.dimension_core.specs.Setup.{setting};

    ghost setting_of = { λ setup. setting setup.value };

    fn submit<N: Naming, D: Wait + Drop, W: Wait>(
        &self,
        rt: &W,
        seat: &mut Seat<N, D>,
        call: Call,
    ) -> Result<Reply, Fault> {
        seat.submit(rt, self, call)
    }

    fn list<N: Naming, D: Wait + Drop, W: Wait>(
        &self,
        rt: &W,
        seat: &mut Seat<N, D>,
        session: u32,
    ) -> Result<Vec<Row>, AskFault> {
        seat.list(rt, self, session)
    }
}

/// A setup, as a seat is given it to answer lines.
#[derive(Drop)]
pub struct SetupOf<S: Drop> {
    pub setup: S,
}

impl<N: Naming, D: Wait + Drop, S: Setups + Drop> Seating<N, D> for SetupOf<S> {
    ghost use Rattle.std.specs.Prelude.{◌≡◌};

    ghost is_hall = { λ by. S.setting_of by.setup ≡ N.opening.setting };

    fn submit<W: Wait>(&self, rt: &W, seat: &mut Seat<N, D>, call: Call) -> Result<Reply, Fault> {
        self.setup.submit(rt, seat, call)
    }

    fn list<W: Wait>(
        &self,
        rt: &W,
        seat: &mut Seat<N, D>,
        session: u32,
    ) -> Result<Vec<Row>, AskFault> {
        self.setup.list(rt, seat, session)
    }
}
