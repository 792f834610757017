//! What a seat is given to answer lines.

ghost use Rattle.std.specs.Prelude.{IfOk, IfErr};
ghost use Rattle.board_lines.specs.declared.command.Command.{Command};
ghost use Rattle.line_engine.specs.Answers.{Replied, Listed};
ghost use Rattle.line_engine.specs.Fronts.{MayFault, MayRefuse};
ghost use Rattle.board_lock.specs.DeskSteps.{IsDeskStep, DeskLacksMemory};

use board_lock::{Naming, Seat};
use board_rules::{AskFault, Call, Fault, Reply, Row};
use dimension_core::Setup;
use std::sync::{Arc, Wait};

/// The setup of a hall, as its seats need it. A function that has it as a type parameter sees none of the closures in it, so that it may ask
/// that it is the hall's, and pass a seat with it to the engine of lines.
pub trait Seating<N: Naming, D: Wait + Drop> {
    // It is the setup of the hall.
    ghost is_hall: { Self → Type 0 };

    /// Submits a call of the seat.
    fn submit<W: Wait>(&self, rt: &W, seat: &mut Seat<N, D>, call: Call) -> Result<Reply, Fault>
        requires { is_hall self.now }
        ensures ok { IfOk result (λ reply. IsDeskStep N.opening seat.old (Command.Submit call) (Replied reply) seat.new) }
        ensures err { IfErr result (λ fault. MayFault (IsDeskStep N.opening) (DeskLacksMemory N.opening) seat.old call fault seat.new) };

    /// The rows that a session of the seat may view.
    fn list<W: Wait>(
        &self,
        rt: &W,
        seat: &mut Seat<N, D>,
        session: u32,
    ) -> Result<Vec<Row>, AskFault>
        requires { is_hall self.now }
        ensures ok { IfOk result (λ rows. IsDeskStep N.opening seat.old (Command.List session) (Listed rows.items) seat.new) }
        ensures err { IfErr result (λ fault. MayRefuse (IsDeskStep N.opening)
            (DeskLacksMemory N.opening) seat.old (Command.List session) fault seat.new) };
}

impl<N: Naming, D: Wait + Drop> Seating<N, D> for Arc<Setup> {
    ghost use Rattle.std.specs.Prelude.{◌≡◌};
    ghost use Rattle.dimension_core.specs.Setup.{setting};

    ghost is_hall = { λ setup. setting setup.value ≡ N.opening.setting };

    fn submit<W: Wait>(&self, rt: &W, seat: &mut Seat<N, D>, call: Call) -> Result<Reply, Fault> {
        seat.submit(rt, self, call)
    }

    fn list<W: Wait>(
        &self,
        rt: &W,
        seat: &mut Seat<N, D>,
        session: u32,
    ) -> Result<Vec<Row>, AskFault> {
        seat.list(rt, self, session)
    }
}
