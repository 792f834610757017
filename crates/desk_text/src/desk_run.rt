//! Runs over a desk.

ghost use Rattle.std.specs.Prelude.{◌≡◌, IfOk, IfErr};
ghost use Rattle.line_engine.specs.WholeRuns.{IsAnswered, IsStopped};
ghost use Rattle.board_text.specs.BoardSteps.{IsBoardStep, LacksMemory};
ghost use Rattle.desk_text.specs.DeskRuns.{IsHeld, IsHeldAtStop, IsOnlyDesk, board_state};

use crate::seated::Seated;
use crate::seating::Seating;
use board_lock::Naming;
use line_engine::{Counts, RunFault, run_lines};
use std::alloc::Global;
use std::io::{Read, Write};
use std::sync::Wait;

/// Answers the lines of a reader on a desk, as `run_lines` has it, while other desks of the board may submit calls.
///
/// What is written is, line by line, the texts of the replies that the desk's new list holds for the calls of these lines. A question is
/// answered in the state after all entries that the desk has seen by then, its own and those of other desks. `fault full` stands only where
/// the list at that line holds as many entries as the board may have. At a fault that holds for a prefix of the input, made of whole lines.
///
/// On a board of one desk that is what a board of one thread answers, entry by entry.
pub fn run_desk_lines<
    N: Naming,
    D: Wait + Drop,
    S: Seating<N, D> + Drop,
    R: Wait,
    I: Read,
    W: Write,
>(
    rt: &R,
    alloc: Global,
    front: &mut Seated<N, D, S>,
    reader: &mut I,
    writer: &mut W,
) -> Result<Counts, RunFault>
    requires { S.is_hall front.old.setup }
    ensures hall { S.is_hall front.new.setup }
    ensures ok { IfOk result (λ counts. IsHeld N.opening front.old.seat front.new.seat
        (I.remaining reader.old) (I.remaining reader.new) (W.contents writer.old) (W.contents writer.new) counts.lines counts.refused) }
    ensures err { IfErr result (λ e. IsHeldAtStop N.opening e front.old.seat front.new.seat
        (I.remaining reader.old) (I.remaining reader.new) (W.contents writer.old) (W.contents writer.new)) }
    ensures alone { N.opening.desks ≡ 1 → IsOnlyDesk front.old.seat
        → IfOk result (λ counts. IsAnswered IsBoardStep (board_state N.opening front.old.seat) (board_state N.opening front.new.seat)
        (I.remaining reader.old) (I.remaining reader.new) (W.contents writer.old) (W.contents writer.new) counts.lines counts.refused) }
    ensures alone_at_fault { N.opening.desks ≡ 1 → IsOnlyDesk front.old.seat
        → IfErr result (λ e. IsStopped IsBoardStep LacksMemory e
        (board_state N.opening front.old.seat) (board_state N.opening front.new.seat)
        (I.remaining reader.old) (I.remaining reader.new) (W.contents writer.old) (W.contents writer.new)) }
{
    front.seat.turns_are_seen();
    run_lines(rt, alloc, front, reader, writer)
}
