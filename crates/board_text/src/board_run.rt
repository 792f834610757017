//! Runs over a board.

ghost use Rattle.std.specs.Prelude.{IfOk, IfErr};
ghost use Rattle.board_core.specs.Boards.{history};
ghost use Rattle.line_engine.specs.WholeRuns.{IsAnswered, IsStopped};
ghost use Rattle.board_text.specs.BoardSteps.{desk_state, IsBoardStep, LacksMemory};

use crate::board_front::BoardFront;
use line_engine::{Counts, RunFault, run_lines};
use std::alloc::Global;
use std::io::{Read, Write};

/// Answers the lines of a reader on a desk of a board, as `run_lines` has it.
///
/// What is written is the texts of a legal history's replies, and the texts of the answers to questions in the states at which they come:
/// each line is read, and a call is journaled with the reply that the board's rules give it. At a fault that holds for a prefix of the
/// input, made of whole lines. At `Write` a prefix of the texts was written, and at any other fault all of them.
pub fn run_board_lines<R, I: Read, W: Write>(
    rt: &R,
    alloc: Global,
    front: &mut BoardFront,
    reader: &mut I,
    writer: &mut W,
) -> Result<Counts, RunFault>
    ensures ok { IfOk result (λ counts. IsAnswered IsBoardStep (desk_state (history front.old.board) front.old.desk front.old.turn)
        (desk_state (history front.new.board) front.new.desk front.new.turn) (I.remaining reader.old)
        (I.remaining reader.new) (W.contents writer.old) (W.contents writer.new) counts.lines counts.refused) }
    ensures err { IfErr result (λ e. IsStopped IsBoardStep LacksMemory e
        (desk_state (history front.old.board) front.old.desk front.old.turn)
        (desk_state (history front.new.board) front.new.desk front.new.turn) (I.remaining reader.old)
        (I.remaining reader.new) (W.contents writer.old) (W.contents writer.new)) }
{
    run_lines(rt, alloc, front, reader, writer)
}
