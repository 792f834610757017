//! The joined form: an instance, a line `%%` and a script in one input.

ghost use Rattle.std.specs.Prelude.{◌≡◌, ◌⊎◌, IfSome};
ghost use Rattle.board_program.specs.Joined.{IsEnd, IsJoined, IsOfHalves};
ghost use Rattle.program_parts.specs.Head.{Halves, halves};
ghost use Rattle.program_parts.specs.Streams.{streams_of, AgreesWithStatus};

use crate::standard::run_board;
use crate::status::ended;
use board_text::Counts;
use program_parts::{Parts, Stop, read_parts};
use solomon_reader::read;
use std::alloc::Global;
use std::io::{Read, Write};

/// Reads the instance, opens its board, and answers the script behind it.
fn run_joined<I: Read, W: Write>(
    alloc: Global,
    reader: &mut I,
    writer: &mut W,
) -> Result<Counts, Stop>
    ensures known { IfSome (I.remaining reader.old) (λ bytes. IsEnd (halves bytes) (W.contents writer.old) (W.contents writer.new) result) }
    ensures ran { (h : Halves) × IsEnd h (W.contents writer.old) (W.contents writer.new) result }
{
    let Parts {
        instance,
        piece,
        used,
        goes_on,
    } = read_parts(alloc, reader)?;
    let instance = read(alloc, instance.as_slice())?;
    if goes_on {
        let mut script = (&piece[used..]).chain(reader);
        run_board(alloc, instance, &mut script, writer, None::<&mut Vec<u8>>)
    } else {
        let mut script = &piece[used..];
        run_board(alloc, instance, &mut script, writer, None::<&mut Vec<u8>>)
    }
}

/// The joined form of the program: its input is an instance in Solomon's format, a line that is exactly `%%` and a script
/// of lines for desk 1. Without the line `%%` the script is empty. One carriage return before the line's line feed is
/// dropped. The replies go to `writer`, which is flushed before each read and at the end.
///
/// The status is 0 where each line was done, 1 where a line counted as refused, and 3 where the run ended early. `faults`
/// then has one line, which begins with `dispatch: `: `instance fault KIND line N`; `open fault`, where memory ran out
/// before the script; or `run fault KIND`, where `read` also stands for a read that fails before the line `%%`, and for
/// more than 16,777,216 bytes before it.
pub fn joined<I: Read, W: Write, F: Write>(
    alloc: Global,
    reader: &mut I,
    writer: &mut W,
    faults: &mut F,
) -> u8
    ensures status { (result ≡ 0) ⊎ (result ≡ 1) ⊎ (result ≡ 3) }
    ensures reported { AgreesWithStatus (F.contents faults.old) (F.contents faults.new) result }
    ensures joined { IfSome (I.remaining reader.old) (λ bytes. IsJoined bytes
        (streams_of (W.contents writer.old) (W.contents writer.new) (F.contents faults.old) (F.contents faults.new)) result) }
    ensures ran { (h : Halves) × IsOfHalves h
        (streams_of (W.contents writer.old) (W.contents writer.new) (F.contents faults.old) (F.contents faults.new)) result }
{
    ended(faults, run_joined(alloc, reader, writer))
}
