//! A run with notes.

ghost use Rattle.std.specs.Prelude.{◌≡◌, ◌≤◌, ◌+◌, ◌<◌, ◌^◌, [], IfOk, IfErr};
ghost use Rattle.board_lines.specs.declared.command.Command.TheVariants.{Skip};
ghost use Rattle.line_engine.specs.WholeRuns.{IsAnswered, IsStopped};
ghost use Rattle.board_text.specs.Fed.{IsTextAnswered, IsTextStopped, as_whole};

use crate::feed::{Feed, Piece};
use crate::line_note::end_note;
use crate::notes::Notes;
use limits::MOST_LINES;
use line_engine::{Counts, Front, RunFault, run_lines, write_whole};
use std::alloc::{AllocError, Global};
use std::io::{Read, Write};

/// Writes a note, if there was memory for it. A stream of notes that fails changes nothing.
fn tell<E: Write>(notes: &mut E, note: Result<String, AllocError>) {
    if let Ok(note) = note {
        let _ = write_whole(notes, note.as_bytes());
        let _ = notes.flush();
    }
}

/// A line without its line end and the one carriage return before it.
fn body(line: &[u8]) -> &[u8] {
    let line = line.strip_suffix(b"\n".as_slice()).unwrap_or(line);
    line.strip_suffix(b"\r".as_slice()).unwrap_or(line)
}

/// The fault of a run over one line, as that of the whole run. A line that is held can be read to its end, so no read of it fails.
fn as_whole(fault: RunFault) -> RunFault
    ensures { result ≡ as_whole fault }
{
    match fault {
        RunFault::Read => RunFault::NoMemory,
        RunFault::Write => RunFault::Write,
        RunFault::LongLine => RunFault::LongLine,
        RunFault::NoMemory => RunFault::NoMemory,
    }
}

/// Answers a line, and writes the note on it.
fn answer_line<R, F: Front<R> + Notes, W: Write, E: Write>(
    rt: &R,
    front: &mut F,
    line: Vec<u8>,
    number: u64,
    writer: &mut W,
    notes: &mut E,
) -> Result<Counts, RunFault>
    requires { F.ready front.old }
    ensures ready { F.ready front.new }
    ensures ok { IfOk result (IsTextAnswered F.step (F.seen front.old) (F.seen front.new)
        line.items (W.contents writer.old) (W.contents writer.new)) }
    ensures err { IfErr result (λ e. IsTextStopped F.step F.refuses e (F.seen front.old) (F.seen front.new)
        line.items (W.contents writer.old) (W.contents writer.new)) }
{
    let alloc = *line.allocator();
    let before = front.events();
    let mut bytes = line.as_slice();
    match run_lines(rt, alloc, front, &mut bytes, writer) {
        Ok(counts) => {
            if counts.refused > 0 {
                tell(
                    notes,
                    front.note(alloc, before, body(line.as_slice()), number),
                );
            }
            Ok(counts)
        }
        Err(fault) => Err(as_whole(fault)),
    }
}

/// The counts of two runs, one behind the other.
fn plus(first: Counts, second: Counts) -> Counts
    requires lines { first.lines + second.lines < 2 ^ 64 }
    requires refused { first.refused + second.refused < 2 ^ 64 }
    ensures lines { result.lines ≡ first.lines + second.lines }
    ensures refused { result.refused ≡ first.refused + second.refused }
{
    Counts {
        lines: first.lines + second.lines,
        refused: first.refused + second.refused,
    }
}

/// Answers line after line of a feed of which nothing is read yet. Its number becomes that of the line at which the run ends.
fn answer_lines<R, F: Front<R> + Notes, I: Read, W: Write, E: Write>(
    rt: &R,
    front: &mut F,
    feed: &mut Feed,
    reader: &mut I,
    writer: &mut W,
    notes: &mut E,
) -> Result<Counts, RunFault>
    requires feed { feed.old.held.items ≡ [] }
    requires ready { F.ready front.old }
    requires skips { (old : F.State) (new : F.State) → F.refuses old Skip new → new ≡ old }
    ensures ready { F.ready front.new }
    ensures ok { IfOk result (λ counts. IsAnswered F.step (F.seen front.old)
        (F.seen front.new) (I.remaining reader.old)
        (I.remaining reader.new) (W.contents writer.old) (W.contents writer.new) counts.lines counts.refused) }
    ensures err { IfErr result (λ e. IsStopped F.step F.refuses e (F.seen front.old)
        (F.seen front.new) (I.remaining reader.old)
        (I.remaining reader.new) (W.contents writer.old) (W.contents writer.new)) }
{
    let mut counts = Counts {
        lines: 0,
        refused: 0,
    };
    'lines: for before in 0..MOST_LINES {
        feed.number = before + 1;
        match feed.next(reader)? {
            Piece::Line(line) => {
                let more = answer_line(rt, front, line, before + 1, writer, notes)?;
                counts = plus(counts, more);
            }
            Piece::Last(rest) => {
                let more = answer_line(rt, front, rest, before + 1, writer, notes)?;
                return Ok(plus(counts, more));
            }
            Piece::Long => return Err(RunFault::LongLine),
        }
    }
    Err(RunFault::Read)
}

/// Answers the lines of a reader by a front, with the contract of `run_lines`: the same replies, counts and faults, each
/// line by a call of that function. Behind the reply of a line that counts as refused, `notes` gets one line, `line N: ..`, with the number
/// of the script's line, from 1, and what the reply means; so it does where the run ends early. The replies are written and flushed before
/// the note. A note is left out where memory runs out for it or `notes` fails; the run goes on.
pub fn run_explained_lines<R, F: Front<R> + Notes, I: Read, W: Write, E: Write>(
    rt: &R,
    alloc: Global,
    front: &mut F,
    reader: &mut I,
    writer: &mut W,
    notes: &mut E,
) -> Result<Counts, RunFault>
    requires ready { F.ready front.old }
    requires skips { (old : F.State) (new : F.State) → F.refuses old Skip new → new ≡ old }
    ensures ready { F.ready front.new }
    ensures ok { IfOk result (λ counts. IsAnswered F.step (F.seen front.old)
        (F.seen front.new) (I.remaining reader.old)
        (I.remaining reader.new) (W.contents writer.old) (W.contents writer.new) counts.lines counts.refused) }
    ensures err { IfErr result (λ e. IsStopped F.step F.refuses e (F.seen front.old)
        (F.seen front.new) (I.remaining reader.old)
        (I.remaining reader.new) (W.contents writer.old) (W.contents writer.new)) }
{
    let mut feed = Feed::new(alloc);
    let end = answer_lines(rt, front, &mut feed, reader, writer, notes);
    if let Err(fault) = &end {
        tell(notes, end_note(alloc, *fault, feed.number));
    }
    end
}

/// Answers the lines of a reader by a front: with notes, where there is a stream for them, or alone. The contract is the same.
pub fn run_noted_lines<R, F: Front<R> + Notes, I: Read, W: Write, E: Write>(
    rt: &R,
    alloc: Global,
    front: &mut F,
    reader: &mut I,
    writer: &mut W,
    notes: Option<&mut E>,
) -> Result<Counts, RunFault>
    requires ready { F.ready front.old }
    requires skips { (old : F.State) (new : F.State) → F.refuses old Skip new → new ≡ old }
    ensures ready { F.ready front.new }
    ensures ok { IfOk result (λ counts. IsAnswered F.step (F.seen front.old)
        (F.seen front.new) (I.remaining reader.old)
        (I.remaining reader.new) (W.contents writer.old) (W.contents writer.new) counts.lines counts.refused) }
    ensures err { IfErr result (λ e. IsStopped F.step F.refuses e (F.seen front.old)
        (F.seen front.new) (I.remaining reader.old)
        (I.remaining reader.new) (W.contents writer.old) (W.contents writer.new)) }
{
    match notes {
        Some(notes) => run_explained_lines(rt, alloc, front, reader, writer, notes),
        None => run_lines(rt, alloc, front, reader, writer),
    }
}
