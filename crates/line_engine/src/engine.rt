//! The engine of lines.

ghost use Rattle.std.specs.Prelude.{◌≡◌, ◌+◌, ◌<◌, ◌≤◌, ◌⊎◌, ◌∷◌, [], ◌++◌, false, List, ℕ, length, map, OnOk, OnErr, IfOk, IfErr, string_bytes};
ghost use Rattle.std.specs.Io.KnownBytes.{Appends};
ghost use Rattle.text_words.specs.Words.{words as line_words};
ghost use Rattle.board_lines.specs.Reading.{after_word, read_of, words_read};
ghost use Rattle.board_lines.specs.declared.word.Word.TheVariants.{Propose, Hold, Manage};
ghost use Rattle.line_engine.specs.Leaving.{Gives, Drops};
ghost use Rattle.line_engine.specs.Marks.{Marks};
ghost use Rattle.line_engine.specs.Running.{body, Grows, Served, ServeBroken, Progress, Broken, IsLine, HasNoEnd, BrokenWithin, EndsLast, Finished, Reaches, last_line};
ghost use Rattle.line_engine.specs.WholeRuns.{IsAnswered, IsStopped};

use crate::answer::{OutOfMemory, obey, propose, reply, unread};
use crate::front::Front;
use crate::mark::Mark;
use crate::outbox::Outbox;
use crate::run_fault::{Counts, RunFault};
use board_lines::{
    Head, HoldWord, ManageWord, MoveWord, Order, Proposed, Word, read_command, read_head,
    read_hold, read_order, read_proposal,
};
use board_rules::Call;
use limits::{LONGEST_LINE, MOST_LINES};
use std::alloc::Global;
use std::io::{Read, Write};
use text_words::{Lines, keep_all_words};

/// Asks the front what a line says whose session and command are known, and replaces `text` by the text of the answer.
// Out of line, since what a line says is large: a line that is skipped, or bad by its head, pays nothing for it.
#[inline(never)]
fn ask<R, F: Front<R>>(
    rt: &R,
    front: &mut F,
    text: &mut String,
    session: u32,
    word: Word,
    arguments: &[&[u8]],
) -> Result<Mark, OutOfMemory>
    requires ready { F.ready front.old }
    ensures ready { F.ready front.new }
    ensures ok { IfOk result (Marks (λ outcome. Gives F.step (F.seen front.old) (after_word session word (map (λ w. w.now) arguments.now))
        outcome (F.seen front.new)) (string_bytes text.new)) }
    ensures err { OnErr result (Drops F.step F.refuses (F.seen front.old) (after_word session word (map (λ w. w.now) arguments.now))
        (F.seen front.new)) }
{
    text.clear();
    let alloc = *text.allocator();
    match read_command(alloc, session, word, arguments) {
        Ok(command) => obey(rt, front, text, command),
        Err(fault) => unread(fault),
    }
}

/// Submits to the front the proposal of a line whose session and word of a move are known, and replaces `text` by the text of the answer.
// Out of line as well; apart from `ask`, so that no line that makes a proposal pays for the room of other commands.
#[inline(never)]
fn ask_move<R, F: Front<R>>(
    rt: &R,
    front: &mut F,
    text: &mut String,
    session: u32,
    word: MoveWord,
    arguments: &[&[u8]],
) -> Result<Mark, OutOfMemory>
    requires ready { F.ready front.old }
    ensures ready { F.ready front.new }
    ensures ok { IfOk result (Marks (λ outcome. Gives F.step (F.seen front.old)
        (after_word session (Propose word) (map (λ w. w.now) arguments.now)) outcome (F.seen front.new)) (string_bytes text.new)) }
    ensures err { OnErr result (Drops F.step F.refuses (F.seen front.old)
        (after_word session (Propose word) (map (λ w. w.now) arguments.now)) (F.seen front.new)) }
{
    text.clear();
    match read_proposal(session, word, arguments) {
        Ok(Proposed { session, base, mv }) => propose(rt, front, text, session, base, mv),
        Err(fault) => Ok(Mark::Bad(fault)),
    }
}

/// Submits to the front the change of the policy of a line whose session and word are known, and replaces `text` by the text of the answer.
// Apart from `ask` for the same reason.
#[inline(never)]
fn ask_order<R, F: Front<R>>(
    rt: &R,
    front: &mut F,
    text: &mut String,
    session: u32,
    word: ManageWord,
    arguments: &[&[u8]],
) -> Result<Mark, OutOfMemory>
    requires ready { F.ready front.old }
    ensures ready { F.ready front.new }
    ensures ok { IfOk result (Marks (λ outcome. Gives F.step (F.seen front.old)
        (after_word session (Manage word) (map (λ w. w.now) arguments.now)) outcome (F.seen front.new)) (string_bytes text.new)) }
    ensures err { OnErr result (Drops F.step F.refuses (F.seen front.old)
        (after_word session (Manage word) (map (λ w. w.now) arguments.now)) (F.seen front.new)) }
{
    text.clear();
    match read_order(session, word, arguments) {
        Ok(Order { session, command }) => {
            reply(rt, front, text, Call::Policy { session, command })
        }
        Err(fault) => Ok(Mark::Bad(fault)),
    }
}

/// Submits to the front the call on a pin or on a frozen front of a line whose session and word are known, and replaces `text` by the text of
/// the answer.
// Apart from `ask` for the same reason.
#[inline(never)]
fn ask_hold<R, F: Front<R>>(
    rt: &R,
    front: &mut F,
    text: &mut String,
    session: u32,
    word: HoldWord,
    arguments: &[&[u8]],
) -> Result<Mark, OutOfMemory>
    requires ready { F.ready front.old }
    ensures ready { F.ready front.new }
    ensures ok { IfOk result (Marks (λ outcome. Gives F.step (F.seen front.old)
        (after_word session (Hold word) (map (λ w. w.now) arguments.now)) outcome (F.seen front.new)) (string_bytes text.new)) }
    ensures err { OnErr result (Drops F.step F.refuses (F.seen front.old)
        (after_word session (Hold word) (map (λ w. w.now) arguments.now)) (F.seen front.new)) }
{
    text.clear();
    match read_hold(session, word, arguments) {
        Ok(hold) => reply(rt, front, text, hold.call()),
        Err(fault) => Ok(Mark::Bad(fault)),
    }
}

/// Asks the front what a line of these words says, and replaces `text` by the text of the answer.
#[inline(always)]
fn answer<R, F: Front<R>>(
    rt: &R,
    front: &mut F,
    text: &mut String,
    words: &[&[u8]],
) -> Result<Mark, OutOfMemory>
    requires ready { F.ready front.old }
    ensures ready { F.ready front.new }
    ensures ok { IfOk result (Marks (λ outcome. Gives F.step (F.seen front.old) (words_read (map (λ w. w.now) words.now)) outcome
        (F.seen front.new)) (string_bytes text.new)) }
    ensures err { OnErr result (Drops F.step F.refuses (F.seen front.old) (words_read (map (λ w. w.now) words.now)) (F.seen front.new)) }
{
    match read_head(words) {
        Ok(Head::Skip) => Ok(Mark::Nothing),
        Ok(
            Head::Asks {
                session,
                word: Word::Propose(word),
                arguments,
            },
        ) => ask_move(rt, front, text, session, word, arguments),
        Ok(
            Head::Asks {
                session,
                word: Word::Manage(word),
                arguments,
            },
        ) => ask_order(rt, front, text, session, word, arguments),
        Ok(
            Head::Asks {
                session,
                word: Word::Hold(word),
                arguments,
            },
        ) => ask_hold(rt, front, text, session, word, arguments),
        Ok(
            Head::Asks {
                session,
                word,
                arguments,
            },
        ) => ask(rt, front, text, session, word, arguments),
        Err(fault) => Ok(Mark::Bad(fault)),
    }
}

/// Answers a line whose words, without the one carriage return at its end, are these, and holds the reply.
fn serve<R, F: Front<R>>(
    rt: &R,
    front: &mut F,
    outbox: &mut Outbox,
    words: &[&[u8]],
    line: &[u8],
) -> Result<(), RunFault>
    requires seen { outbox.old.tally.seen < MOST_LINES }
    requires ready { F.ready front.old }
    requires words { map (λ w. w.now) words.now ≡ line_words (body line.now) }
    ensures ready { F.ready front.new }
    ensures ok { OnOk result (Grows outbox.old.held.items outbox.new.held.items
        (λ out. Served F.step (F.seen front.old) (F.seen front.new) out line.now
        outbox.old.tally.seen outbox.new.tally.seen outbox.old.tally.lines outbox.new.tally.lines
        outbox.old.tally.refused outbox.new.tally.refused)) }
    ensures held { OnErr result (outbox.new.held.items ≡ outbox.old.held.items) }
    ensures err { IfErr result (λ e. ServeBroken F.step F.refuses e (F.seen front.old) (F.seen front.new) line.now) }
{
    let Ok(mark) = answer(rt, front, &mut outbox.text, words) else {
        return Err(RunFault::NoMemory);
    };
    outbox.put(mark)?;
    Ok(())
}

/// Answers a line, and holds the reply.
// Out of line, since few lines come in pieces, have no line end, or end with a carriage return: the words of others are cut already.
#[inline(never)]
fn serve_whole<R, F: Front<R>>(
    rt: &R,
    front: &mut F,
    outbox: &mut Outbox,
    line: &[u8],
) -> Result<(), RunFault>
    requires seen { outbox.old.tally.seen < MOST_LINES }
    requires ready { F.ready front.old }
    ensures ready { F.ready front.new }
    ensures ok { OnOk result (Grows outbox.old.held.items outbox.new.held.items
        (λ out. Served F.step (F.seen front.old) (F.seen front.new) out line.now
        outbox.old.tally.seen outbox.new.tally.seen outbox.old.tally.lines outbox.new.tally.lines
        outbox.old.tally.refused outbox.new.tally.refused)) }
    ensures held { OnErr result (outbox.new.held.items ≡ outbox.old.held.items) }
    ensures err { IfErr result (λ e. ServeBroken F.step F.refuses e (F.seen front.old) (F.seen front.new) line.now) }
{
    let body = line.strip_suffix(b"\r".as_slice()).unwrap_or(line);
    let mut words = Vec::new(*outbox.held.allocator());
    if keep_all_words(&mut words, body).is_err() {
        return Err(RunFault::NoMemory);
    }
    serve(rt, front, outbox, words.as_slice(), line)
}

/// Appends a further part of a line to the part that was read before.
fn keep(partial: &mut Vec<u8>, more: &[u8]) -> Result<(), RunFault>
    requires line { IsLine partial.old.items }
    requires plain { HasNoEnd more.now }
    ensures ok { OnOk result ((partial.new.items ≡ partial.old.items ++ more.now) × IsLine partial.new.items) }
    ensures err { IfErr result (λ e. (e ≡ RunFault.NoMemory)
        ⊎ ((e ≡ RunFault.LongLine) × (LONGEST_LINE < length (partial.old.items ++ more.now)))) }
{
    if more.len() > LONGEST_LINE - partial.len() {
        return Err(RunFault::LongLine);
    }
    partial.extend_from_slice(more)?;
    Ok(())
}

/// Whether a carriage return ends the line.
fn is_returned(line: &[u8]) -> bool
    ensures { result ≡ false → body line.now ≡ line.now }
{
    line.strip_suffix(b"\r".as_slice()).is_some()
}

/// Answers the line that ends with these bytes, which have these words.
fn take_line<R, F: Front<R>>(
    rt: &R,
    front: &mut F,
    outbox: &mut Outbox,
    partial: &mut Vec<u8>,
    words: &[&[u8]],
    more: &[u8],
) -> Result<(), RunFault>
    requires line { IsLine partial.old.items }
    requires plain { HasNoEnd more.now }
    requires ready { F.ready front.old }
    requires words { map (λ w. w.now) words.now ≡ line_words more.now }
    ensures ready { F.ready front.new }
    ensures ok { OnOk result (Grows outbox.old.held.items outbox.new.held.items
        (λ out. Progress F.step (F.seen front.old) (F.seen front.new) out
        (partial.old.items ++ (more.now ++ 10 ∷ [])) partial.new.items outbox.old.tally.seen outbox.new.tally.seen
        outbox.old.tally.lines outbox.new.tally.lines outbox.old.tally.refused outbox.new.tally.refused)) }
    ensures err { IfErr result (λ e. Grows outbox.old.held.items outbox.new.held.items
        (λ out. Broken F.step F.refuses e (F.seen front.old) (F.seen front.new)
        out outbox.old.tally.seen (partial.old.items ++ (more.now ++ 10 ∷ [])))) }
{
    if outbox.tally.is_full() {
        return Err(RunFault::Read);
    }
    if partial.is_empty() && more.len() <= LONGEST_LINE {
        if is_returned(more) {
            serve_whole(rt, front, outbox, more)?;
            return Ok(());
        }
        serve(rt, front, outbox, words, more)?;
        return Ok(());
    }
    keep(partial, more)?;
    serve_whole(rt, front, outbox, partial.as_slice())?;
    partial.clear();
    Ok(())
}

/// Takes the next bytes, and answers each line that is complete now, until the replies that are held are to be written: what is then left
/// of the bytes.
fn feed<'a, R, F: Front<R>>(
    rt: &R,
    front: &mut F,
    outbox: &mut Outbox,
    partial: &mut Vec<u8>,
    piece: &'a [u8],
) -> Result<&'a [u8], RunFault>
    requires line { IsLine partial.old.items }
    requires ready { F.ready front.old }
    ensures ready { F.ready front.new }
    ensures ok { IfOk result (λ left. (used : List ℕ) × (piece.now ≡ used ++ left.now)
        × Grows outbox.old.held.items outbox.new.held.items (λ out. Progress F.step (F.seen front.old) (F.seen front.new) out
        (partial.old.items ++ used) partial.new.items outbox.old.tally.seen outbox.new.tally.seen
        outbox.old.tally.lines outbox.new.tally.lines outbox.old.tally.refused outbox.new.tally.refused)) }
    ensures shorter { 0 < length piece.now → IfOk result (λ left. length left.now < length piece.now) }
    ensures err { IfErr result (λ e. Grows outbox.old.held.items outbox.new.held.items (λ out. BrokenWithin F.step F.refuses e
        (F.seen front.old) (F.seen front.new) out outbox.old.tally.seen partial.old.items piece.now)) }
{
    let mut words = Vec::with_capacity(*partial.allocator(), MANY_WORDS)?;
    let mut left = Lines::new(piece);
    'lines: loop {
        let Some(line) = left.keep_next(&mut words)? else {
            keep(partial, left.rest())?;
            return Ok(b"".as_slice());
        };
        take_line(rt, front, outbox, partial, words.as_slice(), line)?;
        if outbox.is_full() {
            return Ok(left.rest());
        }
    }
}

/// Most lines have at most this many words.
const MANY_WORDS: usize = 8;

/// Takes the next bytes, answers each line that is complete now, and writes replies once they are many.
fn take_piece<R, F: Front<R>, W: Write>(
    rt: &R,
    front: &mut F,
    outbox: &mut Outbox,
    partial: &mut Vec<u8>,
    writer: &mut W,
    piece: &[u8],
) -> Result<(), RunFault>
    requires line { IsLine partial.old.items }
    requires ready { F.ready front.old }
    requires none { outbox.old.held.items ≡ [] }
    ensures ready { F.ready front.new }
    ensures ok { OnOk result ((sent : List ℕ) × Appends (W.contents writer.old) (W.contents writer.new) sent
        × Progress F.step (F.seen front.old) (F.seen front.new)
        (sent ++ outbox.new.held.items) (partial.old.items ++ piece.now) partial.new.items outbox.old.tally.seen outbox.new.tally.seen
        outbox.old.tally.lines outbox.new.tally.lines outbox.old.tally.refused outbox.new.tally.refused) }
    ensures err { IfErr result (λ e. (out : List ℕ) × Reaches e (W.contents writer.old) (W.contents writer.new) out
        × BrokenWithin F.step F.refuses e (F.seen front.old) (F.seen front.new) out outbox.old.tally.seen partial.old.items piece.now) }
{
    let mut left = piece;
    'parts: while !left.is_empty() {
        match feed(rt, front, outbox, partial, left) {
            Ok(after) => left = after,
            Err(fault) => return Err(outbox.close(writer, fault)),
        }
        if outbox.is_full() {
            outbox.hand_on(writer)?;
        }
    }
    Ok(())
}

/// Answers what follows the last line end, if anything does.
fn finish<R, F: Front<R>>(
    rt: &R,
    front: &mut F,
    outbox: &mut Outbox,
    partial: &[u8],
) -> Result<(), RunFault>
    requires line { IsLine partial.now }
    requires ready { F.ready front.old }
    ensures ready { F.ready front.new }
    ensures ok { OnOk result (Grows outbox.old.held.items outbox.new.held.items
        (λ out. Finished F.step (F.seen front.old) (F.seen front.new) out
        partial.now outbox.old.tally.lines outbox.new.tally.lines outbox.old.tally.refused outbox.new.tally.refused)) }
    ensures few { OnOk result (outbox.old.tally.seen + length (last_line partial.now) ≤ MOST_LINES) }
    ensures held { OnErr result (outbox.new.held.items ≡ outbox.old.held.items) }
    ensures err { IfErr result (λ e. EndsLast F.step F.refuses e (F.seen front.old) (F.seen front.new) outbox.old.tally.seen partial.now) }
{
    if partial.is_empty() {
        return Ok(());
    }
    if outbox.tally.is_full() {
        return Err(RunFault::Read);
    }
    serve_whole(rt, front, outbox, partial)?;
    Ok(())
}

/// How many bytes are read at a time.
const CHUNK_BYTES: usize = 65_536;

/// Reads lines to the end of the input, has the front answer each, and writes the replies, in order.
///
/// A line ends at a line feed or at the end of the input, and one carriage return before that end is dropped. Replies are collected; before
/// each read, and at the end, they are written and the writer is flushed. An error of the reader or the writer ends the run at once, also
/// `Interrupted`; so does a write that takes no byte.
///
/// At a fault other than `Write`, the replies to all earlier lines were written in full. At `Write` only a prefix of them was written, and
/// the front stands after the calls of all lines that were answered, whether their replies were written or not. At `NoMemory` the front may
/// have taken the call of the current line, whose reply is then not written.
pub fn run_lines<R, F: Front<R>, I: Read, W: Write>(
    rt: &R,
    alloc: Global,
    front: &mut F,
    reader: &mut I,
    writer: &mut W,
) -> Result<Counts, RunFault>
    requires { F.ready front.old }
    ensures ready { F.ready front.new }
    ensures ok { IfOk result (λ counts. IsAnswered F.step (F.seen front.old) (F.seen front.new) (I.remaining reader.old)
        (I.remaining reader.new) (W.contents writer.old) (W.contents writer.new) counts.lines counts.refused) }
    ensures err { IfErr result (λ e. IsStopped F.step F.refuses e (F.seen front.old) (F.seen front.new) (I.remaining reader.old)
        (I.remaining reader.new) (W.contents writer.old) (W.contents writer.new)) }
{
    let mut partial = Vec::new(alloc);
    let mut outbox = Outbox::new(alloc)?;
    let mut chunk = [0u8; CHUNK_BYTES];
    'reads: for _ in 0..u64::MAX {
        outbox.flush(writer)?;
        let Ok(count) = reader.read(&mut chunk) else {
            return Err(RunFault::Read);
        };
        if count == 0 {
            if let Err(fault) = finish(rt, front, &mut outbox, partial.as_slice()) {
                return Err(outbox.close(writer, fault));
            }
            outbox.flush(writer)?;
            return Ok(Counts {
                lines: outbox.tally.lines,
                refused: outbox.tally.refused,
            });
        }
        take_piece(
            rt,
            front,
            &mut outbox,
            &mut partial,
            writer,
            &chunk[..count],
        )?;
    }
    Err(outbox.close(writer, RunFault::Read))
}
