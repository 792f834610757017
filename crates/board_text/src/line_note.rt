//! The note on a line that was answered with no.

ghost use Rattle.std.specs.Prelude.{IfOk, string_bytes};
ghost use Rattle.board_text.specs.Numbered.{IsNumbered};

use crate::meaning::{end_meaning, question_meaning, refusal_meaning, word_meaning};
use crate::note::explained;
use crate::text::push_note;
use crate::word::bad_word;
use board_core::Board;
use board_journal::Kept;
use board_lines::{Command, LineFault, ReadFault, read_words};
use board_rules::{AskFault, Call, Denial, Reply, Review, legal_histories_leave_good_states};
use denial_facts::numbered;
use line_engine::RunFault;
use move_core::Move;
use std::alloc::{AllocError, Global};
use text_words::keep_all_words;

/// Appends what a denial means on a board that gave it last.
fn push_denial(
    out: &mut String,
    alloc: Global,
    board: &Board,
    mv: &Move,
    denial: Denial,
) -> Result<(), AllocError> {
    legal_histories_leave_good_states();
    let note = explained(alloc, board.setup(), board.plan(), mv, denial)?;
    push_note(out, note)
}

/// Appends what a reply means that is no denial.
fn push_refusal(out: &mut String, reply: Reply) -> Result<(), AllocError> {
    match reply {
        Reply::Refused(refusal) => out.push_str(refusal_meaning(&refusal)),
        _ => Ok(()),
    }
}

/// Appends what the reply of an entry means.
fn push_entry(
    out: &mut String,
    alloc: Global,
    board: &Board,
    entry: Kept<'_>,
) -> Result<(), AllocError> {
    match entry {
        Kept::Proposal { mv, answer, .. } => match answer.verdict() {
            Ok(_) => Ok(()),
            Err(denial) => push_denial(out, alloc, board, mv, denial),
        },
        Kept::Hold { ruling, .. } => push_refusal(out, ruling.reply()),
        Kept::Whole(entry) => match &entry.call {
            Call::Propose { mv, .. } => match entry.reply {
                Reply::Denied(denial) => push_denial(out, alloc, board, mv, denial),
                _ => Ok(()),
            },
            _ => push_refusal(out, entry.reply),
        },
    }
}

/// The most bytes of a word that are shown.
const MOST_SHOWN: usize = 40;

/// Appends a word between quotation marks. What is no visible ASCII character is shown as a question mark, and a long word by its beginning.
fn push_word(out: &mut String, word: &[u8]) -> Result<(), AllocError> {
    out.push_str("'")?;
    for (at, byte) in word.iter().enumerate() {
        if at == MOST_SHOWN {
            out.push_str("..")?;
            break;
        }
        let shown = if byte.is_ascii_graphic() { *byte } else { b'?' };
        out.push_str(str::from_utf8(&[shown]).unwrap_or("?"))?;
    }
    out.push_str("'")
}

/// Appends why a line is bad.
fn push_bad(out: &mut String, words: &[&[u8]], fault: LineFault) -> Result<(), AllocError> {
    match bad_word(words, fault) {
        Some(word) => {
            push_word(out, word)?;
            out.push_str(word_meaning(fault))
        }
        None => out.push_str("the line has no command"),
    }
}

/// Why a board does not answer a review.
fn review_fault(board: &Board, session: u32, which: Review) -> Option<AskFault> {
    match board.review(session, which) {
        Ok(_) => None,
        Err(fault) => Some(fault),
    }
}

/// Why a board does not answer an audit.
fn audit_fault(board: &Board, session: u32) -> Option<AskFault> {
    match board.audit(session) {
        Ok(_) => None,
        Err(fault) => Some(fault),
    }
}

/// Appends why a question was not answered.
fn push_question(out: &mut String, fault: Option<AskFault>) -> Result<(), AllocError> {
    match fault {
        Some(fault) => out.push_str(question_meaning(fault)),
        None => Ok(()),
    }
}

/// Appends why a line, by what was read of its words, is answered with no, and nothing is journaled.
fn push_unanswered(
    out: &mut String,
    board: &Board,
    words: &[&[u8]],
    read: &Result<Command, ReadFault>,
) -> Result<(), AllocError> {
    match read {
        Ok(Command::Submit(_)) => out.push_str("the journal is full"),
        Ok(Command::Review { session, which }) => {
            push_question(out, review_fault(board, *session, *which))
        }
        Ok(Command::Audit { session }) => push_question(out, audit_fault(board, *session)),
        Ok(_) => push_question(out, Some(AskFault::NoSession)),
        Err(ReadFault::Line(fault)) => push_bad(out, words, *fault),
        Err(ReadFault::NoMemory) => Err(AllocError),
    }
}

/// The same of a line.
fn push_unjournaled(
    out: &mut String,
    alloc: Global,
    board: &Board,
    line: &[u8],
) -> Result<(), AllocError> {
    let mut words = Vec::new(alloc);
    keep_all_words(&mut words, line)?;
    let read = read_words(alloc, words.as_slice());
    push_unanswered(out, board, words.as_slice(), &read)
}

/// The note on a line, by its number, that a board answered with no as its last one. Before the line it had so many entries.
pub(crate) fn line_note(
    alloc: Global,
    board: &Board,
    before: usize,
    line: &[u8],
    number: u64,
) -> Result<String, AllocError>
    ensures { IfOk result (λ text. IsNumbered number (string_bytes text)) }
{
    let mut note = String::new(alloc);
    match board.core.journal().get(before) {
        Some(entry) => push_entry(&mut note, alloc, board, entry)?,
        None => push_unjournaled(&mut note, alloc, board, line)?,
    }
    numbered(alloc, number, &note)
}

/// The note on the line at which a run ended early.
pub(crate) fn end_note(alloc: Global, fault: RunFault, number: u64) -> Result<String, AllocError>
    ensures { IfOk result (λ text. IsNumbered number (string_bytes text)) }
{
    numbered(alloc, number, end_meaning(fault))
}
