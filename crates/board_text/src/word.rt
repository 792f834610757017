//! The word for which a line is bad.

ghost use Rattle.std.specs.Prelude.{◌≡◌};

use board_lines::{AskWord, Head, LineFault, ManageWord, Word, read_head};
use separation_core::Name;
use text_words::number_of;

/// Where the words of a command that must be numbers begin, among its arguments.
fn first_number(word: Word) -> usize {
    match word {
        Word::Manage(_) => 3,
        Word::Ask(AskWord::Check) => 2,
        Word::Separate(_, _) => 1,
        _ => 0,
    }
}

/// Where the word for the operation stands, among the arguments of a command that has one. The word for the kind of object follows it.
fn operation_at(word: Word) -> usize {
    match word {
        Word::Manage(_) => 1,
        _ => 0,
    }
}

/// The first of some words, from a place on, that is no number.
fn no_number<'a>(words: &'a [&'a [u8]], from: usize) -> Option<&'a [u8]> {
    for (at, word) in words.iter().enumerate() {
        if at >= from && number_of(word).is_none() {
            return Some(word);
        }
    }
    None
}

/// The first of some words that is no name.
fn no_name<'a>(words: &'a [&'a [u8]]) -> Option<&'a [u8]> {
    for word in words {
        if Name::new(word).is_none() {
            return Some(word);
        }
    }
    None
}

/// A word of some, if it is there.
fn word_at<'a>(words: &'a [&'a [u8]], at: usize) -> Option<&'a [u8]> {
    if at < words.len() {
        Some(words[at])
    } else {
        None
    }
}

/// The word of a bad line that its fault is about; none where a word is missing.
pub(crate) fn bad_word<'a>(words: &'a [&'a [u8]], fault: LineFault) -> Option<&'a [u8]> {
    let Ok(
        Head::Asks {
            session: _,
            word,
            arguments,
        },
    ) = read_head(words)
    else {
        return match fault {
            LineFault::Number => word_at(words, 0),
            _ => word_at(words, 1),
        };
    };
    match fault {
        LineFault::Number => no_number(arguments, first_number(word)),
        LineFault::Name => no_name(arguments),
        LineFault::Op => word_at(arguments, operation_at(word)),
        LineFault::Object => word_at(arguments, operation_at(word).saturating_add(1)),
        LineFault::Word | LineFault::Count => word_at(words, 1),
    }
}
