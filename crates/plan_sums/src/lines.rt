//! The lines of an output.

ghost use Rattle.std.specs.Prelude.{◌≡◌, ◌<◌, ◌∷◌, length, map, take, IfOk};
ghost use Rattle.std.specs.Io.BufRead.{strip_last};
ghost use Rattle.text_words.specs.Words.{words};
ghost use Rattle.solomon_reader.specs.Cuts.{lines};
ghost use Rattle.plan_sums.specs.Lines.{kind_of, kind_of_words};

use std::alloc::{AllocError, Global};
use text_words::{cut_at, keep_words};

/// What a line is to a listing.
#[derive(Clone, Copy)]
pub(crate) enum Kind {
    /// Its first word is `row`.
    Row,
    /// Its only word is `end`.
    End,
    /// Neither.
    Other,
}

/// The first line of a text, without one carriage return at its end, and what follows its line end.
fn first_line(text: &[u8]) -> (&[u8], &[u8])
    requires { 0 < length text.now }
    ensures line { lines text.now ≡ strip_last 13 result.0.now ∷ lines result.1.now }
    ensures shorter { length result.1.now < length text.now }
{
    let (line, rest) = cut_at(text, b'\n');
    if let Some(rest) = rest {
        return (line, rest);
    }
    (line, &text[text.len()..])
}

/// The lines of a text, each without one carriage return at its end.
pub(crate) fn lines_of(alloc: Global, text: &[u8]) -> Result<Vec<&[u8]>, AllocError>
    ensures { IfOk result (λ v. map (λ w. w.now) v.items ≡ lines text.now) }
{
    let mut kept = Vec::new(alloc);
    let mut left = text;
    'lines: while !left.is_empty() {
        let (line, rest) = first_line(left);
        kept.push(line.strip_suffix(b"\r".as_slice()).unwrap_or(line))?;
        left = rest;
    }
    Ok(kept)
}

/// What a line of these words is to a listing. Its first two words are enough.
fn kind_of_words(found: &[&[u8]]) -> Kind
    ensures { result ≡ kind_of_words (map (λ w. w.now) found.now) }
{
    if found.is_empty() {
        Kind::Other
    } else if found[0] == b"row".as_slice() {
        Kind::Row
    } else if found.len() == 1 && found[0] == b"end".as_slice() {
        Kind::End
    } else {
        Kind::Other
    }
}

/// What a line is to a listing. The words that were looked at are kept.
pub(crate) fn kind_of<'a>(kept: &mut Vec<&'a [u8]>, line: &'a [u8]) -> Result<Kind, AllocError>
    ensures { IfOk result (λ kind. kind ≡ kind_of line.now) }
{
    keep_words(kept, line, 2)?;
    Ok(kind_of_words(kept.as_slice()))
}
