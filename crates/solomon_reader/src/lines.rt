//! The lines of a text that are not blank.

ghost use Rattle.std.specs.Prelude.{◌≡◌, ◌+◌, ◌<◌, ◌^◌, [], ◌∷◌, length, map, take, IfOk, MatchOption};
ghost use Rattle.std.specs.Io.BufRead.{strip_last};
ghost use Rattle.text_words.specs.Words.{words};
ghost use Rattle.solomon_reader.specs.Cuts.{lines, full_left, number_after, numbered};

use std::alloc::AllocError;
use text_words::{cut_at, keep_words};

/// What is left of a text, and the number of its next line.
#[derive(Drop)]
pub struct Lines<'a> {
    pub rest: &'a [u8],
    pub number: usize,
    ghost fits: { number + length rest.now < 2 ^ 64 },
}

/// A line by its number and its bytes.
#[derive(Drop)]
pub struct Line<'a> {
    pub number: usize,
    pub text: &'a [u8],
}

/// The first line of a text, and what follows its line end.
fn first_line(text: &[u8]) -> (&[u8], &[u8])
    requires { 0 < length text.now }
    ensures line { lines text.now ≡ strip_last 13 result.0.now ∷ lines result.1.now }
    ensures shorter { length result.1.now < length text.now }
{
    let (line, rest) = cut_at(text, b'\n');
    if let Some(rest) = rest {
        return (line, rest);
    }
    (line, &text[text.len()..])
}

impl<'a> Lines<'a> {
    /// The next line that is not blank. Its first words, at most `most` of them, which is at least 1, are then in `kept`.
    pub fn next_full(
        &mut self,
        kept: &mut Vec<&'a [u8]>,
        most: usize,
    ) -> Result<Option<Line<'a>>, AllocError>
        requires { 0 < most }
        ensures line { IfOk result (λ o. MatchOption o
            ((full_left self.old.number self.old.rest.now ≡ []) × (self.new.number ≡ number_after self.old.number self.old.rest.now))
            (λ line. (full_left self.old.number self.old.rest.now
            ≡ numbered line.number line.text.now ∷ full_left self.new.number self.new.rest.now)
            × (map (λ w. w.now) kept.new.items ≡ take most (words line.text.now))
            × (number_after self.new.number self.new.rest.now ≡ number_after self.old.number self.old.rest.now))) }
    {
        'lines: while !self.rest.is_empty() {
            let (line, rest) = first_line(self.rest);
            let number = self.number;
            self.rest = rest;
            self.number = number + 1;
            let text = line.strip_suffix(b"\r".as_slice()).unwrap_or(line);
            keep_words(kept, text, most)?;
            if !kept.is_empty() {
                return Ok(Some(Line { number, text }));
            }
        }
        Ok(None)
    }
}
