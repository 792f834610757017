//! The lines of a text, each with its words.

ghost use Rattle.std.specs.Prelude.{◌≡◌, None, ◌+◌, ◌<◌, ◌≤◌, ◌-◌, [], ◌∷◌, ◌++◌, ℕ, IfOk, IfSome, OnOk, OnErr, MatchOption, length, map, take, drop};
ghost use Rattle.text_words.specs.Ends.{AreWordEnds};
ghost use Rattle.text_words.specs.Words.{full_parts, words, HasNoGap, HasNoLineFeed, IsLineEnd, AreWordsUpTo};

use crate::ends::{Ends, first_end, known_ends};
use std::alloc::AllocError;
use std::marker::Model;

/// Keeps what is between two places, unless that is nothing.
#[inline(always)]
fn keep_part<'a>(
    kept: &mut Vec<&'a [u8]>,
    text: &'a [u8],
    from: usize,
    to: usize,
) -> Result<(), AllocError>
    requires from { from ≤ to }
    requires to { to ≤ length text.now }
    ensures part { OnOk result (map (λ w. w.now) kept.new.items
        ≡ map (λ w. w.now) kept.old.items ++ full_parts (take (to - from) (drop from text.now) ∷ [])) }
    ensures left { OnErr result (kept.new.items ≡ kept.old.items) }
{
    if from < to {
        kept.push(&text[from..to])?;
    }
    Ok(())
}

/// Makes `kept` the words of the line that begins at a place, and gives the place of the line feed that ends it, with the ends of words
/// that are known after that. Line and words are cut in one pass.
#[inline(always)]
fn cut_line<'a>(
    kept: &mut Vec<&'a [u8]>,
    text: &'a [u8],
    from: usize,
    known: Ends,
) -> Result<Option<(usize, Ends)>, AllocError>
    requires from { from ≤ length text.now }
    requires ends { AreWordEnds text.now from known.base known.bits }
    ensures end { IfOk result (λ o. MatchOption o (HasNoLineFeed (drop from text.now))
        (λ r. (from ≤ r.0) × (r.0 < length text.now) × IsLineEnd (drop from text.now) (r.0 - from))) }
    ensures words { IfOk result (λ o. IfSome o (λ r. map (λ w. w.now) kept.new.items ≡ words (take (r.0 - from) (drop from text.now)))) }
    ensures ends { IfOk result (λ o. IfSome o (λ r. AreWordEnds text.now (r.0 + 1) r.1.base r.1.bits)) }
    ensures none { IfOk result (λ o. o ≡ None → (i : ℕ) × HasNoGap (drop from text.now) i (length (drop from text.now))
        × AreWordsUpTo (drop from text.now) i (map (λ w. w.now) kept.new.items)) }
    ensures left { OnErr result ((i : ℕ) × AreWordsUpTo (drop from text.now) i (map (λ w. w.now) kept.new.items)) }
{
    kept.clear();
    let mut start = from;
    let mut known = known;
    'words: loop {
        let Some(next) = known_ends(text, start, known) else {
            return Ok(None);
        };
        let (end, left) = first_end(text, start, next);
        keep_part(kept, text, start, end)?;
        if text[end] == b'\n' {
            return Ok(Some((end, left)));
        }
        start = end + 1;
        known = left;
    }
}

/// Makes `kept` the words of a text's first line, and gives the place of the line feed that ends it. Line and words are cut in one pass.
/// Where the text has no line feed, there is no such place, and the words before its last gap are kept. Where memory runs out, the first of
/// the line's words are kept.
#[inline(always)]
pub fn keep_line<'a>(kept: &mut Vec<&'a [u8]>, text: &'a [u8]) -> Result<Option<usize>, AllocError>
    ensures end { IfOk result (λ end. MatchOption end (HasNoLineFeed text.now) (IsLineEnd text.now)) }
    ensures words { IfOk result (λ end. IfSome end (λ i. map (λ w. w.now) kept.new.items ≡ words (take i text.now))) }
    ensures none { IfOk result (λ end. end ≡ None → (i : ℕ) × HasNoGap text.now i (length text.now)
        × AreWordsUpTo text.now i (map (λ w. w.now) kept.new.items)) }
    ensures left { OnErr result ((i : ℕ) × AreWordsUpTo text.now i (map (λ w. w.now) kept.new.items)) }
{
    match cut_line(kept, text, 0, Ends::none())? {
        Some((end, _)) => Ok(Some(end)),
        None => Ok(None),
    }
}

/// What is left of a text whose lines are taken one after another. The ends of words that were found beyond a line are kept for the next.
#[derive(Drop)]
pub struct Lines<'a> {
    text: &'a [u8],
    from: usize,
    known: Ends,
}

impl<'a> Model for Lines<'a> {
    ghost use Rattle.std.specs.Prelude.{List, ℕ, ◌≤◌, drop, length};
    ghost use Rattle.text_words.specs.Ends.{AreWordEnds};

    ghost Value = { List ℕ };

    ghost view = { λ l. drop l.from l.text.now };

    ghost invariant = { λ l. (l.from ≤ length l.text.now) × AreWordEnds l.text.now l.from l.known.base l.known.bits };
}

impl<'a> Lines<'a> {
    /// All lines of a text.
    #[inline(always)]
    pub fn new(text: &'a [u8]) -> Lines<'a>
        ensures { result ≡ text.now }
    {
        Lines {
            text,
            from: 0,
            known: Ends::none(),
        }
    }

    /// What is left of the text.
    #[inline(always)]
    pub fn rest(&self) -> &'a [u8]
        ensures { result.now ≡ self.now }
    {
        &self.text[self.from..]
    }

    /// Takes the next line, without the line feed that ends it, and makes `kept` its words, as `keep_line` does for a text's first line.
    #[inline(always)]
    pub fn keep_next(&mut self, kept: &mut Vec<&'a [u8]>) -> Result<Option<&'a [u8]>, AllocError>
        ensures line { IfOk result (λ o. MatchOption o (HasNoLineFeed self.old × (self.new ≡ self.old))
            (λ line. HasNoLineFeed line.now × (self.old ≡ line.now ++ 10 ∷ self.new))) }
        ensures words { IfOk result (λ o. IfSome o (λ line. map (λ w. w.now) kept.new.items ≡ words line.now)) }
        ensures none { IfOk result (λ o. o ≡ None → (i : ℕ) × HasNoGap self.old i (length self.old)
            × AreWordsUpTo self.old i (map (λ w. w.now) kept.new.items)) }
        ensures left { OnErr result ((self.new ≡ self.old) × (i : ℕ) × AreWordsUpTo self.old i (map (λ w. w.now) kept.new.items)) }
    {
        let from = self.from;
        let Some((end, known)) = cut_line(kept, self.text, from, self.known)? else {
            return Ok(None);
        };
        self.from = end + 1;
        self.known = known;
        Ok(Some(&self.text[from..end]))
    }
}
