//! Words of a line, and the numbers that words are.
#![tactic(auto)]

ghost use Rattle.std.specs.Prelude.{◌≡◌, if◌then◌else◌, Some, None, ◌<◌, ◌≤◌, ◌==◌, ◌||◌, true, [], ◌∷◌, IfOk, IfSome, OnOk, OnErr, MatchOption, length, map, take, slice_index};
ghost use Rattle.std.specs.List.{slice_split};
ghost use Rattle.text_words.specs.Words.{words, number, is_gap, AreFirstOf, HasNoGap};

mod ends;
mod lines;

pub use lines::{Lines, keep_line};
use std::alloc::{AllocError, Global};

/// Whether the byte separates words: a space or a tab.
pub fn is_gap(byte: u8) -> bool
    ensures { result ≡ is_gap byte }
{
    byte == b' ' || byte == b'\t'
}

/// What comes before the first separator, and what comes after it, if there is one.
pub fn cut_at(text: &[u8], separator: u8) -> (&[u8], Option<&[u8]>)
    ensures parts { MatchOption result.1 (slice_split (λ b. b == separator) text.now ≡ result.0.now ∷ [])
        (λ rest. slice_split (λ b. b == separator) text.now ≡ result.0.now ∷ slice_split (λ b. b == separator) rest.now) }
    ensures shorter { IfSome result.1 (λ rest. length rest.now < length text.now) }
{
    for (i, byte) in text.iter().enumerate() {
        if *byte == separator {
            return (&text[..i], Some(&text[i + 1..]));
        }
    }
    (text, None)
}

/// The place of the first gap from a place on, or of the line's end.
#[inline(always)]
fn part_end(line: &[u8], from: usize) -> usize
    requires { from ≤ length line.now }
    ensures from { from ≤ result }
    ensures within { result ≤ length line.now }
    ensures plain { HasNoGap line.now from result }
    ensures gap { result < length line.now → is_gap (slice_index line.now result) ≡ true }
{
    for i in from..line.len() {
        if is_gap(line[i]) {
            return i;
        }
    }
    line.len()
}

/// Makes `kept` the words of a line, from the left, and no more than the first `most` of them: what is between the line's spaces and tabs.
/// Any other byte, a carriage return too, belongs to its word. The line is read once, and no further than the end of the last word that is
/// kept. Where memory runs out, the first of these words are kept.
pub fn keep_words<'a>(
    kept: &mut Vec<&'a [u8]>,
    line: &'a [u8],
    most: usize,
) -> Result<(), AllocError>
    ensures words { OnOk result (map (λ w. w.now) kept.new.items ≡ take most (words line.now)) }
    ensures left { OnErr result (AreFirstOf (map (λ w. w.now) kept.new.items) (take most (words line.now))) }
{
    kept.clear();
    let mut start = 0;
    while start < line.len() && kept.len() < most {
        let end = part_end(line, start);
        if start < end {
            kept.push(&line[start..end])?;
        }
        start = end + 1;
    }
    Ok(())
}

/// Makes `kept` all words of a line, as `keep_words` has them.
pub fn keep_all_words<'a>(kept: &mut Vec<&'a [u8]>, line: &'a [u8]) -> Result<(), AllocError>
    ensures words { OnOk result (map (λ w. w.now) kept.new.items ≡ words line.now) }
    ensures left { OnErr result (AreFirstOf (map (λ w. w.now) kept.new.items) (words line.now)) }
{
    keep_words(kept, line, usize::MAX)
}

/// All words of a line, as `keep_words` has them.
pub fn words_of(alloc: Global, line: &[u8]) -> Result<Vec<&[u8]>, AllocError>
    ensures { IfOk result (λ v. map (λ w. w.now) v.items ≡ words line.now) }
{
    let mut kept = Vec::new(alloc);
    keep_all_words(&mut kept, line)?;
    Ok(kept)
}

// Short numbers, without a loop. The byte of a digit is 48 more than its value, so the sum for one to four digits is 48, 528, 5,328 or
// 53,328 too much.

/// The number that one digit is, and whether it is a digit.
#[inline(always)]
fn one_digit(a: u8) -> (u32, bool)
    ensures { (if result.1 then Some result.0 else None) ≡ number (a ∷ []) }
{
    (u32::from(a).saturating_sub(48), a.is_ascii_digit())
}

/// The number that two digits are, and whether they are digits.
#[inline(always)]
fn two_digits(a: u8, b: u8) -> (u32, bool)
    ensures { (if result.1 then Some result.0 else None) ≡ number (a ∷ b ∷ []) }
{
    let sum = u32::from(a) * 10 + u32::from(b);
    (
        sum.saturating_sub(528),
        a.is_ascii_digit() & b.is_ascii_digit(),
    )
}

/// The number that three digits are, and whether they are digits.
#[inline(always)]
fn three_digits(a: u8, b: u8, c: u8) -> (u32, bool)
    ensures { (if result.1 then Some result.0 else None) ≡ number (a ∷ b ∷ c ∷ []) }
{
    let sum = (u32::from(a) * 10 + u32::from(b)) * 10 + u32::from(c);
    let are_digits = a.is_ascii_digit() & b.is_ascii_digit() & c.is_ascii_digit();
    (sum.saturating_sub(5328), are_digits)
}

/// The number that four digits are, and whether they are digits.
#[inline(always)]
fn four_digits(a: u8, b: u8, c: u8, d: u8) -> (u32, bool)
    ensures { (if result.1 then Some result.0 else None) ≡ number (a ∷ b ∷ c ∷ d ∷ []) }
{
    let sum = ((u32::from(a) * 10 + u32::from(b)) * 10 + u32::from(c)) * 10 + u32::from(d);
    let are_digits = a.is_ascii_digit()
        & b.is_ascii_digit()
        & c.is_ascii_digit()
        & d.is_ascii_digit();
    (sum.saturating_sub(53328), are_digits)
}

/// What `number_of` answers, read digit by digit: in less code, and faster where words have more than four digits.
pub fn number_by_digits(word: &[u8]) -> Option<u32>
    ensures { result ≡ number word.now }
{
    if word.is_empty() || word.len() > 10 {
        return None;
    }
    let mut value: u64 = 0;
    for digit in word {
        if !digit.is_ascii_digit() {
            return None;
        }
        value = value * 10 + u64::from(*digit - b'0');
    }
    u32::try_from(value).ok()
}

// Out of line, since most words are short.
#[inline(never)]
fn long_number(word: &[u8]) -> Option<u32>
    ensures { result ≡ number word.now }
{
    number_by_digits(word)
}

/// The number that a word is, and whether it is one. Up to four digits are read without a loop.
#[inline(always)]
fn read_number(word: &[u8]) -> (u32, bool)
    ensures { (if result.1 then Some result.0 else None) ≡ number word.now }
{
    match word {
        [a] => one_digit(*a),
        [a, b] => two_digits(*a, *b),
        [a, b, c] => three_digits(*a, *b, *c),
        [a, b, c, d] => four_digits(*a, *b, *c, *d),
        _ => match long_number(word) {
            Some(value) => (value, true),
            None => (0, false),
        },
    }
}

/// The number that a word is: 1 to 10 digits, with a value of at most 4,294,967,295. It is fastest for short words.
#[inline(always)]
pub fn number_of(word: &[u8]) -> Option<u32>
    ensures { result ≡ number word.now }
{
    let (value, is_number) = read_number(word);
    if is_number { Some(value) } else { None }
}
