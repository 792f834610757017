//! Where words end, found for 32 bytes at a time.

ghost use Rattle.std.specs.Prelude.{◌≡◌, ◌≢◌, ◌↔◌, ℕ, ◌+◌, ◌<◌, ◌≤◌, true, List, length, slice_index, MatchOption};
ghost use Rattle.std.specs.Int.{bit_at};
ghost use Rattle.text_words.specs.Words.{ends_word};
ghost use Rattle.text_words.specs.Ends.{EndsNoWord, AreWordEnds};

use crate::is_gap;
use std::simd::prelude::*;

/// Ends of words that are known: a bit for each, counted from a place.
#[derive(Clone, Copy, Drop)]
pub(crate) struct Ends {
    pub(crate) base: usize,
    pub(crate) bits: u64,
}

impl Ends {
    /// No ends are known.
    #[inline(always)]
    pub(crate) fn none() -> Ends
        ensures { (text : List ℕ) (from : ℕ) → AreWordEnds text from result.base result.bits }
    {
        Ends { base: 0, bits: 0 }
    }
}

/// Whether the byte ends a word: a space, a tab or a line feed.
#[inline(always)]
fn ends_word(byte: u8) -> bool
    ensures { result ≡ ends_word byte }
{
    is_gap(byte) || byte == b'\n'
}

/// Which of the 32 bytes from a place on end a word, a bit for each.
#[inline(always)]
fn ends_among(text: &[u8], at: usize) -> u64
    requires { at + 32 ≤ length text.now }
    ensures { (k : ℕ) → (bit_at result k ≡ 1) ↔ ((k < 32) × (ends_word (slice_index text.now (at + k)) ≡ true)) }
{
    let bytes = u8x32::from_slice(&text[at..]);
    let spaces = bytes.simd_eq(u8x32::splat(b' ')).to_bitmask();
    let tabs = bytes.simd_eq(u8x32::splat(b'\t')).to_bitmask();
    let feeds = bytes.simd_eq(u8x32::splat(b'\n')).to_bitmask();
    spaces | tabs | feeds
}

/// The place of the lowest bit.
#[inline(always)]
fn lowest(bits: u64) -> usize
    requires { bits ≢ 0 }
    ensures bound { result < 64 }
    ensures set { bit_at bits result ≡ 1 }
    ensures below { (k : ℕ) → k < result → bit_at bits k ≡ 0 }
{
    bits.trailing_zeros() as usize
}

/// The bits without one.
#[inline(always)]
fn without(bits: u64, bit: usize) -> u64
    requires bound { bit < 64 }
    ensures kept { (k : ℕ) → k < 64 → k ≢ bit → bit_at result k ≡ bit_at bits k }
    ensures fewer { (k : ℕ) → bit_at result k ≡ 1 → (bit_at bits k ≡ 1) × (k ≢ bit) }
{
    bits & !(1 << bit)
}

/// The first of the ends that are known, and the others.
#[inline(always)]
pub(crate) fn first_end(text: &[u8], from: usize, known: Ends) -> (usize, Ends)
    requires some { known.bits ≢ 0 }
    requires ends { AreWordEnds text.now from known.base known.bits }
    ensures from { from ≤ result.0 }
    ensures within { result.0 < length text.now }
    ensures none { EndsNoWord text.now from result.0 }
    ensures end { ends_word (slice_index text.now result.0) ≡ true }
    ensures ends { AreWordEnds text.now (result.0 + 1) result.1.base result.1.bits }
{
    let Ends { base, bits } = known;
    let bit = lowest(bits);
    let bits = without(bits, bit);
    (base + bit, Ends { base, bits })
}

/// The place of the first byte from a place on that ends a word, or of the text's end, looked for byte by byte.
#[inline(never)]
fn near_end(text: &[u8], from: usize) -> usize
    requires { from ≤ length text.now }
    ensures from { from ≤ result }
    ensures within { result ≤ length text.now }
    ensures none { EndsNoWord text.now from result }
    ensures end { result < length text.now → ends_word (slice_index text.now result) ≡ true }
{
    for i in from..text.len() {
        if ends_word(text[i]) {
            return i;
        }
    }
    text.len()
}

/// Where the next words end from a place on. None where no word ends there.
#[inline(always)]
fn more_ends(text: &[u8], from: usize) -> Option<Ends>
    requires { from ≤ length text.now }
    ensures ends { MatchOption result (EndsNoWord text.now from (length text.now))
        (λ r. (r.bits ≢ 0) × AreWordEnds text.now from r.base r.bits) }
{
    let mut at = from;
    while 32 <= text.len() - at {
        let bits = ends_among(text, at);
        if bits != 0 {
            return Some(Ends { base: at, bits });
        }
        at += 32;
    }
    let end = near_end(text, at);
    if end == text.len() {
        return None;
    }
    Some(Ends { base: end, bits: 1 })
}

/// The ends that are known, or the next ones where there are none.
#[inline(always)]
pub(crate) fn known_ends(text: &[u8], from: usize, known: Ends) -> Option<Ends>
    requires from { from ≤ length text.now }
    requires ends { AreWordEnds text.now from known.base known.bits }
    ensures ends { MatchOption result (EndsNoWord text.now from (length text.now))
        (λ r. (r.bits ≢ 0) × AreWordEnds text.now from r.base r.bits) }
{
    if known.bits != 0 {
        return Some(known);
    }
    more_ends(text, from)
}
