//! The fields of a line: numbers, keywords and the name.

ghost use Rattle.std.specs.Prelude.{◌≡◌, map};
ghost use Rattle.solomon_reader.specs.Fields.{whole_number, is_zeros, field, is_keyword, trimmed_start, trimmed_end, trimmed, is_name_byte, is_name};
ghost use Rattle.solomon_reader.specs.Checks.{is_vehicle, is_fleet_heading, is_customer, is_node_heading, heading_test};

use crate::fault::Kind;
use limits::{LONGEST_INSTANCE_NAME, MOST_DIGITS};
use text_words::{cut_at, is_gap, number_by_digits};

fn whole_number(digits: &[u8]) -> Option<u32>
    ensures { result ≡ whole_number digits.now }
{
    if digits.len() > MOST_DIGITS {
        return None;
    }
    number_by_digits(digits)
}

fn is_zeros(text: &[u8]) -> bool
    ensures { result ≡ is_zeros text.now }
{
    !text.is_empty() && text.iter().all(|byte| *byte == b'0')
}

/// The number that a field is: 1 to 7 digits, optionally followed by a dot and one or more zeros.
pub fn number_in(word: &[u8]) -> Option<u32>
    ensures { result ≡ field word.now }
{
    let (digits, rest) = cut_at(word, b'.');
    let Some(zeros) = rest else {
        return whole_number(digits);
    };
    if is_zeros(zeros) {
        whole_number(digits)
    } else {
        None
    }
}

fn is_keyword(keyword: &[u8], word: &[u8]) -> bool
    ensures { result ≡ is_keyword keyword.now word.now }
{
    word.eq_ignore_ascii_case(keyword)
}

fn is_vehicle(words: &[&[u8]]) -> bool
    ensures { result ≡ is_vehicle (map (λ w. w.now) words.now) }
{
    match words {
        [word] => is_keyword(b"VEHICLE", word),
        _ => false,
    }
}

fn is_fleet_heading(words: &[&[u8]]) -> bool
    ensures { result ≡ is_fleet_heading (map (λ w. w.now) words.now) }
{
    match words {
        [number, capacity] => is_keyword(b"NUMBER", number) && is_keyword(b"CAPACITY", capacity),
        _ => false,
    }
}

fn is_customer(words: &[&[u8]]) -> bool
    ensures { result ≡ is_customer (map (λ w. w.now) words.now) }
{
    match words {
        [word] => is_keyword(b"CUSTOMER", word),
        _ => false,
    }
}

fn is_node_heading(words: &[&[u8]]) -> bool
    ensures { result ≡ is_node_heading (map (λ w. w.now) words.now) }
{
    match words {
        [word, ..] => is_keyword(b"CUST", word),
        [] => false,
    }
}

/// Whether the words, or the first three of them, are the heading whose check has that kind.
pub fn is_heading(kind: Kind, words: &[&[u8]]) -> bool
    ensures { result ≡ heading_test kind (map (λ w. w.now) words.now) }
{
    match kind {
        Kind::Vehicle => is_vehicle(words),
        Kind::Fleet => is_fleet_heading(words),
        Kind::Customer => is_customer(words),
        Kind::Heading => is_node_heading(words),
        _ => false,
    }
}

fn trimmed_start(text: &[u8]) -> &[u8]
    ensures { result.now ≡ trimmed_start text.now }
{
    let mut left = text;
    'gaps: while let Some((first, rest)) = left.split_first() {
        if !is_gap(*first) {
            break;
        }
        left = rest;
    }
    left
}

fn trimmed_end(text: &[u8]) -> &[u8]
    ensures { result.now ≡ trimmed_end text.now }
{
    let mut left = text;
    'gaps: while let Some((last, rest)) = left.split_last() {
        if !is_gap(*last) {
            break;
        }
        left = rest;
    }
    left
}

/// The line without the spaces and tabs at both ends.
pub fn trimmed(line: &[u8]) -> &[u8]
    ensures { result.now ≡ trimmed line.now }
{
    trimmed_end(trimmed_start(line))
}

fn is_name_byte(byte: u8) -> bool
    ensures { result ≡ is_name_byte byte }
{
    (b' '..=b'~').contains(&byte)
}

/// Whether the text is 1 to 64 bytes from space to `~`.
pub fn is_name(text: &[u8]) -> bool
    ensures { result ≡ is_name text.now }
{
    if text.is_empty() || text.len() > LONGEST_INSTANCE_NAME {
        return false;
    }
    text.iter().all(|byte| is_name_byte(*byte))
}
