use crate::comparing::same;
use text_words::{cut_at, keep_line, number_by_digits, number_of, words_of};

type Words = &'static [&'static [u8]];

const WORDS: &[(&[u8], Words)] = &[
    (
        b" \t10 insert\t\t2  1\r ",
        &[b"10", b"insert", b"2", b"1\r"],
    ),
    (b" \t ", &[]),
    (b"", &[]),
];

#[test]
fn words_are_parted_by_spaces_and_tabs(rt: HostRuntime) {
    for (line, wanted) in WORDS {
        let words = words_of(rt.alloc(), line).expect(&rt, "memory");
        same(&rt, words.as_slice(), *wanted, "words");
    }
}

/// Texts, where the first line of each ends, and its words. Lines are cut 32 bytes at a time.
const LINES: &[(&[u8], Option<usize>, Words)] = &[
    (
        b"12 open a-name-of-thirty-two-bytes-or-more\tdispatcher  planner\n3 fly\n",
        Some(62),
        &[
            b"12",
            b"open",
            b"a-name-of-thirty-two-bytes-or-more",
            b"dispatcher",
            b"planner",
        ],
    ),
    (
        b"------------------------------------------- \n",
        Some(44),
        &[b"-------------------------------------------"],
    ),
    (b"8 fly\n", Some(5), &[b"8", b"fly"]),
    (b"-------------------------------------------", None, &[]),
];

#[test]
fn a_long_line_is_cut_as_a_short_one(rt: HostRuntime) {
    let mut kept = Vec::new(rt.alloc());
    for (text, end, words) in LINES {
        let found = keep_line(&mut kept, *text).expect(&rt, "memory");
        same(&rt, found, *end, "the end of a line");
        if found.is_some() {
            same(&rt, kept.as_slice(), *words, "its words");
        }
    }
}

const NUMBERS: &[(&[u8], Option<u32>)] = &[
    (b"0", Some(0)),
    (b"40", Some(40)),
    (b"307", Some(307)),
    (b"9182", Some(9182)),
    (b"1:2", None),
    (b"/123", None),
    (b"0000000007", Some(7)),
    (b"4294967295", Some(4_294_967_295)),
    (b"4294967296", None),
    (b"00000000007", None),
    (b"", None),
    (b"+5", None),
    (b"2.0", None),
];

#[test]
fn numbers_are_digits_alone(rt: HostRuntime) {
    for (word, number) in NUMBERS {
        let found = (number_of(word), number_by_digits(word));
        same(&rt, found, (*number, *number), "a number");
    }
}

const CUTS: &[(&[u8], (&[u8], Option<&[u8]>))] = &[
    (b"2.50.1", (b"2", Some(b"50.1"))),
    (b"250", (b"250", None)),
];

#[test]
fn a_text_is_cut_at_its_first_separator(rt: HostRuntime) {
    for (text, wanted) in CUTS {
        same(&rt, cut_at(text, b'.'), *wanted, "a cut");
    }
}
