//! Comparisons. A function's proof pays several times as much for an `assert` in it as for a call: so tests call these. They own nothing: an
//! `assert` is also a way out, at which all is dropped that its function holds.
use std::alloc::Global;
use std::fmt::{Debug, Display};
use std::process::Abort;
use std::str;

/// Compares two values, and says of what they are where they differ.
pub(crate) fn same<R: Abort, T: Copy + PartialEq + Debug>(rt: &R, found: T, wanted: T, what: &str) {
    assert_eq!(rt; found, wanted, "{what}");
}

/// Compares whether something holds.
pub(crate) fn holds(rt: &impl Abort, found: bool, what: &str) {
    assert!(rt; found, "{what}");
}

/// What was written, where it is text.
pub(crate) fn text_in(bytes: &[u8]) -> &str {
    str::from_utf8(bytes).unwrap_or("no text")
}

/// Compares what a run wrote and said, and its status.
pub(crate) fn compare(
    rt: &impl Abort,
    written: &[u8],
    faults: &[u8],
    status: u8,
    wanted: (&str, &str, u8),
    what: &str,
) {
    same(
        rt,
        (text_in(written), text_in(faults), status),
        wanted,
        what,
    );
}

/// Compares how each value of a table is written.
pub(crate) fn all_written<R: Abort, D: Display>(rt: &R, alloc: Global, table: &[(D, &str)]) {
    for (value, wanted) in table {
        let text = format!(in alloc; "{value}").expect(rt, "memory");
        same(rt, text.as_str(), wanted, "how it is written");
    }
}
