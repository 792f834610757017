//! Comparisons. A function's proof pays several times as much for an `assert` or a `format!` in it as for a call: so tests call these. They
//! own nothing: an `assert` is also a way out, at which all is dropped that its function holds.
use std::alloc::Global;
use std::fmt::{Debug, Display};
use std::process::Abort;

/// Compares two values, and says of what they are where they differ.
pub(crate) fn same<R: Abort, T: Copy + PartialEq + Debug>(rt: &R, found: T, wanted: T, what: &str) {
    assert_eq!(rt; found, wanted, "{what}");
}

/// Compares how a value is written.
pub(crate) fn same_written<R: Abort, D: Display>(rt: &R, alloc: Global, value: &D, wanted: &str) {
    let text = format!(in alloc; "{value}").expect(rt, "memory");
    same(rt, text.as_str(), wanted, "how it is written");
}

/// Compares how each value of a table is written.
pub(crate) fn all_written<R: Abort, D: Display>(rt: &R, alloc: Global, table: &[(D, &str)]) {
    for (value, wanted) in table {
        same_written(rt, alloc, value, wanted);
    }
}
