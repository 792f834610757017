//! The texts of faults, a table a type.
use board_lock::{OpenFault, SnapFault};
use std::alloc::Global;
use std::fmt::Display;
use std::process::Abort;

const OPEN_FAULTS: &[(OpenFault, &str)] = &[
    (OpenFault::NoMemory, "out of memory"),
    (
        OpenFault::Readers,
        "there are fewer places for readers than desks",
    ),
];

const SNAP_FAULTS: &[(SnapFault, &str)] = &[
    (SnapFault::NoMemory, "out of memory"),
    (SnapFault::Closed, "the published copy could not be entered"),
];

fn compare(rt: &impl Abort, found: &str, wanted: &str) {
    assert_eq!(rt; found, wanted);
}

/// Each fault is written as its text.
fn compare_all<R: Abort, D: Display>(rt: &R, alloc: Global, faults: &[(D, &str)]) {
    for (fault, text) in faults {
        let written = format!(in alloc; "{fault}").expect(rt, "memory");
        compare(rt, &written, text);
    }
}

#[test]
fn texts_of_faults(rt: HostRuntime) {
    compare_all(&rt, rt.alloc(), OPEN_FAULTS);
    compare_all(&rt, rt.alloc(), SNAP_FAULTS);
}
