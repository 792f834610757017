//! The texts of what stops a picture or sums.
use crate::tests::cases::A;
use crate::tests::comparing::{all_written, compare};
use crate::tests::torn::devices::{Failing, make_sink};
use plan_program::{ViewStop, draw_bytes, sums_bytes};
use plan_sums::RowsFault;
use program_parts::Stop;
use std::alloc::Global;
use std::process::Abort;

const ROWS_FAULTS: &[(RowsFault, &str)] = &[
    (RowsFault::NoMemory, "open fault"),
    (RowsFault::Line(7), "rows fault line 7"),
];

const VIEW_STOPS: &[(ViewStop, &str)] = &[
    (ViewStop::Parts(Stop::Open), "open fault"),
    (ViewStop::Rows(7), "rows fault line 7"),
];

/// Each stop is written as its text.
#[test]
fn texts_of_stops(rt: HostRuntime) {
    all_written(&rt, rt.alloc(), ROWS_FAULTS);
    all_written(&rt, rt.alloc(), VIEW_STOPS);
}

/// Replies of eleven lines, without a listing; and with one, whose tenth line is no row of the instance.
const NO_ROWS: &str = "done\ndone\ndone\ndone\ndone\ndone\ndone\ndone\ndone\ndone\ndone\n";

const NO_CUSTOMER: &str =
    "done\ndone\ndone\ndone\ncommitted 1\ncommitted 2\ncommitted 3\nrow 1 1 1 0 28\nrow 1 2 2 4 84\nrow 1 3 5 7 140\nend\n";

/// An instance, the replies of a run, and what is said of them.
type Case<'a> = (&'a str, &'a str, &'a str);

const FAULTS: &[Case<'static>] = &[
    (A, NO_ROWS, "dispatch: rows fault line 12\n"),
    (A, NO_CUSTOMER, "dispatch: rows fault line 10\n"),
    ("A\n", "", "dispatch: instance fault vehicle line 2\n"),
];

/// Draws a listing, or adds it up, with a stream of faults that takes a byte a write: what was written and said, and the status.
fn viewed(alloc: Global, draws: bool, instance: &str, replies: &str) -> (Vec<u8>, Vec<u8>, u8) {
    let instance = instance.as_bytes();
    let replies = replies.as_bytes();
    let mut written = Vec::new(alloc);
    let mut faults = make_sink(Vec::new(alloc), 1, Failing::Never);
    let status = if draws {
        draw_bytes(alloc, instance, replies, &mut written, &mut faults)
    } else {
        sums_bytes(alloc, instance, replies, &mut written, &mut faults)
    };
    (written, faults.taken, status)
}

fn compare_view(rt: &impl Abort, alloc: Global, draws: bool, case: Case<'_>) {
    let (instance, replies, said) = case;
    let (written, faults, status) = viewed(alloc, draws, instance, replies);
    compare(rt, &written, &faults, status, ("", said, 3), "a view");
}

/// The whole line is said, a byte at a time.
#[test]
fn faults_a_byte_a_write(rt: HostRuntime) {
    for case in FAULTS {
        compare_view(&rt, rt.alloc(), true, *case);
        compare_view(&rt, rt.alloc(), false, *case);
    }
}
