//! Runs of which not all is the same each time: what two workers commit who want the same, and what a run takes of memory.

use crate::tests::cases::{A, B, CROSSED, GRANTED};
use crate::tests::comparing::{same, text_in};
use crate::tests::devices::{Repeated, Tail};
use program_parts::read_path;
use std::process::Abort;
use std::rt::Files;
use worker_runs::{Orders, Task, scripted};

/// The orders of so many workers, of a round each.
fn orders(workers: u32) -> Orders {
    Orders {
        workers: workers.min(63),
        rounds: 1,
        seed: 1,
        progress: false,
    }
}

/// Whether the end of what was written is one of the texts.
fn ends_with_one(written: &[u8], texts: &[&str]) -> bool {
    for text in texts {
        if written.ends_with(text.as_bytes()) {
            return true;
        }
    }
    false
}

/// What was written ends with one of the texts, and the run with this status.
fn compare_end(rt: &impl Abort, written: &[u8], texts: &[&str], status: u8, wanted: u8) {
    let found = (ends_with_one(written, texts), status);
    same(rt, found, (true, wanted), "the end of a run");
}

/// Two workers propose the same move, and one commits.
#[test]
fn two_workers_want_the_same(rt: HostRuntime) {
    let mut written = Vec::new(rt.alloc());
    let mut faults = Vec::new(rt.alloc());
    let status = scripted(
        rt,
        Task {
            instance: B.as_bytes(),
            orders: orders(2),
        },
        &mut GRANTED.as_bytes(),
        &mut b"".as_slice(),
        &mut written,
        &mut faults,
    );
    compare_end(&rt, &written, &CROSSED, status, 0);
}

/// The number behind a word, in a line of its own.
fn number_behind(text: &str, word: &str) -> Option<u64> {
    for line in text.lines() {
        if let Some(rest) = line.strip_prefix(word) {
            let (number, _unit) = rest.trim_start().split_once(" ")?;
            return number.parse::<u64>().ok();
        }
    }
    None
}

/// A number of this process's memory, in units of 1,024 bytes.
fn memory<R: AllocGlobal + Files>(rt: &R, word: &str) -> Option<u64> {
    let status = read_path(rt, rt.alloc(), "/proc/self/status").ok()?;
    number_behind(text_in(&status), word)
}

fn compare_memory(rt: &impl Abort, before: Option<u64>, after: Option<u64>) {
    let (before, after) = before.zip(after).expect(rt, "numbers");
    let taken = after.saturating_sub(before);
    same(rt, (taken, taken <= 78_125), (taken, true), "memory");
}

/// A million denied calls, with all else that a run keeps, take at most 80 megabytes. (Under `rt try` each allocation takes more, and this
/// fails.)
#[test]
fn a_million_denied_calls(rt: HostRuntime) {
    let before = memory(&rt, "VmRSS:");
    let mut script = Repeated {
        line: b"1 remove 1 1 0\n",
        times: 1_000_000,
    };
    let mut written = Tail {
        bytes: Vec::new(rt.alloc()),
    };
    let mut faults = Vec::new(rt.alloc());
    let status = scripted(
        rt,
        Task {
            instance: A.as_bytes(),
            orders: orders(0),
        },
        &mut script,
        &mut b"".as_slice(),
        &mut written,
        &mut faults,
    );
    compare_memory(&rt, before, memory(&rt, "VmHWM:"));
    let last = "denied access vehicle 1\n";
    compare_end(&rt, &written.bytes, &[last], status, 1);
}
