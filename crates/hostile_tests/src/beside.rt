//! Runs with a worker and a live script, where memory runs out.
use crate::scarce::{Hoard, Outcome};
use std::alloc::Global;
use std::io::Eprint;
use std::process::Abort;
use std::str;
use std::sync::Wait;
use std::thread::Threads;
use std::time::Clock;
use worker_runs::{Orders, Task, scripted};

/// Three customers in a line, and one vehicle.
pub(crate) const B: &str =
    "B\nVEHICLE\nNUMBER CAPACITY\n1 10\nCUSTOMER\nCUST NO.\n0 0 0 0 0 1000 0\n1 3 0 1 0 1000 0\n2 6 0 1 0 1000 0\n3 9 0 1 0 1000 0\n";

/// The customers in the order 2, 1, 3, where the worker may move them.
pub(crate) const SCRIPT: &str = "\
1 grant root move vehicle 1 1\n\
1 grant root move customer 1 3\n\
1 grant worker move vehicle 1 1\n\
1 grant worker move customer 1 3\n\
1 insert 2 1 1 0\n\
1 insert 1 1 2 1\n\
1 insert 3 1 3 2\n";

const LIVE: &str = "\
1 check move vehicle 1\n\
1 add-user ann\n";

/// The replies to the script.
pub(crate) const FIRST: &str = "\
done\n\
done\n\
done\n\
done\n\
committed 1\n\
committed 2\n\
committed 3\n";

/// The replies to both.
const REPLIES: &str = "\
done\n\
done\n\
done\n\
done\n\
committed 1\n\
committed 2\n\
committed 3\n\
yes\n\
done\n";

/// All that is written where no memory lacks.
const WHOLE: &str = "\
done\n\
done\n\
done\n\
done\n\
committed 1\n\
committed 2\n\
committed 3\n\
yes\n\
done\n\
worker 1 tried 1 committed 1 denied 0 refused 0\n\
version 4\n";

/// The last lines, by how many of the three rounds lacked memory. The first one that did not commits the one move that there is, and those
/// behind it find none.
const ENDS: [&str; 4] = [
    "worker 1 tried 1 committed 1 denied 0 refused 0\nversion 4\n",
    "worker 1 tried 2 committed 1 denied 0 refused 1\nversion 4\n",
    "worker 1 tried 3 committed 1 denied 0 refused 2\nversion 4\n",
    "worker 1 tried 3 committed 0 denied 0 refused 3\nversion 3\n",
];

const ONE_WORKER: Orders = Orders {
    workers: 1,
    rounds: 3,
    seed: 1,
    progress: false,
};

/// What stands before the last lines, if one of these closes a text.
fn before_end(text: &str) -> Option<&str> {
    for end in &ENDS {
        if let Some(front) = text.strip_suffix(*end) {
            return Some(front);
        }
    }
    None
}

/// Whether a text is that of a run one of whose lines, or whose last lines, lacked memory: whole lines of the replies, and behind those to
/// the script, where the live script lacked it, the last lines.
fn is_early(text: &str) -> bool {
    let front = before_end(text).unwrap_or(text);
    let is_closed = front.len() < text.len();
    let is_live = FIRST.len() <= front.len() && front.len() < REPLIES.len();
    let is_whole = front.is_empty() || front.ends_with("\n");
    REPLIES.starts_with(front) && is_whole && (is_live || !is_closed)
}

/// Whether a run ended as it may where memory lacks.
fn is_documented(text: &str, faults: &str, status: u8) -> bool {
    let (ends, fits) = match faults {
        "" => (0, before_end(text) == Some(REPLIES)),
        "dispatch: open fault\n" => (3, ["", FIRST, REPLIES].contains(&text)),
        "dispatch: run fault no-memory\n" => (3, is_early(text)),
        _ => (0, false),
    };
    fits && status == ends
}

/// Whether a run ended as it may; none where it was not answered so far.
fn judged(written: &[u8], faults: &[u8], status: u8, wanted: &str) -> Option<bool> {
    let Ok(text) = str::from_utf8(written) else {
        return Some(false);
    };
    let Ok(reason) = str::from_utf8(faults) else {
        return Some(false);
    };
    if !is_documented(text, reason, status) {
        return Some(false);
    }
    if text.starts_with(wanted) {
        Some(true)
    } else {
        None
    }
}

/// Runs the scripts, and gives the status.
fn run<H: Threads + Wait + Clock + Eprint + AllocGlobal + Copy + Drop + Send + Sync + 'static>(
    rt: H,
    written: &mut Vec<u8>,
    faults: &mut Vec<u8>,
) -> u8 {
    written.clear();
    faults.clear();
    scripted(
        rt,
        Task {
            instance: B.as_bytes(),
            orders: ONE_WORKER,
        },
        &mut SCRIPT.as_bytes(),
        &mut LIVE.as_bytes(),
        written,
        faults,
    )
}

/// Leaves a run so many bytes, and then more and more, as `insist` does, until what is wanted is written.
fn runs_until<
    H: Threads + Wait + Clock + Eprint + AllocGlobal + Copy + Drop + Send + Sync + 'static,
>(
    rt: H,
    hoard: &mut Hoard,
    written: &mut Vec<u8>,
    faults: &mut Vec<u8>,
    wanted: &str,
    from: usize,
) -> Outcome {
    let mut lacked = from;
    let mut more = 0usize;
    for refused in 0..4_000u32 {
        let bytes = from.saturating_add(more);
        hoard.leave(bytes);
        let status = run(rt, written, faults);
        hoard.give_back();
        if let Some(is_wanted) = judged(written, faults, status, wanted) {
            return Outcome {
                refused,
                lacked,
                bytes,
                is_wanted,
            };
        }
        lacked = bytes;
        more = more.saturating_add(16).saturating_add(more / 64);
    }
    Outcome {
        refused: 4_000,
        lacked,
        bytes: lacked,
        is_wanted: false,
    }
}

fn compare(rt: &impl Abort, outcome: Outcome, hoard: &Hoard, least: u32) {
    assert!(rt; outcome.is_wanted, "{outcome:?}");
    assert!(rt; hoard.is_enough(outcome.refused, least), "{outcome:?}");
}

/// Room for what is written, and for faults.
fn pages(alloc: Global) -> Option<(Vec<u8>, Vec<u8>)> {
    let written = Vec::with_capacity(alloc, 4096).ok()?;
    let faults = Vec::with_capacity(alloc, 4096).ok()?;
    Some((written, faults))
}

/// A run with a worker gets through, and then once more: the thread of the second run has the stack of the first one's, so that there
/// memory lacks for little things too.
pub(crate) fn runs_beside<
    H: Threads + Wait + Clock + Eprint + AllocGlobal + Abort + Copy + Drop + Send + Sync + 'static,
>(rt: H, hoard: &mut Hoard) {
    let Some((mut written, mut faults)) = pages(rt.alloc()) else {
        return;
    };
    let rough = runs_until(rt, hoard, &mut written, &mut faults, "done\n", 0);
    compare(&rt, rough, hoard, 100);
    for _ in 0..2 {
        let whole = runs_until(rt, hoard, &mut written, &mut faults, WHOLE, rough.lacked);
        compare(&rt, whole, hoard, 100);
    }
}
