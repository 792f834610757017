//! What workers and live lines write and say beside one another.

use crate::tests::cases::{B, GRANTED};
use crate::tests::comparing::{same, text_in};
use crate::tests::heard::{Heard, InTurn, Log, Page};
use crate::tests::torn::devices::{Torn, make_source};
use std::alloc::Global;
use std::process::Abort;
use std::sync::Wait;
use worker_runs::{Orders, Task, scripted};

/// Live lines, and whether they can be read; how many workers do how many rounds, whether they say how far they are, and how many such
/// texts each waits for; whether the clock can be read; what is written and said, which fault is reported, and the status.
#[derive(Clone, Copy, Drop)]
struct Case {
    live: &'static str,
    torn: Torn,
    orders: (u32, u32, bool),
    together: u64,
    ticks: bool,
    log: &'static str,
    fault: &'static str,
    status: u8,
}

const SILENT: Case = Case {
    live: "",
    torn: Torn::Never,
    orders: (1, 4, false),
    together: 0,
    ticks: true,
    log: "\
done\ndone\ndone\ndone\ncommitted 1\ncommitted 2\ncommitted 3\n\
worker 1 tried 1 committed 1 denied 0 refused 0\n\
version 4\n",
    fault: "",
    status: 0,
};

const CASES: &[Case] = &[
    SILENT,
    // A twentieth is two rounds.
    Case {
        orders: (1, 40, true),
        log: "\
done\ndone\ndone\ndone\ncommitted 1\ncommitted 2\ncommitted 3\n\
progress 2 of 40 rounds, 1 commits, 0.2 s\n\
progress 4 of 40 rounds, 1 commits, 0.5 s\n\
progress 6 of 40 rounds, 1 commits, 0.7 s\n\
progress 8 of 40 rounds, 1 commits, 1.0 s\n\
progress 10 of 40 rounds, 1 commits, 1.2 s\n\
progress 12 of 40 rounds, 1 commits, 1.5 s\n\
progress 14 of 40 rounds, 1 commits, 1.7 s\n\
progress 16 of 40 rounds, 1 commits, 2.0 s\n\
progress 18 of 40 rounds, 1 commits, 2.2 s\n\
progress 20 of 40 rounds, 1 commits, 2.5 s\n\
progress 22 of 40 rounds, 1 commits, 2.7 s\n\
progress 24 of 40 rounds, 1 commits, 3.0 s\n\
progress 26 of 40 rounds, 1 commits, 3.2 s\n\
progress 28 of 40 rounds, 1 commits, 3.5 s\n\
progress 30 of 40 rounds, 1 commits, 3.7 s\n\
progress 32 of 40 rounds, 1 commits, 4.0 s\n\
progress 34 of 40 rounds, 1 commits, 4.2 s\n\
progress 36 of 40 rounds, 1 commits, 4.5 s\n\
progress 38 of 40 rounds, 1 commits, 4.7 s\n\
progress 40 of 40 rounds, 1 commits, 5.0 s\n\
worker 1 tried 1 committed 1 denied 0 refused 0\n\
version 4\n",
        ..SILENT
    },
    // A round is several twentieths.
    Case {
        orders: (1, 3, true),
        ticks: false,
        log: "\
done\ndone\ndone\ndone\ncommitted 1\ncommitted 2\ncommitted 3\n\
progress 1 of 3 rounds, 1 commits\n\
progress 2 of 3 rounds, 1 commits\n\
progress 3 of 3 rounds, 1 commits\n\
worker 1 tried 1 committed 1 denied 0 refused 0\n\
version 4\n",
        ..SILENT
    },
    // Rounds are counted in threes.
    Case {
        orders: (1, 1000, true),
        ticks: false,
        log: "\
done\ndone\ndone\ndone\ncommitted 1\ncommitted 2\ncommitted 3\n\
progress 51 of 1000 rounds, 1 commits\n\
progress 102 of 1000 rounds, 1 commits\n\
progress 150 of 1000 rounds, 1 commits\n\
progress 201 of 1000 rounds, 1 commits\n\
progress 252 of 1000 rounds, 1 commits\n\
progress 300 of 1000 rounds, 1 commits\n\
progress 351 of 1000 rounds, 1 commits\n\
progress 402 of 1000 rounds, 1 commits\n\
progress 450 of 1000 rounds, 1 commits\n\
progress 501 of 1000 rounds, 1 commits\n\
progress 552 of 1000 rounds, 1 commits\n\
progress 600 of 1000 rounds, 1 commits\n\
progress 651 of 1000 rounds, 1 commits\n\
progress 702 of 1000 rounds, 1 commits\n\
progress 750 of 1000 rounds, 1 commits\n\
progress 801 of 1000 rounds, 1 commits\n\
progress 852 of 1000 rounds, 1 commits\n\
progress 900 of 1000 rounds, 1 commits\n\
progress 951 of 1000 rounds, 1 commits\n\
progress 1000 of 1000 rounds, 1 commits\n\
worker 1 tried 1 committed 1 denied 0 refused 0\n\
version 4\n",
        ..SILENT
    },
    // A worker and live lines change the plan in turn: the worker brings customer 1 to the front, and a live line takes it back.
    Case {
        live: "1 shift 1 1 1 1 2 3\n1 shift 1 1 1 1 2 4\n1 shift 1 1 1 1 2 6\n1 fly\n",
        orders: (1, 4, true),
        log: "\
done\ndone\ndone\ndone\ncommitted 1\ncommitted 2\ncommitted 3\n\
progress 1 of 4 rounds, 1 commits, 0.2 s\n\
denied stale 1\n\
progress 2 of 4 rounds, 1 commits, 0.5 s\n\
committed 5\n\
progress 3 of 4 rounds, 2 commits, 0.7 s\n\
committed 7\n\
progress 4 of 4 rounds, 3 commits, 1.0 s\n\
bad word\n\
worker 1 tried 3 committed 3 denied 0 refused 0\n\
version 8\n",
        status: 1,
        ..SILENT
    },
    // The worker goes on where the live lines cannot be read.
    Case {
        live: "1 shift 1 1 1 1 2 3\n1 shift 1 1 1 1 2 4\n",
        torn: Torn::Fails(2),
        orders: (1, 4, true),
        ticks: false,
        log: "\
done\ndone\ndone\ndone\ncommitted 1\ncommitted 2\ncommitted 3\n\
progress 1 of 4 rounds, 1 commits\n\
denied stale 1\n\
progress 2 of 4 rounds, 1 commits\n\
committed 5\n\
progress 3 of 4 rounds, 2 commits\n\
progress 4 of 4 rounds, 2 commits\n\
worker 1 tried 2 committed 2 denied 0 refused 0\n\
version 6\n",
        fault: "dispatch: run fault read\n",
        status: 3,
        ..SILENT
    },
    // Two workers add up, in an order that no test knows.
    Case {
        orders: (2, 10, true),
        ..SILENT
    },
    // They run at once: each goes on only when the other has said something too.
    Case {
        orders: (2, 1, true),
        together: 2,
        ..SILENT
    },
    // No rounds are no part of all.
    Case {
        live: "1 shift 1 1 1 1 2 3\n",
        orders: (1, 0, true),
        log: "\
done\ndone\ndone\ndone\ncommitted 1\ncommitted 2\ncommitted 3\n\
committed 4\n\
worker 1 tried 0 committed 0 denied 0 refused 0\n\
version 4\n",
        ..SILENT
    },
];

/// How many lines begin with a text.
fn lines_with(text: &str, head: &str) -> usize {
    let mut found = 0usize;
    for line in text.lines() {
        if line.starts_with(head) {
            found = found.saturating_add(1);
        }
    }
    found
}

/// Of so many rounds in all, at most twenty, each is said once.
fn compare_parts(rt: &impl Abort, alloc: Global, log: &str, total: u32) {
    same(rt, lines_with(log, "progress "), total as usize, "lines");
    for before in 0..total {
        let rounds = before.saturating_add(1);
        let head = format!(in alloc; "progress {rounds} of {total} rounds, ").expect(rt, "memory");
        same(rt, lines_with(log, &head), 1, "a number of rounds");
    }
}

/// Compares what was written and said, what was said of faults, the status, and how often somebody waited in vain.
fn compare<R: Abort + Wait>(
    rt: &R,
    alloc: Global,
    heard: &Heard<'_, R>,
    faults: &[u8],
    status: u8,
    case: &Case,
) {
    let found = (text_in(faults), status, heard.alone());
    same(rt, found, (case.fault, case.status, 0), "the end of a run");
    let log = heard.text(alloc).expect(rt, "memory");
    let (workers, rounds, _) = case.orders;
    if workers > 1 {
        compare_parts(rt, alloc, &log, workers.saturating_mul(rounds));
    } else {
        same(rt, log.as_str(), case.log, "what is written and said");
    }
}

/// How many turns worker and live lines take.
fn turns_of(case: &Case) -> u64 {
    let (_, rounds, progress) = case.orders;
    if progress && rounds > 0 {
        lines_with(case.live, "") as u64
    } else {
        0
    }
}

fn task_of(case: &Case) -> Task<'static> {
    let (workers, rounds, progress) = case.orders;
    Task {
        instance: B.as_bytes(),
        orders: Orders {
            workers: workers.min(63),
            rounds,
            seed: 1,
            progress,
        },
    }
}

/// Worker and live lines take turns. Two workers of ten rounds each add up to twenty.
#[test]
fn workers_beside_live_lines(rt: HostRuntime) {
    let alloc = rt.alloc();
    for case in CASES {
        let log = Log::new(rt, alloc, case.ticks, turns_of(case), case.together);
        let heard = Heard::new(alloc, log).expect(&rt, "memory");
        let mut live = InTurn {
            rt: heard.again(),
            input: make_source(case.live.as_bytes(), 10_000, case.torn),
            reads: 0,
        };
        let mut page = Page { rt: heard.again() };
        let mut faults = Vec::new(alloc);
        let status = scripted(
            heard.again(),
            task_of(case),
            &mut GRANTED.as_bytes(),
            &mut live,
            &mut page,
            &mut faults,
        );
        compare(&rt, alloc, &heard, &faults, status, case);
    }
}
