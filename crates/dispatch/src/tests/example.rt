//! The example of four workers and a live file, of which all but some lines is the same in each run.

use crate::tests::comparing::{same, text_in};
use board_program::scripted as judge;
use std::alloc::{AllocError, Global};
use std::io::Eprint;
use std::process::Abort;
use std::sync::Wait;
use std::thread::Threads;
use std::time::Clock;
use worker_runs::{Orders, Task, scripted};

/// `docs/examples/workers-instance.txt`, `workers-script.txt` and `workers-live.txt`, word for word.
const INSTANCE: &str = "Two lines

VEHICLE
NUMBER     CAPACITY
  2          10

CUSTOMER
CUST NO.  XCOORD.  YCOORD.  DEMAND  READY TIME  DUE DATE  SERVICE TIME

    0      0      0      0      0    1000      0
    1      0     10      1      0    1000      0
    2      0     20      1      0    1000      0
    3      0     30      1      0    1000      0
    4     10      0      1      0    1000      0
    5     20      0      1      0    1000      0
    6     30      0      1      0    1000      0
";

const SCRIPT: &str = "1 grant root move vehicle 1 2
1 grant root move customer 1 6
1 grant root view vehicle 1 2
1 grant root view customer 1 6
1 grant root pin customer 1 6
1 grant root audit board
1 grant worker move vehicle 1 2
1 grant worker move customer 1 6
1 insert 5 1 1 0
1 insert 1 1 2 1
1 insert 3 1 3 2
1 insert 2 2 1 3
1 insert 4 2 2 4
1 insert 6 2 3 5
";

const LIVE: &str = "1 pin 3
1 list
1 audit
";

const ORDERS: Orders = Orders {
    workers: 4,
    rounds: 20,
    seed: 1,
    progress: false,
};

/// What is written, where a row, the events from 22 on, and the numbers of the last lines are left out.
const SHAPE: &str = "done
done
done
done
done
done
done
done
committed 1
committed 2
committed 3
committed 4
committed 5
committed 6
done
row
row
row
row
row
row
end
event 1 1 1 | 1 add-user worker | done
event 2 1 2 | 1 add-role worker | done
event 3 1 3 | 1 assign worker worker | done
event 4 1 4 | 1 open worker worker | session 2
event 5 1 5 | 1 open worker worker | session 3
event 6 1 6 | 1 open worker worker | session 4
event 7 1 7 | 1 open worker worker | session 5
event 8 1 8 | 1 grant root move vehicle 1 2 | done
event 9 1 9 | 1 grant root move customer 1 6 | done
event 10 1 10 | 1 grant root view vehicle 1 2 | done
event 11 1 11 | 1 grant root view customer 1 6 | done
event 12 1 12 | 1 grant root pin customer 1 6 | done
event 13 1 13 | 1 grant root audit board | done
event 14 1 14 | 1 grant worker move vehicle 1 2 | done
event 15 1 15 | 1 grant worker move customer 1 6 | done
event 16 1 16 | 1 insert 5 1 1 0 | committed 1
event 17 1 17 | 1 insert 1 1 2 1 | committed 2
event 18 1 18 | 1 insert 3 1 3 2 | committed 3
event 19 1 19 | 1 insert 2 2 1 3 | committed 4
event 20 1 20 | 1 insert 4 2 2 4 | committed 5
event 21 1 21 | 1 insert 6 2 3 5 | committed 6
event
end
worker 1
worker 2
worker 3
worker 4
version
";

/// The number of an event, its call and its reply.
fn event_in(line: &str) -> Option<(u32, &str, &str)> {
    let (head, rest) = line.strip_prefix("event ")?.split_once(" | ")?;
    let (number, _) = head.split_once(" ")?;
    let (call, reply) = rest.split_once(" | ")?;
    Some((number.parse::<u32>().ok()?, call, reply))
}

/// What a line is in each run: itself, or its first words.
fn shape_of(line: &str) -> &str {
    if line.starts_with("row ") {
        return "row";
    }
    if line.starts_with("version ") {
        return "version";
    }
    if let Some((number, _, _)) = event_in(line) {
        return if number < 22 { line } else { "event" };
    }
    match line.split_once(" tried ") {
        Some((worker, _)) => worker,
        None => line,
    }
}

/// The lines in each run. Events from 22 on, of which there is one or more, are one line.
fn shape(alloc: Global, text: &str) -> Result<String, AllocError> {
    let mut shape = String::new(alloc);
    let mut among_events = false;
    for line in text.lines() {
        let next = shape_of(line);
        let is_event = next == "event";
        if !is_event || !among_events {
            shape.push_str(next)?;
            shape.push_str("\n")?;
        }
        among_events = is_event;
    }
    Ok(shape)
}

/// The calls of a journal as a script, and its replies.
fn journal(alloc: Global, text: &str) -> Result<(String, String), AllocError> {
    let mut script = String::new(alloc);
    let mut replies = String::new(alloc);
    for line in text.lines() {
        if let Some((_, call, reply)) = event_in(line) {
            script.push_str(call)?;
            script.push_str("\n")?;
            replies.push_str(reply)?;
            replies.push_str("\n")?;
        }
    }
    Ok((script, replies))
}

/// How many of the rounds that the last lines tell of were committed.
fn committed(text: &str) -> Option<u64> {
    let mut sum = 0u64;
    for line in text.lines() {
        if let Some((_, rest)) = line.split_once(" committed ") {
            if let Some((count, _)) = rest.split_once(" denied ") {
                sum = sum.saturating_add(count.parse::<u64>().ok()?);
            }
        }
    }
    Some(sum)
}

/// The version in the last line.
fn version_in(text: &str) -> Option<u64> {
    let (_, version) = text.trim_end().rsplit_once("version ")?;
    version.parse::<u64>().ok()
}

/// Runs the example, and gives the status.
fn run<H: Threads + Wait + Clock + Eprint + AllocGlobal + Copy + Drop + Send + Sync + 'static>(
    rt: H,
    written: &mut Vec<u8>,
) -> u8 {
    let mut faults = Vec::new(rt.alloc());
    let task = Task {
        instance: INSTANCE.as_bytes(),
        orders: ORDERS,
    };
    scripted(
        rt,
        task,
        &mut SCRIPT.as_bytes(),
        &mut LIVE.as_bytes(),
        written,
        &mut faults,
    )
}

/// What a board of one thread writes of a script.
fn judged(alloc: Global, script: &str) -> Vec<u8> {
    let mut written = Vec::new(alloc);
    let mut faults = Vec::new(alloc);
    let _refused = judge(
        alloc,
        INSTANCE.as_bytes(),
        &mut script.as_bytes(),
        &mut written,
        &mut faults,
    );
    written
}

fn compare_shape(rt: &impl Abort, alloc: Global, text: &str) {
    let shape = shape(alloc, text).expect(rt, "memory");
    same(rt, shape.as_str(), SHAPE, "the lines in each run");
}

/// Compares the replies of the journal with those of a board of one thread to its calls.
fn compare_journal(rt: &impl Abort, alloc: Global, text: &str) {
    let (script, replies) = journal(alloc, text).expect(rt, "memory");
    let judged = judged(alloc, &script);
    same(rt, text_in(&judged), replies.as_str(), "the journal");
}

/// Compares the version with the six commits of the script and those of the workers.
fn compare_version(rt: &impl Abort, text: &str) {
    let commits = committed(text).expect(rt, "a sum").saturating_add(6);
    same(rt, version_in(text), Some(commits), "the version");
}

/// In each run the replies to the script and to the live file are of the same kinds, the journal is legal, since a board of one thread gives
/// its calls the same replies, and the version counts the commits.
#[test]
fn four_workers_and_a_live_file(rt: HostRuntime) {
    let mut written = Vec::new(rt.alloc());
    same(&rt, run(rt, &mut written), 0, "the status");
    let text = text_in(&written);
    compare_shape(&rt, rt.alloc(), text);
    compare_journal(&rt, rt.alloc(), text);
    compare_version(&rt, text);
}
