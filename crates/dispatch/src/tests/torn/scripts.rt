//! Scripts through readers and writers that fail, or give and take a few bytes: in an input of their own, behind an instance, beside
//! workers, and as live scripts.
use crate::tests::comparing::{compare, holds, same};
use crate::tests::torn::devices::{Failing, Sink, Source, Torn, make_sink, make_source};
use crate::tests::torn::instances::A;
use board_program::{joined, scripted};
use std::alloc::{AllocError, Global};
use std::io::Eprint;
use std::process::Abort;
use std::sync::Wait;
use std::thread::Threads;
use std::time::Clock;
use worker_runs::{Orders, Task, scripted as run_beside};

/// Lines and the replies to them.
const ROWS: &[(&str, &str)] = &[
    ("1 grant root move vehicle 1 2\n", "done\n"),
    ("1 grant root move customer 1 4\n", "done\n"),
    ("1 grant root view vehicle 1 2\n", "done\n"),
    ("1 grant root view customer 1 4\n", "done\n"),
    ("1 insert 1 1 1 0\n", "committed 1\n"),
    ("1 insert 2 1 2 1\n", "committed 2\n"),
    ("1 insert 3 1 3 2\n", "committed 3\n"),
    (
        "1 list\n",
        "row 1 1 1 0 28\nrow 1 2 2 4 84\nrow 1 3 3 7 140\nrow 0 0 4\nend\n",
    ),
    (
        "1 json\n",
        "{\"rows\":[[1,1,1,0,28],[1,2,2,4,84],[1,3,3,7,140],[0,0,4]]}\n",
    ),
];

/// All lines, and the replies to them.
struct Texts {
    script: String,
    replies: String,
}

// Written by hand: a derived drop is expanded, down to each list, at every place where a value is dropped.
impl Drop for Texts {
    fn drop(self) {
        let Texts {
            script: _,
            replies: _,
        } = self;
    }
}

fn make_texts(alloc: Global) -> Result<Texts, AllocError> {
    let mut texts = Texts {
        script: String::new(alloc),
        replies: String::new(alloc),
    };
    for (line, reply) in ROWS {
        texts.script.push_str(line)?;
        texts.replies.push_str(reply)?;
    }
    Ok(texts)
}

/// The replies to the first so many lines.
fn first(texts: &Texts, count: usize) -> &str {
    let mut bytes = 0usize;
    for (_, reply) in ROWS.iter().take(count) {
        bytes = bytes.saturating_add(reply.len());
    }
    match texts.replies.split_at_checked(bytes) {
        Some((front, _)) => front,
        None => "",
    }
}

/// Where a script is read.
#[derive(Clone, Copy, PartialEq, Eq, Drop)]
enum Way {
    /// In an input of its own.
    Alone,
    /// Behind an instance in one input.
    Behind,
    /// As the script of a run with a live script, which is empty.
    First,
    /// As the live script.
    Live,
}

const WAYS: [Way; 4] = [Way::Alone, Way::Behind, Way::First, Way::Live];

const NOBODY: Orders = Orders {
    workers: 0,
    rounds: 0,
    seed: 1,
    progress: false,
};

/// Runs a script, and gives the status.
fn run<H: Threads + Wait + Clock + Eprint + AllocGlobal + Copy + Drop + Send + Sync + 'static>(
    rt: H,
    way: Way,
    source: &mut Source<'_>,
    sink: &mut Sink,
    faults: &mut Vec<u8>,
) -> u8 {
    let alloc = rt.alloc();
    let instance = A.as_bytes();
    let task = Task {
        instance,
        orders: NOBODY,
    };
    let mut none = b"".as_slice();
    match way {
        Way::Alone => scripted(alloc, instance, source, sink, faults),
        Way::Behind => joined(alloc, source, sink, faults),
        Way::First => run_beside(rt, task, source, &mut none, sink, faults),
        Way::Live => run_beside(rt, task, &mut none, source, sink, faults),
    }
}

/// How a run is read and written.
#[derive(Clone, Copy, Drop)]
struct Devices {
    way: Way,
    most: usize,
    torn: Torn,
    failing: Failing,
}

const WHOLE: Devices = Devices {
    way: Way::Alone,
    most: 10_000,
    torn: Torn::Never,
    failing: Failing::Never,
};

/// How many reads of a line the instance takes that stands before a script.
const HEAD: u32 = 15;

/// The reads before those of the script.
fn reads_before(way: Way) -> u32 {
    if way == Way::Behind { HEAD } else { 0 }
}

/// What a run wrote, said and ended with.
type Ended = (Vec<u8>, Vec<u8>, u8);

/// The run of an input.
fn ended<H: Threads + Wait + Clock + Eprint + AllocGlobal + Copy + Drop + Send + Sync + 'static>(
    rt: H,
    devices: Devices,
    input: &str,
) -> Ended {
    let mut source = make_source(input.as_bytes(), devices.most, devices.torn);
    let mut sink = make_sink(Vec::new(rt.alloc()), devices.most, devices.failing);
    let mut faults = Vec::new(rt.alloc());
    let status = run(rt, devices.way, &mut source, &mut sink, &mut faults);
    (sink.taken, faults, status)
}

/// The run of a script, behind an instance where it is read so.
fn ended_with<
    H: Threads + Wait + Clock + Eprint + AllocGlobal + Copy + Drop + Send + Sync + 'static,
>(rt: H, devices: Devices, script: &str) -> Result<Ended, AllocError> {
    if devices.way != Way::Behind {
        return Ok(ended(rt, devices, script));
    }
    let input = format!(in rt.alloc(); "{A}%%\n{script}")?;
    Ok(ended(rt, devices, &input))
}

/// The run of all lines writes the replies to the first so many, and ends with this fault and status.
fn gives<
    H: Threads + Wait + Clock + Eprint + AllocGlobal + Abort + Copy + Drop + Send + Sync + 'static,
>(rt: H, devices: Devices, texts: &Texts, count: usize, fault: &str, status: u8) {
    let ended = ended_with(rt, devices, &texts.script);
    let (written, faults, found) = ended.expect(&rt, "memory");
    let wanted = (first(texts, count), fault, status);
    compare(&rt, &written, &faults, found, wanted, "a script");
}

const READ: &str = "dispatch: run fault read\n";

const WRITE: &str = "dispatch: run fault write\n";

#[test]
fn a_byte_at_a_time(rt: HostRuntime) {
    let texts = make_texts(rt.alloc()).expect(&rt, "memory");
    for way in WAYS {
        for most in [1usize, 2, 7, 10_000] {
            let devices = Devices { way, most, ..WHOLE };
            gives(rt, devices, &texts, ROWS.len(), "", 0);
        }
    }
}

/// A read fails, or gives an end, after so many lines. The replies to these lines were written, and nothing that comes later is read.
#[test]
fn reads_that_fail_or_end(rt: HostRuntime) {
    let texts = make_texts(rt.alloc()).expect(&rt, "memory");
    for way in WAYS {
        let mut reads = reads_before(way);
        for count in 0..=ROWS.len() {
            let torn = Torn::Fails(reads);
            gives(rt, Devices { way, torn, ..WHOLE }, &texts, count, READ, 3);
            let torn = Torn::Ends(reads);
            gives(rt, Devices { way, torn, ..WHOLE }, &texts, count, "", 0);
            reads = reads.saturating_add(1);
        }
    }
}

/// A read fails before the script begins.
#[test]
fn reads_that_fail_in_an_instance(rt: HostRuntime) {
    let texts = make_texts(rt.alloc()).expect(&rt, "memory");
    for reads in 0..HEAD {
        let devices = Devices {
            way: Way::Behind,
            torn: Torn::Fails(reads),
            ..WHOLE
        };
        gives(rt, devices, &texts, 0, READ, 3);
    }
}

/// A write fails or takes no byte, or a flush fails, after so many writes of a reply. The replies before were written.
#[test]
fn writes_that_fail(rt: HostRuntime) {
    let texts = make_texts(rt.alloc()).expect(&rt, "memory");
    for way in WAYS {
        let mut writes = 0u32;
        for count in 0..ROWS.len() {
            for failing in [Failing::Write(writes), Failing::Nothing(writes)] {
                let devices = Devices {
                    way,
                    failing,
                    ..WHOLE
                };
                gives(rt, devices, &texts, count, WRITE, 3);
            }
            writes = writes.saturating_add(1);
        }
    }
}

/// Whether the run wrote a prefix of the replies and reported a write that failed.
fn is_front(written: &[u8], faults: &[u8], status: u8, replies: &str) -> bool {
    replies.as_bytes().starts_with(written) && faults == WRITE.as_bytes() && status == 3
}

/// A script of which a byte is written at a time ends early by a write or a flush. It says how long what was written is.
fn fails_at<
    H: Threads + Wait + Clock + Eprint + AllocGlobal + Abort + Copy + Drop + Send + Sync + 'static,
>(rt: H, way: Way, most: usize, failing: Failing, texts: &Texts) -> usize {
    let devices = Devices {
        way,
        most,
        torn: Torn::Never,
        failing,
    };
    let ended = ended_with(rt, devices, &texts.script);
    let (written, faults, status) = ended.expect(&rt, "memory");
    let well = is_front(&written, &faults, status, &texts.replies);
    holds(&rt, well, "a prefix of the replies");
    written.len()
}

/// A byte was taken at each write before the one that fails.
#[test]
fn writes_of_a_byte_that_fail(rt: HostRuntime) {
    let texts = make_texts(rt.alloc()).expect(&rt, "memory");
    for way in WAYS {
        for writes in 0..175u32 {
            let failed = fails_at(rt, way, 1, Failing::Write(writes), &texts);
            let stopped = fails_at(rt, way, 1, Failing::Nothing(writes), &texts);
            let wanted = writes as usize;
            same(&rt, (failed, stopped), (wanted, wanted), "bytes");
        }
    }
}

/// What was written before a flush that fails grows from one flush to the next.
#[test]
fn flushes_that_fail(rt: HostRuntime) {
    let texts = make_texts(rt.alloc()).expect(&rt, "memory");
    for way in WAYS {
        let mut before = 0usize;
        for flushes in 1..9u32 {
            let length = fails_at(rt, way, 10_000, Failing::Flush(flushes), &texts);
            holds(&rt, length >= before, "no less was written");
            before = length;
        }
        holds(&rt, before > 0, "something was written");
    }
}

/// How many whole lines there are in so many bytes, and how many bytes they have.
fn lines_in(cut: usize) -> (usize, usize) {
    let mut count = 0usize;
    let mut bytes = 0usize;
    for (line, _) in ROWS {
        let more = bytes.saturating_add(line.len());
        if more > cut {
            return (count, bytes);
        }
        count = count.saturating_add(1);
        bytes = more;
    }
    (count, bytes)
}

/// Whether the answer to a line that was cut is that to the whole line, or that it is a bad one.
fn is_answer(rest: &[u8], left: usize, row: Option<&(&str, &str)>) -> bool {
    let Some((line, reply)) = row else {
        return rest.is_empty();
    };
    if left == 0 {
        return rest.is_empty();
    }
    if left.saturating_add(1) == line.len() {
        return rest == reply.as_bytes();
    }
    rest.starts_with(b"bad ")
}

/// Whether a script that was cut is answered: its whole lines, and then what is left of the next one.
fn is_answered(written: &[u8], replies: &str, left: usize, row: Option<&(&str, &str)>) -> bool {
    match written.strip_prefix(replies.as_bytes()) {
        Some(rest) => is_answer(rest, left, row),
        None => false,
    }
}

/// Runs a script that was cut, with an end of the line behind it or without.
fn answers_cut<
    H: Threads + Wait + Clock + Eprint + AllocGlobal + Abort + Copy + Drop + Send + Sync + 'static,
>(rt: H, way: Way, cut: usize, end: &str, texts: &Texts) {
    let (front, _) = texts.script.split_at_checked(cut).unwrap_or(("", ""));
    let text = format!(in rt.alloc(); "{front}{end}").expect(&rt, "memory");
    let ended = ended_with(rt, Devices { way, ..WHOLE }, &text);
    let (written, faults, _) = ended.expect(&rt, "memory");
    let (count, bytes) = lines_in(cut);
    let left = cut.saturating_sub(bytes);
    let well = is_answered(&written, first(texts, count), left, ROWS.get(count));
    holds(&rt, well && faults.is_empty(), "a script that was cut");
}

/// A line that ends with the input is answered as one that ends with a line end, whole or not.
#[test]
fn scripts_cut_at_each_byte(rt: HostRuntime) {
    let texts = make_texts(rt.alloc()).expect(&rt, "memory");
    for way in WAYS {
        for cut in 0..188usize {
            answers_cut(rt, way, cut, "", &texts);
            answers_cut(rt, way, cut, "\r\n", &texts);
        }
    }
}
