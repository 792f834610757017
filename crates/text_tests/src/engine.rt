use crate::comparing::{all_written, same};
use board_rules::{AskFault, Call, Denial, Fault, Refusal, Reply, Review, Row};
use board_text::{Notes, run_explained_lines};
use line_engine::{Counts, Front, RunFault, run_lines};
use move_core::Move;
use rbac_core::{Object, Operation};
use separation_core::Name;
use std::alloc::{AllocError, Global};
use std::io::{self, ErrorKind, Read, Write};
use std::process::Abort;

/// Gives at most `most` bytes a read.
#[derive(Drop)]
struct Slow<'a> {
    left: &'a [u8],
    most: usize,
    reads: u32,
}

fn make_slow(left: &[u8], most: usize) -> Slow<'_> {
    Slow {
        left,
        most,
        reads: 0,
    }
}

impl Read for Slow<'_> {
    fn read(&mut self, buf: &mut [u8]) -> io::Result<usize> {
        self.reads = self.reads.saturating_add(1);
        let count = self.left.len().min(buf.len()).min(self.most);
        let (front, rest) = self.left.split_at(count);
        buf[..count].copy_from_slice(front);
        self.left = rest;
        Ok(count)
    }
}

/// What a writer does at the call at which it fails.
#[derive(Clone, Copy, PartialEq, Eq)]
enum Failing {
    Never,
    Write(u32),
    Nothing(u32),
    Flush(u32),
}

/// Takes at most `most` bytes a write, and fails at one call.
#[derive(Drop)]
struct Narrow {
    taken: Vec<u8>,
    most: usize,
    writes: u32,
    flushes: u32,
    failing: Failing,
}

fn make_narrow(alloc: Global, most: usize, failing: Failing) -> Narrow {
    Narrow {
        taken: Vec::new(alloc),
        most,
        writes: 0,
        flushes: 0,
        failing,
    }
}

impl Write for Narrow {
    fn write(&mut self, buf: &[u8]) -> io::Result<usize> {
        self.writes = self.writes.saturating_add(1);
        if self.failing == Failing::Write(self.writes) {
            return Err(io::Error::from(ErrorKind::Interrupted));
        }
        if self.failing == Failing::Nothing(self.writes) {
            return Ok(0);
        }
        let count = buf.len().min(self.most);
        if self.taken.extend_from_slice(&buf[..count]).is_err() {
            return Err(io::Error::from(ErrorKind::OutOfMemory));
        }
        Ok(count)
    }

    fn flush(&mut self) -> io::Result<()> {
        self.flushes = self.flushes.saturating_add(1);
        if self.failing == Failing::Flush(self.flushes) {
            return Err(io::Error::from(ErrorKind::Interrupted));
        }
        Ok(())
    }
}

/// Commits each insert whose base is the version, and lists the one customer that was inserted last.
#[derive(Drop)]
struct Small {
    alloc: Global,
    version: u32,
    last: (u32, u32, u32),
}

fn make_small(alloc: Global) -> Small {
    Small {
        alloc,
        version: 0,
        last: (0, 0, 4),
    }
}

impl Small {
    fn commit(&mut self, base: u32, mv: Move) -> Result<u32, Denial> {
        let Move::Insert {
            customer,
            vehicle,
            place,
        } = mv
        else {
            return Err(Denial::BadPlace);
        };
        if base > self.version {
            return Err(Denial::Ahead);
        }
        if base < self.version {
            return Err(Denial::Stale(vehicle));
        }
        self.version = self.version.saturating_add(1);
        self.last = (vehicle, place, customer);
        Ok(self.version)
    }

    fn answer(&mut self, call: &Call) -> Reply {
        match call {
            Call::Propose { base, mv, .. } => match self.commit(*base, *mv) {
                Ok(version) => Reply::Committed(version),
                Err(denial) => Reply::Denied(denial),
            },
            Call::Policy { session: 1, .. } => Reply::Done,
            _ => Reply::Refused(Refusal::NoSession),
        }
    }
}

impl<R> Front<R> for Small {
    ghost State = { Unit {0} };

    ghost seen = { λ front. tt };

    ghost ready = { λ front. Unit {0} };

    ghost step = { λ old command answer new. Unit {0} };

    ghost refuses = { λ old command new. Unit {0} };

    fn submit(&mut self, _rt: &R, call: Call) -> Result<Reply, Fault> {
        Ok(self.answer(&call))
    }

    fn propose(
        &mut self,
        _rt: &R,
        _session: u32,
        base: u32,
        mv: Move,
    ) -> Result<Result<u32, Denial>, Fault> {
        Ok(self.commit(base, mv))
    }

    fn list(&mut self, _rt: &R, session: u32) -> Result<Vec<Row>, AskFault> {
        if session != 1 {
            return Err(AskFault::NoSession);
        }
        if self.version == 0 {
            return Ok(Vec::new(self.alloc));
        }
        let (vehicle, place, customer) = self.last;
        match vec![in self.alloc; Row::new(vehicle, place, customer, &[0, 28])] {
            Ok(rows) => Ok(rows),
            Err(_) => Err(AskFault::NoMemory),
        }
    }

    fn audit(&mut self, _rt: &R, _session: u32, _text: &mut String) -> Result<(), AskFault> {
        Err(AskFault::NoAccess)
    }

    fn review(&mut self, _rt: &R, _session: u32, _which: Review) -> Result<Vec<Name>, AskFault> {
        Err(AskFault::NoAccess)
    }

    fn check(&mut self, _rt: &R, session: u32, _operation: Operation, _object: Object) -> bool {
        session == 1
    }
}

const SCRIPT: &[u8] =
    b"1 grant root move vehicle 1 2\r\n\n  \t\r\n# 1 list\n1 list\n1 insert 1 1 1 0\n1 insert 4 1 1 0\n1 insert 4 2 1 9\nx list\n1 fly\n1 list\n2 list\n2 grant root admin board\n1 list";

const REPLIES: &[u8] =
    b"done\nend\ncommitted 1\ndenied stale 1\ndenied ahead\nbad number\nbad word\nrow 1 1 1 0 28\nend\nrefused no-session\nrefused no-session\nrow 1 1 1 0 28\nend\n";

const COUNTS: Counts = Counts {
    lines: 11,
    refused: 6,
};

type Ended = Result<Counts, RunFault>;

fn run(alloc: Global, reader: &mut Slow<'_>, writer: &mut Narrow) -> Ended {
    let mut front = make_small(alloc);
    run_lines(&(), alloc, &mut front, reader, writer)
}

/// Compares a whole run by `most` bytes a read and a write.
fn compare_run(rt: &impl Abort, alloc: Global, most: usize) {
    let mut reader = make_slow(SCRIPT, most);
    let mut writer = make_narrow(alloc, most, Failing::Never);
    let counts = run(alloc, &mut reader, &mut writer);
    let found = (most, counts, writer.taken.as_slice(), writer.flushes);
    let flushes = reader.reads.saturating_add(1);
    same(rt, found, (most, Ok(COUNTS), REPLIES, flushes), "a run");
}

#[test]
fn answers_lines_however_they_come(rt: HostRuntime) {
    for most in [1usize, 2, 3, 7, 511, 512, 10_000] {
        compare_run(&rt, rt.alloc(), most);
    }
}

/// A run of blank lines to its end, a read for each of them and one at the end.
const BLANK: (Ended, u32) = (
    Ok(Counts {
        lines: 0,
        refused: 0,
    }),
    2_000_001,
);

/// A run goes on for as many reads as the reader has bytes for: the fault of reading is none of a reader that never fails.
#[test]
fn two_million_reads_are_no_fault(rt: HostRuntime) {
    let text = vec![in rt.alloc(); b'\n'; 2_000_000].expect(&rt, "memory");
    let mut reader = make_slow(&text, 1);
    let mut writer = make_narrow(rt.alloc(), 1, Failing::Never);
    let counts = run(rt.alloc(), &mut reader, &mut writer);
    same(&rt, (counts, reader.reads), BLANK, "a run");
}

/// It has no note to give.
impl Notes for Small {
    fn events(&self) -> usize {
        0
    }

    fn note(
        &self,
        _alloc: Global,
        _before: usize,
        _line: &[u8],
        _number: u64,
    ) -> Result<String, AllocError> {
        Err(AllocError)
    }
}

fn run_with_notes(alloc: Global, reader: &mut Slow<'_>, writer: &mut Narrow) -> Ended {
    let mut notes = Vec::new(alloc);
    let mut front = make_small(alloc);
    run_explained_lines(&(), alloc, &mut front, reader, writer, &mut notes)
}

/// The same with a stream for notes.
#[test]
fn two_million_reads_with_notes_are_no_fault(rt: HostRuntime) {
    let text = vec![in rt.alloc(); b'\n'; 2_000_000].expect(&rt, "memory");
    let mut reader = make_slow(&text, 1);
    let mut writer = make_narrow(rt.alloc(), 1, Failing::Never);
    let counts = run_with_notes(rt.alloc(), &mut reader, &mut writer);
    same(&rt, (counts, reader.reads), BLANK, "a run");
}

/// Compares a run that ends since the writer fails.
fn compare_failure(rt: &impl Abort, alloc: Global, failing: Failing) {
    let mut reader = make_slow(SCRIPT, 300);
    let mut writer = make_narrow(alloc, 1, failing);
    let counts = run(alloc, &mut reader, &mut writer);
    let found = (counts, REPLIES.starts_with(&writer.taken));
    same(rt, found, (Err(RunFault::Write), true), "a failing writer");
}

#[test]
fn a_failing_writer_ends_the_run(rt: HostRuntime) {
    for failing in [
        Failing::Write(1),
        Failing::Write(8),
        Failing::Nothing(1),
        Failing::Nothing(9),
        Failing::Flush(1),
        Failing::Flush(2),
    ] {
        compare_failure(&rt, rt.alloc(), failing);
    }
}

const FAULTS: &[(RunFault, &str)] = &[
    (RunFault::Read, "read"),
    (RunFault::Write, "write"),
    (RunFault::LongLine, "long-line"),
    (RunFault::NoMemory, "no-memory"),
];

#[test]
fn names_its_faults(rt: HostRuntime) {
    all_written(&rt, rt.alloc(), FAULTS);
}
