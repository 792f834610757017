//! Whole runs, and what they begin with, where memory runs out.
use crate::rows::{A, MOVES, RIGHTS};
use crate::scarce::{Attempt, Hoard, insist};
use board_program::{check_bytes, joined, scripted};
use command_line::{OptionFault, Options, options};
use solomon_reader::{ReadFault, read};
use std::alloc::{AllocError, Global};
use std::process::Abort;
use travel_table::Travel;

/// Whether what was written is whole lines of what is wanted.
fn is_front(written: &[u8], wanted: &str) -> bool {
    let ends = written.is_empty() || written.ends_with(b"\n");
    ends && wanted.as_bytes().starts_with(written)
}

/// What a run came to: the wanted text and no fault, or an end for lack of memory.
fn judged(written: &[u8], faults: &[u8], status: u8, wanted: &str) -> Option<bool> {
    if faults.is_empty() {
        return Some(status < 2 && written == wanted.as_bytes());
    }
    let early = faults == b"dispatch: open fault\n".as_slice() && written.is_empty();
    let late = faults == b"dispatch: run fault no-memory\n".as_slice() && is_front(written, wanted);
    if status == 3 && (early || late) {
        return None;
    }
    Some(false)
}

/// What is run.
#[derive(Clone, Copy, Drop)]
enum Kind {
    /// A check of an instance.
    Check,
    /// An instance and a script behind it, in one input.
    Joined,
    /// A script on the instance of four customers.
    Scripted,
}

/// A run, with room for what it writes.
#[derive(Drop)]
struct Run {
    alloc: Global,
    kind: Kind,
    written: Vec<u8>,
    faults: Vec<u8>,
}

impl Run {
    fn new(alloc: Global, kind: Kind) -> Option<Run> {
        Some(Run {
            alloc,
            kind,
            written: Vec::with_capacity(alloc, 65536).ok()?,
            faults: Vec::with_capacity(alloc, 4096).ok()?,
        })
    }

    fn run(&mut self, text: &str) -> u8 {
        let mut input = text.as_bytes();
        let (written, faults) = (&mut self.written, &mut self.faults);
        match self.kind {
            Kind::Check => check_bytes(self.alloc, input, written, faults),
            Kind::Joined => joined(self.alloc, &mut input, written, faults),
            Kind::Scripted => scripted(self.alloc, A.as_bytes(), &mut input, written, faults),
        }
    }
}

impl Attempt for Run {
    ghost may = { λ run. Unit {0} };

    fn attempt(&mut self, text: &str, wanted: &str) -> Option<bool> {
        self.written.clear();
        self.faults.clear();
        let status = self.run(text);
        judged(&self.written, &self.faults, status, wanted)
    }
}

/// Reads an instance and makes its travels.
#[derive(Drop)]
struct Reading {
    alloc: Global,
}

impl Attempt for Reading {
    ghost may = { λ reading. Unit {0} };

    fn attempt(&mut self, text: &str, wanted: &str) -> Option<bool> {
        let instance = match read(self.alloc, text.as_bytes()) {
            Ok(instance) => instance,
            Err(ReadFault::NoMemory) => return None,
            Err(ReadFault::At(..)) => return Some(false),
        };
        let travel = Travel::of(self.alloc, &instance).ok()?;
        Some(instance.name.as_str() == wanted && travel.nodes() == instance.nodes.len())
    }
}

/// Reads the words of a command line.
#[derive(Drop)]
struct Words {
    alloc: Global,
}

impl Attempt for Words {
    ghost may = { λ words. Unit {0} };

    fn attempt(&mut self, text: &str, wanted: &str) -> Option<bool> {
        let words = ["dispatch", "run", text, "script", "--workers", "63"];
        match options(self.alloc, &words) {
            Ok(Options::Run { instance, .. }) => Some(instance == wanted),
            Ok(_) => Some(false),
            Err(OptionFault::NoMemory) => None,
            Err(_) => Some(false),
        }
    }
}

fn compare(rt: &impl Abort, refused: u32, is_wanted: bool, hoard: &Hoard, least: u32) {
    assert!(rt; is_wanted);
    assert!(rt; hoard.is_enough(refused, least), "{refused}");
}

/// Insists on a text until it gets through.
fn gets_through<T: Attempt>(
    rt: &impl Abort,
    hoard: &mut Hoard,
    attempt: &mut T,
    text: &str,
    wanted: &str,
)
    requires { T.may attempt.old }
{
    let outcome = insist(hoard, attempt, text, wanted, 0, 64);
    compare(rt, outcome.refused, outcome.is_wanted, hoard, 5);
}

/// What a check says of the instance.
const REPORT: &str = "name A\ncustomers 4\nvehicles 2\ncapacity 10\nhorizon 1000\n";

/// Appends the lines of a script, and the replies to them, in which a stroke ends a line.
fn push_rows(script: &str, lines: &mut String, replies: &mut String) -> Result<(), AllocError> {
    for row in script.split('\n') {
        let (line, told) = row.split_once(" => ").unwrap_or((row, ""));
        write!(lines, "{line}\n")?;
        write!(replies, "{told}/")?;
    }
    Ok(())
}

/// The lines of all moves and rights, and the replies to them.
fn all_rows(alloc: Global) -> Result<(String, String), AllocError> {
    let mut lines = String::new(alloc);
    let mut replies = String::new(alloc);
    for script in [MOVES, RIGHTS] {
        push_rows(script, &mut lines, &mut replies)?;
    }
    Ok((lines, replies.replace(alloc, "/", "\n")?))
}

/// A kind of run goes through.
fn run_goes_through(
    rt: &impl Abort,
    alloc: Global,
    hoard: &mut Hoard,
    kind: Kind,
    text: &str,
    wanted: &str,
) {
    if let Some(mut run) = Run::new(alloc, kind) {
        gets_through(rt, hoard, &mut run, text, wanted);
    }
}

/// Reading, words of the command line, a check, and the scripts behind an instance and in an input of their own.
pub(crate) fn runs_go_through(rt: &impl Abort, alloc: Global, hoard: &mut Hoard) {
    gets_through(rt, hoard, &mut Reading { alloc }, A, "A");
    gets_through(rt, hoard, &mut Words { alloc }, "instance", "instance");
    run_goes_through(rt, alloc, hoard, Kind::Check, A, REPORT);
    let Ok((lines, replies)) = all_rows(alloc) else {
        return;
    };
    run_goes_through(rt, alloc, hoard, Kind::Scripted, &lines, &replies);
    if let Ok(input) = format!(in alloc; "{A}%%\n{lines}") {
        run_goes_through(rt, alloc, hoard, Kind::Joined, &input, &replies);
    }
}
