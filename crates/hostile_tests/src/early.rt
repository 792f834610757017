//! A live script that breaks off, since memory runs out as it is read: the lines of the workers and of the version are written all the same.
//!
//! The replies that a run holds take 64 kilobytes until its lines have ended, so there is memory for the last lines again, however little
//! was left for those before them.
use crate::beside::{B, FIRST, SCRIPT};
use crate::scarce::Hoard;
use std::alloc::AllocError;
use std::io::{self, Eprint, Read, Write};
use std::process::Abort;
use std::str;
use std::sync::Wait;
use std::thread::Threads;
use std::time::Clock;
use worker_runs::{Orders, Task, scripted};

/// Questions and calls that leave the version as it is, and the replies to them.
const LIVE: &str = "1 check move vehicle 1\n1 add-user ann\n1 grant root audit board\n1 audit\n";

const REPLIES: [&str; 3] = ["yes\n", "done\n", "done\n"];

/// The last lines of two workers without rounds.
const END: &str = "\
worker 1 tried 0 committed 0 denied 0 refused 0\n\
worker 2 tried 0 committed 0 denied 0 refused 0\n\
version 3\n";

const TWO_WORKERS: Orders = Orders {
    workers: 2,
    rounds: 0,
    seed: 1,
    progress: false,
};

/// Gives a text, and before that takes up all memory but so many bytes.
#[derive(Drop)]
struct Late<'a> {
    hoard: &'a mut Hoard,
    bytes: usize,
    left: &'a [u8],
}

impl Read for Late<'_> {
    fn read(&mut self, buf: &mut [u8]) -> io::Result<usize> {
        let count = self.left.len().min(buf.len());
        if count > 0 {
            self.hoard.leave(self.bytes);
        }
        let (front, rest) = self.left.split_at(count);
        buf[..count].copy_from_slice(front);
        self.left = rest;
        Ok(count)
    }
}

/// Keeps what it takes, and how much of that was flushed.
#[derive(Drop)]
struct Flushed {
    taken: Vec<u8>,
    flushed: usize,
}

impl Write for Flushed {
    fn write(&mut self, buf: &[u8]) -> io::Result<usize> {
        self.taken.extend_from_slice(buf)?;
        Ok(buf.len())
    }

    fn flush(&mut self) -> io::Result<()> {
        self.flushed = self.taken.len();
        Ok(())
    }
}

/// What stands behind the replies to as many live lines as have theirs.
fn behind_replies(text: &str) -> Option<&str> {
    let mut rest = text.strip_prefix(FIRST)?;
    for reply in REPLIES {
        rest = rest.strip_prefix(reply).unwrap_or(rest);
    }
    Some(rest)
}

/// Whether all that was written was flushed, and a run ended with the last lines; none where its live script lacked memory.
fn judged(written: &Flushed, faults: &[u8], status: u8) -> Option<bool> {
    let text = str::from_utf8(&written.taken).unwrap_or("");
    let is_flushed = written.flushed == text.len() && text.ends_with(END);
    if !is_flushed {
        return Some(false);
    }
    if faults.is_empty() {
        return Some(status == 0);
    }
    let is_early = faults == b"dispatch: run fault no-memory\n".as_slice() && status == 3;
    if is_early && behind_replies(text) == Some(END) {
        return None;
    }
    Some(false)
}

/// Runs the scripts, the live one with so many bytes, and judges the run.
fn judged_with<
    H: Threads + Wait + Clock + Eprint + AllocGlobal + Copy + Drop + Send + Sync + 'static,
>(rt: H, hoard: &mut Hoard, bytes: usize) -> Result<Option<bool>, AllocError> {
    let mut written = Flushed {
        taken: Vec::with_capacity(rt.alloc(), 8192)?,
        flushed: 0,
    };
    let mut faults = Vec::with_capacity(rt.alloc(), 4096)?;
    let mut live = Late {
        hoard,
        bytes,
        left: LIVE.as_bytes(),
    };
    let status = scripted(
        rt,
        Task {
            instance: B.as_bytes(),
            orders: TWO_WORKERS,
        },
        &mut SCRIPT.as_bytes(),
        &mut live,
        &mut written,
        &mut faults,
    );
    live.hoard.give_back();
    Ok(judged(&written, &faults, status))
}

fn compare(rt: &impl Abort, hoard: &Hoard, early: u32, is_wanted: bool) {
    assert!(rt; is_wanted, "{early}");
    assert!(rt; hoard.is_enough(early, 10), "{early}");
}

/// Live scripts with more and more memory, of which all but the last one break off.
pub(crate) fn breaks_off<
    H: Threads + Wait + Clock + Eprint + AllocGlobal + Abort + Copy + Drop + Send + Sync + 'static,
>(rt: H, hoard: &mut Hoard) {
    let mut bytes = 0usize;
    for early in 0..1_000u32 {
        match judged_with(rt, hoard, bytes) {
            Ok(None) => {}
            Ok(Some(is_wanted)) => return compare(&rt, hoard, early, is_wanted),
            Err(_) => return compare(&rt, hoard, early, false),
        }
        bytes = bytes.saturating_add(32).saturating_add(bytes / 64);
    }
    compare(&rt, hoard, 1_000, false);
}
