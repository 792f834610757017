//! How far the workers are, reported as they go on.
ghost use Rattle.std.specs.Prelude.{◌<◌};

use crate::orders::Orders;
use search_workers::{Gate, Outcome, Point};
use std::alloc::{AllocError, Global};
use std::io::Eprint;
use std::sync::atomic::{AtomicU64, Ordering};
use std::sync::{Arc, Wait};
use std::time::{Clock, Instant};

/// A gate that each worker gets a copy of.
pub(crate) trait Copied: Sized {
    /// Another copy. None where memory runs out.
    fn copied(&self) -> Option<Self>;
}

/// A gate that never holds a worker, and reports nothing.
#[derive(Clone, Copy, Drop)]
pub(crate) struct Quiet;

impl<W: Wait> Gate<W> for Quiet {
    fn pass(&self, _rt: &W, _worker: u32, _round: u32, _point: Point) {}
}

impl Copied for Quiet {
    fn copied(&self) -> Option<Quiet> {
        Some(Quiet)
    }
}

/// In how many parts the rounds of all workers are reported.
const PARTS: u64 = 20;

/// How often a worker adds its rounds to those of all, some times more or less.
const ADDS: u32 = 400;

/// What all workers have come to so far, out of how many rounds, and since when.
#[derive(Drop)]
struct Sum {
    rounds: AtomicU64,
    commits: AtomicU64,
    total: u64,
    start: Option<Instant>,
}

impl Sum {
    /// How many parts of all rounds so many rounds are.
    fn parts(&self, rounds: u64) -> u64 {
        rounds
            .saturating_mul(PARTS)
            .checked_div(self.total)
            .unwrap_or(0)
    }

    /// The time since the start, in whole seconds and tenths, if the clock says it.
    fn time<W: Clock>(&self, rt: &W) -> Option<(u64, u32)> {
        let Some(start) = self.start else {
            return None;
        };
        match start.elapsed(rt) {
            Ok(time) => Some((time.as_secs(), time.subsec_millis() / 100)),
            Err(_) => None,
        }
    }

    /// The line of a report after so many rounds.
    fn line<W: Clock>(&self, rt: &W, alloc: Global, rounds: u64) -> Result<String, AllocError> {
        let commits = self.commits.load(Ordering::SeqCst);
        let mut text = String::new(alloc);
        write!(
            text,
            "progress {} of {} rounds, {} commits",
            rounds, self.total, commits
        )?;
        if let Some((seconds, tenths)) = self.time(rt) {
            write!(text, ", {seconds}.{tenths} s")?;
        }
        text.push_str("\n")?;
        Ok(text)
    }
}

/// A gate that never holds a worker, and writes a line to standard error each time that another twentieth of all workers' rounds is done.
///
/// A worker adds its rounds to those of all some 400 times, and not after each: where nobody commits, rounds touch no memory that another
/// worker writes.
#[derive(Drop)]
pub(crate) struct Report {
    alloc: Global,
    sum: Arc<Sum>,
    rounds: u32,
    step: u32,
    ghost some: { 0 < step },
}

impl Report {
    /// Nothing is done yet.
    pub(crate) fn new<W: Clock>(
        rt: &W,
        alloc: Global,
        orders: Orders,
    ) -> Result<Report, AllocError> {
        let sum = Sum {
            rounds: AtomicU64::new(0),
            commits: AtomicU64::new(0),
            total: u64::from(orders.workers) * u64::from(orders.rounds),
            start: Instant::now(rt).ok(),
        };
        Ok(Report {
            alloc,
            sum: Arc::new(alloc, sum)?,
            rounds: orders.rounds,
            step: orders.rounds / ADDS + 1,
        })
    }

    /// How many rounds a worker adds after this one.
    fn due(&self, round: u32) -> u32 {
        if round % self.step == 0 {
            self.step
        } else if round == self.rounds {
            round % self.step
        } else {
            0
        }
    }

    /// Adds rounds, and writes a line if they end another part. A line that cannot be made or written is left out.
    fn add<W: Clock + Eprint>(&self, rt: &W, more: u32) {
        let before = self.sum.rounds.fetch_add(u64::from(more), Ordering::SeqCst);
        let now = before.saturating_add(u64::from(more));
        if self.sum.parts(before) < self.sum.parts(now) {
            if let Ok(line) = self.sum.line(rt, self.alloc, now) {
                let _ = rt.eprint(line.as_str());
            }
        }
    }
}

impl<W: Wait + Clock + Eprint> Gate<W> for Report {
    fn pass(&self, _rt: &W, _worker: u32, _round: u32, _point: Point) {}

    fn done(&self, rt: &W, _worker: u32, round: u32, outcome: Outcome) {
        if outcome == Outcome::Committed {
            self.sum.commits.fetch_add(1, Ordering::SeqCst);
        }
        let more = self.due(round);
        if more > 0 {
            self.add(rt, more);
        }
    }
}

impl Copied for Report {
    fn copied(&self) -> Option<Report> {
        match Arc::try_clone(&self.sum) {
            Ok(sum) => Some(Report {
                alloc: self.alloc,
                sum,
                rounds: self.rounds,
                step: self.step,
            }),
            Err(_) => None,
        }
    }
}
