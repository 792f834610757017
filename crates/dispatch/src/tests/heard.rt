//! A runtime that a test hears: its threads are those of the test, what is said on standard error is kept with what is written, and its clock
//! goes on by a quarter of a second each time that it is read.

use std::alloc::{Alloc, Global};
use std::fmt::Display;
use std::io::{self, Eprint, ErrorKind, Read, Write};
use std::str;
use std::sync::atomic::{AtomicU64, Ordering};
use std::sync::{Mutex, Wait};
use std::thread::{Threads, yield_now};
use std::time::{Clock, Duration};

/// What was written and said, in the order in which it came.
#[derive(Drop)]
pub(crate) struct Log<R> {
    host: R,
    text: Mutex<String>,
    /// How often the clock was read, if it can be.
    reads: AtomicU64,
    ticks: bool,
    /// How many texts were said, how many live lines were answered, and for how many of both the one waits for the other.
    said: AtomicU64,
    answered: AtomicU64,
    turns: u64,
    /// For how many texts each who said one waits, and how often they did not come.
    together: u64,
    alone: AtomicU64,
}

impl<R> Log<R> {
    pub(crate) fn new(host: R, alloc: Global, ticks: bool, turns: u64, together: u64) -> Log<R> {
        Log {
            host,
            text: Mutex::new(String::new(alloc)),
            reads: AtomicU64::new(0),
            ticks,
            said: AtomicU64::new(0),
            answered: AtomicU64::new(0),
            turns,
            together,
            alone: AtomicU64::new(0),
        }
    }
}

/// Adds one, and says how many there are.
fn count(word: &AtomicU64) -> u64 {
    word.fetch_add(1, Ordering::SeqCst).saturating_add(1)
}

/// Waits until a word is no less than this, and tells whether it came to that before ten million turns were over: a test ends by itself.
fn wait_for(word: &AtomicU64, least: u64) -> bool {
    for _turn in 0..10_000_000u32 {
        if word.load(Ordering::SeqCst) >= least {
            return true;
        }
        yield_now();
    }
    false
}

/// A runtime that keeps what is said.
#[derive(Clone, Copy, Drop)]
pub(crate) struct Heard<'a, R> {
    log: &'a Log<R>,
}

impl<'a, R: Drop> Heard<'a, R> {
    /// A runtime over a log. The log is never freed, since a runtime is copied into each thread.
    pub(crate) fn new(alloc: Global, log: Log<R>) -> Option<Heard<'a, R>>
    where
        R: 'a,
    {
        let log = Box::new(alloc, log).ok()?;
        Some(Heard {
            log: Box::leak(log),
        })
    }
}

impl<'a, R: Wait> Heard<'a, R> {
    fn keep<D: Display + Drop>(&self, value: D) -> io::Result<()> {
        let mut text = self.log.text.lock(&self.log.host);
        write!(text, "{value}")?;
        Ok(())
    }

    /// The same runtime.
    pub(crate) fn again(&self) -> Heard<'a, R> {
        Heard { log: self.log }
    }

    /// How often somebody waited for the others in vain.
    pub(crate) fn alone(&self) -> u64 {
        self.log.alone.load(Ordering::SeqCst)
    }

    /// All that was written and said.
    pub(crate) fn text(&self, alloc: Global) -> Option<String> {
        let text = self.log.text.lock(&self.log.host);
        String::from_str(alloc, text.as_str()).ok()
    }
}

impl<R: Wait> Wait for Heard<'_, R> {}

impl<R: Threads> Threads for Heard<'_, R> {}

impl<R: AllocGlobal> Alloc for Heard<'_, R> {
    type A = Global;

    fn alloc(&self) -> Global {
        self.log.host.alloc()
    }
}

impl<R> Clock for Heard<'_, R> {
    fn monotonic(&self) -> io::Result<Duration> {
        if !self.log.ticks {
            return Err(io::Error::from(ErrorKind::Other));
        }
        Ok(Duration::from_millis(count(&self.log.reads).saturating_mul(250)))
    }

    fn since_1970(&self) -> io::Result<Duration> {
        Err(io::Error::from(ErrorKind::Other))
    }
}

/// A text is said, and then, in its turn, the next live line is answered before the one who said it goes on.
impl<R: Wait> Eprint for Heard<'_, R> {
    fn eprint<D: Display + Drop>(&self, value: D) -> io::Result<()> {
        self.keep(value)?;
        let said = count(&self.log.said);
        wait_for(&self.log.answered, said.min(self.log.turns));
        if !wait_for(&self.log.said, self.log.together) {
            count(&self.log.alone);
        }
        Ok(())
    }

    fn eprintln<D: Display + Drop>(&self, value: D) -> io::Result<()> {
        self.eprint(value)?;
        self.eprint("\n")
    }
}

/// Gives what another reader gives. In its turn it waits until something more was said.
#[derive(Drop)]
pub(crate) struct InTurn<'a, R, I> {
    pub rt: Heard<'a, R>,
    pub input: I,
    pub reads: u64,
}

impl<R, I: Read> Read for InTurn<'_, R, I> {
    fn read(&mut self, buf: &mut [u8]) -> io::Result<usize> {
        let log = self.rt.log;
        if self.reads > 0 {
            count(&log.answered);
        }
        self.reads = self.reads.saturating_add(1);
        wait_for(&log.said, self.reads.min(log.turns));
        self.input.read(buf)
    }
}

/// Keeps what is written in the log.
#[derive(Drop)]
pub(crate) struct Page<'a, R> {
    pub rt: Heard<'a, R>,
}

impl<R: Wait> Write for Page<'_, R> {
    fn write(&mut self, buf: &[u8]) -> io::Result<usize> {
        let Ok(text) = str::from_utf8(buf) else {
            return Err(io::Error::from(ErrorKind::InvalidData));
        };
        self.rt.keep(text)?;
        Ok(buf.len())
    }

    fn flush(&mut self) -> io::Result<()> {
        Ok(())
    }
}
