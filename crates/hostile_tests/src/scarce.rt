//! Memory that runs out. All that the process can get is taken up, and a call is left so many bytes.
//!
//! A checker of memory, as that of `rt try`, has a memory of its own, and tests over this may fail there.
//!
//! The blocks that are taken up come as near below the main thread's stack as the system lets them, so that it can grow no more: a call whose
//! frame lies below all that was used before would end the process by a signal. Where the stack begins in its first pages is drawn anew for
//! each process, so that happened in some runs and not in others. So the stack is written first, as deep as any call here goes.
ghost use Rattle.std.specs.Prelude.{◌<◌};

use std::alloc::Global;
use std::process::Abort;

/// How many blocks may be taken up.
const MOST: usize = 300_000;

/// How deep the stack is written. Calls here go 172,032 bytes deep, and the system may let a stack have no more than a megabyte.
const DEEP: usize = 1 << 19;

/// Writes the stack, and says whether it holds what was written. Each number but the first comes from one before it, so that a compiler
/// cannot do without the array, and the first one is not known to it.
#[inline(never)]
fn is_written(first: u8) -> bool {
    let mut room = [first; DEEP];
    for at in 1..DEEP {
        room[at] = room[at / 2].wrapping_add(1);
    }
    room[DEEP - 1] == first.wrapping_add(19)
}

/// Blocks that keep memory from others.
#[derive(Drop)]
struct Blocks {
    alloc: Global,
    taken: Vec<Vec<u8>>,
    left: usize,
}

impl Blocks {
    /// Room for the most blocks.
    fn new(alloc: Global) -> Option<Blocks> {
        Some(Blocks {
            alloc,
            taken: Vec::with_capacity(alloc, MOST).ok()?,
            left: MOST,
        })
    }

    /// Takes up a block of this size, if there is one.
    fn take_one(&mut self, size: usize) -> bool {
        if self.left == 0 {
            return false;
        }
        let Ok(block) = Vec::with_capacity(self.alloc, size) else {
            return false;
        };
        self.left -= 1;
        self.taken.push(block).is_ok()
    }

    /// Takes up so many blocks of one size, and says whether there are so many.
    fn take_some(&mut self, size: usize, count: u32) -> bool {
        for _ in 0..count {
            if !self.take_one(size) {
                return false;
            }
        }
        true
    }

    /// Takes up blocks of one size until there are none, and says whether there are none.
    fn take(&mut self, size: usize) -> bool {
        for _ in 0..150_000u32 {
            if !self.take_one(size) {
                return self.left > 0;
            }
        }
        false
    }

    /// Takes up blocks of so many sizes, each half of the one before.
    fn take_halves(&mut self, first: usize, sizes: u32) -> bool {
        let mut size = first;
        for _ in 0..sizes {
            if !self.take(size) {
                return false;
            }
            size /= 2;
        }
        true
    }

    /// Takes up small blocks of every size.
    fn take_crumbs(&mut self) -> bool {
        let mut size = 1040usize;
        for _ in 0..65u32 {
            if !self.take(size) {
                return false;
            }
            size = size.saturating_sub(16);
        }
        true
    }

    fn give_back(&mut self) {
        self.taken.clear();
        self.left = MOST;
    }
}

/// All memory of the process but some room.
#[derive(Drop)]
pub(crate) struct Hoard {
    alloc: Global,
    large: Blocks,
    small: Blocks,
    /// Whether all memory could be taken up at first, and ever since.
    began: bool,
    is_whole: bool,
}

/// What is left where memory is not to run out: some blocks of this size. The C library keeps what small blocks were taken from when they
/// are given back, up to 32 megabytes each time.
const ROOM: usize = 1 << 29;

/// How many such blocks there are for calls of one thread, and for calls that start threads: a thread's stack needs room in one piece. Each
/// block more makes it dearer to take up the room.
pub(crate) const ALONE: u32 = 1;

pub(crate) const THREADED: u32 = 16;

impl Hoard {
    /// Takes up all memory but so many blocks of room.
    pub(crate) fn new(alloc: Global, rooms: u32) -> Option<Hoard> {
        let mut large = Blocks::new(alloc)?;
        let small = Blocks::new(alloc)?;
        let mut room = Blocks::new(alloc)?;
        let is_room = room.take_some(ROOM, rooms);
        let is_whole = is_written(u8::from(is_room)) && is_room && large.take_halves(1 << 46, 26);
        drop(room);
        Some(Hoard {
            alloc,
            large,
            small,
            began: is_whole,
            is_whole,
        })
    }

    /// Whether all memory could be taken up.
    pub(crate) fn is_whole(&self) -> bool {
        self.is_whole
    }

    /// Whether memory ran out often enough, or cannot be taken up here at all.
    pub(crate) fn is_enough(&self, refused: u32, least: u32) -> bool {
        !self.began || (self.is_whole && refused >= least)
    }

    /// Takes up the room too, but so many bytes. The first blocks are half as large as a heap that the C library makes for a block that it
    /// has no room for, and never gives back: where such a block lacks room, such a heap does too.
    pub(crate) fn leave(&mut self, bytes: usize) {
        if !self.is_whole {
            return;
        }
        let kept: Option<Vec<u8>> = Vec::with_capacity(self.alloc, bytes).ok();
        self.is_whole = self.small.take_halves(1 << 25, 15) && self.small.take_crumbs();
        drop(kept);
    }

    /// Gives the room back.
    pub(crate) fn give_back(&mut self) {
        self.small.give_back();
    }
}

/// What answers a text, and may lack memory.
pub(crate) trait Attempt {
    /// What must hold of it. It keeps holding.
    ghost may: { Self → Type 0 };

    /// Answers a text, and says whether the answer is what is wanted; none where memory ran out and nothing had changed.
    fn attempt(&mut self, text: &str, wanted: &str) -> Option<bool>
        requires { may self.old }
        ensures { may self.new };
}

/// How often memory ran out, how much was not enough the last time, how much was, and whether the answer then was what is wanted.
#[derive(Clone, Copy, Debug, Drop)]
pub(crate) struct Outcome {
    pub refused: u32,
    pub lacked: usize,
    pub bytes: usize,
    pub is_wanted: bool,
}

/// Leaves an attempt so many bytes, and then more and more, until it gets through: each time 16 bytes more, and a part of what came to the
/// first ones.
pub(crate) fn insist<A: Attempt>(
    hoard: &mut Hoard,
    attempt: &mut A,
    text: &str,
    wanted: &str,
    from: usize,
    part: usize,
) -> Outcome
    requires part { 0 < part }
    requires may { A.may attempt.old }
    ensures { A.may attempt.new }
{
    let mut lacked = from;
    let mut more = 0usize;
    for refused in 0..4_000u32 {
        let bytes = from.saturating_add(more);
        hoard.leave(bytes);
        let answer = attempt.attempt(text, wanted);
        hoard.give_back();
        if let Some(is_wanted) = answer {
            return Outcome {
                refused,
                lacked,
                bytes,
                is_wanted,
            };
        }
        lacked = bytes;
        more = more.saturating_add(16).saturating_add(more / part);
    }
    Outcome {
        refused: 4_000,
        lacked,
        bytes: lacked,
        is_wanted: false,
    }
}

fn compare(rt: &impl Abort, outcome: Outcome, line: &str) {
    assert!(rt; outcome.is_wanted, "{line}: {outcome:?}");
}

/// The text of a reply: each line ends, where a row has a stroke and at its end.
fn reply_of(alloc: Global, told: &str) -> Option<String> {
    let mut text = told.replace(alloc, "/", "\n").ok()?;
    text.push('\n').ok()?;
    Some(text)
}

/// Gives the lines of a script in turn, each until it gets through, and compares the replies. It says how often memory ran out.
pub(crate) fn insist_on_rows<A: Attempt>(
    rt: &impl Abort,
    alloc: Global,
    hoard: &mut Hoard,
    attempt: &mut A,
    script: &str,
    from: usize,
) -> u32
    requires { A.may attempt.old }
    ensures { A.may attempt.new }
{
    let mut refused = 0u32;
    for row in script.split('\n') {
        let (line, told) = row.split_once(" => ").unwrap_or((row, ""));
        if let Some(wanted) = reply_of(alloc, told) {
            let outcome = insist(hoard, attempt, line, &wanted, from, 64);
            compare(rt, outcome, line);
            refused = refused.wrapping_add(outcome.refused);
        }
    }
    refused
}
