//! Readers and writers of a few bytes a call, which may fail at one.
use std::io::{self, ErrorKind, Read, Write};

fn failure() -> io::Error {
    io::Error::from(ErrorKind::Other)
}

/// What a reader does once it was read so many times.
#[derive(Clone, Copy, PartialEq, Eq, Drop)]
pub(crate) enum Torn {
    /// It goes on.
    Never,
    /// It fails at the next read.
    Fails(u32),
    /// It gives an end at the next read, and then goes on.
    Ends(u32),
}

/// Gives at most a line and at most so many bytes a read.
#[derive(Drop)]
pub(crate) struct Source<'a> {
    left: &'a [u8],
    most: usize,
    reads: u32,
    torn: Torn,
}

pub(crate) fn make_source(left: &[u8], most: usize, torn: Torn) -> Source<'_> {
    Source {
        left,
        most,
        reads: 0,
        torn,
    }
}

/// How long the first line is, with its end.
fn first_line(text: &[u8]) -> usize {
    for (at, byte) in text.iter().enumerate() {
        if *byte == b'\n' {
            return at + 1;
        }
    }
    text.len()
}

impl Read for Source<'_> {
    fn read(&mut self, buf: &mut [u8]) -> io::Result<usize> {
        let before = self.reads;
        self.reads = before.saturating_add(1);
        if self.torn == Torn::Fails(before) {
            return Err(failure());
        }
        if self.torn == Torn::Ends(before) {
            return Ok(0);
        }
        let count = first_line(self.left)
            .min(self.most)
            .min(self.left.len())
            .min(buf.len());
        let (front, rest) = self.left.split_at(count);
        buf[..count].copy_from_slice(front);
        self.left = rest;
        Ok(count)
    }
}

/// What a writer does once it was called so many times.
#[derive(Clone, Copy, PartialEq, Eq, Drop)]
pub(crate) enum Failing {
    /// It goes on.
    Never,
    /// It fails at the next write.
    Write(u32),
    /// It takes no byte at the next write.
    Nothing(u32),
    /// It fails at the next flush.
    Flush(u32),
}

/// Takes at most so many bytes a write.
#[derive(Drop)]
pub(crate) struct Sink {
    pub taken: Vec<u8>,
    most: usize,
    writes: u32,
    flushes: u32,
    failing: Failing,
}

pub(crate) fn make_sink(taken: Vec<u8>, most: usize, failing: Failing) -> Sink {
    Sink {
        taken,
        most,
        writes: 0,
        flushes: 0,
        failing,
    }
}

impl Write for Sink {
    fn write(&mut self, buf: &[u8]) -> io::Result<usize> {
        let before = self.writes;
        self.writes = before.saturating_add(1);
        if self.failing == Failing::Write(before) {
            return Err(failure());
        }
        if self.failing == Failing::Nothing(before) {
            return Ok(0);
        }
        let count = buf.len().min(self.most);
        self.taken.extend_from_slice(&buf[..count])?;
        Ok(count)
    }

    fn flush(&mut self) -> io::Result<()> {
        let before = self.flushes;
        self.flushes = before.saturating_add(1);
        if self.failing == Failing::Flush(before) {
            return Err(failure());
        }
        Ok(())
    }
}
