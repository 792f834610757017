//! Readers and writers of a few bytes a call, which may fail at one.
use std::io::{self, ErrorKind, Read, Write};

fn failure() -> io::Error {
    io::Error::from(ErrorKind::Other)
}

/// Gives a text so many times, at most so many bytes a read, and fails once it has been read so often.
#[derive(Drop)]
pub(crate) struct Source<'a> {
    text: &'a [u8],
    left: &'a [u8],
    times: u32,
    most: usize,
    reads: u32,
}

pub(crate) fn make_source(text: &[u8], times: u32, most: usize, reads: u32) -> Source<'_> {
    Source {
        text,
        left: text,
        times,
        most,
        reads,
    }
}

impl Read for Source<'_> {
    fn read(&mut self, buf: &mut [u8]) -> io::Result<usize> {
        if self.reads == 0 {
            return Err(failure());
        }
        self.reads -= 1;
        if self.left.is_empty() && self.times > 1 {
            self.times -= 1;
            self.left = self.text;
        }
        let count = self.left.len().min(buf.len()).min(self.most);
        let (front, rest) = self.left.split_at(count);
        buf[..count].copy_from_slice(front);
        self.left = rest;
        Ok(count)
    }
}

/// Takes at most so many bytes a write, and fails at a write or a flush once there were so many of it. Of what it took it keeps all, or, once
/// that is more than `tail`, what came later. `flushed` of the bytes that it keeps were there at the last flush.
#[derive(Drop)]
pub(crate) struct Sink {
    pub(crate) taken: Vec<u8>,
    pub(crate) flushed: usize,
    most: usize,
    tail: usize,
    writes: u32,
    flushes: u32,
}

pub(crate) fn make_sink(taken: Vec<u8>, most: usize, tail: usize, fails: (u32, u32)) -> Sink {
    let (writes, flushes) = fails;
    Sink {
        taken,
        flushed: 0,
        most,
        tail,
        writes,
        flushes,
    }
}

impl Write for Sink {
    fn write(&mut self, buf: &[u8]) -> io::Result<usize> {
        if self.writes == 0 {
            return Err(failure());
        }
        self.writes -= 1;
        if self.taken.len() > self.tail {
            self.taken.clear();
        }
        let count = buf.len().min(self.most);
        self.taken.extend_from_slice(&buf[..count])?;
        Ok(count)
    }

    fn flush(&mut self) -> io::Result<()> {
        if self.flushes == 0 {
            return Err(failure());
        }
        self.flushes -= 1;
        self.flushed = self.taken.len();
        Ok(())
    }
}
