//! A reader that gives many lines, and a writer that keeps the end of what it takes.

use std::io::{self, Read, Write};

/// Gives a line so many times, once a read.
#[derive(Drop)]
pub(crate) struct Repeated {
    pub line: &'static [u8],
    pub times: u32,
}

impl Read for Repeated {
    fn read(&mut self, buf: &mut [u8]) -> io::Result<usize> {
        let taken = self.line.len();
        if self.times == 0 || buf.len() < taken {
            return Ok(0);
        }
        buf[..taken].copy_from_slice(self.line);
        self.times -= 1;
        Ok(taken)
    }
}

/// Keeps what the last writes took, and something of what came before.
#[derive(Drop)]
pub(crate) struct Tail {
    pub bytes: Vec<u8>,
}

impl Write for Tail {
    fn write(&mut self, buf: &[u8]) -> io::Result<usize> {
        if self.bytes.len() > 4096 {
            self.bytes.clear();
        }
        self.bytes.extend_from_slice(buf)?;
        Ok(buf.len())
    }

    fn flush(&mut self) -> io::Result<()> {
        Ok(())
    }
}
