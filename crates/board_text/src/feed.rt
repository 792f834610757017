//! A script, cut into its lines.

ghost use Rattle.std.specs.Prelude.{◌≡◌, ◌++◌, [], false, MatchOption, IfOk, IfErr};
ghost use Rattle.std.specs.Io.KnownBytes.{Consumes, IsAtEnd};
ghost use Rattle.line_engine.specs.Running.{HasNoEnd};
ghost use Rattle.board_text.specs.Pieces.{AreRead, IsCut, IsFirst, IsNext, IsUncut, IsUnread};

use limits::LONGEST_LINE;
use line_engine::RunFault;
use std::alloc::{AllocError, Global};
use std::io::Read;
use std::mem;
use text_words::keep_line;

/// The next part of a script.
#[derive(Drop)]
pub(crate) enum Piece {
    /// A line, with its line end.
    Line(Vec<u8>),
    /// What follows the last line end. It may be nothing.
    Last(Vec<u8>),
    /// More bytes than a line may have come before the next line end.
    Long,
}

/// How many bytes are read at a time.
const CHUNK_BYTES: usize = 4096;

/// The first line of some bytes, with its line end, and what follows it. None where they have no line end.
fn cut(alloc: Global, bytes: &[u8]) -> Result<Option<(Vec<u8>, Vec<u8>)>, AllocError>
    ensures { IfOk result (λ o. MatchOption o (HasNoEnd bytes.now) (λ p. IsCut bytes.now p.0.items p.1.items)) }
{
    let mut words = Vec::new(alloc);
    let Some(end) = keep_line(&mut words, bytes)? else {
        return Ok(None);
    };
    let line = Vec::from_slice(alloc, &bytes[..end + 1])?;
    let rest = Vec::from_slice(alloc, &bytes[end + 1..])?;
    Ok(Some((line, rest)))
}

/// What was read of a script and is not answered yet.
#[derive(Drop)]
pub(crate) struct Feed {
    held: Vec<u8>,
    /// The number of the line that is answered, from 1. No line: 0.
    pub(crate) number: u64,
}

impl Feed {
    /// Nothing is read yet.
    pub(crate) fn new(alloc: Global) -> Feed
        ensures { result.held.items ≡ [] }
    {
        Feed {
            held: Vec::new(alloc),
            number: 0,
        }
    }

    /// The first line of what was read, if it is whole or too long.
    fn first(&mut self) -> Result<Option<Piece>, AllocError>
        ensures { IfOk result (λ o. MatchOption o (IsUncut self.old.held.items self.new.held.items)
            (IsFirst self.old.held.items self.new.held.items)) }
    {
        let alloc = *self.held.allocator();
        let Some((line, rest)) = cut(alloc, self.held.as_slice())? else {
            if self.held.len() > LONGEST_LINE {
                return Ok(Some(Piece::Long));
            }
            return Ok(None);
        };
        if line.len() > LONGEST_LINE + 1 {
            return Ok(Some(Piece::Long));
        }
        self.held = rest;
        Ok(Some(Piece::Line(line)))
    }

    /// Reads on. Whether there was anything to read.
    fn read_on<I: Read>(&mut self, reader: &mut I) -> Result<bool, RunFault>
        ensures ok { IfOk result (λ more. AreRead more self.old.held.items self.new.held.items
            (I.remaining reader.old) (I.remaining reader.new)) }
        ensures err { IfErr result (λ e. IsUnread e (I.remaining reader.old) (I.remaining reader.new)) }
    {
        let mut chunk = [0u8; CHUNK_BYTES];
        let Ok(count) = reader.read(&mut chunk) else {
            return Err(RunFault::Read);
        };
        if self.held.extend_from_slice(&chunk[..count]).is_err() {
            return Err(RunFault::NoMemory);
        }
        Ok(count > 0)
    }

    /// The next part of the script.
    pub(crate) fn next<I: Read>(&mut self, reader: &mut I) -> Result<Piece, RunFault>
        ensures { IsNext self.old.held.items self.new.held.items (I.remaining reader.old) (I.remaining reader.new) result }
    {
        'reads: for _ in 0..u64::MAX {
            if let Some(piece) = self.first()? {
                return Ok(piece);
            }
            if !self.read_on(reader)? {
                let none = Vec::new(*self.held.allocator());
                let rest = mem::replace(&mut self.held, none);
                return Ok(Piece::Last(rest));
            }
        }
        Err(RunFault::NoMemory)
    }
}
