//! The head of a joined input: the instance, up to the line `%%`.

ghost use Rattle.std.specs.Prelude.{ℕ, ◌≡◌, ◌≤◌, ◌++◌, List, [], length, take, drop, IfOk, IfErr, IfSome};
ghost use Rattle.std.specs.Str.{bytes_eq};
ghost use Rattle.program_parts.specs.Stops.{IsUnread};
ghost use Rattle.program_parts.specs.Head.{mark, ends_instance, halves, IsHead, IsMarked, Took, Fed, AreRead};

use crate::stop::Stop;
use limits::LARGEST_FILE;
use line_engine::RunFault;
use std::alloc::Global;
use std::io::Read;

/// How many bytes are read at a time.
const CHUNK_BYTES: usize = 65_536;

/// Whether a line, without its line feed, ends the instance: it is `%%`, or that with one carriage return.
fn is_mark(line: &[u8]) -> bool
    ensures { result ≡ ends_instance line.now }
{
    is_bare_mark(line) || line == b"%%\r".as_slice()
}

/// Whether a line is `%%` with nothing behind it.
fn is_bare_mark(line: &[u8]) -> bool
    ensures { result ≡ bytes_eq line.now mark }
{
    line == b"%%".as_slice()
}

/// What was read of the head so far, and where its last line begins.
#[derive(Drop)]
struct Head {
    text: Vec<u8>,
    line: usize,
}

impl Head {
    fn new(alloc: Global) -> Head
        ensures text { result.text.items ≡ [] }
        ensures line { result.line ≡ 0 }
    {
        Head {
            text: Vec::new(alloc),
            line: 0,
        }
    }

    /// Takes one byte, and tells whether it ends the line `%%`, which is then left out.
    fn take(&mut self, byte: u8) -> Result<bool, Stop>
        requires head { IsHead self.old.text.items self.old.line }
        requires short { self.old.line ≤ LARGEST_FILE }
        ensures took { IfOk result (λ found. Took self.old.text.items self.new.text.items self.new.line byte found) }
        ensures fault { IfErr result IsUnread }
    {
        if byte != b'\n' {
            self.text.push(byte)?;
        } else if is_mark(&self.text[self.line..]) {
            self.text.truncate(self.line);
            return Ok(true);
        } else {
            self.text.push(byte)?;
            self.line = self.text.len();
            if self.line > LARGEST_FILE {
                return Err(Stop::Run(RunFault::Read));
            }
        }
        // A line `%%` that is still to come has at most three bytes before its end.
        if self.text.len() > LARGEST_FILE + 3 {
            return Err(Stop::Run(RunFault::Read));
        }
        Ok(false)
    }

    /// Takes bytes up to the end of the line `%%`: how many they are, or none where that line does not end there.
    fn feed(&mut self, piece: &[u8]) -> Result<Option<usize>, Stop>
        requires head { IsHead self.old.text.items self.old.line }
        requires short { self.old.line ≤ LARGEST_FILE }
        ensures within { IfOk result (λ used. IfSome used (λ n. n ≤ length piece.now)) }
        ensures fed { IfOk result (λ used. Fed self.old.text.items self.new.text.items self.new.line piece.now used) }
        ensures fault { IfErr result IsUnread }
    {
        for k in 0..piece.len() {
            if self.take(piece[k])? {
                return Ok(Some(k + 1));
            }
        }
        Ok(None)
    }

    /// The instance where the input ended: a last line `%%` is left out.
    fn finish(mut self) -> Result<Vec<u8>, Stop>
        requires { IsHead self.text.items self.line }
        ensures halves { IfOk result (λ text. halves self.text.items ≡ record { instance = text.items; script = [] }) }
        ensures short { IfOk result (λ text. length text.items ≤ LARGEST_FILE) }
        ensures fault { IfErr result IsUnread }
    {
        if is_bare_mark(&self.text[self.line..]) {
            self.text.truncate(self.line);
        }
        if self.text.len() > LARGEST_FILE {
            return Err(Stop::Run(RunFault::Read));
        }
        Ok(self.text)
    }
}

/// A joined input that was read up to the end of its line `%%`, or to its end where there is no such line.
#[derive(Drop)]
pub struct Parts {
    /// The bytes before the line `%%`.
    pub instance: Vec<u8>,
    /// The last piece that was read, in which that line ends.
    pub piece: Vec<u8>,
    /// How many bytes of that piece lie before the script.
    pub used: usize,
    /// Whether the script may go on in the reader.
    pub goes_on: bool,
}

/// Reads up to the first line that is exactly `%%`. One carriage return before its line feed is dropped, and at the end
/// of the input it needs no line feed.
///
/// A read that fails before that line, more than 16,777,216 bytes before it, and 2^64 - 1 reads are the fault of reading.
pub fn read_parts<I: Read>(alloc: Global, reader: &mut I) -> Result<Parts, Stop>
    ensures parts { IfOk result (λ parts. AreRead (I.remaining reader.old) (I.remaining reader.new) parts.instance.items
        (drop parts.used parts.piece.items) parts.goes_on) }
    ensures within { IfOk result (λ parts. parts.used ≤ length parts.piece.items) }
    ensures short { IfOk result (λ parts. length parts.instance.items ≤ LARGEST_FILE) }
    ensures fault { IfErr result IsUnread }
{
    let mut chunk = vec![in alloc; 0u8; CHUNK_BYTES]?;
    let mut head = Head::new(alloc);
    for _ in 0..u64::MAX {
        let Ok(count) = reader.read(chunk.as_mut_slice()) else {
            return Err(Stop::Run(RunFault::Read));
        };
        if count == 0 {
            return Ok(Parts {
                instance: head.finish()?,
                piece: Vec::new(alloc),
                used: 0,
                goes_on: false,
            });
        }
        if let Some(used) = head.feed(&chunk[..count])? {
            chunk.truncate(count);
            return Ok(Parts {
                instance: head.text,
                piece: chunk,
                used,
                goes_on: true,
            });
        }
    }
    Err(Stop::Run(RunFault::Read))
}
