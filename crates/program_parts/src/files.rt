//! The files that the command line names.

ghost use Rattle.std.specs.Prelude.{◌≡◌, ◌≢◌, ◌≤◌, IfOk, IfSome, length};
ghost use Rattle.std.specs.IoError.{error_kind};
ghost use Rattle.std.specs.declared.io.ErrorKind.TheVariants.{OutOfMemory};
ghost use Rattle.line_engine.specs.Running.{AppendsPrefix};
ghost use Rattle.program_parts.specs.Streams.{IsUnreadable, path_line, stop_line};
ghost use Rattle.program_parts.specs.declared.stop.Stop.TheVariants.{Open};

use crate::fault_line::tell_path;
use crate::stop::{Stop, stopped};
use limits::LARGEST_FILE;
use std::alloc::Global;
use std::fs;
use std::io::{self, ErrorKind, Read, Write};
use std::rt::Files;

/// All bytes of an instance's file, of which there may be 16,777,216. An error of the file, and more bytes, are errors.
pub fn read_file<I: Read + Drop>(alloc: Global, file: I) -> io::Result<Vec<u8>>
    ensures whole { IfOk result (λ text. IfSome (I.remaining file) (λ bytes. text.items ≡ bytes)) }
    ensures small { IfOk result (λ text. length text.items ≤ LARGEST_FILE) }
{
    let mut text = Vec::new(alloc);
    file.take(LARGEST_FILE as u64 + 1).read_to_end(&mut text)?;
    if text.len() > LARGEST_FILE {
        return Err(io::Error::from(ErrorKind::FileTooLarge));
    }
    Ok(text)
}

/// All bytes of the file at a path, as `read_file` has it. A file that does not open is an error too.
pub fn read_path<R: Files>(rt: &R, alloc: Global, path: &str) -> io::Result<Vec<u8>>
    ensures { IfOk result (λ text. length text.items ≤ LARGEST_FILE) }
{
    read_file(alloc, fs::open(rt, path)?)
}

/// Says that the file at a path cannot be read, or, if that is the error, that memory ran out, and gives the status that the program ends
/// with.
pub fn unread<F: Write>(faults: &mut F, path: &str, error: &io::Error) -> u8
    ensures unreadable { IsUnreadable path.now (F.contents faults.old) (F.contents faults.new) result }
    ensures memory { error_kind error.now ≡ OutOfMemory → AppendsPrefix (F.contents faults.old) (F.contents faults.new) (stop_line Open) }
    ensures other { error_kind error.now ≢ OutOfMemory
        → AppendsPrefix (F.contents faults.old) (F.contents faults.new) (path_line path.now) }
{
    if error.kind() == ErrorKind::OutOfMemory {
        return stopped(faults, Stop::Open);
    }
    tell_path(faults, path);
    3
}
