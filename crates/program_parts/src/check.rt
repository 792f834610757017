//! `dispatch check`: what an instance has.

ghost use Rattle.std.specs.Prelude.{◌≡◌, ◌⊎◌, ℕ, List};
ghost use Rattle.solomon_reader.specs.Reading.{read_of};
ghost use Rattle.program_parts.specs.Report.{ChecksTo, IsChecked};
ghost use Rattle.program_parts.specs.Streams.{streams_of, IsUnreadable};

use crate::files::{read_path, unread};
use crate::report::report;
use crate::stop::{Stop, stopped};
use line_engine::{RunFault, write_whole};
use solomon_reader::read;
use std::alloc::Global;
use std::io::Write;
use std::rt::Files;

/// Reads the instance, and writes its report.
fn run_check<W: Write>(alloc: Global, bytes: &[u8], writer: &mut W) -> Result<(), Stop>
    ensures { ChecksTo (read_of bytes.now) (W.contents writer.old) (W.contents writer.new) result }
{
    let instance = read(alloc, bytes)?;
    let text = report(alloc, &instance)?;
    write_whole(writer, text.as_bytes())?;
    match writer.flush() {
        Ok(()) => Ok(()),
        Err(_) => Err(Stop::Run(RunFault::Write)),
    }
}

/// What the bytes of an instance in Solomon's format have, as five lines: `name`, `customers`, `vehicles`, `capacity` and
/// `horizon` (the depot's due date, in tenths), each with its value after one space.
///
/// The status is 0, or 3 with one line on `faults`: `dispatch: instance fault KIND line N`, where the bytes are no
/// instance, `dispatch: run fault write`, where the writer fails, or `dispatch: open fault`, where memory runs out.
pub fn check_bytes<W: Write, F: Write>(
    alloc: Global,
    bytes: &[u8],
    writer: &mut W,
    faults: &mut F,
) -> u8
    ensures { IsChecked (read_of bytes.now)
        (streams_of (W.contents writer.old) (W.contents writer.new) (F.contents faults.old) (F.contents faults.new)) result }
{
    match run_check(alloc, bytes, writer) {
        Ok(()) => 0,
        Err(stop) => stopped(faults, stop),
    }
}

/// `dispatch check` of a file: `dispatch: cannot read PATH` and status 3 where it cannot be read, or has more than
/// 16,777,216 bytes, and else as `check_bytes` has it.
pub fn check_file<R: Files, W: Write, F: Write>(
    rt: &R,
    alloc: Global,
    path: &str,
    writer: &mut W,
    faults: &mut F,
) -> u8
    ensures { ((W.contents writer.new ≡ W.contents writer.old)
        × IsUnreadable path.now (F.contents faults.old) (F.contents faults.new) result)
        ⊎ ((bytes : List ℕ) × IsChecked (read_of bytes)
        (streams_of (W.contents writer.old) (W.contents writer.new) (F.contents faults.old) (F.contents faults.new)) result) }
{
    match read_path(rt, alloc, path) {
        Ok(bytes) => check_bytes(alloc, bytes.as_slice(), writer, faults),
        Err(error) => unread(faults, path, &error),
    }
}
