//! The commands, over bytes and over files.

ghost use Rattle.std.specs.Prelude.{OnOk, IfErr};
ghost use Rattle.plan_picture.specs.Texts.{svg_text};
ghost use Rattle.plan_sums.specs.Texts.{sums_text};
ghost use Rattle.program_parts.specs.Streams.{streams_of};
ghost use Rattle.plan_program.specs.Views.{IsShown, IsUnshown, IsView, IsViewOfFiles};

use crate::draw::write_picture;
use crate::fault_line::view_stopped;
use crate::opening::opened;
use crate::stop::ViewStop;
use crate::summing::write_sums;
use line_engine::RunFault;
use program_parts::{Stop, read_path, unread};
use std::alloc::Global;
use std::io::Write;
use std::rt::Files;

/// Reads what is to be drawn, writes its picture and flushes it.
#[tactic(auto, using(crate::proofs::Unshown::unopened))]
fn run_draw<W: Write>(
    alloc: Global,
    instance: &[u8],
    output: &[u8],
    writer: &mut W,
) -> Result<(), ViewStop>
    ensures ok { OnOk result (IsShown svg_text instance.now output.now (W.contents writer.old) (W.contents writer.new)) }
    ensures err { IfErr result (IsUnshown svg_text instance.now output.now (W.contents writer.old) (W.contents writer.new)) }
{
    let plan = opened(alloc, instance, output)?;
    write_picture(
        alloc,
        &plan.roads,
        plan.rows.as_slice(),
        plan.tours.as_slice(),
        writer,
    )?;
    match writer.flush() {
        Ok(()) => Ok(()),
        Err(_) => Err(ViewStop::Parts(Stop::Run(RunFault::Write))),
    }
}

/// The same of the sums.
#[tactic(auto, using(crate::proofs::Unshown::unopened))]
fn run_sums<W: Write>(
    alloc: Global,
    instance: &[u8],
    output: &[u8],
    writer: &mut W,
) -> Result<(), ViewStop>
    ensures ok { OnOk result (IsShown sums_text instance.now output.now (W.contents writer.old) (W.contents writer.new)) }
    ensures err { IfErr result (IsUnshown sums_text instance.now output.now (W.contents writer.old) (W.contents writer.new)) }
{
    let plan = opened(alloc, instance, output)?;
    write_sums(
        alloc,
        &plan.roads,
        plan.rows.as_slice(),
        plan.tours.as_slice(),
        writer,
    )?;
    match writer.flush() {
        Ok(()) => Ok(()),
        Err(_) => Err(ViewStop::Parts(Stop::Run(RunFault::Write))),
    }
}

/// Writes the picture, as SVG, of the last listing in a run's output, over an instance in Solomon's format.
///
/// The status is 0, or 3 with one line on `faults`: `dispatch: instance fault KIND line N`; `dispatch: rows fault line N`, where a row of that
/// listing is none of the instance, or there is no listing; `dispatch: run fault write`; or `dispatch: open fault`, where memory runs out.
pub fn draw_bytes<W: Write, F: Write>(
    alloc: Global,
    instance: &[u8],
    output: &[u8],
    writer: &mut W,
    faults: &mut F,
) -> u8
    ensures { IsView svg_text instance.now output.now
        (streams_of (W.contents writer.old) (W.contents writer.new) (F.contents faults.old) (F.contents faults.new)) result }
{
    match run_draw(alloc, instance, output, writer) {
        Ok(()) => 0,
        Err(stop) => view_stopped(faults, stop),
    }
}

/// Writes the sums of the last listing in a run's output: one line for each vehicle and one for the plan. The status and the fault lines are
/// those of `draw_bytes`.
pub fn sums_bytes<W: Write, F: Write>(
    alloc: Global,
    instance: &[u8],
    output: &[u8],
    writer: &mut W,
    faults: &mut F,
) -> u8
    ensures { IsView sums_text instance.now output.now
        (streams_of (W.contents writer.old) (W.contents writer.new) (F.contents faults.old) (F.contents faults.new)) result }
{
    match run_sums(alloc, instance, output, writer) {
        Ok(()) => 0,
        Err(stop) => view_stopped(faults, stop),
    }
}

/// `dispatch draw` of two files: `dispatch: cannot read PATH` and status 3 where one cannot be read, or has more than 16,777,216 bytes, and else
/// as `draw_bytes` has it.
pub fn draw_files<R: Files, W: Write, F: Write>(
    rt: &R,
    alloc: Global,
    instance: &str,
    rows: &str,
    writer: &mut W,
    faults: &mut F,
) -> u8
    ensures { IsViewOfFiles svg_text instance.now rows.now
        (streams_of (W.contents writer.old) (W.contents writer.new) (F.contents faults.old) (F.contents faults.new)) result }
{
    let text = match read_path(rt, alloc, instance) {
        Ok(text) => text,
        Err(error) => return unread(faults, instance, &error),
    };
    match read_path(rt, alloc, rows) {
        Ok(output) => draw_bytes(alloc, text.as_slice(), output.as_slice(), writer, faults),
        Err(error) => unread(faults, rows, &error),
    }
}

/// `dispatch sums` of two files, as `draw_files` has it.
pub fn sums_files<R: Files, W: Write, F: Write>(
    rt: &R,
    alloc: Global,
    instance: &str,
    rows: &str,
    writer: &mut W,
    faults: &mut F,
) -> u8
    ensures { IsViewOfFiles sums_text instance.now rows.now
        (streams_of (W.contents writer.old) (W.contents writer.new) (F.contents faults.old) (F.contents faults.new)) result }
{
    let text = match read_path(rt, alloc, instance) {
        Ok(text) => text,
        Err(error) => return unread(faults, instance, &error),
    };
    match read_path(rt, alloc, rows) {
        Ok(output) => sums_bytes(alloc, text.as_slice(), output.as_slice(), writer, faults),
        Err(error) => unread(faults, rows, &error),
    }
}
