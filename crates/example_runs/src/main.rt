//! Runs of the program over files, one after another. The file `cases` in `data` has one in each line, and the gate compares what all of
//! them write with the file `stdout`.
#![tactic(auto)]

mod cases;
mod devices;
mod rows;
mod runs;

use crate::cases::{Case, case_of};
use crate::rows::column;
use crate::runs::{Ended, bytes_of, run_case};
use std::alloc::Global;
use std::io::{self, Eprint, Write};
use std::process::ExitCode;
use std::rt::Files;
use std::str;
use std::sync::Wait;
use std::thread::Threads;
use std::time::Clock;

/// Writes what a run wrote. Where its script has replies, and it wrote just these, that is said instead.
fn tell_written<W: Write>(
    writer: &mut W,
    alloc: Global,
    written: &[u8],
    rows: &str,
) -> io::Result<()> {
    let wanted = column(alloc, rows, true)?;
    if !rows.is_empty() && wanted.as_slice() == written {
        return writeln!(writer, "as its rows say");
    }
    writer.write_all(written)
}

/// Writes what a run wrote and said, and how it ended.
fn tell<W: Write>(writer: &mut W, alloc: Global, ended: &Ended, rows: &str) -> io::Result<()> {
    tell_written(writer, alloc, &ended.written.taken, rows)?;
    writer.write_all(&ended.faults.taken)?;
    writer.write_all(&ended.notes)?;
    writeln!(
        writer,
        "-- status {}, {} bytes flushed",
        ended.status, ended.written.flushed
    )
}

/// The script with replies of a case, or none.
fn talk_of<'a>(case: &Case<'a>) -> &'a str {
    if case.script.ends_with(".talk") {
        return case.script;
    }
    if case.live.ends_with(".talk") {
        return case.live;
    }
    ""
}

/// Runs a case.
fn answer<
    H: Threads + Wait + Clock + Eprint + Files + AllocGlobal + Copy + Drop + Send + Sync + 'static,
    W: Write,
>(rt: H, writer: &mut W, case: &Case<'_>) -> io::Result<()> {
    let alloc = rt.alloc();
    let bytes = bytes_of(&rt, alloc, talk_of(case));
    let rows = str::from_utf8(&bytes).unwrap_or("");
    match run_case(rt, case) {
        Ok(ended) => tell(writer, alloc, &ended, rows),
        Err(_) => writeln!(writer, "no memory"),
    }
}

/// Runs the cases of a text. A line that is empty or begins with `#` is passed over.
fn answers<
    H: Threads + Wait + Clock + Eprint + Files + AllocGlobal + Copy + Drop + Send + Sync + 'static,
    W: Write,
>(rt: H, writer: &mut W, text: &str) -> io::Result<()> {
    for line in text.lines() {
        if line.is_empty() || line.starts_with("#") {
            continue;
        }
        writeln!(writer, "== {line}")?;
        match case_of(line) {
            Some(case) => answer(rt, writer, &case)?,
            None => writeln!(writer, "no case")?,
        }
    }
    Ok(())
}

fn main(rt: HostRuntime) -> ExitCode {
    let bytes = bytes_of(&rt, rt.alloc(), "cases");
    let text = str::from_utf8(&bytes).unwrap_or("not text");
    match answers(rt, &mut rt.stdout(), text) {
        Ok(()) => ExitCode::from(0),
        Err(_) => ExitCode::from(1),
    }
}
