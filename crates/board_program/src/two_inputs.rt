//! An instance and a script, each in an input or a file of its own: `dispatch run`.

ghost use Rattle.std.specs.Prelude.{◌≡◌, ◌⊎◌, ℕ, List, Ok, IfSome};
ghost use Rattle.solomon_reader.specs.Instances.{view, IsSound};
ghost use Rattle.board_program.specs.Joined.{IsOfFiles, IsScripted, Says};
ghost use Rattle.program_parts.specs.Streams.{streams_of};

use crate::standard::run_board;
use crate::status::ended;
use program_parts::{Stop, read_path, stopped, unread};
use solomon_reader::{Instance, read};
use std::alloc::Global;
use std::fs;
use std::io::{Read, Write};
use std::rt::Files;

/// Answers a script on the board of an instance, with the status and the fault line that `scripted` has.
fn answered<I: Read, W: Write, F: Write, E: Write>(
    alloc: Global,
    instance: Instance,
    script: &mut I,
    writer: &mut W,
    faults: &mut F,
    notes: Option<&mut E>,
) -> u8
    requires { IsSound (view instance) }
    ensures status { (result ≡ 0) ⊎ (result ≡ 1) ⊎ (result ≡ 3) }
    ensures says { IfSome (I.remaining script.old) (λ bytes. Says (Ok (view instance)) bytes
        (streams_of (W.contents writer.old) (W.contents writer.new) (F.contents faults.old) (F.contents faults.new)) result) }
    ensures ran { (bytes : List ℕ) × Says (Ok (view instance)) bytes
        (streams_of (W.contents writer.old) (W.contents writer.new) (F.contents faults.old) (F.contents faults.new)) result }
{
    ended(faults, run_board(alloc, instance, script, writer, notes))
}

/// The program over two inputs: the bytes of an instance in Solomon's format, and a script of lines for desk 1. The replies
/// go to `writer`, which is flushed before each read and at the end.
///
/// The status is 0 where each line was done, 1 where a line counted as refused, and 3 where the run ended early. `faults`
/// then has one line, which begins with `dispatch: `: `instance fault KIND line N`; `open fault`, where memory ran out
/// before the script; or `run fault KIND`.
pub fn scripted<I: Read, W: Write, F: Write>(
    alloc: Global,
    instance: &[u8],
    script: &mut I,
    writer: &mut W,
    faults: &mut F,
) -> u8
    ensures status { (result ≡ 0) ⊎ (result ≡ 1) ⊎ (result ≡ 3) }
    ensures scripted { IfSome (I.remaining script.old) (λ bytes. IsScripted instance.now bytes
        (streams_of (W.contents writer.old) (W.contents writer.new) (F.contents faults.old) (F.contents faults.new)) result) }
    ensures ran { (bytes : List ℕ) × IsScripted instance.now bytes
        (streams_of (W.contents writer.old) (W.contents writer.new) (F.contents faults.old) (F.contents faults.new)) result }
{
    match read(alloc, instance) {
        Ok(instance) => answered(
            alloc,
            instance,
            script,
            writer,
            faults,
            None::<&mut Vec<u8>>,
        ),
        Err(fault) => stopped(faults, Stop::from(fault)),
    }
}

/// `dispatch run` of two files: the instance is read and judged before the script is opened. A file that cannot be opened,
/// and an instance's file that fails while it is read or has more than 16,777,216 bytes, give `dispatch: cannot read PATH`
/// and status 3; else it is as `scripted` has it. Where there is a stream of notes, it gets one behind the reply of each line
/// that counts as refused, as `run_explained_lines` has it.
pub fn run_files<R: Files + AllocGlobal, W: Write, F: Write, E: Write>(
    rt: &R,
    instance: &str,
    script: &str,
    writer: &mut W,
    faults: &mut F,
    notes: Option<&mut E>,
) -> u8
    ensures status { (result ≡ 0) ⊎ (result ≡ 1) ⊎ (result ≡ 3) }
    ensures files { IsOfFiles instance.now script.now
        (streams_of (W.contents writer.old) (W.contents writer.new) (F.contents faults.old) (F.contents faults.new)) result }
{
    let alloc = rt.alloc();
    let text = match read_path(rt, alloc, instance) {
        Ok(text) => text,
        Err(error) => return unread(faults, instance, &error),
    };
    let judged = match read(alloc, text.as_slice()) {
        Ok(judged) => judged,
        Err(fault) => return stopped(faults, Stop::from(fault)),
    };
    match fs::open(rt, script) {
        Ok(mut file) => answered(alloc, judged, &mut file, writer, faults, notes),
        Err(error) => unread(faults, script, &error),
    }
}
