//! An instance, a script and a live script, each in an input or a file of its own: `dispatch run` with its options.

ghost use Rattle.std.specs.Prelude.{◌≡◌, ◌⊎◌, Ok, option_map};
ghost use Rattle.solomon_reader.specs.Instances.{view, IsSound};
ghost use Rattle.program_parts.specs.Streams.{AgreesWithStatus, streams_of};
ghost use Rattle.solomon_reader.specs.Reading.{read_of};
ghost use Rattle.worker_runs.specs.Files.{IsOfPaths};
ghost use Rattle.worker_runs.specs.Scripted.{IsRunOfBytes, flow_of};

use crate::opened::{Job, run_with};
use crate::orders::Orders;
use board_program::run_files;
use program_parts::{Stop, read_path, stopped, unread};
use solomon_reader::{Instance, read};
use std::fs;
use std::io::{Eprint, Read, Write};
use std::rt::Files;
use std::sync::Wait;
use std::thread::Threads;
use std::time::Clock;

/// Runs on the board of an instance, and reports how that ended.
fn answered<
    W: Threads + Wait + Clock + Eprint + AllocGlobal + Copy + Drop + Send + Sync + 'static,
    I: Read,
    L: Read,
    O: Write,
    F: Write,
    E: Write,
>(
    job: Job<W>,
    script: &mut I,
    live: &mut L,
    writer: &mut O,
    faults: &mut F,
    notes: Option<&mut E>,
) -> u8
    requires { IsSound (view job.instance) }
    ensures status { (result ≡ 0) ⊎ (result ≡ 1) ⊎ (result ≡ 3) }
    ensures reported { AgreesWithStatus (F.contents faults.old) (F.contents faults.new) result }
    ensures run { IsRunOfBytes (Ok (view job.instance)) job.orders (flow_of (I.remaining script.old) (I.remaining script.new)
        (L.remaining live.old) (L.remaining live.new) (O.contents writer.old) (O.contents writer.new))
        (F.contents faults.old) (F.contents faults.new) result }
{
    match run_with(job, script, live, writer, notes) {
        Ok(refused) => u8::from(refused),
        Err(stop) => stopped(faults, stop),
    }
}

/// What a run is to do: the bytes of an instance in Solomon's format, and what the workers on its board do.
#[derive(Clone, Copy)]
pub struct Task<'a> {
    pub instance: &'a [u8],
    pub orders: Orders,
}

/// The program over three inputs: the bytes of an instance in Solomon's format, a script of lines for desk 1, which it answers alone, and a
/// live script, which desk 1 answers while the workers search. Without a live script, `live` is empty. The replies go to `writer`, and
/// behind them, where there are workers, a line for each worker, `worker I tried T committed C denied D refused R`, and the line
/// `version V`.
///
/// The status is 0 where each line was done, 1 where a line counted as refused, and 3 where the run ended early. `faults` then has one line,
/// which begins with `dispatch: `: `instance fault KIND line N`; `open fault`, where memory ran out before or after the script, or the workers
/// could not be set up or started; or `run fault KIND`. After a run fault of the script neither the live script nor the workers run. After one
/// of the live script the lines of the workers and of the version are written, but not where the writer failed, a worker was not started or
/// memory ran out.
pub fn scripted<
    W: Threads + Wait + Clock + Eprint + AllocGlobal + Copy + Drop + Send + Sync + 'static,
    I: Read,
    L: Read,
    O: Write,
    F: Write,
>(rt: W, task: Task<'_>, script: &mut I, live: &mut L, writer: &mut O, faults: &mut F) -> u8
    ensures status { (result ≡ 0) ⊎ (result ≡ 1) ⊎ (result ≡ 3) }
    ensures reported { AgreesWithStatus (F.contents faults.old) (F.contents faults.new) result }
    ensures run { IsRunOfBytes (read_of task.entry.instance.now) task.entry.orders
        (flow_of (I.remaining script.old) (I.remaining script.new) (L.remaining live.old) (L.remaining live.new)
        (O.contents writer.old) (O.contents writer.new))
        (F.contents faults.old) (F.contents faults.new) result }
{
    match read(rt.alloc(), task.instance) {
        Ok(instance) => {
            let job = Job {
                rt,
                instance,
                orders: task.orders,
            };
            answered(job, script, live, writer, faults, None::<&mut Vec<u8>>)
        }
        Err(fault) => stopped(faults, Stop::from(fault)),
    }
}

/// The files of a run: an instance, a script, and a live script, if there is one.
#[derive(Clone, Copy)]
pub struct Paths<'a> {
    pub instance: &'a str,
    pub script: &'a str,
    pub live: Option<&'a str>,
}

/// `dispatch run` of files: the instance is read and judged, then the script and the live script are opened, in this order, and then the
/// board. A file that cannot be opened, and an instance's file that fails while it is read or has more than 16,777,216 bytes, give
/// `dispatch: cannot read PATH` and status 3; else it is as `scripted` has it. Without workers and a live script it runs on a board of one
/// thread. Where there is a stream of notes, it gets one behind the reply of each line of the script that counts as refused, as
/// `run_explained_lines` has it.
pub fn run_paths<
    W: Threads + Wait + Files + Clock + Eprint + AllocGlobal + Copy + Drop + Send + Sync + 'static,
    O: Write,
    F: Write,
    E: Write,
>(
    rt: W,
    paths: Paths<'_>,
    orders: Orders,
    writer: &mut O,
    faults: &mut F,
    notes: Option<&mut E>,
) -> u8
    ensures status { (result ≡ 0) ⊎ (result ≡ 1) ⊎ (result ≡ 3) }
    ensures files { IsOfPaths paths.entry.instance.now paths.entry.script.now (option_map (λ s. s.now) paths.entry.live) orders
        (streams_of (O.contents writer.old) (O.contents writer.new) (F.contents faults.old) (F.contents faults.new)) result }
{
    if orders.workers == 0 && paths.live.is_none() {
        return run_files(&rt, paths.instance, paths.script, writer, faults, notes);
    }
    let alloc = rt.alloc();
    let text = match read_path(&rt, alloc, paths.instance) {
        Ok(text) => text,
        Err(error) => return unread(faults, paths.instance, &error),
    };
    let judged = match read(alloc, text.as_slice()) {
        Ok(judged) => judged,
        Err(fault) => return stopped(faults, Stop::from(fault)),
    };
    let mut script = match fs::open(&rt, paths.script) {
        Ok(file) => file,
        Err(error) => return unread(faults, paths.script, &error),
    };
    let job = Job {
        rt,
        instance: judged,
        orders,
    };
    let Some(path) = paths.live else {
        let mut nothing = b"".as_slice();
        return answered(job, &mut script, &mut nothing, writer, faults, notes);
    };
    match fs::open(&rt, path) {
        Ok(mut live) => answered(job, &mut script, &mut live, writer, faults, notes),
        Err(error) => unread(faults, path, &error),
    }
}
