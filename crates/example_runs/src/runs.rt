//! What the verbs of cases do.
use crate::cases::Case;
use crate::devices::{Sink, Source, make_sink, make_source};
use crate::rows::column;
use board_program::{check_bytes, check_file, joined, read_file, scripted};
use command_line::{options, told};
use plan_program::{draw_bytes, draw_files, sums_bytes, sums_files};
use program_parts::read_path;
use std::alloc::{AllocError, Global};
use std::io::{Eprint, Write};
use std::rt::Files;
use std::str;
use std::sync::Wait;
use std::thread::Threads;
use std::time::Clock;
use worker_runs::{Orders, Paths, Task, run_paths, scripted as run_beside};

/// What a run wrote, said of faults and of refusals, and ended with.
#[derive(Drop)]
pub(crate) struct Ended {
    pub written: Sink,
    /// It takes a byte a write: a line comes whole all the same.
    pub faults: Sink,
    pub notes: Vec<u8>,
    pub status: u8,
}

/// The texts that a run is given: an instance, what stands behind it in one input, and a live script.
#[derive(Drop)]
pub(crate) struct Texts {
    pub instance: Vec<u8>,
    pub script: Vec<u8>,
    pub live: Vec<u8>,
}

fn size(number: u32) -> usize {
    number as usize
}

/// The bytes of a file, or none where there is no such file.
pub(crate) fn bytes_of<R: Files>(rt: &R, alloc: Global, name: &str) -> Vec<u8> {
    match read_path(rt, alloc, name) {
        Ok(bytes) => bytes,
        Err(_) => Vec::new(alloc),
    }
}

/// An instance with what stands before it.
fn instance_of(alloc: Global, case: &Case<'_>, bytes: &[u8]) -> Result<Vec<u8>, AllocError> {
    let mut text = vec![in alloc; b'\n'; size(case.feeds)]?;
    if case.spaces > 0 {
        text.resize(text.len().saturating_add(size(case.spaces)), b' ')?;
        text.push(b'\n')?;
    }
    text.extend_from_slice(bytes)?;
    Ok(text)
}

/// A script: a file, or the lines of its rows.
fn script_of<R: Files>(rt: &R, alloc: Global, name: &str) -> Result<Vec<u8>, AllocError> {
    let bytes = bytes_of(rt, alloc, name);
    if !name.ends_with(".talk") {
        return Ok(bytes);
    }
    column(alloc, str::from_utf8(&bytes).unwrap_or(""), false)
}

/// The texts of a case.
fn texts_of<R: Files>(rt: &R, alloc: Global, case: &Case<'_>) -> Result<Texts, AllocError> {
    Ok(Texts {
        instance: instance_of(alloc, case, &bytes_of(rt, alloc, case.instance))?,
        script: script_of(rt, alloc, case.script)?,
        live: script_of(rt, alloc, case.live)?,
    })
}

/// The one input of an instance and a script. Without a script there is no line between.
fn whole_of(alloc: Global, texts: &Texts) -> Result<Vec<u8>, AllocError> {
    let mut whole = Vec::from_slice(alloc, &texts.instance)?;
    if !texts.script.is_empty() {
        whole.extend_from_slice(b"%%\n")?;
        whole.extend_from_slice(&texts.script)?;
    }
    Ok(whole)
}

fn source_of<'a>(case: &Case<'_>, text: &'a [u8]) -> Source<'a> {
    make_source(text, case.times, size(case.gives), case.reads)
}

fn orders_of(case: &Case<'_>) -> Orders {
    Orders {
        workers: case.workers.min(63),
        rounds: case.rounds,
        seed: case.seed,
        progress: false,
    }
}

/// The path of a live script, if there is one.
fn live_of<'a>(case: &Case<'a>) -> Option<&'a str> {
    if case.live.is_empty() {
        return None;
    }
    Some(case.live)
}

/// What no run has written to yet.
fn unended(alloc: Global, case: &Case<'_>) -> Ended {
    let fails = (case.writes, case.flushes);
    Ended {
        written: make_sink(Vec::new(alloc), size(case.takes), size(case.tail), fails),
        faults: make_sink(Vec::new(alloc), 1, usize::MAX, (u32::MAX, u32::MAX)),
        notes: Vec::new(alloc),
        status: 0,
    }
}

/// Runs a case over its texts, and gives the status.
fn of_texts<H: Threads + Wait + Clock + Eprint + AllocGlobal + Copy + Drop + Send + Sync + 'static>(
    rt: H,
    case: &Case<'_>,
    texts: &Texts,
    ended: &mut Ended,
) -> u8 {
    let alloc = rt.alloc();
    let instance = texts.instance.as_slice();
    let rows = texts.script.as_slice();
    let mut script = source_of(case, rows);
    let written = &mut ended.written;
    let faults = &mut ended.faults;
    match case.verb {
        "check" => check_bytes(alloc, instance, written, faults),
        "read" => u8::from(read_file(alloc, instance).is_err()),
        "sums" => sums_bytes(alloc, instance, rows, written, faults),
        "draw" => draw_bytes(alloc, instance, rows, written, faults),
        "scripted" => scripted(alloc, instance, &mut script, written, faults),
        _ => {
            let task = Task {
                instance,
                orders: orders_of(case),
            };
            let mut live = source_of(case, &texts.live);
            run_beside(
                rt,
                task,
                &mut texts.script.as_slice(),
                &mut live,
                written,
                faults,
            )
        }
    }
}

/// Runs the one input of an instance and a script, and gives the status.
fn of_one_input(
    alloc: Global,
    case: &Case<'_>,
    texts: &Texts,
    ended: &mut Ended,
) -> Result<u8, AllocError> {
    let whole = whole_of(alloc, texts)?;
    let mut input = source_of(case, &whole);
    Ok(joined(alloc, &mut input, &mut ended.written, &mut ended.faults))
}

/// Where refusals are explained, if they are.
fn notes_of<'a>(case: &Case<'_>, notes: &'a mut Vec<u8>) -> Option<&'a mut Vec<u8>> {
    if case.explain == 0 {
        return None;
    }
    Some(notes)
}

/// Runs the files of a case, and gives the status.
fn of_files<
    H: Threads + Wait + Clock + Eprint + Files + AllocGlobal + Copy + Drop + Send + Sync + 'static,
>(rt: H, case: &Case<'_>, ended: &mut Ended) -> u8 {
    let alloc = rt.alloc();
    let written = &mut ended.written;
    let faults = &mut ended.faults;
    match case.verb {
        "check-file" => check_file(&rt, alloc, case.instance, written, faults),
        "sums-files" => sums_files(&rt, alloc, case.instance, case.script, written, faults),
        "draw-files" => draw_files(&rt, alloc, case.instance, case.script, written, faults),
        _ => {
            let paths = Paths {
                instance: case.instance,
                script: case.script,
                live: live_of(case),
            };
            let notes = notes_of(case, &mut ended.notes);
            run_paths(rt, paths, orders_of(case), written, faults, notes)
        }
    }
}

/// Reads the words of a command line. What they ask for is written; what they cannot ask for is told.
fn of_words(alloc: Global, case: &Case<'_>, ended: &mut Ended) -> Result<u8, AllocError> {
    let mut words = Vec::new(alloc);
    for word in case.words.split('|') {
        words.push(word)?;
    }
    match options(alloc, words.as_slice()) {
        Ok(asked) => {
            let _ = writeln!(ended.written, "{asked:?}");
            Ok(0)
        }
        Err(fault) => Ok(told(&fault, &mut ended.written, &mut ended.faults)),
    }
}

/// Whether a verb is one over files that are opened where it is done.
fn is_over_files(verb: &str) -> bool {
    matches!(verb, "check-file" | "sums-files" | "draw-files" | "files")
}

fn status_of<
    H: Threads + Wait + Clock + Eprint + Files + AllocGlobal + Copy + Drop + Send + Sync + 'static,
>(rt: H, case: &Case<'_>, ended: &mut Ended) -> Result<u8, AllocError> {
    let alloc = rt.alloc();
    if case.verb == "words" {
        return of_words(alloc, case, ended);
    }
    if is_over_files(case.verb) {
        return Ok(of_files(rt, case, ended));
    }
    let texts = texts_of(&rt, alloc, case)?;
    if case.verb == "joined" {
        return of_one_input(alloc, case, &texts, ended);
    }
    Ok(of_texts(rt, case, &texts, ended))
}

/// Runs a case.
pub(crate) fn run_case<
    H: Threads + Wait + Clock + Eprint + Files + AllocGlobal + Copy + Drop + Send + Sync + 'static,
>(rt: H, case: &Case<'_>) -> Result<Ended, AllocError> {
    let mut ended = unended(rt.alloc(), case);
    ended.status = status_of(rt, case, &mut ended)?;
    Ok(ended)
}
