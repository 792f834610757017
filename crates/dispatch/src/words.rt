//! The words of the command line.

ghost use Rattle.std.specs.Prelude.{◌≡◌, map, string_bytes, MatchResult};
ghost use Rattle.std.specs.IoError.{error_kind};
ghost use Rattle.program_parts.specs.Streams.{streams_of};
ghost use Rattle.dispatch.specs.Performed.{AreUnread, IsPerformed, IsProgram, NotesAsAsked, ReadsAsAsked, rest_of};

use crate::doing::perform;
use program_parts::{Stop, stopped};
use std::env;
use std::io::{self, Eprint, ErrorKind, Read, Stderr, Stdin, Stdout, Write};
use std::rt::{Env, Files};
use std::sync::Wait;
use std::thread::Threads;
use std::time::Clock;

/// The words of the command line, the program's own name first.
fn words<W: Env + AllocGlobal>(rt: &W) -> io::Result<Vec<String>> {
    Ok(env::args(rt)?.collect(rt.alloc())?)
}

/// Does what the words of the command line ask for, as `perform` has it, or reports why they could not be read, and gives the status that
/// the program ends with. Any error but a lack of memory says that a word is not UTF-8, which is a fault of usage.
pub fn run_words<
    W: Threads + Wait + Files + Clock + Eprint + AllocGlobal + Copy + Drop + Send + Sync + 'static,
    I: Read,
    O: Write,
    F: Write,
    E: Write,
>(
    rt: W,
    words: io::Result<Vec<String>>,
    input: &mut I,
    output: &mut O,
    faults: &mut F,
    notes: &mut E,
) -> u8
    ensures performed { MatchResult words
        (λ words. IsPerformed (map string_bytes words.items) (I.remaining input.old)
        (streams_of (O.contents output.old) (O.contents output.new) (F.contents faults.old) (F.contents faults.new)) result)
        (λ error. AreUnread (error_kind error)
        (streams_of (O.contents output.old) (O.contents output.new) (F.contents faults.old) (F.contents faults.new)) result) }
    ensures input { MatchResult words (λ words. ReadsAsAsked (map string_bytes words.items) (I.remaining input.old) (I.remaining input.new))
        (λ error. I.remaining input.new ≡ I.remaining input.old) }
    ensures notes { MatchResult words (λ words. NotesAsAsked (map string_bytes words.items) (E.contents notes.old) (E.contents notes.new))
        (λ error. E.contents notes.new ≡ E.contents notes.old) }
{
    match words {
        Ok(words) => perform(rt, words.as_slice(), input, output, faults, notes),
        Err(error) if error.kind() == ErrorKind::OutOfMemory => stopped(faults, Stop::Open),
        Err(_) => {
            let _ = writeln!(faults, "error: a word of the command line is not UTF-8");
            2
        }
    }
}

/// The program over any streams: reads its words, does what they ask for, and gives the status that it ends with.
pub fn run_over<
    W: Threads
        + Wait
        + Files
        + Env
        + Clock
        + Eprint
        + AllocGlobal
        + Copy
        + Drop
        + Send
        + Sync
        + 'static,
    I: Read,
    O: Write,
    F: Write,
    E: Write,
>(rt: W, input: &mut I, output: &mut O, faults: &mut F, notes: &mut E) -> u8
    ensures { IsProgram (rest_of (I.remaining input.old) (I.remaining input.new) (E.contents notes.old) (E.contents notes.new))
        (streams_of (O.contents output.old) (O.contents output.new) (F.contents faults.old) (F.contents faults.new)) result }
{
    let words = words(&rt);
    run_words(rt, words, input, output, faults, notes)
}

/// The program over the streams of its process. `faults` and `notes` are both standard error. The streams are of the standard library's own
/// types, so that none can stand in another's place.
pub fn run<
    W: Threads
        + Wait
        + Files
        + Env
        + Clock
        + Eprint
        + AllocGlobal
        + Copy
        + Drop
        + Send
        + Sync
        + 'static,
>(rt: W, input: &mut Stdin, output: &mut Stdout, faults: &mut Stderr, notes: &mut Stderr) -> u8
    ensures { IsProgram (rest_of (⟦<Stdin as Read>⟧.remaining input.old) (⟦<Stdin as Read>⟧.remaining input.new)
        (⟦<Stderr as Write>⟧.contents notes.old) (⟦<Stderr as Write>⟧.contents notes.new))
        (streams_of (⟦<Stdout as Write>⟧.contents output.old) (⟦<Stdout as Write>⟧.contents output.new)
        (⟦<Stderr as Write>⟧.contents faults.old) (⟦<Stderr as Write>⟧.contents faults.new)) result }
{
    run_over::<W, Stdin, Stdout, Stderr, Stderr>(rt, input, output, faults, notes)
}
