//! What words ask for, done.

ghost use Rattle.std.specs.Prelude.{map};
ghost use Rattle.program_parts.specs.Streams.{streams_of};
ghost use Rattle.dispatch.specs.Performed.{IsPerformed, NotesAsAsked, ReadsAsAsked};

use board_program::{check_file, joined};
use command_line::{Options, options, told};
use plan_program::{draw_files, sums_files};
use std::convert::AsStr;
use std::io::{Eprint, Read, Write};
use std::rt::Files;
use std::sync::Wait;
use std::thread::Threads;
use std::time::Clock;
use worker_runs::{Orders, Paths, run_paths};

/// No place for notes. It is made of one that is left alone, which shows how long such a place may be lent.
fn nowhere<E>(_notes: &E) -> Option<&mut E> {
    None
}

/// Does what the words of the command line ask for, of which the first is the program's own name, and gives the status that the program
/// ends with. `input` and `output` are its standard streams. `faults` and `notes` are both its standard error, on which runs report what
/// ended them early, and, if they are asked to, what refusals mean.
///
/// The status is 3 also where memory runs out while the words are read.
#[tactic(auto, using(crate::proofs::Said::done, crate::proofs::Said::ran))]
pub fn perform<
    W: Threads + Wait + Files + Clock + Eprint + AllocGlobal + Copy + Drop + Send + Sync + 'static,
    S: AsStr,
    I: Read,
    O: Write,
    F: Write,
    E: Write,
>(rt: W, words: &[S], input: &mut I, output: &mut O, faults: &mut F, notes: &mut E) -> u8
    ensures performed { IsPerformed (map S.text words.now) (I.remaining input.old)
        (streams_of (O.contents output.old) (O.contents output.new) (F.contents faults.old) (F.contents faults.new)) result }
    ensures input { ReadsAsAsked (map S.text words.now) (I.remaining input.old) (I.remaining input.new) }
    ensures notes { NotesAsAsked (map S.text words.now) (E.contents notes.old) (E.contents notes.new) }
{
    let alloc = rt.alloc();
    match options(alloc, words) {
        Ok(Options::Joined) => joined(alloc, input, output, faults),
        Ok(Options::Check { instance }) => check_file(&rt, alloc, instance, output, faults),
        Ok(Options::Draw { instance, rows }) => draw_files(
            &rt, alloc, instance, rows, output, faults,
        ),
        Ok(Options::Sums { instance, rows }) => sums_files(
            &rt, alloc, instance, rows, output, faults,
        ),
        Ok(
            Options::Run {
                instance,
                script,
                workers,
                rounds,
                seed,
                live,
                progress,
                explain,
            },
        ) => {
            let paths = Paths {
                instance,
                script,
                live,
            };
            let orders = Orders {
                workers,
                rounds,
                seed,
                progress,
            };
            if explain {
                return run_paths(rt, paths, orders, output, faults, Some(notes));
            }
            run_paths(rt, paths, orders, output, faults, nowhere(notes))
        }
        Err(fault) => told(&fault, output, faults),
    }
}
