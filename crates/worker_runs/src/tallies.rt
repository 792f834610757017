//! The lines that close a run with workers.
ghost use Rattle.std.specs.Prelude.{◌≡◌, ◌++◌, IfOk, OnOk, string_bytes};
ghost use Rattle.worker_runs.specs.Tallies.{closing_text, tally_lines, tally_text};

use search_workers::Tally;
use std::alloc::{AllocError, Global};

/// Appends the line of a worker.
fn push_tally(text: &mut String, worker: usize, tally: Tally) -> Result<(), AllocError>
    ensures { OnOk result (string_bytes text.new ≡ string_bytes text.old ++ tally_text worker tally) }
{
    write!(
        text,
        "worker {} tried {} committed {} denied {} refused {}\n",
        worker, tally.tried, tally.committed, tally.denied, tally.refused
    )
}

/// Appends the line of each worker, who are counted from 1.
fn push_tallies(text: &mut String, tallies: &[Tally]) -> Result<(), AllocError>
    ensures { OnOk result (string_bytes text.new ≡ string_bytes text.old ++ tally_lines 1 tallies.now) }
{
    for k in 0..tallies.len() {
        push_tally(text, k + 1, tallies[k])?;
    }
    Ok(())
}

/// The line of each worker, in their order, and that of the version.
pub(crate) fn closing_lines(
    alloc: Global,
    tallies: &[Tally],
    version: u32,
) -> Result<String, AllocError>
    ensures { IfOk result (λ text. string_bytes text ≡ closing_text tallies.now version) }
{
    let mut text = String::new(alloc);
    push_tallies(&mut text, tallies)?;
    write!(text, "version {version}\n")?;
    Ok(text)
}
