//! The status that a run ends with.

ghost use Rattle.std.specs.Prelude.{◌≡◌, MatchResult};
ghost use Rattle.std.specs.Io.KnownBytes.{Keeps};
ghost use Rattle.line_engine.specs.Running.{AppendsPrefix};
ghost use Rattle.program_parts.specs.Streams.{stop_line};
ghost use Rattle.board_program.specs.Status.{end_status};

use board_text::Counts;
use program_parts::{Stop, stopped};
use std::io::Write;

/// Says how a run ended, and gives the status of the program: 0 where no line counted as refused, 1 where one did, and 3
/// where the run ended early, which is reported as `stopped` has it.
pub(crate) fn ended<F: Write>(faults: &mut F, end: Result<Counts, Stop>) -> u8
    ensures status { result ≡ end_status end }
    ensures reported { MatchResult end (λ _. Keeps (F.contents faults.old) (F.contents faults.new))
        (λ stop. AppendsPrefix (F.contents faults.old) (F.contents faults.new) (stop_line stop)) }
{
    match end {
        Ok(counts) => u8::from(counts.refused > 0),
        Err(stop) => stopped(faults, stop),
    }
}
