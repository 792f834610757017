//! Why a run ended before the end of its script.

ghost use Rattle.std.specs.Prelude.{◌≡◌};
ghost use Rattle.line_engine.specs.Running.{AppendsPrefix};
ghost use Rattle.program_parts.specs.Stops.{IsStopOf};
ghost use Rattle.program_parts.specs.Streams.{stop_line};
ghost use Rattle.program_parts.specs.declared.stop.Stop.TheVariants.{Open, Run};

use crate::fault_line::tell;
use callback_store::RegisterFault;
use dimension_core::{DimensionFault, SetupFault};
use line_engine::RunFault;
use solomon_reader::{Kind, ReadFault};
use std::alloc::{AllocError, AllocFailed};
use std::io::Write;
use thiserror::Error;

/// Why a run ended before the end of its script. `Display` gives what stands behind `dispatch: ` on standard error.
#[derive(Clone, Copy, Debug, PartialEq, Eq, Error)]
pub enum Stop {
    /// The text of the instance is no instance: the check that fails, and its line, counted from 1.
    #[error("instance fault {0} line {1}")]
    Instance(Kind, usize),
    /// Memory ran out before or after the script, or a worker could not be set up or started. An instance that was read has no numbers that a
    /// dimension refuses.
    #[error("open fault")]
    Open,
    /// The reader or the writer failed, a line of the script was too long, or memory ran out at one.
    #[error("run fault {0}")]
    Run(RunFault),
}

impl From<ReadFault> for Stop {
    ghost from_gives = { IsStopOf };

    fn from(e: ReadFault) -> Stop {
        match e {
            ReadFault::NoMemory => Stop::Open,
            ReadFault::At(kind, line) => Stop::Instance(kind, line),
        }
    }
}

impl From<AllocError> for Stop {
    ghost from_gives = { λ _ stop. stop ≡ Open };

    fn from(_e: AllocError) -> Stop {
        Stop::Open
    }
}

impl<T: Drop> From<AllocFailed<T>> for Stop {
    ghost from_gives = { λ _ stop. stop ≡ Open };

    fn from(_e: AllocFailed<T>) -> Stop {
        Stop::Open
    }
}

impl From<RegisterFault> for Stop {
    ghost from_gives = { λ _ stop. stop ≡ Open };

    fn from(_e: RegisterFault) -> Stop {
        Stop::Open
    }
}

impl From<DimensionFault> for Stop {
    ghost from_gives = { λ _ stop. stop ≡ Open };

    fn from(_e: DimensionFault) -> Stop {
        Stop::Open
    }
}

impl From<SetupFault> for Stop {
    ghost from_gives = { λ _ stop. stop ≡ Open };

    fn from(_e: SetupFault) -> Stop {
        Stop::Open
    }
}

impl From<RunFault> for Stop {
    ghost from_gives = { λ fault stop. stop ≡ Run fault };

    fn from(e: RunFault) -> Stop {
        Stop::Run(e)
    }
}

/// Says why a run ended, as one line that begins with `dispatch: `, or a prefix of it where the stream fails, and gives the status that it
/// ends with.
pub fn stopped<F: Write>(faults: &mut F, stop: Stop) -> u8
    ensures status { result ≡ 3 }
    ensures reported { AppendsPrefix (F.contents faults.old) (F.contents faults.new) (stop_line stop) }
{
    tell(faults, stop);
    3
}
