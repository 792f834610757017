//! How a run ends.

ghost use Rattle.std.specs.Prelude.{◌≡◌};
ghost use Rattle.line_engine.specs.declared.run_fault.RunFault.TheVariants.{NoMemory};

use std::alloc::{AllocError, AllocFailed};
use thiserror::Error;

/// What a run's lines came to.
#[derive(Clone, Copy, Debug, PartialEq, Eq)]
pub struct Counts {
    /// The number of lines with a reply. Skipped lines have none.
    pub lines: u64,
    /// How many of them were a denial, a refusal, a fault, a refused question or a bad line.
    pub refused: u64,
}

/// Why a run ended before the end of its input.
#[derive(Clone, Copy, Debug, PartialEq, Eq, Error)]
pub enum RunFault {
    /// The reader failed, there are more than 4,294,967,296 lines, skipped ones counted, or 2^64 - 1 reads did not come to the end.
    #[error("read")]
    Read,
    /// The writer failed, or took no byte.
    #[error("write")]
    Write,
    /// A line has more than 4,096 bytes without its line end, a carriage return counted.
    #[error("long-line")]
    LongLine,
    /// Memory ran out, here or in the front.
    #[error("no-memory")]
    NoMemory,
}

impl From<AllocError> for RunFault {
    ghost from_gives = { λ _ e. e ≡ NoMemory };

    fn from(_e: AllocError) -> RunFault {
        RunFault::NoMemory
    }
}

impl<T: Drop> From<AllocFailed<T>> for RunFault {
    ghost from_gives = { λ _ e. e ≡ NoMemory };

    fn from(_e: AllocFailed<T>) -> RunFault {
        RunFault::NoMemory
    }
}
