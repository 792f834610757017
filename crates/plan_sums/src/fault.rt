//! Why no rows were read.

ghost use Rattle.std.specs.Prelude.{◌≡◌};
ghost use Rattle.plan_sums.specs.declared.fault.RowsFault.TheVariants.{NoMemory};

use std::alloc::{AllocError, AllocFailed};
use thiserror::Error;

/// Why no rows were read. `Display` gives what stands behind `dispatch: `.
#[derive(Clone, Copy, Debug, Error)]
pub enum RowsFault {
    /// Memory ran out.
    #[error("open fault")]
    NoMemory,
    /// The line, from 1, of the first row of the last listing that is no row of the instance. Where there is no listing at all, it
    /// is the number of lines plus 1.
    #[error("rows fault line {0}")]
    Line(usize),
}

impl From<AllocError> for RowsFault {
    ghost from_gives = { λ _ e. e ≡ NoMemory };

    fn from(_e: AllocError) -> RowsFault {
        RowsFault::NoMemory
    }
}

impl<T: Drop> From<AllocFailed<T>> for RowsFault {
    ghost from_gives = { λ _ e. e ≡ NoMemory };

    fn from(_e: AllocFailed<T>) -> RowsFault {
        RowsFault::NoMemory
    }
}
