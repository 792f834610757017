//! Why a view of a plan was not made.

ghost use Rattle.std.specs.Prelude.{◌≡◌};
ghost use Rattle.program_parts.specs.declared.stop.Stop.TheVariants as stops;
ghost use Rattle.plan_program.specs.Stops.{IsInstanceStop, IsRowsStop};
ghost use Rattle.plan_program.specs.declared.stop.ViewStop.TheVariants.{Parts};

use line_engine::RunFault;
use plan_sums::RowsFault;
use program_parts::Stop;
use solomon_reader::ReadFault;
use std::alloc::{AllocError, AllocFailed};
use thiserror::Error;

/// Why a view of a plan was not made. `Display` gives what stands behind `dispatch: ` on standard error.
#[derive(Clone, Copy, Debug, Error)]
pub enum ViewStop {
    /// The instance is none, memory ran out, or the writer failed.
    #[error("{0}")]
    Parts(Stop),
    /// The line of the first row of the last listing that is no row of the instance, or the one behind the last, where there is no listing.
    #[error("rows fault line {0}")]
    Rows(usize),
}

impl From<ReadFault> for ViewStop {
    ghost from_gives = { IsInstanceStop };

    fn from(e: ReadFault) -> ViewStop {
        match e {
            ReadFault::NoMemory => ViewStop::Parts(Stop::Open),
            ReadFault::At(kind, line) => ViewStop::Parts(Stop::Instance(kind, line)),
        }
    }
}

impl From<RowsFault> for ViewStop {
    ghost from_gives = { IsRowsStop };

    fn from(e: RowsFault) -> ViewStop {
        match e {
            RowsFault::NoMemory => ViewStop::Parts(Stop::Open),
            RowsFault::Line(line) => ViewStop::Rows(line),
        }
    }
}

impl From<AllocError> for ViewStop {
    ghost from_gives = { λ _ stop. stop ≡ Parts stops.Open };

    fn from(_e: AllocError) -> ViewStop {
        ViewStop::Parts(Stop::Open)
    }
}

impl<T: Drop> From<AllocFailed<T>> for ViewStop {
    ghost from_gives = { λ _ stop. stop ≡ Parts stops.Open };

    fn from(_e: AllocFailed<T>) -> ViewStop {
        ViewStop::Parts(Stop::Open)
    }
}

impl From<RunFault> for ViewStop {
    ghost from_gives = { λ fault stop. stop ≡ Parts (stops.Run fault) };

    fn from(e: RunFault) -> ViewStop {
        ViewStop::Parts(Stop::Run(e))
    }
}
