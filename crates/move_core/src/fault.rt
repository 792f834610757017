ghost use Rattle.std.specs.Prelude.{◌≡◌};

use std::alloc::AllocError;
use thiserror::Error;

/// Why a move gives no touches or new routes. `BadPlace` is decided before any memory is taken.
#[derive(Clone, Copy, Debug, PartialEq, Eq, Error)]
pub enum MoveFault {
    /// The move has no effect on this plan.
    #[error("the move has no effect")]
    BadPlace,
    /// Memory ran out.
    #[error("out of memory")]
    NoMemory,
}

impl From<AllocError> for MoveFault {
    ghost use Rattle.move_core.specs.declared.fault.MoveFault.TheVariants.{NoMemory};

    ghost from_gives = { λ _ fault. fault ≡ NoMemory };

    fn from(_: AllocError) -> MoveFault {
        MoveFault::NoMemory
    }
}
