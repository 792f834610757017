use std::alloc::{AllocError, AllocFailed};
use thiserror::Error;

/// Why new routes cannot be taken.
#[derive(Clone, Copy, Debug, PartialEq, Eq, Error)]
pub enum JudgeFault {
    /// The new route of the vehicle is out of bounds in the dimension; both count from 1.
    #[error("the route of vehicle {0} is out of bounds in dimension {1}")]
    Bound(u32, u32),
    /// Memory ran out.
    #[error("out of memory")]
    NoMemory,
}

impl From<AllocError> for JudgeFault {
    ghost use Rattle.std.specs.Prelude.{◌≡◌};
    ghost use Rattle.range_cache.specs.declared.fault.JudgeFault.TheVariants.{NoMemory};

    ghost from_gives = { λ _ e. e ≡ NoMemory };

    fn from(_fault: AllocError) -> JudgeFault {
        JudgeFault::NoMemory
    }
}

impl<T: Drop> From<AllocFailed<T>> for JudgeFault {
    ghost use Rattle.std.specs.Prelude.{◌≡◌};
    ghost use Rattle.range_cache.specs.declared.fault.JudgeFault.TheVariants.{NoMemory};

    ghost from_gives = { λ _ e. e ≡ NoMemory };

    fn from(_fault: AllocFailed<T>) -> JudgeFault {
        JudgeFault::NoMemory
    }
}
