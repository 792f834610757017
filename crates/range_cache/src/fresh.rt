//! What is walked of a new route, before it is known whether all new routes are in bounds.
ghost use Rattle.std.specs.Prelude.{◌≡◌, []};

use crate::row::Row;
use std::alloc::Global;

/// How many of the first customers of a vehicle's route stay in its new route, and the ranges at those that follow them there.
///
/// Its row keeps room for the longest part that was walked in it.
#[derive(Drop)]
pub(crate) struct Fresh {
    pub(crate) front: usize,
    pub(crate) row: Row,
}

impl Fresh {
    /// Nothing walked. It takes no memory.
    pub(crate) fn empty(alloc: Global) -> Fresh
        ensures front { result.front ≡ 0 }
        ensures row { result.row ≡ record { stops = 0; ranges = [] } }
    {
        Fresh {
            front: 0,
            row: Row::empty(alloc),
        }
    }
}
