//! Kinds of moves, each with one number left open.
ghost use Rattle.std.specs.Prelude.{◌≡◌, ◌+◌, ◌^◌, ◌<◌, ◌≤◌};
ghost use Rattle.best_moves.specs.Rows.{move_at, offset_of};
ghost use Rattle.best_moves.specs.Searched.{searched};

use crate::searched::Search;
use move_core::Move;

/// What the moves of a row have in common.
#[derive(Clone, Copy)]
pub(crate) enum Kind {
    /// Shifts of some customers, which stand from a place on. What comes before and after them where they are put stands `offset` places
    /// further among the stops.
    Shifts { place: u32, count: u32, offset: u32 },
    /// Swaps of the customer at a place.
    Swaps { place: u32 },
    /// Reverses from a place on.
    Reverses { first: u32 },
    /// Crosses that keep so many customers of the first vehicle.
    Crosses { keep: u32 },
}

impl Kind {
    /// The move at a stop: a shift puts its customers behind the stop, a swap takes the customer there, a reverse ends there, and a cross keeps
    /// the customers of the second vehicle up to there.
    #[inline(always)]
    pub(crate) fn move_at(self, search: &Search, k: u32) -> Move
        requires low { offset_of self ≤ k }
        requires high { k + 1 < 2 ^ 32 }
        ensures { result ≡ move_at (searched search.now) self k }
    {
        let vehicle = search.v;
        match self {
            Kind::Shifts {
                place,
                count,
                offset,
            } => Move::Shift {
                vehicle,
                place,
                length: count,
                to: search.w,
                at: k - offset + 1,
            },
            Kind::Swaps { place } => Move::Swap {
                vehicle,
                place,
                other: search.w,
                at: k,
            },
            Kind::Reverses { first } => Move::Reverse {
                vehicle,
                first,
                last: k,
            },
            Kind::Crosses { keep } => Move::Cross {
                vehicle,
                keep,
                other: search.w,
                keep_other: k,
            },
        }
    }
}
