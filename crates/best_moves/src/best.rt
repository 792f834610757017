//! The best move so far.
ghost use Rattle.std.specs.Prelude.{◌≡◌, ◌↔◌, ◌+◌, ◌<◌, ◌^◌, ℕ, List, None, IsTrue};
ghost use Rattle.move_judge.specs.Allowed.{IsAllowed};
ghost use Rattle.move_judge.specs.Near.{IsNear};
ghost use Rattle.best_moves.specs.Best.{numbers_of};
ghost use Rattle.best_moves.specs.Search.{gain_of, IsBestSoFar, IsNext};
ghost use Rattle.best_moves.specs.Searched.{searched, CountsIn, IsPossible, IsSearch, Saves, scope_of};

use crate::searched::Search;
use move_core::Move;
use move_judge::{Pair, fits_after, is_free};

/// Whether a move near the two vehicles, or near the one, that has an effect is allowed; where `bounded` is false, with the dimensions
/// left out.
#[inline(always)]
fn is_allowed(search: &Search, mv: Move) -> bool
    requires search { IsSearch (searched search.now) }
    requires possible { IsPossible (searched search.now) mv }
    requires near { IsNear search.now.v search.now.w mv }
    ensures { IsTrue result ↔ IsAllowed (scope_of (searched search.now)) search.now.view.now search.now.skip.now mv }
{
    let view = search.view;
    let setup = search.setup;
    let v = search.v;
    let w = search.w;
    if !is_free(view, setup, search.skip, v, w, mv) {
        return false;
    }
    if !search.bounded {
        return true;
    }
    let pair = Pair {
        v,
        w,
        v_kept: search.v_kept,
        w_kept: search.w_kept,
    };
    fits_after(view, setup, pair, mv)
}

/// The best move so far and what it gains, if there is one. The gain stands beside it too, 0 where there is none, since it is asked for at
/// each row.
#[derive(Clone, Copy)]
pub(crate) struct Best {
    pub(crate) found: Option<(Move, u64)>,
    gain: u64,
    ghost gained: { gain ≡ gain_of found },
    ghost small: { gain < 2 ^ 60 },
}

impl Best {
    /// No move is found.
    #[inline(always)]
    pub(crate) fn none() -> Best
        ensures { result.found ≡ None }
    {
        Best {
            found: None,
            gain: 0,
        }
    }

    /// What it gains.
    #[inline(always)]
    pub(crate) fn gain(self) -> u64
        ensures value { result ≡ gain_of self.found }
        ensures small { result < 2 ^ 60 }
    {
        self.gain
    }

    /// What a candidate has to gain over what it gains already, to be better.
    #[inline(always)]
    pub(crate) fn wanted(self, gained: u64) -> u64
        requires { gained < 2 ^ 50 }
        ensures value { result ≡ gained + gain_of self.found }
        ensures small { result < 2 ^ 61 }
    {
        gained + self.gain()
    }

    /// The better of this and the next move, which loses ways of one cost and gains ways of another: whether it is allowed is judged only
    /// where it gains more.
    #[inline(always)]
    pub(crate) fn or_better(self, search: &Search, mv: Move, lost: u64, gained: u64) -> Best
        requires search { IsSearch (searched search.now) }
        requires possible { IsPossible (searched search.now) mv }
        requires near { IsNear search.now.v search.now.w mv }
        requires small { lost < 2 ^ 60 }
        requires saving { Saves (searched search.now) mv lost gained }
        ensures { (bound : List ℕ) → IsNext (CountsIn (searched search.now)) mv bound
            → IsBestSoFar (searched search.now) (numbers_of mv) self.found → IsBestSoFar (searched search.now) bound result.found }
    {
        let gain = lost.saturating_sub(gained);
        if gain <= self.gain() {
            return self;
        }
        if !is_allowed(search, mv) {
            return self;
        }
        Best {
            found: Some((mv, gain)),
            gain,
        }
    }
}
