//! All kinds of moves, in the order of ties, and what is known without a search.
ghost use Rattle.std.specs.Prelude.{◌≡◌, ◌≢◌, ◌≤◌, false, List, length, IsTrue, MatchOption};
ghost use Rattle.best_moves.specs.Best.{IsBest, IsIdle};
ghost use Rattle.best_moves.specs.Laws.{Laws};
ghost use Rattle.best_moves.specs.Searched.{searched, AreSummed, IsBestOf, IsGathered, IsIdleOf, IsSearch};
ghost use Rattle.dimension_core.specs.Setting.{Setting};
ghost use Rattle.dimension_core.specs.Setup.{setting};
ghost use Rattle.move_core.specs.declared.moves.Move.{Move};

use crate::best::Best;
use crate::cross::best_cross;
use crate::reverse::best_reverse;
use crate::searched::{Gathered, Search};
use crate::shift::{best_shift, best_shift_inside};
use crate::swap::{best_swap, best_swap_inside};
use move_core::Move;
use move_judge::{Pair, fits_after};
use pin_core::View;

/// The best move inside a vehicle.
pub fn best_of_one(
    search: &Search,
    gathered: &Gathered,
    sums: &[u64],
    back_sums: &[u64],
) -> Option<(Move, u64)>
    requires search { IsSearch (searched search.now) }
    requires gathered { IsGathered (searched search.now) gathered.now }
    requires inside { search.now.v ≡ search.now.w }
    requires sums { AreSummed (searched search.now) gathered.now sums.now back_sums.now }
    ensures { MatchOption result (IsIdleOf (searched search.now)) (λ p. IsBestOf (searched search.now) p.0 p.1) }
{
    // copies, of which the compiler knows that no call writes to them
    let search = *search;
    let gathered = *gathered;
    let shifted = best_shift_inside(&search, &gathered, Best::none());
    let swapped = best_swap_inside(&search, &gathered, shifted);
    best_reverse(&search, &gathered, sums, back_sums, swapped).found
}

/// The best move between two vehicles.
pub fn best_of_two(search: &Search, gathered: &Gathered) -> Option<(Move, u64)>
    requires search { IsSearch (searched search.now) }
    requires gathered { IsGathered (searched search.now) gathered.now }
    requires apart { search.now.v ≢ search.now.w }
    ensures { MatchOption result (IsIdleOf (searched search.now)) (λ p. IsBestOf (searched search.now) p.0 p.1) }
{
    let search = *search;
    let gathered = *gathered;
    let shifted = best_shift(&search, &gathered, Best::none());
    let swapped = best_swap(&search, &gathered, shifted);
    best_cross(&search, &gathered, swapped).found
}

/// Whether neither of two vehicles, which may be one, has a customer. Then no move counts.
#[inline(always)]
pub fn are_empty(view: &View, v: u32, w: u32) -> bool
    requires laws { Laws }
    requires v { (1 ≤ v) × (v ≤ length view.now.routes) }
    requires w { (1 ≤ w) × (w ≤ length view.now.routes) }
    ensures { IsTrue result → (s : Setting) (skip : List Move) → IsIdle s view.now skip v w }
{
    if !view.customers(v).is_empty() {
        return false;
    }
    view.customers(w).is_empty()
}

/// Whether the bounds allow what was found without them, where nothing is kept of them. It is then the best with them.
#[inline(always)]
pub fn holds_up(search: Search, found: Option<(Move, u64)>) -> bool
    requires search { IsSearch (searched search) }
    requires unbounded { search.bounded ≡ false }
    requires found { MatchOption found (IsIdleOf (searched search)) (λ p. IsBestOf (searched search) p.0 p.1) }
    ensures { IsTrue result → MatchOption found
        (IsIdle (setting search.entry.setup.now) search.entry.view.now search.entry.skip.now search.entry.v search.entry.w)
        (λ p. IsBest (setting search.entry.setup.now) search.entry.view.now search.entry.skip.now search.entry.v search.entry.w p.0 p.1) }
{
    let Search {
        view,
        setup,
        v,
        w,
        v_kept,
        w_kept,
        ..
    } = search;
    let pair = Pair {
        v,
        w,
        v_kept,
        w_kept,
    };
    match found {
        None => true,
        Some((mv, _)) => fits_after(view, setup, pair, mv),
    }
}
