//! Swaps of two customers.
ghost use Rattle.std.specs.Prelude.{◌≡◌, ◌≢◌, ◌+◌, ◌-◌, ◌<◌, ◌≤◌, [], ◌∷◌, length};
ghost use Rattle.best_moves.specs.Search.{IsBestSoFar};
ghost use Rattle.best_moves.specs.Searched.{searched, IsGathered, IsSearch};

use crate::best::Best;
use crate::kinds::Kind;
use crate::rows::{Candidates, best_of_row};
use crate::searched::{Gathered, Search};
use move_core::Move;
use move_judge::{first_free, may_leave};
use row_gains::{SwapRow, way_at};
use way_costs::row;

/// The better of the best so far and the swaps of the customer at a place with those of another vehicle.
#[inline(always)]
fn swap_over(search: &Search, gathered: &Gathered, place: u32, best: Best) -> Best
    requires search { IsSearch (searched search.now) }
    requires gathered { IsGathered (searched search.now) gathered.now }
    requires apart { search.now.v ≢ search.now.w }
    requires place { (1 ≤ place) × (place + 1 < length gathered.now.from.now) }
    requires best { IsBestSoFar (searched search.now) (2 ∷ search.now.v ∷ place ∷ search.now.w ∷ 1 ∷ []) best.found }
    ensures { IsBestSoFar (searched search.now)
        (2 ∷ search.now.v ∷ place ∷ search.now.w ∷ (length gathered.now.to.now - 1) ∷ []) result.found }
{
    let view = search.view;
    let setup = search.setup;
    if !may_leave(view, setup, search.v, place, 1) {
        return best;
    }
    let begin = first_free(view, setup, search.w);
    let from_edges = gathered.from_edges;
    let most = gathered.most;
    let width = gathered.to.len();
    let out = gathered.out;
    let into = gathered.into;
    let index = place as usize;
    let lost = way_at(from_edges, index - 1) + way_at(from_edges, index);
    let before = row(out, width, index - 1);
    let here = row(out, width, index);
    let next = row(into, width, index + 1);
    let back = row(into, width, index);
    let end = width - 1;
    let leaves = way_at(before, 0) + way_at(here, 0);
    let least = leaves + way_at(next, end) + way_at(back, end);
    let floor = best.wanted(least);
    if lost + 2 * u64::from(most) <= floor {
        return best;
    }
    let ways = SwapRow {
        edges: gathered.to_edges,
        most,
        before,
        here,
        next,
        back,
    };
    let swaps = Candidates {
        kind: Kind::Swaps { place },
        lost,
        gained: 0,
        ways: &ways,
    };
    best_of_row(search, &swaps, begin, end as u32, best)
}

/// The better of the best so far and the swaps of the customer at a place with those behind it.
#[inline(always)]
fn swap_within(search: &Search, gathered: &Gathered, place: u32, best: Best) -> Best
    requires search { IsSearch (searched search.now) }
    requires gathered { IsGathered (searched search.now) gathered.now }
    requires inside { search.now.v ≡ search.now.w }
    requires place { (1 ≤ place) × (place + 2 < length gathered.now.from.now) }
    requires best { IsBestSoFar (searched search.now) (2 ∷ search.now.v ∷ place ∷ search.now.w ∷ (place + 1) ∷ []) best.found }
    ensures { IsBestSoFar (searched search.now)
        (2 ∷ search.now.v ∷ place ∷ search.now.w ∷ (length gathered.now.from.now - 1) ∷ []) result.found }
{
    let edges = gathered.to_edges;
    let width = gathered.from.len();
    let index = place as usize;
    if place < first_free(search.view, search.setup, search.v) {
        return best;
    }
    let out = gathered.out;
    let into = gathered.into;
    let before = row(out, width, index - 1);
    let here = row(out, width, index);
    let back = row(into, width, index);
    // with the next customer first: the way between both is then driven back
    let lost = way_at(edges, index - 1) + way_at(edges, index);
    let next_lost = lost + way_at(edges, index + 1);
    let gained = way_at(before, index + 1) + way_at(back, index + 1) + way_at(here, index + 2);
    let mv = Move::Swap {
        vehicle: search.v,
        place,
        other: search.w,
        at: place + 1,
    };
    let near = best.or_better(search, mv, next_lost, gained);
    let ways = SwapRow {
        edges,
        most: gathered.most,
        before,
        here,
        next: row(into, width, index + 1),
        back,
    };
    let swaps = Candidates {
        kind: Kind::Swaps { place },
        lost,
        gained: 0,
        ways: &ways,
    };
    best_of_row(search, &swaps, place + 2, width as u32 - 1, near)
}

/// The better of the best so far and all swaps of a customer of one vehicle with one of another.
#[inline(always)]
pub(crate) fn best_swap(search: &Search, gathered: &Gathered, best: Best) -> Best
    requires search { IsSearch (searched search.now) }
    requires gathered { IsGathered (searched search.now) gathered.now }
    requires apart { search.now.v ≢ search.now.w }
    requires best { IsBestSoFar (searched search.now) (2 ∷ []) best.found }
    ensures { IsBestSoFar (searched search.now) (3 ∷ []) result.found }
{
    let mut best = best;
    for place in 1..gathered.from.len() as u32 - 1 {
        best = swap_over(search, gathered, place, best);
    }
    best
}

/// The better of the best so far and all swaps inside a vehicle.
#[inline(always)]
pub(crate) fn best_swap_inside(search: &Search, gathered: &Gathered, best: Best) -> Best
    requires search { IsSearch (searched search.now) }
    requires gathered { IsGathered (searched search.now) gathered.now }
    requires inside { search.now.v ≡ search.now.w }
    requires best { IsBestSoFar (searched search.now) (2 ∷ []) best.found }
    ensures { IsBestSoFar (searched search.now) (3 ∷ []) result.found }
{
    let mut best = best;
    for place in 1..gathered.from.len() as u32 - 2 {
        best = swap_within(search, gathered, place, best);
    }
    best
}
