//! Reverses of a stretch of customers.
ghost use Rattle.std.specs.Prelude.{◌≡◌, ◌+◌, ◌-◌, ◌<◌, ◌≤◌, [], ◌∷◌, length};
ghost use Rattle.best_moves.specs.Search.{IsBestSoFar};
ghost use Rattle.best_moves.specs.Searched.{searched, AreSummed, IsGathered, IsSearch};

use crate::best::Best;
use crate::kinds::Kind;
use crate::rows::{Candidates, best_of_row};
use crate::searched::{Gathered, Search};
use move_judge::first_free;
use row_gains::{ReverseRow, way_at};
use way_costs::row;

/// The better of the best so far and the reverses from a place on.
fn reverse_from(
    search: &Search,
    gathered: &Gathered,
    sums: &[u64],
    back_sums: &[u64],
    first: u32,
    best: Best,
) -> Best
    requires search { IsSearch (searched search.now) }
    requires gathered { IsGathered (searched search.now) gathered.now }
    requires inside { search.now.v ≡ search.now.w }
    requires sums { AreSummed (searched search.now) gathered.now sums.now back_sums.now }
    requires first { (1 ≤ first) × (first + 1 < length gathered.now.from.now) }
    requires best { IsBestSoFar (searched search.now) (3 ∷ search.now.v ∷ first ∷ (first + 1) ∷ []) best.found }
    ensures { IsBestSoFar (searched search.now) (3 ∷ search.now.v ∷ first ∷ (length gathered.now.from.now - 1) ∷ []) result.found }
{
    if first < first_free(search.view, search.setup, search.v) {
        return best;
    }
    let edges = gathered.to_edges;
    let out = gathered.out;
    let width = gathered.from.len();
    let index = first as usize;
    let ways = ReverseRow {
        edges,
        sums,
        back_sums,
        before: row(out, width, index - 1),
        here: row(out, width, index),
    };
    let reverses = Candidates {
        kind: Kind::Reverses { first },
        lost: way_at(edges, index - 1) + back_sums[index],
        gained: sums[index],
        ways: &ways,
    };
    best_of_row(search, &reverses, first + 1, width as u32 - 1, best)
}

/// The better of the best so far and all reverses inside a vehicle.
#[inline(always)]
pub(crate) fn best_reverse(
    search: &Search,
    gathered: &Gathered,
    sums: &[u64],
    back_sums: &[u64],
    best: Best,
) -> Best
    requires search { IsSearch (searched search.now) }
    requires gathered { IsGathered (searched search.now) gathered.now }
    requires inside { search.now.v ≡ search.now.w }
    requires sums { AreSummed (searched search.now) gathered.now sums.now back_sums.now }
    requires best { IsBestSoFar (searched search.now) (3 ∷ []) best.found }
    ensures { IsBestSoFar (searched search.now) (4 ∷ []) result.found }
{
    let mut best = best;
    for first in 1..gathered.from.len() as u32 - 1 {
        best = reverse_from(search, gathered, sums, back_sums, first, best);
    }
    best
}
