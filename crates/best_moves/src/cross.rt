//! Crosses of two vehicles.
ghost use Rattle.std.specs.Prelude.{◌≢◌, ℕ, ◌+◌, ◌-◌, ◌<◌, ◌≤◌, [], ◌∷◌, length};
ghost use Rattle.move_core.specs.declared.moves.Move.TheVariants.{Cross};
ghost use Rattle.best_moves.specs.Search.{IsBestSoFar};
ghost use Rattle.best_moves.specs.Searched.{searched, CountsIn, IsGathered, IsSearch};

use crate::best::Best;
use crate::kinds::Kind;
use crate::rows::{Candidates, best_of_row};
use crate::searched::{Gathered, Search};
use move_judge::must_keep;
use row_gains::{CutRow, way_at};
use way_costs::row;

/// The better of the best so far and the crosses that keep so many customers of the first vehicle. None counts that keeps fewer than `begin`
/// of the second.
fn cross_over(search: &Search, gathered: &Gathered, keep: u32, begin: u32, best: Best) -> Best
    requires search { IsSearch (searched search.now) }
    requires gathered { IsGathered (searched search.now) gathered.now }
    requires apart { search.now.v ≢ search.now.w }
    requires begin { begin + 2 ≤ length gathered.now.to.now }
    requires onto { (l : ℕ) → l < begin → ¬ CountsIn (searched search.now) (Cross search.now.v keep search.now.w l) }
    requires keep { keep + 1 < length gathered.now.from.now }
    requires best { IsBestSoFar (searched search.now) (4 ∷ search.now.v ∷ keep ∷ search.now.w ∷ 0 ∷ []) best.found }
    ensures { IsBestSoFar (searched search.now)
        (4 ∷ search.now.v ∷ keep ∷ search.now.w ∷ (length gathered.now.to.now - 1) ∷ []) result.found }
{
    let from_edges = gathered.from_edges;
    let most = gathered.most;
    let width = gathered.to.len();
    let index = keep as usize;
    let lost = way_at(from_edges, index);
    let here = row(gathered.out, width, index);
    let next = row(gathered.into, width, index + 1);
    let least = way_at(here, 0) + way_at(next, width - 1);
    let floor = best.wanted(least);
    if lost + u64::from(most) <= floor {
        return best;
    }
    let last = index + 2 == gathered.from.len();
    let end = if last { width - 2 } else { width - 1 };
    let ways = CutRow {
        edges: gathered.to_edges,
        most,
        to: next,
        on: here,
    };
    let crosses = Candidates {
        kind: Kind::Crosses { keep },
        lost,
        gained: 0,
        ways: &ways,
    };
    best_of_row(search, &crosses, begin, end as u32, best)
}

/// The better of the best so far and all crosses of two vehicles.
#[inline(always)]
pub(crate) fn best_cross(search: &Search, gathered: &Gathered, best: Best) -> Best
    requires search { IsSearch (searched search.now) }
    requires gathered { IsGathered (searched search.now) gathered.now }
    requires apart { search.now.v ≢ search.now.w }
    requires best { IsBestSoFar (searched search.now) (4 ∷ []) best.found }
    ensures { IsBestSoFar (searched search.now) (5 ∷ []) result.found }
{
    let view = search.view;
    let setup = search.setup;
    let least = must_keep(view, setup, search.v);
    let begin = must_keep(view, setup, search.w);
    let mut best = best;
    for keep in least..gathered.from.len() as u32 - 1 {
        best = cross_over(search, gathered, keep, begin, best);
    }
    best
}
