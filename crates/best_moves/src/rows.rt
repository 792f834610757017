//! Rows of candidates: moves of one kind that differ in one number, which goes along the stops of a vehicle.
ghost use Rattle.std.specs.Prelude.{ℕ, ◌+◌, ◌^◌, ◌<◌, ◌≤◌};
ghost use Rattle.best_moves.specs.Best.{numbers_of};
ghost use Rattle.best_moves.specs.Rows.{move_at, offset_of, IsCandidate};
ghost use Rattle.best_moves.specs.Search.{IsBestSoFar};
ghost use Rattle.best_moves.specs.Searched.{searched, IsSearch};

use crate::best::Best;
use crate::kinds::Kind;
use crate::searched::Search;
use row_gains::{Row, first_gain};

/// A row of candidates: their kind, what each of them loses and gains wherever it stands, and the ways along the stops.
#[derive(Drop)]
pub(crate) struct Candidates<'a, R> {
    pub(crate) kind: Kind,
    pub(crate) lost: u64,
    pub(crate) gained: u64,
    pub(crate) ways: &'a R,
}

/// The better of the best so far and the candidates of a row at the stops from one on before another. Those that gain no more are passed over
/// by a loop that calls nothing.
#[inline(always)]
pub(crate) fn best_of_row<R: Row>(
    search: &Search,
    row: &Candidates<R>,
    first: u32,
    end: u32,
    best: Best,
) -> Best
    requires search { IsSearch (searched search.now) }
    requires order { first ≤ end }
    requires low { offset_of row.now.kind ≤ first }
    requires fixed { (row.now.lost < 2 ^ 50) × (row.now.gained < 2 ^ 50) }
    requires ways { (k : ℕ) → first ≤ k → k < end → R.has row.now.ways.now k }
    requires candidates { (k : ℕ) → first ≤ k → k < end → IsCandidate (searched search.now) (move_at (searched search.now) row.now.kind k)
        (row.now.lost + R.loses row.now.ways.now k) (row.now.gained + R.gains row.now.ways.now k) }
    requires best { IsBestSoFar (searched search.now) (numbers_of (move_at (searched search.now) row.now.kind first)) best.found }
    ensures { IsBestSoFar (searched search.now) (numbers_of (move_at (searched search.now) row.now.kind end)) result.found }
{
    let ways = row.ways;
    let lost = row.lost;
    let gained = row.gained;
    let begin = first as usize;
    let last = end as usize;
    if !ways.may_gain(lost, best.wanted(gained), begin, last) {
        return best;
    }
    let mut best = best;
    let mut at = begin;
    'row: while at < last {
        let found = first_gain(ways, lost, best.wanted(gained), at, last);
        if found == last {
            return best;
        }
        let all_lost = lost + ways.lost(found);
        let all_gained = gained + ways.gained(found);
        let mv = row.kind.move_at(search, found as u32);
        best = best.or_better(search, mv, all_lost, all_gained);
        at = found + 1;
    }
    best
}
