//! Shifts of one to three customers.
ghost use Rattle.std.specs.Prelude.{◌≡◌, ◌≢◌, ◌+◌, ◌-◌, ◌^◌, ◌<◌, ◌≤◌, [], ◌∷◌, length, slice_index};
ghost use Rattle.best_moves.specs.Search.{IsBestSoFar};
ghost use Rattle.best_moves.specs.Searched.{searched, costs_of, IsGathered, IsSearch};
ghost use Rattle.way_costs.specs.Ways.{hop};

use crate::best::Best;
use crate::kinds::Kind;
use crate::rows::{Candidates, best_of_row};
use crate::searched::{Gathered, Search};
use move_judge::{first_free, loose_from};
use row_gains::{CutRow, way_at};
use way_costs::{hop, row};

/// What the way costs that closes a gap, from one stop of the first vehicle to a later one. That from the depot and that to the depot are
/// among the ways between both vehicles.
#[inline(always)]
fn closing(search: &Search, gathered: &Gathered, before: usize, after: usize) -> u64
    requires gathered { IsGathered (searched search.now) gathered.now }
    requires order { before < after }
    requires after { after < length gathered.now.from.now }
    ensures value { result ≡ hop (costs_of (searched search.now))
        (slice_index gathered.now.from.now before) (slice_index gathered.now.from.now after) }
    ensures small { result < 2 ^ 34 }
{
    let from = gathered.from;
    let width = gathered.to.len();
    if before == 0 {
        let comes = row(gathered.into, width, after);
        return way_at(comes, 0);
    }
    if after + 1 == from.len() {
        let goes = row(gathered.out, width, before);
        return way_at(goes, width - 1);
    }
    hop(search.setup, from[before], from[after])
}

/// The better of the best so far and the shifts of so many customers from a place on to another vehicle.
/// A row of the tables has a number that none of its ways is below where it lacks a way: by those the most that the shifts can gain is
/// compared with what is wanted before they are gone through.
#[inline(always)]
fn shift_over(search: &Search, gathered: &Gathered, place: u32, count: u32, best: Best) -> Best
    requires search { IsSearch (searched search.now) }
    requires gathered { IsGathered (searched search.now) gathered.now }
    requires apart { search.now.v ≢ search.now.w }
    requires count { (1 ≤ count) × (count ≤ 3) }
    requires place { (1 ≤ place) × (place + count < length gathered.now.from.now) }
    requires best { IsBestSoFar (searched search.now) (1 ∷ search.now.v ∷ place ∷ count ∷ search.now.w ∷ 1 ∷ []) best.found }
    ensures { IsBestSoFar (searched search.now)
        (1 ∷ search.now.v ∷ place ∷ count ∷ search.now.w ∷ length gathered.now.to.now ∷ []) result.found }
{
    let from_edges = gathered.from_edges;
    let most = gathered.most;
    let width = gathered.to.len();
    let first = place as usize;
    let after = first + count as usize;
    let lost = u64::from(from_edges[first - 1]) + u64::from(from_edges[after - 1]);
    let comes = row(gathered.into, width, first);
    let goes = row(gathered.out, width, after - 1);
    let reach = lost + u64::from(most);
    let least = way_at(goes, 0) + way_at(comes, width - 1);
    let floor = best.wanted(least);
    if reach <= floor {
        return best;
    }
    let begin = first_free(search.view, search.setup, search.w);
    let gained = closing(search, gathered, first - 1, after);
    let higher = best.wanted(least + gained);
    if reach <= higher {
        return best;
    }
    let ways = CutRow {
        edges: gathered.to_edges,
        most,
        to: comes,
        on: goes,
    };
    let shifts = Candidates {
        kind: Kind::Shifts {
            place,
            count,
            offset: 0,
        },
        lost,
        gained,
        ways: &ways,
    };
    best_of_row(search, &shifts, begin - 1, width as u32 - 1, best)
}

/// The better of the best so far and the shifts of so many customers from a place on inside their vehicle.
#[inline(always)]
fn shift_within(search: &Search, gathered: &Gathered, place: u32, count: u32, best: Best) -> Best
    requires search { IsSearch (searched search.now) }
    requires gathered { IsGathered (searched search.now) gathered.now }
    requires inside { search.now.v ≡ search.now.w }
    requires count { (1 ≤ count) × (count ≤ 3) }
    requires place { (1 ≤ place) × (place + count < length gathered.now.from.now) }
    requires best { IsBestSoFar (searched search.now) (1 ∷ search.now.v ∷ place ∷ count ∷ search.now.w ∷ 1 ∷ []) best.found }
    ensures { IsBestSoFar (searched search.now)
        (1 ∷ search.now.v ∷ place ∷ count ∷ search.now.w ∷ (length gathered.now.from.now - count) ∷ []) result.found }
{
    let begin = first_free(search.view, search.setup, search.v);
    if place < begin {
        return best;
    }
    let edges = gathered.to_edges;
    let out = gathered.out;
    let width = gathered.from.len();
    let first = place as usize;
    let after = first + count as usize;
    let closes = row(out, width, first - 1);
    let lost = way_at(edges, first - 1) + way_at(edges, after - 1);
    let gained = way_at(closes, after);
    let ways = CutRow {
        edges,
        most: gathered.most,
        to: row(gathered.into, width, first),
        on: row(out, width, after - 1),
    };
    let forwards = Candidates {
        kind: Kind::Shifts {
            place,
            count,
            offset: 0,
        },
        lost,
        gained,
        ways: &ways,
    };
    let best = best_of_row(search, &forwards, begin - 1, place - 1, best);
    let backwards = Candidates {
        kind: Kind::Shifts {
            place,
            count,
            offset: count,
        },
        lost,
        gained,
        ways: &ways,
    };
    best_of_row(search, &backwards, place + count, width as u32 - 1, best)
}

/// The better of the best so far and all shifts of 1 to 3 customers from one vehicle to another.
#[inline(always)]
pub(crate) fn best_shift(search: &Search, gathered: &Gathered, best: Best) -> Best
    requires search { IsSearch (searched search.now) }
    requires gathered { IsGathered (searched search.now) gathered.now }
    requires apart { search.now.v ≢ search.now.w }
    requires best { IsBestSoFar (searched search.now) (1 ∷ []) best.found }
    ensures { IsBestSoFar (searched search.now) (2 ∷ []) result.found }
{
    let mut best = best;
    for place in 1..gathered.from.len() as u32 - 1 {
        let free = loose_from(search.view, search.setup, search.v, place);
        for count in 1..free + 1 {
            best = shift_over(search, gathered, place, count, best);
        }
    }
    best
}

/// The better of the best so far and all shifts of 1 to 3 customers inside a vehicle.
#[inline(always)]
pub(crate) fn best_shift_inside(search: &Search, gathered: &Gathered, best: Best) -> Best
    requires search { IsSearch (searched search.now) }
    requires gathered { IsGathered (searched search.now) gathered.now }
    requires inside { search.now.v ≡ search.now.w }
    requires best { IsBestSoFar (searched search.now) (1 ∷ []) best.found }
    ensures { IsBestSoFar (searched search.now) (2 ∷ []) result.found }
{
    let mut best = best;
    let end = gathered.from.len() as u32 - 1;
    for place in 1..end {
        let most = (end - place).min(3);
        for count in 1..most + 1 {
            best = shift_within(search, gathered, place, count, best);
        }
    }
    best
}
