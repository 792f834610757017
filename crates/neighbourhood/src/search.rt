//! The best move.
ghost use Rattle.std.specs.Prelude.{◌≡◌, ◌≢◌, ◌≤◌, Bool, IfOk, MatchOption};
ghost use Rattle.best_moves.specs.Best.{IsBest, IsIdle};
ghost use Rattle.best_moves.specs.Laws.{Laws};
ghost use Rattle.best_moves.specs.Searched.{AreSummed, IsGathered};
ghost use Rattle.dimension_core.specs.Setup.{setting};
ghost use Rattle.move_judge.specs.Kept.{KeptSpans};
ghost use Rattle.move_judge.specs.View.{IsViewOf};
ghost use Rattle.neighbourhood.specs.Asked.{searching};

use best_moves::{Gathered, Search, are_empty, best_of_one, best_of_two, holds_up, laws_below};
use dimension_core::Setup;
use gathered_ways::{Along, Sides, Ways, fill_stops, parts_of};
use move_core::Move;
use move_judge::Kept;
use pin_core::View;
use std::alloc::{AllocError, Global};
use way_costs::most_of;

/// What is asked of a search: the best move near two vehicles of a plan, or inside one, but those to be skipped.
#[derive(Clone, Copy)]
struct Asked<'a> {
    view: &'a View,
    setup: &'a Setup,
    skip: &'a [Move],
    v: u32,
    w: u32,
}

/// The best move inside a vehicle, by what is gathered of it. It is searched without the dimensions at first: where none is found, or they
/// allow what was found, nothing is kept of them.
#[inline(always)]
fn best_gathered(
    asked: Asked,
    gathered: &Gathered,
    sums: &[u64],
    back_sums: &[u64],
    kept: &mut Kept,
) -> Result<Option<(Move, u64)>, AllocError>
    requires laws { Laws }
    requires view { IsViewOf (setting asked.setup.now) asked.view.now }
    requires v { (1 ≤ asked.v) × (asked.v ≤ (setting asked.setup.now).vehicles) }
    requires inside { asked.w ≡ asked.v }
    requires gathered { (bounded : Bool) (kept : KeptSpans) → IsGathered (searching asked bounded kept kept) gathered.now }
    requires sums { (bounded : Bool) (kept : KeptSpans)
        → AreSummed (searching asked bounded kept kept) gathered.now sums.now back_sums.now }
    ensures { IfOk result (λ best. MatchOption best
        (IsIdle (setting asked.entry.setup.now) asked.entry.view.now asked.entry.skip.now asked.entry.v asked.entry.w)
        (λ p. IsBest (setting asked.entry.setup.now) asked.entry.view.now asked.entry.skip.now asked.entry.v asked.entry.w p.0 p.1)) }
{
    let Asked {
        view,
        setup,
        skip,
        v,
        w,
    } = asked;
    kept.forget();
    let search = Search {
        view,
        setup,
        skip,
        bounded: false,
        v,
        w,
        v_kept: kept,
        w_kept: kept,
    };
    let found = best_of_one(&search, gathered, sums, back_sums);
    if holds_up(search, found) {
        return Ok(found);
    }
    kept.keep_alone(view, setup, v)?;
    let search = Search {
        view,
        setup,
        skip,
        bounded: true,
        v,
        w,
        v_kept: kept,
        w_kept: kept,
    };
    Ok(best_of_one(&search, gathered, sums, back_sums))
}

/// The best move between two vehicles, by what is gathered of them, searched without the dimensions at first as `best_gathered` does.
#[inline(always)]
fn best_gathered_between(
    asked: Asked,
    gathered: &Gathered,
    v_kept: &mut Kept,
    w_kept: &mut Kept,
) -> Result<Option<(Move, u64)>, AllocError>
    requires laws { Laws }
    requires view { IsViewOf (setting asked.setup.now) asked.view.now }
    requires v { (1 ≤ asked.v) × (asked.v ≤ (setting asked.setup.now).vehicles) }
    requires w { (1 ≤ asked.w) × (asked.w ≤ (setting asked.setup.now).vehicles) }
    requires apart { asked.v ≢ asked.w }
    requires gathered { (bounded : Bool) (kept others : KeptSpans) → IsGathered (searching asked bounded kept others) gathered.now }
    ensures { IfOk result (λ best. MatchOption best
        (IsIdle (setting asked.entry.setup.now) asked.entry.view.now asked.entry.skip.now asked.entry.v asked.entry.w)
        (λ p. IsBest (setting asked.entry.setup.now) asked.entry.view.now asked.entry.skip.now asked.entry.v asked.entry.w p.0 p.1)) }
{
    let Asked {
        view,
        setup,
        skip,
        v,
        w,
    } = asked;
    v_kept.forget();
    w_kept.forget();
    let search = Search {
        view,
        setup,
        skip,
        bounded: false,
        v,
        w,
        v_kept,
        w_kept,
    };
    let found = best_of_two(&search, gathered);
    if holds_up(search, found) {
        return Ok(found);
    }
    v_kept.keep_between(view, setup, v, w)?;
    w_kept.keep_between(view, setup, w, v)?;
    let search = Search {
        view,
        setup,
        skip,
        bounded: true,
        v,
        w,
        v_kept,
        w_kept,
    };
    Ok(best_of_two(&search, gathered))
}

/// A search that keeps its memory from call to call: the tables of ways, and what it keeps of the bounds. It grows to what the longest
/// routes so far needed, some 8 MB for one of a thousand customers. Each call is as of a new one.
pub struct Searcher {
    sides: Sides,
    ways: Ways,
    along: Along,
    v_kept: Kept,
    w_kept: Kept,
}

// Written by hand: a derived drop is expanded, down to each list, at every place where a value is dropped.
impl Drop for Searcher {
    fn drop(self) {
        let Searcher {
            sides: _,
            ways: _,
            along: _,
            v_kept: _,
            w_kept: _,
        } = self;
    }
}

impl Searcher {
    /// A search that has no memory yet.
    #[inline(always)]
    pub fn new(alloc: Global) -> Searcher {
        Searcher {
            sides: Sides::new(alloc),
            ways: Ways::new(alloc),
            along: Along::new(alloc),
            v_kept: Kept::none(alloc),
            w_kept: Kept::none(alloc),
        }
    }

    /// The best move inside a vehicle.
    fn best_inside<'a>(
        &mut self,
        view: &'a View,
        setup: &'a Setup,
        v: u32,
        skip: &'a [Move],
    ) -> Result<Option<(Move, u64)>, AllocError>
        requires laws { Laws }
        requires view { IsViewOf (setting setup.now) view.now }
        requires v { (1 ≤ v) × (v ≤ (setting setup.now).vehicles) }
        ensures { IfOk result (λ best. MatchOption best (IsIdle (setting setup.now) view.now skip.now v v)
            (λ p. IsBest (setting setup.now) view.now skip.now v v p.0 p.1)) }
    {
        if are_empty(view, v, v) {
            return Ok(None);
        }
        fill_stops(view, setup, v, &mut self.sides.stops)?;
        let count = self.sides.stops.len();
        self.ways.gather_among(setup, &self.sides.stops)?;
        let ways = &self.ways;
        let out = ways.out.as_slice();
        self.along.gather(&mut self.sides.stops, out)?;
        let along = &self.along;
        let (stops, edges) = self.sides.stops.split_at(count);
        let (sums, back_sums) = along.sums.split_at(count - 1);
        let gathered = Gathered {
            from: stops,
            to: stops,
            from_edges: edges,
            to_edges: edges,
            most: along.most,
            out,
            into: &ways.into,
        };
        let asked = Asked {
            view,
            setup,
            skip,
            v,
            w: v,
        };
        best_gathered(asked, &gathered, sums, back_sums, &mut self.v_kept)
    }

    /// The best move between two vehicles.
    fn best_between<'a>(
        &mut self,
        view: &'a View,
        setup: &'a Setup,
        v: u32,
        w: u32,
        skip: &'a [Move],
    ) -> Result<Option<(Move, u64)>, AllocError>
        requires laws { Laws }
        requires view { IsViewOf (setting setup.now) view.now }
        requires v { (1 ≤ v) × (v ≤ (setting setup.now).vehicles) }
        requires w { (1 ≤ w) × (w ≤ (setting setup.now).vehicles) }
        requires apart { v ≢ w }
        ensures { IfOk result (λ best. MatchOption best (IsIdle (setting setup.now) view.now skip.now v w)
            (λ p. IsBest (setting setup.now) view.now skip.now v w p.0 p.1)) }
    {
        if are_empty(view, v, w) {
            return Ok(None);
        }
        self.sides.gather(view, setup, v, w)?;
        let sides = &self.sides;
        let stops = sides.stops.as_slice();
        let edges = sides.edges.as_slice();
        let (from, to, from_edges, to_edges) = parts_of(view, setup, v, stops, edges);
        self.ways.gather_between(setup, from, to)?;
        let ways = &self.ways;
        let gathered = Gathered {
            from,
            to,
            from_edges,
            to_edges,
            most: most_of(to_edges),
            out: &ways.out,
            into: &ways.into,
        };
        let asked = Asked {
            view,
            setup,
            skip,
            v,
            w,
        };
        best_gathered_between(asked, &gathered, &mut self.v_kept, &mut self.w_kept)
    }

    /// The best move near two vehicles, or inside one, and what it saves, as `best_move` says it. No memory is asked for once the searcher
    /// has searched as many vehicles, each with a route that is as long, and with the dimensions too: it keeps something of these only where
    /// they forbid what was found without them. After `AllocError` the searcher may be used again.
    pub fn best_move(
        &mut self,
        view: &View,
        setup: &Setup,
        v: u32,
        w: u32,
        skip: &[Move],
    ) -> Result<Option<(Move, u64)>, AllocError>
        requires view { IsViewOf (setting setup.now) view.now }
        requires v { (1 ≤ v) × (v ≤ (setting setup.now).vehicles) }
        requires w { (1 ≤ w) × (w ≤ (setting setup.now).vehicles) }
        ensures { IfOk result (λ best. MatchOption best (IsIdle (setting setup.now) view.now skip.now v w)
            (λ p. IsBest (setting setup.now) view.now skip.now v w p.0 p.1)) }
    {
        laws_below();
        if v == w {
            self.best_inside(view, setup, v, skip)
        } else {
            self.best_between(view, setup, v, w, skip)
        }
    }
}

/// The best move near two vehicles, or inside one, and what it saves; none where no move counts: of the shifts of at most three
/// customers, the swaps, and the reverses inside one vehicle or the crosses of two, that fit, that pins and freezes allow, that are not to
/// be skipped and that lower the cost, the first of those that lower it most. The first is meant by the kinds in the order Shift, Swap,
/// Reverse, Cross, and within a kind by the fields of the move in their order. Vehicles count from 1. What the move saves is in the unit
/// of the cost callback. `AllocError` means only that memory was refused.
pub fn best_move(
    alloc: Global,
    view: &View,
    setup: &Setup,
    v: u32,
    w: u32,
    skip: &[Move],
) -> Result<Option<(Move, u64)>, AllocError>
    requires view { IsViewOf (setting setup.now) view.now }
    requires v { (1 ≤ v) × (v ≤ (setting setup.now).vehicles) }
    requires w { (1 ≤ w) × (w ≤ (setting setup.now).vehicles) }
    ensures { IfOk result (λ best. MatchOption best (IsIdle (setting setup.now) view.now skip.now v w)
        (λ p. IsBest (setting setup.now) view.now skip.now v w p.0 p.1)) }
{
    Searcher::new(alloc).best_move(view, setup, v, w, skip)
}
