//! From a view to the cells of a copy, and from the cells to a view.
ghost use Rattle.std.specs.Prelude.{◌≡◌, ◌≤◌, ℕ, List, length, map, IfOk, OnOk, All};
ghost use mathlib.Core.List.{IsPrefix};
ghost use Rattle.dimension_core.specs.Setting.{Setting};
ghost use Rattle.plan_core.specs.Plan.{routes_of, route_at};
ghost use Rattle.board_rules.specs.declared.call.Entry.{Entry};
ghost use Rattle.board_rules.specs.History.{state_after};
ghost use Rattle.board_rules.specs.Good.{IsGood};
ghost use Rattle.published_board.specs.Told.{told};
ghost use Rattle.published_board.specs.Lanes.{route_in, lanes_of, renewed, renewed_by};
ghost use Rattle.published_board.specs.Shelves.{cells_of, Shows, view_of};

use crate::shown::{Cells, Lane, put};
use crate::trail::Trail;
use limits::MOST_VEHICLES;
use pin_core::View;
use plan_core::Route;
use std::alloc::{AllocError, Global};
use std::sync::Arc;

/// No fleet has more vehicles.
const MOST: usize = MOST_VEHICLES as usize;

impl Cells {
    /// The cells of a view of the state of which the log tells, after so many entries.
    pub(crate) fn of(
        alloc: Global,
        view: View,
        base: &Trail,
        entries: u64,
    ) -> Result<Cells, AllocError>
        requires few { length view.routes ≤ MOST_VEHICLES }
        requires routes { view.routes ≡ (told base.now).routes }
        ensures lanes { IfOk result (λ x. x.lanes.items ≡ lanes_of base.now entries (length view.routes)) }
        ensures rest { IfOk result (λ x. (x.pins.items ≡ view.pinned) × (x.frozen.items ≡ view.frozen) × (x.version ≡ view.version)) }
        ensures numbers { IfOk result (λ x. (x.entries ≡ entries) × (x.moved ≡ entries) × (x.turned ≡ entries)) }
    {
        let View {
            routes,
            pinned,
            frozen,
            version,
        } = view;
        Ok(Cells {
            lanes: lanes(alloc, routes.as_slice(), base, entries)?,
            pins: pinned,
            frozen,
            version,
            entries,
            moved: entries,
            turned: entries,
        })
    }

    /// A view of what the cells show.
    pub(crate) fn view(&self, alloc: Global) -> Result<View, AllocError>
        ensures { (s : Setting) (es : List Entry) → IsGood s (state_after s es) → Shows s es (cells_of self.now)
            → IfOk result (λ v. v ≡ view_of (state_after s es)) }
    {
        Ok(View {
            routes: routes(alloc, self.lanes.as_slice())?,
            pinned: Vec::from_slice(alloc, self.pins.as_slice())?,
            frozen: Vec::from_slice(alloc, self.frozen.as_slice())?,
            version: self.version,
        })
    }

    /// Brings a view, which has so many entries, up to what the cells show, in the memory that it has.
    pub(crate) fn renew(&self, view: View, entries: u64) -> Result<View, AllocError>
        ensures { (s : Setting) (es before : List Entry) → IsGood s (state_after s es)
            → IsGood s (state_after s before) → Shows s es (cells_of self.now)
            → IsPrefix before es → entries ≡ length before → view ≡ view_of (state_after s before)
            → IfOk result (λ v. v ≡ view_of (state_after s es)) }
    {
        let View {
            routes,
            pinned,
            frozen,
            version: _,
        } = view;
        let routes = self.renew_routes(routes, entries)?;
        let (pinned, frozen) = self.renew_pins(pinned, frozen, entries);
        Ok(View {
            routes,
            pinned,
            frozen,
            version: self.version,
        })
    }

    /// Brings the routes up to what the cells show.
    fn renew_routes(
        &self,
        routes: Vec<Arc<Route>>,
        entries: u64,
    ) -> Result<Vec<Arc<Route>>, AllocError>
        ensures { (s : Setting) (es before : List Entry) → IsGood s (state_after s es)
            → IsGood s (state_after s before) → Shows s es (cells_of self.now)
            → IsPrefix before es → entries ≡ length before → routes_of routes.items ≡ (state_after s before).routes
            → IfOk result (λ v. routes_of v.items ≡ (state_after s es).routes) }
    {
        if self.moved <= entries {
            return Ok(routes);
        }
        let mut routes = routes;
        renew_all(self.lanes.as_slice(), &mut routes, entries)?;
        Ok(routes)
    }

    /// Brings the pins and the frozen lengths up to what the cells show.
    fn renew_pins(
        &self,
        pinned: Vec<Option<u32>>,
        frozen: Vec<u32>,
        entries: u64,
    ) -> (Vec<Option<u32>>, Vec<u32>)
        ensures { (s : Setting) (es before : List Entry) → IsGood s (state_after s es)
            → IsGood s (state_after s before) → Shows s es (cells_of self.now)
            → IsPrefix before es → entries ≡ length before → pinned.items ≡ (state_after s before).pins.pins
            → frozen.items ≡ (state_after s before).pins.fronts
            → (result.0.items ≡ (state_after s es).pins.pins) × (result.1.items ≡ (state_after s es).pins.fronts) }
    {
        if self.turned <= entries {
            return (pinned, frozen);
        }
        (
            written_over(pinned, self.pins.as_slice()),
            written_over(frozen, self.frozen.as_slice()),
        )
    }
}

/// The values of other cells, of which there are as many.
fn written_over<V: Copy>(cells: Vec<V>, values: &[V]) -> Vec<V>
    ensures { length cells.items ≡ length values.now → result.items ≡ values.now }
{
    let mut cells = cells;
    if cells.len() == values.len() {
        cells.as_mut_slice().copy_from_slice(values);
    }
    cells
}

/// A lane for each route of the state of which the log tells.
fn lanes(
    alloc: Global,
    routes: &[Arc<Route>],
    base: &Trail,
    entry: u64,
) -> Result<Vec<Lane>, AllocError>
    requires few { length routes.now ≤ MOST_VEHICLES }
    requires routes { routes_of routes.now ≡ (told base.now).routes }
    ensures { IfOk result (λ v. v.items ≡ lanes_of base.now entry (length routes.now)) }
{
    let mut made = Vec::with_capacity(alloc, routes.len())?;
    for index in 0..routes.len().min(MOST) {
        made.push(Lane::at(index as u32 + 1, &routes[index], base, entry))?;
    }
    Ok(made)
}

/// The routes that stand in lanes, each with one owner more.
fn routes(alloc: Global, lanes: &[Lane]) -> Result<Vec<Arc<Route>>, AllocError>
    ensures { IfOk result (λ v. routes_of v.items ≡ map route_in lanes.now) }
{
    let mut made = Vec::with_capacity(alloc, lanes.len())?;
    for lane in lanes {
        made.push(lane.route()?)?;
    }
    Ok(made)
}

/// Puts the routes of all lanes that are newer than an entry in their places.
fn renew_all(lanes: &[Lane], routes: &mut Vec<Arc<Route>>, entries: u64) -> Result<(), AllocError>
    ensures { OnOk result (routes_of routes.new.items ≡ renewed entries lanes.now (routes_of routes.old.items)) }
{
    for lane in lanes {
        renew_one(lane, routes, entries)?;
    }
    Ok(())
}

/// Puts the route of a lane in its place where it is newer than an entry.
fn renew_one(lane: &Lane, routes: &mut Vec<Arc<Route>>, entries: u64) -> Result<(), AllocError>
    ensures { OnOk result (routes_of routes.new.items ≡ renewed_by entries (routes_of routes.old.items) lane.now) }
{
    if lane.entry() > entries {
        let route = lane.route()?;
        put(routes, lane.vehicle(), route);
    }
    Ok(())
}
