//! What is gathered before a search: the stops of the vehicles, and the ways between them. Each group is made by one function, so that a
//! search owns few values.
ghost use Rattle.std.specs.Prelude.{◌≡◌, ◌≤◌, ◌*◌, ◌∷◌, ◌++◌, ℕ, false, List, length, All, IfOk};
ghost use Rattle.callback_store.specs.Tables.{Table, table_at};
ghost use Rattle.dimension_core.specs.Setup.{setting};
ghost use Rattle.plan_core.specs.Plan.{IsPlan, route_at};
ghost use Rattle.gathered_ways.specs.Sides.{AreSides, AreWaysBetween, AreFloored, IsAlong, stops_of_both};
ghost use Rattle.way_costs.specs.Ways.{AreStops, AreEdges, AreHopsFrom};

use crate::stops::fill_stops_of_both;
use crate::sums::{add_edges, fill_sums};
use dimension_core::Setup;
use limits::MOST_STOPS;
use pin_core::View;
use plan_core::routes_are_known;
use std::alloc::{AllocError, Global};
use std::marker::Model;
use way_costs::{fill_edges, fill_turned, fill_ways, most_of};

/// Two vehicles: their stops, one after the other, and the ways from each to the next.
#[derive(Drop)]
pub struct Sides {
    pub stops: Vec<u32>,
    pub edges: Vec<u32>,
}

impl Model for Sides {
    ghost use Rattle.gathered_ways.specs.Sides.{SidesState};

    ghost Value = { SidesState };

    ghost view = { λ a. record { stops = a.stops.items; edges = a.edges.items } };
}

/// The ways from some stops to others, and back.
#[derive(Drop)]
pub struct Ways {
    pub out: Vec<u32>,
    pub into: Vec<u32>,
}

impl Model for Ways {
    ghost use Rattle.gathered_ways.specs.Sides.{TwoWays};

    ghost Value = { TwoWays };

    ghost view = { λ a. record { out = a.out.items; into = a.into.items } };
}

/// The ways along the stops of a vehicle: the dearest from one to the next, and those over the first ones, as they are driven and behind
/// them as they are driven back.
#[derive(Drop)]
pub struct Along {
    pub most: u32,
    pub sums: Vec<u64>,
}

impl Model for Along {
    ghost use Rattle.gathered_ways.specs.Sides.{AlongState};

    ghost Value = { AlongState };

    ghost view = { λ a. record { most = a.most; sums = a.sums.items } };
}

impl Sides {
    /// Nothing is gathered.
    #[inline(always)]
    pub fn new(alloc: Global) -> Sides {
        Sides {
            stops: Vec::new(alloc),
            edges: Vec::new(alloc),
        }
    }

    /// Gathers the stops of two vehicles, which count from 1, and the ways from each stop to the next, in place of what was gathered.
    pub fn gather(&mut self, view: &View, setup: &Setup, v: u32, w: u32) -> Result<(), AllocError>
        requires plan { IsPlan (setting setup.now).customers view.now.routes }
        requires vehicles { length view.now.routes ≡ (setting setup.now).vehicles }
        requires v { (1 ≤ v) × (v ≤ (setting setup.now).vehicles) }
        requires w { (1 ≤ w) × (w ≤ (setting setup.now).vehicles) }
        ensures { IfOk result (λ _. AreSides (setting setup.now) view.now.routes v w self.new) }
    {
        fill_stops_of_both(view, setup, v, w, &mut self.stops)?;
        fill_edges(setup, &self.stops, &mut self.edges)
    }
}

/// The stops of each of two vehicles, and the ways along each, as parts of what is gathered of both.
pub fn parts_of<'a>(
    view: &View,
    setup: &Setup,
    v: u32,
    stops: &'a [u32],
    edges: &'a [u32],
) -> (&'a [u32], &'a [u32], &'a [u32], &'a [u32])
    requires plan { IsPlan (setting setup.now).customers view.now.routes }
    requires vehicles { length view.now.routes ≡ (setting setup.now).vehicles }
    requires v { (1 ≤ v) × (v ≤ (setting setup.now).vehicles) }
    requires stops { (others : List ℕ) × (stops.now ≡ stops_of_both (route_at view.now.routes v) others) }
    requires edges { AreEdges (table_at (setting setup.now).tables (setting setup.now).cost) stops.now edges.now }
    ensures from { AreStops (setting setup.now).customers view.now.routes v result.0.now }
    ensures to { (w : ℕ) → 1 ≤ w → w ≤ (setting setup.now).vehicles
        → stops.now ≡ stops_of_both (route_at view.now.routes v) (route_at view.now.routes w)
        → AreStops (setting setup.now).customers view.now.routes w result.1.now }
    ensures from_edges { AreEdges (table_at (setting setup.now).tables (setting setup.now).cost) result.0.now result.2.now }
    ensures to_edges { AreEdges (table_at (setting setup.now).tables (setting setup.now).cost) result.1.now result.3.now }
{
    routes_are_known();
    let _customers = setup.customers();
    let middle = view.customers(v).len() + 1;
    let from = &stops[..middle + 1];
    let to = &stops[middle..];
    let from_edges = &edges[..middle];
    let to_edges = &edges[middle..];
    (from, to, from_edges, to_edges)
}

impl Ways {
    /// Nothing is gathered.
    #[inline(always)]
    pub fn new(alloc: Global) -> Ways {
        Ways {
            out: Vec::new(alloc),
            into: Vec::new(alloc),
        }
    }

    /// Gathers the ways from some stops to others, and back, that moves between two vehicles go, in place of what was gathered.
    pub fn gather_between(
        &mut self,
        setup: &Setup,
        from: &[u32],
        to: &[u32],
    ) -> Result<(), AllocError>
        requires from { All (λ c. c ≤ (setting setup.now).customers) from.now }
        requires to { All (λ c. c ≤ (setting setup.now).customers) to.now }
        requires some { (1 ≤ length from.now) × (1 ≤ length to.now) }
        requires short { (length from.now ≤ MOST_STOPS) × (length to.now ≤ MOST_STOPS) }
        ensures ways { IfOk result (λ _. AreWaysBetween
            (table_at (setting setup.now).tables (setting setup.now).cost) from.now to.now self.new) }
        ensures floors { IfOk result (λ _. AreFloored from.now to.now self.new) }
    {
        fill_ways(setup, false, from, to, &mut self.out)?;
        fill_ways(setup, true, from, to, &mut self.into)
    }

    /// Gathers the ways between some stops that a move inside their vehicle goes, each asked once, in place of what was gathered.
    pub fn gather_among(&mut self, setup: &Setup, stops: &[u32]) -> Result<(), AllocError>
        requires known { All (λ c. c ≤ (setting setup.now).customers) stops.now }
        requires some { 1 ≤ length stops.now }
        requires short { length stops.now ≤ MOST_STOPS }
        ensures { IfOk result (λ _. AreWaysBetween
            (table_at (setting setup.now).tables (setting setup.now).cost) stops.now stops.now self.new) }
    {
        fill_ways(setup, false, stops, stops, &mut self.out)?;
        fill_turned(stops, &self.out, &mut self.into)
    }
}

impl Along {
    /// Nothing is gathered.
    #[inline(always)]
    pub fn new(alloc: Global) -> Along {
        Along {
            most: 0,
            sums: Vec::new(alloc),
        }
    }

    /// Gathers the ways along some stops, by the ways between them all, in place of what was gathered, and puts those from each stop to the
    /// next one behind the stops.
    pub fn gather(&mut self, stops: &mut Vec<u32>, cells: &[u32]) -> Result<(), AllocError>
        requires sized { length cells.now ≡ length stops.old.items * length stops.old.items }
        requires depot { (rest : List ℕ) × (stops.old.items ≡ 0 ∷ rest) }
        requires long { 2 ≤ length stops.old.items }
        requires short { length stops.old.items ≤ MOST_STOPS }
        ensures { IfOk result (λ _. (edges : List ℕ) × (stops.new.items ≡ stops.old.items ++ edges)
            × ((t : Table) → AreHopsFrom false t stops.old.items stops.old.items 0 1 cells.now
            → IsAlong t stops.old.items edges self.new)) }
    {
        fill_sums(stops, cells, &mut self.sums)?;
        let count = stops.len();
        add_edges(stops, cells)?;
        self.most = most_of(&stops[count..]);
        Ok(())
    }
}
