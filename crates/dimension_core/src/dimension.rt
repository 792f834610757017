ghost use Rattle.std.specs.Prelude.{◌≡◌, ℕ, ◌+◌, ◌<◌, ◌≤◌, ◌↔◌, true, false, List, length, IfSome, OnSome, IfOk, IsTrue, Some, None, All, [], ◌∷◌, ◌++◌, IfNone};
ghost use Rattle.std.specs.Bool.{OnTrue, OnFalse};
ghost use Rattle.std.specs.Result.{result_err};
ghost use Rattle.callback_store.specs.Meter.{after_ask, AsksJust, AsksAtMost};
ghost use Rattle.callback_store.specs.Registry.{tables};
ghost use Rattle.callback_store.specs.Tables.{Table, entry};
ghost use Rattle.dimension_core.specs.Cumuls.{Bounds, IsStart, IsStep, IsWithin, IsSpan, IsServed, cap_of, range_of, IsInBounds, Reaches, table_of, last_of, dimension_refusal, is_in_range, are_caps, are_ranges, is_sized, IsEarly, route_asks};
ghost use Rattle.dimension_core.specs.Misses.{IsFirstMiss};
ghost use Rattle.dimension_core.specs.Onward.{IsBefore};

use crate::range::Range;
use callback_store::{Meter, Registry, TransitId};
use limits::{LARGEST_ANSWER, LARGEST_CUMUL, MOST_NODES, MOST_VEHICLES};
use std::marker::Model;
use thiserror::Error;

/// Why a dimension was refused, in the order in which the reasons are tried.
#[derive(Clone, Copy, Debug, PartialEq, Eq, Error)]
pub enum DimensionFault {
    /// Its callback is not registered.
    #[error("the callback is not registered")]
    NoTransit,
    /// The capacities are not 1 to 1,000, or there is not a range for each node of the registry.
    #[error("the capacities are not 1 to 1,000, or there is not a range for each node")]
    Size,
    /// A range is empty, or a number of a range, a capacity or the slack is above 1,000,000,000,000.
    #[error("a range is empty, or a number is above 1,000,000,000,000")]
    Range,
}

/// What bounds the cumuls along a route, in the manner of OR-Tools' dimensions.
///
/// A cumul is kept at each stop: the depot, the route's customers, the depot. Each lies in its node's range and is at most the vehicle's
/// capacity, and the next is this one plus the transit plus a slack of at most the greatest slack. Vehicles count from 1 and nodes from 0;
/// node 0 is the depot.
///
/// A call must be passed vehicles and nodes of the dimension, and a registry that serves it: one that has its callback, over as many nodes.
#[derive(Drop)]
pub struct Dimension {
    id: TransitId,
    slack_max: u64,
    caps: Vec<u64>,
    fixed: bool,
    ranges: Vec<Range>,
}

impl Model for Dimension {
    ghost use Rattle.dimension_core.specs.Cumuls.{Bounds, AreBounds};

    ghost Value = { Bounds };

    ghost view = { λ a. record { id = a.id; slack_max = a.slack_max; caps = a.caps.items; fixed = a.fixed; ranges = a.ranges.items } };

    ghost invariant = { λ a. AreBounds (record
        { id = a.id; slack_max = a.slack_max; caps = a.caps.items; fixed = a.fixed; ranges = a.ranges.items }) };
}

/// Whether no range is empty, and no number above the limit.
fn is_in_range(slack_max: u64, caps: &[u64], ranges: &[Range]) -> bool
    ensures { result ≡ is_in_range slack_max caps.now ranges.now }
{
    slack_max <= LARGEST_CUMUL && are_caps(caps) && are_ranges(ranges)
}

/// Whether no capacity is above the limit.
fn are_caps(caps: &[u64]) -> bool
    ensures { result ≡ are_caps caps.now }
{
    caps.iter().all(|cap| *cap <= LARGEST_CUMUL)
}

/// Whether no range is empty, and none ends above the limit.
fn are_ranges(ranges: &[Range]) -> bool
    ensures { result ≡ are_ranges ranges.now }
{
    ranges
        .iter()
        .all(|range| range.lo <= range.hi && range.hi <= LARGEST_CUMUL)
}

/// Whether there are 1 to 1,000 capacities, and a range for each node of the registry.
fn is_sized(registry: &Registry, caps: &[u64], ranges: &[Range]) -> bool
    ensures { result ≡ is_sized (tables registry.now) caps.now ranges.now }
{
    1 <= caps.len()
        && caps.len() <= MOST_VEHICLES as usize
        && ranges.len() == registry.nodes() as usize
}

/// The cumuls that a vehicle may have at a node after one of a range: `Dimension::after` for a caller that asks it along a whole route, and
/// has looked up the greatest slack and the vehicle's capacity before.
///
/// The caller must pass a range that is not empty and does not end above 1,000,000,000,000, an answer of at most 1,000,000,000, the range of
/// the node, and the slack and a capacity of its dimension.
#[inline(always)]
pub fn range_after(range: Range, way: u64, node: Range, slack_max: u64, cap: u64) -> Option<Range>
    requires filled { range.lo ≤ range.hi }
    requires range { range.hi ≤ LARGEST_CUMUL }
    requires way { way ≤ LARGEST_ANSWER }
    requires slack { slack_max ≤ LARGEST_CUMUL }
    requires cap { cap ≤ LARGEST_CUMUL }
    ensures span { (t : Table) (d : Bounds) (vehicle i j : ℕ) → way ≡ entry t i j → node ≡ range_of d j → slack_max ≡ d.slack_max
        → cap ≡ cap_of d vehicle → IsSpan result (λ y. (x : ℕ) × IsWithin (Some range) x × IsStep t d vehicle i x j y) }
    ensures small { IfSome result (λ r. r.hi ≤ LARGEST_CUMUL) }
{
    let lo = (range.lo + way).max(node.lo);
    let most = range.hi + way + slack_max;
    let hi = most.min(node.hi).min(cap);
    if lo <= hi {
        Some(Range { lo, hi })
    } else {
        None
    }
}

impl Dimension {
    /// A dimension over a callback of the registry: the greatest slack, a capacity for each vehicle (the first is that of vehicle 1),
    /// whether the first cumul is 0, and a range for each node. It takes no memory.
    ///
    /// The refusals come in the order of `DimensionFault`.
    pub fn new(
        registry: &Registry,
        id: TransitId,
        slack_max: u64,
        caps: Vec<u64>,
        fix_start: bool,
        ranges: Vec<Range>,
    ) -> Result<Dimension, DimensionFault>
        ensures ok { IfOk result (λ d. d ≡ record {
          id = id;
          slack_max = slack_max;
          caps = caps.items;
          fixed = fix_start;
          ranges = ranges.items;
        }) }
        ensures refused { result_err result ≡ dimension_refusal (tables registry.now) id slack_max caps.items ranges.items }
    {
        if !registry.has(id) {
            return Err(DimensionFault::NoTransit);
        }
        if !is_sized(registry, &caps, &ranges) {
            return Err(DimensionFault::Size);
        }
        if !is_in_range(slack_max, &caps, &ranges) {
            return Err(DimensionFault::Range);
        }
        Ok(Dimension {
            id,
            slack_max,
            caps,
            fixed: fix_start,
            ranges,
        })
    }

    /// The name of its callback.
    pub fn id(&self) -> TransitId
        ensures { result ≡ self.now.id }
    {
        self.id
    }

    /// The greatest slack.
    pub fn slack_max(&self) -> u64
        ensures value { result ≡ self.now.slack_max }
        ensures small { result ≤ LARGEST_CUMUL }
    {
        self.slack_max
    }

    /// Whether the cumul at the start is 0.
    pub fn is_fixed(&self) -> bool
        ensures { result ≡ self.now.fixed }
    {
        self.fixed
    }

    /// How many vehicles it knows.
    pub fn vehicles(&self) -> u32
        ensures value { result ≡ length self.now.caps }
        ensures low { 1 ≤ result }
        ensures high { result ≤ MOST_VEHICLES }
    {
        self.caps.len() as u32
    }

    /// How many nodes it knows.
    pub fn nodes(&self) -> u32
        ensures value { result ≡ length self.now.ranges }
        ensures low { 2 ≤ result }
        ensures high { result ≤ MOST_NODES }
    {
        self.ranges.len() as u32
    }

    /// The capacity of a vehicle.
    pub fn cap(&self, vehicle: u32) -> u64
        requires low { 1 ≤ vehicle }
        requires high { vehicle ≤ length self.now.caps }
        ensures value { result ≡ cap_of self.now vehicle }
        ensures small { result ≤ LARGEST_CUMUL }
    {
        self.caps[vehicle as usize - 1]
    }

    /// The range of each node, the depot's first.
    pub fn ranges(&self) -> &[Range]
        ensures { result.now ≡ self.now.ranges }
    {
        self.ranges.as_slice()
    }

    /// The range of a node.
    pub fn range(&self, node: u32) -> Range
        requires { node < length self.now.ranges }
        ensures value { result ≡ range_of self.now node }
        ensures filled { result.lo ≤ result.hi }
        ensures small { result.hi ≤ LARGEST_CUMUL }
    {
        self.ranges[node as usize]
    }

    /// A law of the dimension: no span along a route ends above the limit.
    pub fn spans_are_small(&self)
        ensures { (t : Table) (vehicle : ℕ) (nodes : List ℕ) (range : Range) → IsSpan (Some range) (Reaches t self.now vehicle nodes)
            → last_of 0 nodes < length self.now.ranges → range.hi ≤ LARGEST_CUMUL }
    {
        let _ = &self.id;
    }

    /// The cumuls with which a vehicle may leave the depot, and none where there are none.
    pub fn start(&self, vehicle: u32) -> Option<Range>
        requires low { 1 ≤ vehicle }
        requires high { vehicle ≤ length self.now.caps }
        ensures span { IsSpan result (IsStart self.now vehicle) }
        ensures depot { 0 < length self.now.ranges }
        ensures small { IfSome result (λ r. r.hi ≤ LARGEST_CUMUL) }
    {
        let depot = self.ranges[0];
        let cap = self.caps[vehicle as usize - 1];
        let hi = if self.fixed { 0 } else { depot.hi.min(cap) };
        if depot.lo <= hi {
            Some(Range { lo: depot.lo, hi })
        } else {
            None
        }
    }

    /// The cumuls that a vehicle may have at node `j` after one of the range at node `i`, and none where there are none.
    /// It asks the callback once.
    pub fn extend(
        &self,
        registry: &Registry,
        range: Range,
        i: u32,
        j: u32,
        vehicle: u32,
        meter: &mut Meter,
    ) -> Option<Range>
        requires served { IsServed (tables registry.now) self.now }
        requires from { i < length self.now.ranges }
        requires to { j < length self.now.ranges }
        requires low { 1 ≤ vehicle }
        requires high { vehicle ≤ length self.now.caps }
        ensures span { IsSpan result (λ y. (x : ℕ) × IsWithin (Some range) x
            × IsStep (table_of (tables registry.now) self.now) self.now vehicle i x j y) }
        ensures small { IfSome result (λ r. r.hi ≤ LARGEST_CUMUL) }
        ensures counted { meter.new ≡ after_ask meter.old }
        ensures one { AsksJust meter.old meter.new 1 }
    {
        let transit = registry.ask(self.id(), meter, i, j);
        let node = self.range(j);
        let most = transit + self.slack_max();
        let lo = range.lo.saturating_add(transit).max(node.lo);
        let hi = range
            .hi
            .saturating_add(most)
            .min(node.hi)
            .min(self.cap(vehicle));
        if range.lo <= range.hi && lo <= hi {
            Some(Range { lo, hi })
        } else {
            None
        }
    }

    /// The cumuls that a vehicle may have at node `j` after one of a range, where the callback's answer on the way there is known, and none
    /// where there are none: what `extend` does with that answer.
    ///
    /// The caller must pass a range that is not empty and does not end above 1,000,000,000,000, an answer of at most 1,000,000,000, and a
    /// node and a vehicle (from 1) of the dimension. Which way it is the answer for is not checked: the result is right for each node `i`
    /// for which the callback answers `way` on the way to `j`.
    pub fn after(&self, range: Range, way: u64, j: u32, vehicle: u32) -> Option<Range>
        requires filled { range.lo ≤ range.hi }
        requires range { range.hi ≤ LARGEST_CUMUL }
        requires way { way ≤ LARGEST_ANSWER }
        requires to { j < length self.now.ranges }
        requires low { 1 ≤ vehicle }
        requires high { vehicle ≤ length self.now.caps }
        ensures span { (t : Table) (i : ℕ) → way ≡ entry t i j
            → IsSpan result (λ y. (x : ℕ) × IsWithin (Some range) x × IsStep t self.now vehicle i x j y) }
        ensures small { IfSome result (λ r. r.hi ≤ LARGEST_CUMUL) }
    {
        range_after(
            range,
            way,
            self.range(j),
            self.slack_max(),
            self.cap(vehicle),
        )
    }

    /// The cumuls that a vehicle may have at node `i` before one of the range at node `j`, which must not be empty, and none where there
    /// are none: `extend` backwards. It asks the callback once.
    pub fn precede(
        &self,
        registry: &Registry,
        range: Range,
        i: u32,
        j: u32,
        vehicle: u32,
        meter: &mut Meter,
    ) -> Option<Range>
        requires served { IsServed (tables registry.now) self.now }
        requires filled { range.lo ≤ range.hi }
        requires from { i < length self.now.ranges }
        requires to { j < length self.now.ranges }
        requires low { 1 ≤ vehicle }
        requires high { vehicle ≤ length self.now.caps }
        ensures span { IsSpan result (IsBefore (table_of (tables registry.now) self.now) self.now vehicle i j range) }
        ensures small { IfSome result (λ r. r.hi ≤ LARGEST_CUMUL) }
        ensures counted { meter.new ≡ after_ask meter.old }
        ensures one { AsksJust meter.old meter.new 1 }
    {
        let way = registry.ask(self.id(), meter, i, j);
        if range.hi < way {
            return None;
        }
        let node = self.range(i);
        let most = way + self.slack_max();
        let lo = range.lo.saturating_sub(most).max(node.lo);
        let hi = (range.hi - way).min(node.hi).min(self.cap(vehicle));
        if lo <= hi {
            Some(Range { lo, hi })
        } else {
            None
        }
    }

    /// The cumuls that a vehicle may have at the last of some nodes on its way from the depot, and none where there are
    /// none. The first of them is the early value at that node.
    ///
    /// It asks the callback once for each node up to the first without a cumul, and not at all where there is none at the depot.
    #[tactic(auto, using(crate::proofs::Reach::span_early))]
    pub fn reach(
        &self,
        registry: &Registry,
        nodes: &[u32],
        vehicle: u32,
        meter: &mut Meter,
    ) -> Option<Range>
        requires served { IsServed (tables registry.now) self.now }
        requires known { All (λ node. node < length self.now.ranges) nodes.now }
        requires low { 1 ≤ vehicle }
        requires high { vehicle ≤ length self.now.caps }
        ensures span { IsSpan result (Reaches (table_of (tables registry.now) self.now) self.now vehicle nodes.now) }
        ensures asks { AsksAtMost meter.old meter.new (length nodes.now) }
        ensures whole { OnSome result (AsksJust meter.old meter.new (length nodes.now)) }
        ensures missed { IfNone result ((k : ℕ) × IsFirstMiss (table_of (tables registry.now) self.now) self.now vehicle nodes.now k
            × AsksJust meter.old meter.new k) }
        ensures early { IfSome result (λ r. IsEarly (table_of (tables registry.now) self.now) self.now vehicle nodes.now r.lo) }
        ensures small { IfSome result (λ r. r.hi ≤ LARGEST_CUMUL) }
    {
        let mut range = self.start(vehicle)?;
        let mut from = 0u32;
        for node in nodes {
            range = self.extend(registry, range, from, *node, vehicle, meter)?;
            from = *node;
        }
        Some(range)
    }

    /// Whether a vehicle's route is in bounds: it is empty, or there are cumuls for its stops.
    ///
    /// It asks the callback once for each customer and once for the return, up to the first stop without a cumul, and not at all where the
    /// route is empty or there is none at the depot.
    pub fn in_bounds(
        &self,
        registry: &Registry,
        route: &[u32],
        vehicle: u32,
        meter: &mut Meter,
    ) -> bool
        requires served { IsServed (tables registry.now) self.now }
        requires known { All (λ node. node < length self.now.ranges) route.now }
        requires low { 1 ≤ vehicle }
        requires high { vehicle ≤ length self.now.caps }
        ensures bounds { IsTrue result ↔ IsInBounds (table_of (tables registry.now) self.now) self.now vehicle route.now }
        ensures asks { AsksAtMost meter.old meter.new (route_asks route.now) }
        ensures whole { OnTrue result (AsksJust meter.old meter.new (route_asks route.now)) }
        ensures missed { OnFalse result ((k : ℕ) × IsFirstMiss (table_of (tables registry.now) self.now) self.now vehicle
            (route.now ++ 0 ∷ []) k × AsksJust meter.old meter.new k) }
    {
        if route.is_empty() {
            return true;
        }
        match self.reach(registry, route, vehicle, meter) {
            None => false,
            Some(arrival) => {
                let last = route[route.len() - 1];
                self.extend(registry, arrival, last, 0, vehicle, meter)
                    .is_some()
            }
        }
    }
}
