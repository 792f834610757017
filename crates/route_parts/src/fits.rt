//! Whether a new route is in bounds by its parts, with no list made of it.
ghost use Rattle.std.specs.Prelude.{max, min, ◌≡◌, ◌==◌, ℕ, ◌+◌, ◌≤◌, ◌<◌, ◌↔◌, List, [], ◌∷◌, ◌++◌, length, reverse, Option, Some, None, IsTrue, All, MatchOption, IfSome};
ghost use Rattle.callback_store.specs.Registry.{tables};
ghost use Rattle.dimension_core.specs.Cumuls.{IsServed, IsInBounds, IsSpan, table_of, last_of};
ghost use Rattle.dimension_core.specs.Feasible.{FitsAll};
ghost use Rattle.dimension_core.specs.Setup.{setting};
ghost use Rattle.route_parts.specs.Ends.{HasEnds};
ghost use Rattle.route_parts.specs.Kept.{HasAhead, HasBehind};
ghost use Rattle.route_parts.specs.Given.{Laws};
ghost use Rattle.route_parts.specs.Lane.{IsLane, Knows, Gets};
ghost use Rattle.route_parts.specs.Parts.{begun_of, middle_of, route_of, way_of};

use crate::parts::Parts;
use callback_store::{Callback, Registry, Slot};
use dimension_core::{Dimension, Range, Setup, range_after};
use limits::LARGEST_CUMUL;

/// A vehicle in a dimension, and what is looked up of both once for a whole route: the ranges of the nodes, the greatest slack and the
/// vehicle's capacity.
#[derive(Clone, Copy)]
pub(crate) struct Lane<'a> {
    dimension: &'a Dimension,
    vehicle: u32,
    ranges: &'a [Range],
    slack_max: u64,
    cap: u64,
}

/// The cumuls at the last of some more nodes that are visited in the opposite order, and that node: none where there are none.
#[inline(always)]
fn carry_back<C: Callback>(
    callback: &C,
    lane: &Lane,
    range: Range,
    from: u32,
    nodes: &[u32],
) -> Option<(Range, u32)>
    requires laws { Laws }
    requires lane { IsLane lane.now }
    requires sized { Knows (C.table callback.now) lane.now }
    requires filled { range.lo ≤ range.hi }
    requires small { range.hi ≤ LARGEST_CUMUL }
    requires from { from < length lane.now.dimension.now.ranges }
    requires known { All (λ node. node < length lane.now.dimension.now.ranges) nodes.now }
    ensures span { (done : List ℕ) → IsSpan (Some range) (Gets (C.table callback.now) lane.now done)
        → from ≡ last_of 0 done
        → MatchOption result (IsSpan None (Gets (C.table callback.now) lane.now (done ++ reverse nodes.now)))
        (λ r. IsSpan (Some r.0) (Gets (C.table callback.now) lane.now (done ++ reverse nodes.now))
        × (r.1 ≡ last_of 0 (done ++ reverse nodes.now))) }
    ensures filled { IfSome result (λ r. r.0.lo ≤ r.0.hi) }
    ensures small { IfSome result (λ r. r.0.hi ≤ LARGEST_CUMUL) }
    ensures known { IfSome result (λ r. r.1 < length lane.now.dimension.now.ranges) }
{
    let ranges = lane.ranges;
    let slack_max = lane.slack_max;
    let cap = lane.cap;
    let mut range = range;
    let mut from = from;
    for k in 0..nodes.len() {
        let node = nodes[nodes.len() - 1 - k];
        let way = callback.answer_way(from, node);
        range = range_after(range, way, ranges[node as usize], slack_max, cap)?;
        from = node;
    }
    Some((range, from))
}

/// The cumuls at the last of some more nodes, and that node: none where there are none.
#[inline(always)]
fn carry_on<C: Callback>(
    callback: &C,
    lane: &Lane,
    range: Range,
    from: u32,
    nodes: &[u32],
) -> Option<(Range, u32)>
    requires laws { Laws }
    requires lane { IsLane lane.now }
    requires sized { Knows (C.table callback.now) lane.now }
    requires filled { range.lo ≤ range.hi }
    requires small { range.hi ≤ LARGEST_CUMUL }
    requires from { from < length lane.now.dimension.now.ranges }
    requires known { All (λ node. node < length lane.now.dimension.now.ranges) nodes.now }
    ensures span { (done : List ℕ) → IsSpan (Some range) (Gets (C.table callback.now) lane.now done)
        → from ≡ last_of 0 done
        → MatchOption result (IsSpan None (Gets (C.table callback.now) lane.now (done ++ nodes.now)))
        (λ r. IsSpan (Some r.0) (Gets (C.table callback.now) lane.now (done ++ nodes.now))
        × (r.1 ≡ last_of 0 (done ++ nodes.now))) }
    ensures filled { IfSome result (λ r. r.0.lo ≤ r.0.hi) }
    ensures small { IfSome result (λ r. r.0.hi ≤ LARGEST_CUMUL) }
    ensures known { IfSome result (λ r. r.1 < length lane.now.dimension.now.ranges) }
{
    let ranges = lane.ranges;
    let slack_max = lane.slack_max;
    let cap = lane.cap;
    let mut range = range;
    let mut from = from;
    for node in nodes {
        let way = callback.answer_way(from, *node);
        range = range_after(range, way, ranges[*node as usize], slack_max, cap)?;
        from = *node;
    }
    Some((range, from))
}

/// The cumuls at the last of some more nodes, as they stand or driven back, and that node: none where there are none.
#[inline(always)]
fn carry_way<C: Callback>(
    callback: &C,
    lane: &Lane,
    range: Range,
    from: u32,
    turned: bool,
    nodes: &[u32],
) -> Option<(Range, u32)>
    requires laws { Laws }
    requires lane { IsLane lane.now }
    requires sized { Knows (C.table callback.now) lane.now }
    requires filled { range.lo ≤ range.hi }
    requires small { range.hi ≤ LARGEST_CUMUL }
    requires from { from < length lane.now.dimension.now.ranges }
    requires known { All (λ node. node < length lane.now.dimension.now.ranges) nodes.now }
    ensures span { (done : List ℕ) → IsSpan (Some range) (Gets (C.table callback.now) lane.now done)
        → from ≡ last_of 0 done
        → MatchOption result (IsSpan None (Gets (C.table callback.now) lane.now (done ++ way_of turned nodes.now)))
        (λ r. IsSpan (Some r.0) (Gets (C.table callback.now) lane.now (done ++ way_of turned nodes.now))
        × (r.1 ≡ last_of 0 (done ++ way_of turned nodes.now))) }
    ensures filled { IfSome result (λ r. r.0.lo ≤ r.0.hi) }
    ensures small { IfSome result (λ r. r.0.hi ≤ LARGEST_CUMUL) }
    ensures known { IfSome result (λ r. r.1 < length lane.now.dimension.now.ranges) }
{
    if turned {
        carry_back(callback, lane, range, from, nodes)
    } else {
        carry_on(callback, lane, range, from, nodes)
    }
}

/// The last of some customers, or the depot where there are none.
fn last_stop(front: &[u32]) -> u32
    ensures { result ≡ last_of 0 front.now }
{
    if front.is_empty() {
        0
    } else {
        front[front.len() - 1]
    }
}

/// The first of some customers, or the depot where there are none.
fn next_stop(back: &[u32]) -> u32
    ensures { (rest : List ℕ) × (back.now ++ 0 ∷ [] ≡ result ∷ rest) }
{
    if back.is_empty() { 0 } else { back[0] }
}

/// The cumuls at a stop after those at another one: none where there are none.
#[inline(always)]
fn step_to<C: Callback>(
    callback: &C,
    lane: &Lane,
    range: Range,
    from: u32,
    next: u32,
) -> Option<Range>
    requires laws { Laws }
    requires lane { IsLane lane.now }
    requires sized { Knows (C.table callback.now) lane.now }
    requires filled { range.lo ≤ range.hi }
    requires small { range.hi ≤ LARGEST_CUMUL }
    requires from { from < length lane.now.dimension.now.ranges }
    requires next { next < length lane.now.dimension.now.ranges }
    ensures { (route : List ℕ) → IsSpan (Some range) (Gets (C.table callback.now) lane.now route) → from ≡ last_of 0 route
        → IsSpan result (Gets (C.table callback.now) lane.now (route ++ next ∷ [])) }
{
    let ranges = lane.ranges;
    let slack_max = lane.slack_max;
    let cap = lane.cap;
    let way = callback.answer_way(from, next);
    range_after(range, way, ranges[next as usize], slack_max, cap)
}

/// The cumuls at the last customer of a new route before its last part, and that customer, by those at the last one of its first part: none
/// where there are none.
#[inline(always)]
fn carry_middle<C: Callback>(
    callback: &C,
    lane: &Lane,
    range: Range,
    from: u32,
    parts: &Parts,
) -> Option<(Range, u32)>
    requires laws { Laws }
    requires lane { IsLane lane.now }
    requires sized { Knows (C.table callback.now) lane.now }
    requires here { IsSpan (Some range) (Gets (C.table callback.now) lane.now parts.now.front.now) }
    requires last { from ≡ last_of 0 parts.now.front.now }
    requires small { range.hi ≤ LARGEST_CUMUL }
    requires from { from < length lane.now.dimension.now.ranges }
    requires known { All (λ node. node < length lane.now.dimension.now.ranges) (middle_of parts.now) }
    ensures span { MatchOption result (IsSpan None (Gets (C.table callback.now) lane.now (begun_of parts.now)))
        (λ r. IsSpan (Some r.0) (Gets (C.table callback.now) lane.now (begun_of parts.now)) × (r.1 ≡ last_of 0 (begun_of parts.now))) }
    ensures filled { IfSome result (λ r. r.0.lo ≤ r.0.hi) }
    ensures small { IfSome result (λ r. r.0.hi ≤ LARGEST_CUMUL) }
    ensures known { IfSome result (λ r. r.1 < length lane.now.dimension.now.ranges) }
{
    let Some((range, from)) = carry_way(callback, lane, range, from, parts.turned, parts.first)
    else {
        return None;
    };
    let Some((range, from)) = carry_on(callback, lane, range, from, parts.second) else {
        return None;
    };
    carry_on(callback, lane, range, from, parts.third)
}

/// Whether two ranges have a number in common.
fn overlap(here: Range, there: Range) -> bool
    ensures { IsTrue result ↔ (max here.lo there.lo ≤ min here.hi there.hi) }
{
    here.lo.max(there.lo) <= here.hi.min(there.hi)
}

/// Whether a new route has no customer.
fn is_nothing(parts: &Parts) -> bool
    ensures { result ≡ (length (route_of parts.now) == 0) }
{
    if !parts.front.is_empty() {
        return false;
    }
    if !parts.first.is_empty() {
        return false;
    }
    if !parts.second.is_empty() {
        return false;
    }
    if !parts.third.is_empty() {
        return false;
    }
    parts.back.is_empty()
}

/// Whether a new route is in bounds in a dimension, by the cumuls that are kept after its first part and before its last one for the
/// dimension at a place.
#[inline(always)]
fn meets<C: Callback>(callback: &C, lane: &Lane, parts: &Parts, k: usize) -> bool
    requires laws { Laws }
    requires lane { IsLane lane.now }
    requires sized { Knows (C.table callback.now) lane.now }
    requires ends { HasEnds (C.table callback.now) lane.now.dimension.now lane.now.vehicle parts.now k }
    requires some { 0 < length (route_of parts.now) }
    requires known { All (λ node. node < length lane.now.dimension.now.ranges) (route_of parts.now) }
    ensures { IsTrue result ↔ IsInBounds (C.table callback.now) lane.now.dimension.now lane.now.vehicle (route_of parts.now) }
{
    let _nodes = lane.dimension.nodes();
    lane.dimension.spans_are_small();
    let Some(here) = parts.ahead.at(k, parts.front.len()) else {
        return false;
    };
    let Some(there) = parts.behind.at(k, parts.back.len()) else {
        return false;
    };
    let from = last_stop(parts.front);
    let Some((range, from)) = carry_middle(callback, lane, here, from, parts) else {
        return false;
    };
    let next = next_stop(parts.back);
    let Some(arrived) = step_to(callback, lane, range, from, next) else {
        return false;
    };
    overlap(arrived, there)
}

/// Whether a new route is in bounds in a dimension, by its whole way.
#[inline(always)]
fn comes_home<C: Callback>(callback: &C, lane: &Lane, parts: &Parts) -> bool
    requires laws { Laws }
    requires lane { IsLane lane.now }
    requires sized { Knows (C.table callback.now) lane.now }
    requires some { 0 < length (route_of parts.now) }
    requires known { All (λ node. node < length lane.now.dimension.now.ranges) (route_of parts.now) }
    ensures { IsTrue result ↔ IsInBounds (C.table callback.now) lane.now.dimension.now lane.now.vehicle (route_of parts.now) }
{
    let Some(here) = lane.dimension.start(lane.vehicle) else {
        return false;
    };
    let Some((range, from)) = carry_on(callback, lane, here, 0, parts.front) else {
        return false;
    };
    let Some((range, from)) = carry_middle(callback, lane, range, from, parts) else {
        return false;
    };
    let Some((range, from)) = carry_on(callback, lane, range, from, parts.back) else {
        return false;
    };
    let home = step_to(callback, lane, range, from, 0);
    home.is_some()
}

/// Whether a new route is in bounds in a dimension, with the callback of the dimension at hand: by the cumuls that are kept for the
/// dimension at a place, or, where `kept` is false, by its whole way.
fn fits_by<C: Callback>(
    callback: &C,
    dimension: &Dimension,
    vehicle: u32,
    parts: &Parts,
    k: usize,
    kept: bool,
) -> bool
    requires laws { Laws }
    requires sized { (C.table callback.now).size ≡ length dimension.now.ranges }
    requires ends { IsTrue kept → HasEnds (C.table callback.now) dimension.now vehicle parts.now k }
    requires some { 0 < length (route_of parts.now) }
    requires known { All (λ node. node < length dimension.now.ranges) (route_of parts.now) }
    requires low { 1 ≤ vehicle }
    requires high { vehicle ≤ length dimension.now.caps }
    ensures { IsTrue result ↔ IsInBounds (C.table callback.now) dimension.now vehicle (route_of parts.now) }
{
    let ranges = dimension.ranges();
    let slack_max = dimension.slack_max();
    let cap = dimension.cap(vehicle);
    let lane = Lane {
        dimension,
        vehicle,
        ranges,
        slack_max,
        cap,
    };
    if kept {
        meets(callback, &lane, parts, k)
    } else {
        comes_home(callback, &lane, parts)
    }
}

/// The same. What kind of callback the dimension has is looked at once.
#[inline(always)]
fn fits_in(
    dimension: &Dimension,
    registry: &Registry,
    vehicle: u32,
    parts: &Parts,
    k: usize,
    kept: bool,
) -> bool
    requires laws { Laws }
    requires served { IsServed (tables registry.now) dimension.now }
    requires ends { IsTrue kept → HasEnds (table_of (tables registry.now) dimension.now) dimension.now vehicle parts.now k }
    requires some { 0 < length (route_of parts.now) }
    requires known { All (λ node. node < length dimension.now.ranges) (route_of parts.now) }
    requires low { 1 ≤ vehicle }
    requires high { vehicle ≤ length dimension.now.caps }
    ensures { IsTrue result ↔ IsInBounds (table_of (tables registry.now) dimension.now) dimension.now vehicle (route_of parts.now) }
{
    match registry.callback(dimension.id()) {
        Slot::Pair(callback) => fits_by(callback, dimension, vehicle, parts, k, kept),
        Slot::Node(callback) => fits_by(callback, dimension, vehicle, parts, k, kept),
        Slot::Listed(callback) => fits_by(callback, dimension, vehicle, parts, k, kept),
        Slot::Values(callback) => fits_by(callback, dimension, vehicle, parts, k, kept),
        Slot::Stayed(callback) => fits_by(callback, dimension, vehicle, parts, k, kept),
    }
}

/// Whether a new route with a customer is in bounds in each dimension: by the cumuls after its first part and those before its last one
/// where they are kept, and else by its whole way.
fn all_fit(setup: &Setup, vehicle: u32, parts: &Parts) -> bool
    requires laws { Laws }
    requires known { All (λ c. c ≤ (setting setup.now).customers) (route_of parts.now) }
    requires low { 1 ≤ vehicle }
    requires high { vehicle ≤ (setting setup.now).vehicles }
    requires some { 0 < length (route_of parts.now) }
    requires ahead { 0 < parts.now.ahead.now.width → HasAhead (setting setup.now) vehicle parts.now.front.now parts.now.ahead.now }
    requires behind { 0 < parts.now.behind.now.width → HasBehind (setting setup.now) vehicle parts.now.back.now parts.now.behind.now }
    ensures { IsTrue result ↔ FitsAll (setting setup.now) vehicle (route_of parts.now) }
{
    let kept = parts.ahead.are_kept() && parts.behind.are_kept();
    for (k, dimension) in setup.dimensions().iter().enumerate() {
        if !fits_in(dimension, setup.registry(), vehicle, parts, k, kept) {
            return false;
        }
    }
    true
}

/// Whether a new route is in bounds in each dimension.
#[inline(always)]
pub(crate) fn fits(setup: &Setup, vehicle: u32, parts: &Parts) -> bool
    requires laws { Laws }
    requires known { All (λ c. c ≤ (setting setup.now).customers) (route_of parts.now) }
    requires low { 1 ≤ vehicle }
    requires high { vehicle ≤ (setting setup.now).vehicles }
    requires ahead { 0 < parts.now.ahead.now.width → HasAhead (setting setup.now) vehicle parts.now.front.now parts.now.ahead.now }
    requires behind { 0 < parts.now.behind.now.width → HasBehind (setting setup.now) vehicle parts.now.back.now parts.now.behind.now }
    ensures { IsTrue result ↔ FitsAll (setting setup.now) vehicle (route_of parts.now) }
{
    if is_nothing(parts) {
        return true;
    }
    all_fit(setup, vehicle, parts)
}
