//! A walk along a route in one dimension, from a kept range on.
ghost use Rattle.std.specs.Prelude.{◌≡◌, ℕ, ◌+◌, ◌-◌, ◌<◌, ◌≤◌, ◌↔◌, ◌++◌, [], List, length, take, None, All, IfSome, IsTrue, false, MatchOption, vec_len, vec_capacity};
ghost use Rattle.callback_store.specs.Meter.{AsksJust, AsksAtMost};
ghost use Rattle.dimension_core.specs.Cumuls.{last_of, table_of};
ghost use Rattle.dimension_core.specs.Feasible.{FitsIn};
ghost use Rattle.dimension_core.specs.Misses.{IsFirstMissIn};
ghost use Rattle.dimension_core.specs.Setting.{dimension_at};
ghost use Rattle.dimension_core.specs.Setup.{setting};
ghost use Rattle.dimension_core.specs.Spans.{IsSpanOf};
ghost use Rattle.dimension_core.specs.declared.range.Range.{Range};
ghost use Rattle.range_cache.specs.Parts.{IsTrackAfter};
ghost use Rattle.range_cache.specs.Track.{IsSpanAt, IsTrack};

use callback_store::{Callback, Meter, Slot};
use dimension_core::{Range, Setup, misses_are_found, range_after, spans_go_on};
use limits::LARGEST_CUMUL;

/// A vehicle (from 1) in a dimension (from 0).
#[derive(Clone, Copy)]
pub(crate) struct Axis {
    pub(crate) dimension: usize,
    pub(crate) vehicle: u32,
}

/// The range from which a walk goes on, and its node: those of the last kept range, or those of the depot; none where no cumul is left
/// there.
fn begin(setup: &Setup, axis: Axis, route: &[u32], kept: &[Range]) -> Option<(Range, u32)>
    requires low { 1 ≤ axis.vehicle }
    requires high { axis.vehicle ≤ (setting setup.now).vehicles }
    requires dimension { axis.dimension < length (setting setup.now).dimensions }
    requires known { All (λ c. c ≤ (setting setup.now).customers) route.now }
    requires kept { IsTrack (setting setup.now) axis.dimension axis.vehicle route.now kept.now }
    ensures span { MatchOption result (IsSpanAt (setting setup.now) axis.dimension axis.vehicle [] None)
        (λ at. IsSpanOf (setting setup.now) axis.dimension axis.vehicle (take (length kept.now) route.now) at.0) }
    ensures node { IfSome result (λ at. at.1 ≡ last_of 0 (take (length kept.now) route.now)) }
    ensures known { IfSome result (λ at. at.1 ≤ (setting setup.now).customers) }
    ensures small { IfSome result (λ at. at.0.hi ≤ LARGEST_CUMUL) }
{
    spans_go_on();
    let Axis { dimension, vehicle } = axis;
    let bounds = &setup.dimensions()[dimension];
    bounds.spans_are_small();
    if kept.is_empty() {
        let start = bounds.start(vehicle)?;
        return Some((start, 0));
    }
    let last = kept.len() - 1;
    Some((kept[last], route[last]))
}

/// A route: its first customers, with the ranges that are kept along them, and the customers after those.
#[derive(Clone, Copy)]
pub(crate) struct Course<'a> {
    pub(crate) before: &'a [u32],
    pub(crate) after: &'a [u32],
    pub(crate) kept: &'a [Range],
}

/// Walks along a route that is not empty in one dimension, from the customer after the kept ranges to the return. True where the route is
/// in bounds; the range of each of the customers that it walked to then follows the others in the list, which has room for them.
///
/// It asks the callback once for each customer after the kept ranges and once for the return, up to the first stop at which no cumul is
/// left, and that one too. What kind of callback it is is looked at once.
pub(crate) fn walk(
    setup: &Setup,
    axis: Axis,
    course: &Course,
    ranges: &mut Vec<Range>,
    meter: &mut Meter,
) -> bool
    requires low { 1 ≤ axis.vehicle }
    requires high { axis.vehicle ≤ (setting setup.now).vehicles }
    requires dimension { axis.dimension < length (setting setup.now).dimensions }
    requires some { 0 < length (course.now.before.now ++ course.now.after.now) }
    requires known { All (λ c. c ≤ (setting setup.now).customers) (course.now.before.now ++ course.now.after.now) }
    requires each { length course.now.kept.now ≡ length course.now.before.now }
    requires kept { IsTrack (setting setup.now) axis.dimension axis.vehicle (course.now.before.now ++ course.now.after.now)
        course.now.kept.now }
    requires room { vec_len ranges.old + length course.now.after.now ≤ vec_capacity ranges.old }
    ensures bounds { IsTrue result
        ↔ FitsIn (setting setup.now) axis.dimension axis.vehicle (course.now.before.now ++ course.now.after.now) }
    ensures ranges { IsTrue result → (more : List Range) × (ranges.new.items ≡ ranges.old.items ++ more)
        × (length more ≡ length course.now.after.now)
        × IsTrackAfter (setting setup.now) axis.dimension axis.vehicle (length course.now.before.now)
        (course.now.before.now ++ course.now.after.now) more }
    ensures capacity { vec_capacity ranges.old ≤ vec_capacity ranges.new }
    ensures asks { AsksAtMost meter.old meter.new (length course.now.after.now + 1) }
    ensures whole { IsTrue result → AsksJust meter.old meter.new (length course.now.after.now + 1) }
    ensures missed { result ≡ false → (k : ℕ)
        × IsFirstMissIn (setting setup.now) axis.dimension axis.vehicle (course.now.before.now ++ course.now.after.now) k
        × AsksJust meter.old meter.new (k - length course.now.before.now) }
{
    let bounds = &setup.dimensions()[axis.dimension];
    match setup.registry().callback(bounds.id()) {
        Slot::Pair(callback) => walk_by(callback, setup, axis, course, ranges, meter),
        Slot::Node(callback) => walk_by(callback, setup, axis, course, ranges, meter),
        Slot::Listed(callback) => walk_by(callback, setup, axis, course, ranges, meter),
        Slot::Values(callback) => walk_by(callback, setup, axis, course, ranges, meter),
        Slot::Stayed(callback) => walk_by(callback, setup, axis, course, ranges, meter),
    }
}

/// The walk, with the callback of the dimension at hand.
fn walk_by<C: Callback>(
    callback: &C,
    setup: &Setup,
    axis: Axis,
    course: &Course,
    ranges: &mut Vec<Range>,
    meter: &mut Meter,
) -> bool
    requires answers { C.table callback.now
        ≡ table_of (setting setup.now).tables (dimension_at (setting setup.now) axis.dimension) }
    requires nodes { (C.table callback.now).size ≡ (setting setup.now).customers + 1 }
    requires low { 1 ≤ axis.vehicle }
    requires high { axis.vehicle ≤ (setting setup.now).vehicles }
    requires dimension { axis.dimension < length (setting setup.now).dimensions }
    requires some { 0 < length (course.now.before.now ++ course.now.after.now) }
    requires known { All (λ c. c ≤ (setting setup.now).customers) (course.now.before.now ++ course.now.after.now) }
    requires each { length course.now.kept.now ≡ length course.now.before.now }
    requires kept { IsTrack (setting setup.now) axis.dimension axis.vehicle (course.now.before.now ++ course.now.after.now)
        course.now.kept.now }
    requires room { vec_len ranges.old + length course.now.after.now ≤ vec_capacity ranges.old }
    ensures bounds { IsTrue result
        ↔ FitsIn (setting setup.now) axis.dimension axis.vehicle (course.now.before.now ++ course.now.after.now) }
    ensures ranges { IsTrue result → (more : List Range) × (ranges.new.items ≡ ranges.old.items ++ more)
        × (length more ≡ length course.now.after.now)
        × IsTrackAfter (setting setup.now) axis.dimension axis.vehicle (length course.now.before.now)
        (course.now.before.now ++ course.now.after.now) more }
    ensures capacity { vec_capacity ranges.old ≤ vec_capacity ranges.new }
    ensures asks { AsksAtMost meter.old meter.new (length course.now.after.now + 1) }
    ensures whole { IsTrue result → AsksJust meter.old meter.new (length course.now.after.now + 1) }
    ensures missed { result ≡ false → (k : ℕ)
        × IsFirstMissIn (setting setup.now) axis.dimension axis.vehicle (course.now.before.now ++ course.now.after.now) k
        × AsksJust meter.old meter.new (k - length course.now.before.now) }
{
    spans_go_on();
    misses_are_found();
    let Axis { dimension, vehicle } = axis;
    let Course {
        before,
        after,
        kept,
    } = *course;
    let Some((mut range, mut from)) = begin(setup, axis, before, kept) else {
        return false;
    };
    let bounds = &setup.dimensions()[dimension];
    let nodes = bounds.ranges();
    let slack_max = bounds.slack_max();
    let cap = bounds.cap(vehicle);
    for place in 0..after.len() {
        let node = after[place];
        let way = callback.answer_way(from, node);
        let Some(next) = range_after(range, way, nodes[node as usize], slack_max, cap) else {
            meter.ask_many((place + 1) as u64);
            return false;
        };
        ranges.push_reserved(next);
        range = next;
        from = node;
    }
    let back = callback.answer_way(from, 0);
    meter.ask_many((after.len() + 1) as u64);
    let end = range_after(range, back, nodes[0], slack_max, cap);
    end.is_some()
}
