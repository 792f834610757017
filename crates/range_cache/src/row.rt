//! The ranges along the route of one vehicle.
ghost use Rattle.std.specs.Prelude.{◌≡◌, ℕ, ◌+◌, ◌*◌, ◌<◌, ◌≤◌, ◌++◌, [], length, take, drop, All, IfErr, OnOk, vec_capacity};
ghost use Rattle.callback_store.specs.Meter.{Asks, AsksJust, AsksAtMost};
ghost use Rattle.dimension_core.specs.Feasible.{FitsAll, IsFirstOut};
ghost use Rattle.dimension_core.specs.Setup.{setting};
ghost use Rattle.range_cache.specs.Asks.{walk_asks};
ghost use Rattle.range_cache.specs.Cache.{range_at};
ghost use Rattle.range_cache.specs.Parts.{HasFront, IsTailOf, IsJoin};
ghost use Rattle.range_cache.specs.Row.{IsRowFault, AsksToRowFault, row_asks};

use crate::fault::JudgeFault;
use crate::walk::{Axis, Course, walk};
use callback_store::Meter;
use dimension_core::{Range, Setup};
use limits::MOST_CUSTOMERS;
use plan_core::append_part;
use std::alloc::{AllocError, Global};
use std::marker::Model;

/// For each dimension in order a range for each customer of a route, or of a part of it, in order.
///
/// That of a whole route has room for at most four times as many ranges, and 35 more.
#[derive(Drop)]
pub(crate) struct Row {
    stops: u32,
    ranges: Vec<Range>,
}

impl Model for Row {
    ghost use Rattle.range_cache.specs.Cache.{RowState};

    ghost Value = { RowState };

    ghost view = { λ a. record { stops = a.stops; ranges = a.ranges.items } };
}

impl Row {
    /// The row of an empty route. It takes no memory.
    pub(crate) fn empty(alloc: Global) -> Row
        ensures { result ≡ record { stops = 0; ranges = [] } }
    {
        Row {
            stops: 0,
            ranges: Vec::new(alloc),
        }
    }

    /// The first `front` ranges of a dimension, which counts from 0.
    fn front(&self, dimension: usize, front: usize) -> &[Range]
        requires { dimension * self.now.stops + front ≤ length self.now.ranges }
        ensures { result.now ≡ take front (drop (dimension * self.now.stops) self.now.ranges) }
    {
        let begin = dimension * self.stops as usize;
        &self.ranges[begin..begin + front]
    }

    /// The least cumul of a dimension at a place; both count from 0.
    pub(crate) fn early(&self, dimension: usize, place: usize) -> u64
        requires { dimension * self.now.stops + place < length self.now.ranges }
        ensures { result ≡ (range_at self.now dimension place).lo }
    {
        self.ranges[dimension * self.stops as usize + place].lo
    }

    /// Walks a route of the vehicle whose first customers are `before`, with their ranges at the front of this row, and whose others are
    /// `after`; the fresh row gets the ranges of these. Each dimension is walked from the customer after `before` on. It stops at the
    /// first dimension in which the route is out of bounds.
    ///
    /// It asks the callback of each dimension once for each customer of `after` and once for the return, and not at all where the route is
    /// empty. Where the route is out of bounds it asks up to the first stop at which no cumul is left, in the first such dimension. Out of
    /// line, so that its loops have the registers to themselves.
    #[inline(never)]
    pub(crate) fn walk_on(
        &self,
        fresh: &mut Row,
        setup: &Setup,
        vehicle: u32,
        before: &[u32],
        after: &[u32],
        meter: &mut Meter,
    ) -> Result<(), JudgeFault>
        requires low { 1 ≤ vehicle }
        requires high { vehicle ≤ (setting setup.now).vehicles }
        requires known { All (λ c. c ≤ (setting setup.now).customers) (before.now ++ after.now) }
        requires short { length (before.now ++ after.now) ≤ MOST_CUSTOMERS }
        requires front { HasFront (setting setup.now) vehicle (length before.now) (before.now ++ after.now) self.now }
        ensures fits { OnOk result (FitsAll (setting setup.now) vehicle (before.now ++ after.now)) }
        ensures tail { OnOk result (IsTailOf (setting setup.now) vehicle (length before.now) (before.now ++ after.now) fresh.new) }
        ensures fault { IfErr result (IsRowFault (setting setup.now) vehicle (before.now ++ after.now)) }
        ensures asks { AsksAtMost meter.old meter.new
            (length (setting setup.now).dimensions * walk_asks before.now (before.now ++ after.now)) }
        ensures whole { OnOk result (AsksJust meter.old meter.new
            (length (setting setup.now).dimensions * walk_asks before.now (before.now ++ after.now))) }
        ensures least { IfErr result (λ f. Asks meter.old meter.new (row_asks (walk_asks before.now (before.now ++ after.now)) f)
            (length (setting setup.now).dimensions * walk_asks before.now (before.now ++ after.now))) }
        ensures missed { IfErr result
            (AsksToRowFault (setting setup.now) before.now vehicle (before.now ++ after.now) meter.old meter.new) }
    {
        let count = setup.dimensions().len();
        let stops = before.len() + after.len();
        fresh.stops = after.len() as u32;
        clear_for(&mut fresh.ranges, count * after.len())?;
        if stops == 0 {
            return Ok(());
        }
        for dimension in 0..count {
            let kept = self.front(dimension, before.len());
            let axis = Axis { dimension, vehicle };
            let course = Course {
                before,
                after,
                kept,
            };
            if !walk(setup, axis, &course, &mut fresh.ranges, meter) {
                return Err(JudgeFault::Bound(vehicle, dimension as u32 + 1));
            }
        }
        Ok(())
    }

    /// Makes a row of the first `front` ranges of this row in each dimension, each time followed by those of a fresh row. Out of line, as the
    /// walk is.
    #[inline(never)]
    pub(crate) fn join(
        &self,
        row: &mut Row,
        setup: &Setup,
        front: usize,
        fresh: &Row,
    ) -> Result<(), AllocError>
        requires within { front ≤ self.now.stops }
        requires short { front + fresh.now.stops ≤ MOST_CUSTOMERS }
        requires sized { length self.now.ranges ≡ length (setting setup.now).dimensions * self.now.stops }
        requires fresh { length fresh.now.ranges ≡ length (setting setup.now).dimensions * fresh.now.stops }
        ensures { OnOk result (IsJoin (length (setting setup.now).dimensions) front self.now fresh.now row.new) }
    {
        let dimensions = setup.dimensions().len();
        let rest = fresh.stops as usize;
        row.stops = (front + rest) as u32;
        make_room(&mut row.ranges, dimensions * (front + rest))?;
        for dimension in 0..dimensions {
            append_part(&mut row.ranges, self.front(dimension, front))?;
            append_part(&mut row.ranges, fresh.front(dimension, rest))?;
        }
        Ok(())
    }
}

/// Room for ranges is made in steps of this many, so that a row has room for the next few changes of its route.
const STEP: usize = 8;

/// Empties a list and makes room in it for `count` ranges. Memory that is too small is replaced.
#[inline(always)]
fn clear_for(ranges: &mut Vec<Range>, count: usize) -> Result<(), AllocError>
    requires { count ≤ 1000000 }
    ensures items { OnOk result (ranges.new.items ≡ []) }
    ensures room { OnOk result (count ≤ vec_capacity ranges.new) }
{
    if ranges.capacity() < count {
        *ranges = Vec::with_capacity(*ranges.allocator(), count.div_ceil(STEP) * STEP)?;
    }
    ranges.clear();
    Ok(())
}

/// As `clear_for`, but memory that is more than four times too large is replaced too.
#[inline(always)]
fn make_room(ranges: &mut Vec<Range>, count: usize) -> Result<(), AllocError>
    requires { count ≤ 1000000 }
    ensures items { OnOk result (ranges.new.items ≡ []) }
    ensures room { OnOk result (count ≤ vec_capacity ranges.new) }
{
    if ranges.capacity() / 4 > count + STEP {
        *ranges = Vec::new(*ranges.allocator());
    }
    clear_for(ranges, count)
}
