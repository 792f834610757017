//! Drafts of new routes from parts of old ones, and lists of touches.
ghost use Rattle.std.specs.Prelude.{◌≡◌, ◌+◌, ◌<◌, ◌≤◌, ◌≢◌, [], ◌++◌, length, IfOk, OnOk};
ghost use Rattle.move_core.specs.Drafted.{AddsDraft};
ghost use Rattle.move_core.specs.Moves.{stretch, without, with_stretch, with_customer, customer_at, reversed_within, crossed};
ghost use Rattle.move_core.specs.Touched.{touches};

use plan_core::{Drafts, Touch};
use std::alloc::AllocError;

/// Adds the draft of a route with some customers inserted, the first of them at `place`.
#[inline(always)]
pub(crate) fn with_stretch(
    drafts: &mut Drafts,
    vehicle: u32,
    route: &[u32],
    place: u32,
    customers: &[u32],
) -> Result<(), AllocError>
    requires low { 1 ≤ place }
    requires high { place ≤ length route.now + 1 }
    ensures { OnOk result (AddsDraft vehicle route.now (with_stretch route.now place customers.now) drafts.old drafts.new) }
{
    let kept = place - 1;
    drafts.add(vehicle, kept, customers, &route[kept as usize..], &[], &[])
}

/// Adds the draft of a route without `count` customers from `place` on.
#[inline(always)]
pub(crate) fn without(
    drafts: &mut Drafts,
    vehicle: u32,
    route: &[u32],
    place: u32,
    count: u32,
) -> Result<(), AllocError>
    requires low { 1 ≤ place }
    requires high { place + count ≤ length route.now + 1 }
    ensures { OnOk result (AddsDraft vehicle route.now (without route.now place count) drafts.old drafts.new) }
{
    let kept = place - 1;
    let back = &route[kept as usize + count as usize..];
    drafts.add(vehicle, kept, back, &[], &[], &[])
}

/// `count` customers of a route, from `place` on.
pub(crate) fn stretch(route: &[u32], place: u32, count: u32) -> &[u32]
    requires low { 1 ≤ place }
    requires high { place + count ≤ length route.now + 1 }
    ensures value { result.now ≡ stretch route.now place count }
    ensures len { length result.now ≡ count }
{
    let first = place as usize - 1;
    &route[first..first + count as usize]
}

/// Adds the draft of a route with `count` customers from `place` on taken out and put in again, the first of them at `at`.
#[inline(always)]
pub(crate) fn moved_within(
    drafts: &mut Drafts,
    vehicle: u32,
    route: &[u32],
    place: u32,
    count: u32,
    at: u32,
) -> Result<(), AllocError>
    requires low { 1 ≤ place }
    requires high { place + count ≤ length route.now + 1 }
    requires at_low { 1 ≤ at }
    requires at_high { at + count ≤ length route.now + 1 }
    ensures { OnOk result (AddsDraft vehicle route.now
        (with_stretch (without route.now place count) at (stretch route.now place count)) drafts.old drafts.new) }
{
    let first = place as usize - 1;
    let end = first + count as usize;
    let to = at as usize - 1;
    let moved = &route[first..end];
    if to <= first {
        return drafts.add(
            vehicle,
            at - 1,
            moved,
            &route[to..first],
            &route[end..],
            &[],
        );
    }
    let reach = to + count as usize;
    drafts.add(
        vehicle,
        place - 1,
        &route[end..reach],
        moved,
        &route[reach..],
        &[],
    )
}

/// Adds the draft of a route with another customer at `place`.
#[inline(always)]
pub(crate) fn with_customer(
    drafts: &mut Drafts,
    vehicle: u32,
    route: &[u32],
    place: u32,
    customer: u32,
) -> Result<(), AllocError>
    requires low { 1 ≤ place }
    requires high { place ≤ length route.now }
    ensures { OnOk result (AddsDraft vehicle route.now (with_customer route.now place customer) drafts.old drafts.new) }
{
    drafts.add(
        vehicle,
        place - 1,
        &[customer],
        &route[place as usize..],
        &[],
        &[],
    )
}

/// Adds the draft of a route with two of its customers exchanged, those at two different places.
#[inline(always)]
pub(crate) fn swapped_within(
    drafts: &mut Drafts,
    vehicle: u32,
    route: &[u32],
    place: u32,
    at: u32,
) -> Result<(), AllocError>
    requires low { 1 ≤ place }
    requires high { place ≤ length route.now }
    requires at_low { 1 ≤ at }
    requires at_high { at ≤ length route.now }
    requires apart { place ≢ at }
    ensures { OnOk result (AddsDraft vehicle route.now
        (with_customer (with_customer route.now place (customer_at route.now at)) at (customer_at route.now place))
        drafts.old drafts.new) }
{
    if place < at {
        return exchanged(drafts, vehicle, route, place, at);
    }
    exchanged(drafts, vehicle, route, at, place)
}

/// The same of a place and a later one.
fn exchanged(
    drafts: &mut Drafts,
    vehicle: u32,
    route: &[u32],
    place: u32,
    at: u32,
) -> Result<(), AllocError>
    requires low { 1 ≤ place }
    requires order { place < at }
    requires high { at ≤ length route.now }
    ensures { OnOk result (AddsDraft vehicle route.now
        (with_customer (with_customer route.now place (customer_at route.now at)) at (customer_at route.now place))
        drafts.old drafts.new) }
{
    let first = place as usize - 1;
    let last = at as usize - 1;
    drafts.add(
        vehicle,
        place - 1,
        &[route[last]],
        &route[first + 1..last],
        &[route[first]],
        &route[last + 1..],
    )
}

/// Adds the draft of a route with the customers from `first` to `last` in the opposite order.
#[inline(always)]
pub(crate) fn reversed_within(
    drafts: &mut Drafts,
    vehicle: u32,
    route: &[u32],
    first: u32,
    last: u32,
) -> Result<(), AllocError>
    requires low { 1 ≤ first }
    requires order { first ≤ last }
    requires high { last ≤ length route.now }
    ensures { OnOk result (AddsDraft vehicle route.now (reversed_within route.now first last) drafts.old drafts.new) }
{
    let kept = first - 1;
    let end = last as usize;
    drafts.add_turned(vehicle, kept, &route[kept as usize..end], &route[end..])
}

/// Adds the draft of the first `keep` customers of a route, and then those of another after its first `keep_other`.
#[inline(always)]
pub(crate) fn crossed(
    drafts: &mut Drafts,
    vehicle: u32,
    route: &[u32],
    keep: u32,
    other: &[u32],
    keep_other: u32,
) -> Result<(), AllocError>
    requires keep { keep ≤ length route.now }
    requires keep_other { keep_other ≤ length other.now }
    ensures { OnOk result (AddsDraft vehicle route.now (crossed route.now keep other.now keep_other) drafts.old drafts.new) }
{
    drafts.add(vehicle, keep, &other[keep_other as usize..], &[], &[], &[])
}

/// An empty list of touches in the memory of another one, with room for `count`.
pub(crate) fn emptied(room: Vec<Touch>, count: usize) -> Result<Vec<Touch>, AllocError>
    ensures { IfOk result (λ touched. touched.items ≡ []) }
{
    let mut touched = room;
    touched.clear();
    touched.reserve(count)?;
    Ok(touched)
}

/// Appends customers that stand on a vehicle one after the other, the first of them at `place`.
#[inline(always)]
pub(crate) fn push_touches(
    touched: &mut Vec<Touch>,
    vehicle: u32,
    place: u32,
    customers: &[u32],
) -> Result<(), AllocError>
    requires { place + length customers.now < 4294967296 }
    ensures { OnOk result (touched.new.items ≡ touched.old.items ++ touches vehicle place customers.now) }
{
    let mut next = place;
    for customer in customers {
        touched.push(Touch {
            vehicle,
            place: next,
            customer: *customer,
        })?;
        next += 1;
    }
    Ok(())
}
