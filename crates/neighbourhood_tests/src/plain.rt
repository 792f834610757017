//! A plain search for the best move, which the search proper is compared with: each move is built, and the whole plan after it is judged.
ghost use Rattle.std.specs.Prelude.{◌≡◌, ◌≤◌, length, take, All, IsTrue};
ghost use Rattle.dimension_core.specs.Feasible.{FitsAll};
ghost use Rattle.dimension_core.specs.Setup.{setting};

use callback_store::Meter;
use dimension_core::{Setup, first_out};
use limits::MOST_CUSTOMERS;
use move_core::Move;
use pin_core::View;
use plan_core::{Plan, Route, route_cost};
use std::process::Abort;
use std::sync::Arc;

/// Whether a route has customers up to a number alone, and not too many.
fn is_known(customers: u32, route: &[u32]) -> bool
    ensures { IsTrue result → All (λ c. c ≤ customers) route.now × (length route.now ≤ MOST_CUSTOMERS) }
{
    if route.len() > 1000 {
        return false;
    }
    for customer in route {
        if *customer > customers {
            return false;
        }
    }
    true
}

/// Whether a vehicle's route is in bounds in each dimension.
pub(crate) fn is_fit(setup: &Setup, vehicle: u32, route: &[u32], meter: &mut Meter) -> bool
    ensures { IsTrue result → FitsAll (setting setup.now) vehicle route.now }
{
    if vehicle == 0 || vehicle > setup.vehicles() {
        return false;
    }
    if !is_known(setup.customers(), route) {
        return false;
    }
    match first_out(setup, vehicle, route, meter) {
        None => true,
        Some(_) => false,
    }
}

/// Whether a vehicle's new route begins with the frozen front of its old one.
fn is_front_kept(view: &View, vehicle: u32, old: &[u32], new: &[u32]) -> bool {
    if vehicle == 0 || vehicle as usize > view.frozen.len() {
        return false;
    }
    let frozen = view.front(vehicle) as usize;
    frozen <= old.len() && new.starts_with(&old[..frozen])
}

/// Whether each customer that is pinned to a vehicle is on its route.
fn are_pins_held(view: &View, vehicle: u32, route: &[u32]) -> bool {
    let mut customer = 0u32;
    for pin in &view.pinned {
        customer = customer.wrapping_add(1);
        if *pin == Some(vehicle) && !route.contains(&customer) {
            return false;
        }
    }
    true
}

/// What a vehicle's new route costs, where it may have it.
fn cost_of_new(
    setup: &Setup,
    view: &View,
    vehicle: u32,
    old: &[u32],
    new: &[u32],
    meter: &mut Meter,
) -> Option<u64> {
    let may = is_front_kept(view, vehicle, old, new) && are_pins_held(view, vehicle, new);
    if !may || !is_fit(setup, vehicle, new, meter) || !is_known(setup.customers(), new) {
        return None;
    }
    Some(route_cost(setup, new, meter))
}

/// The new route of a vehicle, if it has one.
fn new_route(changes: &[(u32, Arc<Route>)], vehicle: u32) -> Option<&Arc<Route>> {
    for (named, route) in changes {
        if *named == vehicle {
            return Some(route);
        }
    }
    None
}

/// What the whole plan costs after some new routes, where each vehicle may have its own.
fn cost_after(
    setup: &Setup,
    plan: &Plan,
    view: &View,
    changes: &[(u32, Arc<Route>)],
) -> Option<u64> {
    let mut meter = Meter::new();
    let mut sum = 0u64;
    for before in 0..plan.vehicles() {
        let vehicle = before + 1;
        let old = plan.route(vehicle).customers();
        let new = match new_route(changes, vehicle) {
            None => old,
            Some(route) => route.customers(),
        };
        let cost = cost_of_new(setup, view, vehicle, old, new, &mut meter)?;
        sum = sum.saturating_add(cost);
    }
    Some(sum)
}

/// What the whole plan costs after a move, where it has an effect, is not to be skipped and is allowed.
fn cost_by<R: Abort + AllocGlobal>(
    rt: &R,
    setup: &Setup,
    plan: &Plan,
    view: &View,
    skip: &[Move],
    mv: Move,
) -> Option<u64> {
    if skip.contains(&mv) || !mv.is_possible(plan) {
        return None;
    }
    let changes = mv.routes(rt.alloc(), plan).expect(rt, "memory");
    cost_after(setup, plan, view, &changes)
}

/// The moves of a kind near two vehicles, or near one, but those to be skipped.
#[derive(Clone, Copy)]
struct Kind<'a> {
    kind: u32,
    v: u32,
    w: u32,
    skip: &'a [Move],
}

/// The move of a kind with three numbers of its own. Only a shift has the second one, 1 to 3.
fn move_of(kind: Kind, first: u32, length: u32, second: u32) -> Option<Move> {
    let Kind { kind, v, w, .. } = kind;
    match kind {
        1 if 1 <= length && length <= 3 => Some(Move::Shift {
            vehicle: v,
            place: first,
            length,
            to: w,
            at: second,
        }),
        2 if length == 0 && (v != w || first < second) => Some(Move::Swap {
            vehicle: v,
            place: first,
            other: w,
            at: second,
        }),
        3 if length == 0 && v == w => Some(Move::Reverse {
            vehicle: v,
            first,
            last: second,
        }),
        4 if length == 0 && v != w => Some(Move::Cross {
            vehicle: v,
            keep: first,
            other: w,
            keep_other: second,
        }),
        _ => None,
    }
}

/// The better of the best so far and the moves of a kind, in the order of ties; with each what the plan costs after it.
fn best_of_kind<R: Abort + AllocGlobal>(
    rt: &R,
    setup: &Setup,
    plan: &Plan,
    view: &View,
    kind: Kind,
    best: (Option<Move>, u64),
) -> (Option<Move>, u64) {
    let (mut found, mut least) = best;
    let end = plan.customers() + 3;
    for first in 0..end {
        for length in 0..5u32 {
            for second in 0..end {
                if let Some(mv) = move_of(kind, first, length, second) {
                    let cost = cost_by(rt, setup, plan, view, kind.skip, mv).unwrap_or(least);
                    if cost < least {
                        found = Some(mv);
                        least = cost;
                    }
                }
            }
        }
    }
    (found, least)
}

/// The best move near two vehicles, or near one, of a plan, and what it saves.
pub(crate) fn plain_best<R: Abort + AllocGlobal>(
    rt: &R,
    setup: &Setup,
    plan: &Plan,
    view: &View,
    near: (u32, u32),
    skip: &[Move],
) -> Option<(Move, u64)> {
    let (v, w) = near;
    let before = cost_after(setup, plan, view, &[]).unwrap_or(0);
    let mut best = (None, before);
    for kind in 1..5u32 {
        let kind = Kind { kind, v, w, skip };
        best = best_of_kind(rt, setup, plan, view, kind, best);
    }
    let (found, least) = best;
    found.map(|mv| (mv, before.saturating_sub(least)))
}
