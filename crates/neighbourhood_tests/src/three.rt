//! One vehicle and three customers, on one line with the depot: 30, 60 and 90 from it, with no bounds. Of the route 2, 1, 3 each move saves
//! 60 or nothing.
ghost use Rattle.std.specs.Prelude.{◌≡◌, ◌+◌, ◌-◌, ◌*◌, ◌≤◌, length};
ghost use Rattle.dimension_core.specs.Setup.{setting};
ghost use Rattle.neighbourhood.specs.View.{IsViewOf};

use crate::views::{is_view, put, shared_routes};
use callback_store::{Meter, Registry, Transit};
use dimension_core::Setup;
use move_core::Move;
use neighbourhood::best_move;
use pin_core::View;
use plan_core::Plan;
use std::alloc::Global;
use std::process::Abort;
use std::test::Fail;

/// A plan that serves the customers in an order.
fn plan_of_three(rt: &impl Abort, alloc: Global, setup: &Setup, order: &[u32]) -> Plan
    ensures { (result.customers ≡ 3) × (length result.routes ≡ 1) }
{
    let mut plan = Plan::new(alloc, 3, 1).expect(rt, "memory");
    for customer in order.iter().rev() {
        let mv = Move::Insert {
            customer: *customer,
            vehicle: 1,
            place: 1,
        };
        put(rt, alloc, setup, &mut plan, mv);
    }
    plan
}

/// A view of a plan, in which no customer is pinned and no stop is frozen.
fn view_of_three(rt: &impl Abort, alloc: Global, plan: &Plan) -> View
    ensures { result.routes ≡ plan.now.routes }
{
    View {
        routes: shared_routes(rt, alloc, plan),
        pinned: vec![in alloc; None, None, None].expect(rt, "memory"),
        frozen: vec![in alloc; 0].expect(rt, "memory"),
        version: plan.version(),
    }
}

/// Asks for the best move until there is none, each skipped once it was the answer: how many answers are the wanted ones, each with a gain of
/// 60, and then none.
fn answers_in_turn(
    rt: &impl Abort,
    alloc: Global,
    setup: &Setup,
    view: &View,
    wanted: &[Move],
) -> usize
    requires view { IsViewOf (setting setup.now) view.now }
    requires vehicles { (setting setup.now).vehicles ≡ 1 }
{
    for k in 0..wanted.len() {
        let found = best_move(alloc, view, setup, 1, 1, &wanted[..k]).expect(rt, "memory");
        if found != Some((wanted[k], 60)) {
            return k;
        }
    }
    let last = best_move(alloc, view, setup, 1, 1, wanted).expect(rt, "memory");
    if last.is_some() {
        return wanted.len();
    }
    wanted.len() + 1
}

/// Whether the customers in an order cost so much, and their best moves are the wanted ones and then none.
fn are_found(
    rt: &impl Abort,
    alloc: Global,
    setup: &Setup,
    order: &[u32],
    cost: u64,
    wanted: &[Move],
) -> bool
    requires customers { (setting setup.now).customers ≡ 3 }
    requires vehicles { (setting setup.now).vehicles ≡ 1 }
{
    let plan = plan_of_three(rt, alloc, setup, order);
    let view = view_of_three(rt, alloc, &plan);
    is_view(setup, &plan, &view)
        && plan.cost(setup, &mut Meter::new()) == cost
        && answers_in_turn(rt, alloc, setup, &view, wanted) == wanted.len() + 1
}

/// Moves inside vehicle 1.
fn shift(place: u32, length: u32, at: u32) -> Move {
    Move::Shift {
        vehicle: 1,
        place,
        length,
        to: 1,
        at,
    }
}

fn swap(place: u32, at: u32) -> Move {
    Move::Swap {
        vehicle: 1,
        place,
        other: 1,
        at,
    }
}

fn reverse(first: u32, last: u32) -> Move {
    Move::Reverse {
        vehicle: 1,
        first,
        last,
    }
}

/// The moves of the route 2, 1, 3 that save 60, in the order of ties, and none of the route 1, 2, 3.
fn ask_in_both_orders(rt: &impl Abort, alloc: Global, setup: &Setup)
    requires customers { (setting setup.now).customers ≡ 3 }
    requires vehicles { (setting setup.now).vehicles ≡ 1 }
{
    let tied = [
        shift(1, 1, 2),
        shift(1, 1, 3),
        shift(1, 2, 2),
        shift(2, 1, 1),
        shift(2, 1, 3),
        shift(2, 2, 1),
        shift(3, 1, 1),
        shift(3, 1, 2),
        swap(1, 2),
        swap(2, 3),
        reverse(1, 2),
        reverse(2, 3),
    ];
    assert!(rt; are_found(rt, alloc, setup, &[2, 1, 3], 240, &tied));
    assert!(rt; are_found(rt, alloc, setup, &[1, 2, 3], 180, &[]));
}

#[test]
fn the_best_moves_of_three_customers(rt: HostRuntime) -> Result<(), Fail> {
    let drive = Box::new(
        rt.alloc(),
        move |i: u32, j: u32| -> u64
            ensures { result ≡ 30 * i - 30 * j + (30 * j - 30 * i) }
        { u64::from(i.abs_diff(j)) * 30 },
    )?;
    let drives = Transit::new(4, drive);
    let mut registry = Registry::new(rt.alloc());
    let cost = registry.register(drives).expect(&rt, "room");
    let bounds = Vec::new(rt.alloc());
    let setup = Setup::new(3, 1, registry, bounds, cost, 9).expect(&rt, "setup");
    ask_in_both_orders(&rt, rt.alloc(), &setup);
    Ok(())
}
