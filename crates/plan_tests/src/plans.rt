ghost use Rattle.std.specs.Prelude.{◌≡◌, length};
ghost use Rattle.dimension_core.specs.Setup.{setting};

use crate::comparing::same;
use crate::new_routes::{pair, plan_of};
use callback_store::{Matrix, Meter, Registry};
use dimension_core::Setup;
use plan_core::{Plan, common_front, plans_are_tested, route_cost};
use std::alloc::Global;
use std::process::Abort;
use std::sync::Arc;

/// Compares where customers stand, by vehicle and place.
fn compare_places(rt: &impl Abort, plan: &Plan, wanted: &[(u32, Option<(u32, u32)>)]) {
    for (customer, place) in wanted {
        let found = plan.place_of(*customer);
        same(rt, (*customer, found), (*customer, *place), "a place");
    }
}

/// Compares the version, and the routes of the two vehicles.
fn compare_routes(rt: &impl Abort, plan: &Plan, version: u32, first: &[u32], second: &[u32])
    requires { length plan.now.routes ≡ 2 }
{
    let routes = (plan.route(1).customers(), plan.route(2).customers());
    let found = (plan.version(), routes);
    same(rt, found, (version, (first, second)), "version and routes");
}

/// Customers 1 and 2 on vehicle 1 and 4 on vehicle 2, until 2 and 4 change sides.
fn exchanged(rt: &impl Abort, alloc: Global) -> Plan
    ensures { length result.routes ≡ 2 }
{
    let mut plan = plan_of(rt, alloc, 4, &[1, 2], &[4]);
    let changes = pair(rt, alloc, 2, &[2], 1, &[1, 4]);
    plans_are_tested();
    plan.replace(changes);
    plan
}

const PLACES: &[(u32, Option<(u32, u32)>)] = &[
    (1, Some((1, 1))),
    (2, Some((1, 2))),
    (4, Some((2, 1))),
    (3, None),
    (0, None),
    (4294967295, None),
];

const PLACES_EXCHANGED: &[(u32, Option<(u32, u32)>)] = &[
    (1, Some((1, 1))),
    (4, Some((1, 2))),
    (2, Some((2, 1))),
    (3, None),
];

#[test]
fn exchanges_two_routes(rt: HostRuntime) {
    let plan = plan_of(&rt, rt.alloc(), 4, &[1, 2], &[4]);
    compare_routes(&rt, &plan, 1, &[1, 2], &[4]);
    compare_places(&rt, &plan, PLACES);
    let plan = exchanged(&rt, rt.alloc());
    compare_routes(&rt, &plan, 2, &[1, 4], &[2]);
    compare_places(&rt, &plan, PLACES_EXCHANGED);
}

const FRONTS: &[(&[u32], &[u32], u64)] = &[
    (&[], &[], 0),
    (&[4, 2], &[], 0),
    (&[4, 2, 7], &[4, 2, 9], 2),
    (&[4, 2, 7], &[4, 2], 2),
    (&[4, 2], &[4, 2, 7], 2),
    (&[4, 2, 7], &[4, 3, 7], 1),
    (&[4, 2, 7], &[4, 2, 7], 3),
];

#[test]
fn the_common_front_ends_where_routes_differ(rt: HostRuntime) {
    for (route, other, front) in FRONTS {
        let found = common_front(route, other) as u64;
        same(&rt, found, *front, "common front");
    }
}

/// Compares what a plan costs, and how often a callback is asked for that.
fn compare_cost(rt: &impl Abort, setup: &Setup, plan: &Plan, cost: u64, asks: u64)
    requires { plan.now.customers ≡ (setting setup.now).customers }
{
    let mut meter = Meter::new();
    let found = plan.cost(setup, &mut meter);
    same(rt, (found, meter.asks), (cost, asks), "cost and asks");
}

fn compare_route_costs(rt: &impl Abort, setup: &Setup)
    requires { (setting setup.now).customers ≡ 4 }
{
    let mut meter = Meter::new();
    let found = [
        route_cost(setup, &[1, 2], &mut meter),
        route_cost(setup, &[4], &mut meter),
        route_cost(setup, &[], &mut meter),
    ];
    same(rt, (found, meter.asks), ([33, 44, 0], 5), "costs and asks");
}

fn compare_costs(rt: &impl Abort, alloc: Global, setup: &Setup)
    requires { (setting setup.now).customers ≡ 4 }
{
    let empty = Plan::new(alloc, 4, 2).expect(rt, "memory");
    compare_cost(rt, setup, &empty, 0, 0);
    let plan = plan_of(rt, alloc, 4, &[1, 2], &[4]);
    compare_cost(rt, setup, &plan, 77, 5);
}

/// From node i to node j the cost is 10 i + j, so a route of 1 and 2 costs 1, 12 and 20, and one of 4 costs 4 and 40.
#[test]
fn costs_the_way_out_and_home(rt: HostRuntime) {
    let ways = vec![in rt.alloc();
        0u32, 1, 2, 3, 4, 10, 11, 12, 13, 14, 20, 21, 22, 23, 24, 30, 31, 32, 33, 34, 40, 41, 42,
        43, 44,
    ]
    .expect(&rt, "memory");
    let ways = Matrix::new(5, Arc::new(rt.alloc(), ways).expect(&rt, "memory"));
    let mut registry = Registry::new(rt.alloc());
    let id = registry.register_matrix(ways).expect(&rt, "room");
    let setup = Setup::new(4, 2, registry, Vec::new(rt.alloc()), id, 10).expect(&rt, "setup");
    compare_costs(&rt, rt.alloc(), &setup);
    compare_route_costs(&rt, &setup);
}
