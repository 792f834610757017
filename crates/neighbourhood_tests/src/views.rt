//! Random views of three vehicles and some customers: some empty routes, a load and a time dimension, callbacks that are not the same
//! both ways, pins and frozen fronts.
ghost use Rattle.std.specs.Prelude.{◌≡◌, ℕ, ◌+◌, ◌*◌, ◌%◌, ◌<◌, ◌≤◌, length, IsTrue};
ghost use Rattle.dimension_core.specs.Feasible.{IsFeasible};
ghost use Rattle.dimension_core.specs.Setup.{setting};
ghost use Rattle.pin_core.specs.Pins.{StandsOn, IsHeld, DoPinsHold, DoFrontsFit};
ghost use Rattle.pin_core.specs.View.{pins_of};
ghost use Rattle.plan_core.specs.Plan.{routes_of};
ghost use Rattle.neighbourhood.specs.View.{IsViewOf};

use crate::plain::is_fit;
use callback_store::{Meter, Registry, TransitId};
use dimension_core::{Dimension, Range, Setup};
use limits::MOST_CUSTOMERS;
use move_core::{Move, moves_keep_plans, moves_name_vehicles};
use pin_core::View;
use plan_core::{Plan, Route, routes_replaced};
use rand_core::Rng;
use rand_pcg::Lcg64Xsh32;
use std::alloc::{AllocError, Global};
use std::process::Abort;
use std::sync::Arc;

/// A number below another one.
pub(crate) fn below(rng: &mut Lcg64Xsh32, end: u32) -> u32
    requires { 1 ≤ end }
    ensures { result < end }
{
    rng.next_u32() % end
}

/// A capacity for each of three vehicles.
fn caps(rt: &impl Abort, alloc: Global, least: u32, rng: &mut Lcg64Xsh32) -> Vec<u64> {
    let mut caps = Vec::new(alloc);
    for _ in 0..3 {
        let cap = u64::from(least) + u64::from(below(rng, 1 + least / 2));
        caps.push(cap).expect(rt, "memory");
    }
    caps
}

/// A range for each node: the whole day for the depot, and for each customer a part of it that begins before `late`.
fn ranges(
    rt: &impl Abort,
    alloc: Global,
    customers: u32,
    late: u32,
    part: u32,
    rng: &mut Lcg64Xsh32,
) -> Vec<Range>
    requires { 1 ≤ late }
{
    let mut ranges = Vec::new(alloc);
    let day = Range { lo: 0, hi: 10_000 };
    ranges.push(day).expect(rt, "memory");
    for _ in 0..customers {
        let lo = u64::from(below(rng, late));
        let hi = lo + u64::from(part);
        ranges.push(Range { lo, hi }).expect(rt, "memory");
    }
    ranges
}

/// A dimension of loads, in which there is room for `rooms` times seven customers.
fn some_loads(
    rt: &impl Abort,
    alloc: Global,
    registry: &Registry,
    load: TransitId,
    rooms: u32,
    rng: &mut Lcg64Xsh32,
) -> Dimension
    requires { (1 ≤ rooms) × (rooms ≤ 140) }
{
    let parts = ranges(rt, alloc, 7 * rooms, 1, 900, rng);
    let room = caps(rt, alloc, 8 * rooms, rng);
    let loads = Dimension::new(registry, load, 0, room, true, parts);
    loads.expect(rt, "bounds")
}

/// A dimension of times, in which there is room for `rooms` times seven customers.
fn some_times(
    rt: &impl Abort,
    alloc: Global,
    registry: &Registry,
    time: TransitId,
    rooms: u32,
    rng: &mut Lcg64Xsh32,
) -> Dimension
    requires { (1 ≤ rooms) × (rooms ≤ 140) }
{
    let parts = ranges(rt, alloc, 7 * rooms, 150 * rooms, 250 * rooms, rng);
    let slack = u64::from(below(rng, 100));
    let room = caps(rt, alloc, 400 * rooms, rng);
    let times = Dimension::new(registry, time, slack, room, false, parts);
    times.expect(rt, "bounds")
}

/// A dimension of loads and one of times, by the transits of these numbers.
pub(crate) fn some_dimensions(
    rt: &impl Abort,
    alloc: Global,
    registry: &Registry,
    ids: (TransitId, TransitId),
    rooms: u32,
    rng: &mut Lcg64Xsh32,
) -> Vec<Dimension>
    requires { (1 ≤ rooms) × (rooms ≤ 140) }
{
    let (load, time) = ids;
    let mut dimensions = Vec::new(alloc);
    let loads = some_loads(rt, alloc, registry, load, rooms, rng);
    dimensions.push(loads).expect(rt, "memory");
    let times = some_times(rt, alloc, registry, time, rooms, rng);
    dimensions.push(times).expect(rt, "memory");
    dimensions
}

/// Whether all new routes are in bounds.
fn are_fit(setup: &Setup, changes: &[(u32, Arc<Route>)]) -> bool {
    let mut meter = Meter::new();
    for (vehicle, route) in changes {
        if !is_fit(setup, *vehicle, route.customers(), &mut meter) {
            return false;
        }
    }
    true
}

/// Moves a customer where it can stand.
pub(crate) fn put(rt: &impl Abort, alloc: Global, setup: &Setup, plan: &mut Plan, mv: Move)
    ensures customers { plan.new.customers ≡ plan.old.customers }
    ensures vehicles { length plan.new.routes ≡ length plan.old.routes }
{
    if plan.version() >= 100 || !mv.is_possible(plan) {
        return;
    }
    let _sound = plan.customers();
    let changes = mv.routes(alloc, plan).expect(rt, "memory");
    if are_fit(setup, &changes) {
        moves_keep_plans();
        moves_name_vehicles();
        routes_replaced();
        plan.replace(changes);
    }
}

/// A plan of a setup, of routes that are in bounds.
pub(crate) fn some_plan(
    rt: &impl Abort,
    alloc: Global,
    setup: &Setup,
    customers: u32,
    rng: &mut Lcg64Xsh32,
) -> Plan
    requires { (1 ≤ customers) × (customers ≤ MOST_CUSTOMERS) }
    ensures { (result.customers ≡ customers) × (length result.routes ≡ 3) }
{
    let mut plan = Plan::new(alloc, customers, 3).expect(rt, "memory");
    let share = below(rng, 3) + 1;
    for step in 0..4 * customers {
        let mv = Move::Insert {
            customer: step / 4 + 1,
            vehicle: below(rng, share) + 1,
            place: below(rng, 4) + 1,
        };
        put(rt, alloc, setup, &mut plan, mv);
    }
    plan
}

/// The routes of a plan.
pub(crate) fn shared_routes(rt: &impl Abort, alloc: Global, plan: &Plan) -> Vec<Arc<Route>>
    ensures { routes_of result.items ≡ plan.now.routes }
{
    let mut routes = Vec::new(alloc);
    for before in 0..plan.vehicles() {
        let route = Arc::try_clone(plan.route(before + 1)).expect(rt, "memory");
        routes.push(route).expect(rt, "memory");
    }
    routes
}

/// Some customers pinned to where they stand.
fn some_pins(
    rt: &impl Abort,
    alloc: Global,
    plan: &Plan,
    rng: &mut Lcg64Xsh32,
) -> Vec<Option<u32>> {
    let mut pinned = Vec::new(alloc);
    for before in 0..plan.customers() {
        let customer = before + 1;
        let home = plan.place_of(customer).map(|at| at.0);
        let pin = if below(rng, 5) == 0 { home } else { None };
        pinned.push(pin).expect(rt, "memory");
    }
    pinned
}

/// Some stops at the fronts of the routes frozen.
fn some_fronts(rt: &impl Abort, alloc: Global, plan: &Plan, rng: &mut Lcg64Xsh32) -> Vec<u32> {
    let mut frozen = Vec::new(alloc);
    for before in 0..plan.vehicles() {
        let most = plan.route(before + 1).len() as u32;
        let front = below(rng, 6).saturating_sub(3).min(most);
        frozen.push(front).expect(rt, "memory");
    }
    frozen
}

/// A view of a plan.
pub(crate) fn some_view(rt: &impl Abort, alloc: Global, plan: &Plan, rng: &mut Lcg64Xsh32) -> View
    ensures { result.routes ≡ plan.now.routes }
{
    View {
        routes: shared_routes(rt, alloc, plan),
        pinned: some_pins(rt, alloc, plan, rng),
        frozen: some_fronts(rt, alloc, plan, rng),
        version: plan.version(),
    }
}

/// Whether each vehicle's route is in bounds.
fn is_feasible(setup: &Setup, view: &View) -> bool
    requires { length view.now.routes ≡ (setting setup.now).vehicles }
    ensures { IsTrue result → IsFeasible (setting setup.now) view.now.routes }
{
    let mut meter = Meter::new();
    for before in 0..setup.vehicles() {
        if !is_fit(setup, before + 1, view.customers(before + 1), &mut meter) {
            return false;
        }
    }
    true
}

/// Whether a customer stands on a vehicle.
fn stands(plan: &Plan, customer: u32, vehicle: u32) -> bool
    ensures { IsTrue result → StandsOn plan.now.routes customer vehicle }
{
    match plan.place_of(customer) {
        None => false,
        Some((home, _)) => home == vehicle,
    }
}

/// Whether a customer stands on its vehicle, if it is pinned.
fn is_held(plan: &Plan, view: &View, customer: u32) -> bool
    requires low { 1 ≤ customer }
    requires high { customer ≤ length view.now.pinned }
    ensures { IsTrue result → IsHeld (pins_of view.now) plan.now.routes customer }
{
    match view.pinned(customer) {
        None => true,
        Some(vehicle) => stands(plan, customer, vehicle),
    }
}

/// Whether each pinned customer stands on its vehicle.
fn do_pins_hold(plan: &Plan, view: &View) -> bool
    requires { length view.now.pinned ≡ plan.now.customers }
    ensures { IsTrue result → DoPinsHold (pins_of view.now) plan.now.routes }
{
    for before in 0..plan.customers() {
        if !is_held(plan, view, before + 1) {
            return false;
        }
    }
    true
}

/// Whether no frozen length is above its route's.
fn do_fronts_fit(plan: &Plan, view: &View) -> bool
    requires { length view.now.frozen ≡ length plan.now.routes }
    ensures { IsTrue result → DoFrontsFit (pins_of view.now) plan.now.routes }
{
    for before in 0..plan.vehicles() {
        if view.front(before + 1) as usize > plan.route(before + 1).len() {
            return false;
        }
    }
    true
}

/// Whether there is a pin for each customer and a frozen length for each vehicle.
fn is_sized(plan: &Plan, view: &View) -> bool
    ensures { IsTrue result → (length view.now.pinned ≡ plan.now.customers) × (length view.now.frozen ≡ length plan.now.routes) }
{
    if view.pinned.len() != plan.customers() as usize {
        return false;
    }
    view.frozen.len() == plan.vehicles() as usize
}

/// Whether a view may be searched.
pub(crate) fn is_view(setup: &Setup, plan: &Plan, view: &View) -> bool
    requires same { view.now.routes ≡ plan.now.routes }
    requires customers { plan.now.customers ≡ (setting setup.now).customers }
    requires vehicles { length plan.now.routes ≡ (setting setup.now).vehicles }
    ensures { IsTrue result → IsViewOf (setting setup.now) view.now }
{
    let _sound = plan.customers();
    if !is_sized(plan, view) {
        return false;
    }
    if !is_feasible(setup, view) {
        return false;
    }
    if !do_pins_hold(plan, view) {
        return false;
    }
    if !do_fronts_fit(plan, view) {
        return false;
    }
    true
}
