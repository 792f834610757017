//! Whether a move of each kind has an effect on a plan. Sums of a move's numbers do not wrap.
ghost use Rattle.std.specs.Prelude.{◌≡◌, ◌≤◌, length};
ghost use Rattle.plan_core.specs.Plan.{route_at};
ghost use Rattle.move_core.specs.Moves.{is_vehicle, is_placed, is_free, is_possible};

use crate::moves::Move;
use limits::MOST_CUSTOMERS;
use plan_core::{Plan, among_is_tested, customers_stand_by_route, routes_replaced};

/// Whether the fleet has the vehicle.
fn is_vehicle(plan: &Plan, vehicle: u32) -> bool
    ensures { result ≡ is_vehicle plan.now.routes vehicle }
{
    1 <= vehicle && vehicle <= plan.vehicles()
}

/// How many customers a vehicle has.
fn length_of(plan: &Plan, vehicle: u32) -> u64
    requires low { 1 ≤ vehicle }
    requires high { vehicle ≤ length plan.now.routes }
    ensures value { result ≡ length (route_at plan.now.routes vehicle) }
    ensures small { result ≤ MOST_CUSTOMERS }
{
    plan.route(vehicle).len() as u64
}

/// Whether the customer is one of the plan's and stands nowhere.
fn is_free(plan: &Plan, customer: u32) -> bool
    ensures { result ≡ is_free plan.now.customers plan.now.routes customer }
{
    1 <= customer && customer <= plan.customers() && !is_placed(plan, customer)
}

/// Whether the customer stands on some vehicle.
fn is_placed(plan: &Plan, customer: u32) -> bool
    ensures { result ≡ is_placed plan.now.routes customer }
{
    among_is_tested();
    customers_stand_by_route();
    routes_replaced();
    plan.place_of(customer).is_some()
}

pub(crate) fn can_insert(plan: &Plan, customer: u32, vehicle: u32, place: u32) -> bool
    ensures { result ≡ is_possible plan.now.customers plan.now.routes (Move.Insert customer vehicle place) }
{
    if !is_vehicle(plan, vehicle) {
        return false;
    }
    let length = length_of(plan, vehicle);
    is_free(plan, customer) && 1 <= place && u64::from(place) <= length + 1
}

pub(crate) fn can_remove(plan: &Plan, vehicle: u32, place: u32) -> bool
    ensures { result ≡ is_possible plan.now.customers plan.now.routes (Move.Remove vehicle place) }
{
    if !is_vehicle(plan, vehicle) {
        return false;
    }
    let length = length_of(plan, vehicle);
    1 <= place && u64::from(place) <= length
}

pub(crate) fn can_shift(plan: &Plan, vehicle: u32, place: u32, count: u32, to: u32, at: u32) -> bool
    ensures { result ≡ is_possible plan.now.customers plan.now.routes (Move.Shift vehicle place count to at) }
{
    if !is_vehicle(plan, vehicle) || !is_vehicle(plan, to) {
        return false;
    }
    let length = length_of(plan, vehicle);
    let room = length_of(plan, to) + 1;
    let (first, count, at_first) = (u64::from(place), u64::from(count), u64::from(at));
    let there = if vehicle == to {
        at_first + count <= room && at != place
    } else {
        at_first <= room
    };
    1 <= count && 1 <= place && first + count <= length + 1 && 1 <= at && there
}

pub(crate) fn can_swap(plan: &Plan, vehicle: u32, place: u32, other: u32, at: u32) -> bool
    ensures { result ≡ is_possible plan.now.customers plan.now.routes (Move.Swap vehicle place other at) }
{
    if !is_vehicle(plan, vehicle) || !is_vehicle(plan, other) {
        return false;
    }
    let length = length_of(plan, vehicle);
    let other_length = length_of(plan, other);
    1 <= place
        && u64::from(place) <= length
        && 1 <= at
        && u64::from(at) <= other_length
        && !(vehicle == other && place == at)
}

pub(crate) fn can_reverse(plan: &Plan, vehicle: u32, first: u32, last: u32) -> bool
    ensures { result ≡ is_possible plan.now.customers plan.now.routes (Move.Reverse vehicle first last) }
{
    if !is_vehicle(plan, vehicle) {
        return false;
    }
    let length = length_of(plan, vehicle);
    1 <= first && first < last && u64::from(last) <= length
}

pub(crate) fn can_cross(plan: &Plan, vehicle: u32, keep: u32, other: u32, keep_other: u32) -> bool
    ensures { result ≡ is_possible plan.now.customers plan.now.routes (Move.Cross vehicle keep other keep_other) }
{
    if !is_vehicle(plan, vehicle) || !is_vehicle(plan, other) || vehicle == other {
        return false;
    }
    let length = length_of(plan, vehicle);
    let other_length = length_of(plan, other);
    let (first, second) = (u64::from(keep), u64::from(keep_other));
    first <= length && second <= other_length && !(first == length && second == other_length)
}
