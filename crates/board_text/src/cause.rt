//! Why a move has no effect.

ghost use Rattle.std.specs.Prelude.{◌≡◌, ◌≤◌, length, true};
ghost use Rattle.plan_core.specs.Plan.{route_at};
ghost use Rattle.move_core.specs.Moves.{is_vehicle, is_placed};
ghost use Rattle.board_text.specs.Causes.{insert_cause, remove_cause, shift_cause, swap_cause, reverse_cause, cross_cause, place_cause, last_place, cause_of};

use limits::MOST_CUSTOMERS;
use move_core::Move;
use plan_core::Plan;

/// What keeps a move from having an effect; what a move must have is written at `Move`.
#[derive(Clone, Copy)]
pub enum Cause {
    /// There is no such vehicle.
    NoVehicle {
        vehicle: u32,
    },
    /// The customer is none of 1 to `most`.
    NoCustomer {
        customer: u32,
        most: u32,
    },
    /// The customer stands on a vehicle.
    Planned {
        customer: u32,
    },
    /// The place of the vehicle is none of 1 to `most`.
    NoPlace {
        vehicle: u32,
        place: u32,
        most: u32,
    },
    /// Not as many customers stand there from the place on.
    TooLong {
        vehicle: u32,
        place: u32,
        count: u32,
    },
    /// No customer is to be shifted.
    Empty,
    /// The two places are the same.
    SamePlace,
    /// The first place is not before the last.
    Order {
        first: u32,
        last: u32,
    },
    /// The vehicle has fewer customers than are to be kept.
    NoKeep {
        vehicle: u32,
        keep: u32,
        most: u32,
    },
    /// The two vehicles are the same.
    SameVehicle {
        vehicle: u32,
    },
    /// Neither vehicle has a customer behind those that are to be kept.
    NoTails,
    /// No number is wrong.
    Nothing,
}

/// Whether the fleet has the vehicle.
fn is_vehicle(plan: &Plan, vehicle: u32) -> bool
    ensures { result ≡ is_vehicle plan.now.routes vehicle }
{
    1 <= vehicle && vehicle <= plan.vehicles()
}

/// Whether a customer of the plan stands on some vehicle: then it cannot be inserted at the first place of any.
fn is_placed(plan: &Plan, customer: u32, vehicle: u32) -> bool
    requires some { 1 ≤ customer }
    requires known { customer ≤ plan.now.customers }
    requires vehicle { is_vehicle plan.now.routes vehicle ≡ true }
    ensures { result ≡ is_placed plan.now.routes customer }
{
    let insertion = Move::Insert {
        customer,
        vehicle,
        place: 1,
    };
    !insertion.is_possible(plan)
}

/// How many customers a vehicle has.
fn length_of(plan: &Plan, vehicle: u32) -> u32
    requires low { 1 ≤ vehicle }
    requires high { vehicle ≤ length plan.now.routes }
    ensures value { result ≡ length (route_at plan.now.routes vehicle) }
    ensures small { result ≤ MOST_CUSTOMERS }
{
    plan.route(vehicle).len() as u32
}

/// Why a place is wrong that has to be 1 to `most`.
fn place_cause(vehicle: u32, place: u32, most: u32) -> Cause
    ensures { result ≡ place_cause vehicle place most }
{
    if 1 <= place && place <= most {
        Cause::Nothing
    } else {
        Cause::NoPlace {
            vehicle,
            place,
            most,
        }
    }
}

fn insert_cause(plan: &Plan, customer: u32, vehicle: u32, place: u32) -> Cause
    ensures { result ≡ insert_cause plan.now.customers plan.now.routes customer vehicle place }
{
    if !is_vehicle(plan, vehicle) {
        return Cause::NoVehicle { vehicle };
    }
    if customer == 0 || customer > plan.customers() {
        return Cause::NoCustomer {
            customer,
            most: plan.customers(),
        };
    }
    if is_placed(plan, customer, vehicle) {
        return Cause::Planned { customer };
    }
    place_cause(vehicle, place, length_of(plan, vehicle) + 1)
}

fn remove_cause(plan: &Plan, vehicle: u32, place: u32) -> Cause
    ensures { result ≡ remove_cause plan.now.routes vehicle place }
{
    if !is_vehicle(plan, vehicle) {
        return Cause::NoVehicle { vehicle };
    }
    place_cause(vehicle, place, length_of(plan, vehicle))
}

/// The last place at which customers of a vehicle may stand in another one, or in the same once they are out.
fn last_place(plan: &Plan, vehicle: u32, count: u32, to: u32) -> u32
    requires low { 1 ≤ to }
    requires high { to ≤ length plan.now.routes }
    ensures { result ≡ last_place plan.now.routes vehicle count to }
{
    let room = length_of(plan, to) + 1;
    if vehicle == to {
        room.saturating_sub(count)
    } else {
        room
    }
}

fn shift_cause(plan: &Plan, vehicle: u32, place: u32, count: u32, to: u32, at: u32) -> Cause
    ensures { result ≡ shift_cause plan.now.routes vehicle place count to at }
{
    if !is_vehicle(plan, vehicle) {
        return Cause::NoVehicle { vehicle };
    }
    if !is_vehicle(plan, to) {
        return Cause::NoVehicle { vehicle: to };
    }
    if count == 0 {
        return Cause::Empty;
    }
    let length = length_of(plan, vehicle);
    if place == 0 || place > length {
        return Cause::NoPlace {
            vehicle,
            place,
            most: length,
        };
    }
    if u64::from(place) + u64::from(count) > u64::from(length) + 1 {
        return Cause::TooLong {
            vehicle,
            place,
            count,
        };
    }
    if vehicle == to && place == at {
        return Cause::SamePlace;
    }
    place_cause(to, at, last_place(plan, vehicle, count, to))
}

fn swap_cause(plan: &Plan, vehicle: u32, place: u32, other: u32, at: u32) -> Cause
    ensures { result ≡ swap_cause plan.now.routes vehicle place other at }
{
    if !is_vehicle(plan, vehicle) {
        return Cause::NoVehicle { vehicle };
    }
    if !is_vehicle(plan, other) {
        return Cause::NoVehicle { vehicle: other };
    }
    if vehicle == other && place == at {
        return Cause::SamePlace;
    }
    let length = length_of(plan, vehicle);
    if place == 0 || place > length {
        return Cause::NoPlace {
            vehicle,
            place,
            most: length,
        };
    }
    place_cause(other, at, length_of(plan, other))
}

fn reverse_cause(plan: &Plan, vehicle: u32, first: u32, last: u32) -> Cause
    ensures { result ≡ reverse_cause plan.now.routes vehicle first last }
{
    if !is_vehicle(plan, vehicle) {
        return Cause::NoVehicle { vehicle };
    }
    if first >= last {
        return Cause::Order { first, last };
    }
    let length = length_of(plan, vehicle);
    if first == 0 {
        return Cause::NoPlace {
            vehicle,
            place: first,
            most: length,
        };
    }
    place_cause(vehicle, last, length)
}

fn cross_cause(plan: &Plan, vehicle: u32, keep: u32, other: u32, keep_other: u32) -> Cause
    ensures { result ≡ cross_cause plan.now.routes vehicle keep other keep_other }
{
    if !is_vehicle(plan, vehicle) {
        return Cause::NoVehicle { vehicle };
    }
    if !is_vehicle(plan, other) {
        return Cause::NoVehicle { vehicle: other };
    }
    if vehicle == other {
        return Cause::SameVehicle { vehicle };
    }
    let length = length_of(plan, vehicle);
    let other_length = length_of(plan, other);
    if keep > length {
        return Cause::NoKeep {
            vehicle,
            keep,
            most: length,
        };
    }
    if keep_other > other_length {
        return Cause::NoKeep {
            vehicle: other,
            keep: keep_other,
            most: other_length,
        };
    }
    if keep == length && keep_other == other_length {
        Cause::NoTails
    } else {
        Cause::Nothing
    }
}

/// Why a move has no effect on a plan; where more than one cause holds, the first that is looked for. Sums of its numbers do not wrap.
pub fn cause_of(plan: &Plan, mv: &Move) -> Cause
    ensures { result ≡ cause_of plan.now.customers plan.now.routes mv.now }
{
    match *mv {
        Move::Insert {
            customer,
            vehicle,
            place,
        } => insert_cause(plan, customer, vehicle, place),
        Move::Remove { vehicle, place } => remove_cause(plan, vehicle, place),
        Move::Shift {
            vehicle,
            place,
            length,
            to,
            at,
        } => shift_cause(plan, vehicle, place, length, to, at),
        Move::Swap {
            vehicle,
            place,
            other,
            at,
        } => swap_cause(plan, vehicle, place, other, at),
        Move::Reverse {
            vehicle,
            first,
            last,
        } => reverse_cause(plan, vehicle, first, last),
        Move::Cross {
            vehicle,
            keep,
            other,
            keep_other,
        } => cross_cause(plan, vehicle, keep, other, keep_other),
    }
}
