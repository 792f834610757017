use crate::comparing::same;
use crate::new_routes::plan_of;
use move_core::{
    Move, MoveFault, fronts_by_first_change, moves_are_possible, moves_between_carry_over,
    moves_inside_rearrange, moves_keep_plans, moves_keep_the_untouched, moves_name_vehicles,
    shifts_in_parts,
};
use plan_core::{Plan, Route, Touch};
use std::alloc::Global;
use std::process::Abort;
use std::sync::Arc;

/// The customers of the first new route, if there is one.
fn first(changes: &[(u32, Arc<Route>)]) -> &[u32] {
    match changes.first() {
        Some((_, route)) => route.customers(),
        None => &[],
    }
}

/// The customers of the second new route, if there is one.
fn second(changes: &[(u32, Arc<Route>)]) -> &[u32] {
    match changes.get(1) {
        Some((_, route)) => route.customers(),
        None => &[],
    }
}

// Moves and touches in short, as constants can have them.

macro_rules! insert {
    ($customer:expr, $vehicle:expr, $place:expr) => {
        Move::Insert {
            customer: $customer,
            vehicle: $vehicle,
            place: $place,
        }
    };
}

macro_rules! remove {
    ($vehicle:expr, $place:expr) => {
        Move::Remove {
            vehicle: $vehicle,
            place: $place,
        }
    };
}

macro_rules! shift {
    ($vehicle:expr, $place:expr, $length:expr, $to:expr, $at:expr) => {
        Move::Shift {
            vehicle: $vehicle,
            place: $place,
            length: $length,
            to: $to,
            at: $at,
        }
    };
}

macro_rules! swap {
    ($vehicle:expr, $place:expr, $other:expr, $at:expr) => {
        Move::Swap {
            vehicle: $vehicle,
            place: $place,
            other: $other,
            at: $at,
        }
    };
}

macro_rules! reverse {
    ($vehicle:expr, $first:expr, $last:expr) => {
        Move::Reverse {
            vehicle: $vehicle,
            first: $first,
            last: $last,
        }
    };
}

macro_rules! cross {
    ($vehicle:expr, $keep:expr, $other:expr, $keep_other:expr) => {
        Move::Cross {
            vehicle: $vehicle,
            keep: $keep,
            other: $other,
            keep_other: $keep_other,
        }
    };
}

macro_rules! at {
    ($vehicle:expr, $place:expr, $customer:expr) => {
        Touch {
            vehicle: $vehicle,
            place: $place,
            customer: $customer,
        }
    };
}

/// Whether the first two new routes have these customers.
fn are(changes: &[(u32, Arc<Route>)], routes: (&[u32], &[u32])) -> bool {
    first(changes) == routes.0 && second(changes) == routes.1
}

/// Whether the move makes these routes, where it is asked first whether it has an effect.
fn makes(rt: &impl Abort, alloc: Global, plan: &Plan, mv: Move, routes: (&[u32], &[u32])) -> bool {
    mv.is_possible(plan) && are(&mv.routes(alloc, plan).expect(rt, "memory"), routes)
}

/// Whether it touches these customers, where it is asked first.
fn touches(rt: &impl Abort, alloc: Global, plan: &Plan, mv: Move, touched: &[Touch]) -> bool {
    mv.is_possible(plan) && mv.touches(alloc, plan).expect(rt, "memory").as_slice() == touched
}

/// Compares the new routes and the customers that are touched, both where the move is asked first whether it has an effect and where it
/// is not.
fn compare(
    rt: &impl Abort,
    alloc: Global,
    plan: &Plan,
    mv: Move,
    routes: (&[u32], &[u32]),
    touched: &[Touch],
) {
    let makes = makes(rt, alloc, plan, mv, routes);
    let touches = touches(rt, alloc, plan, mv, touched);
    let also_makes = are(&mv.new_routes(alloc, plan).expect(rt, "routes"), routes);
    let also_touches = mv.touched(alloc, plan).expect(rt, "touches").as_slice() == touched;
    let found = [makes, touches, also_makes, also_touches];
    same(rt, (mv, found), (mv, [true; 4]), "a move");
}

/// Sees that all calls answer that the move has no effect.
fn refuse(rt: &impl Abort, alloc: Global, plan: &Plan, mv: Move) {
    let touched = mv.touched(alloc, plan).err() == Some(MoveFault::BadPlace);
    let routes = mv.new_routes(alloc, plan).err() == Some(MoveFault::BadPlace);
    let found = [touched, routes, !mv.is_possible(plan)];
    same(rt, (mv, found), (mv, [true; 3]), "a move without effect");
}

fn refuse_all(rt: &impl Abort, alloc: Global, plan: &Plan, moves: &[Move]) {
    for mv in moves {
        refuse(rt, alloc, plan, *mv);
    }
}

/// A move, the customers of the two routes that it makes, and the customers that it touches.
type Row = (Move, (&'static [u32], &'static [u32]), &'static [Touch]);

fn compare_all(rt: &impl Abort, alloc: Global, plan: &Plan, rows: &[Row]) {
    for (mv, routes, touched) in rows {
        compare(rt, alloc, plan, *mv, *routes, touched);
    }
}

const VEHICLES: &[(Move, (u32, Option<u32>))] = &[
    (shift!(2, 1, 1, 2, 2), (2, None)),
    (cross!(2, 0, 1, 0), (2, Some(1))),
    (remove!(4294967295, 1), (4294967295, None)),
];

#[test]
fn names_each_vehicle_once(rt: HostRuntime) {
    for (mv, vehicles) in VEHICLES {
        same(&rt, (*mv, mv.vehicles()), (*mv, *vehicles), "vehicles");
    }
    moves_are_possible();
    moves_name_vehicles();
    moves_keep_plans();
    moves_keep_the_untouched();
    fronts_by_first_change();
    moves_inside_rearrange();
    moves_between_carry_over();
    shifts_in_parts();
}

/// Customers 1, 2 and 3 on vehicle 1.
const OF_THREE: &[Row] = &[
    (remove!(1, 2), (&[1, 3], &[]), &[at!(1, 2, 2)]),
    (remove!(1, 1), (&[2, 3], &[]), &[at!(1, 1, 1)]),
    (shift!(1, 1, 1, 1, 3), (&[2, 3, 1], &[]), &[at!(1, 1, 1)]),
];

#[test]
fn moves_on_a_route_of_three(rt: HostRuntime) {
    let alloc = rt.alloc();
    let plan = plan_of(&rt, alloc, 6, &[1, 2, 3], &[]);
    compare_all(&rt, alloc, &plan, OF_THREE);
    refuse(&rt, alloc, &plan, shift!(1, 1, 1, 1, 1));
}

/// Customers 2, 3 and 1 on vehicle 1.
const OF_THREE_ROTATED: &[Row] = &[
    (shift!(1, 3, 1, 2, 1), (&[2, 3], &[1]), &[at!(1, 3, 1)]),
    (
        swap!(1, 1, 1, 3),
        (&[1, 3, 2], &[]),
        &[at!(1, 1, 2), at!(1, 3, 1)],
    ),
    (
        reverse!(1, 1, 3),
        (&[1, 3, 2], &[]),
        &[at!(1, 1, 2), at!(1, 2, 3), at!(1, 3, 1)],
    ),
];

#[test]
fn moves_on_a_rotated_route(rt: HostRuntime) {
    let alloc = rt.alloc();
    let plan = plan_of(&rt, alloc, 6, &[2, 3, 1], &[]);
    compare_all(&rt, alloc, &plan, OF_THREE_ROTATED);
}

/// Customers 1, 2, 3 and 5 on vehicle 1, and 4 and 6 on vehicle 2.
const OF_FOUR_AND_TWO: &[Row] = &[
    (
        shift!(1, 2, 2, 1, 1),
        (&[2, 3, 1, 5], &[]),
        &[at!(1, 2, 2), at!(1, 3, 3)],
    ),
    (
        shift!(1, 2, 2, 1, 3),
        (&[1, 5, 2, 3], &[]),
        &[at!(1, 2, 2), at!(1, 3, 3)],
    ),
    (
        shift!(1, 2, 2, 2, 2),
        (&[1, 5], &[4, 2, 3, 6]),
        &[at!(1, 2, 2), at!(1, 3, 3)],
    ),
    (
        shift!(1, 1, 3, 2, 3),
        (&[5], &[4, 6, 1, 2, 3]),
        &[at!(1, 1, 1), at!(1, 2, 2), at!(1, 3, 3)],
    ),
    (
        reverse!(1, 2, 3),
        (&[1, 3, 2, 5], &[]),
        &[at!(1, 2, 2), at!(1, 3, 3)],
    ),
];

#[test]
fn moves_of_more_than_one(rt: HostRuntime) {
    let alloc = rt.alloc();
    let plan = plan_of(&rt, alloc, 6, &[1, 2, 3, 5], &[4, 6]);
    compare_all(&rt, alloc, &plan, OF_FOUR_AND_TWO);
}

/// Customers 1 and 2 on vehicle 1, and 4 on vehicle 2.
const OF_TWO_AND_ONE: &[Row] = &[
    (insert!(3, 1, 2), (&[1, 3, 2], &[]), &[at!(1, 2, 3)]),
    (insert!(3, 1, 3), (&[1, 2, 3], &[]), &[at!(1, 3, 3)]),
    (
        swap!(2, 1, 1, 2),
        (&[2], &[1, 4]),
        &[at!(2, 1, 4), at!(1, 2, 2)],
    ),
    (
        cross!(1, 1, 2, 0),
        (&[1, 4], &[2]),
        &[at!(1, 2, 2), at!(2, 1, 4)],
    ),
    (
        cross!(1, 0, 2, 1),
        (&[], &[4, 1, 2]),
        &[at!(1, 1, 1), at!(1, 2, 2)],
    ),
    (cross!(1, 2, 2, 0), (&[1, 2, 4], &[]), &[at!(2, 1, 4)]),
];

/// Moves that have no effect, each by one number.
const WITHOUT_EFFECT: &[Move] = &[
    insert!(3, 0, 1),
    insert!(3, 3, 1),
    insert!(0, 1, 1),
    insert!(7, 1, 1),
    insert!(4, 1, 1),
    insert!(3, 1, 0),
    insert!(3, 1, 4),
    remove!(1, 0),
    remove!(1, 3),
    shift!(1, 1, 0, 2, 1),
    shift!(1, 2, 2, 2, 1),
    shift!(1, 1, 1, 2, 3),
    shift!(1, 1, 1, 1, 3),
    swap!(1, 1, 2, 2),
    swap!(1, 1, 1, 1),
    reverse!(1, 1, 1),
    reverse!(1, 1, 3),
    cross!(1, 2, 2, 1),
    cross!(1, 3, 2, 0),
    cross!(1, 0, 1, 1),
];

/// Great numbers do not wrap.
const OF_GREAT_NUMBERS: &[Move] = &[
    insert!(4294967295, 1, 1),
    insert!(3, 1, 4294967295),
    remove!(4294967295, 4294967295),
    shift!(1, 2, 4294967295, 2, 1),
    shift!(1, 4294967295, 2, 2, 1),
    shift!(1, 1, 1, 1, 4294967295),
    reverse!(1, 1, 4294967295),
    cross!(1, 4294967295, 2, 4294967295),
];

#[test]
fn moves_between_two_routes_and_without_effect(rt: HostRuntime) {
    let alloc = rt.alloc();
    let plan = plan_of(&rt, alloc, 6, &[1, 2], &[4]);
    compare_all(&rt, alloc, &plan, OF_TWO_AND_ONE);
    refuse_all(&rt, alloc, &plan, WITHOUT_EFFECT);
    refuse_all(&rt, alloc, &plan, OF_GREAT_NUMBERS);
}
