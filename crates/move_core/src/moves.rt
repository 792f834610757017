ghost use Rattle.std.specs.Prelude.{◌≡◌, ◌↔◌, ◌==◌, if◌then◌else◌, true, Some, None, IsSome, IfOk, IsErrOf};
ghost use Rattle.plan_core.specs.Drafts.{AreFrontsWithin, drafts_of};
ghost use Rattle.plan_core.specs.Plan.{changes_of};

use crate::drafting::Drafting;
use crate::fault::MoveFault;
use crate::laws::moves_name_vehicles;
use crate::possible;
use crate::touches::Touching;
use plan_core::{Drafts, Plan, Route, Touch};
use std::alloc::{AllocError, Global};
use std::sync::Arc;

/// A change of one or two routes. Vehicles count from 1, places within a route from 1. A move has an effect exactly where the vehicles that
/// it names are in the fleet and its numbers are in the ranges given here.
#[derive(Clone, Copy, Debug, PartialEq, Eq)]
pub enum Move {
    /// Insertion: the unassigned customer is put at the place, and later ones move up. The place is 1 to one after the last.
    Insert {
        customer: u32,
        vehicle: u32,
        place: u32,
    },
    /// Removal: the customer at the place is taken off the route, and is then unassigned.
    Remove {
        vehicle: u32,
        place: u32,
    },
    /// Relocate, or Or-opt for more than one: `length` customers from `place` on, at least one and all of them there, are taken out, and
    /// then stand in `to` from place `at` on. `at` is counted once they are out, is 1 to one after the last, and differs from `place` where
    /// `to` is the same vehicle.
    Shift {
        vehicle: u32,
        place: u32,
        length: u32,
        to: u32,
        at: u32,
    },
    /// Exchange: the customer at `place` of the vehicle and the one at `at` of `other` change places. The two places differ; the vehicles
    /// may be the same.
    Swap {
        vehicle: u32,
        place: u32,
        other: u32,
        at: u32,
    },
    /// 2-opt: the customers from `first` to `last` stand in the opposite order. `first` is below `last`.
    Reverse {
        vehicle: u32,
        first: u32,
        last: u32,
    },
    /// 2-opt*, an exchange of tails (a cross-exchange in which both stretches reach to the end): what follows the first `keep` of one route
    /// and what follows the first `keep_other` of another change sides. The vehicles differ, neither number is above its route's length,
    /// and at least one tail is not empty.
    Cross {
        vehicle: u32,
        keep: u32,
        other: u32,
        keep_other: u32,
    },
}

impl Move {
    ghost use Rattle.move_core.specs.Moves.{vehicles_of, is_possible, changes_by, effect};
    ghost use Rattle.move_core.specs.Touched.{touched_by};

    /// The vehicles that the move names, in the order of its fields, each once.
    pub fn vehicles(&self) -> (u32, Option<u32>)
        ensures { result ≡ vehicles_of self.now }
    {
        match *self {
            Move::Insert { vehicle, .. }
            | Move::Remove { vehicle, .. }
            | Move::Reverse { vehicle, .. } => (vehicle, None),
            Move::Shift { vehicle, to, .. } => (vehicle, second(vehicle, to)),
            Move::Swap { vehicle, other, .. } | Move::Cross { vehicle, other, .. } => (
                vehicle,
                second(vehicle, other),
            ),
        }
    }

    /// Whether the move has an effect on the plan. Sums of its numbers do not wrap, and no memory is taken.
    pub fn is_possible(&self, plan: &Plan) -> bool
        ensures { result ≡ is_possible plan.now.customers plan.now.routes self.now }
    {
        match *self {
            Move::Insert {
                customer,
                vehicle,
                place,
            } => possible::can_insert(plan, customer, vehicle, place),
            Move::Remove { vehicle, place } => possible::can_remove(plan, vehicle, place),
            Move::Shift {
                vehicle,
                place,
                length,
                to,
                at,
            } => possible::can_shift(plan, vehicle, place, length, to, at),
            Move::Swap {
                vehicle,
                place,
                other,
                at,
            } => possible::can_swap(plan, vehicle, place, other, at),
            Move::Reverse {
                vehicle,
                first,
                last,
            } => possible::can_reverse(plan, vehicle, first, last),
            Move::Cross {
                vehicle,
                keep,
                other,
                keep_other,
            } => possible::can_cross(plan, vehicle, keep, other, keep_other),
        }
    }

    /// The customers that the move touches, in the order of its fields, each with the vehicle and place where it stands before the move;
    /// for an inserted customer those where it will stand.
    pub fn touched(&self, alloc: Global, plan: &Plan) -> Result<Vec<Touch>, MoveFault>
        ensures ok { IfOk result (λ touched. touched.items ≡ touched_by plan.now.routes self.now) }
        ensures possible { IfOk result (λ _. effect plan.now.customers plan.now.routes self.now
            ≡ Some (changes_by plan.now.routes self.now)) }
        ensures bad_place { IsErrOf result MoveFault.BadPlace ↔ (effect plan.now.customers plan.now.routes self.now ≡ None) }
    {
        if !self.is_possible(plan) {
            return Err(MoveFault::BadPlace);
        }
        let touched = self.touches(alloc, plan)?;
        Ok(touched)
    }

    /// The new routes of the named vehicles, in the order in which the move names them.
    pub fn new_routes(
        &self,
        alloc: Global,
        plan: &Plan,
    ) -> Result<Vec<(u32, Arc<Route>)>, MoveFault>
        ensures ok { IfOk result (λ changes. effect plan.now.customers plan.now.routes self.now ≡ Some (changes_of changes.items)) }
        ensures bad_place { IsErrOf result MoveFault.BadPlace ↔ (effect plan.now.customers plan.now.routes self.now ≡ None) }
    {
        if !self.is_possible(plan) {
            return Err(MoveFault::BadPlace);
        }
        let changes = self.routes(alloc, plan)?;
        Ok(changes)
    }

    /// What `touched` gives of a move that has an effect, for a caller that has asked whether it has one.
    pub fn touches(&self, alloc: Global, plan: &Plan) -> Result<Vec<Touch>, AllocError>
        requires { is_possible plan.now.customers plan.now.routes self.now ≡ true }
        ensures { IfOk result (λ touched. touched.items ≡ touched_by plan.now.routes self.now) }
    {
        self.touches_in(Vec::new(alloc), plan)
    }

    /// What `touches` gives, in the memory of a list that the caller gives up: more memory is taken only where that is too small.
    // Inlined, with what it calls: every proposal takes this way, which shall cost it nothing that notes on denials call it too.
    #[inline(always)]
    pub fn touches_in(&self, room: Vec<Touch>, plan: &Plan) -> Result<Vec<Touch>, AllocError>
        requires { is_possible plan.now.customers plan.now.routes self.now ≡ true }
        ensures { IfOk result (λ touched. touched.items ≡ touched_by plan.now.routes self.now) }
    {
        let touching = Touching { room, plan };
        match *self {
            Move::Insert {
                customer,
                vehicle,
                place,
            } => touching.of_insert(customer, vehicle, place),
            Move::Remove { vehicle, place } => touching.of_remove(vehicle, place),
            Move::Shift {
                vehicle,
                place,
                length,
                to,
                at,
            } => touching.of_shift(vehicle, place, length, to, at),
            Move::Swap {
                vehicle,
                place,
                other,
                at,
            } => touching.of_swap(vehicle, place, other, at),
            Move::Reverse {
                vehicle,
                first,
                last,
            } => touching.of_reverse(vehicle, first, last),
            Move::Cross {
                vehicle,
                keep,
                other,
                keep_other,
            } => touching.of_cross(vehicle, keep, other, keep_other),
        }
    }

    /// What `new_routes` gives of a move that has an effect, for a caller that has asked whether it has one.
    pub fn routes(&self, alloc: Global, plan: &Plan) -> Result<Vec<(u32, Arc<Route>)>, AllocError>
        requires { is_possible plan.now.customers plan.now.routes self.now ≡ true }
        ensures { IfOk result (λ changes. changes_of changes.items ≡ changes_by plan.now.routes self.now) }
    {
        moves_name_vehicles();
        let drafts = self.drafts_in(Drafts::new(alloc), plan)?;
        drafts.routes_in(Vec::new(alloc), alloc, plan)
    }

    /// The drafts of the new routes of a move that has an effect, in the memory of others that the caller gives up: more memory is taken
    /// only where that is too small. Only what follows the first changed place of a route is copied.
    // Inlined, with what it calls, as `touches_in` is.
    #[inline(always)]
    pub fn drafts_in(&self, room: Drafts, plan: &Plan) -> Result<Drafts, AllocError>
        requires { is_possible plan.now.customers plan.now.routes self.now ≡ true }
        ensures drafts { IfOk result (λ drafts. drafts_of plan.now.routes drafts ≡ changes_by plan.now.routes self.now) }
        ensures fronts { IfOk result (AreFrontsWithin plan.now.routes) }
    {
        let drafting = Drafting { room, plan };
        match *self {
            Move::Insert {
                customer,
                vehicle,
                place,
            } => drafting.by_insert(customer, vehicle, place),
            Move::Remove { vehicle, place } => drafting.by_remove(vehicle, place),
            Move::Shift {
                vehicle,
                place,
                length,
                to,
                at,
            } => drafting.by_shift(vehicle, place, length, to, at),
            Move::Swap {
                vehicle,
                place,
                other,
                at,
            } => drafting.by_swap(vehicle, place, other, at),
            Move::Reverse {
                vehicle,
                first,
                last,
            } => drafting.by_reverse(vehicle, first, last),
            Move::Cross {
                vehicle,
                keep,
                other,
                keep_other,
            } => drafting.by_cross(vehicle, keep, other, keep_other),
        }
    }
}

/// The second of two vehicles, where it is another one.
fn second(vehicle: u32, other: u32) -> Option<u32>
    ensures { result ≡ (if vehicle == other then None else Some other) }
{
    if vehicle == other { None } else { Some(other) }
}
