//! What a judged call makes different.
ghost use Rattle.std.specs.Prelude.{◌≡◌, ◌==◌, ◌+◌, ◌≤◌, ℕ, ◌++◌, Some, length, drop, flat_map, min, if◌then◌else◌, IfOk, OnOk};
ghost use Rattle.dimension_core.specs.Setting.{Setting};
ghost use Rattle.move_core.specs.Moves.{named_by};
ghost use Rattle.board_rules.specs.Delta.{IsDelta};
ghost use Rattle.board_rules.specs.Good.{IsGood};
ghost use Rattle.board_rules.specs.State.{BoardState};
ghost use Rattle.board_state.specs.Held.{Holds, routes_with};
ghost use Rattle.board_state.specs.Changes.{WillHold, IsCommittable};
ghost use Rattle.board_state.specs.declared.change.Change.TheVariants.{Replace};
ghost use Rattle.board_state.specs.Deltas.{changed_places, changed_fronts, new_spots, spots_behind, stood_there, kept_by, taken_off};

use crate::change::{Change, Commit, Judged};
use board_rules::{Delta, customers_have_one_spot};
use limits::MOST_CUSTOMERS;
use move_core::{
    Move, fronts_by_first_change, moves_are_possible, moves_between_carry_over,
    moves_inside_rearrange, moves_keep_plans, moves_keep_the_untouched, moves_name_vehicles,
};
use pin_core::pins_after_commits;
use plan_core::{customers_stand_by_route, routes_replaced};
use std::alloc::{AllocError, Global};

/// Customers with the vehicle and place where they stand afterwards, or none.
type Spots = Vec<(u32, Option<(u32, u32)>)>;

impl Judged {
    /// What the call changes of the plan, the pins and the freezes, and the version afterwards. Only the named vehicles' routes are walked,
    /// from the first changed place on, and, where a pin is released, the touched customers.
    pub fn delta(&self) -> Result<Delta, AllocError>
        ensures { (s : Setting) (state next : BoardState) → Holds s self.now.of state → IsGood s state
            → WillHold s self.now.of self.now.change next → IfOk result (IsDelta s state next) }
    {
        customers_have_one_spot();
        customers_stand_by_route();
        routes_replaced();
        moves_are_possible();
        moves_name_vehicles();
        moves_keep_plans();
        moves_keep_the_untouched();
        moves_inside_rearrange();
        moves_between_carry_over();
        fronts_by_first_change();
        pins_after_commits();
        let places = self.places()?;
        let pins = self.pins()?;
        let frozen = self.frozen()?;
        Ok(Delta::new(places, pins, frozen, self.version_after()))
    }

    /// The customers that stand elsewhere.
    fn places(&self) -> Result<Spots, AllocError>
        ensures { IfOk result (λ places. places.items ≡ changed_places self.now.of self.now.change) }
    {
        match &self.change {
            Change::Replace(commit) => self.new_places(commit),
            Change::Nothing | Change::Pins(_) | Change::Command(..) => Ok(Vec::new(self.alloc)),
        }
    }

    /// The vehicle whose frozen length differs, as a list.
    fn frozen(&self) -> Result<Vec<(u32, u32)>, AllocError>
        ensures { IfOk result (λ frozen. frozen.items ≡ changed_fronts self.now.change) }
    {
        match self.front() {
            Some(front) => Ok(vec![in self.alloc; front]?),
            None => Ok(Vec::new(self.alloc)),
        }
    }

    /// The customers that stand elsewhere after a commit.
    fn new_places(&self, commit: &Commit) -> Result<Spots, AllocError>
        requires { IsCommittable self.now.of commit.now }
        ensures { IfOk result (λ places. places.items ≡ changed_places self.now.of (Replace commit.now)) }
    {
        let mut places = self.new_spots(commit)?;
        if let Some(customer) = self.taken_off(commit) {
            places.push((customer, None))?;
        }
        Ok(places)
    }

    /// The customers that stand on a named vehicle where they did not stand before.
    fn new_spots(&self, commit: &Commit) -> Result<Spots, AllocError>
        requires { IsCommittable self.now.of commit.now }
        ensures { IfOk result (λ places. places.items
            ≡ flat_map (new_spots self.now.of.plan.routes (routes_with self.now.of commit.now.new.changes.items) commit.now.mv)
            (named_by commit.now.mv)) }
    {
        routes_replaced();
        moves_name_vehicles();
        let mut places = Vec::new(self.alloc);
        let (vehicle, route) = &commit.new.changes[0];
        let kept = kept_by(&commit.mv, *vehicle);
        add_new_spots(
            &mut places,
            *vehicle,
            kept,
            commit.former.customers(),
            route.customers(),
        )?;
        match &commit.other {
            None => Ok(places),
            Some(former) => {
                let (vehicle, route) = &commit.new.changes[1];
                let kept = kept_by(&commit.mv, *vehicle);
                add_new_spots(
                    &mut places,
                    *vehicle,
                    kept,
                    former.customers(),
                    route.customers(),
                )?;
                Ok(places)
            }
        }
    }

    /// The customer that a commit takes off the plan.
    fn taken_off(&self, commit: &Commit) -> Option<u32>
        requires { IsCommittable self.now.of commit.now }
        ensures { result ≡ taken_off self.now.of.plan.routes commit.now.mv }
    {
        match commit.mv {
            Move::Remove { .. } => Some(commit.new.touched[0].customer),
            Move::Insert { .. }
            | Move::Shift { .. }
            | Move::Swap { .. }
            | Move::Reverse { .. }
            | Move::Cross { .. } => None,
        }
    }
}

/// How many of the first customers of a named vehicle's route a move leaves as they are.
fn kept_by(mv: &Move, vehicle: u32) -> u32
    ensures { result ≡ kept_by mv.now vehicle }
{
    match *mv {
        Move::Insert { place, .. } | Move::Remove { place, .. } => place.saturating_sub(1),
        Move::Reverse { first, .. } => first.saturating_sub(1),
        Move::Shift {
            vehicle: from,
            place,
            to,
            at,
            ..
        } => first_of(vehicle, from, place, to, at).saturating_sub(1),
        Move::Swap {
            vehicle: from,
            place,
            other,
            at,
        } => first_of(vehicle, from, place, other, at).saturating_sub(1),
        Move::Cross {
            vehicle: from,
            keep,
            keep_other,
            ..
        } => if vehicle == from { keep } else { keep_other },
    }
}

/// The place of one vehicle or of another, or the smaller of both where they are one vehicle.
fn first_of(vehicle: u32, from: u32, place: u32, to: u32, at: u32) -> u32
    ensures { result ≡ (if from == to then min place at else if vehicle == from then place else at) }
{
    if from == to {
        return place.min(at);
    }
    if vehicle == from { place } else { at }
}

/// Adds the customers that stand on a vehicle after the first few, and did not stand there on its old route.
fn add_new_spots(
    places: &mut Spots,
    vehicle: u32,
    kept: u32,
    old: &[u32],
    new: &[u32],
) -> Result<(), AllocError>
    requires { length new.now ≤ MOST_CUSTOMERS }
    ensures { OnOk result (places.new.items ≡ places.old.items ++ spots_behind vehicle (kept + 1) old.now (drop kept new.now)) }
{
    for index in kept as usize..new.len() {
        let customer = new[index];
        let place = index as u32 + 1;
        if !stood_there(old, place, customer) {
            places.push((customer, Some((vehicle, place))))?;
        }
    }
    Ok(())
}

/// Whether a customer stood at a place of the old route.
fn stood_there(old: &[u32], place: u32, customer: u32) -> bool
    requires { 1 ≤ place }
    ensures { (vehicle : ℕ) → result ≡ stood_there old.now (record { vehicle = vehicle; place = place; customer = customer }) }
{
    place as usize <= old.len() && old[place as usize - 1] == customer
}
