//! Commits for which some pins are overridden.
ghost use Rattle.std.specs.Prelude.{◌≡◌, ◌⊎◌, ℕ, ◌≤◌, length, MatchOption, MatchResult, All};
ghost use Rattle.plan_core.specs.Plan.{AreApart, AreChanges};
ghost use Rattle.plan_core.specs.Drafts.{DoFrontsStay, routes_by, with_new};
ghost use Rattle.plan_core.specs.Commits.{named_vehicles};
ghost use Rattle.pin_core.specs.Pins.{IsHeld, DoPinsHold, AreFreezesKept, DoFrontsFit, pin_of, with_pin};
ghost use Rattle.pin_core.specs.Allowed.{IsTouched, AreAllTouched};
ghost use Rattle.pin_core.specs.Override.{DoPinsPass, IsFirstForbidden, IsFaultWith, pin_left, after_commit};

use crate::fault::PinFault;
use crate::pins::{Pins, stands};
use plan_core::{NewRoute, Plan, Touch};

impl Pins {
    /// Whether the freezes are kept from the plan to the one with these new routes, and no pin of a touched customer forbids them: such a
    /// customer stands on its vehicle then, or `free` has `true` for it. `free` has one value for each touch, in their order. The caller
    /// must ensure what the caller of `allows` does, and the order of faults is the same.
    pub fn allows_with<R: NewRoute>(
        &self,
        plan: &Plan,
        new_routes: &[R],
        touched: &[Touch],
        free: &[bool],
    ) -> Result<(), PinFault>
        requires customers { length self.now.pins ≡ plan.now.customers }
        requires vehicles { length self.now.fronts ≡ length plan.now.routes }
        requires holding { DoPinsHold self.now plan.now.routes }
        requires fitting { DoFrontsFit self.now plan.now.routes }
        requires fronts { DoFrontsStay R.draft plan.now.routes new_routes.now }
        requires changes { AreChanges (length plan.now.routes) (routes_by R.draft plan.now.routes new_routes.now) }
        requires known { All (λ t. (1 ≤ t.customer) × (t.customer ≤ plan.now.customers)) touched.now }
        requires touched { AreAllTouched plan.now.routes (with_new R.draft new_routes.now plan.now.routes) touched.now }
        requires free { length free.now ≡ length touched.now }
        ensures { MatchResult result
            (λ _. AreFreezesKept self.now plan.now.routes (with_new R.draft new_routes.now plan.now.routes)
            × DoPinsPass self.now (with_new R.draft new_routes.now plan.now.routes) touched.now free.now)
            (IsFaultWith self.now plan.now.routes (with_new R.draft new_routes.now plan.now.routes)
            (named_vehicles (routes_by R.draft plan.now.routes new_routes.now)) touched.now free.now) }
    {
        if let Some(vehicle) = self.first_thawed(plan, new_routes) {
            return Err(PinFault::Frozen(vehicle));
        }
        match self.first_forbidden(plan, new_routes, touched, free) {
            Some(touch) => Err(PinFault::Pinned(touch.vehicle, touch.place)),
            None => Ok(()),
        }
    }

    /// The first touch whose customer is pinned to a vehicle on which it would not stand, and is not free to leave it.
    fn first_forbidden<R: NewRoute>(
        &self,
        plan: &Plan,
        new_routes: &[R],
        touched: &[Touch],
        free: &[bool],
    ) -> Option<Touch>
        requires holding { DoPinsHold self.now plan.now.routes }
        requires fronts { DoFrontsStay R.draft plan.now.routes new_routes.now }
        requires apart { AreApart (length plan.now.routes) (routes_by R.draft plan.now.routes new_routes.now) }
        requires known { All (λ t. (1 ≤ t.customer) × (t.customer ≤ length self.now.pins)) touched.now }
        requires free { length free.now ≡ length touched.now }
        ensures { MatchOption result (DoPinsPass self.now (with_new R.draft new_routes.now plan.now.routes) touched.now free.now)
            (IsFirstForbidden self.now (with_new R.draft new_routes.now plan.now.routes) touched.now free.now) }
    {
        let mut near = 0;
        for (k, touch) in touched.iter().enumerate() {
            if free[k] {
                continue;
            }
            if self.leaves_near(plan, new_routes, touch.customer, &mut near) {
                return Some(*touch);
            }
        }
        None
    }

    /// Takes away the pins of touched customers that do not stand on their vehicle in the new plan: what the pins are after its commit. The
    /// caller must ensure that every pinned customer stands on its vehicle there or is touched. It takes no memory.
    pub fn release(&mut self, plan: &Plan, touched: &[Touch])
        requires known { All (λ t. (1 ≤ t.customer) × (t.customer ≤ length self.old.pins)) touched.now }
        requires touched { (c : ℕ) → 1 ≤ c → IsHeld self.old plan.now.routes c ⊎ IsTouched touched.now c }
        ensures { self.new ≡ after_commit plan.now.routes self.old }
    {
        let mut near = 0;
        for touch in touched {
            self.release_one(plan, touch.customer, &mut near);
        }
    }

    /// Takes away the pin of a customer that does not stand on its vehicle. The customer is searched on its route from an index outwards.
    fn release_one(&mut self, plan: &Plan, customer: u32, near: &mut usize)
        requires low { 1 ≤ customer }
        requires high { customer ≤ length self.old.pins }
        ensures { self.new ≡ with_pin customer (pin_left plan.now.routes customer (pin_of self.old customer)) self.old }
    {
        let Some(vehicle) = self.pinned(customer) else {
            return;
        };
        if !stands(plan, customer, vehicle, near) {
            self.unpin(customer);
        }
    }
}
