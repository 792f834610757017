//! Where a pin stands in the way of new routes: whether the session may override it.
ghost use Rattle.std.specs.Prelude.{◌≡◌, ◌≤◌, ◌⊎◌, true, length, if◌then◌else◌, IfOk, IfErr, OnOk, MatchResult};
ghost use Rattle.plan_core.specs.Drafts.{AreFrontsWithin, drafts_of};
ghost use Rattle.plan_core.specs.Plan.{AreApart};
ghost use Rattle.pin_core.specs.Pins.{IsHeld, DoPinsHold, AreFreezesKept};
ghost use Rattle.permission_table.specs.Tables.{allows};
ghost use Rattle.permission_core.specs.declared.objects.Operation.TheVariants as operations;
ghost use Rattle.permission_core.specs.declared.objects.Object.TheVariants as objects;
ghost use Rattle.board_rules.specs.Override.{DoPinsAllow, AreAnswers};
ghost use Rattle.board_state.specs.Deltas.{AreFreed, DoMarkedLeave};
ghost use Rattle.board_state.specs.Held.{may_free, routes_drafted};
ghost use Rattle.board_state.specs.Verdicts.{ArePlaceable, IsPinStop, IsPinned, IsWorkOfPins};
ghost use Rattle.board_state.specs.Work.{WorksJust, WorksAtMost, is_leaving, leaving_with};

use crate::state::State;
use crate::stop::Stop;
use board_rules::Denial;
use callback_store::Meter;
use pin_core::{PinFault, pins_after_commits};
use plan_core::{Draft, Touch};
use rbac_core::{Object, Operation};
use std::alloc::{AllocError, Global};

impl State {
    /// The same, where some pin is overridden or forbids the new routes.
    pub(crate) fn judge_overrides(
        &self,
        alloc: Global,
        session: u32,
        drafts: &[Draft],
        touched: &[Touch],
        meter: &mut Meter,
    ) -> Result<Vec<bool>, Stop>
        requires placeable { ArePlaceable self.now (drafts_of self.now.plan.routes drafts.now) touched.now }
        requires within { AreFrontsWithin self.now.plan.routes drafts.now }
        ensures freed { IfOk result (λ freed. AreFreed self.now.pins (routes_drafted self.now drafts.now) touched.now freed.items) }
        ensures fronts { OnOk result (AreFreezesKept self.now.pins self.now.plan.routes (routes_drafted self.now drafts.now)) }
        ensures pins { OnOk result (DoPinsAllow self.now.pins (may_free self.now session) (routes_drafted self.now drafts.now)) }
        ensures stop { IfErr result
            (IsPinStop self.now.pins (may_free self.now session) self.now.plan.routes
            (drafts_of self.now.plan.routes drafts.now) touched.now) }
        ensures pinned { IfErr result IsPinned }
        ensures work { IsWorkOfPins (leaving_with self.now drafts.now touched.now) result meter.old meter.new }
    {
        let Ok(free) = self.overrides(alloc, session, drafts, touched, meter) else {
            return Err(Stop::NoMemory);
        };
        match self.pins.allows_with(&self.plan, drafts, touched, &free) {
            Ok(()) => Ok(free),
            Err(PinFault::Frozen(vehicle)) => Err(Stop::Denied(Denial::Frozen(vehicle))),
            Err(PinFault::Pinned(vehicle, place)) => {
                Err(Stop::Denied(Denial::Pinned(vehicle, place)))
            }
        }
    }

    /// For each touched customer that would leave the vehicle to which it is pinned, whether the session may override that.
    fn overrides(
        &self,
        alloc: Global,
        session: u32,
        drafts: &[Draft],
        touched: &[Touch],
        meter: &mut Meter,
    ) -> Result<Vec<bool>, AllocError>
        requires placeable { ArePlaceable self.now (drafts_of self.now.plan.routes drafts.now) touched.now }
        requires within { AreFrontsWithin self.now.plan.routes drafts.now }
        ensures leave { IfOk result (λ free. DoMarkedLeave self.now.pins (routes_drafted self.now drafts.now) touched.now free.items) }
        ensures answers { IfOk result
            (λ free. AreAnswers self.now.pins (may_free self.now session) (routes_drafted self.now drafts.now) touched.now free.items) }
        ensures work { WorksAtMost meter.old meter.new 0 (leaving_with self.now drafts.now touched.now) }
        ensures whole { OnOk result (WorksJust meter.old meter.new 0 (leaving_with self.now drafts.now touched.now)) }
    {
        let mut free = Vec::new(alloc);
        for touch in touched {
            let may = self.may_leave(session, drafts, touch.customer, meter);
            free.push(may)?;
        }
        Ok(free)
    }

    /// Whether a customer would leave the vehicle to which it is pinned, and the session may override that.
    fn may_leave(&self, session: u32, drafts: &[Draft], customer: u32, meter: &mut Meter) -> bool
        requires low { 1 ≤ customer }
        requires high { customer ≤ length self.now.pins.pins }
        requires holding { DoPinsHold self.now.pins self.now.plan.routes }
        requires apart { AreApart (length self.now.plan.routes) (drafts_of self.now.plan.routes drafts.now) }
        requires within { AreFrontsWithin self.now.plan.routes drafts.now }
        ensures leaves { result ≡ true → ¬ IsHeld self.now.pins (routes_drafted self.now drafts.now) customer }
        ensures may { IsHeld self.now.pins (routes_drafted self.now drafts.now) customer
            ⊎ (result ≡ allows self.now.tables session operations.Override (objects.Customer customer)) }
        ensures work { WorksJust meter.old meter.new 0
            (if is_leaving self.now.pins (routes_drafted self.now drafts.now) customer then 1 else 0) }
    {
        pins_after_commits();
        if !self.pins.leaves(&self.plan, drafts, customer) {
            return false;
        }
        self.may(
            session,
            Operation::Override,
            Object::Customer(customer),
            meter,
        )
    }
}
