//! The rules on a proposal, in their order, each by itself: Session, Fleet, Vehicles, Version and Base, Effect, Customers, Fronts, Pins, and
//! that the new plan is feasible. Effect is `Move::is_possible`, and the last is `Cache::judge_in`.
ghost use Rattle.std.specs.Prelude.{◌≡◌, ◌≤◌, ◌<◌, ◌↔◌, ◌+◌, ℕ, ◌∷◌, length, find, not, Some, None, nat_lt, true, IsTrue, IfNone, OnSome, IfOk, IfErr, OnOk, MatchResult};
ghost use Rattle.std.specs.List.{list_all};
ghost use Rattle.std.specs.Option.{option_map, option_to_list};
ghost use Rattle.permission_core.specs.declared.objects.Operation.TheVariants as operations;
ghost use Rattle.permission_core.specs.declared.objects.Object.TheVariants as objects;
ghost use Rattle.permission_table.specs.Tables.{allows, rows_of};
ghost use Rattle.policy_core.specs.State.{is_session};
ghost use Rattle.plan_core.specs.Drafts.{AreFrontsWithin, drafts_of};
ghost use Rattle.plan_core.specs.Plan.{stamp_of};
ghost use Rattle.pin_core.specs.Pins.{AreFreezesKept};
ghost use Rattle.board_rules.specs.Override.{DoPinsAllow};
ghost use Rattle.board_rules.specs.Rules.{is_one_of};
ghost use Rattle.board_state.specs.Deltas.{AreFreed};
ghost use Rattle.board_state.specs.Held.{may_free, routes_drafted};
ghost use Rattle.board_state.specs.Verdicts.{ArePlaceable, IsPinStop, IsPinned, IsWorkOfPins};
ghost use Rattle.board_state.specs.Work.{Works, WorksJust, leaving_with};

use crate::state::State;
use crate::stop::Stop;
use board_rules::Denial;
use callback_store::Meter;
use permission_table::SessionRows;
use pin_core::{PinFault, pins_after_commits};
use plan_core::{Draft, Touch};
use rbac_core::{Object, Operation};
use std::alloc::Global;

/// One vehicle, or two.
pub(crate) type Named = (u32, Option<u32>);

/// Fleet: whether each vehicle is in one of this size.
pub(crate) fn are_in_fleet(vehicles: u32, named: Named) -> bool
    ensures { result ≡ list_all (is_one_of vehicles) (named.0 ∷ option_to_list named.1) }
{
    let (first, second) = named;
    if !is_one_of(vehicles, first) {
        return false;
    }
    match second {
        Some(vehicle) => is_one_of(vehicles, vehicle),
        None => true,
    }
}

/// Whether a number is 1 to `last`.
pub(crate) fn is_one_of(last: u32, number: u32) -> bool
    ensures { result ≡ is_one_of last number }
{
    1 <= number && number <= last
}

impl State {
    /// Session: whether it exists. A caller tells whether the session may do something: one that may exists, and is not looked for.
    #[inline(always)]
    pub(crate) fn is_open(&self, session: u32, may: bool) -> bool
        requires { may ≡ true → is_session self.now.policy.now session ≡ true }
        ensures { result ≡ is_session self.now.policy.now session }
    {
        may || self.is_session(session)
    }

    /// Vehicles: the first that the session, whose permissions were found, may not move.
    pub(crate) fn first_barred_vehicle(
        &self,
        session: u32,
        found: Option<&SessionRows>,
        named: Named,
        meter: &mut Meter,
    ) -> Option<u32>
        requires { option_map (λ rows. rows.now) found ≡ rows_of self.now.tables session }
        ensures first { result
            ≡ find (λ v. not (allows self.now.tables session operations.Move (objects.Vehicle v))) (named.0 ∷ option_to_list named.1) }
        ensures work { Works meter.old meter.new 0 0 1 (length (named.0 ∷ option_to_list named.1)) }
        ensures whole { IfNone result (WorksJust meter.old meter.new 0 (length (named.0 ∷ option_to_list named.1))) }
    {
        let (first, second) = named;
        if !self.may_by(
            session,
            found,
            Operation::Move,
            Object::Vehicle(first),
            meter,
        ) {
            return Some(first);
        }
        let vehicle = second?;
        if !self.may_by(
            session,
            found,
            Operation::Move,
            Object::Vehicle(vehicle),
            meter,
        ) {
            return Some(vehicle);
        }
        None
    }

    /// Version: whether the base is above the version.
    #[inline(always)]
    pub(crate) fn is_ahead(&self, base: u32) -> bool
        ensures { IsTrue result ↔ (self.now.plan.version < base) }
    {
        self.plan.version() < base
    }

    /// Base: the first vehicle that a commit after it changed.
    pub(crate) fn first_stale(&self, base: u32, named: Named) -> Option<u32>
        requires { list_all (is_one_of (length self.now.plan.routes)) (named.0 ∷ option_to_list named.1) ≡ true }
        ensures { result ≡ find (λ v. nat_lt base (stamp_of self.now.plan v)) (named.0 ∷ option_to_list named.1) }
    {
        let (first, second) = named;
        if self.plan.changed_after(first, base) {
            return Some(first);
        }
        let vehicle = second?;
        if self.plan.changed_after(vehicle, base) {
            return Some(vehicle);
        }
        None
    }

    /// Customers: the first touched one that the session, whose permissions were found, may not move.
    #[tactic(auto, using(crate::proofs::WorkLaws::probe_more))]
    pub(crate) fn first_barred_customer(
        &self,
        session: u32,
        found: Option<&SessionRows>,
        touched: &[Touch],
        meter: &mut Meter,
    ) -> Option<Touch>
        requires { option_map (λ rows. rows.now) found ≡ rows_of self.now.tables session }
        ensures first { result
            ≡ find (λ t. not (allows self.now.tables session operations.Move (objects.Customer t.customer))) touched.now }
        ensures some { OnSome result (Works meter.old meter.new 0 0 1 (length touched.now)) }
        ensures whole { IfNone result (WorksJust meter.old meter.new 0 (length touched.now)) }
    {
        for touch in touched {
            if !self.may_by(
                session,
                found,
                Operation::Move,
                Object::Customer(touch.customer),
                meter,
            ) {
                return Some(*touch);
            }
        }
        None
    }

    /// Fronts and Pins: whether new routes keep the frozen fronts, and no pin forbids them. The session is asked for `override` only where a pinned customer
    /// would leave its vehicle. The answer marks the touched customers that leave the vehicle of their pin, and is empty where none does.
    #[inline(always)]
    pub(crate) fn judge_pins(
        &self,
        alloc: Global,
        session: u32,
        drafts: &[Draft],
        touched: &[Touch],
        meter: &mut Meter,
    ) -> Result<Vec<bool>, Stop>
        requires placeable { ArePlaceable self.now (drafts_of self.now.plan.routes drafts.now) touched.now }
        requires within { AreFrontsWithin self.now.plan.routes drafts.now }
        ensures freed { IfOk result (λ freed. AreFreed self.now.pins (routes_drafted self.now drafts.now) touched.now freed.items) }
        ensures fronts { OnOk result (AreFreezesKept self.now.pins self.now.plan.routes (routes_drafted self.now drafts.now)) }
        ensures pins { OnOk result (DoPinsAllow self.now.pins (may_free self.now session) (routes_drafted self.now drafts.now)) }
        ensures stop { IfErr result
            (IsPinStop self.now.pins (may_free self.now session) self.now.plan.routes
            (drafts_of self.now.plan.routes drafts.now) touched.now) }
        ensures pinned { IfErr result IsPinned }
        ensures work { IsWorkOfPins (leaving_with self.now drafts.now touched.now) result meter.old meter.new }
    {
        pins_after_commits();
        match self.pins.allows(&self.plan, drafts, touched) {
            Ok(()) => Ok(Vec::new(alloc)),
            Err(PinFault::Frozen(vehicle)) => Err(Stop::Denied(Denial::Frozen(vehicle))),
            Err(PinFault::Pinned(..)) => {
                self.judge_overrides(alloc, session, drafts, touched, meter)
            }
        }
    }
}
