//! Pins and freezes: why a call on them is refused.
ghost use Rattle.std.specs.Prelude.{◌≡◌, ◌≤◌, ℕ, length, IfOk, IfNone, None, Some};
ghost use Rattle.std.specs.Option.{option_map};
ghost use Rattle.std.specs.Result.{result_err};
ghost use Rattle.dimension_core.specs.Setup.{setting};
ghost use Rattle.pin_core.specs.Pins.{with_pin, with_front};
ghost use Rattle.permission_table.specs.Compiled.{AreCompiled};
ghost use Rattle.board_rules.specs.Pinning.{vehicle_of, pinned, pin_guard, freeze_guard, pin_refusal, unpin_refusal, freeze_refusal, thaw_refusal};
ghost use Rattle.board_rules.specs.State.{BoardState};
ghost use Rattle.board_rules.specs.Holds.{call_of, refusal_for};
ghost use Rattle.board_rules.specs.Step.{after};
ghost use Rattle.board_rules.specs.Rules.{is_one_of};
ghost use Rattle.board_state.specs.declared.change.Change.TheVariants.{Pins};
ghost use Rattle.board_state.specs.Held.{Holds, IsReady, held_basis};
ghost use Rattle.board_state.specs.Changes.{IsSettleable, PinsWillBe, WillHoldPins};
ghost use Rattle.board_state.specs.Replies.{hold_reply, IsRightReply};
ghost use Rattle.board_state.specs.Work.{WorksJust};

use crate::change::PinChange;
use crate::rules::is_one_of;
use crate::state::State;
use board_rules::{Hold, HoldRefusal, customers_have_one_spot};
use callback_store::Meter;
use dimension_core::Setup;
use rbac_core::{Object, Operation};

impl State {
    /// Judges a call on a pin or a frozen front: what it changes, or why it is refused.
    #[inline(always)]
    pub(crate) fn judge_hold(
        &self,
        setup: &Setup,
        hold: Hold,
        meter: &mut Meter,
    ) -> Result<PinChange, HoldRefusal>
        requires { IsReady (setting setup.now) self.now }
        ensures ready { IfOk result (λ change. IsSettleable self.now (Pins change)) }
        ensures reply { IsRightReply (setting setup.now) self.now (call_of hold) (hold_reply result) }
        ensures change { (state : BoardState) → Holds (setting setup.now) self.now state
            → WillHoldPins (setting setup.now) self.now result (after state (call_of hold) (hold_reply result)) }
        ensures work { WorksJust meter.old meter.new 0 1 }
    {
        self.agrees();
        match hold {
            Hold::Pin { session, customer } => self.judge_pin(setup, session, customer, meter),
            Hold::Unpin { session, customer } => self.judge_unpin(setup, session, customer, meter),
            Hold::Freeze {
                session,
                vehicle,
                length,
            } => self.judge_freeze(setup, session, vehicle, length, meter),
            Hold::Thaw {
                session,
                vehicle,
                length,
            } => self.judge_thaw(setup, session, vehicle, length, meter),
        }
    }

    #[tactic(auto, unfolding(board_rules::specs::Pinning::pin_guard))]
    fn pin_guard(
        &self,
        setup: &Setup,
        session: u32,
        customer: u32,
        meter: &mut Meter,
    ) -> Option<HoldRefusal>
        requires { ∥ AreCompiled self.now.tables self.now.policy.now ∥₁ }
        ensures refused { option_map refusal_for result ≡ pin_guard (setting setup.now) (held_basis self.now session) customer }
        ensures low { IfNone result (1 ≤ customer) }
        ensures high { IfNone result (customer ≤ (setting setup.now).customers) }
        ensures work { WorksJust meter.old meter.new 0 1 }
    {
        let may = self.may(session, Operation::Pin, Object::Customer(customer), meter);
        if !self.is_open(session, may) {
            return Some(HoldRefusal::NoSession);
        }
        if !is_one_of(setup.customers(), customer) {
            return Some(HoldRefusal::BadCustomer);
        }
        if !may {
            return Some(HoldRefusal::NoAccess);
        }
        None
    }

    #[tactic(auto, unfolding(board_rules::specs::Pinning::freeze_guard))]
    fn freeze_guard(
        &self,
        setup: &Setup,
        session: u32,
        vehicle: u32,
        meter: &mut Meter,
    ) -> Option<HoldRefusal>
        requires { ∥ AreCompiled self.now.tables self.now.policy.now ∥₁ }
        ensures refused { option_map refusal_for result ≡ freeze_guard (setting setup.now) (held_basis self.now session) vehicle }
        ensures low { IfNone result (1 ≤ vehicle) }
        ensures high { IfNone result (vehicle ≤ (setting setup.now).vehicles) }
        ensures work { WorksJust meter.old meter.new 0 1 }
    {
        let may = self.may(session, Operation::Freeze, Object::Vehicle(vehicle), meter);
        if !self.is_open(session, may) {
            return Some(HoldRefusal::NoSession);
        }
        if !is_one_of(setup.vehicles(), vehicle) {
            return Some(HoldRefusal::BadVehicle);
        }
        if !may {
            return Some(HoldRefusal::NoAccess);
        }
        None
    }

    /// The vehicle on which a customer stands.
    fn vehicle_of(&self, customer: u32) -> Option<u32>
        ensures { result ≡ vehicle_of self.now.plan.routes customer }
    {
        customers_have_one_spot();
        match self.plan.place_of(customer) {
            Some((vehicle, _)) => Some(vehicle),
            None => None,
        }
    }

    /// Judges a pin of a customer to the vehicle on which it stands.
    #[inline(always)]
    #[tactic(auto, unfolding(board_rules::specs::Pinning::pin_refusal))]
    fn judge_pin(
        &self,
        setup: &Setup,
        session: u32,
        customer: u32,
        meter: &mut Meter,
    ) -> Result<PinChange, HoldRefusal>
        requires compiled { ∥ AreCompiled self.now.tables self.now.policy.now ∥₁ }
        requires pins { length self.now.pins.pins ≡ (setting setup.now).customers }
        ensures refused { option_map refusal_for (result_err result)
            ≡ pin_refusal (setting setup.now) (held_basis self.now session) customer }
        ensures change { IfOk result (λ change. PinsWillBe self.now change (pinned self.now.plan.routes customer self.now.pins)) }
        ensures work { WorksJust meter.old meter.new 0 1 }
    {
        if let Some(refusal) = self.pin_guard(setup, session, customer, meter) {
            return Err(refusal);
        }
        let Some(vehicle) = self.vehicle_of(customer) else {
            return Err(HoldRefusal::NotPlaced);
        };
        if self.pins.pinned(customer).is_some() {
            return Err(HoldRefusal::Already);
        }
        Ok(PinChange::Pin(customer, vehicle))
    }

    /// Judges whether a customer may be unpinned.
    #[inline(always)]
    #[tactic(auto, unfolding(board_rules::specs::Pinning::unpin_refusal))]
    fn judge_unpin(
        &self,
        setup: &Setup,
        session: u32,
        customer: u32,
        meter: &mut Meter,
    ) -> Result<PinChange, HoldRefusal>
        requires compiled { ∥ AreCompiled self.now.tables self.now.policy.now ∥₁ }
        requires pins { length self.now.pins.pins ≡ (setting setup.now).customers }
        ensures refused { option_map refusal_for (result_err result)
            ≡ unpin_refusal (setting setup.now) (held_basis self.now session) customer }
        ensures change { IfOk result (λ change. PinsWillBe self.now change (with_pin customer None self.now.pins)) }
        ensures work { WorksJust meter.old meter.new 0 1 }
    {
        if let Some(refusal) = self.pin_guard(setup, session, customer, meter) {
            return Err(refusal);
        }
        if self.pins.pinned(customer).is_none() {
            return Err(HoldRefusal::NotThere);
        }
        Ok(PinChange::Unpin(customer))
    }

    /// Judges a longer frozen front. The length may be any number.
    #[inline(always)]
    #[tactic(auto, unfolding(board_rules::specs::Pinning::freeze_refusal))]
    fn judge_freeze(
        &self,
        setup: &Setup,
        session: u32,
        vehicle: u32,
        frozen: u32,
        meter: &mut Meter,
    ) -> Result<PinChange, HoldRefusal>
        requires compiled { ∥ AreCompiled self.now.tables self.now.policy.now ∥₁ }
        requires routes { length self.now.plan.routes ≡ (setting setup.now).vehicles }
        requires fronts { length self.now.pins.fronts ≡ (setting setup.now).vehicles }
        ensures refused { option_map refusal_for (result_err result)
            ≡ freeze_refusal (setting setup.now) (held_basis self.now session) vehicle frozen }
        ensures change { IfOk result (λ change. PinsWillBe self.now change (with_front vehicle frozen self.now.pins)) }
        ensures work { WorksJust meter.old meter.new 0 1 }
    {
        if let Some(refusal) = self.freeze_guard(setup, session, vehicle, meter) {
            return Err(refusal);
        }
        if self.pins.frozen(vehicle) >= frozen || frozen as usize > self.plan.route(vehicle).len() {
            return Err(HoldRefusal::Length);
        }
        Ok(PinChange::Front(vehicle, frozen))
    }

    /// Judges a shorter frozen front.
    #[inline(always)]
    #[tactic(auto, unfolding(board_rules::specs::Pinning::thaw_refusal))]
    fn judge_thaw(
        &self,
        setup: &Setup,
        session: u32,
        vehicle: u32,
        left: u32,
        meter: &mut Meter,
    ) -> Result<PinChange, HoldRefusal>
        requires compiled { ∥ AreCompiled self.now.tables self.now.policy.now ∥₁ }
        requires fronts { length self.now.pins.fronts ≡ (setting setup.now).vehicles }
        ensures refused { option_map refusal_for (result_err result)
            ≡ thaw_refusal (setting setup.now) (held_basis self.now session) vehicle left }
        ensures change { IfOk result (λ change. PinsWillBe self.now change (with_front vehicle left self.now.pins)) }
        ensures work { WorksJust meter.old meter.new 0 1 }
    {
        if let Some(refusal) = self.freeze_guard(setup, session, vehicle, meter) {
            return Err(refusal);
        }
        if self.pins.frozen(vehicle) <= left {
            return Err(HoldRefusal::Length);
        }
        Ok(PinChange::Front(vehicle, left))
    }
}
