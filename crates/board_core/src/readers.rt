//! Readers of a board, for the crates above. None of them checks a permission or takes memory.
ghost use Rattle.std.specs.Prelude.{◌≡◌, ◌≤◌, length};
ghost use Rattle.dimension_core.specs.Setting.{Setting};
ghost use Rattle.plan_core.specs.Plan.{route_at};
ghost use Rattle.pin_core.specs.Pins.{pin_of, front_of};
ghost use Rattle.board_rules.specs.Delta.{spot_in};
ghost use Rattle.board_rules.specs.History.{state_after, turns_of};
ghost use Rattle.board_rules.specs.Questions.{check_of};
ghost use Rattle.board_core.specs.Kept.{IsKept, HasVehicle, HasCustomer};
ghost use Rattle.board_core.specs.Plans.{IsPlanOf};

use crate::body::Core;
use board_journal::Journal;
use board_rules::{customers_have_one_spot, legal_histories_leave_good_states};
use limits::MOST_DESKS;
use plan_core::{Plan, Route};
use rbac_core::{Object, Operation};
use std::sync::Arc;

impl Core {
    /// The journal: each call that was answered, in order, with its reply.
    pub fn journal(&self) -> &Journal
        ensures { result.now.entries ≡ self.now.journal }
    {
        &self.journal
    }

    /// How many entries the journal has: at most the setup's greatest number of events.
    pub fn events(&self) -> usize
        ensures value { result ≡ length self.now.journal }
        ensures few { (s : Setting) → IsKept s self.now → result ≤ s.max_events }
    {
        self.journal.len()
    }

    /// How many desks there are: 1 to 64.
    pub fn desks(&self) -> u32
        requires { (s : Setting) × IsKept s self.now }
        ensures value { result ≡ length self.now.turns }
        ensures low { 1 ≤ result }
        ensures high { result ≤ MOST_DESKS }
    {
        self.turns.len() as u32
    }

    /// The desk's last turn, 0 before its first. The desk is 1 to `desks()`.
    pub fn turns(&self, desk: u32) -> u32
        requires low { 1 ≤ desk }
        requires high { desk ≤ length self.now.turns }
        ensures value { (s : Setting) → IsKept s self.now → result ≡ turns_of desk self.now.journal }
        ensures few { (s : Setting) → IsKept s self.now → result ≤ s.max_events }
    {
        self.last_turn(desk)
    }

    /// The desk's last turn.
    fn last_turn(&self, desk: u32) -> u32
        requires low { 1 ≤ desk }
        requires high { desk ≤ length self.now.turns }
        ensures { (s : Setting) → IsKept s self.now → result ≡ turns_of desk self.now.journal }
    {
        self.turns[desk as usize - 1]
    }

    /// The plan.
    pub fn plan(&self) -> &Plan
        ensures { (s : Setting) → IsKept s self.now → IsPlanOf s (state_after s self.now.journal) result.now }
    {
        self.state.plan()
    }

    /// How many commits there were.
    pub fn version(&self) -> u32
        ensures { (s : Setting) → IsKept s self.now → result ≡ length (state_after s self.now.journal).commits }
    {
        self.state.plan().version()
    }

    /// CheckAccess: false for a session or an object that is not there.
    pub fn check(&self, session: u32, operation: Operation, object: Object) -> bool
        ensures { (s : Setting) → IsKept s self.now → result ≡ check_of (state_after s self.now.journal) session operation object }
    {
        self.state.check(session, operation, object)
    }

    /// The route of a vehicle, which is 1 to the fleet's size.
    pub fn route(&self, vehicle: u32) -> &Arc<Route>
        requires { HasVehicle self.now vehicle }
        ensures { (s : Setting) → IsKept s self.now → result.now.value ≡ route_at (state_after s self.now.journal).routes vehicle }
    {
        self.state.plan().route(vehicle)
    }

    /// The vehicle and the place of a customer, if it stands somewhere. It may be any number.
    pub fn place_of(&self, customer: u32) -> Option<(u32, u32)>
        ensures { (s : Setting) → IsKept s self.now → result ≡ spot_in (state_after s self.now.journal).routes customer }
    {
        customers_have_one_spot();
        self.state.plan().place_of(customer)
    }

    /// The vehicle to which a customer is pinned, if any. The customer is 1 to the number of customers.
    pub fn pinned(&self, customer: u32) -> Option<u32>
        requires { HasCustomer self.now customer }
        ensures { (s : Setting) → IsKept s self.now → result ≡ pin_of (state_after s self.now.journal).pins customer }
    {
        legal_histories_leave_good_states();
        self.state.pins().pinned(customer)
    }

    /// How many stops at the front of a vehicle's route are frozen. The vehicle is 1 to the fleet's size.
    pub fn frozen(&self, vehicle: u32) -> u32
        requires { HasVehicle self.now vehicle }
        ensures { (s : Setting) → IsKept s self.now → result ≡ front_of (state_after s self.now.journal).pins vehicle }
    {
        legal_histories_leave_good_states();
        self.state.pins().frozen(vehicle)
    }
}
