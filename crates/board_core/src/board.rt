//! A board: a setup and the core that was opened with it.
ghost use Rattle.std.specs.Prelude.{◌≡◌, ◌≢◌, ℕ, ◌≤◌, ◌↔◌, ◌∷◌, ◌++◌, [], true, false, length, Some, None, IfOk, OnOk, IfErr, OnErr, IsErrOf, MatchResult};
ghost use Rattle.std.specs.Result.{result_err};
ghost use Rattle.dimension_core.specs.Setup.{setting};
ghost use Rattle.plan_core.specs.Plan.{route_at};
ghost use Rattle.pin_core.specs.Pins.{pin_of, front_of};
ghost use Rattle.board_core.specs.Kept.{IsKept, entry_of};
ghost use Rattle.board_core.specs.Alone.{IsKept-prop};
ghost use Rattle.board_core.specs.Plans.{IsPlanOf};
ghost use Rattle.board_core.specs.Prepared.{Makes};
ghost use Rattle.board_rules.specs.declared.call.Call.TheVariants.{Policy};
ghost use Rattle.board_rules.specs.declared.reply.Fault.{Fault};
ghost use Rattle.rbac_core.specs.declared.command.Command.{Command};
ghost use Rattle.board_rules.specs.declared.reply.AskFault.{AskFault};
ghost use Rattle.board_rules.specs.Good.{state_of};
ghost use Rattle.board_rules.specs.History.{is_turn, turns_of, IsLegal};
ghost use Rattle.board_rules.specs.Delta.{spot_in};
ghost use Rattle.board_rules.specs.Listing.{IsListing};
ghost use Rattle.board_rules.specs.Questions.{MayAsk, list_fault, audit_fault, review_fault, review_of, check_of};
ghost use Rattle.board_state.specs.Changes.{IsGivenUp, GivesUp};
ghost use Rattle.board_state.specs.Work.{WorksAtMost, IsWorkOf, call_asks, call_probes};

use crate::body::Core;
use crate::prepared::Prepared;
use board_journal::Journal;
use board_rules::{AskFault, Event, Fault, Reply, Review, Row};
use callback_store::Meter;
use dimension_core::Setup;
use limits::MOST_DESKS;
use plan_core::{Plan, Route};
use rbac_core::{Object, Operation};
use separation_core::Name;
use std::alloc::{AllocError, Global};
use std::sync::Arc;

/// A setup and the core that was opened with it. A crate above may take the two apart, and lend the setup to the core.
#[derive(Drop)]
pub struct Board {
    pub setup: Arc<Setup>,
    pub core: Core,
    ghost kept: { IsKept (setting setup.value) core } by { IsKept-prop _ _ },
}

impl Board {
    ghost use Rattle.board_core.specs.Boards.{history};

    /// A board over the setup with desks 1 to `desks`, which are 1 to 64. It begins with an empty plan at version 0, the user `root`
    /// assigned to the role `root`, and session 1 of that user with that role active; the role has `admin` on the board and nothing else.
    pub fn new(alloc: Global, setup: Arc<Setup>, desks: u32) -> Result<Board, AllocError>
        requires low { 1 ≤ desks }
        requires high { desks ≤ MOST_DESKS }
        ensures { IfOk result (λ board. history board
            ≡ record { opening = record { setting = setting setup.value; desks = desks }; entries = [] }) }
    {
        let core = Core::new(alloc, &setup, desks)?;
        Ok(Board { setup, core })
    }

    /// Judges an event, and journals it with its reply. Faults, in order: `OutOfTurn`, where there is no such desk or the turn is not the
    /// desk's last plus one; `Full`, where the journal holds the setup's greatest number of events; `NoMemory`. A faulted event is not
    /// journaled, and the history stays as it is.
    pub fn apply(&mut self, event: Event, meter: &mut Meter) -> Result<Reply, Fault>
        ensures ok { IfOk result (λ reply. (history self.new).entries ≡ (history self.old).entries ++ entry_of event reply ∷ []) }
        ensures opening { (history self.new).opening ≡ (history self.old).opening }
        ensures out_of_turn { IsErrOf result Fault.OutOfTurn
            ↔ (is_turn (history self.old).opening.desks (history self.old).entries event.desk event.turn ≡ false) }
        ensures full { IsErrOf result Fault.Full
            ↔ ((is_turn (history self.old).opening.desks (history self.old).entries event.desk event.turn ≡ true)
            × (length (history self.old).entries ≡ (history self.old).opening.setting.max_events)) }
        ensures untaken { IfErr result (λ fault. fault ≢ Fault.NoMemory → meter.new ≡ meter.old) }
        ensures err { OnErr result (history self.new ≡ history self.old) }
        ensures given_up { (session : ℕ) (command : Command) → event.call ≡ Policy session command
            → OnOk result (self.new.core.held.policy.tried ≡ self.new.core.held.policy.now) }
        ensures untried { self.old.core.held.policy.tried ≡ self.old.core.held.policy.now
            → self.new.core.held.policy.tried ≡ self.new.core.held.policy.now }
        ensures legal { IsLegal (history self.new) }
        ensures work { IfOk result (λ reply. IsWorkOf (history self.old).opening.setting (state_of (history self.old)).pins
            (state_of (history self.old)).routes event.call reply meter.old meter.new) }
        ensures most { WorksAtMost meter.old meter.new
            (call_asks (history self.old).opening.setting (state_of (history self.old)).routes event.call)
            (call_probes (state_of (history self.old)).pins (state_of (history self.old)).routes event.call) }
    {
        self.core.apply(&self.setup, event, meter)
    }

    /// Judges an event, and makes every growth that it needs; the history stays as it is. Faults, in order: `OutOfTurn`, `Full`,
    /// `NoMemory`. What was prepared is to be settled or given up.
    pub fn prepare(&mut self, event: Event, meter: &mut Meter) -> Result<Prepared, Fault>
        ensures history { history self.new ≡ history self.old }
        ensures of { IfOk result (λ prepared. prepared.of ≡ self.new.core) }
        ensures entry { IfOk result (λ prepared. prepared.entry ≡ entry_of event prepared.entry.reply) }
        ensures makes { IfOk result (Makes (history self.old).opening.setting) }
        ensures given_up { (session : ℕ) (command : Command) → event.call ≡ Policy session command
            → IfOk result (λ prepared. IsGivenUp prepared.judged.change self.new.core.held.policy) }
        ensures untried { self.old.core.held.policy.tried ≡ self.old.core.held.policy.now
            → MatchResult result (λ prepared. IsGivenUp prepared.judged.change self.new.core.held.policy)
            (λ _. self.new.core.held.policy.tried ≡ self.new.core.held.policy.now) }
        ensures out_of_turn { IsErrOf result Fault.OutOfTurn
            ↔ (is_turn (history self.old).opening.desks (history self.old).entries event.desk event.turn ≡ false) }
        ensures full { IsErrOf result Fault.Full
            ↔ ((is_turn (history self.old).opening.desks (history self.old).entries event.desk event.turn ≡ true)
            × (length (history self.old).entries ≡ (history self.old).opening.setting.max_events)) }
        ensures untaken { IfErr result (λ fault. fault ≢ Fault.NoMemory → meter.new ≡ meter.old) }
        ensures work { IfOk result (λ prepared. IsWorkOf (history self.old).opening.setting (state_of (history self.old)).pins
            (state_of (history self.old)).routes event.call prepared.entry.reply meter.old meter.new) }
        ensures most { WorksAtMost meter.old meter.new
            (call_asks (history self.old).opening.setting (state_of (history self.old)).routes event.call)
            (call_probes (state_of (history self.old)).pins (state_of (history self.old)).routes event.call) }
    {
        self.core.prepare(&self.setup, event, meter)
    }

    /// Puts a judged event in place: it is journaled with its reply. It takes no memory.
    ///
    /// The contract requires that the board's core is equal, as contracts see it, to the one that `prepare` left when it judged the event
    /// (`of`), and that the entry may come next (`makes`). `prepare` promises both of what it answered. Contracts see of a core what it
    /// holds, what is tried on the spare policy, its journal, its turns and the room for growth. So pass what the last `prepare` of this
    /// board answered, and settle nothing in between: after a `settle`, `apply`, `give_up` or another `prepare` the core may be another one,
    /// also after a fault.
    pub fn settle(&mut self, prepared: Prepared) -> Reply
        requires of { prepared.of ≡ self.old.core }
        requires makes { Makes (history self.old).opening.setting prepared }
        ensures entries { (history self.new).entries ≡ (history self.old).entries ++ prepared.entry ∷ [] }
        ensures opening { (history self.new).opening ≡ (history self.old).opening }
        ensures legal { IsLegal (history self.new) }
        ensures untried { IsGivenUp prepared.judged.change self.old.core.held.policy
            → self.new.core.held.policy.tried ≡ self.new.core.held.policy.now }
        ensures reply { result ≡ prepared.entry.reply }
    {
        self.core.settle(prepared)
    }

    /// Gives up the policy command that is tried, if there is one: nothing is tried any more, and all else stays. Call it where an event was
    /// prepared and is not to be settled. It takes no memory.
    pub fn give_up(&mut self)
        ensures held { GivesUp self.old.core.held self.new.core.held }
        ensures others { self.new.core ≡ record self.old.core { held = self.new.core.held } }
        ensures history { history self.new ≡ history self.old }
        ensures untried { self.new.core.held.policy.tried ≡ self.new.core.held.policy.now }
    {
        self.core.give_up();
    }

    /// The rows of the whole plan that the session may read: by vehicle and place, and then the unassigned customers by number, with
    /// `view` on the customer and, where it is placed, on its vehicle. A row of a placed customer has the early value of each dimension.
    /// Faults, in order: `NoSession`, `NoMemory`.
    pub fn list(&self, session: u32) -> Result<Vec<Row>, AskFault>
        ensures rows { IfOk result (λ rows. IsListing (history self.now).opening.setting (state_of (history self.now)) session rows.items) }
        ensures asked { OnOk result (list_fault (state_of (history self.now)) session ≡ None) }
        ensures fault { IfErr result (MayAsk (list_fault (state_of (history self.now)) session)) }
        ensures no_session { IsErrOf result AskFault.NoSession
            ↔ (list_fault (state_of (history self.now)) session ≡ Some AskFault.NoSession) }
    {
        self.core.list(&self.setup, session)
    }

    /// The journal, lent to a session that may `audit` the board. Faults, in order: `NoSession`, `NoAccess`. It takes no memory.
    pub fn audit(&self, session: u32) -> Result<&Journal, AskFault>
        ensures entries { IfOk result (λ journal. journal.now.entries ≡ (history self.now).entries) }
        ensures asked { result_err result ≡ audit_fault (state_of (history self.now)) session }
    {
        self.core.audit(session)
    }

    /// The names that a review shows, for a session that may `audit` the board. Faults, in order: `NoSession`, `NoAccess`, then `NoRole`,
    /// `NoUser` or `NotThere` where there is no such role, user or session to review, `NoMemory`.
    pub fn review(&self, session: u32, which: Review) -> Result<Vec<Name>, AskFault>
        ensures names { IfOk result (λ names. names.items ≡ review_of (state_of (history self.now)).policy which) }
        ensures asked { OnOk result (review_fault (state_of (history self.now)) session which ≡ None) }
        ensures fault { IfErr result (MayAsk (review_fault (state_of (history self.now)) session which)) }
        ensures barred { (f : AskFault) → audit_fault (state_of (history self.now)) session ≡ Some f → IsErrOf result f }
    {
        self.core.review(session, which)
    }

    /// CheckAccess: false for a session or an object that is not there.
    pub fn check(&self, session: u32, operation: Operation, object: Object) -> bool
        ensures { result ≡ check_of (state_of (history self.now)) session operation object }
    {
        self.core.check(session, operation, object)
    }

    /// How many commits there were.
    pub fn version(&self) -> u32
        ensures version { result ≡ length (state_of (history self.now)).commits }
        ensures legal { IsLegal (history self.now) }
    {
        self.core.version()
    }

    /// The plan.
    pub fn plan(&self) -> &Plan
        ensures plan { IsPlanOf (history self.now).opening.setting (state_of (history self.now)) result.now }
        ensures legal { IsLegal (history self.now) }
    {
        self.core.plan()
    }

    /// The setup.
    pub fn setup(&self) -> &Arc<Setup>
        ensures { setting result.now.value ≡ (history self.now).opening.setting }
    {
        &self.setup
    }

    /// How many desks there are: 1 to 64.
    pub fn desks(&self) -> u32
        ensures value { result ≡ (history self.now).opening.desks }
        ensures low { 1 ≤ result }
        ensures high { result ≤ MOST_DESKS }
    {
        self.core.desks()
    }

    /// The desk's last turn, 0 before its first. The desk is 1 to `desks()`.
    pub fn turns(&self, desk: u32) -> u32
        requires low { 1 ≤ desk }
        requires high { desk ≤ (history self.now).opening.desks }
        ensures value { result ≡ turns_of desk (history self.now).entries }
        ensures few { result ≤ (history self.now).opening.setting.max_events }
    {
        self.core.turns(desk)
    }

    /// How many entries the journal has.
    pub fn events(&self) -> usize
        ensures value { result ≡ length (history self.now).entries }
        ensures few { result ≤ (history self.now).opening.setting.max_events }
    {
        self.core.events()
    }

    /// The route of a vehicle, which is 1 to the fleet's size.
    pub fn route(&self, vehicle: u32) -> &Arc<Route>
        requires low { 1 ≤ vehicle }
        requires high { vehicle ≤ (history self.now).opening.setting.vehicles }
        ensures { result.now.value ≡ route_at (state_of (history self.now)).routes vehicle }
    {
        self.core.route(vehicle)
    }

    /// The vehicle and the place of a customer, if it stands somewhere. It may be any number.
    pub fn place_of(&self, customer: u32) -> Option<(u32, u32)>
        ensures { result ≡ spot_in (state_of (history self.now)).routes customer }
    {
        self.core.place_of(customer)
    }

    /// The vehicle to which a customer is pinned, if any. The customer is 1 to the number of customers.
    pub fn pinned(&self, customer: u32) -> Option<u32>
        requires low { 1 ≤ customer }
        requires high { customer ≤ (history self.now).opening.setting.customers }
        ensures { result ≡ pin_of (state_of (history self.now)).pins customer }
    {
        self.core.pinned(customer)
    }

    /// How many stops at the front of a vehicle's route are frozen. The vehicle is 1 to the fleet's size.
    pub fn frozen(&self, vehicle: u32) -> u32
        requires low { 1 ≤ vehicle }
        requires high { vehicle ≤ (history self.now).opening.setting.vehicles }
        ensures { result ≡ front_of (state_of (history self.now)).pins vehicle }
    {
        self.core.frozen(vehicle)
    }
}
