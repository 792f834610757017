//! What is held of a board's state.
ghost use Rattle.std.specs.Prelude.{◌≡◌, ◌≤◌, ℕ, true, replicate, [], IfOk};
ghost use Rattle.dimension_core.specs.Setting.{Setting};
ghost use Rattle.dimension_core.specs.Setup.{setting};
ghost use Rattle.policy_core.specs.Access.{has_access};
ghost use Rattle.policy_core.specs.Opening.{opening};
ghost use Rattle.permission_table.specs.Compiled.{AreCompiled, HasSizes};
ghost use Rattle.board_rules.specs.State.{BoardState};
ghost use Rattle.board_state.specs.Held.{Holds, IsOpening, IsOpened, empty_plan, no_pins};
ghost use Rattle.range_cache.specs.Cache.{IsCacheOf};
ghost use Rattle.board_state.specs.Work.{WorksJust};
ghost use Rattle.permission_table.specs.Tables.{allows, rows_of};
ghost use Rattle.std.specs.Option.{option_map};
ghost use Rattle.policy_core.specs.State.{is_session};

use crate::change::Workspace;
use callback_store::Meter;
use dimension_core::Setup;
use limits::{MOST_CUSTOMERS, MOST_VEHICLES};
use permission_table::{SessionRows, Tables};
use pin_core::Pins;
use plan_core::Plan;
use range_cache::Cache;
use rbac_core::{Object, Operation, Policy, Twin};
use std::alloc::{AllocError, Global};
use std::marker::Model;

/// The policy, its compiled permissions, the plan, its pins and freezes, and the ranges along its routes.
pub struct State {
    pub(crate) policy: Twin,
    pub(crate) tables: Tables,
    pub(crate) plan: Plan,
    pub(crate) pins: Pins,
    pub(crate) cache: Cache,
    /// This is no part of what is held: the memory of the last proposal that had an effect.
    pub(crate) workspace: Workspace,
}

// Written by hand: a derived drop is expanded, down to each list, at every place where a value is dropped.
impl Drop for State {
    fn drop(self) {
        let State {
            policy: _,
            tables: _,
            plan: _,
            pins: _,
            cache: _,
            workspace: _,
        } = self;
    }
}

impl Model for State {
    ghost use Rattle.board_state.specs.Held.{HeldState};

    ghost Value = { HeldState };

    ghost view = { λ a. record { policy = a.policy; tables = a.tables; plan = a.plan; pins = a.pins; cache = a.cache } };
}

impl State {
    /// What is held before the first call of a board.
    pub fn new(alloc: Global, setup: &Setup) -> Result<State, AllocError>
        ensures { IfOk result (IsOpening (setting setup.now)) }
    {
        let (policy, tables) = opening_permissions(alloc, setup.customers(), setup.vehicles())?;
        let (plan, pins, cache) = empty_plan(alloc, setup)?;
        Ok(State {
            policy,
            tables,
            plan,
            pins,
            cache,
            workspace: Workspace::new(alloc),
        })
    }

    /// The policy.
    pub fn policy(&self) -> &Policy
        ensures { result.now ≡ self.now.policy.now }
    {
        self.policy.policy()
    }

    /// The plan.
    pub fn plan(&self) -> &Plan
        ensures { result.now ≡ self.now.plan }
    {
        &self.plan
    }

    /// The pins and frozen lengths.
    pub fn pins(&self) -> &Pins
        ensures { result.now ≡ self.now.pins }
    {
        &self.pins
    }

    /// The ranges along the routes.
    pub fn cache(&self) -> &Cache
        ensures { result.now ≡ self.now.cache }
    {
        &self.cache
    }

    /// CheckAccess of the policy.
    pub fn check(&self, session: u32, operation: Operation, object: Object) -> bool
        ensures { (s : Setting) (state : BoardState) → Holds s self.now state → result ≡ has_access state.policy session operation object }
    {
        let mut meter = Meter::new();
        self.may(session, operation, object, &mut meter)
    }

    /// The compiled permissions of a session, for `check_in`.
    pub fn session_rows(&self, session: u32) -> Option<&SessionRows>
        ensures { option_map (λ found. found.now) result ≡ rows_of self.now.tables session }
    {
        self.tables.session_rows(session)
    }

    /// What `check` answers for a session with these permissions, without looking them up again.
    #[inline(always)]
    pub fn check_in(
        &self,
        found: Option<&SessionRows>,
        operation: Operation,
        object: Object,
    ) -> bool
        ensures { (s : Setting) (state : BoardState) (session : ℕ) → Holds s self.now state
            → option_map (λ rows. rows.now) found.entry ≡ rows_of self.now.tables session
            → result ≡ has_access state.policy session operation object }
    {
        self.tables.allows(found, operation, object)
    }

    /// Whether there is such a session.
    pub(crate) fn is_session(&self, session: u32) -> bool
        ensures { result ≡ is_session self.now.policy.now session }
    {
        self.policy.policy().is_session(session)
    }

    /// CheckAccess for a session whose permissions were found: one probe.
    #[tactic(auto, using(crate::proofs::WorkLaws::probed))]
    #[inline(always)]
    pub(crate) fn may_by(
        &self,
        session: u32,
        found: Option<&SessionRows>,
        operation: Operation,
        object: Object,
        meter: &mut Meter,
    ) -> bool
        requires { option_map (λ rows. rows.now) found ≡ rows_of self.now.tables session }
        ensures value { result ≡ allows self.now.tables session operation object }
        ensures work { WorksJust meter.old meter.new 0 1 }
    {
        let _few = meter.probes;
        self.tables.check_in(found, operation, object, meter)
    }

    /// CheckAccess: one probe.
    #[inline(always)]
    pub(crate) fn may(
        &self,
        session: u32,
        operation: Operation,
        object: Object,
        meter: &mut Meter,
    ) -> bool
        ensures value { result ≡ allows self.now.tables session operation object }
        ensures work { WorksJust meter.old meter.new 0 1 }
    {
        let found = self.session_rows(session);
        self.may_by(session, found, operation, object, meter)
    }
}

/// The opening policy with its spare one, and its permissions compiled.
fn opening_permissions(
    alloc: Global,
    customers: u32,
    vehicles: u32,
) -> Result<(Twin, Tables), AllocError>
    requires few_customers { customers ≤ MOST_CUSTOMERS }
    requires few_vehicles { vehicles ≤ MOST_VEHICLES }
    ensures { IfOk result (λ r. IsOpened customers vehicles r.0.now r.1) }
{
    let (opening, tables) = opening_policy(alloc, customers, vehicles)?;
    let policy = Twin::new(alloc, opening)?;
    Ok((policy, tables))
}

/// An empty plan with no pin, and its ranges.
fn empty_plan(alloc: Global, setup: &Setup) -> Result<(Plan, Pins, Cache), AllocError>
    ensures plan { IfOk result (λ r. r.0 ≡ empty_plan (setting setup.now).customers (setting setup.now).vehicles) }
    ensures pins { IfOk result (λ r. r.1 ≡ no_pins (setting setup.now).customers (setting setup.now).vehicles) }
    ensures cache { IfOk result (λ r. IsCacheOf (setting setup.now) (replicate (setting setup.now).vehicles []) r.2) }
{
    let customers = setup.customers();
    let vehicles = setup.vehicles();
    let plan = Plan::new(alloc, customers, vehicles)?;
    let pins = Pins::new(alloc, customers, vehicles)?;
    let cache = Cache::new(alloc, setup)?;
    Ok((plan, pins, cache))
}

/// The opening policy with its permissions compiled.
fn opening_policy(
    alloc: Global,
    customers: u32,
    vehicles: u32,
) -> Result<(Policy, Tables), AllocError>
    requires few_customers { customers ≤ MOST_CUSTOMERS }
    requires few_vehicles { vehicles ≤ MOST_VEHICLES }
    ensures { IfOk result (λ r. IsOpened customers vehicles r.0 r.1) }
{
    let opening = Policy::opening(alloc, customers, vehicles)?;
    let tables = opening_tables(alloc, &opening, customers, vehicles)?;
    Ok((opening, tables))
}

/// The permissions of the opening policy, compiled.
fn opening_tables(
    alloc: Global,
    policy: &Policy,
    customers: u32,
    vehicles: u32,
) -> Result<Tables, AllocError>
    requires few_customers { customers ≤ MOST_CUSTOMERS }
    requires few_vehicles { vehicles ≤ MOST_VEHICLES }
    requires opening { policy.now ≡ opening customers vehicles }
    ensures compiled { IfOk result (λ tables. AreCompiled tables policy.now) }
    ensures sizes { IfOk result (HasSizes policy.now) }
{
    let mut tables = Tables::new(alloc, customers, vehicles)?;
    let rows = tables.rebuild(policy, &[1])?;
    tables.put(rows);
    Ok(tables)
}
