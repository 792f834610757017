//! Tables of permissions, and the rows that a change of the policy puts into them.
ghost use Rattle.std.specs.Prelude.{◌≡◌, ◌<◌, ◌≤◌, ◌+◌, ◌/◌, ℕ, List, true, false, [], None, IfOk, OnOk, length, nat_eq, is_some, unwrap_or, ◌==◌, if◌then◌else◌};
ghost use Rattle.std.specs.Map.{lookup};
ghost use Rattle.std.specs.Option.{option_map};
ghost use Rattle.callback_store.specs.Meter.{after_probe};
ghost use Rattle.permission_core.specs.declared.objects.ObjectRange.{ObjectRange as ARange};
ghost use Rattle.role_hierarchy.specs.Below.{IsOrder};
ghost use Rattle.permission_core.specs.Objects.{first_of, size_of, is_bad_range};
ghost use Rattle.policy_core.specs.State.{PolicyState, slot_of};
ghost use Rattle.policy_core.specs.Commands.{granted, grant_refusal, revoked, inherited, uninherited, role_gone};
ghost use Rattle.permission_table.specs.Bits.{allowed_by};
ghost use Rattle.permission_table.specs.Tables.{TablesState, RowsState, no_rows, rows_of, rows_at, allows, rows_after, will_allow, is_among};
ghost use Rattle.permission_table.specs.Rights.{granted_to, revoked_from, refreshed, refreshed_above, made_anew, refreshed_without, all_changed};
ghost use Rattle.permission_table.specs.Compiled.{AreCompiled, WillBeCompiled, SameAccessBut, HasSizes, AreRowsOf, AreChangesOf};

use crate::row::SessionRows;
use crate::sessions::Sessions;
use callback_store::Meter;
use limits::{MOST_CUSTOMERS, MOST_VEHICLES};
use permission_core::{Object, ObjectRange, Operation};
use policy_core::Policy;
use separation_core::Name;
use std::alloc::{AllocError, Global};
use std::marker::Model;
use std::snapshot::Snapshot;

/// For each session and operation a row of bits, one for each object, so that CheckAccess is a look-up of the session and a test of one
/// word.
pub struct Tables {
    customers: u32,
    vehicles: u32,
    rows: Sessions,
}

// Written by hand: a derived drop is expanded, down to each list, at every place where a value is dropped.
impl Drop for Tables {
    fn drop(self) {
        let Tables {
            customers: _,
            vehicles: _,
            rows: _,
        } = self;
    }
}

impl Model for Tables {
    ghost use Rattle.std.specs.Prelude.{◌≤◌};
    ghost use Rattle.limits.specs.declared.TheConstants.{MOST_CUSTOMERS, MOST_VEHICLES};
    ghost use Rattle.permission_table.specs.Tables.{TablesState};

    ghost Value = { TablesState };

    ghost use Rattle.permission_table.specs.Seen.{state_of};

    ghost view = { state_of };

    ghost invariant = { λ a. (a.customers ≤ MOST_CUSTOMERS) × (a.vehicles ≤ MOST_VEHICLES) };
}

/// What becomes of a session's rows: these rows, or none.
type Change = (u32, Option<SessionRows>);

/// Rows that were made for tables and are to be put into them.
#[derive(Drop)]
pub struct Rows {
    of: Snapshot<Tables>,
    changes: Vec<Change>,
}

impl Model for Rows {
    ghost use Rattle.std.specs.Prelude.{◌≤◌, length};
    ghost use Rattle.permission_table.specs.Tables.{RowsState};

    ghost Value = { RowsState };

    ghost view = { λ a. record { of = a.of.value; changes = a.changes.items } };

    ghost invariant = { λ a. length a.changes.items ≤ a.of.value.room };
}

impl Tables {
    /// Tables over these customers and vehicles, at most 1,000 of each, with rows for no session and room for the first.
    pub fn new(alloc: Global, customers: u32, vehicles: u32) -> Result<Tables, AllocError>
        requires customers { customers ≤ MOST_CUSTOMERS }
        requires vehicles { vehicles ≤ MOST_VEHICLES }
        ensures empty { IfOk result (λ tables. tables ≡ no_rows customers vehicles tables.room) }
        ensures compiled { IfOk result (λ tables. (p : PolicyState) → p.sessions ≡ [] → AreCompiled tables p) }
    {
        Ok(Tables {
            customers,
            vehicles,
            rows: Sessions::new(alloc)?,
        })
    }

    /// The rows of these sessions by the policy, for `put`. The policy must be over the customers and vehicles of these tables.
    ///
    /// A session that is not in the policy gets no rows. Every growth is made here, and no bit changes. Where memory runs out, there may be
    /// more room than before, and nothing else differs.
    pub fn rebuild(&mut self, policy: &Policy, sessions: &[u32]) -> Result<Rows, AllocError>
        requires sizes { HasSizes policy.now self.old }
        ensures kept { self.new ≡ record self.old { room = self.new.room } }
        ensures room { self.old.room ≤ self.new.room }
        ensures ready { OnOk result (length sessions.now ≤ self.new.room) }
        ensures of { IfOk result (λ rows. rows.of ≡ self.new) }
        ensures rebuilt { IfOk result (λ rows. (session : ℕ) → is_among sessions.now session ≡ true →
            AreRowsOf policy.now session (rows_after rows session)) }
        ensures others { IfOk result (λ rows. (session : ℕ) → is_among sessions.now session ≡ false →
            rows_after rows session ≡ rows_of self.old session) }
        ensures compiled { IfOk result (λ rows. (before : PolicyState) → AreCompiled self.old before →
            SameAccessBut sessions.now before policy.now → WillBeCompiled rows policy.now) }
    {
        let changes = changes_for(self.rows.allocator(), policy, sessions)?;
        self.rows.reserve(sessions.len())?;
        Ok(Rows {
            of: Snapshot::of(self),
            changes,
        })
    }

    /// Puts the rows in place. The contract requires that the tables still are, as contracts see them, those for which the rows were made:
    /// so pass what the last `rebuild` answered, with nothing put in place since. It takes no memory, and gives back the memory of the rows
    /// that the sessions had before; a session without new rows has none afterwards.
    pub fn put(&mut self, rows: Rows)
        requires { rows.of ≡ self.old }
        ensures rows { (session : ℕ) → rows_of self.new session ≡ rows_after rows session }
        ensures kept { self.new ≡ record self.old { rows = self.new.rows; room = self.new.room } }
        ensures compiled { (p : PolicyState) → WillBeCompiled rows p → AreCompiled self.new p }
    {
        let Rows { of: _, changes } = rows;
        put_all(&mut self.rows, changes);
    }

    /// Follows GrantPermission: of each session that reaches the role, the row of that operation takes in what the role now may do to the
    /// objects of the range. No other row is written, and no memory is taken. The policy is the one after the command, over the customers
    /// and vehicles of these tables, and the command was not refused.
    pub fn grant(&mut self, policy: &Policy, role: Name, operation: Operation, range: ObjectRange)
        requires sizes { HasSizes policy.now self.old }
        ensures kept { self.new ≡ record self.old { rows = self.new.rows } }
        ensures compiled { (before : PolicyState) → AreCompiled self.old before → grant_refusal before role range ≡ None →
            policy.now ≡ granted before role operation range → AreCompiled self.new policy.now }
    {
        let slot = slot_or_zero(policy, role);
        let words = words_of(range, self.customers, self.vehicles);
        grant_all(&mut self.rows, policy, slot, operation, words);
    }

    /// Follows RevokePermission: of each session that reaches the role, the row of that operation is made anew. No other row is written, and
    /// no memory is taken. The policy is the one after the command, over the customers and vehicles of these tables.
    pub fn revoke(&mut self, policy: &Policy, role: Name, operation: Operation)
        requires sizes { HasSizes policy.now self.old }
        ensures kept { self.new ≡ record self.old { rows = self.new.rows } }
        ensures compiled { (before : PolicyState) (range : ARange) → AreCompiled self.old before →
            policy.now ≡ revoked before role operation range → AreCompiled self.new policy.now }
    {
        let slot = slot_or_zero(policy, role);
        revoke_all(&mut self.rows, policy, slot, operation);
    }

    /// Follows AddInheritance: each session that reaches the senior role, and now reaches more roles, gets new rows in place. No other row is
    /// written, and no memory is taken. The policy is the one after the command, over the customers and vehicles of these tables.
    pub fn inherit(&mut self, policy: &Policy, senior: Name, junior: Name)
        requires sizes { HasSizes policy.now self.old }
        ensures kept { self.new ≡ record self.old { rows = self.new.rows } }
        ensures compiled { (before : PolicyState) → AreCompiled self.old before → IsOrder before.order →
            policy.now ≡ inherited before senior junior → AreCompiled self.new policy.now }
    {
        let above = slot_or_zero(policy, senior);
        let _below = slot_or_zero(policy, junior);
        inherit_all(&mut self.rows, policy, above);
    }

    /// Follows DeleteInheritance: each session that now reaches other roles gets new rows in place. No other row is written, and no memory
    /// is taken. The policy is the one after the command, over the customers and vehicles of these tables.
    pub fn uninherit(&mut self, policy: &Policy)
        requires sizes { HasSizes policy.now self.old }
        ensures kept { self.new ≡ record self.old { rows = self.new.rows } }
        ensures compiled { (before : PolicyState) (senior junior : List ℕ) → AreCompiled self.old before →
            policy.now ≡ uninherited before senior junior → AreCompiled self.new policy.now }
    {
        refresh_all(&mut self.rows, policy);
    }

    /// Follows DeleteRole, of the role that had this slot: each session that reached it, or that now reaches other roles, gets new rows in
    /// place. No other row is written, and no memory is taken. The policy is the one after the command, over the customers and vehicles of
    /// these tables.
    pub fn delete_role(&mut self, policy: &Policy, slot: u8)
        requires sizes { HasSizes policy.now self.old }
        ensures kept { self.new ≡ record self.old { rows = self.new.rows } }
        ensures compiled { (before : PolicyState) (role : List ℕ) → AreCompiled self.old before → slot ≡ slot_of before role →
            policy.now ≡ role_gone before role → AreCompiled self.new policy.now }
    {
        delete_all(&mut self.rows, policy, slot);
    }

    /// The rows of the session, for a caller that asks about many objects by `check_in`.
    pub fn session_rows(&self, session: u32) -> Option<&SessionRows>
        ensures { option_map (λ rows. rows.now) result ≡ rows_of self.now session }
    {
        self.rows.get(session)
    }

    /// Where the session's rows are, and none where it has none: a number for `rows_at`, for a caller that asks about a few objects now and
    /// then. It holds until something is put into the tables.
    #[inline(always)]
    pub fn place_of(&self, session: u32) -> Option<usize>
        ensures { rows_at self.now result ≡ rows_of self.now session }
    {
        self.rows.place_of(session)
    }

    /// The rows at a place that `place_of` gave.
    #[inline(always)]
    pub fn rows_at(&self, place: Option<usize>) -> Option<&SessionRows>
        ensures { option_map (λ rows. rows.now) result ≡ rows_at self.now place }
    {
        let (_, rows) = self.rows.at(place?)?;
        Some(rows)
    }

    /// What `check` answers for a session with these rows, without looking them up again, and without a count.
    #[inline(always)]
    pub fn allows(&self, found: Option<&SessionRows>, operation: Operation, object: Object) -> bool
        ensures { result ≡ allowed_by self.now.customers self.now.vehicles (option_map (λ rows. rows.now) found.entry) operation object }
    {
        let Some(number) = object.number(self.customers, self.vehicles) else {
            return false;
        };
        match found {
            Some(rows) => rows.contains(operation, number),
            None => false,
        }
    }

    /// What `check` answers for a session with these rows, without looking them up again: one probe, of one word.
    #[inline(always)]
    pub fn check_in(
        &self,
        found: Option<&SessionRows>,
        operation: Operation,
        object: Object,
        meter: &mut Meter,
    ) -> bool
        ensures value { result ≡ allowed_by self.now.customers self.now.vehicles
            (option_map (λ rows. rows.now) found.entry) operation object }
        ensures session { (session : ℕ) → option_map (λ rows. rows.now) found.entry ≡ rows_of self.now session →
            result ≡ allows self.now session operation object }
        ensures probe { meter.new ≡ after_probe meter.old }
    {
        meter.probe();
        self.allows(found, operation, object)
    }

    /// Whether the session may do the operation to the object: one look-up of the session's rows, and one probe.
    pub fn check(
        &self,
        session: u32,
        operation: Operation,
        object: Object,
        meter: &mut Meter,
    ) -> bool
        ensures value { result ≡ allows self.now session operation object }
        ensures probe { meter.new ≡ after_probe meter.old }
    {
        self.check_in(self.session_rows(session), operation, object, meter)
    }
}

/// The rows of the session by the policy.
fn rows_for(alloc: Global, policy: &Policy, session: u32) -> Result<Option<SessionRows>, AllocError>
    ensures { IfOk result (λ found. AreRowsOf policy.now session found) }
{
    match policy.reached_roles(session) {
        Some(roles) => {
            roles.is_small();
            Ok(Some(SessionRows::of(alloc, policy, roles)?))
        }
        None => Ok(None),
    }
}

/// What becomes of the rows of these sessions by the policy.
fn changes_for(alloc: Global, policy: &Policy, sessions: &[u32]) -> Result<Vec<Change>, AllocError>
    ensures few { IfOk result (λ changes. length changes.items ≡ length sessions.now) }
    ensures sessions { IfOk result (λ changes. (session : ℕ) →
        is_some (lookup (nat_eq session) changes.items) ≡ is_among sessions.now session) }
    ensures rows { IfOk result (λ changes. AreChangesOf policy.now changes.items) }
{
    let mut changes = Vec::with_capacity(alloc, sessions.len())?;
    for session in sessions {
        changes.push((*session, rows_for(alloc, policy, *session)?))?;
    }
    Ok(changes)
}

/// Puts the changes in place; there is room for all of them.
fn put_all(rows: &mut Sessions, mut changes: Vec<Change>)
    requires { length changes.items ≤ rows.old.room }
    ensures { (session : ℕ) → lookup (nat_eq session) rows.new.entries
        ≡ unwrap_or (lookup (nat_eq session) changes.items) (lookup (nat_eq session) rows.old.entries) }
{
    while let Some((session, found)) = changes.pop() {
        rows.put(session, found);
    }
}

/// The slot of the role, 0 where it is not there.
fn slot_or_zero(policy: &Policy, role: Name) -> u8
    ensures { result ≡ slot_of policy.now role }
{
    policy.slot_of(role).unwrap_or(0)
}

/// The words in which the objects of the range are, from the first of the two places on, up to but not including the second.
fn words_of(range: ObjectRange, customers: u32, vehicles: u32) -> (u32, u32)
    requires customers { customers ≤ MOST_CUSTOMERS }
    requires vehicles { vehicles ≤ MOST_VEHICLES }
    ensures order { result.0 ≤ result.1 }
    ensures small { result.1 ≤ 32 }
    ensures whole { is_bad_range customers vehicles range ≡ false → (number : ℕ) → first_of range ≤ number →
        number < first_of range + size_of range → (result.0 ≤ number / 64) × (number / 64 < result.1) }
{
    match range.span(customers, vehicles) {
        Some((first, end)) => (first / 64, (end + 63) / 64),
        None => (0, 32),
    }
}

/// What each session gains where the role may do more of the operation.
fn grant_all(
    rows: &mut Sessions,
    policy: &Policy,
    role: u8,
    operation: Operation,
    words: (u32, u32),
)
    requires order { words.0 ≤ words.1 }
    requires small { words.1 ≤ 32 }
    ensures rows { rows.new.entries ≡ all_changed (granted_to policy.now role operation words) rows.old.entries }
    ensures room { rows.new.room ≡ rows.old.room }
{
    let mut from = 0;
    while let Some(place) = rows.next_that_reaches(role, from) {
        rows.grant_at(place, policy, role, operation, words);
        from = place + 1;
    }
}

/// What each session loses where the role may do less of the operation.
fn revoke_all(rows: &mut Sessions, policy: &Policy, role: u8, operation: Operation)
    ensures rows { rows.new.entries ≡ all_changed (revoked_from policy.now role operation) rows.old.entries }
    ensures room { rows.new.room ≡ rows.old.room }
{
    let mut from = 0;
    while let Some(place) = rows.next_that_reaches(role, from) {
        rows.revoke_at(place, policy, role, operation);
        from = place + 1;
    }
}

/// New rows for each session that reaches the role, and now reaches other roles than before.
fn inherit_all(rows: &mut Sessions, policy: &Policy, role: u8)
    ensures rows { rows.new.entries ≡ all_changed (refreshed_above policy.now role) rows.old.entries }
    ensures room { rows.new.room ≡ rows.old.room }
{
    let mut from = 0;
    while let Some(place) = rows.next_that_reaches(role, from) {
        rows.inherit_at(place, policy, role);
        from = place + 1;
    }
}

/// New rows for each session that now reaches other roles than before.
fn refresh_all(rows: &mut Sessions, policy: &Policy)
    ensures rows { rows.new.entries ≡ all_changed (refreshed policy.now) rows.old.entries }
    ensures room { rows.new.room ≡ rows.old.room }
{
    for place in 0..rows.len() {
        rows.refresh_at(place, policy);
    }
}

/// New rows for each session that reached the role, which is gone, or that now reaches other roles than before.
fn delete_all(rows: &mut Sessions, policy: &Policy, role: u8)
    ensures rows { rows.new.entries ≡ all_changed (refreshed_without policy.now role) rows.old.entries }
    ensures room { rows.new.room ≡ rows.old.room }
{
    for place in 0..rows.len() {
        rows.delete_at(place, policy, role);
    }
}
