//! The rows of the sessions, each at a place.
ghost use Rattle.std.specs.Prelude.{◌≡◌, ◌<◌, ◌≤◌, ◌+◌, ◌^◌, ◌==◌, ℕ, true, false, [], if◌then◌else◌, length, nat_eq, slice_get, Some, None, IfOk, IfSome, IfNone, OnOk};
ghost use Rattle.std.specs.Map.Iter.{deref_pair};
ghost use Rattle.std.specs.Map.{lookup};
ghost use Rattle.std.specs.Option.{option_map, option_map_or};
ghost use Rattle.role_hierarchy.specs.Roles.{has};
ghost use Rattle.permission_table.specs.Reaching.{reach_at, rows_in};
ghost use Rattle.permission_table.specs.Rights.{granted_to, revoked_from, refreshed, refreshed_above, made_anew, refreshed_without, changed_at};

use crate::reaching::Reaching;
use crate::row::SessionRows;
use indexmap::IndexMap;
use permission_core::Operation;
use policy_core::Policy;
use role_hierarchy::RoleSet;
use std::alloc::{AllocError, Global};
use std::marker::Model;

/// The rows of the sessions, each at a place, and for each role the places of the sessions that reach it: a change of what a role may do
/// asks these sessions alone.
pub struct Sessions {
    rows: IndexMap<u32, SessionRows>,
    reaching: Reaching,
}

// Written by hand: a derived drop is expanded, down to each list, at every place where a value is dropped.
impl Drop for Sessions {
    fn drop(self) {
        let Sessions {
            rows: _,
            reaching: _,
        } = self;
    }
}

impl Model for Sessions {
    ghost use Rattle.permission_table.specs.Reaching.{SessionsState, AreReached};
    ghost use Rattle.permission_table.specs.SessionsSeen.{sessions_of};

    ghost Value = { SessionsState };

    ghost view = { sessions_of };

    ghost invariant = { λ a. AreReached a.reaching a.rows.entries };
}

impl Sessions {
    /// No session, and room for the first.
    pub(crate) fn new(alloc: Global) -> Result<Sessions, AllocError>
        ensures { IfOk result (λ sessions. sessions.entries ≡ []) }
    {
        let mut reaching = Reaching::new(alloc);
        reaching.reserve(1)?;
        Ok(Sessions {
            rows: IndexMap::with_capacity(alloc, 1)?,
            reaching,
        })
    }

    /// What the rows take memory from.
    pub(crate) fn allocator(&self) -> Global {
        *self.rows.allocator()
    }

    /// How many sessions there are.
    pub(crate) fn len(&self) -> usize
        ensures len { result ≡ length self.now.entries }
        ensures small { result < 2 ^ 63 }
    {
        self.rows.len()
    }

    /// The rows of the session.
    #[inline(always)]
    pub(crate) fn get(&self, session: u32) -> Option<&SessionRows>
        ensures { option_map (λ rows. rows.now) result ≡ lookup (nat_eq session) self.now.entries }
    {
        self.rows.get(&session)
    }

    /// The place of the session.
    #[inline(always)]
    pub(crate) fn place_of(&self, session: u32) -> Option<usize>
        ensures { rows_in self.now.entries result ≡ lookup (nat_eq session) self.now.entries }
    {
        self.rows.get_index_of(&session)
    }

    /// The session at the place, and its rows.
    #[inline(always)]
    pub(crate) fn at(&self, place: usize) -> Option<(&u32, &SessionRows)>
        ensures { option_map deref_pair result ≡ slice_get self.now.entries place }
    {
        self.rows.get_index(place)
    }

    /// Room for so many more sessions.
    pub(crate) fn reserve(&mut self, more: usize) -> Result<(), AllocError>
        ensures entries { self.new.entries ≡ self.old.entries }
        ensures room { self.old.room ≤ self.new.room }
        ensures enough { OnOk result (more ≤ self.new.room) }
    {
        self.rows.reserve(more)?;
        let Some(places) = self.rows.len().checked_add(more) else {
            return Err(AllocError);
        };
        self.reaching.reserve(places)
    }

    /// The first session, from this place on, that reaches the role, or a place behind the sessions.
    #[inline(always)]
    pub(crate) fn next_that_reaches(&self, role: u8, from: usize) -> Option<usize>
        ensures small { IfSome result (λ place. place < 2 ^ 63) }
        ensures from { IfSome result (λ place. from ≤ place) }
        ensures between { IfSome result (λ place. (q : ℕ) → from ≤ q → q < place → has (reach_at self.now.entries q) role ≡ false) }
        ensures none { IfNone result ((q : ℕ) → from ≤ q → has (reach_at self.now.entries q) role ≡ false) }
    {
        self.reaching.next(role, from)
    }

    /// The session gets these rows, or has none any more.
    pub(crate) fn put(&mut self, session: u32, found: Option<SessionRows>)
        requires { 0 < self.old.room }
        ensures rows { (q : ℕ) → lookup (nat_eq q) self.new.entries
            ≡ (if q == session then found else lookup (nat_eq q) self.old.entries) }
        ensures room { self.old.room ≤ self.new.room + 1 }
    {
        match found {
            Some(made) => self.insert(session, made),
            None => self.remove(session),
        }
    }

    /// The session gets these rows.
    fn insert(&mut self, session: u32, made: SessionRows)
        requires { 0 < self.old.room }
        ensures rows { (q : ℕ) → lookup (nat_eq q) self.new.entries
            ≡ (if q == session then Some made else lookup (nat_eq q) self.old.entries) }
        ensures room { self.old.room ≤ self.new.room + 1 }
    {
        let reach = made.reach();
        let Ok((place, old)) = self.rows.insert_full(session, made) else {
            unreachable!()
        };
        self.reaching.turn(place, reach_of(old), reach);
    }

    /// The session has no rows any more. The last session gets its place.
    fn remove(&mut self, session: u32)
        ensures rows { (q : ℕ) → lookup (nat_eq q) self.new.entries
            ≡ (if q == session then None else lookup (nat_eq q) self.old.entries) }
        ensures room { self.old.room ≤ self.new.room }
    {
        let Some(place) = self.rows.get_index_of(&session) else {
            return;
        };
        let last = self.rows.len() - 1;
        let gone = self.reach_at(place);
        let moved = self.reach_at(last);
        self.reaching.turn(place, gone, moved);
        self.reaching.turn(last, moved, RoleSet::new());
        let _ = self.rows.swap_remove(&session);
    }

    /// The roles that the session at the place reaches; none where there is no session.
    fn reach_at(&self, place: usize) -> RoleSet
        ensures { result ≡ reach_at self.now.entries place }
    {
        match self.rows.get_index(place) {
            Some((_, rows)) => rows.reach(),
            None => RoleSet::new(),
        }
    }

    /// The role may do more of the operation, to objects of these words: the row of that operation of the session at this place.
    #[inline(always)]
    pub(crate) fn grant_at(
        &mut self,
        place: usize,
        policy: &Policy,
        role: u8,
        operation: Operation,
        words: (u32, u32),
    )
        requires order { words.0 ≤ words.1 }
        requires small { words.1 ≤ 32 }
        ensures rows { self.new.entries ≡ changed_at (granted_to policy.now role operation words) self.old.entries place }
        ensures room { self.new.room ≡ self.old.room }
    {
        let Some(found) = self.rows.get_index_mut(place) else {
            return;
        };
        found.grant(policy, role, operation, words);
    }

    /// The role may do less of the operation: the row of that operation of the session at this place.
    #[inline(always)]
    pub(crate) fn revoke_at(
        &mut self,
        place: usize,
        policy: &Policy,
        role: u8,
        operation: Operation,
    )
        ensures rows { self.new.entries ≡ changed_at (revoked_from policy.now role operation) self.old.entries place }
        ensures room { self.new.room ≡ self.old.room }
    {
        let Some(found) = self.rows.get_index_mut(place) else {
            return;
        };
        found.revoke(policy, role, operation);
    }

    /// New rows for the session at this place, if it reaches the role, and now reaches other roles than before.
    pub(crate) fn inherit_at(&mut self, place: usize, policy: &Policy, role: u8)
        ensures rows { self.new.entries ≡ changed_at (refreshed_above policy.now role) self.old.entries place }
        ensures room { self.new.room ≡ self.old.room }
    {
        let Some((_, found)) = self.rows.get_index(place) else {
            return;
        };
        if found.reach().contains(role) {
            self.refresh_at(place, policy);
        }
    }

    /// New rows for the session at this place, if it now reaches other roles than before.
    pub(crate) fn refresh_at(&mut self, place: usize, policy: &Policy)
        ensures rows { self.new.entries ≡ changed_at (refreshed policy.now) self.old.entries place }
        ensures room { self.new.room ≡ self.old.room }
    {
        let Some((session, found)) = self.rows.get_index(place) else {
            return;
        };
        let before = found.reach();
        let Some(roles) = policy.reached_roles(*session) else {
            return;
        };
        let Some(found) = self.rows.get_index_mut(place) else {
            return;
        };
        found.follow(policy, roles);
        self.reaching.turn(place, before, roles);
    }

    /// New rows for the session at this place, if it reached the role, which is gone, or now reaches other roles than before.
    pub(crate) fn delete_at(&mut self, place: usize, policy: &Policy, role: u8)
        ensures rows { self.new.entries ≡ changed_at (refreshed_without policy.now role) self.old.entries place }
        ensures room { self.new.room ≡ self.old.room }
    {
        let Some((_, found)) = self.rows.get_index(place) else {
            return;
        };
        if found.reach().contains(role) {
            self.make_at(place, policy);
        } else {
            self.refresh_at(place, policy);
        }
    }

    /// New rows for the session at this place.
    fn make_at(&mut self, place: usize, policy: &Policy)
        ensures rows { self.new.entries ≡ changed_at (made_anew policy.now) self.old.entries place }
        ensures room { self.new.room ≡ self.old.room }
    {
        let Some((session, found)) = self.rows.get_index(place) else {
            return;
        };
        let before = found.reach();
        let Some(roles) = policy.reached_roles(*session) else {
            return;
        };
        let Some(found) = self.rows.get_index_mut(place) else {
            return;
        };
        found.make(policy, roles);
        self.reaching.turn(place, before, roles);
    }
}

/// The roles that a session reaches; none where there is no session.
fn reach_of(rows: Option<SessionRows>) -> RoleSet
    ensures { result ≡ option_map_or (λ access. access.reach) rows 0 }
{
    match rows {
        Some(rows) => rows.reach(),
        None => RoleSet::new(),
    }
}
