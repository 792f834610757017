//! The policy: users, roles, permissions, sessions, and the sets that separate duties.
ghost use Rattle.std.specs.Prelude.{◌≡◌, ℕ, ◌<◌, ◌≤◌, [], ◌∷◌, List, None, Some, OnOk, OnErr, IfErr, IfOk, IfNone, IfSome, ◌↔◌, ◌+◌, ◌-◌, true, false, bytes_eq, nat_eq, is_some, is_none, map, unwrap_or, length, filter, not};
ghost use Rattle.std.specs.Map.{lookup};
ghost use Rattle.role_hierarchy.specs.Below.{IsOrder};
ghost use Rattle.role_hierarchy.specs.Roles.{first_free};
ghost use Rattle.separation_core.specs.Groups.{AreSets, HoldsFor};
ghost use Rattle.std.specs.Prelude.{Contains};
ghost use Rattle.std.specs.List.{IsDistinct};
ghost use Rattle.role_hierarchy.specs.Below.{closed};
ghost use Rattle.policy_core.specs.declared.session.Session.{Session as ASession};
ghost use Rattle.policy_core.specs.State.{IsPolicy, counted, no_policy, user_of};
ghost use Rattle.policy_core.specs.Opening.{opening, set_up};

use crate::refusal::Refusal;
use crate::session::{Counting, Session};
use indexmap::IndexMap;
use limits::{MOST_CUSTOMERS, MOST_ROLES, MOST_VEHICLES};
use permission_core::{ObjectRange, Operation, Permissions};
use role_hierarchy::{Hierarchy, RoleSet};
use separation_core::{Name, Sets};
use std::alloc::{AllocError, Global};
use std::marker::Model;

/// Users, roles, permissions, sessions, and the sets of roles that exclude one another, over a fleet of vehicles and its customers.
/// Contracts see them as plain lists and numbers.
pub struct Policy {
    pub(crate) customers: u32,
    pub(crate) vehicles: u32,
    pub(crate) users: IndexMap<Name, RoleSet>,
    pub(crate) roles: IndexMap<Name, u8>,
    pub(crate) order: Hierarchy,
    pub(crate) grants: Permissions,
    pub(crate) ssd: Sets,
    pub(crate) dsd: Sets,
    pub(crate) counting: Counting,
    pub(crate) sessions: IndexMap<u32, Session>,
    pub(crate) last: u32,
}

// Written by hand: a derived drop is expanded, down to each list, at every place where a value is dropped.
impl Drop for Policy {
    fn drop(self) {
        let Policy {
            customers: _,
            vehicles: _,
            users: _,
            roles: _,
            order: _,
            grants: _,
            ssd: _,
            dsd: _,
            counting: _,
            sessions: _,
            last: _,
        } = self;
    }
}

impl Model for Policy {
    ghost use Rattle.policy_core.specs.State.{PolicyState, IsPolicy};

    ghost Value = { PolicyState };

    ghost use Rattle.policy_core.specs.Seen.{state_of};

    ghost view = { state_of };

    ghost invariant = { λ a. IsPolicy (state_of a) };
}

impl Policy {
    /// The policy over these customers and vehicles, at most 1,000 of each, with no user, role or session.
    pub fn new(alloc: Global, customers: u32, vehicles: u32) -> Result<Policy, AllocError>
        requires customers { customers ≤ MOST_CUSTOMERS }
        requires vehicles { vehicles ≤ MOST_VEHICLES }
        ensures { IfOk result (λ policy. policy ≡ no_policy customers vehicles) }
    {
        let order = Hierarchy::new(alloc)?;
        let grants = Permissions::new(alloc)?;
        let users = no_users(alloc);
        let roles = no_roles(alloc);
        let sessions = no_sessions(alloc);
        let ssd = Sets::new(alloc);
        let dsd = Sets::new(alloc);
        Ok(Policy {
            customers,
            vehicles,
            users,
            roles,
            order,
            grants,
            ssd,
            dsd,
            counting: Counting::Active,
            sessions,
            last: 0,
        })
    }

    /// The policy that a board begins with, over these customers and vehicles, at most 1,000 of each: the user `root`, assigned to the role
    /// `root`, which may `admin` the board and nothing else, and session 1 of that user with that role active.
    pub fn opening(alloc: Global, customers: u32, vehicles: u32) -> Result<Policy, AllocError>
        requires customers { customers ≤ MOST_CUSTOMERS }
        requires vehicles { vehicles ≤ MOST_VEHICLES }
        ensures { IfOk result (λ policy. policy ≡ opening customers vehicles) }
    {
        let Some(root) = Name::new(b"root") else {
            unreachable!()
        };
        let mut policy = Policy::new(alloc, customers, vehicles)?;
        match policy.set_up(root) {
            Ok(()) => Ok(policy),
            Err(_) => Err(AllocError),
        }
    }

    /// Adds the user and the role of that name, and opens a session of it.
    fn set_up(&mut self, root: Name) -> Result<(), Refusal>
        ensures { OnOk result (self.new ≡ set_up self.old root) }
    {
        self.add_user(root)?;
        self.add_role(root)?;
        self.assign_user(root, root)?;
        self.grant_permission(root, Operation::Admin, ObjectRange::Board)?;
        self.create_session(root, &[root])?;
        Ok(())
    }

    /// An independent copy.
    pub fn copy(&self) -> Result<Policy, AllocError>
        ensures { IfOk result (λ policy. policy ≡ self.now) }
    {
        let order = self.order.copy()?;
        let grants = self.grants.copy()?;
        let ssd = self.ssd.copy()?;
        let dsd = self.dsd.copy()?;
        let users = copy_users(&self.users)?;
        let roles = copy_roles(&self.roles)?;
        let sessions = copy_sessions(&self.sessions)?;
        Ok(Policy {
            customers: self.customers,
            vehicles: self.vehicles,
            users,
            roles,
            order,
            grants,
            ssd,
            dsd,
            counting: self.counting,
            sessions,
            last: self.last,
        })
    }

    /// A law, for callers' proofs: no set is broken, and what else every policy keeps.
    pub fn is_policy(&self)
        ensures whole { IsPolicy self.now }
        ensures order { IsOrder self.now.order }
        ensures ssd { AreSets self.now.ssd }
        ensures dsd { AreSets self.now.dsd }
    {
        self.order.is_order();
        self.ssd.are_sets();
        self.dsd.are_sets();
    }

    /// A law, for callers' proofs: no slot is free for a role exactly where there are 256 roles.
    pub fn is_full_by_count(&self)
        ensures { (first_free self.now.order.roles ≡ None) ↔ (length self.now.roles ≡ MOST_ROLES) }
    {
        self.is_policy();
        self.order.is_full_by_count();
    }

    /// A law, for callers' proofs: no two users and no two roles have one name.
    pub fn names_are_distinct(&self)
        ensures users { IsDistinct bytes_eq (map (λ u. u.0) self.now.users) }
        ensures roles { IsDistinct bytes_eq (map (λ r. r.0) self.now.roles) }
    {
        let _users = self.users.len();
        let _roles = self.roles.len();
    }

    /// A law, for callers' proofs: of each SSD set fewer roles than its number are among those for
    /// which a user is authorized (6.3), and of each DSD set fewer than its number among those that
    /// are counted for a session (6.4).
    pub fn separation_holds(&self)
        ensures ssd { (user : List ℕ × ℕ) → Contains self.now.users user →
            HoldsFor (closed self.now.order user.1) self.now.ssd }
        ensures dsd { (session : ℕ × ASession) → Contains self.now.sessions session →
            HoldsFor (counted self.now.counting self.now.order session.1.active) self.now.dsd }
    {
        self.is_policy();
    }

    /// How many customers there are, at most 1,000.
    pub fn customers(&self) -> u32
        ensures value { result ≡ self.now.customers }
        ensures small { result ≤ MOST_CUSTOMERS }
    {
        self.customers
    }

    /// Which roles of a session DSD counts.
    pub fn counting(&self) -> Counting
        ensures { result ≡ self.now.counting }
    {
        self.counting
    }

    /// How many vehicles there are, at most 1,000.
    pub fn vehicles(&self) -> u32
        ensures value { result ≡ self.now.vehicles }
        ensures small { result ≤ MOST_VEHICLES }
    {
        self.vehicles
    }

    /// The roles that the user is assigned to.
    pub(crate) fn roles_of(&self, user: Name) -> Option<RoleSet>
        ensures { result ≡ lookup (bytes_eq user) self.now.users }
    {
        self.users.get(&user).copied()
    }

    /// The slot of the role.
    pub fn slot_of(&self, role: Name) -> Option<u8>
        ensures { result ≡ lookup (bytes_eq role) self.now.roles }
    {
        self.roles.get(&role).copied()
    }
}

pub(crate) fn copy_users(
    users: &IndexMap<Name, RoleSet>,
) -> Result<IndexMap<Name, RoleSet>, AllocError>
    ensures { IfOk result (λ copy. copy.entries ≡ users.now.entries) }
{
    users.clone()
}

pub(crate) fn copy_roles(roles: &IndexMap<Name, u8>) -> Result<IndexMap<Name, u8>, AllocError>
    ensures { IfOk result (λ copy. copy.entries ≡ roles.now.entries) }
{
    roles.clone()
}

pub(crate) fn copy_sessions(
    sessions: &IndexMap<u32, Session>,
) -> Result<IndexMap<u32, Session>, AllocError>
    ensures { IfOk result (λ copy. copy.entries ≡ sessions.now.entries) }
{
    sessions.clone()
}

fn no_users(alloc: Global) -> IndexMap<Name, RoleSet>
    ensures { result.entries ≡ [] }
{
    IndexMap::new(alloc)
}

fn no_roles(alloc: Global) -> IndexMap<Name, u8>
    ensures { result.entries ≡ [] }
{
    IndexMap::new(alloc)
}

fn no_sessions(alloc: Global) -> IndexMap<u32, Session>
    ensures { result.entries ≡ [] }
{
    IndexMap::new(alloc)
}
