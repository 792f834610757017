//! The reviews of a policy (ANSI INCITS 359-2004, 6.1): who is assigned to what, what is active,
//! and which sessions there are.
ghost use Rattle.std.specs.Prelude.{◌≡◌, ◌++◌, ◌∷◌, [], IfOk, OnOk, IfErr, map, filter, bytes_eq, unwrap_or, is_some};
ghost use Rattle.std.specs.Map.{lookup};
ghost use Rattle.std.specs.List.Sorted.{IsStrictlyIncreasing};
ghost use Rattle.role_hierarchy.specs.Roles.{has};
ghost use Rattle.policy_core.specs.State.{numbers_of};
ghost use Rattle.policy_core.specs.Commands.{Says};
ghost use Rattle.policy_core.specs.Reviews.{assigned_users, users_refusal, names_of_roles, assigned_roles, roles_refusal, session_roles, active_refusal, all_sessions, sessions_of};

use crate::policy::Policy;
use crate::refusal::Refusal;
use crate::session::Session;
use indexmap::IndexMap;
use role_hierarchy::RoleSet;
use separation_core::Name;
use std::alloc::AllocError;

impl Policy {
    /// AssignedUsers: the users that are assigned to the role, in order of their creation.
    /// `NoRole` where there is no such role; `NoMemory` may come in place of any answer.
    pub fn assigned_users(&self, role: Name) -> Result<Vec<Name>, Refusal>
        ensures ok { IfOk result (λ names. names.items ≡ assigned_users self.now role) }
        ensures allowed { OnOk result (users_refusal self.now role ≡ None) }
        ensures refused { IfErr result (λ e. Says e (users_refusal self.now role)) }
    {
        let Some(slot) = self.slot_of(role) else {
            return Err(Refusal::NoRole);
        };
        Ok(users_with(&self.users, slot)?)
    }

    /// AssignedRoles: the roles that the user is assigned to, in order of their creation.
    /// `NoUser` where there is no such user; `NoMemory` may come in place of any answer.
    pub fn assigned_roles(&self, user: Name) -> Result<Vec<Name>, Refusal>
        ensures ok { IfOk result (λ names. names.items ≡ assigned_roles self.now user) }
        ensures allowed { OnOk result (roles_refusal self.now user ≡ None) }
        ensures refused { IfErr result (λ e. Says e (roles_refusal self.now user)) }
    {
        let Some(held) = self.roles_of(user) else {
            return Err(Refusal::NoUser);
        };
        Ok(self.names_of(held)?)
    }

    /// SessionRoles: the roles that are active in the session, in order of their creation.
    /// `NotThere` where there is no such session; `NoMemory` may come in place of any answer.
    pub fn session_roles(&self, session: u32) -> Result<Vec<Name>, Refusal>
        ensures ok { IfOk result (λ names. names.items ≡ session_roles self.now session) }
        ensures allowed { OnOk result (active_refusal self.now session ≡ None) }
        ensures refused { IfErr result (λ e. Says e (active_refusal self.now session)) }
    {
        let Some(found) = self.session_of(session) else {
            return Err(Refusal::NotThere);
        };
        Ok(self.names_of(found.active)?)
    }

    /// The names of these roles, in order of their creation.
    fn names_of(&self, roles: RoleSet) -> Result<Vec<Name>, AllocError>
        ensures { IfOk result (λ names. names.items ≡ names_of_roles self.now roles) }
    {
        let names = roles_among(&self.roles, roles)?;
        Ok(names)
    }

    /// The numbers of all sessions, ascending.
    pub fn sessions(&self) -> Result<Vec<u32>, AllocError>
        ensures value { IfOk result (λ numbers. numbers.items ≡ all_sessions self.now) }
        ensures ascending { IfOk result (λ numbers. IsStrictlyIncreasing numbers.items) }
    {
        let numbers = all_numbers(&self.sessions)?;
        Ok(numbers)
    }

    /// The numbers of the sessions of the user, ascending; none where there is no such user.
    pub fn sessions_of(&self, user: Name) -> Result<Vec<u32>, AllocError>
        ensures value { IfOk result (λ numbers. numbers.items ≡ sessions_of self.now user) }
        ensures ascending { IfOk result (λ numbers. IsStrictlyIncreasing numbers.items) }
    {
        let numbers = numbers_with(&self.sessions, user)?;
        Ok(numbers)
    }
}

/// The names of the users with that role.
fn users_with(users: &IndexMap<Name, RoleSet>, slot: u8) -> Result<Vec<Name>, AllocError>
    ensures { IfOk result (λ names. names.items ≡ map (λ u. u.0) (filter (λ u. has u.1 slot) users.now.entries)) }
{
    let mut names = Vec::new(*users.allocator());
    for place in 0..users.len() {
        if let Some((name, roles)) = users.get_index(place) {
            if roles.contains(slot) {
                names.push(*name)?;
            }
        }
    }
    Ok(names)
}

/// The names of the roles among these.
fn roles_among(all: &IndexMap<Name, u8>, roles: RoleSet) -> Result<Vec<Name>, AllocError>
    ensures { IfOk result (λ names. names.items ≡ map (λ r. r.0) (filter (λ r. has roles r.1) all.now.entries)) }
{
    let mut names = Vec::new(*all.allocator());
    for place in 0..all.len() {
        if let Some((name, slot)) = all.get_index(place) {
            if roles.contains(*slot) {
                names.push(*name)?;
            }
        }
    }
    Ok(names)
}

/// The numbers of the sessions.
fn all_numbers(sessions: &IndexMap<u32, Session>) -> Result<Vec<u32>, AllocError>
    ensures { IfOk result (λ numbers. numbers.items ≡ numbers_of sessions.now.entries) }
{
    let mut numbers = Vec::new(*sessions.allocator());
    for place in 0..sessions.len() {
        if let Some((number, _)) = sessions.get_index(place) {
            numbers.push(*number)?;
        }
    }
    Ok(numbers)
}

/// The numbers of the sessions of that user.
fn numbers_with(sessions: &IndexMap<u32, Session>, user: Name) -> Result<Vec<u32>, AllocError>
    ensures { IfOk result (λ numbers. numbers.items ≡ numbers_of (filter (λ e. bytes_eq e.1.user user) sessions.now.entries)) }
{
    let mut numbers = Vec::new(*sessions.allocator());
    for place in 0..sessions.len() {
        if let Some((number, session)) = sessions.get_index(place) {
            if session.user == user {
                numbers.push(*number)?;
            }
        }
    }
    Ok(numbers)
}
