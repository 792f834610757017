//! Which parts of a policy may differ from another's, and how those alone are copied back.
ghost use Rattle.std.specs.Prelude.{◌≡◌, true, IfOk, OnOk, OnErr, unwrap_or};
ghost use Rattle.std.specs.Option.{option_map};
ghost use Rattle.policy_core.specs.Parts.{DifferIn, chosen, no_parts, is_copied};

use crate::policy::{Policy, copy_roles, copy_sessions, copy_users};
use crate::rows::restore_grants;
use crate::session::Session;
use indexmap::IndexMap;
use role_hierarchy::{Hierarchy, RoleSet};
use separation_core::{Name, Sets};
use std::alloc::AllocError;

/// The parts in which a policy may differ from another. Its plain numbers and what DSD counts are no parts: they may always differ.
#[derive(Clone, Copy)]
pub struct Parts {
    /// The users and their assigned roles.
    pub users: bool,
    /// The names of the roles.
    pub roles: bool,
    /// The slots of the roles, and which role inherits from which.
    pub order: bool,
    /// The one role whose permissions may differ, by its name in the other policy.
    pub grants: Option<Name>,
    /// The SSD sets.
    pub ssd: bool,
    /// The DSD sets.
    pub dsd: bool,
    /// The sessions.
    pub sessions: bool,
}

impl Parts {
    /// No part is marked.
    pub fn none() -> Parts
        ensures { result ≡ no_parts }
    {
        Parts {
            users: false,
            roles: false,
            order: false,
            grants: None,
            ssd: false,
            dsd: false,
            sessions: false,
        }
    }
}

impl Policy {
    /// Makes the policy equal to `from`, by copies of those parts alone. The contract requires that it differs in no other. Each copy takes
    /// memory, except that of the permissions: where no other part is marked, memory cannot run out. Where it does, the policy stays as it
    /// was.
    // Out of line, since the stack space for the copies is cleared wherever they may be made.
    #[inline(never)]
    pub fn restore(&mut self, from: &Policy, parts: Parts) -> Result<(), AllocError>
        requires { DifferIn parts self.old from.now }
        ensures ok { OnOk result (self.new ≡ from.now) }
        ensures err { OnErr result (self.new ≡ self.old) }
        ensures lacking { OnErr result (is_copied parts ≡ true) }
    {
        let users = users_if(parts.users, &from.users)?;
        let roles = roles_if(parts.roles, &from.roles)?;
        let order = order_if(parts.order, &from.order)?;
        let ssd = sets_if(parts.ssd, &from.ssd)?;
        let dsd = sets_if(parts.dsd, &from.dsd)?;
        let sessions = sessions_if(parts.sessions, &from.sessions)?;
        put(&mut self.users, users);
        put(&mut self.roles, roles);
        put(&mut self.order, order);
        put(&mut self.ssd, ssd);
        put(&mut self.dsd, dsd);
        put(&mut self.sessions, sessions);
        restore_grants(&mut self.grants, from, parts.grants);
        self.customers = from.customers;
        self.vehicles = from.vehicles;
        self.counting = from.counting;
        self.last = from.last;
        Ok(())
    }
}

/// Puts the copy in the place of the other, if there is one.
fn put<T: Drop>(own: &mut T, copy: Option<T>)
    ensures { own.new ≡ unwrap_or copy own.old }
{
    if let Some(copy) = copy {
        *own = copy;
    }
}

fn users_if(
    part: bool,
    users: &IndexMap<Name, RoleSet>,
) -> Result<Option<IndexMap<Name, RoleSet>>, AllocError>
    ensures copy { IfOk result (λ copy. option_map (λ c. c.entries) copy ≡ chosen part users.now.entries) }
    ensures lacking { OnErr result (part ≡ true) }
{
    if !part {
        return Ok(None);
    }
    Ok(Some(copy_users(users)?))
}

fn roles_if(
    part: bool,
    roles: &IndexMap<Name, u8>,
) -> Result<Option<IndexMap<Name, u8>>, AllocError>
    ensures copy { IfOk result (λ copy. option_map (λ c. c.entries) copy ≡ chosen part roles.now.entries) }
    ensures lacking { OnErr result (part ≡ true) }
{
    if !part {
        return Ok(None);
    }
    Ok(Some(copy_roles(roles)?))
}

fn order_if(part: bool, order: &Hierarchy) -> Result<Option<Hierarchy>, AllocError>
    ensures copy { IfOk result (λ copy. copy ≡ chosen part order.now) }
    ensures lacking { OnErr result (part ≡ true) }
{
    if !part {
        return Ok(None);
    }
    Ok(Some(order.copy()?))
}

fn sets_if(part: bool, sets: &Sets) -> Result<Option<Sets>, AllocError>
    ensures copy { IfOk result (λ copy. copy ≡ chosen part sets.now) }
    ensures lacking { OnErr result (part ≡ true) }
{
    if !part {
        return Ok(None);
    }
    Ok(Some(sets.copy()?))
}

fn sessions_if(
    part: bool,
    sessions: &IndexMap<u32, Session>,
) -> Result<Option<IndexMap<u32, Session>>, AllocError>
    ensures copy { IfOk result (λ copy. option_map (λ c. c.entries) copy ≡ chosen part sessions.now.entries) }
    ensures lacking { OnErr result (part ≡ true) }
{
    if !part {
        return Ok(None);
    }
    Ok(Some(copy_sessions(sessions)?))
}
