//! Roles, and which inherits which.
ghost use Rattle.std.specs.Prelude.{◌≡◌, ℕ, ◌<◌, ◌≤◌, [], ◌∷◌, List, None, Some, OnOk, OnErr, IfErr, IfOk, IfNone, IfSome, ◌↔◌, ◌+◌, ◌-◌, true, false, bytes_eq, nat_eq, is_some, is_none, map, unwrap_or, length, filter, not};
ghost use Rattle.std.specs.Map.{lookup};
ghost use Rattle.std.specs.Result.{result_err};
ghost use Rattle.std.specs.Option.{option_or};
ghost use Rattle.role_hierarchy.specs.Below.{closed, juniors_of};
ghost use Rattle.role_hierarchy.specs.Order.{is_there, stands, with_pair};
ghost use Rattle.role_hierarchy.specs.Roles.{has, without};
ghost use Rattle.std.specs.Prelude.{◌++◌, bit_or};
ghost use Rattle.separation_core.specs.Groups.{is_in_some};
ghost use Rattle.policy_core.specs.State.{slot_of, broken, broken_ssd, broken_dsd};
ghost use Rattle.policy_core.specs.Wider.{AreSeniors, wider, all_wider, held_in, active_in};
ghost use Rattle.policy_core.specs.Commands.{Says, add_role_refusal, role_added, role_gone, delete_role_refusal, inherited, inherit_refusal, uninherited, uninherit_refusal, kept_authorized};

use crate::policy::Policy;
use crate::refusal::Refusal;
use crate::session::{Counting, Session};
use indexmap::IndexMap;
use limits::MOST_ROLES;
use role_hierarchy::{Hierarchy, RoleSet};
use separation_core::Name;
use std::alloc::AllocError;

impl Policy {
    /// AddRole. In this order `Already`, `Full`, where there are 256 roles; `NoMemory` may come in place of any answer.
    #[tactic(auto, unfolding(crate::specs::Commands::add_role_refusal))]
    pub fn add_role(&mut self, role: Name) -> Result<(), Refusal>
        ensures ok { OnOk result (self.new ≡ role_added self.old role) }
        ensures allowed { OnOk result (add_role_refusal self.old role ≡ None) }
        ensures err { OnErr result (self.new ≡ self.old) }
        ensures refused { IfErr result (λ e. Says e (add_role_refusal self.old role)) }
        ensures room { OnOk result (length self.old.roles < MOST_ROLES) }
        ensures full { IfErr result (λ e. e ≡ Refusal.Full → length self.old.roles ≡ MOST_ROLES) }
    {
        if self.roles.contains_key(&role) {
            return Err(Refusal::Already);
        }
        if self.roles.reserve(1).is_err() {
            return Err(Refusal::NoMemory);
        }
        let Ok(slot) = self.order.add_role() else {
            return Err(Refusal::Full);
        };
        match self.roles.insert(role, slot) {
            Ok(_) => Ok(()),
            Err(_) => unreachable!(),
        }
    }

    /// DeleteRole. In this order `NoRole`, `InSet`.
    pub fn delete_role(&mut self, role: Name) -> Result<(), Refusal>
        ensures ok { OnOk result (self.new ≡ role_gone self.old role) }
        ensures err { OnErr result (self.new ≡ self.old) }
        ensures refused { result_err result ≡ delete_role_refusal self.old role }
    {
        let slot = self.judge_delete_role(role)?;
        self.order.is_order();
        let Ok(()) = self.order.delete_role(slot) else {
            unreachable!()
        };
        self.order.is_order();
        let _ = self.roles.shift_remove(&role);
        drop_from_all(&mut self.users, slot);
        self.grants.clear(slot);
        narrow_all(&mut self.sessions, &self.users, &self.order);
        Ok(())
    }

    /// The slot of the role.
    #[tactic(auto, unfolding(crate::specs::Commands::delete_role_refusal))]
    fn judge_delete_role(&self, role: Name) -> Result<u8, Refusal>
        ensures refused { result_err result ≡ delete_role_refusal self.now role }
        ensures slot { IfOk result (λ slot. slot ≡ slot_of self.now role) }
        ensures here { IfOk result (λ slot. lookup (bytes_eq role) self.now.roles ≡ Some slot) }
        ensures there { IfOk result (λ slot. is_there self.now.order slot ≡ true) }
        ensures no_ssd { IfOk result (λ slot. is_in_some self.now.ssd slot ≡ false) }
        ensures no_dsd { IfOk result (λ slot. is_in_some self.now.dsd slot ≡ false) }
    {
        self.is_policy();
        let Some(slot) = self.slot_of(role) else {
            return Err(Refusal::NoRole);
        };
        if self.ssd.has_role(slot) || self.dsd.has_role(slot) {
            return Err(Refusal::InSet);
        }
        Ok(slot)
    }

    /// AddInheritance (6.2, 6.3). In this order `NoRole`, `Already`, `Cycle`, `Ssd`, `Dsd`; `NoMemory`
    /// may come in place of any answer.
    pub fn add_inheritance(&mut self, senior: Name, junior: Name) -> Result<(), Refusal>
        ensures ok { OnOk result (self.new ≡ inherited self.old senior junior) }
        ensures allowed { OnOk result (inherit_refusal self.old senior junior ≡ None) }
        ensures err { OnErr result (self.new ≡ self.old) }
        ensures refused { IfErr result (λ e. Says e (inherit_refusal self.old senior junior)) }
    {
        let (above, below) = self.judge_inherit(senior, junior)?;
        self.link(senior, junior, above, below);
        Ok(())
    }

    /// AddInheritance of a pair that nothing refuses, as is known of a policy that is equal to one on which it was carried out: no set is
    /// looked at, and it takes no memory.
    pub fn add_inheritance_again(&mut self, senior: Name, junior: Name)
        requires { inherit_refusal self.old senior junior ≡ None }
        ensures { self.new ≡ inherited self.old senior junior }
    {
        let (above, below) = self.slots_of_pair(senior, junior);
        self.link(senior, junior, above, below);
    }

    /// The slots of the roles of a pair that nothing refuses.
    #[tactic(auto, unfolding(crate::specs::Commands::inherit_refusal))]
    fn slots_of_pair(&self, senior: Name, junior: Name) -> (u8, u8)
        requires { inherit_refusal self.now senior junior ≡ None }
        ensures slots { result ≡ (slot_of self.now senior, slot_of self.now junior) }
        ensures senior { is_there self.now.order result.0 ≡ true }
        ensures junior { is_there self.now.order result.1 ≡ true }
        ensures new { stands self.now.order result.0 result.1 ≡ false }
        ensures apart { has (juniors_of self.now.order result.1) result.0 ≡ false }
        ensures whole { broken (inherited self.now senior junior) ≡ None }
    {
        self.is_policy();
        let Some(above) = self.slot_of(senior) else {
            unreachable!()
        };
        let Some(below) = self.slot_of(junior) else {
            unreachable!()
        };
        (above, below)
    }

    /// Puts the pair into the order.
    #[inline(always)]
    fn link(&mut self, senior: Name, junior: Name, above: u8, below: u8)
        requires above { above ≡ slot_of self.old senior }
        requires below { below ≡ slot_of self.old junior }
        requires senior { is_there self.old.order above ≡ true }
        requires junior { is_there self.old.order below ≡ true }
        requires new { stands self.old.order above below ≡ false }
        requires apart { has (juniors_of self.old.order below) above ≡ false }
        requires whole { broken (inherited self.old senior junior) ≡ None }
        ensures { self.new ≡ inherited self.old senior junior }
    {
        self.order.is_order();
        let Ok(()) = self.order.add_inheritance(above, below) else {
            unreachable!()
        };
    }

    /// The slots of the two roles.
    #[tactic(auto, unfolding(crate::specs::Commands::inherit_refusal))]
    fn judge_inherit(&self, senior: Name, junior: Name) -> Result<(u8, u8), Refusal>
        ensures allowed { OnOk result (inherit_refusal self.now senior junior ≡ None) }
        ensures refused { IfErr result (λ e. Says e (inherit_refusal self.now senior junior)) }
        ensures slots { IfOk result (λ r. r ≡ (slot_of self.now senior, slot_of self.now junior)) }
        ensures senior { IfOk result (λ r. is_there self.now.order r.0 ≡ true) }
        ensures junior { IfOk result (λ r. is_there self.now.order r.1 ≡ true) }
        ensures new { IfOk result (λ r. stands self.now.order r.0 r.1 ≡ false) }
        ensures apart { IfOk result (λ r. has (juniors_of self.now.order r.1) r.0 ≡ false) }
        ensures whole { OnOk result (broken (inherited self.now senior junior) ≡ None) }
    {
        self.is_policy();
        let Some(above) = self.slot_of(senior) else {
            return Err(Refusal::NoRole);
        };
        let Some(below) = self.slot_of(junior) else {
            return Err(Refusal::NoRole);
        };
        if self.order.has_pair(above, below) {
            return Err(Refusal::Already);
        }
        if self.order.juniors(below).contains(above) {
            return Err(Refusal::Cycle);
        }
        match self.refusal_of_pair(above, below) {
            Ok(None) => Ok((above, below)),
            Ok(Some(refusal)) => Err(refusal),
            Err(_) => Err(Refusal::NoMemory),
        }
    }

    /// Why the pair may not join the order: the first set that it would break.
    fn refusal_of_pair(&self, above: u8, below: u8) -> Result<Option<Refusal>, AllocError>
        ensures { IfOk result (λ refusal. refusal ≡ broken (record self.now { order = with_pair self.now.order above below })) }
    {
        match self.ssd_refusal_of_pair(above, below)? {
            Some(refusal) => Ok(Some(refusal)),
            None => self.dsd_refusal_of_pair(above, below),
        }
    }

    /// The first SSD set that some user would break with the pair. A user that is authorized for no more roles than before is skipped, and
    /// so is everybody where there is no set.
    fn ssd_refusal_of_pair(&self, above: u8, below: u8) -> Result<Option<Refusal>, AllocError>
        ensures { IfOk result (λ refusal. refusal ≡ broken_ssd (record self.now { order = with_pair self.now.order above below })) }
    {
        self.order.is_order();
        if self.ssd.is_empty() {
            return Ok(None);
        }
        let wider = wider_users(&self.users, &self.order, above, below)?;
        match self.ssd.broken_by_some(&wider) {
            Some(set) => Ok(Some(Refusal::Ssd(set))),
            None => Ok(None),
        }
    }

    /// The first DSD set that some session would break with the pair; none where active roles
    /// alone count, or where there is no set.
    fn dsd_refusal_of_pair(&self, above: u8, below: u8) -> Result<Option<Refusal>, AllocError>
        ensures { IfOk result (λ refusal. refusal ≡ broken_dsd (record self.now { order = with_pair self.now.order above below })) }
    {
        self.order.is_order();
        if let Counting::Active = self.counting {
            return Ok(None);
        }
        if self.dsd.is_empty() {
            return Ok(None);
        }
        let wider = wider_sessions(&self.sessions, &self.order, above, below)?;
        match self.dsd.broken_by_some(&wider) {
            Some(set) => Ok(Some(Refusal::Dsd(set))),
            None => Ok(None),
        }
    }

    /// DeleteInheritance. In this order `NoRole`, `NotThere`.
    pub fn delete_inheritance(&mut self, senior: Name, junior: Name) -> Result<(), Refusal>
        ensures ok { OnOk result (self.new ≡ uninherited self.old senior junior) }
        ensures err { OnErr result (self.new ≡ self.old) }
        ensures refused { result_err result ≡ uninherit_refusal self.old senior junior }
    {
        let (above, below) = self.judge_uninherit(senior, junior)?;
        self.order.is_order();
        let Ok(()) = self.order.delete_inheritance(above, below) else {
            unreachable!()
        };
        self.order.is_order();
        narrow_all(&mut self.sessions, &self.users, &self.order);
        Ok(())
    }

    /// The slots of the two roles.
    #[tactic(auto, unfolding(crate::specs::Commands::uninherit_refusal))]
    fn judge_uninherit(&self, senior: Name, junior: Name) -> Result<(u8, u8), Refusal>
        ensures refused { result_err result ≡ uninherit_refusal self.now senior junior }
        ensures slots { IfOk result (λ r. r ≡ (slot_of self.now senior, slot_of self.now junior)) }
        ensures stands { IfOk result (λ r. stands self.now.order r.0 r.1 ≡ true) }
    {
        let Some(above) = self.slot_of(senior) else {
            return Err(Refusal::NoRole);
        };
        let Some(below) = self.slot_of(junior) else {
            return Err(Refusal::NoRole);
        };
        if !self.order.has_pair(above, below) {
            return Err(Refusal::NotThere);
        }
        Ok((above, below))
    }
}

/// The roles for which the user is authorized.
fn authorized(users: &IndexMap<Name, RoleSet>, order: &Hierarchy, user: Name) -> RoleSet
    ensures { result ≡ closed order.now (unwrap_or (lookup (bytes_eq user) users.now.entries) 0) }
{
    match users.get(&user) {
        Some(roles) => order.closure(*roles),
        None => order.closure(RoleSet::new()),
    }
}

/// Takes from each session the roles for which its user is not authorized.
fn narrow_all(
    sessions: &mut IndexMap<u32, Session>,
    users: &IndexMap<Name, RoleSet>,
    order: &Hierarchy,
)
    ensures { sessions.new.entries ≡ map (λ e. (e.0, kept_authorized users.now.entries order.now e.1)) sessions.old.entries }
{
    sessions.retain(|_, session| {
        session.active = session
            .active
            .common(authorized(users, order, session.user));
        true
    });
}

/// Takes the role from each user.
fn drop_from_all(users: &mut IndexMap<Name, RoleSet>, slot: u8)
    ensures { users.new.entries ≡ map (λ u. (u.0, without u.1 slot)) users.old.entries }
{
    users.retain(|_, roles| {
        roles.remove(slot);
        true
    });
}

/// Appends the roles with what is below them and these juniors. Out of line, so that the users and sessions that are skipped, nearly all of
/// them, pay nothing for it.
#[inline(never)]
fn push_closed(
    all: &mut Vec<RoleSet>,
    order: &Hierarchy,
    juniors: RoleSet,
    roles: RoleSet,
) -> Result<(), AllocError>
    ensures { OnOk result (all.new.items ≡ all.old.items ++ bit_or (closed order.now roles) juniors ∷ []) }
{
    all.push(order.closure(roles).union(juniors))?;
    Ok(())
}

/// Appends what is below the roles once their seniors and juniors stand in a pair, where that is more than before: where a role is among
/// those that are senior to the new senior.
#[inline(always)]
fn push_wider(
    all: &mut Vec<RoleSet>,
    order: &Hierarchy,
    seniors: RoleSet,
    juniors: RoleSet,
    roles: RoleSet,
) -> Result<(), AllocError>
    ensures { (s j : ℕ) → AreSeniors order.now s seniors → juniors ≡ juniors_of order.now j →
        OnOk result (all.new.items ≡ all.old.items ++ wider order.now s j roles) }
{
    order.is_order();
    if roles.meets(seniors) {
        push_closed(all, order, juniors, roles)?;
    }
    Ok(())
}

/// For each user who would be authorized for more roles with one more pair, all these roles.
fn wider_users(
    users: &IndexMap<Name, RoleSet>,
    order: &Hierarchy,
    above: u8,
    below: u8,
) -> Result<Vec<RoleSet>, AllocError>
    ensures { IfOk result (λ all. all.items ≡ all_wider order.now above below held_in users.now.entries) }
{
    let (seniors, juniors) = (order.seniors(above), order.juniors(below));
    let mut all = Vec::new(*users.allocator());
    for place in 0..users.len() {
        if let Some((_, roles)) = users.get_index(place) {
            push_wider(&mut all, order, seniors, juniors, *roles)?;
        }
    }
    Ok(all)
}

/// For each session that would inherit more roles with one more pair, all these roles.
fn wider_sessions(
    sessions: &IndexMap<u32, Session>,
    order: &Hierarchy,
    above: u8,
    below: u8,
) -> Result<Vec<RoleSet>, AllocError>
    ensures { IfOk result (λ all. all.items ≡ all_wider order.now above below active_in sessions.now.entries) }
{
    let (seniors, juniors) = (order.seniors(above), order.juniors(below));
    let mut all = Vec::new(*sessions.allocator());
    for place in 0..sessions.len() {
        if let Some((_, session)) = sessions.get_index(place) {
            push_wider(&mut all, order, seniors, juniors, session.active)?;
        }
    }
    Ok(all)
}
