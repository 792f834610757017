//! Users and the roles that they are assigned to.
ghost use Rattle.std.specs.Prelude.{◌≡◌, ℕ, ◌<◌, ◌≤◌, [], ◌∷◌, List, None, Some, OnOk, OnErr, IfErr, IfOk, IfNone, IfSome, ◌↔◌, ◌+◌, ◌-◌, true, false, bytes_eq, nat_eq, is_some, is_none, map, unwrap_or, length, filter, not};
ghost use Rattle.std.specs.Map.{lookup};
ghost use Rattle.indexmap.specs.IndexMap.{insert_entry};
ghost use Rattle.std.specs.Result.{result_err};
ghost use Rattle.role_hierarchy.specs.Roles.{with_role, without};
ghost use Rattle.policy_core.specs.State.{AreThere, is_user, held_by, slot_of, with_roles, place_of, broken_ssd};
ghost use Rattle.policy_core.specs.Commands.{Says, add_user_refusal, user_added, delete_user_refusal, user_gone, assign_refusal, assigned, narrowed, deassigned, deassign_refusal};

use crate::policy::Policy;
use crate::refusal::Refusal;
use crate::session::Session;
use indexmap::IndexMap;
use limits::MOST_USERS;
use role_hierarchy::RoleSet;
use separation_core::Name;
use std::alloc::AllocError;

impl Policy {
    /// AddUser. In this order `Already`, `Full`; `NoMemory` may come in place of any answer.
    #[tactic(auto, unfolding(crate::specs::Commands::add_user_refusal))]
    pub fn add_user(&mut self, user: Name) -> Result<(), Refusal>
        ensures ok { OnOk result (self.new ≡ user_added self.old user) }
        ensures allowed { OnOk result (add_user_refusal self.old user ≡ None) }
        ensures err { OnErr result (self.new ≡ self.old) }
        ensures refused { IfErr result (λ e. Says e (add_user_refusal self.old user)) }
    {
        if self.users.len() >= MOST_USERS {
            return Err(self.refusal_of_one_more(user));
        }
        self.ssd.are_sets();
        match add_new(&mut self.users, user) {
            Ok(true) => Ok(()),
            Ok(false) => Err(Refusal::Already),
            Err(_) => Err(Refusal::NoMemory),
        }
    }

    /// Why a user is not added where there are as many as there may be.
    #[tactic(auto, unfolding(crate::specs::Commands::add_user_refusal))]
    fn refusal_of_one_more(&self, user: Name) -> Refusal
        requires { MOST_USERS ≤ length self.now.users }
        ensures { add_user_refusal self.now user ≡ Some result }
    {
        if self.users.contains_key(&user) {
            return Refusal::Already;
        }
        Refusal::Full
    }

    /// DeleteUser: its assignments and its sessions go with it. `NoUser` where there is no such user.
    #[tactic(auto, unfolding(crate::specs::Commands::delete_user_refusal))]
    pub fn delete_user(&mut self, user: Name) -> Result<(), Refusal>
        ensures ok { OnOk result (self.new ≡ user_gone self.old user) }
        ensures err { OnErr result (self.new ≡ self.old) }
        ensures refused { result_err result ≡ delete_user_refusal self.old user }
    {
        let Some(_) = self.users.shift_remove(&user) else {
            return Err(Refusal::NoUser);
        };
        drop_sessions_of(&mut self.sessions, user);
        Ok(())
    }

    /// AssignUser. In this order `NoUser`, `NoRole`, `Already`, `Ssd`.
    pub fn assign_user(&mut self, user: Name, role: Name) -> Result<(), Refusal>
        ensures ok { OnOk result (self.new ≡ assigned self.old user role) }
        ensures err { OnErr result (self.new ≡ self.old) }
        ensures refused { result_err result ≡ assign_refusal self.old user role }
    {
        let (place, slot) = self.judge_assign(user, role)?;
        self.give_role(user, role, place, slot);
        Ok(())
    }

    /// AssignUser where nothing refuses it, as is known of a policy that is equal to one on which it was carried out: no set is looked at.
    pub fn assign_user_again(&mut self, user: Name, role: Name)
        requires { assign_refusal self.old user role ≡ None }
        ensures { self.new ≡ assigned self.old user role }
    {
        let (place, slot) = self.places_of(user, role);
        self.give_role(user, role, place, slot);
    }

    /// The user's place and the role's slot, where nothing refuses the assignment.
    #[tactic(auto, unfolding(crate::specs::Commands::assign_refusal))]
    fn places_of(&self, user: Name, role: Name) -> (usize, u8)
        requires { assign_refusal self.now user role ≡ None }
        ensures place { place_of self.now user ≡ Some result.0 }
        ensures slot { result.1 ≡ slot_of self.now role }
        ensures whole { broken_ssd (assigned self.now user role) ≡ None }
        ensures used { AreThere self.now.order (with_role (held_by self.now user) (slot_of self.now role)) }
    {
        self.is_policy();
        let Some(place) = self.place_of(user) else {
            unreachable!()
        };
        let Some(slot) = self.slot_of(role) else {
            unreachable!()
        };
        (place, slot)
    }

    /// The user's place and the role's slot.
    #[tactic(auto, unfolding(crate::specs::Commands::assign_refusal))]
    fn judge_assign(&self, user: Name, role: Name) -> Result<(usize, u8), Refusal>
        ensures refused { result_err result ≡ assign_refusal self.now user role }
        ensures place { IfOk result (λ r. place_of self.now user ≡ Some r.0) }
        ensures slot { IfOk result (λ r. r.1 ≡ slot_of self.now role) }
        ensures whole { OnOk result (broken_ssd (assigned self.now user role) ≡ None) }
        ensures used { OnOk result (AreThere self.now.order (with_role (held_by self.now user) (slot_of self.now role))) }
    {
        self.is_policy();
        let Some(place) = self.place_of(user) else {
            return Err(Refusal::NoUser);
        };
        let Some(slot) = self.slot_of(role) else {
            return Err(Refusal::NoRole);
        };
        let held = self.held_at(user, place);
        if held.contains(slot) {
            return Err(Refusal::Already);
        }
        if let Some(refusal) = self.refusal_of_role(user, held, slot) {
            return Err(refusal);
        }
        Ok((place, slot))
    }

    /// DeassignUser. In this order `NoUser`, `NoRole`, `NotThere`.
    pub fn deassign_user(&mut self, user: Name, role: Name) -> Result<(), Refusal>
        ensures ok { OnOk result (self.new ≡ deassigned self.old user role) }
        ensures err { OnErr result (self.new ≡ self.old) }
        ensures refused { result_err result ≡ deassign_refusal self.old user role }
    {
        let (place, roles) = self.judge_deassign(user, role)?;
        self.put_roles(user, place, roles);
        let allowed = self.order.closure(roles);
        self.narrow_sessions_of(user, allowed);
        Ok(())
    }

    /// The user's place, and the roles that it would have.
    #[tactic(auto, unfolding(crate::specs::Commands::deassign_refusal))]
    fn judge_deassign(&self, user: Name, role: Name) -> Result<(usize, RoleSet), Refusal>
        ensures refused { result_err result ≡ deassign_refusal self.now user role }
        ensures place { IfOk result (λ r. place_of self.now user ≡ Some r.0) }
        ensures roles { IfOk result (λ r. r.1 ≡ without (held_by self.now user) (slot_of self.now role)) }
        ensures whole { IfOk result (λ r. broken_ssd (with_roles self.now user r.1) ≡ None) }
        ensures used { IfOk result (λ r. AreThere self.now.order r.1) }
    {
        let Some(place) = self.place_of(user) else {
            return Err(Refusal::NoUser);
        };
        let Some(slot) = self.slot_of(role) else {
            return Err(Refusal::NoRole);
        };
        let held = self.held_at(user, place);
        if !held.contains(slot) {
            return Err(Refusal::NotThere);
        }
        self.is_policy();
        let mut roles = held;
        roles.remove(slot);
        Ok((place, roles))
    }

    /// Takes from the sessions of a user each active role that is not allowed.
    fn narrow_sessions_of(&mut self, user: Name, allowed: RoleSet)
        ensures { self.new ≡ narrowed self.old user allowed }
    {
        self.order.is_order();
        self.sessions.retain(|_, session| {
            if session.user == user {
                session.active = session.active.common(allowed);
            }
            true
        });
    }

    /// Why the user, with the roles that it has, may not be assigned to this role too: the first set that it would break. A set that has
    /// none of the roles below this one is not broken.
    fn refusal_of_role(&self, user: Name, held: RoleSet, slot: u8) -> Option<Refusal>
        requires { Some held ≡ lookup (bytes_eq user) self.now.users }
        ensures { result ≡ broken_ssd (with_roles self.now user (with_role held slot)) }
    {
        self.order.is_order();
        let mut roles = held;
        roles.insert(slot);
        let given = self.order.closure(roles);
        match self.ssd.broken_by_coming(given, self.order.juniors(slot)) {
            Some(set) => Some(Refusal::Ssd(set)),
            None => None,
        }
    }

    /// The place of the user among all users.
    fn place_of(&self, user: Name) -> Option<usize>
        ensures place { result ≡ place_of self.now user }
        ensures there { is_some result ≡ is_user self.now user }
    {
        self.users.get_index_of(&user)
    }

    /// The roles of the user, which stands at that place.
    #[inline(always)]
    fn held_at(&self, user: Name, place: usize) -> RoleSet
        requires { place_of self.now user ≡ Some place }
        ensures { lookup (bytes_eq user) self.now.users ≡ Some result }
    {
        let Some((_, held)) = self.users.get_index(place) else {
            unreachable!()
        };
        *held
    }

    /// The user, which stands at that place, gets the role of that slot: neither is looked up again.
    #[inline(always)]
    fn give_role(&mut self, user: Name, role: Name, place: usize, slot: u8)
        requires place { place_of self.old user ≡ Some place }
        requires slot { slot ≡ slot_of self.old role }
        requires whole { broken_ssd (assigned self.old user role) ≡ None }
        requires used { AreThere self.old.order (with_role (held_by self.old user) (slot_of self.old role)) }
        ensures { self.new ≡ assigned self.old user role }
    {
        let Some(held) = self.users.get_index_mut(place) else {
            unreachable!()
        };
        held.insert(slot);
    }

    /// Puts the roles of the user, which stands at that place, in the place of those that it has: it is not looked up again.
    #[inline(always)]
    fn put_roles(&mut self, user: Name, place: usize, roles: RoleSet)
        requires place { place_of self.old user ≡ Some place }
        requires whole { broken_ssd (with_roles self.old user roles) ≡ None }
        requires used { AreThere self.old.order roles }
        ensures { self.new ≡ with_roles self.old user roles }
    {
        let Some(held) = self.users.get_index_mut(place) else {
            unreachable!()
        };
        *held = roles;
    }
}

/// Takes away the sessions of the user.
fn drop_sessions_of(sessions: &mut IndexMap<u32, Session>, user: Name)
    ensures { sessions.new.entries ≡ filter (λ e. not (bytes_eq e.1.user user)) sessions.old.entries }
{
    sessions.retain(|_, session| session.user != user);
}

/// Adds a user without roles, and tells whether it is new: one that is there keeps its roles. A new user is looked up once.
fn add_new(users: &mut IndexMap<Name, RoleSet>, user: Name) -> Result<bool, AllocError>
    ensures is_new { IfOk result (λ is_new. is_some (lookup (bytes_eq user) users.old.entries) ≡ not is_new) }
    ensures added { IfOk result (λ is_new. is_new ≡ true → users.new.entries ≡ insert_entry bytes_eq users.old.entries user 0) }
    ensures kept { IfOk result (λ is_new. is_new ≡ false → users.new.entries ≡ users.old.entries) }
    ensures err { OnErr result (users.new.entries ≡ users.old.entries) }
{
    match users.insert(user, RoleSet::new()) {
        Ok(None) => Ok(true),
        Ok(Some(roles)) => {
            let Ok(_) = users.insert(user, roles) else {
                unreachable!()
            };
            Ok(false)
        }
        Err(_) => Err(AllocError),
    }
}
