//! Sessions, and the roles that are active in them.
ghost use Rattle.std.specs.Prelude.{◌≡◌, ℕ, ◌<◌, ◌≤◌, [], ◌∷◌, List, None, Some, OnOk, OnErr, IfErr, IfOk, IfNone, IfSome, ◌↔◌, ◌+◌, ◌-◌, true, false, bytes_eq, nat_eq, is_some, is_none, map, unwrap_or, length, filter, not};
ghost use Rattle.std.specs.Map.{lookup};
ghost use Rattle.std.specs.Result.{result_err};
ghost use Rattle.std.specs.List.{list_all};
ghost use Rattle.role_hierarchy.specs.Below.{closed};
ghost use Rattle.role_hierarchy.specs.Roles.{with_role};
ghost use Rattle.policy_core.specs.State.{AreThere, is_session, session_of, is_role, user_of, with_session, broken_dsd, counted};
ghost use Rattle.policy_core.specs.Commands.{Says, authorized_for, slots_of, opened, open_refusal, shut, close_refusal, activated, activate_refusal, deactivated, deactivate_refusal, migrated, migrate_refusal, migrated_session};

use crate::policy::Policy;
use crate::refusal::Refusal;
use crate::session::{Counting, Session};
use indexmap::IndexMap;
use limits::MOST_SESSIONS;
use role_hierarchy::{Hierarchy, RoleSet};
use separation_core::{Name, Sets};

impl Policy {
    /// CreateSession. In this order `NoUser`, `NoRole`, `NotAuthorized`, `Dsd`, `Full`; `NoMemory` may come in place of any answer.
    pub fn create_session(&mut self, user: Name, roles: &[Name]) -> Result<u32, Refusal>
        ensures ok { OnOk result (self.new ≡ opened self.old user roles.now) }
        ensures number { IfOk result (λ number. number ≡ self.old.last + 1) }
        ensures allowed { OnOk result (open_refusal self.old user roles.now ≡ None) }
        ensures err { OnErr result (self.new ≡ self.old) }
        ensures refused { IfErr result (λ e. Says e (open_refusal self.old user roles.now)) }
    {
        let session = self.judge_open(user, roles)?;
        let number = self.last + 1;
        let Ok(_) = self.sessions.insert(number, session) else {
            return Err(Refusal::NoMemory);
        };
        self.last = number;
        Ok(number)
    }

    /// The new session.
    #[tactic(auto, unfolding(crate::specs::Commands::open_refusal))]
    fn judge_open(&self, user: Name, roles: &[Name]) -> Result<Session, Refusal>
        ensures refused { result_err result ≡ open_refusal self.now user roles.now }
        ensures session { IfOk result (λ session. session ≡ record { user = user; active = slots_of self.now roles.now }) }
        ensures room { OnOk result (self.now.last < 4294967295) }
        ensures few { OnOk result (length self.now.sessions < MOST_SESSIONS) }
        ensures there { OnOk result (list_all (is_role self.now) roles.now ≡ true) }
        ensures whole { OnOk result (broken_dsd (opened self.now user roles.now) ≡ None) }
    {
        let Some(held) = self.roles_of(user) else {
            return Err(Refusal::NoUser);
        };
        let Some(active) = self.slots_of(roles) else {
            return Err(Refusal::NoRole);
        };
        if !active.is_subset(self.order.closure(held)) {
            return Err(Refusal::NotAuthorized);
        }
        if let Some(refusal) = self.refusal_of_active(active) {
            return Err(refusal);
        }
        if self.sessions.len() >= MOST_SESSIONS || self.last == u32::MAX {
            return Err(Refusal::Full);
        }
        Ok(Session::of(user, active))
    }

    /// DeleteSession. `NotThere` where there is no such session.
    #[tactic(auto, unfolding(crate::specs::Commands::close_refusal))]
    pub fn delete_session(&mut self, number: u32) -> Result<(), Refusal>
        ensures ok { OnOk result (self.new ≡ shut self.old number) }
        ensures err { OnErr result (self.new ≡ self.old) }
        ensures refused { result_err result ≡ close_refusal self.old number }
    {
        let Some(_) = self.sessions.shift_remove(&number) else {
            return Err(Refusal::NotThere);
        };
        Ok(())
    }

    /// AddActiveRole. In this order `NoRole`, `Already`, `NotThere`, `NotAuthorized`, `Dsd`.
    pub fn add_active_role(&mut self, number: u32, role: Name) -> Result<(), Refusal>
        ensures ok { OnOk result (self.new ≡ activated self.old number role) }
        ensures err { OnErr result (self.new ≡ self.old) }
        ensures refused { result_err result ≡ activate_refusal self.old number role }
    {
        let session = self.judge_activate(number, role)?;
        self.put_session(number, session);
        Ok(())
    }

    /// The session as it would be.
    #[tactic(auto, unfolding(crate::specs::Commands::activate_refusal))]
    fn judge_activate(&self, number: u32, role: Name) -> Result<Session, Refusal>
        ensures refused { result_err result ≡ activate_refusal self.now number role }
        ensures there { OnOk result (is_session self.now number ≡ true) }
        ensures session { IfOk result (λ session. with_session self.now number session ≡ activated self.now number role) }
        ensures whole { OnOk result (broken_dsd (activated self.now number role) ≡ None) }
        ensures used { IfOk result (λ session. AreThere self.now.order session.active) }
    {
        self.is_policy();
        let Some(slot) = self.slot_of(role) else {
            return Err(Refusal::NoRole);
        };
        let Some(session) = self.session_of(number) else {
            return Err(Refusal::NotThere);
        };
        let (user, mut active) = (session.user, session.active);
        if active.contains(slot) {
            return Err(Refusal::Already);
        }
        if !self.authorized_for(user).contains(slot) {
            return Err(Refusal::NotAuthorized);
        }
        if let Some(refusal) = self.refusal_of_activated(number, user, active, slot) {
            return Err(refusal);
        }
        active.insert(slot);
        Ok(Session::of(user, active))
    }

    /// DropActiveRole. In this order `NoRole`, `NotThere`.
    pub fn drop_active_role(&mut self, number: u32, role: Name) -> Result<(), Refusal>
        ensures ok { OnOk result (self.new ≡ deactivated self.old number role) }
        ensures err { OnErr result (self.new ≡ self.old) }
        ensures refused { result_err result ≡ deactivate_refusal self.old number role }
    {
        let session = self.judge_deactivate(number, role)?;
        self.put_session(number, session);
        Ok(())
    }

    /// The session as it would be.
    #[tactic(auto, unfolding(crate::specs::Commands::deactivate_refusal))]
    fn judge_deactivate(&self, number: u32, role: Name) -> Result<Session, Refusal>
        ensures refused { result_err result ≡ deactivate_refusal self.now number role }
        ensures there { OnOk result (is_session self.now number ≡ true) }
        ensures session { IfOk result (λ session. with_session self.now number session ≡ deactivated self.now number role) }
        ensures whole { IfOk result (λ session. broken_dsd (with_session self.now number session) ≡ None) }
        ensures used { IfOk result (λ session. AreThere self.now.order session.active) }
    {
        let Some(slot) = self.slot_of(role) else {
            return Err(Refusal::NoRole);
        };
        let Some(session) = self.session_of(number) else {
            return Err(Refusal::NotThere);
        };
        let (user, mut active) = (session.user, session.active);
        if !active.contains(slot) {
            return Err(Refusal::NotThere);
        }
        self.is_policy();
        active.remove(slot);
        Ok(Session::of(user, active))
    }

    /// From now on DSD counts the roles that a session inherits, and each session that then breaks a DSD set loses all its active roles.
    /// `Already` where they are counted by now.
    pub fn migrate(&mut self) -> Result<(), Refusal>
        ensures ok { OnOk result (self.new ≡ migrated self.old) }
        ensures err { OnErr result (self.new ≡ self.old) }
        ensures refused { result_err result ≡ migrate_refusal self.old.counting }
    {
        if let Counting::Inherited = self.counting {
            return Err(Refusal::Already);
        }
        self.dsd.are_sets();
        self.counting = Counting::Inherited;
        empty_broken(&mut self.sessions, &self.order, &self.dsd);
        Ok(())
    }

    /// The number of the session that was created last, 0 where none was. The next one is one
    /// more, and no number is used twice.
    pub fn last_session(&self) -> u32
        ensures { result ≡ self.now.last }
    {
        self.last
    }

    /// The roles that are active in the session; none where there is no such session.
    pub fn active_roles(&self, session: u32) -> RoleSet
        ensures { result ≡ (session_of self.now session).active }
    {
        match self.sessions.get(&session) {
            Some(found) => found.active,
            None => RoleSet::new(),
        }
    }

    /// The session of the number.
    pub(crate) fn session_of(&self, number: u32) -> Option<Session>
        ensures { result ≡ lookup (nat_eq number) self.now.sessions }
    {
        self.sessions.get(&number).copied()
    }

    /// The user of the session, `None` where there is no such session.
    pub fn user_of(&self, number: u32) -> Option<Name>
        ensures { result ≡ user_of self.now number }
    {
        self.sessions.get(&number).map(|session| session.user)
    }

    /// The roles for which the user is authorized.
    fn authorized_for(&self, user: Name) -> RoleSet
        ensures { result ≡ authorized_for self.now user }
    {
        match self.users.get(&user) {
            Some(roles) => self.order.closure(*roles),
            None => self.order.closure(RoleSet::new()),
        }
    }

    /// The slots of the roles; `None` where one of them is not there.
    pub(crate) fn slots_of(&self, roles: &[Name]) -> Option<RoleSet>
        ensures there { is_some result ≡ list_all (is_role self.now) roles.now }
        ensures slots { IfSome result (λ set. set ≡ slots_of self.now roles.now) }
    {
        let mut set = RoleSet::new();
        for role in roles {
            match self.slot_of(*role) {
                Some(slot) => set.insert(slot),
                None => return None,
            }
        }
        Some(set)
    }

    /// Why there may not be such a session: the first set that it would break.
    fn refusal_of_active(&self, active: RoleSet) -> Option<Refusal>
        ensures { (number : ℕ) (user : List ℕ)
            → result ≡ broken_dsd (with_session self.now number (record { user = user; active = active })) }
    {
        match self
            .dsd
            .broken_by(count(self.counting, &self.order, active))
        {
            Some(set) => Some(Refusal::Dsd(set)),
            None => None,
        }
    }

    /// Why the role may not become active in the session too: the first set that it would break. A set that has none of the roles that are
    /// counted for this role is not broken.
    fn refusal_of_activated(
        &self,
        number: u32,
        user: Name,
        active: RoleSet,
        slot: u8,
    ) -> Option<Refusal>
        requires { Some (record { user = user; active = active }) ≡ lookup (nat_eq number) self.now.sessions }
        ensures { result ≡ broken_dsd (with_session self.now number (record { user = user; active = with_role active slot })) }
    {
        self.order.is_order();
        let (mut roles, mut alone) = (active, RoleSet::new());
        roles.insert(slot);
        alone.insert(slot);
        let given = count(self.counting, &self.order, roles);
        let coming = count(self.counting, &self.order, alone);
        match self.dsd.broken_by_coming(given, coming) {
            Some(set) => Some(Refusal::Dsd(set)),
            None => None,
        }
    }

    /// Puts the session in the place of the one of its number.
    fn put_session(&mut self, number: u32, session: Session)
        requires there { is_session self.old number ≡ true }
        requires whole { broken_dsd (with_session self.old number session) ≡ None }
        requires used { AreThere self.old.order session.active }
        ensures { self.new ≡ with_session self.old number session }
    {
        match self.sessions.insert(number, session) {
            Ok(_) => {}
            Err(_) => unreachable!(),
        }
    }
}

/// The roles that DSD counts where these are active.
pub(crate) fn count(counting: Counting, order: &Hierarchy, active: RoleSet) -> RoleSet
    ensures { result ≡ counted counting order.now active }
{
    match counting {
        Counting::Active => active,
        Counting::Inherited => order.closure(active),
    }
}

/// Takes all active roles from each session that breaks a set where inherited roles count.
fn empty_broken(sessions: &mut IndexMap<u32, Session>, order: &Hierarchy, dsd: &Sets)
    ensures { sessions.new.entries ≡ map (λ e. (e.0, migrated_session order.now dsd.now e.1)) sessions.old.entries }
{
    sessions.retain(|_, session| {
        if dsd.broken_by(order.closure(session.active)).is_some() {
            session.active = RoleSet::new();
        }
        true
    });
}
