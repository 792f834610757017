//! SSD and DSD sets: roles of which fewer than a number may come together in a user (6.3), or be counted in a session (6.4).
ghost use Rattle.std.specs.Prelude.{◌≡◌, ℕ, ◌<◌, ◌≤◌, [], ◌∷◌, List, None, Some, OnOk, OnErr, IfErr, IfOk, IfNone, IfSome, ◌↔◌, ◌+◌, ◌-◌, true, false, bytes_eq, nat_eq, is_some, is_none, map, unwrap_or, length, filter, not};
ghost use Rattle.std.specs.Map.{lookup};
ghost use Rattle.std.specs.Result.{result_err};
ghost use Rattle.std.specs.List.{list_any, list_all};
ghost use Rattle.separation_core.specs.Groups.{is_broken, limit_of, with_set, changed, new_refusal, add_refusal, set_refusal};
ghost use Rattle.separation_core.specs.declared.sets.Limit.{Limit};
ghost use Rattle.policy_core.specs.declared.separation.Separation.TheVariants.{Static, Dynamic};
ghost use Rattle.policy_core.specs.State.{is_role, slot_of, counted};
ghost use Rattle.policy_core.specs.Kinds.{sets_of, with_sets, given_by, broken_by};
ghost use Rattle.policy_core.specs.Commands.{Says, slots_of, as_refusal, set_created, create_set_refusal, member_added, add_member_refusal, member_gone, delete_member_refusal, set_gone, delete_set_refusal, set_numbered, cardinality_refusal};
ghost use Rattle.role_hierarchy.specs.Below.{closed};
ghost use Rattle.role_hierarchy.specs.Order.{is_there};

use crate::fault::refusal_of_fault;
use crate::policy::Policy;
use crate::refusal::Refusal;
use crate::separation::Separation;
use crate::session::{Counting, Session};
use crate::sessions::count;
use indexmap::IndexMap;
use limits::MOST_SETS;
use role_hierarchy::{Hierarchy, RoleSet};
use separation_core::{Limit, Name, Sets};

impl Policy {
    /// CreateSsdSet or CreateDsdSet, by the kind. In this order `NoRole`, `Already`, `Number`, `Ssd` or `Dsd`, `Full`; `NoMemory` may come in
    /// place of any answer. A role that is named twice counts once.
    pub fn create_set(
        &mut self,
        kind: Separation,
        name: Name,
        number: u32,
        roles: &[Name],
    ) -> Result<(), Refusal>
        ensures ok { OnOk result (self.new ≡ set_created kind self.old name number roles.now) }
        ensures allowed { OnOk result (create_set_refusal kind self.old name number roles.now ≡ None) }
        ensures err { OnErr result (self.new ≡ self.old) }
        ensures refused { IfErr result (λ e. Says e (create_set_refusal kind self.old name number roles.now)) }
    {
        let set = self.judge_create(kind, name, number, roles)?;
        match kind {
            Separation::Static => match self.ssd.create(name, set, number) {
                Ok(()) => Ok(()),
                Err(_) => Err(Refusal::NoMemory),
            },
            Separation::Dynamic => match self.dsd.create(name, set, number) {
                Ok(()) => Ok(()),
                Err(_) => Err(Refusal::NoMemory),
            },
        }
    }

    /// The roles of the new set.
    #[tactic(auto, unfolding(crate::specs::Commands::create_set_refusal))]
    fn judge_create(
        &self,
        kind: Separation,
        name: Name,
        number: u32,
        roles: &[Name],
    ) -> Result<RoleSet, Refusal>
        ensures refused { result_err result ≡ create_set_refusal kind self.now name number roles.now }
        ensures set { IfOk result (λ set. set ≡ slots_of self.now roles.now) }
        ensures whole { OnOk result (broken_by kind (set_created kind self.now name number roles.now) ≡ None) }
        ensures there { OnOk result (list_all (is_role self.now) roles.now ≡ true) }
    {
        let Some(set) = self.slots_of(roles) else {
            return Err(Refusal::NoRole);
        };
        if let Some(refusal) = self.refusal_of_set(kind, name, set, number) {
            return Err(refusal);
        }
        if let Some(refusal) = self.refusal_of_limit(kind, name, set, number) {
            return Err(refusal);
        }
        if self.sets(kind).len() >= MOST_SETS {
            return Err(Refusal::Full);
        }
        Ok(set)
    }

    /// Why there may not be such a new set, whatever it breaks: `Already` or `Number`.
    fn refusal_of_set(
        &self,
        kind: Separation,
        name: Name,
        set: RoleSet,
        number: u32,
    ) -> Option<Refusal>
        ensures { result ≡ as_refusal Refusal.NotThere (new_refusal (sets_of kind self.now) name set number) }
    {
        match self.sets(kind).refusal_of_create(name, set, number) {
            Some(fault) => Some(refusal_of_fault(fault, Refusal::NotThere)),
            None => None,
        }
    }

    /// Why the set of that name may not have these roles and this number: some user or session would break it.
    fn refusal_of_limit(
        &self,
        kind: Separation,
        name: Name,
        roles: RoleSet,
        number: u32,
    ) -> Option<Refusal>
        ensures created { result ≡ broken_by kind
            (with_sets kind self.now (with_set (sets_of kind self.now) name (record { roles = roles; number = number }))) }
        ensures changed { (f : Limit → Limit) (limit : Limit) → limit_of (sets_of kind self.now) name ≡ Some limit
            → f limit ≡ record { roles = roles; number = number } →
            result ≡ broken_by kind (with_sets kind self.now (changed (sets_of kind self.now) name f)) }
    {
        self.is_policy();
        if !self.is_breaking(kind, Limit { roles, number }) {
            return None;
        }
        match kind {
            Separation::Static => Some(Refusal::Ssd(name)),
            Separation::Dynamic => Some(Refusal::Dsd(name)),
        }
    }

    /// Whether some user is authorized for as many roles of the set as its number (6.3), or in some session as many are counted (6.4).
    #[inline(always)]
    fn is_breaking(&self, kind: Separation, limit: Limit) -> bool
        ensures { result ≡ list_any (λ given. is_broken given limit) (given_by kind self.now) }
    {
        match kind {
            Separation::Static => breaks_some(&self.users, &self.order, limit),
            Separation::Dynamic => breaks_active(&self.sessions, self.counting, &self.order, limit),
        }
    }

    /// The sets of the kind.
    #[inline(always)]
    fn sets(&self, kind: Separation) -> &Sets
        ensures { result.now ≡ sets_of kind self.now }
    {
        match kind {
            Separation::Static => &self.ssd,
            Separation::Dynamic => &self.dsd,
        }
    }

    /// AddSsdRoleMember or AddDsdRoleMember, by the kind: the role joins the set. In this order `NoRole`, `NoSet`, `Already`, `Ssd` or `Dsd`.
    pub fn add_set_member(
        &mut self,
        kind: Separation,
        name: Name,
        role: Name,
    ) -> Result<(), Refusal>
        ensures ok { OnOk result (self.new ≡ member_added kind self.old name role) }
        ensures err { OnErr result (self.new ≡ self.old) }
        ensures refused { result_err result ≡ add_member_refusal kind self.old name role }
    {
        let slot = self.judge_add(kind, name, role)?;
        match kind {
            Separation::Static => match self.ssd.add_member(name, slot) {
                Ok(()) => Ok(()),
                Err(_) => unreachable!(),
            },
            Separation::Dynamic => match self.dsd.add_member(name, slot) {
                Ok(()) => Ok(()),
                Err(_) => unreachable!(),
            },
        }
    }

    /// The slot of the role.
    #[tactic(auto, unfolding(crate::specs::Commands::add_member_refusal))]
    fn judge_add(&self, kind: Separation, name: Name, role: Name) -> Result<u8, Refusal>
        ensures refused { result_err result ≡ add_member_refusal kind self.now name role }
        ensures slot { IfOk result (λ slot. slot ≡ slot_of self.now role) }
        ensures room { OnOk result (add_refusal (limit_of (sets_of kind self.now) name) (slot_of self.now role) ≡ None) }
        ensures whole { OnOk result (broken_by kind (member_added kind self.now name role) ≡ None) }
        ensures there { IfOk result (λ slot. is_there self.now.order slot ≡ true) }
    {
        self.is_policy();
        let Some(slot) = self.slot_of(role) else {
            return Err(Refusal::NoRole);
        };
        let Some(limit) = self.sets(kind).limit(name) else {
            return Err(Refusal::NoSet);
        };
        let (mut roles, number) = (limit.roles, limit.number);
        if roles.contains(slot) {
            return Err(Refusal::Already);
        }
        roles.insert(slot);
        match self.refusal_of_limit(kind, name, roles, number) {
            Some(refusal) => Err(refusal),
            None => Ok(slot),
        }
    }

    /// DeleteSsdRoleMember or DeleteDsdRoleMember, by the kind: the role leaves the set. In this order `NoRole`, `NoSet`, `NotThere`, `Number`.
    #[tactic(auto, unfolding(crate::specs::Commands::delete_member_refusal))]
    pub fn delete_set_member(
        &mut self,
        kind: Separation,
        name: Name,
        role: Name,
    ) -> Result<(), Refusal>
        ensures ok { OnOk result (self.new ≡ member_gone kind self.old name role) }
        ensures err { OnErr result (self.new ≡ self.old) }
        ensures refused { result_err result ≡ delete_member_refusal kind self.old name role }
    {
        let Some(slot) = self.slot_of(role) else {
            return Err(Refusal::NoRole);
        };
        match kind {
            Separation::Static => match self.ssd.delete_member(name, slot) {
                Ok(()) => Ok(()),
                Err(fault) => Err(refusal_of_fault(fault, Refusal::NotThere)),
            },
            Separation::Dynamic => match self.dsd.delete_member(name, slot) {
                Ok(()) => Ok(()),
                Err(fault) => Err(refusal_of_fault(fault, Refusal::NotThere)),
            },
        }
    }

    /// DeleteSsdSet or DeleteDsdSet, by the kind: the set is deleted. `NoSet` where no set has the name.
    pub fn delete_set(&mut self, kind: Separation, name: Name) -> Result<(), Refusal>
        ensures ok { OnOk result (self.new ≡ set_gone kind self.old name) }
        ensures err { OnErr result (self.new ≡ self.old) }
        ensures refused { result_err result ≡ delete_set_refusal kind self.old name }
    {
        match kind {
            Separation::Static => match self.ssd.delete(name) {
                Ok(()) => Ok(()),
                Err(fault) => Err(refusal_of_fault(fault, Refusal::NotThere)),
            },
            Separation::Dynamic => match self.dsd.delete(name) {
                Ok(()) => Ok(()),
                Err(fault) => Err(refusal_of_fault(fault, Refusal::NotThere)),
            },
        }
    }

    /// SetSsdSetCardinality or SetDsdSetCardinality, by the kind: the number of the set. In this order `NoSet`, `Number`, `Ssd` or `Dsd`.
    pub fn set_cardinality(
        &mut self,
        kind: Separation,
        name: Name,
        number: u32,
    ) -> Result<(), Refusal>
        ensures ok { OnOk result (self.new ≡ set_numbered kind self.old name number) }
        ensures err { OnErr result (self.new ≡ self.old) }
        ensures refused { result_err result ≡ cardinality_refusal kind self.old name number }
    {
        self.judge_cardinality(kind, name, number)?;
        match kind {
            Separation::Static => match self.ssd.set_number(name, number) {
                Ok(()) => Ok(()),
                Err(_) => unreachable!(),
            },
            Separation::Dynamic => match self.dsd.set_number(name, number) {
                Ok(()) => Ok(()),
                Err(_) => unreachable!(),
            },
        }
    }

    #[tactic(auto, unfolding(crate::specs::Commands::cardinality_refusal))]
    fn judge_cardinality(&self, kind: Separation, name: Name, number: u32) -> Result<(), Refusal>
        ensures refused { result_err result ≡ cardinality_refusal kind self.now name number }
        ensures room { OnOk result (set_refusal (limit_of (sets_of kind self.now) name) number ≡ None) }
        ensures whole { OnOk result (broken_by kind (set_numbered kind self.now name number) ≡ None) }
    {
        let sets = self.sets(kind);
        let Some(limit) = sets.limit(name) else {
            return Err(Refusal::NoSet);
        };
        if let Some(fault) = sets.refusal_of_number(name, number) {
            return Err(refusal_of_fault(fault, Refusal::NotThere));
        }
        match self.refusal_of_limit(kind, name, limit.roles, number) {
            Some(refusal) => Err(refusal),
            None => Ok(()),
        }
    }

    /// CreateSsdSet (6.3): `create_set`.
    pub fn create_ssd_set(&mut self, name: Name, number: u32, roles: &[Name]) -> Result<(), Refusal>
        ensures ok { OnOk result (self.new ≡ set_created Static self.old name number roles.now) }
        ensures allowed { OnOk result (create_set_refusal Static self.old name number roles.now ≡ None) }
        ensures err { OnErr result (self.new ≡ self.old) }
        ensures refused { IfErr result (λ e. Says e (create_set_refusal Static self.old name number roles.now)) }
    {
        self.create_set(Separation::Static, name, number, roles)
    }

    /// AddSsdRoleMember (6.3): `add_set_member`.
    pub fn add_ssd_role_member(&mut self, name: Name, role: Name) -> Result<(), Refusal>
        ensures ok { OnOk result (self.new ≡ member_added Static self.old name role) }
        ensures err { OnErr result (self.new ≡ self.old) }
        ensures refused { result_err result ≡ add_member_refusal Static self.old name role }
    {
        self.add_set_member(Separation::Static, name, role)
    }

    /// DeleteSsdRoleMember (6.3): `delete_set_member`.
    pub fn delete_ssd_role_member(&mut self, name: Name, role: Name) -> Result<(), Refusal>
        ensures ok { OnOk result (self.new ≡ member_gone Static self.old name role) }
        ensures err { OnErr result (self.new ≡ self.old) }
        ensures refused { result_err result ≡ delete_member_refusal Static self.old name role }
    {
        self.delete_set_member(Separation::Static, name, role)
    }

    /// DeleteSsdSet (6.3): `delete_set`.
    pub fn delete_ssd_set(&mut self, name: Name) -> Result<(), Refusal>
        ensures ok { OnOk result (self.new ≡ set_gone Static self.old name) }
        ensures err { OnErr result (self.new ≡ self.old) }
        ensures refused { result_err result ≡ delete_set_refusal Static self.old name }
    {
        self.delete_set(Separation::Static, name)
    }

    /// SetSsdSetCardinality (6.3): `set_cardinality`.
    pub fn set_ssd_set_cardinality(&mut self, name: Name, number: u32) -> Result<(), Refusal>
        ensures ok { OnOk result (self.new ≡ set_numbered Static self.old name number) }
        ensures err { OnErr result (self.new ≡ self.old) }
        ensures refused { result_err result ≡ cardinality_refusal Static self.old name number }
    {
        self.set_cardinality(Separation::Static, name, number)
    }

    /// CreateDsdSet (6.4): `create_set`.
    pub fn create_dsd_set(&mut self, name: Name, number: u32, roles: &[Name]) -> Result<(), Refusal>
        ensures ok { OnOk result (self.new ≡ set_created Dynamic self.old name number roles.now) }
        ensures allowed { OnOk result (create_set_refusal Dynamic self.old name number roles.now ≡ None) }
        ensures err { OnErr result (self.new ≡ self.old) }
        ensures refused { IfErr result (λ e. Says e (create_set_refusal Dynamic self.old name number roles.now)) }
    {
        self.create_set(Separation::Dynamic, name, number, roles)
    }

    /// AddDsdRoleMember (6.4): `add_set_member`.
    pub fn add_dsd_role_member(&mut self, name: Name, role: Name) -> Result<(), Refusal>
        ensures ok { OnOk result (self.new ≡ member_added Dynamic self.old name role) }
        ensures err { OnErr result (self.new ≡ self.old) }
        ensures refused { result_err result ≡ add_member_refusal Dynamic self.old name role }
    {
        self.add_set_member(Separation::Dynamic, name, role)
    }

    /// DeleteDsdRoleMember (6.4): `delete_set_member`.
    pub fn delete_dsd_role_member(&mut self, name: Name, role: Name) -> Result<(), Refusal>
        ensures ok { OnOk result (self.new ≡ member_gone Dynamic self.old name role) }
        ensures err { OnErr result (self.new ≡ self.old) }
        ensures refused { result_err result ≡ delete_member_refusal Dynamic self.old name role }
    {
        self.delete_set_member(Separation::Dynamic, name, role)
    }

    /// DeleteDsdSet (6.4): `delete_set`.
    pub fn delete_dsd_set(&mut self, name: Name) -> Result<(), Refusal>
        ensures ok { OnOk result (self.new ≡ set_gone Dynamic self.old name) }
        ensures err { OnErr result (self.new ≡ self.old) }
        ensures refused { result_err result ≡ delete_set_refusal Dynamic self.old name }
    {
        self.delete_set(Separation::Dynamic, name)
    }

    /// SetDsdSetCardinality (6.4): `set_cardinality`.
    pub fn set_dsd_set_cardinality(&mut self, name: Name, number: u32) -> Result<(), Refusal>
        ensures ok { OnOk result (self.new ≡ set_numbered Dynamic self.old name number) }
        ensures err { OnErr result (self.new ≡ self.old) }
        ensures refused { result_err result ≡ cardinality_refusal Dynamic self.old name number }
    {
        self.set_cardinality(Separation::Dynamic, name, number)
    }
}

/// Whether some user is authorized for as many roles of the set as its number.
fn breaks_some(users: &IndexMap<Name, RoleSet>, order: &Hierarchy, limit: Limit) -> bool
    ensures { result ≡ list_any (λ roles. is_broken (closed order.now roles) limit) (map (λ u. u.1) users.now.entries) }
{
    users
        .values()
        .any(|roles| limit.is_broken_by(order.closure(*roles)))
}

/// Whether in some session as many roles of the set as its number are counted.
fn breaks_active(
    sessions: &IndexMap<u32, Session>,
    counting: Counting,
    order: &Hierarchy,
    limit: Limit,
) -> bool
    ensures { result ≡ list_any (λ session. is_broken (counted counting order.now session.active) limit)
        (map (λ e. e.1) sessions.now.entries) }
{
    sessions.values().any(|session| limit.is_broken_by(count(counting, order, session.active)))
}
