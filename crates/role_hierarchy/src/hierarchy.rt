//! Which role is senior to which: immediate inheritance pairs, and all that follows from them.
ghost use Rattle.std.specs.Prelude.{◌≡◌, ◌≢◌, ℕ, ◌+◌, ◌<◌, ◌≤◌, ◌==◌, not, ◌&&◌, ◌||◌, ◌↔◌, length, Bool, true, false, slice_index, IsTrue, None, Some, IfOk, IfErr, OnOk, OnErr};
ghost use Rattle.role_hierarchy.specs.Roles.{has, with_role, first_free};
ghost use Rattle.role_hierarchy.specs.Reach.{Closes, cleared, linked};

use crate::role_set::RoleSet;
use limits::MOST_ROLES;
use std::alloc::{AllocError, Global};
use std::marker::Model;
use thiserror::Error;

/// Why a change of the hierarchy was refused, in the order in which the reasons are tried.
#[derive(Clone, Copy, Debug, PartialEq, Eq, Error)]
pub enum HierarchyFault {
    /// All 256 slots are in use.
    #[error("there are 256 roles")]
    Full,
    /// The role, one of the two roles, or the pair is not there.
    #[error("the role or the pair is not there")]
    NotThere,
    /// The pair is there already.
    #[error("the pair is there")]
    Already,
    /// The junior is senior to the senior, or the two are one role.
    #[error("the junior is senior to the senior")]
    Cycle,
}

/// Adds the pair to rows that have all that is below each role.
fn link(reach: &mut [RoleSet], senior: u8, junior: u8)
    requires { length reach.old ≡ MOST_ROLES }
    ensures { reach.new ≡ linked reach.old senior junior }
{
    let below = reach[junior as usize];
    for row in reach.iter_mut() {
        if row.contains(senior) {
            *row = row.union(below);
        }
    }
}

/// Adds the pairs of one senior.
fn link_row(reach: &mut [RoleSet], senior: u8, juniors: RoleSet)
    requires { length reach.old ≡ MOST_ROLES }
    ensures { (pair : ℕ → ℕ → Bool) → Closes pair reach.old →
        Closes (λ a b. pair a b || (a == senior && has juniors b)) reach.new }
{
    juniors.is_small();
    let mut from = 0;
    while let Some(junior) = juniors.next_from(from) {
        link(reach, senior, junior);
        from = junior as u32 + 1;
    }
}

/// Takes away each pair of which the role is part.
fn clear(pairs: &mut [RoleSet], role: u8)
    requires { length pairs.old ≡ MOST_ROLES }
    ensures { pairs.new ≡ cleared pairs.old role }
{
    for row in pairs.iter_mut() {
        row.remove(role);
    }
    pairs[role as usize] = RoleSet::new();
}

/// Makes each row contain its own role alone.
fn separate(reach: &mut [RoleSet])
    requires { length reach.old ≡ MOST_ROLES }
    ensures { (k : ℕ) → k < MOST_ROLES → slice_index reach.new k ≡ with_role 0 k }
{
    for role in 0..256u32 {
        let mut alone = RoleSet::new();
        alone.insert(role as u8);
        reach[role as usize] = alone;
    }
}

/// The rows of these pairs, computed from the pairs alone.
fn rebuild(pairs: &[RoleSet], reach: &mut [RoleSet])
    requires pairs { length pairs.now ≡ MOST_ROLES }
    requires reach { length reach.old ≡ MOST_ROLES }
    ensures { Closes (λ a b. has (slice_index pairs.now a) b) reach.new }
{
    separate(reach);
    for senior in 0..256u32 {
        link_row(reach, senior as u8, pairs[senior as usize]);
    }
}

/// The roles that are there and the immediate inheritance pairs among them: the sets ROLES and RH of ANSI INCITS 359-2004, 6.2.
///
/// A role is senior to another where a chain of immediate pairs leads from it down to the other, and to itself. Each `Hierarchy` is a
/// partial order: no two roles are senior to each other. Beside the pairs it keeps for each role the set of all its juniors, so that
/// seniority is one test of a bit. A call that is refused leaves the hierarchy as it was; only `new` and `copy` take memory.
#[derive(Drop)]
pub struct Hierarchy {
    used: RoleSet,
    pairs: Vec<RoleSet>,
    reach: Vec<RoleSet>,
}

impl Model for Hierarchy {
    ghost use Rattle.role_hierarchy.specs.Order.{Order};

    ghost Value = { Order };

    ghost use Rattle.role_hierarchy.specs.Kept.{IsKept};

    ghost view = { λ a. record { roles = a.used; pairs = a.pairs.items } };

    ghost invariant = { λ a. IsKept (record { roles = a.used; pairs = a.pairs.items }) a.reach.items };
}

impl Hierarchy {
    ghost use Rattle.role_hierarchy.specs.Below.{IsOrder, juniors_of, closed};
    ghost use Rattle.role_hierarchy.specs.Order.{Order, no_order, with_slot, without_slot, stands, is_there, role_count, IsSenior, IsPartialOrder, PairsAreThere, IsAlone, with_pair, without_pair, IsRefusal};

    /// The hierarchy with no role.
    pub fn new(alloc: Global) -> Result<Hierarchy, AllocError>
        ensures { IfOk result (λ h. h ≡ no_order) }
    {
        let pairs = vec![in alloc; RoleSet::new(); MOST_ROLES]?;
        let mut reach = vec![in alloc; RoleSet::new(); MOST_ROLES]?;
        rebuild(&pairs, &mut reach);
        Ok(Hierarchy {
            used: RoleSet::new(),
            pairs,
            reach,
        })
    }

    /// Whether the role is there.
    pub fn has_role(&self, role: u8) -> bool
        ensures { result ≡ is_there self.now role }
    {
        self.used.contains(role)
    }

    /// How many roles are there, at most 256.
    pub fn count(&self) -> u32
        ensures value { result ≡ role_count self.now }
        ensures small { result ≤ MOST_ROLES }
    {
        self.used.count()
    }

    /// A law, for callers' proofs: each senior and each junior is one of the 256 slots.
    pub fn is_order(&self)
        ensures { IsOrder self.now }
    {
        self.used.is_small();
    }

    /// A law, for callers' proofs: no slot is free exactly where there are 256 roles.
    pub fn is_full_by_count(&self)
        ensures { (first_free self.now.roles ≡ None) ↔ (role_count self.now ≡ MOST_ROLES) }
    {
        self.used.is_small();
    }

    /// A law, for callers' proofs: both roles of each pair are there, and seniority is a partial order, as ANSI INCITS 359-2004, 6.2
    /// requires.
    pub fn is_partial_order(&self)
        ensures among { PairsAreThere self.now }
        ensures order { IsPartialOrder (IsSenior (stands self.now)) }
    {
        let _pairs = &self.pairs;
    }

    /// AddRole: takes the least slot that is free, and answers it. The new role is in no pair. `Full` exactly where 256 roles are there.
    pub fn add_role(&mut self) -> Result<u8, HierarchyFault>
        ensures ok { IfOk result (λ r. self.new ≡ with_slot self.old r) }
        ensures least { IfOk result (λ r. first_free self.old.roles ≡ Some r) }
        ensures fresh { IfOk result (λ r. is_there self.old r ≡ false) }
        ensures alone { IfOk result (λ r. IsAlone self.old r) }
        ensures room { OnOk result (role_count self.old < MOST_ROLES) }
        ensures count { OnOk result (role_count self.new ≡ role_count self.old + 1) }
        ensures err { OnErr result (self.new ≡ self.old) }
        ensures refusal { IfErr result (λ e. (e ≡ HierarchyFault.Full) × (role_count self.old ≡ MOST_ROLES)) }
        ensures none { OnErr result (first_free self.old.roles ≡ None) }
    {
        self.used.is_small();
        match self.used.first_free() {
            Some(role) => {
                self.used.insert(role);
                Ok(role)
            }
            None => Err(HierarchyFault::Full),
        }
    }

    /// DeleteRole: the role goes, and each immediate pair of which it is part. Its slot is free again. `NotThere` exactly where the role is
    /// not there.
    pub fn delete_role(&mut self, role: u8) -> Result<(), HierarchyFault>
        ensures ok { OnOk result (self.new ≡ without_slot self.old role) }
        ensures pairs { OnOk result ((a b : ℕ) →
            stands self.new a b ≡ (stands self.old a b && (not (a == role) && not (b == role)))) }
        ensures count { OnOk result (role_count self.old ≡ role_count self.new + 1) }
        ensures allowed { OnOk result (is_there self.old role ≡ true) }
        ensures err { OnErr result (self.new ≡ self.old) }
        ensures refusal { IfErr result (λ e. (e ≡ HierarchyFault.NotThere) × (is_there self.old role ≡ false)) }
    {
        if !self.has_role(role) {
            return Err(HierarchyFault::NotThere);
        }
        self.used.remove(role);
        clear(&mut self.pairs, role);
        rebuild(&self.pairs, &mut self.reach);
        Ok(())
    }

    /// AddInheritance (ANSI INCITS 359-2004, 6.2): the pair (senior, junior) joins the immediate
    /// pairs. In this order `NotThere` where one of the roles is not there, `Already` where the
    /// pair is there, and `Cycle` exactly where the junior is senior to the senior, also where
    /// the two are one role. A new pair that is deleted again leaves the hierarchy as it was.
    pub fn add_inheritance(&mut self, senior: u8, junior: u8) -> Result<(), HierarchyFault>
        ensures ok { OnOk result (self.new ≡ with_pair self.old senior junior) }
        ensures pairs { OnOk result ((a b : ℕ) →
            stands self.new a b ≡ (stands self.old a b || (a == senior && b == junior))) }
        ensures allowed { OnOk result ((is_there self.old senior ≡ true) × (is_there self.old junior ≡ true)
            × (stands self.old senior junior ≡ false) × ¬ IsSenior (stands self.old) junior senior) }
        ensures undone { OnOk result (without_pair self.new senior junior ≡ self.old) }
        ensures err { OnErr result (self.new ≡ self.old) }
        ensures refusal { IfErr result (λ e. IsRefusal self.old senior junior e) }
    {
        if !self.has_role(senior) || !self.has_role(junior) {
            return Err(HierarchyFault::NotThere);
        }
        if self.pairs[senior as usize].contains(junior) {
            return Err(HierarchyFault::Already);
        }
        if self.reach[junior as usize].contains(senior) {
            return Err(HierarchyFault::Cycle);
        }
        self.pairs[senior as usize].insert(junior);
        link(&mut self.reach, senior, junior);
        Ok(())
    }

    /// DeleteInheritance (ANSI INCITS 359-2004, 6.2): the immediate pair goes; what other chains
    /// lead to stays junior. `NotThere` exactly where the pair is not there.
    pub fn delete_inheritance(&mut self, senior: u8, junior: u8) -> Result<(), HierarchyFault>
        ensures ok { OnOk result (self.new ≡ without_pair self.old senior junior) }
        ensures pairs { OnOk result ((a b : ℕ) →
            stands self.new a b ≡ (stands self.old a b && not (a == senior && b == junior))) }
        ensures allowed { OnOk result (stands self.old senior junior ≡ true) }
        ensures err { OnErr result (self.new ≡ self.old) }
        ensures refusal { IfErr result (λ e. (e ≡ HierarchyFault.NotThere) × (stands self.old senior junior ≡ false)) }
    {
        if !self.pairs[senior as usize].contains(junior) {
            return Err(HierarchyFault::NotThere);
        }
        self.pairs[senior as usize].remove(junior);
        rebuild(&self.pairs, &mut self.reach);
        Ok(())
    }

    /// Whether a chain of immediate pairs leads from `a` down to `b`, or the two are one role:
    /// the standard's `a >= b`. One test of a bit.
    pub fn is_senior(&self, a: u8, b: u8) -> bool
        ensures { IsTrue result ↔ IsSenior (stands self.now) a b }
    {
        self.reach[a as usize].contains(b)
    }

    /// Whether the two form an immediate pair, the first the senior.
    pub fn has_pair(&self, senior: u8, junior: u8) -> bool
        ensures { result ≡ stands self.now senior junior }
    {
        self.pairs[senior as usize].contains(junior)
    }

    /// The roles to which the role is senior, itself among them.
    pub fn juniors(&self, role: u8) -> RoleSet
        ensures value { result ≡ juniors_of self.now role }
        ensures chains { (b : ℕ) → (has result b ≡ true) ↔ IsSenior (stands self.now) role b }
    {
        self.is_order();
        self.reach[role as usize]
    }

    /// The roles that are senior to the role, itself among them. It looks at each of the 256 slots.
    pub fn seniors(&self, role: u8) -> RoleSet
        ensures { (a : ℕ) → (has result a ≡ true) ↔ ((a < MOST_ROLES) × IsSenior (stands self.now) a role) }
    {
        let mut above = RoleSet::new();
        for senior in 0..256u32 {
            if self.is_senior(senior as u8, role) {
                above.insert(senior as u8);
            }
        }
        above
    }

    /// The roles to which some role of the set is senior, the set's own among them.
    pub fn closure(&self, roles: RoleSet) -> RoleSet
        ensures value { result ≡ closed self.now roles }
        ensures chains { (b : ℕ) → (has result b ≡ true)
            ↔ ((a : ℕ) × (has roles a ≡ true) × IsSenior (stands self.now) a b) }
    {
        roles.is_small();
        self.is_order();
        if roles.is_empty() {
            return roles;
        }
        let mut below = RoleSet::new();
        let mut from = 0;
        while let Some(role) = roles.next_from(from) {
            below = below.union(self.juniors(role));
            from = role as u32 + 1;
        }
        below
    }

    /// An independent copy.
    pub fn copy(&self) -> Result<Hierarchy, AllocError>
        ensures { IfOk result (λ h. h ≡ self.now) }
    {
        Ok(Hierarchy {
            used: self.used,
            pairs: self.pairs.clone()?,
            reach: self.reach.clone()?,
        })
    }
}
