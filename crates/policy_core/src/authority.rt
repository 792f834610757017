//! What the tests of authorization say, by chains of immediate pairs.
ghost use Rattle.std.specs.Prelude.{◌≡◌, ◌↔◌, ℕ, List, Some, true, Contains};
ghost use Rattle.role_hierarchy.specs.Below.{closed};
ghost use Rattle.role_hierarchy.specs.Roles.{has};
ghost use Rattle.separation_core.specs.Groups.{HoldsFor};
ghost use Rattle.policy_core.specs.declared.session.Session.{Session as ASession};
ghost use Rattle.policy_core.specs.declared.refusal.Refusal.TheVariants as refusals;
ghost use Rattle.policy_core.specs.State.{slot_of};
ghost use Rattle.policy_core.specs.Commands.{authorized_for, activate_refusal, open_refusal, inherit_refusal, deassigned, uninherited, role_gone};
ghost use Rattle.policy_core.specs.Authority.{AreBelow, AreCounted, IsAuthorized, IsNotAuthorizedToActivate, IsNotAuthorizedToOpen, IsCycle, KeepsAuthorized, KeepsAuthorizedOf};

use crate::policy::Policy;
use separation_core::Name;

/// A law, for callers' proofs: the roles below some roles, as they are computed, are exactly those to which one of them is senior; so a user
/// is authorized for a role exactly where it is assigned to a role from which a chain of immediate pairs leads down to it.
pub fn authority_is_by_chains(policy: &Policy)
    ensures below { (roles : ℕ) → AreBelow policy.now roles (closed policy.now.order roles) }
    ensures one { (roles below : ℕ) → AreBelow policy.now roles below → below ≡ closed policy.now.order roles }
    ensures authorized { (user : List ℕ) (role : ℕ)
        → (has (authorized_for policy.now user) role ≡ true) ↔ IsAuthorized policy.now user role }
{
    policy.is_policy();
}

/// A law, for callers' proofs: a session or an active role is refused as not authorized exactly where no chain of immediate pairs leads from
/// a role of the user down to it, and no earlier reason holds.
pub fn refusals_are_by_chains(policy: &Policy)
    ensures activate { (number : ℕ) (role : List ℕ) →
        (activate_refusal policy.now number role ≡ Some refusals.NotAuthorized) ↔ IsNotAuthorizedToActivate policy.now number role }
    ensures open { (user : List ℕ) (roles : List (List ℕ)) →
        (open_refusal policy.now user roles ≡ Some refusals.NotAuthorized) ↔ IsNotAuthorizedToOpen policy.now user roles }
{
    policy.is_policy();
}

/// A law, for callers' proofs: a pair is refused as a cycle exactly where a chain of immediate pairs leads from its junior down to its
/// senior, and no earlier reason holds.
pub fn cycles_are_by_chains(policy: &Policy, senior: Name, junior: Name)
    ensures { (inherit_refusal policy.now senior junior ≡ Some refusals.Cycle) ↔ IsCycle policy.now senior junior }
{
    policy.is_policy();
    let _slot = slot_or_zero(policy, junior);
}

/// The slot of the role, 0 where there is no such role.
fn slot_or_zero(policy: &Policy, role: Name) -> u8
    ensures { result ≡ slot_of policy.now role }
{
    policy.slot_of(role).unwrap_or(0)
}

/// A law, for callers' proofs: after DeassignUser, DeleteInheritance and DeleteRole a session has exactly those of its active roles for
/// which its user is still authorized.
pub fn sessions_keep_authorized_roles(old: &Policy, new: &Policy)
    ensures deassigned { (user role : List ℕ) → new.now ≡ deassigned old.now user role → KeepsAuthorizedOf user old.now new.now }
    ensures uninherited { (senior junior : List ℕ) → new.now ≡ uninherited old.now senior junior → KeepsAuthorized old.now new.now }
    ensures deleted { (role : List ℕ) → new.now ≡ role_gone old.now role → KeepsAuthorized old.now new.now }
{
    new.is_policy();
}

/// A law, for callers' proofs: of each SSD set fewer roles than its number are among those to which a role of a user is senior, and of each
/// DSD set fewer than its number among those that are counted for a session.
pub fn separation_is_by_chains(policy: &Policy)
    ensures ssd { (user : List ℕ × ℕ) → Contains policy.now.users user → (given : ℕ)
        → AreBelow policy.now user.1 given → HoldsFor given policy.now.ssd }
    ensures dsd { (session : ℕ × ASession) → Contains policy.now.sessions session → (given : ℕ) →
        AreCounted policy.now policy.now.counting session.1.active given → HoldsFor given policy.now.dsd }
{
    policy.is_policy();
    policy.separation_holds();
}
