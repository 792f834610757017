//! What compiled tables say, in the standard's words.
ghost use Rattle.std.specs.Prelude.{◌≡◌, ◌↔◌, ℕ, true};
ghost use Rattle.permission_core.specs.declared.objects.Operation.{Operation as AnOperation};
ghost use Rattle.permission_core.specs.declared.objects.Object.{Object as AnObject};
ghost use Rattle.policy_core.specs.State.{PolicyState};
ghost use Rattle.policy_core.specs.Access.{CheckAccess, has_access, reached_roles, row_of};
ghost use Rattle.permission_table.specs.Tables.{TablesState, allows};
ghost use Rattle.permission_table.specs.Compiled.{AreCompiled, does_reach};

use policy_core::Policy;

/// A law, for callers' proofs: tables that are compiled for a policy allow exactly what CheckAccess
/// (ANSI INCITS 359-2004, 6.2) does. There are such a session and such an object, a role that is
/// active in the session, and a role to which that one is senior and which has the permission.
pub fn compiled_is_check_access(policy: &Policy)
    ensures { (t : TablesState) → AreCompiled t policy.now →
        (session : ℕ) (operation : AnOperation) (object : AnObject) →
        (allows t session operation object ≡ true) ↔ CheckAccess policy.now session operation object }
{
    policy.is_policy();
}

/// A law, for callers' proofs: the access of a session for an operation depends only on the roles that its active roles reach, and on what
/// those may do of that operation. Where both are the same in two policies over the same customers and vehicles, so is CheckAccess. So what
/// a role gains or loses of one operation concerns no session that does not reach it, and no other operation.
pub fn access_depends_on_reached_roles()
    ensures { (p q : PolicyState) (session : ℕ) (operation : AnOperation) → q.customers ≡ p.customers → q.vehicles ≡ p.vehicles →
        reached_roles q session ≡ reached_roles p session →
        ((role : ℕ) → does_reach p session role ≡ true → row_of q role operation ≡ row_of p role operation) →
        (object : AnObject) → has_access q session operation object ≡ has_access p session operation object }
{}
