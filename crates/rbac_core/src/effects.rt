//! The sessions whose access a command may change.
ghost use Rattle.std.specs.Prelude.{◌≡◌, ℕ, None, IfOk, Bool, false, nat_eq, not, ◌==◌, filter, ◌∷◌, [], take};
ghost use Rattle.std.specs.List.{list_any};
ghost use Rattle.policy_core.specs.State.{session_of};
ghost use Rattle.policy_core.specs.Access.{has_access, reached_roles};
ghost use Rattle.permission_core.specs.declared.objects.Operation.{Operation as AnOperation};
ghost use Rattle.permission_core.specs.declared.objects.Object.{Object as AnObject};
ghost use Rattle.rbac_core.specs.Step.{refusal_of, after};
ghost use Rattle.rbac_core.specs.Affected.{affected_sessions, has_lost};
ghost use Rattle.policy_core.specs.State.{PolicyState};
ghost use Rattle.rbac_core.specs.declared.command.Command.{Command as ACommand};

use crate::command::Command;
use policy_core::Policy;
use std::alloc::{AllocError, Global};

/// The numbers of the sessions whose access the command may have changed, by the policy before and after it, ascending: all after a grant,
/// a revocation, a change of the hierarchy, and DeleteRole; those of the user after DeassignUser and DeleteUser; the session itself after a
/// session command; those that lost their roles after the change of the counting; none otherwise.
#[inline(always)]
pub fn affected(
    alloc: Global,
    old: &Policy,
    command: &Command,
    new: &Policy,
) -> Result<Vec<u32>, AllocError>
    ensures { IfOk result (λ sessions. sessions.items ≡ affected_sessions old.now command.now new.now) }
{
    match command {
        Command::GrantPermission { .. } => new.sessions(),
        Command::RevokePermission { .. } => new.sessions(),
        Command::AddInheritance { .. } => new.sessions(),
        Command::DeleteInheritance { .. } => new.sessions(),
        Command::DeleteRole { .. } => new.sessions(),
        Command::DeassignUser { user, .. } => old.sessions_of(*user),
        Command::DeleteUser { user } => old.sessions_of(*user),
        Command::CreateSession { .. } => one(alloc, new.last_session()),
        Command::DeleteSession { session } => one(alloc, *session),
        Command::AddActiveRole { session, .. } => one(alloc, *session),
        Command::DropActiveRole { session, .. } => one(alloc, *session),
        Command::Migrate => lost(alloc, old, new),
        _ => Ok(Vec::new(alloc)),
    }
}

/// A list of one number.
fn one(alloc: Global, session: u32) -> Result<Vec<u32>, AllocError>
    ensures { IfOk result (λ sessions. sessions.items ≡ session ∷ []) }
{
    let mut sessions = Vec::new(alloc);
    sessions.push(session)?;
    Ok(sessions)
}

/// The sessions whose active roles differ from those before.
fn lost(alloc: Global, old: &Policy, new: &Policy) -> Result<Vec<u32>, AllocError>
    ensures { IfOk result (λ sessions. sessions.items ≡ affected_sessions old.now Command.Migrate new.now) }
{
    let all = old.sessions()?;
    lost_among(alloc, &all, old, new)
}

/// Those of the sessions whose active roles differ from those before.
fn lost_among(
    alloc: Global,
    all: &[u32],
    old: &Policy,
    new: &Policy,
) -> Result<Vec<u32>, AllocError>
    ensures { IfOk result (λ sessions. sessions.items ≡ filter (has_lost old.now new.now) all.now) }
{
    let mut sessions = Vec::new(alloc);
    for session in all {
        if has_lost(old, new, *session) {
            sessions.push(*session)?;
        }
    }
    Ok(sessions)
}

/// Whether the active roles of the session differ from those before.
fn has_lost(old: &Policy, new: &Policy, session: u32) -> bool
    ensures { result ≡ has_lost old.now new.now session }
{
    old.active_roles(session) != new.active_roles(session)
}

/// A law, for callers' proofs: a session that is not among those affected reaches the roles that it reached, and has the access that it
/// had, for every operation and object.
pub fn access_stays(old: &Policy, command: &Command, new: &Policy)
    requires { new.now ≡ after old.now command.now }
    ensures reach { (session : ℕ) → list_any (nat_eq session) (affected_sessions old.now command.now new.now) ≡ false →
        reached_roles new.now session ≡ reached_roles old.now session }
    ensures access { (session : ℕ) → list_any (nat_eq session) (affected_sessions old.now command.now new.now) ≡ false →
        (operation : AnOperation) (object : AnObject) →
        has_access new.now session operation object ≡ has_access old.now session operation object }
{}

/// A law, for callers' proofs: no command changes the numbers of customers and vehicles.
pub fn sizes_stay()
    ensures customers { (p : PolicyState) (command : ACommand) → (after p command).customers ≡ p.customers }
    ensures vehicles { (p : PolicyState) (command : ACommand) → (after p command).vehicles ≡ p.vehicles }
{}
