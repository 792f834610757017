//! One step of a policy: the guard, and then the command.
ghost use Rattle.std.specs.Prelude.{true, ◌≡◌, ◌≢◌, Some, OnOk, OnErr, IfOk, IfErr, None, Ok, Err, false};
ghost use Rattle.std.specs.Result.{result_err};
ghost use Rattle.policy_core.specs.Commands.{Says};
ghost use Rattle.policy_core.specs.Access.{has_access};
ghost use Rattle.policy_core.specs.State.{PolicyState};
ghost use Rattle.rbac_core.specs.declared.command.Command.{Command as ACommand};
ghost use Rattle.rbac_core.specs.Step.{is_own, guard_by, guard, refusal_of, after, takes_memory, outcome_of, step, IsRefused};

use crate::command::{Command, Outcome};
use policy_core::{Policy, Refusal};

/// Whether the acting session belongs to the user whom a session command concerns: the user that
/// is named, or that of the session that is named. No command but CreateSession, DeleteSession,
/// AddActiveRole and DropActiveRole concerns a user.
pub fn is_own(policy: &Policy, session: u32, command: &Command) -> bool
    ensures { result ≡ is_own policy.now session command.now }
{
    let Some(acting) = policy.user_of(session) else {
        return false;
    };
    let concerned = match command {
        Command::CreateSession { user, .. } => Some(*user),
        Command::DeleteSession { session } => policy.user_of(*session),
        Command::AddActiveRole { session, .. } => policy.user_of(*session),
        Command::DropActiveRole { session, .. } => policy.user_of(*session),
        _ => None,
    };
    match concerned {
        Some(user) => acting == user,
        None => false,
    }
}

/// Why the session may not give the command, by what its caller knows of its access: `NoSession`,
/// then `NoAccess` where it is no administrator and the command is not its own user's.
#[tactic(auto, unfolding(crate::specs::Step::guard_by))]
pub fn guard_by(policy: &Policy, session: u32, command: &Command, admin: bool) -> Option<Refusal>
    ensures { result ≡ guard_by admin policy.now session command.now }
{
    if !policy.is_session(session) {
        return Some(Refusal::NoSession);
    }
    if !admin && !is_own(policy, session, command) {
        return Some(Refusal::NoAccess);
    }
    None
}

/// Why the session may not give the command: `NoSession`, then `NoAccess` where it may not
/// `admin` the board and the command is not its own user's.
pub fn guard(policy: &Policy, session: u32, command: &Command) -> Option<Refusal>
    ensures { result ≡ guard policy.now session command.now }
{
    guard_by(policy, session, command, policy.is_administrator(session))
}

/// Changes the policy as the command says, whoever gives it. The result of each kind of command is that of the whole match, so that none
/// needs a place of its own for its refusals.
pub(crate) fn change(policy: &mut Policy, command: &Command) -> Result<(), Refusal>
    ensures ok { OnOk result (policy.new ≡ after policy.old command.now) }
    ensures allowed { OnOk result (refusal_of policy.old command.now ≡ None) }
    ensures err { OnErr result (policy.new ≡ policy.old) }
    ensures refused { IfErr result (λ e. Says e (refusal_of policy.old command.now)) }
    ensures exact { takes_memory command.now ≡ false → result_err result ≡ refusal_of policy.old command.now }
{
    match command {
        Command::AddUser { user } => policy.add_user(*user),
        Command::DeleteUser { user } => policy.delete_user(*user),
        Command::AddRole { role } => policy.add_role(*role),
        Command::DeleteRole { role } => policy.delete_role(*role),
        Command::AssignUser { user, role } => policy.assign_user(*user, *role),
        Command::DeassignUser { user, role } => policy.deassign_user(*user, *role),
        Command::GrantPermission {
            role,
            operation,
            range,
        } => policy.grant_permission(*role, *operation, *range),
        Command::RevokePermission {
            role,
            operation,
            range,
        } => policy.revoke_permission(*role, *operation, *range),
        Command::AddInheritance { senior, junior } => policy.add_inheritance(*senior, *junior),
        Command::DeleteInheritance { senior, junior } => policy.delete_inheritance(
            *senior, *junior,
        ),
        Command::CreateSet {
            kind,
            name,
            number,
            roles,
        } => policy.create_set(*kind, *name, *number, roles.as_slice()),
        Command::AddSetMember { kind, name, role } => policy.add_set_member(*kind, *name, *role),
        Command::DeleteSetMember { kind, name, role } => policy.delete_set_member(
            *kind, *name, *role,
        ),
        Command::DeleteSet { kind, name } => policy.delete_set(*kind, *name),
        Command::SetCardinality { kind, name, number } => policy.set_cardinality(
            *kind, *name, *number,
        ),
        Command::CreateSession { user, roles } => match policy.create_session(
            *user,
            roles.as_slice(),
        ) {
            Ok(_) => Ok(()),
            Err(refusal) => Err(refusal),
        },
        Command::DeleteSession { session } => policy.delete_session(*session),
        Command::AddActiveRole { session, role } => policy.add_active_role(*session, *role),
        Command::DropActiveRole { session, role } => policy.drop_active_role(*session, *role),
        Command::Migrate => policy.migrate(),
    }
}

/// Carries out a command that the policy does not refuse, as another policy did before: for a new pair or role of a user the sets are not
/// looked at again.
#[inline(always)]
pub(crate) fn change_again(policy: &mut Policy, command: &Command) -> Result<(), Refusal>
    requires { refusal_of policy.old command.now ≡ None }
    ensures ok { OnOk result (policy.new ≡ after policy.old command.now) }
    ensures err { OnErr result (policy.new ≡ policy.old) }
    ensures lacking { OnErr result (takes_memory command.now ≡ true) }
{
    match command {
        Command::AssignUser { user, role } => policy.assign_user_again(*user, *role),
        Command::AddInheritance { senior, junior } => policy.add_inheritance_again(
            *senior, *junior,
        ),
        _ => return change(policy, command),
    }
    Ok(())
}

/// Carries out the command, whoever gives it. `NoMemory` may come in place of any answer, but not for a command that takes no memory: only
/// AddUser, AddRole, AddInheritance, CreateSet and CreateSession take any.
pub fn carry_out(policy: &mut Policy, command: &Command) -> Result<Outcome, Refusal>
    ensures ok { OnOk result (policy.new ≡ after policy.old command.now) }
    ensures outcome { IfOk result (λ outcome. outcome ≡ outcome_of policy.old command.now) }
    ensures allowed { OnOk result (refusal_of policy.old command.now ≡ None) }
    ensures err { OnErr result (policy.new ≡ policy.old) }
    ensures refused { IfErr result (λ e. Says e (refusal_of policy.old command.now)) }
    ensures exact { takes_memory command.now ≡ false → result_err result ≡ refusal_of policy.old command.now }
{
    match command {
        Command::CreateSession { user, roles } => {
            let number = policy.create_session(*user, roles.as_slice())?;
            Ok(Outcome::Session(number))
        }
        _ => {
            change(policy, command)?;
            Ok(Outcome::Done)
        }
    }
}

/// One step: the guard, and then the command. `NoMemory` may come in place of any answer where the command takes memory.
pub fn step(policy: &mut Policy, session: u32, command: &Command) -> Result<Outcome, Refusal>
    ensures ok { IfOk result (λ outcome. step policy.old session command.now ≡ (policy.new, Ok outcome)) }
    ensures err { OnErr result (policy.new ≡ policy.old) }
    ensures refused { IfErr result (λ e. IsRefused e (step policy.old session command.now) policy.old) }
    ensures exact { takes_memory command.now ≡ false → IfErr result (λ e. step policy.old session command.now ≡ (policy.old, Err e)) }
{
    if let Some(refusal) = guard(policy, session, command) {
        return Err(refusal);
    }
    carry_out(policy, command)
}

/// A law, for callers' proofs: running out of memory is none of the reasons for which a command is refused, so that a command that takes
/// no memory never answers `NoMemory`.
pub fn refusals_are_not_of_memory()
    ensures { (p : PolicyState) (command : ACommand) → refusal_of p command ≢ Some Refusal.NoMemory }
{}
