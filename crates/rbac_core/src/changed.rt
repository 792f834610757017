//! The parts of a policy that a command may change.
ghost use Rattle.std.specs.Prelude.{◌≡◌, true, Some};
ghost use Rattle.policy_core.specs.State.{PolicyState};
ghost use Rattle.policy_core.specs.Parts.{DifferIn, no_parts};
ghost use Rattle.rbac_core.specs.Step.{after, takes_memory};
ghost use Rattle.rbac_core.specs.Changed.{parts_of, sets_part};

use crate::command::Command;
use policy_core::{Parts, Separation};
use separation_core::Name;

/// The parts in which a policy after the command may differ from the one before it.
pub(crate) fn changed(command: &Command) -> Parts
    ensures parts { result ≡ parts_of command.now }
    ensures differ { (p : PolicyState) → DifferIn result (after p command.now) p }
{
    parts_of(command)
}

/// The parts in which a policy before the command may differ from the one after it. Of the commands that take memory alone: a role that
/// is deleted has no slot afterwards.
pub(crate) fn lacking(command: &Command) -> Parts
    ensures { (p : PolicyState) → takes_memory command.now ≡ true → DifferIn result p (after p command.now) }
{
    parts_of(command)
}

/// The parts, kind by kind. Each kind makes its own parts, so that no other's are made before.
fn parts_of(command: &Command) -> Parts
    ensures { result ≡ parts_of command.now }
{
    match command {
        Command::AddUser { .. } => users(),
        Command::DeleteUser { .. } => held(),
        Command::AddRole { .. } => Parts {
            roles: true,
            ..order()
        },
        Command::DeleteRole { role } => Parts {
            roles: true,
            order: true,
            grants: Some(*role),
            ..held()
        },
        Command::AssignUser { .. } => users(),
        Command::DeassignUser { .. } => held(),
        Command::GrantPermission { role, .. } => grants(*role),
        Command::RevokePermission { role, .. } => grants(*role),
        Command::AddInheritance { .. } => order(),
        Command::DeleteInheritance { .. } => Parts {
            sessions: true,
            ..order()
        },
        Command::CreateSet { kind, .. } => sets(*kind),
        Command::AddSetMember { kind, .. } => sets(*kind),
        Command::DeleteSetMember { kind, .. } => sets(*kind),
        Command::DeleteSet { kind, .. } => sets(*kind),
        Command::SetCardinality { kind, .. } => sets(*kind),
        Command::CreateSession { .. } => sessions(),
        Command::DeleteSession { .. } => sessions(),
        Command::AddActiveRole { .. } => sessions(),
        Command::DropActiveRole { .. } => sessions(),
        Command::Migrate => sessions(),
    }
}

/// The users.
#[inline(always)]
fn users() -> Parts
    ensures { result ≡ record no_parts { users = true } }
{
    Parts {
        users: true,
        ..Parts::none()
    }
}

/// The users and the sessions.
#[inline(always)]
fn held() -> Parts
    ensures { result ≡ record no_parts { users = true; sessions = true } }
{
    Parts {
        users: true,
        sessions: true,
        ..Parts::none()
    }
}

/// The slots and pairs of roles.
#[inline(always)]
fn order() -> Parts
    ensures { result ≡ record no_parts { order = true } }
{
    Parts {
        order: true,
        ..Parts::none()
    }
}

/// The sets of the kind.
#[inline(always)]
fn sets(kind: Separation) -> Parts
    ensures { result ≡ sets_part kind }
{
    match kind {
        Separation::Static => Parts {
            ssd: true,
            ..Parts::none()
        },
        Separation::Dynamic => Parts {
            dsd: true,
            ..Parts::none()
        },
    }
}

/// The sessions.
#[inline(always)]
fn sessions() -> Parts
    ensures { result ≡ record no_parts { sessions = true } }
{
    Parts {
        sessions: true,
        ..Parts::none()
    }
}

/// The permissions of this role.
#[inline(always)]
fn grants(role: Name) -> Parts
    ensures { result ≡ record no_parts { grants = Some role } }
{
    Parts {
        grants: Some(role),
        ..Parts::none()
    }
}
