//! Commands on a policy, by the names of ANSI INCITS 359-2004.
ghost use Rattle.std.specs.Prelude.{◌≡◌, IfOk};

use crate::names::Names;
use permission_core::{ObjectRange, Operation};
use policy_core::Separation;
use separation_core::Name;
use std::alloc::AllocError;

/// A command that changes a policy, by its name in ANSI INCITS 359-2004 and the sections that define it. Each variant lists its own
/// refusals in the order in which they are tried. Before them any command is refused with `NoSession`, where the acting session does not
/// exist, and with `NoAccess`, where it lacks `admin` on the board and the command is none of the four session commands for its own user.
/// `NoMemory` may come in place of any answer.
#[derive(Drop)]
pub enum Command {
    /// AddUser (6.1): a new user, without roles. Refusals: `Already`, `Full`.
    AddUser {
        /// The new user.
        user: Name,
    },
    /// DeleteUser (6.1): the user goes, with its assignments and its sessions. Refusal: `NoUser`.
    DeleteUser {
        /// The user that goes.
        user: Name,
    },
    /// AddRole (6.1): a new role, which takes the least free slot and is in no pair. Refusals: `Already`, `Full`.
    AddRole {
        /// The new role.
        role: Name,
    },
    /// DeleteRole (6.1): the role goes, with its assignments, permissions and pairs. Refusals: `NoRole`, `InSet`.
    DeleteRole {
        /// The role that goes.
        role: Name,
    },
    /// AssignUser (6.1, 6.3). Refusals: `NoUser`, `NoRole`, `Already`, `Ssd`.
    AssignUser {
        /// The user who gets the role.
        user: Name,
        /// The role to which the user is assigned.
        role: Name,
    },
    /// DeassignUser (6.1): the user's sessions lose the roles for which it is no longer authorized. Refusals: `NoUser`, `NoRole`,
    /// `NotThere`.
    DeassignUser {
        /// The user who loses the role.
        user: Name,
        /// The role to which the user is assigned no longer.
        role: Name,
    },
    /// GrantPermission (6.1), for each object of the range. Refusals: `NoRole`, `BadObject`.
    GrantPermission {
        /// The role that gets the permissions.
        role: Name,
        /// What the role may do.
        operation: Operation,
        /// To which objects.
        range: ObjectRange,
    },
    /// RevokePermission (6.1), for each object of the range. Refusals: `NoRole`, `BadObject`.
    RevokePermission {
        /// The role that loses the permissions.
        role: Name,
        /// What the role may do no longer.
        operation: Operation,
        /// To which objects.
        range: ObjectRange,
    },
    /// AddInheritance (6.2, 6.3): an immediate pair of the hierarchy. Refusals: `NoRole`, `Already`, `Cycle`, `Ssd`, `Dsd`.
    AddInheritance {
        /// The role that inherits the other's permissions.
        senior: Name,
        /// The role whose permissions are inherited.
        junior: Name,
    },
    /// DeleteInheritance (6.2): sessions lose the roles for which their user is no longer authorized. Refusals: `NoRole`, `NotThere`.
    DeleteInheritance {
        /// The senior role of the pair.
        senior: Name,
        /// The junior role of the pair.
        junior: Name,
    },
    /// CreateSsdSet (6.3), CreateDsdSet (6.4). Refusals: `NoRole`, `Already`, `Number`, `Ssd` or `Dsd`, `Full`.
    CreateSet {
        /// Whether it is an SSD set or a DSD set.
        kind: Separation,
        /// The name of the new set.
        name: Name,
        /// How many of its roles are too many for one user, or for one session: 2 to the number of its roles.
        number: u32,
        /// The roles of the set; one that comes twice counts once.
        roles: Names,
    },
    /// AddSsdRoleMember (6.3), AddDsdRoleMember (6.4). Refusals: `NoRole`, `NoSet`, `Already`, `Ssd` or `Dsd`.
    AddSetMember {
        /// Whether it is an SSD set or a DSD set.
        kind: Separation,
        /// The name of the set.
        name: Name,
        /// The role that joins it.
        role: Name,
    },
    /// DeleteSsdRoleMember (6.3), DeleteDsdRoleMember (6.4). Refusals: `NoRole`, `NoSet`, `NotThere`, `Number`.
    DeleteSetMember {
        /// Whether it is an SSD set or a DSD set.
        kind: Separation,
        /// The name of the set.
        name: Name,
        /// The role that leaves it.
        role: Name,
    },
    /// DeleteSsdSet (6.3), DeleteDsdSet (6.4). Refusal: `NoSet`.
    DeleteSet {
        /// Whether it is an SSD set or a DSD set.
        kind: Separation,
        /// The name of the set that goes.
        name: Name,
    },
    /// SetSsdSetCardinality (6.3), SetDsdSetCardinality (6.4). Refusals: `NoSet`, `Number`, `Ssd` or `Dsd`.
    SetCardinality {
        /// Whether it is an SSD set or a DSD set.
        kind: Separation,
        /// The name of the set.
        name: Name,
        /// How many of its roles are now too many for one user, or for one session: 2 to the number of its roles.
        number: u32,
    },
    /// CreateSession (6.1, 6.4): it gets the next number. Refusals: `NoUser`, `NoRole`, `NotAuthorized`, `Dsd`, `Full`.
    CreateSession {
        /// The user of the new session.
        user: Name,
        /// The roles that are active in it at first; one that comes twice counts once.
        roles: Names,
    },
    /// DeleteSession (6.1). Refusal: `NotThere`.
    DeleteSession {
        /// The session that ends.
        session: u32,
    },
    /// AddActiveRole (6.1, 6.4). Refusals: `NoRole`, `Already`, `NotThere`, `NotAuthorized`, `Dsd`.
    AddActiveRole {
        /// The session that changes, which need not be the acting one.
        session: u32,
        /// The role that becomes active in it.
        role: Name,
    },
    /// DropActiveRole (6.1). Refusals: `NoRole`, `NotThere`.
    DropActiveRole {
        /// The session that changes, which need not be the acting one.
        session: u32,
        /// The role that is active in it no longer.
        role: Name,
    },
    /// DSD counts inherited roles from now on, and sessions that then break a set lose their active roles. It is a command of this project.
    /// Refusal: `Already`.
    Migrate,
}

impl Command {
    /// A copy of the command. Only the names of roles take memory.
    pub fn copy(&self) -> Result<Command, AllocError>
        ensures { IfOk result (λ command. command ≡ self.now) }
    {
        let command = match self {
            Command::AddUser { user } => Command::AddUser { user: *user },
            Command::DeleteUser { user } => Command::DeleteUser { user: *user },
            Command::AddRole { role } => Command::AddRole { role: *role },
            Command::DeleteRole { role } => Command::DeleteRole { role: *role },
            Command::AssignUser { user, role } => Command::AssignUser {
                user: *user,
                role: *role,
            },
            Command::DeassignUser { user, role } => Command::DeassignUser {
                user: *user,
                role: *role,
            },
            Command::GrantPermission {
                role,
                operation,
                range,
            } => Command::GrantPermission {
                role: *role,
                operation: *operation,
                range: *range,
            },
            Command::RevokePermission {
                role,
                operation,
                range,
            } => Command::RevokePermission {
                role: *role,
                operation: *operation,
                range: *range,
            },
            Command::AddInheritance { senior, junior } => Command::AddInheritance {
                senior: *senior,
                junior: *junior,
            },
            Command::DeleteInheritance { senior, junior } => Command::DeleteInheritance {
                senior: *senior,
                junior: *junior,
            },
            Command::CreateSet {
                kind,
                name,
                number,
                roles,
            } => Command::CreateSet {
                kind: *kind,
                name: *name,
                number: *number,
                roles: roles.copy()?,
            },
            Command::AddSetMember { kind, name, role } => Command::AddSetMember {
                kind: *kind,
                name: *name,
                role: *role,
            },
            Command::DeleteSetMember { kind, name, role } => Command::DeleteSetMember {
                kind: *kind,
                name: *name,
                role: *role,
            },
            Command::DeleteSet { kind, name } => Command::DeleteSet {
                kind: *kind,
                name: *name,
            },
            Command::SetCardinality { kind, name, number } => Command::SetCardinality {
                kind: *kind,
                name: *name,
                number: *number,
            },
            Command::CreateSession { user, roles } => Command::CreateSession {
                user: *user,
                roles: roles.copy()?,
            },
            Command::DeleteSession { session } => Command::DeleteSession { session: *session },
            Command::AddActiveRole { session, role } => Command::AddActiveRole {
                session: *session,
                role: *role,
            },
            Command::DropActiveRole { session, role } => Command::DropActiveRole {
                session: *session,
                role: *role,
            },
            Command::Migrate => Command::Migrate,
        };
        Ok(command)
    }
}

/// What a command that was carried out answers.
#[derive(Clone, Copy, Debug, PartialEq, Eq)]
pub enum Outcome {
    /// It is done.
    Done,
    /// The number of the new session.
    Session(u32),
}
