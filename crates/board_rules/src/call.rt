ghost use Rattle.std.specs.Prelude.{◌≡◌, IfOk};

use crate::reply::Reply;
use move_core::Move;
use rbac_core::Command;
use std::alloc::AllocError;

/// What a session asks of the board. Customers and vehicles count from 1, and each number may be any u32.
#[derive(Drop)]
pub enum Call {
    /// A change of the plan, judged against the version `base` that the session has seen. It is denied by the first rule that it fails, in
    /// the order of `Denial`.
    Propose {
        session: u32,
        base: u32,
        mv: Move,
    },
    /// The customer is pinned to the vehicle on which it stands. Refusals, in order: `NoSession`; `BadCustomer`; `NoAccess`, without `pin`
    /// on the customer; `NotPlaced`, where it stands on no vehicle; `Already`, where it is pinned.
    Pin {
        session: u32,
        customer: u32,
    },
    /// The customer is pinned no longer. Refusals, in order: `NoSession`; `BadCustomer`; `NoAccess`, without `pin` on the customer;
    /// `NotThere`, where it is not pinned.
    Unpin {
        session: u32,
        customer: u32,
    },
    /// The first `length` stops of the vehicle are frozen, which are more than before and at most those of its route. Refusals, in order:
    /// `NoSession`; `BadVehicle`; `NoAccess`, without `freeze` on the vehicle; `Length`, where `length` is not above the old one or is
    /// above the route's.
    Freeze {
        session: u32,
        vehicle: u32,
        length: u32,
    },
    /// Only the first `length` stops of the vehicle stay frozen, which are fewer than before. Refusals, in order: `NoSession`;
    /// `BadVehicle`; `NoAccess`, without `freeze` on the vehicle; `Length`, where `length` is not below the old one.
    Thaw {
        session: u32,
        vehicle: u32,
        length: u32,
    },
    /// A change of the policy. Refusals, in order: `NoSession`; `NoAccess`, without `admin` on the board, unless it is a session command
    /// that concerns the session's own user; and then those of the command, which `Command` of `rbac_core` lists.
    Policy {
        session: u32,
        command: Command,
    },
}

impl Call {
    /// The same call once more. Only a command with a list of names takes memory.
    pub fn copy(&self) -> Result<Call, AllocError>
        ensures { IfOk result (λ call. call ≡ self.now) }
    {
        let call = match self {
            Call::Propose { session, base, mv } => Call::Propose {
                session: *session,
                base: *base,
                mv: *mv,
            },
            Call::Pin { session, customer } => Call::Pin {
                session: *session,
                customer: *customer,
            },
            Call::Unpin { session, customer } => Call::Unpin {
                session: *session,
                customer: *customer,
            },
            Call::Freeze {
                session,
                vehicle,
                length,
            } => Call::Freeze {
                session: *session,
                vehicle: *vehicle,
                length: *length,
            },
            Call::Thaw {
                session,
                vehicle,
                length,
            } => Call::Thaw {
                session: *session,
                vehicle: *vehicle,
                length: *length,
            },
            Call::Policy { session, command } => Call::Policy {
                session: *session,
                command: command.copy()?,
            },
        };
        Ok(call)
    }
}

/// A call with its tag: the desk that makes it, from 1, and the number of that desk's turn, from 1.
#[derive(Drop)]
pub struct Event {
    pub desk: u32,
    pub turn: u32,
    pub call: Call,
}

/// A journaled call and its reply.
#[derive(Drop)]
pub struct Entry {
    pub desk: u32,
    pub turn: u32,
    pub call: Call,
    pub reply: Reply,
}

impl Entry {
    /// The same entry once more. It takes memory where the copy of its call does.
    pub fn copy(&self) -> Result<Entry, AllocError>
        ensures { IfOk result (λ entry. entry ≡ self.now) }
    {
        Ok(Entry {
            desk: self.desk,
            turn: self.turn,
            call: self.call.copy()?,
            reply: self.reply,
        })
    }
}
