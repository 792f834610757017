//! Calls on pins and frozen fronts, and their replies, in few bytes.
ghost use Rattle.std.specs.Prelude.{◌≡◌, false, MatchOption};
ghost use Rattle.board_rules.specs.Holds.{call_of, refusal_for, reply_to, is_hold, is_hold_refusal, is_ruling};

use crate::call::Call;
use crate::reply::{Refusal, Reply};

/// A call on a pin or on the frozen front of a vehicle, with the variants of `Call`.
#[derive(Clone, Copy, Debug, PartialEq, Eq)]
pub enum Hold {
    Pin {
        session: u32,
        customer: u32,
    },
    Unpin {
        session: u32,
        customer: u32,
    },
    Freeze {
        session: u32,
        vehicle: u32,
        length: u32,
    },
    Thaw {
        session: u32,
        vehicle: u32,
        length: u32,
    },
}

impl Hold {
    /// The call as one of these, where it is one.
    #[inline]
    pub fn of(call: &Call) -> Option<Hold>
        ensures { MatchOption result (is_hold call.now ≡ false) (λ hold. call_of hold ≡ call.now) }
    {
        match call {
            Call::Pin { session, customer } => Some(Hold::Pin {
                session: *session,
                customer: *customer,
            }),
            Call::Unpin { session, customer } => Some(Hold::Unpin {
                session: *session,
                customer: *customer,
            }),
            Call::Freeze {
                session,
                vehicle,
                length,
            } => Some(Hold::Freeze {
                session: *session,
                vehicle: *vehicle,
                length: *length,
            }),
            Call::Thaw {
                session,
                vehicle,
                length,
            } => Some(Hold::Thaw {
                session: *session,
                vehicle: *vehicle,
                length: *length,
            }),
            Call::Propose { .. } | Call::Policy { .. } => None,
        }
    }

    /// The call for which it stands.
    pub fn call(self) -> Call
        ensures { result ≡ call_of self }
    {
        match self {
            Hold::Pin { session, customer } => Call::Pin { session, customer },
            Hold::Unpin { session, customer } => Call::Unpin { session, customer },
            Hold::Freeze {
                session,
                vehicle,
                length,
            } => Call::Freeze {
                session,
                vehicle,
                length,
            },
            Hold::Thaw {
                session,
                vehicle,
                length,
            } => Call::Thaw {
                session,
                vehicle,
                length,
            },
        }
    }
}

/// Why such a call is refused: those of the variants of `Refusal` that it may have.
#[derive(Clone, Copy)]
pub enum HoldRefusal {
    NoSession,
    NoAccess,
    BadVehicle,
    BadCustomer,
    Already,
    NotThere,
    NotPlaced,
    Length,
}

impl HoldRefusal {
    /// The refusal as one of these, where it is one.
    #[inline]
    pub(crate) fn of(refusal: &Refusal) -> Option<HoldRefusal>
        ensures { MatchOption result (is_hold_refusal refusal.now ≡ false) (λ due. refusal_for due ≡ refusal.now) }
    {
        match refusal {
            Refusal::NoSession => Some(HoldRefusal::NoSession),
            Refusal::NoAccess => Some(HoldRefusal::NoAccess),
            Refusal::BadVehicle => Some(HoldRefusal::BadVehicle),
            Refusal::BadCustomer => Some(HoldRefusal::BadCustomer),
            Refusal::Already => Some(HoldRefusal::Already),
            Refusal::NotThere => Some(HoldRefusal::NotThere),
            Refusal::NotPlaced => Some(HoldRefusal::NotPlaced),
            Refusal::Length => Some(HoldRefusal::Length),
            _ => None,
        }
    }

    /// The refusal for which it stands.
    #[inline]
    pub fn refusal(self) -> Refusal
        ensures { result ≡ refusal_for self }
    {
        match self {
            HoldRefusal::NoSession => Refusal::NoSession,
            HoldRefusal::NoAccess => Refusal::NoAccess,
            HoldRefusal::BadVehicle => Refusal::BadVehicle,
            HoldRefusal::BadCustomer => Refusal::BadCustomer,
            HoldRefusal::Already => Refusal::Already,
            HoldRefusal::NotThere => Refusal::NotThere,
            HoldRefusal::NotPlaced => Refusal::NotPlaced,
            HoldRefusal::Length => Refusal::Length,
        }
    }
}

/// The reply to such a call.
#[derive(Clone, Copy)]
pub enum Ruling {
    Done,
    Refused(HoldRefusal),
}

impl Ruling {
    /// The reply as one of these, where it is one.
    #[inline]
    pub fn of(reply: &Reply) -> Option<Ruling>
        ensures { MatchOption result (is_ruling reply.now ≡ false) (λ ruling. reply_to ruling ≡ reply.now) }
    {
        match reply {
            Reply::Done => Some(Ruling::Done),
            Reply::Refused(refusal) => match HoldRefusal::of(refusal) {
                Some(due) => Some(Ruling::Refused(due)),
                None => None,
            },
            _ => None,
        }
    }

    /// The reply for which it stands.
    #[inline]
    pub fn reply(self) -> Reply
        ensures { result ≡ reply_to self }
    {
        match self {
            Ruling::Done => Reply::Done,
            Ruling::Refused(refusal) => Reply::Refused(refusal.refusal()),
        }
    }
}
