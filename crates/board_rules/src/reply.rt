ghost use Rattle.std.specs.Prelude.{◌≡◌, ◌↔◌, IfOk, IsErr};
ghost use Rattle.policy_core.specs.declared.refusal.Refusal.TheVariants.{NoMemory};

use rbac_core::Refusal as PolicyRefusal;
use separation_core::Name;
use std::alloc::AllocError;
use thiserror::Error;

/// The first rule that a proposal fails, in the order in which the rules are tried. Vehicles, places and dimensions count from 1.
#[derive(Clone, Copy, Debug, PartialEq, Eq)]
pub enum Denial {
    /// The session does not exist.
    NoSession,
    /// A named vehicle is 0 or above the fleet.
    BadVehicle,
    /// The session lacks `move` on the vehicle, the first such that the move names.
    AccessVehicle(u32),
    /// The base is above the version.
    Ahead,
    /// A commit numbered above the base changed the vehicle, the first such that the move names.
    Stale(u32),
    /// The move has no effect.
    BadPlace,
    /// The session lacks `move` on the customer that is touched at this vehicle and place, the first such.
    AccessCustomer(u32, u32),
    /// The frozen front of the vehicle would differ, the first such that the move names.
    Frozen(u32),
    /// The pinned customer that is touched at this vehicle and place would leave its vehicle, and the session lacks `override` on it:
    /// the first such.
    Pinned(u32, u32),
    /// The new route of the vehicle is out of bounds in the dimension: the first such vehicle, and of its dimensions the first.
    Bound(u32, u32),
}

/// Why a call other than a proposal is refused. Which refusals a call has, and in which order they are tried, stands at its variant of
/// `Call`.
#[derive(Clone, Copy, Debug, PartialEq, Eq)]
pub enum Refusal {
    /// The session does not exist.
    NoSession,
    /// The session lacks the operation that the call needs.
    NoAccess,
    /// The vehicle is 0 or above the fleet.
    BadVehicle,
    /// The customer is 0 or above the number of customers.
    BadCustomer,
    /// There is no such user.
    NoUser,
    /// There is no such role.
    NoRole,
    /// There is no such set of roles.
    NoSet,
    /// The range of objects is empty, begins at 0 or ends above the fleet or the customers.
    BadObject,
    /// What the call would add is there already.
    Already,
    /// What the call would take away or change is not there.
    NotThere,
    /// The user is not authorized for the role.
    NotAuthorized,
    /// The senior role would be its own junior.
    Cycle,
    /// The role is a member of an SSD or DSD set.
    InSet,
    /// The set would have a number below 2 or above the number of its roles.
    Number,
    /// Static separation of duty would break in this set, the first by creation.
    Ssd(Name),
    /// Dynamic separation of duty would break in this set, the first by creation.
    Dsd(Name),
    /// A limit is reached.
    Full,
    /// The customer stands on no vehicle.
    NotPlaced,
    /// The length is not one that the call allows: `Freeze` needs more than the old one and at most the route's, `Thaw` less than the old
    /// one.
    Length,
}

impl Refusal {
    ghost use Rattle.board_rules.specs.Policies.{board_refusal};

    /// The refusal of the policy as one of the board. Running out of memory is no refusal of the board, and is answered as `AllocError`.
    pub fn of_policy(refusal: PolicyRefusal) -> Result<Refusal, AllocError>
        ensures ok { IfOk result (λ r. r ≡ board_refusal refusal) }
        ensures err { IsErr result ↔ (refusal ≡ NoMemory) }
    {
        match refusal {
            PolicyRefusal::NoSession => Ok(Refusal::NoSession),
            PolicyRefusal::NoAccess => Ok(Refusal::NoAccess),
            PolicyRefusal::NoUser => Ok(Refusal::NoUser),
            PolicyRefusal::NoRole => Ok(Refusal::NoRole),
            PolicyRefusal::NoSet => Ok(Refusal::NoSet),
            PolicyRefusal::BadObject => Ok(Refusal::BadObject),
            PolicyRefusal::Already => Ok(Refusal::Already),
            PolicyRefusal::NotThere => Ok(Refusal::NotThere),
            PolicyRefusal::NotAuthorized => Ok(Refusal::NotAuthorized),
            PolicyRefusal::Cycle => Ok(Refusal::Cycle),
            PolicyRefusal::InSet => Ok(Refusal::InSet),
            PolicyRefusal::Number => Ok(Refusal::Number),
            PolicyRefusal::Ssd(set) => Ok(Refusal::Ssd(set)),
            PolicyRefusal::Dsd(set) => Ok(Refusal::Dsd(set)),
            PolicyRefusal::Full => Ok(Refusal::Full),
            PolicyRefusal::NoMemory => Err(AllocError),
        }
    }
}

/// The answer to a call.
#[derive(Clone, Copy, Debug, PartialEq, Eq)]
pub enum Reply {
    /// The call was carried out.
    Done,
    /// A session was opened, and this is its number, from 1.
    Session(u32),
    /// The plan changed, and this is its new version, from 1.
    Committed(u32),
    /// The proposal fails a rule, and nothing changed.
    Denied(Denial),
    /// The call is refused, and nothing changed.
    Refused(Refusal),
}

/// Why an event was not taken, in the order in which the faults are tried. Such an event is not journaled, and nothing changed.
#[derive(Clone, Copy, Debug, PartialEq, Eq, Error)]
pub enum Fault {
    #[error("there is no such desk, or the turn is not the desk's last plus one")]
    OutOfTurn,
    #[error("the journal is full")]
    Full,
    #[error("out of memory")]
    NoMemory,
}

/// Why a question was not answered.
#[derive(Clone, Copy, Debug, PartialEq, Eq, Error)]
pub enum AskFault {
    #[error("the session does not exist")]
    NoSession,
    #[error("the session lacks `audit` on the board")]
    NoAccess,
    #[error("there is no such user")]
    NoUser,
    #[error("there is no such role")]
    NoRole,
    #[error("there is no such session to review")]
    NotThere,
    #[error("out of memory")]
    NoMemory,
}
