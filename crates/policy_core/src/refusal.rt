//! Why a command on a policy is refused.
ghost use Rattle.std.specs.Prelude.{◌≡◌};
ghost use Rattle.policy_core.specs.declared.refusal.Refusal.TheVariants.{NoMemory};

use separation_core::Name;
use std::alloc::AllocError;
use thiserror::Error;

/// Why a command is refused.
#[derive(Clone, Copy, Debug, PartialEq, Eq, Error)]
pub enum Refusal {
    /// The acting session does not exist.
    #[error("no such session")]
    NoSession,
    /// The acting session may not give the command.
    #[error("the session has no access")]
    NoAccess,
    /// The user does not exist.
    #[error("no such user")]
    NoUser,
    /// The role, or one of the roles, does not exist.
    #[error("no such role")]
    NoRole,
    /// No set has the name.
    #[error("no such set")]
    NoSet,
    /// The range is empty, begins at 0, or ends above the vehicles or customers.
    #[error("no such objects")]
    BadObject,
    /// The user, role, set, assignment, pair, member or active role is there already.
    #[error("it is there already")]
    Already,
    /// The assignment, pair, member, session or active role is not there.
    #[error("it is not there")]
    NotThere,
    /// The user is not authorized for the role, or for one of them.
    #[error("the user is not authorized")]
    NotAuthorized,
    /// The junior is senior to the senior, or the two are one role.
    #[error("the junior is senior to the senior")]
    Cycle,
    /// The role is a member of an SSD or DSD set.
    #[error("the role stands in a set")]
    InSet,
    /// The set would have a number below 2 or above the number of its roles.
    #[error("the number does not fit the set")]
    Number,
    /// The first SSD set, in order of creation, that would be broken.
    #[error("it would break the SSD set {0}")]
    Ssd(Name),
    /// The first DSD set, in order of creation, that would be broken.
    #[error("it would break the DSD set {0}")]
    Dsd(Name),
    /// There are as many users, roles, sets or sessions as there may be, or no session number is
    /// left.
    #[error("there is no room")]
    Full,
    /// Memory ran out.
    #[error("out of memory")]
    NoMemory,
}

impl From<AllocError> for Refusal {
    ghost from_gives = { λ _ e. e ≡ NoMemory };

    fn from(_e: AllocError) -> Refusal {
        Refusal::NoMemory
    }
}
