//! Faults of a change of the sets, as refusals of the policy.
ghost use Rattle.std.specs.Prelude.{◌≡◌, Some};
ghost use Rattle.policy_core.specs.Commands.{as_refusal};

use crate::refusal::Refusal;
use separation_core::SetFault;

/// The fault as a refusal; `member` where the role is in the set already, or is not in it.
pub(crate) fn refusal_of_fault(fault: SetFault, member: Refusal) -> Refusal
    ensures { Some result ≡ as_refusal member (Some fault) }
{
    match fault {
        SetFault::NoSet => Refusal::NoSet,
        SetFault::Already => Refusal::Already,
        SetFault::Member => member,
        SetFault::Small => Refusal::Number,
        SetFault::Large => Refusal::Number,
        SetFault::Full => Refusal::Full,
        SetFault::NoMemory => Refusal::NoMemory,
    }
}
