//! The numbers of sessions rise.
ghost use Rattle.std.specs.Prelude.{ℕ};
ghost use Rattle.policy_core.specs.State.{PolicyState};
ghost use Rattle.rbac_core.specs.declared.command.Command.{Command as ACommand};
ghost use Rattle.rbac_core.specs.Step.{step};
ghost use Rattle.rbac_core.specs.Numbers.{AreNumbersUsed, IsNumberedNext, DoNumbersRise};

use policy_core::Policy;

/// A law, for callers' proofs: each session's number is at most the last one used.
pub fn session_numbers_are_used(policy: &Policy)
    ensures { AreNumbersUsed policy.now }
{
    policy.is_policy();
}

/// A law, for callers' proofs: whatever a step does, the last session number used does not fall, and a new session has the number after it.
/// So over any steps the numbers rise, and none is used twice.
pub fn session_numbers_rise()
    ensures step { (p : PolicyState) (session : ℕ) (command : ACommand) → IsNumberedNext p (step p session command).0 }
    ensures next { (p q : PolicyState) → IsNumberedNext p q → DoNumbersRise p q }
    ensures same { (p : PolicyState) → DoNumbersRise p p }
    ensures on { (p q r : PolicyState) → DoNumbersRise p q → DoNumbersRise q r → DoNumbersRise p r }
    ensures used { (p q : PolicyState) → AreNumbersUsed p → DoNumbersRise p q → AreNumbersUsed q }
{}
