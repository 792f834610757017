//! A policy with a spare one, on which a command is tried.
ghost use Rattle.std.specs.Prelude.{◌≡◌, ◌≢◌, None, OnOk, OnErr, IfOk, IfErr, true, false, not, if◌then◌else◌};
ghost use Rattle.std.specs.Result.{result_err};
ghost use Rattle.policy_core.specs.Commands.{Says};
ghost use Rattle.policy_core.specs.Parts.{is_copied};
ghost use Rattle.policy_core.specs.declared.refusal.Refusal.TheVariants.{NoMemory};
ghost use Rattle.rbac_core.specs.Changed.{parts_of};
ghost use Rattle.rbac_core.specs.Step.{refusal_of, after, takes_memory, outcome_of, guard, guard_by};
ghost use Rattle.rbac_core.specs.Tried.{idle};
ghost use Rattle.rbac_core.specs.Twins.{Follows, tried_of, level_of, trying_of};

use crate::changed::{changed, lacking};
use crate::command::{Command, Outcome};
use crate::steps::{carry_out, change_again, guard};
use policy_core::{Parts, Policy, Refusal};
use std::alloc::{AllocError, Global};
use std::marker::Model;
use std::mem;

/// How the spare policy compares with the other.
#[derive(Drop)]
enum Lag {
    /// They are equal.
    Even,
    /// The spare one lacks this command.
    Behind(Command),
    /// A command was tried on the spare one, and may be kept. It changed these parts at most.
    Ahead(Parts),
    /// The spare one holds what is not to be kept, in these parts at most.
    Apart(Parts),
}

/// A policy with a spare one. A command is tried on the spare policy, and the two are exchanged where it is to be kept. The spare one then
/// lacks that command, and is brought up to date with it before the next command is tried. So no command copies a policy. After a command
/// that was tried and not kept, the next one copies back only the parts that the former may have changed.
///
/// Contracts see the policy (`now`), the state that `settle` would make (`tried`: the policy itself where nothing is tried), whether a
/// command is tried (`trying`), and whether the spare policy can be made equal to the policy without memory (`level`): it is equal, or lacks
/// only a command that takes none, or differs only in permissions.
pub struct Twin {
    // Boxed, so that the two are exchanged by exchanging two words.
    policy: Box<Policy>,
    spare: Box<Policy>,
    lag: Lag,
}

// Written by hand: a derived drop is expanded, down to each list, at every place where a value is dropped.
impl Drop for Twin {
    fn drop(self) {
        let Twin {
            policy: _,
            spare: _,
            lag: _,
        } = self;
    }
}

impl Model for Twin {
    ghost use Rattle.rbac_core.specs.Tried.{Tried};

    ghost Value = { Tried };

    ghost use Rattle.rbac_core.specs.Twins.{Follows, tried_of, level_of, trying_of};

    ghost view = { λ a. record {
      now = a.policy.value;
      tried = tried_of a.lag a.spare.value a.policy.value;
      level = level_of a.lag;
      trying = trying_of a.lag;
    } };

    ghost invariant = { λ a. Follows a.lag a.spare.value a.policy.value };
}

impl Twin {
    /// The policy with a spare copy.
    pub fn new(alloc: Global, policy: Policy) -> Result<Twin, AllocError>
        ensures { IfOk result (λ twin. twin ≡ idle policy true) }
    {
        let spare = Box::new(alloc, policy.copy()?)?;
        let policy = Box::new(alloc, policy)?;
        Ok(Twin {
            policy,
            spare,
            lag: Lag::Even,
        })
    }

    /// The policy.
    pub fn policy(&self) -> &Policy
        ensures { result.now ≡ self.now.now }
    {
        &self.policy
    }

    /// The policy as `settle` would make it: after the command that was tried last, or the policy itself where none was.
    pub fn tried(&self) -> &Policy
        ensures { result.now ≡ self.now.tried }
    {
        match self.lag {
            Lag::Ahead(_) => &self.spare,
            _ => &self.policy,
        }
    }

    /// Tries the command on the spare policy, which is first made equal to the other, whoever gives the command. The policy stays as it is.
    /// After a refusal nothing is tried. `NoMemory` may come in place of any answer, but not where the spare policy is level and the command
    /// takes no memory. The spare policy is level after every refusal but `NoMemory`, and after that one where it was before.
    #[inline(always)]
    pub fn prepare(&mut self, command: &Command) -> Result<Outcome, Refusal>
        ensures now { self.new.now ≡ self.old.now }
        ensures ok { OnOk result (self.new.tried ≡ after self.old.now command.now) }
        ensures outcome { IfOk result (λ outcome. outcome ≡ outcome_of self.old.now command.now) }
        ensures allowed { OnOk result (refusal_of self.old.now command.now ≡ None) }
        ensures err { OnErr result (self.new.tried ≡ self.old.now) }
        ensures refused { IfErr result (λ e. Says e (refusal_of self.old.now command.now)) }
        ensures exact { self.old.level ≡ true → takes_memory command.now ≡ false → result_err result ≡ refusal_of self.old.now command.now }
        ensures trying { OnOk result (self.new.trying ≡ true) }
        ensures idle { OnErr result (self.new.trying ≡ false) }
        ensures ahead { OnOk result (self.new.level ≡ not (is_copied (parts_of command.now))) }
        ensures level { self.old.level ≡ true → OnErr result (self.new.level ≡ true) }
        ensures levelled { IfErr result (λ e. e ≢ NoMemory → self.new.level ≡ true) }
    {
        if !even_out(&self.policy, &mut self.spare, &mut self.lag) {
            return Err(Refusal::NoMemory);
        }
        let outcome = carry_out(&mut self.spare, command)?;
        self.lag = Lag::Ahead(changed(command));
        Ok(outcome)
    }

    /// Gives up the command that was tried, if there is one: nothing is tried any more. It takes no memory, and copies nothing; the next
    /// command that is tried first copies back the parts that this one may have changed, which takes memory except for permissions.
    pub fn give_up(&mut self)
        ensures { self.new ≡ idle self.old.now self.old.level }
    {
        if let Lag::Ahead(parts) = self.lag {
            self.lag = Lag::Apart(parts);
        }
    }

    /// Exchanges the two policies: what was tried is kept. It takes no memory. The contract requires that the policy does not refuse this
    /// command, and that `tried` is the policy after it, as the last `prepare` promises where it answers `Ok`. Where nothing is tried, this
    /// says that the command changes nothing, and `settle` does nothing.
    pub fn settle(&mut self, command: Command)
        requires allowed { refusal_of self.old.now command ≡ None }
        requires tried { self.old.tried ≡ after self.old.now command }
        ensures { self.new ≡ idle self.old.tried (if self.old.trying then not (takes_memory command) else self.old.level) }
    {
        if let Lag::Ahead(_) = self.lag {
            mem::swap(&mut self.policy, &mut self.spare);
            self.lag = Lag::Behind(command);
        }
    }

    /// As `settle`, but the spare policy gets the command at once, so that no copy of the command is kept. Where memory runs out for that,
    /// the next command that is tried first copies what the spare one lacks. For a command that takes no memory it does not run out.
    #[inline(always)]
    pub fn keep(&mut self, command: &Command)
        requires allowed { refusal_of self.old.now command.now ≡ None }
        requires tried { self.old.tried ≡ after self.old.now command.now }
        ensures kept { self.new ≡ idle self.old.tried self.new.level }
        ensures level { takes_memory command.now ≡ false → self.new.level ≡ (if self.old.trying then true else self.old.level) }
        ensures same { self.old.trying ≡ false → self.new.level ≡ self.old.level }
    {
        if let Lag::Ahead(_) = self.lag {
            mem::swap(&mut self.policy, &mut self.spare);
            self.lag = follow(&mut self.spare, command);
        }
    }
}

/// Gives the spare policy the command that the other already has. How it then compares with the other.
#[inline(always)]
fn follow(spare: &mut Policy, command: &Command) -> Lag
    requires { refusal_of spare.old command.now ≡ None }
    ensures follows { Follows result spare.new (after spare.old command.now) }
    ensures nothing { tried_of result spare.new (after spare.old command.now) ≡ after spare.old command.now }
    ensures idle { trying_of result ≡ false }
    ensures level { takes_memory command.now ≡ false → level_of result ≡ true }
{
    match change_again(spare, command) {
        Ok(()) => Lag::Even,
        Err(_) => Lag::Apart(lacking(command)),
    }
}

/// Makes the spare policy equal to the other, by the command that it lacks, or by copies of the parts in which it may differ; `false` where
/// memory ran out. In either case what was tried before is given up.
fn even_out(policy: &Policy, spare: &mut Policy, lag: &mut Lag) -> bool
    requires { Follows lag.old spare.old policy.now }
    ensures follows { Follows lag.new spare.new policy.now }
    ensures nothing { tried_of lag.new spare.new policy.now ≡ policy.now }
    ensures even { (result ≡ true) → spare.new ≡ policy.now }
    ensures idle { trying_of lag.new ≡ false }
    ensures level { level_of lag.new ≡ result }
    ensures free { level_of lag.old ≡ true → result ≡ true }
{
    let even = match lag {
        Lag::Even => return true,
        Lag::Behind(command) => change_again(spare, command).is_ok(),
        Lag::Ahead(parts) => spare.restore(policy, *parts).is_ok(),
        Lag::Apart(parts) => spare.restore(policy, *parts).is_ok(),
    };
    if even {
        *lag = Lag::Even;
    } else if let Lag::Ahead(parts) = lag {
        *lag = Lag::Apart(*parts);
    }
    even
}
