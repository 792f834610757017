//! Policy commands: tried on the spare policy, with the rows of the sessions whose access they change.
ghost use Rattle.std.specs.Prelude.{◌≡◌, ℕ, Option, None, Some, Ok, IfOk, OnOk, OnErr};
ghost use Rattle.policy_core.specs.State.{slot_of};
ghost use Rattle.policy_core.specs.Commands.{Says};
ghost use Rattle.policy_core.specs.declared.refusal.Refusal.{Refusal as PolicyRefusal};
ghost use Rattle.rbac_core.specs.Step.{guard, guard_by, refusal_of, after};
ghost use Rattle.permission_table.specs.Tables.{allows};
ghost use Rattle.permission_table.specs.Compiled.{AreCompiled, WillBeCompiled, HasSizes};
ghost use Rattle.permission_core.specs.declared.objects.Operation.TheVariants as operations;
ghost use Rattle.permission_core.specs.declared.objects.Object.TheVariants as objects;
ghost use Rattle.board_rules.specs.Policies.{board_refusal, reply_of, policy_reply, policy_after};
ghost use Rattle.board_rules.specs.declared.reply.Reply.TheVariants.{Refused};
ghost use Rattle.board_state.specs.declared.change.Change.TheVariants.{Nothing};
ghost use Rattle.board_state.specs.Changes.{PolicyWillBe, Tries, IsGivenUp, IsNonePending};
ghost use Rattle.board_state.specs.Work.{WorksJust};

use crate::change::Change;
use crate::state::State;
use board_rules::{Refusal, Reply};
use callback_store::Meter;
use permission_table::{Rows, Tables};
use policy_core::Refusal as PolicyRefusal;
use rbac_core::{
    Command, Object, Operation, Outcome, Policy, Twin, access_stays, affected, guard_by, sizes_stay,
};
use separation_core::Name;
use std::alloc::{AllocError, Global};

impl State {
    /// Why the session may not give the command. A session that has `admin` on the board exists, so it is not looked up.
    #[inline(always)]
    fn command_guard(
        &self,
        session: u32,
        command: &Command,
        meter: &mut Meter,
    ) -> Option<PolicyRefusal>
        requires { ∥ AreCompiled self.now.tables self.now.policy.now ∥₁ }
        ensures refused { result ≡ guard self.now.policy.now session command.now }
        ensures work { WorksJust meter.old meter.new 0 1 }
    {
        let admin = self.may(session, Operation::Admin, Object::Board, meter);
        if admin {
            return None;
        }
        guard_by(self.policy.policy(), session, command, admin)
    }

    /// Judges a policy command by trying it on the spare policy.
    pub(crate) fn judge_command(
        &mut self,
        alloc: Global,
        session: u32,
        command: &Command,
        meter: &mut Meter,
    ) -> Result<(Reply, Change), AllocError>
        requires compiled { ∥ AreCompiled self.old.tables self.old.policy.now ∥₁ }
        requires sizes { HasSizes self.old.policy.now self.old.tables }
        ensures kept { Tries self.old self.new }
        ensures reply { IfOk result (λ r. r.0 ≡ policy_reply self.old.policy.now session command.now) }
        ensures change { IfOk result
            (λ r. PolicyWillBe self.new.policy self.new.tables r.1 (policy_after self.old.policy.now session command.now)) }
        ensures given_up { IsNonePending result (λ r. r.1) self.new.policy }
        ensures work { WorksJust meter.old meter.new 0 1 }
    {
        if let Some(refusal) = self.command_guard(session, command, meter) {
            self.policy.give_up();
            return refused(refusal);
        }
        try_command(alloc, &mut self.policy, &mut self.tables, command)
    }

    /// Judges a policy command by trying it on the spare policy, and keeps what was tried, with no copy of the command. Nothing is tried any
    /// more afterwards, whatever the answer.
    pub(crate) fn carry_out(
        &mut self,
        alloc: Global,
        session: u32,
        command: &Command,
        meter: &mut Meter,
    ) -> Result<Reply, AllocError>
        requires compiled { ∥ AreCompiled self.old.tables self.old.policy.now ∥₁ }
        requires sizes { HasSizes self.old.policy.now self.old.tables }
        ensures others { self.new ≡ record self.old { policy = self.new.policy; tables = self.new.tables } }
        ensures reply { IfOk result (λ reply. reply ≡ policy_reply self.old.policy.now session command.now) }
        ensures made { IfOk result
            (λ _. PolicyWillBe self.new.policy self.new.tables Nothing (policy_after self.old.policy.now session command.now)) }
        ensures err { OnErr result (Tries self.old self.new) }
        ensures given_up { self.new.policy.tried ≡ self.new.policy.now }
        ensures work { WorksJust meter.old meter.new 0 1 }
    {
        if let Some(refusal) = self.command_guard(session, command, meter) {
            self.policy.give_up();
            return refused_by(refusal);
        }
        keep_command(alloc, &mut self.policy, &mut self.tables, command)
    }
}

/// Tries a command that the session may give, and keeps what was tried. Where memory runs out for the rows of the sessions that it
/// concerns, it is given up.
fn keep_command(
    alloc: Global,
    policy: &mut Twin,
    tables: &mut Tables,
    command: &Command,
) -> Result<Reply, AllocError>
    requires compiled { ∥ AreCompiled tables.old policy.old.now ∥₁ }
    requires sizes { HasSizes policy.old.now tables.old }
    ensures reply { (session : ℕ) → guard policy.old.now session command.now ≡ None
        → IfOk result (λ reply. reply ≡ policy_reply policy.old.now session command.now) }
    ensures made { (session : ℕ) → guard policy.old.now session command.now ≡ None
        → IfOk result (λ _. PolicyWillBe policy.new tables.new Nothing (policy_after policy.old.now session command.now)) }
    ensures policy { OnErr result (policy.new.now ≡ policy.old.now) }
    ensures given_up { policy.new.tried ≡ policy.new.now }
    ensures tables { OnErr result (tables.new ≡ record tables.old { room = tables.new.room }) }
{
    match policy.prepare(command) {
        Ok(outcome) => match keep_tried(alloc, policy, tables, command) {
            Ok(()) => Ok(reply_to(outcome)),
            Err(error) => Err(error),
        },
        Err(refusal) => refused_by(refusal),
    }
}

/// Keeps the command that was tried, and lets the compiled permissions follow. A change of a role's permissions or of the hierarchy takes no
/// memory for that: a grant and a revocation concern one row of the sessions that reach the role, a pair the sessions that reach other roles
/// than before.
fn keep_tried(
    alloc: Global,
    policy: &mut Twin,
    tables: &mut Tables,
    command: &Command,
) -> Result<(), AllocError>
    requires compiled { ∥ AreCompiled tables.old policy.old.now ∥₁ }
    requires sizes { HasSizes policy.old.now tables.old }
    requires allowed { refusal_of policy.old.now command.now ≡ None }
    requires tried { policy.old.tried ≡ after policy.old.now command.now }
    ensures made { OnOk result (PolicyWillBe policy.new tables.new Nothing (after policy.old.now command.now)) }
    ensures policy { OnErr result (policy.new.now ≡ policy.old.now) }
    ensures given_up { policy.new.tried ≡ policy.new.now }
    ensures tables { OnErr result (tables.new ≡ record tables.old { room = tables.new.room }) }
{
    sizes_stay();
    match command {
        Command::GrantPermission {
            role,
            operation,
            range,
        } => {
            policy.keep(command);
            tables.grant(policy.policy(), *role, *operation, *range);
            Ok(())
        }
        Command::RevokePermission {
            role,
            operation,
            ..
        } => {
            policy.keep(command);
            tables.revoke(policy.policy(), *role, *operation);
            Ok(())
        }
        Command::AddInheritance { senior, junior } => {
            policy.policy().is_policy();
            policy.keep(command);
            tables.inherit(policy.policy(), *senior, *junior);
            Ok(())
        }
        Command::DeleteInheritance { .. } => {
            policy.keep(command);
            tables.uninherit(policy.policy());
            Ok(())
        }
        Command::DeleteRole { role } => {
            let slot = slot_or_zero(policy.policy(), *role);
            policy.keep(command);
            tables.delete_role(policy.policy(), slot);
            Ok(())
        }
        _ => keep_with_rows(alloc, policy, tables, command),
    }
}

/// The slot of the role, 0 where there is no such role.
fn slot_or_zero(policy: &Policy, role: Name) -> u8
    ensures { result ≡ slot_of policy.now role }
{
    policy.slot_of(role).unwrap_or(0)
}

/// Keeps the command that was tried, with new rows for the sessions whose access it changes. Where memory runs out for them, it is given up.
fn keep_with_rows(
    alloc: Global,
    policy: &mut Twin,
    tables: &mut Tables,
    command: &Command,
) -> Result<(), AllocError>
    requires compiled { ∥ AreCompiled tables.old policy.old.now ∥₁ }
    requires sizes { HasSizes policy.old.now tables.old }
    requires allowed { refusal_of policy.old.now command.now ≡ None }
    requires tried { policy.old.tried ≡ after policy.old.now command.now }
    ensures made { OnOk result (PolicyWillBe policy.new tables.new Nothing (after policy.old.now command.now)) }
    ensures policy { OnErr result (policy.new.now ≡ policy.old.now) }
    ensures given_up { policy.new.tried ≡ policy.new.now }
    ensures tables { OnErr result (tables.new ≡ record tables.old { room = tables.new.room }) }
{
    match new_rows(alloc, policy, tables, command) {
        Ok(rows) => {
            policy.keep(command);
            tables.put(rows);
            Ok(())
        }
        Err(error) => {
            policy.give_up();
            Err(error)
        }
    }
}

/// Tries a command that the session may give. Where memory runs out for the rows of the sessions that it concerns, it is given up.
fn try_command(
    alloc: Global,
    policy: &mut Twin,
    tables: &mut Tables,
    command: &Command,
) -> Result<(Reply, Change), AllocError>
    requires compiled { ∥ AreCompiled tables.old policy.old.now ∥₁ }
    requires sizes { HasSizes policy.old.now tables.old }
    ensures policy { policy.new.now ≡ policy.old.now }
    ensures tables { tables.new ≡ record tables.old { room = tables.new.room } }
    ensures reply { (session : ℕ) → guard policy.old.now session command.now ≡ None
        → IfOk result (λ r. r.0 ≡ policy_reply policy.old.now session command.now) }
    ensures given_up { IsNonePending result (λ r. r.1) policy.new }
    ensures change { (session : ℕ) → guard policy.old.now session command.now ≡ None
        → IfOk result (λ r. PolicyWillBe policy.new tables.new r.1 (policy_after policy.old.now session command.now)) }
{
    match policy.prepare(command) {
        Ok(outcome) => match compile(alloc, policy, tables, command) {
            Ok(change) => Ok((reply_to(outcome), change)),
            Err(error) => {
                policy.give_up();
                Err(error)
            }
        },
        Err(refusal) => refused(refusal),
    }
}

/// The change that the tried command makes.
fn compile(
    alloc: Global,
    policy: &Twin,
    tables: &mut Tables,
    command: &Command,
) -> Result<Change, AllocError>
    requires compiled { ∥ AreCompiled tables.old policy.now.now ∥₁ }
    requires sizes { HasSizes policy.now.now tables.old }
    requires allowed { refusal_of policy.now.now command.now ≡ None }
    requires tried { policy.now.tried ≡ after policy.now.now command.now }
    ensures tables { tables.new ≡ record tables.old { room = tables.new.room } }
    ensures change { IfOk result (λ change. PolicyWillBe policy.now tables.new change (after policy.now.now command.now)) }
    ensures kept { IfOk result (λ change. IsGivenUp change policy.now) }
{
    let rows = new_rows(alloc, policy, tables, command)?;
    let command = command.copy()?;
    Ok(Change::Command(rows, command))
}

/// The rows of the sessions whose access the tried command changes.
#[inline(always)]
fn new_rows(
    alloc: Global,
    policy: &Twin,
    tables: &mut Tables,
    command: &Command,
) -> Result<Rows, AllocError>
    requires compiled { ∥ AreCompiled tables.old policy.now.now ∥₁ }
    requires sizes { HasSizes policy.now.now tables.old }
    requires tried { policy.now.tried ≡ after policy.now.now command.now }
    ensures tables { tables.new ≡ record tables.old { room = tables.new.room } }
    ensures of { IfOk result (λ rows. rows.of ≡ tables.new) }
    ensures compiled { IfOk result (λ rows. ∥ WillBeCompiled rows (after policy.now.now command.now) ∥₁) }
    ensures sizes { IfOk result (λ _. HasSizes (after policy.now.now command.now) tables.new) }
{
    sizes_stay();
    let old = policy.policy();
    let new = policy.tried();
    access_stays(old, command, new);
    let sessions = affected(alloc, old, command, new)?;
    tables.rebuild(new, &sessions)
}

/// The answer to a refusal of the policy, with no change, unless that is running out of memory.
fn refused(refusal: PolicyRefusal) -> Result<(Reply, Change), AllocError>
    ensures due { IfOk result (λ _. (o : Option PolicyRefusal) → Says refusal o → o ≡ Some refusal) }
    ensures reply { IfOk result (λ r. r.0 ≡ Refused (board_refusal refusal)) }
    ensures change { IfOk result (λ r. r.1 ≡ Nothing) }
{
    let reply = refused_by(refusal)?;
    Ok((reply, Change::Nothing))
}

/// The answer to a refusal of the policy, unless that is running out of memory.
#[tactic(auto, using(crate::proofs::Commanding::says_other))]
fn refused_by(refusal: PolicyRefusal) -> Result<Reply, AllocError>
    ensures due { IfOk result (λ _. (o : Option PolicyRefusal) → Says refusal o → o ≡ Some refusal) }
    ensures reply { IfOk result (λ reply. reply ≡ Refused (board_refusal refusal)) }
{
    match Refusal::of_policy(refusal) {
        Ok(due) => Ok(Reply::Refused(due)),
        Err(error) => Err(error),
    }
}

/// The reply to a command that was carried out.
fn reply_to(outcome: Outcome) -> Reply
    ensures { result ≡ reply_of (Ok outcome) }
{
    match outcome {
        Outcome::Done => Reply::Done,
        Outcome::Session(number) => Reply::Session(number),
    }
}
