//! Calls, judged and put in place at once.
ghost use Rattle.std.specs.Prelude.{◌≡◌, ◌+◌, length, IfOk, IfErr, OnOk, OnErr};
ghost use Rattle.dimension_core.specs.Setting.{Setting};
ghost use Rattle.dimension_core.specs.Setup.{setting};
ghost use Rattle.permission_table.specs.Compiled.{AreCompiled, HasSizes};
ghost use Rattle.permission_table.specs.Tables.{rows_at, rows_of};
ghost use Rattle.move_core.specs.Moves.{named_by};
ghost use Rattle.move_core.specs.Touched.{touched_by};
ghost use Rattle.board_rules.specs.Rules.{PassesEffect, PassesAll};
ghost use Rattle.board_rules.specs.State.{BoardState};
ghost use Rattle.board_rules.specs.Holds.{call_of, reply_to};
ghost use Rattle.board_rules.specs.Step.{reply_by};
ghost use Rattle.board_rules.specs.declared.call.Call.TheVariants.{Propose, Policy};
ghost use Rattle.board_rules.specs.declared.reply.Reply.TheVariants.{Committed};
ghost use Rattle.board_state.specs.declared.change.Change.TheVariants.{Pins};
ghost use Rattle.board_state.specs.Held.{Holds, IsReady, held_basis};
ghost use Rattle.board_state.specs.Changes.{Tries, WillHoldPins, IsSettleable};
ghost use Rattle.board_state.specs.Replies.{hold_reply, IsRightReply, HoldsAfter, RepliesRightly, HoldsNext};
ghost use Rattle.board_state.specs.Verdicts.{IsStop, IsWorkOfMove};
ghost use Rattle.board_state.specs.Work.{WorksJust, IsWorkOn, IsWithinCost};

use crate::change::{Change, PinChange};
use crate::proposal::Proposal;
use crate::state::State;
use crate::stop::Stop;
use board_rules::{Denial, Hold, HoldRefusal, Reply, Ruling, verdicts_by_agreeing_facts};
use callback_store::Meter;
use dimension_core::Setup;
use move_core::{Move, moves_name_vehicles};
use plan_core::stamps_by_one_more;
use rbac_core::Command;
use std::alloc::{AllocError, Global};

impl State {
    /// Judges a proposal and puts it in place, as `prepare` and then `settle` do: the version that it commits, or why it is denied. The new
    /// routes go from the judgement to the plan directly, and not by way of a `Change`, and the verdict is no `Reply`, which could hold a
    /// name. Where memory runs out, contracts see no change.
    #[inline(always)]
    pub fn propose(
        &mut self,
        alloc: Global,
        setup: &Setup,
        session: u32,
        base: u32,
        mv: &Move,
        meter: &mut Meter,
    ) -> Result<Result<u32, Denial>, AllocError>
        requires { IsReady (setting setup.now) self.old }
        ensures reply { RepliesRightly (setting setup.now) self.old (Propose session base mv.now) result reply_by }
        ensures holds { HoldsNext (setting setup.now) self.old self.new (Propose session base mv.now) result reply_by }
        ensures err { OnErr result (self.new ≡ self.old) }
        ensures untried { self.old.policy.tried ≡ self.old.policy.now → self.new.policy.tried ≡ self.new.policy.now }
        ensures work { IfOk result
            (λ verdict. IsWorkOn (setting setup.now) self.old (Propose session base mv.now) (reply_by verdict) meter.old meter.new) }
        ensures most { IsWithinCost (setting setup.now) self.old (Propose session base mv.now) meter.old meter.new }
    {
        self.agrees();
        verdicts_by_agreeing_facts();
        let place = self.tables.place_of(session);
        let proposal = Proposal {
            session,
            place,
            base,
            mv,
        };
        if let Some(denial) = self.early_denial(setup, &proposal, meter) {
            return Ok(Err(denial));
        }
        match self.take_move(alloc, setup, &proposal, meter) {
            Ok(version) => Ok(Ok(version)),
            Err(Stop::Denied(denial)) => Ok(Err(denial)),
            Err(Stop::NoMemory) => Err(AllocError),
        }
    }

    /// Judges a move that has an effect, which the rules up to that let pass, and puts it in place: the version that it commits, or what
    /// stops it. Out of line, so that a proposal that an earlier rule denies pays nothing for the stack space of new routes.
    #[inline(never)]
    fn take_move(
        &mut self,
        alloc: Global,
        setup: &Setup,
        proposal: &Proposal,
        meter: &mut Meter,
    ) -> Result<u32, Stop>
        requires ready { IsReady (setting setup.now) self.old }
        requires place { rows_at self.old.tables proposal.now.place ≡ rows_of self.old.tables proposal.now.session }
        requires passes { PassesEffect (setting setup.now) (held_basis self.old proposal.now.session)
            proposal.now.base proposal.now.mv.now }
        ensures version { IfOk result (λ version. version ≡ self.old.plan.version + 1) }
        ensures passes { OnOk result
            (PassesAll (setting setup.now) (held_basis self.old proposal.now.session) proposal.now.base proposal.now.mv.now) }
        ensures stop { IfErr result
            (IsStop (setting setup.now) (held_basis self.old proposal.now.session) proposal.now.base proposal.now.mv.now) }
        ensures holds { HoldsNext (setting setup.now) self.old self.new
            (Propose proposal.now.session proposal.now.base proposal.now.mv.now) result (λ version. Committed version) }
        ensures err { OnErr result (self.new ≡ self.old) }
        ensures untried { self.old.policy.tried ≡ self.old.policy.now → self.new.policy.tried ≡ self.new.policy.now }
        ensures work { IsWorkOfMove (setting setup.now) self.old proposal.now.mv.now
            0 (length (touched_by self.old.plan.routes proposal.now.mv.now)) result meter.old meter.new }
    {
        moves_name_vehicles();
        stamps_by_one_more();
        let version = self.plan.version();
        match self.judge_move(alloc, setup, proposal, meter) {
            Ok(new) => {
                self.replace(new);
                Ok(version + 1)
            }
            Err(stop) => Err(stop),
        }
    }

    /// Judges a call on a pin or a frozen front and puts it in place, as `prepare` and then `settle` do. No judged call is built in between,
    /// and no `Reply`, which could hold a name. It takes no memory. What it requires of the setup and of what is held is `IsReady`, as for
    /// `prepare`.
    pub fn hold(&mut self, setup: &Setup, hold: Hold, meter: &mut Meter) -> Ruling
        requires { IsReady (setting setup.now) self.old }
        ensures reply { IsRightReply (setting setup.now) self.old (call_of hold) (reply_to result) }
        ensures holds { HoldsAfter (setting setup.now) self.old self.new (call_of hold) (reply_to result) }
        ensures untried { self.old.policy.tried ≡ self.old.policy.now → self.new.policy.tried ≡ self.new.policy.now }
        ensures work { IsWorkOn (setting setup.now) self.old (call_of hold) (reply_to result) meter.old meter.new }
        ensures most { IsWithinCost (setting setup.now) self.old (call_of hold) meter.old meter.new }
    {
        let judged = self.judge_hold(setup, hold, meter);
        self.finish(judged)
    }

    /// Puts a judged call on pins in place, and gives its ruling. It is inlined, so that a call on pins makes no room for the changes of
    /// other calls.
    #[inline(always)]
    fn finish(&mut self, judged: Result<PinChange, HoldRefusal>) -> Ruling
        requires { IfOk judged (λ change. IsSettleable self.old (Pins change)) }
        ensures reply { reply_to result ≡ hold_reply judged }
        ensures holds { (s : Setting) (next : BoardState) → WillHoldPins s self.old judged next → Holds s self.new next }
        ensures untried { self.old.policy.tried ≡ self.old.policy.now → self.new.policy.tried ≡ self.new.policy.now }
    {
        match judged {
            Ok(change) => {
                self.enact(Change::Pins(change));
                Ruling::Done
            }
            Err(refusal) => Ruling::Refused(refusal),
        }
    }

    /// The same for a policy command, as `prepare` and then `settle` do, but with no copy of the command. Nothing is tried on the spare
    /// policy afterwards. Where memory runs out, contracts see no other change, except in how many rows there is room for.
    #[inline(always)]
    pub fn command(
        &mut self,
        alloc: Global,
        session: u32,
        command: &Command,
        meter: &mut Meter,
    ) -> Result<Reply, AllocError>
        requires compiled { ∥ AreCompiled self.old.tables self.old.policy.now ∥₁ }
        requires sizes { HasSizes self.old.policy.now self.old.tables }
        ensures reply { (s : Setting) → RepliesRightly s self.old (Policy session command.now) result (λ reply. reply) }
        ensures holds { (s : Setting) → HoldsNext s self.old self.new (Policy session command.now) result (λ reply. reply) }
        ensures err { OnErr result (Tries self.old self.new) }
        ensures given_up { self.new.policy.tried ≡ self.new.policy.now }
        ensures work { WorksJust meter.old meter.new 0 1 }
    {
        self.carry_out(alloc, session, command, meter)
    }
}
