//! Calls: judged, with what they change.
ghost use Rattle.std.specs.Prelude.{◌≡◌, ◌+◌, ◌≤◌, ℕ, length, Some, IfOk, OnOk, MatchResult};
ghost use Rattle.dimension_core.specs.Setup.{setting};
ghost use Rattle.move_core.specs.declared.moves.Move.{Move};
ghost use Rattle.board_rules.specs.State.{BoardState};
ghost use Rattle.dimension_core.specs.Setting.{Setting};
ghost use Rattle.board_rules.specs.Rules.{Agree, basis_of};
ghost use Rattle.board_rules.specs.declared.call.Call.TheVariants.{Propose, Policy};
ghost use Rattle.rbac_core.specs.declared.command.Command.{Command};
ghost use Rattle.board_state.specs.Held.{Holds, IsReady, held_basis};
ghost use Rattle.board_state.specs.Changes.{Tries, IsSettleable, IsNonePending};
ghost use Rattle.board_state.specs.Replies.{hold_reply, RepliesRightly, WillHoldNext};
ghost use Rattle.board_state.specs.Work.{IsWorkOn, IsWithinCost};

use crate::change::{Change, Commit, Judged, PinChange};
use crate::proposal::Proposal;
use crate::state::State;
use crate::stop::Stop;
use board_rules::{Call, Hold, HoldRefusal, Reply, changes_by_stamps, verdicts_by_agreeing_facts};
use callback_store::Meter;
use dimension_core::Setup;
use move_core::{Move, moves_name_vehicles};
use plan_core::stamps_by_one_more;
use std::alloc::{AllocError, Global};
use std::snapshot::Snapshot;

impl State {
    /// Judges a call, and makes every growth that it needs. Contracts see no change, except in what is tried on the spare policy and in how
    /// many rows there is room for; those may change also where memory runs out. After a policy command that is refused, or given up where
    /// memory runs out, nothing is tried; where nothing was tried before, any other call leaves it so. What it requires of the setup and of
    /// what is held is `IsReady`.
    pub fn prepare(
        &mut self,
        alloc: Global,
        setup: &Setup,
        call: &Call,
        meter: &mut Meter,
    ) -> Result<Judged, AllocError>
        requires { IsReady (setting setup.now) self.old }
        ensures kept { Tries self.old self.new }
        ensures of { IfOk result (λ judged. judged.of ≡ self.new) }
        ensures reply { RepliesRightly (setting setup.now) self.old call.now result (λ judged. judged.reply) }
        ensures change { WillHoldNext (setting setup.now) self.old self.new call.now result (λ judged. (judged.reply, judged.change)) }
        ensures given_up { (session : ℕ) (command : Command) → call.now ≡ Policy session command
            → IsNonePending result (λ judged. judged.change) self.new.policy }
        ensures untried { self.old.policy.tried ≡ self.old.policy.now → IsNonePending result (λ judged. judged.change) self.new.policy }
        ensures work { IfOk result (λ judged. IsWorkOn (setting setup.now) self.old call.now judged.reply meter.old meter.new) }
        ensures most { IsWithinCost (setting setup.now) self.old call.now meter.old meter.new }
    {
        let (reply, change) = self.judge(alloc, setup, call, meter)?;
        Ok(Judged {
            of: Snapshot::of(self),
            alloc,
            version: self.plan.version(),
            reply,
            change,
        })
    }

    /// A law: what is held answers the rules as the state for which it stands does.
    pub(crate) fn agrees(&self)
        ensures { (s : Setting) (state : BoardState) → Holds s self.now state → length self.now.plan.routes ≡ s.vehicles
            → (session : ℕ) → Agree s (held_basis self.now session) (basis_of state session) }
    {
        changes_by_stamps();
        let _sizes = self.plan.version();
    }

    /// The reply to a call, and what it changes.
    pub(crate) fn judge(
        &mut self,
        alloc: Global,
        setup: &Setup,
        call: &Call,
        meter: &mut Meter,
    ) -> Result<(Reply, Change), AllocError>
        requires { IsReady (setting setup.now) self.old }
        ensures kept { Tries self.old self.new }
        ensures ready { IfOk result (λ r. IsSettleable self.new r.1) }
        ensures reply { RepliesRightly (setting setup.now) self.old call.now result (λ r. r.0) }
        ensures change { WillHoldNext (setting setup.now) self.old self.new call.now result (λ r. r) }
        ensures given_up { (session : ℕ) (command : Command) → call.now ≡ Policy session command
            → IsNonePending result (λ r. r.1) self.new.policy }
        ensures untried { self.old.policy.tried ≡ self.old.policy.now → IsNonePending result (λ r. r.1) self.new.policy }
        ensures work { IfOk result (λ r. IsWorkOn (setting setup.now) self.old call.now r.0 meter.old meter.new) }
        ensures most { IsWithinCost (setting setup.now) self.old call.now meter.old meter.new }
    {
        if let Some(hold) = Hold::of(call) {
            return Ok(answered(self.judge_hold(setup, hold, meter)));
        }
        match call {
            Call::Propose { session, base, mv } => {
                self.answer_proposal(alloc, setup, *session, *base, mv, meter)
            }
            Call::Policy { session, command } => {
                self.judge_command(alloc, *session, command, meter)
            }
            Call::Pin { .. } | Call::Unpin { .. } | Call::Freeze { .. } | Call::Thaw { .. } => {
                unreachable!()
            }
        }
    }

    /// The reply to a proposal, and what it changes.
    fn answer_proposal(
        &mut self,
        alloc: Global,
        setup: &Setup,
        session: u32,
        base: u32,
        mv: &Move,
        meter: &mut Meter,
    ) -> Result<(Reply, Change), AllocError>
        requires { IsReady (setting setup.now) self.old }
        ensures same { self.new ≡ self.old }
        ensures ready { IfOk result (λ r. IsSettleable self.old r.1) }
        ensures reply { RepliesRightly (setting setup.now) self.old (Propose session base mv.now) result (λ r. r.0) }
        ensures change { WillHoldNext (setting setup.now) self.old self.old (Propose session base mv.now) result (λ r. r) }
        ensures work { IfOk result (λ r. IsWorkOn (setting setup.now) self.old (Propose session base mv.now) r.0 meter.old meter.new) }
        ensures most { IsWithinCost (setting setup.now) self.old (Propose session base mv.now) meter.old meter.new }
    {
        self.agrees();
        verdicts_by_agreeing_facts();
        moves_name_vehicles();
        stamps_by_one_more();
        let version = self.plan.version();
        let place = self.tables.place_of(session);
        let proposal = Proposal {
            session,
            place,
            base,
            mv,
        };
        if let Some(denial) = self.early_denial(setup, &proposal, meter) {
            return Ok((Reply::Denied(denial), Change::Nothing));
        }
        match self.judge_move(alloc, setup, &proposal, meter) {
            Ok(new) => {
                let (former, other) = self.former_routes(mv)?;
                let commit = Commit {
                    mv: *mv,
                    new,
                    former,
                    other,
                };
                Ok((Reply::Committed(version + 1), Change::Replace(commit)))
            }
            Err(Stop::Denied(denial)) => Ok((Reply::Denied(denial), Change::Nothing)),
            Err(Stop::NoMemory) => Err(AllocError),
        }
    }
}

/// The reply to a judged call on pins, and what it changes.
fn answered(judged: Result<PinChange, HoldRefusal>) -> (Reply, Change)
    ensures reply { result.0 ≡ hold_reply judged }
    ensures change { MatchResult judged (λ change. result.1 ≡ Change.Pins change) (λ refusal. result.1 ≡ Change.Nothing) }
{
    match judged {
        Ok(change) => (Reply::Done, Change::Pins(change)),
        Err(refusal) => (Reply::Refused(refusal.refusal()), Change::Nothing),
    }
}
