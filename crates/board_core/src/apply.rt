//! Events, judged and journaled at once.
ghost use Rattle.std.specs.Prelude.{◌≡◌, ◌≢◌, ℕ, ◌↔◌, ◌∷◌, ◌++◌, [], true, false, length, IfOk, IfErr, OnOk, OnErr, IsErrOf};
ghost use Rattle.dimension_core.specs.Setup.{setting};
ghost use Rattle.board_rules.specs.declared.call.Call.TheVariants.{Policy};
ghost use Rattle.board_rules.specs.declared.reply.Fault.{Fault};
ghost use Rattle.rbac_core.specs.declared.command.Command.{Command};
ghost use Rattle.board_rules.specs.History.{is_turn, state_after};
ghost use Rattle.board_state.specs.Work.{WorksAtMost, WorksJust, IsWorkOf, call_asks, call_probes};
ghost use Rattle.board_rules.specs.Step.{reply_by};
ghost use Rattle.board_journal.specs.Entries.{proposed, call_of, held, commanded};
ghost use Rattle.board_rules.specs.Holds.{call_of as hold_call, reply_to};
ghost use Rattle.board_core.specs.Kept.{IsKept, entry_of};
ghost use Rattle.board_core.specs.Taking.{IsTaken};

use crate::body::{Core, copy_of};
use board_journal::Proposal;
use board_rules::{Call, Denial, Event, Fault, Hold, Reply, Ruling, histories_grow_by_entries};
use callback_store::Meter;
use dimension_core::Setup;
use rbac_core::Command;
use std::alloc::AllocError;

impl Core {
    /// Judges an event, and journals it with its reply, as `prepare` and then `settle` do. No judged event is built in between, so none has
    /// to be moved. The setup is the one with which the core was opened. Faults, in order: `OutOfTurn`, `Full`, `NoMemory`.
    /// After a policy command that is answered nothing is tried on the spare policy, nor after any other call where nothing was before.
    #[inline(always)]
    pub fn apply(&mut self, setup: &Setup, event: Event, meter: &mut Meter) -> Result<Reply, Fault>
        requires { IsKept (setting setup.now) self.old }
        ensures kept { IsKept (setting setup.now) self.new }
        ensures ok { IfOk result (λ reply. self.new.journal ≡ self.old.journal ++ entry_of event reply ∷ []) }
        ensures desks { length self.new.turns ≡ length self.old.turns }
        ensures err { OnErr result (self.new.journal ≡ self.old.journal) }
        ensures given_up { (session : ℕ) (command : Command) → event.call ≡ Policy session command
            → OnOk result (self.new.held.policy.tried ≡ self.new.held.policy.now) }
        ensures untried { self.old.held.policy.tried ≡ self.old.held.policy.now → self.new.held.policy.tried ≡ self.new.held.policy.now }
        ensures out_of_turn { IsErrOf result Fault.OutOfTurn
            ↔ (is_turn (length self.old.turns) self.old.journal event.desk event.turn ≡ false) }
        ensures full { IsErrOf result Fault.Full ↔ ((is_turn (length self.old.turns) self.old.journal event.desk event.turn ≡ true)
            × (length self.old.journal ≡ (setting setup.now).max_events)) }
        ensures untaken { IfErr result (λ fault. fault ≢ Fault.NoMemory → meter.new ≡ meter.old) }
        ensures work { IfOk result (λ reply. IsWorkOf (setting setup.now) (state_after (setting setup.now) self.old.journal).pins
            (state_after (setting setup.now) self.old.journal).routes event.call reply meter.old meter.new) }
        ensures most { WorksAtMost meter.old meter.new
            (call_asks (setting setup.now) (state_after (setting setup.now) self.old.journal).routes event.call)
            (call_probes (state_after (setting setup.now) self.old.journal).pins
            (state_after (setting setup.now) self.old.journal).routes event.call) }
    {
        let Event { desk, turn, call } = event;
        match call {
            Call::Propose { session, base, mv } => {
                let proposal = Proposal {
                    desk,
                    turn,
                    session,
                    base,
                    mv,
                };
                match self.propose(setup, &proposal, meter) {
                    Ok(Ok(version)) => Ok(Reply::Committed(version)),
                    Ok(Err(denial)) => Ok(Reply::Denied(denial)),
                    Err(fault) => Err(fault),
                }
            }
            Call::Pin { session, customer } => {
                let hold = Hold::Pin { session, customer };
                self.answer_hold(setup, desk, turn, hold, meter)
            }
            Call::Unpin { session, customer } => {
                let hold = Hold::Unpin { session, customer };
                self.answer_hold(setup, desk, turn, hold, meter)
            }
            Call::Freeze {
                session,
                vehicle,
                length,
            } => {
                let hold = Hold::Freeze {
                    session,
                    vehicle,
                    length,
                };
                self.answer_hold(setup, desk, turn, hold, meter)
            }
            Call::Thaw {
                session,
                vehicle,
                length,
            } => {
                let hold = Hold::Thaw {
                    session,
                    vehicle,
                    length,
                };
                self.answer_hold(setup, desk, turn, hold, meter)
            }
            Call::Policy { session, command } => {
                self.answer_command(setup, desk, turn, session, command, meter)
            }
        }
    }

    /// The same for a proposal: the version that it commits, or why it is denied. It has no reply to move, which has room for a name.
    #[inline(never)]
    pub fn propose(
        &mut self,
        setup: &Setup,
        proposal: &Proposal,
        meter: &mut Meter,
    ) -> Result<Result<u32, Denial>, Fault>
        requires { IsKept (setting setup.now) self.old }
        ensures kept { IsKept (setting setup.now) self.new }
        ensures ok { IfOk result (λ verdict. self.new.journal ≡ self.old.journal ++ proposed proposal.now verdict ∷ []) }
        ensures desks { length self.new.turns ≡ length self.old.turns }
        ensures err { OnErr result (self.new.journal ≡ self.old.journal) }
        ensures untried { self.old.held.policy.tried ≡ self.old.held.policy.now → self.new.held.policy.tried ≡ self.new.held.policy.now }
        ensures out_of_turn { IsErrOf result Fault.OutOfTurn
            ↔ (is_turn (length self.old.turns) self.old.journal proposal.now.desk proposal.now.turn ≡ false) }
        ensures full { IsErrOf result Fault.Full
            ↔ ((is_turn (length self.old.turns) self.old.journal proposal.now.desk proposal.now.turn ≡ true)
            × (length self.old.journal ≡ (setting setup.now).max_events)) }
        ensures untaken { IfErr result (λ fault. fault ≢ Fault.NoMemory → meter.new ≡ meter.old) }
        ensures work { IfOk result (λ verdict. IsWorkOf (setting setup.now) (state_after (setting setup.now) self.old.journal).pins
            (state_after (setting setup.now) self.old.journal).routes (call_of proposal.now) (reply_by verdict) meter.old meter.new) }
        ensures most { WorksAtMost meter.old meter.new
            (call_asks (setting setup.now) (state_after (setting setup.now) self.old.journal).routes (call_of proposal.now))
            (call_probes (state_after (setting setup.now) self.old.journal).pins (state_after (setting setup.now) self.old.journal).routes
            (call_of proposal.now)) }
    {
        if let Some(fault) = self.due_fault(setup, proposal.desk, proposal.turn) {
            return Err(fault);
        }
        match self.take_proposal(setup, proposal, meter) {
            Ok(verdict) => Ok(verdict),
            Err(_) => Err(Fault::NoMemory),
        }
    }

    /// The same for a proposal that has its turn, where the journal is not full.
    #[inline(always)]
    fn take_proposal(
        &mut self,
        setup: &Setup,
        proposal: &Proposal,
        meter: &mut Meter,
    ) -> Result<Result<u32, Denial>, AllocError>
        requires kept { IsKept (setting setup.now) self.old }
        requires taken { IsTaken (setting setup.now) self.old proposal.now.desk proposal.now.turn }
        ensures kept { IsKept (setting setup.now) self.new }
        ensures ok { IfOk result (λ verdict. self.new.journal ≡ self.old.journal ++ proposed proposal.now verdict ∷ []) }
        ensures desks { length self.new.turns ≡ length self.old.turns }
        ensures err { OnErr result (self.new.journal ≡ self.old.journal) }
        ensures untried { self.old.held.policy.tried ≡ self.old.held.policy.now → self.new.held.policy.tried ≡ self.new.held.policy.now }
        ensures work { IfOk result (λ verdict. IsWorkOf (setting setup.now) (state_after (setting setup.now) self.old.journal).pins
            (state_after (setting setup.now) self.old.journal).routes (call_of proposal.now) (reply_by verdict) meter.old meter.new) }
        ensures most { WorksAtMost meter.old meter.new
            (call_asks (setting setup.now) (state_after (setting setup.now) self.old.journal).routes (call_of proposal.now))
            (call_probes (state_after (setting setup.now) self.old.journal).pins (state_after (setting setup.now) self.old.journal).routes
            (call_of proposal.now)) }
    {
        self.is_ready(setup);
        histories_grow_by_entries();
        let alloc = *self.journal.allocator();
        self.journal.make_room()?;
        let Proposal {
            desk,
            turn,
            session,
            base,
            ..
        } = *proposal;
        let verdict = self
            .state
            .propose(alloc, setup, session, base, &proposal.mv, meter)?;
        self.turns[desk as usize - 1] = turn;
        self.journal.push_proposal(*proposal, verdict);
        Ok(verdict)
    }

    /// The same for a call on a pin or a front. It stands by itself, so that no other call makes room for what it needs.
    #[inline(never)]
    fn answer_hold(
        &mut self,
        setup: &Setup,
        desk: u32,
        turn: u32,
        hold: Hold,
        meter: &mut Meter,
    ) -> Result<Reply, Fault>
        requires { IsKept (setting setup.now) self.old }
        ensures kept { IsKept (setting setup.now) self.new }
        ensures ok { IfOk result (λ reply. self.new.journal
            ≡ self.old.journal ++ record { desk = desk; turn = turn; call = hold_call hold; reply = reply } ∷ []) }
        ensures desks { length self.new.turns ≡ length self.old.turns }
        ensures err { OnErr result (self.new.journal ≡ self.old.journal) }
        ensures untried { self.old.held.policy.tried ≡ self.old.held.policy.now → self.new.held.policy.tried ≡ self.new.held.policy.now }
        ensures out_of_turn { IsErrOf result Fault.OutOfTurn ↔ (is_turn (length self.old.turns) self.old.journal desk turn ≡ false) }
        ensures full { IsErrOf result Fault.Full ↔ ((is_turn (length self.old.turns) self.old.journal desk turn ≡ true)
            × (length self.old.journal ≡ (setting setup.now).max_events)) }
        ensures untaken { IfErr result (λ fault. fault ≢ Fault.NoMemory → meter.new ≡ meter.old) }
        ensures work { IfOk result (λ reply. IsWorkOf (setting setup.now) (state_after (setting setup.now) self.old.journal).pins
            (state_after (setting setup.now) self.old.journal).routes (hold_call hold) reply meter.old meter.new) }
        ensures most { WorksAtMost meter.old meter.new
            (call_asks (setting setup.now) (state_after (setting setup.now) self.old.journal).routes (hold_call hold))
            (call_probes (state_after (setting setup.now) self.old.journal).pins (state_after (setting setup.now) self.old.journal).routes
            (hold_call hold)) }
    {
        if let Some(fault) = self.due_fault(setup, desk, turn) {
            return Err(fault);
        }
        match self.hold(setup, desk, turn, hold, meter) {
            Ok(ruling) => Ok(ruling.reply()),
            Err(_) => Err(Fault::NoMemory),
        }
    }

    /// The ruling on such a call that has its turn, where the journal is not full.
    #[inline(always)]
    fn hold(
        &mut self,
        setup: &Setup,
        desk: u32,
        turn: u32,
        hold: Hold,
        meter: &mut Meter,
    ) -> Result<Ruling, AllocError>
        requires kept { IsKept (setting setup.now) self.old }
        requires taken { IsTaken (setting setup.now) self.old desk turn }
        ensures kept { IsKept (setting setup.now) self.new }
        ensures ok { IfOk result (λ ruling. self.new.journal ≡ self.old.journal ++ held desk turn hold ruling ∷ []) }
        ensures desks { length self.new.turns ≡ length self.old.turns }
        ensures err { OnErr result (self.new.journal ≡ self.old.journal) }
        ensures untried { self.old.held.policy.tried ≡ self.old.held.policy.now → self.new.held.policy.tried ≡ self.new.held.policy.now }
        ensures work { IfOk result (λ ruling. IsWorkOf (setting setup.now) (state_after (setting setup.now) self.old.journal).pins
            (state_after (setting setup.now) self.old.journal).routes (hold_call hold) (reply_to ruling) meter.old meter.new) }
        ensures most { WorksAtMost meter.old meter.new
            (call_asks (setting setup.now) (state_after (setting setup.now) self.old.journal).routes (hold_call hold))
            (call_probes (state_after (setting setup.now) self.old.journal).pins (state_after (setting setup.now) self.old.journal).routes
            (hold_call hold)) }
    {
        self.is_ready(setup);
        histories_grow_by_entries();
        self.journal.make_room()?;
        let ruling = self.state.hold(setup, hold, meter);
        self.turns[desk as usize - 1] = turn;
        self.journal.push_hold(desk, turn, hold, ruling);
        Ok(ruling)
    }

    /// The same for a policy command. It stands by itself, so that no other call makes room for what it needs.
    #[inline(never)]
    fn answer_command(
        &mut self,
        setup: &Setup,
        desk: u32,
        turn: u32,
        session: u32,
        command: Command,
        meter: &mut Meter,
    ) -> Result<Reply, Fault>
        requires { IsKept (setting setup.now) self.old }
        ensures kept { IsKept (setting setup.now) self.new }
        ensures ok { IfOk result (λ reply. self.new.journal ≡ self.old.journal ++ commanded desk turn session command reply ∷ []) }
        ensures desks { length self.new.turns ≡ length self.old.turns }
        ensures err { OnErr result (self.new.journal ≡ self.old.journal) }
        ensures given_up { OnOk result (self.new.held.policy.tried ≡ self.new.held.policy.now) }
        ensures untried { self.old.held.policy.tried ≡ self.old.held.policy.now → self.new.held.policy.tried ≡ self.new.held.policy.now }
        ensures out_of_turn { IsErrOf result Fault.OutOfTurn ↔ (is_turn (length self.old.turns) self.old.journal desk turn ≡ false) }
        ensures full { IsErrOf result Fault.Full ↔ ((is_turn (length self.old.turns) self.old.journal desk turn ≡ true)
            × (length self.old.journal ≡ (setting setup.now).max_events)) }
        ensures untaken { IfErr result (λ fault. fault ≢ Fault.NoMemory → meter.new ≡ meter.old) }
        ensures work { OnOk result (WorksJust meter.old meter.new 0 1) }
        ensures most { WorksAtMost meter.old meter.new 0 1 }
    {
        if let Some(fault) = self.due_fault(setup, desk, turn) {
            return Err(fault);
        }
        match self.command(setup, desk, turn, session, command, meter) {
            Ok(reply) => Ok(reply),
            Err(_) => Err(Fault::NoMemory),
        }
    }

    /// The reply to such a command that has its turn, where the journal is not full.
    #[inline(always)]
    fn command(
        &mut self,
        setup: &Setup,
        desk: u32,
        turn: u32,
        session: u32,
        command: Command,
        meter: &mut Meter,
    ) -> Result<Reply, AllocError>
        requires kept { IsKept (setting setup.now) self.old }
        requires taken { IsTaken (setting setup.now) self.old desk turn }
        ensures kept { IsKept (setting setup.now) self.new }
        ensures ok { IfOk result (λ reply. self.new.journal ≡ self.old.journal ++ commanded desk turn session command reply ∷ []) }
        ensures desks { length self.new.turns ≡ length self.old.turns }
        ensures err { OnErr result (self.new.journal ≡ self.old.journal) }
        ensures given_up { OnOk result (self.new.held.policy.tried ≡ self.new.held.policy.now) }
        ensures untried { self.old.held.policy.tried ≡ self.old.held.policy.now → self.new.held.policy.tried ≡ self.new.held.policy.now }
        ensures work { OnOk result (WorksJust meter.old meter.new 0 1) }
        ensures most { WorksAtMost meter.old meter.new 0 1 }
    {
        self.is_ready(setup);
        histories_grow_by_entries();
        let alloc = *self.journal.allocator();
        self.journal.make_room()?;
        let reply = self.state.command(alloc, session, &command, meter)?;
        self.turns[desk as usize - 1] = turn;
        let answer = copy_of(&reply);
        self.journal
            .push_command(desk, turn, session, command, reply);
        Ok(answer)
    }
}
