//! The data of a board: what is held of its state, its journal and the turns of its desks.
ghost use Rattle.std.specs.Prelude.{◌≡◌, ◌≢◌, ℕ, ◌≤◌, ◌<◌, ◌↔◌, ◌∷◌, ◌++◌, [], true, false, length, IfOk, IfErr, OnOk, IsErrOf, MatchOption, MatchResult};
ghost use Rattle.dimension_core.specs.Setup.{setting};
ghost use Rattle.dimension_core.specs.Setting.{Setting};
ghost use Rattle.board_rules.specs.declared.call.Call.TheVariants.{Policy};
ghost use Rattle.board_rules.specs.declared.reply.Fault.{Fault};
ghost use Rattle.rbac_core.specs.declared.command.Command.{Command};
ghost use Rattle.board_rules.specs.History.{is_turn, state_after};
ghost use Rattle.board_state.specs.Held.{IsReady};
ghost use Rattle.board_state.specs.Changes.{IsGivenUp, GivesUp};
ghost use Rattle.board_state.specs.Work.{WorksAtMost, IsWorkOf, call_asks, call_probes};
ghost use Rattle.board_core.specs.Kept.{IsKept, history_of, entry_of};
ghost use Rattle.board_core.specs.Prepared.{Makes};
ghost use Rattle.board_core.specs.Taking.{IsTaken, IsDue};

use crate::prepared::Prepared;
use board_journal::Journal;
use board_rules::{
    Event, Fault, Reply, histories_grow_by_entries, legal_histories_leave_good_states,
};
use board_state::State;
use callback_store::Meter;
use dimension_core::Setup;
use limits::MOST_DESKS;
use std::alloc::{AllocError, Global};
use std::marker::Model;
use std::snapshot::Snapshot;

/// All of a board except its setup, which is lent to each call.
pub struct Core {
    pub(crate) state: State,
    pub(crate) journal: Journal,
    pub(crate) turns: Vec<u32>,
}

// Written by hand: a derived drop is expanded, down to each list, at every place where a value is dropped.
impl Drop for Core {
    fn drop(self) {
        let Core {
            state: _,
            journal: _,
            turns: _,
        } = self;
    }
}

impl Model for Core {
    ghost use Rattle.board_core.specs.Kept.{CoreState};

    ghost Value = { CoreState };

    ghost view = { λ a. record {
      held = a.state;
      journal = a.journal.entries;
      turns = a.turns.items;
      room = a.journal.room;
      spare = a.journal.spare;
    } };
}

impl Core {
    /// The core of a board with this many desks, which are 1 to 64, before its first call.
    pub fn new(alloc: Global, setup: &Setup, desks: u32) -> Result<Core, AllocError>
        requires low { 1 ≤ desks }
        requires high { desks ≤ MOST_DESKS }
        ensures kept { IfOk result (IsKept (setting setup.now)) }
        ensures history { IfOk result (λ core. history_of (setting setup.now) core
            ≡ record { opening = record { setting = setting setup.now; desks = desks }; entries = [] }) }
    {
        let state = State::new(alloc, setup)?;
        let turns = vec![in alloc; 0u32; desks as usize]?;
        Ok(Core {
            state,
            journal: Journal::new(alloc)?,
            turns,
        })
    }

    /// Whether there is such a desk, and the turn is its last plus one.
    fn is_turn(&self, desk: u32, turn: u32) -> bool
        ensures { (s : Setting) → IsKept s self.now → result ≡ is_turn (length self.now.turns) self.now.journal desk turn }
    {
        if desk == 0 || desk as usize > self.turns.len() {
            return false;
        }
        let last = self.turns[desk as usize - 1];
        u64::from(turn) == u64::from(last) + 1
    }

    /// Why an event of a desk is not taken, other than by running out of memory: `OutOfTurn`, or `Full`.
    pub(crate) fn due_fault(&self, setup: &Setup, desk: u32, turn: u32) -> Option<Fault>
        requires { IsKept (setting setup.now) self.now }
        ensures { MatchOption result (IsTaken (setting setup.now) self.now desk turn) (IsDue (setting setup.now) self.now desk turn) }
    {
        if !self.is_turn(desk, turn) {
            return Some(Fault::OutOfTurn);
        }
        if self.journal.len() >= setup.max_events() as usize {
            return Some(Fault::Full);
        }
        None
    }

    /// Judges an event, and makes every growth that it needs. The setup is the one with which the core was opened. Faults, in order:
    /// `OutOfTurn`, `Full`, `NoMemory`. The journal and the turns stay as they are; what was tried on the spare policy and the room for
    /// growth may differ afterwards, also after a fault. After a policy command that is refused nothing is tried. Where nothing was tried
    /// before, nothing is tried afterwards, unless a policy command is answered otherwise than by a refusal: then it stays tried until it is
    /// settled or given up.
    pub fn prepare(
        &mut self,
        setup: &Setup,
        event: Event,
        meter: &mut Meter,
    ) -> Result<Prepared, Fault>
        requires { IsKept (setting setup.now) self.old }
        ensures kept { IsKept (setting setup.now) self.new }
        ensures journal { self.new.journal ≡ self.old.journal }
        ensures turns { self.new.turns ≡ self.old.turns }
        ensures of { IfOk result (λ prepared. prepared.of ≡ self.new) }
        ensures entry { IfOk result (λ prepared. prepared.entry ≡ entry_of event prepared.entry.reply) }
        ensures makes { IfOk result (Makes (setting setup.now)) }
        ensures given_up { (session : ℕ) (command : Command) → event.call ≡ Policy session command
            → IfOk result (λ prepared. IsGivenUp prepared.judged.change self.new.held.policy) }
        ensures untried { self.old.held.policy.tried ≡ self.old.held.policy.now
            → MatchResult result (λ prepared. IsGivenUp prepared.judged.change self.new.held.policy)
            (λ _. self.new.held.policy.tried ≡ self.new.held.policy.now) }
        ensures out_of_turn { IsErrOf result Fault.OutOfTurn
            ↔ (is_turn (length self.old.turns) self.old.journal event.desk event.turn ≡ false) }
        ensures full { IsErrOf result Fault.Full ↔ ((is_turn (length self.old.turns) self.old.journal event.desk event.turn ≡ true)
            × (length self.old.journal ≡ (setting setup.now).max_events)) }
        ensures untaken { IfErr result (λ fault. fault ≢ Fault.NoMemory → meter.new ≡ meter.old) }
        ensures work { IfOk result (λ prepared. IsWorkOf (setting setup.now) (state_after (setting setup.now) self.old.journal).pins
            (state_after (setting setup.now) self.old.journal).routes event.call prepared.entry.reply meter.old meter.new) }
        ensures most { WorksAtMost meter.old meter.new
            (call_asks (setting setup.now) (state_after (setting setup.now) self.old.journal).routes event.call)
            (call_probes (state_after (setting setup.now) self.old.journal).pins
            (state_after (setting setup.now) self.old.journal).routes event.call) }
    {
        if let Some(fault) = self.due_fault(setup, event.desk, event.turn) {
            return Err(fault);
        }
        match self.judge(setup, event, meter) {
            Ok(prepared) => Ok(prepared),
            Err(_) => Err(Fault::NoMemory),
        }
    }

    /// A law of a core that keeps a legal history: where its journal is not full, what it holds is ready for the next call.
    pub(crate) fn is_ready(&self, setup: &Setup)
        ensures { IsKept (setting setup.now) self.now → length self.now.journal < (setting setup.now).max_events
            → IsReady (setting setup.now) self.now.held }
    {
        legal_histories_leave_good_states();
        let _most = setup.max_events();
    }

    /// Judges an event that has its turn, where the journal is not full.
    fn judge(
        &mut self,
        setup: &Setup,
        event: Event,
        meter: &mut Meter,
    ) -> Result<Prepared, AllocError>
        requires kept { IsKept (setting setup.now) self.old }
        requires taken { IsTaken (setting setup.now) self.old event.desk event.turn }
        ensures kept { IsKept (setting setup.now) self.new }
        ensures journal { self.new.journal ≡ self.old.journal }
        ensures turns { self.new.turns ≡ self.old.turns }
        ensures of { IfOk result (λ prepared. prepared.of ≡ self.new) }
        ensures entry { IfOk result (λ prepared. prepared.entry ≡ entry_of event prepared.entry.reply) }
        ensures makes { IfOk result (Makes (setting setup.now)) }
        ensures given_up { (session : ℕ) (command : Command) → event.call ≡ Policy session command
            → IfOk result (λ prepared. IsGivenUp prepared.judged.change self.new.held.policy) }
        ensures untried { self.old.held.policy.tried ≡ self.old.held.policy.now
            → MatchResult result (λ prepared. IsGivenUp prepared.judged.change self.new.held.policy)
            (λ _. self.new.held.policy.tried ≡ self.new.held.policy.now) }
        ensures work { IfOk result (λ prepared. IsWorkOf (setting setup.now) (state_after (setting setup.now) self.old.journal).pins
            (state_after (setting setup.now) self.old.journal).routes event.call prepared.entry.reply meter.old meter.new) }
        ensures most { WorksAtMost meter.old meter.new
            (call_asks (setting setup.now) (state_after (setting setup.now) self.old.journal).routes event.call)
            (call_probes (state_after (setting setup.now) self.old.journal).pins
            (state_after (setting setup.now) self.old.journal).routes event.call) }
    {
        self.is_ready(setup);
        let alloc = *self.journal.allocator();
        self.journal.make_room()?;
        let judged = self.state.prepare(alloc, setup, &event.call, meter)?;
        let Event { desk, turn, call } = event;
        Ok(Prepared {
            of: Snapshot::of(self),
            desk,
            turn,
            call,
            judged,
        })
    }

    /// Puts a judged event in place: it is journaled with its reply. It takes no memory.
    ///
    /// The contract requires that the core is equal, as contracts see it, to the one that `prepare` left when it judged the event. Contracts
    /// see what is held, what is tried on the spare policy, the journal, the turns, and the room for growth. So pass what the last `prepare`
    /// of this core answered, and settle nothing in between: after a `settle`, `apply`, `propose`, `give_up` or another `prepare` the core
    /// may be another one, also after a fault. The core keeps its history where the entry may come next (`Makes`), as `prepare` promises.
    pub fn settle(&mut self, prepared: Prepared) -> Reply
        requires { prepared.of ≡ self.old }
        ensures journal { self.new.journal ≡ self.old.journal ++ prepared.entry ∷ [] }
        ensures desks { length self.new.turns ≡ length self.old.turns }
        ensures kept { (s : Setting) → IsKept s self.old → Makes s prepared → IsKept s self.new }
        ensures untried { IsGivenUp prepared.judged.change self.old.held.policy → self.new.held.policy.tried ≡ self.new.held.policy.now }
        ensures reply { result ≡ prepared.entry.reply }
    {
        histories_grow_by_entries();
        let Prepared {
            of: _,
            desk,
            turn,
            call,
            judged,
        } = prepared;
        let reply = self.state.settle(judged);
        self.turns[desk as usize - 1] = turn;
        let answer = copy_of(&reply);
        self.journal.push(Event { desk, turn, call }, reply);
        answer
    }

    /// Gives up the policy command that is tried, if there is one: nothing is tried any more, and all else stays. Call it where an event was
    /// prepared and is not to be settled. It takes no memory.
    pub fn give_up(&mut self)
        ensures held { GivesUp self.old.held self.new.held }
        ensures others { self.new ≡ record self.old { held = self.new.held } }
        ensures untried { self.new.held.policy.tried ≡ self.new.held.policy.now }
        ensures kept { (s : Setting) → IsKept s self.old → IsKept s self.new }
    {
        self.state.give_up();
    }
}

/// A copy of the reply.
pub(crate) fn copy_of(reply: &Reply) -> Reply
    ensures { result ≡ reply.now }
{
    *reply
}
