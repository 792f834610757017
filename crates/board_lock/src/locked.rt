//! What lies under the lock: the board, and the writer of the copy that desks read.
ghost use Rattle.std.specs.Prelude.{◌≡◌, ◌↔◌, ◌+◌, ◌≤◌, ◌++◌, ◌∷◌, [], Some, None, length, IfOk, IfErr, OnOk, OnErr, IsErrOf, MatchResult};
ghost use mathlib.Core.List.{IsPrefix};
ghost use Rattle.dimension_core.specs.Setup.{setting};
ghost use Rattle.board_rules.specs.declared.reply.AskFault.{AskFault};
ghost use Rattle.board_rules.specs.History.{state_after, turns_of, IsLegal};
ghost use Rattle.board_rules.specs.Listing.{IsListing};
ghost use Rattle.board_rules.specs.Questions.{MayAsk, list_fault, audit_fault, review_fault, review_of, check_of};
ghost use Rattle.board_core.specs.Changes.{IsGivenUp};
ghost use Rattle.board_core.specs.Kept.{IsKept, entry_of};
ghost use Rattle.board_core.specs.Prepared.{Makes};
ghost use Rattle.published_board.specs.Changed.{IsChangeBy};
ghost use Rattle.board_lock.specs.Commits.{IsCommitted, IsFault, Submitted, Looked, Faulted};
ghost use Rattle.board_lock.specs.Ties.{IsTied};

use crate::change::change_of;
use crate::settles::Settles;
use board_core::{Core, Prepared};
use board_journal::Journal;
use board_rules::{AskFault, Call, Event, Fault, Reply, Review, Row, histories_grow_by_entries};
use callback_store::Meter;
use dimension_core::Setup;
use limits::MOST_EVENTS;
use published_board::{Change, Eye, Naming, Publication, never};
use rbac_core::{Object, Operation};
use separation_core::Name;
use std::alloc::{AllocError, Global};
use std::marker::{Model, PhantomData};
use std::sync::Wait;

/// The core of a board and what is published of it. Contracts see it as the core.
pub struct Locked<N: Naming, R: Wait + Drop> {
    core: Core,
    publication: Publication,
    rt: R,
    of: PhantomData<N>,
}

impl<N: Naming, R: Wait + Drop> Model for Locked<N, R> {
    ghost use Rattle.board_core.specs.Kept.{CoreState};
    ghost use Rattle.board_lock.specs.Ties.{IsTied};

    ghost Value = { CoreState };

    ghost view = { λ d. d.core };

    ghost invariant = { λ d. IsTied N.book N.opening d.core d.publication };
}

impl<N: Naming, R: Wait + Drop> Drop for Locked<N, R> {
    fn drop(self) {
        let Self {
            core: _,
            publication,
            rt,
            of: _,
        } = self;
        publication.close(&rt);
    }
}

impl<N: Naming, R: Wait + Drop> Locked<N, R> {
    /// A core and what was published of it, in the hall that the name says.
    pub fn over(core: Core, publication: Publication, rt: R) -> Locked<N, R>
        requires { IsTied N.book N.opening core publication }
        ensures { result ≡ core }
    {
        Locked {
            core,
            publication,
            rt,
            of: PhantomData,
        }
    }

    /// Judges a call, journals it and publishes it. Afterwards nothing is tried: a policy command that is not journaled is given up.
    fn commit(&mut self, setup: &Setup, event: Event) -> Result<Reply, Fault>
        requires { setting setup.now ≡ N.opening.setting }
        ensures ok { IfOk result (λ r. IsCommitted N.opening self.old.journal (entry_of event r) self.new.journal) }
        ensures err { IfErr result (λ f. (self.new.journal ≡ self.old.journal)
            × IsFault N.opening self.old.journal event.desk event.turn f) }
    {
        let prepared = match judge::<N>(&mut self.core, setup, event) {
            Ok(prepared) => prepared,
            Err(fault) => return Err(fault),
        };
        let Ok(change) = change_of(&prepared) else {
            self.core.give_up();
            return Err(Fault::NoMemory);
        };
        let Ok(reply) = put_in_place::<N, R>(
            &mut self.core,
            &mut self.publication,
            &self.rt,
            prepared,
            change,
        ) else {
            return Err(Fault::NoMemory);
        };
        self.publication.publish(&self.rt);
        Ok(reply)
    }

    /// The same for a desk, whose eye then sees what came of it.
    fn commit_for(&mut self, setup: &Setup, eye: &mut Eye<N>, event: Event) -> Result<Reply, Fault>
        requires { setting setup.now ≡ N.opening.setting }
        ensures ok { IfOk result (λ r. IsCommitted N.opening self.old.journal (entry_of event r) self.new.journal) }
        ensures err { IfErr result (λ f. (self.new.journal ≡ self.old.journal)
            × IsFault N.opening self.old.journal event.desk event.turn f) }
        ensures seen { eye.new.seen ≡ self.new.journal }
        ensures viewed { eye.new.viewed ≡ eye.old.viewed }
    {
        let answer = self.commit(setup, event);
        self.show(eye);
        answer
    }

    /// A call of a desk, which has seen a beginning of the journal and has had so many turns.
    pub(crate) fn submit(
        &mut self,
        setup: &Setup,
        eye: &mut Eye<N>,
        number: u32,
        own: u32,
        call: Call,
    ) -> Result<Reply, Fault>
        requires setting { setting setup.now ≡ N.opening.setting }
        requires low { 1 ≤ number }
        requires high { number ≤ N.opening.desks }
        requires few { own ≤ MOST_EVENTS }
        ensures ok { IfOk result (λ r. Submitted N.opening number own call r eye.old.seen eye.new.seen) }
        ensures few { OnOk result (own + 1 ≤ MOST_EVENTS) }
        ensures err { IfErr result (λ f. Faulted N.opening number own f eye.old.seen eye.new.seen) }
        ensures viewed { eye.new.viewed ≡ eye.old.viewed }
    {
        histories_grow_by_entries();
        self.catch_up(eye, number, own);
        let answer = self.commit_for(
            setup,
            eye,
            Event {
                desk: number,
                turn: own + 1,
                call,
            },
        );
        let _last = self.turns(number);
        answer
    }

    /// Brings a desk's eye up to the journal, in which the desk has so many turns.
    pub(crate) fn catch_up(&self, eye: &mut Eye<N>, number: u32, own: u32)
        requires low { 1 ≤ number }
        requires high { number ≤ N.opening.desks }
        ensures seen { eye.new.seen ≡ self.now.journal }
        ensures own { turns_of number self.now.journal ≡ own }
        ensures looked { Looked N.opening number own eye.old.seen eye.new.seen }
        ensures viewed { eye.new.viewed ≡ eye.old.viewed }
    {
        self.show(eye);
        if self.turns(number) != own {
            never(&self.rt);
        }
    }

    /// Brings an eye up to the journal.
    fn show(&self, eye: &mut Eye<N>)
        ensures seen { eye.new.seen ≡ self.now.journal }
        ensures grows { IsPrefix eye.old.seen self.now.journal }
        ensures viewed { eye.new.viewed ≡ eye.old.viewed }
        ensures legal { IsLegal (record { opening = N.opening; entries = self.now.journal }) }
    {
        if !self.publication.show(eye) {
            never(&self.rt);
        }
    }

    /// An eye that has seen the journal, which is one reader more. It fails where there is no place for a reader.
    pub fn eye(&mut self) -> Result<Eye<N>, AllocError>
        ensures same { self.new ≡ self.old }
        ensures seen { IfOk result (λ e. (e.seen ≡ self.old.journal) × (e.viewed ≡ None)) }
    {
        self.publication.eye::<N>()
    }

    /// The last turn of a desk of the hall, from 1 on: how many entries the desk has.
    pub fn turns(&self, desk: u32) -> u32
        requires low { 1 ≤ desk }
        requires high { desk ≤ N.opening.desks }
        ensures turns { result ≡ turns_of desk self.now.journal }
        ensures few { result ≤ MOST_EVENTS }
    {
        self.core.turns(desk)
    }

    /// How many desks there are.
    pub fn desks(&self) -> u32
        ensures { result ≡ N.opening.desks }
    {
        self.core.desks()
    }

    /// The rows that a session may read.
    pub(crate) fn list(&self, setup: &Setup, session: u32) -> Result<Vec<Row>, AskFault>
        requires { setting setup.now ≡ N.opening.setting }
        ensures rows { IfOk result (λ rows. IsListing N.opening.setting
            (state_after N.opening.setting self.now.journal) session rows.items) }
        ensures asked { OnOk result (list_fault (state_after N.opening.setting self.now.journal) session ≡ None) }
        ensures fault { IfErr result (MayAsk (list_fault (state_after N.opening.setting self.now.journal) session)) }
        ensures no_session { IsErrOf result AskFault.NoSession
            ↔ (list_fault (state_after N.opening.setting self.now.journal) session ≡ Some AskFault.NoSession) }
    {
        self.core.list(setup, session)
    }

    /// The journal, to be read while this one grows.
    pub(crate) fn audit(&self, alloc: Global, session: u32) -> Result<Journal, AskFault>
        ensures entries { IfOk result (λ journal. journal.entries ≡ self.now.journal) }
        ensures asked { OnOk result (audit_fault (state_after N.opening.setting self.now.journal) session ≡ None) }
        ensures fault { IfErr result (MayAsk (audit_fault (state_after N.opening.setting self.now.journal) session)) }
        ensures barred { (f : AskFault) → audit_fault (state_after N.opening.setting self.now.journal) session ≡ Some f → IsErrOf result f }
    {
        match self.core.audit(session) {
            Ok(journal) => match journal.share(alloc) {
                Ok(journal) => Ok(journal),
                Err(_) => Err(AskFault::NoMemory),
            },
            Err(fault) => Err(fault),
        }
    }

    /// The names that a review shows.
    pub(crate) fn review(&self, session: u32, which: Review) -> Result<Vec<Name>, AskFault>
        ensures names { IfOk result (λ names. names.items ≡ review_of (state_after N.opening.setting self.now.journal).policy which) }
        ensures asked { OnOk result (review_fault (state_after N.opening.setting self.now.journal) session which ≡ None) }
        ensures fault { IfErr result (MayAsk (review_fault (state_after N.opening.setting self.now.journal) session which)) }
        ensures barred { (f : AskFault) → audit_fault (state_after N.opening.setting self.now.journal) session ≡ Some f → IsErrOf result f }
    {
        self.core.review(session, which)
    }

    /// CheckAccess.
    pub(crate) fn check(&self, session: u32, operation: Operation, object: Object) -> bool
        ensures { result ≡ check_of (state_after N.opening.setting self.now.journal) session operation object }
    {
        self.core.check(session, operation, object)
    }
}

/// Judges a call, with every growth that the core needs.
fn judge<N: Naming>(core: &mut Core, setup: &Setup, event: Event) -> Result<Prepared, Fault>
    requires setting { setting setup.now ≡ N.opening.setting }
    requires kept { IsKept N.opening.setting core.old }
    requires desks { length core.old.turns ≡ N.opening.desks }
    requires untried { core.old.held.policy.tried ≡ core.old.held.policy.now }
    ensures kept { IsKept N.opening.setting core.new }
    ensures journal { core.new.journal ≡ core.old.journal }
    ensures turns { core.new.turns ≡ core.old.turns }
    ensures of { IfOk result (λ prepared. prepared.of ≡ core.new) }
    ensures entry { IfOk result (λ prepared. prepared.entry ≡ entry_of event prepared.entry.reply) }
    ensures makes { IfOk result (Makes N.opening.setting) }
    ensures untried { MatchResult result (λ prepared. IsGivenUp prepared.judged.change core.new.held.policy)
        (λ _. core.new.held.policy.tried ≡ core.new.held.policy.now) }
    ensures fault { IfErr result (λ f. IsFault N.opening core.old.journal event.desk event.turn f) }
{
    let mut meter = Meter::new();
    core.prepare(setup, event, &mut meter)
}

/// Stages a judged call and puts it in place. Readers do not see it yet, so that none sees an entry which the journal lacks. Where there is
/// no memory for it, it is given up.
fn put_in_place<N: Naming, R: Wait>(
    core: &mut Core,
    publication: &mut Publication,
    rt: &R,
    prepared: Prepared,
    change: Change,
) -> Result<Reply, AllocError>
    requires kept { IsKept N.opening.setting core.old }
    requires desks { length core.old.turns ≡ N.opening.desks }
    requires few { N.opening.setting.max_events ≤ MOST_EVENTS }
    requires opening { publication.old.opening ≡ N.opening }
    requires entries { publication.old.entries ≡ core.old.journal }
    requires shown { publication.old.shown ≡ core.old.journal }
    requires of { prepared.of ≡ core.old }
    requires makes { Makes N.opening.setting prepared }
    requires untried { IsGivenUp prepared.judged.change core.old.held.policy }
    requires change { IsChangeBy N.opening.setting (state_after N.opening.setting core.old.journal) prepared.entry change }
    ensures journal { OnOk result (core.new.journal ≡ core.old.journal ++ prepared.entry ∷ []) }
    ensures reply { IfOk result (λ r. r ≡ prepared.entry.reply) }
    ensures err { OnErr result (core.new.journal ≡ core.old.journal) }
    ensures kept { IsKept N.opening.setting core.new }
    ensures desks { length core.new.turns ≡ N.opening.desks }
    ensures untried { core.new.held.policy.tried ≡ core.new.held.policy.now }
    ensures staged { publication.new ≡ record publication.old { entries = core.new.journal } }
{
    let entries = core.events() as u64 + 1;
    match publication.stage::<Prepared, Settles, R>(rt, &prepared, change, entries) {
        Ok(()) => Ok(core.settle(prepared)),
        Err(error) => {
            core.give_up();
            Err(error)
        }
    }
}
