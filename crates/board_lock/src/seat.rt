//! A board's desks without its setup, each for one thread.
ghost use Rattle.std.specs.Prelude.{◌≡◌, ◌↔◌, ◌+◌, ◌≤◌, None, Some, IfOk, IfErr, OnOk, IsErrOf, MatchOption};
ghost use mathlib.Core.List.{IsPrefix};
ghost use Rattle.dimension_core.specs.Setup.{setting};
ghost use Rattle.board_rules.specs.declared.reply.AskFault.{AskFault};
ghost use Rattle.board_rules.specs.History.{state_after, turns_of};
ghost use Rattle.board_rules.specs.Listing.{IsListing};
ghost use Rattle.board_rules.specs.Questions.{MayAsk, list_fault, audit_fault, review_fault, review_of, check_of};
ghost use Rattle.published_board.specs.declared.eye.SnapFault.{SnapFault};
ghost use Rattle.published_board.specs.Shelves.{view_of};
ghost use Rattle.board_lock.specs.Commits.{Submitted, Looked, Faulted, Legal};

use crate::held::Held;
use board_journal::Journal;
use board_rules::{AskFault, Call, Fault, Reply, Review, Row};
use dimension_core::Setup;
use limits::MOST_EVENTS;
use pin_core::View;
use published_board::{Eye, Naming, SnapFault};
use rbac_core::{Object, Operation};
use separation_core::Name;
use std::alloc::Global;
use std::marker::Model;
use std::sync::{Arc, Mutex, Wait};

/// A desk without its setup, over what lies under its lock. Contracts see it as its number, how many turns it has had, the entries that it
/// has seen, and those of which the view that it keeps tells.
pub struct SeatOf<N: Naming, L: Drop> {
    shared: Arc<Mutex<L>>,
    eye: Eye<N>,
    number: u32,
    own: u32,
    alloc: Global,
}

/// A desk without its setup.
pub type Seat<N, R> = SeatOf<N, Held<N, R>>;

// Written by hand: a derived drop is expanded at every place where a value is dropped.
impl<N: Naming, L: Drop> Drop for SeatOf<N, L> {
    fn drop(self) {
        let Self {
            shared: _,
            eye: _,
            number: _,
            own: _,
            alloc: _,
        } = self;
    }
}

impl<N: Naming, L: Drop> Model for SeatOf<N, L> {
    ghost use Rattle.std.specs.Prelude.{◌≤◌};
    ghost use Rattle.limits.specs.declared.TheConstants.{MOST_EVENTS};
    ghost use Rattle.board_rules.specs.History.{turns_of};
    ghost use Rattle.board_lock.specs.Watches.{Watch};

    ghost Value = { Watch };

    ghost view = { λ d. record { number = d.number; own = d.own; seen = d.eye.seen; viewed = d.eye.viewed } };

    ghost invariant = { λ d. (1 ≤ d.number) × (d.number ≤ N.opening.desks) × (d.own ≤ turns_of d.number d.eye.seen)
        × (d.own ≤ MOST_EVENTS) };
}

impl<N: Naming, L: Drop> SeatOf<N, L> {
    /// A seat of the hall that the name says, for an eye of its own, with the desk's number and its last turn.
    pub fn open(
        shared: Arc<Mutex<L>>,
        eye: Eye<N>,
        number: u32,
        own: u32,
        alloc: Global,
    ) -> SeatOf<N, L>
        requires low { 1 ≤ number }
        requires high { number ≤ N.opening.desks }
        requires own { own ≤ turns_of number eye.seen }
        requires few { own ≤ MOST_EVENTS }
        ensures { result ≡ record { number = number; own = own; seen = eye.seen; viewed = eye.viewed } }
    {
        SeatOf {
            shared,
            eye,
            number,
            own,
            alloc,
        }
    }

    /// The allocator that the desk was opened with.
    #[inline(always)]
    pub fn alloc(&self) -> Global {
        self.alloc
    }

    /// Brings the view that the desk keeps up to what is published, and so what the desk has seen: the routes that changed are taken over,
    /// and all pins and frozen lengths where one did. Memory is taken only where there is no view yet. It waits for nobody. After `NoMemory`
    /// there is no view until a later call makes one.
    pub fn refresh(&mut self) -> Result<(), SnapFault>
        ensures kept { (self.new.number ≡ self.old.number) × (self.new.own ≡ self.old.own) }
        ensures grows { IsPrefix self.old.seen self.new.seen }
        ensures legal { Legal N.opening self.new.seen }
        ensures ok { OnOk result (self.new.viewed ≡ Some self.new.seen) }
        ensures no_memory { IsErrOf result SnapFault.NoMemory → self.new.viewed ≡ None }
        ensures closed { IsErrOf result SnapFault.Closed → self.new ≡ self.old }
    {
        self.eye.refresh(self.alloc)
    }

    /// The view as it was brought up last, if there is one: the plan, its pins and freezes, and the version.
    pub fn view(&self) -> Option<&View>
        ensures { MatchOption result (self.now.viewed ≡ None)
            (λ v. MatchOption self.now.viewed ⊥ (λ es. v.now ≡ view_of (state_after N.opening.setting es))) }
    {
        self.eye.view()
    }

    /// A copy of the plan that is published, with its pins and freezes. The routes are shared. It waits for nobody.
    pub fn snapshot(&mut self) -> Result<View, SnapFault>
        ensures kept { (self.new.number ≡ self.old.number) × (self.new.own ≡ self.old.own) }
        ensures grows { IsPrefix self.old.seen self.new.seen }
        ensures legal { Legal N.opening self.new.seen }
        ensures view { IfOk result (λ v. v ≡ view_of (state_after N.opening.setting self.new.seen)) }
        ensures viewed { OnOk result (self.new.viewed ≡ Some self.new.seen) }
        ensures closed { IsErrOf result SnapFault.Closed → self.new ≡ self.old }
    {
        self.eye.snapshot(self.alloc)
    }

    /// The desk's next turn.
    pub fn turn(&self) -> u32
        ensures { result ≡ self.now.own + 1 }
    {
        self.own + 1
    }

    /// A law: the entries of which the view tells are the first of those that the desk has seen, and a legal history. It does nothing.
    pub fn view_is_seen(&self)
        ensures { MatchOption self.now.viewed (Unit {0}) (λ es. Legal N.opening es × IsPrefix es self.now.seen) }
    {
        self.eye.view_is_seen();
    }

    /// A law: the turns that the desk has had are among the entries that it has seen. It does nothing.
    pub fn turns_are_seen(&self)
        ensures { self.now.own ≤ turns_of self.now.number self.now.seen }
    {
        let _own = self.own;
    }
}

impl<N: Naming, R: Wait + Drop> SeatOf<N, Held<N, R>> {
    /// Submits a call with the desk's next turn. The setup is the hall's. It waits for the lock. Faults, in order: `Full`, where the journal
    /// holds the setup's greatest number of events, and `NoMemory`; a fault uses no turn.
    pub fn submit<W: Wait>(&mut self, rt: &W, setup: &Setup, call: Call) -> Result<Reply, Fault>
        requires { setting setup.now ≡ N.opening.setting }
        ensures kept { (self.new.number ≡ self.old.number) × (self.new.viewed ≡ self.old.viewed) }
        ensures ok { IfOk result (λ r. Submitted N.opening self.old.number self.old.own call r self.old.seen self.new.seen
            × (self.new.own ≡ self.old.own + 1)) }
        ensures err { IfErr result (λ f. Faulted N.opening self.old.number self.old.own f self.old.seen self.new.seen
            × (self.new.own ≡ self.old.own)) }
    {
        let mut held = self.shared.lock(rt);
        let answer = held.submit(setup, &mut self.eye, self.number, self.own, call);
        drop(held);
        match answer {
            Ok(reply) => {
                self.own += 1;
                Ok(reply)
            }
            Err(fault) => Err(fault),
        }
    }

    /// The rows that a session may read. Faults, in order: `NoSession`, `NoMemory`.
    pub fn list<W: Wait>(
        &mut self,
        rt: &W,
        setup: &Setup,
        session: u32,
    ) -> Result<Vec<Row>, AskFault>
        requires { setting setup.now ≡ N.opening.setting }
        ensures kept { (self.new.number ≡ self.old.number) × (self.new.own ≡ self.old.own) × (self.new.viewed ≡ self.old.viewed) }
        ensures looked { Looked N.opening self.old.number self.old.own self.old.seen self.new.seen }
        ensures rows { IfOk result (λ rows. IsListing N.opening.setting (state_after N.opening.setting self.new.seen) session rows.items) }
        ensures asked { OnOk result (list_fault (state_after N.opening.setting self.new.seen) session ≡ None) }
        ensures fault { IfErr result (MayAsk (list_fault (state_after N.opening.setting self.new.seen) session)) }
        ensures no_session { IsErrOf result AskFault.NoSession
            ↔ (list_fault (state_after N.opening.setting self.new.seen) session ≡ Some AskFault.NoSession) }
    {
        let held = self.shared.lock(rt);
        let answer = held.list(setup, &mut self.eye, self.number, self.own, session);
        drop(held);
        answer
    }

    /// The journal, for a session that may `audit` the board. Its full pages are shared. Faults, in order: `NoSession`, `NoAccess`,
    /// `NoMemory`.
    pub fn audit<W: Wait>(&mut self, rt: &W, session: u32) -> Result<Journal, AskFault>
        ensures kept { (self.new.number ≡ self.old.number) × (self.new.own ≡ self.old.own) × (self.new.viewed ≡ self.old.viewed) }
        ensures looked { Looked N.opening self.old.number self.old.own self.old.seen self.new.seen }
        ensures entries { IfOk result (λ journal. journal.entries ≡ self.new.seen) }
        ensures asked { OnOk result (audit_fault (state_after N.opening.setting self.new.seen) session ≡ None) }
        ensures fault { IfErr result (MayAsk (audit_fault (state_after N.opening.setting self.new.seen) session)) }
        ensures barred { (f : AskFault) → audit_fault (state_after N.opening.setting self.new.seen) session ≡ Some f → IsErrOf result f }
    {
        let held = self.shared.lock(rt);
        let answer = held.audit(self.alloc, &mut self.eye, self.number, self.own, session);
        drop(held);
        answer
    }

    /// The names that a review shows, for a session that may `audit` the board. Faults, in order: `NoSession`, `NoAccess`, then `NoRole`,
    /// `NoUser` or `NotThere`, `NoMemory`.
    pub fn review<W: Wait>(
        &mut self,
        rt: &W,
        session: u32,
        which: Review,
    ) -> Result<Vec<Name>, AskFault>
        ensures kept { (self.new.number ≡ self.old.number) × (self.new.own ≡ self.old.own) × (self.new.viewed ≡ self.old.viewed) }
        ensures looked { Looked N.opening self.old.number self.old.own self.old.seen self.new.seen }
        ensures names { IfOk result (λ names. names.items ≡ review_of (state_after N.opening.setting self.new.seen).policy which) }
        ensures asked { OnOk result (review_fault (state_after N.opening.setting self.new.seen) session which ≡ None) }
        ensures fault { IfErr result (MayAsk (review_fault (state_after N.opening.setting self.new.seen) session which)) }
        ensures barred { (f : AskFault) → audit_fault (state_after N.opening.setting self.new.seen) session ≡ Some f → IsErrOf result f }
    {
        let held = self.shared.lock(rt);
        let answer = held.review(&mut self.eye, self.number, self.own, session, which);
        drop(held);
        answer
    }

    /// CheckAccess: false for a session or an object that is not there.
    pub fn check<W: Wait>(
        &mut self,
        rt: &W,
        session: u32,
        operation: Operation,
        object: Object,
    ) -> bool
        ensures kept { (self.new.number ≡ self.old.number) × (self.new.own ≡ self.old.own) × (self.new.viewed ≡ self.old.viewed) }
        ensures looked { Looked N.opening self.old.number self.old.own self.old.seen self.new.seen }
        ensures answer { result ≡ check_of (state_after N.opening.setting self.new.seen) session operation object }
    {
        let held = self.shared.lock(rt);
        let answer = held.check(
            &mut self.eye,
            self.number,
            self.own,
            session,
            operation,
            object,
        );
        drop(held);
        answer
    }

    /// Brings two desks up to the journal, in one hold of the lock.
    pub fn meet<W: Wait>(&mut self, rt: &W, other: &mut Seat<N, R>)
        ensures kept { (self.new.number ≡ self.old.number) × (self.new.own ≡ self.old.own) × (self.new.viewed ≡ self.old.viewed) }
        ensures other_kept { (other.new.number ≡ other.old.number)
            × (other.new.own ≡ other.old.own) × (other.new.viewed ≡ other.old.viewed) }
        ensures one { self.new.seen ≡ other.new.seen }
        ensures looked { Looked N.opening self.old.number self.old.own self.old.seen self.new.seen }
        ensures other_looked { Looked N.opening other.old.number other.old.own other.old.seen other.new.seen }
    {
        let held = self.shared.lock(rt);
        held.meet(
            &mut self.eye,
            self.number,
            self.own,
            &mut other.eye,
            other.number,
            other.own,
        );
        drop(held);
    }
}
