//! What a desk calls under the lock.
ghost use Rattle.std.specs.Prelude.{◌≡◌, ◌↔◌, ◌+◌, ◌≤◌, Some, None, IfOk, IfErr, OnOk, IsErrOf};
ghost use Rattle.dimension_core.specs.Setup.{setting};
ghost use Rattle.board_rules.specs.declared.reply.AskFault.{AskFault};
ghost use Rattle.board_rules.specs.History.{state_after};
ghost use Rattle.board_rules.specs.Listing.{IsListing};
ghost use Rattle.board_rules.specs.Questions.{MayAsk, list_fault, audit_fault, review_fault, review_of, check_of};
ghost use Rattle.board_lock.specs.Commits.{Submitted, Looked, Faulted};

use crate::locked::Locked;
use board_journal::Journal;
use board_rules::{AskFault, Call, Fault, Reply, Review, Row};
use dimension_core::Setup;
use limits::MOST_EVENTS;
use published_board::{Eye, Naming};
use rbac_core::{Object, Operation};
use separation_core::Name;
use std::alloc::Global;
use std::marker::Model;
use std::sync::Wait;

/// A locked value. Contracts see nothing of it: a desk learns from its own eye what the board has come to.
#[derive(Drop)]
pub struct Held<N: Naming, R: Wait + Drop> {
    locked: Locked<N, R>,
}

impl<N: Naming, R: Wait + Drop> Model for Held<N, R> {
    ghost Value = { Unit {0} };

    ghost view = { λ h. tt };
}

impl<N: Naming, R: Wait + Drop> Held<N, R> {
    pub fn over(locked: Locked<N, R>) -> Held<N, R> {
        Held { locked }
    }

    /// A call of a desk, which has seen a beginning of the journal and has had so many turns.
    pub fn submit(
        &mut self,
        setup: &Setup,
        eye: &mut Eye<N>,
        number: u32,
        own: u32,
        call: Call,
    ) -> Result<Reply, Fault>
        requires setting { setting setup.now ≡ N.opening.setting }
        requires low { 1 ≤ number }
        requires high { number ≤ N.opening.desks }
        requires few { own ≤ MOST_EVENTS }
        ensures ok { IfOk result (λ r. Submitted N.opening number own call r eye.old.seen eye.new.seen) }
        ensures few { OnOk result (own + 1 ≤ MOST_EVENTS) }
        ensures err { IfErr result (λ f. Faulted N.opening number own f eye.old.seen eye.new.seen) }
        ensures viewed { eye.new.viewed ≡ eye.old.viewed }
    {
        self.locked.submit(setup, eye, number, own, call)
    }

    /// Brings the eyes of two desks up to the journal.
    pub fn meet(
        &self,
        eye: &mut Eye<N>,
        number: u32,
        own: u32,
        other: &mut Eye<N>,
        other_number: u32,
        other_own: u32,
    )
        requires low { (1 ≤ number) × (1 ≤ other_number) }
        requires high { (number ≤ N.opening.desks) × (other_number ≤ N.opening.desks) }
        ensures one { eye.new.seen ≡ other.new.seen }
        ensures looked { Looked N.opening number own eye.old.seen eye.new.seen }
        ensures other_looked { Looked N.opening other_number other_own other.old.seen other.new.seen }
        ensures viewed { (eye.new.viewed ≡ eye.old.viewed) × (other.new.viewed ≡ other.old.viewed) }
    {
        self.locked.catch_up(eye, number, own);
        self.locked.catch_up(other, other_number, other_own);
    }

    /// The rows that a session may read.
    pub fn list(
        &self,
        setup: &Setup,
        eye: &mut Eye<N>,
        number: u32,
        own: u32,
        session: u32,
    ) -> Result<Vec<Row>, AskFault>
        requires setting { setting setup.now ≡ N.opening.setting }
        requires low { 1 ≤ number }
        requires high { number ≤ N.opening.desks }
        ensures looked { Looked N.opening number own eye.old.seen eye.new.seen }
        ensures viewed { eye.new.viewed ≡ eye.old.viewed }
        ensures rows { IfOk result (λ rows. IsListing N.opening.setting (state_after N.opening.setting eye.new.seen) session rows.items) }
        ensures asked { OnOk result (list_fault (state_after N.opening.setting eye.new.seen) session ≡ None) }
        ensures fault { IfErr result (MayAsk (list_fault (state_after N.opening.setting eye.new.seen) session)) }
        ensures no_session { IsErrOf result AskFault.NoSession
            ↔ (list_fault (state_after N.opening.setting eye.new.seen) session ≡ Some AskFault.NoSession) }
    {
        self.locked.catch_up(eye, number, own);
        self.locked.list(setup, session)
    }

    /// The journal.
    pub fn audit(
        &self,
        alloc: Global,
        eye: &mut Eye<N>,
        number: u32,
        own: u32,
        session: u32,
    ) -> Result<Journal, AskFault>
        requires low { 1 ≤ number }
        requires high { number ≤ N.opening.desks }
        ensures looked { Looked N.opening number own eye.old.seen eye.new.seen }
        ensures viewed { eye.new.viewed ≡ eye.old.viewed }
        ensures entries { IfOk result (λ journal. journal.entries ≡ eye.new.seen) }
        ensures asked { OnOk result (audit_fault (state_after N.opening.setting eye.new.seen) session ≡ None) }
        ensures fault { IfErr result (MayAsk (audit_fault (state_after N.opening.setting eye.new.seen) session)) }
        ensures barred { (f : AskFault) → audit_fault (state_after N.opening.setting eye.new.seen) session ≡ Some f → IsErrOf result f }
    {
        self.locked.catch_up(eye, number, own);
        self.locked.audit(alloc, session)
    }

    /// The names that a review shows.
    pub fn review(
        &self,
        eye: &mut Eye<N>,
        number: u32,
        own: u32,
        session: u32,
        which: Review,
    ) -> Result<Vec<Name>, AskFault>
        requires low { 1 ≤ number }
        requires high { number ≤ N.opening.desks }
        ensures looked { Looked N.opening number own eye.old.seen eye.new.seen }
        ensures viewed { eye.new.viewed ≡ eye.old.viewed }
        ensures names { IfOk result (λ names. names.items ≡ review_of (state_after N.opening.setting eye.new.seen).policy which) }
        ensures asked { OnOk result (review_fault (state_after N.opening.setting eye.new.seen) session which ≡ None) }
        ensures fault { IfErr result (MayAsk (review_fault (state_after N.opening.setting eye.new.seen) session which)) }
        ensures barred { (f : AskFault) → audit_fault (state_after N.opening.setting eye.new.seen) session ≡ Some f → IsErrOf result f }
    {
        self.locked.catch_up(eye, number, own);
        self.locked.review(session, which)
    }

    /// CheckAccess.
    pub fn check(
        &self,
        eye: &mut Eye<N>,
        number: u32,
        own: u32,
        session: u32,
        operation: Operation,
        object: Object,
    ) -> bool
        requires low { 1 ≤ number }
        requires high { number ≤ N.opening.desks }
        ensures looked { Looked N.opening number own eye.old.seen eye.new.seen }
        ensures viewed { eye.new.viewed ≡ eye.old.viewed }
        ensures answer { result ≡ check_of (state_after N.opening.setting eye.new.seen) session operation object }
    {
        self.locked.catch_up(eye, number, own);
        self.locked.check(session, operation, object)
    }
}
