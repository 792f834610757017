//! Desks: seats with the setup beside.
ghost use Rattle.std.specs.Prelude.{◌≡◌, ◌↔◌, ◌+◌, Some, None, IfOk, IfErr, OnOk, IsErrOf, MatchOption, map, All};
ghost use mathlib.Core.List.{IsPrefix};
ghost use Rattle.dimension_core.specs.Setup.{setting};
ghost use Rattle.board_rules.specs.declared.reply.AskFault.{AskFault};
ghost use Rattle.board_rules.specs.History.{state_after};
ghost use Rattle.board_rules.specs.Listing.{IsListing};
ghost use Rattle.board_rules.specs.Questions.{MayAsk, list_fault, audit_fault, review_fault, review_of, check_of};
ghost use Rattle.published_board.specs.declared.eye.SnapFault.{SnapFault};
ghost use Rattle.published_board.specs.Shelves.{view_of};
ghost use Rattle.board_lock.specs.Commits.{Submitted, Looked, Faulted, Legal};
ghost use Rattle.board_lock.specs.Watches.{watches};

use crate::foyer::Foyer;
use crate::hall::open_seats;
use crate::held::Held;
use crate::room::OpenFault;
use crate::seat::SeatOf;
use board_journal::Journal;
use board_rules::{AskFault, Call, Fault, Reply, Review, Row};
use dimension_core::Setup;
use pin_core::View;
use published_board::{Naming, SnapFault};
use rbac_core::{Object, Operation};
use separation_core::Name;
use std::alloc::Global;
use std::sync::{Arc, Wait};

/// A desk of the hall that the name says. Its calls ask that its setup is the hall's, and leave it so.
#[derive(Drop)]
pub struct DeskOf<N: Naming, L: Drop> {
    pub setup: Arc<Setup>,
    pub seat: SeatOf<N, L>,
}

/// A desk of the hall that the name says.
pub type Desk<N, R> = DeskOf<N, Held<N, R>>;

/// One desk for each turn row of the board, in their order. On a fault the board is dropped.
pub fn open_hall<N: Naming, R: Wait + Drop>(
    alloc: Global,
    foyer: Foyer<R>,
) -> Result<Vec<Desk<N, R>>, OpenFault>
    requires opening { foyer.room.opening ≡ N.opening }
    requires book { foyer.room.book ≡ N.book }
    ensures seats { IfOk result (λ v. map (λ d. d.seat) v.items ≡ watches foyer.room.entries N.opening.desks) }
    ensures setups { IfOk result (λ v. All (λ d. setting d.setup.value ≡ N.opening.setting) v.items) }
{
    let Foyer { setup, room } = foyer;
    let seats = open_seats::<N, R>(alloc, room)?;
    let mut desks = Vec::new(alloc);
    for seat in seats {
        let Ok(setup) = Arc::try_clone(&setup) else {
            return Err(OpenFault::NoMemory);
        };
        let Ok(()) = desks.push(DeskOf { setup, seat }) else {
            return Err(OpenFault::NoMemory);
        };
    }
    Ok(desks)
}

impl<N: Naming, R: Wait + Drop> DeskOf<N, Held<N, R>> {
    /// Submits a call with the desk's next turn. A fault, which is `Full` or `NoMemory`, uses no turn.
    pub fn submit<W: Wait>(&mut self, rt: &W, call: Call) -> Result<Reply, Fault>
        requires { setting self.old.setup.value ≡ N.opening.setting }
        ensures setup { setting self.new.setup.value ≡ N.opening.setting }
        ensures kept { (self.new.seat.number ≡ self.old.seat.number) × (self.new.seat.viewed ≡ self.old.seat.viewed) }
        ensures ok { IfOk result (λ r. Submitted N.opening self.old.seat.number self.old.seat.own call r self.old.seat.seen
            self.new.seat.seen × (self.new.seat.own ≡ self.old.seat.own + 1)) }
        ensures err { IfErr result (λ f. Faulted N.opening self.old.seat.number self.old.seat.own f self.old.seat.seen self.new.seat.seen
            × (self.new.seat.own ≡ self.old.seat.own)) }
    {
        self.seat.submit(rt, &self.setup, call)
    }

    /// The rows that a session may read, as `Board::list` has them.
    pub fn list<W: Wait>(&mut self, rt: &W, session: u32) -> Result<Vec<Row>, AskFault>
        requires { setting self.old.setup.value ≡ N.opening.setting }
        ensures setup { setting self.new.setup.value ≡ N.opening.setting }
        ensures kept { (self.new.seat.number ≡ self.old.seat.number) × (self.new.seat.own ≡ self.old.seat.own)
            × (self.new.seat.viewed ≡ self.old.seat.viewed) }
        ensures looked { Looked N.opening self.old.seat.number self.old.seat.own self.old.seat.seen self.new.seat.seen }
        ensures rows { IfOk result (λ rows. IsListing N.opening.setting
            (state_after N.opening.setting self.new.seat.seen) session rows.items) }
        ensures asked { OnOk result (list_fault (state_after N.opening.setting self.new.seat.seen) session ≡ None) }
        ensures fault { IfErr result (MayAsk (list_fault (state_after N.opening.setting self.new.seat.seen) session)) }
        ensures no_session { IsErrOf result AskFault.NoSession
            ↔ (list_fault (state_after N.opening.setting self.new.seat.seen) session ≡ Some AskFault.NoSession) }
    {
        self.seat.list(rt, &self.setup, session)
    }

    /// The journal, for a session that may `audit` the board.
    pub fn audit<W: Wait>(&mut self, rt: &W, session: u32) -> Result<Journal, AskFault>
        ensures setup { setting self.new.setup.value ≡ setting self.old.setup.value }
        ensures kept { (self.new.seat.number ≡ self.old.seat.number) × (self.new.seat.own ≡ self.old.seat.own)
            × (self.new.seat.viewed ≡ self.old.seat.viewed) }
        ensures looked { Looked N.opening self.old.seat.number self.old.seat.own self.old.seat.seen self.new.seat.seen }
        ensures entries { IfOk result (λ journal. journal.entries ≡ self.new.seat.seen) }
        ensures asked { OnOk result (audit_fault (state_after N.opening.setting self.new.seat.seen) session ≡ None) }
        ensures fault { IfErr result (MayAsk (audit_fault (state_after N.opening.setting self.new.seat.seen) session)) }
        ensures barred { (f : AskFault) → audit_fault (state_after N.opening.setting self.new.seat.seen) session ≡ Some f
            → IsErrOf result f }
    {
        self.seat.audit(rt, session)
    }

    /// The names that a review shows, for a session that may `audit` the board.
    pub fn review<W: Wait>(
        &mut self,
        rt: &W,
        session: u32,
        which: Review,
    ) -> Result<Vec<Name>, AskFault>
        ensures setup { setting self.new.setup.value ≡ setting self.old.setup.value }
        ensures kept { (self.new.seat.number ≡ self.old.seat.number) × (self.new.seat.own ≡ self.old.seat.own)
            × (self.new.seat.viewed ≡ self.old.seat.viewed) }
        ensures looked { Looked N.opening self.old.seat.number self.old.seat.own self.old.seat.seen self.new.seat.seen }
        ensures names { IfOk result (λ names. names.items ≡ review_of (state_after N.opening.setting self.new.seat.seen).policy which) }
        ensures asked { OnOk result (review_fault (state_after N.opening.setting self.new.seat.seen) session which ≡ None) }
        ensures fault { IfErr result (MayAsk (review_fault (state_after N.opening.setting self.new.seat.seen) session which)) }
        ensures barred { (f : AskFault) → audit_fault (state_after N.opening.setting self.new.seat.seen) session ≡ Some f
            → IsErrOf result f }
    {
        self.seat.review(rt, session, which)
    }

    /// CheckAccess: false for a session or an object that is not there.
    pub fn check<W: Wait>(
        &mut self,
        rt: &W,
        session: u32,
        operation: Operation,
        object: Object,
    ) -> bool
        ensures setup { setting self.new.setup.value ≡ setting self.old.setup.value }
        ensures kept { (self.new.seat.number ≡ self.old.seat.number) × (self.new.seat.own ≡ self.old.seat.own)
            × (self.new.seat.viewed ≡ self.old.seat.viewed) }
        ensures looked { Looked N.opening self.old.seat.number self.old.seat.own self.old.seat.seen self.new.seat.seen }
        ensures answer { result ≡ check_of (state_after N.opening.setting self.new.seat.seen) session operation object }
    {
        self.seat.check(rt, session, operation, object)
    }

    /// Brings two desks up to the journal.
    pub fn meet<W: Wait>(&mut self, rt: &W, other: &mut Desk<N, R>)
        ensures setup { setting self.new.setup.value ≡ setting self.old.setup.value }
        ensures other_setup { setting other.new.setup.value ≡ setting other.old.setup.value }
        ensures kept { (self.new.seat.number ≡ self.old.seat.number) × (self.new.seat.own ≡ self.old.seat.own)
            × (self.new.seat.viewed ≡ self.old.seat.viewed) }
        ensures other_kept { (other.new.seat.number ≡ other.old.seat.number) × (other.new.seat.own ≡ other.old.seat.own)
            × (other.new.seat.viewed ≡ other.old.seat.viewed) }
        ensures one { self.new.seat.seen ≡ other.new.seat.seen }
        ensures looked { Looked N.opening self.old.seat.number self.old.seat.own self.old.seat.seen self.new.seat.seen }
        ensures other_looked { Looked N.opening other.old.seat.number other.old.seat.own other.old.seat.seen other.new.seat.seen }
    {
        self.seat.meet(rt, &mut other.seat);
    }
}

impl<N: Naming, L: Drop> DeskOf<N, L> {
    /// Brings the view that the desk keeps up to what is published, and so what the desk has seen: the routes that changed are taken over,
    /// and all pins and frozen lengths where one did. Memory is taken only where there is no view yet. It waits for nobody. After `NoMemory`
    /// there is no view until a later call makes one.
    pub fn refresh(&mut self) -> Result<(), SnapFault>
        ensures setup { setting self.new.setup.value ≡ setting self.old.setup.value }
        ensures kept { (self.new.seat.number ≡ self.old.seat.number) × (self.new.seat.own ≡ self.old.seat.own) }
        ensures grows { IsPrefix self.old.seat.seen self.new.seat.seen }
        ensures legal { Legal N.opening self.new.seat.seen }
        ensures ok { OnOk result (self.new.seat.viewed ≡ Some self.new.seat.seen) }
        ensures no_memory { IsErrOf result SnapFault.NoMemory → self.new.seat.viewed ≡ None }
        ensures closed { IsErrOf result SnapFault.Closed → self.new.seat ≡ self.old.seat }
    {
        self.seat.refresh()
    }

    /// The view as it was brought up last, if there is one: the plan, its pins and freezes, and the version.
    pub fn view(&self) -> Option<&View>
        ensures { MatchOption result (self.now.seat.viewed ≡ None)
            (λ v. MatchOption self.now.seat.viewed ⊥ (λ es. v.now ≡ view_of (state_after N.opening.setting es))) }
    {
        self.seat.view()
    }

    /// A copy of the plan that is published, with its pins and freezes. The routes are shared. It waits for nobody.
    pub fn snapshot(&mut self) -> Result<View, SnapFault>
        ensures setup { setting self.new.setup.value ≡ setting self.old.setup.value }
        ensures kept { (self.new.seat.number ≡ self.old.seat.number) × (self.new.seat.own ≡ self.old.seat.own) }
        ensures grows { IsPrefix self.old.seat.seen self.new.seat.seen }
        ensures legal { Legal N.opening self.new.seat.seen }
        ensures view { IfOk result (λ v. v ≡ view_of (state_after N.opening.setting self.new.seat.seen)) }
        ensures viewed { OnOk result (self.new.seat.viewed ≡ Some self.new.seat.seen) }
        ensures closed { IsErrOf result SnapFault.Closed → self.new.seat ≡ self.old.seat }
    {
        self.seat.snapshot()
    }

    /// A law: the entries of which the view tells are the first of those that the desk has seen, and a legal history. It does nothing.
    pub fn view_is_seen(&self)
        ensures { MatchOption self.now.seat.viewed (Unit {0}) (λ es. Legal N.opening es × IsPrefix es self.now.seat.seen) }
    {
        self.seat.view_is_seen();
    }

    /// The desk's next turn.
    pub fn turn(&self) -> u32
        ensures { result ≡ self.now.seat.own + 1 }
    {
        self.seat.turn()
    }

    /// What the board was opened with.
    pub fn setup(&self) -> &Setup
        ensures { setting result.now ≡ setting self.now.setup.value }
    {
        &self.setup
    }
}
