//! Questions of a session, which change nothing.
ghost use Rattle.std.specs.Prelude.{◌≡◌, ◌↔◌, Some, None, IfOk, OnOk, IfErr, IsErrOf};
ghost use Rattle.std.specs.Result.{result_err};
ghost use Rattle.dimension_core.specs.Setting.{Setting};
ghost use Rattle.dimension_core.specs.Setup.{setting};
ghost use Rattle.board_rules.specs.declared.reply.AskFault.{AskFault};
ghost use Rattle.board_rules.specs.History.{state_after};
ghost use Rattle.board_rules.specs.Listing.{IsListing};
ghost use Rattle.board_rules.specs.Questions.{MayAsk, list_fault, audit_fault, review_fault, review_of};
ghost use Rattle.board_core.specs.Kept.{IsKept};

use crate::body::Core;
use crate::listing::rows;
use crate::reviews::names;
use board_journal::Journal;
use board_rules::{AskFault, Review, Row};
use dimension_core::Setup;
use rbac_core::{Object, Operation};
use separation_core::Name;

impl Core {
    /// The rows of the whole plan that the session may read: by vehicle and place, and then the unassigned customers by number, with `view`
    /// on the customer and, where it is placed, on its vehicle. A row of a placed customer has the early value of each dimension. The setup
    /// is the one with which the core was opened. Faults, in order: `NoSession`, `NoMemory`.
    ///
    /// It takes time in proportion to the vehicles and the customers, and memory for the rows and a mark for each customer.
    #[tactic(auto, unfolding(board_rules::specs::Questions::list_fault))]
    pub fn list(&self, setup: &Setup, session: u32) -> Result<Vec<Row>, AskFault>
        requires { IsKept (setting setup.now) self.now }
        ensures rows { IfOk result (λ rows. IsListing (setting setup.now)
            (state_after (setting setup.now) self.now.journal) session rows.items) }
        ensures asked { OnOk result (list_fault (state_after (setting setup.now) self.now.journal) session ≡ None) }
        ensures fault { IfErr result (MayAsk (list_fault (state_after (setting setup.now) self.now.journal) session)) }
        ensures no_session { IsErrOf result AskFault.NoSession
            ↔ (list_fault (state_after (setting setup.now) self.now.journal) session ≡ Some AskFault.NoSession) }
    {
        if !self.state.policy().is_session(session) {
            return Err(AskFault::NoSession);
        }
        match rows(*self.journal.allocator(), setup, &self.state, session) {
            Ok(rows) => Ok(rows),
            Err(_) => Err(AskFault::NoMemory),
        }
    }

    /// The journal, lent to a session that may `audit` the board. Faults, in order: `NoSession`, `NoAccess`. It takes no memory.
    pub fn audit(&self, session: u32) -> Result<&Journal, AskFault>
        ensures entries { IfOk result (λ journal. journal.now.entries ≡ self.now.journal) }
        ensures asked { (s : Setting) → IsKept s self.now → result_err result ≡ audit_fault (state_after s self.now.journal) session }
    {
        match self.audit_fault(session) {
            Some(fault) => Err(fault),
            None => Ok(&self.journal),
        }
    }

    /// Why the session may not audit the board.
    #[tactic(auto, unfolding(board_rules::specs::Questions::audit_fault))]
    fn audit_fault(&self, session: u32) -> Option<AskFault>
        ensures { (s : Setting) → IsKept s self.now → result ≡ audit_fault (state_after s self.now.journal) session }
    {
        if !self.state.policy().is_session(session) {
            return Some(AskFault::NoSession);
        }
        if !self.state.check(session, Operation::Audit, Object::Board) {
            return Some(AskFault::NoAccess);
        }
        None
    }

    /// The names that a review shows, for a session that may `audit` the board. Faults, in order: `NoSession`, `NoAccess`, then `NoRole`,
    /// `NoUser` or `NotThere` where there is no such role, user or session to review, `NoMemory`.
    #[tactic(auto, unfolding(board_rules::specs::Questions::review_fault))]
    pub fn review(&self, session: u32, which: Review) -> Result<Vec<Name>, AskFault>
        ensures names { (s : Setting) → IsKept s self.now
            → IfOk result (λ names. names.items ≡ review_of (state_after s self.now.journal).policy which) }
        ensures asked { (s : Setting) → IsKept s self.now
            → OnOk result (review_fault (state_after s self.now.journal) session which ≡ None) }
        ensures fault { (s : Setting) → IsKept s self.now
            → IfErr result (MayAsk (review_fault (state_after s self.now.journal) session which)) }
        ensures barred { (s : Setting) (f : AskFault) → IsKept s self.now → audit_fault (state_after s self.now.journal) session ≡ Some f
            → IsErrOf result f }
    {
        if let Some(fault) = self.audit_fault(session) {
            return Err(fault);
        }
        names(self.state.policy(), which)
    }
}
