//! Judged events.
ghost use Rattle.std.specs.Prelude.{IfOk};
ghost use Rattle.dimension_core.specs.Setting.{Setting};
ghost use Rattle.board_rules.specs.Delta.{IsDeltaOf, AreRoutesOf};
ghost use Rattle.board_rules.specs.History.{state_after};
ghost use Rattle.board_rules.specs.Step.{after};
ghost use Rattle.plan_core.specs.Plan.{changes_of};
ghost use Rattle.board_state.specs.Differences.{IsDifference};
ghost use Rattle.board_core.specs.Kept.{IsKept};
ghost use Rattle.board_core.specs.Prepared.{Makes};

use crate::body::Core;
use board_rules::{Call, Delta, legal_histories_leave_good_states};
use board_state::{Difference, Judged};
use plan_core::Route;
use std::alloc::AllocError;
use std::marker::Model;
use std::snapshot::Snapshot;
use std::sync::Arc;

/// A judged event that is not yet in place, with the core for which it was judged.
#[derive(Drop)]
pub struct Prepared {
    pub(crate) of: Snapshot<Core>,
    pub(crate) desk: u32,
    pub(crate) turn: u32,
    pub(crate) call: Call,
    pub(crate) judged: Judged,
}

impl Model for Prepared {
    ghost use Rattle.board_core.specs.Prepared.{PreparedState, IsFitting};

    ghost Value = { PreparedState };

    ghost view = { λ a. record {
      of = a.of.value;
      entry = record { desk = a.desk; turn = a.turn; call = a.call; reply = a.judged.reply };
      judged = a.judged;
    } };

    ghost invariant = { λ a. IsFitting (record
        { of = a.of.value; entry = record { desk = a.desk; turn = a.turn; call = a.call; reply = a.judged.reply }; judged = a.judged }) };
}

impl Prepared {
    /// What the entry changes: each customer that stands elsewhere afterwards, each whose pin differs, each vehicle whose frozen length
    /// differs, and the version. It is built from the judgement: only the routes of the named vehicles are walked, from the first changed
    /// place on, and, where a pin is released, the touched customers.
    pub fn delta(&self) -> Result<Delta, AllocError>
        ensures { (s : Setting) → IsKept s self.now.of → Makes s self.now
            → IfOk result (IsDeltaOf s (state_after s self.now.of.journal) self.now.entry) }
    {
        legal_histories_leave_good_states();
        self.judged.delta()
    }

    /// The same for who keeps the routes: new routes, shared with the judgement, in place of the places of customers. No route is walked or
    /// copied, and memory is taken only where a pin differs.
    pub fn difference(&self) -> Result<Difference, AllocError>
        ensures { (s : Setting) → IsKept s self.now.of → Makes s self.now → IfOk result (IsDifference s (state_after s self.now.of.journal)
            (after (state_after s self.now.of.journal) self.now.entry.call self.now.entry.reply)) }
    {
        legal_histories_leave_good_states();
        self.judged.difference()
    }

    /// The new routes of the vehicles whose routes the entry changes, shared with the judgement: one or two where it is a commit, and none
    /// for every other entry. No route is walked or copied.
    pub fn new_routes(&self) -> Result<Vec<(u32, Arc<Route>)>, AllocError>
        ensures { (s : Setting) → IsKept s self.now.of → Makes s self.now
            → IfOk result (λ routes. AreRoutesOf (state_after s self.now.of.journal)
            (after (state_after s self.now.of.journal) self.now.entry.call self.now.entry.reply) (changes_of routes.items)) }
    {
        self.judged.new_routes()
    }
}
