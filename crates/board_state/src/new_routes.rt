//! The new routes of a judged call.
ghost use Rattle.std.specs.Prelude.{◌≡◌, IfOk};
ghost use Rattle.dimension_core.specs.Setting.{Setting};
ghost use Rattle.plan_core.specs.Plan.{AreSizes, changes_of};
ghost use Rattle.board_rules.specs.Delta.{AreRoutesOf};
ghost use Rattle.board_rules.specs.State.{BoardState};
ghost use Rattle.board_state.specs.Held.{Holds};
ghost use Rattle.board_state.specs.Changes.{WillHold, IsSettleable};
ghost use Rattle.board_state.specs.Deltas.{changed_routes};

use crate::change::{Change, Judged};
use plan_core::Route;
use std::alloc::{AllocError, Global};
use std::sync::Arc;

impl Judged {
    /// The new routes of the vehicles whose routes the call changes, shared with the call: one or two where it is a commit, and none for
    /// every other call. No route is walked or copied.
    pub fn new_routes(&self) -> Result<Vec<(u32, Arc<Route>)>, AllocError>
        ensures { (s : Setting) (state next : BoardState) → Holds s self.now.of state → WillHold s self.now.of self.now.change next
            → IfOk result (λ routes. AreRoutesOf state next (changes_of routes.items)) }
    {
        self.shared_routes()
    }

    /// The new routes of the change.
    fn shared_routes(&self) -> Result<Vec<(u32, Arc<Route>)>, AllocError>
        ensures routes { IfOk result (λ routes. changes_of routes.items ≡ changed_routes self.now.change) }
        ensures ready { IsSettleable self.now.of self.now.change }
        ensures sizes { AreSizes self.now.of.plan }
    {
        match &self.change {
            Change::Replace(commit) => shared(self.alloc, &commit.new.changes),
            Change::Nothing | Change::Pins(_) | Change::Command(..) => Ok(Vec::new(self.alloc)),
        }
    }
}

/// The same new routes once more, each shared.
fn shared(
    alloc: Global,
    changes: &[(u32, Arc<Route>)],
) -> Result<Vec<(u32, Arc<Route>)>, AllocError>
    ensures { IfOk result (λ again. changes_of again.items ≡ changes_of changes.now) }
{
    let mut again = Vec::with_capacity(alloc, changes.len())?;
    for k in 0..changes.len() {
        let (vehicle, route) = &changes[k];
        let route = Arc::try_clone(route)?;
        again.push((*vehicle, route))?;
    }
    Ok(again)
}
