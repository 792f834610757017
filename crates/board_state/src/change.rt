//! What a judged call changes.
use crate::state::State;
use board_rules::Reply;
use move_core::Move;
use permission_table::Rows;
use plan_core::{Drafts, Route, Touch};
use range_cache::{Pending, Room};
use rbac_core::Command;
use std::alloc::Global;
use std::marker::Model;
use std::snapshot::Snapshot;
use std::sync::Arc;

/// The memory of one proposal's lists and drafts, and of the routes that its commit replaced, kept for those of the next.
#[derive(Drop)]
pub(crate) struct Workspace {
    pub(crate) touched: Vec<Touch>,
    pub(crate) drafts: Drafts,
    /// None while new routes are written: a list that is put back then takes no other's place.
    changes: Option<Vec<(u32, Arc<Route>)>>,
    /// The second route of a move of two vehicles, while moves of one vehicle come.
    spare: Option<(u32, Arc<Route>)>,
    pub(crate) rows: Room,
}

impl Workspace {
    /// A workspace without memory.
    pub(crate) fn new(alloc: Global) -> Workspace {
        Workspace {
            touched: Vec::new(alloc),
            drafts: Drafts::new(alloc),
            changes: None,
            spare: None,
            rows: Room::new(alloc),
        }
    }

    /// Keeps the lists of a move that is denied.
    #[inline(always)]
    pub(crate) fn keep(&mut self, touched: Vec<Touch>, drafts: Drafts) {
        self.touched = touched;
        self.drafts = drafts;
    }

    /// Keeps the routes that a commit replaced: their memory serves the next new ones.
    #[inline(always)]
    pub(crate) fn keep_routes(&mut self, replaced: Vec<(u32, Arc<Route>)>) {
        self.changes = Some(replaced);
    }

    /// Takes out the routes whose memory serves the new ones of a move of one vehicle, or of two. What a move does not need it drops, so
    /// for a move of one the second route stays here, and the next move of two gets it.
    #[inline(always)]
    pub(crate) fn take_routes(&mut self, alloc: Global, two: bool) -> Vec<(u32, Arc<Route>)> {
        let mut changes = self.changes.take().unwrap_or(Vec::new(alloc));
        if !two && changes.len() > 1 {
            self.spare = changes.pop();
        }
        if two && changes.len() < 2 {
            if let Some(route) = self.spare.take() {
                if let Err(failed) = changes.push(route) {
                    self.spare = Some(failed.value);
                }
            }
        }
        changes
    }
}

/// New routes that pass every rule, with the customers that their move touches, and the new ranges.
#[derive(Drop)]
pub struct NewRoutes {
    pub(crate) changes: Vec<(u32, Arc<Route>)>,
    pub(crate) touched: Vec<Touch>,
    /// For each touched customer whether it leaves the vehicle of its pin; empty where none does.
    pub(crate) freed: Vec<bool>,
    pub(crate) pending: Pending,
}

/// New routes that pass every rule, with the move that makes them and the routes that its vehicles had before.
#[derive(Drop)]
pub struct Commit {
    pub(crate) mv: Move,
    pub(crate) new: NewRoutes,
    pub(crate) former: Arc<Route>,
    pub(crate) other: Option<Arc<Route>>,
}

/// What a call on pins or freezes changes.
#[derive(Clone, Copy)]
pub enum PinChange {
    /// The customer is pinned to the vehicle.
    Pin(u32, u32),
    /// The customer is pinned no longer.
    Unpin(u32),
    /// The vehicle has this frozen length.
    Front(u32, u32),
}

/// What a call changes in what is held.
#[derive(Drop)]
pub enum Change {
    /// The call was denied or refused.
    Nothing,
    /// New routes.
    Replace(Commit),
    /// A pin or a frozen length.
    Pins(PinChange),
    /// The policy becomes the one that this command was tried for, and the compiled permissions get these rows.
    Command(Rows, Command),
}

/// A judged call, with what was held when it was judged, and the version at that time.
#[derive(Drop)]
pub struct Judged {
    pub(crate) of: Snapshot<State>,
    pub(crate) alloc: Global,
    pub(crate) version: u32,
    pub(crate) reply: Reply,
    pub(crate) change: Change,
}

impl Model for Judged {
    ghost use Rattle.board_state.specs.Changes.{JudgedState, IsJudged};

    ghost Value = { JudgedState };

    ghost view = { λ a. record { of = a.of.value; reply = a.reply; change = a.change } };

    ghost invariant = { λ a. IsJudged a.of.value a.version a.change };
}
