//! What a judged call makes different, for who keeps the routes, the pins and the freezes: new routes in place of the places of customers.
ghost use Rattle.std.specs.Prelude.{◌≡◌, ◌≤◌, ◌++◌, length, slice_get, option_to_list, IfOk};
ghost use Rattle.dimension_core.specs.Setting.{Setting};
ghost use Rattle.plan_core.specs.Plan.{AreSizes, changes_of};
ghost use Rattle.board_rules.specs.Good.{IsGood};
ghost use Rattle.board_rules.specs.State.{BoardState};
ghost use Rattle.board_state.specs.Held.{Holds};
ghost use Rattle.board_state.specs.Changes.{WillHold, IsSettleable, plan_after};
ghost use Rattle.board_state.specs.Deltas.{changed_routes, changed_pins, changed_fronts, released};
ghost use Rattle.board_state.specs.Differences.{IsDifference};

use crate::change::{Change, Judged, PinChange};
use board_rules::customers_have_one_spot;
use move_core::{
    fronts_by_first_change, moves_are_possible, moves_between_carry_over, moves_inside_rearrange,
    moves_keep_plans, moves_keep_the_untouched, moves_name_vehicles,
};
use pin_core::pins_after_commits;
use plan_core::{Route, Touch, customers_stand_by_route, routes_replaced};
use std::alloc::{AllocError, Global};
use std::sync::Arc;

/// A vehicle with its new route, if there is one.
type NewRoute = Option<(u32, Arc<Route>)>;

/// What one call changes of the plan, the pins and the freezes, and the version afterwards. Customers and vehicles count from 1.
#[derive(Drop)]
pub struct Difference {
    /// The first vehicle whose route changes, with its new route, which is shared with the call.
    pub first: Option<(u32, Arc<Route>)>,
    /// The second one.
    pub second: Option<(u32, Arc<Route>)>,
    /// Each customer whose pin differs, with the vehicle to which it is pinned, or none.
    pub pins: Vec<(u32, Option<u32>)>,
    /// The vehicle whose frozen length differs, with that length in stops.
    pub front: Option<(u32, u32)>,
    /// How many commits there are afterwards.
    pub version: u32,
}

impl Judged {
    /// What the call changes of the plan, the pins and the freezes, and the version afterwards. No route is walked or copied, and memory is
    /// taken only where a pin differs.
    pub fn difference(&self) -> Result<Difference, AllocError>
        ensures { (s : Setting) (state next : BoardState) → Holds s self.now.of state → IsGood s state
            → WillHold s self.now.of self.now.change next → IfOk result (IsDifference s state next) }
    {
        customers_have_one_spot();
        customers_stand_by_route();
        routes_replaced();
        moves_are_possible();
        moves_name_vehicles();
        moves_keep_plans();
        moves_keep_the_untouched();
        moves_inside_rearrange();
        moves_between_carry_over();
        fronts_by_first_change();
        pins_after_commits();
        let (first, second) = self.routes()?;
        Ok(Difference {
            first,
            second,
            pins: self.pins()?,
            front: self.front(),
            version: self.version_after(),
        })
    }

    /// The new routes of the change, shared.
    fn routes(&self) -> Result<(NewRoute, NewRoute), AllocError>
        ensures routes { IfOk result (λ r. changes_of (option_to_list r.0 ++ option_to_list r.1) ≡ changed_routes self.now.change) }
        ensures sizes { AreSizes self.now.of.plan }
    {
        match &self.change {
            Change::Replace(commit) => both(&commit.new.changes),
            Change::Nothing | Change::Pins(_) | Change::Command(..) => Ok((None, None)),
        }
    }

    /// The customers whose pin differs.
    pub(crate) fn pins(&self) -> Result<Vec<(u32, Option<u32>)>, AllocError>
        ensures { IfOk result (λ pins. pins.items ≡ changed_pins self.now.change) }
    {
        match &self.change {
            Change::Replace(commit) => released(self.alloc, &commit.new.touched, &commit.new.freed),
            Change::Pins(PinChange::Pin(customer, vehicle)) => {
                Ok(vec![in self.alloc; (*customer, Some(*vehicle))]?)
            }
            Change::Pins(PinChange::Unpin(customer)) => {
                Ok(vec![in self.alloc; (*customer, None)]?)
            }
            Change::Nothing | Change::Pins(PinChange::Front(..)) | Change::Command(..) => {
                Ok(Vec::new(self.alloc))
            }
        }
    }

    /// The vehicle whose frozen length differs, with that length, if there is one.
    pub(crate) fn front(&self) -> Option<(u32, u32)>
        ensures { option_to_list result ≡ changed_fronts self.now.change }
    {
        match &self.change {
            Change::Pins(PinChange::Front(vehicle, frozen)) => Some((*vehicle, *frozen)),
            Change::Nothing
            | Change::Replace(_)
            | Change::Pins(PinChange::Pin(..) | PinChange::Unpin(_))
            | Change::Command(..) => None,
        }
    }

    /// How many commits there are once the change is in place.
    pub(crate) fn version_after(&self) -> u32
        ensures value { result ≡ (plan_after self.now.of.plan self.now.change).version }
        ensures ready { IsSettleable self.now.of self.now.change }
    {
        match &self.change {
            Change::Replace(_) => self.version + 1,
            Change::Nothing | Change::Pins(_) | Change::Command(..) => self.version,
        }
    }
}

/// One or two new routes, or none, each shared.
fn both(changes: &[(u32, Arc<Route>)]) -> Result<(NewRoute, NewRoute), AllocError>
    requires { length changes.now ≤ 2 }
    ensures { IfOk result (λ r. changes_of (option_to_list r.0 ++ option_to_list r.1) ≡ changes_of changes.now) }
{
    Ok((shared(changes, 0)?, shared(changes, 1)?))
}

/// The new route at a place, counted from 0, shared, if there is one.
fn shared(changes: &[(u32, Arc<Route>)], at: usize) -> Result<NewRoute, AllocError>
    ensures { IfOk result (λ r. changes_of (option_to_list r) ≡ changes_of (option_to_list (slice_get changes.now at))) }
{
    match changes.get(at) {
        Some((vehicle, route)) => {
            let route = Arc::try_clone(route)?;
            Ok(Some((*vehicle, route)))
        }
        None => Ok(None),
    }
}

/// The touched customers that are marked: their pin is gone.
fn released(
    alloc: Global,
    touched: &[Touch],
    freed: &[bool],
) -> Result<Vec<(u32, Option<u32>)>, AllocError>
    requires { length freed.now ≤ length touched.now }
    ensures { IfOk result (λ pins. pins.items ≡ released touched.now freed.now) }
{
    let mut pins = Vec::new(alloc);
    for k in 0..freed.len() {
        let mark = freed[k];
        if mark {
            pins.push((touched[k].customer, None))?;
        }
    }
    Ok(pins)
}
