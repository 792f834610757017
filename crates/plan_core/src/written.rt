//! New routes, written from their drafts in memory that is at hand.
ghost use Rattle.std.specs.Prelude.{◌≡◌, ◌≤◌, ◌∷◌, ◌++◌, [], length, IfOk};
ghost use Rattle.plan_core.specs.Drafts.{AreFrontsWithin, drafted, drafts_of};
ghost use Rattle.plan_core.specs.Plan.{AreChanges, changes_of, route_at};

use crate::draft::{Draft, Drafts};
use crate::plan::Plan;
use crate::route::Route;
use std::alloc::{AllocError, Global};
use std::sync::Arc;

/// Vehicles with their new routes.
type Changes = Vec<(u32, Arc<Route>)>;

/// Room for more than four times as many customers as are needed, and four times this many more, is given up.
const SPARE: usize = 8;

impl Drafts {
    /// The new routes, in the memory of a list that the caller gives up, and of the routes in it that nobody else has: more memory is
    /// taken only where that is too small, or some of it given back where it is far too large. There must be one or two drafts, for
    /// different vehicles of the plan.
    #[inline(always)]
    pub fn routes_in(
        &self,
        room: Vec<(u32, Arc<Route>)>,
        alloc: Global,
        plan: &Plan,
    ) -> Result<Vec<(u32, Arc<Route>)>, AllocError>
        requires changes { AreChanges (length plan.now.routes) (drafts_of plan.now.routes self.now) }
        requires fronts { AreFrontsWithin plan.now.routes self.now }
        ensures { IfOk result (λ changes. changes_of changes.items ≡ drafts_of plan.now.routes self.now) }
    {
        let mut room = room;
        let drafts = self.as_slice();
        let one = &drafts[0];
        let first = written(one, &mut room, alloc, plan)?;
        if drafts.len() == 1 {
            return one_change(room, one.vehicle(), first);
        }
        let other = &drafts[1];
        let second = written(other, &mut room, alloc, plan)?;
        two_changes(room, one.vehicle(), first, other.vehicle(), second)
    }
}

/// The new route of a draft.
#[inline(always)]
fn written(
    draft: &Draft,
    room: &mut Changes,
    alloc: Global,
    plan: &Plan,
) -> Result<Arc<Route>, AllocError>
    requires low { 1 ≤ draft.now.vehicle }
    requires high { draft.now.vehicle ≤ length plan.now.routes }
    requires front { draft.now.kept ≤ length (route_at plan.now.routes draft.now.vehicle) }
    ensures { IfOk result (λ route. route.value ≡ drafted plan.now.routes draft.now) }
{
    let route = plan.route(draft.vehicle()).customers();
    joined(room, alloc, &route[..draft.kept()], draft.rest())
}

/// A route of two parts: in the memory of a route of the list, where nobody else has that route, and else in new memory, which is taken at
/// once.
#[inline(always)]
fn joined(
    room: &mut Changes,
    alloc: Global,
    front: &[u32],
    rest: &[u32],
) -> Result<Arc<Route>, AllocError>
    ensures { IfOk result (λ route. route.value ≡ front.now ++ rest.now) }
{
    let count = front.len() + rest.len();
    if let Some((_, mut owner)) = room.pop() {
        if let Some(route) = Arc::get_mut(&mut owner) {
            if is_near(route.capacity(), count) {
                route.refill(front, rest)?;
                return Ok(owner);
            }
        }
    }
    let mut route = Route::new(Vec::with_capacity(alloc, count)?);
    route.refill(front, rest)?;
    let made = Arc::new(alloc, route)?;
    Ok(made)
}

/// Whether a route with room for `room` customers may be given `count`.
#[inline(always)]
fn is_near(room: usize, count: usize) -> bool {
    (room / 4).saturating_sub(SPARE) <= count
}

/// New routes for one vehicle, in the memory of another list.
#[inline(always)]
fn one_change(room: Changes, vehicle: u32, route: Arc<Route>) -> Result<Changes, AllocError>
    ensures { IfOk result (λ changes. changes_of changes.items ≡ (vehicle, route.value) ∷ []) }
{
    let mut changes = room;
    // Nearly always it is empty by now, and then nothing is called.
    if !changes.is_empty() {
        changes.clear();
    }
    changes.reserve(1)?;
    changes.push_reserved((vehicle, route));
    Ok(changes)
}

/// New routes for two vehicles, in the memory of another list.
#[inline(always)]
fn two_changes(
    room: Changes,
    vehicle: u32,
    route: Arc<Route>,
    other: u32,
    other_route: Arc<Route>,
) -> Result<Changes, AllocError>
    ensures { IfOk result (λ changes. changes_of changes.items ≡ (vehicle, route.value) ∷ (other, other_route.value) ∷ []) }
{
    let mut changes = room;
    if !changes.is_empty() {
        changes.clear();
    }
    changes.reserve(2)?;
    changes.push_reserved((vehicle, route));
    changes.push_reserved((other, other_route));
    Ok(changes)
}
