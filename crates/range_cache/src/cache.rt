ghost use Rattle.std.specs.Prelude.{◌≡◌, ℕ, ◌+◌, ◌*◌, ◌-◌, ◌<◌, ◌≤◌, List, [], length, take, replicate, All, IfOk, IfErr, OnOk};
ghost use Rattle.callback_store.specs.Meter.{Asks, AsksJust, AsksAtMost};
ghost use Rattle.dimension_core.specs.Cumuls.{IsEarly, table_of};
ghost use Rattle.dimension_core.specs.Feasible.{FitsAll, IsFeasible};
ghost use Rattle.dimension_core.specs.NewRoutes.{Changes, AllFit, AllKnown};
ghost use Rattle.dimension_core.specs.Setting.{Setting, dimension_at};
ghost use Rattle.dimension_core.specs.Setup.{setting};
ghost use Rattle.plan_core.specs.Cost.{route_asks, asks_of};
ghost use Rattle.plan_core.specs.Drafts.{DoFrontsStay, drafted, routes_by};
ghost use Rattle.plan_core.specs.Plan.{route_at, with_routes};
ghost use Rattle.range_cache.specs.Asks.{judge_asks, walk_asks, fault_asks, AsksToFault};
ghost use Rattle.range_cache.specs.Cache.{IsRowOf, IsCacheOf, HasEarly};
ghost use Rattle.range_cache.specs.Parts.{IsFreshOf, AreFreshOf};
ghost use Rattle.range_cache.specs.Pending.{AreNewRows, IsJudgeFault, with_rows};
ghost use Rattle.range_cache.specs.Row.{IsRowFault, AsksToRowFault, row_asks};

use crate::fault::JudgeFault;
use crate::fresh::Fresh;
use crate::pending::{Pending, Room};
use crate::row::Row;
use callback_store::Meter;
use dimension_core::{Setup, spans_go_on};
use limits::MOST_CUSTOMERS;
use plan_core::{NewRoute, Plan, common_front, fronts_are_common};
use std::alloc::{AllocError, Global};
use std::marker::Model;
use std::mem::swap;

/// For each vehicle, in each dimension, the range of the cumuls that it may have at each customer of its route.
///
/// A cache belongs to a setup and to the routes of a plan, and its callers must pass it these. It keeps 16 bytes for each placed customer
/// and dimension. Each vehicle's row has room for at most four times its ranges, and 35 more.
#[derive(Drop)]
pub struct Cache {
    rows: Vec<Row>,
}

impl Model for Cache {
    ghost use Rattle.range_cache.specs.Cache.{CacheState};

    ghost Value = { CacheState };

    ghost view = { λ a. record { rows = a.rows.items } };
}

impl Cache {
    /// The cache of a plan of empty routes.
    pub fn new(alloc: Global, setup: &Setup) -> Result<Cache, AllocError>
        ensures { IfOk result (IsCacheOf (setting setup.now) (replicate (setting setup.now).vehicles [])) }
    {
        let mut rows = Vec::with_capacity(alloc, setup.vehicles() as usize)?;
        for _ in 0..setup.vehicles() {
            rows.push(Row::empty(alloc))?;
        }
        Ok(Cache { rows })
    }

    /// The cache of a plan that is in bounds, and has the setup's numbers of customers and vehicles.
    ///
    /// It asks the callback of each dimension once for each placed customer and once for each route that is not empty; fewer times where
    /// memory runs out.
    pub fn of(
        alloc: Global,
        setup: &Setup,
        plan: &Plan,
        meter: &mut Meter,
    ) -> Result<Cache, AllocError>
        requires customers { plan.now.customers ≡ (setting setup.now).customers }
        requires vehicles { length plan.now.routes ≡ (setting setup.now).vehicles }
        requires feasible { IsFeasible (setting setup.now) plan.now.routes }
        ensures cache { IfOk result (IsCacheOf (setting setup.now) plan.now.routes) }
        ensures asks { AsksAtMost meter.old meter.new (length (setting setup.now).dimensions * asks_of plan.now.routes) }
        ensures whole { OnOk result (AsksJust meter.old meter.new (length (setting setup.now).dimensions * asks_of plan.now.routes)) }
    {
        let mut rows = Vec::with_capacity(alloc, setup.vehicles() as usize)?;
        for before in 0..setup.vehicles() {
            rows.push(first_row(alloc, setup, plan, before + 1, meter)?)?;
        }
        Ok(Cache { rows })
    }

    /// Judges new routes of some vehicles of the plan whose cache this is, in their order: `Bound` names the first vehicle whose new route
    /// is out of bounds, and the first dimension in which it is. The answer is ready to be taken. The new routes must be of vehicles and
    /// customers of the setup, with at most 1,000 customers each, and each draft keeps at most the customers that the old route has.
    ///
    /// Each dimension of a new route is walked from the end of the longest common prefix of the old and the new route on, and no other
    /// vehicle's route is looked at. It asks the callback of each dimension once for each customer after the common prefix and once for the
    /// return, and not at all for an empty route. Where a new route is out of bounds it has asked for all that comes before that dimension of
    /// that route, and in it up to the first stop at which no cumul is left. It also stops where memory runs out.
    ///
    /// Of what the drafts keep, only the last customer and its ranges are read before all new routes are in bounds, and nothing is copied.
    pub fn judge<R: NewRoute>(
        &self,
        setup: &Setup,
        plan: &Plan,
        new_routes: &[R],
        meter: &mut Meter,
    ) -> Result<Pending, JudgeFault>
        requires cache { IsCacheOf (setting setup.now) plan.now.routes self.now }
        requires known { AllKnown (setting setup.now) (routes_by R.draft plan.now.routes new_routes.now) }
        requires short { All (λ r. length (drafted plan.now.routes (R.draft r)) ≤ MOST_CUSTOMERS) new_routes.now }
        requires fronts { DoFrontsStay R.draft plan.now.routes new_routes.now }
        ensures of { IfOk result (λ pending. pending.of ≡ self.now) }
        ensures fits { IfOk result (λ pending. AllFit (setting setup.now) (routes_by R.draft plan.now.routes new_routes.now)) }
        ensures rows { IfOk result
            (λ pending. AreNewRows (setting setup.now) (routes_by R.draft plan.now.routes new_routes.now) pending.rows) }
        ensures fault { IfErr result (IsJudgeFault (setting setup.now) (routes_by R.draft plan.now.routes new_routes.now)) }
        ensures asks { AsksAtMost meter.old meter.new
            (judge_asks (length (setting setup.now).dimensions) plan.now.routes (routes_by R.draft plan.now.routes new_routes.now)) }
        ensures whole { OnOk result (AsksJust meter.old meter.new
            (judge_asks (length (setting setup.now).dimensions) plan.now.routes (routes_by R.draft plan.now.routes new_routes.now))) }
        ensures least { IfErr result (λ f. Asks meter.old meter.new
            (fault_asks (length (setting setup.now).dimensions) plan.now.routes (routes_by R.draft plan.now.routes new_routes.now) f)
            (judge_asks (length (setting setup.now).dimensions) plan.now.routes (routes_by R.draft plan.now.routes new_routes.now))) }
        ensures missed { IfErr result (AsksToFault (setting setup.now) plan.now.routes (routes_by R.draft plan.now.routes new_routes.now)
            meter.old meter.new) }
    {
        let alloc = *self.rows.allocator();
        self.judge_in(&mut Room::new(alloc), setup, plan, new_routes, meter)
    }

    /// What `judge` answers, with the new ranges in the memory of earlier ones: more memory is taken only where that is too small. Where
    /// a new route is out of bounds, the memory stays in the room, and else that of a row which the new routes do not need.
    #[inline(always)]
    pub fn judge_in<R: NewRoute>(
        &self,
        room: &mut Room,
        setup: &Setup,
        plan: &Plan,
        new_routes: &[R],
        meter: &mut Meter,
    ) -> Result<Pending, JudgeFault>
        requires cache { IsCacheOf (setting setup.now) plan.now.routes self.now }
        requires known { AllKnown (setting setup.now) (routes_by R.draft plan.now.routes new_routes.now) }
        requires short { All (λ r. length (drafted plan.now.routes (R.draft r)) ≤ MOST_CUSTOMERS) new_routes.now }
        requires fronts { DoFrontsStay R.draft plan.now.routes new_routes.now }
        ensures of { IfOk result (λ pending. pending.of ≡ self.now) }
        ensures fits { IfOk result (λ pending. AllFit (setting setup.now) (routes_by R.draft plan.now.routes new_routes.now)) }
        ensures rows { IfOk result
            (λ pending. AreNewRows (setting setup.now) (routes_by R.draft plan.now.routes new_routes.now) pending.rows) }
        ensures fault { IfErr result (IsJudgeFault (setting setup.now) (routes_by R.draft plan.now.routes new_routes.now)) }
        ensures asks { AsksAtMost meter.old meter.new
            (judge_asks (length (setting setup.now).dimensions) plan.now.routes (routes_by R.draft plan.now.routes new_routes.now)) }
        ensures whole { OnOk result (AsksJust meter.old meter.new
            (judge_asks (length (setting setup.now).dimensions) plan.now.routes (routes_by R.draft plan.now.routes new_routes.now))) }
        ensures least { IfErr result (λ f. Asks meter.old meter.new
            (fault_asks (length (setting setup.now).dimensions) plan.now.routes (routes_by R.draft plan.now.routes new_routes.now) f)
            (judge_asks (length (setting setup.now).dimensions) plan.now.routes (routes_by R.draft plan.now.routes new_routes.now))) }
        ensures missed { IfErr result (AsksToFault (setting setup.now) plan.now.routes (routes_by R.draft plan.now.routes new_routes.now)
            meter.old meter.new) }
    {
        self.walk_drafts(room, setup, plan, new_routes, meter)?;
        room.hold(new_routes.len())?;
        for k in 0..new_routes.len() {
            let vehicle = new_routes[k].named();
            let fresh = &room.fresh[k];
            let (named, row) = &mut room.rows[k];
            *named = vehicle;
            let old = &self.rows[vehicle as usize - 1];
            old.join(row, setup, fresh.front, &fresh.row)?;
        }
        Ok(Pending::new(self, room.take_rows(new_routes.len())))
    }

    /// Walks new routes in their order, up to the first that is out of bounds.
    #[inline(always)]
    fn walk_drafts<R: NewRoute>(
        &self,
        room: &mut Room,
        setup: &Setup,
        plan: &Plan,
        new_routes: &[R],
        meter: &mut Meter,
    ) -> Result<(), JudgeFault>
        requires cache { IsCacheOf (setting setup.now) plan.now.routes self.now }
        requires known { AllKnown (setting setup.now) (routes_by R.draft plan.now.routes new_routes.now) }
        requires short { All (λ r. length (drafted plan.now.routes (R.draft r)) ≤ MOST_CUSTOMERS) new_routes.now }
        requires fronts { DoFrontsStay R.draft plan.now.routes new_routes.now }
        ensures fits { OnOk result (AllFit (setting setup.now) (routes_by R.draft plan.now.routes new_routes.now)) }
        ensures fresh { OnOk result
            (AreFreshOf R.draft (setting setup.now) plan.now.routes new_routes.now room.new.fresh.items (length new_routes.now)) }
        ensures held { OnOk result (length new_routes.now ≤ length room.new.fresh.items) }
        ensures fault { IfErr result (IsJudgeFault (setting setup.now) (routes_by R.draft plan.now.routes new_routes.now)) }
        ensures asks { AsksAtMost meter.old meter.new
            (judge_asks (length (setting setup.now).dimensions) plan.now.routes (routes_by R.draft plan.now.routes new_routes.now)) }
        ensures whole { OnOk result (AsksJust meter.old meter.new
            (judge_asks (length (setting setup.now).dimensions) plan.now.routes (routes_by R.draft plan.now.routes new_routes.now))) }
        ensures least { IfErr result (λ f. Asks meter.old meter.new
            (fault_asks (length (setting setup.now).dimensions) plan.now.routes (routes_by R.draft plan.now.routes new_routes.now) f)
            (judge_asks (length (setting setup.now).dimensions) plan.now.routes (routes_by R.draft plan.now.routes new_routes.now))) }
        ensures missed { IfErr result (AsksToFault (setting setup.now) plan.now.routes (routes_by R.draft plan.now.routes new_routes.now)
            meter.old meter.new) }
    {
        room.hold_fresh(new_routes.len())?;
        for k in 0..new_routes.len() {
            let fresh = &mut room.fresh[k];
            self.walk_draft(fresh, setup, plan, &new_routes[k], meter)?;
        }
        Ok(())
    }

    /// Walks a new route from the end of the longest common prefix of the old and the new route on, which is looked for only after what the
    /// draft keeps.
    #[inline(always)]
    fn walk_draft<R: NewRoute>(
        &self,
        fresh: &mut Fresh,
        setup: &Setup,
        plan: &Plan,
        new: &R,
        meter: &mut Meter,
    ) -> Result<(), JudgeFault>
        requires cache { IsCacheOf (setting setup.now) plan.now.routes self.now }
        requires low { 1 ≤ (R.draft new.now).vehicle }
        requires high { (R.draft new.now).vehicle ≤ (setting setup.now).vehicles }
        requires known { All (λ c. c ≤ (setting setup.now).customers) (drafted plan.now.routes (R.draft new.now)) }
        requires short { length (drafted plan.now.routes (R.draft new.now)) ≤ MOST_CUSTOMERS }
        requires front { (R.draft new.now).kept ≤ length (route_at plan.now.routes (R.draft new.now).vehicle) }
        ensures fits { OnOk result (FitsAll (setting setup.now) (R.draft new.now).vehicle (drafted plan.now.routes (R.draft new.now))) }
        ensures fresh { OnOk result (IsFreshOf (setting setup.now) plan.now.routes (R.draft new.now) fresh.new) }
        ensures fault { IfErr result
            (IsRowFault (setting setup.now) (R.draft new.now).vehicle (drafted plan.now.routes (R.draft new.now))) }
        ensures asks { AsksAtMost meter.old meter.new (length (setting setup.now).dimensions
            * walk_asks (route_at plan.now.routes (R.draft new.now).vehicle) (drafted plan.now.routes (R.draft new.now))) }
        ensures whole { OnOk result (AsksJust meter.old meter.new (length (setting setup.now).dimensions
            * walk_asks (route_at plan.now.routes (R.draft new.now).vehicle) (drafted plan.now.routes (R.draft new.now)))) }
        ensures least { IfErr result (λ f. Asks meter.old meter.new
            (row_asks (walk_asks (route_at plan.now.routes (R.draft new.now).vehicle) (drafted plan.now.routes (R.draft new.now))) f)
            (length (setting setup.now).dimensions
            * walk_asks (route_at plan.now.routes (R.draft new.now).vehicle) (drafted plan.now.routes (R.draft new.now)))) }
        ensures missed { IfErr result (AsksToRowFault (setting setup.now) (route_at plan.now.routes (R.draft new.now).vehicle)
            (R.draft new.now).vehicle (drafted plan.now.routes (R.draft new.now)) meter.old meter.new) }
    {
        fronts_are_common();
        let vehicle = new.named();
        let old = plan.route(vehicle).customers();
        let kept = new.stays();
        let rest = new.follows();
        let more = common_front(&old[kept..], rest);
        fresh.front = kept + more;
        let before = &old[..kept + more];
        let after = &rest[more..];
        let row = &self.rows[vehicle as usize - 1];
        row.walk_on(&mut fresh.row, setup, vehicle, before, after, meter)
    }

    /// Takes what was judged: this is then the cache of the plan with the new routes. It takes no memory, and gives back that of the rows
    /// that were replaced, to be put in the room of the judgement (`Room::refill`). The contract requires that the cache still is, as
    /// contracts see it, the one that judged: nothing was taken since.
    pub fn take(&mut self, pending: Pending) -> Room
        requires { pending.of ≡ self.old }
        ensures rows { self.new ≡ record { rows = with_rows pending.rows self.old.rows } }
        ensures cache { (s : Setting) (routes : List (List ℕ)) (changes : Changes) → IsCacheOf s routes self.old
            → AreNewRows s changes pending.rows → IsCacheOf s (with_routes changes routes) self.new }
    {
        let mut rows = pending.into_rows();
        for k in 0..rows.len() {
            let (vehicle, row) = &mut rows[k];
            swap(&mut self.rows[*vehicle as usize - 1], row);
        }
        Room::of(rows)
    }

    /// The early value of the customer at a place of a vehicle's route in a dimension: the least cumul that it can have there. All three
    /// count from 1, and the cache must be that of routes in which that place is taken.
    pub fn early(&self, dimension: u32, vehicle: u32, place: u32) -> u64
        requires { (s : Setting) × ((routes : List (List ℕ)) × HasEarly s routes self.now dimension vehicle place) }
        ensures { (s : Setting) (routes : List (List ℕ)) → HasEarly s routes self.now dimension vehicle place
            → IsEarly (table_of s.tables (dimension_at s (dimension - 1))) (dimension_at s (dimension - 1)) vehicle
            (take place (route_at routes vehicle)) result }
    {
        spans_go_on();
        self.rows[vehicle as usize - 1].early(dimension as usize - 1, place as usize - 1)
    }
}

/// The row of a vehicle of a plan that is in bounds.
fn first_row(
    alloc: Global,
    setup: &Setup,
    plan: &Plan,
    vehicle: u32,
    meter: &mut Meter,
) -> Result<Row, AllocError>
    requires customers { plan.now.customers ≡ (setting setup.now).customers }
    requires vehicles { length plan.now.routes ≡ (setting setup.now).vehicles }
    requires feasible { IsFeasible (setting setup.now) plan.now.routes }
    requires low { 1 ≤ vehicle }
    requires high { vehicle ≤ (setting setup.now).vehicles }
    ensures row { IfOk result (IsRowOf (setting setup.now) vehicle (route_at plan.now.routes vehicle)) }
    ensures asks { AsksAtMost meter.old meter.new (length (setting setup.now).dimensions * route_asks (route_at plan.now.routes vehicle)) }
    ensures whole { OnOk result (AsksJust meter.old meter.new
        (length (setting setup.now).dimensions * route_asks (route_at plan.now.routes vehicle))) }
{
    let route = plan.route(vehicle).customers();
    let none = Row::empty(alloc);
    let mut row = Row::empty(alloc);
    match none.walk_on(&mut row, setup, vehicle, &[], route, meter) {
        Ok(()) => Ok(row),
        Err(JudgeFault::Bound(_, _)) => unreachable!(),
        Err(JudgeFault::NoMemory) => Err(AllocError),
    }
}
