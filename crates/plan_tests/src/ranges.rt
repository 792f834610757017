ghost use Rattle.std.specs.Prelude.{◌≡◌, ◌+◌, ◌*◌, ◌<◌, ◌≤◌, [], ◌∷◌, length, replicate, slice_index, All, IfErr, IfOk, IfSome, OnOk};
ghost use Rattle.callback_store.specs.Meter.{Asks, AsksAtMost, AsksJust};
ghost use Rattle.dimension_core.specs.NewRoutes.{AllFit, AllKnown};
ghost use Rattle.dimension_core.specs.Setup.{setting};
ghost use Rattle.plan_core.specs.Drafts.{AreFrontsWithin, drafted, drafts_of};
ghost use Rattle.plan_core.specs.Plan.{IsPlan, changes_of, replaced, with_routes};
ghost use Rattle.range_cache.specs.Asks.{AsksToFault, fault_asks, judge_asks};
ghost use Rattle.range_cache.specs.Cache.{IsCacheOf};
ghost use Rattle.range_cache.specs.Pending.{AreNewRows, IsJudgeFault};

use crate::comparing::same;
use crate::meters::compare_meter;
use crate::new_routes::{one_change, one_draft, pair};
use callback_store::{Meter, Registry, Transit, TransitId, Unary};
use dimension_core::{Dimension, Range, Setup, first_out};
use limits::{MOST_CUSTOMERS, MOST_EVENTS};
use plan_core::{Drafts, Plan, Route, plans_are_tested};
use range_cache::{Cache, JudgeFault, Pending, Room};
use std::alloc::{AllocError, Global};
use std::process::Abort;
use std::sync::Arc;
use std::sync::atomic::{AtomicU64, Ordering};

/// A plan with its ranges, the memory of ranges that were replaced, and where more comes from.
struct Held {
    alloc: Global,
    plan: Plan,
    cache: Cache,
    room: Room,
}

// Written by hand: a derived drop is expanded, down to each list, at every place where a value is dropped.
impl Drop for Held {
    fn drop(self) {
        let Held {
            alloc: _,
            plan: _,
            cache: _,
            room: _,
        } = self;
    }
}

/// An empty plan of four customers and two vehicles.
fn empty(rt: &impl Abort, alloc: Global, setup: &Setup) -> Held
    requires customers { (setting setup.now).customers ≡ 4 }
    requires vehicles { (setting setup.now).vehicles ≡ 2 }
    ensures plan { result.plan ≡ record { customers = 4; routes = replicate 2 []; version = 0; stamps = replicate 2 0 } }
    ensures cache { IsCacheOf (setting setup.now) result.plan.routes result.cache }
{
    Held {
        alloc,
        plan: Plan::new(alloc, 4, 2).expect(rt, "memory"),
        cache: Cache::new(alloc, setup).expect(rt, "memory"),
        room: Room::new(alloc),
    }
}

/// Gives a vehicle a new route, which is in bounds, in the ranges and in the plan. New ranges are made in the memory of earlier ones.
fn commit(
    rt: &impl Abort,
    setup: &Setup,
    held: &mut Held,
    vehicle: u32,
    customers: &[u32],
    meter: &mut Meter,
)
    requires cache { IsCacheOf (setting setup.now) held.old.plan.routes held.old.cache }
    requires low { 1 ≤ vehicle }
    requires high { vehicle ≤ (setting setup.now).vehicles }
    requires known { All (λ c. c ≤ (setting setup.now).customers) customers.now }
    requires short { length customers.now ≤ MOST_CUSTOMERS }
    requires plan { IsPlan held.old.plan.customers (with_routes ((vehicle, customers.now) ∷ []) held.old.plan.routes) }
    requires room { held.old.plan.version < MOST_EVENTS }
    ensures cache { IsCacheOf (setting setup.now) held.new.plan.routes held.new.cache }
    ensures plan { held.new.plan ≡ replaced ((vehicle, customers.now) ∷ []) held.old.plan }
{
    let Held {
        alloc,
        plan,
        cache,
        room,
    } = held;
    let changes = one_change(rt, *alloc, vehicle, customers);
    let pending = cache
        .judge_in(room, setup, plan, &changes, meter)
        .expect(rt, "in bounds");
    *room = cache.take(pending);
    plan.replace(changes);
}

/// Whether the early values of a vehicle's route, dimension by dimension, are these.
fn has_earlies(setup: &Setup, cache: &Cache, plan: &Plan, vehicle: u32, wanted: &[u64]) -> bool
    requires cache { IsCacheOf (setting setup.now) plan.now.routes cache.now }
    requires low { 1 ≤ vehicle }
    requires high { vehicle ≤ (setting setup.now).vehicles }
{
    let _sound = setup.vehicles();
    let mut rest = wanted.iter();
    let stops = plan.route(vehicle).len() as u32;
    for dimension in 0..setup.dimensions().len() as u32 {
        for before in 0..stops {
            if rest.next() != Some(&cache.early(dimension + 1, vehicle, before + 1)) {
                return false;
            }
        }
    }
    rest.next().is_none()
}

fn compare_earlies(rt: &impl Abort, setup: &Setup, cache: &Cache, plan: &Plan, wanted: &[u64])
    requires cache { IsCacheOf (setting setup.now) plan.now.routes cache.now }
    requires vehicles { (setting setup.now).vehicles ≡ 2 }
{
    let are_these = has_earlies(setup, cache, plan, 1, wanted);
    same(rt, (wanted, are_these), (wanted, true), "early values");
}

/// What a judgement promises of written routes, in terms of the routes alone.
fn judge_written(
    setup: &Setup,
    cache: &Cache,
    plan: &Plan,
    changes: &[(u32, Arc<Route>)],
    meter: &mut Meter,
) -> Result<Pending, JudgeFault>
    requires cache { IsCacheOf (setting setup.now) plan.now.routes cache.now }
    requires known { AllKnown (setting setup.now) (changes_of changes.now) }
    requires short { All (λ c. length c.1.value ≤ MOST_CUSTOMERS) changes.now }
    ensures of { IfOk result (λ pending. pending.of ≡ cache.now) }
    ensures fits { IfOk result (λ pending. AllFit (setting setup.now) (changes_of changes.now)) }
    ensures rows { IfOk result (λ pending. AreNewRows (setting setup.now) (changes_of changes.now) pending.rows) }
    ensures fault { IfErr result (IsJudgeFault (setting setup.now) (changes_of changes.now)) }
    ensures asks { AsksAtMost meter.old meter.new
        (judge_asks (length (setting setup.now).dimensions) plan.now.routes (changes_of changes.now)) }
    ensures whole { OnOk result (AsksJust meter.old meter.new
        (judge_asks (length (setting setup.now).dimensions) plan.now.routes (changes_of changes.now))) }
    ensures least { IfErr result (λ f. Asks meter.old meter.new
        (fault_asks (length (setting setup.now).dimensions) plan.now.routes (changes_of changes.now) f)
        (judge_asks (length (setting setup.now).dimensions) plan.now.routes (changes_of changes.now))) }
    ensures missed { IfErr result (AsksToFault (setting setup.now) plan.now.routes (changes_of changes.now) meter.old meter.new) }
{
    cache.judge(setup, plan, changes, meter)
}

/// Why drafts are not taken, if they are not.
fn fault_of_drafts(
    setup: &Setup,
    cache: &Cache,
    plan: &Plan,
    drafts: &Drafts,
    meter: &mut Meter,
) -> Option<JudgeFault>
    requires cache { IsCacheOf (setting setup.now) plan.now.routes cache.now }
    requires known { AllKnown (setting setup.now) (drafts_of plan.now.routes drafts.now) }
    requires short { All (λ d. length (drafted plan.now.routes d) ≤ MOST_CUSTOMERS) drafts.now }
    requires fronts { AreFrontsWithin plan.now.routes drafts.now }
{
    cache.judge(setup, plan, drafts.as_slice(), meter).err()
}

/// For four customers and two vehicles: load of at most 10 with the start at 0, and time without bounds but the windows.
fn load_and_time(
    rt: &impl Abort,
    alloc: Global,
    registry: &Registry,
    load: TransitId,
    time: TransitId,
) -> Vec<Dimension> {
    let caps = vec![in alloc; 10u64, 10].expect(rt, "memory");
    let ranges = vec![in alloc; Range { lo: 0, hi: 10 }; 5].expect(rt, "memory");
    let loads = Dimension::new(registry, load, 0, caps, true, ranges).expect(rt, "bounds");
    let caps = vec![in alloc; 1000u64, 1000].expect(rt, "memory");
    let ranges = vec![in alloc;
        Range { lo: 0, hi: 1000 },
        Range { lo: 0, hi: 500 },
        Range { lo: 0, hi: 500 },
        Range { lo: 0, hi: 140 },
        Range { lo: 0, hi: 500 },
    ]
    .expect(rt, "memory");
    let times = Dimension::new(registry, time, 1000, caps, false, ranges).expect(rt, "bounds");
    let mut dimensions = Vec::new(alloc);
    dimensions.push(loads).expect(rt, "memory");
    dimensions.push(times).expect(rt, "memory");
    dimensions
}

/// The cache of a plan that was found in bounds, made anew.
fn made_anew(
    alloc: Global,
    setup: &Setup,
    plan: &Plan,
    meter: &mut Meter,
) -> Result<Option<Cache>, AllocError>
    requires customers { plan.now.customers ≡ (setting setup.now).customers }
    requires vehicles { length plan.now.routes ≡ (setting setup.now).vehicles }
    ensures { IfOk result (λ made. IfSome made (IsCacheOf (setting setup.now) plan.now.routes)) }
{
    for before in 0..setup.vehicles() {
        let route = plan.route(before + 1).customers();
        if let Some(_) = first_out(setup, before + 1, route, meter) {
            return Ok(None);
        }
    }
    Ok(Some(Cache::of(alloc, setup, plan, meter)?))
}

/// One customer after the other, each with at most four asks.
fn inserts(rt: &impl Abort, alloc: Global, setup: &Setup, meter: &mut Meter)
    requires customers { (setting setup.now).customers ≡ 4 }
    requires vehicles { (setting setup.now).vehicles ≡ 2 }
{
    plans_are_tested();
    let mut held = empty(rt, alloc, setup);
    let begun = meter.asks;
    commit(rt, setup, &mut held, 1, &[1], meter);
    let first = meter.asks.wrapping_sub(begun);
    commit(rt, setup, &mut held, 1, &[1, 2], meter);
    let second = meter.asks.wrapping_sub(begun);
    commit(rt, setup, &mut held, 1, &[1, 2, 3], meter);
    let asks = [first, second, meter.asks.wrapping_sub(begun)];
    same(rt, asks, [4, 8, 12], "asks");
    compare_earlies(rt, setup, &held.cache, &held.plan, &[0, 4, 7, 28, 84, 140]);
}

/// The cache of the whole plan, made at once.
fn of_a_plan(rt: &impl Abort, alloc: Global, setup: &Setup, meter: &mut Meter)
    requires customers { (setting setup.now).customers ≡ 4 }
    requires vehicles { (setting setup.now).vehicles ≡ 2 }
{
    plans_are_tested();
    let mut plan = Plan::new(alloc, 4, 2).expect(rt, "memory");
    plan.replace(one_change(rt, alloc, 1, &[1, 2, 3]));
    let begun = meter.asks;
    let made = made_anew(alloc, setup, &plan, meter).expect(rt, "memory");
    same(rt, meter.asks.wrapping_sub(begun), 16, "asks");
    let made = made.expect(rt, "in bounds");
    compare_earlies(rt, setup, &made, &plan, &[0, 4, 7, 28, 84, 140]);
}

/// The travel past the second customer is too long, whether the new route is written or keeps the first customer as a draft.
fn late(rt: &impl Abort, alloc: Global, setup: &Setup, held: &Held, meter: &mut Meter)
    requires customers { (setting setup.now).customers ≡ 4 }
    requires vehicles { (setting setup.now).vehicles ≡ 2 }
    requires cache { IsCacheOf (setting setup.now) held.now.plan.routes held.now.cache }
    requires routes { held.now.plan.routes ≡ (1 ∷ 2 ∷ 3 ∷ []) ∷ [] ∷ [] }
{
    let begun = meter.asks;
    let changes = one_change(rt, alloc, 1, &[1, 3]);
    let written = judge_written(setup, &held.cache, &held.plan, &changes, meter).err();
    let asks = meter.asks.wrapping_sub(begun);
    let drafts = one_draft(rt, alloc, 1, 1, &[3]);
    let drafted = fault_of_drafts(setup, &held.cache, &held.plan, &drafts, meter);
    let found = [(written, asks), (drafted, meter.asks.wrapping_sub(begun))];
    let bound = Some(JudgeFault::Bound(1, 2));
    same(rt, found, [(bound, 3), (bound, 6)], "faults and asks");
}

/// Customers that leave a route: the first and then all may go.
fn removals(rt: &impl Abort, alloc: Global, setup: &Setup, meter: &mut Meter)
    requires customers { (setting setup.now).customers ≡ 4 }
    requires vehicles { (setting setup.now).vehicles ≡ 2 }
{
    plans_are_tested();
    let mut held = empty(rt, alloc, setup);
    commit(rt, setup, &mut held, 1, &[1, 2, 3], meter);
    late(rt, alloc, setup, &held, meter);
    let begun = meter.asks;
    commit(rt, setup, &mut held, 1, &[2, 3], meter);
    let first = meter.asks.wrapping_sub(begun);
    compare_earlies(rt, setup, &held.cache, &held.plan, &[0, 3, 84, 140]);
    commit(rt, setup, &mut held, 1, &[], meter);
    let asks = [first, meter.asks.wrapping_sub(begun)];
    same(rt, asks, [6, 6], "asks");
    compare_earlies(rt, setup, &held.cache, &held.plan, &[]);
}

/// Two new routes, of which the first is in bounds and the second is too heavy.
fn the_second_is_out(rt: &impl Abort, alloc: Global, setup: &Setup, meter: &mut Meter)
    requires customers { (setting setup.now).customers ≡ 4 }
    requires vehicles { (setting setup.now).vehicles ≡ 2 }
{
    let held = empty(rt, alloc, setup);
    let changes = pair(rt, alloc, 2, &[4], 1, &[1, 2, 3, 4]);
    let answer = judge_written(setup, &held.cache, &held.plan, &changes, meter).err();
    same(rt, answer, Some(JudgeFault::Bound(1, 1)), "a fault");
}

/// Load and time of four customers and two vehicles.
fn setup_of(
    rt: &impl Abort,
    alloc: Global,
    registry: Registry,
    load: TransitId,
    time: TransitId,
) -> Setup
    ensures customers { (setting result).customers ≡ 4 }
    ensures vehicles { (setting result).vehicles ≡ 2 }
{
    let dimensions = load_and_time(rt, alloc, &registry, load, time);
    Setup::new(4, 2, registry, dimensions, time, 10).expect(rt, "setup")
}

/// Compares the meter, at the end, with the calls that the closures counted.
fn in_turn(rt: &impl Abort, alloc: Global, setup: &Setup, calls: &AtomicU64)
    requires customers { (setting setup.now).customers ≡ 4 }
    requires vehicles { (setting setup.now).vehicles ≡ 2 }
{
    let mut meter = Meter::new();
    inserts(rt, alloc, setup, &mut meter);
    of_a_plan(rt, alloc, setup, &mut meter);
    removals(rt, alloc, setup, &mut meter);
    the_second_is_out(rt, alloc, setup, &mut meter);
    compare_meter(rt, meter, calls.load(Ordering::SeqCst), 0, 0);
}

/// Travel between the depot at (0, 0) and the customers at (2, 2), (6, 6), (10, 10), (3, 4), in tenths, and demands 4, 3, 3, 5. The
/// closures count their calls beside the meter.
#[test]
fn four_customers(rt: HostRuntime) {
    let demands = vec![in rt.alloc(); 0u64, 4, 3, 3, 5].expect(&rt, "memory");
    let travels = vec![in rt.alloc();
        0u64, 28, 84, 141, 50, 28, 0, 56, 113, 22, 84, 56, 0, 56, 36, 141, 113, 56, 0, 92, 50, 22,
        36, 92, 0,
    ]
    .expect(&rt, "memory");
    let calls = Arc::new(rt.alloc(), AtomicU64::new(0)).expect(&rt, "memory");
    let of_demands = Arc::try_clone(&calls).expect(&rt, "memory");
    let of_travels = Arc::try_clone(&calls).expect(&rt, "memory");
    let demand = Box::new(
        rt.alloc(),
        move |i: u32| -> u64
            requires { i < length demands.items }
            ensures { result ≡ slice_index demands.items i }
        {
            of_demands.fetch_add(1, Ordering::SeqCst);
            demands[i as usize]
        },
    )
    .expect(&rt, "memory");
    let travel = Box::new(
        rt.alloc(),
        move |i: u32, j: u32| -> u64
            requires { i * 5 + j < length travels.items }
            ensures { result ≡ slice_index travels.items (i * 5 + j) }
        {
            of_travels.fetch_add(1, Ordering::SeqCst);
            travels[i as usize * 5 + j as usize]
        },
    )
    .expect(&rt, "memory");
    let demand = Unary::new(5, demand);
    let travel = Transit::new(5, travel);
    let mut registry = Registry::new(rt.alloc());
    let load = registry.register_unary(demand).expect(&rt, "room");
    let time = registry.register(travel).expect(&rt, "room");
    let setup = setup_of(&rt, rt.alloc(), registry, load, time);
    in_turn(&rt, rt.alloc(), &setup, &calls);
}
