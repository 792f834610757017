ghost use Rattle.std.specs.Prelude.{◌≡◌, ◌<◌, [], ◌∷◌, length};
ghost use Rattle.callback_store.specs.Registry.{tables};
ghost use Rattle.callback_store.specs.Tables.{nodes_of};
ghost use Rattle.dimension_core.specs.Setup.{setting};

use crate::comparing::same;
use callback_store::{Meter, Registry, TransitId, Vector};
use dimension_core::{Dimension, DimensionFault, Range, Setup, SetupFault, first_out};
use std::alloc::Global;
use std::process::Abort;

const LIMIT: u64 = 1_000_000_000_000;

/// Whether the start is fixed to 0, the customer's range, and whether the route is in bounds.
const RANGES: &[(bool, u64, u64, bool)] = &[
    (false, 50, 60, true),
    (true, 50, 60, false),
    (true, 10, 60, true),
    (false, 5, 9, false),
    (false, 90, 100, true),
    (false, 91, 100, false),
];

/// A dimension of one vehicle, by its greatest slack, the capacity and whether the start is fixed, and with a range for each node.
fn of_one_vehicle(
    rt: &impl Abort,
    alloc: Global,
    registry: &Registry,
    id: TransitId,
    bounds: (u64, u64, bool),
    ranges: &[Range],
) -> Dimension
    ensures { result ≡ record { id = id; slack_max = bounds.0; caps = bounds.1 ∷ []; fixed = bounds.2; ranges = ranges.now } }
{
    let (slack_max, cap, fixed) = bounds;
    let ranges = Vec::from_slice(alloc, ranges).expect(rt, "memory");
    let caps = vec![in alloc; cap].expect(rt, "memory");
    Dimension::new(registry, id, slack_max, caps, fixed, ranges).expect(rt, "bounds")
}

/// One vehicle of capacity 1,000, no slack, the depot's range 0 to 100, and the route of customer 1 alone.
fn the_earliest_cumul_alone_does_not_decide(
    rt: &impl Abort,
    alloc: Global,
    registry: &Registry,
    id: TransitId,
)
    requires registered { id < length (tables registry.now) }
    requires nodes { nodes_of (tables registry.now) ≡ 3 }
{
    let mut meter = Meter::new();
    for (fixed, lo, hi, wanted) in RANGES {
        let range = Range { lo: *lo, hi: *hi };
        let ranges = [Range { lo: 0, hi: 100 }, range, range];
        let time = of_one_vehicle(rt, alloc, registry, id, (0, 1000, *fixed), &ranges);
        let answer = time.in_bounds(registry, &[1], 1, &mut meter);
        same(rt, (range, answer), (range, *wanted), "in bounds");
    }
    same(rt, meter.asks, 10, "asks");
}

/// Whether its callback is registered, its slack, how many vehicles of which capacity, how many nodes with a range from where to where,
/// and why it is refused, if it is.
type Case = (
    bool,
    u64,
    usize,
    u64,
    usize,
    u64,
    u64,
    Option<DimensionFault>,
);

const DIMENSIONS: &[Case] = &[
    (true, 0, 1, 9, 3, 4, 5, None),
    (true, LIMIT, 1000, LIMIT, 3, LIMIT, LIMIT, None),
    (false, 0, 0, 9, 3, 5, 4, Some(DimensionFault::NoTransit)),
    (true, 0, 0, 9, 3, 4, 5, Some(DimensionFault::Size)),
    (true, 0, 1001, 9, 3, 4, 5, Some(DimensionFault::Size)),
    (true, 0, 1, 9, 2, 4, 5, Some(DimensionFault::Size)),
    (true, 0, 1, 9, 4, 5, 4, Some(DimensionFault::Size)),
    (true, 0, 1, 9, 3, 5, 4, Some(DimensionFault::Range)),
    (true, 0, 1, 9, 3, 4, LIMIT + 1, Some(DimensionFault::Range)),
    (true, 0, 1, LIMIT + 1, 3, 4, 5, Some(DimensionFault::Range)),
    (true, LIMIT + 1, 1, 9, 3, 4, 5, Some(DimensionFault::Range)),
];

/// Why the dimension of a case is refused, if it is.
fn refusal(
    rt: &impl Abort,
    alloc: Global,
    registry: &Registry,
    id: TransitId,
    case: &Case,
) -> Option<DimensionFault> {
    let (_, slack_max, vehicles, cap, nodes, lo, hi, _) = *case;
    let caps = vec![in alloc; cap; vehicles].expect(rt, "memory");
    let ranges = vec![in alloc; Range { lo, hi }; nodes].expect(rt, "memory");
    Dimension::new(registry, id, slack_max, caps, false, ranges).err()
}

fn a_dimension_is_refused(rt: &impl Abort, alloc: Global, registry: &Registry, id: TransitId) {
    let empty = Registry::new(alloc);
    for case in DIMENSIONS {
        let registry = if case.0 { registry } else { &empty };
        let sizes = (case.2, case.4);
        let found = refusal(rt, alloc, registry, id, case);
        same(rt, (sizes, found), (sizes, case.7), "capacities and ranges");
    }
}

/// So many dimensions of one customer and one vehicle.
fn loads(
    rt: &impl Abort,
    alloc: Global,
    registry: &Registry,
    id: TransitId,
    count: u32,
) -> Vec<Dimension> {
    let mut dimensions = Vec::new(alloc);
    for _ in 0..count {
        let load = of_one_vehicle(
            rt,
            alloc,
            registry,
            id,
            (0, 9, true),
            &[Range { lo: 0, hi: 9 }; 2],
        );
        dimensions.push(load).expect(rt, "memory");
    }
    dimensions
}

/// Customers, vehicles, dimensions, whether the callbacks are lost, the greatest number of events, and why the setup is refused, if it is.
type SetupCase = (u32, u32, u32, bool, u32, Option<SetupFault>);

const SETUPS: &[SetupCase] = &[
    (1, 1, 8, false, 1, None),
    (1, 1, 0, false, 16_777_216, None),
    (0, 1, 0, false, 10, Some(SetupFault::Size)),
    (1001, 1, 0, false, 10, Some(SetupFault::Size)),
    (1, 0, 0, false, 10, Some(SetupFault::Size)),
    (1, 1001, 0, false, 10, Some(SetupFault::Size)),
    (2, 1, 0, false, 10, Some(SetupFault::Size)),
    (1, 2, 9, true, 0, Some(SetupFault::Size)),
    (1, 1, 9, true, 0, Some(SetupFault::NoTransit)),
    (1, 1, 9, false, 0, Some(SetupFault::Many)),
    (1, 1, 8, false, 0, Some(SetupFault::Limit)),
    (1, 1, 8, false, 16_777_217, Some(SetupFault::Limit)),
];

/// Why the setup of a case is refused, if it is.
fn setup_refusal(rt: &impl Abort, alloc: Global, case: &SetupCase) -> Option<SetupFault> {
    let (customers, vehicles, count, loses_callbacks, max_events, _) = *case;
    let mut registry = Registry::new(alloc);
    let threes = vec![in alloc; 3u32, 3].expect(rt, "memory");
    let id = registry
        .register_vector(Vector::new(threes))
        .expect(rt, "room");
    let dimensions = loads(rt, alloc, &registry, id, count);
    if loses_callbacks {
        registry = Registry::new(alloc);
    }
    Setup::new(customers, vehicles, registry, dimensions, id, max_events).err()
}

#[test]
fn a_setup_is_refused(rt: HostRuntime) {
    for case in SETUPS {
        let sizes = (case.0, case.2);
        let found = setup_refusal(&rt, rt.alloc(), case);
        let wanted = (sizes, case.5);
        same(&rt, (sizes, found), wanted, "customers and dimensions");
    }
}

fn compare_setup(rt: &impl Abort, setup: &Setup) {
    let sizes = (setup.customers(), setup.vehicles(), setup.max_events());
    let callbacks = (setup.registry().count(), setup.cost().index());
    let found = (sizes, callbacks, setup.dimensions().len());
    same(rt, found, ((2, 1, 10), (1, 0), 2), "a setup");
}

fn compare_first_out(rt: &impl Abort, setup: &Setup)
    requires customers { (setting setup.now).customers ≡ 2 }
    requires vehicles { (setting setup.now).vehicles ≡ 1 }
{
    let mut meter = Meter::new();
    let out = first_out(setup, 1, &[1, 2], &mut meter);
    let asks = meter.asks;
    let none = first_out(setup, 1, &[2], &mut meter);
    let found = (out, asks, none);
    same(rt, found, (Some(2), 6, None), "the first dimension out");
}

/// A route that the first dimension bears and the second does not.
fn the_second_dimension_is_the_first_out(
    rt: &impl Abort,
    alloc: Global,
    registry: Registry,
    id: TransitId,
) {
    let ranges = [Range { lo: 0, hi: 100 }; 3];
    let first = of_one_vehicle(rt, alloc, &registry, id, (0, 30, true), &ranges);
    let second = of_one_vehicle(rt, alloc, &registry, id, (0, 20, true), &ranges);
    let dimensions = vec![in alloc; first, second].expect(rt, "memory");
    let setup = Setup::new(2, 1, registry, dimensions, id, 10).expect(rt, "a setup");
    compare_setup(rt, &setup);
    compare_first_out(rt, &setup);
}

/// Whether the start is fixed, and where the ranges at the start, of the next stop and of the last end.
const SPANS: &[(bool, u64, u64, u64)] = &[(false, 20, 35, 45), (true, 0, 15, 30)];

/// Slack at most 5, capacity 45; the depot's range is 0 to 20, and those of the customers 12 to 40 and 0 to 100.
fn spans_stop_by_stop(rt: &impl Abort, alloc: Global, registry: &Registry, id: TransitId)
    requires registered { id < length (tables registry.now) }
    requires nodes { nodes_of (tables registry.now) ≡ 3 }
{
    let mut meter = Meter::new();
    for (fixed, start, first, last) in SPANS {
        let ranges = [
            Range { lo: 0, hi: 20 },
            Range { lo: 12, hi: 40 },
            Range { lo: 0, hi: 100 },
        ];
        let time = of_one_vehicle(rt, alloc, registry, id, (5, 45, *fixed), &ranges);
        let span = Range { lo: 0, hi: *start };
        let next = time.extend(registry, span, 0, 1, 1, &mut meter);
        let late = Range { lo: 31, hi: 45 };
        let none = time.extend(registry, late, 2, 1, 1, &mut meter);
        let reached = time.reach(registry, &[1, 2], 1, &mut meter);
        let begun = (time.is_fixed(), time.start(1));
        same(rt, begun, (*fixed, Some(span)), "the start");
        let wanted = [
            Some(Range { lo: 12, hi: *first }),
            None,
            Some(Range { lo: 22, hi: *last }),
        ];
        same(rt, [next, none, reached], wanted, "spans");
    }
    same(rt, meter.asks, 8, "asks");
}

/// Two customers, and each transit 10.
#[test]
fn what_transits_of_ten_allow(rt: HostRuntime) {
    let tens = vec![in rt.alloc(); 10u32, 10, 10].expect(&rt, "memory");
    let mut registry = Registry::new(rt.alloc());
    let id = registry
        .register_vector(Vector::new(tens))
        .expect(&rt, "room");
    the_earliest_cumul_alone_does_not_decide(&rt, rt.alloc(), &registry, id);
    spans_stop_by_stop(&rt, rt.alloc(), &registry, id);
    a_dimension_is_refused(&rt, rt.alloc(), &registry, id);
    the_second_dimension_is_the_first_out(&rt, rt.alloc(), registry, id);
}
