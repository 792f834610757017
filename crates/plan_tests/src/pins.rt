ghost use Rattle.std.specs.Prelude.{◌≡◌, ◌≤◌, length, All, MatchResult};
ghost use Rattle.plan_core.specs.Commits.{named_vehicles};
ghost use Rattle.plan_core.specs.Plan.{AreChanges, changes_of, with_routes};
ghost use Rattle.pin_core.specs.Allowed.{AreAllTouched, IsPinFault};
ghost use Rattle.pin_core.specs.Pins.{AreFreezesKept, DoFrontsFit, DoPinsHold};

use crate::comparing::same;
use pin_core::{PinFault, Pins};
use plan_core::{Plan, Route, Touch};
use std::process::Abort;
use std::sync::Arc;

/// What `allows` promises of written routes, in terms of the routes alone. It is called by no test: that it is proved is the test.
pub(crate) fn allows_written(
    pins: &Pins,
    plan: &Plan,
    new_routes: &[(u32, Arc<Route>)],
    touched: &[Touch],
) -> Result<(), PinFault>
    requires customers { length pins.now.pins ≡ plan.now.customers }
    requires vehicles { length pins.now.fronts ≡ length plan.now.routes }
    requires holding { DoPinsHold pins.now plan.now.routes }
    requires fitting { DoFrontsFit pins.now plan.now.routes }
    requires changes { AreChanges (length plan.now.routes) (changes_of new_routes.now) }
    requires known { All (λ t. (1 ≤ t.customer) × (t.customer ≤ plan.now.customers)) touched.now }
    requires touched { AreAllTouched plan.now.routes (with_routes (changes_of new_routes.now) plan.now.routes) touched.now }
    ensures { MatchResult result
        (λ _. AreFreezesKept pins.now plan.now.routes (with_routes (changes_of new_routes.now) plan.now.routes)
        × DoPinsHold pins.now (with_routes (changes_of new_routes.now) plan.now.routes))
        (IsPinFault pins.now plan.now.routes (with_routes (changes_of new_routes.now) plan.now.routes)
        (named_vehicles (changes_of new_routes.now)) touched.now) }
{
    pins.allows(plan, new_routes, touched)
}

/// Compares the pins of customers 1 and 2, and the frozen lengths of both vehicles.
fn compare(rt: &impl Abort, pins: &Pins, pinned: [Option<u32>; 2], frozen: [u32; 2])
    requires customers { length pins.now.pins ≡ 4 }
    requires vehicles { length pins.now.fronts ≡ 2 }
{
    let found = [pins.pinned(1), pins.pinned(2)];
    let fronts = [pins.frozen(1), pins.frozen(2)];
    same(rt, (found, fronts), (pinned, frozen), "pins and fronts");
}

#[test]
fn writes_and_reads_both_rows(rt: HostRuntime) {
    let mut pins = Pins::new(rt.alloc(), 4, 2).expect(&rt, "memory");
    compare(&rt, &pins, [None, None], [0, 0]);
    pins.pin(1, 2);
    compare(&rt, &pins, [Some(2), None], [0, 0]);
    pins.freeze(2, 2);
    compare(&rt, &pins, [Some(2), None], [0, 2]);
    pins.unpin(1);
    compare(&rt, &pins, [None, None], [0, 2]);
    pins.thaw(2, 1);
    compare(&rt, &pins, [None, None], [0, 1]);
}
