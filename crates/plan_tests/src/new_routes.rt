//! New routes, and plans that were given them.
ghost use Rattle.std.specs.Prelude.{◌≡◌, ◌≤◌, [], ◌∷◌, length, true, All};
ghost use Rattle.plan_core.specs.Plan.{changes_of};
ghost use Rattle.plan_core.specs.Tested.{is_plan};

use limits::MOST_CUSTOMERS;
use plan_core::{Drafts, Plan, Route, plans_are_tested};
use std::alloc::Global;
use std::process::Abort;
use std::sync::Arc;

/// A shared route of these customers.
fn shared(rt: &impl Abort, alloc: Global, customers: &[u32]) -> Arc<Route>
    ensures { result.value ≡ customers.now }
{
    let customers = Vec::from_slice(alloc, customers).expect(rt, "memory");
    Arc::new(alloc, Route::new(customers)).expect(rt, "memory")
}

/// The draft of one new route alone.
pub(crate) fn one_draft(
    rt: &impl Abort,
    alloc: Global,
    vehicle: u32,
    kept: u32,
    rest: &[u32],
) -> Drafts
    ensures { result ≡ record { vehicle = vehicle; kept = kept; rest = rest.now } ∷ [] }
{
    let mut drafts = Drafts::new(alloc);
    drafts
        .add(vehicle, kept, rest, &[], &[], &[])
        .expect(rt, "memory");
    drafts
}

/// One new route alone.
pub(crate) fn one_change(
    rt: &impl Abort,
    alloc: Global,
    vehicle: u32,
    customers: &[u32],
) -> Vec<(u32, Arc<Route>)>
    ensures changes { changes_of result.items ≡ (vehicle, customers.now) ∷ [] }
    ensures short { length customers.now ≤ MOST_CUSTOMERS → All (λ c. length c.1.value ≤ MOST_CUSTOMERS) result.items }
{
    let route = shared(rt, alloc, customers);
    let mut changes = Vec::with_capacity(alloc, 1).expect(rt, "memory");
    changes.push((vehicle, route)).expect(rt, "memory");
    changes
}

/// New routes for two vehicles.
pub(crate) fn pair(
    rt: &impl Abort,
    alloc: Global,
    v: u32,
    first: &[u32],
    w: u32,
    second: &[u32],
) -> Vec<(u32, Arc<Route>)>
    ensures changes { changes_of result.items ≡ (v, first.now) ∷ (w, second.now) ∷ [] }
    ensures short { length first.now ≤ MOST_CUSTOMERS → length second.now ≤ MOST_CUSTOMERS
        → All (λ c. length c.1.value ≤ MOST_CUSTOMERS) result.items }
{
    let mut changes = one_change(rt, alloc, v, first);
    let route = shared(rt, alloc, second);
    changes.push((w, route)).expect(rt, "memory");
    changes
}

/// A plan of so many customers and two vehicles, which got these routes with one commit.
pub(crate) fn plan_of(
    rt: &impl Abort,
    alloc: Global,
    customers: u32,
    first: &[u32],
    second: &[u32],
) -> Plan
    requires customers { customers ≤ MOST_CUSTOMERS }
    requires plan { is_plan customers (first.now ∷ second.now ∷ []) ≡ true }
    ensures { result
        ≡ record { customers = customers; routes = first.now ∷ second.now ∷ []; version = 1; stamps = 1 ∷ 1 ∷ [] } }
{
    let mut plan = Plan::new(alloc, customers, 2).expect(rt, "memory");
    let changes = pair(rt, alloc, 1, first, 2, second);
    plans_are_tested();
    plan.replace(changes);
    plan
}
