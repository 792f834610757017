//! What routes cost: the sum of a callback's answers over neighbouring stops.
ghost use Rattle.std.specs.Prelude.{◌≡◌, ◌<◌, ◌≤◌, length, All};
ghost use Rattle.callback_store.specs.Meter.{AsksJust};
ghost use Rattle.callback_store.specs.Registry.{tables};
ghost use Rattle.callback_store.specs.Tables.{nodes_of, table_at};
ghost use Rattle.dimension_core.specs.Setting.{IsSetting};
ghost use Rattle.dimension_core.specs.Setup.{setting};
ghost use Rattle.plan_core.specs.Cost.{route_cost, route_asks, cost_of, asks_of};
ghost use Rattle.plan_core.specs.Plan.{routes_of};

use crate::route::Route;
use callback_store::{Meter, Registry, TransitId};
use dimension_core::Setup;
use limits::{LARGEST_ROUTE_COST, MOST_CUSTOMERS, MOST_VEHICLES};
use std::sync::Arc;

/// The sum of the setup's cost callback over neighbouring stops of a route: the depot, its customers, the depot; 0 where the route is
/// empty. The route's customers are nodes, counted from 0, and there are at most 1,000 of them.
///
/// It asks the callback once for each customer and once for the return, and not at all where the route is empty.
pub fn route_cost(setup: &Setup, route: &[u32], meter: &mut Meter) -> u64
    requires known { All (λ c. c ≤ (setting setup.now).customers) route.now }
    requires short { length route.now ≤ MOST_CUSTOMERS }
    ensures value { result ≡ route_cost (table_at (setting setup.now).tables (setting setup.now).cost) route.now }
    ensures small { result ≤ LARGEST_ROUTE_COST }
    ensures just { AsksJust meter.old meter.new (route_asks route.now) }
    ensures sound { IsSetting (setting setup.now) }
{
    cost_of_route(setup.registry(), setup.cost(), route, meter)
}

/// The sum over a route.
fn cost_of_route(registry: &Registry, cost: TransitId, route: &[u32], meter: &mut Meter) -> u64
    requires registered { cost < length (tables registry.now) }
    requires depot { 0 < nodes_of (tables registry.now) }
    requires known { All (λ c. c < nodes_of (tables registry.now)) route.now }
    requires short { length route.now ≤ MOST_CUSTOMERS }
    ensures value { result ≡ route_cost (table_at (tables registry.now) cost) route.now }
    ensures small { result ≤ LARGEST_ROUTE_COST }
    ensures just { AsksJust meter.old meter.new (route_asks route.now) }
{
    if route.is_empty() {
        return 0;
    }
    let mut from = 0;
    let mut sum = 0;
    for customer in route {
        sum += registry.ask(cost, meter, from, *customer);
        from = *customer;
    }
    sum + registry.ask(cost, meter, from, 0)
}

/// The sum over some routes.
pub(crate) fn cost_of_routes(
    registry: &Registry,
    cost: TransitId,
    routes: &[Arc<Route>],
    meter: &mut Meter,
) -> u64
    requires registered { cost < length (tables registry.now) }
    requires depot { 0 < nodes_of (tables registry.now) }
    requires known { All (λ r. All (λ c. c < nodes_of (tables registry.now)) r.value) routes.now }
    requires short { All (λ r. length r.value ≤ MOST_CUSTOMERS) routes.now }
    requires few { length routes.now ≤ MOST_VEHICLES }
    ensures value { result ≡ cost_of (table_at (tables registry.now) cost) (routes_of routes.now) }
    ensures just { AsksJust meter.old meter.new (asks_of (routes_of routes.now)) }
{
    let mut sum = 0;
    for route in routes {
        sum += cost_of_route(registry, cost, route.customers(), meter);
    }
    sum
}
