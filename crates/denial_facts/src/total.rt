//! What a route takes in all.

ghost use Rattle.std.specs.Prelude.{◌≡◌, ◌<◌, ◌≤◌, All, length};
ghost use Rattle.callback_store.specs.Registry.{tables};
ghost use Rattle.dimension_core.specs.Cumuls.{IsServed, table_of};
ghost use Rattle.denial_facts.specs.Totals.{total_of};

use crate::stops::stop_at;
use callback_store::{Meter, Registry};
use dimension_core::Dimension;
use limits::MOST_CUSTOMERS;

/// The sum of a dimension's callback over the ways of a route, from the depot to its customers and back: what the route takes without any slack.
pub fn total_of_route(dimension: &Dimension, registry: &Registry, route: &[u32]) -> u64
    requires served { IsServed (tables registry.now) dimension.now }
    requires known { All (λ node. node < length dimension.now.ranges) route.now }
    requires short { length route.now ≤ MOST_CUSTOMERS }
    ensures { result ≡ total_of (table_of (tables registry.now) dimension.now) route.now }
{
    let mut meter = Meter::new();
    let depots = dimension.nodes();
    let mut sum = 0;
    let mut from = 0u32;
    for k in 0..route.len() + 1 {
        let node = stop_at(route, k);
        sum += registry.ask(dimension.id(), &mut meter, from, node);
        from = node;
    }
    sum
}
