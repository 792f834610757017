//! The first stop of a route that is out of bounds.

ghost use Rattle.std.specs.Prelude.{◌≡◌, ◌<◌, ◌≤◌, All, MatchOption, length};
ghost use Rattle.callback_store.specs.Registry.{tables};
ghost use Rattle.dimension_core.specs.Cumuls.{IsInBounds, IsServed, table_of};
ghost use Rattle.denial_facts.specs.Misses.{IsMiss, least_after, most_at};

use crate::stops::stop_at;
use callback_store::{Meter, Registry};
use dimension_core::{Dimension, spans_go_on};
use limits::LARGEST_CUMUL;

/// Where a route first has no value in bounds.
#[derive(Clone, Copy)]
pub enum Miss {
    /// At the depot, before the first stop.
    Start,
    /// At a stop.
    Stop {
        /// How many stops come before it: that of a customer is its place less 1, and the depot at the end comes after all customers.
        stop: usize,
        /// The least value there, after the least values of all stops before it.
        least: u64,
        /// The greatest value that the node and the vehicle allow.
        most: u64,
    },
}

/// The least value at a node, after a value at the node before, whatever the upper bounds are.
fn least_after(dimension: &Dimension, registry: &Registry, from: u32, early: u64, node: u32) -> u64
    requires served { IsServed (tables registry.now) dimension.now }
    requires from { from < length dimension.now.ranges }
    requires to { node < length dimension.now.ranges }
    requires early { early ≤ LARGEST_CUMUL }
    ensures { result ≡ least_after (table_of (tables registry.now) dimension.now) dimension.now from early node }
{
    let way = registry.ask(dimension.id(), &mut Meter::new(), from, node);
    (early + way).max(dimension.range(node).lo)
}

/// The greatest value that a node and a vehicle allow.
fn most_at(dimension: &Dimension, vehicle: u32, node: u32) -> u64
    requires to { node < length dimension.now.ranges }
    requires low { 1 ≤ vehicle }
    requires high { vehicle ≤ length dimension.now.caps }
    ensures { result ≡ most_at dimension.now vehicle node }
{
    dimension.range(node).hi.min(dimension.cap(vehicle))
}

/// The first stop of a vehicle's route that has no value in the bounds of a dimension, or none, and then the route is in bounds.
///
/// The registry must serve the dimension, and the vehicle, from 1, and the customers must be of the dimension.
pub fn first_miss(
    dimension: &Dimension,
    registry: &Registry,
    route: &[u32],
    vehicle: u32,
) -> Option<Miss>
    requires served { IsServed (tables registry.now) dimension.now }
    requires known { All (λ node. node < length dimension.now.ranges) route.now }
    requires low { 1 ≤ vehicle }
    requires high { vehicle ≤ length dimension.now.caps }
    ensures { MatchOption result (IsInBounds (table_of (tables registry.now) dimension.now) dimension.now vehicle route.now)
        (IsMiss (table_of (tables registry.now) dimension.now) dimension.now vehicle route.now) }
{
    spans_go_on();
    let mut meter = Meter::new();
    let Some(start) = dimension.start(vehicle) else {
        return Some(Miss::Start);
    };
    let mut range = start;
    let mut from = 0u32;
    for k in 0..route.len() + 1 {
        let node = stop_at(route, k);
        match dimension.extend(registry, range, from, node, vehicle, &mut meter) {
            Some(next) => range = next,
            None => {
                return Some(Miss::Stop {
                    stop: k,
                    least: least_after(dimension, registry, from, range.lo, node),
                    most: most_at(dimension, vehicle, node),
                });
            }
        }
        from = node;
    }
    None
}
