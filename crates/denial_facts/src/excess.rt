//! The new route that is out of bounds, and by how much.

ghost use Rattle.std.specs.Prelude.{◌≡◌, ◌-◌, ◌≤◌, All, MatchOption, length};
ghost use Rattle.dimension_core.specs.Feasible.{FitsIn};
ghost use Rattle.dimension_core.specs.NewRoutes.{AllKnown, IsOut};
ghost use Rattle.dimension_core.specs.Setup.{setting};
ghost use Rattle.plan_core.specs.Plan.{changes_of};
ghost use Rattle.denial_facts.specs.Excesses.{IsExcess, IsOutBy};

use crate::miss::{Miss, first_miss};
use crate::stops::stop_at;
use crate::total::total_of_route;
use dimension_core::Setup;
use limits::MOST_CUSTOMERS;
use plan_core::Route;
use std::sync::Arc;

/// By how much a route of a vehicle is out of bounds in a dimension.
#[derive(Clone, Copy)]
pub enum Excess {
    /// The route takes this much of dimension 1 in all, which is more than the vehicle's capacity.
    Load {
        total: u64,
        most: u64,
    },
    /// The first stop that has no value in bounds: its place (that of the depot, where the route ends, is one more than the last customer's), its
    /// node (0 is the depot), the least value there, and the greatest that is allowed.
    Late {
        place: usize,
        node: u32,
        least: u64,
        most: u64,
    },
    /// The vehicle has no value in bounds at the depot, where the route begins.
    Start,
}

/// No route is longer.
const LONGEST_ROUTE: usize = MOST_CUSTOMERS as usize;

/// By how much a vehicle's route is out of bounds in a dimension, counted from 1, or none where it is in bounds.
fn excess_of(setup: &Setup, route: &[u32], vehicle: u32, dimension: u32) -> Option<Excess>
    requires low { 1 ≤ vehicle }
    requires high { vehicle ≤ (setting setup.now).vehicles }
    requires known { All (λ c. c ≤ (setting setup.now).customers) route.now }
    requires first { 1 ≤ dimension }
    requires last { dimension ≤ length (setting setup.now).dimensions }
    ensures { MatchOption result (FitsIn (setting setup.now) (dimension - 1) vehicle route.now)
        (IsExcess (setting setup.now) vehicle route.now dimension) }
{
    let bounds = &setup.dimensions()[dimension as usize - 1];
    let registry = setup.registry();
    match first_miss(bounds, registry, route, vehicle)? {
        Miss::Start => Some(Excess::Start),
        Miss::Stop { stop, least, most } => {
            if dimension == 1 && route.len() <= LONGEST_ROUTE {
                let total = total_of_route(bounds, registry, route);
                let capacity = bounds.cap(vehicle);
                if total > capacity {
                    return Some(Excess::Load {
                        total,
                        most: capacity,
                    });
                }
            }
            let node = stop_at(route, stop);
            Some(Excess::Late {
                place: stop + 1,
                node,
                least,
                most,
            })
        }
    }
}

/// By how much the vehicle's new route is out of bounds in a dimension, counted from 1; none where no new route of it is.
pub fn first_out(
    setup: &Setup,
    changes: &[(u32, Arc<Route>)],
    vehicle: u32,
    dimension: u32,
) -> Option<Excess>
    requires known { AllKnown (setting setup.now) (changes_of changes.now) }
    requires first { 1 ≤ dimension }
    requires last { dimension ≤ length (setting setup.now).dimensions }
    ensures { MatchOption result (IsOut (setting setup.now) (changes_of changes.now) vehicle dimension → ⊥)
        (IsOutBy (setting setup.now) (changes_of changes.now) vehicle dimension) }
{
    for k in 0..changes.len() {
        let (named, route) = &changes[k];
        if *named != vehicle {
            continue;
        }
        if let Some(excess) = excess_of(setup, route.customers(), vehicle, dimension) {
            return Some(excess);
        }
    }
    None
}
