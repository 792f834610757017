ghost use Rattle.std.specs.Prelude.{◌≡◌, ℕ, ◌+◌, ◌-◌, ◌≤◌, ◌<◌, List, [], length, slice_index, All, Contains};
ghost use Rattle.plan_core.specs.Plan.{routes_of, changes_of, Changes, IsPlan, AreApart, with_routes, with_stamps, former};
ghost use Rattle.plan_core.specs.Homes.{AreHomes};

use crate::route::Route;
use std::mem::swap;
use std::sync::Arc;

/// Records a vehicle as the one on which some customers stand.
fn settle(homes: &mut [u32], vehicle: u32, customers: &[u32])
    requires { All (λ c. (1 ≤ c) × (c ≤ length homes.old)) customers.now }
    ensures settled { (c : ℕ) → Contains customers.now c → slice_index homes.new (c - 1) ≡ vehicle }
    ensures others { (c : ℕ) → 1 ≤ c → ¬ Contains customers.now c → slice_index homes.new (c - 1) ≡ slice_index homes.old (c - 1) }
    ensures known { (n : ℕ) → vehicle ≤ n → ((k : ℕ) → slice_index homes.old k ≤ n) → (k : ℕ) → slice_index homes.new k ≤ n }
{
    for customer in customers {
        homes[*customer as usize - 1] = vehicle;
    }
}

/// Gives each named vehicle its new route, the number of this commit and its customers. Afterwards `changes` has
/// the old routes in place of the new ones.
pub(crate) fn exchange_all(
    routes: &mut [Arc<Route>],
    stamps: &mut [u32],
    homes: &mut [u32],
    version: u32,
    changes: &mut [(u32, Arc<Route>)],
)
    requires apart { AreApart (length routes.old) (changes_of changes.old) }
    requires plan { IsPlan (length homes.old) (with_routes (changes_of changes.old) (routes_of routes.old)) }
    requires homes { AreHomes (routes_of routes.old) homes.old }
    requires stamps { length stamps.old ≡ length routes.old }
    ensures routes { routes_of routes.new ≡ with_routes (changes_of changes.old) (routes_of routes.old) }
    ensures stamps { stamps.new ≡ with_stamps (changes_of changes.old) version stamps.old }
    ensures homes { AreHomes (routes_of routes.new) homes.new }
    ensures former { changes_of changes.new ≡ former (routes_of routes.old) (changes_of changes.old) }
{
    for k in 0..changes.len() {
        let (vehicle, route) = &mut changes[k];
        settle(homes, *vehicle, route.customers());
        swap(&mut routes[*vehicle as usize - 1], route);
        stamps[*vehicle as usize - 1] = version;
    }
}
