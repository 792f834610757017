//! The stops of a route: its customers, and then the depot.

ghost use Rattle.std.specs.Prelude.{◌≡◌, ℕ, ◌≤◌, ◌<◌, All, length, slice_index};
ghost use Rattle.denial_facts.specs.Misses.{stops_of};

/// The node of a stop of a route, counted from 0: a customer, or the depot behind the last. There is one stop more than customers.
pub fn stop_at(route: &[u32], k: usize) -> u32
    requires { k ≤ length route.now }
    ensures value { result ≡ slice_index (stops_of route.now) k }
    ensures known { (n : ℕ) → 0 < n → All (λ node. node < n) route.now → result < n }
{
    if k < route.len() { route[k] } else { 0 }
}
