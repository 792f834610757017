//! The two vehicles of a round of search, by the next words of a generator.
#![tactic(auto)]

ghost use Rattle.std.specs.Prelude.{◌≡◌, ◌+◌, ◌%◌, ◌≤◌};
ghost use Rattle.rand_core.specs.Stream.{next_u32};

use rand_core::Rng;

/// The two vehicles of a round, of `k`, which is at least 1: the remainders by `k` of the next two words, and 1 each. So both are numbers
/// from 1 to `k`.
pub fn draw<R: Rng>(rng: &mut R, k: u32) -> (u32, u32)
    requires { 1 ≤ k }
    ensures first { result.0 ≡ (next_u32 (R.stream rng.old)).0 % k + 1 }
    ensures second { result.1 ≡ (next_u32 (next_u32 (R.stream rng.old)).1).0 % k + 1 }
    ensures stream { R.stream rng.new ≡ (next_u32 (next_u32 (R.stream rng.old)).1).1 }
    ensures known { (result.0 ≤ k) × (result.1 ≤ k) }
{
    let v = rng.next_u32() % k + 1;
    let w = rng.next_u32() % k + 1;
    (v, w)
}
