//! What a worker draws.
ghost use Rattle.std.specs.Prelude.{◌≡◌, ◌+◌, ◌*◌, ◌≤◌};
ghost use Rattle.search_workers.specs.Draws.{stream_in, seeded, behind};
ghost use Rattle.search_workers.specs.Jobs.{Job, first_vehicle, second_vehicle};

use rand_core::SeedableRng;
use rand_pcg::Lcg64Xsh32;
use vehicle_draw::draw;

/// The two vehicles near which a worker searches in a round.
#[derive(Clone, Copy)]
pub(crate) struct Drawn {
    pub first: u32,
    pub second: u32,
}

/// The generator of a seed.
pub(crate) fn sow(seed: u64) -> Lcg64Xsh32
    ensures { stream_in result ≡ behind 0 (seeded seed) }
{
    Lcg64Xsh32::seed_from_u64(seed)
}

/// The two vehicles of the next round, of `k`, once so many rounds are done.
pub(crate) fn draw_round(rng: &mut Lcg64Xsh32, seed: u64, k: u32, done: u32) -> Drawn
    requires k { 1 ≤ k }
    requires words { stream_in rng.old ≡ behind (2 * done) (seeded seed) }
    ensures first { (job : Job) → job.words ≡ seeded seed → job.opening.setting.vehicles ≡ k
        → result.first ≡ first_vehicle job (done + 1) }
    ensures second { (job : Job) → job.words ≡ seeded seed → job.opening.setting.vehicles ≡ k
        → result.second ≡ second_vehicle job (done + 1) }
    ensures known { ((1 ≤ result.first) × (result.first ≤ k)) × ((1 ≤ result.second) × (result.second ≤ k)) }
    ensures words { stream_in rng.new ≡ behind (2 * (done + 1)) (seeded seed) }
{
    let (v, w) = draw(rng, k);
    Drawn {
        first: v,
        second: w,
    }
}
