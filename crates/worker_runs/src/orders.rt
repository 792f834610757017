//! What workers are to do.
ghost use Rattle.std.specs.Prelude.{◌≤◌};
ghost use Rattle.limits.specs.declared.TheConstants.{MOST_WORKERS};

/// How many workers search, from 0 to 63, how many rounds each of them does, and the seed: worker i, counted from 1, draws by the seed plus
/// i. And whether standard error hears how far they are.
#[derive(Clone, Copy, Drop)]
pub struct Orders {
    pub workers: u32,
    pub rounds: u32,
    pub seed: u32,
    pub progress: bool,
    ghost few: { workers ≤ MOST_WORKERS },
}
