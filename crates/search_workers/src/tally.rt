//! How rounds are counted.
ghost use Rattle.std.specs.Prelude.{◌≡◌, ◌+◌, ◌<◌, ◌^◌, if◌then◌else◌};
ghost use Rattle.search_workers.specs.Kinds.{is_committed, is_denied, is_refused, is_idle};

/// How a round ended.
#[derive(Clone, Copy, Debug, Drop)]
pub enum Outcome {
    /// Its proposal changed the plan.
    Committed,
    /// Its proposal was denied.
    Denied,
    /// It met a fault: the journal was full, or memory ran out.
    Refused,
    /// No move counted.
    Idle,
}

/// How many rounds ended in each way. Those that were not idle are the ones that were tried.
#[derive(Clone, Copy, Drop)]
pub struct Tally {
    pub tried: u32,
    pub committed: u32,
    pub denied: u32,
    pub refused: u32,
    pub idle: u32,
    ghost summed: { tried ≡ committed + denied + refused },
}

impl Tally {
    /// A tally of no round.
    pub(crate) fn new() -> Tally
        ensures none { (result.committed ≡ 0) × (result.denied ≡ 0) × (result.refused ≡ 0) × (result.idle ≡ 0) }
        ensures sum { result.tried + result.idle ≡ 0 }
    {
        Tally {
            tried: 0,
            committed: 0,
            denied: 0,
            refused: 0,
            idle: 0,
        }
    }

    /// One more round, which ended so.
    pub(crate) fn count(&mut self, outcome: Outcome)
        requires { self.old.tried + self.old.idle + 1 < 2 ^ 32 }
        ensures committed { self.new.committed ≡ self.old.committed + (if is_committed outcome then 1 else 0) }
        ensures denied { self.new.denied ≡ self.old.denied + (if is_denied outcome then 1 else 0) }
        ensures refused { self.new.refused ≡ self.old.refused + (if is_refused outcome then 1 else 0) }
        ensures idle { self.new.idle ≡ self.old.idle + (if is_idle outcome then 1 else 0) }
        ensures sum { self.new.tried + self.new.idle ≡ self.old.tried + self.old.idle + 1 }
    {
        match outcome {
            Outcome::Idle => self.idle += 1,
            Outcome::Committed => {
                self.tried += 1;
                self.committed += 1;
            }
            Outcome::Denied => {
                self.tried += 1;
                self.denied += 1;
            }
            Outcome::Refused => {
                self.tried += 1;
                self.refused += 1;
            }
        }
    }
}
