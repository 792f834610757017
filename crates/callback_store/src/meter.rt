/// Counts of work. Each count stops at its greatest value.
///
/// Calls that do work take a meter and add to it, so that a caller sees what its own calls cost.
#[derive(Clone, Copy, Debug, PartialEq, Eq)]
pub struct Meter {
    /// How often a callback was asked.
    pub asks: u64,
    /// How often a compiled permission was read.
    pub probes: u64,
    /// How often a permission was found by a walk over the policy.
    pub walks: u64,
}

impl Meter {
    ghost use Rattle.std.specs.Prelude.{◌≡◌};
    ghost use Rattle.callback_store.specs.Meter.{after_ask, after_asks, after_probe, after_walk, AsksJust};

    /// A meter that has counted nothing.
    pub fn new() -> Meter
        ensures { result ≡ record { asks = 0; probes = 0; walks = 0 } }
    {
        Meter {
            asks: 0,
            probes: 0,
            walks: 0,
        }
    }

    /// Counts one ask.
    pub fn ask(&mut self)
        ensures value { self.new ≡ after_ask self.old }
        ensures one { AsksJust self.old self.new 1 }
    {
        self.asks = self.asks.saturating_add(1);
    }

    /// Counts some asks at once.
    #[inline(always)]
    pub fn ask_many(&mut self, count: u64)
        ensures value { self.new ≡ after_asks self.old count }
        ensures just { AsksJust self.old self.new count }
    {
        self.asks = self.asks.saturating_add(count);
    }

    /// Counts one probe.
    pub fn probe(&mut self)
        ensures { self.new ≡ after_probe self.old }
    {
        self.probes = self.probes.saturating_add(1);
    }

    /// Counts one walk.
    pub fn walk(&mut self)
        ensures { self.new ≡ after_walk self.old }
    {
        self.walks = self.walks.saturating_add(1);
    }
}
