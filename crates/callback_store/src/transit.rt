ghost use Rattle.std.specs.Prelude.{◌≡◌, ℕ, ◌<◌, ◌≤◌, List};
ghost use Rattle.callback_store.specs.Callback.{PairsOf, PairsOf-prop, IsPairsOf};
ghost use Rattle.callback_store.specs.Meter.{after_ask, AsksJust};

use crate::callback::Callback;
use crate::meter::Meter;
use limits::LARGEST_ANSWER;

/// A closure that answers for an ordered pair of nodes: for the way from the first to the second.
pub type TransitCall = Box<dyn Fn(u32, u32) -> u64 + Send + Sync>;

/// A transit callback: how many nodes it knows, and its answer for each ordered pair of them.
///
/// Nodes count from 0, and node 0 is the depot. An answer is 0 to 1,000,000,000, and always the same for a pair.
#[derive(Drop)]
pub struct Transit {
    size: u32,
    call: TransitCall,
    ghost callable: { (i j : ℕ) → i < size → j < size → TransitCall.pre call i j },
    ghost table: { PairsOf size (TransitCall.post call) } by { PairsOf-prop _ _ },
}

impl Transit {
    ghost use Rattle.callback_store.specs.Tables.{pair_table, entry};

    /// Keeps a closure for `size` nodes.
    ///
    /// The contract requires that the closure may be called for each pair of these nodes (`callable`), and that it has a table (`table`):
    /// one answer for each pair, none above 1,000,000,000. The closure may be called from any thread. Any size is taken here; a registry
    /// takes 2 to 1,001 nodes.
    pub fn new(size: u32, call: TransitCall) -> Transit
        requires callable { (i j : ℕ) → i < size → j < size → TransitCall.pre call i j }
        requires table { PairsOf size (TransitCall.post call) }
        ensures sized { (pair_table result).size ≡ size }
        ensures table { (table : List ℕ) → IsPairsOf size (TransitCall.post call) table → (pair_table result).entries ≡ table }
    {
        Transit { size, call }
    }

    /// How many nodes it knows.
    pub fn size(&self) -> u32
        ensures { result ≡ (pair_table self.now).size }
    {
        self.size
    }

    /// The answer for the way from node `i` to node `j`, both below `size()`. It counts one ask.
    pub fn ask(&self, meter: &mut Meter, i: u32, j: u32) -> u64
        requires from { i < (pair_table self.now).size }
        requires to { j < (pair_table self.now).size }
        ensures answer { result ≡ entry (pair_table self.now) i j }
        ensures small { result ≤ LARGEST_ANSWER }
        ensures counted { meter.new ≡ after_ask meter.old }
        ensures one { AsksJust meter.old meter.new 1 }
    {
        meter.ask();
        self.answer_way(i, j)
    }
}

impl Callback for Transit {
    ghost use Rattle.callback_store.specs.Tables.{pair_table};

    ghost table = { λ transit. pair_table transit };

    // The closure is called right here: each function between here and it would cost one more test after it.
    #[inline(always)]
    fn answer_way(&self, i: u32, j: u32) -> u64 {
        (self.call)(i, j)
    }
}
