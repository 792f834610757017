ghost use Rattle.std.specs.Prelude.{◌≡◌, ℕ, ◌<◌, ◌≤◌, List, slice_index};
ghost use Rattle.callback_store.specs.Callback.{TableOf, TableOf-prop, IsTableOf};
ghost use Rattle.callback_store.specs.Meter.{after_ask, AsksJust};

use crate::callback::Callback;
use crate::meter::Meter;
use limits::LARGEST_ANSWER;

/// A closure that answers for one node.
pub type UnaryCall = Box<dyn Fn(u32) -> u64 + Send + Sync>;

/// A unary callback: how many nodes it knows, and its answer for each. On a way it answers for the node that is left.
///
/// Nodes count from 0, and node 0 is the depot. An answer is 0 to 1,000,000,000, and always the same for a node.
#[derive(Drop)]
pub struct Unary {
    size: u32,
    call: UnaryCall,
    ghost callable: { (i : ℕ) → i < size → UnaryCall.pre call i },
    ghost table: { TableOf size (UnaryCall.post call) } by { TableOf-prop _ _ },
}

impl Unary {
    ghost use Rattle.callback_store.specs.Tables.{node_table};

    /// Keeps a closure for `size` nodes.
    ///
    /// The contract requires that the closure may be called for each of these nodes (`callable`), and that it has a table (`table`): one
    /// answer for each node, none above 1,000,000,000. The closure may be called from any thread. Any size is taken here; a registry takes
    /// 2 to 1,001 nodes.
    pub fn new(size: u32, call: UnaryCall) -> Unary
        requires callable { (i : ℕ) → i < size → UnaryCall.pre call i }
        requires table { TableOf size (UnaryCall.post call) }
        ensures sized { (node_table result).size ≡ size }
        ensures table { (table : List ℕ) → IsTableOf size (UnaryCall.post call) table → (node_table result).entries ≡ table }
    {
        Unary { size, call }
    }

    /// How many nodes it knows.
    pub fn size(&self) -> u32
        ensures { result ≡ (node_table self.now).size }
    {
        self.size
    }

    /// The answer for node `i`, which is below `size()`. It counts one ask.
    pub fn ask(&self, meter: &mut Meter, i: u32) -> u64
        requires { i < (node_table self.now).size }
        ensures answer { result ≡ slice_index (node_table self.now).entries i }
        ensures small { result ≤ LARGEST_ANSWER }
        ensures counted { meter.new ≡ after_ask meter.old }
        ensures one { AsksJust meter.old meter.new 1 }
    {
        meter.ask();
        (self.call)(i)
    }
}

impl Callback for Unary {
    ghost use Rattle.callback_store.specs.Tables.{node_table};

    ghost table = { λ unary. node_table unary };

    #[inline(always)]
    fn answer_way(&self, i: u32, _j: u32) -> u64 {
        (self.call)(i)
    }
}
