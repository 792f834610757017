ghost use Rattle.std.specs.Prelude.{◌≡◌, ◌<◌, ◌≤◌, false, length, slice_index, All};
ghost use Rattle.limits.specs.declared.TheConstants.{LARGEST_ANSWER};
ghost use Rattle.callback_store.specs.Meter.{after_ask, AsksJust};

use crate::meter::Meter;

/// A unary callback that is given as its answers, one for each node. On a way it answers for the node that is left.
///
/// Nodes count from 0, and node 0 is the depot. An answer is 0 to 1,000,000,000.
#[derive(Drop)]
pub struct Vector {
    answers: Vec<u32>,
    ghost few: { length answers.items ≤ 4294967295 },
    ghost limited: { All (λ x. x ≤ LARGEST_ANSWER) answers.items },
}

impl Vector {
    ghost use Rattle.callback_store.specs.Tables.{vector_table};

    /// The answers for as many nodes as there are. Any size is taken here; a registry takes 2 to 1,001 nodes.
    pub fn new(answers: Vec<u32>) -> Vector
        requires few { length answers.items ≤ 4294967295 }
        requires limited { All (λ x. x ≤ LARGEST_ANSWER) answers.items }
        ensures { vector_table result ≡ record { size = length answers.items; paired = false; entries = answers.items } }
    {
        Vector { answers }
    }

    /// How many nodes it knows.
    pub fn size(&self) -> u32
        ensures { result ≡ (vector_table self.now).size }
    {
        self.answers.len() as u32
    }

    /// The answer for a node.
    #[inline(always)]
    pub(crate) fn answer(&self, i: u32) -> u32
        requires { i < (vector_table self.now).size }
        ensures answer { result ≡ slice_index (vector_table self.now).entries i }
        ensures small { result ≤ LARGEST_ANSWER }
    {
        self.answers[i as usize]
    }

    /// The answer for node `i`, which is below `size()`. It counts one ask.
    #[inline(always)]
    pub fn ask(&self, meter: &mut Meter, i: u32) -> u64
        requires { i < (vector_table self.now).size }
        ensures answer { result ≡ slice_index (vector_table self.now).entries i }
        ensures small { result ≤ LARGEST_ANSWER }
        ensures counted { meter.new ≡ after_ask meter.old }
        ensures one { AsksJust meter.old meter.new 1 }
    {
        meter.ask();
        u64::from(self.answer(i))
    }
}
