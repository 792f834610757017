ghost use Rattle.std.specs.Prelude.{◌≡◌, ◌*◌, ◌<◌, ◌≤◌, IsTrue, length, All};
ghost use Rattle.limits.specs.declared.TheConstants.{LARGEST_ANSWER};
ghost use Rattle.callback_store.specs.Meter.{after_ask, AsksJust};
ghost use Rattle.callback_store.specs.Symmetry.{AreSymmetric};

use crate::meter::Meter;
use std::sync::Arc;

/// A transit callback that is given as its answers: for each ordered pair of nodes, row by row, so that the answer for the way from node `i`
/// to node `j` is number `i * size + j` of them.
///
/// The answers are shared, not copied: whoever has worked them out may keep them too.
///
/// Nodes count from 0, and node 0 is the depot. An answer is 0 to 1,000,000,000.
#[derive(Drop)]
pub struct Matrix {
    size: u32,
    answers: Arc<Vec<u32>>,
    symmetric: bool,
    ghost sized: { length answers.value.items ≡ size * size },
    ghost limited: { All (λ x. x ≤ LARGEST_ANSWER) answers.value.items },
    ghost even: { IsTrue symmetric → AreSymmetric size answers.value.items },
}

impl Matrix {
    ghost use Rattle.callback_store.specs.Tables.{matrix_table, entry, IsSymmetric};

    /// The answers for `size` nodes. Any size is taken here; a registry takes 2 to 1,001 nodes.
    pub fn new(size: u32, answers: Arc<Vec<u32>>) -> Matrix
        requires sized { length answers.value.items ≡ size * size }
        requires limited { All (λ x. x ≤ LARGEST_ANSWER) answers.value.items }
        ensures sized { (matrix_table result).size ≡ size }
        ensures answers { (matrix_table result).entries ≡ answers.value.items }
    {
        Matrix {
            size,
            answers,
            symmetric: false,
        }
    }

    /// The same, where the way from a node to another has the answer of the way back. It is known of these answers from then on, so that
    /// either of the two may be read for both.
    pub fn symmetric(size: u32, answers: Arc<Vec<u32>>) -> Matrix
        requires sized { length answers.value.items ≡ size * size }
        requires limited { All (λ x. x ≤ LARGEST_ANSWER) answers.value.items }
        requires even { AreSymmetric size answers.value.items }
        ensures sized { (matrix_table result).size ≡ size }
        ensures answers { (matrix_table result).entries ≡ answers.value.items }
    {
        Matrix {
            size,
            answers,
            symmetric: true,
        }
    }

    /// Whether each two nodes are known to have one answer both ways.
    pub(crate) fn is_symmetric(&self) -> bool
        ensures { IsTrue result → IsSymmetric (matrix_table self.now).size (matrix_table self.now) }
    {
        self.symmetric
    }

    /// How many nodes it knows.
    pub fn size(&self) -> u32
        ensures { result ≡ (matrix_table self.now).size }
    {
        self.size
    }

    /// All answers, row by row.
    pub fn answers(&self) -> &[u32]
        ensures { result.now ≡ (matrix_table self.now).entries }
    {
        self.answers.as_slice()
    }

    /// The answer for the way from node `i` to node `j`.
    #[inline(always)]
    pub(crate) fn answer(&self, i: u32, j: u32) -> u32
        requires from { i < (matrix_table self.now).size }
        requires to { j < (matrix_table self.now).size }
        ensures answer { result ≡ entry (matrix_table self.now) i j }
        ensures small { result ≤ LARGEST_ANSWER }
    {
        self.answers[i as usize * self.size as usize + j as usize]
    }

    /// The answer for the way from node `i` to node `j`, both below `size()`. It counts one ask.
    pub fn ask(&self, meter: &mut Meter, i: u32, j: u32) -> u64
        requires from { i < (matrix_table self.now).size }
        requires to { j < (matrix_table self.now).size }
        ensures answer { result ≡ entry (matrix_table self.now) i j }
        ensures small { result ≤ LARGEST_ANSWER }
        ensures counted { meter.new ≡ after_ask meter.old }
        ensures one { AsksJust meter.old meter.new 1 }
    {
        meter.ask();
        u64::from(self.answer(i, j))
    }
}
