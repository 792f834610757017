ghost use Rattle.std.specs.Prelude.{◌≡◌, ◌+◌, ◌<◌, ◌≤◌};
ghost use Rattle.callback_store.specs.Meter.{after_ask, AsksJust};
ghost use Rattle.callback_store.specs.Stays.{AreStays};

use crate::matrix::Matrix;
use crate::meter::Meter;
use limits::LARGEST_ANSWER;

/// A transit callback that is given as a stay at each node and the ways between them: on the way from node `i` to node `j` it answers the
/// stay at `i` and the way together, as service and travel make up time.
///
/// Nodes count from 0, and node 0 is the depot. An answer is 0 to 1,000,000,000.
#[derive(Drop)]
pub struct StayMatrix {
    stays: Vec<u32>,
    ways: Matrix,
    ghost together: { AreStays ways.size stays.items ways.answers.value.items },
}

impl StayMatrix {
    ghost use Rattle.callback_store.specs.Tables.{stay_table, stay_values, matrix_table, entry};

    /// Stays at as many nodes as the matrix of ways knows.
    pub fn new(stays: Vec<u32>, ways: Matrix) -> StayMatrix
        requires { AreStays (matrix_table ways).size stays.items (matrix_table ways).entries }
        ensures { stay_table result ≡ stay_values stays.items ways }
    {
        StayMatrix { stays, ways }
    }

    /// How many nodes it knows.
    pub fn size(&self) -> u32
        ensures { result ≡ (stay_table self.now).size }
    {
        self.ways.size()
    }

    /// The answer for the way from node `i` to node `j`.
    #[inline(always)]
    pub(crate) fn answer(&self, i: u32, j: u32) -> u32
        requires from { i < (stay_table self.now).size }
        requires to { j < (stay_table self.now).size }
        ensures answer { result ≡ entry (stay_table self.now) i j }
        ensures small { result ≤ LARGEST_ANSWER }
    {
        self.stays[i as usize] + self.ways.answer(i, j)
    }

    /// The answer for the way from node `i` to node `j`, both below `size()`. It counts one ask.
    #[inline(always)]
    pub fn ask(&self, meter: &mut Meter, i: u32, j: u32) -> u64
        requires from { i < (stay_table self.now).size }
        requires to { j < (stay_table self.now).size }
        ensures answer { result ≡ entry (stay_table self.now) i j }
        ensures small { result ≤ LARGEST_ANSWER }
        ensures counted { meter.new ≡ after_ask meter.old }
        ensures one { AsksJust meter.old meter.new 1 }
    {
        meter.ask();
        u64::from(self.answer(i, j))
    }
}
