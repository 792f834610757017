//! A callback of any kind, as a type parameter.

ghost use Rattle.std.specs.Prelude.{◌≡◌, ◌<◌, ◌≤◌};
ghost use Rattle.callback_store.specs.Tables.{Table, entry};

use crate::matrix::Matrix;
use crate::stay_matrix::StayMatrix;
use crate::vector::Vector;
use limits::LARGEST_ANSWER;

/// A callback. A function that has its kind as a type parameter looks at the kind once, and not at each ask.
pub trait Callback {
    // How many nodes it knows, and its answers.
    ghost table: { Self → Table };

    /// The answer on the way from node `i` to node `j`. It is an ask, which the caller counts together with its others
    /// (`Meter::ask_many`).
    fn answer_way(&self, i: u32, j: u32) -> u64
        requires from { i < (table self.now).size }
        requires to { j < (table self.now).size }
        ensures answer { result ≡ entry (table self.now) i j }
        ensures small { result ≤ LARGEST_ANSWER };
}

impl Callback for Matrix {
    ghost use Rattle.callback_store.specs.Tables.{matrix_table};

    ghost table = { λ matrix. matrix_table matrix };

    #[inline(always)]
    fn answer_way(&self, i: u32, j: u32) -> u64 {
        u64::from(self.answer(i, j))
    }
}

impl Callback for Vector {
    ghost use Rattle.callback_store.specs.Tables.{vector_table};

    ghost table = { λ vector. vector_table vector };

    #[inline(always)]
    fn answer_way(&self, i: u32, _j: u32) -> u64 {
        u64::from(self.answer(i))
    }
}

impl Callback for StayMatrix {
    ghost use Rattle.callback_store.specs.Tables.{stay_table};

    ghost table = { λ matrix. stay_table matrix };

    #[inline(always)]
    fn answer_way(&self, i: u32, j: u32) -> u64 {
        u64::from(self.answer(i, j))
    }
}
