ghost use Rattle.std.specs.Prelude.{◌≡◌, ℕ, ◌+◌, ◌*◌, ◌<◌, ◌≤◌, ◌↔◌, true, false, [], ◌∷◌, ◌++◌, length, slice_index, map, IfOk, OnErr, IsErrOf, nat_lt, IfSome, IsTrue};
ghost use Rattle.callback_store.specs.Meter.{after_ask, AsksJust};
ghost use Rattle.callback_store.specs.Tables.{AreTables, slot_table, pair_table, node_table, matrix_table, vector_table, stay_table, table_at, nodes_of, is_fitting, entry, IsSymmetric};

use crate::matrix::Matrix;
use crate::meter::Meter;
use crate::slot::Slot;
use crate::stay_matrix::StayMatrix;
use crate::transit::Transit;
use crate::unary::Unary;
use crate::vector::Vector;
use limits::{LARGEST_ANSWER, MOST_CALLBACKS, MOST_NODES};
use std::alloc::Global;
use std::marker::Model;
use thiserror::Error;

/// The name of a callback in its registry.
///
/// It is a number, counted from 0 in the order of registering, and has a meaning only in the registry that gave it.
#[derive(Clone)]
pub struct TransitId {
    index: u32,
}

impl Model for TransitId {
    ghost use Rattle.std.specs.Prelude.{ℕ};

    ghost Value = { ℕ };

    ghost view = { λ a. a.index };

    ghost inverse = { λ n. record { index = n } };
}

impl Copy for TransitId {}

impl TransitId {
    /// Its number.
    pub fn index(self) -> u32
        ensures { result ≡ self }
    {
        self.index
    }
}

/// Why a callback was refused, in the order in which the reasons are tried. A refused callback is dropped.
#[derive(Clone, Copy, Debug, PartialEq, Eq, Error)]
pub enum RegisterFault {
    /// It does not know 2 to 1,001 nodes, or not as many as the first that was registered.
    #[error("the callback does not know 2 to 1,001 nodes, or not as many as the first")]
    Size,
    /// There are 16 callbacks already.
    #[error("there are 16 callbacks")]
    Many,
    /// Memory ran out.
    #[error("out of memory")]
    NoMemory,
}

/// At most 16 callbacks, each under its name, and all over the same nodes.
pub struct Registry {
    slots: Vec<Slot>,
    ghost tables: { AreTables (map slot_table slots.items) },
}

// Written by hand: a derived drop is expanded, down to each kind of callback, at every place where a value is dropped.
impl Drop for Registry {
    fn drop(self) {
        let Registry { slots: _ } = self;
    }
}

impl Registry {
    ghost use Rattle.callback_store.specs.Registry.{tables};

    /// A registry without callbacks.
    pub fn new(alloc: Global) -> Registry
        ensures { tables result ≡ [] }
    {
        Registry {
            slots: Vec::new(alloc),
        }
    }

    /// How many callbacks there are.
    pub fn count(&self) -> u32
        ensures value { result ≡ length (tables self.now) }
        ensures small { result ≤ MOST_CALLBACKS }
    {
        self.slots.len() as u32
    }

    /// Whether there is a callback of this name.
    pub fn has(&self, id: TransitId) -> bool
        ensures { result ≡ nat_lt id (length (tables self.now)) }
    {
        (id.index as usize) < self.slots.len()
    }

    /// How many nodes each callback knows, and 0 where there is no callback.
    pub fn nodes(&self) -> u32
        ensures value { result ≡ nodes_of (tables self.now) }
        ensures small { result ≤ MOST_NODES }
    {
        match self.slots.first() {
            None => 0,
            Some(slot) => slot.size(),
        }
    }

    /// Whether a callback for this many nodes may join.
    fn is_fitting(&self, size: u32) -> bool
        ensures { result ≡ is_fitting (tables self.now) size }
    {
        2 <= size && size <= MOST_NODES && (self.slots.is_empty() || self.nodes() == size)
    }

    /// Takes a callback of any kind, and answers its name. The others keep their names and tables.
    fn add(&mut self, slot: Slot) -> Result<TransitId, RegisterFault>
        ensures id { IfOk result (λ id. id ≡ length (tables self.old)) }
        ensures ok { IfOk result (λ id. tables self.new ≡ tables self.old ++ slot_table slot ∷ []) }
        ensures size { IsErrOf result RegisterFault.Size ↔ (is_fitting (tables self.old) (slot_table slot).size ≡ false) }
        ensures many { IsErrOf result RegisterFault.Many
            ↔ ((is_fitting (tables self.old) (slot_table slot).size ≡ true) × (MOST_CALLBACKS ≤ length (tables self.old))) }
        ensures err { OnErr result (tables self.new ≡ tables self.old) }
    {
        if !self.is_fitting(slot.size()) {
            return Err(RegisterFault::Size);
        }
        let index = self.count();
        if index >= MOST_CALLBACKS {
            return Err(RegisterFault::Many);
        }
        match self.slots.push(slot) {
            Ok(()) => Ok(TransitId { index }),
            Err(_) => Err(RegisterFault::NoMemory),
        }
    }

    /// Takes a two-node callback, and answers its name. The others keep their names and tables.
    ///
    /// On a refusal nothing changes, and the callback is dropped.
    pub fn register(&mut self, transit: Transit) -> Result<TransitId, RegisterFault>
        ensures id { IfOk result (λ id. id ≡ length (tables self.old)) }
        ensures ok { IfOk result (λ id. tables self.new ≡ tables self.old ++ pair_table transit ∷ []) }
        ensures size { IsErrOf result RegisterFault.Size ↔ (is_fitting (tables self.old) (pair_table transit).size ≡ false) }
        ensures many { IsErrOf result RegisterFault.Many
            ↔ ((is_fitting (tables self.old) (pair_table transit).size ≡ true) × (MOST_CALLBACKS ≤ length (tables self.old))) }
        ensures err { OnErr result (tables self.new ≡ tables self.old) }
    {
        self.add(Slot::Pair(transit))
    }

    /// Takes a one-node callback, and answers its name. The others keep their names and tables.
    ///
    /// On a refusal nothing changes, and the callback is dropped.
    pub fn register_unary(&mut self, unary: Unary) -> Result<TransitId, RegisterFault>
        ensures id { IfOk result (λ id. id ≡ length (tables self.old)) }
        ensures ok { IfOk result (λ id. tables self.new ≡ tables self.old ++ node_table unary ∷ []) }
        ensures size { IsErrOf result RegisterFault.Size ↔ (is_fitting (tables self.old) (node_table unary).size ≡ false) }
        ensures many { IsErrOf result RegisterFault.Many
            ↔ ((is_fitting (tables self.old) (node_table unary).size ≡ true) × (MOST_CALLBACKS ≤ length (tables self.old))) }
        ensures err { OnErr result (tables self.new ≡ tables self.old) }
    {
        self.add(Slot::Node(unary))
    }

    /// Takes a two-node callback that is given as its answers, and answers its name. The others keep their names and tables.
    ///
    /// On a refusal nothing changes, and the answers are dropped.
    pub fn register_matrix(&mut self, matrix: Matrix) -> Result<TransitId, RegisterFault>
        ensures id { IfOk result (λ id. id ≡ length (tables self.old)) }
        ensures ok { IfOk result (λ id. tables self.new ≡ tables self.old ++ matrix_table matrix ∷ []) }
        ensures size { IsErrOf result RegisterFault.Size ↔ (is_fitting (tables self.old) (matrix_table matrix).size ≡ false) }
        ensures many { IsErrOf result RegisterFault.Many
            ↔ ((is_fitting (tables self.old) (matrix_table matrix).size ≡ true) × (MOST_CALLBACKS ≤ length (tables self.old))) }
        ensures err { OnErr result (tables self.new ≡ tables self.old) }
    {
        self.add(Slot::Listed(matrix))
    }

    /// Takes a one-node callback that is given as its answers, and answers its name. The others keep their names and tables.
    ///
    /// On a refusal nothing changes, and the answers are dropped.
    pub fn register_vector(&mut self, vector: Vector) -> Result<TransitId, RegisterFault>
        ensures id { IfOk result (λ id. id ≡ length (tables self.old)) }
        ensures ok { IfOk result (λ id. tables self.new ≡ tables self.old ++ vector_table vector ∷ []) }
        ensures size { IsErrOf result RegisterFault.Size ↔ (is_fitting (tables self.old) (vector_table vector).size ≡ false) }
        ensures many { IsErrOf result RegisterFault.Many
            ↔ ((is_fitting (tables self.old) (vector_table vector).size ≡ true) × (MOST_CALLBACKS ≤ length (tables self.old))) }
        ensures err { OnErr result (tables self.new ≡ tables self.old) }
    {
        self.add(Slot::Values(vector))
    }

    /// Takes a two-node callback that is given as stays and ways, and answers its name. The others keep their names and tables.
    ///
    /// On a refusal nothing changes, and the answers are dropped.
    pub fn register_stays(&mut self, matrix: StayMatrix) -> Result<TransitId, RegisterFault>
        ensures id { IfOk result (λ id. id ≡ length (tables self.old)) }
        ensures ok { IfOk result (λ id. tables self.new ≡ tables self.old ++ stay_table matrix ∷ []) }
        ensures size { IsErrOf result RegisterFault.Size ↔ (is_fitting (tables self.old) (stay_table matrix).size ≡ false) }
        ensures many { IsErrOf result RegisterFault.Many
            ↔ ((is_fitting (tables self.old) (stay_table matrix).size ≡ true) × (MOST_CALLBACKS ≤ length (tables self.old))) }
        ensures err { OnErr result (tables self.new ≡ tables self.old) }
    {
        self.add(Slot::Stayed(matrix))
    }

    /// All answers of a two-node callback, row by row, where it was given as these.
    pub fn answers(&self, id: TransitId) -> Option<&[u32]>
        requires registered { id < length (tables self.now) }
        ensures sized { IfSome result (λ a. length a.now ≡ nodes_of (tables self.now) * nodes_of (tables self.now)) }
        ensures answers { IfSome result (λ a. (i j : ℕ)
            → slice_index a.now (i * nodes_of (tables self.now) + j) ≡ entry (table_at (tables self.now) id) i j) }
    {
        self.slots[id.index as usize].answers()
    }

    /// Whether each two nodes are known to have one answer both ways.
    pub fn is_symmetric(&self, id: TransitId) -> bool
        requires registered { id < length (tables self.now) }
        ensures { IsTrue result → IsSymmetric (nodes_of (tables self.now)) (table_at (tables self.now) id) }
    {
        self.slots[id.index as usize].is_symmetric()
    }

    /// The callback of a name, for a caller that asks it often: it may look at its kind once (`Callback`).
    pub fn callback(&self, id: TransitId) -> &Slot
        requires registered { id < length (tables self.now) }
        ensures table { slot_table result.now ≡ table_at (tables self.now) id }
        ensures nodes { (slot_table result.now).size ≡ nodes_of (tables self.now) }
    {
        &self.slots[id.index as usize]
    }

    /// The answer of a callback on the way from node `i` to node `j`: that for the ordered pair, or that for `i` where it is a one-node
    /// callback. The callback must be registered here and know both nodes. It counts one ask.
    #[inline(always)]
    pub fn ask(&self, id: TransitId, meter: &mut Meter, i: u32, j: u32) -> u64
        requires registered { id < length (tables self.now) }
        requires from { i < nodes_of (tables self.now) }
        requires to { j < nodes_of (tables self.now) }
        ensures answer { result ≡ entry (table_at (tables self.now) id) i j }
        ensures small { result ≤ LARGEST_ANSWER }
        ensures counted { meter.new ≡ after_ask meter.old }
        ensures one { AsksJust meter.old meter.new 1 }
    {
        // The kinds are told apart here and not in the slot: each function between here and the closure would cost one more test after it.
        match &self.slots[id.index as usize] {
            Slot::Pair(transit) => transit.ask(meter, i, j),
            Slot::Node(unary) => unary.ask(meter, i),
            Slot::Listed(matrix) => matrix.ask(meter, i, j),
            Slot::Values(vector) => vector.ask(meter, i),
            Slot::Stayed(matrix) => matrix.ask(meter, i, j),
        }
    }
}
