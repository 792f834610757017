//! What workers are given, and what they give back.
use crate::tally::Tally;
use crate::worker::{Work, Worker};
use board_lock::{Desk, Naming};
use std::snapshot::Snapshot;
use std::sync::Wait;
use std::thread::Promise;

/// What a worker gives back.
#[derive(Drop)]
pub struct Share<N: Naming, R: Wait + Drop> {
    pub desk: Desk<N, R>,
    pub tally: Tally,
}

/// A promise of what comes of a worker.
#[derive(Drop)]
pub(crate) struct WorkOf<N: Naming, R: Wait + Drop> {
    pub worker: Snapshot<Worker<N, R>>,
}

impl<N: Naming, R: Wait + Drop> Promise<Work<N, R>> for WorkOf<N, R> {
    ghost use Rattle.search_workers.specs.Works.{Worked};

    ghost kept_by = { λ p w. Worked N.opening p.worker.value.order.session p.worker.value.order.seed
        p.worker.value.order.rounds p.worker.value.seat w.seat w.tally };
}

/// Why workers gave nothing back.
#[derive(Clone, Copy)]
pub enum WorkFault {
    NoMemory,
    /// A thread could not be started.
    Spawn,
}
