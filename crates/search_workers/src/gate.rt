//! Where a worker lets itself be held.
use crate::tally::Outcome;
use std::sync::Wait;

/// A point of a round.
#[derive(Clone, Copy, Debug)]
pub enum Point {
    /// The worker has brought its view up to the published plan, and has not searched it yet.
    Seen,
    /// It has found a move, and has not submitted it yet.
    Before,
    /// It has the reply to its proposal, or a fault.
    After,
}

/// What workers pass at each point of a round. It may hold a worker up for as long as it likes, and no contract depends on it. Workers
/// count from 1 in the order of their desks, and each one's rounds from 1.
pub trait Gate<W: Wait> {
    fn pass(&self, rt: &W, worker: u32, round: u32, point: Point);

    /// A round is over, and ended so.
    fn done(&self, _rt: &W, _worker: u32, _round: u32, _outcome: Outcome) {}
}

/// A gate that never holds anybody.
pub struct OpenGate;

impl<W: Wait> Gate<W> for OpenGate {
    fn pass(&self, _rt: &W, _worker: u32, _round: u32, _point: Point) {}
}
