//! Proposals as they are journaled.
use move_core::Move;

/// A proposal of a desk: the fields of its entry and its call.
#[derive(Clone, Copy)]
pub struct Proposal {
    pub desk: u32,
    pub turn: u32,
    pub session: u32,
    pub base: u32,
    pub mv: Move,
}
