//! Entries as they are read from a journal.
use crate::answer::Answer;
use board_rules::{Entry, Hold, Ruling};
use move_core::Move;

/// An entry, lent by the journal.
#[derive(Clone, Copy, Drop)]
pub enum Kept<'a> {
    /// A proposal, with the fields of its entry and its call. The reply stands in fewer bytes, and is `answer.reply()`.
    Proposal {
        desk: u32,
        turn: u32,
        session: u32,
        base: u32,
        mv: &'a Move,
        answer: Answer,
    },
    /// A call on a pin or on a frozen front. The call and the reply stand in fewer bytes, and are `hold.call()` and `ruling.reply()`.
    Hold {
        desk: u32,
        turn: u32,
        hold: Hold,
        ruling: Ruling,
    },
    /// Any entry, of each of these kinds too.
    Whole(&'a Entry),
}
