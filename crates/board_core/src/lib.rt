//! The board: calls are judged, journaled and answered, and questions are answered from what is held.
#![tactic(auto)]

mod apply;
mod board;
mod body;
mod listing;
mod prepared;
mod questions;
mod readers;
mod reviews;

pub use board::Board;
pub use board_journal::{Answer, Journal, Kept};
pub use board_rules::{
    AskFault, Call, Delta, Denial, Entry, Event, Fault, Refusal, Reply, Review, Row,
};
pub use board_state::Difference;
pub use body::Core;
pub use prepared::Prepared;
