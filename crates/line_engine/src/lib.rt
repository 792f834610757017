//! The engine of lines: commands are read, answered by a front (a board, a desk, or one of your own), and replied to.
#![tactic(auto)]

mod answer;
mod engine;
mod front;
mod journal;
mod laws;
mod mark;
mod outbox;
mod run_fault;
mod tally;
mod write;

pub use engine::run_lines;
pub use front::Front;
pub use journal::append_journal;
pub use laws::texts_have_their_lines;
pub use run_fault::{Counts, RunFault};
pub use write::write_whole;
