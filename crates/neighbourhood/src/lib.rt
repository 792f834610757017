//! The neighbourhood of two vehicles, or of one: the best move near them, found and proved best.
#![tactic(auto)]

mod search;

pub use search::{Searcher, best_move};
