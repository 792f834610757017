//! The best move near two vehicles, or inside one, of which the stops and the ways are at hand: kind by kind, row by row, the first of the
//! best.
#![tactic(auto)]

mod best;
mod cross;
mod kinds;
mod laws;
mod reverse;
mod rows;
mod search;
mod searched;
mod shift;
mod swap;

pub use laws::laws_below;
pub use search::{are_empty, best_of_one, best_of_two, holds_up};
pub use searched::{Gathered, Search};
