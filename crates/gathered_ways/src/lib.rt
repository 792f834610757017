//! What is gathered before a search: the stops of the vehicles, and the ways between them and along them.
#![tactic(auto)]

mod sides;
mod stops;
mod sums;

pub use sides::{Along, Sides, Ways, parts_of};
pub use stops::fill_stops;
