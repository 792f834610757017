//! Parts of the notes on denials: where a route first leaves the bounds of a dimension, by how much, and the line of a note.
#![tactic(auto)]

mod excess;
mod laws;
mod line;
mod miss;
mod stops;
mod total;
mod touch;

pub use excess::{Excess, first_out};
pub use laws::totals_above_the_capacity;
pub use line::numbered;
pub use miss::{Miss, first_miss};
pub use stops::stop_at;
pub use total::total_of_route;
pub use touch::touch_at;
