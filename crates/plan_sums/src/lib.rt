//! What a listing of a plan says: its rows, read from the output of a run, and the sums of each vehicle.
#![tactic(auto)]

mod fault;
mod finding;
mod lines;
mod pieces;
mod reading;
mod roads;
mod row;
mod sums;
mod tour;
mod visit;

pub use fault::RowsFault;
pub use pieces::push_filled;
pub use reading::read_rows;
pub use roads::Roads;
pub use row::Row;
pub use sums::{open_count, push_total, push_tour};
pub use tour::{Tour, cost, tours};
pub use visit::{Visit, visit_at};
