//! What the ways between stops cost, asked once and kept in tables, and what each kind of move saves by them.
#![tactic(auto)]

mod hops;
mod known;
mod laws;
mod table;

pub use hops::hop;
pub use laws::moves_save;
pub use table::{fill_edges, fill_turned, fill_ways, most_of, row};
