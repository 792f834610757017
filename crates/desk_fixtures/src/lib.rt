//! What tests of desks begin with: foyers and desks of a board, and lines that a desk submits. Nothing here is compared.
#![tactic(auto)]

mod desks;
mod lines;

pub use desks::{foyer_of, last, open_all, open_two};
pub use lines::{audit, play, text_of};
