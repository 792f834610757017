//! `dispatch draw` and `dispatch sums`: from the bytes of an instance and of a run's output to those of a picture, or of the sums.
#![tactic(auto)]

mod draw;
mod fault_line;
mod opening;
mod stop;
mod summing;
mod views;

pub use stop::ViewStop;
pub use views::{draw_bytes, draw_files, sums_bytes, sums_files};
