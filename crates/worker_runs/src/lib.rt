//! Runs with search workers and a live script: what the program does with a board of many desks.
#![tactic(auto)]

mod beside;
mod closing;
mod hall_run;
mod inputs;
mod opened;
mod orders;
mod progress;
mod search;
mod set_up;
mod setups;
mod tallies;

pub use inputs::{Paths, Task, run_paths, scripted};
pub use orders::Orders;
