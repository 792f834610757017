//! What is held of a board's state: how a call is judged on it, and how a judged call is put in place.
#![tactic(auto)]

mod apply;
mod change;
mod commands;
mod delta;
mod difference;
mod new_routes;
mod pinning;
mod pins;
mod prepare;
mod proposal;
mod rules;
mod settle;
mod state;
mod stop;

pub use change::{Change, Commit, Judged};
pub use difference::Difference;
pub use state::State;
