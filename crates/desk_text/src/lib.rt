//! Desks over lines of text: runs of lines over a desk, while other desks of the board may submit calls.
#![tactic(auto)]

mod desk_run;
mod laws;
mod seated;
mod seating;

pub use desk_run::run_desk_lines;
pub use laws::{lists_hold_what_is_written, only_desks_run_as_boards};
pub use seated::Seated;
pub use seating::Seating;
