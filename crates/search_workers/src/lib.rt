//! Background search: workers that look at the board and propose the best moves that they find, each by a desk of its own.
#![tactic(auto)]

mod all;
mod desk_work;
mod draws;
mod finder;
mod gate;
mod laws;
mod round;
mod share;
mod skips;
mod tally;
mod worker;

pub use all::work_all;
pub use desk_work::work;
pub use gate::{Gate, OpenGate, Point};
pub use laws::{rounds_are_within, skips_were_denied};
pub use neighbourhood::best_move;
pub use share::{Share, WorkFault};
pub use tally::{Outcome, Tally};
pub use vehicle_draw::draw;
pub use worker::{Order, Work, Worker, work_at};
