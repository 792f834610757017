//! What the program does once its words are read: the bytes of an instance and of a script in, those of the replies out.
//!
//! The parts that know no board are in `program_parts`; those of its names that the program needs are passed on.
#![tactic(auto)]

mod joined_input;
mod standard;
mod status;
mod two_inputs;

pub use joined_input::joined;
pub use program_parts::{Stop, check_bytes, check_file, read_file, stopped};
pub use two_inputs::{run_files, scripted};
