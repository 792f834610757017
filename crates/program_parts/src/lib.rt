//! The parts of the program that know no board: the line that cuts a joined input, why a run ends early and the line that says so, the
//! report of an instance, files, and what an instance's callbacks answer, with its two dimensions.
#![tactic(auto)]

mod check;
mod fault_line;
mod files;
mod head;
mod network;
mod pair;
mod report;
mod stop;

pub use check::{check_bytes, check_file};
pub use files::{read_file, read_path, unread};
pub use head::{Parts, read_parts};
pub use network::Network;
pub use pair::standard_pair;
pub use stop::{Stop, stopped};
