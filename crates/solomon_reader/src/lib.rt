//! Instances of vehicle routing with time windows, read from Solomon's format.
#![tactic(auto)]

mod fault;
mod fields;
mod instance;
mod lines;
mod reading;

pub use fault::{Kind, ReadFault};
pub use instance::{Instance, Node};
pub use reading::read;
