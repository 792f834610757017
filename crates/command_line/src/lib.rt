//! The words of the program's command line, and what is said of those that ask for no board.
#![tactic(auto)]

mod form;
mod help;
mod parse;
mod saying;

pub use form::{NumberFault, OptionFault, Options, UsageFault};
pub use parse::{options, status};
pub use saying::told;
