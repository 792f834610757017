//! What the desks of a hall read of its board: a published copy of the plan, pins and freezes, tied to the one log of the hall's entries.
#![tactic(auto)]

mod change;
mod eye;
mod page;
mod publication;
mod rule;
mod shown;
mod trail;
mod views;

pub use change::Change;
pub use eye::{Eye, SnapFault};
pub use page::{Beginning, Noting};
pub use publication::{Publication, never};
pub use trail::Naming;
