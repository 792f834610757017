//! The ranges of cumuls along the routes of a plan, kept, so that a change is judged from the first changed place on.
#![tactic(auto)]

mod cache;
mod fault;
mod fresh;
mod pending;
mod row;
mod walk;

pub use cache::Cache;
pub use fault::JudgeFault;
pub use pending::{Pending, Room};
