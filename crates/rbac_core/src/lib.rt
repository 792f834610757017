//! Role-based access control of a dispatch board, as in ANSI INCITS 359-2004: commands on a
//! policy and who may give them, a spare policy on which a command is tried, and the sessions
//! whose access a command may change.
#![tactic(auto)]

mod changed;
mod command;
mod effects;
mod names;
mod numbers;
mod steps;
mod twin;

pub use command::{Command, Outcome};
pub use effects::{access_stays, affected, sizes_stay};
pub use names::Names;
pub use numbers::{session_numbers_are_used, session_numbers_rise};
pub use permission_core::{Object, ObjectRange, ObjectSet, Operation};
pub use policy_core::{Counting, Policy, Refusal, Separation, Session};
pub use steps::{carry_out, guard, guard_by, is_own, refusals_are_not_of_memory, step};
pub use twin::Twin;
