//! Operations on the objects of a dispatch board, and which role may do which of them to which
//! objects: OPS, OBS and PA of ANSI INCITS 359-2004, 6.1.
#![tactic(auto)]

mod laws;
mod objects;
mod permissions;

pub use laws::objects_have_numbers_of_their_own;
pub use objects::{OPERATIONS, Object, ObjectRange, ObjectSet, Operation};
pub use permissions::Permissions;
