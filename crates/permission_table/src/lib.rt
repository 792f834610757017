//! CheckAccess compiled: for each session and operation a row of bits, one for each object.
#![tactic(auto)]

mod laws;
mod reaching;
mod row;
mod sessions;
mod tables;

pub use laws::{access_depends_on_reached_roles, compiled_is_check_access};
pub use row::SessionRows;
pub use tables::{Rows, Tables};
