//! Whether a new route is in bounds in each dimension, by its parts, with no list made of it, and by the cumuls that are kept at both ends of
//! the old routes.
#![tactic(auto)]

mod fits;
mod kept;
mod laws;
mod parts;
mod replaced;

pub use kept::Kept;
pub use replaced::{Joining, Replacement, joined_fits, replaced_fits};
