//! What forbids a move near two vehicles, or near one: the bounds, by the parts of its new routes, pins, frozen fronts, and the moves that are
//! to be skipped.
#![tactic(auto)]

mod allowed;
mod laws;

pub use allowed::{Pair, first_free, fits_after, is_free, loose_from, may_leave, must_keep};
pub use laws::{allowed_moves_are_free, bounds_only_forbid};
pub use route_parts::Kept;
