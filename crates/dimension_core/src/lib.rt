//! Dimensions: cumuls along a route, within ranges, capacities and slack.
#![tactic(auto)]

mod dimension;
mod fault;
mod feasible;
mod laws;
mod range;
mod setup;

pub use dimension::{Dimension, DimensionFault, range_after};
pub use fault::SetupFault;
pub use feasible::{first_out, first_out_is_alone};
pub use laws::{cumuls_are_by_place, misses_are_found, spans_go_on, spans_meet};
pub use range::Range;
pub use setup::Setup;
