//! What a picture of a plan is made of, the marks of the customers and of the vehicles, and names as XML has them.
#![tactic(auto)]

mod customers;
mod entries;
mod escape;
mod ground;
mod mark;

pub use customers::{place_of, push_customers};
pub use entries::push_entries;
pub use escape::{push_escaped, push_text};
pub use ground::{Frame, Point, point_of};
pub use mark::{Depot, Entry, Label, Lane, Leg, Mark, Spot, Tick};
