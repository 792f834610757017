//! Pins of customers to vehicles and frozen fronts of routes, and whether new routes respect them.
#![tactic(auto)]

mod fault;
mod laws;
mod overriding;
mod pins;
mod view;

pub use fault::PinFault;
pub use laws::{
    faults_are_determined, freezes_by_named, front_still_fits, fronts_within_routes, opening_holds,
    pin_holds, pins_after_commits, unpin_holds,
};
pub use pins::Pins;
pub use view::View;
