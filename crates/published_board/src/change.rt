//! What one entry changes of the copies that desks read.
use plan_core::Route;
use std::sync::Arc;

/// What one entry changes of the plan, the pins and the freezes, and the version afterwards. Customers and vehicles count from 1.
#[derive(Drop)]
pub struct Change {
    /// The first vehicle whose route changes, with its new route, shared.
    pub first: Option<(u32, Arc<Route>)>,
    /// The second one.
    pub second: Option<(u32, Arc<Route>)>,
    /// Each customer whose pin differs, with the vehicle to which it is pinned, or none.
    pub pins: Vec<(u32, Option<u32>)>,
    /// The vehicle whose frozen length differs, with that length in stops.
    pub front: Option<(u32, u32)>,
    /// How many commits there are afterwards.
    pub version: u32,
}
