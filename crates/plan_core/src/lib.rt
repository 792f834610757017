//! The plan of a fleet: one route for each vehicle, which commit changed each of them last, and what the routes cost.
#![tactic(auto)]

mod append;
mod cost;
mod draft;
mod front;
mod laws;
mod new_route;
mod plan;
mod replace;
mod route;
mod touch;
mod written;

pub use append::append_part;
pub use cost::route_cost;
pub use draft::{Draft, Drafts};
pub use front::common_front;
pub use laws::{
    among_is_tested, commits_by_one_more, costs_differ_by_named, currency_by_stamps,
    customers_stand_by_route, fronts_are_common, plans_are_tested, routes_are_known,
    routes_replaced, stamps_by_one_more, ways_join,
};
pub use new_route::NewRoute;
pub use plan::Plan;
pub use route::Route;
pub use touch::Touch;
