//! A plan as it stood at some version.
ghost use Rattle.std.specs.Prelude.{◌≡◌, ◌≤◌, ◌-◌, length, is_some};
ghost use Rattle.plan_core.specs.Plan.{route_at};
ghost use Rattle.pin_core.specs.Pins.{pin_of, front_of};
ghost use Rattle.pin_core.specs.View.{pins_of};

use plan_core::Route;
use std::marker::Model;
use std::sync::Arc;

/// A plan as it stood at some version, with its pins and freezes.
#[derive(Drop)]
pub struct View {
    /// The route of each vehicle, the first that of vehicle 1.
    pub routes: Vec<Arc<Route>>,
    /// For each customer, the first customer 1, the vehicle to which it is pinned.
    pub pinned: Vec<Option<u32>>,
    /// For each vehicle how many of the first stops of its route are frozen.
    pub frozen: Vec<u32>,
    /// How many commits there were.
    pub version: u32,
}

impl Model for View {
    ghost use Rattle.plan_core.specs.Plan.{routes_of};
    ghost use Rattle.pin_core.specs.View.{ViewState};

    ghost Value = { ViewState };

    ghost view = { λ a. record {
      routes = routes_of a.routes.items;
      pinned = a.pinned.items;
      frozen = a.frozen.items;
      version = a.version;
    } };
}

impl View {
    /// The customers of a vehicle, in order.
    pub fn customers(&self, vehicle: u32) -> &[u32]
        requires low { 1 ≤ vehicle }
        requires high { vehicle ≤ length self.now.routes }
        ensures { result.now ≡ route_at self.now.routes vehicle }
    {
        self.routes[vehicle as usize - 1].customers()
    }

    /// The vehicle to which a customer is pinned, if any.
    pub fn pinned(&self, customer: u32) -> Option<u32>
        requires low { 1 ≤ customer }
        requires high { customer ≤ length self.now.pinned }
        ensures { result ≡ pin_of (pins_of self.now) customer }
    {
        let index = customer as usize - 1;
        self.pinned[index]
    }

    /// Whether a customer is pinned.
    pub fn is_pinned(&self, customer: u32) -> bool
        requires low { 1 ≤ customer }
        requires high { customer ≤ length self.now.pinned }
        ensures { result ≡ is_some (pin_of (pins_of self.now) customer) }
    {
        self.pinned(customer).is_some()
    }

    /// How many of a vehicle's first stops are frozen.
    pub fn front(&self, vehicle: u32) -> u32
        requires low { 1 ≤ vehicle }
        requires high { vehicle ≤ length self.now.frozen }
        ensures { result ≡ front_of (pins_of self.now) vehicle }
    {
        let index = vehicle as usize - 1;
        self.frozen[index]
    }
}
