ghost use Rattle.std.specs.Prelude.{◌≡◌, ℕ, ◌+◌, ◌*◌, ◌-◌, ◌≤◌, ◌<◌, ◌↔◌, List, [], length, replicate, Some, IfOk, IfSome, IfNone, IsTrue, All};
ghost use Rattle.callback_store.specs.Meter.{AsksJust};
ghost use Rattle.callback_store.specs.Tables.{table_at};
ghost use Rattle.dimension_core.specs.Setup.{setting};
ghost use Rattle.plan_core.specs.Plan.{routes_of, changes_of, StandsAt, IsPlaced, IsPlan, AreChanges, AreSizes, route_at, stamp_of, with_routes, former, replaced};
ghost use Rattle.plan_core.specs.Cost.{cost_of, asks_of};

use crate::cost::cost_of_routes;
use crate::replace::exchange_all;
use crate::route::{Route, place_in};
use callback_store::Meter;
use dimension_core::Setup;
use limits::{MOST_CUSTOMERS, MOST_EVENTS, MOST_VEHICLES};
use std::alloc::{AllocError, Global};
use std::marker::Model;
use std::sync::Arc;

/// The routes of all vehicles, how many commits there were, and which of them changed each route last.
///
/// Vehicles count from 1, places within a route from 1, customers are 1 to `customers()`. A customer stands on at most one vehicle, and at
/// one place of it.
#[derive(Drop)]
pub struct Plan {
    customers: u32,
    version: u32,
    routes: Vec<Arc<Route>>,
    stamps: Vec<u32>,
    homes: Vec<u32>,
}

impl Model for Plan {
    ghost use Rattle.std.specs.Prelude.{◌≡◌, ◌≤◌, length};
    ghost use Rattle.plan_core.specs.Plan.{PlanState, routes_of};
    ghost use Rattle.plan_core.specs.Homes.{IsKept};

    ghost Value = { PlanState };

    ghost view = { λ a. record {
      customers = a.customers;
      routes = routes_of a.routes.items;
      version = a.version;
      stamps = a.stamps.items;
    } };

    ghost invariant = { λ a. IsKept (record {
      customers = a.customers;
      routes = routes_of a.routes.items;
      version = a.version;
      stamps = a.stamps.items;
    }) a.homes.items };
}

impl Plan {
    /// A plan of empty routes, before any commit. Both numbers are at most 1,000.
    pub fn new(alloc: Global, customers: u32, vehicles: u32) -> Result<Plan, AllocError>
        requires customers { customers ≤ MOST_CUSTOMERS }
        requires vehicles { vehicles ≤ MOST_VEHICLES }
        ensures { IfOk result (λ plan. plan
            ≡ record { customers = customers; routes = replicate vehicles []; version = 0; stamps = replicate vehicles 0 }) }
    {
        let routes = empty_routes(alloc, vehicles)?;
        let stamps = vec![in alloc; 0u32; vehicles as usize]?;
        let homes = vec![in alloc; 0u32; customers as usize]?;
        Ok(Plan {
            customers,
            version: 0,
            routes,
            stamps,
            homes,
        })
    }

    /// How many customers there are.
    pub fn customers(&self) -> u32
        ensures value { result ≡ self.now.customers }
        ensures sound { IsPlan self.now.customers self.now.routes }
        ensures sizes { AreSizes self.now }
    {
        self.customers
    }

    /// How many vehicles there are.
    pub fn vehicles(&self) -> u32
        ensures value { result ≡ length self.now.routes }
        ensures sound { IsPlan self.now.customers self.now.routes }
        ensures sizes { AreSizes self.now }
    {
        self.routes.len() as u32
    }

    /// The route of a vehicle.
    pub fn route(&self, vehicle: u32) -> &Arc<Route>
        requires low { 1 ≤ vehicle }
        requires high { vehicle ≤ length self.now.routes }
        ensures value { result.now.value ≡ route_at self.now.routes vehicle }
        ensures short { length result.now.value ≤ MOST_CUSTOMERS }
        ensures known { All (λ c. (1 ≤ c) × (c ≤ self.now.customers)) result.now.value }
        ensures sound { IsPlan self.now.customers self.now.routes }
    {
        &self.routes[vehicle as usize - 1]
    }

    /// Where a customer stands, as its vehicle and its place, or none. The customer may be any number. Only the route of the vehicle on
    /// which it last stood is searched.
    pub fn place_of(&self, customer: u32) -> Option<(u32, u32)>
        ensures stands { IfSome result (λ at. StandsAt self.now.routes customer at.0 at.1) }
        ensures found { (v p : ℕ) → StandsAt self.now.routes customer v p → result ≡ Some (v, p) }
        ensures nowhere { IfNone result (¬ IsPlaced self.now.routes customer) }
        ensures sound { IsPlan self.now.customers self.now.routes }
    {
        if customer == 0 || customer > self.customers {
            return None;
        }
        let home = self.homes[customer as usize - 1];
        if home == 0 {
            return None;
        }
        let route = &self.routes[home as usize - 1];
        match place_in(route.customers(), customer) {
            None => None,
            Some(place) => Some((home, place)),
        }
    }

    /// How many commits there were.
    pub fn version(&self) -> u32
        ensures value { result ≡ self.now.version }
        ensures sizes { AreSizes self.now }
    {
        self.version
    }

    /// Whether some commit that is numbered above `base` changed the vehicle.
    pub fn changed_after(&self, vehicle: u32, base: u32) -> bool
        requires low { 1 ≤ vehicle }
        requires high { vehicle ≤ length self.now.routes }
        ensures { IsTrue result ↔ (base < stamp_of self.now vehicle) }
    {
        base < self.stamps[vehicle as usize - 1]
    }

    /// The sum of the setup's cost callback over the neighbouring stops of all routes that are not empty. The plan must have the setup's
    /// number of customers.
    ///
    /// It asks the callback once for each placed customer and once for each route that is not empty.
    pub fn cost(&self, setup: &Setup, meter: &mut Meter) -> u64
        requires { self.now.customers ≡ (setting setup.now).customers }
        ensures value { result ≡ cost_of (table_at (setting setup.now).tables (setting setup.now).cost) self.now.routes }
        ensures just { AsksJust meter.old meter.new (asks_of self.now.routes) }
    {
        cost_of_routes(setup.registry(), setup.cost(), &self.routes, meter)
    }

    /// Gives one or two vehicles their new routes, as one more commit, and gives back the list, now of the routes that they had, whose
    /// memory may serve the next commit. No other route is walked, and no memory is taken.
    ///
    /// The caller must pass one or two new routes, for different vehicles of the plan, with which the routes are still a plan: they hold
    /// customers from 1 to `customers()`, and none of them twice. The version must be below 16,777,216.
    pub fn replace(&mut self, changes: Vec<(u32, Arc<Route>)>) -> Vec<(u32, Arc<Route>)>
        requires changes { AreChanges (length self.old.routes) (changes_of changes.items) }
        requires plan { IsPlan self.old.customers (with_routes (changes_of changes.items) self.old.routes) }
        requires room { self.old.version < MOST_EVENTS }
        ensures plan { self.new ≡ replaced (changes_of changes.items) self.old }
        ensures former { changes_of result.items ≡ former self.old.routes (changes_of changes.items) }
    {
        let mut changes = changes;
        let version = self.version + 1;
        self.version = version;
        exchange_all(
            &mut self.routes,
            &mut self.stamps,
            &mut self.homes,
            version,
            &mut changes,
        );
        changes
    }
}

/// This many empty routes.
fn empty_routes(alloc: Global, vehicles: u32) -> Result<Vec<Arc<Route>>, AllocError>
    ensures { IfOk result (λ routes. routes_of routes.items ≡ replicate vehicles []) }
{
    let mut routes = Vec::new(alloc);
    for _ in 0..vehicles {
        let route = Arc::new(alloc, Route::new(Vec::new(alloc)))?;
        routes.push(route)?;
    }
    Ok(routes)
}
