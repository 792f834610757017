ghost use Rattle.std.specs.Prelude.{◌≡◌, ℕ, ◌≤◌, ◌<◌, ◌↔◌, List, [], length, take, replicate, Some, None, IsTrue, IfOk, IfSome, MatchBool, MatchOption, MatchResult, slice_get, All, Contains};
ghost use Rattle.plan_core.specs.Plan.{AreApart, AreChanges, IsNamed, route_at};
ghost use Rattle.plan_core.specs.Drafts.{DoFrontsStay, drafted, routes_by, with_new};
ghost use Rattle.plan_core.specs.Commits.{named_vehicles};
ghost use Rattle.pin_core.specs.Pins.{StandsOn, IsHeld, DoPinsHold, AreFreezesKept, DoFrontsFit, pin_of, front_of, with_pin, with_front};
ghost use Rattle.pin_core.specs.Allowed.{AreAllTouched, IsFirstThawed, IsFirstLoose, IsPinFault};

use crate::fault::PinFault;
use limits::{MOST_CUSTOMERS, MOST_VEHICLES};
use plan_core::{NewRoute, Plan, Touch, routes_replaced};
use std::alloc::{AllocError, Global};
use std::marker::Model;

/// Which customers are pinned to which vehicles, and how many of the first stops of each route are frozen.
///
/// Customers and vehicles count from 1. The depot at the start of a route is no stop here: the first stop is the first customer.
#[derive(Drop)]
pub struct Pins {
    pins: Vec<Option<u32>>,
    fronts: Vec<u32>,
}

impl Model for Pins {
    ghost use Rattle.pin_core.specs.Pins.{PinState};

    ghost Value = { PinState };

    ghost view = { λ a. record { pins = a.pins.items; fronts = a.fronts.items } };
}

/// Whether a route begins with the first customers of another. Out of line, since few vehicles have a frozen front.
#[inline(never)]
fn begin_alike(count: usize, route: &[u32], other: &[u32]) -> bool
    requires { count ≤ length other.now }
    ensures { IsTrue result ↔ (take count route.now ≡ take count other.now) }
{
    route.starts_with(&other[..count])
}

impl Pins {
    /// No customer is pinned and no stop is frozen. Both numbers are at most 1,000.
    pub fn new(alloc: Global, customers: u32, vehicles: u32) -> Result<Pins, AllocError>
        requires customers { customers ≤ MOST_CUSTOMERS }
        requires vehicles { vehicles ≤ MOST_VEHICLES }
        ensures { IfOk result (λ pins. pins ≡ record { pins = replicate customers None; fronts = replicate vehicles 0 }) }
    {
        let pins = vec![in alloc; None; customers as usize]?;
        let fronts = vec![in alloc; 0u32; vehicles as usize]?;
        Ok(Pins { pins, fronts })
    }

    /// Pins a customer to a vehicle, whether or not it was pinned.
    pub fn pin(&mut self, customer: u32, vehicle: u32)
        requires low { 1 ≤ customer }
        requires high { customer ≤ length self.old.pins }
        ensures { self.new ≡ with_pin customer (Some vehicle) self.old }
    {
        self.pins[customer as usize - 1] = Some(vehicle);
    }

    /// A customer is pinned no longer.
    pub fn unpin(&mut self, customer: u32)
        requires low { 1 ≤ customer }
        requires high { customer ≤ length self.old.pins }
        ensures { self.new ≡ with_pin customer None self.old }
    {
        self.pins[customer as usize - 1] = None;
    }

    /// The first `frozen` stops of a vehicle are frozen from now on, whatever was frozen before.
    pub fn freeze(&mut self, vehicle: u32, frozen: u32)
        requires low { 1 ≤ vehicle }
        requires high { vehicle ≤ length self.old.fronts }
        ensures { self.new ≡ with_front vehicle frozen self.old }
    {
        self.fronts[vehicle as usize - 1] = frozen;
    }

    /// Only the first `left` stops of a vehicle stay frozen, whatever was frozen before.
    pub fn thaw(&mut self, vehicle: u32, left: u32)
        requires low { 1 ≤ vehicle }
        requires high { vehicle ≤ length self.old.fronts }
        ensures { self.new ≡ with_front vehicle left self.old }
    {
        self.fronts[vehicle as usize - 1] = left;
    }

    /// The vehicle to which a customer is pinned, if any.
    pub fn pinned(&self, customer: u32) -> Option<u32>
        requires low { 1 ≤ customer }
        requires high { customer ≤ length self.now.pins }
        ensures { result ≡ pin_of self.now customer }
    {
        let index = customer as usize - 1;
        self.pins[index]
    }

    /// How many stops of a vehicle are frozen.
    pub fn frozen(&self, vehicle: u32) -> u32
        requires low { 1 ≤ vehicle }
        requires high { vehicle ≤ length self.now.fronts }
        ensures { result ≡ front_of self.now vehicle }
    {
        let index = vehicle as usize - 1;
        self.fronts[index]
    }

    /// Whether the freezes are kept from the plan to the one with these new routes, and the pins hold in that. Frozen fronts are judged
    /// first, in the order of the new routes, then pins, in the order of the touches. Only the fronts of the named vehicles and the pins of
    /// touched customers are looked at.
    ///
    /// The caller must ensure that the plan has as many customers and vehicles as the pins, that the pins hold in it, and that no frozen
    /// length is above its route's; that there are one or two drafts of new routes, for different vehicles of the plan, and each keeps no
    /// more customers than the vehicle's route has; that each touched customer is one of the plan's; and that each customer that stands on a
    /// vehicle stays on it in the new routes or is touched.
    #[inline(always)]
    pub fn allows<R: NewRoute>(
        &self,
        plan: &Plan,
        new_routes: &[R],
        touched: &[Touch],
    ) -> Result<(), PinFault>
        requires customers { length self.now.pins ≡ plan.now.customers }
        requires vehicles { length self.now.fronts ≡ length plan.now.routes }
        requires holding { DoPinsHold self.now plan.now.routes }
        requires fitting { DoFrontsFit self.now plan.now.routes }
        requires fronts { DoFrontsStay R.draft plan.now.routes new_routes.now }
        requires changes { AreChanges (length plan.now.routes) (routes_by R.draft plan.now.routes new_routes.now) }
        requires known { All (λ t. (1 ≤ t.customer) × (t.customer ≤ plan.now.customers)) touched.now }
        requires touched { AreAllTouched plan.now.routes (with_new R.draft new_routes.now plan.now.routes) touched.now }
        ensures { MatchResult result
            (λ _. AreFreezesKept self.now plan.now.routes (with_new R.draft new_routes.now plan.now.routes)
            × DoPinsHold self.now (with_new R.draft new_routes.now plan.now.routes))
            (IsPinFault self.now plan.now.routes (with_new R.draft new_routes.now plan.now.routes)
            (named_vehicles (routes_by R.draft plan.now.routes new_routes.now)) touched.now) }
    {
        if let Some(vehicle) = self.first_thawed(plan, new_routes) {
            return Err(PinFault::Frozen(vehicle));
        }
        match self.first_loose(plan, new_routes, touched) {
            Some(touch) => Err(PinFault::Pinned(touch.vehicle, touch.place)),
            None => Ok(()),
        }
    }

    /// Whether the new route of a draft begins with the frozen front of its vehicle. The customers that it keeps stay where they are, so that
    /// only frozen customers after them are compared.
    #[inline(always)]
    fn keeps_front<R: NewRoute>(&self, plan: &Plan, new: &R) -> bool
        requires low { 1 ≤ (R.draft new.now).vehicle }
        requires high { (R.draft new.now).vehicle ≤ length plan.now.routes }
        requires vehicles { length self.now.fronts ≡ length plan.now.routes }
        requires fitting { DoFrontsFit self.now plan.now.routes }
        requires front { (R.draft new.now).kept ≤ length (route_at plan.now.routes (R.draft new.now).vehicle) }
        ensures { IsTrue result ↔ (take (front_of self.now (R.draft new.now).vehicle) (drafted plan.now.routes (R.draft new.now))
            ≡ take (front_of self.now (R.draft new.now).vehicle) (route_at plan.now.routes (R.draft new.now).vehicle)) }
    {
        let frozen = self.frozen(new.named()) as usize;
        let kept = new.stays();
        if frozen <= kept {
            return true;
        }
        let old = plan.route(new.named()).customers();
        begin_alike(frozen - kept, new.follows(), &old[kept..])
    }

    /// The first named vehicle whose frozen front differs.
    #[inline(always)]
    pub(crate) fn first_thawed<R: NewRoute>(&self, plan: &Plan, new_routes: &[R]) -> Option<u32>
        requires vehicles { length self.now.fronts ≡ length plan.now.routes }
        requires fitting { DoFrontsFit self.now plan.now.routes }
        requires fronts { DoFrontsStay R.draft plan.now.routes new_routes.now }
        requires apart { AreApart (length plan.now.routes) (routes_by R.draft plan.now.routes new_routes.now) }
        ensures { MatchOption result (AreFreezesKept self.now plan.now.routes (with_new R.draft new_routes.now plan.now.routes))
            (IsFirstThawed self.now plan.now.routes (with_new R.draft new_routes.now plan.now.routes)
            (named_vehicles (routes_by R.draft plan.now.routes new_routes.now))) }
    {
        routes_replaced();
        for new in new_routes {
            if !self.keeps_front(plan, new) {
                return Some(new.named());
            }
        }
        None
    }

    /// Whether a customer is pinned to a vehicle on which it would not stand. The pins must hold in the plan, and the drafts be for different
    /// vehicles of it and keep no more customers than their routes have. It walks the new route of the customer's vehicle once, and nothing
    /// where that vehicle keeps its route: a pinned customer stands where it is pinned.
    pub fn leaves<R: NewRoute>(&self, plan: &Plan, new_routes: &[R], customer: u32) -> bool
        requires low { 1 ≤ customer }
        requires high { customer ≤ length self.now.pins }
        requires holding { DoPinsHold self.now plan.now.routes }
        requires fronts { DoFrontsStay R.draft plan.now.routes new_routes.now }
        requires apart { AreApart (length plan.now.routes) (routes_by R.draft plan.now.routes new_routes.now) }
        ensures { MatchBool result (¬ IsHeld self.now (with_new R.draft new_routes.now plan.now.routes) customer)
            (IsHeld self.now (with_new R.draft new_routes.now plan.now.routes) customer) }
    {
        self.leaves_near(plan, new_routes, customer, &mut 0)
    }

    /// The same, where the customer is searched in the rest of the draft first, from an index outwards. The index where it is found there is
    /// the start for the next customer: a move keeps or reverses the order of those that stay, so that all of them together cost one walk.
    pub(crate) fn leaves_near<R: NewRoute>(
        &self,
        plan: &Plan,
        new_routes: &[R],
        customer: u32,
        near: &mut usize,
    ) -> bool
        requires low { 1 ≤ customer }
        requires high { customer ≤ length self.now.pins }
        requires holding { DoPinsHold self.now plan.now.routes }
        requires fronts { DoFrontsStay R.draft plan.now.routes new_routes.now }
        requires apart { AreApart (length plan.now.routes) (routes_by R.draft plan.now.routes new_routes.now) }
        ensures { MatchBool result (¬ IsHeld self.now (with_new R.draft new_routes.now plan.now.routes) customer)
            (IsHeld self.now (with_new R.draft new_routes.now plan.now.routes) customer) }
    {
        match self.pinned(customer) {
            None => false,
            Some(vehicle) => !would_stay(plan, new_routes, customer, vehicle, near),
        }
    }

    /// The first touch whose customer is pinned to a vehicle on which it would not stand.
    #[inline(always)]
    fn first_loose<R: NewRoute>(
        &self,
        plan: &Plan,
        new_routes: &[R],
        touched: &[Touch],
    ) -> Option<Touch>
        requires holding { DoPinsHold self.now plan.now.routes }
        requires fronts { DoFrontsStay R.draft plan.now.routes new_routes.now }
        requires apart { AreApart (length plan.now.routes) (routes_by R.draft plan.now.routes new_routes.now) }
        requires known { All (λ t. (1 ≤ t.customer) × (t.customer ≤ length self.now.pins)) touched.now }
        ensures { MatchOption result ((k : ℕ) (t : Touch) → slice_get touched.now k ≡ Some t
            → IsHeld self.now (with_new R.draft new_routes.now plan.now.routes) t.customer)
            (IsFirstLoose self.now (with_new R.draft new_routes.now plan.now.routes) touched.now) }
    {
        let mut near = 0;
        for touch in touched {
            if self.leaves_near(plan, new_routes, touch.customer, &mut near) {
                return Some(*touch);
            }
        }
        None
    }
}

/// Whether a customer that stands on a vehicle stays on it once the new routes are in place.
fn would_stay<R: NewRoute>(
    plan: &Plan,
    new_routes: &[R],
    customer: u32,
    vehicle: u32,
    near: &mut usize,
) -> bool
    requires stands { StandsOn plan.now.routes customer vehicle }
    requires fronts { DoFrontsStay R.draft plan.now.routes new_routes.now }
    requires apart { AreApart (length plan.now.routes) (routes_by R.draft plan.now.routes new_routes.now) }
    ensures { IsTrue result ↔ StandsOn (with_new R.draft new_routes.now plan.now.routes) customer vehicle }
{
    routes_replaced();
    match new_route(new_routes, vehicle) {
        Some(new) => is_drafted(plan, new, customer, near),
        None => true,
    }
}

/// The draft of a vehicle's new route, if it has one.
fn new_route<R: NewRoute>(new_routes: &[R], vehicle: u32) -> Option<&R>
    ensures named { (routes : List (List ℕ)) → MatchOption result (¬ IsNamed (routes_by R.draft routes new_routes.now) vehicle)
        (λ new. (k : ℕ) × (slice_get (routes_by R.draft routes new_routes.now) k ≡ Some (vehicle, drafted routes (R.draft new.now)))) }
    ensures own { IfSome result (λ new. ((R.draft new.now).vehicle ≡ vehicle) × Contains new_routes.now new.now) }
{
    for new in new_routes {
        if new.named() == vehicle {
            return Some(new);
        }
    }
    None
}

/// Whether a customer is on the new route that a draft makes. The rest is searched first, from an index outwards, since the customers that a
/// move touches are mostly there.
fn is_drafted<R: NewRoute>(plan: &Plan, new: &R, customer: u32, near: &mut usize) -> bool
    requires low { 1 ≤ (R.draft new.now).vehicle }
    requires high { (R.draft new.now).vehicle ≤ length plan.now.routes }
    requires front { (R.draft new.now).kept ≤ length (route_at plan.now.routes (R.draft new.now).vehicle) }
    ensures { IsTrue result ↔ Contains (drafted plan.now.routes (R.draft new.now)) customer }
{
    is_on(new.follows(), customer, near) || is_kept(plan, new, customer)
}

/// Whether a customer is among those that a draft keeps. Out of line, since few customers are pinned.
#[inline(never)]
fn is_kept<R: NewRoute>(plan: &Plan, new: &R, customer: u32) -> bool
    requires low { 1 ≤ (R.draft new.now).vehicle }
    requires high { (R.draft new.now).vehicle ≤ length plan.now.routes }
    requires front { (R.draft new.now).kept ≤ length (route_at plan.now.routes (R.draft new.now).vehicle) }
    ensures { IsTrue result ↔ Contains (take (R.draft new.now).kept (route_at plan.now.routes (R.draft new.now).vehicle)) customer }
{
    let old = plan.route(new.named()).customers();
    old[..new.stays()].contains(&customer)
}

/// Whether a customer stands on a vehicle.
pub(crate) fn stands(plan: &Plan, customer: u32, vehicle: u32, near: &mut usize) -> bool
    ensures { IsTrue result ↔ StandsOn plan.now.routes customer vehicle }
{
    if vehicle == 0 || vehicle > plan.vehicles() {
        return false;
    }
    is_on(plan.route(vehicle).customers(), customer, near)
}

/// Whether a customer is on a route. It is searched from an index outwards, and the index where it is found is the start for the next
/// customer.
fn is_on(route: &[u32], customer: u32, near: &mut usize) -> bool
    ensures { IsTrue result ↔ Contains route.now customer }
{
    let from = (*near).min(route.len().saturating_sub(1));
    for away in 0..route.len() {
        if away <= from && route[from - away] == customer {
            *near = from - away;
            return true;
        }
        if from + away < route.len() && route[from + away] == customer {
            *near = from + away;
            return true;
        }
    }
    false
}
