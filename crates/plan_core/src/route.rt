ghost use Rattle.std.specs.Prelude.{◌≡◌, ◌==◌, ◌-◌, ◌≤◌, ◌++◌, ℕ, List, length, [], slice_get, Some, MatchOption, Contains, OnOk};

use crate::append::append_part;
use limits::MOST_CUSTOMERS;
use std::alloc::AllocError;
use std::marker::Model;
use std::mem::replace;

/// The customers of a vehicle in the order of its stops. The depot at both ends is not among them.
#[derive(Drop)]
pub struct Route {
    customers: Vec<u32>,
}

impl Model for Route {
    ghost Value = { List ℕ };

    ghost view = { λ a. a.customers.items };
}

impl Route {
    /// A route of these customers.
    pub fn new(customers: Vec<u32>) -> Route
        ensures { result ≡ customers.items }
    {
        Route { customers }
    }

    /// The customers, in order.
    pub fn customers(&self) -> &[u32]
        ensures { result.now ≡ self.now }
    {
        self.customers.as_slice()
    }

    /// The customers, in order, without a copy.
    pub fn into_customers(self) -> Vec<u32>
        ensures { result.items ≡ self }
    {
        let Route { customers } = self;
        customers
    }

    /// The list of the customers, with its memory. The route has none until it is given others.
    pub fn take_customers(&mut self) -> Vec<u32>
        ensures taken { result.items ≡ self.old }
        ensures none { self.new ≡ [] }
    {
        let none = Vec::new(*self.customers.allocator());
        replace(&mut self.customers, none)
    }

    /// Gives the route other customers.
    pub fn set_customers(&mut self, customers: Vec<u32>)
        ensures { self.new ≡ customers.items }
    {
        self.customers = customers;
    }

    /// For how many customers it has room.
    pub fn capacity(&self) -> usize {
        self.customers.capacity()
    }

    /// Gives the route the customers of two parts in its own memory, one part after the other. More memory is taken where that is too small.
    #[inline(always)]
    pub fn refill(&mut self, front: &[u32], rest: &[u32]) -> Result<(), AllocError>
        ensures { OnOk result (self.new ≡ front.now ++ rest.now) }
    {
        self.customers.clear();
        self.customers.reserve(front.len() + rest.len())?;
        append_part(&mut self.customers, front)?;
        append_part(&mut self.customers, rest)
    }

    /// How many customers there are.
    pub fn len(&self) -> usize
        ensures { result ≡ length self.now }
    {
        self.customers.len()
    }

    /// Whether there is no customer.
    pub fn is_empty(&self) -> bool
        ensures { result ≡ (length self.now == 0) }
    {
        self.customers.is_empty()
    }
}

/// The place of a customer in a route, counted from 1, or none.
pub(crate) fn place_in(route: &[u32], customer: u32) -> Option<u32>
    requires { length route.now ≤ MOST_CUSTOMERS }
    ensures { MatchOption result (¬ Contains route.now customer) (λ place. (1 ≤ place)
        × (slice_get route.now (place - 1) ≡ Some customer)) }
{
    match route.iter().position(|c| *c == customer) {
        None => None,
        Some(index) => Some(index as u32 + 1),
    }
}
