ghost use Rattle.std.specs.Prelude.{◌≡◌, ℕ, ◌<◌, ◌≤◌, nat_lt, IfOk, length};
ghost use Rattle.std.specs.List.{list_all};
ghost use Rattle.std.specs.Result.{result_err};
ghost use Rattle.callback_store.specs.Registry.{tables};
ghost use Rattle.dimension_core.specs.Cumuls.{IsServed};
ghost use Rattle.dimension_core.specs.Setting.{IsSetting, dimension_at, is_over, is_setting_sized, is_setting_registered, setup_refusal};

use crate::dimension::Dimension;
use crate::fault::SetupFault;
use callback_store::{Registry, TransitId};
use limits::{MOST_CUSTOMERS, MOST_DIMENSIONS, MOST_EVENTS, MOST_VEHICLES};

/// What a board is opened with: its numbers, its callbacks and its dimensions.
pub struct Setup {
    customers: u32,
    vehicles: u32,
    registry: Registry,
    dimensions: Vec<Dimension>,
    cost: TransitId,
    max_events: u32,
    ghost sound: { IsSetting (record {
      customers = customers;
      vehicles = vehicles;
      tables = tables registry;
      dimensions = dimensions.items;
      cost = cost;
      max_events = max_events;
    }) },
}

// Written by hand: a derived drop is expanded, down to each list, at every place where a value is dropped.
impl Drop for Setup {
    fn drop(self) {
        let Setup {
            customers: _,
            vehicles: _,
            registry: _,
            dimensions: _,
            cost: _,
            max_events: _,
        } = self;
    }
}

/// Whether each dimension is over this many customers and vehicles.
fn are_over(customers: u32, vehicles: u32, dimensions: &[Dimension]) -> bool
    requires { customers ≤ MOST_CUSTOMERS }
    ensures { result ≡ list_all (is_over customers vehicles) dimensions.now }
{
    dimensions
        .iter()
        .all(|d| d.nodes() == customers + 1 && d.vehicles() == vehicles)
}

/// Whether the callback of each dimension is among the first `count`.
fn are_registered(count: u32, dimensions: &[Dimension]) -> bool
    ensures { result ≡ list_all (λ d. nat_lt d.id count) dimensions.now }
{
    dimensions.iter().all(|d| d.id().index() < count)
}

impl Setup {
    ghost use Rattle.dimension_core.specs.Setup.{setting};

    /// A setup over these callbacks and dimensions. It takes no memory.
    ///
    /// The refusals come in the order of `SetupFault`. On a refusal the registry and the dimensions are dropped.
    pub fn new(
        customers: u32,
        vehicles: u32,
        registry: Registry,
        dimensions: Vec<Dimension>,
        cost: TransitId,
        max_events: u32,
    ) -> Result<Setup, SetupFault>
        ensures ok { IfOk result (λ setup. setting setup ≡ record {
          customers = customers;
          vehicles = vehicles;
          tables = tables registry;
          dimensions = dimensions.items;
          cost = cost;
          max_events = max_events;
        }) }
        ensures refused { result_err result ≡ setup_refusal (record {
          customers = customers;
          vehicles = vehicles;
          tables = tables registry;
          dimensions = dimensions.items;
          cost = cost;
          max_events = max_events;
        }) }
    {
        let sized = 1 <= customers
            && customers <= MOST_CUSTOMERS
            && 1 <= vehicles
            && vehicles <= MOST_VEHICLES
            && (registry.count() == 0 || registry.nodes() == customers + 1)
            && are_over(customers, vehicles, &dimensions);
        if !sized {
            return Err(SetupFault::Size);
        }
        if !(registry.has(cost) && are_registered(registry.count(), &dimensions)) {
            return Err(SetupFault::NoTransit);
        }
        if dimensions.len() > MOST_DIMENSIONS {
            return Err(SetupFault::Many);
        }
        if !(1 <= max_events && max_events <= MOST_EVENTS) {
            return Err(SetupFault::Limit);
        }
        Ok(Setup {
            customers,
            vehicles,
            registry,
            dimensions,
            cost,
            max_events,
        })
    }

    /// How many customers there are: 1 to 1,000. Customer c is node c, and node 0 is the depot.
    pub fn customers(&self) -> u32
        ensures value { result ≡ (setting self.now).customers }
        ensures sound { IsSetting (setting self.now) }
    {
        self.customers
    }

    /// How many vehicles there are: 1 to 1,000, counted from 1.
    pub fn vehicles(&self) -> u32
        ensures value { result ≡ (setting self.now).vehicles }
        ensures sound { IsSetting (setting self.now) }
    {
        self.vehicles
    }

    /// The callbacks.
    pub fn registry(&self) -> &Registry
        ensures value { tables result.now ≡ (setting self.now).tables }
        ensures sound { IsSetting (setting self.now) }
    {
        &self.registry
    }

    /// The dimensions, in order: at most 8, and the callbacks serve each of them.
    pub fn dimensions(&self) -> &[Dimension]
        ensures value { result.now ≡ (setting self.now).dimensions }
        ensures served { (k : ℕ) → k < length (setting self.now).dimensions
            → IsServed (setting self.now).tables (dimension_at (setting self.now) k) }
        ensures sound { IsSetting (setting self.now) }
    {
        self.dimensions.as_slice()
    }

    /// The name of the cost's callback.
    pub fn cost(&self) -> TransitId
        ensures value { result ≡ (setting self.now).cost }
        ensures registered { result < length (setting self.now).tables }
        ensures sound { IsSetting (setting self.now) }
    {
        self.cost
    }

    /// How many events a journal holds: 1 to 16,777,216.
    pub fn max_events(&self) -> u32
        ensures value { result ≡ (setting self.now).max_events }
        ensures sound { IsSetting (setting self.now) }
    {
        self.max_events
    }
}
