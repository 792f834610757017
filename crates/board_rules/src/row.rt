ghost use Rattle.std.specs.Prelude.{◌≡◌, ◌<◌, ◌≤◌, ◌++◌, ◌∷◌, [], length};

use limits::MOST_DIMENSIONS;
use std::marker::Model;

/// One line of a listing: where a customer stands, and its early values. The values are kept inside the row, so that a row takes no memory
/// of its own.
#[derive(Drop)]
pub struct Row {
    vehicle: u32,
    place: u32,
    customer: u32,
    dimensions: u32,
    early: [u64; MOST_DIMENSIONS],
}

impl Model for Row {
    ghost use Rattle.std.specs.Prelude.{◌≤◌, take};
    ghost use Rattle.limits.specs.declared.TheConstants.{MOST_DIMENSIONS};
    ghost use Rattle.board_rules.specs.Listing.{RowShown};

    ghost Value = { RowShown };

    ghost view = { λ r. record { vehicle = r.vehicle; place = r.place; customer = r.customer; early = take r.dimensions r.early } };

    ghost invariant = { λ r. r.dimensions ≤ MOST_DIMENSIONS };
}

impl Row {
    /// The row of a customer with its early values, one for each dimension of the setup, of which there are at most 8.
    #[inline(always)]
    pub fn new(vehicle: u32, place: u32, customer: u32, early: &[u64]) -> Row
        requires { length early.now ≤ MOST_DIMENSIONS }
        ensures vehicle { result.vehicle ≡ vehicle }
        ensures place { result.place ≡ place }
        ensures customer { result.customer ≡ customer }
        ensures early { result.early ≡ early.now }
    {
        let mut kept = [0; MOST_DIMENSIONS];
        kept[..early.len()].copy_from_slice(early);
        Row {
            vehicle,
            place,
            customer,
            dimensions: early.len() as u32,
            early: kept,
        }
    }

    /// Appends the early value of one more dimension; there are fewer than 8 values before.
    #[inline(always)]
    pub fn push_early(&mut self, value: u64)
        requires { length self.old.early < MOST_DIMENSIONS }
        ensures { self.new ≡ record self.old { early = self.old.early ++ value ∷ [] } }
    {
        self.early[self.dimensions as usize] = value;
        self.dimensions += 1;
    }

    /// The vehicle, from 1, or 0 where the customer is unassigned.
    pub fn vehicle(&self) -> u32
        ensures { result ≡ self.now.vehicle }
    {
        self.vehicle
    }

    /// The place on the route, from 1, or 0 where the customer is unassigned.
    pub fn place(&self) -> u32
        ensures { result ≡ self.now.place }
    {
        self.place
    }

    /// The customer, from 1.
    pub fn customer(&self) -> u32
        ensures { result ≡ self.now.customer }
    {
        self.customer
    }

    /// The early value in each dimension, in the setup's order, or none where the customer is unassigned. An early value is the least cumul
    /// that the vehicle can have at the stop, in the unit of that dimension's callback: for the program's two dimensions the load before
    /// the stop in the file's unit, and the earliest time in tenths of the file's unit.
    pub fn early(&self) -> &[u64]
        ensures { result.now ≡ self.now.early }
    {
        &self.early[..self.dimensions as usize]
    }
}
