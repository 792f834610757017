//! A row of a listing.

ghost use Rattle.std.specs.Prelude.{◌≡◌};
ghost use Rattle.plan_sums.specs.Rows.{is_planned};

/// A row of a listing: where a customer is planned, and the earliest load and time there. A customer who is not planned has
/// vehicle and place 0, and load and time 0.
#[derive(Clone, Copy)]
pub struct Row {
    /// The vehicle, from 1; 0 where the customer is not planned.
    pub vehicle: u32,
    /// The place on the vehicle's route, from 1; 0 where the customer is not planned.
    pub place: u32,
    /// The customer, from 1.
    pub customer: u32,
    /// The load before the stop.
    pub load: u32,
    /// The earliest time at which service starts, in tenths.
    pub early: u32,
}

impl Row {
    /// Whether the customer is planned.
    pub fn is_planned(&self) -> bool
        ensures { result ≡ is_planned self.now }
    {
        self.vehicle > 0
    }
}
