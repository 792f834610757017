//! What a picture is made of.

use crate::ground::Point;
use plan_sums::{Tour, Visit};

/// A way of a vehicle on the map: a line with an arrow in its middle.
#[derive(Clone, Copy)]
pub struct Leg {
    /// The vehicle.
    pub vehicle: u32,
    /// The node that it leaves.
    pub from: u32,
    /// The node that it goes to.
    pub to: u32,
    /// Where the first stands.
    pub start: Point,
    /// Where the second stands.
    pub end: Point,
    /// The travel between them, in tenths.
    pub way: u64,
}

/// A customer on the map: a circle.
#[derive(Clone, Copy)]
pub struct Spot {
    /// Where the customer stands.
    pub at: Point,
    /// The circle's radius.
    pub radius: u64,
    /// What the listing shows of the customer.
    pub visit: Visit,
}

/// The depot on the map: a square over the customers, through which they show, so that neither hides the other.
#[derive(Clone, Copy)]
pub struct Depot {
    /// Where it stands.
    pub at: Point,
    /// Its ready time, in the file's unit.
    pub ready: u32,
    /// Its due date, in the file's unit.
    pub due: u32,
}

/// The number of a customer, beside its circle.
#[derive(Clone, Copy)]
pub struct Label {
    /// Where the customer stands.
    pub at: Point,
    /// The customer.
    pub customer: u32,
}

/// A line of the table.
#[derive(Clone, Copy)]
pub struct Entry {
    /// Its base line, from above.
    pub y: u64,
    /// The sums of the vehicle.
    pub tour: Tour,
    /// What each vehicle may carry.
    pub capacity: u32,
}

/// A line across all timelines, with its time above.
#[derive(Clone, Copy)]
pub struct Tick {
    /// From the left.
    pub x: u64,
    /// Its upper end.
    pub top: u64,
    /// Its lower end.
    pub bottom: u64,
    /// The time, in tenths.
    pub time: u64,
}

/// A stop on the timeline of its vehicle, which has a lane for each stop. All but `y` and `visit` are places from the left.
#[derive(Clone, Copy)]
pub struct Lane {
    /// The upper side, from above.
    pub y: u64,
    /// What the listing shows of the stop.
    pub visit: Visit,
    /// Where the window begins.
    pub ready: u64,
    /// Where it ends.
    pub due: u64,
    /// When the vehicle leaves the node before.
    pub depart: u64,
    /// When it arrives.
    pub arrival: u64,
    /// When service starts.
    pub early: u64,
    /// When it ends, and the vehicle leaves.
    pub leave: u64,
    /// When it is at the depot, if this is its last stop; else when it leaves.
    pub back: u64,
}

/// A mark of a picture.
#[derive(Clone, Copy)]
pub enum Mark {
    /// A way of a vehicle.
    Leg(Leg),
    /// The depot.
    Depot(Depot),
    /// A customer who is planned: a filled circle.
    Stop(Spot),
    /// A customer who is not: a hollow circle.
    Open(Spot),
    /// The number of a customer.
    Label(Label),
    /// The sums of a vehicle.
    Entry(Entry),
    /// A time of the timelines.
    Tick(Tick),
    /// A stop on a timeline.
    Lane(Lane),
}
