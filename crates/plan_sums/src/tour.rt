//! The sums of each vehicle of a listing.

ghost use Rattle.std.specs.Prelude.{◌≡◌, ◌<◌, ◌≤◌, ◌+◌, ◌++◌, All, IfOk, OnOk, length};
ghost use Rattle.travel_table.specs.Travel.{node_at};
ghost use Rattle.plan_sums.specs.Places.{time_between};
ghost use Rattle.plan_sums.specs.Progress.{IsTallied};
ghost use Rattle.plan_sums.specs.Rows.{AreRows};
ghost use Rattle.plan_sums.specs.Visits.{way_at};
ghost use Rattle.plan_sums.specs.Tours.{ways, ends_tour, tour_at, tour_of, tours_of, cost_of, start_of};

use crate::roads::Roads;
use crate::row::Row;
use crate::visit::{is_first, is_last, visit_at};
use limits::{LONGEST_TRAVEL, MOST_VEHICLES};
use std::alloc::{AllocError, Global};

/// The sums of a vehicle, by its rows in a listing. Times and ways are in tenths.
#[derive(Clone, Copy)]
pub struct Tour {
    /// The vehicle.
    pub vehicle: u32,
    /// How many stops the listing has of it.
    pub stops: u64,
    /// How many places up to the last of them are not in the listing.
    pub hidden: u64,
    /// The load after the last of them.
    pub load: u64,
    /// When it leaves the depot for its first stop, at the latest; none where the listing has no first place of it.
    pub start: Option<u64>,
    /// When it is back, if the last stop of the listing is its last.
    pub back: u64,
    /// The ways between neighbouring places of the listing, from the depot to a first place, and from the last stop to the depot.
    pub distance: u64,
}

/// When a vehicle leaves the depot for the stop of a row, at the latest.
fn start(roads: &Roads, row: &Row) -> Option<u64>
    requires { row.now.customer < length roads.now.nodes }
    ensures { result ≡ start_of roads.now row.now }
{
    if row.place == 1 {
        Some(u64::from(row.early).saturating_sub(roads.time(0, row.customer)))
    } else {
        None
    }
}

/// The load of a vehicle after the stop of a row.
fn load(roads: &Roads, row: &Row) -> u64
    requires { row.now.customer < length roads.now.nodes }
    ensures { result ≡ row.now.load + (node_at roads.now.nodes row.now.customer).demand }
{
    u64::from(row.load) + u64::from(roads.node(row.customer).demand)
}

/// When a vehicle is back at the depot from the stop of a row.
fn back(roads: &Roads, row: &Row) -> u64
    requires { row.now.customer < length roads.now.nodes }
    ensures { result ≡ row.now.early + time_between roads.now row.now.customer 0 }
{
    u64::from(row.early) + roads.time(row.customer, 0)
}

/// The sums of the vehicle whose rows are those from `first` to that of its last visit, at `last`; `known` are the ways to its stops.
fn tour_of(roads: &Roads, rows: &[Row], first: usize, last: usize, known: u64) -> Tour
    requires rows { AreRows roads.now rows.now }
    requires first { first ≤ last }
    requires last { last < length rows.now }
    requires ways { known ≡ ways roads.now rows.now first (last + 1) }
    requires small { known ≤ 1000000000000 }
    ensures value { result ≡ tour_of roads.now rows.now first last }
    ensures distance { result.distance ≤ 1000141421342 }
{
    let row = rows[last];
    let stops = (last + 1 - first) as u64;
    Tour {
        vehicle: row.vehicle,
        stops,
        hidden: u64::from(row.place).saturating_sub(stops),
        load: load(roads, &row),
        start: start(roads, &rows[first]),
        back: back(roads, &row),
        distance: known + roads.travel(row.customer, 0),
    }
}

/// Along the rows of a listing: the place of the first row of the vehicle, and the ways to its stops so far.
#[derive(Clone, Copy)]
pub(crate) struct Tally {
    pub(crate) first: usize,
    pub(crate) ways: u64,
}

impl Tally {
    /// Behind one more row, the one at a place.
    fn behind(self, roads: &Roads, rows: &[Row], k: usize, way: u64) -> Tally
        requires tally { IsTallied roads.now rows.now k self }
        requires rows { AreRows roads.now rows.now }
        requires within { k < length rows.now }
        requires way { way ≡ way_at roads.now rows.now k }
        requires small { way ≤ LONGEST_TRAVEL }
        ensures { IsTallied roads.now rows.now (k + 1) result }
    {
        if is_first(rows, k) {
            Tally {
                first: k,
                ways: way,
            }
        } else {
            Tally {
                first: self.first,
                ways: self.ways + way,
            }
        }
    }
}

/// Whether the row at a place is the last of a vehicle.
fn ends_tour(rows: &[Row], k: usize) -> bool
    requires { k < length rows.now }
    ensures { result ≡ ends_tour rows.now k }
{
    rows[k].is_planned() && is_last(rows, k)
}

/// Appends the sums of the vehicle whose row is at a place, if that is its last.
fn push_if_last(
    tours: &mut Vec<Tour>,
    roads: &Roads,
    rows: &[Row],
    k: usize,
    tally: Tally,
) -> Result<(), AllocError>
    requires rows { AreRows roads.now rows.now }
    requires within { k < length rows.now }
    requires tally { IsTallied roads.now rows.now (k + 1) tally }
    ensures ok { OnOk result (tours.new.items ≡ tours.old.items ++ tour_at roads.now rows.now k) }
    ensures few { length tours.new.items ≤ length tours.old.items + 1 }
    ensures small { All (λ tour. tour.distance ≤ 1000141421342) tours.old.items
        → All (λ tour. tour.distance ≤ 1000141421342) tours.new.items }
{
    if !ends_tour(rows, k) {
        return Ok(());
    }
    tours.push(tour_of(roads, rows, tally.first, k, tally.ways))?;
    Ok(())
}

/// The sums of each vehicle that has a row in the listing, in the order of the listing.
pub fn tours(alloc: Global, roads: &Roads, rows: &[Row]) -> Result<Vec<Tour>, AllocError>
    requires { AreRows roads.now rows.now }
    ensures value { IfOk result (λ v. v.items ≡ tours_of roads.now rows.now) }
    ensures few { IfOk result (λ v. length v.items ≤ MOST_VEHICLES) }
    ensures small { IfOk result (λ v. All (λ tour. tour.distance ≤ 1000141421342) v.items) }
{
    let mut tours = Vec::new(alloc);
    let mut tally = Tally { first: 0, ways: 0 };
    for k in 0..rows.len() {
        tally = tally.behind(roads, rows, k, visit_at(roads, rows, k).way);
        push_if_last(&mut tours, roads, rows, k, tally)?;
    }
    Ok(tours)
}

/// What the tours cost: the sum of their ways.
pub fn cost(tours: &[Tour]) -> u64
    requires few { length tours.now ≤ MOST_VEHICLES }
    requires small { All (λ tour. tour.distance ≤ 1000141421342) tours.now }
    ensures { result ≡ cost_of tours.now }
{
    let mut sum = 0;
    for tour in tours {
        sum += tour.distance;
    }
    sum
}
