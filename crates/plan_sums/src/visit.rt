//! What a listing shows of a stop.

ghost use Rattle.std.specs.Prelude.{◌≡◌, ◌<◌, ◌≤◌, ◌+◌, ◌*◌, IfSome, length};
ghost use Rattle.plan_sums.specs.Places.{time_between};
ghost use Rattle.plan_sums.specs.Rows.{AreRows, IsRow, row_at};
ghost use Rattle.plan_sums.specs.Visits.{share_vehicle, is_next_stop, goes_on, is_first, is_last, from_at, arrival_at, IsVisit, way_from, way_at, visit_at};

use crate::roads::Roads;
use crate::row::Row;
use limits::{LARGEST_FIELD, LONGEST_TRAVEL};
use solomon_reader::Node;

/// What a listing shows of the stop of a row. Times and ways are in tenths.
#[derive(Clone, Copy)]
pub struct Visit {
    /// The row.
    pub row: Row,
    /// The customer's node.
    pub node: Node,
    /// From which node the stop is reached: 0, the depot, for a first place, and else the customer of the place before. None where that place
    /// is not in the listing.
    pub from: Option<u32>,
    /// The travel from there; 0 where that is not known.
    pub way: u64,
    /// When the vehicle arrives: after the stop before, where that is in the listing, and else just when service starts.
    pub arrival: u64,
    /// When the vehicle leaves.
    pub leave: u64,
    /// The travel to the depot.
    pub home: u64,
    /// Whether it is the last stop of its vehicle in the listing.
    pub is_last: bool,
}

/// Whether two rows are of one vehicle.
fn share_vehicle(a: &Row, b: &Row) -> bool
    ensures { result ≡ share_vehicle a.now b.now }
{
    a.vehicle == b.vehicle
}

/// Whether the stop of `b` comes right after that of `a`.
fn is_next_stop(a: &Row, b: &Row) -> bool
    ensures { result ≡ is_next_stop a.now b.now }
{
    share_vehicle(a, b) && u64::from(a.place) + 1 == u64::from(b.place)
}

/// Whether the row at a place has its stop right after that of the row before it.
fn goes_on(rows: &[Row], k: usize) -> bool
    requires { k < length rows.now }
    ensures { result ≡ goes_on rows.now k }
{
    k > 0 && is_next_stop(&rows[k - 1], &rows[k])
}

/// Whether no row before is of the same vehicle.
pub(crate) fn is_first(rows: &[Row], k: usize) -> bool
    requires { k < length rows.now }
    ensures { result ≡ is_first rows.now k }
{
    k == 0 || !share_vehicle(&rows[k - 1], &rows[k])
}

/// Whether no row behind is of the same vehicle.
pub(crate) fn is_last(rows: &[Row], k: usize) -> bool
    requires { k < length rows.now }
    ensures { result ≡ is_last rows.now k }
{
    !(k + 1 < rows.len() && share_vehicle(&rows[k], &rows[k + 1]))
}

/// From which node the stop of the row at a place is reached.
fn from_node(rows: &[Row], k: usize) -> Option<u32>
    requires { k < length rows.now }
    ensures { result ≡ from_at rows.now k }
{
    if rows[k].place == 1 {
        Some(0)
    } else if goes_on(rows, k) {
        Some(rows[k - 1].customer)
    } else {
        None
    }
}

/// The way from a node, where it is known.
fn way_from(roads: &Roads, from: Option<u32>, to: u32) -> u64
    requires from { IfSome from (λ i. i < length roads.now.nodes) }
    requires to { to < length roads.now.nodes }
    ensures value { result ≡ way_from roads.now from to }
    ensures small { result ≤ LONGEST_TRAVEL }
{
    match from {
        Some(from) => roads.travel(from, to),
        None => 0,
    }
}

/// When the vehicle arrives at the stop of the row at a place.
fn arrival(roads: &Roads, rows: &[Row], k: usize) -> u64
    requires rows { AreRows roads.now rows.now }
    requires within { k < length rows.now }
    ensures { result ≡ arrival_at roads.now rows.now k }
{
    if goes_on(rows, k) {
        u64::from(rows[k - 1].early) + roads.time(rows[k - 1].customer, rows[k].customer)
    } else {
        u64::from(rows[k].early)
    }
}

/// When a vehicle leaves the stop of a row.
fn leave(row: &Row, node: &Node) -> u64
    requires { node.now.service ≤ LARGEST_FIELD }
    ensures value { result ≡ row.now.early + node.now.service * 10 }
    ensures small { result ≤ 4394967285 }
{
    u64::from(row.early) + u64::from(node.service) * 10
}

/// What a listing shows of the stop of the row at a place, from 0.
pub fn visit_at(roads: &Roads, rows: &[Row], k: usize) -> Visit
    requires rows { AreRows roads.now rows.now }
    requires within { k < length rows.now }
    ensures value { result ≡ visit_at roads.now rows.now k }
    ensures sound { IsVisit roads.now result }
{
    let row = rows[k];
    let node = roads.node(row.customer);
    let from = from_node(rows, k);
    Visit {
        row,
        node,
        from,
        way: way_from(roads, from, row.customer),
        arrival: arrival(roads, rows, k),
        leave: leave(&row, &node),
        home: roads.travel(row.customer, 0),
        is_last: is_last(rows, k),
    }
}
