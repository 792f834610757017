//! The marks of the customers.

ghost use Rattle.std.specs.Prelude.{◌≡◌, ◌<◌, ◌≤◌, ◌++◌, OnOk, length};
ghost use Rattle.plan_sums.specs.Rows.{AreRows};
ghost use Rattle.plan_sums.specs.Visits.{IsVisit};
ghost use Rattle.plan_marks.specs.Customers.{place_of, customer_mark, customers_before};

use crate::ground::{Frame, Point, point_of, radius_of};
use crate::mark::{Mark, Spot};
use plan_sums::{Roads, Row, Visit, visit_at};
use std::alloc::AllocError;

/// Where a node stands on the map.
pub fn place_of(roads: &Roads, frame: &Frame, node: u32) -> Point
    requires node { node < length roads.now.nodes }
    requires span { 1 ≤ frame.now.span }
    ensures { result ≡ place_of roads.now frame.now node }
{
    point_of(frame, &roads.node(node))
}

/// The mark of a row's customer: filled where it is planned, and else hollow. Of the demands `most` is the greatest.
fn customer_mark(roads: &Roads, frame: &Frame, most: u32, visit: &Visit) -> Mark
    requires visit { IsVisit roads.now visit.now }
    requires span { 1 ≤ frame.now.span }
    requires most { 1 ≤ most }
    ensures { result ≡ customer_mark roads.now frame.now most visit.now }
{
    let spot = Spot {
        at: place_of(roads, frame, visit.row.customer),
        radius: radius_of(most, &roads.node(visit.row.customer)),
        visit: *visit,
    };
    if visit.row.is_planned() {
        Mark::Stop(spot)
    } else {
        Mark::Open(spot)
    }
}

/// Appends a mark for each row: a circle at its customer's place, filled where the customer is planned, and else hollow. Of the demands `most`
/// is the greatest.
pub fn push_customers(
    marks: &mut Vec<Mark>,
    roads: &Roads,
    frame: &Frame,
    most: u32,
    rows: &[Row],
) -> Result<(), AllocError>
    requires rows { AreRows roads.now rows.now }
    requires span { 1 ≤ frame.now.span }
    requires most { 1 ≤ most }
    ensures { OnOk result (marks.new.items ≡ marks.old.items ++ customers_before roads.now frame.now most rows.now (length rows.now)) }
{
    for k in 0..rows.len() {
        marks.push(customer_mark(roads, frame, most, &visit_at(roads, rows, k)))?;
    }
    Ok(())
}
