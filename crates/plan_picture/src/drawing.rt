//! The marks of a picture, in the order in which they are drawn.

ghost use Rattle.std.specs.Prelude.{◌≡◌, ◌<◌, ◌≤◌, ◌++◌, ◌∷◌, [], IfOk, OnOk, length};
ghost use Rattle.plan_sums.specs.Rows.{AreRows};
ghost use Rattle.plan_sums.specs.Visits.{IsVisit, visit_at};
ghost use Rattle.plan_picture.specs.Drawn.{IsLayout};
ghost use Rattle.plan_picture.specs.Marks.{leg_of, leg_in, leg_home, legs_of, label_of, labels_of, depot_mark, tick_at, lane_of, lanes_of, legs_before, labels_before, ticks_before, lanes_before, map_of, marks_of};

use crate::layout::Layout;
use crate::scale::x_of;
use limits::{LONGEST_TRAVEL, MOST_CUSTOMERS, MOST_VEHICLES};
use plan_marks::{
    Depot, Label, Lane, Leg, Mark, Tick, place_of, point_of, push_customers, push_entries,
};
use plan_sums::{Roads, Row, Tour, Visit, visit_at};
use std::alloc::{AllocError, Global};

/// The most nodes whose customers have their numbers on the map.
const MOST_LABELLED: u32 = 101;

/// Appends a mark.
fn push_mark(marks: &mut Vec<Mark>, mark: Mark) -> Result<(), AllocError>
    ensures { OnOk result (marks.new.items ≡ marks.old.items ++ mark ∷ []) }
{
    marks.push(mark)?;
    Ok(())
}

// ---- the ways

/// A way of a vehicle from a node to another.
fn leg_of(roads: &Roads, layout: &Layout, vehicle: u32, from: u32, to: u32) -> Mark
    requires from { from < length roads.now.nodes }
    requires to { to < length roads.now.nodes }
    requires layout { IsLayout layout.now }
    ensures { result ≡ leg_of roads.now layout.now vehicle from to }
{
    Mark::Leg(Leg {
        vehicle,
        from,
        to,
        start: place_of(roads, &layout.frame, from),
        end: place_of(roads, &layout.frame, to),
        way: roads.travel(from, to),
    })
}

/// Appends the way to a visit, where the node before is known.
fn push_leg_in(
    marks: &mut Vec<Mark>,
    roads: &Roads,
    layout: &Layout,
    visit: &Visit,
) -> Result<(), AllocError>
    requires visit { IsVisit roads.now visit.now }
    requires layout { IsLayout layout.now }
    ensures { OnOk result (marks.new.items ≡ marks.old.items ++ leg_in roads.now layout.now visit.now) }
{
    match visit.from {
        None => Ok(()),
        Some(from) => {
            let row = visit.row;
            push_mark(
                marks,
                leg_of(roads, layout, row.vehicle, from, row.customer),
            )
        }
    }
}

/// Appends the way home from a vehicle's last stop.
fn push_leg_home(
    marks: &mut Vec<Mark>,
    roads: &Roads,
    layout: &Layout,
    visit: &Visit,
) -> Result<(), AllocError>
    requires visit { IsVisit roads.now visit.now }
    requires layout { IsLayout layout.now }
    ensures { OnOk result (marks.new.items ≡ marks.old.items ++ leg_home roads.now layout.now visit.now) }
{
    if !visit.is_last {
        return Ok(());
    }
    let row = visit.row;
    push_mark(marks, leg_of(roads, layout, row.vehicle, row.customer, 0))
}

/// Appends the ways of a visit.
fn push_legs(
    marks: &mut Vec<Mark>,
    roads: &Roads,
    layout: &Layout,
    visit: &Visit,
) -> Result<(), AllocError>
    requires visit { IsVisit roads.now visit.now }
    requires layout { IsLayout layout.now }
    ensures { OnOk result (marks.new.items ≡ marks.old.items ++ legs_of roads.now layout.now visit.now) }
{
    if !visit.row.is_planned() {
        return Ok(());
    }
    push_leg_in(marks, roads, layout, visit)?;
    push_leg_home(marks, roads, layout, visit)
}

/// Appends the ways of all rows.
fn push_all_legs(
    marks: &mut Vec<Mark>,
    roads: &Roads,
    layout: &Layout,
    rows: &[Row],
) -> Result<(), AllocError>
    requires rows { AreRows roads.now rows.now }
    requires layout { IsLayout layout.now }
    ensures { OnOk result (marks.new.items ≡ marks.old.items ++ legs_before roads.now layout.now rows.now (length rows.now)) }
{
    for k in 0..rows.len() {
        push_legs(marks, roads, layout, &visit_at(roads, rows, k))?;
    }
    Ok(())
}

// ---- the numbers and the depot

/// The number of a row's customer.
fn label_of(roads: &Roads, layout: &Layout, visit: &Visit) -> Mark
    requires visit { IsVisit roads.now visit.now }
    requires layout { IsLayout layout.now }
    ensures { result ≡ label_of roads.now layout.now visit.now }
{
    let customer = visit.row.customer;
    Mark::Label(Label {
        at: place_of(roads, &layout.frame, customer),
        customer,
    })
}

/// Appends the number of a row's customer, where there are not more than 100 customers.
fn push_label(
    marks: &mut Vec<Mark>,
    roads: &Roads,
    layout: &Layout,
    visit: &Visit,
) -> Result<(), AllocError>
    requires visit { IsVisit roads.now visit.now }
    requires layout { IsLayout layout.now }
    ensures { OnOk result (marks.new.items ≡ marks.old.items ++ labels_of roads.now layout.now visit.now) }
{
    if roads.size() > MOST_LABELLED {
        return Ok(());
    }
    push_mark(marks, label_of(roads, layout, visit))
}

/// Appends the numbers of all rows.
fn push_labels(
    marks: &mut Vec<Mark>,
    roads: &Roads,
    layout: &Layout,
    rows: &[Row],
) -> Result<(), AllocError>
    requires rows { AreRows roads.now rows.now }
    requires layout { IsLayout layout.now }
    ensures { OnOk result (marks.new.items ≡ marks.old.items ++ labels_before roads.now layout.now rows.now (length rows.now)) }
{
    for k in 0..rows.len() {
        push_label(marks, roads, layout, &visit_at(roads, rows, k))?;
    }
    Ok(())
}

/// The depot.
fn depot_mark(roads: &Roads, layout: &Layout) -> Mark
    requires { IsLayout layout.now }
    ensures { result ≡ depot_mark roads.now layout.now }
{
    let depot = roads.depot();
    Mark::Depot(Depot {
        at: point_of(&layout.frame, &depot),
        ready: depot.ready,
        due: depot.due,
    })
}

// ---- the timelines

/// A line across the timelines.
fn tick_at(layout: &Layout, i: u64) -> Mark
    requires layout { IsLayout layout.now }
    requires few { i ≤ 4 }
    ensures { result ≡ tick_at layout.now i }
{
    Mark::Tick(Tick {
        x: 1600 + 2700 * i,
        top: layout.top.saturating_sub(60),
        bottom: layout.bottom,
        time: layout.clock.from + layout.clock.span * i / 4,
    })
}

/// Appends a line for the start, the end and each quarter.
fn push_ticks(marks: &mut Vec<Mark>, layout: &Layout) -> Result<(), AllocError>
    requires { IsLayout layout.now }
    ensures { OnOk result (marks.new.items ≡ marks.old.items ++ ticks_before layout.now 5) }
{
    for i in 0..5 {
        push_mark(marks, tick_at(layout, i))?;
    }
    Ok(())
}

/// The lane of a stop.
fn lane_of(layout: &Layout, k: usize, visit: &Visit) -> Lane
    requires layout { IsLayout layout.now }
    requires leave { visit.now.leave ≤ 4394967285 }
    requires home { visit.now.home ≤ LONGEST_TRAVEL }
    requires few { k ≤ MOST_CUSTOMERS }
    ensures { result ≡ lane_of layout.now k visit.now }
{
    let clock = layout.clock;
    let back = if visit.is_last {
        visit.leave + visit.home
    } else {
        visit.leave
    };
    Lane {
        y: layout.top + 160 * k as u64,
        visit: *visit,
        ready: x_of(&clock, visit.node.ready as u64 * 10),
        due: x_of(&clock, visit.node.due as u64 * 10),
        depart: x_of(&clock, visit.arrival.saturating_sub(visit.way)),
        arrival: x_of(&clock, visit.arrival),
        early: x_of(&clock, visit.row.early as u64),
        leave: x_of(&clock, visit.leave),
        back: x_of(&clock, back),
    }
}

/// Appends the lane of a visit, if it is planned.
fn push_lane(
    marks: &mut Vec<Mark>,
    layout: &Layout,
    k: usize,
    visit: &Visit,
) -> Result<(), AllocError>
    requires layout { IsLayout layout.now }
    requires leave { visit.now.leave ≤ 4394967285 }
    requires home { visit.now.home ≤ LONGEST_TRAVEL }
    requires few { k ≤ MOST_CUSTOMERS }
    ensures { OnOk result (marks.new.items ≡ marks.old.items ++ lanes_of layout.now k visit.now) }
{
    if !visit.row.is_planned() {
        return Ok(());
    }
    push_mark(marks, Mark::Lane(lane_of(layout, k, visit)))
}

/// Appends a lane for each planned row.
fn push_lanes(
    marks: &mut Vec<Mark>,
    roads: &Roads,
    layout: &Layout,
    rows: &[Row],
) -> Result<(), AllocError>
    requires rows { AreRows roads.now rows.now }
    requires layout { IsLayout layout.now }
    ensures { OnOk result (marks.new.items ≡ marks.old.items ++ lanes_before roads.now layout.now rows.now (length rows.now)) }
{
    for k in 0..rows.len() {
        push_lane(marks, layout, k, &visit_at(roads, rows, k))?;
    }
    Ok(())
}

// ---- the picture

/// Appends the marks of the map: the ways of the vehicles, a mark for each row of the listing, the depot over them, and their numbers.
fn push_map(
    marks: &mut Vec<Mark>,
    roads: &Roads,
    layout: &Layout,
    rows: &[Row],
) -> Result<(), AllocError>
    requires rows { AreRows roads.now rows.now }
    requires layout { IsLayout layout.now }
    ensures { OnOk result (marks.new.items ≡ marks.old.items ++ map_of roads.now layout.now rows.now) }
{
    push_all_legs(marks, roads, layout, rows)?;
    push_customers(marks, roads, &layout.frame, layout.most, rows)?;
    push_mark(marks, depot_mark(roads, layout))?;
    push_labels(marks, roads, layout, rows)
}

/// The marks of the picture of a listing, with its layout and its sums, the lower ones first: on the map the ways of the vehicles, a mark for each
/// row of the listing, the depot over them, and their numbers; then the table; then the timelines. No other customer is drawn.
pub fn picture(
    alloc: Global,
    roads: &Roads,
    layout: &Layout,
    rows: &[Row],
    tours: &[Tour],
) -> Result<Vec<Mark>, AllocError>
    requires rows { AreRows roads.now rows.now }
    requires tours { length tours.now ≤ MOST_VEHICLES }
    requires layout { IsLayout layout.now }
    ensures { IfOk result (λ marks. marks.items ≡ marks_of roads.now layout.now rows.now tours.now) }
{
    let mut marks = Vec::new(alloc);
    push_map(&mut marks, roads, layout, rows)?;
    push_entries(&mut marks, roads, tours)?;
    push_ticks(&mut marks, layout)?;
    push_lanes(&mut marks, roads, layout, rows)?;
    Ok(marks)
}
