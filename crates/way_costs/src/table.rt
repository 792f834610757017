//! What the ways between stops cost, asked once and kept.
ghost use Rattle.std.specs.Prelude.{◌≡◌, ◌≢◌, ◌≤◌, ◌<◌, ◌+◌, ◌-◌, ◌*◌, ◌==◌, if◌then◌else◌, ℕ, true, false, length, slice_index, take, drop, All, IfOk, IfSome};
ghost use Rattle.callback_store.specs.Tables.{table_at};
ghost use Rattle.dimension_core.specs.Setup.{setting};
ghost use Rattle.way_costs.specs.Known.{AreAlike, AreAnswers};
ghost use Rattle.way_costs.specs.Ways.{hop, hop_by, AreHopsFrom, AreFloors, AreEdges, IsTurned};

use crate::known::{is_read_across, known_by, known_ways};
use callback_store::{Callback, Slot};
use dimension_core::Setup;
use limits::MOST_STOPS;
use std::alloc::AllocError;

/// The greatest number, which is what the least of no numbers is.
const NONE: u32 = 4_294_967_295;

/// Up to so many ways are asked with a look for the least of them, which takes longer than it saves where there are more.
const FEW: usize = 9;

/// Where the ways of a table are had from, as they are driven or driven back: the cost callback, or all its answers where it was given as
/// these, read across or not.
#[derive(Drop)]
struct Asking<'a, C> {
    callback: &'a C,
    known: Option<&'a [u32]>,
    across: bool,
    turned: bool,
}

// The callback is asked right in the loops: each function in between would cost one more test after every answer.

/// What the ways from a customer to each of some stops cost, asked one by one, and a number that none of them is below.
#[inline(always)]
fn ask_out<C: Callback>(callback: &C, stop: u32, to: &[u32], row: &mut [u32]) -> u32
    requires customer { 1 ≤ stop }
    requires stop { stop < (C.table callback.now).size }
    requires to { All (λ c. c < (C.table callback.now).size) to.now }
    requires room { length row.old ≡ length to.now }
    ensures sized { length row.new ≡ length to.now }
    ensures ways { (k : ℕ) → k < length to.now
        → slice_index row.new k ≡ hop_by false (C.table callback.now) stop (slice_index to.now k) }
    ensures least { All (λ x. result ≤ x) row.new }
{
    let mut least = NONE;
    for k in 0..to.len() {
        let way = callback.answer_way(stop, to[k]) as u32;
        row[k] = way;
        least = least.min(way);
    }
    least
}

/// What the ways to a customer from each of some stops cost, asked one by one, and a number that none of them is below.
#[inline(always)]
fn ask_back<C: Callback>(callback: &C, stop: u32, to: &[u32], row: &mut [u32]) -> u32
    requires customer { 1 ≤ stop }
    requires stop { stop < (C.table callback.now).size }
    requires to { All (λ c. c < (C.table callback.now).size) to.now }
    requires room { length row.old ≡ length to.now }
    ensures sized { length row.new ≡ length to.now }
    ensures ways { (k : ℕ) → k < length to.now
        → slice_index row.new k ≡ hop_by true (C.table callback.now) stop (slice_index to.now k) }
    ensures least { All (λ x. result ≤ x) row.new }
{
    let mut least = NONE;
    for k in 0..to.len() {
        let way = callback.answer_way(to[k], stop) as u32;
        row[k] = way;
        least = least.min(way);
    }
    least
}

// Many ways are asked in functions of their own, whose loops then have all registers.

/// What the ways from a customer to each of many stops cost, asked one by one.
#[inline(never)]
fn ask_many_out<C: Callback>(callback: &C, stop: u32, to: &[u32], row: &mut [u32])
    requires customer { 1 ≤ stop }
    requires stop { stop < (C.table callback.now).size }
    requires to { All (λ c. c < (C.table callback.now).size) to.now }
    requires room { length row.old ≡ length to.now }
    ensures sized { length row.new ≡ length to.now }
    ensures ways { (k : ℕ) → k < length to.now
        → slice_index row.new k ≡ hop_by false (C.table callback.now) stop (slice_index to.now k) }
{
    for k in 0..to.len() {
        row[k] = callback.answer_way(stop, to[k]) as u32;
    }
}

/// What the ways to a customer from each of many stops cost, asked one by one.
#[inline(never)]
fn ask_many_back<C: Callback>(callback: &C, stop: u32, to: &[u32], row: &mut [u32])
    requires customer { 1 ≤ stop }
    requires stop { stop < (C.table callback.now).size }
    requires to { All (λ c. c < (C.table callback.now).size) to.now }
    requires room { length row.old ≡ length to.now }
    ensures sized { length row.new ≡ length to.now }
    ensures ways { (k : ℕ) → k < length to.now
        → slice_index row.new k ≡ hop_by true (C.table callback.now) stop (slice_index to.now k) }
{
    for k in 0..to.len() {
        row[k] = callback.answer_way(to[k], stop) as u32;
    }
}

/// What the ways from a customer to each of many stops cost, as they are driven or driven back.
#[inline(always)]
fn ask_many<C: Callback>(callback: &C, turned: bool, stop: u32, to: &[u32], row: &mut [u32])
    requires customer { 1 ≤ stop }
    requires stop { stop < (C.table callback.now).size }
    requires to { All (λ c. c < (C.table callback.now).size) to.now }
    requires room { length row.old ≡ length to.now }
    ensures sized { length row.new ≡ length to.now }
    ensures ways { (k : ℕ) → k < length to.now → slice_index row.new k ≡ hop_by turned (C.table callback.now) stop (slice_index to.now k) }
{
    if turned {
        ask_many_back(callback, stop, to, row);
    } else {
        ask_many_out(callback, stop, to, row);
    }
}

/// What the way between the depot and a stop costs, as it is driven or driven back. A vehicle that stays there drives no way.
#[inline(always)]
fn way_from_depot<C: Callback>(callback: &C, turned: bool, stop: u32) -> u32
    requires depot { 0 < (C.table callback.now).size }
    requires stop { stop < (C.table callback.now).size }
    ensures { result ≡ hop_by turned (C.table callback.now) 0 stop }
{
    if stop == 0 {
        return 0;
    }
    if turned {
        callback.answer_way(stop, 0) as u32
    } else {
        callback.answer_way(0, stop) as u32
    }
}

/// What the ways from the depot to each of some stops cost, as they are driven or driven back, asked one by one.
#[inline(always)]
fn ask_from_depot<C: Callback>(callback: &C, turned: bool, to: &[u32], row: &mut [u32])
    requires depot { 0 < (C.table callback.now).size }
    requires to { All (λ c. c < (C.table callback.now).size) to.now }
    requires room { length row.old ≡ length to.now }
    ensures sized { length row.new ≡ length to.now }
    ensures ways { (k : ℕ) → k < length to.now → slice_index row.new k ≡ hop_by turned (C.table callback.now) 0 (slice_index to.now k) }
{
    for k in 0..to.len() {
        row[k] = way_from_depot(callback, turned, to[k]);
    }
}

/// What the ways from a stop to each of some others cost, as they are driven or driven back, read from all answers of the cost callback, and a
/// number that none of them is below.
#[inline(always)]
fn read_row(
    setup: &Setup,
    answers: &[u32],
    turned: bool,
    stop: u32,
    to: &[u32],
    row: &mut [u32],
) -> u32
    requires known { AreAnswers (setting setup.now) answers.now }
    requires stop { stop ≤ (setting setup.now).customers }
    requires to { All (λ c. c ≤ (setting setup.now).customers) to.now }
    requires room { length row.old ≡ length to.now }
    ensures sized { length row.new ≡ length to.now }
    ensures ways { (k : ℕ) → k < length to.now
        → slice_index row.new k ≡ hop_by turned (table_at (setting setup.now).tables (setting setup.now).cost) stop (slice_index to.now k) }
    ensures least { All (λ x. result ≤ x) row.new }
{
    let mut least = NONE;
    for k in 0..to.len() {
        let way = known_by(setup, answers, turned, stop, to[k]);
        row[k] = way;
        least = least.min(way);
    }
    least
}

/// What the ways from a stop to each of some others cost, as they are driven or driven back, and a number that none of them is below.
#[inline(always)]
fn fill_row<C: Callback>(
    setup: &Setup,
    asking: &Asking<C>,
    stop: u32,
    to: &[u32],
    row: &mut [u32],
) -> u32
    requires answers { C.table asking.now.callback.now ≡ table_at (setting setup.now).tables (setting setup.now).cost }
    requires nodes { (C.table asking.now.callback.now).size ≡ (setting setup.now).customers + 1 }
    requires known { IfSome asking.now.known (λ a. AreAnswers (setting setup.now) a.now) }
    requires across { AreAlike (setting setup.now) asking.now.across asking.now.turned }
    requires stop { stop ≤ (setting setup.now).customers }
    requires to { All (λ c. c ≤ (setting setup.now).customers) to.now }
    requires room { length row.old ≡ length to.now }
    ensures sized { length row.new ≡ length to.now }
    ensures ways { (k : ℕ) → k < length to.now → slice_index row.new k
        ≡ hop_by asking.now.turned (table_at (setting setup.now).tables (setting setup.now).cost) stop (slice_index to.now k) }
    ensures least { All (λ x. result ≤ x) row.new }
{
    let turned = asking.turned;
    if let Some(answers) = asking.known {
        return read_row(setup, answers, asking.across, stop, to, row);
    }
    if stop == 0 {
        ask_from_depot(asking.callback, turned, to, row);
        return 0;
    }
    if to.len() > FEW {
        ask_many(asking.callback, turned, stop, to, row);
        return 0;
    }
    if turned {
        ask_back(asking.callback, stop, to, row)
    } else {
        ask_out(asking.callback, stop, to, row)
    }
}

/// Fills in a row of a table, from a place on. The result is a number that none of the row's is below.
#[inline(always)]
fn fill_at<C: Callback>(
    setup: &Setup,
    asking: &Asking<C>,
    stop: u32,
    to: &[u32],
    cells: &mut [u32],
    at: usize,
) -> u32
    requires answers { C.table asking.now.callback.now ≡ table_at (setting setup.now).tables (setting setup.now).cost }
    requires nodes { (C.table asking.now.callback.now).size ≡ (setting setup.now).customers + 1 }
    requires known { IfSome asking.now.known (λ a. AreAnswers (setting setup.now) a.now) }
    requires across { AreAlike (setting setup.now) asking.now.across asking.now.turned }
    requires stop { stop ≤ (setting setup.now).customers }
    requires to { All (λ c. c ≤ (setting setup.now).customers) to.now }
    requires room { at + length to.now ≤ length cells.old }
    ensures sized { length cells.new ≡ length cells.old }
    ensures ways { (k : ℕ) → k < length to.now → slice_index cells.new (at + k)
        ≡ hop_by asking.now.turned (table_at (setting setup.now).tables (setting setup.now).cost) stop (slice_index to.now k) }
    ensures kept { (k : ℕ) → k < at → slice_index cells.new k ≡ slice_index cells.old k }
    ensures least { (k : ℕ) → k < length to.now → result ≤ slice_index cells.new (at + k) }
{
    let row = &mut cells[at..at + to.len()];
    fill_row(setup, asking, stop, to, row)
}

/// What stands in a table before it is filled. Its bytes differ, so that a table is made by wide stores and not byte by byte.
const UNFILLED: u32 = 1;

/// Some stops without the last one, or without the first one.
#[inline(always)]
fn all_but_one(stops: &[u32], begin: usize) -> &[u32]
    requires begin { begin ≤ 1 }
    requires some { 1 ≤ length stops.now }
    ensures { result.now ≡ take (length stops.now - 1) (drop begin stops.now) }
{
    &stops[begin..begin + stops.len() - 1]
}

/// The first row of a table that is filled: no way back begins at the first stop.
fn first_row(turned: bool) -> usize
    ensures value { result ≡ (if turned then 1 else 0) }
    ensures small { result ≤ 1 }
{
    if turned { 1 } else { 0 }
}

/// The first column that is filled: no way goes to the first stop.
fn first_column(turned: bool) -> usize
    ensures value { result ≡ (if turned then 0 else 1) }
    ensures small { result ≤ 1 }
{
    if turned { 0 } else { 1 }
}

/// The column that is not filled.
fn spare_column(column: usize, width: usize) -> usize
    requires column { column ≤ 1 }
    requires some { 1 ≤ width }
    ensures value { result ≡ (if column == 0 then width - 1 else 0) }
    ensures small { result < width }
    ensures apart { (b : ℕ) → column ≤ b → b + 1 < width + column → b ≢ result }
{
    if column == 0 { width - 1 } else { 0 }
}

/// Fills the rows of a table with what the ways from each of some stops to each of others cost.
#[inline(always)]
fn fill_rows<C: Callback>(
    setup: &Setup,
    asking: &Asking<C>,
    from: &[u32],
    to: &[u32],
    cells: &mut [u32],
)
    requires answers { C.table asking.now.callback.now ≡ table_at (setting setup.now).tables (setting setup.now).cost }
    requires nodes { (C.table asking.now.callback.now).size ≡ (setting setup.now).customers + 1 }
    requires known { IfSome asking.now.known (λ a. AreAnswers (setting setup.now) a.now) }
    requires across { AreAlike (setting setup.now) asking.now.across asking.now.turned }
    requires from { All (λ c. c ≤ (setting setup.now).customers) from.now }
    requires to { All (λ c. c ≤ (setting setup.now).customers) to.now }
    requires some { (1 ≤ length from.now) × (1 ≤ length to.now) }
    requires short { (length from.now ≤ MOST_STOPS) × (length to.now ≤ MOST_STOPS) }
    requires room { length cells.old ≡ length from.now * length to.now }
    ensures hops { AreHopsFrom asking.now.turned (table_at (setting setup.now).tables (setting setup.now).cost) from.now to.now
        (if asking.now.turned then 1 else 0) (if asking.now.turned then 0 else 1) cells.new }
    ensures floors { AreFloors from.now to.now (if asking.now.turned then 1 else 0) (if asking.now.turned then 0 else 1)
        cells.new }
{
    let width = to.len();
    let first = first_row(asking.turned);
    let column = first_column(asking.turned);
    let spare = spare_column(column, width);
    let asked = all_but_one(to, column);
    for i in first..first + from.len() - 1 {
        let least = fill_at(setup, asking, from[i], asked, cells, i * width + column);
        cells[i * width + spare] = least;
    }
}

/// The same, with the cost callback at hand, whose kind is then looked at once and not at each ask.
fn fill_by<C: Callback>(
    setup: &Setup,
    callback: &C,
    turned: bool,
    from: &[u32],
    to: &[u32],
    cells: &mut [u32],
)
    requires answers { C.table callback.now ≡ table_at (setting setup.now).tables (setting setup.now).cost }
    requires nodes { (C.table callback.now).size ≡ (setting setup.now).customers + 1 }
    requires from { All (λ c. c ≤ (setting setup.now).customers) from.now }
    requires to { All (λ c. c ≤ (setting setup.now).customers) to.now }
    requires some { (1 ≤ length from.now) × (1 ≤ length to.now) }
    requires short { (length from.now ≤ MOST_STOPS) × (length to.now ≤ MOST_STOPS) }
    requires room { length cells.old ≡ length from.now * length to.now }
    ensures hops { AreHopsFrom turned (table_at (setting setup.now).tables (setting setup.now).cost) from.now to.now
        (if turned then 1 else 0) (if turned then 0 else 1) cells.new }
    ensures floors { AreFloors from.now to.now (if turned then 1 else 0) (if turned then 0 else 1) cells.new }
{
    let asking = Asking {
        callback,
        known: known_ways(setup),
        across: is_read_across(setup, turned),
        turned,
    };
    fill_rows(setup, &asking, from, to, cells)
}

/// The same, by whichever kind of callback there is.
#[inline(always)]
fn fill_cells(setup: &Setup, turned: bool, from: &[u32], to: &[u32], cells: &mut [u32])
    requires from { All (λ c. c ≤ (setting setup.now).customers) from.now }
    requires to { All (λ c. c ≤ (setting setup.now).customers) to.now }
    requires some { (1 ≤ length from.now) × (1 ≤ length to.now) }
    requires short { (length from.now ≤ MOST_STOPS) × (length to.now ≤ MOST_STOPS) }
    requires room { length cells.old ≡ length from.now * length to.now }
    ensures hops { AreHopsFrom turned (table_at (setting setup.now).tables (setting setup.now).cost) from.now to.now
        (if turned then 1 else 0) (if turned then 0 else 1) cells.new }
    ensures floors { AreFloors from.now to.now (if turned then 1 else 0) (if turned then 0 else 1) cells.new }
{
    match setup.registry().callback(setup.cost()) {
        Slot::Pair(callback) => fill_by(setup, callback, turned, from, to, cells),
        Slot::Node(callback) => fill_by(setup, callback, turned, from, to, cells),
        Slot::Listed(callback) => fill_by(setup, callback, turned, from, to, cells),
        Slot::Values(callback) => fill_by(setup, callback, turned, from, to, cells),
        Slot::Stayed(callback) => fill_by(setup, callback, turned, from, to, cells),
    }
}

/// Fills a table with what the ways from each of some stops to each of others cost, row by row, as they are driven or driven back. What
/// it held is given up. No way goes from the last of the first stops or to the first of the others, or back. Where a row lacks a way
/// for that, it has a number that none of its ways is below.
pub fn fill_ways(
    setup: &Setup,
    turned: bool,
    from: &[u32],
    to: &[u32],
    cells: &mut Vec<u32>,
) -> Result<(), AllocError>
    requires from { All (λ c. c ≤ (setting setup.now).customers) from.now }
    requires to { All (λ c. c ≤ (setting setup.now).customers) to.now }
    requires some { (1 ≤ length from.now) × (1 ≤ length to.now) }
    requires short { (length from.now ≤ MOST_STOPS) × (length to.now ≤ MOST_STOPS) }
    ensures hops { IfOk result (λ _. AreHopsFrom turned (table_at (setting setup.now).tables (setting setup.now).cost) from.now
        to.now (if turned then 1 else 0) (if turned then 0 else 1) cells.new.items) }
    ensures floors { IfOk result (λ _. AreFloors from.now to.now (if turned then 1 else 0) (if turned then 0 else 1)
        cells.new.items) }
{
    cells.resize(from.len() * to.len(), UNFILLED)?;
    fill_cells(setup, turned, from, to, cells.as_mut_slice());
    Ok(())
}

/// What the way from a stop to the next one costs, with the cost callback at hand. A vehicle that stays at the depot drives no way.
#[inline(always)]
fn way_between<C: Callback>(callback: &C, i: u32, j: u32) -> u32
    requires from { i < (C.table callback.now).size }
    requires to { j < (C.table callback.now).size }
    ensures { result ≡ hop (C.table callback.now) i j }
{
    if j == 0 && i == 0 {
        return 0;
    }
    callback.answer_way(i, j) as u32
}

/// What the way from each stop to the next one costs, with the cost callback at hand.
fn edges_by<C: Callback>(callback: &C, stops: &[u32], edges: &mut [u32])
    requires known { All (λ c. c < (C.table callback.now).size) stops.now }
    requires room { length edges.old + 1 ≡ length stops.now }
    ensures { AreEdges (C.table callback.now) stops.now edges.new }
{
    for k in 0..stops.len() - 1 {
        edges[k] = way_between(callback, stops[k], stops[k + 1]);
    }
}

/// What the way from each stop to the next one costs, by whichever kind of callback there is.
#[inline(always)]
fn ask_edges(setup: &Setup, stops: &[u32], edges: &mut [u32])
    requires known { All (λ c. c ≤ (setting setup.now).customers) stops.now }
    requires room { length edges.old + 1 ≡ length stops.now }
    ensures { AreEdges (table_at (setting setup.now).tables (setting setup.now).cost) stops.now edges.new }
{
    match setup.registry().callback(setup.cost()) {
        Slot::Pair(callback) => edges_by(callback, stops, edges),
        Slot::Node(callback) => edges_by(callback, stops, edges),
        Slot::Listed(callback) => edges_by(callback, stops, edges),
        Slot::Values(callback) => edges_by(callback, stops, edges),
        Slot::Stayed(callback) => edges_by(callback, stops, edges),
    }
}

/// Puts what the way from each stop to the next one costs in place of what `edges` held.
pub fn fill_edges(setup: &Setup, stops: &[u32], edges: &mut Vec<u32>) -> Result<(), AllocError>
    requires known { All (λ c. c ≤ (setting setup.now).customers) stops.now }
    requires some { 1 ≤ length stops.now }
    ensures { IfOk result (λ _. AreEdges (table_at (setting setup.now).tables (setting setup.now).cost) stops.now edges.new.items) }
{
    edges.resize(stops.len() - 1, UNFILLED)?;
    ask_edges(setup, stops, edges.as_mut_slice());
    Ok(())
}

/// The greatest of some numbers, and 0 where there are none.
pub fn most_of(edges: &[u32]) -> u32
    ensures above { All (λ x. x ≤ result) edges.now }
    ensures least { (bound : ℕ) → All (λ x. x ≤ bound) edges.now → result ≤ bound }
{
    let mut most = 0;
    for k in 0..edges.len() {
        most = most.max(edges[k]);
    }
    most
}

/// Puts a column of a table, but its last number, into a part of a row.
#[inline(always)]
fn turn_column(width: usize, cells: &[u32], column: usize, line: &mut [u32])
    requires sized { length cells.now ≡ width * width }
    requires short { width ≤ MOST_STOPS }
    requires room { length line.old + 1 ≡ width }
    requires column { column < width }
    ensures sized { length line.new ≡ length line.old }
    ensures cells { (k : ℕ) → k < length line.old → slice_index line.new k ≡ slice_index cells.now (k * width + column) }
{
    for j in 0..line.len() {
        line[j] = cells[j * width + column];
    }
}

/// Puts a column of a table, but its last number, into another one, from a place on.
#[inline(always)]
fn turn_at(width: usize, cells: &[u32], column: usize, back: &mut [u32], at: usize)
    requires sized { length cells.now ≡ width * width }
    requires short { width ≤ MOST_STOPS }
    requires column { column < width }
    requires room { at + (width - 1) ≤ length back.old }
    ensures sized { length back.new ≡ length back.old }
    ensures cells { (k : ℕ) → k < width - 1 → slice_index back.new (at + k) ≡ slice_index cells.now (k * width + column) }
    ensures kept { (k : ℕ) → k < at → slice_index back.new k ≡ slice_index back.old k }
{
    let line = &mut back[at..at + (width - 1)];
    turn_column(width, cells, column, line)
}

/// Puts the ways of a table, driven back, into another one.
#[inline(always)]
fn turn(width: usize, cells: &[u32], back: &mut [u32])
    requires sized { length cells.now ≡ width * width }
    requires room { length back.old ≡ width * width }
    requires short { width ≤ MOST_STOPS }
    ensures { IsTurned width width cells.now back.new }
{
    for i in 1..width {
        turn_at(width, cells, i, back, i * width);
    }
}

/// Fills a table with what the ways between some stops cost, driven back, by those as they are driven. What it held is given up.
#[inline(always)]
pub fn fill_turned(stops: &[u32], cells: &[u32], back: &mut Vec<u32>) -> Result<(), AllocError>
    requires sized { length cells.now ≡ length stops.now * length stops.now }
    requires short { length stops.now ≤ MOST_STOPS }
    ensures { IfOk result (λ _. IsTurned (length stops.now) (length stops.now) cells.now back.new.items) }
{
    let width = stops.len();
    back.resize(width * width, UNFILLED)?;
    turn(width, cells, back.as_mut_slice());
    Ok(())
}

/// One row of a table of `width` numbers a row; rows count from 0.
pub fn row(cells: &[u32], width: usize, index: usize) -> &[u32]
    requires high { index * width + width ≤ length cells.now }
    ensures sized { length result.now ≡ width }
    ensures cells { (k : ℕ) → k < width → slice_index result.now k ≡ slice_index cells.now (index * width + k) }
{
    &cells[index * width..index * width + width]
}
