//! The rows of the last listing of an output.

ghost use Rattle.std.specs.Prelude.{◌≡◌, ◌<◌, ◌≤◌, [], length, map, IfOk, IfErr};
ghost use Rattle.std.specs.Bool.{OnTrue};
ghost use Rattle.text_words.specs.Words.{number};
ghost use Rattle.plan_sums.specs.Progress.{AreTaken, IsLineTaken, IsTakenBy};
ghost use Rattle.plan_sums.specs.Rows.{AreRows, fits, goes_after, is_in_order, is_row};
ghost use Rattle.plan_sums.specs.Reading.{AreLastRows, AreRowsAt, IsFault, IsFaultAt, row_of_words, planned_row, lone_row};

use crate::fault::RowsFault;
use crate::finding::{Span, last_listing};
use crate::lines::lines_of;
use crate::roads::Roads;
use crate::row::Row;
use limits::MOST_CUSTOMERS;
use std::alloc::{AllocError, Global};
use text_words::{keep_all_words, number_of};

/// The row of the numbers that these words are, with a vehicle and a place.
fn planned_row(
    vehicle: &[u8],
    place: &[u8],
    customer: &[u8],
    load: &[u8],
    early: &[u8],
) -> Option<Row>
    ensures { result ≡ planned_row (number vehicle.now) (number place.now) (number customer.now) (number load.now) (number early.now) }
{
    match (
        number_of(vehicle),
        number_of(place),
        number_of(customer),
        number_of(load),
        number_of(early),
    ) {
        (Some(vehicle), Some(place), Some(customer), Some(load), Some(early))
            if vehicle > 0 && place > 0 => {
            Some(Row {
                vehicle,
                place,
                customer,
                load,
                early,
            })
        }
        _ => None,
    }
}

/// The row of the numbers that these words are, with neither.
fn lone_row(vehicle: &[u8], place: &[u8], customer: &[u8]) -> Option<Row>
    ensures { result ≡ lone_row (number vehicle.now) (number place.now) (number customer.now) }
{
    match (number_of(vehicle), number_of(place), number_of(customer)) {
        (Some(0), Some(0), Some(customer)) => Some(Row {
            vehicle: 0,
            place: 0,
            customer,
            load: 0,
            early: 0,
        }),
        _ => None,
    }
}

/// The row that a line of these words is.
fn row_of_words(words: &[&[u8]]) -> Option<Row>
    ensures { result ≡ row_of_words (map (λ w. w.now) words.now) }
{
    match words {
        [_, v, p, c] => lone_row(v, p, c),
        [_, v, p, c, l, e] => planned_row(v, p, c, l, e),
        _ => None,
    }
}

/// Whether the numbers of a row are those of the instance.
fn is_row(roads: &Roads, row: &Row) -> bool
    ensures { result ≡ is_row roads.now row.now }
{
    row.vehicle <= roads.vehicles()
        && row.customer > 0
        && row.customer < roads.size()
        && row.place < roads.size()
}

/// Whether a row may come behind another.
fn goes_after(a: &Row, b: &Row) -> bool
    ensures { result ≡ goes_after a.now b.now }
{
    b.vehicle == 0
        || (a.vehicle > 0
            && (a.vehicle < b.vehicle || (a.vehicle == b.vehicle && a.place < b.place)))
}

/// Whether a row may come behind some rows.
fn is_in_order(before: &[Row], row: &Row) -> bool
    ensures { result ≡ is_in_order before.now row.now }
{
    before.is_empty() || goes_after(&before[before.len() - 1], row)
}

/// Rows of a listing so far, and for each node whether it has one.
#[derive(Drop)]
pub(crate) struct Taken {
    pub(crate) rows: Vec<Row>,
    pub(crate) seen: Vec<bool>,
}

impl Taken {
    /// No rows.
    fn none(alloc: Global, roads: &Roads) -> Result<Taken, AllocError>
        ensures { IfOk result (λ taken. (taken.rows.items ≡ []) × AreTaken roads.now taken.rows.items taken.seen.items) }
    {
        Ok(Taken {
            rows: Vec::new(alloc),
            seen: vec![in alloc; false; roads.nodes().len()]?,
        })
    }

    /// Whether a row may come behind these.
    fn fits(&self, roads: &Roads, row: &Row) -> bool
        requires { AreTaken roads.now self.now.rows.items self.now.seen.items }
        ensures value { result ≡ fits roads.now self.now.rows.items row.now }
        ensures few { OnTrue result (length self.now.rows.items < MOST_CUSTOMERS) }
    {
        self.rows.len() + 1 < roads.nodes().len()
            && is_row(roads, row)
            && is_in_order(self.rows.as_slice(), row)
            && !self.seen[row.customer as usize]
    }

    /// Takes a row, if it may come behind these.
    fn take(&mut self, roads: &Roads, row: Row) -> Result<bool, AllocError>
        requires { AreTaken roads.now self.old.rows.items self.old.seen.items }
        ensures { IfOk result (IsTakenBy roads.now self.old.rows.items self.new.rows.items self.new.seen.items row) }
    {
        if !self.fits(roads, &row) {
            return Ok(false);
        }
        self.seen[row.customer as usize] = true;
        self.rows.push(row)?;
        Ok(true)
    }
}

/// Takes the row of a line, if it is one that may come next.
fn take_line<'a>(
    taken: &mut Taken,
    roads: &Roads,
    words: &mut Vec<&'a [u8]>,
    line: &'a [u8],
) -> Result<bool, AllocError>
    requires { AreTaken roads.now taken.old.rows.items taken.old.seen.items }
    ensures { IfOk result (IsLineTaken roads.now taken.old.rows.items taken.new.rows.items taken.new.seen.items line.now) }
{
    keep_all_words(words, line)?;
    match row_of_words(words.as_slice()) {
        None => Ok(false),
        Some(row) => taken.take(roads, row),
    }
}

/// The rows of a listing, of which the places of its first row and of its end are given.
fn rows_of(alloc: Global, roads: &Roads, lines: &[&[u8]], span: Span) -> Result<Vec<Row>, RowsFault>
    requires order { span.first ≤ span.end }
    requires within { span.end < length lines.now }
    ensures ok { IfOk result (λ rows. AreRowsAt roads.now (map (λ w. w.now) lines.now) span rows.items) }
    ensures rows { IfOk result (λ rows. AreRows roads.now rows.items) }
    ensures err { IfErr result (IsFaultAt roads.now (map (λ w. w.now) lines.now) span) }
{
    let mut taken = Taken::none(alloc, roads)?;
    let mut words = Vec::new(alloc);
    for k in span.first..span.end {
        if !take_line(&mut taken, roads, &mut words, lines[k])? {
            return Err(RowsFault::Line(k + 1));
        }
    }
    Ok(taken.rows)
}

/// The rows of the last listing of an output: of the lines `row ..` that come together, right before the last line `end` that has such lines
/// before it. All other lines are skipped.
///
/// A row has to be one of the instance: its vehicle, its customer and its place are there, rows come by vehicle and place, those of customers
/// who are not planned come last, and no customer has two. The first that is not is the fault; so is the end of an output without a listing.
pub fn read_rows(alloc: Global, roads: &Roads, text: &[u8]) -> Result<Vec<Row>, RowsFault>
    ensures ok { IfOk result (λ rows. AreLastRows roads.now text.now rows.items) }
    ensures rows { IfOk result (λ rows. AreRows roads.now rows.items) }
    ensures err { IfErr result (IsFault roads.now text.now) }
{
    let lines = lines_of(alloc, text)?;
    match last_listing(alloc, lines.as_slice())? {
        Some(span) => rows_of(alloc, roads, lines.as_slice(), span),
        None => Err(RowsFault::Line(lines.len() + 1)),
    }
}
