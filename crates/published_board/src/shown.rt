//! The copy that desks read, and what changes it.
ghost use Rattle.std.specs.Prelude.{◌≡◌, ◌↔◌, ◌-◌, slice_set, option_to_list, IfOk, All, IsTrue};
ghost use Rattle.plan_core.specs.Plan.{route_at};
ghost use Rattle.published_board.specs.Told.{told};
ghost use Rattle.published_board.specs.Written.{written};
ghost use Rattle.published_board.specs.Lanes.{lanes_after, since_after};

use crate::change::Change;
use crate::trail::Trail;
use left_right::Absorb;
use plan_core::Route;
use std::alloc::{AllocError, Global};
use std::collections::LinkedList;
use std::marker::Model;
use std::sync::Arc;

/// Whose route a lane has, and since which entry. No value of it is made.
pub struct Mark {
    pub vehicle: u32,
    pub since: Trail,
    pub entry: u64,
}

/// What the copies have in common. No value of it is made.
pub struct Picture {
    pub base: Trail,
    pub cells: Shelf,
}

/// Cells, as lists. No value of it is made.
pub struct Shelf {
    pub lanes: LinkedList<Mark>,
    pub pins: LinkedList<Option<u32>>,
    pub frozen: LinkedList<u32>,
    pub version: u32,
    pub entries: u64,
    pub moved: u64,
    pub turned: u64,
}

/// The route of a vehicle, shared, and the number of the entry that gave it. The route is not there where one owner more could not be had,
/// and contracts do not see it: so taking in a step cannot fail.
#[derive(Drop)]
pub struct Lane {
    vehicle: u32,
    route: Option<Arc<Route>>,
    since: Trail,
    entry: u64,
}

impl Model for Lane {
    ghost use Rattle.std.specs.Prelude.{◌≡◌, MatchOption};
    ghost use Rattle.plan_core.specs.Plan.{route_at};
    ghost use Rattle.published_board.specs.declared.shown.Mark.{Mark};
    ghost use Rattle.published_board.specs.Told.{told};

    ghost Value = { Mark };

    ghost view = { λ l. record { vehicle = l.vehicle; since = l.since; entry = l.entry } };

    ghost invariant = { λ l. MatchOption l.route (Unit {0}) (λ r. r.value ≡ route_at (told l.since).routes l.vehicle) };
}

/// A plan, its pins and freezes: each vehicle has a cell for its route and one for its frozen length, and each customer one for its pin, so
/// that taking in a change writes fixed cells.
#[derive(Drop)]
pub struct Cells {
    /// The route of each vehicle, the first that of vehicle 1.
    pub lanes: Vec<Lane>,
    /// The vehicle to which each customer is pinned.
    pub pins: Vec<Option<u32>>,
    /// How many stops are frozen at the front of each vehicle's route.
    pub frozen: Vec<u32>,
    /// How many commits there were.
    pub version: u32,
    /// How many entries there were.
    pub entries: u64,
    /// The number of an entry after which no route changed.
    pub moved: u64,
    /// The number of an entry after which no pin and no frozen length changed.
    pub turned: u64,
}

/// What stands after the entries of which `base` tells.
#[derive(Drop)]
pub struct Shown {
    pub cells: Cells,
    pub base: Trail,
}

/// What one entry changes, its number, and the log with it.
#[derive(Drop)]
pub struct Step {
    pub change: Change,
    pub entries: u64,
    pub base: Trail,
    ghost first_is: { All (λ c. c.1.value ≡ route_at (told base).routes c.0) (option_to_list change.first) },
    ghost second_is: { All (λ c. c.1.value ≡ route_at (told base).routes c.0) (option_to_list change.second) },
}

impl Absorb<Step> for Shown {
    ghost use Rattle.published_board.specs.Pictures.{picture_of, after_step};

    type State = Picture;

    ghost state = { picture_of };

    ghost applied = { after_step };

    ghost never_fails = { Unit {0} };

    fn absorb_first(&mut self, operation: &Step, _other: &Shown) -> Result<(), AllocError> {
        let entries = operation.entries;
        let (change, base) = (&operation.change, &operation.base);
        put_new(&mut self.cells.lanes, &change.first, base, entries);
        put_new(&mut self.cells.lanes, &change.second, base, entries);
        self.cells.note(change, entries);
        self.base = base.again();
        Ok(())
    }

    /// The routes go from the step into the lanes, so that none has one owner more for a moment.
    fn absorb_second(&mut self, operation: Step, _other: &Shown) -> Result<(), Step> {
        let Step {
            change,
            entries,
            base,
        } = operation;
        self.cells.note(&change, entries);
        let Change {
            first,
            second,
            pins: _pins,
            front: _,
            version: _,
        } = change;
        give_new(&mut self.cells.lanes, first, &base, entries);
        give_new(&mut self.cells.lanes, second, &base, entries);
        self.base = base;
        Ok(())
    }
}

/// The number of the last change, once an entry made these changes.
fn since<C>(old: u64, entries: u64, changes: &[C]) -> u64
    ensures { result ≡ since_after old entries changes.now }
{
    if changes.is_empty() { old } else { entries }
}

/// The same, once an entry made this change, or none.
fn since_one<C>(old: u64, entries: u64, change: &Option<C>) -> u64
    ensures { result ≡ since_after old entries (option_to_list change.now) }
{
    if change.is_some() { entries } else { old }
}

impl Lane {
    /// A lane with a route that its vehicle has in the state of which the log tells.
    pub(crate) fn at(vehicle: u32, route: &Arc<Route>, since: &Trail, entry: u64) -> Lane
        requires { route.now.value ≡ route_at (told since.now).routes vehicle }
        ensures { result ≡ record { vehicle = vehicle; since = since.now; entry = entry } }
    {
        Lane {
            vehicle,
            route: Arc::try_clone(route).ok(),
            since: since.again(),
            entry,
        }
    }

    /// The same of a route that is given away.
    fn with(vehicle: u32, route: Arc<Route>, since: &Trail, entry: u64) -> Lane
        requires { route.value ≡ route_at (told since.now).routes vehicle }
        ensures { result ≡ record { vehicle = vehicle; since = since.now; entry = entry } }
    {
        Lane {
            vehicle,
            route: Some(route),
            since: since.again(),
            entry,
        }
    }

    /// The same lane.
    fn again(&self) -> Lane
        ensures { result ≡ self.now }
    {
        let route = match &self.route {
            Some(route) => Arc::try_clone(route).ok(),
            None => None,
        };
        Lane {
            vehicle: self.vehicle,
            route,
            since: self.since.again(),
            entry: self.entry,
        }
    }

    /// The vehicle whose route it is.
    pub(crate) fn vehicle(&self) -> u32
        ensures { result ≡ self.now.vehicle }
    {
        self.vehicle
    }

    /// The number of the entry that gave it.
    pub(crate) fn entry(&self) -> u64
        ensures { result ≡ self.now.entry }
    {
        self.entry
    }

    /// The route, with one owner more.
    pub(crate) fn route(&self) -> Result<Arc<Route>, AllocError>
        ensures { IfOk result (λ r. r.value ≡ route_at (told self.now.since).routes self.now.vehicle) }
    {
        match &self.route {
            Some(route) => match Arc::try_clone(route) {
                Ok(route) => Ok(route),
                Err(_) => Err(AllocError),
            },
            None => Err(AllocError),
        }
    }
}

/// Writes the lane of a vehicle that has a new route, if one has.
fn put_new(lanes: &mut Vec<Lane>, new: &Option<(u32, Arc<Route>)>, base: &Trail, entry: u64)
    requires { All (λ c. c.1.value ≡ route_at (told base.now).routes c.0) (option_to_list new.now) }
    ensures { lanes.new.items ≡ lanes_after base.now entry lanes.old.items (option_to_list new.now) }
{
    if let Some((vehicle, route)) = new {
        let lane = Lane::at(*vehicle, route, base, entry);
        put(lanes, *vehicle, lane);
    }
}

/// The same of a route that is given away.
fn give_new(lanes: &mut Vec<Lane>, new: Option<(u32, Arc<Route>)>, base: &Trail, entry: u64)
    requires { All (λ c. c.1.value ≡ route_at (told base.now).routes c.0) (option_to_list new) }
    ensures { lanes.new.items ≡ lanes_after base.now entry lanes.old.items (option_to_list new) }
{
    if let Some((vehicle, route)) = new {
        let lane = Lane::with(vehicle, route, base, entry);
        put(lanes, vehicle, lane);
    }
}

/// Writes the cell of a number, counted from 1, where it is there.
pub(crate) fn put<V: Drop>(cells: &mut Vec<V>, key: u32, value: V)
    ensures { cells.new.items ≡ slice_set cells.old.items (key - 1) value }
{
    let at = (key as usize).saturating_sub(1);
    if at < cells.len() {
        cells[at] = value;
    }
}

/// Writes each change whose cell is there, in order.
fn write_all<V: Copy>(cells: &mut Vec<V>, changes: &[(u32, V)])
    ensures { cells.new.items ≡ written cells.old.items changes.now }
{
    for change in changes {
        let (key, value) = *change;
        write(cells, key, value);
    }
}

/// Writes the cell of a number, counted from 1, where it is there.
fn write<V: Copy>(cells: &mut Vec<V>, key: u32, value: V)
    ensures { cells.new.items ≡ slice_set cells.old.items (key - 1) value }
{
    let at = (key as usize).saturating_sub(1);
    if at < cells.len() {
        cells[at] = value;
    }
}

/// The same lanes once more.
fn again(alloc: Global, lanes: &[Lane]) -> Result<Vec<Lane>, AllocError>
    ensures { IfOk result (λ v. v.items ≡ lanes.now) }
{
    let mut made = Vec::with_capacity(alloc, lanes.len())?;
    for lane in lanes {
        made.push(lane.again())?;
    }
    Ok(made)
}

impl Cells {
    ghost use Rattle.published_board.specs.Shelves.{cells_of};

    /// Writes the pins and the frozen length that an entry of this number changes, the version after it, and what changed last with it. The
    /// lanes are left.
    fn note(&mut self, change: &Change, entries: u64)
        ensures { cells_of self.new ≡ record (cells_of self.old) {
          pins = written self.old.pins.items change.now.pins.items;
          frozen = written self.old.frozen.items (option_to_list change.now.front);
          version = change.now.version;
          entries = entries;
          moved = since_after (since_after self.old.moved entries (option_to_list change.now.first)) entries
              (option_to_list change.now.second);
          turned = since_after (since_after self.old.turned entries change.now.pins.items) entries (option_to_list change.now.front);
        } }
    {
        write_all(&mut self.pins, change.pins.as_slice());
        if let Some((vehicle, length)) = change.front {
            write(&mut self.frozen, vehicle, length);
        }
        self.version = change.version;
        self.entries = entries;
        let moved = since_one(self.moved, entries, &change.first);
        self.moved = since_one(moved, entries, &change.second);
        let turned = since(self.turned, entries, change.pins.as_slice());
        self.turned = since_one(turned, entries, &change.front);
    }

    /// The same cells once more.
    fn copy(&self, alloc: Global) -> Result<Cells, AllocError>
        ensures { IfOk result (λ x. cells_of x ≡ cells_of self.now) }
    {
        Ok(Cells {
            lanes: again(alloc, self.lanes.as_slice())?,
            pins: Vec::from_slice(alloc, self.pins.as_slice())?,
            frozen: Vec::from_slice(alloc, self.frozen.as_slice())?,
            version: self.version,
            entries: self.entries,
            moved: self.moved,
            turned: self.turned,
        })
    }
}

impl Shown {
    ghost use Rattle.published_board.specs.Pictures.{picture_of};

    /// A second copy.
    pub fn copy(&self, alloc: Global) -> Result<Shown, AllocError>
        ensures { IfOk result (λ x. picture_of x ≡ picture_of self.now) }
    {
        Ok(Shown {
            cells: self.cells.copy(alloc)?,
            base: self.base.again(),
        })
    }

    /// Whether two copies of one log show the same journal: whether they know as many pages of it.
    pub fn shows_same(&self, other: &Shown) -> bool
        requires { other.now.base.book ≡ self.now.base.book }
        ensures { IsTrue result ↔ (self.now.base.pages ≡ other.now.base.pages) }
    {
        self.base.agrees(&other.base)
    }
}
