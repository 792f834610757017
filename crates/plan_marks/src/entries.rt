//! The lines of the table.

ghost use Rattle.std.specs.Prelude.{◌≡◌, ◌<◌, ◌≤◌, ◌++◌, OnOk, length};
ghost use Rattle.plan_marks.specs.Entries.{entry_at, entries_before};

use crate::mark::{Entry, Mark};
use limits::MOST_VEHICLES;
use plan_sums::{Roads, Tour};
use std::alloc::AllocError;

/// The line of a vehicle.
fn entry_at(roads: &Roads, tours: &[Tour], k: usize) -> Mark
    requires within { k < length tours.now }
    requires few { length tours.now ≤ MOST_VEHICLES }
    ensures { result ≡ entry_at roads.now tours.now k }
{
    Mark::Entry(Entry {
        y: 1300 + 190 * k as u64,
        tour: tours[k],
        capacity: roads.capacity(),
    })
}

/// Appends a line for each vehicle.
pub fn push_entries(marks: &mut Vec<Mark>, roads: &Roads, tours: &[Tour]) -> Result<(), AllocError>
    requires { length tours.now ≤ MOST_VEHICLES }
    ensures { OnOk result (marks.new.items ≡ marks.old.items ++ entries_before roads.now tours.now (length tours.now)) }
{
    for k in 0..tours.len() {
        marks.push(entry_at(roads, tours, k))?;
    }
    Ok(())
}
