//! The ways along the stops of a vehicle, and sums of them, by the ways between all its stops.
ghost use Rattle.std.specs.Prelude.{◌≡◌, ◌≤◌, ◌<◌, ◌+◌, ◌-◌, ◌*◌, ◌^◌, ◌∷◌, if◌then◌else◌, ℕ, false, ◌++◌, List, length, slice_index, IfOk};
ghost use Rattle.callback_store.specs.Tables.{Table};
ghost use Rattle.gathered_ways.specs.Sums.{ArePicked, AddsSums, AreBothSums};
ghost use Rattle.way_costs.specs.Ways.{AreHopsFrom};

use limits::MOST_STOPS;
use std::alloc::AllocError;
use way_costs::row;

/// A number of a square table.
fn cell(cells: &[u32], width: usize, from: usize, to: usize) -> u32
    requires sized { length cells.now ≡ width * width }
    requires from { from < width }
    requires to { to < width }
    ensures value { result ≡ slice_index cells.now (from * width + to) }
    ensures small { result < 2 ^ 32 }
{
    row(cells, width, from)[to]
}

/// Puts what the way from each stop to the next one costs, by the ways between them all, behind the stops.
#[inline(always)]
pub(crate) fn add_edges(stops: &mut Vec<u32>, cells: &[u32]) -> Result<(), AllocError>
    requires sized { length cells.now ≡ length stops.old.items * length stops.old.items }
    requires some { 1 ≤ length stops.old.items }
    ensures { IfOk result (λ _. (edges : List ℕ) × (stops.new.items ≡ stops.old.items ++ edges)
        × ArePicked (length stops.old.items) (length stops.old.items - 1) cells.now edges) }
{
    let width = stops.len();
    stops.reserve(width - 1)?;
    for k in 0..width - 1 {
        stops.push(cell(cells, width, k, k + 1))?;
    }
    Ok(())
}

/// What the way between two stops that follow one another costs, as it is driven or driven back, by the ways between all.
fn step(cells: &[u32], width: usize, turned: bool, from: usize) -> u32
    requires sized { length cells.now ≡ width * width }
    requires from { from + 1 < width }
    ensures value { result ≡ (if turned then slice_index cells.now ((from + 1) * width + from) else slice_index cells.now
        (from * width + (from + 1))) }
    ensures small { result < 2 ^ 32 }
{
    if turned {
        cell(cells, width, from + 1, from)
    } else {
        cell(cells, width, from, from + 1)
    }
}

/// Adds what the ways over the first stops cost together, but the first of these ways, for each number of stops from 1 on, as they are
/// driven or driven back, by the ways between all. The last way is in no sum.
#[inline(always)]
fn add_sums(
    turned: bool,
    stops: &[u32],
    cells: &[u32],
    sums: &mut Vec<u64>,
) -> Result<(), AllocError>
    requires sized { length cells.now ≡ length stops.now * length stops.now }
    requires depot { (rest : List ℕ) × (stops.now ≡ 0 ∷ rest) }
    requires long { 2 ≤ length stops.now }
    requires short { length stops.now ≤ MOST_STOPS }
    ensures { IfOk result (λ _. (t : Table) → AreHopsFrom false t stops.now stops.now 0 1 cells.now
        → AddsSums turned t stops.now (length stops.now - 1) sums.old.items sums.new.items) }
{
    let last = stops.len() - 1;
    let mut sum = 0u64;
    sums.push(sum)?;
    for k in 1..last {
        sums.push(sum)?;
        sum += u64::from(step(cells, stops.len(), turned, k));
    }
    Ok(())
}

/// Puts these sums as the ways are driven, and behind them as they are driven back, in place of what `sums` held.
#[inline(always)]
pub(crate) fn fill_sums(stops: &[u32], cells: &[u32], sums: &mut Vec<u64>) -> Result<(), AllocError>
    requires sized { length cells.now ≡ length stops.now * length stops.now }
    requires depot { (rest : List ℕ) × (stops.now ≡ 0 ∷ rest) }
    requires long { 2 ≤ length stops.now }
    requires short { length stops.now ≤ MOST_STOPS }
    ensures { IfOk result (λ _. (t : Table) → AreHopsFrom false t stops.now stops.now 0 1 cells.now
        → AreBothSums t stops.now sums.new.items) }
{
    sums.clear();
    sums.reserve(2 * stops.len())?;
    add_sums(false, stops, cells, sums)?;
    add_sums(true, stops, cells, sums)
}
