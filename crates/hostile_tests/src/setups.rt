//! The setups of the tests. Each function gives up as soon as it lacks memory, so that a test has one
//! way out for a whole setup.
use callback_store::{Matrix, Registry, Transit, TransitId, Vector};
use dimension_core::{Dimension, Range, Setup};
use std::alloc::Global;
use std::sync::Arc;

/// The load is at most 10 everywhere.
const LOADS: &[Range] = &[
    Range { lo: 0, hi: 10 },
    Range { lo: 0, hi: 10 },
    Range { lo: 0, hi: 10 },
    Range { lo: 0, hi: 10 },
    Range { lo: 0, hi: 10 },
];

/// The time has no bounds but the windows.
const WINDOWS: &[Range] = &[
    Range { lo: 0, hi: 1000 },
    Range { lo: 0, hi: 500 },
    Range { lo: 0, hi: 500 },
    Range { lo: 0, hi: 140 },
    Range { lo: 0, hi: 500 },
];

/// What customers 1 to 4 load.
fn demands(alloc: Global) -> Option<Vector> {
    let answers = vec![in alloc; 0u32, 4, 3, 3, 5].ok()?;
    Some(Vector::new(answers))
}

/// The travels between the depot and customers 1 to 4.
fn travels(alloc: Global) -> Option<Matrix> {
    let answers = vec![in alloc;
        0u32, 28, 84, 141, 50, 28, 0, 56, 113, 22, 84, 56, 0, 56, 36, 141, 113, 56, 0, 92, 50, 22,
        36, 92, 0,
    ]
    .ok()?;
    let answers = Arc::new(alloc, answers).ok()?;
    Some(Matrix::new(5, answers))
}

/// The travels between the depot and customers 1 to 3, who lie on a line with it.
fn steps(alloc: Global) -> Option<Matrix> {
    let answers = vec![in alloc;
        0u32, 30, 60, 90, 30, 0, 30, 60, 60, 30, 0, 30, 90, 60, 30, 0,
    ]
    .ok()?;
    let answers = Arc::new(alloc, answers).ok()?;
    Some(Matrix::new(4, answers))
}

/// Load with the start at 0, and time.
fn load_and_time(
    alloc: Global,
    registry: &Registry,
    load: TransitId,
    time: TransitId,
) -> Option<Vec<Dimension>> {
    let mut dimensions = Vec::with_capacity(alloc, 2).ok()?;
    let caps = Vec::from_slice(alloc, &[10, 10]).ok()?;
    let ranges = Vec::from_slice(alloc, LOADS).ok()?;
    let loads = Dimension::new(registry, load, 0, caps, true, ranges).ok()?;
    dimensions.push(loads).ok()?;
    let caps = Vec::from_slice(alloc, &[1000, 1000]).ok()?;
    let ranges = Vec::from_slice(alloc, WINDOWS).ok()?;
    let times = Dimension::new(registry, time, 1000, caps, false, ranges).ok()?;
    dimensions.push(times).ok()?;
    Some(dimensions)
}

/// Two vehicles of capacity 10, and customers 1 to 4 with demands 4, 3, 3 and 5, with their travels as times and as the cost. The first
/// dimension is the load, the second one the time. There is room for so many events.
pub(crate) fn four_customers(alloc: Global, events: u32) -> Option<Arc<Setup>> {
    let demands = demands(alloc)?;
    let travels = travels(alloc)?;
    let mut registry = Registry::new(alloc);
    let load = registry.register_vector(demands).ok()?;
    let time = registry.register_matrix(travels).ok()?;
    let dimensions = load_and_time(alloc, &registry, load, time)?;
    let setup = Setup::new(4, 2, registry, dimensions, time, events).ok()?;
    Arc::new(alloc, setup).ok()
}

/// Three customers on a line, 30 from each other, without bounds. There are so many vehicles, and room for so many events.
pub(crate) fn three_on_a_line(alloc: Global, vehicles: u32, events: u32) -> Option<Arc<Setup>> {
    let steps = steps(alloc)?;
    let mut registry = Registry::new(alloc);
    let cost = registry.register_matrix(steps).ok()?;
    let setup = Setup::new(3, vehicles, registry, Vec::new(alloc), cost, events).ok()?;
    Arc::new(alloc, setup).ok()
}

/// A dimension with the widest bounds.
fn wide(alloc: Global, registry: &Registry, id: TransitId) -> Option<Dimension> {
    let most = 1_000_000_000_000u64;
    let caps = Vec::from_elem(alloc, most, 1000).ok()?;
    let ranges = Vec::from_elem(alloc, Range { lo: 0, hi: most }, 1001).ok()?;
    Dimension::new(registry, id, most, caps, true, ranges).ok()
}

/// Eight dimensions with the widest bounds.
fn all_wide(alloc: Global, registry: &Registry, id: TransitId) -> Option<Vec<Dimension>> {
    let mut dimensions = Vec::new(alloc);
    for _ in 0..8u32 {
        dimensions.push(wide(alloc, registry, id)?).ok()?;
    }
    Some(dimensions)
}

/// As many customers, vehicles and dimensions as there may be, all dimensions and the cost by one travel, and 1,000,000 events.
pub(crate) fn widest(alloc: Global, travel: Transit) -> Option<Arc<Setup>> {
    let mut registry = Registry::new(alloc);
    let id = registry.register(travel).ok()?;
    let dimensions = all_wide(alloc, &registry, id)?;
    let setup = Setup::new(1000, 1000, registry, dimensions, id, 1_000_000).ok()?;
    Arc::new(alloc, setup).ok()
}
