//! Boards over one answer for each node.
ghost use Rattle.std.specs.Prelude.{◌≤◌, All, length};
ghost use Rattle.limits.specs.declared.TheConstants.{LARGEST_ANSWER};

use board_core::Board;
use callback_store::{Registry, TransitId, Vector};
use dimension_core::{Dimension, Range, Setup};
use std::alloc::Global;
use std::sync::Arc;

/// What a dimension has beside its callback.
#[derive(Clone, Copy, Drop)]
pub(crate) struct Bounds<'a> {
    pub slack_max: u64,
    pub caps: &'a [u64],
    pub fixed: bool,
    pub ranges: &'a [Range],
}

pub(crate) fn dimension_of(
    alloc: Global,
    registry: &Registry,
    id: TransitId,
    bounds: Bounds<'_>,
) -> Option<Dimension> {
    let caps = Vec::from_slice(alloc, bounds.caps).ok()?;
    let ranges = Vec::from_slice(alloc, bounds.ranges).ok()?;
    Dimension::new(registry, id, bounds.slack_max, caps, bounds.fixed, ranges).ok()
}

/// So many customers and vehicles, and at most so many events.
#[derive(Clone, Copy, Drop)]
pub(crate) struct Sizes {
    pub customers: u32,
    pub vehicles: u32,
    pub max_events: u32,
}

/// One answer for each node, which is the cost, and a dimension over it where there are bounds.
fn setup_of(
    alloc: Global,
    sizes: Sizes,
    answers: Vec<u32>,
    bounds: Option<Bounds<'_>>,
) -> Option<Setup>
    requires few { length answers.items ≤ 4294967295 }
    requires limited { All (λ x. x ≤ LARGEST_ANSWER) answers.items }
{
    let mut registry = Registry::new(alloc);
    let Ok(id) = registry.register_vector(Vector::new(answers)) else {
        return None;
    };
    let mut dimensions = Vec::new(alloc);
    if let Some(bounds) = bounds {
        let dimension = dimension_of(alloc, &registry, id, bounds)?;
        dimensions.push(dimension).ok()?;
    }
    Setup::new(
        sizes.customers,
        sizes.vehicles,
        registry,
        dimensions,
        id,
        sizes.max_events,
    )
    .ok()
}

/// A board with two desks over such a setup.
pub(crate) fn board_of(
    alloc: Global,
    sizes: Sizes,
    answers: &[u32],
    bounds: Option<Bounds<'_>>,
) -> Option<Board>
    requires few { length answers.now ≤ 4294967295 }
    requires limited { All (λ x. x ≤ LARGEST_ANSWER) answers.now }
{
    let answers = Vec::from_slice(alloc, answers).ok()?;
    let setup = setup_of(alloc, sizes, answers, bounds)?;
    Board::new(alloc, Arc::new(alloc, setup).ok()?, 2).ok()
}
