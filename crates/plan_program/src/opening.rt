//! An instance, the rows of the last listing of an output, and their sums.

ghost use Rattle.std.specs.Prelude.{IfOk, IfErr};
ghost use Rattle.plan_program.specs.Views.{IsOpened, IsUnopened};

use crate::stop::ViewStop;
use plan_sums::{Roads, Row, Tour, read_rows, tours};
use solomon_reader::read;
use std::alloc::Global;

/// An instance, the rows of a listing, and the sums of each vehicle.
#[derive(Drop)]
pub(crate) struct Plan {
    pub(crate) roads: Roads,
    pub(crate) rows: Vec<Row>,
    pub(crate) tours: Vec<Tour>,
}

/// What the bytes of an instance and of an output give.
pub(crate) fn opened(alloc: Global, instance: &[u8], output: &[u8]) -> Result<Plan, ViewStop>
    ensures ok { IfOk result (λ plan. IsOpened instance.now output.now plan.roads plan.rows.items plan.tours.items) }
    ensures err { IfErr result (IsUnopened instance.now output.now) }
{
    let instance = read(alloc, instance)?;
    let roads = Roads::new(instance);
    let rows = read_rows(alloc, &roads, output)?;
    let tours = tours(alloc, &roads, rows.as_slice())?;
    Ok(Plan { roads, rows, tours })
}
