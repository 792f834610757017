//! Where things stand in a picture. All numbers of a picture are tenths of a pixel.

ghost use Rattle.std.specs.Prelude.{◌≡◌, ◌<◌, ◌≤◌, length};
ghost use Rattle.solomon_reader.specs.Instances.{IsNode};
ghost use Rattle.plan_sums.specs.Places.{ArePlaces};
ghost use Rattle.plan_picture.specs.Drawn.{extent_of};
ghost use Rattle.plan_picture.specs.Scales.{most_demand, frame_of, clock_of, x_of};

use limits::LATEST_TIME;
use plan_marks::Frame;
use plan_sums::Roads;
use solomon_reader::Node;

/// The time that the timelines show, in tenths.
#[derive(Clone, Copy)]
pub struct Clock {
    /// The depot's ready time.
    pub from: u64,
    /// From there to its due date, at least 1.
    pub span: u64,
}

/// The least and the greatest numbers of some nodes.
#[derive(Clone, Copy)]
pub(crate) struct Extent {
    pub(crate) least_x: u32,
    pub(crate) most_x: u32,
    pub(crate) least_y: u32,
    pub(crate) most_y: u32,
    pub(crate) most_demand: u32,
}

/// The least and the greatest coordinates, and the greatest demand.
fn extent_of(nodes: &[Node]) -> Extent
    requires { 0 < length nodes.now }
    ensures { result ≡ extent_of nodes.now }
{
    let first = nodes[0];
    let mut extent = Extent {
        least_x: first.x,
        most_x: first.x,
        least_y: first.y,
        most_y: first.y,
        most_demand: 0,
    };
    for node in nodes {
        extent = Extent {
            least_x: extent.least_x.min(node.x),
            most_x: extent.most_x.max(node.x),
            least_y: extent.least_y.min(node.y),
            most_y: extent.most_y.max(node.y),
            most_demand: extent.most_demand.max(node.demand),
        };
    }
    extent
}

/// What the map shows: the square that all nodes are in, and the greatest demand, 1 where there is none.
#[derive(Clone, Copy)]
pub(crate) struct Ground {
    pub(crate) frame: Frame,
    pub(crate) most: u32,
}

/// What the map shows of some nodes.
pub(crate) fn ground_of(nodes: &[Node]) -> Ground
    requires { 0 < length nodes.now }
    ensures frame { result.frame ≡ frame_of nodes.now }
    ensures most { result.most ≡ most_demand nodes.now }
    ensures wide { 1 ≤ result.frame.span }
    ensures some { 1 ≤ result.most }
{
    let extent = extent_of(nodes);
    let wide = extent.most_x.saturating_sub(extent.least_x);
    let high = extent.most_y.saturating_sub(extent.least_y);
    Ground {
        frame: Frame {
            left: extent.least_x,
            top: extent.most_y,
            span: wide.max(high).max(1),
        },
        most: extent.most_demand.max(1),
    }
}

/// The time that the timelines show.
pub(crate) fn clock_of(roads: &Roads) -> Clock
    ensures value { result ≡ clock_of roads.now.nodes }
    ensures some { 1 ≤ result.span }
    ensures few { result.span ≤ LATEST_TIME }
    ensures from { result.from ≤ LATEST_TIME }
{
    let depot = roads.depot();
    Clock {
        from: depot.ready as u64 * 10,
        span: ((depot.due - depot.ready) as u64 * 10).max(1),
    }
}

/// Where a time stands on the timelines.
pub(crate) fn x_of(clock: &Clock, time: u64) -> u64
    requires some { 1 ≤ clock.now.span }
    requires few { clock.now.span ≤ LATEST_TIME }
    ensures { result ≡ x_of clock.now time }
{
    1600 + time.saturating_sub(clock.from).min(clock.span) * 10_800 / clock.span
}
