//! Where the parts of a picture stand.

ghost use Rattle.std.specs.Prelude.{◌≡◌, ◌<◌, ◌≤◌, ◌+◌, ◌*◌, length};
ghost use Rattle.plan_sums.specs.Rows.{AreRows};
ghost use Rattle.plan_picture.specs.Drawn.{IsLayout};
ghost use Rattle.plan_picture.specs.Marks.{layout_of};

use crate::scale::{Clock, clock_of, ground_of};
use limits::{MOST_CUSTOMERS, MOST_VEHICLES};
use plan_marks::Frame;
use plan_sums::{Roads, Row, Tour, open_count};

/// The scales of the map and of the timelines, and where the timelines are. The map is beside the table, and above the timelines.
#[derive(Clone, Copy)]
pub struct Layout {
    /// The square on the ground that the map shows.
    pub frame: Frame,
    /// The greatest demand, at least 1.
    pub most: u32,
    /// The time that the timelines show.
    pub clock: Clock,
    /// Where the timelines begin, from above.
    pub top: u64,
    /// Where they end.
    pub bottom: u64,
}

impl Layout {
    /// The layout of the picture of a listing with these sums.
    pub fn new(roads: &Roads, rows: &[Row], tours: &[Tour]) -> Layout
        requires rows { length rows.now ≤ MOST_CUSTOMERS }
        requires tours { length tours.now ≤ MOST_VEHICLES }
        ensures value { result ≡ layout_of roads.now rows.now tours.now }
        ensures sound { IsLayout result }
    {
        let lines = tours.len() as u64;
        let lanes = (rows.len() - open_count(rows)) as u64;
        let top = (1300 + 190 * lines).max(7600) + 700;
        let ground = ground_of(roads.nodes());
        Layout {
            frame: ground.frame,
            most: ground.most,
            clock: clock_of(roads),
            top,
            bottom: top + 160 * lanes,
        }
    }
}
