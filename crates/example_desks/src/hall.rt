//! The board: two vans without bounds, and six customers along a road, 10 from one to the next.
ghost use Rattle.std.specs.Prelude.{◌≡◌, ◌+◌, ◌-◌, ◌*◌};

use crate::desks::{End, three_desks};
use board_core::Board;
use board_lock::{Foyer, make_foyer};
use callback_store::{Registry, Transit};
use dimension_core::Setup;
use std::alloc::Global;
use std::marker::Brand;
use std::sync::{Arc, Wait};
use std::thread::Threads;

/// Opens the board with three desks and runs them. The callback is made here, and nothing that holds it leaves.
pub(crate) fn open<W: Threads + Wait + Copy + Drop + Send + Sync + 'static>(
    rt: W,
    alloc: Global,
) -> Option<End> {
    let road = Box::new(
        alloc,
        move |i: u32, j: u32| -> u64
            ensures { result ≡ 10 * (i - j + (j - i)) }
        { u64::from(i.abs_diff(j)) * 10 },
    )
    .ok()?;
    let ways = Transit::new(7, road);
    let mut registry = Registry::new(alloc);
    let cost = registry.register(ways).ok()?;
    let setup = Setup::new(6, 2, registry, Vec::new(alloc), cost, 1000).ok()?;
    let board = Board::new(alloc, Arc::new(alloc, setup).ok()?, 3).ok()?;
    let foyer = make_foyer(rt, alloc, board).ok()?;
    let Foyer { setup, room } = foyer;
    three_desks::<Brand, W, W>(rt, alloc, setup, room)
}
