//! Halls that are opened while memory runs out.
ghost use Rattle.std.specs.Prelude.{◌≡◌};

use crate::scarce::Hoard;
use board_core::Board;
use board_lock::{Foyer, Naming, OpenFault, make_foyer, open_hall};
use dimension_core::Setup;
use std::alloc::Global;
use std::marker::Brand;
use std::process::Abort;
use std::sync::{Arc, Wait};

/// How many desks the hall of a foyer has.
fn desks_of<N: Naming, R: Wait + Drop>(alloc: Global, foyer: Foyer<R>) -> Result<usize, OpenFault>
    requires opening { foyer.room.opening ≡ N.opening }
    requires book { foyer.room.book ≡ N.book }
{
    match open_hall::<N, R>(alloc, foyer) {
        Ok(desks) => Ok(desks.len()),
        Err(fault) => Err(fault),
    }
}

/// How many desks a board's hall has, which is opened with so many bytes; none where the board itself could not be made.
fn opened_with<R: Wait + Drop>(
    rt: R,
    alloc: Global,
    hoard: &mut Hoard,
    setup: &Arc<Setup>,
    bytes: usize,
) -> Option<Result<usize, OpenFault>> {
    let board = Board::new(alloc, Arc::try_clone(setup).ok()?, 3).ok()?;
    hoard.leave(bytes);
    let opened = match make_foyer(rt, alloc, board) {
        Ok(foyer) => desks_of::<Brand, R>(alloc, foyer),
        Err(fault) => Err(fault),
    };
    hoard.give_back();
    Some(opened)
}

/// Opens one board after another, each with more memory, until one is opened: how many were not, and how many desks that one has.
pub(crate) fn opens_until<R: Wait + Drop + Copy>(
    rt: R,
    alloc: Global,
    hoard: &mut Hoard,
    setup: &Arc<Setup>,
) -> (u32, Option<usize>) {
    let mut bytes = 0usize;
    for refused in 0..10_000u32 {
        match opened_with(rt, alloc, hoard, setup, bytes) {
            Some(Err(OpenFault::NoMemory)) => {}
            Some(Ok(desks)) => return (refused, Some(desks)),
            _ => return (refused, None),
        }
        bytes = bytes.saturating_add(32).saturating_add(bytes / 64);
    }
    (10_000, None)
}

/// Openings that lacked memory said so, and the next one gave all desks.
pub(crate) fn compare_opened(rt: &impl Abort, hoard: &Hoard, opened: (u32, Option<usize>)) {
    assert!(rt; hoard.is_enough(opened.0, 10));
    assert_eq!(rt; opened.1, Some(3usize));
}
