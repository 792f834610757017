//! The tests, each in a process of its own.
ghost use Rattle.std.specs.Prelude.{◌≡◌};
ghost use Rattle.hostile_tests.specs.Ways.{way};

use crate::beside::runs_beside;
use crate::boards::{boards_go_through, desks_go_through};
use crate::early::breaks_off;
use crate::full::fills;
use crate::given_up::go_on;
use crate::openings::{compare_opened, opens_until};
use crate::rounds::{compare_rounds, works_on};
use crate::runs::runs_go_through;
use crate::scarce::{ALONE, Hoard, THREADED};
use crate::setups::{four_customers, three_on_a_line, widest};
use crate::works::{compare_started, compare_unpushed, starts_until};
use board_core::Board;
use board_text::BoardFront;
use callback_store::Transit;
use desk_fixtures::foyer_of;
use dimension_core::Setup;
use std::alloc::Global;
use std::marker::Brand;
use std::process::Abort;
use std::sync::{Arc, Wait};
use std::test::Fail;
use std::thread::Threads;

/// All scripts, by boards of one thread and by a desk.
fn lines_over<W: Wait + Abort>(rt: &W, alloc: Global, setup: Arc<Setup>) -> Result<(), Fail> {
    let mut hoard = Hoard::new(alloc, ALONE).ok_or("memory")?;
    boards_go_through(rt, alloc, &mut hoard, &setup);
    let foyer = foyer_of(rt, alloc, setup, 1).ok_or("a foyer")?;
    desks_go_through::<Brand, _, _>(rt, alloc, &mut hoard, foyer);
    Ok(())
}

/// Two vehicles and four customers.
#[test]
fn lines_go_through(rt: HostRuntime) -> Result<(), Fail> {
    let setup = four_customers(rt.alloc(), 200).ok_or("a setup")?;
    lines_over(&rt, rt.alloc(), setup)
}

/// All memory that there is can be taken up. Under `rt try` it cannot, and this fails.
#[test]
fn memory_can_be_taken_up(rt: HostRuntime) {
    let is_whole = match Hoard::new(rt.alloc(), THREADED) {
        Some(hoard) => hoard.is_whole(),
        None => false,
    };
    assert!(rt; is_whole);
}

#[test]
fn runs_get_through(rt: HostRuntime) {
    let alloc = rt.alloc();
    if let Some(mut hoard) = Hoard::new(alloc, ALONE) {
        runs_go_through(&rt, alloc, &mut hoard);
    }
}

#[test]
fn runs_with_a_worker_get_through(rt: HostRuntime) {
    if let Some(mut hoard) = Hoard::new(rt.alloc(), THREADED) {
        runs_beside(rt, &mut hoard);
    }
}

#[test]
fn live_lines_that_lack_memory(rt: HostRuntime) {
    if let Some(mut hoard) = Hoard::new(rt.alloc(), THREADED) {
        if hoard.is_whole() {
            breaks_off(rt, &mut hoard);
        }
    }
}

/// Rounds of a worker, openings of halls, and then starts of workers, that lack memory.
fn memory_lacks<W: Threads + Wait + Abort + Sync>(
    rt: &W,
    alloc: Global,
    setup: Arc<Setup>,
) -> Result<(), Fail> {
    let mut hoard = Hoard::new(alloc, THREADED).ok_or("memory")?;
    let again = Arc::try_clone(&setup)?;
    let foyer = foyer_of(rt, alloc, again, 2).ok_or("a foyer")?;
    let ended = works_on::<Brand, _, _>(rt, alloc, &mut hoard, foyer);
    compare_rounds(rt, &hoard, &ended);
    let opened = opens_until(rt, alloc, &mut hoard, &setup);
    compare_opened(rt, &hoard, opened);
    let started = starts_until(rt, alloc, &mut hoard, &setup, 5, 16);
    compare_started(rt, &hoard, started, 5);
    let started = starts_until(rt, alloc, &mut hoard, &setup, 2, usize::MAX);
    compare_unpushed(rt, &hoard, started, 2);
    Ok(())
}

/// A thousand customers on a line, each as far from the depot as its number.
#[test]
fn a_board_as_large_as_may_be(rt: HostRuntime) -> Result<(), Fail> {
    let drive = Box::new(
        rt.alloc(),
        move |i: u32, j: u32| -> u64
            ensures { result ≡ way i j }
        { u64::from(i.abs_diff(j)) },
    )?;
    let drives = Transit::new(1001, drive);
    let setup = widest(rt.alloc(), drives).ok_or("a setup")?;
    let mut front = BoardFront {
        board: Board::new(rt.alloc(), setup, 64)?,
        desk: 64,
        turn: 1,
    };
    fills(&rt, rt.alloc(), &mut front);
    Ok(())
}

/// Commands that are given up.
fn commands_given_up(rt: &impl Abort, alloc: Global, setup: Arc<Setup>) -> Result<(), Fail> {
    let mut hoard = Hoard::new(alloc, ALONE).ok_or("memory")?;
    go_on(rt, alloc, &mut hoard, &setup);
    Ok(())
}

/// What is tried with three customers on a line.
#[derive(Clone, Copy, Drop)]
enum Kind {
    MemoryLacks,
    GivenUp,
}

/// Three customers on a line, and two vehicles.
fn on_a_line<W: Threads + Wait + Abort + Sync>(
    rt: &W,
    alloc: Global,
    kind: Kind,
) -> Result<(), Fail> {
    let setup = three_on_a_line(alloc, 2, 1000).ok_or("a setup")?;
    match kind {
        Kind::MemoryLacks => memory_lacks(rt, alloc, setup),
        Kind::GivenUp => commands_given_up(rt, alloc, setup),
    }
}

#[test]
fn rounds_and_halls_that_lack_memory(rt: HostRuntime) -> Result<(), Fail> {
    on_a_line(&rt, rt.alloc(), Kind::MemoryLacks)
}

#[test]
fn given_up_commands_cost_no_copy(rt: HostRuntime) -> Result<(), Fail> {
    on_a_line(&rt, rt.alloc(), Kind::GivenUp)
}
