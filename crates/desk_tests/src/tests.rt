//! The desks of a board, each test with a board of its own.
use crate::one_thread::{grants, opens};
use crate::scripts::{compare_replay, judged_again, reads_beside};
use crate::setups::four_customers;
use crate::threads::{call_for_one_vehicle, call_for_two_vehicles};
use board_core::Board;
use board_lock::make_foyer;
use dimension_core::Setup;
use std::alloc::Global;
use std::marker::Brand;
use std::process::Abort;
use std::sync::{Arc, Wait};
use std::test::Fail;
use std::thread::Threads;

/// Two desks, one after the other.
fn one_history<W: Wait + Abort>(rt: &W, alloc: Global, board: Board) -> Result<(), Fail> {
    let foyer = make_foyer(rt, alloc, board).map_err(|_| "foyer")?;
    opens::<Brand, _, _>(rt, alloc, foyer);
    Ok(())
}

/// Two desks at once, for one vehicle, and with a fresh board over the same setup for two.
fn at_once<W: Threads + Wait + Abort + Sync>(
    rt: &W,
    alloc: Global,
    setup: Arc<Setup>,
) -> Result<(), Fail> {
    let again = Arc::try_clone(&setup)?;
    let board = Board::new(alloc, setup, 2)?;
    let foyer = make_foyer(rt, alloc, board).map_err(|_| "foyer")?;
    call_for_one_vehicle::<Brand, _, _>(rt, alloc, foyer);
    let fresh = Board::new(alloc, again, 2)?;
    let second = make_foyer(rt, alloc, fresh).map_err(|_| "foyer")?;
    call_for_two_vehicles::<Brand, _, _>(rt, alloc, second);
    Ok(())
}

/// A script beside another desk. What the audit tells is judged again by a board of one thread over the same setup.
fn script_beside<W: Threads + Wait + Abort + Sync>(
    rt: &W,
    alloc: Global,
    setup: Arc<Setup>,
) -> Result<(), Fail> {
    let again = Arc::try_clone(&setup)?;
    let board = Board::new(alloc, setup, 2)?;
    let foyer = make_foyer(rt, alloc, board).map_err(|_| "foyer")?;
    let audit = reads_beside::<Brand, _, _>(rt, alloc, foyer).ok_or("audit")?;
    compare_replay(rt, judged_again(alloc, again, audit.as_str()));
    Ok(())
}

/// What two desks do.
#[derive(Clone, Copy, Drop)]
enum Pair {
    OneHistory,
    AtOnce,
    ScriptBeside,
}

/// Two vehicles and four customers, with room for the events of ten thousand commits.
fn with_two<W: Threads + Wait + Abort + Sync>(
    rt: &W,
    alloc: Global,
    pair: Pair,
) -> Result<(), Fail> {
    let setup = four_customers(alloc, 20000).ok_or("a setup")?;
    match pair {
        Pair::OneHistory => {
            let mut board = Board::new(alloc, setup, 2)?;
            grants(rt, &mut board);
            one_history(rt, alloc, board)
        }
        Pair::AtOnce => at_once(rt, alloc, setup),
        Pair::ScriptBeside => script_beside(rt, alloc, setup),
    }
}

#[test]
fn two_desks_share_one_history(rt: HostRuntime) -> Result<(), Fail> {
    with_two(&rt, rt.alloc(), Pair::OneHistory)
}

#[test]
fn two_desks_call_at_once(rt: HostRuntime) -> Result<(), Fail> {
    with_two(&rt, rt.alloc(), Pair::AtOnce)
}

#[test]
fn a_desk_reads_a_script_while_another_commits(rt: HostRuntime) -> Result<(), Fail> {
    with_two(&rt, rt.alloc(), Pair::ScriptBeside)
}
