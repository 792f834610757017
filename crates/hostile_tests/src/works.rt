//! Workers that are started while memory runs out.
ghost use Rattle.std.specs.Prelude.{◌≡◌, ◌≤◌, ◌<◌, IfSome, length};

use crate::scarce::Hoard;
use board_lock::{Foyer, Naming, open_hall};
use desk_fixtures::foyer_of;
use dimension_core::Setup;
use limits::MOST_DESKS;
use search_workers::{OpenGate, WorkFault, work_all};
use std::alloc::Global;
use std::marker::Brand;
use std::process::Abort;
use std::sync::{Arc, Wait};
use std::thread::Threads;

/// So many sessions and seeds, each of them 1.
fn ones(alloc: Global, count: usize) -> Option<(Vec<u32>, Vec<u64>)>
    ensures { IfSome result (λ p. (length p.0.items ≡ count) × (length p.1.items ≡ count)) }
{
    let sessions = Vec::from_elem(alloc, 1u32, count).ok()?;
    let seeds = Vec::from_elem(alloc, 1u64, count).ok()?;
    Some((sessions, seeds))
}

/// How many shares come of the workers of a hall, each without rounds, that are started with so many bytes, or why none do; nothing where
/// the hall was not opened.
fn shares_of<N: Naming + Send + Sync, R: Wait + Drop + Send + Sync, W: Threads + Wait + Sync>(
    rt: &W,
    alloc: Global,
    hoard: &mut Hoard,
    foyer: Foyer<R>,
    bytes: usize,
) -> Option<Result<usize, WorkFault>>
    requires opening { foyer.room.opening ≡ N.opening }
    requires book { foyer.room.book ≡ N.book }
{
    let Ok(desks) = open_hall::<N, R>(alloc, foyer) else {
        return None;
    };
    if desks.len() > 63 {
        return None;
    }
    let (sessions, seeds) = ones(alloc, desks.len())?;
    hoard.leave(bytes);
    let worked = work_all(rt, desks, sessions, seeds, 0, &OpenGate);
    hoard.give_back();
    match worked {
        Ok(shares) => Some(Ok(shares.len())),
        Err(fault) => Some(Err(fault)),
    }
}

/// The same by a new board of so many desks.
fn started_with<W: Threads + Wait + Sync>(
    rt: &W,
    alloc: Global,
    hoard: &mut Hoard,
    setup: &Arc<Setup>,
    workers: u32,
    bytes: usize,
) -> Option<Result<usize, WorkFault>>
    requires low { 1 ≤ workers }
    requires high { workers ≤ MOST_DESKS }
{
    let foyer = foyer_of(rt, alloc, Arc::try_clone(setup).ok()?, workers)?;
    shares_of::<Brand, _, _>(rt, alloc, hoard, foyer, bytes)
}

/// How often a thread was not started, how often memory ran out behind the threads, and how many shares there were in the end.
#[derive(Clone, Copy, Debug, Drop)]
pub(crate) struct Started {
    unstarted: u32,
    unpushed: u32,
    shares: Option<usize>,
}

/// How often workers are started at most.
const TRIES: u32 = 400;

/// Starts workers time and again, first with no memory and then each time with 16 bytes and a part of those before more, until all give
/// their shares.
pub(crate) fn starts_until<W: Threads + Wait + Sync>(
    rt: &W,
    alloc: Global,
    hoard: &mut Hoard,
    setup: &Arc<Setup>,
    workers: u32,
    part: usize,
) -> Started
    requires low { 1 ≤ workers }
    requires high { workers ≤ MOST_DESKS }
    requires part { 0 < part }
{
    let mut started = Started {
        unstarted: 0,
        unpushed: 0,
        shares: None,
    };
    let mut bytes = 0usize;
    for _ in 0..TRIES {
        match started_with(rt, alloc, hoard, setup, workers, bytes) {
            Some(Err(WorkFault::Spawn)) => started.unstarted = started.unstarted.wrapping_add(1),
            Some(Err(WorkFault::NoMemory)) => started.unpushed = started.unpushed.wrapping_add(1),
            Some(Ok(shares)) => {
                started.shares = Some(shares);
                return started;
            }
            None => return started,
        }
        bytes = bytes.saturating_add(16).saturating_add(bytes / part);
    }
    started
}

/// Where memory lacked for a thread, for the first one or for a later one, the fault was `Spawn`, and the next start gave all shares.
pub(crate) fn compare_started(rt: &impl Abort, hoard: &Hoard, started: Started, workers: usize) {
    assert!(rt; hoard.is_enough(started.unstarted, 20), "{started:?}");
    assert_eq!(rt; started.shares, Some(workers));
}

/// Where memory lacked for the shares alone, behind threads that had the stacks of threads before them, the fault was `NoMemory`, and the
/// next start gave all shares. The C library keeps stacks of 40 megabytes in all: where two take more, a thread lacks memory each time.
pub(crate) fn compare_unpushed(rt: &impl Abort, hoard: &Hoard, started: Started, workers: usize) {
    if started.unstarted == TRIES {
        return;
    }
    assert!(rt; hoard.is_enough(started.unpushed, 1), "{started:?}");
    assert_eq!(rt; started.shares, Some(workers));
}
