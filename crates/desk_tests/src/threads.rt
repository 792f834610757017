//! Desks in threads of their own.
ghost use Rattle.std.specs.Prelude.{◌≡◌, IfSome};
ghost use Rattle.dimension_core.specs.Setup.{setting};

use crate::beside::{Given, Task, beside};
use crate::calls::{grant, insert, remove, submits};
use board_lock::{DeskOf, Foyer, Naming, Seat};
use board_rules::{Call, Denial, Reply};
use desk_fixtures::open_two;
use dimension_core::Setup;
use rbac_core::{ObjectRange, Operation};
use std::alloc::Global;
use std::process::Abort;
use std::sync::{Arc, Wait};
use std::thread::Threads;

/// One call. It gives the seat back with the reply.
#[derive(Drop)]
struct Submit(Call);

impl<N: Naming, R: Wait + Drop, W: Wait> Task<
    W,
    Arc<Setup>,
    Seat<N, R>,
    (Seat<N, R>, Option<Reply>),
> for Submit {
    ghost use Rattle.dimension_core.specs.Setup.{setting};

    ghost may = { λ setup seat. setting setup.value ≡ N.opening.setting };

    fn run(self, rt: &W, first: Arc<Setup>, second: Seat<N, R>) -> (Seat<N, R>, Option<Reply>) {
        let mut seat = second;
        let reply = seat.submit(rt, &first, self.0).ok();
        (seat, reply)
    }
}

/// Customer 2 goes in and out of vehicle 2, so many times. It tells how many commits there were, counted from a version on.
#[derive(Drop)]
pub(crate) struct Commit {
    pub from: u32,
    pub commits: u32,
}

impl<N: Naming, R: Wait + Drop, W: Wait> Task<W, Arc<Setup>, Seat<N, R>, u32> for Commit {
    ghost use Rattle.dimension_core.specs.Setup.{setting};

    ghost may = { λ setup seat. setting setup.value ≡ N.opening.setting };

    fn run(self, rt: &W, first: Arc<Setup>, second: Seat<N, R>) -> u32 {
        let mut seat = second;
        let mut version = self.from;
        for round in 0..self.commits {
            let call = if round % 2 == 0 {
                insert(2, 2, version)
            } else {
                remove(2, version)
            };
            if let Ok(Reply::Committed(next)) = seat.submit(rt, &first, call) {
                version = next;
            }
        }
        version
    }
}

/// Looks at the plan until it has this version. It tells whether each look was no older than the one before, and the last version.
#[derive(Drop)]
struct Look(u32);

impl<N: Naming, R: Wait + Drop, W: Wait> Task<W, Arc<Setup>, Seat<N, R>, (bool, u32)> for Look {
    ghost may = { λ setup seat. Unit {0} };

    fn run(self, _rt: &W, _first: Arc<Setup>, second: Seat<N, R>) -> (bool, u32) {
        let mut seat = second;
        let mut rises = true;
        let mut last = 0u32;
        for _look in 0..u32::MAX {
            let Some((kept, copied)) = looked(&mut seat) else {
                return (false, last);
            };
            rises = rises && last <= kept && kept <= copied;
            last = copied;
            if last >= self.0 {
                return (rises, last);
            }
        }
        (false, last)
    }
}

/// The version of the view that a seat keeps, once it was brought up, and then that of a copy.
fn looked<N: Naming, R: Wait + Drop>(seat: &mut Seat<N, R>) -> Option<(u32, u32)> {
    seat.refresh().ok()?;
    let kept = seat.view()?.version;
    let copied = seat.snapshot().ok()?.version;
    Some((kept, copied))
}

const CUSTOMERS: ObjectRange = ObjectRange::Customers { first: 1, last: 4 };

const VEHICLES: ObjectRange = ObjectRange::Vehicles { first: 1, last: 2 };

/// One of the two replies came to each of the desks.
fn compare_both(
    rt: &impl Abort,
    one: Option<Reply>,
    two: Option<Reply>,
    first: Reply,
    second: Reply,
) {
    let straight = one == Some(first) && two == Some(second);
    let crossed = one == Some(second) && two == Some(first);
    assert!(rt; straight || crossed);
}

fn compare_looks(rt: &impl Abort, version: u32, looks: (bool, u32)) {
    assert_eq!(rt; version, 10002);
    assert_eq!(rt; looks, (true, 10002u32));
}

/// Two more shares of a setup. Who has seats takes them at once, so that the seats are given up in one place alone.
pub(crate) fn shared(setup: &Arc<Setup>) -> Option<(Arc<Setup>, Arc<Setup>)>
    ensures first { IfSome result (λ p. p.0.value ≡ setup.now.value) }
    ensures second { IfSome result (λ p. p.1.value ≡ setup.now.value) }
{
    let first = Arc::try_clone(setup).ok()?;
    let second = Arc::try_clone(setup).ok()?;
    Some((first, second))
}

/// Two calls at once, and what came of each.
fn race<N: Naming + Send + Sync, R: Wait + Drop + Send + Sync, W: Threads + Wait + Abort + Sync>(
    rt: &W,
    setup: &Arc<Setup>,
    seats: (Seat<N, R>, Seat<N, R>),
    calls: (Call, Call),
    replies: (Reply, Reply),
) -> Option<(Seat<N, R>, Seat<N, R>)>
    requires { setting setup.now.value ≡ N.opening.setting }
{
    let (first, second) = shared(setup)?;
    let there = Given {
        task: Submit(calls.0),
        first,
        second: seats.0,
    };
    let here = Given {
        task: Submit(calls.1),
        first: second,
        second: seats.1,
    };
    let (one, two) = beside(rt, there, here);
    compare_both(rt, one.1, two.1, replies.0, replies.1);
    Some((one.0, two.0))
}

/// Ten thousand commits from version 2 on, while the other desk looks on.
fn look_on<N: Naming + Send + Sync, R: Wait + Drop + Send + Sync, W: Threads + Wait + Abort + Sync>(
    rt: &W,
    setup: &Arc<Setup>,
    seats: (Seat<N, R>, Seat<N, R>),
) -> Option<u32>
    requires { setting setup.now.value ≡ N.opening.setting }
{
    let (first, second) = shared(setup)?;
    let commit = Commit {
        from: 2,
        commits: 10000,
    };
    let there = Given {
        task: commit,
        first,
        second: seats.0,
    };
    let here = Given {
        task: Look(10002),
        first: second,
        second: seats.1,
    };
    let (version, looks) = beside(rt, there, here);
    compare_looks(rt, version, looks);
    Some(version)
}

/// Two desks call for one vehicle, which is then emptied. It tells the reply to that.
fn for_one_vehicle<
    N: Naming + Send + Sync,
    R: Wait + Drop + Send + Sync,
    W: Threads + Wait + Abort + Sync,
>(rt: &W, setup: &Arc<Setup>, seats: (Seat<N, R>, Seat<N, R>)) -> Option<Reply>
    requires { setting setup.now.value ≡ N.opening.setting }
{
    let calls = (insert(1, 1, 0), insert(2, 1, 0));
    let replies = (Reply::Committed(1), Reply::Denied(Denial::Stale(1)));
    let (mut one, _two) = race(rt, setup, seats, calls, replies)?;
    one.submit(rt, setup, remove(1, 1)).ok()
}

/// Two desks call for a vehicle each, and then one of them looks on. It tells the last version.
fn for_two_vehicles<
    N: Naming + Send + Sync,
    R: Wait + Drop + Send + Sync,
    W: Threads + Wait + Abort + Sync,
>(rt: &W, setup: &Arc<Setup>, seats: (Seat<N, R>, Seat<N, R>)) -> Option<u32>
    requires { setting setup.now.value ≡ N.opening.setting }
{
    let calls = (insert(1, 1, 0), insert(4, 2, 0));
    let replies = (Reply::Committed(1), Reply::Committed(2));
    let seats = race(rt, setup, seats, calls, replies)?;
    look_on(rt, setup, seats)
}

fn compare_emptied(rt: &impl Abort, found: Option<Reply>) {
    assert!(rt; found == Some(Reply::Committed(2)));
}

fn compare_end(rt: &impl Abort, found: Option<u32>) {
    assert_eq!(rt; found, Some(10002));
}

/// The setup and the seats of the two desks of a hall, once the first one was granted all moves.
fn granted<N: Naming, R: Wait + Drop, W: Wait + Abort>(
    rt: &W,
    alloc: Global,
    foyer: Foyer<R>,
) -> Option<(Arc<Setup>, (Seat<N, R>, Seat<N, R>))>
    requires opening { foyer.room.opening ≡ N.opening }
    requires book { foyer.room.book ≡ N.book }
    ensures { IfSome result (λ t. setting t.0.value ≡ N.opening.setting) }
{
    let (mut one, two) = open_two::<N, R>(alloc, foyer)?;
    submits(
        rt,
        &mut one,
        grant(rt, Operation::Move, VEHICLES),
        Reply::Done,
    );
    submits(
        rt,
        &mut one,
        grant(rt, Operation::Move, CUSTOMERS),
        Reply::Done,
    );
    let DeskOf { setup, seat } = one;
    Some((setup, (seat, two.seat)))
}

/// The two desks of a new hall call for one vehicle at once.
pub(crate) fn call_for_one_vehicle<
    N: Naming + Send + Sync,
    R: Wait + Drop + Send + Sync,
    W: Threads + Wait + Abort + Sync,
>(rt: &W, alloc: Global, foyer: Foyer<R>)
    requires opening { foyer.room.opening ≡ N.opening }
    requires book { foyer.room.book ≡ N.book }
{
    match granted::<N, R, W>(rt, alloc, foyer) {
        Some((setup, seats)) => compare_emptied(rt, for_one_vehicle(rt, &setup, seats)),
        None => compare_emptied(rt, None),
    }
}

/// The two desks of a new hall call for a vehicle each at once.
pub(crate) fn call_for_two_vehicles<
    N: Naming + Send + Sync,
    R: Wait + Drop + Send + Sync,
    W: Threads + Wait + Abort + Sync,
>(rt: &W, alloc: Global, foyer: Foyer<R>)
    requires opening { foyer.room.opening ≡ N.opening }
    requires book { foyer.room.book ≡ N.book }
{
    match granted::<N, R, W>(rt, alloc, foyer) {
        Some((setup, seats)) => compare_end(rt, for_two_vehicles(rt, &setup, seats)),
        None => compare_end(rt, None),
    }
}
