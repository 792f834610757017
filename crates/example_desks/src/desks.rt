//! Three desks of one board, each in a thread of its own.
ghost use Rattle.std.specs.Prelude.{◌≡◌};
ghost use Rattle.dimension_core.specs.Setup.{setting};

use crate::tasks::{Search, Searched, join_search, start_search};
use board_lines::{Command, read_line};
use board_lock::{Anteroom, Naming, Seat, View, open_seats};
use board_rules::{Call, Reply};
use dimension_core::Setup;
use search_workers::Tally;
use std::alloc::Global;
use std::sync::{Arc, Wait};
use std::thread::{JoinHandle, Threads};

/// What desk 1 does first: rights, a session for each worker, and a plan that can be made shorter.
const PREPARED: &[&str] = &[
    "1 grant root pin customer 1 6",
    "1 grant root move vehicle 1 2",
    "1 grant root move customer 1 6",
    "1 add-user worker",
    "1 add-role worker",
    "1 assign worker worker",
    "1 grant worker move vehicle 1 2",
    "1 grant worker move customer 1 6",
    "1 open worker worker",
    "1 open worker worker",
    "1 insert 1 1 1 0",
    "1 insert 5 1 2 1",
    "1 insert 3 1 3 2",
    "1 insert 6 2 1 3",
    "1 insert 2 2 2 4",
    "1 insert 4 2 3 5",
];

/// The call that a line says.
fn call_of(alloc: Global, line: &str) -> Option<Call> {
    match read_line(alloc, line.as_bytes()) {
        Ok(Command::Submit(call)) => Some(call),
        _ => None,
    }
}

/// Submits the calls that some lines say.
fn play<N: Naming, R: Wait + Drop, W: Wait>(
    rt: &W,
    alloc: Global,
    setup: &Setup,
    seat: &mut Seat<N, R>,
    lines: &[&str],
)
    requires { setting setup.now ≡ N.opening.setting }
{
    for line in lines {
        if let Some(call) = call_of(alloc, line) {
            let _reply = seat.submit(rt, setup, call);
        }
    }
}

/// How it ended: the stops of the plan, the customers that are pinned to the vehicle that serves them, the rounds of both workers, whether
/// each version that the dispatcher saw was no lower than the one before, and whether all desks then saw one version.
#[derive(Clone, Copy, Drop)]
pub(crate) struct End {
    pub stops: usize,
    pub pins: usize,
    pub rounds: u32,
    pub rose: bool,
    pub agreed: bool,
}

/// How many stops a plan has, and how many of them are pinned where they are.
fn counted_in(view: &View) -> (usize, usize) {
    let mut stops = 0usize;
    let mut pins = 0usize;
    let mut vehicle = 0u32;
    for route in &view.routes {
        vehicle = vehicle.saturating_add(1);
        for customer in route.customers() {
            stops = stops.saturating_add(1);
            let pin = view.pinned.get((*customer as usize).wrapping_sub(1));
            if pin == Some(&Some(vehicle)) {
                pins = pins.saturating_add(1);
            }
        }
    }
    (stops, pins)
}

/// The version of the published plan. No lock is taken.
fn version<N: Naming, R: Wait + Drop>(seat: &mut Seat<N, R>) -> Option<u32> {
    seat.refresh().ok()?;
    Some(seat.view()?.version)
}

/// The dispatcher pins each customer where it is, and looks at the plan after each pin. Whether each pin was set, and no version was below
/// the one before.
fn pin_all<N: Naming, R: Wait + Drop, W: Wait>(rt: &W, setup: &Setup, seat: &mut Seat<N, R>) -> bool
    requires { setting setup.now ≡ N.opening.setting }
{
    let mut last = 0u32;
    let mut rose = true;
    for before in 0..setup.customers() {
        let call = Call::Pin {
            session: 1,
            customer: before + 1,
        };
        let pinned = seat.submit(rt, setup, call) == Ok(Reply::Done);
        let next = version(seat).unwrap_or(0);
        rose = rose && pinned && last <= next;
        last = next;
    }
    rose
}

/// The seats of three desks.
#[derive(Drop)]
struct Three<N: Naming, R: Wait + Drop> {
    one: Seat<N, R>,
    two: Seat<N, R>,
    three: Seat<N, R>,
}

/// Opens three desks.
fn opened<N: Naming, R: Wait + Drop>(alloc: Global, room: Anteroom<R>) -> Option<Three<N, R>>
    requires opening { room.opening ≡ N.opening }
    requires book { room.book ≡ N.book }
{
    let Ok(mut seats) = open_seats::<N, R>(alloc, room) else {
        return None;
    };
    let three = seats.pop()?;
    let two = seats.pop()?;
    let one = seats.pop()?;
    Some(Three { one, two, three })
}

/// The rounds of a worker: each proposed a move or found none.
fn rounds_of(tally: Tally) -> u32 {
    tally.tried.saturating_add(tally.idle)
}

/// The threads in which the second and the third desk search.
#[derive(Drop)]
struct Searching<N: Naming, R: Wait + Drop> {
    second: Option<JoinHandle<Searched<N, R>>>,
    third: Option<JoinHandle<Searched<N, R>>>,
}

/// Starts a worker on the second and on the third desk.
fn start_both<
    N: Naming + Send + Sync + 'static,
    R: Wait + Drop + Send + Sync + 'static,
    W: Threads + Wait + Copy + Send + Sync + 'static,
>(rt: W, setup: &Arc<Setup>, two: Seat<N, R>, three: Seat<N, R>) -> Searching<N, R>
    requires { setting setup.now.value ≡ N.opening.setting }
{
    let second = start_search(rt, Search { session: 2 }, setup, two);
    let third = start_search(rt, Search { session: 3 }, setup, three);
    Searching { second, third }
}

/// Waits for both, and gives their seats beside the first one, with how many rounds they did.
fn join_both<N: Naming, R: Wait + Drop, W: Threads>(
    rt: &W,
    one: Seat<N, R>,
    searching: Searching<N, R>,
) -> Option<(Three<N, R>, u32)> {
    let Searching { second, third } = searching;
    match (join_search(rt, second), join_search(rt, third)) {
        (Some(second), Some(third)) => {
            let rounds = rounds_of(second.tally).saturating_add(rounds_of(third.tally));
            let two = second.seat;
            let three = third.seat;
            Some((Three { one, two, three }, rounds))
        }
        _ => None,
    }
}

/// The second and the third desk search while the first one pins. How many rounds they did, and whether the pins were set and the versions
/// rose.
fn all_at_once<
    N: Naming + Send + Sync + 'static,
    R: Wait + Drop + Send + Sync + 'static,
    W: Threads + Wait + Copy + Send + Sync + 'static,
>(rt: W, setup: &Arc<Setup>, seats: Three<N, R>) -> Option<(Three<N, R>, u32, bool)>
    requires { setting setup.now.value ≡ N.opening.setting }
{
    let Three {
        mut one,
        two,
        three,
    } = seats;
    let searching = start_both(rt, setup, two, three);
    let rose = pin_all(&rt, setup, &mut one);
    match join_both(&rt, one, searching) {
        Some((seats, rounds)) => Some((seats, rounds, rose)),
        None => None,
    }
}

/// The version of a copy of the published plan.
fn copied<N: Naming, R: Wait + Drop>(seat: &mut Seat<N, R>) -> Option<u32> {
    Some(seat.snapshot().ok()?.version)
}

/// How many stops the published plan has, and how many of them are pinned where they are.
fn counted<N: Naming, R: Wait + Drop>(seat: &mut Seat<N, R>) -> Option<(usize, usize)> {
    let view = seat.snapshot().ok()?;
    Some(counted_in(&view))
}

/// Has the desks meet. Whether all of them then see one version.
fn met<N: Naming, R: Wait + Drop, W: Wait>(rt: &W, seats: &mut Three<N, R>) -> bool {
    let Three { one, two, three } = seats;
    one.meet(rt, two);
    one.meet(rt, three);
    let version = copied(one);
    version.is_some() && copied(two) == version && copied(three) == version
}

/// Opens three desks and has the first one plan. Then the other two search while it pins, and in the end they meet.
pub(crate) fn three_desks<
    N: Naming + Send + Sync + 'static,
    R: Wait + Drop + Send + Sync + 'static,
    W: Threads + Wait + Copy + Send + Sync + 'static,
>(rt: W, alloc: Global, setup: Arc<Setup>, room: Anteroom<R>) -> Option<End>
    requires opening { room.opening ≡ N.opening }
    requires book { room.book ≡ N.book }
    requires setup { setting setup.value ≡ room.opening.setting }
{
    let mut seats = opened::<N, R>(alloc, room)?;
    play(&rt, alloc, &setup, &mut seats.one, PREPARED);
    let (mut seats, rounds, rose) = all_at_once(rt, &setup, seats)?;
    let agreed = met(&rt, &mut seats);
    let (stops, pins) = counted(&mut seats.one)?;
    Some(End {
        stops,
        pins,
        rounds,
        rose,
        agreed,
    })
}
