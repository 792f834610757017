//! Rounds of a worker that lack memory.
ghost use Rattle.std.specs.Prelude.{◌≡◌};
ghost use Rattle.dimension_core.specs.Setup.{setting};

use crate::scarce::Hoard;
use board_lock::{Desk, Foyer, Naming};
use desk_fixtures::{audit, open_two, play};
use search_workers::{OpenGate, Share, Tally, work};
use std::alloc::Global;
use std::process::Abort;
use std::sync::Wait;

/// By this seed the first round draws the vehicles 2 and 1.
const SEED: u64 = 7;

/// Customers 1 and 3 on vehicle 1, and customer 2, who lies between them, on vehicle 2. User and role `worker` may move all.
const LAID_OUT: &[&str] = &[
    "1 grant root audit board",
    "1 grant root move vehicle 1 2",
    "1 grant root move customer 1 3",
    "1 grant root pin customer 1 3",
    "1 insert 1 1 1 0",
    "1 insert 3 1 2 1",
    "1 insert 2 2 1 2",
    "1 add-user worker",
    "1 add-role worker",
    "1 grant worker move vehicle 1 2",
    "1 grant worker move customer 1 3",
    "1 assign worker worker",
    "1 open worker worker",
];

/// A round of session 2, which is left so many bytes.
fn one_round<N: Naming, R: Wait + Drop, W: Wait>(
    rt: &W,
    hoard: &mut Hoard,
    desk: Desk<N, R>,
    bytes: usize,
) -> (Desk<N, R>, Tally)
    requires { setting desk.setup.value ≡ N.opening.setting }
    ensures { setting result.0.setup.value ≡ N.opening.setting }
{
    hoard.leave(bytes);
    let Share { desk, tally } = work(rt, desk, 2, SEED, 1, &OpenGate);
    hoard.give_back();
    (desk, tally)
}

/// One round after another, each with more memory, until one is not refused: how many were, and the last one.
fn rounds_until<N: Naming, R: Wait + Drop, W: Wait>(
    rt: &W,
    hoard: &mut Hoard,
    desk: Desk<N, R>,
) -> (u32, Option<Tally>)
    requires { setting desk.setup.value ≡ N.opening.setting }
{
    let mut desk = desk;
    let mut bytes = 0usize;
    for refused in 0..10_000u32 {
        let (next, tally) = one_round(rt, hoard, desk, bytes);
        desk = next;
        if tally.refused == 0 {
            return (refused, Some(tally));
        }
        bytes = bytes.saturating_add(32).saturating_add(bytes / 64);
    }
    (10_000, None)
}

/// The rounds that were refused, the last one, and the journal's text.
pub(crate) type Ended = (u32, Option<Tally>, Option<String>);

/// A worker beside whom memory runs out.
pub(crate) fn works_on<N: Naming, R: Wait + Drop, W: Wait>(
    rt: &W,
    alloc: Global,
    hoard: &mut Hoard,
    foyer: Foyer<R>,
) -> Option<Ended>
    requires opening { foyer.room.opening ≡ N.opening }
    requires book { foyer.room.book ≡ N.book }
{
    let (worker, mut own) = open_two::<N, R>(alloc, foyer)?;
    play(rt, alloc, &own.setup, &mut own.seat, LAID_OUT);
    let (refused, last) = rounds_until(rt, hoard, worker);
    Some((refused, last, audit(rt, alloc, &mut own.seat)))
}

/// The last entry is the worker's first, and behind it comes the end.
const LAST: &str = "event 13 2 13 | 1 open worker worker | session 2
event 14 1 1 | 2 shift 2 1 1 1 2 3 | committed 4
end
";

/// The rounds that lacked memory were refused and left nothing, and the next one committed.
pub(crate) fn compare_rounds(rt: &impl Abort, hoard: &Hoard, ended: &Option<Ended>) {
    let Some((refused, Some(tally), Some(text))) = ended else {
        return assert!(rt; false);
    };
    assert!(rt; hoard.is_enough(*refused, 10));
    assert_eq!(rt; (tally.tried, tally.committed), (1u32, 1u32));
    assert!(rt; text.ends_with(LAST));
}
