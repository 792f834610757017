//! One worker alone, on three customers in a line: 30, 60 and 90 from the depot, and in the order 2, 1, 3.
ghost use Rattle.std.specs.Prelude.{◌≡◌};

use board_lock::{Foyer, Naming};
use desk_fixtures::{audit, open_two, play};
use search_workers::{OpenGate, Share, Tally, work};
use std::alloc::Global;
use std::process::Abort;
use std::sync::Wait;

/// The customers in the order 2, 1, 3, by session 1, which may move them all.
pub(crate) const LAID_OUT: &[&str] = &[
    "1 grant root audit board",
    "1 grant root move vehicle 1 1",
    "1 grant root move customer 1 3",
    "1 insert 2 1 1 0",
    "1 insert 1 1 2 1",
    "1 insert 3 1 3 2",
];

/// Customer 1 behind customer 2 again.
pub(crate) const BACK: &[&str] = &["1 shift 1 1 1 1 2 4"];

/// The moves of the route 2, 1, 3 that save 60, in the order of ties, are proposed one after another by a session that is not there. Then
/// session 1 commits the first of them, and after that it is taken back.
const JOURNAL: &str = "event 1 2 1 | 1 grant root audit board | done
event 2 2 2 | 1 grant root move vehicle 1 1 | done
event 3 2 3 | 1 grant root move customer 1 3 | done
event 4 2 4 | 1 insert 2 1 1 0 | committed 1
event 5 2 5 | 1 insert 1 1 2 1 | committed 2
event 6 2 6 | 1 insert 3 1 3 2 | committed 3
event 7 1 1 | 2 shift 1 1 1 1 2 3 | denied no-session
event 8 1 2 | 2 shift 1 1 1 1 3 3 | denied no-session
event 9 1 3 | 2 shift 1 1 2 1 2 3 | denied no-session
event 10 1 4 | 2 shift 1 2 1 1 1 3 | denied no-session
event 11 1 5 | 2 shift 1 2 1 1 3 3 | denied no-session
event 12 1 6 | 2 shift 1 2 2 1 1 3 | denied no-session
event 13 1 7 | 2 shift 1 3 1 1 1 3 | denied no-session
event 14 1 8 | 2 shift 1 3 1 1 2 3 | denied no-session
event 15 1 9 | 2 swap 1 1 1 2 3 | denied no-session
event 16 1 10 | 2 swap 1 2 1 3 3 | denied no-session
event 17 1 11 | 2 reverse 1 1 2 3 | denied no-session
event 18 1 12 | 2 reverse 1 2 3 3 | denied no-session
event 19 1 13 | 1 shift 1 1 1 1 2 3 | committed 4
event 20 2 7 | 1 shift 1 1 1 1 2 4 | committed 5
end
";

/// What came of the rounds of a session that is not there, of session 1, and of session 1 where the journal is full.
#[derive(Drop)]
pub(crate) struct Alone {
    denied: Tally,
    committed: Tally,
    refused: Tally,
    journal: Option<String>,
}

/// Session 2 is not there, so each of twelve moves is denied before none is left. Session 1 commits the first of them, after which none
/// counts. Once the journal is full, each round in which a move counts is refused.
pub(crate) fn works_alone<N: Naming, R: Wait + Drop, W: Wait>(
    rt: &W,
    alloc: Global,
    foyer: Foyer<R>,
) -> Option<Alone>
    requires opening { foyer.room.opening ≡ N.opening }
    requires book { foyer.room.book ≡ N.book }
{
    let (worker, mut own) = open_two::<N, R>(alloc, foyer)?;
    play(rt, alloc, &own.setup, &mut own.seat, LAID_OUT);
    let Share {
        desk,
        tally: denied,
    } = work(rt, worker, 2, 7, 14, &OpenGate);
    let Share {
        desk,
        tally: committed,
    } = work(rt, desk, 1, 7, 3, &OpenGate);
    play(rt, alloc, &own.setup, &mut own.seat, BACK);
    let share = work(rt, desk, 1, 7, 2, &OpenGate);
    let refused = share.tally;
    let journal = audit(rt, alloc, &mut own.seat);
    Some(Alone {
        denied,
        committed,
        refused,
        journal,
    })
}

/// How many rounds were committed, denied, refused and idle.
pub(crate) fn ends_of(tally: Tally) -> (u32, u32, u32, u32) {
    (tally.committed, tally.denied, tally.refused, tally.idle)
}

pub(crate) fn compare_alone(rt: &impl Abort, ended: &Option<Alone>) {
    let Some(ended) = ended else {
        return assert!(rt; false);
    };
    assert_eq!(rt; ends_of(ended.denied), (0u32, 12u32, 0u32, 2u32));
    assert_eq!(rt; ends_of(ended.committed), (1u32, 0u32, 0u32, 2u32));
    assert_eq!(rt; ends_of(ended.refused), (0u32, 0u32, 2u32, 0u32));
    assert_eq!(rt; ended.journal.as_deref(), Some(JOURNAL));
}
