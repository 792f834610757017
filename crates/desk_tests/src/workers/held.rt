//! One worker that has found a move, and before it proposes it another desk takes something away: its session, a role of its user, a
//! permission, or the freedom of the vehicle's front. Last, one that has looked where no move counts, while another desk makes one count again.
ghost use Rattle.std.specs.Prelude.{◌≡◌, IfSome};
ghost use Rattle.dimension_core.specs.Setup.{setting};

use crate::beside::{Given, Task, beside};
use crate::workers::alone::LAID_OUT;
use crate::workers::crossed::{say, wait_for};
use board_journal::Journal;
use board_lock::{DeskOf, Foyer, Naming, Seat};
use desk_fixtures::{open_two, play, text_of};
use dimension_core::Setup;
use search_workers::{Gate, Outcome, Point, Share, work};
use std::alloc::Global;
use std::process::Abort;
use std::sync::atomic::{AtomicU64, Ordering};
use std::sync::{Arc, Wait};
use std::thread::Threads;

/// What another desk submits before the rounds of a session, and what while the worker is held at a point.
#[derive(Clone, Copy, Drop)]
pub(crate) struct Turn {
    pub(crate) session: u32,
    pub(crate) rounds: u32,
    pub(crate) point: Point,
    pub(crate) first: &'static [&'static str],
    pub(crate) held: &'static [&'static str],
}

/// How a plan is laid out and a worker hired, the turns after that, and the session that reads the journal in the end.
#[derive(Clone, Copy, Drop)]
pub(crate) struct Story {
    pub(crate) laid_out: &'static [&'static str],
    pub(crate) hired: &'static [&'static str],
    pub(crate) turns: &'static [Turn],
    pub(crate) reader: u32,
}

/// User and role `worker` may move the vehicle and the customers, and session 1 may freeze.
pub(crate) const STORY: Story = Story {
    laid_out: LAID_OUT,
    hired: &[
        "1 grant root freeze vehicle 1 1",
        "1 add-user worker",
        "1 add-role worker",
        "1 grant worker move vehicle 1 1",
        "1 grant worker move customer 1 3",
    ],
    turns: TURNS,
    reader: 1,
};

const TURNS: &[Turn] = &[
    Turn {
        session: 2,
        rounds: 1,
        point: Point::Before,
        first: &["1 assign worker worker", "1 open worker worker"],
        held: &["1 close 2"],
    },
    Turn {
        session: 3,
        rounds: 1,
        point: Point::Before,
        first: &["1 open worker worker"],
        held: &["1 deassign worker worker"],
    },
    Turn {
        session: 4,
        rounds: 1,
        point: Point::Before,
        first: &["1 assign worker worker", "1 open worker worker"],
        held: &["1 revoke worker move customer 2 2"],
    },
    Turn {
        session: 4,
        rounds: 1,
        point: Point::Before,
        first: &["1 grant worker move customer 2 2"],
        held: &["1 freeze 1 3"],
    },
    Turn {
        session: 4,
        rounds: 2,
        point: Point::Seen,
        first: &["1 thaw 1 0", "1 shift 1 1 1 1 2 3"],
        held: &["1 shift 1 1 1 1 2 4"],
    },
];

const JOURNAL: &str = "event 1 2 1 | 1 grant root audit board | done
event 2 2 2 | 1 grant root move vehicle 1 1 | done
event 3 2 3 | 1 grant root move customer 1 3 | done
event 4 2 4 | 1 insert 2 1 1 0 | committed 1
event 5 2 5 | 1 insert 1 1 2 1 | committed 2
event 6 2 6 | 1 insert 3 1 3 2 | committed 3
event 7 2 7 | 1 grant root freeze vehicle 1 1 | done
event 8 2 8 | 1 add-user worker | done
event 9 2 9 | 1 add-role worker | done
event 10 2 10 | 1 grant worker move vehicle 1 1 | done
event 11 2 11 | 1 grant worker move customer 1 3 | done
event 12 2 12 | 1 assign worker worker | done
event 13 2 13 | 1 open worker worker | session 2
event 14 2 14 | 1 close 2 | done
event 15 1 1 | 2 shift 1 1 1 1 2 3 | denied no-session
event 16 2 15 | 1 open worker worker | session 3
event 17 2 16 | 1 deassign worker worker | done
event 18 1 2 | 3 shift 1 1 1 1 2 3 | denied access vehicle 1
event 19 2 17 | 1 assign worker worker | done
event 20 2 18 | 1 open worker worker | session 4
event 21 2 19 | 1 revoke worker move customer 2 2 | done
event 22 1 3 | 4 shift 1 1 1 1 2 3 | denied access customer 1 1
event 23 2 20 | 1 grant worker move customer 2 2 | done
event 24 2 21 | 1 freeze 1 3 | done
event 25 1 4 | 4 shift 1 1 1 1 2 3 | denied frozen 1
event 26 2 22 | 1 thaw 1 0 | done
event 27 2 23 | 1 shift 1 1 1 1 2 3 | committed 4
event 28 2 24 | 1 shift 1 1 1 1 2 4 | committed 5
event 29 1 5 | 4 shift 1 1 1 1 2 5 | committed 6
end
";

/// Two words that two threads share: whether the worker is there, and whether it is let go.
#[derive(Drop)]
struct Words {
    there: Arc<AtomicU64>,
    free: Arc<AtomicU64>,
}

impl Words {
    fn new(alloc: Global) -> Option<Words> {
        Some(Words {
            there: Arc::new(alloc, AtomicU64::new(0)).ok()?,
            free: Arc::new(alloc, AtomicU64::new(0)).ok()?,
        })
    }

    /// The same words, for another thread.
    fn share(&self) -> Option<Words> {
        Some(Words {
            there: Arc::try_clone(&self.there).ok()?,
            free: Arc::try_clone(&self.free).ok()?,
        })
    }
}

/// Holds a worker at a point until it is let go, and adds up the numbers of the rounds that found nothing.
#[derive(Drop)]
struct Latch {
    point: Point,
    words: Words,
    idle: AtomicU64,
}

impl<W: Wait> Gate<W> for Latch {
    fn pass(&self, _rt: &W, _worker: u32, _round: u32, point: Point) {
        if point == self.point {
            say(&self.words.there);
            wait_for(&self.words.free, 1);
        }
    }

    fn done(&self, _rt: &W, _worker: u32, round: u32, outcome: Outcome) {
        if outcome == Outcome::Idle {
            self.idle.fetch_add(u64::from(round), Ordering::SeqCst);
        }
    }
}

/// How many rounds were committed and denied, and what the numbers of those that found nothing add up to.
type Ends = (u32, u32, u64);

/// The rounds of a worker, which is held at a point. It gives the seat back with how they ended.
#[derive(Drop)]
struct Rounds {
    session: u32,
    rounds: u32,
    gate: Latch,
}

impl<N: Naming, R: Wait + Drop, W: Wait> Task<W, Arc<Setup>, Seat<N, R>, (Seat<N, R>, Ends)>
    for Rounds {
    ghost use Rattle.dimension_core.specs.Setup.{setting};

    ghost may = { λ setup seat. setting setup.value ≡ N.opening.setting };

    fn run(self, rt: &W, first: Arc<Setup>, second: Seat<N, R>) -> (Seat<N, R>, Ends) {
        let desk = DeskOf {
            setup: first,
            seat: second,
        };
        let Share { desk, tally } = work(rt, desk, self.session, 7, self.rounds, &self.gate);
        (
            desk.seat,
            (
                tally.committed,
                tally.denied,
                self.gate.idle.load(Ordering::SeqCst),
            ),
        )
    }
}

/// What another desk submits once the worker is held, which is then let go.
#[derive(Drop)]
struct OneTurn {
    alloc: Global,
    lines: &'static [&'static str],
    words: Words,
}

impl<N: Naming, R: Wait + Drop, W: Wait> Task<W, Arc<Setup>, Seat<N, R>, Seat<N, R>> for OneTurn {
    ghost use Rattle.dimension_core.specs.Setup.{setting};

    ghost may = { λ setup seat. setting setup.value ≡ N.opening.setting };

    fn run(self, rt: &W, first: Arc<Setup>, second: Seat<N, R>) -> Seat<N, R> {
        let mut seat = second;
        wait_for(&self.words.there, 1);
        play(rt, self.alloc, &first, &mut seat, self.lines);
        say(&self.words.free);
        seat
    }
}

/// The rounds and what another desk does in a turn, each with a setup of its own.
type Ready = ((Rounds, Arc<Setup>), (OneTurn, Arc<Setup>));

/// All that a turn needs but the seats, which so are at stake in none of its failures.
fn ready(alloc: Global, setup: &Arc<Setup>, turn: &Turn) -> Option<Ready>
    ensures rounds { IfSome result (λ r. r.0.1.value ≡ setup.now.value) }
    ensures call { IfSome result (λ r. r.1.1.value ≡ setup.now.value) }
{
    let first = Arc::try_clone(setup).ok()?;
    let second = Arc::try_clone(setup).ok()?;
    let words = Words::new(alloc)?;
    let gate = Latch {
        point: turn.point,
        words: words.share()?,
        idle: AtomicU64::new(0),
    };
    let rounds = Rounds {
        session: turn.session,
        rounds: turn.rounds,
        gate,
    };
    let call = OneTurn {
        alloc,
        lines: turn.held,
        words,
    };
    Some(((rounds, second), (call, first)))
}

/// A turn of one seat, and the rounds of the other. It gives the seats back with what `Rounds` gives.
fn one_turn<N: Naming + Send + Sync, R: Wait + Drop + Send + Sync, W: Threads + Wait + Sync>(
    rt: &W,
    alloc: Global,
    setup: &Arc<Setup>,
    seats: (Seat<N, R>, Seat<N, R>),
    turn: &Turn,
) -> Option<((Seat<N, R>, Seat<N, R>), Ends)>
    requires { setting setup.now.value ≡ N.opening.setting }
{
    let ((rounds, second), (call, first)) = ready(alloc, setup, turn)?;
    let (mut own, other) = seats;
    play(rt, alloc, setup, &mut own, turn.first);
    let there = Given {
        task: rounds,
        first: second,
        second: other,
    };
    let here = Given {
        task: call,
        first,
        second: own,
    };
    let ((other, ends), own) = beside(rt, there, here);
    Some(((own, other), ends))
}

/// All turns, one after another. It gives the other desk's seat back with how the rounds ended.
fn all_turns<N: Naming + Send + Sync, R: Wait + Drop + Send + Sync, W: Threads + Wait + Sync>(
    rt: &W,
    alloc: Global,
    setup: &Arc<Setup>,
    seats: (Seat<N, R>, Seat<N, R>),
    turns: &[Turn],
) -> Option<(Seat<N, R>, Ends)>
    requires { setting setup.now.value ≡ N.opening.setting }
{
    let mut seats = seats;
    let mut ends = (0u32, 0u32, 0u64);
    for turn in turns {
        let (next, more) = one_turn(rt, alloc, setup, seats, turn)?;
        seats = next;
        ends.0 = ends.0.wrapping_add(more.0);
        ends.1 = ends.1.wrapping_add(more.1);
        ends.2 = ends.2.wrapping_add(more.2);
    }
    let (own, _worker) = seats;
    Some((own, ends))
}

/// How the rounds ended, with the setup and the journal.
#[derive(Drop)]
pub(crate) struct Ended {
    pub(crate) ends: Ends,
    pub(crate) setup: Arc<Setup>,
    pub(crate) journal: Journal,
}

/// A worker's rounds, each held while another desk takes its turn.
pub(crate) fn works_held<
    N: Naming + Send + Sync,
    R: Wait + Drop + Send + Sync,
    W: Threads + Wait + Sync,
>(rt: &W, alloc: Global, foyer: Foyer<R>, story: &Story) -> Option<Ended>
    requires opening { foyer.room.opening ≡ N.opening }
    requires book { foyer.room.book ≡ N.book }
{
    let (worker, own) = open_two::<N, R>(alloc, foyer)?;
    let DeskOf { setup, seat } = own;
    let mut own = seat;
    play(rt, alloc, &setup, &mut own, story.laid_out);
    play(rt, alloc, &setup, &mut own, story.hired);
    let (mut own, ends) = all_turns(rt, alloc, &setup, (own, worker.seat), story.turns)?;
    match own.audit(rt, story.reader) {
        Ok(journal) => Some(Ended {
            ends,
            setup,
            journal,
        }),
        Err(_) => None,
    }
}

fn compare_text(rt: &impl Abort, text: &str) {
    assert_eq!(rt; text, JOURNAL);
}

/// Four rounds were denied, and of the last two the first one found nothing and the second one was committed.
pub(crate) fn compare_held(rt: &impl Abort, alloc: Global, ended: Option<Ended>) {
    let Some(Ended { ends, journal, .. }) = ended else {
        return compare_text(rt, "no journal");
    };
    let text = text_of(alloc, &journal);
    compare_text(rt, text.as_deref().unwrap_or("no text"));
    assert_eq!(rt; ends, (1u32, 4u32, 1u64));
}
