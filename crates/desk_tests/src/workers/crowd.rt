//! Eight workers over two hundred customers, beside a busy desk, twenty times, each time with other seeds. Each reply is then judged again by
//! a board of one thread.
ghost use Rattle.std.specs.Prelude.{◌≡◌, All, IfSome, map};
ghost use Rattle.dimension_core.specs.Setup.{setting};

use crate::beside::Task;
use crate::workers::busy::{Busy, CUSTOMERS, VEHICLES};
use crate::workers::crossed::at_once;
use crate::workers::replay::judged_again;
use board_journal::Journal;
use board_lock::{Desk, DeskOf, Foyer, Naming, Seat};
use board_rules::Call;
use desk_fixtures::{open_all, play};
use dimension_core::Setup;
use move_core::Move;
use search_workers::{OpenGate, Share, Tally};
use separation_core::Name;
use std::alloc::Global;
use std::process::Abort;
use std::sync::{Arc, Wait};
use std::thread;
use std::thread::{Promise, PromisedHandle, Scope, Threads};

/// How often the workers work, how many rounds each time, and how many turns the busy desk has beside them.
const RUNS: u64 = 20;

const ROUNDS: u32 = 50;

const TURNS: u32 = 200;

/// Session 1 may do everything, and eight sessions of user `worker` may move everything.
const PREPARED: &[&str] = &[
    "1 grant root audit board",
    "1 grant root move vehicle 1 10",
    "1 grant root move customer 1 200",
    "1 grant root freeze vehicle 1 10",
    "1 grant root pin customer 1 200",
    "1 add-user worker",
    "1 add-role worker",
    "1 assign worker worker",
    "1 grant worker move vehicle 1 10",
    "1 grant worker move customer 1 200",
    "1 open worker worker",
    "1 open worker worker",
    "1 open worker worker",
    "1 open worker worker",
    "1 open worker worker",
    "1 open worker worker",
    "1 open worker worker",
    "1 open worker worker",
];

/// How many rounds were committed, denied, refused and idle, and how many turns of the busy desk were committed and met a fault.
#[derive(Clone, Copy, Debug, PartialEq, Eq, Drop)]
struct Sums {
    committed: u32,
    denied: u32,
    refused: u32,
    idle: u32,
    turns: u32,
    faults: u32,
}

impl Sums {
    fn none() -> Sums {
        Sums {
            committed: 0,
            denied: 0,
            refused: 0,
            idle: 0,
            turns: 0,
            faults: 0,
        }
    }

    /// The sums of a run.
    fn of<N: Naming, R: Wait + Drop>(turns: (u32, u32), shares: &[Share<N, R>]) -> Sums {
        let mut sums = Sums::none();
        sums.turns = turns.0;
        sums.faults = turns.1;
        for share in shares {
            sums.count(share.tally);
        }
        sums
    }

    fn count(&mut self, tally: Tally) {
        self.committed = self.committed.wrapping_add(tally.committed);
        self.denied = self.denied.wrapping_add(tally.denied);
        self.refused = self.refused.wrapping_add(tally.refused);
        self.idle = self.idle.wrapping_add(tally.idle);
    }

    fn add(&mut self, more: Sums) {
        self.committed = self.committed.wrapping_add(more.committed);
        self.denied = self.denied.wrapping_add(more.denied);
        self.refused = self.refused.wrapping_add(more.refused);
        self.idle = self.idle.wrapping_add(more.idle);
        self.turns = self.turns.wrapping_add(more.turns);
        self.faults = self.faults.wrapping_add(more.faults);
    }
}

/// The desks of some shares.
fn desks_of<N: Naming, R: Wait + Drop>(
    alloc: Global,
    shares: Vec<Share<N, R>>,
) -> Option<Vec<Desk<N, R>>>
    ensures { IfSome result (λ v. v.items ≡ map (λ s. s.desk) shares.items) }
{
    let mut desks = Vec::new(alloc);
    for share in shares {
        let Ok(()) = desks.push(share.desk) else {
            return None;
        };
    }
    Some(desks)
}

/// The workers' part, with eight seeds from one on.
fn work_on<N: Naming + Send + Sync, R: Wait + Drop + Send + Sync, W: Threads + Wait + Sync>(
    rt: &W,
    desks: Vec<Desk<N, R>>,
    seed: u64,
) -> Option<Vec<Share<N, R>>>
    requires { All (λ d. setting d.setup.value ≡ N.opening.setting) desks.items }
    ensures { IfSome result (λ v. All (λ s. setting s.desk.setup.value ≡ N.opening.setting) v.items) }
{
    let seeds = [
        seed,
        seed.wrapping_add(1),
        seed.wrapping_add(2),
        seed.wrapping_add(3),
        seed.wrapping_add(4),
        seed.wrapping_add(5),
        seed.wrapping_add(6),
        seed.wrapping_add(7),
    ];
    let sessions = [2u32, 3, 4, 5, 6, 7, 8, 9];
    at_once(rt, desks, &sessions, &seeds, ROUNDS, &OpenGate)
}

/// What a thread promises of what it gives back: nothing.
#[derive(Drop)]
struct Nothing;

impl<C> Promise<C> for Nothing {
    ghost kept_by = { λ p c. Unit {0} };
}

/// Starts a thread that does a task.
fn start<
    's,
    E,
    A: Send + Drop + 's,
    B: Send + Drop + 's,
    C: Send + Drop + 's,
    T: Task<W, A, B, C> + Send + Drop + 's,
    W: Threads + Wait + Sync,
>(
    rt: &'s W,
    scope: &'s Scope<'s, E>,
    task: T,
    first: A,
    second: B,
) -> Option<PromisedHandle<C, Nothing>>
    requires { T.may first second }
{
    let Ok(child) = scope.spawn_with(
        Nothing,
        move || -> C
            requires { T.may first second }
        { task.run(rt, first, second) },
    ) else {
        return None;
    };
    Some(child)
}

/// The busy desk in a thread of its own, and the workers beside it, with their desks and the first of their seeds.
fn both<N: Naming + Send + Sync, R: Wait + Drop + Send + Sync, W: Threads + Wait + Sync>(
    rt: &W,
    busy: Busy,
    setup: Arc<Setup>,
    seat: Seat<N, R>,
    work: (Vec<Desk<N, R>>, u64),
) -> Option<(Seat<N, R>, (u32, u32), Vec<Share<N, R>>)>
    requires one { setting setup.value ≡ N.opening.setting }
    requires all { All (λ d. setting d.setup.value ≡ N.opening.setting) work.0.items }
    ensures { IfSome result (λ t. All (λ s. setting s.desk.setup.value ≡ N.opening.setting) t.2.items) }
{
    let (desks, seed) = work;
    thread::scope(
        thread::scope_env(),
        rt,
        move |scope| -> Option<(Seat<N, R>, (u32, u32), Vec<Share<N, R>>)>
            requires { (setting setup.value ≡ N.opening.setting) × All (λ d. setting d.setup.value ≡ N.opening.setting) desks.items }
            ensures { IfSome result (λ t. All (λ s. setting s.desk.setup.value ≡ N.opening.setting) t.2.items) }
        {
            let child = start(rt, scope, busy, setup, seat)?;
            let shares = work_on(rt, desks, seed);
            let (seat, done) = child.join(rt);
            match shares {
                Some(shares) => Some((seat, done, shares)),
                None => None,
            }
        },
    )
}

/// One more run, with eight seeds from one on. It gives the desks back with what came of it.
fn work_again<N: Naming + Send + Sync, R: Wait + Drop + Send + Sync, W: Threads + Wait + Sync>(
    rt: &W,
    alloc: Global,
    setup: &Arc<Setup>,
    seat: Seat<N, R>,
    desks: Vec<Desk<N, R>>,
    seed: u64,
) -> Option<(Seat<N, R>, Vec<Desk<N, R>>, Sums)>
    requires one { setting setup.now.value ≡ N.opening.setting }
    requires all { All (λ d. setting d.setup.value ≡ N.opening.setting) desks.items }
    ensures { IfSome result (λ t. All (λ d. setting d.setup.value ≡ N.opening.setting) t.1.items) }
{
    let role = Name::new(b"worker")?;
    let theirs = Arc::try_clone(setup).ok()?;
    let busy = Busy { role, turns: TURNS };
    let (seat, turns, shares) = both(rt, busy, theirs, seat, (desks, seed))?;
    let sums = Sums::of(turns, shares.as_slice());
    match desks_of(alloc, shares) {
        Some(desks) => Some((seat, desks, sums)),
        None => None,
    }
}

/// The customers on the vehicles in turn.
fn lay_out<N: Naming, R: Wait + Drop, W: Wait>(rt: &W, setup: &Setup, seat: &mut Seat<N, R>)
    requires { setting setup.now ≡ N.opening.setting }
{
    for before in 0..CUSTOMERS {
        let call = Call::Propose {
            session: 1,
            base: before,
            mv: Move::Insert {
                customer: before + 1,
                vehicle: before % VEHICLES + 1,
                place: before / VEHICLES + 1,
            },
        };
        let _reply = seat.submit(rt, setup, call);
    }
}

/// What came of all runs, with the setup and the journal.
#[derive(Drop)]
pub(crate) struct Ended {
    sums: Sums,
    setup: Arc<Setup>,
    journal: Journal,
}

/// All rounds are counted, some were committed, none met a fault, and no reply differs. The version is the number of commits.
fn compare_sums(rt: &impl Abort, sums: Sums, again: Option<(u32, u32)>) {
    let tried = sums.committed.wrapping_add(sums.denied);
    assert_eq!(rt; tried.wrapping_add(sums.idle), 8000);
    assert_eq!(rt; (sums.refused, sums.faults), (0u32, 0u32));
    assert!(rt; sums.committed > 0);
    let commits = sums.committed.wrapping_add(sums.turns);
    assert_eq!(rt; again, Some((0u32, commits.wrapping_add(200))));
}

/// Compares the sums, and the journal with what a board of one thread answers.
pub(crate) fn compare_crowd(rt: &impl Abort, alloc: Global, ended: Option<Ended>) {
    let Some(ended) = ended else {
        return assert!(rt; false);
    };
    let again = judged_again(alloc, ended.setup, &ended.journal);
    compare_sums(rt, ended.sums, again);
}

/// The runs one after another.
fn work_often<N: Naming + Send + Sync, R: Wait + Drop + Send + Sync, W: Threads + Wait + Sync>(
    rt: &W,
    alloc: Global,
    setup: &Arc<Setup>,
    seat: Seat<N, R>,
    desks: Vec<Desk<N, R>>,
) -> Option<(Seat<N, R>, Sums)>
    requires one { setting setup.now.value ≡ N.opening.setting }
    requires all { All (λ d. setting d.setup.value ≡ N.opening.setting) desks.items }
{
    let mut seat = seat;
    let mut desks = desks;
    let mut sums = Sums::none();
    for run in 0..RUNS {
        let (next, others, more) = work_again(rt, alloc, setup, seat, desks, run * 8 + 1)?;
        seat = next;
        desks = others;
        sums.add(more);
    }
    Some((seat, sums))
}

/// The workers work beside the busy desk, run after run.
pub(crate) fn works_beside<
    N: Naming + Send + Sync,
    R: Wait + Drop + Send + Sync,
    W: Threads + Wait + Sync,
>(rt: &W, alloc: Global, foyer: Foyer<R>) -> Option<Ended>
    requires opening { foyer.room.opening ≡ N.opening }
    requires book { foyer.room.book ≡ N.book }
{
    let (desks, own) = open_all::<N, R>(alloc, foyer)?;
    let DeskOf { setup, seat } = own;
    let mut own = seat;
    play(rt, alloc, &setup, &mut own, PREPARED);
    lay_out(rt, &setup, &mut own);
    let (mut own, sums) = work_often(rt, alloc, &setup, own, desks)?;
    match own.audit(rt, 1) {
        Ok(journal) => Some(Ended {
            sums,
            setup,
            journal,
        }),
        Err(_) => None,
    }
}
