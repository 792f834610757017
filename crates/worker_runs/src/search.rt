//! The workers, each in a thread of its own.
//!
//! That a setup and a seat may go to another thread is found of each alone, and not of both in one closure. So the closure is made in a
//! function that knows of its types no more than that each may go.
ghost use Rattle.std.specs.Prelude.{◌≡◌, ◌≤◌, IfSome, OnOk, true, length, map, ◌++◌, ◌∷◌, []};
ghost use Rattle.std.specs.Option.{IsSomeAnd};
ghost use Rattle.limits.specs.declared.TheConstants.{MOST_WORKERS};
ghost use Rattle.dimension_core.specs.Setup.{setting};
ghost use Rattle.worker_runs.specs.Halls.{AreDone, post, posts};

use crate::orders::Orders;
use crate::progress::{Copied, Quiet, Report};
use board_lock::{DeskOf, Naming, Seat};
use dimension_core::Setup;
use search_workers::{Gate, Share, Tally, work};
use std::alloc::{AllocError, Global};
use std::io::Eprint;
use std::snapshot::Snapshot;
use std::sync::{Arc, Wait};
use std::thread;
use std::thread::{Promise, PromisedHandle, Threads};
use std::time::Clock;

/// What a thread does with two things that it is given.
trait Task<W, A, B, C> {
    // What must hold of the two.
    ghost may: { A → B → Type 0 };

    // What holds of the second one and what comes of it.
    ghost makes: { B → C → Type 0 };

    fn run(self, rt: &W, first: A, second: B) -> C
        requires { may first second }
        ensures { makes second result };
}

/// Starts a thread that does a task.
fn start<
    A: Send + Drop + 'static,
    B: Send + Drop + 'static,
    C: Send + Drop + 'static,
    P: Promise<C> + Drop,
    T: Task<W, A, B, C> + Send + Drop + 'static,
    W: Threads + Wait + Copy + Send + Sync + 'static,
>(rt: W, promise: P, task: T, first: A, second: B) -> Option<PromisedHandle<C, P>>
    requires may { T.may first second }
    requires kept { (c : C) → T.makes second c → P.kept_by promise c }
    ensures { IfSome result (λ h. h.promise ≡ promise) }
{
    let Ok(child) = thread::spawn_with(
        &rt,
        promise,
        move || -> C
            requires { T.may first second }
            ensures { T.makes second result }
        { task.run(&rt, first, second) },
    ) else {
        return None;
    };
    Some(child)
}

/// What a worker is given, beside the setup: its desk, its number, from 1, and what all workers are to do.
#[derive(Drop)]
struct Assignment<N: Naming, D: Wait + Drop> {
    seat: Seat<N, D>,
    worker: u32,
    orders: Orders,
    ghost few: { worker ≤ MOST_WORKERS },
}

/// What a worker gives back.
#[derive(Drop)]
struct WorkerResult<N: Naming, D: Wait + Drop> {
    seat: Seat<N, D>,
    tally: Tally,
}

/// A promise of what a worker gives back for its assignment.
#[derive(Drop)]
struct WorkOf<N: Naming, D: Wait + Drop> {
    assignment: Snapshot<Assignment<N, D>>,
}

impl<N: Naming, D: Wait + Drop> Promise<WorkerResult<N, D>> for WorkOf<N, D> {
    ghost use Rattle.worker_runs.specs.Halls.{IsDone, post};

    ghost kept_by = { λ p done. IsDone N.opening
        (post p.assignment.value.worker p.assignment.value.orders p.assignment.value.seat) done.seat done.tally };
}

/// A worker's thread.
type Thread<N, D> = PromisedHandle<WorkerResult<N, D>, WorkOf<N, D>>;

/// The rounds of a worker, past a gate.
#[derive(Drop)]
struct Rounds<G> {
    gate: G,
}

impl<N: Naming, D: Wait + Drop, W: Wait, G: Gate<W> + Drop> Task<
    W,
    Arc<Setup>,
    Assignment<N, D>,
    WorkerResult<N, D>,
> for Rounds<G> {
    ghost use Rattle.std.specs.Prelude.{◌≡◌};
    ghost use Rattle.dimension_core.specs.Setup.{setting};
    ghost use Rattle.worker_runs.specs.Halls.{IsDone, post};

    ghost may = { λ setup assignment. setting setup.value ≡ N.opening.setting };

    ghost makes = { λ assignment done. IsDone N.opening (post assignment.worker assignment.orders assignment.seat) done.seat done.tally };

    fn run(self, rt: &W, first: Arc<Setup>, second: Assignment<N, D>) -> WorkerResult<N, D> {
        let Assignment {
            seat,
            worker,
            orders,
        } = second;
        let desk = DeskOf { setup: first, seat };
        let session = worker + 1;
        let seed = u64::from(orders.seed) + u64::from(worker);
        let Share { desk, tally } = work(rt, desk, session, seed, orders.rounds, &self.gate);
        let DeskOf { setup: _, seat } = desk;
        WorkerResult { seat, tally }
    }
}

/// Starts a worker.
fn start_one<
    N: Naming + Send + Sync + 'static,
    D: Wait + Drop + Send + Sync + 'static,
    W: Threads + Wait + Copy + Send + Sync + 'static,
    G: Gate<W> + Copied + Send + Drop + 'static,
>(rt: W, setup: &Arc<Setup>, assignment: Assignment<N, D>, gate: &G) -> Option<Thread<N, D>>
    requires { setting setup.now.value ≡ N.opening.setting }
    ensures { IfSome result (λ h. h.promise.assignment.value ≡ assignment) }
{
    let Ok(theirs) = Arc::try_clone(setup) else {
        return None;
    };
    let Some(gate) = gate.copied() else {
        return None;
    };
    let promise = WorkOf {
        assignment: Snapshot::of(&assignment),
    };
    start(rt, promise, Rounds { gate }, theirs, assignment)
}

/// The threads of the workers that were started, in their order, and whether all were.
#[derive(Drop)]
pub(crate) struct Crew<N: Naming, D: Wait + Drop> {
    threads: Vec<Thread<N, D>>,
    whole: bool,
}

/// One worker more, or that it was not started.
fn with_one<N: Naming, D: Wait + Drop, W: Threads>(
    rt: &W,
    crew: Crew<N, D>,
    thread: Option<Thread<N, D>>,
) -> Crew<N, D>
    ensures { result.whole ≡ true → (crew.whole ≡ true) × IsSomeAnd thread (λ h. result.threads.items ≡ crew.threads.items ++ h ∷ []) }
{
    let Crew { threads, whole } = crew;
    let mut threads = threads;
    let Some(thread) = thread else {
        return Crew {
            threads,
            whole: false,
        };
    };
    match threads.push(thread) {
        Ok(()) => Crew { threads, whole },
        Err(refused) => {
            let _done = refused.value.join(rt);
            Crew {
                threads,
                whole: false,
            }
        }
    }
}

/// Starts a worker for each of the seats, with a copy of a gate: worker i, counted from 1, proposes by session i plus 1 and draws by the
/// seed plus i.
fn start_all<
    N: Naming + Send + Sync + 'static,
    D: Wait + Drop + Send + Sync + 'static,
    W: Threads + Wait + Copy + Send + Sync + 'static,
    G: Gate<W> + Copied + Send + Drop + 'static,
>(
    rt: W,
    alloc: Global,
    setup: &Arc<Setup>,
    seats: Vec<Seat<N, D>>,
    orders: Orders,
    gate: &G,
) -> Crew<N, D>
    requires setup { setting setup.now.value ≡ N.opening.setting }
    requires few { length seats.items ≤ MOST_WORKERS }
    ensures { result.whole ≡ true → map (λ h. post h.promise.assignment.value.worker h.promise.assignment.value.orders
        h.promise.assignment.value.seat) result.threads.items ≡ posts orders 0 seats.items }
{
    let mut seats = seats;
    let Some(seat) = seats.pop() else {
        return Crew {
            threads: Vec::new(alloc),
            whole: true,
        };
    };
    let worker = seats.len() as u32 + 1;
    let crew = start_all(rt, alloc, setup, seats, orders, gate);
    if !crew.whole {
        return crew;
    }
    let assignment = Assignment {
        seat,
        worker,
        orders,
    };
    let thread = start_one(rt, setup, assignment, gate);
    with_one(&rt, crew, thread)
}

/// Workers that are to be started: the setup by which they search, their seats, and what they are to do.
#[derive(Drop)]
pub(crate) struct Waiting<N: Naming, D: Wait + Drop> {
    pub setup: Arc<Setup>,
    pub seats: Vec<Seat<N, D>>,
    pub orders: Orders,
}

/// Starts the workers, who report how far they are if they are told to. Reports that there is no memory for are as workers that cannot be
/// started.
pub(crate) fn start_crew<
    N: Naming + Send + Sync + 'static,
    D: Wait + Drop + Send + Sync + 'static,
    W: Threads + Wait + Clock + Eprint + Copy + Send + Sync + 'static,
>(rt: W, alloc: Global, workers: Waiting<N, D>) -> Crew<N, D>
    requires setup { setting workers.setup.value ≡ N.opening.setting }
    requires few { length workers.seats.items ≤ MOST_WORKERS }
    ensures { result.whole ≡ true → map (λ h. post h.promise.assignment.value.worker h.promise.assignment.value.orders
        h.promise.assignment.value.seat) result.threads.items ≡ posts workers.orders 0 workers.seats.items }
{
    let Waiting {
        setup,
        seats,
        orders,
    } = workers;
    if !orders.progress {
        return start_all(rt, alloc, &setup, seats, orders, &Quiet);
    }
    match Report::new(&rt, alloc, orders) {
        Ok(report) => start_all(rt, alloc, &setup, seats, orders, &report),
        Err(_) => Crew {
            threads: Vec::new(alloc),
            whole: false,
        },
    }
}

/// What workers give back: their seats and their tallies, in their order.
#[derive(Drop)]
pub(crate) struct Searched<N: Naming, D: Wait + Drop> {
    pub seats: Vec<Seat<N, D>>,
    pub tallies: Vec<Tally>,
}

impl<N: Naming, D: Wait + Drop> Searched<N, D> {
    /// Adds what a worker gives back.
    fn add(&mut self, done: WorkerResult<N, D>) -> Result<(), AllocError>
        ensures seats { OnOk result (self.new.seats.items ≡ self.old.seats.items ++ done.seat ∷ []) }
        ensures tallies { OnOk result (self.new.tallies.items ≡ self.old.tallies.items ++ done.tally ∷ []) }
    {
        let WorkerResult { seat, tally } = done;
        if self.seats.push(seat).is_err() {
            return Err(AllocError);
        }
        self.tallies.push(tally)?;
        Ok(())
    }
}

/// Joins workers. None where memory runs out.
fn join_threads<N: Naming, D: Wait + Drop, W: Threads>(
    rt: &W,
    alloc: Global,
    threads: Vec<Thread<N, D>>,
) -> Option<Searched<N, D>>
    ensures { IfSome result (λ s. AreDone N.opening (map (λ h. post h.promise.assignment.value.worker h.promise.assignment.value.orders
        h.promise.assignment.value.seat) threads.items) s.seats.items s.tallies.items) }
{
    let mut threads = threads;
    let Some(last) = threads.pop() else {
        return Some(Searched {
            seats: Vec::new(alloc),
            tallies: Vec::new(alloc),
        });
    };
    let rest = join_threads(rt, alloc, threads);
    let done = last.join(rt);
    let Some(mut searched) = rest else {
        return None;
    };
    match searched.add(done) {
        Ok(()) => Some(searched),
        Err(_) => None,
    }
}

/// Joins all workers that were started. None where one was not, or memory ran out.
pub(crate) fn join_all<N: Naming, D: Wait + Drop, W: Threads>(
    rt: &W,
    alloc: Global,
    crew: Crew<N, D>,
) -> Option<Searched<N, D>>
    ensures { IfSome result (λ s. (crew.whole ≡ true)
        × AreDone N.opening (map (λ h. post h.promise.assignment.value.worker h.promise.assignment.value.orders
        h.promise.assignment.value.seat) crew.threads.items) s.seats.items s.tallies.items) }
{
    let Crew { threads, whole } = crew;
    let searched = join_threads(rt, alloc, threads);
    if whole { searched } else { None }
}
