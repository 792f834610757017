//! Workers in threads of their own.
//!
//! That a setup and a seat may go to another thread is found of each alone, and not of both in one closure. So the closure is made in a
//! function that knows of its types no more than that each may go.
ghost use Rattle.std.specs.Prelude.{◌≡◌, ◌≤◌, IfOk, IfSome, map, length, All};
ghost use Rattle.dimension_core.specs.Setup.{setting};
ghost use Rattle.search_workers.specs.Works.{AllWorked};

use crate::gate::Gate;
use crate::share::{Share, WorkFault, WorkOf};
use crate::worker::{Order, Work, Worker, work_at};
use board_lock::{Desk, DeskOf, Naming};
use dimension_core::Setup;
use limits::MOST_WORKERS;
use std::alloc::Global;
use std::snapshot::Snapshot;
use std::sync::{Arc, Wait};
use std::thread;
use std::thread::{Promise, PromisedHandle, Scope, Threads};

/// What a thread does with two things that it is given.
trait Task<W, A, B, C> {
    /// What must hold of the two.
    ghost may: { A → B → Type 0 };

    /// What holds of the second one and what comes of it.
    ghost makes: { B → C → Type 0 };

    fn run(self, rt: &W, first: A, second: B) -> C
        requires { may first second }
        ensures { makes second result };
}

/// Starts a thread that does a task.
fn start<
    's,
    E,
    A: Send + Drop + 's,
    B: Send + Drop + 's,
    C: Send + Drop + 's,
    P: Promise<C> + Drop,
    T: Task<W, A, B, C> + Send + Drop + 's,
    W: Threads + Wait + Sync,
>(
    rt: &'s W,
    scope: &'s Scope<'s, E>,
    promise: P,
    task: T,
    first: A,
    second: B,
) -> Option<PromisedHandle<C, P>>
    requires may { T.may first second }
    requires kept { (c : C) → T.makes second c → P.kept_by promise c }
    ensures { IfSome result (λ h. h.promise ≡ promise) }
{
    let Ok(child) = scope.spawn_with(
        promise,
        move || -> C
            requires { T.may first second }
            ensures { T.makes second result }
        { task.run(rt, first, second) },
    ) else {
        return None;
    };
    Some(child)
}

/// The rounds of a worker, past a gate.
#[derive(Drop)]
struct Rounds<'g, G> {
    alloc: Global,
    gate: &'g G,
}

impl<'g, N: Naming, R: Wait + Drop, W: Wait, G: Gate<W>> Task<
    W,
    Arc<Setup>,
    Worker<N, R>,
    Work<N, R>,
> for Rounds<'g, G> {
    ghost use Rattle.dimension_core.specs.Setup.{setting};
    ghost use Rattle.search_workers.specs.Works.{Worked};

    ghost may = { λ setup worker. setting setup.value ≡ N.opening.setting };

    ghost makes = { λ worker work. Worked N.opening worker.order.session worker.order.seed
        worker.order.rounds worker.seat work.seat work.tally };

    fn run(self, rt: &W, first: Arc<Setup>, second: Worker<N, R>) -> Work<N, R> {
        work_at(rt, self.alloc, &first, second, self.gate)
    }
}

/// Starts a worker.
fn start_one<
    's,
    E,
    N: Naming + Send + Sync + 's,
    R: Wait + Drop + Send + Sync + 's,
    W: Threads + Wait + Sync,
    G: Gate<W> + Sync,
>(
    rt: &'s W,
    scope: &'s Scope<'s, E>,
    alloc: Global,
    setup: &Arc<Setup>,
    worker: Worker<N, R>,
    gate: &'s G,
) -> Result<PromisedHandle<Work<N, R>, WorkOf<N, R>>, WorkFault>
    requires { setting setup.now.value ≡ N.opening.setting }
    ensures { IfOk result (λ h. h.promise.worker.value ≡ worker) }
{
    let Ok(theirs) = Arc::try_clone(setup) else {
        return Err(WorkFault::NoMemory);
    };
    let promise = WorkOf {
        worker: Snapshot::of(&worker),
    };
    let task = Rounds { alloc, gate };
    match start(rt, scope, promise, task, theirs, worker) {
        Some(child) => Ok(child),
        None => Err(WorkFault::Spawn),
    }
}

/// The sessions and the seeds of workers, each at the place of its desk, and how many rounds each worker does.
#[derive(Drop)]
struct Orders {
    sessions: Vec<u32>,
    seeds: Vec<u64>,
    rounds: u32,
}

/// Starts a worker for the last desk, goes on with the others, and joins the last.
fn start_all<
    's,
    E,
    N: Naming + Send + Sync + 's,
    R: Wait + Drop + Send + Sync + 's,
    W: Threads + Wait + Sync,
    G: Gate<W> + Sync,
>(
    rt: &'s W,
    scope: &'s Scope<'s, E>,
    desks: Vec<Desk<N, R>>,
    orders: Orders,
    gate: &'s G,
) -> Result<Vec<Share<N, R>>, WorkFault>
    requires setups { All (λ d. setting d.setup.value ≡ N.opening.setting) desks.items }
    requires few { length desks.items ≤ MOST_WORKERS }
    requires lengths { (length orders.sessions.items ≡ length desks.items) × (length orders.seeds.items ≡ length desks.items) }
    ensures { IfOk result (λ v. AllWorked N.opening orders.rounds orders.sessions.items orders.seeds.items (map (λ d. d.seat) desks.items)
        (map (λ s. s.desk.seat) v.items) (map (λ s. s.tally) v.items) × All (λ s. setting s.desk.setup.value ≡ N.opening.setting) v.items) }
{
    let alloc = *desks.allocator();
    let mut desks = desks;
    let mut orders = orders;
    let Some(desk) = desks.pop() else {
        return Ok(Vec::new(alloc));
    };
    let Some(session) = orders.sessions.pop() else {
        unreachable!()
    };
    let Some(seed) = orders.seeds.pop() else {
        unreachable!()
    };
    let DeskOf { setup, seat } = desk;
    let order = Order {
        session,
        seed,
        rounds: orders.rounds,
    };
    let number = desks.len() as u32 + 1;
    let worker = Worker {
        number,
        seat,
        order,
    };
    let child = start_one(rt, scope, alloc, &setup, worker, gate)?;
    let rest = start_all(rt, scope, desks, orders, gate);
    let Work { seat, tally } = child.join(rt);
    let mut shares = rest?;
    let share = Share {
        desk: DeskOf { setup, seat },
        tally,
    };
    let Ok(()) = shares.push(share) else {
        return Err(WorkFault::NoMemory);
    };
    Ok(shares)
}

/// One scoped thread for each desk, which works by the session and the seed at its place. Workers count from 1 in the order of the desks,
/// and so do the shares.
///
/// Where memory runs out or a thread is not started, those that were started are joined first. Their commits stand, and the desks are
/// dropped.
pub fn work_all<
    N: Naming + Send + Sync,
    R: Wait + Drop + Send + Sync,
    W: Threads + Wait + Sync,
    G: Gate<W> + Sync,
>(
    rt: &W,
    desks: Vec<Desk<N, R>>,
    sessions: Vec<u32>,
    seeds: Vec<u64>,
    rounds: u32,
    gate: &G,
) -> Result<Vec<Share<N, R>>, WorkFault>
    requires setups { All (λ d. setting d.setup.value ≡ N.opening.setting) desks.items }
    requires few { length desks.items ≤ MOST_WORKERS }
    requires lengths { (length sessions.items ≡ length desks.items) × (length seeds.items ≡ length desks.items) }
    ensures worked { IfOk result (λ v. AllWorked N.opening rounds sessions.items seeds.items (map (λ d. d.seat) desks.items)
        (map (λ s. s.desk.seat) v.items) (map (λ s. s.tally) v.items)) }
    ensures setups { IfOk result (λ v. All (λ s. setting s.desk.setup.value ≡ N.opening.setting) v.items) }
{
    let orders = Orders {
        sessions,
        seeds,
        rounds,
    };
    thread::scope(
        thread::scope_env(),
        rt,
        move |scope| -> Result<Vec<Share<N, R>>, WorkFault>
            requires { All (λ d. setting d.setup.value ≡ N.opening.setting) desks.items × (length desks.items ≤ MOST_WORKERS)
                × (length orders.sessions.items ≡ length desks.items) × (length orders.seeds.items ≡ length desks.items) }
            ensures { IfOk result (λ v. AllWorked N.opening orders.rounds orders.sessions.items orders.seeds.items
                (map (λ d. d.seat) desks.items) (map (λ s. s.desk.seat) v.items) (map (λ s. s.tally) v.items)
                × All (λ s. setting s.desk.setup.value ≡ N.opening.setting) v.items) }
        { start_all(rt, scope, desks, orders, gate) },
    )
}
