//! A worker in a thread of its own.
//!
//! That a setup and a seat may go to another thread is found of each alone, and not of both in one closure. So the closure is made in a
//! function that knows of its types no more than that each may go.
ghost use Rattle.std.specs.Prelude.{◌≡◌};
ghost use Rattle.dimension_core.specs.Setup.{setting};

use board_lock::{DeskOf, Naming, Seat};
use dimension_core::Setup;
use search_workers::{OpenGate, Share, Tally, work};
use std::sync::{Arc, Wait};
use std::thread;
use std::thread::{JoinHandle, Threads};

/// What a thread does with two values.
pub(crate) trait Task<W, A, B, C> {
    // What must hold of the two.
    ghost may: { A → B → Type 0 };

    fn run(self, rt: &W, first: A, second: B) -> C
        requires { may first second };
}

/// Starts a thread that does a task.
fn start<
    A: Send + Drop + 'static,
    B: Send + Drop + 'static,
    C: Send + Drop + 'static,
    T: Task<W, A, B, C> + Send + Drop + 'static,
    W: Threads + Wait + Copy + Send + Sync + 'static,
>(rt: W, task: T, first: A, second: B) -> Option<JoinHandle<C>>
    requires { T.may first second }
{
    let Ok(child) = thread::spawn(
        &rt,
        move || -> C
            requires { T.may first second }
        { task.run(&rt, first, second) },
    ) else {
        return None;
    };
    Some(child)
}

/// A hundred rounds of search, each of which may propose one move by the session.
#[derive(Drop)]
pub(crate) struct Search {
    pub session: u32,
}

/// The seat that a worker gives back, and the tally of its rounds.
#[derive(Drop)]
pub(crate) struct Searched<N: Naming, R: Wait + Drop> {
    pub seat: Seat<N, R>,
    pub tally: Tally,
}

impl<N: Naming, R: Wait + Drop, W: Wait> Task<W, Arc<Setup>, Seat<N, R>, Searched<N, R>>
    for Search {
    ghost use Rattle.std.specs.Prelude.{◌≡◌};
    ghost use Rattle.dimension_core.specs.Setup.{setting};

    ghost may = { λ setup seat. setting setup.value ≡ N.opening.setting };

    fn run(self, rt: &W, first: Arc<Setup>, second: Seat<N, R>) -> Searched<N, R> {
        let desk = DeskOf {
            setup: first,
            seat: second,
        };
        let seed = u64::from(self.session);
        let Share { desk, tally } = work(rt, desk, self.session, seed, 100, &OpenGate);
        let DeskOf { setup: _, seat } = desk;
        Searched { seat, tally }
    }
}

/// Starts a worker on a seat, which the thread gives back with its tally.
pub(crate) fn start_search<
    N: Naming + Send + Sync + 'static,
    R: Wait + Drop + Send + Sync + 'static,
    W: Threads + Wait + Copy + Send + Sync + 'static,
>(rt: W, search: Search, setup: &Arc<Setup>, seat: Seat<N, R>) -> Option<JoinHandle<Searched<N, R>>>
    requires { setting setup.now.value ≡ N.opening.setting }
{
    let Ok(theirs) = Arc::try_clone(setup) else {
        return None;
    };
    start(rt, search, theirs, seat)
}

/// The seat and the tally of a worker that is done, if it was started.
pub(crate) fn join_search<N: Naming, R: Wait + Drop, W: Threads>(
    rt: &W,
    thread: Option<JoinHandle<Searched<N, R>>>,
) -> Option<Searched<N, R>> {
    match thread {
        Some(thread) => Some(thread.join(rt)),
        None => None,
    }
}
