//! Two things done at once, in two threads.
//!
//! That a setup and a seat may go to another thread is found of each alone, and not of both in one closure. So the closures are made in a
//! function that knows of its types no more than that each may go.
use std::sync::Wait;
use std::thread::{Threads, join};

/// What a thread does with two things that it is given.
pub(crate) trait Task<W, A, B, C> {
    /// What must hold of the two.
    ghost may: { A → B → Type 0 };

    fn run(self, rt: &W, first: A, second: B) -> C
        requires { may first second };
}

/// A task with the two things that it is given.
pub(crate) struct Given<T, A, B> {
    pub task: T,
    pub first: A,
    pub second: B,
}

/// Does two tasks at once, the first one in another thread.
pub(crate) fn beside<
    A: Send + Drop,
    B: Send + Drop,
    C: Send + Drop,
    S: Task<W, A, B, C> + Send + Drop,
    D: Drop,
    E: Drop,
    F: Drop,
    T: Task<W, D, E, F> + Drop,
    W: Threads + Wait + Sync,
>(rt: &W, there: Given<S, A, B>, here: Given<T, D, E>) -> (C, F)
    requires there { S.may there.first there.second }
    requires here { T.may here.first here.second }
{
    let Given {
        task: far,
        first,
        second,
    } = there;
    let Given {
        task: near,
        first: third,
        second: fourth,
    } = here;
    join(
        rt,
        move || -> C
            requires { S.may first second }
        { far.run(rt, first, second) },
        move || -> F
            requires { T.may third fourth }
        { near.run(rt, third, fourth) },
    )
}
