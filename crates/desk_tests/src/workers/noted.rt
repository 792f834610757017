//! What a gate hears of one worker: each point of each round, and how the round ended.
ghost use Rattle.std.specs.Prelude.{◌≡◌};

use crate::workers::alone::{BACK, LAID_OUT};
use board_lock::{Foyer, Naming};
use desk_fixtures::{open_two, play};
use search_workers::{Gate, Outcome, Point, Share, work};
use std::alloc::Global;
use std::process::Abort;
use std::sync::{Mutex, Wait};

/// Writes down what it hears, a line each.
#[derive(Drop)]
struct Noted {
    text: Mutex<String>,
}

impl<W: Wait> Gate<W> for Noted {
    fn pass(&self, rt: &W, worker: u32, round: u32, point: Point) {
        let mut text = self.text.lock(rt);
        let _ = write!(text, "{worker} {round} {point:?}\n");
    }

    fn done(&self, rt: &W, worker: u32, round: u32, outcome: Outcome) {
        let mut text = self.text.lock(rt);
        let _ = write!(text, "{worker} {round} {outcome:?}\n");
    }
}

/// Two rounds of a session that is not there, two of session 1, of which the second one finds nothing, and one where the journal is full.
const HEARD: &str = "1 1 Seen
1 1 Before
1 1 After
1 1 Denied
1 2 Seen
1 2 Before
1 2 After
1 2 Denied
1 1 Seen
1 1 Before
1 1 After
1 1 Committed
1 2 Seen
1 2 Idle
1 1 Seen
1 1 Before
1 1 After
1 1 Refused
";

/// The lines of a gate that five rounds pass, where the journal has room for four of them and for the calls between.
pub(crate) fn works_noted<N: Naming, R: Wait + Drop, W: Wait>(
    rt: &W,
    alloc: Global,
    foyer: Foyer<R>,
) -> Option<String>
    requires opening { foyer.room.opening ≡ N.opening }
    requires book { foyer.room.book ≡ N.book }
{
    let (desk, mut own) = open_two::<N, R>(alloc, foyer)?;
    play(rt, alloc, &own.setup, &mut own.seat, LAID_OUT);
    let gate = Noted {
        text: Mutex::new(String::new(alloc)),
    };
    let Share { desk, .. } = work(rt, desk, 2, 7, 2, &gate);
    let Share { desk, .. } = work(rt, desk, 1, 7, 2, &gate);
    play(rt, alloc, &own.setup, &mut own.seat, BACK);
    let _share = work(rt, desk, 1, 7, 1, &gate);
    let Noted { text } = gate;
    Some(text.into_inner())
}

pub(crate) fn compare_noted(rt: &impl Abort, heard: &Option<String>) {
    assert_eq!(rt; heard.as_deref(), Some(HEARD));
}
