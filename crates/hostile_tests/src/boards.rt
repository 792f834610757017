//! Boards of one thread, and desks, whose lines go through though memory runs out.
ghost use Rattle.std.specs.Prelude.{◌≡◌};
ghost use Rattle.board_core.specs.Kept.{IsKept};
ghost use Rattle.dimension_core.specs.Setup.{setting};

use crate::rows::{MOVES, NO_ROOT, RIGHTS, journal_of};
use crate::scarce::{Attempt, Hoard, insist, insist_on_rows};
use board_core::{Board, Core};
use board_lines::{Command, ReadFault, read_line};
use board_lock::{DeskOf, Foyer, Naming, open_hall};
use board_rules::Event;
use board_text::{BoardFront, run_board_lines};
use callback_store::Meter;
use desk_fixtures::last;
use desk_text::{Seated, run_desk_lines};
use dimension_core::Setup;
use line_engine::{Counts, RunFault};
use std::alloc::Global;
use std::process::Abort;
use std::sync::{Arc, Wait};

/// The answer to one line. Where memory ran out after the call was taken, its reply is in the journal.
fn judged(
    counts: Result<Counts, RunFault>,
    is_taken: bool,
    written: &[u8],
    wanted: &str,
) -> Option<bool> {
    match counts {
        Ok(_) => Some(written == wanted.as_bytes()),
        Err(RunFault::NoMemory) if is_taken => Some(wanted.as_bytes().starts_with(written)),
        Err(RunFault::NoMemory) => None,
        Err(_) => Some(false),
    }
}

/// A board of one thread, with room for what it writes.
#[derive(Drop)]
pub(crate) struct OnBoard {
    alloc: Global,
    front: BoardFront,
    written: Vec<u8>,
}

impl Attempt for OnBoard {
    ghost may = { λ it. Unit {0} };

    fn attempt(&mut self, text: &str, wanted: &str) -> Option<bool> {
        let events = self.front.board.events();
        self.written.clear();
        let mut line = text.as_bytes();
        let counts = run_board_lines(
            &(),
            self.alloc,
            &mut self.front,
            &mut line,
            &mut self.written,
        );
        let is_taken = events < self.front.board.events();
        judged(counts, is_taken, &self.written, wanted)
    }
}

/// Judges an event and gives it up. It says whether there was memory for that.
fn is_given_up(core: &mut Core, setup: &Setup, event: Event) -> bool
    requires { IsKept (setting setup.now) core.old }
    ensures { IsKept (setting setup.now) core.new }
{
    let mut meter = Meter::new();
    if core.prepare(setup, event, &mut meter).is_err() {
        return false;
    }
    core.give_up();
    true
}

impl OnBoard {
    /// Judges the call of a line, if it says one, and gives it up. It says whether there was memory for that.
    pub(crate) fn give_up(&mut self, text: &str) -> bool {
        let call = match read_line(self.alloc, text.as_bytes()) {
            Ok(Command::Submit(call)) => call,
            Err(ReadFault::NoMemory) => return false,
            _ => return true,
        };
        let (desk, turn) = (self.front.desk, self.front.turn);
        let event = Event { desk, turn, call };
        let board = &mut self.front.board;
        is_given_up(&mut board.core, &board.setup, event)
    }
}

/// A board of one thread that gives calls up between those that it takes.
#[derive(Drop)]
struct GivesUp {
    on: OnBoard,
}

impl Attempt for GivesUp {
    ghost may = { λ it. Unit {0} };

    /// The command that is given up first would close every session that these scripts use.
    fn attempt(&mut self, text: &str, wanted: &str) -> Option<bool> {
        if self.on.give_up("1 delete-user root") && self.on.give_up(text) {
            return self.on.attempt(text, wanted);
        }
        None
    }
}

/// A desk, with room for what it writes.
#[derive(Drop)]
struct OnDesk<'a, N: Naming, R: Wait + Drop, W: Wait> {
    rt: &'a W,
    alloc: Global,
    front: Seated<N, R, Arc<Setup>>,
    written: Vec<u8>,
}

impl<N: Naming, R: Wait + Drop, W: Wait> Attempt for OnDesk<'_, N, R, W> {
    ghost use Rattle.dimension_core.specs.Setup.{setting};

    ghost may = { λ it. setting it.front.setup.value ≡ N.opening.setting };

    fn attempt(&mut self, text: &str, wanted: &str) -> Option<bool> {
        let turn = self.front.seat.turn();
        self.written.clear();
        let mut line = text.as_bytes();
        let counts = run_desk_lines(
            self.rt,
            self.alloc,
            &mut self.front,
            &mut line,
            &mut self.written,
        );
        let is_taken = turn < self.front.seat.turn();
        judged(counts, is_taken, &self.written, wanted)
    }
}

fn compare_refused(rt: &impl Abort, refused: u32, hoard: &Hoard, least: u32) {
    assert!(rt; hoard.is_enough(refused, least), "{refused}");
}

/// All scripts go through, and the journal has each of their calls once. A bad line shows how much the reading of a line takes: other lines
/// begin with that.
fn all_go_through<A: Attempt>(rt: &impl Abort, alloc: Global, hoard: &mut Hoard, attempt: &mut A)
    requires { A.may attempt.old }
    ensures { A.may attempt.new }
{
    let rough = insist(hoard, attempt, "1 fly", "bad word\n", 0, 16);
    let bad = insist(hoard, attempt, "1 fly", "bad word\n", rough.lacked, 256);
    compare_refused(rt, rough.refused, hoard, 10);
    let mut refused = 0u32;
    for script in [MOVES, RIGHTS] {
        let more = insist_on_rows(rt, alloc, hoard, attempt, script, bad.bytes);
        refused = refused.wrapping_add(more);
    }
    if let Some(row) = journal_of(alloc) {
        insist_on_rows(rt, alloc, hoard, attempt, &row, bad.bytes);
    }
    insist_on_rows(rt, alloc, hoard, attempt, NO_ROOT, bad.bytes);
    compare_refused(rt, refused, hoard, 500);
}

/// A new board of one desk.
pub(crate) fn on_board(alloc: Global, setup: &Arc<Setup>) -> Option<OnBoard> {
    let board = Board::new(alloc, Arc::try_clone(setup).ok()?, 1).ok()?;
    let written = Vec::with_capacity(alloc, 65536).ok()?;
    let front = BoardFront {
        board,
        desk: 1,
        turn: 1,
    };
    Some(OnBoard {
        alloc,
        front,
        written,
    })
}

/// A board of one thread goes through all scripts, and so does one that gives each call up before it takes it.
pub(crate) fn boards_go_through(
    rt: &impl Abort,
    alloc: Global,
    hoard: &mut Hoard,
    setup: &Arc<Setup>,
) {
    if let Some(mut attempt) = on_board(alloc, setup) {
        all_go_through(rt, alloc, hoard, &mut attempt);
    }
    if let Some(on) = on_board(alloc, setup) {
        let mut attempt = GivesUp { on };
        all_go_through(rt, alloc, hoard, &mut attempt);
    }
}

/// A desk goes through all scripts.
pub(crate) fn desks_go_through<N: Naming, R: Wait + Drop, W: Wait + Abort>(
    rt: &W,
    alloc: Global,
    hoard: &mut Hoard,
    foyer: Foyer<R>,
)
    requires opening { foyer.room.opening ≡ N.opening }
    requires book { foyer.room.book ≡ N.book }
{
    let Ok(mut desks) = open_hall::<N, R>(alloc, foyer) else {
        return;
    };
    let Some(DeskOf { setup, seat }) = last(&mut desks) else {
        return;
    };
    let Ok(written) = Vec::with_capacity(alloc, 65536) else {
        return;
    };
    let front = Seated { setup, seat };
    let mut attempt = OnDesk {
        rt,
        alloc,
        front,
        written,
    };
    all_go_through(rt, alloc, hoard, &mut attempt);
}
