//! A script through a desk, while another desk commits. What the audit then tells is judged again by a board of one thread.
ghost use Rattle.std.specs.Prelude.{◌≡◌, IfSome};
ghost use Rattle.dimension_core.specs.Setup.{setting};

use crate::beside::{Given, Task, beside};
use crate::threads::Commit;
use board_core::Board;
use board_lock::{DeskOf, Foyer, Naming, Seat};
use board_rules::{Event, Fault, Reply};
use board_text::{Command, read_line, reply_text};
use callback_store::Meter;
use desk_fixtures::open_two;
use desk_text::{Seated, run_desk_lines};
use dimension_core::Setup;
use line_engine::{Counts, RunFault};
use std::alloc::{AllocError, Global};
use std::process::Abort;
use std::sync::{Arc, Wait};
use std::thread::Threads;

/// The seat, what a run wrote, and what it counted.
type Ran<N, R> = (Seat<N, R>, Vec<u8>, Result<Counts, RunFault>);

/// The lines of a script.
#[derive(Drop)]
struct Script {
    alloc: Global,
    text: Vec<u8>,
}

impl<N: Naming, R: Wait + Drop, W: Wait> Task<W, Arc<Setup>, Seat<N, R>, Ran<N, R>> for Script {
    ghost use Rattle.dimension_core.specs.Setup.{setting};

    ghost may = { λ setup seat. setting setup.value ≡ N.opening.setting };

    fn run(self, rt: &W, first: Arc<Setup>, second: Seat<N, R>) -> Ran<N, R> {
        let mut front = Seated {
            setup: first,
            seat: second,
        };
        let mut written = Vec::new(self.alloc);
        let mut reader = self.text.as_slice();
        let counts = run_desk_lines(rt, self.alloc, &mut front, &mut reader, &mut written);
        (front.seat, written, counts)
    }
}

/// A script that says a text so many times.
fn repeated(alloc: Global, text: &str, times: u32) -> Result<Script, AllocError> {
    let mut all = Vec::new(alloc);
    for _time in 0..times {
        all.extend_from_slice(text.as_bytes())?;
    }
    Ok(Script { alloc, text: all })
}

/// A script, what is written, the lines with a reply, and those of them that are refused.
#[derive(Clone, Copy)]
struct Case {
    script: &'static str,
    wanted: &'static str,
    lines: u64,
    refused: u64,
}

/// On desk 1 of the board of four customers and two vehicles: calls, listings of what may be read, bad lines, an audit and reviews. Customer
/// 1 is left on vehicle 1.
const ROWS: Case = Case {
    script: "\
1 grant root audit board\n\
1 insert 1 1 1 0\n\
1 audit\n\
1 grant root move vehicle 1 2\n\
1 grant root move customer 1 4\n\
1 insert 1 1 1 0\n\
1 insert 2 1 2 1\n\
1 insert 3 1 3 2\n\
1 list\n\
1 json\n\
1 grant root view vehicle 1 1\n\
1 grant root view customer 1 1\n\
1 grant root view customer 3 3\n\
1 list\n\
1 json\n\
# a comment\n\
1 fly\n\
x list\n\
1 insert 1 1 1\n\
1 check move truck 1 2\n\
1 add-user ann\n\
1 add-role d\n\
1 assign ann d\n\
1 users d\n\
1 roles ann\n\
1 active 1\n\
1 roles bob\n\
1 check admin board\n\
1 remove 1 3 3\n\
1 remove 1 2 4\n",
    wanted: "\
done\n\
denied access vehicle 1\n\
event 1 1 1 | 1 grant root audit board | done\n\
event 2 1 2 | 1 insert 1 1 1 0 | denied access vehicle 1\n\
end\n\
done\n\
done\n\
committed 1\n\
committed 2\n\
committed 3\n\
end\n\
{\"rows\":[]}\n\
done\n\
done\n\
done\n\
row 1 1 1 0 28\n\
row 1 3 3 7 140\n\
end\n\
{\"rows\":[[1,1,1,0,28],[1,3,3,7,140]]}\n\
bad word\n\
bad number\n\
bad count\n\
bad object\n\
done\n\
done\n\
done\n\
name ann\n\
end\n\
name d\n\
end\n\
name root\n\
end\n\
refused no-user\n\
yes\n\
committed 4\n\
committed 5\n",
    lines: 29,
    refused: 6,
};

fn compare_run(rt: &impl Abort, written: &[u8], counts: Result<Counts, RunFault>, case: Case) {
    let wanted = Counts {
        lines: case.lines,
        refused: case.refused,
    };
    assert_eq!(rt; written, case.wanted.as_bytes());
    assert!(rt; counts == Ok(wanted));
}

/// What an audit's line says of an event: its desk and turn, its call and the text of its reply.
fn event_of<'a>(alloc: Global, line: &'a str) -> Option<(Event, &'a str)> {
    let (head, told) = line.split_once(" | ")?;
    let (call, reply) = told.split_once(" | ")?;
    let (_number, head) = head.split_once(" ")?;
    let (desk, turn) = head.split_once(" ")?;
    let desk = desk.parse::<u32>().ok()?;
    let turn = turn.parse::<u32>().ok()?;
    match read_line(alloc, call.as_bytes()) {
        Ok(Command::Submit(call)) => Some((Event { desk, turn, call }, reply)),
        _ => None,
    }
}

/// Whether a reply has this text.
fn says(alloc: Global, answer: Result<Reply, Fault>, told: &str) -> bool {
    let Ok(reply) = answer else {
        return false;
    };
    match reply_text(alloc, reply) {
        Ok(text) => text.as_str() == told,
        Err(_) => false,
    }
}

/// Judges the events of an audit again on a board of two desks: how many there are of the first one, and how many are answered otherwise.
pub(crate) fn judged_again(alloc: Global, setup: Arc<Setup>, audit: &str) -> Option<(u32, u32)> {
    let mut board = Board::new(alloc, setup, 2).ok()?;
    let mut meter = Meter::new();
    let mut own = 0u32;
    let mut differ = 0u32;
    for line in audit.split('\n') {
        let Some(line) = line.strip_prefix("event ") else {
            continue;
        };
        let (event, told) = event_of(alloc, line)?;
        if event.desk == 1 {
            own = own.wrapping_add(1);
        }
        if !says(alloc, board.apply(event, &mut meter), told) {
            differ = differ.wrapping_add(1);
        }
    }
    Some((own, differ))
}

/// Calls of desk 1 while the other one commits on vehicle 2, and questions, one of which is refused.
const CALLS: &str = "\
1 insert 4 1 2 5\n\
1 pin 1\n\
1 check move vehicle 1\n\
9 list\n\
1 add-user bea\n\
1 delete-user bea\n";

/// Desk 1 had these many events: 15 of the rows, and four for each time that it says its calls.
pub(crate) fn compare_replay(rt: &impl Abort, found: Option<(u32, u32)>) {
    assert_eq!(rt; found, Some((815, 0)));
}

/// A script that says a text so many times, with a share of the setup.
fn script_with(
    alloc: Global,
    setup: &Arc<Setup>,
    text: &str,
    times: u32,
) -> Option<(Script, Arc<Setup>)>
    ensures { IfSome result (λ p. p.1.value ≡ setup.now.value) }
{
    let script = repeated(alloc, text, times).ok()?;
    let setup = Arc::try_clone(setup).ok()?;
    Some((script, setup))
}

/// A desk reads a script. It gives the seat back with what was written and counted, where there is memory.
fn reads<N: Naming, R: Wait + Drop, W: Wait>(
    rt: &W,
    alloc: Global,
    setup: &Arc<Setup>,
    seat: Seat<N, R>,
    text: &str,
) -> Option<Ran<N, R>>
    requires { setting setup.now.value ≡ N.opening.setting }
{
    let (script, setup) = script_with(alloc, setup, text, 1)?;
    Some(script.run(rt, setup, seat))
}

/// The script of desk 1, and a share of the setup for each desk.
fn both_with(alloc: Global, setup: &Arc<Setup>) -> Option<(Arc<Setup>, Arc<Setup>, Script)>
    ensures first { IfSome result (λ p. p.0.value ≡ setup.now.value) }
    ensures second { IfSome result (λ p. p.1.value ≡ setup.now.value) }
{
    let (script, second) = script_with(alloc, setup, CALLS, 200)?;
    let first = Arc::try_clone(setup).ok()?;
    Some((first, second, script))
}

/// Desk 1 reads a script while desk 2 commits two thousand times.
fn reads_and_commits<
    N: Naming + Send + Sync,
    R: Wait + Drop + Send + Sync,
    W: Threads + Wait + Sync,
>(rt: &W, alloc: Global, setup: &Arc<Setup>, one: Seat<N, R>, two: Seat<N, R>) -> Option<Seat<N, R>>
    requires { setting setup.now.value ≡ N.opening.setting }
{
    let (first, second, script) = both_with(alloc, setup)?;
    let commit = Commit {
        from: 5,
        commits: 2000,
    };
    let there = Given {
        task: commit,
        first,
        second: two,
    };
    let here = Given {
        task: script,
        first: second,
        second: one,
    };
    let (_version, ran) = beside(rt, there, here);
    Some(ran.0)
}

/// Desk 1 reads the rows, and then a script while desk 2 commits. It tells what it then reads as the audit.
fn reads_on<
    N: Naming + Send + Sync,
    R: Wait + Drop + Send + Sync,
    W: Threads + Wait + Abort + Sync,
>(rt: &W, alloc: Global, setup: &Arc<Setup>, seats: (Seat<N, R>, Seat<N, R>)) -> Option<String>
    requires { setting setup.now.value ≡ N.opening.setting }
{
    let (seat, written, counts) = reads(rt, alloc, setup, seats.0, ROWS.script)?;
    compare_run(rt, &written, counts, ROWS);
    let seat = reads_and_commits(rt, alloc, setup, seat, seats.1)?;
    let (_seat, written, _counts) = reads(rt, alloc, setup, seat, "1 audit\n")?;
    String::from_utf8(written).ok()
}

/// The two desks of a hall.
pub(crate) fn reads_beside<
    N: Naming + Send + Sync,
    R: Wait + Drop + Send + Sync,
    W: Threads + Wait + Abort + Sync,
>(rt: &W, alloc: Global, foyer: Foyer<R>) -> Option<String>
    requires opening { foyer.room.opening ≡ N.opening }
    requires book { foyer.room.book ≡ N.book }
{
    let (one, two) = open_two::<N, R>(alloc, foyer)?;
    let DeskOf { setup, seat } = one;
    reads_on(rt, alloc, &setup, (seat, two.seat))
}
