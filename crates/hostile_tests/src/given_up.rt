//! Commands that are given up, on a board with many users and roles. A command is tried on a spare copy of the policy; before the next one
//! is tried, the parts that the given-up one may have changed there are copied back, and no more.
use crate::boards::{OnBoard, on_board};
use crate::scarce::{Attempt, Hoard, insist};
use board_core::Board;
use board_rules::{Call, Event, Reply};
use callback_store::Meter;
use dimension_core::Setup;
use rbac_core::{Command, Policy};
use std::alloc::Global;
use std::process::Abort;
use std::sync::Arc;

/// How many users and roles there are beside `root`.
const MANY: u32 = 200;

const MADE: &[&str] = &["1 add-user u", "1 add-role r", "1 assign u7 r"];

/// A command that is given up, the next one and its reply, and how many bytes that one may take beside those for its line.
const ROWS: &[(usize, &str, &str, &str)] = &[
    (
        4_096,
        "1 grant r7 move customer 1 3",
        "1 grant r8 move customer 1 3",
        "done\n",
    ),
    (
        4_096,
        "1 revoke r8 move customer 1 3",
        "1 grant r9 move customer 1 3",
        "done\n",
    ),
    (24_576, "1 inherit r9 r10", "1 inherit r11 r12", "done\n"),
    (
        24_576,
        "1 uninherit r11 r12",
        "1 uninherit r11 r12",
        "done\n",
    ),
    (49_152, "1 delete-role r7", "1 delete-role r13", "done\n"),
    (32_768, "1 add-role a", "1 add-role b", "done\n"),
    (24_576, "1 add-user ann", "1 add-user bea", "done\n"),
    (24_576, "1 assign u8 r8", "1 assign u9 r9", "done\n"),
    (24_576, "1 deassign u9 r9", "1 deassign u9 r9", "done\n"),
    (24_576, "1 delete-user u10", "1 delete-user u11", "done\n"),
    (8_192, "1 open u7 r14", "1 open u7 r15", "session 2\n"),
    (8_192, "1 close 2", "1 open u7 r16", "session 3\n"),
    (8_192, "1 deactivate 3 r16", "1 activate 3 r17", "done\n"),
    (
        4_096,
        "1 ssd-create s 2 b r20",
        "1 dsd-create d 2 r22 r23",
        "done\n",
    ),
    (8_192, "1 dsd-delete d", "1 ssd-create s 2 b r21", "done\n"),
    (4_096, "1 migrate", "1 migrate", "done\n"),
    (
        4_096,
        "1 delete-user root",
        "1 insert 1 1 1 0",
        "denied access vehicle 1\n",
    ),
];

/// The most bytes of a row. A copy of a policy takes more: its permissions alone take 458,752.
const MOST: usize = 49_152;

fn compare_done(rt: &impl Abort, done: Option<u32>, word: &str) {
    assert_eq!(rt; done, Some(MANY), "{word}");
}

/// Takes a command for each number below `MANY`. It says how many were done.
fn take_numbered(alloc: Global, on: &mut OnBoard, word: &str) -> Option<u32> {
    let mut done = 0u32;
    for n in 0..MANY {
        let line = format!(in alloc; "{word}{n}").ok()?;
        if on.attempt(&line, "done\n") == Some(true) {
            done = done.saturating_add(1);
        }
    }
    Some(done)
}

/// Many users and roles, and all these roles for one of the users.
fn fill(rt: &impl Abort, alloc: Global, on: &mut OnBoard) {
    for word in MADE {
        let done = take_numbered(alloc, on, word);
        compare_done(rt, done, word);
    }
}

/// The bytes that a bad line takes: other lines begin with that.
fn line_takes(hoard: &mut Hoard, on: &mut OnBoard) -> usize {
    let rough = insist(hoard, on, "1 fly", "bad word\n", 0, 16);
    insist(hoard, on, "1 fly", "bad word\n", rough.lacked, 256).bytes
}

/// Gives one command up, and then takes the next one, for which so many bytes are left.
fn take_next(
    hoard: &mut Hoard,
    on: &mut OnBoard,
    given_up: &str,
    line: &str,
    reply: &str,
    bytes: usize,
) -> Option<bool> {
    if !on.give_up(given_up) {
        return None;
    }
    hoard.leave(bytes);
    let answer = on.attempt(line, reply);
    hoard.give_back();
    answer
}

fn compare_answer(rt: &impl Abort, answer: Option<bool>, given_up: &str) {
    assert_eq!(rt; answer, Some(true), "{given_up}");
}

/// After each command that is given up the next one gets its usual answer.
fn take_all(rt: &impl Abort, hoard: &mut Hoard, on: &mut OnBoard, bytes: usize) {
    for (more, given_up, line, reply) in ROWS {
        let answer = take_next(
            hoard,
            on,
            given_up,
            line,
            reply,
            bytes.saturating_add(*more),
        );
        compare_answer(rt, answer, given_up);
    }
}

/// How many policies, of one, there is no memory for where so many bytes are left.
fn lacking(alloc: Global, hoard: &mut Hoard, bytes: usize) -> u32 {
    hoard.leave(bytes);
    let policy = Policy::opening(alloc, 3, 2);
    hoard.give_back();
    u32::from(policy.is_err())
}

fn compare_lacking(rt: &impl Abort, hoard: &Hoard, lacking: u32) {
    assert!(rt; hoard.is_enough(lacking, 1));
}

fn migration() -> Event {
    Event {
        desk: 1,
        turn: 1,
        call: Call::Policy {
            session: 1,
            command: Command::Migrate,
        },
    }
}

/// Whether a new board takes a command that it gave up before.
fn is_taken_then(alloc: Global, setup: &Arc<Setup>) -> Option<bool> {
    let mut board = Board::new(alloc, Arc::try_clone(setup).ok()?, 1).ok()?;
    let mut meter = Meter::new();
    let is_judged = board.prepare(migration(), &mut meter).is_ok();
    board.give_up();
    let is_done = board.apply(migration(), &mut meter) == Ok(Reply::Done);
    Some(is_judged && is_done && board.events() == 1)
}

fn compare_taken(rt: &impl Abort, is_taken: Option<bool>) {
    assert_eq!(rt; is_taken, Some(true));
}

/// A board goes on after commands that it gave up, with no memory for a copy of its policy.
pub(crate) fn go_on(rt: &impl Abort, alloc: Global, hoard: &mut Hoard, setup: &Arc<Setup>) {
    let is_taken = is_taken_then(alloc, setup);
    compare_taken(rt, is_taken);
    let Some(mut on) = on_board(alloc, setup) else {
        return compare_taken(rt, None);
    };
    fill(rt, alloc, &mut on);
    let bytes = line_takes(hoard, &mut on);
    take_all(rt, hoard, &mut on, bytes);
    let lacking = lacking(alloc, hoard, bytes.saturating_add(MOST));
    compare_lacking(rt, hoard, lacking);
}
