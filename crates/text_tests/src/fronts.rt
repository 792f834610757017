//! Boards as fronts of the engine of lines.
use crate::comparing::same;
use crate::setups::{Bounds, Sizes, board_of};
use board_text::{BoardFront, Counts, run_board_lines};
use dimension_core::Range;
use std::alloc::Global;
use std::process::Abort;
use std::str;

/// A vehicle is under way for 30 at most.
const BOUNDS: Bounds<'static> = Bounds {
    slack_max: 0,
    caps: &[30, 30],
    fixed: false,
    ranges: &[
        Range { lo: 0, hi: 100 },
        Range { lo: 0, hi: 100 },
        Range { lo: 0, hi: 100 },
    ],
};

/// Desk 2 of a board, from a turn on.
///
/// There are two customers, two vehicles and two desks. The way from the depot takes 10, that from customer 1 takes 11 and that from
/// customer 2 takes 12.
fn front_of(alloc: Global, max_events: u32, turn: u32) -> Option<BoardFront> {
    let sizes = Sizes {
        customers: 2,
        vehicles: 2,
        max_events,
    };
    let board = board_of(alloc, sizes, &[10, 11, 12], Some(BOUNDS))?;
    Some(BoardFront {
        board,
        desk: 2,
        turn,
    })
}

/// What is written for a script, and the counts.
fn run(alloc: Global, max_events: u32, turn: u32, script: &str) -> Option<(Vec<u8>, Counts)> {
    let mut front = front_of(alloc, max_events, turn)?;
    let mut written = Vec::new(alloc);
    let mut reader = script.as_bytes();
    match run_board_lines(&(), alloc, &mut front, &mut reader, &mut written) {
        Ok(counts) => Some((written, counts)),
        Err(_) => None,
    }
}

/// A script, what is written, the lines with a reply, and those of them that are refused.
type Case<'a> = (&'a str, &'a str, u64, u64);

/// The run of a script gives what is wanted.
fn gives(rt: &impl Abort, alloc: Global, max_events: u32, turn: u32, case: Case<'_>) {
    let (script, wanted, lines, refused) = case;
    let (written, counts) = run(alloc, max_events, turn, script).expect(rt, "a whole run");
    let text = str::from_utf8(&written).expect(rt, "text");
    let found = (text, counts.lines, counts.refused);
    same(rt, found, (wanted, lines, refused), script);
}

const CALLS: &str = "\
1 grant root move vehicle 1 2\n\
1 grant root move customer 1 2\n\
1 grant root view vehicle 1 1\n\
1 grant root view customer 1 2\n\
1 insert 1 1 1 0\n\
1 insert 2 1 2 1\n\
1 insert 2 2 1 1\n";

const REPLIES: &str = "\
done\n\
done\n\
done\n\
done\n\
committed 1\n\
denied bound 1 1\n\
committed 2\n";

/// Questions after the calls, and the answers to them; the lines are counted with the calls.
const QUESTIONS: &[Case<'static>] = &[
    ("", "", 7, 1),
    (
        "1 list\n1 json\n",
        "row 1 1 1 10\nend\n{\"rows\":[[1,1,1,10]]}\n",
        9,
        1,
    ),
    (
        "1 check move vehicle 2\n1 check pin customer 1\n9 check admin board\n",
        "yes\nno\nno\n",
        10,
        1,
    ),
    (
        "9 list\n9 json\n9 audit\n9 active 1\n",
        "refused no-session\nrefused no-session\nrefused no-session\nrefused no-session\n",
        11,
        5,
    ),
    (
        "1 audit\n1 users root\n",
        "refused no-access\nrefused no-access\n",
        9,
        3,
    ),
    (
        "1 grant root audit board\n1 users root\n1 roles root\n1 active 1\n",
        "done\nname root\nend\nname root\nend\nname root\nend\n",
        11,
        1,
    ),
    (
        "1 grant root audit board\n1 users d\n1 roles ann\n1 active 2\n",
        "done\nrefused no-role\nrefused no-user\nrefused not-there\n",
        11,
        4,
    ),
    ("1 grant root audit board\n1 audit\n", JOURNAL, 9, 1),
];

/// Each entry has its number, the desk and its turn.
const JOURNAL: &str = "\
done\n\
event 1 2 1 | 1 grant root move vehicle 1 2 | done\n\
event 2 2 2 | 1 grant root move customer 1 2 | done\n\
event 3 2 3 | 1 grant root view vehicle 1 1 | done\n\
event 4 2 4 | 1 grant root view customer 1 2 | done\n\
event 5 2 5 | 1 insert 1 1 1 0 | committed 1\n\
event 6 2 6 | 1 insert 2 1 2 1 | denied bound 1 1\n\
event 7 2 7 | 1 insert 2 2 1 1 | committed 2\n\
event 8 2 8 | 1 grant root audit board | done\n\
end\n";

/// The same after the calls.
fn gives_after_calls(rt: &impl Abort, alloc: Global, case: Case<'_>) {
    let (questions, answers, lines, refused) = case;
    let script = format!(in alloc; "{CALLS}{questions}").expect(rt, "memory");
    let wanted = format!(in alloc; "{REPLIES}{answers}").expect(rt, "memory");
    gives(rt, alloc, 100, 1, (&script, &wanted, lines, refused));
}

#[test]
fn answers_calls_and_questions(rt: HostRuntime) {
    for case in QUESTIONS {
        gives_after_calls(&rt, rt.alloc(), *case);
    }
}

const FOUR_USERS: &str = "\
1 add-user a\n\
1 add-user b\n\
1 add-user c\n\
1 add-user d\n\
1 list\n";

const FULL: &str = "done\ndone\ndone\nfault full\nend\n";

const LATE: &str =
    "fault out-of-turn\nfault out-of-turn\nfault out-of-turn\nfault out-of-turn\nend\n";

/// A journal of three events does not take a fourth, and a question is answered. A desk that begins with its second turn is not heard.
#[test]
fn calls_that_are_not_taken(rt: HostRuntime) {
    gives(&rt, rt.alloc(), 3, 1, (FOUR_USERS, FULL, 5, 1));
    gives(&rt, rt.alloc(), 9, 2, (FOUR_USERS, LATE, 5, 4));
}
