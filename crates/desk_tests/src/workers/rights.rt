//! One worker that has found a move, and before it proposes it another desk changes what the worker's session may do: the session is closed
//! and another one opened, the user, a role's pairs or all administrators go, sessions migrate, and pins and their override come and go.
use crate::workers::held::{Ended, Story, Turn};
use crate::workers::replay::judged_again;
use desk_fixtures::text_of;
use search_workers::Point;
use std::alloc::Global;
use std::process::Abort;

/// Customers 1 and 3 on vehicle 1, and customer 2, who lies between them, on vehicle 2, so that by its seed each round finds that 2 goes there.
/// User and role `worker` may move all. In the end session 5 may read the journal.
pub(crate) const STORY: Story = Story {
    laid_out: &[
        "1 grant root audit board",
        "1 grant root move vehicle 1 2",
        "1 grant root move customer 1 3",
        "1 grant root pin customer 1 3",
        "1 insert 1 1 1 0",
        "1 insert 3 1 2 1",
        "1 insert 2 2 1 2",
    ],
    hired: &[
        "1 add-user worker",
        "1 add-role worker",
        "1 grant worker move vehicle 1 2",
        "1 grant worker move customer 1 3",
        "1 assign worker worker",
        "1 open worker worker",
    ],
    turns: TURNS,
    reader: 5,
};

const TURNS: &[Turn] = &[
    Turn {
        session: 2,
        rounds: 1,
        point: Point::Before,
        first: &[],
        held: &["1 close 2", "1 open worker worker"],
    },
    Turn {
        session: 3,
        rounds: 1,
        point: Point::Before,
        first: &[],
        held: &["3 deactivate 3 worker"],
    },
    Turn {
        session: 3,
        rounds: 1,
        point: Point::Before,
        first: &["3 activate 3 worker"],
        held: &["3 deactivate 3 worker", "3 activate 3 worker"],
    },
    Turn {
        session: 3,
        rounds: 1,
        point: Point::Before,
        first: &["1 shift 1 2 1 2 1 4"],
        held: &["1 pin 2"],
    },
    Turn {
        session: 3,
        rounds: 1,
        point: Point::Before,
        first: &["1 unpin 2"],
        held: &["1 pin 2", "1 grant worker override customer 2 2"],
    },
    Turn {
        session: 3,
        rounds: 1,
        point: Point::Before,
        first: &["1 unpin 2", "1 shift 1 2 1 2 1 6"],
        held: &["1 pin 2", "1 revoke worker override customer 2 2"],
    },
    Turn {
        session: 4,
        rounds: 1,
        point: Point::Before,
        first: &[
            "1 unpin 2",
            "1 add-role crew",
            "1 add-role top",
            "1 inherit top worker",
            "1 inherit top crew",
            "1 assign worker top",
            "1 dsd-create x 2 worker crew",
            "1 open worker top",
        ],
        held: &["1 migrate"],
    },
    Turn {
        session: 3,
        rounds: 1,
        point: Point::Before,
        first: &["1 uninherit top worker"],
        held: &["1 revoke worker move vehicle 1 1"],
    },
    Turn {
        session: 3,
        rounds: 1,
        point: Point::Before,
        first: &["1 grant worker move vehicle 1 1"],
        held: &["1 delete-user worker"],
    },
    Turn {
        session: 5,
        rounds: 1,
        point: Point::Before,
        first: &[
            "1 add-user next",
            "1 assign next worker",
            "1 grant worker audit board",
            "1 open next worker",
        ],
        held: &["1 delete-user root"],
    },
];

const JOURNAL: &str = "event 1 2 1 | 1 grant root audit board | done
event 2 2 2 | 1 grant root move vehicle 1 2 | done
event 3 2 3 | 1 grant root move customer 1 3 | done
event 4 2 4 | 1 grant root pin customer 1 3 | done
event 5 2 5 | 1 insert 1 1 1 0 | committed 1
event 6 2 6 | 1 insert 3 1 2 1 | committed 2
event 7 2 7 | 1 insert 2 2 1 2 | committed 3
event 8 2 8 | 1 add-user worker | done
event 9 2 9 | 1 add-role worker | done
event 10 2 10 | 1 grant worker move vehicle 1 2 | done
event 11 2 11 | 1 grant worker move customer 1 3 | done
event 12 2 12 | 1 assign worker worker | done
event 13 2 13 | 1 open worker worker | session 2
event 14 2 14 | 1 close 2 | done
event 15 2 15 | 1 open worker worker | session 3
event 16 1 1 | 2 shift 2 1 1 1 2 3 | denied no-session
event 17 2 16 | 3 deactivate 3 worker | done
event 18 1 2 | 3 shift 2 1 1 1 2 3 | denied access vehicle 2
event 19 2 17 | 3 activate 3 worker | done
event 20 2 18 | 3 deactivate 3 worker | done
event 21 2 19 | 3 activate 3 worker | done
event 22 1 3 | 3 shift 2 1 1 1 2 3 | committed 4
event 23 2 20 | 1 shift 1 2 1 2 1 4 | committed 5
event 24 2 21 | 1 pin 2 | done
event 25 1 4 | 3 shift 2 1 1 1 2 5 | denied pinned 2 1
event 26 2 22 | 1 unpin 2 | done
event 27 2 23 | 1 pin 2 | done
event 28 2 24 | 1 grant worker override customer 2 2 | done
event 29 1 5 | 3 shift 2 1 1 1 2 5 | committed 6
event 30 2 25 | 1 unpin 2 | refused not-there
event 31 2 26 | 1 shift 1 2 1 2 1 6 | committed 7
event 32 2 27 | 1 pin 2 | done
event 33 2 28 | 1 revoke worker override customer 2 2 | done
event 34 1 6 | 3 shift 2 1 1 1 2 7 | denied pinned 2 1
event 35 2 29 | 1 unpin 2 | done
event 36 2 30 | 1 add-role crew | done
event 37 2 31 | 1 add-role top | done
event 38 2 32 | 1 inherit top worker | done
event 39 2 33 | 1 inherit top crew | done
event 40 2 34 | 1 assign worker top | done
event 41 2 35 | 1 dsd-create x 2 worker crew | done
event 42 2 36 | 1 open worker top | session 4
event 43 2 37 | 1 migrate | done
event 44 1 7 | 4 shift 2 1 1 1 2 7 | denied access vehicle 2
event 45 2 38 | 1 uninherit top worker | done
event 46 2 39 | 1 revoke worker move vehicle 1 1 | done
event 47 1 8 | 3 shift 2 1 1 1 2 7 | denied access vehicle 1
event 48 2 40 | 1 grant worker move vehicle 1 1 | done
event 49 2 41 | 1 delete-user worker | done
event 50 1 9 | 3 shift 2 1 1 1 2 7 | denied no-session
event 51 2 42 | 1 add-user next | done
event 52 2 43 | 1 assign next worker | done
event 53 2 44 | 1 grant worker audit board | done
event 54 2 45 | 1 open next worker | session 5
event 55 2 46 | 1 delete-user root | done
event 56 1 10 | 5 shift 2 1 1 1 2 7 | committed 8
end
";

fn compare_text(rt: &impl Abort, text: &str) {
    assert_eq!(rt; text, JOURNAL);
}

/// Three rounds were committed and seven denied. A board of one thread answers all alike.
fn compare_ends(rt: &impl Abort, ends: (u32, u32, u64), again: Option<(u32, u32)>) {
    assert_eq!(rt; ends, (3u32, 7u32, 0u64));
    assert_eq!(rt; again, Some((0u32, 8u32)));
}

/// The journal is word for word what is wanted, and a board of one thread answers all of it alike.
pub(crate) fn compare_rights(rt: &impl Abort, alloc: Global, ended: Option<Ended>) {
    let Some(
        Ended {
            ends,
            setup,
            journal,
        },
    ) = ended
    else {
        return compare_text(rt, "no journal");
    };
    let text = text_of(alloc, &journal);
    compare_text(rt, text.as_deref().unwrap_or("no text"));
    let again = judged_again(alloc, setup, &journal);
    compare_ends(rt, ends, again);
}
