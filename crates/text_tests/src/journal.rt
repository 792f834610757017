//! Entries of each kind, read again, and the ends of pages.
use crate::comparing::same;
use board_journal::{Journal, Kept};
use board_rules::{Call, Denial, Entry, Event, Hold, Refusal, Reply};
use move_core::Move;
use std::alloc::AllocError;
use std::process::Abort;
use std::test::Fail;

const SHIFT: Move = Move::Shift {
    vehicle: 3,
    place: 1,
    length: 2,
    to: 4,
    at: 7,
};

fn proposal() -> Call {
    Call::Propose {
        session: 5,
        base: 9,
        mv: SHIFT,
    }
}

const COMMITTED: Reply = Reply::Committed(4294967295);

const BAD_PLACE: Reply = Reply::Denied(Denial::BadPlace);

/// Appends a call of desk 64.
fn add(journal: &mut Journal, turn: u32, call: Call, reply: Reply) -> Result<(), AllocError> {
    journal.make_room()?;
    journal.push(
        Event {
            desk: 64,
            turn,
            call,
        },
        reply,
    );
    Ok(())
}

/// What stands at an index, where it is a proposal.
type Found = Option<(u32, u32, u32, u32, Move, Reply)>;

fn proposal_at(journal: &Journal, index: usize) -> Found {
    match journal.get(index) {
        Some(
            Kept::Proposal {
                desk,
                turn,
                session,
                base,
                mv,
                answer,
            },
        ) => Some((desk, turn, session, base, *mv, answer.reply())),
        _ => None,
    }
}

/// Compares what stands at an index with the proposal of a turn and its reply.
fn compare(rt: &impl Abort, journal: &Journal, index: usize, turn: u32, reply: Reply) {
    let wanted = Some((64, turn, 5, 9, SHIFT, reply));
    same(rt, proposal_at(journal, index), wanted, "a proposal");
}

/// How many entries, read one after the other, are proposals whose turns are the numbers from 1 on.
fn turns_in(journal: &Journal) -> u32 {
    let mut turn = 0u32;
    for kept in journal.iter() {
        match kept {
            Kept::Proposal { turn: found, .. } if found == turn.wrapping_add(1) => turn = found,
            _ => return turn,
        }
    }
    turn
}

const DENIALS: &[Denial] = &[
    Denial::NoSession,
    Denial::BadVehicle,
    Denial::AccessVehicle(65535),
    Denial::Ahead,
    Denial::Stale(2),
    Denial::BadPlace,
    Denial::AccessCustomer(3, 1),
    Denial::Frozen(4),
    Denial::Pinned(1000, 65535),
    Denial::Bound(4, 8),
];

/// Compares the entries from the second on with proposals of turn 2 that were denied.
fn compare_denials(rt: &impl Abort, journal: &Journal) {
    let mut index = 0usize;
    for denial in DENIALS {
        index = index.wrapping_add(1);
        compare(rt, journal, index, 2, Reply::Denied(*denial));
    }
}

#[test]
fn keeps_each_answer_to_a_proposal(rt: HostRuntime) -> Result<(), Fail> {
    let mut journal = Journal::new(rt.alloc())?;
    add(&mut journal, 1, proposal(), COMMITTED)?;
    for denial in DENIALS {
        add(&mut journal, 2, proposal(), Reply::Denied(*denial))?;
    }
    compare(&rt, &journal, 0, 1, COMMITTED);
    compare_denials(&rt, &journal);
    Ok(())
}

/// A reply that fits no record.
const FAR: Reply = Reply::Denied(Denial::Bound(65536, 1));

/// The first entry, where it is kept whole.
fn whole_in(journal: &Journal) -> Option<(u32, u32, Move, Reply)> {
    match journal.get(0) {
        Some(
            Kept::Whole(
                Entry {
                    desk,
                    turn,
                    call: Call::Propose { mv, .. },
                    reply,
                },
            ),
        ) => Some((*desk, *turn, *mv, *reply)),
        _ => None,
    }
}

#[test]
fn keeps_whole_what_fits_no_record(rt: HostRuntime) -> Result<(), Fail> {
    let mut journal = Journal::new(rt.alloc())?;
    add(&mut journal, 1, proposal(), FAR)?;
    same(
        &rt,
        whole_in(&journal),
        Some((64, 1, SHIFT, FAR)),
        "an entry",
    );
    Ok(())
}

/// What stands at an index, where it is a call on pins or fronts.
fn hold_at(journal: &Journal, index: usize) -> Option<(u32, u32, Hold, Reply)> {
    match journal.get(index) {
        Some(
            Kept::Hold {
                desk,
                turn,
                hold,
                ruling,
            },
        ) => Some((desk, turn, hold, ruling.reply())),
        _ => None,
    }
}

const HOLDS: &[(u32, Hold)] = &[
    (
        1,
        Hold::Pin {
            session: 1,
            customer: 7,
        },
    ),
    (
        2,
        Hold::Unpin {
            session: 1,
            customer: 7,
        },
    ),
    (
        3,
        Hold::Freeze {
            session: 1,
            vehicle: 3,
            length: 2,
        },
    ),
    (
        4,
        Hold::Thaw {
            session: 1,
            vehicle: 3,
            length: 2,
        },
    ),
];

/// The reply that each has in the journal.
fn reply_to(hold: Hold) -> Reply {
    match hold {
        Hold::Pin { .. } => Reply::Refused(Refusal::NotPlaced),
        Hold::Unpin { .. } => Reply::Refused(Refusal::NotThere),
        Hold::Freeze { .. } => Reply::Refused(Refusal::Length),
        Hold::Thaw { .. } => Reply::Done,
    }
}

/// Compares what stands at an index with a call of a turn and its reply.
fn compare_hold(rt: &impl Abort, journal: &Journal, index: usize, turn: u32, hold: Hold) {
    let wanted = Some((64, turn, hold, reply_to(hold)));
    same(rt, hold_at(journal, index), wanted, "a hold");
}

/// Appends each call as a turn, and compares what stands there with it.
#[test]
fn keeps_calls_on_pins_and_fronts(rt: HostRuntime) -> Result<(), Fail> {
    let mut journal = Journal::new(rt.alloc())?;
    for (turn, hold) in HOLDS {
        let index = journal.len();
        add(&mut journal, *turn, hold.call(), reply_to(*hold))?;
        compare_hold(&rt, &journal, index, *turn, *hold);
    }
    Ok(())
}

/// Compares entries at the ends of pages, and how many there are.
fn compare_pages(rt: &impl Abort, journal: &Journal) {
    same(rt, journal.len(), 8193, "entries");
    for index in [4095u32, 4096, 8192] {
        compare(
            rt,
            journal,
            index as usize,
            index.wrapping_add(1),
            BAD_PLACE,
        );
    }
    same(rt, journal.get(8193).is_none(), true, "no entry");
    same(rt, turns_in(journal), 8193, "turns");
}

#[test]
fn goes_on_over_pages(rt: HostRuntime) -> Result<(), Fail> {
    let mut journal = Journal::new(rt.alloc())?;
    for turn in 1..=8193 {
        add(&mut journal, turn, proposal(), BAD_PLACE)?;
    }
    compare_pages(&rt, &journal);
    Ok(())
}
