//! Two desks in one thread: each sees what the other did, before they meet.
ghost use Rattle.std.specs.Prelude.{◌≡◌};
ghost use Rattle.dimension_core.specs.Setup.{setting};

use crate::calls::{compare_count, compare_reply, grant, insert, remove, sees, submits};
use board_core::Board;
use board_journal::{Journal, Kept};
use board_lock::{Desk, Foyer, Naming, commits_stay_in_views};
use board_rules::{AskFault, Call, Event, Reply, Row};
use callback_store::Meter;
use desk_fixtures::open_two;
use rbac_core::{Command, Object, ObjectRange, Operation};
use std::alloc::Global;
use std::process::Abort;
use std::sync::Wait;

const CUSTOMERS: ObjectRange = ObjectRange::Customers { first: 1, last: 4 };

const VEHICLES: ObjectRange = ObjectRange::Vehicles { first: 1, last: 2 };

/// Compares vehicle, place and customer of rows.
fn compare_rows(rt: &impl Abort, rows: &[Row], wanted: &[(u32, u32, u32)]) {
    assert_eq!(rt; rows.len(), wanted.len());
    for (row, spot) in rows.iter().zip(wanted) {
        assert_eq!(rt; (row.vehicle(), row.place(), row.customer()), *spot);
    }
}

/// Compares the early values of the first row.
fn compare_early(rt: &impl Abort, rows: &[Row], wanted: &[u64]) {
    let found = rows.first().map(|row| row.early());
    assert_eq!(rt; found, Some(wanted));
}

fn compare_tests(rt: &impl Abort, found: bool, wanted: bool) {
    assert_eq!(rt; found, wanted);
}

fn compare_turns(rt: &impl Abort, one: u32, two: u32, wanted: (u32, u32)) {
    assert_eq!(rt; (one, two), wanted);
}

/// The entry is that of the grant of the audit, in this turn of desk 1.
fn compare_grant(rt: &impl Abort, kept: Option<Kept<'_>>, turn: u32) {
    let Some(Kept::Whole(entry)) = kept else {
        return assert!(rt; false);
    };
    assert_eq!(rt;
        (entry.desk, entry.turn, entry.reply),
        (1, turn, Reply::Done)
    );
    let Call::Policy { session, command } = &entry.call else {
        return assert!(rt; false);
    };
    let Command::GrantPermission {
        role,
        operation,
        range,
    } = command
    else {
        return assert!(rt; false);
    };
    assert_eq!(rt; role.as_bytes(), b"root".as_slice());
    assert_eq!(rt;
        (*session, *operation, *range),
        (1, Operation::Audit, ObjectRange::Board)
    );
}

/// Six entries, the last of which is that of the grant of the audit.
fn compare_six(rt: &impl Abort, journal: &Journal) {
    assert_eq!(rt; journal.len(), 6);
    compare_grant(rt, journal.get(5), 6);
}

fn listed<N: Naming, R: Wait + Drop, W: Wait + Abort>(rt: &W, desk: &mut Desk<N, R>)
    requires { setting desk.old.setup.value ≡ N.opening.setting }
    ensures { setting desk.new.setup.value ≡ N.opening.setting }
{
    match desk.list(rt, 1) {
        Ok(rows) => {
            compare_rows(rt, &rows, &[(1, 1, 1), (0, 0, 2), (0, 0, 3), (0, 0, 4)]);
            compare_early(rt, &rows, &[0, 28]);
        }
        Err(fault) => compare_count(rt, Err(fault), Ok(4)),
    }
}

fn asked<N: Naming, R: Wait + Drop, W: Wait + Abort>(rt: &W, desk: &mut Desk<N, R>)
    requires { setting desk.old.setup.value ≡ N.opening.setting }
    ensures { setting desk.new.setup.value ≡ N.opening.setting }
{
    compare_tests(rt, desk.check(rt, 1, Operation::Audit, Object::Board), true);
    compare_tests(
        rt,
        desk.check(rt, 2, Operation::Audit, Object::Board),
        false,
    );
    match desk.audit(rt, 1) {
        Ok(journal) => compare_six(rt, &journal),
        Err(fault) => compare_count(rt, Err(fault), Ok(6)),
    }
    let entries = desk.audit(rt, 9).map(|journal| journal.len());
    compare_count(rt, entries, Err(AskFault::NoSession));
}

/// What desk 1 commits is in its next view, and once the two met, in the next one of desk 2: this is proved, and not only tried. It tells
/// the number of the commit and the versions of the two views.
fn commits<N: Naming, R: Wait + Drop, W: Wait>(
    rt: &W,
    one: &mut Desk<N, R>,
    two: &mut Desk<N, R>,
    call: Call,
) -> Option<(u32, u32, u32)>
    requires { setting one.old.setup.value ≡ N.opening.setting }
    ensures one { setting one.new.setup.value ≡ N.opening.setting }
    ensures two { setting two.new.setup.value ≡ setting two.old.setup.value }
{
    commits_stay_in_views();
    let Ok(Reply::Committed(version)) = one.submit(rt, call) else {
        return None;
    };
    let Ok(view) = one.snapshot() else {
        return None;
    };
    prove!(view.version >= version);
    one.meet(rt, two);
    let Ok(other) = two.snapshot() else {
        return None;
    };
    prove!(other.version >= version);
    Some((version, view.version, other.version))
}

fn compare_commits(rt: &impl Abort, found: Option<(u32, u32, u32)>, wanted: u32) {
    assert_eq!(rt; found, Some((wanted, wanted, wanted)));
}

/// Desk 1 calls, and desk 2 sees it before they meet.
fn share<N: Naming, R: Wait + Drop, W: Wait + Abort>(
    rt: &W,
    one: &mut Desk<N, R>,
    two: &mut Desk<N, R>,
)
    requires one { setting one.old.setup.value ≡ N.opening.setting }
    requires two { setting two.old.setup.value ≡ N.opening.setting }
{
    sees(rt, two, 0, &[]);
    submits(rt, one, insert(1, 1, 0), Reply::Committed(1));
    sees(rt, one, 1, &[1]);
    sees(rt, two, 1, &[1]);
    submits(rt, one, grant(rt, Operation::View, VEHICLES), Reply::Done);
    submits(rt, one, grant(rt, Operation::View, CUSTOMERS), Reply::Done);
    submits(
        rt,
        one,
        grant(rt, Operation::Audit, ObjectRange::Board),
        Reply::Done,
    );
    listed(rt, one);
    listed(rt, two);
    asked(rt, one);
    asked(rt, two);
    one.meet(rt, two);
    sees(rt, two, 1, &[1]);
    submits(rt, two, insert(2, 2, 0), Reply::Committed(2));
    sees(rt, one, 2, &[1]);
    compare_turns(rt, one.turn(), two.turn(), (7, 2));
    compare_commits(rt, commits(rt, one, two, remove(1, 2)), 3);
}

/// Grants the moves of a range, in this turn of desk 1.
fn grants_moves(rt: &impl Abort, board: &mut Board, turn: u32, range: ObjectRange) {
    let call = grant(rt, Operation::Move, range);
    let mut meter = Meter::new();
    let reply = board.apply(
        Event {
            desk: 1,
            turn,
            call,
        },
        &mut meter,
    );
    compare_reply(rt, reply, Reply::Done);
}

/// The first two entries, from before the hall is opened: all moves are granted.
pub(crate) fn grants(rt: &impl Abort, board: &mut Board) {
    grants_moves(rt, board, 1, VEHICLES);
    grants_moves(rt, board, 2, CUSTOMERS);
}

/// The two desks of a hall.
pub(crate) fn opens<N: Naming, R: Wait + Drop, W: Wait + Abort>(
    rt: &W,
    alloc: Global,
    foyer: Foyer<R>,
)
    requires opening { foyer.room.opening ≡ N.opening }
    requires book { foyer.room.book ≡ N.book }
{
    let Some((mut one, mut two)) = open_two::<N, R>(alloc, foyer) else {
        return assert!(rt; false);
    };
    share(rt, &mut one, &mut two);
}
