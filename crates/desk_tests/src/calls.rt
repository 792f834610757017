//! Calls of the tests, and comparisons. What compares owns nothing: each `assert` of a function that holds values is a way out at which all
//! of them are dropped, which its proof pays for.
ghost use Rattle.std.specs.Prelude.{◌≡◌};
ghost use Rattle.dimension_core.specs.Setup.{setting};

use board_lock::{Desk, Naming, SnapFault, View};
use board_rules::{AskFault, Call, Fault, Reply};
use move_core::Move;
use rbac_core::{Command, ObjectRange, Operation};
use separation_core::Name;
use std::process::Abort;
use std::sync::Wait;

/// An operation on all of a range, for the role `root`.
pub(crate) fn grant(rt: &impl Abort, operation: Operation, range: ObjectRange) -> Call {
    let role = Name::new(b"root").expect(rt, "a name");
    Call::Policy {
        session: 1,
        command: Command::GrantPermission {
            role,
            operation,
            range,
        },
    }
}

/// An insert at the first place of a route.
pub(crate) fn insert(customer: u32, vehicle: u32, base: u32) -> Call {
    Call::Propose {
        session: 1,
        base,
        mv: Move::Insert {
            customer,
            vehicle,
            place: 1,
        },
    }
}

/// The first stop of a route is taken out.
pub(crate) fn remove(vehicle: u32, base: u32) -> Call {
    Call::Propose {
        session: 1,
        base,
        mv: Move::Remove { vehicle, place: 1 },
    }
}

pub(crate) fn compare_reply(rt: &impl Abort, found: Result<Reply, Fault>, wanted: Reply) {
    assert_eq!(rt; found, Ok(wanted));
}

pub(crate) fn compare_count(
    rt: &impl Abort,
    found: Result<usize, AskFault>,
    wanted: Result<usize, AskFault>,
) {
    assert_eq!(rt; found, wanted);
}

/// Compares the version of a view and the stops of vehicle 1.
pub(crate) fn compare_view(rt: &impl Abort, view: &View, version: u32, stops: &[u32]) {
    assert_eq!(rt; view.version, version);
    let found = view.routes.first().map(|route| route.customers());
    assert_eq!(rt; found, Some(stops));
}

fn compare_fault(rt: &impl Abort, found: Option<SnapFault>) {
    assert_eq!(rt; found, None);
}

/// Submits a call, and compares the reply.
pub(crate) fn submits<N: Naming, R: Wait + Drop, W: Wait + Abort>(
    rt: &W,
    desk: &mut Desk<N, R>,
    call: Call,
    wanted: Reply,
)
    requires { setting desk.old.setup.value ≡ N.opening.setting }
    ensures { setting desk.new.setup.value ≡ N.opening.setting }
{
    let found = desk.submit(rt, call);
    compare_reply(rt, found, wanted);
}

/// The snapshot of a desk, and the view that it keeps, have this version and these stops on vehicle 1.
pub(crate) fn sees<N: Naming, R: Wait + Drop, W: Wait + Abort>(
    rt: &W,
    desk: &mut Desk<N, R>,
    version: u32,
    stops: &[u32],
)
    requires { setting desk.old.setup.value ≡ N.opening.setting }
    ensures { setting desk.new.setup.value ≡ N.opening.setting }
{
    compare_fault(rt, desk.refresh().err());
    match desk.view() {
        Some(view) => compare_view(rt, view, version, stops),
        None => compare_fault(rt, Some(SnapFault::NoMemory)),
    }
    match desk.snapshot() {
        Ok(view) => compare_view(rt, &view, version, stops),
        Err(fault) => compare_fault(rt, Some(fault)),
    }
}
