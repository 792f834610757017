use crate::comparing::{all_written, same};
use board_rules::{AskFault, Fault, Refusal};
use rbac_core::Refusal as PolicyRefusal;
use separation_core::Name;
use std::process::Abort;

/// Compares the refusal of a board for one of the policy, if there is one.
fn compare(rt: &impl Abort, refusal: PolicyRefusal, wanted: Option<Refusal>) {
    same(rt, Refusal::of_policy(refusal).ok(), wanted, "a refusal");
}

#[test]
fn what_the_policy_refuses(rt: HostRuntime) {
    let set = Name::new(b"s").expect(&rt, "name");
    compare(&rt, PolicyRefusal::Ssd(set), Some(Refusal::Ssd(set)));
    compare(&rt, PolicyRefusal::InSet, Some(Refusal::InSet));
    compare(&rt, PolicyRefusal::NoMemory, None);
}

const FAULTS: &[(Fault, &str)] = &[
    (
        Fault::OutOfTurn,
        "there is no such desk, or the turn is not the desk's last plus one",
    ),
    (Fault::Full, "the journal is full"),
    (Fault::NoMemory, "out of memory"),
];

const ASK_FAULTS: &[(AskFault, &str)] = &[
    (AskFault::NoSession, "the session does not exist"),
    (AskFault::NoAccess, "the session lacks `audit` on the board"),
    (AskFault::NoUser, "there is no such user"),
    (AskFault::NoRole, "there is no such role"),
    (AskFault::NotThere, "there is no such session to review"),
    (AskFault::NoMemory, "out of memory"),
];

#[test]
fn texts_of_faults(rt: HostRuntime) {
    all_written(&rt, rt.alloc(), FAULTS);
    all_written(&rt, rt.alloc(), ASK_FAULTS);
}
