use crate::comparing::{holds, same};
use crate::scripts::{answers, command, name};
use rbac_core::{
    Command, Names, Policy, Twin, access_stays, affected, carry_out, guard_by, sizes_stay,
};
use separation_core::Name;
use std::alloc::Global;
use std::process::Abort;

/// The opening policy of a board of 4 customers and 2 vehicles, after a script.
fn after(rt: &impl Abort, alloc: Global, script: &str) -> Policy {
    let mut policy = Policy::opening(alloc, 4, 2).expect(rt, "memory");
    answers(rt, alloc, &mut policy, script);
    policy
}

/// Ann with the roles top, which inherits d, and e; d and e exclude each other in a session.
const ANN: &str = "\
1 add-user ann => done\n\
1 add-user bea => done\n\
1 add-role top => done\n\
1 add-role d => done\n\
1 add-role e => done\n\
1 inherit top d => done\n\
1 assign ann top => done\n\
1 assign ann e => done\n\
1 dsd-create x 2 d e => done";

/// Who may give a session command: an administrator, and the user whom it concerns.
const OWN: &str = "\
1 open ann => session 2\n\
1 open ann => session 3\n\
1 open bea => session 4\n\
2 activate 3 top => done\n\
2 deactivate 3 top => done\n\
4 activate 3 top => refused no-access\n\
4 deactivate 2 top => refused no-access\n\
4 close 2 => refused no-access\n\
4 close 9 => refused no-access\n\
1 close 9 => refused not-there\n\
9 close 2 => refused no-session\n\
4 open zoe => refused no-access\n\
4 open bea => session 5\n\
4 close 5 => done\n\
4 open bea => session 6";

/// Session 4 may give the command where it is an administrator, and not else.
fn compare_guard(rt: &impl Abort, policy: &Policy, command: &Command) {
    let by_one = guard_by(policy, 4, command, true);
    holds(rt, by_one.is_none(), "an administrator may");
    let by_other = guard_by(policy, 4, command, false);
    holds(rt, by_other.is_some(), "no one else may");
}

#[test]
fn session_commands_of_ones_own(rt: HostRuntime) {
    let mut policy = after(&rt, rt.alloc(), ANN);
    answers(&rt, rt.alloc(), &mut policy, OWN);
    let (_, command) = command(&rt, rt.alloc(), "1 add-user zoe");
    compare_guard(&rt, &policy, &command);
}

// ---- sessions that a command affects

/// Carries the command out on a copy, and gives the sessions that it affects.
fn affected_by(rt: &impl Abort, alloc: Global, old: &Policy, line: &str) -> Vec<u32> {
    let (_, command) = command(rt, alloc, line);
    let mut new = old.copy().expect(rt, "memory");
    carry_out(&mut new, &command).expect(rt, "a command that is done");
    access_stays(old, &command, &new);
    affected(alloc, old, &command, &new).expect(rt, "memory")
}

const OPENED: &str = "\
1 open ann top e => session 2\n\
1 open bea => session 3\n\
1 open ann e => session 4";

const AFFECTED: &[(&str, &[u32])] = &[
    ("1 grant d view vehicle 1 2", &[1, 2, 3, 4]),
    ("1 revoke d view vehicle 1 2", &[1, 2, 3, 4]),
    ("1 inherit e root", &[1, 2, 3, 4]),
    ("1 uninherit top d", &[1, 2, 3, 4]),
    ("1 delete-role top", &[1, 2, 3, 4]),
    ("1 deassign ann e", &[2, 4]),
    ("1 delete-user ann", &[2, 4]),
    ("1 open ann", &[5]),
    ("1 close 3", &[3]),
    ("1 activate 4 top", &[4]),
    ("1 deactivate 2 e", &[2]),
    ("1 migrate", &[2]),
    ("1 add-user zoe", &[]),
    ("1 assign bea e", &[]),
];

#[test]
fn which_sessions_a_command_affects(rt: HostRuntime) {
    let mut policy = after(&rt, rt.alloc(), ANN);
    answers(&rt, rt.alloc(), &mut policy, OPENED);
    for (line, wanted) in AFFECTED {
        let found = affected_by(&rt, rt.alloc(), &policy, line);
        same(&rt, found.as_slice(), *wanted, line);
    }
    sizes_stay();
}

// ---- a spare policy

/// Tries the command on the spare policy, and lets it stand.
fn stand(rt: &impl Abort, alloc: Global, twin: &mut Twin, line: &str) {
    let (_, command) = command(rt, alloc, line);
    match twin.prepare(&command) {
        Ok(_) => twin.settle(command),
        Err(_) => holds(rt, false, line),
    }
}

/// Tries the command, and leaves it tried.
fn give_up(rt: &impl Abort, alloc: Global, twin: &mut Twin, line: &str, wanted: bool) {
    let (_, command) = command(rt, alloc, line);
    let is_tried = twin.prepare(&command).is_ok();
    same(rt, is_tried, wanted, line);
}

/// Compares whether a role is there, and whether it would be after the command that was tried last.
fn compare_role(rt: &impl Abort, twin: &Twin, role: Name, is_there: bool, is_tried: bool) {
    let found = twin.policy().slot_of(role).is_some();
    same(rt, found, is_there, "a role of the policy");
    let found = twin.tried().slot_of(role).is_some();
    same(rt, found, is_tried, "a role of the policy that was tried");
}

#[test]
fn commands_by_a_spare_policy(rt: HostRuntime) {
    let alloc = rt.alloc();
    let opening = Policy::opening(alloc, 4, 2).expect(&rt, "memory");
    let mut twin = Twin::new(alloc, opening).expect(&rt, "memory");
    stand(&rt, alloc, &mut twin, "1 add-role d");
    give_up(&rt, alloc, &mut twin, "1 add-role d", false);
    give_up(&rt, alloc, &mut twin, "1 add-role e", true);
    compare_role(&rt, &twin, name(&rt, b"d"), true, true);
    compare_role(&rt, &twin, name(&rt, b"e"), false, true);
    stand(&rt, alloc, &mut twin, "1 add-role f");
    compare_role(&rt, &twin, name(&rt, b"e"), false, false);
    compare_role(&rt, &twin, name(&rt, b"f"), true, true);
}

/// Tries the command, once more where memory ran out, and gives it up.
fn try_and_give_up(rt: &impl Abort, twin: &mut Twin, command: &Command) {
    let is_tried = twin.prepare(command).is_ok() || twin.prepare(command).is_ok();
    holds(rt, is_tried, "the command is tried");
    twin.give_up();
}

/// Tries the command, once more where memory ran out, and lets it stand.
fn keep(rt: &impl Abort, twin: &mut Twin, command: Command) {
    match twin.prepare(&command) {
        Ok(_) => twin.settle(command),
        Err(_) => match twin.prepare(&command) {
            Ok(_) => twin.settle(command),
            Err(_) => holds(rt, false, "memory for the second try"),
        },
    }
}

/// Gives the command up, and then lets it stand.
fn give_up_and_keep(rt: &impl Abort, twin: &mut Twin, command: Command) {
    try_and_give_up(rt, twin, &command);
    keep(rt, twin, command);
}

/// A command that is refused leaves none tried, whatever was tried before.
fn be_refused(rt: &impl Abort, twin: &mut Twin, role: Name, other: Name) {
    let is_tried = twin.prepare(&Command::AddRole { role: other }).is_ok();
    let is_again = twin.prepare(&Command::AddRole { role }).is_ok();
    same(
        rt,
        (is_tried, is_again),
        (is_tried, false),
        "a refused command",
    );
    compare_role(rt, twin, other, false, false);
}

/// Each command is given up once before it stands, and goes on once more where memory runs out: so this test ends well also where one
/// allocation fails, whichever it is.
#[test]
fn commands_go_on_after_given_up_ones(rt: HostRuntime) {
    let alloc = rt.alloc();
    let Ok(opening) = Policy::opening(alloc, 4, 2) else {
        return;
    };
    let Ok(mut twin) = Twin::new(alloc, opening) else {
        return;
    };
    let (d, e, f) = (name(&rt, b"d"), name(&rt, b"e"), name(&rt, b"f"));
    give_up_and_keep(&rt, &mut twin, Command::AddRole { role: d });
    compare_role(&rt, &twin, d, true, true);
    give_up_and_keep(&rt, &mut twin, Command::AddRole { role: e });
    be_refused(&rt, &mut twin, d, f);
    let pair = Command::AddInheritance {
        senior: d,
        junior: e,
    };
    give_up_and_keep(&rt, &mut twin, pair);
    give_up_and_keep(&rt, &mut twin, Command::AddUser { user: d });
    give_up_and_keep(&rt, &mut twin, Command::AssignUser { user: d, role: d });
    try_and_give_up(&rt, &mut twin, &Command::DeleteRole { role: d });
    compare_role(&rt, &twin, d, true, true);
    give_up_and_keep(&rt, &mut twin, Command::DeleteRole { role: e });
    compare_role(&rt, &twin, e, false, false);
}

fn compare_names(rt: &impl Abort, found: &[Name], wanted: &[&str]) {
    same(rt, found.len(), wanted.len(), "names");
    for (one, text) in found.iter().zip(wanted) {
        same(rt, one.as_str(), *text, "a name");
    }
}

#[test]
fn names_of_a_command(rt: HostRuntime) {
    let list = vec![in rt.alloc(); name(&rt, b"d"), name(&rt, b"e"), name(&rt, b"d")];
    let names = Names::of(list.expect(&rt, "memory"));
    compare_names(&rt, names.as_slice(), &["d", "e", "d"]);
    let copy = names.copy().expect(&rt, "memory");
    compare_names(&rt, copy.as_slice(), &["d", "e", "d"]);
    compare_names(&rt, &names.into_vec(), &["d", "e", "d"]);
}
