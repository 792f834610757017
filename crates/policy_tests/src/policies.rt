use crate::comparing::{same, same_written};
use crate::scripts::{answers, name};
use policy_core::{Policy, Refusal};
use separation_core::Name;
use std::alloc::Global;
use std::process::Abort;

/// Users u and v; roles a, b and c, a above b; u has a, v has c; session 2 of u with b active. Session 1 is that of `root`.
const SMALL: &str = "\
1 add-user u => done\n\
1 add-user v => done\n\
1 add-role a => done\n\
1 add-role b => done\n\
1 add-role c => done\n\
1 inherit a b => done\n\
1 assign u a => done\n\
1 assign v c => done\n\
1 open u b => session 2";

fn small(rt: &impl Abort, alloc: Global) -> Policy {
    let mut policy = Policy::opening(alloc, 4, 2).expect(rt, "memory");
    answers(rt, alloc, &mut policy, SMALL);
    policy
}

const USERS_AND_ROLES: &str = "\
1 add-user u => refused already\n\
1 delete-user z => refused no-user\n\
1 add-role a => refused already\n\
1 delete-role z => refused no-role\n\
1 assign z z => refused no-user\n\
1 assign u z => refused no-role\n\
1 assign u a => refused already\n\
1 deassign z z => refused no-user\n\
1 deassign u z => refused no-role\n\
1 deassign u b => refused not-there\n\
1 inherit z a => refused no-role\n\
1 inherit a z => refused no-role\n\
1 inherit a b => refused already\n\
1 inherit b a => refused cycle\n\
1 uninherit z b => refused no-role\n\
1 uninherit b z => refused no-role\n\
1 uninherit b a => refused not-there\n\
1 delete-user v => done\n\
1 delete-user v => refused no-user\n\
1 uninherit a b => done\n\
1 deactivate 2 b => refused not-there";

const PERMISSIONS: &str = "\
1 grant z view vehicle 0 1 => refused no-role\n\
1 grant a view vehicle 0 1 => refused bad-object\n\
1 grant a view vehicle 2 1 => refused bad-object\n\
1 grant a view vehicle 1 3 => refused bad-object\n\
1 grant a view customer 1 5 => refused bad-object\n\
1 grant a view customer 1 4 => done\n\
1 grant a view customer 1 4 => done\n\
1 revoke z view vehicle 0 1 => refused no-role\n\
1 revoke a view customer 0 4 => refused bad-object\n\
1 revoke a view customer 1 4 => done\n\
1 revoke a view customer 1 4 => done";

const SSD_SETS: &str = "\
1 ssd-create z 2 z z => refused no-role\n\
1 ssd-create z 1 a c => refused number\n\
1 ssd-create z 3 a c => refused number\n\
1 ssd-create z 2 a a => refused number\n\
1 ssd-create z 2 a b => refused ssd z\n\
1 ssd-create z 2 a c => done\n\
1 ssd-create z 1 a c => refused already\n\
1 assign u c => refused ssd z\n\
1 ssd-add a z => refused no-role\n\
1 ssd-add a a => refused no-set\n\
1 ssd-add z a => refused already\n\
1 ssd-add z b => refused ssd z\n\
1 ssd-drop z z => refused no-role\n\
1 ssd-drop a a => refused no-set\n\
1 ssd-drop z b => refused not-there\n\
1 ssd-drop z a => refused number\n\
1 ssd-number a 2 => refused no-set\n\
1 ssd-number z 1 => refused number\n\
1 ssd-number z 3 => refused number\n\
1 ssd-number z 2 => done\n\
1 delete-role a => refused in-set\n\
1 ssd-delete a => refused no-set\n\
1 ssd-delete z => done\n\
1 ssd-create z 3 a b c => done\n\
1 ssd-number z 2 => refused ssd z\n\
1 ssd-delete z => done\n\
1 delete-role a => done";

const DSD_SETS: &str = "\
1 activate 2 a => done\n\
1 dsd-create z 2 z z => refused no-role\n\
1 dsd-create z 1 a c => refused number\n\
1 dsd-create z 2 a b => refused dsd z\n\
1 dsd-create z 2 a c => done\n\
1 dsd-create z 1 a c => refused already\n\
1 dsd-add a z => refused no-role\n\
1 dsd-add a a => refused no-set\n\
1 dsd-add z a => refused already\n\
1 dsd-add z b => refused dsd z\n\
1 dsd-number a 2 => refused no-set\n\
1 dsd-number z 3 => refused number\n\
1 dsd-number z 2 => done\n\
1 dsd-drop z z => refused no-role\n\
1 dsd-drop a a => refused no-set\n\
1 dsd-drop z b => refused not-there\n\
1 dsd-drop z a => refused number\n\
1 delete-role a => refused in-set\n\
1 dsd-delete a => refused no-set\n\
1 dsd-delete z => done\n\
1 dsd-create z 3 a b c => done\n\
1 dsd-number z 2 => refused dsd z";

#[test]
fn refusals_of_commands(rt: HostRuntime) {
    for script in [USERS_AND_ROLES, PERMISSIONS, SSD_SETS, DSD_SETS] {
        let mut policy = small(&rt, rt.alloc());
        answers(&rt, rt.alloc(), &mut policy, script);
    }
}

const SESSIONS: &str = "\
1 dsd-create z 2 a b => done\n\
1 open z z z => refused no-user\n\
1 open u a z => refused no-role\n\
1 open u a c => refused not-authorized\n\
1 open u a b => refused dsd z\n\
1 close 3 => refused not-there\n\
1 activate 2 z => refused no-role\n\
1 activate 2 b => refused already\n\
1 activate 3 b => refused not-there\n\
1 activate 2 c => refused not-authorized\n\
1 activate 2 a => refused dsd z\n\
1 deactivate 2 z => refused no-role\n\
1 deactivate 3 a => refused not-there\n\
1 deactivate 2 a => refused not-there\n\
1 deactivate 2 b => done\n\
1 close 2 => done\n\
1 open u a a => session 3";

fn compare_user(rt: &impl Abort, policy: &Policy, session: u32, user: Option<Name>) {
    same(rt, policy.user_of(session), user, "the user of a session");
    same(
        rt,
        policy.is_session(session),
        user.is_some(),
        "whether it is one",
    );
}

#[test]
fn refusals_on_sessions(rt: HostRuntime) {
    let mut policy = small(&rt, rt.alloc());
    answers(&rt, rt.alloc(), &mut policy, SESSIONS);
    compare_user(&rt, &policy, 3, Some(name(&rt, b"u")));
    compare_user(&rt, &policy, 2, None);
}

fn numbered(rt: &impl Abort, kind: u8, number: u32) -> Name {
    let text = [
        kind,
        b'0' + (number / 1000 % 10) as u8,
        b'0' + (number / 100 % 10) as u8,
        b'0' + (number / 10 % 10) as u8,
        b'0' + (number % 10) as u8,
    ];
    name(rt, &text)
}

fn add_all_users(rt: &impl Abort, policy: &mut Policy) {
    for user in 1..1024u32 {
        let found = policy.add_user(numbered(rt, b'u', user));
        same(rt, found, Ok(()), "a user");
    }
}

fn add_all_roles(rt: &impl Abort, policy: &mut Policy) {
    for role in 1..256u32 {
        let found = policy.add_role(numbered(rt, b'r', role));
        same(rt, found, Ok(()), "a role");
    }
}

fn add_all_sets(rt: &impl Abort, policy: &mut Policy) {
    let roles = [numbered(rt, b'r', 1), numbered(rt, b'r', 255)];
    for set in 0..64u32 {
        let set = numbered(rt, b's', set);
        same(rt, policy.create_ssd_set(set, 2, &roles), Ok(()), "SSD");
        same(rt, policy.create_dsd_set(set, 2, &roles), Ok(()), "DSD");
    }
}

fn add_all_sessions(rt: &impl Abort, policy: &mut Policy) {
    let user = numbered(rt, b'u', 7);
    for session in 2..1025u32 {
        same(
            rt,
            policy.create_session(user, &[]),
            Ok(session),
            "a session",
        );
    }
}

const OF_SETS: &str = "\
1 ssd-create t 2 r0001 r0255 => refused full\n\
1 dsd-create t 2 r0001 r0255 => refused full\n\
1 assign u0007 r0001 => done";

const OF_SESSIONS: &str = "\
1 open u0007 r0001 => refused full\n\
1 close 1024 => done\n\
1 open u0007 r0001 => session 1025";

// 1,024 users, 256 roles, 64 sets of each kind, 1,024 sessions at a time, with what the opening policy has: the last is done, one more is
// not.
#[test]
fn limits_at_their_last(rt: HostRuntime) {
    let mut policy = Policy::opening(rt.alloc(), 1000, 1000).expect(&rt, "memory");
    add_all_users(&rt, &mut policy);
    answers(&rt, rt.alloc(), &mut policy, "1 add-user v => refused full");
    add_all_roles(&rt, &mut policy);
    answers(&rt, rt.alloc(), &mut policy, "1 add-role s => refused full");
    add_all_sets(&rt, &mut policy);
    answers(&rt, rt.alloc(), &mut policy, OF_SETS);
    add_all_sessions(&rt, &mut policy);
    answers(&rt, rt.alloc(), &mut policy, OF_SESSIONS);
}

fn compare_sizes(rt: &impl Abort, policy: &Policy) {
    same(rt, policy.last_session(), 2, "the last session");
    same(rt, (policy.customers(), policy.vehicles()), (4, 2), "sizes");
}

#[test]
fn an_equal_policy(rt: HostRuntime) {
    let policy = small(&rt, rt.alloc());
    let mut copy = policy.copy().expect(&rt, "memory");
    compare_sizes(&rt, &copy);
    answers(&rt, rt.alloc(), &mut copy, "1 delete-user u => done");
    compare_user(&rt, &policy, 2, Some(name(&rt, b"u")));
    compare_user(&rt, &copy, 2, None);
}

#[test]
fn texts_of_the_refusals(rt: HostRuntime) {
    let set = name(&rt, b"x");
    for (refusal, text) in [
        (Refusal::NoSession, "no such session"),
        (Refusal::NoAccess, "the session has no access"),
        (Refusal::NoUser, "no such user"),
        (Refusal::NoRole, "no such role"),
        (Refusal::NoSet, "no such set"),
        (Refusal::BadObject, "no such objects"),
        (Refusal::Already, "it is there already"),
        (Refusal::NotThere, "it is not there"),
        (Refusal::NotAuthorized, "the user is not authorized"),
        (Refusal::Cycle, "the junior is senior to the senior"),
        (Refusal::InSet, "the role stands in a set"),
        (Refusal::Number, "the number does not fit the set"),
        (Refusal::Full, "there is no room"),
        (Refusal::NoMemory, "out of memory"),
        (Refusal::Ssd(set), "it would break the SSD set x"),
        (Refusal::Dsd(set), "it would break the DSD set x"),
    ] {
        same_written(&rt, rt.alloc(), &refusal, text);
    }
}
