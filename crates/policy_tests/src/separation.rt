use crate::comparing::{all_written, same};
use crate::scripts::name;
use role_hierarchy::RoleSet;
use separation_core::{Name, SetFault, Sets};
use std::alloc::Global;
use std::process::Abort;

fn roles(slots: &[u8]) -> RoleSet {
    let mut set = RoleSet::new();
    for slot in slots {
        set.insert(*slot);
    }
    set
}

/// The set of all 256 roles.
fn all_roles() -> RoleSet {
    let mut all = RoleSet::new();
    for role in 0..256u32 {
        all.insert(role as u8);
    }
    all
}

/// Compares the answer of a command on a set.
fn answer(rt: &impl Abort, found: Result<(), SetFault>, wanted: Result<(), SetFault>) {
    same(rt, found, wanted, "a command on a set");
}

fn created(rt: &impl Abort, sets: &mut Sets, set: &[u8], members: &[u8], number: u32) {
    let found = sets.create(name(rt, set), roles(members), number);
    same(rt, (members, found), (members, Ok(())), "a set that comes");
}

/// Compares the first set that the roles break; no text stands for none.
fn broken(rt: &impl Abort, sets: &Sets, given: RoleSet, set: &[u8]) {
    compare(rt, sets.broken_by(given), set);
}

fn compare(rt: &impl Abort, found: Option<Name>, set: &[u8]) {
    let wanted = if set.is_empty() {
        None
    } else {
        Some(name(rt, set))
    };
    same(rt, found, wanted, "the set that is broken");
}

/// Compares how many sets there are.
fn has_size(rt: &impl Abort, sets: &Sets, wanted: usize) {
    same(
        rt,
        (sets.len(), sets.is_full()),
        (wanted, wanted == 64),
        "sets",
    );
}

fn has_number(rt: &impl Abort, sets: &Sets, set: Name, wanted: u32) {
    same(rt, sets.number(set), Some(wanted), "the number of a set");
}

fn place(rt: &impl Abort, sets: &Sets, set: &[u8], wanted: usize) {
    same(
        rt,
        sets.place(name(rt, set)),
        Some(wanted),
        "the place of a set",
    );
}

/// Compares the bytes and the text of a name with what it was made of.
fn bytes(rt: &impl Abort, text: &[u8]) {
    let made = name(rt, text);
    same(rt, made.as_bytes(), text, "the bytes of a name");
    same(rt, made.as_str().as_bytes(), text, "the text of a name");
}

const TEXTS: &[(&[u8], bool)] = &[
    (b"", false),
    (b"a", true),
    (b"abcdefghijklmnopqrstuvwxyz012345", true),
    (b"abcdefghijklmnopqrstuvwxyz0123456", false),
    (b"A-z_0.9", true),
    (b"a b", false),
    (b"a/b", false),
    (b"@", false),
    (b"\xc3\xa9", false),
];

#[test]
fn names(rt: HostRuntime) {
    for (text, valid) in TEXTS {
        same(
            &rt,
            (*text, Name::new(text).is_some()),
            (*text, *valid),
            "whether it is a name",
        );
    }
    bytes(&rt, b"abcdefghijklmnopqrstuvwxyz012345");
    bytes(&rt, b"ann.b-2_c");
    same(&rt, name(&rt, b"ann") == name(&rt, b"anna"), false, "equal");
    let text = format!(in rt.alloc(); "{:>4}|", name(&rt, b"ann")).expect(&rt, "memory");
    same(&rt, text.as_str(), " ann|", "a name in a field");
}

/// A set x of the roles 0, 1 and 2, of which fewer than two may come together.
fn of_three(rt: &impl Abort, alloc: Global) -> Sets {
    let mut sets = Sets::new(alloc);
    created(rt, &mut sets, b"x", &[0, 1, 2], 2);
    sets
}

#[test]
fn refusals_of_create_and_add(rt: HostRuntime) {
    let mut sets = of_three(&rt, rt.alloc());
    let (x, y) = (name(&rt, b"x"), name(&rt, b"y"));
    let creates: [(Name, &[u8], u32, SetFault); 4] = [
        (x, &[], 1, SetFault::Already),
        (y, &[], 1, SetFault::Small),
        (y, &[7], 2, SetFault::Large),
        (y, &[7, 8, 9], 4, SetFault::Large),
    ];
    for (set, members, number, fault) in creates {
        answer(&rt, sets.create(set, roles(members), number), Err(fault));
    }
    for (set, role, wanted) in [
        (y, 0, Err(SetFault::NoSet)),
        (x, 0, Err(SetFault::Member)),
        (x, 9, Ok(())),
    ] {
        answer(&rt, sets.add_member(set, role), wanted);
    }
}

#[test]
fn refusals_of_number_and_delete(rt: HostRuntime) {
    let mut sets = of_three(&rt, rt.alloc());
    let (x, y) = (name(&rt, b"x"), name(&rt, b"y"));
    answer(&rt, sets.add_member(x, 9), Ok(()));
    for (set, number, wanted) in [
        (y, 1, Err(SetFault::NoSet)),
        (x, 1, Err(SetFault::Small)),
        (x, 5, Err(SetFault::Large)),
        (x, 3, Ok(())),
    ] {
        answer(&rt, sets.set_number(set, number), wanted);
    }
    for (set, role, wanted) in [
        (y, 0, Err(SetFault::NoSet)),
        (x, 7, Err(SetFault::Member)),
        (x, 0, Ok(())),
        (x, 1, Err(SetFault::Large)),
    ] {
        answer(&rt, sets.delete_member(set, role), wanted);
    }
    has_number(&rt, &sets, x, 3);
    answer(&rt, sets.delete(y), Err(SetFault::NoSet));
    answer(&rt, sets.delete(x), Ok(()));
    has_size(&rt, &sets, 0);
}

/// Creates 64 sets of the roles 0 and 1, named a0 to a7, b0 to b7 and so on.
fn fill(rt: &impl Abort, sets: &mut Sets) {
    for index in 0..64u8 {
        let set = name(rt, &[b'a' + index / 8, b'0' + index % 8]);
        same(
            rt,
            sets.create(set, roles(&[0, 1]), 2),
            Ok(()),
            "a set that comes",
        );
    }
}

/// But for the limit of 64 sets nothing is against another one.
fn may_come(rt: &impl Abort, sets: &Sets, set: Name, members: RoleSet) {
    same(
        rt,
        sets.refusal_of_create(set, members, 2),
        None,
        "a refusal",
    );
}

#[test]
fn sixty_four_sets(rt: HostRuntime) {
    let mut sets = Sets::new(rt.alloc());
    fill(&rt, &mut sets);
    has_size(&rt, &sets, 64);
    let (more, both) = (name(&rt, b"more"), roles(&[0, 1]));
    answer(&rt, sets.create(more, both, 3), Err(SetFault::Large));
    may_come(&rt, &sets, more, both);
    answer(&rt, sets.create(more, both, 2), Err(SetFault::Full));
    broken(&rt, &sets, both, b"a0");
    let whole = sets.copy().expect(&rt, "memory");
    answer(&rt, sets.delete(name(&rt, b"a0")), Ok(()));
    broken(&rt, &sets, both, b"a1");
    place(&rt, &sets, b"h7", 63);
    place(&rt, &whole, b"h7", 64);
    answer(&rt, sets.create(more, all_roles(), 256), Ok(()));
    place(&rt, &sets, b"more", 64);
}

const FAULTS: &[(SetFault, &str)] = &[
    (SetFault::NoSet, "no set has the name"),
    (SetFault::Already, "a set has the name"),
    (
        SetFault::Member,
        "the role is in the set already, or is not in it",
    ),
    (SetFault::Small, "the number is below 2"),
    (
        SetFault::Large,
        "the number is above the number of the set's roles",
    ),
    (SetFault::Full, "there are 64 sets"),
    (SetFault::NoMemory, "out of memory"),
];

#[test]
fn texts_of_the_faults(rt: HostRuntime) {
    all_written(&rt, rt.alloc(), FAULTS);
}

// The first set by creation is named, whichever of the given sets breaks it.
#[test]
fn sets_broken_by_some_of_several(rt: HostRuntime) {
    let mut sets = Sets::new(rt.alloc());
    created(&rt, &mut sets, b"s", &[0, 1], 2);
    created(&rt, &mut sets, b"t", &[2, 3], 2);
    let (first, second) = (roles(&[0, 1]), roles(&[2, 3]));
    compare(&rt, sets.broken_by_some(&[second, first]), b"s");
    compare(&rt, sets.broken_by_some(&[second]), b"t");
    compare(
        &rt,
        sets.broken_by_some(&[roles(&[0, 2]), roles(&[1, 3])]),
        b"",
    );
    compare(&rt, sets.broken_by_some(&[]), b"");
}

// `broken_by_coming(given, coming)`, one line a question: given, coming, the name, or nothing for none.
fn answers(rt: &impl Abort, sets: &Sets, lines: &[(&[u8], &[u8], &[u8])]) {
    for (given, coming, set) in lines {
        compare(rt, sets.broken_by_coming(roles(given), roles(coming)), set);
    }
}

const OF_NONE: &[(&[u8], &[u8], &[u8])] = &[(&[1, 2], &[1], b""), (&[], &[], b"")];

const OF_THREE: &[(&[u8], &[u8], &[u8])] = &[
    (&[1, 2], &[1], b"a"),
    (&[2, 3], &[3], b"b"),
    (&[2, 3], &[1], b""),
    (&[1, 2, 3], &[3], b"a"),
    (&[5, 255], &[255], b"c"),
    (&[5, 255], &[0, 9, 64, 255], b"c"),
    (&[1, 3, 5], &[1, 3, 5], b""),
];

const OF_BOTH: &[(&[u8], &[u8], &[u8])] = &[
    (&[64, 255], &[64], b"c"),
    (&[5, 64], &[5, 6], b"c"),
    (&[2, 3], &[2], b""),
    (&[3, 4], &[4], b"b"),
    (&[3, 4], &[2], b""),
];

const OF_THE_LAST: &[(&[u8], &[u8], &[u8])] = &[
    (&[3, 4], &[4], b""),
    (&[2, 64], &[2], b"a"),
    (&[2, 5, 64], &[64], b"c"),
];

const OF_THE_COPY: &[(&[u8], &[u8], &[u8])] = &[(&[2, 64], &[2], b""), (&[3, 4], &[3], b"b")];

// The sets that have the coming roles are found after each change, also where they moved up.
#[test]
fn sets_of_the_coming_roles_after_each_change(rt: HostRuntime) {
    let mut sets = Sets::new(rt.alloc());
    let (a, b, c) = (name(&rt, b"a"), name(&rt, b"b"), name(&rt, b"c"));
    answers(&rt, &sets, OF_NONE);
    created(&rt, &mut sets, b"a", &[1, 2], 2);
    created(&rt, &mut sets, b"b", &[2, 3, 4], 2);
    created(&rt, &mut sets, b"c", &[5, 255], 2);
    answers(&rt, &sets, OF_THREE);
    answer(&rt, sets.add_member(c, 64), Ok(()));
    answer(&rt, sets.delete_member(b, 2), Ok(()));
    let before = sets.copy().expect(&rt, "memory");
    answer(&rt, sets.delete(a), Ok(()));
    answers(&rt, &before, OF_BOTH);
    answers(&rt, &sets, OF_BOTH);
    answers(&rt, &before, &[(&[1, 2], &[2], b"a")]);
    answers(&rt, &sets, &[(&[1, 2], &[2], b"")]);
    answer(&rt, sets.delete(b), Ok(()));
    created(&rt, &mut sets, b"a", &[2, 64], 2);
    answers(&rt, &sets, OF_THE_LAST);
    answers(&rt, &before, OF_THE_COPY);
}
