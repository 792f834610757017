use crate::comparing::{all_written, holds, same};
use role_hierarchy::{Hierarchy, HierarchyFault, RoleSet};
use std::process::Abort;

type Answer = Result<(), HierarchyFault>;

/// Takes a role, and compares its slot.
fn add_role(rt: &impl Abort, order: &mut Hierarchy, wanted: Result<u8, HierarchyFault>) {
    same(rt, order.add_role(), wanted, "one more role");
}

/// Takes that many roles, which get the slots from 0 on.
fn add_roles(rt: &impl Abort, order: &mut Hierarchy, count: u32) {
    for slot in 0..count {
        same(rt, order.add_role().map(u32::from), Ok(slot), "a slot");
    }
}

/// Adds each pair in turn, and compares the answers.
fn inherit(rt: &impl Abort, order: &mut Hierarchy, pairs: &[(u8, u8, Answer)]) {
    for (senior, junior, answer) in pairs {
        let found = order.add_inheritance(*senior, *junior);
        same(rt, found, *answer, "a pair that comes");
    }
}

/// Takes each pair away in turn, and compares the answers.
fn uninherit(rt: &impl Abort, order: &mut Hierarchy, pairs: &[(u8, u8, Answer)]) {
    for (senior, junior, answer) in pairs {
        let found = order.delete_inheritance(*senior, *junior);
        same(rt, found, *answer, "a pair that goes");
    }
}

fn delete_role(rt: &impl Abort, order: &mut Hierarchy, role: u8, wanted: Answer) {
    same(rt, order.delete_role(role), wanted, "a role that goes");
    holds(rt, !order.has_role(role), "it is gone");
}

/// Compares for each pair whether the first role is senior to the second.
fn compare(rt: &impl Abort, order: &Hierarchy, pairs: &[(u8, u8, bool)]) {
    for (a, b, answer) in pairs {
        same(
            rt,
            (*a, *b, order.is_senior(*a, *b)),
            (*a, *b, *answer),
            "whether one is above another",
        );
    }
}

/// Compares how many roles there are, and how many stand below one, itself among them.
fn compare_counts(rt: &impl Abort, order: &Hierarchy, count: u32, role: u8, below: u32) {
    same(rt, order.count(), count, "roles");
    same(rt, order.juniors(role).count(), below, "roles below one");
}

// Slots 0 to 3 are the roles a, b, c, d: c above a, d above c. Then c may stand neither above d
// nor above itself.
const PAIRS: &[(u8, u8, Answer)] = &[
    (2, 0, Ok(())),
    (3, 2, Ok(())),
    (2, 3, Err(HierarchyFault::Cycle)),
    (0, 3, Err(HierarchyFault::Cycle)),
    (3, 3, Err(HierarchyFault::Cycle)),
    (3, 2, Err(HierarchyFault::Already)),
    (4, 0, Err(HierarchyFault::NotThere)),
    (0, 4, Err(HierarchyFault::NotThere)),
    (4, 4, Err(HierarchyFault::NotThere)),
];

#[test]
fn inheritance_and_its_refusals(rt: HostRuntime) {
    let mut order = Hierarchy::new(rt.alloc()).expect(&rt, "memory");
    add_roles(&rt, &mut order, 4);
    inherit(&rt, &mut order, PAIRS);
    compare(
        &rt,
        &order,
        &[(3, 0, true), (0, 3, false), (3, 1, false), (1, 1, true)],
    );
    uninherit(
        &rt,
        &mut order,
        &[(3, 0, Err(HierarchyFault::NotThere)), (2, 0, Ok(()))],
    );
    compare(&rt, &order, &[(3, 0, false), (3, 2, true)]);
    delete_role(&rt, &mut order, 4, Err(HierarchyFault::NotThere));
}

/// Lets each slot k stand above slot k + 1.
fn chain(rt: &impl Abort, order: &mut Hierarchy) {
    for senior in 0..255u8 {
        same(
            rt,
            order.add_inheritance(senior, senior + 1),
            Ok(()),
            "a pair",
        );
    }
}

// A chain of all 256 roles; then a role in the middle goes, and its slot comes back with no pair.
#[test]
fn chain_of_256_roles(rt: HostRuntime) {
    let mut order = Hierarchy::new(rt.alloc()).expect(&rt, "memory");
    add_roles(&rt, &mut order, 256);
    add_role(&rt, &mut order, Err(HierarchyFault::Full));
    chain(&rt, &mut order);
    compare(
        &rt,
        &order,
        &[(0, 255, true), (255, 0, false), (99, 101, true)],
    );
    inherit(&rt, &mut order, &[(255, 0, Err(HierarchyFault::Cycle))]);
    compare_counts(&rt, &order, 256, 0, 256);
    delete_role(&rt, &mut order, 100, Ok(()));
    compare(
        &rt,
        &order,
        &[(0, 99, true), (99, 101, false), (101, 255, true)],
    );
    compare_counts(&rt, &order, 255, 0, 100);
    add_role(&rt, &mut order, Ok(100));
    compare_counts(&rt, &order, 256, 100, 1);
}

/// The roles below 1 and 2, of which there are so many, themselves among them.
fn compare_closure(rt: &impl Abort, order: &Hierarchy, wanted: u32) {
    let mut middle = RoleSet::new();
    middle.insert(1);
    middle.insert(2);
    same(rt, order.closure(middle).count(), wanted, "the closure");
}

const DIAMOND: &[(u8, u8, Answer)] = &[
    (0, 1, Ok(())),
    (0, 2, Ok(())),
    (1, 3, Ok(())),
    (2, 3, Ok(())),
];

// 0 above 1 and 2, both above 3: one of the two ways down is enough.
#[test]
fn diamond(rt: HostRuntime) {
    let mut order = Hierarchy::new(rt.alloc()).expect(&rt, "memory");
    add_roles(&rt, &mut order, 4);
    inherit(&rt, &mut order, DIAMOND);
    let whole = order.copy().expect(&rt, "memory");
    uninherit(&rt, &mut order, &[(1, 3, Ok(()))]);
    compare(&rt, &order, &[(0, 3, true), (1, 3, false)]);
    delete_role(&rt, &mut order, 2, Ok(()));
    compare(&rt, &order, &[(0, 3, false), (0, 1, true)]);
    compare(&rt, &whole, &[(0, 3, true), (1, 3, true)]);
    compare_closure(&rt, &whole, 3);
    compare_closure(&rt, &order, 2);
}

const FAULTS: &[(HierarchyFault, &str)] = &[
    (HierarchyFault::Full, "there are 256 roles"),
    (
        HierarchyFault::NotThere,
        "the role or the pair is not there",
    ),
    (HierarchyFault::Already, "the pair is there"),
    (HierarchyFault::Cycle, "the junior is senior to the senior"),
];

#[test]
fn texts_of_the_faults(rt: HostRuntime) {
    all_written(&rt, rt.alloc(), FAULTS);
}
