use crate::comparing::same;
use permission_core::{ObjectRange, ObjectSet, Operation, Permissions};
use std::process::Abort;

/// The first members of the set from 0 on are compared with the range's, one by one.
fn compare(rt: &impl Abort, set: &ObjectSet, first: u32, end: u32, inside: bool) {
    for object in 0..2048u32 {
        let within = first <= object && object < end;
        same(
            rt,
            (object, set.contains(object)),
            (object, within == inside),
            "a member",
        );
    }
}

// Ranges that begin and end within a word, at its ends, and over several words.
#[test]
fn ranges_of_objects(rt: HostRuntime) {
    for (first, end) in [
        (0u32, 1u32),
        (0, 64),
        (63, 65),
        (64, 128),
        (1, 1001),
        (1001, 2001),
        (70, 70),
        (0, 2048),
    ] {
        let mut set = ObjectSet::new();
        set.insert_range(first, end);
        compare(&rt, &set, first, end, true);
        let mut all = ObjectSet::new();
        all.insert_range(0, 2048);
        all.remove_range(first, end);
        compare(&rt, &all, first, end, false);
    }
}

#[test]
fn spans_of_ranges(rt: HostRuntime) {
    for (range, span) in [
        (ObjectRange::Board, Some((0, 1))),
        (ObjectRange::Vehicles { first: 1, last: 2 }, Some((1, 3))),
        (ObjectRange::Vehicles { first: 0, last: 2 }, None),
        (ObjectRange::Vehicles { first: 2, last: 1 }, None),
        (ObjectRange::Vehicles { first: 1, last: 3 }, None),
        (
            ObjectRange::Customers { first: 4, last: 4 },
            Some((1004, 1005)),
        ),
        (ObjectRange::Customers { first: 0, last: 0 }, None),
        (ObjectRange::Customers { first: 1, last: 5 }, None),
        (
            ObjectRange::Customers {
                first: 1,
                last: 4294967295,
            },
            None,
        ),
    ] {
        same(
            &rt,
            (range, range.span(4, 2)),
            (range, span),
            "the span of a range",
        );
    }
}

/// Compares to which of the objects 1001, 1002 and 1003 a role may do something.
fn permits(
    rt: &impl Abort,
    permissions: &Permissions,
    slot: u8,
    operation: Operation,
    wanted: [bool; 3],
) {
    let found = [
        permissions.permits(slot, operation, 1001),
        permissions.permits(slot, operation, 1002),
        permissions.permits(slot, operation, 1003),
    ];
    same(rt, found, wanted, "objects");
    let is_in_row = permissions.row(slot, operation).contains(1002);
    same(rt, is_in_row, wanted[1], "1002 by the row");
}

#[test]
fn permissions_of_roles(rt: HostRuntime) {
    let (lift, view) = (Operation::Override, Operation::View);
    let (none, both) = ([false; 3], [true, true, false]);
    let mut permissions = Permissions::new(rt.alloc()).expect(&rt, "memory");
    permissions.grant(0, lift, 1001, 1003);
    permissions.grant(1, view, 1001, 1003);
    permits(&rt, &permissions, 0, lift, both);
    permits(&rt, &permissions, 0, view, none);
    let mut copy = permissions.copy().expect(&rt, "memory");
    copy.revoke(0, lift, 1002, 1003);
    permits(&rt, &copy, 0, lift, [true, false, false]);
    permits(&rt, &permissions, 0, lift, both);
    permissions.clear(0);
    permits(&rt, &permissions, 0, lift, none);
    permits(&rt, &permissions, 1, view, both);
}
