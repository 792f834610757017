ghost use Rattle.std.specs.Prelude.{◌≡◌, All, IfOk, length};
ghost use Rattle.travel_table.specs.Travel.{IsNear};

use crate::comparing::same;
use solomon_reader::{Instance, Node};
use std::alloc::{AllocError, Global};
use std::process::Abort;
use travel_table::{Travel, root, travel_is_symmetric};

/// Numbers and their roots.
const ROOTS: &[(u64, u32)] = &[
    (0, 0),
    (1, 1),
    (2, 1),
    (3, 1),
    (4, 2),
    (800, 28),
    (4_294_967_295, 65_535),
    (4_294_967_296, 65_536),
    (4_294_836_224, 65_535 - 1),
    (4_294_836_225, 65_535),
    (4_294_836_226, 65_535),
    (18_446_744_056_529_682_436, 4_294_967_294),
    (18_446_744_065_119_617_024, 4_294_967_294),
    (18_446_744_065_119_617_025, 4_294_967_295),
    (18_446_744_065_119_617_026, 4_294_967_295),
    (18_446_744_073_709_551_615, 4_294_967_295),
];

#[test]
fn roots_round_down(rt: HostRuntime) {
    for (n, wanted) in ROOTS {
        same(&rt, (*n, root(*n)), (*n, *wanted), "a root");
    }
}

/// A node that is no more than a place.
fn place(x: u32, y: u32) -> Node
    ensures { result ≡ record { x = x; y = y; demand = 0; ready = 0; due = 100; service = 0 } }
{
    Node {
        x,
        y,
        demand: 0,
        ready: 0,
        due: 100,
        service: 0,
    }
}

/// A depot and four customers.
fn five_nodes(alloc: Global) -> Result<Instance, AllocError>
    ensures sized { IfOk result (λ instance. length instance.nodes.items ≡ 5) }
    ensures near { IfOk result (λ instance. All IsNear instance.nodes.items) }
{
    let nodes = vec![in alloc;
        place(0, 0),
        place(2, 2),
        place(6, 6),
        place(10, 10),
        place(3, 4),
    ]?;
    Ok(Instance {
        name: String::new(alloc),
        vehicles: 2,
        capacity: 10,
        nodes,
    })
}

/// The travel between any two of the five nodes, in tenths.
const TABLE: &[(u32, u32, u32)] = &[
    (0, 1, 28),
    (0, 2, 84),
    (0, 3, 141),
    (0, 4, 50),
    (1, 2, 56),
    (1, 3, 113),
    (1, 4, 22),
    (2, 3, 56),
    (2, 4, 36),
    (3, 4, 92),
];

/// Compares each way of the table, both ways, and each from a node to itself.
fn compare(rt: &impl Abort, travel: &Travel) {
    let nodes = travel.nodes();
    same(rt, nodes, 5, "nodes");
    for (i, j, wanted) in TABLE {
        if (*i as usize) < nodes && (*j as usize) < nodes {
            let found = [travel.get(*i, *j), travel.get(*j, *i), travel.get(*i, *i)];
            same(rt, (*i, *j, found), (*i, *j, [*wanted, *wanted, 0]), "ways");
        }
    }
}

#[test]
fn travel_both_ways(rt: HostRuntime) {
    let instance = five_nodes(rt.alloc()).expect(&rt, "memory");
    let travel = Travel::of(rt.alloc(), &instance).expect(&rt, "memory");
    compare(&rt, &travel);
    travel_is_symmetric();
}
