ghost use Rattle.std.specs.Prelude.{◌≡◌, ◌<◌, ◌+◌, ◌-◌, ◌*◌, [], ◌∷◌, length};
ghost use Rattle.callback_store.specs.Registry.{tables};
ghost use Rattle.callback_store.specs.Tables.{matrix_table, nodes_of, stay_table};

use crate::comparing::same;
use crate::meters::compare_meter;
use callback_store::{
    Callback, Matrix, Meter, RegisterFault, Registry, Slot, StayMatrix, Transit, TransitId, Unary,
    Vector,
};
use std::alloc::Global;
use std::process::Abort;
use std::sync::Arc;
use std::sync::atomic::{AtomicU64, Ordering};

/// The answers of a callback by its kind: from each of the first two nodes to each.
fn answers_of<C: Callback>(callback: &C) -> [u64; 4]
    requires { 1 < (C.table callback.now).size }
{
    [
        callback.answer_way(0, 0),
        callback.answer_way(0, 1),
        callback.answer_way(1, 0),
        callback.answer_way(1, 1),
    ]
}

/// Compares them, of whichever kind it is.
fn compare_answers(rt: &impl Abort, registry: &Registry, id: TransitId, wanted: [u64; 4])
    requires registered { id < length (tables registry.now) }
    requires two { 1 < nodes_of (tables registry.now) }
{
    let found = match registry.callback(id) {
        Slot::Pair(callback) => answers_of(callback),
        Slot::Node(callback) => answers_of(callback),
        Slot::Listed(callback) => answers_of(callback),
        Slot::Values(callback) => answers_of(callback),
        Slot::Stayed(callback) => answers_of(callback),
    };
    same(rt, found, wanted, "answers");
}

fn ask_a_matrix(rt: &impl Abort, registry: &Registry, costs: TransitId)
    requires costs { costs < length (tables registry.now) }
    requires nodes { nodes_of (tables registry.now) ≡ 2 }
{
    let mut meter = Meter::new();
    let out = registry.ask(costs, &mut meter, 0, 1);
    let back = registry.ask(costs, &mut meter, 1, 0);
    let found = (out, back, meter.asks, registry.answers(costs));
    let wanted = (10, 20, 2, Some([0, 10, 20, 0].as_slice()));
    same(rt, found, wanted, "answers, asks and what is lent");
    compare_answers(rt, registry, costs, [0, 10, 20, 0]);
}

/// The answers 0, 10, 20 and 0.
fn four_ways(rt: &impl Abort, alloc: Global) -> Matrix
    ensures sized { (matrix_table result).size ≡ 2 }
    ensures answers { (matrix_table result).entries ≡ 0 ∷ 10 ∷ 20 ∷ 0 ∷ [] }
{
    let ways = vec![in alloc; 0u32, 10, 20, 0].expect(rt, "memory");
    let ways = Arc::new(alloc, ways).expect(rt, "memory");
    Matrix::new(2, ways)
}

/// Answers for three nodes.
fn nine_ways(rt: &impl Abort, alloc: Global) -> Matrix {
    let ways = vec![in alloc; 0u32; 9].expect(rt, "memory");
    let ways = Arc::new(alloc, ways).expect(rt, "memory");
    Matrix::new(3, ways)
}

/// A callback that is given as its answers is asked as any other, and lends them.
#[test]
fn answers_from_a_matrix(rt: HostRuntime) {
    let mut registry = Registry::new(rt.alloc());
    let costs = four_ways(&rt, rt.alloc());
    let costs = registry.register_matrix(costs).expect(&rt, "room");
    ask_a_matrix(&rt, &registry, costs);
    let wide = nine_ways(&rt, rt.alloc());
    let refused = registry.register_matrix(wide).err();
    same(&rt, refused, Some(RegisterFault::Size), "a refusal");
}

fn ask_stays_and_values(rt: &impl Abort, registry: &Registry, time: TransitId, load: TransitId)
    requires time { time < length (tables registry.now) }
    requires load { load < length (tables registry.now) }
    requires nodes { nodes_of (tables registry.now) ≡ 2 }
{
    let mut meter = Meter::new();
    let time_out = registry.ask(time, &mut meter, 0, 1);
    let time_back = registry.ask(time, &mut meter, 1, 0);
    let load_back = registry.ask(load, &mut meter, 1, 0);
    let found = (time_out, time_back, load_back, meter.asks);
    same(rt, found, (13, 25, 4, 3), "answers and asks");
    compare_answers(rt, registry, time, [3, 13, 25, 5]);
    compare_answers(rt, registry, load, [0, 0, 4, 4]);
}

/// The same ways behind the stays 3 and 5.
fn stays(rt: &impl Abort, alloc: Global) -> StayMatrix
    ensures { (stay_table result).size ≡ 2 }
{
    let ways = four_ways(rt, alloc);
    let stays = vec![in alloc; 3u32, 5].expect(rt, "memory");
    StayMatrix::new(stays, ways)
}

/// Callbacks that are given as stays and ways, and as one answer for each node, are asked as any other.
#[test]
fn answers_from_stays_and_values(rt: HostRuntime) {
    let mut registry = Registry::new(rt.alloc());
    let stays = stays(&rt, rt.alloc());
    let time = registry.register_stays(stays).expect(&rt, "room");
    let demands = vec![in rt.alloc(); 0u32, 4].expect(&rt, "memory");
    let demands = Vector::new(demands);
    let load = registry.register_vector(demands).expect(&rt, "room");
    ask_stays_and_values(&rt, &registry, time, load);
}

/// Whether the callback for pairs is asked, and its answers from each of three nodes to each.
const ANSWERS: [(bool, [u64; 9]); 2] = [
    (true, [0, 30, 60, 10, 0, 30, 20, 10, 0]),
    (false, [0, 0, 0, 7, 7, 7, 14, 14, 14]),
];

fn ask_and_count(
    rt: &impl Abort,
    registry: &Registry,
    pairs: TransitId,
    nodes: TransitId,
    calls: &AtomicU64,
)
    requires pairs { pairs < length (tables registry.now) }
    requires nodes { nodes < length (tables registry.now) }
    requires three { nodes_of (tables registry.now) ≡ 3 }
{
    let mut meter = Meter::new();
    for (is_paired, wanted) in &ANSWERS {
        let id = if *is_paired { pairs } else { nodes };
        for way in 0..9u32 {
            let answer = registry.ask(id, &mut meter, way / 3, way % 3);
            let found = (answer, meter.asks);
            let told = (wanted[way as usize], calls.load(Ordering::SeqCst));
            same(rt, found, told, "the answer and the calls so far");
        }
    }
    same(rt, meter.asks, 18, "asks");
}

/// Both kinds of closures are registered, and an ask calls the closure once: the closures count their calls beside the meter.
#[test]
fn registers_both_kinds(rt: HostRuntime) {
    let calls = Arc::new(rt.alloc(), AtomicU64::new(0)).expect(&rt, "memory");
    let of_pairs = Arc::try_clone(&calls).expect(&rt, "memory");
    let of_nodes = Arc::try_clone(&calls).expect(&rt, "memory");
    let two = Box::new(
        rt.alloc(),
        move |i: u32, j: u32| -> u64
            ensures { result ≡ 30 * (j - i) + 10 * (i - j) }
        {
            of_pairs.fetch_add(1, Ordering::SeqCst);
            30 * u64::from(j.saturating_sub(i)) + 10 * u64::from(i.saturating_sub(j))
        },
    )
    .expect(&rt, "memory");
    let one = Box::new(
        rt.alloc(),
        move |i: u32| -> u64
            ensures { result ≡ 7 * i }
        {
            of_nodes.fetch_add(1, Ordering::SeqCst);
            7 * u64::from(i)
        },
    )
    .expect(&rt, "memory");
    let steps = Transit::new(3, two);
    let weights = Unary::new(3, one);
    let mut registry = Registry::new(rt.alloc());
    let pairs = registry.register(steps).expect(&rt, "room");
    let nodes = registry.register_unary(weights).expect(&rt, "room");
    ask_and_count(&rt, &registry, pairs, nodes, &calls);
    compare_answers(&rt, &registry, pairs, [0, 30, 10, 0]);
    compare_answers(&rt, &registry, nodes, [0, 0, 7, 7]);
}

#[test]
fn refuses_sizes_and_a_seventeenth(rt: HostRuntime) {
    let mut registry = Registry::new(rt.alloc());
    for step in 0..21u32 {
        let (size, wanted) = match step {
            0 => (1u32, Err(RegisterFault::Size)),
            1 => (1002, Err(RegisterFault::Size)),
            2 => (2, Ok(0u32)),
            3 | 20 => (3, Err(RegisterFault::Size)),
            19 => (2, Err(RegisterFault::Many)),
            _ => (2, Ok(step - 3)),
        };
        let call = Box::new(
            rt.alloc(),
            move |_i: u32| -> u64
                ensures { result ≡ 7 }
            { 7 },
        )
        .expect(&rt, "memory");
        let unary = Unary::new(size, call);
        let answer = registry.register_unary(unary).map(|id| id.index());
        same(&rt, (step, answer), (step, wanted), "a name");
    }
    let sizes = (registry.count(), registry.nodes());
    same(&rt, sizes, (16, 2), "callbacks and nodes");
}

#[test]
fn counts_stay_at_their_greatest(rt: HostRuntime) {
    let mut meter = Meter {
        asks: u64::MAX - 1,
        probes: u64::MAX - 1,
        walks: u64::MAX - 1,
    };
    for _ in 0..2 {
        meter.ask();
        meter.probe();
        meter.walk();
    }
    compare_meter(&rt, meter, u64::MAX, u64::MAX, u64::MAX);
    meter.ask_many(0);
    meter.ask_many(5);
    same(&rt, meter.asks, u64::MAX, "asks");
    let mut fresh = Meter::new();
    fresh.ask_many(6);
    fresh.probe();
    fresh.walk();
    fresh.walk();
    compare_meter(&rt, fresh, 6, 1, 2);
}
