ghost use Rattle.std.specs.Prelude.{◌≡◌, ◌+◌, ◌*◌, ◌%◌, ◌≤◌, length, All};
ghost use Rattle.limits.specs.declared.TheConstants.{LARGEST_ANSWER};
ghost use Rattle.dimension_core.specs.Setup.{setting};
ghost use Rattle.neighbourhood.specs.View.{IsViewOf};

use crate::plain::plain_best;
use crate::views::{below, is_view, some_dimensions, some_plan, some_view};
use callback_store::{Matrix, Meter, Registry, Transit, TransitId, Unary};
use dimension_core::Setup;
use limits::MOST_CUSTOMERS;
use move_core::Move;
use neighbourhood::{Searcher, best_move};
use pin_core::View;
use plan_core::Plan;
use rand_pcg::Lcg64Xsh32;
use std::alloc::Global;
use std::process::Abort;
use std::sync::Arc;

/// How many views are compared of a setup of `rooms` times seven customers, whose costs of ways are given as a list or as a function.
#[derive(Clone, Copy)]
struct Sample {
    rooms: u32,
    views: u32,
    listed: bool,
}

/// A searcher that is kept, the moves to be skipped, how many answers were compared with its own, how many of them name a move, and how
/// many differ.
#[derive(Drop)]
struct Tally {
    searcher: Searcher,
    skip: Vec<Move>,
    answers: u32,
    moves: u32,
    differ: u32,
}

impl Tally {
    /// Counts two answers that differ.
    fn count(&mut self, same: bool) {
        if !same {
            self.differ = self.differ.wrapping_add(1);
        }
    }
}

/// The next answer near two vehicles, which both ways of asking have to give.
fn ask_both<R: Abort + AllocGlobal>(
    rt: &R,
    setup: &Setup,
    view: &View,
    near: (u32, u32),
    tally: &mut Tally,
) -> Option<(Move, u64)>
    requires view { IsViewOf (setting setup.now) view.now }
    requires v { (1 ≤ near.0) × (near.0 ≤ (setting setup.now).vehicles) }
    requires w { (1 ≤ near.1) × (near.1 ≤ (setting setup.now).vehicles) }
{
    let (v, w) = near;
    let found = best_move(rt.alloc(), view, setup, v, w, &tally.skip).expect(rt, "memory");
    let again = tally.searcher.best_move(view, setup, v, w, &tally.skip);
    tally.count(found == again.expect(rt, "memory"));
    found
}

/// Compares the next answer near two vehicles, and has the move skipped that it names: whether there is one.
fn compare_answer<R: Abort + AllocGlobal>(
    rt: &R,
    setup: &Setup,
    plan: &Plan,
    view: &View,
    near: (u32, u32),
    tally: &mut Tally,
) -> bool
    requires view { IsViewOf (setting setup.now) view.now }
    requires v { (1 ≤ near.0) × (near.0 ≤ (setting setup.now).vehicles) }
    requires w { (1 ≤ near.1) × (near.1 ≤ (setting setup.now).vehicles) }
{
    let found = ask_both(rt, setup, view, near, tally);
    let wanted = plain_best(rt, setup, plan, view, near, &tally.skip);
    tally.count(found == wanted);
    tally.answers = tally.answers.wrapping_add(1);
    match found {
        None => false,
        Some((mv, _)) => {
            tally.moves = tally.moves.wrapping_add(1);
            tally.skip.push(mv).expect(rt, "memory");
            true
        }
    }
}

/// Compares the first answers near two vehicles, each move skipped once it was the answer.
fn compare_near<R: Abort + AllocGlobal>(
    rt: &R,
    setup: &Setup,
    plan: &Plan,
    view: &View,
    near: (u32, u32),
    tally: &mut Tally,
)
    requires view { IsViewOf (setting setup.now) view.now }
    requires v { (1 ≤ near.0) × (near.0 ≤ (setting setup.now).vehicles) }
    requires w { (1 ≤ near.1) × (near.1 ≤ (setting setup.now).vehicles) }
{
    tally.skip.clear();
    for _ in 0..4 {
        if !compare_answer(rt, setup, plan, view, near, tally) {
            return;
        }
    }
}

/// Compares the answers near all vehicles of a view of three.
fn compare_pairs<R: Abort + AllocGlobal>(
    rt: &R,
    setup: &Setup,
    plan: &Plan,
    view: &View,
    tally: &mut Tally,
)
    requires view { IsViewOf (setting setup.now) view.now }
    requires vehicles { (setting setup.now).vehicles ≡ 3 }
{
    for v in 1..4u32 {
        for w in 1..4u32 {
            compare_near(rt, setup, plan, view, (v, w), tally);
        }
    }
}

/// Compares the answers near all vehicles of a random view of three vehicles.
fn compare_view<R: Abort + AllocGlobal>(
    rt: &R,
    alloc: Global,
    setup: &Setup,
    customers: u32,
    rng: &mut Lcg64Xsh32,
    tally: &mut Tally,
)
    requires some { (1 ≤ customers) × (customers ≤ MOST_CUSTOMERS) }
    requires customers { (setting setup.now).customers ≡ customers }
    requires vehicles { (setting setup.now).vehicles ≡ 3 }
{
    let plan = some_plan(rt, alloc, setup, customers, rng);
    let view = some_view(rt, alloc, &plan, rng);
    if is_view(setup, &plan, &view) {
        compare_pairs(rt, setup, &plan, &view, tally);
    }
}

/// Random answers for the ways between some nodes, which are not the same both ways.
fn some_answers(rt: &impl Abort, alloc: Global, nodes: u32, rng: &mut Lcg64Xsh32) -> Vec<u32>
    requires { nodes ≤ 1001 }
    ensures sized { length result.items ≡ nodes * nodes }
    ensures limited { All (λ x. x ≤ LARGEST_ANSWER) result.items }
{
    let mut answers = Vec::new(alloc);
    for _cell in 0..nodes * nodes {
        answers.push(below(rng, 101)).expect(rt, "memory");
    }
    answers
}

/// Registers such answers as the costs of ways.
fn listed_costs(
    rt: &impl Abort,
    alloc: Global,
    registry: &mut Registry,
    nodes: u32,
    rng: &mut Lcg64Xsh32,
) -> TransitId
    requires { nodes ≤ 1001 }
{
    let answers = some_answers(rt, alloc, nodes, rng);
    let answers = Arc::new(alloc, answers).expect(rt, "memory");
    let ways = Matrix::new(nodes, answers);
    registry.register_matrix(ways).expect(rt, "room")
}

/// A setup of a sample by the costs of ways, the times of drives and the demands.
fn some_setup(
    rt: &impl Abort,
    alloc: Global,
    sample: Sample,
    callbacks: (Transit, Transit, Unary),
    rng: &mut Lcg64Xsh32,
) -> Setup
    requires { (1 ≤ sample.rooms) × (sample.rooms ≤ 140) }
    ensures customers { (setting result).customers ≡ 7 * sample.rooms }
    ensures vehicles { (setting result).vehicles ≡ 3 }
{
    let rooms = sample.rooms;
    let (ways, drives, wants) = callbacks;
    let mut registry = Registry::new(alloc);
    let cost = if sample.listed {
        listed_costs(rt, alloc, &mut registry, 7 * rooms + 1, rng)
    } else {
        registry.register(ways).expect(rt, "room")
    };
    let time = registry.register(drives).expect(rt, "room");
    let load = registry.register_unary(wants).expect(rt, "room");
    let dimensions = some_dimensions(rt, alloc, &registry, (load, time), rooms, rng);
    let setup = Setup::new(7 * rooms, 3, registry, dimensions, cost, 9).expect(rt, "setup");
    setup
}

/// Compares the answers on some views of a setup.
fn compare_views<R: Abort + AllocGlobal>(
    rt: &R,
    alloc: Global,
    setup: &Setup,
    sample: Sample,
    rng: &mut Lcg64Xsh32,
    tally: &mut Tally,
)
    requires rooms { (1 ≤ sample.rooms) × (sample.rooms ≤ 140) }
    requires customers { (setting setup.now).customers ≡ 7 * sample.rooms }
    requires vehicles { (setting setup.now).vehicles ≡ 3 }
{
    let customers = 7 * sample.rooms;
    for _ in 0..sample.views {
        compare_view(rt, alloc, setup, customers, rng, tally);
    }
}

/// Compares the answers on some views of a random setup, whose callbacks are not the same both ways.
fn compare_setup<R: Abort + AllocGlobal>(
    rt: &R,
    alloc: Global,
    sample: Sample,
    rng: &mut Lcg64Xsh32,
    tally: &mut Tally,
)
    requires { (1 ≤ sample.rooms) × (sample.rooms ≤ 140) }
{
    let nodes = 7 * sample.rooms + 1;
    let (first, second, third) = (below(rng, 1000), below(rng, 1000), below(rng, 1000));
    let cost = Box::new(
        alloc,
        move |i: u32, j: u32| -> u64
            ensures { result ≡ (31 * i + 17 * j + first % 1000) % 101 }
        { (31 * u64::from(i) + 17 * u64::from(j) + u64::from(first % 1000)) % 101 },
    );
    let ways = Transit::new(nodes, cost.expect(rt, "memory"));
    let time = Box::new(
        alloc,
        move |i: u32, j: u32| -> u64
            ensures { result ≡ (19 * i + 43 * j + second % 1000) % 101 }
        { (19 * u64::from(i) + 43 * u64::from(j) + u64::from(second % 1000)) % 101 },
    );
    let drives = Transit::new(nodes, time.expect(rt, "memory"));
    let load = Box::new(
        alloc,
        move |i: u32| -> u64
            ensures { result ≡ (3 * i + third % 1000) % 5 }
        { (3 * u64::from(i) + u64::from(third % 1000)) % 5 },
    );
    let wants = Unary::new(nodes, load.expect(rt, "memory"));
    let setup = some_setup(rt, alloc, sample, (ways, drives, wants), rng);
    compare_views(rt, alloc, &setup, sample, rng, tally);
}

/// Compares the answers on some views of each of some random setups: so many are compared, so many of them name a move, and so many differ.
fn compare_setups<R: Abort + AllocGlobal>(
    rt: &R,
    seed: u64,
    setups: u32,
    sample: Sample,
    wanted: (u32, u32, u32),
)
    requires { (1 ≤ sample.rooms) × (sample.rooms ≤ 140) }
{
    let alloc = rt.alloc();
    let mut rng = Lcg64Xsh32::new(seed, 11);
    let mut tally = Tally {
        searcher: Searcher::new(alloc),
        skip: Vec::new(alloc),
        answers: 0,
        moves: 0,
        differ: 0,
    };
    for _ in 0..setups {
        compare_setup(rt, alloc, sample, &mut rng, &mut tally);
    }
    assert_eq!(rt; (tally.answers, tally.moves, tally.differ), wanted);
}

/// On random views the answers are those of a plain search that builds each move and judges the whole plan after it.
#[test]
fn answers_as_a_plain_search(rt: HostRuntime) {
    let sample = Sample {
        rooms: 1,
        views: 4,
        listed: false,
    };
    compare_setups(&rt, 2026, 80, sample, (4863, 2370, 0));
}

/// The same on routes so long that a row of candidates is gone through twice.
#[test]
fn answers_on_long_routes(rt: HostRuntime) {
    let sample = Sample {
        rooms: 6,
        views: 1,
        listed: false,
    };
    compare_setups(&rt, 2027, 1, sample, (24, 18, 0));
}

/// The same where the costs of ways are read from a list.
#[test]
fn answers_by_listed_costs(rt: HostRuntime) {
    let sample = Sample {
        rooms: 1,
        views: 4,
        listed: true,
    };
    compare_setups(&rt, 2028, 6, sample, (410, 241, 0));
}
