//! Boards that are called directly.
use crate::comparing::{all_written, same};
use crate::scripts::{answers, cut, event_of, next_turn};
use crate::setups::{Bounds, Sizes, board_of};
use board_core::{AskFault, Board, Delta, Fault, Reply, Review};
use callback_store::Meter;
use dimension_core::Range;
use plan_core::Route;
use range_cache::JudgeFault;
use rbac_core::{Object, Operation};
use std::alloc::Global;
use std::process::Abort;
use std::sync::Arc;

// ---- what calls make different

/// Gives a call as the first event of desk 1, and compares what comes of it, and how many events there are.
fn take_first(
    rt: &impl Abort,
    alloc: Global,
    board: &mut Board,
    line: &str,
    wanted: Result<Reply, Fault>,
) {
    let event = event_of(alloc, 1, line).expect(rt, "a call");
    let found = board.apply(event, &mut Meter::new());
    same(rt, (found, board.events()), (wanted, 1), line);
}

/// What a call makes different, which is then put in place.
fn difference(alloc: Global, board: &mut Board, line: &str) -> Option<Delta> {
    let event = event_of(alloc, next_turn(board), line)?;
    let Ok(prepared) = board.prepare(event, &mut Meter::new()) else {
        return None;
    };
    let delta = prepared.delta();
    board.settle(prepared);
    delta.ok()
}

fn text_of(alloc: Global, delta: &Delta) -> Option<String> {
    format!(in alloc;
        "{:?} {:?} {:?} {}",
        delta.places(),
        delta.pins(),
        delta.frozen(),
        delta.version()
    )
    .ok()
}

/// Makes the call of a row, and compares what it makes different.
fn compare_difference(rt: &impl Abort, alloc: Global, board: &mut Board, row: &str) {
    let (line, wanted) = cut(row);
    let delta = difference(alloc, board, line).expect(rt, "a judged call");
    let found = text_of(alloc, &delta).expect(rt, "memory");
    same(rt, found.as_str(), wanted, line);
}

/// The places of customers, the pins and the frozen lengths that a call makes different, and the version after it.
const DIFFERENCES: &str = "\
1 grant root move customer 1 5 => [] [] [] 0\n\
1 grant root pin customer 1 5 => [] [] [] 0\n\
1 grant root override customer 1 5 => [] [] [] 0\n\
1 grant root freeze vehicle 1 2 => [] [] [] 0\n\
1 insert 1 1 1 0 => [(1, Some((1, 1)))] [] [] 1\n\
1 insert 2 1 1 1 => [(2, Some((1, 1))), (1, Some((1, 2)))] [] [] 2\n\
1 insert 3 1 3 2 => [(3, Some((1, 3)))] [] [] 3\n\
1 insert 4 2 1 3 => [(4, Some((2, 1)))] [] [] 4\n\
1 insert 5 2 2 4 => [(5, Some((2, 2)))] [] [] 5\n\
1 insert 5 2 2 5 => [] [] [] 5\n\
1 cross 1 1 2 0 5 => [(4, Some((1, 2))), (5, Some((1, 3))), (1, Some((2, 1))), (3, Some((2, 2)))] [] [] 6\n\
1 swap 1 1 2 2 6 => [(3, Some((1, 1))), (2, Some((2, 2)))] [] [] 7\n\
1 remove 1 1 7 => [(4, Some((1, 1))), (5, Some((1, 2))), (3, None)] [] [] 8\n\
1 pin 4 => [] [(4, Some(1))] [] 8\n\
1 pin 4 => [] [] [] 8\n\
1 freeze 1 1 => [] [] [(1, 1)] 8\n\
1 thaw 1 0 => [] [] [(1, 0)] 8\n\
1 shift 1 1 1 2 1 8 => [(5, Some((1, 1))), (4, Some((2, 1))), (1, Some((2, 2))), (2, Some((2, 3)))] [(4, None)] [] 9\n\
1 pin 5 => [] [(5, Some(1))] [] 9\n\
1 unpin 5 => [] [(5, None)] [] 9\n\
1 reverse 2 1 3 9 => [(2, Some((2, 1))), (4, Some((2, 3)))] [] [] 10\n\
1 shift 2 1 1 2 3 10 => [(1, Some((2, 1))), (4, Some((2, 2))), (2, Some((2, 3)))] [] [] 11\n\
1 pin 5 => [] [(5, Some(1))] [] 11\n\
1 freeze 2 2 => [] [] [(2, 2)] 11";

/// What the board says of its sizes, its turns and its versions after those.
fn compare_numbers(rt: &impl Abort, board: &Board) {
    let desks = board.desks();
    if desks != 2 {
        return same(rt, desks, 2, "desks");
    }
    let turns = (board.turns(1), board.turns(2), board.events());
    let versions = (board.version(), board.plan().version());
    let found = (turns, versions);
    same(rt, found, ((25, 0, 25), (11, 11)), "turns and versions");
}

/// What it says of places, pins and fronts, and its routes.
fn compare_plan(rt: &impl Abort, board: &Board) {
    let setup = board.setup();
    let sizes = (setup.customers(), setup.vehicles());
    if sizes.0 != 5 || sizes.1 != 2 {
        return same(rt, sizes, (5, 2), "sizes");
    }
    let places = (board.place_of(3), board.place_of(4));
    let pins = (board.pinned(4), board.pinned(5));
    let fronts = (board.frozen(1), board.frozen(2));
    let found = (places, pins, fronts);
    let wanted = ((None, Some((2, 2))), (None, Some(1)), (0, 2));
    same(rt, found, wanted, "places, pins and fronts");
}

fn compare_routes(rt: &impl Abort, board: &Board) {
    let vehicles = board.setup().vehicles();
    if vehicles != 2 {
        return same(rt, vehicles, 2, "vehicles");
    }
    let routes = [
        board.route(1).customers(),
        board.route(2).customers(),
        board.plan().route(2).customers(),
    ];
    let wanted = [[5].as_slice(), &[1, 4, 2], &[1, 4, 2]];
    same(rt, routes, wanted, "routes");
}

/// What the board answers after those and one more grant: the session of `root` may freeze a vehicle and view nothing, and audits all
/// entries.
fn compare_questions(rt: &impl Abort, board: &Board) {
    let vehicle = Object::Vehicle(2);
    let checks = (
        board.check(1, Operation::Freeze, vehicle),
        board.check(1, Operation::View, vehicle),
    );
    same(rt, checks, (true, false), "checks");
    let entries = board.audit(1).map(|entries| entries.len());
    same(rt, entries, Ok(26), "entries");
    let entries = board.audit(2).map(|entries| entries.len());
    same(rt, entries, Err(AskFault::NoSession), "entries");
}

/// How long a list is.
fn length_of<T: Drop>(list: Result<Vec<T>, AskFault>) -> Result<usize, AskFault> {
    Ok(list?.len())
}

/// What the board lists and reviews after those.
fn compare_lists(rt: &impl Abort, board: &Board) {
    same(rt, length_of(board.list(1)), Ok(0), "rows");
    let names = length_of(board.review(1, Review::Active(1)));
    same(rt, names, Ok(1), "names");
    let names = length_of(board.review(1, Review::Active(2)));
    same(rt, names, Err(AskFault::NotThere), "names");
}

type Routes = Vec<(u32, Arc<Route>)>;

/// The new routes of a judged call.
fn new_routes(alloc: Global, board: &mut Board, line: &str) -> Option<Routes> {
    let event = event_of(alloc, next_turn(board), line)?;
    let Ok(prepared) = board.prepare(event, &mut Meter::new()) else {
        return None;
    };
    prepared.new_routes().ok()
}

/// The first of them.
fn first(routes: &[(u32, Arc<Route>)]) -> Option<(u32, &[u32])> {
    let (vehicle, route) = routes.first()?;
    Some((*vehicle, route.customers()))
}

/// Compares the new routes of a judged call, which is one for one vehicle, or none.
fn compare_new_routes(
    rt: &impl Abort,
    alloc: Global,
    board: &mut Board,
    line: &str,
    wanted: Option<(u32, &[u32])>,
) {
    let routes = new_routes(alloc, board, line).expect(rt, "a judged call");
    same(rt, first(&routes), wanted, line);
}

/// How many permissions a call looks up, vehicles before the session, up to the first that fails.
const PROBES: &str = "\
1 revoke root move customer 4 4 => 1\n\
1 reverse 2 1 3 11 => 3\n\
1 cross 1 0 2 0 11 => 5\n\
9 swap 1 1 2 1 11 => 1\n\
1 revoke root move vehicle 2 2 => 1\n\
1 swap 1 1 2 1 11 => 2\n\
1 insert 3 2 1 11 => 1\n\
1 insert 3 1 1 11 => 2";

/// How many permissions the call of a line looks up.
fn probes_of(alloc: Global, board: &mut Board, line: &str) -> Option<u64> {
    let event = event_of(alloc, next_turn(board), line)?;
    let mut meter = Meter::new();
    let is_taken = board.apply(event, &mut meter).is_ok();
    if is_taken { Some(meter.probes) } else { None }
}

fn compare_probes(rt: &impl Abort, alloc: Global, board: &mut Board, row: &str) {
    let (line, wanted) = cut(row);
    let wanted = wanted.parse::<u64>().expect(rt, "a number");
    same(rt, probes_of(alloc, board, line), Some(wanted), line);
}

/// Five customers, two vehicles and two desks without bounds.
const FREE: Sizes = Sizes {
    customers: 5,
    vehicles: 2,
    max_events: 100,
};

/// An event is taken once: with the same tag it is out of turn, and is not journaled.
fn compare_all(rt: &impl Abort, alloc: Global, board: &mut Board) {
    let moves = "1 grant root move vehicle 1 2";
    take_first(rt, alloc, board, moves, Ok(Reply::Done));
    take_first(rt, alloc, board, moves, Err(Fault::OutOfTurn));
    for row in DIFFERENCES.split('\n') {
        compare_difference(rt, alloc, board, row);
    }
    compare_numbers(rt, board);
    compare_plan(rt, board);
    compare_routes(rt, board);
    let grant = "1 grant root audit board => done";
    answers(rt, alloc, board, &mut Meter::new(), grant);
    compare_questions(rt, board);
    compare_lists(rt, board);
    let insert = Some((1, [3, 5].as_slice()));
    compare_new_routes(rt, alloc, board, "1 insert 3 1 1 11", insert);
    compare_new_routes(rt, alloc, board, "1 insert 3 1 1 0", None);
    for row in PROBES.split('\n') {
        compare_probes(rt, alloc, board, row);
    }
}

#[test]
fn what_calls_make_different(rt: HostRuntime) {
    let board = board_of(rt.alloc(), FREE, &[1, 1, 1, 1, 1, 1], None);
    let mut board = board.expect(&rt, "a board");
    compare_all(&rt, rt.alloc(), &mut board);
}

// ---- a start that is not fixed

/// One customer and one vehicle.
const ONE: Sizes = Sizes {
    customers: 1,
    vehicles: 1,
    max_events: 10,
};

const COMMITTED: &str = "\
1 grant root move vehicle 1 1 => done\n\
1 grant root move customer 1 1 => done\n\
1 insert 1 1 1 0 => committed 1";

const DENIED: &str = "\
1 grant root move vehicle 1 1 => done\n\
1 grant root move customer 1 1 => done\n\
1 insert 1 1 1 0 => denied bound 1 1";

/// Whether the start is fixed, the customer's range, and what comes of its insert.
const RANGES: &[(bool, Range, &str)] = &[
    (false, Range { lo: 50, hi: 60 }, COMMITTED),
    (true, Range { lo: 50, hi: 60 }, DENIED),
    (false, Range { lo: 5, hi: 9 }, DENIED),
];

/// No slack, capacity 1,000 and the depot's range 0 to 100. Each transit is 10: the range 50 to 60 is met where the start is free alone, and
/// 5 to 9 never.
#[test]
fn the_earliest_cumul_alone_does_not_decide(rt: HostRuntime) {
    for (fixed, range, script) in RANGES {
        let bounds = Bounds {
            slack_max: 0,
            caps: &[1000],
            fixed: *fixed,
            ranges: &[Range { lo: 0, hi: 100 }, *range],
        };
        let board = board_of(rt.alloc(), ONE, &[10, 10], Some(bounds));
        let mut board = board.expect(&rt, "a board");
        answers(&rt, rt.alloc(), &mut board, &mut Meter::new(), script);
    }
}

// ---- faults in words

const JUDGE_FAULTS: &[(JudgeFault, &str)] = &[
    (
        JudgeFault::Bound(3, 2),
        "the route of vehicle 3 is out of bounds in dimension 2",
    ),
    (JudgeFault::NoMemory, "out of memory"),
];

#[test]
fn faults_of_a_judgement(rt: HostRuntime) {
    all_written(&rt, rt.alloc(), JUDGE_FAULTS);
}
