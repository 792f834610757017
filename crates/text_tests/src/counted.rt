//! A board of four customers and two vehicles over callbacks that count how often they are called.
ghost use Rattle.std.specs.Prelude.{◌≡◌, ◌+◌, ◌*◌, ◌<◌, slice_index, length};

use crate::comparing::same;
use crate::scripts::answers;
use crate::setups::{Bounds, dimension_of};
use board_core::Board;
use callback_store::{Meter, Registry, Transit, TransitId, Unary};
use dimension_core::{Dimension, Range, Setup};
use std::alloc::Global;
use std::process::Abort;
use std::sync::Arc;
use std::sync::atomic::{AtomicU64, Ordering};
use std::test::Fail;

const GRANTS: &str = "\
1 grant root move vehicle 1 2 => done\n\
1 grant root move customer 1 4 => done";

/// Customers 1, 2 and 3 on vehicle 1.
const INSERTS: &str = "\
1 insert 1 1 1 0 => committed 1 => 4\n\
1 insert 2 1 2 1 => committed 2 => 4\n\
1 insert 3 1 3 2 => committed 3 => 4";

/// Customers 1 and 2 on vehicle 1, and customer 4 on vehicle 2.
const ON_BOTH: &str = "\
1 insert 1 1 1 0 => committed 1 => 4\n\
1 insert 2 1 2 1 => committed 2 => 4\n\
1 insert 4 2 1 0 => committed 3 => 4";

const NO_RIGHT: &str = "\
1 insert 1 1 1 0 => denied access vehicle 1 => 0";

/// Without customer 2 the way from 1 to 3 is too long: 28 + 113 is 141, and customer 3 is due at 140. Without customer 1 it is
/// not: 84 + 56 is 140.
const REMOVALS: &str = "\
1 remove 1 2 3 => denied bound 1 2 => 4\n\
1 remove 1 1 3 => committed 4 => 6";

const OLD_BASES: &str = "\
1 insert 4 1 1 0 => denied stale 1 => 0\n\
1 insert 4 2 1 9 => denied ahead => 0\n\
1 insert 4 2 1 0 => committed 4 => 4";

const SHIFTS: &str = "\
1 shift 1 1 1 1 1 3 => denied bad-place\n\
1 shift 1 1 1 1 3 3 => committed 4\n\
1 swap 1 1 1 3 4 => denied bound 1 2\n\
1 reverse 1 1 3 4 => denied bound 1 2\n\
1 shift 1 3 1 2 1 4 => committed 5";

const CROSSES: &str = "\
1 cross 1 2 2 1 3 => denied bad-place\n\
1 cross 1 1 2 0 3 => committed 4";

const FROZEN: &str = "\
1 grant root freeze vehicle 1 2 => done\n\
1 freeze 1 2 => done\n\
1 freeze 1 2 => refused length\n\
1 freeze 1 1 => refused length\n\
1 cross 1 2 2 0 3 => denied bound 1 1\n\
1 reverse 1 1 2 3 => denied frozen 1\n\
1 insert 3 1 2 3 => denied frozen 1\n\
1 insert 3 1 3 3 => committed 4\n\
1 thaw 1 0 => done";

/// What each script is made of.
const SCRIPTS: &[&[&str]] = &[
    &[NO_RIGHT],
    &[GRANTS, INSERTS, REMOVALS],
    &[GRANTS, INSERTS, OLD_BASES],
    &[GRANTS, INSERTS, SHIFTS],
    &[GRANTS, ON_BOTH, CROSSES],
    &[GRANTS, ON_BOTH, FROZEN],
];

/// A board with one desk over a shared setup.
fn opened(alloc: Global, setup: &Arc<Setup>) -> Option<Board> {
    let setup = Arc::try_clone(setup).ok()?;
    Board::new(alloc, setup, 1).ok()
}

/// Applies the calls of a script to a board, and gives how many there are.
fn calls_of(
    rt: &impl Abort,
    alloc: Global,
    board: &mut Board,
    meter: &mut Meter,
    parts: &[&str],
) -> usize {
    for part in parts {
        answers(rt, alloc, board, meter, part);
    }
    board.events()
}

/// Compares how many calls there were, and the meter with how often the closures were called.
fn compare_meter(rt: &impl Abort, meter: Meter, events: usize, calls: u64) {
    let found = (events, meter.asks, meter.walks);
    same(rt, found, (47, calls, 0), "calls, asks and walks");
}

/// The load is at most 10 everywhere, with the start at 0.
const LOADS: Bounds<'static> = Bounds {
    slack_max: 0,
    caps: &[10, 10],
    fixed: true,
    ranges: &[
        Range { lo: 0, hi: 10 },
        Range { lo: 0, hi: 10 },
        Range { lo: 0, hi: 10 },
        Range { lo: 0, hi: 10 },
        Range { lo: 0, hi: 10 },
    ],
};

/// The time has no bounds but the windows.
const TIMES: Bounds<'static> = Bounds {
    slack_max: 1000,
    caps: &[1000, 1000],
    fixed: false,
    ranges: &[
        Range { lo: 0, hi: 1000 },
        Range { lo: 0, hi: 500 },
        Range { lo: 0, hi: 500 },
        Range { lo: 0, hi: 140 },
        Range { lo: 0, hi: 500 },
    ],
};

fn load_and_time(
    alloc: Global,
    registry: &Registry,
    load: TransitId,
    time: TransitId,
) -> Option<Vec<Dimension>> {
    let loads = dimension_of(alloc, registry, load, LOADS)?;
    let times = dimension_of(alloc, registry, time, TIMES)?;
    vec![in alloc; loads, times].ok()
}

/// Four customers and two vehicles, with these demands and travels, of which the travel is the cost.
fn bounded(alloc: Global, demand: Unary, travel: Transit) -> Option<Arc<Setup>> {
    let mut registry = Registry::new(alloc);
    let Ok(load) = registry.register_unary(demand) else {
        return None;
    };
    let Ok(time) = registry.register(travel) else {
        return None;
    };
    let dimensions = load_and_time(alloc, &registry, load, time)?;
    let Ok(setup) = Setup::new(4, 2, registry, dimensions, time, 100) else {
        return None;
    };
    Arc::new(alloc, setup).ok()
}

/// Customers 1 to 4 with demands 4, 3, 3 and 5 and their travels, over callbacks that count how often they are called. In the end they
/// were called as often as the meter says.
#[test]
fn four_customers(rt: HostRuntime) -> Result<(), Fail> {
    let demands = vec![in rt.alloc(); 0u64, 4, 3, 3, 5]?;
    let travels = vec![in rt.alloc();
        0u64, 28, 84, 141, 50, 28, 0, 56, 113, 22, 84, 56, 0, 56, 36, 141, 113, 56, 0, 92, 50, 22,
        36, 92, 0,
    ]?;
    let calls = Arc::new(rt.alloc(), AtomicU64::new(0))?;
    let of_demands = Arc::try_clone(&calls)?;
    let of_travels = Arc::try_clone(&calls)?;
    let demand = Box::new(
        rt.alloc(),
        move |i: u32| -> u64
            requires { i < length demands.items }
            ensures { result ≡ slice_index demands.items i }
        {
            of_demands.fetch_add(1, Ordering::SeqCst);
            demands[i as usize]
        },
    )?;
    let travel = Box::new(
        rt.alloc(),
        move |i: u32, j: u32| -> u64
            requires { i * 5 + j < length travels.items }
            ensures { result ≡ slice_index travels.items (i * 5 + j) }
        {
            of_travels.fetch_add(1, Ordering::SeqCst);
            travels[i as usize * 5 + j as usize]
        },
    )?;
    let demand = Unary::new(5, demand);
    let travel = Transit::new(5, travel);
    let setup = bounded(rt.alloc(), demand, travel).ok_or("a setup")?;
    let mut meter = Meter::new();
    let mut events = 0usize;
    for parts in SCRIPTS {
        let mut board = opened(rt.alloc(), &setup).expect(&rt, "memory");
        let more = calls_of(&rt, rt.alloc(), &mut board, &mut meter, parts);
        events = events.wrapping_add(more);
    }
    compare_meter(&rt, meter, events, calls.load(Ordering::SeqCst));
    Ok(())
}
