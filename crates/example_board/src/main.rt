//! A board over callbacks of its own: two vans, three customers along a road.
#![tactic(auto)]

ghost use Rattle.std.specs.Prelude.{◌≡◌, ◌<◌, ◌+◌, ◌*◌, slice_index, length};

use board_core::Board;
use board_rules::{AskFault, Call, Event, Fault, Reply};
use callback_store::{Meter, RegisterFault, Registry, Transit, Unary};
use dimension_core::{Dimension, DimensionFault, Range, Setup, SetupFault};
use move_core::Move;
use rbac_core::{Command, ObjectRange, Operation};
use separation_core::Name;
use std::alloc::{AllocError, AllocFailed, Global};
use std::io::Write;
use std::sync::Arc;

/// Why there is no outcome.
#[derive(Clone, Copy, Debug, PartialEq, Eq)]
pub enum Stop {
    /// The setup is refused.
    Setup,
    /// A move was denied, or a command was refused.
    Refused,
    /// The board did not take a call.
    Board(Fault),
    /// A question was not answered.
    Asked(AskFault),
    /// Memory ran out.
    NoMemory,
}

impl From<AllocError> for Stop {
    fn from(_e: AllocError) -> Stop {
        Stop::NoMemory
    }
}

impl<T: Drop> From<AllocFailed<T>> for Stop {
    fn from(_e: AllocFailed<T>) -> Stop {
        Stop::NoMemory
    }
}

impl From<RegisterFault> for Stop {
    fn from(_e: RegisterFault) -> Stop {
        Stop::Setup
    }
}

impl From<DimensionFault> for Stop {
    fn from(_e: DimensionFault) -> Stop {
        Stop::Setup
    }
}

impl From<SetupFault> for Stop {
    fn from(_e: SetupFault) -> Stop {
        Stop::Setup
    }
}

impl From<Fault> for Stop {
    fn from(e: Fault) -> Stop {
        Stop::Board(e)
    }
}

impl From<AskFault> for Stop {
    fn from(e: AskFault) -> Stop {
        Stop::Asked(e)
    }
}

/// What was done.
#[derive(Clone, Copy, Debug, PartialEq, Eq)]
pub struct Outcome {
    pub version: u32,
    pub rows: usize,
    pub asks: u64,
}

/// Submits a call as a turn of desk 1. True where it was carried out or committed, false where it was denied or refused.
fn submit(board: &mut Board, turn: u32, call: Call, meter: &mut Meter) -> Result<bool, Fault> {
    let event = Event {
        desk: 1,
        turn,
        call,
    };
    match board.core.apply(&board.setup, event, meter) {
        Ok(Reply::Done | Reply::Session(_) | Reply::Committed(_)) => Ok(true),
        Ok(Reply::Denied(_) | Reply::Refused(_)) => Ok(false),
        Err(fault) => Err(fault),
    }
}

/// Session 1's call that grants an operation to the role `root`.
fn grant(root: Name, operation: Operation, range: ObjectRange) -> Call {
    let command = Command::GrantPermission {
        role: root,
        operation,
        range,
    };
    Call::Policy {
        session: 1,
        command,
    }
}

/// Grants what is needed, plans customer 1 on van 1, and counts the rows of a listing. The turns of a desk count from 1.
fn play(board: &mut Board, root: Name, meter: &mut Meter) -> Result<usize, Stop> {
    let vans = ObjectRange::Vehicles { first: 1, last: 2 };
    let all = ObjectRange::Customers { first: 1, last: 3 };
    let may_move = submit(board, 1, grant(root, Operation::Move, vans), meter)?
        && submit(board, 2, grant(root, Operation::Move, all), meter)?;
    let may_view = submit(board, 3, grant(root, Operation::View, all), meter)?
        && submit(board, 4, grant(root, Operation::View, vans), meter)?;
    let mv = Move::Insert {
        customer: 1,
        vehicle: 1,
        place: 1,
    };
    let call = Call::Propose {
        session: 1,
        base: 0,
        mv,
    };
    if !may_move || !may_view || !submit(board, 5, call, meter)? {
        return Err(Stop::Refused);
    }
    Ok(board.list(1)?.len())
}

/// Opens a board of two vans with room for 7, a depot and three customers along a road.
fn plan(alloc: Global, root: Name) -> Result<Outcome, Stop> {
    // what is loaded at each node, and the distance from each node to each other
    let demand = vec![in alloc; 0u64, 4, 3, 3]?;
    let travel = vec![in alloc;
        0u64, 10, 20, 30, 10, 0, 10, 20, 20, 10, 0, 10, 30, 20, 10, 0,
    ]?;
    let left = Box::new(
        alloc,
        move |i: u32| -> u64
            requires { i < length demand.items }
            ensures { result ≡ slice_index demand.items i }
        { demand[i as usize] },
    )?;
    let road = Box::new(
        alloc,
        move |i: u32, j: u32| -> u64
            requires { i * 4 + j < length travel.items }
            ensures { result ≡ slice_index travel.items (i * 4 + j) }
        { travel[i as usize * 4 + j as usize] },
    )?;
    let demands = Unary::new(4, left);
    let travels = Transit::new(4, road);
    let mut registry = Registry::new(alloc);
    let load = registry.register_unary(demands)?;
    let way = registry.register(travels)?;

    // one dimension: the load, without slack, 0 at the start, at most 7 anywhere
    let any = Range { lo: 0, hi: 7 };
    let caps = vec![in alloc; 7u64; 2]?;
    let ranges = vec![in alloc; any; 4]?;
    let loads = Dimension::new(&registry, load, 0, caps, true, ranges)?;
    let setup = Setup::new(3, 2, registry, vec![in alloc; loads]?, way, 1000)?;

    // a board with one desk
    let mut board = Board::new(alloc, Arc::new(alloc, setup)?, 1)?;
    let mut meter = Meter::new();
    let rows = play(&mut board, root, &mut meter)?;
    Ok(Outcome {
        version: board.version(),
        rows,
        asks: meter.asks,
    })
}

fn main(rt: HostRuntime) {
    let Some(root) = Name::new(b"root") else {
        return;
    };
    let _ = match plan(rt.alloc(), root) {
        Ok(done) => writeln!(
            rt.stdout(),
            "version {}, {} rows, {} asks",
            done.version,
            done.rows,
            done.asks
        ),
        Err(stop) => writeln!(rt.stderr(), "{stop:?}"),
    };
}
