//! A desk that pins, freezes, revokes and removes while workers search.
ghost use Rattle.std.specs.Prelude.{◌≡◌};
ghost use Rattle.dimension_core.specs.Setup.{setting};

use crate::beside::Task;
use board_lock::{Naming, Seat};
use board_rules::{Call, Fault, Reply};
use dimension_core::Setup;
use move_core::Move;
use rbac_core::{Command, ObjectRange, Operation};
use separation_core::Name;
use std::sync::{Arc, Wait};

/// How many customers and vehicles there are.
pub(crate) const CUSTOMERS: u32 = 200;

pub(crate) const VEHICLES: u32 = 10;

/// A permission for role `worker`, or no more.
fn permission(role: Name, granted: bool, range: ObjectRange) -> Call {
    let operation = Operation::Move;
    let command = if granted {
        Command::GrantPermission {
            role,
            operation,
            range,
        }
    } else {
        Command::RevokePermission {
            role,
            operation,
            range,
        }
    };
    Call::Policy {
        session: 1,
        command,
    }
}

/// What is done in a turn, of eight in a row.
fn call_of(role: Name, turn: u32, version: u32, lost: u32) -> Call {
    let customer = turn.wrapping_mul(37) % CUSTOMERS + 1;
    let vehicle = turn.wrapping_mul(7) % VEHICLES + 1;
    match turn % 8 {
        0 => Call::Pin {
            session: 1,
            customer,
        },
        1 => Call::Freeze {
            session: 1,
            vehicle,
            length: 2,
        },
        2 => permission(
            role,
            false,
            ObjectRange::Customers {
                first: customer,
                last: customer,
            },
        ),
        3 => propose(version, Move::Remove { vehicle, place: 3 }),
        4 => Call::Unpin {
            session: 1,
            customer: turn.wrapping_sub(4).wrapping_mul(37) % CUSTOMERS + 1,
        },
        5 => Call::Thaw {
            session: 1,
            vehicle: turn.wrapping_sub(4).wrapping_mul(7) % VEHICLES + 1,
            length: 0,
        },
        6 => permission(
            role,
            true,
            ObjectRange::Customers {
                first: 1,
                last: CUSTOMERS,
            },
        ),
        _ => propose(
            version,
            Move::Insert {
                customer: lost,
                vehicle,
                place: 1,
            },
        ),
    }
}

fn propose(base: u32, mv: Move) -> Call {
    Call::Propose {
        session: 1,
        base,
        mv,
    }
}

/// The version of the plan, and the third customer of the vehicle of a turn.
fn looked<N: Naming, R: Wait + Drop>(seat: &mut Seat<N, R>, turn: u32) -> Option<(u32, u32)> {
    seat.refresh().ok()?;
    let view = seat.view()?;
    let vehicle = turn.wrapping_mul(7) % VEHICLES;
    let route = view.routes.get(vehicle as usize)?;
    let third = route.customers().get(2).copied().unwrap_or(0);
    Some((view.version, third))
}

/// One commit or none, and one fault or none.
fn ended(answer: &Result<Reply, Fault>) -> (u32, u32) {
    match answer {
        Ok(Reply::Committed(_)) => (1, 0),
        Ok(_) => (0, 0),
        Err(_) => (0, 1),
    }
}

/// The customer that was taken out last.
fn lost_now(turn: u32, commit: u32, third: u32, lost: u32) -> u32 {
    if commit == 1 && turn % 8 == 3 {
        third
    } else {
        lost
    }
}

/// So many turns. It gives the seat back with the number of those that were committed, and of those that met a fault.
#[derive(Drop)]
pub(crate) struct Busy {
    pub role: Name,
    pub turns: u32,
}

impl<N: Naming, R: Wait + Drop, W: Wait> Task<W, Arc<Setup>, Seat<N, R>, (Seat<N, R>, (u32, u32))>
    for Busy {
    ghost use Rattle.dimension_core.specs.Setup.{setting};

    ghost may = { λ setup seat. setting setup.value ≡ N.opening.setting };

    fn run(self, rt: &W, first: Arc<Setup>, second: Seat<N, R>) -> (Seat<N, R>, (u32, u32)) {
        let mut seat = second;
        let mut lost = 1u32;
        let mut committed = 0u32;
        let mut faults = 0u32;
        for turn in 0..self.turns {
            let (version, third) = looked(&mut seat, turn).unwrap_or((0, 0));
            let call = call_of(self.role, turn, version, lost);
            let answer = seat.submit(rt, &first, call);
            let (commit, fault) = ended(&answer);
            committed = committed.wrapping_add(commit);
            faults = faults.wrapping_add(fault);
            lost = lost_now(turn, commit, third, lost);
        }
        (seat, (committed, faults))
    }
}
