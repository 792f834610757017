//! How the desks are handed out.
ghost use Rattle.std.specs.Prelude.{◌≡◌, ◌≤◌, IfOk, map};
ghost use Rattle.board_lock.specs.Watches.{watches, watch_at};
ghost use Rattle.board_lock.specs.Readies.{watch_of};

use crate::held::Held;
use crate::locked::Locked;
use crate::ready::Ready;
use crate::room::{Anteroom, OpenFault};
use crate::seat::{Seat, SeatOf};
use published_board::Naming;
use std::alloc::Global;
use std::sync::{Arc, Mutex, Wait};

/// What a desk begins with.
fn ready_one<N: Naming, R: Wait + Drop>(
    locked: &mut Locked<N, R>,
    number: u32,
) -> Result<Ready<N>, OpenFault>
    requires low { 1 ≤ number }
    requires high { number ≤ N.opening.desks }
    ensures same { locked.new ≡ locked.old }
    ensures ready { IfOk result (λ r. watch_of r ≡ watch_at locked.old.journal number) }
{
    let own = locked.turns(number);
    match locked.eye() {
        Ok(eye) => Ok(Ready { eye, number, own }),
        Err(_) => Err(OpenFault::Readers),
    }
}

/// What each desk begins with, in their order.
fn ready_all<N: Naming, R: Wait + Drop>(
    alloc: Global,
    locked: &mut Locked<N, R>,
) -> Result<Vec<Ready<N>>, OpenFault>
    ensures { IfOk result (λ v. map watch_of v.items ≡ watches locked.old.journal N.opening.desks) }
{
    let mut readies = Vec::new(alloc);
    for before in 0..locked.desks() {
        let ready = ready_one(locked, before + 1)?;
        let Ok(()) = readies.push(ready) else {
            return Err(OpenFault::NoMemory);
        };
    }
    Ok(readies)
}

/// A seat for each of them.
fn hand_out<N: Naming, R: Wait + Drop>(
    alloc: Global,
    shared: &Arc<Mutex<Held<N, R>>>,
    readies: Vec<Ready<N>>,
) -> Result<Vec<Seat<N, R>>, OpenFault>
    ensures { IfOk result (λ v. v.items ≡ map watch_of readies.items) }
{
    let mut seats = Vec::new(alloc);
    for ready in readies {
        let Ready { eye, number, own } = ready;
        let Ok(mine) = Arc::try_clone(shared) else {
            return Err(OpenFault::NoMemory);
        };
        let seat = SeatOf::open(mine, eye, number, own, alloc);
        if seats.push(seat).is_err() {
            return Err(OpenFault::NoMemory);
        }
    }
    Ok(seats)
}

/// One seat for each desk of the board, in their order: the desks of `open_hall` without their setup, for a caller that keeps that apart.
pub fn open_seats<N: Naming, R: Wait + Drop>(
    alloc: Global,
    room: Anteroom<R>,
) -> Result<Vec<Seat<N, R>>, OpenFault>
    requires opening { room.opening ≡ N.opening }
    requires book { room.book ≡ N.book }
    ensures { IfOk result (λ v. v.items ≡ watches room.entries N.opening.desks) }
{
    let mut locked = room.named::<N>();
    let readies = ready_all(alloc, &mut locked)?;
    let Ok(shared) = Arc::new(alloc, Mutex::new(Held::over(locked))) else {
        return Err(OpenFault::NoMemory);
    };
    hand_out(alloc, &shared, readies)
}
