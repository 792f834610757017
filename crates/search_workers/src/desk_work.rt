//! One worker, in the caller's thread.
ghost use Rattle.std.specs.Prelude.{◌≡◌};
ghost use Rattle.dimension_core.specs.Setup.{setting};
ghost use Rattle.search_workers.specs.Works.{Worked};

use crate::gate::Gate;
use crate::share::Share;
use crate::worker::{Order, Work, Worker, work_at};
use board_lock::{Desk, DeskOf, Naming};
use std::sync::Wait;

/// Background search from a desk: so many rounds, each of which proposes by the session the best move near two vehicles.
///
/// A round draws two vehicles by the next two words of the generator of the seed, `Lcg64Xsh32::seed_from_u64(seed)`. It brings the desk's
/// view up to the published plan, passes `Seen`, and looks for the best move there. If no move counts, the round is idle. Otherwise it
/// passes `Before`, submits the move with the view's version as its base, and passes `After`. A round that meets a fault is refused. A
/// move that was denied, other than by `Stale`, is not proposed again while the version of the view stays the same. After the last round
/// the desk is brought up to the journal. To the gate it is worker 1.
pub fn work<N: Naming, R: Wait + Drop, W: Wait, G: Gate<W>>(
    rt: &W,
    desk: Desk<N, R>,
    session: u32,
    seed: u64,
    rounds: u32,
    gate: &G,
) -> Share<N, R>
    requires { setting desk.setup.value ≡ N.opening.setting }
    ensures worked { Worked N.opening session seed rounds desk.seat result.desk.seat result.tally }
    ensures setup { setting result.desk.setup.value ≡ N.opening.setting }
{
    let DeskOf { setup, seat } = desk;
    let alloc = seat.alloc();
    let order = Order {
        session,
        seed,
        rounds,
    };
    let worker = Worker {
        number: 1,
        seat,
        order,
    };
    let Work { seat, tally } = work_at(rt, alloc, &setup, worker, gate);
    Share {
        desk: DeskOf { setup, seat },
        tally,
    }
}
