//! The board that an instance opens, for a run with workers or a live script.

ghost use Rattle.std.specs.Prelude.{◌≡◌, ◌||◌, nat_lt, Ok, Err, MatchResult};
ghost use Rattle.solomon_reader.specs.Instances.{view, IsSound};
ghost use Rattle.board_core.specs.Boards.{history};
ghost use Rattle.worker_runs.specs.Scripted.{IsOpened, IsRunOf, IsUnrun, flow_of};

use crate::hall_run::hall_run;
use crate::orders::Orders;
use crate::set_up::set_up;
use board_core::Board;
use board_lock::make_foyer;
use board_text::{BoardFront, run_noted_lines};
use callback_store::Registry;
use dimension_core::Setup;
use limits::MOST_PROGRAM_EVENTS;
use program_parts::{Network, Stop, standard_pair};
use solomon_reader::Instance;
use std::io::{Eprint, Read, Write};
use std::marker::Brand;
use std::snapshot::Snapshot;
use std::sync::{Arc, Wait};
use std::thread::Threads;
use std::time::Clock;

/// Whether a line counted as refused, of a script or of what came after it.
fn either(first: u64, hall: Result<u64, Stop>) -> Result<bool, Stop>
    ensures { MatchResult hall (λ n. result ≡ Ok (nat_lt 0 first || nat_lt 0 n)) (λ stop. result ≡ Err stop) }
{
    match hall {
        Ok(second) => Ok(first > 0 || second > 0),
        Err(stop) => Err(stop),
    }
}

/// A board that is to be opened, what its workers are to do, and what all of it runs on.
#[derive(Drop)]
pub(crate) struct Job<W> {
    pub rt: W,
    pub instance: Instance,
    pub orders: Orders,
}

/// A law: what is known of a board that was just opened. It does nothing.
fn opened_for(board: &Board, instance: &Snapshot<Instance>, orders: Orders)
    requires { IsOpened (view instance.now.value) orders (history board.now) }
    ensures { IsOpened (view instance.now.value) orders (history board.now) }
{}

/// Opens the board of an instance, with a desk more than workers, sets the workers up, and answers the lines of a script on its desk 1
/// alone, with notes where there is a stream for them. Then it answers live lines there while the workers search, and writes what their rounds
/// came to. Whether a line counted as refused.
pub(crate) fn run_with<
    W: Threads + Wait + Clock + Eprint + AllocGlobal + Copy + Drop + Send + Sync + 'static,
    I: Read,
    L: Read,
    O: Write,
    E: Write,
>(
    job: Job<W>,
    script: &mut I,
    live: &mut L,
    writer: &mut O,
    notes: Option<&mut E>,
) -> Result<bool, Stop>
    requires { IsSound (view job.instance) }
    ensures { MatchResult result
        (IsRunOf (view job.instance) job.orders (flow_of (I.remaining script.old) (I.remaining script.new) (L.remaining live.old)
        (L.remaining live.new) (O.contents writer.old) (O.contents writer.new)))
        (IsUnrun (view job.instance) job.orders (flow_of (I.remaining script.old) (I.remaining script.new) (L.remaining live.old)
        (L.remaining live.new) (O.contents writer.old) (O.contents writer.new))) }
{
    let Job {
        rt,
        instance,
        orders,
    } = job;
    let alloc = rt.alloc();
    let first = Snapshot::of(&instance);
    let network = Network::new(alloc, instance)?;
    let mut registry = Registry::new(alloc);
    let demand = registry.register_vector(network.demands(alloc)?)?;
    let way = registry.register_stays(network.times(alloc)?)?;
    let cost = registry.register_matrix(network.travel_matrix()?)?;
    let pair = standard_pair(alloc, &registry, &network, demand, way)?;
    let setup = Setup::new(
        network.size() - 1,
        network.vehicles(),
        registry,
        pair,
        cost,
        MOST_PROGRAM_EVENTS,
    )?;
    let setup = Arc::new(alloc, setup)?;
    let lines = setup.clone()?;
    let board = Board::new(alloc, setup, orders.workers + 1)?;
    opened_for(&board, &first, orders);
    let mut front = BoardFront {
        board,
        desk: 1,
        turn: 1,
    };
    let Ok(()) = set_up(&rt, alloc, &mut front, orders) else {
        return Err(Stop::Open);
    };
    let counts = match run_noted_lines(&rt, alloc, &mut front, script, writer, notes) {
        Ok(counts) => counts,
        Err(fault) => return Err(Stop::Run(fault)),
    };
    let BoardFront {
        board,
        desk: _,
        turn: _,
    } = front;
    let Ok(foyer) = make_foyer(rt, alloc, board) else {
        return Err(Stop::Open);
    };
    either(
        counts.refused,
        hall_run::<Brand, Arc<Setup>, W, L, O>(rt, foyer, lines, orders, live, writer),
    )
}
