//! The board that an instance opens.

ghost use Rattle.std.specs.Prelude.{◌≡◌, IfOk, IfErr};
ghost use Rattle.dimension_core.specs.Setup.{setting};
ghost use Rattle.solomon_reader.specs.Instances.{view, IsSound};
ghost use Rattle.program_parts.specs.Standard.{standard_setting};
ghost use Rattle.board_program.specs.Joined.{IsRun, IsUnfinished};

use board_core::Board;
use board_text::{BoardFront, Counts, run_noted_lines};
use callback_store::Registry;
use dimension_core::Setup;
use limits::MOST_PROGRAM_EVENTS;
use program_parts::{Network, Stop, standard_pair};
use solomon_reader::Instance;
use std::alloc::Global;
use std::io::{Read, Write};
use std::sync::Arc;

/// A law: what is known of a setup that was just made. It does nothing.
fn standard_for(setup: &Setup, network: &Network)
    requires { setting setup.now ≡ standard_setting network.now }
    ensures { setting setup.now ≡ standard_setting network.now }
{}

/// Opens the board of an instance, and answers the lines of a script on its desk 1, with notes where there is a stream for them.
///
/// The registry, the setup and the board may hold closures by their types, so no function passes them on: this one makes and drops them.
pub(crate) fn run_board<I: Read, W: Write, E: Write>(
    alloc: Global,
    instance: Instance,
    script: &mut I,
    writer: &mut W,
    notes: Option<&mut E>,
) -> Result<Counts, Stop>
    requires { IsSound (view instance) }
    ensures ok { IfOk result (λ counts. IsRun (view instance) (I.remaining script.old) (I.remaining script.new)
        (W.contents writer.old) (W.contents writer.new) counts) }
    ensures err { IfErr result (λ stop. IsUnfinished (view instance) (I.remaining script.old) (I.remaining script.new)
        (W.contents writer.old) (W.contents writer.new) stop) }
{
    let network = Network::new(alloc, instance)?;
    let mut registry = Registry::new(alloc);
    let demand = registry.register_vector(network.demands(alloc)?)?;
    let way = registry.register_stays(network.times(alloc)?)?;
    let cost = registry.register_matrix(network.travel_matrix()?)?;
    let pair = standard_pair(alloc, &registry, &network, demand, way)?;
    let setup = Setup::new(
        network.size() - 1,
        network.vehicles(),
        registry,
        pair,
        cost,
        MOST_PROGRAM_EVENTS,
    )?;
    standard_for(&setup, &network);
    let board = Board::new(alloc, Arc::new(alloc, setup)?, 1)?;
    let mut front = BoardFront {
        board,
        desk: 1,
        turn: 1,
    };
    Ok(run_noted_lines(&(), alloc, &mut front, script, writer, notes)?)
}
