//! The two dimensions of the program: load and time.

ghost use Rattle.std.specs.Prelude.{◌≡◌, ◌∷◌, [], map, IfOk, IfErr};
ghost use Rattle.program_parts.specs.Pair.{window_of, load_bounds, time_bounds};

use crate::network::Network;
use crate::stop::Stop;
use callback_store::{Registry, TransitId};
use dimension_core::{Dimension, Range};
use solomon_reader::Node;
use std::alloc::{AllocError, Global};

/// Tenths in a unit of the file.
const TENTHS: u64 = 10;

/// The time window of a node, in tenths.
fn window(node: &Node) -> Range
    ensures { result ≡ window_of node.now }
{
    Range {
        lo: u64::from(node.ready) * TENTHS,
        hi: u64::from(node.due) * TENTHS,
    }
}

/// The time windows of the nodes, in order.
fn windows(alloc: Global, nodes: &[Node]) -> Result<Vec<Range>, AllocError>
    ensures { IfOk result (λ ranges. ranges.items ≡ map window_of nodes.now) }
{
    nodes.iter().map(|node| window(node)).collect(alloc)
}

/// The load: no slack, the vehicle's capacity, empty at the start, and any load up to the capacity at each node.
fn load(
    alloc: Global,
    registry: &Registry,
    network: &Network,
    demand: TransitId,
) -> Result<Dimension, Stop>
    ensures ok { IfOk result (λ d. d ≡ load_bounds network.now demand) }
    ensures err { IfErr result (λ stop. stop ≡ Stop.Open) }
{
    let capacity = network.capacity();
    let caps = vec![in alloc; capacity; network.vehicles() as usize]?;
    let any = Range {
        lo: 0,
        hi: capacity,
    };
    let ranges = vec![in alloc; any; network.size() as usize]?;
    Ok(Dimension::new(registry, demand, 0, caps, true, ranges)?)
}

/// The time: slack and capacity up to the depot's due date, a free start, and the time windows.
fn time(
    alloc: Global,
    registry: &Registry,
    network: &Network,
    way: TransitId,
) -> Result<Dimension, Stop>
    ensures ok { IfOk result (λ d. d ≡ time_bounds network.now way) }
    ensures err { IfErr result (λ stop. stop ≡ Stop.Open) }
{
    let ranges = windows(alloc, network.nodes())?;
    let horizon = network.horizon();
    let caps = vec![in alloc; horizon; network.vehicles() as usize]?;
    Ok(Dimension::new(registry, way, horizon, caps, false, ranges)?)
}

/// Dimension 1 is the load, over the callback of demands; dimension 2 is the time, over that of service and travel. If memory runs out, or a
/// dimension is refused, the stop is `Open`.
pub fn standard_pair(
    alloc: Global,
    registry: &Registry,
    network: &Network,
    demand: TransitId,
    way: TransitId,
) -> Result<Vec<Dimension>, Stop>
    ensures ok { IfOk result (λ pair. pair.items ≡ load_bounds network.now demand ∷ time_bounds network.now way ∷ []) }
    ensures err { IfErr result (λ stop. stop ≡ Stop.Open) }
{
    let load = load(alloc, registry, network, demand)?;
    let time = time(alloc, registry, network, way)?;
    Ok(vec![in alloc; load, time]?)
}
