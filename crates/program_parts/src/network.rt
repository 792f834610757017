//! What a board's callbacks answer from.

ghost use Rattle.std.specs.Prelude.{◌≡◌, ◌*◌, ◌≤◌, All, IfOk, false, length, map, true};
ghost use Rattle.callback_store.specs.Tables.{matrix_table, node_values, pair_values, stay_table, vector_table};
ghost use Rattle.solomon_reader.specs.Instances.{view, IsNode, IsSound};
ghost use Rattle.travel_table.specs.Travel.{node_at, travel_at};
ghost use Rattle.program_parts.specs.Network.{IsNetwork, demand_at, time_between};

use callback_store::{Matrix, StayMatrix, Vector};
use limits::{LATEST_TIME, MOST_NODES};
use solomon_reader::{Instance, Node};
use std::alloc::{AllocError, Global};
use std::marker::Model;
use travel_table::{Travel, travel_is_symmetric};

/// An instance, and the travel between its nodes. Node 0 is the depot.
pub struct Network {
    instance: Instance,
    travel: Travel,
}

// Written by hand: a derived drop is expanded, down to each list, at every place where a value is dropped.
impl Drop for Network {
    fn drop(self) {
        let Network {
            instance: _,
            travel: _,
        } = self;
    }
}

impl Model for Network {
    ghost use Rattle.program_parts.specs.Network.{Sites, IsNetwork};

    ghost Value = { Sites };

    ghost view = { λ a. record {
      vehicles = a.instance.vehicles;
      capacity = a.instance.capacity;
      nodes = a.instance.nodes.items;
      travel = a.travel;
    } };

    ghost invariant = { λ a. IsNetwork (record
        { vehicles = a.instance.vehicles; capacity = a.instance.capacity; nodes = a.instance.nodes.items; travel = a.travel }) };
}

impl Network {
    /// The network of an instance, whose travel is made here. Memory may run out.
    pub fn new(alloc: Global, instance: Instance) -> Result<Network, AllocError>
        requires { IsSound (view instance) }
        ensures sound { IfOk result IsNetwork }
        ensures nodes { IfOk result (λ network. network.nodes ≡ instance.nodes.items) }
        ensures vehicles { IfOk result (λ network. network.vehicles ≡ instance.vehicles) }
        ensures capacity { IfOk result (λ network. network.capacity ≡ instance.capacity) }
    {
        let travel = Travel::of(alloc, &instance)?;
        Ok(Network { instance, travel })
    }

    /// The nodes, the depot first.
    pub(crate) fn nodes(&self) -> &[Node]
        ensures { result.now ≡ self.now.nodes }
    {
        self.instance.nodes.as_slice()
    }

    /// How many nodes there are, the depot with them.
    pub fn size(&self) -> u32
        ensures value { result ≡ length self.now.nodes }
        ensures low { 2 ≤ result }
        ensures high { result ≤ MOST_NODES }
    {
        self.instance.nodes.len() as u32
    }

    /// How many vehicles there are.
    pub fn vehicles(&self) -> u32
        ensures { result ≡ self.now.vehicles }
    {
        self.instance.vehicles
    }

    /// What a vehicle may carry.
    pub(crate) fn capacity(&self) -> u64
        ensures { result ≡ self.now.capacity }
    {
        u64::from(self.instance.capacity)
    }

    /// The due date of the depot, in tenths.
    pub(crate) fn horizon(&self) -> u64
        ensures value { result ≡ (node_at self.now.nodes 0).due * 10 }
        ensures small { result ≤ LATEST_TIME }
    {
        u64::from(self.instance.nodes[0].due) * 10
    }

    /// The demands of the nodes, as the answers of a callback.
    pub fn demands(&self, alloc: Global) -> Result<Vector, AllocError>
        ensures { IfOk result (λ vector. vector_table vector ≡ record {
          size = length self.now.nodes;
          paired = false;
          entries = node_values (length self.now.nodes) (demand_at self.now);
        }) }
    {
        let nodes = self.instance.nodes.as_slice();
        Ok(Vector::new(demands_of(alloc, nodes)?))
    }

    /// For each way the service at the node that is left and the travel, in tenths, as the answers of a callback. The travel is shared with
    /// the network.
    pub fn times(&self, alloc: Global) -> Result<StayMatrix, AllocError>
        ensures { IfOk result (λ matrix. stay_table matrix ≡ record {
          size = length self.now.nodes;
          paired = true;
          entries = pair_values (length self.now.nodes) (time_between self.now);
        }) }
    {
        let nodes = self.instance.nodes.as_slice();
        let services = services_of(alloc, nodes)?;
        Ok(StayMatrix::new(services, self.travel_matrix()?))
    }

    /// All travel, as the answers of a callback that are the same both ways. They are shared with the network.
    pub fn travel_matrix(&self) -> Result<Matrix, AllocError>
        ensures { IfOk result (λ m. matrix_table m ≡ record {
          size = length self.now.nodes;
          paired = true;
          entries = pair_values
              (length self.now.nodes) (travel_at self.now.travel);
        }) }
    {
        let answers = self.travel.entries()?;
        travel_is_symmetric();
        Ok(Matrix::symmetric(self.size(), answers))
    }
}

/// The demand of each node, as the instance has it.
fn demands_of(alloc: Global, nodes: &[Node]) -> Result<Vec<u32>, AllocError>
    ensures { IfOk result (λ demands. demands.items ≡ map (λ node. node.demand) nodes.now) }
{
    nodes.iter().map(|node| node.demand).collect(alloc)
}

/// The service at each node, in tenths.
fn services_of(alloc: Global, nodes: &[Node]) -> Result<Vec<u32>, AllocError>
    requires { All IsNode nodes.now }
    ensures { IfOk result (λ services. services.items ≡ map (λ node. node.service * 10) nodes.now) }
{
    nodes.iter().map(|node| node.service * 10).collect(alloc)
}
