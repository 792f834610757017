//! An instance, and the travel between its nodes.

ghost use Rattle.std.specs.Prelude.{◌≡◌, ◌*◌, ◌<◌, ◌≤◌, length, string_bytes};
ghost use Rattle.solomon_reader.specs.Instances.{view, IsSound};
ghost use Rattle.travel_table.specs.Travel.{IsNear, node_at};
ghost use Rattle.plan_sums.specs.Places.{ArePlaces, time_between, travel_of};

use limits::{LARGEST_FIELD, LONGEST_TRAVEL, MOST_NODES, MOST_VEHICLES};
use solomon_reader::{Instance, Node};
use std::marker::Model;
use travel_table::travel_between;

/// An instance, and the travel between its nodes. Node 0 is the depot. No table of the travel is made, since a view of a plan asks for few
/// pairs.
#[derive(Drop)]
pub struct Roads {
    instance: Instance,
}

impl Model for Roads {
    ghost use Rattle.std.specs.Prelude.{string_bytes};
    ghost use Rattle.plan_sums.specs.Places.{Places, ArePlaces};

    ghost Value = { Places };

    ghost view = { λ a. record {
      name = string_bytes a.instance.name;
      vehicles = a.instance.vehicles;
      capacity = a.instance.capacity;
      nodes = a.instance.nodes.items;
    } };

    ghost invariant = { λ a. ArePlaces (record {
      name = string_bytes a.instance.name;
      vehicles = a.instance.vehicles;
      capacity = a.instance.capacity;
      nodes = a.instance.nodes.items;
    }) };
}

impl Roads {
    /// The roads of an instance.
    pub fn new(instance: Instance) -> Roads
        requires { IsSound (view instance) }
        ensures name { result.name ≡ string_bytes instance.name }
        ensures vehicles { result.vehicles ≡ instance.vehicles }
        ensures capacity { result.capacity ≡ instance.capacity }
        ensures nodes { result.nodes ≡ instance.nodes.items }
        ensures sound { ArePlaces result }
    {
        Roads { instance }
    }

    /// The instance's name.
    pub fn name(&self) -> &str
        ensures { result.now ≡ self.now.name }
    {
        self.instance.name.as_str()
    }

    /// The nodes, the depot first: 2 to 1,001.
    pub fn nodes(&self) -> &[Node]
        ensures value { result.now ≡ self.now.nodes }
        ensures sound { ArePlaces self.now }
    {
        self.instance.nodes.as_slice()
    }

    /// How many vehicles there are, 1 to 1,000.
    pub fn vehicles(&self) -> u32
        ensures value { result ≡ self.now.vehicles }
        ensures small { result ≤ MOST_VEHICLES }
    {
        self.instance.vehicles
    }

    /// What a vehicle may carry.
    pub fn capacity(&self) -> u32
        ensures value { result ≡ self.now.capacity }
        ensures small { result ≤ LARGEST_FIELD }
    {
        self.instance.capacity
    }

    /// How many nodes there are, the depot with them.
    pub fn size(&self) -> u32
        ensures value { result ≡ length self.now.nodes }
        ensures low { 2 ≤ result }
        ensures high { result ≤ MOST_NODES }
    {
        self.instance.nodes.len() as u32
    }

    /// A node.
    pub fn node(&self, node: u32) -> Node
        requires { node < length self.now.nodes }
        ensures value { result ≡ node_at self.now.nodes node }
        ensures demand { result.demand ≤ LARGEST_FIELD }
        ensures ready { result.ready ≤ result.due }
        ensures due { result.due ≤ LARGEST_FIELD }
        ensures service { result.service ≤ LARGEST_FIELD }
        ensures near { IsNear result }
    {
        self.instance.nodes[node as usize]
    }

    /// The depot.
    pub fn depot(&self) -> Node
        ensures value { result ≡ node_at self.now.nodes 0 }
        ensures ready { result.ready ≤ result.due }
        ensures due { result.due ≤ LARGEST_FIELD }
    {
        self.instance.nodes[0]
    }

    /// The travel from a node to another, in tenths.
    pub fn travel(&self, from: u32, to: u32) -> u64
        requires from { from < length self.now.nodes }
        requires to { to < length self.now.nodes }
        ensures value { result ≡ travel_of self.now from to }
        ensures small { result ≤ LONGEST_TRAVEL }
    {
        u64::from(travel_between(&self.node(from), &self.node(to)))
    }

    /// The service at the node that is left and the travel to the next, in tenths.
    pub fn time(&self, from: u32, to: u32) -> u64
        requires from { from < length self.now.nodes }
        requires to { to < length self.now.nodes }
        ensures value { result ≡ time_between self.now from to }
        ensures small { result ≤ 241421332 }
    {
        u64::from(self.node(from).service) * 10 + self.travel(from, to)
    }
}
