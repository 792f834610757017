ghost use Rattle.std.specs.Prelude.{◌≡◌, ℕ, ◌+◌, ◌*◌, ◌<◌, ◌≤◌, All, IfOk, OnErr, List, length, map};
ghost use Rattle.std.specs.Int.{abs_diff};
ghost use Rattle.solomon_reader.specs.declared.instance.Node.{Node};
ghost use Rattle.travel_table.specs.Root.{IsRoot};
ghost use Rattle.travel_table.specs.Travel.{square_between, point_of, square_apart, IsNearPoint, IsNear, IsTravel, IsTravelOf, AreKnown, Distances, node_at, travel_at, travel_between};

use crate::square_root::{TEN_UP, root_near, whole_part};
use limits::LONGEST_TRAVEL;
use solomon_reader::{Instance, Node};
use std::alloc::{AllocError, Global};
use std::marker::Model;
use std::sync::Arc;

/// The travel between any two nodes of an instance, in tenths of a distance unit.
///
/// From node i to node j it is the greatest whole `t` with `t * t <= 100 * (dx * dx + dy * dy)`, where `dx` and `dy`
/// are the differences of their coordinates. It is the same both ways.
#[derive(Drop)]
pub struct Travel {
    size: usize,
    entries: Arc<Vec<u32>>,
}

impl Model for Travel {
    ghost use Rattle.travel_table.specs.Travel.{Distances, AreDistances};

    ghost Value = { Distances };

    ghost view = { λ a. record { size = a.size; entries = a.entries.value.items } };

    ghost invariant = { λ a. AreDistances (record { size = a.size; entries = a.entries.value.items }) };
}

/// The coordinates of a node alone.
#[derive(Clone, Copy)]
pub(crate) struct Point {
    x: u32,
    y: u32,
}

/// Where a node is.
#[inline(always)]
fn point_of(node: &Node) -> Point
    requires { IsNear node.now }
    ensures value { result ≡ point_of node.now }
    ensures near { IsNearPoint result }
{
    Point {
        x: node.x,
        y: node.y,
    }
}

/// How far two coordinates are apart. The square of this signed form costs no branch.
#[inline(always)]
fn between(a: u32, b: u32) -> u64
    ensures value { result ≡ abs_diff a b }
    ensures small { result < 4294967296 }
{
    (i64::from(b) - i64::from(a)).unsigned_abs()
}

/// The square of how many units two points are apart.
#[inline(always)]
fn apart(a: Point, b: Point) -> u64
    requires from { IsNearPoint a }
    requires to { IsNearPoint b }
    ensures value { 100 * result ≡ square_apart a b }
    ensures small { result ≤ 199999960000002 }
{
    let dx = between(a.x, b.x);
    let dy = between(a.y, b.y);
    dx * dx + dy * dy
}

/// The travel from one point to another.
#[inline(always)]
fn way_between(a: Point, b: Point) -> u32
    requires from { IsNearPoint a }
    requires to { IsNearPoint b }
    ensures root { IsRoot (square_apart a b) result }
    ensures small { result ≤ LONGEST_TRAVEL }
{
    let square = apart(a, b);
    let guess = whole_part((square as i64 as f64).sqrt() * TEN_UP);
    root_near(100 * square, guess)
}

/// The travel from one node to another, of which no coordinate may be above 9,999,999, in tenths of a distance unit. It needs no table, and
/// takes no memory.
#[inline(always)]
pub fn travel_between(a: &Node, b: &Node) -> u32
    requires from { IsNear a.now }
    requires to { IsNear b.now }
    ensures value { result ≡ travel_between a.now b.now }
    ensures root { IsRoot (square_between a.now b.now) result }
    ensures small { result ≤ LONGEST_TRAVEL }
{
    way_between(point_of(a), point_of(b))
}

/// Where some nodes are. A table of travel is made from these: they take a third of the room of nodes, all of which are read for each node.
fn points_of(alloc: Global, nodes: &[Node]) -> Result<Vec<Point>, AllocError>
    requires { All IsNear nodes.now }
    ensures value { IfOk result (λ points. points.items ≡ map point_of nodes.now) }
    ensures near { IfOk result (λ points. All IsNearPoint points.items) }
{
    let mut points = Vec::with_capacity(alloc, nodes.len())?;
    for node in nodes {
        points.push(point_of(node))?;
    }
    Ok(points)
}

/// Fills in the travel between point `i` and itself and each later one, both ways.
fn fill_node(entries: &mut [u32], points: &[Point], i: usize)
    requires near { All IsNearPoint points.now }
    requires point { i < length points.now }
    requires filled { AreKnown points.now entries.old (i * length points.now) }
    ensures { AreKnown points.now entries.new ((i + 1) * length points.now) }
{
    let size = points.len();
    let from = points[i];
    entries[i * size + i] = 0;
    for j in i + 1..size {
        let travel = way_between(from, points[j]);
        entries[i * size + j] = travel;
        entries[j * size + i] = travel;
    }
}

/// The value of an entry that is not filled yet. Its bytes differ, so that a table is made by wide stores and not byte by byte.
const UNFILLED: u32 = 1;

impl Travel {
    /// The travel between the nodes of an instance, in which no coordinate may be above 9,999,999. Running out of memory is its only
    /// refusal.
    pub fn of(alloc: Global, instance: &Instance) -> Result<Travel, AllocError>
        requires { All IsNear instance.now.nodes.items }
        ensures { IfOk result (IsTravelOf instance.now.nodes.items) }
    {
        let points = points_of(alloc, instance.nodes.as_slice())?;
        let size = points.len();
        let Some(room) = size.checked_mul(size) else {
            return Err(AllocError);
        };
        let mut entries = vec![in alloc; UNFILLED; room]?;
        for i in 0..size {
            fill_node(entries.as_mut_slice(), points.as_slice(), i);
        }
        Ok(Travel {
            size,
            entries: Arc::new(alloc, entries)?,
        })
    }

    /// How many nodes it knows. They count from 0, and node 0 is the depot.
    pub fn nodes(&self) -> usize
        ensures { result ≡ self.now.size }
    {
        self.size
    }

    /// All travel, row by row. It is shared, and no copy.
    pub fn entries(&self) -> Result<Arc<Vec<u32>>, AllocError>
        ensures value { IfOk result (λ r. r.value.items ≡ self.now.entries) }
        ensures square { IfOk result (λ r. length r.value.items ≡ self.now.size * self.now.size) }
        ensures small { IfOk result (λ r. All (λ x. x ≤ LONGEST_TRAVEL) r.value.items) }
    {
        self.entries.clone()
    }

    /// The travel from node `i` to node `j`, both below `nodes()`, in tenths of a distance unit. It takes no memory.
    pub fn get(&self, i: u32, j: u32) -> u32
        requires from { i < self.now.size }
        requires to { j < self.now.size }
        ensures value { result ≡ travel_at self.now i j }
        ensures small { result ≤ LONGEST_TRAVEL }
    {
        self.entries[i as usize * self.size + j as usize]
    }
}

/// A law of the definitions: a table has the travel between any two of its nodes.
pub fn tables_have_the_travel()
    ensures { (nodes : List Node) (d : Distances) (i j : ℕ) → IsTravelOf nodes d → i < length nodes → j < length nodes
        → travel_at d i j ≡ travel_between (node_at nodes i) (node_at nodes j) }
{}

/// A law of the definitions: travel is the same both ways.
pub fn travel_is_symmetric()
    ensures { (nodes : List Node) (d : Distances) (i j : ℕ) → IsTravelOf nodes d → i < length nodes
        → j < length nodes → travel_at d i j ≡ travel_at d j i }
{}
