//! What an instance file says.

/// The depot or a customer, by the numbers of its row.
///
/// Coordinates and demand are those of the file. Ready time, due date and service time are in the
/// file's unit of time. Each number is at most 9,999,999.
#[derive(Clone, Copy, Debug, PartialEq, Eq)]
pub struct Node {
    /// The first coordinate.
    pub x: u32,
    /// The second coordinate.
    pub y: u32,
    /// How much of a vehicle's capacity the node takes; 0 at the depot.
    pub demand: u32,
    /// The earliest time at which service may begin, at most `due`.
    pub ready: u32,
    /// The latest time at which service may begin.
    pub due: u32,
    /// How long service takes.
    pub service: u32,
}

/// An instance of vehicle routing with time windows, in Solomon's format.
///
/// `vehicles` is 1 to 1,000 and `capacity` at most 9,999,999. `nodes` has 2 to 1,001 nodes, of
/// which node 0 is the depot.
#[derive(Drop)]
pub struct Instance {
    /// 1 to 64 bytes from space to `~`.
    pub name: String,
    /// How many vehicles there are.
    pub vehicles: u32,
    /// How much each vehicle can carry.
    pub capacity: u32,
    /// The nodes in the order of their numbers.
    pub nodes: Vec<Node>,
}
