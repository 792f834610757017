//! Where nodes stand on the map. All numbers of a picture are tenths of a pixel.

ghost use Rattle.std.specs.Prelude.{◌≡◌, ◌+◌, ◌*◌, ◌/◌, ◌≤◌};
ghost use Rattle.plan_marks.specs.Ground.{point_of, radius_of};

use solomon_reader::Node;

/// A place in the picture.
#[derive(Clone, Copy)]
pub struct Point {
    /// From the left.
    pub x: u64,
    /// From above.
    pub y: u64,
}

/// The square on the ground that all nodes are in.
#[derive(Clone, Copy)]
pub struct Frame {
    /// The least first coordinate.
    pub left: u32,
    /// The greatest second coordinate.
    pub top: u32,
    /// How wide and high it is, at least 1.
    pub span: u32,
}

/// Where something stands on the map that is so far from a side of the square.
fn along(side: u64, far: u32, span: u32) -> u64
    requires side { side ≤ 1100 }
    requires span { 1 ≤ span }
    ensures { result ≡ side + far * 6000 / span }
{
    side + u64::from(far) * 6000 / u64::from(span)
}

/// Where a node stands on the map.
pub fn point_of(frame: &Frame, node: &Node) -> Point
    requires { 1 ≤ frame.now.span }
    ensures { result ≡ point_of frame.now node.now }
{
    Point {
        x: along(400, node.x.saturating_sub(frame.left), frame.span),
        y: along(1100, frame.top.saturating_sub(node.y), frame.span),
    }
}

/// How large a node is drawn.
pub(crate) fn radius_of(most: u32, node: &Node) -> u64
    requires { 1 ≤ most }
    ensures { result ≡ radius_of most node.now }
{
    30 + u64::from(node.demand) * 40 / u64::from(most)
}
