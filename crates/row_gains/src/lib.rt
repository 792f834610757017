//! Where a row of candidates first gains more than is wanted, by the costs of the ways that each loses and gains.
#![tactic(auto)]

mod gains;

pub use gains::{CutRow, ReverseRow, Row, RowCosts, SwapRow, first_gain, way_at};
