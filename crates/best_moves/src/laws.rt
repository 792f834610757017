//! What the crates below promise, in one place.
ghost use Rattle.best_moves.specs.Laws.{Laws};

use move_core::moves_are_possible;
use move_judge::{allowed_moves_are_free, bounds_only_forbid};
use way_costs::moves_save;

/// The laws of moves on which the search stands: which have an effect, what they save, and what is allowed.
pub fn laws_below()
    ensures { Laws }
{
    moves_are_possible();
    moves_save();
    allowed_moves_are_free();
    bounds_only_forbid();
}
