//! Laws of the definitions, each the contract of a function that does nothing.

ghost use Rattle.std.specs.Prelude.{◌<◌, ℕ, List, All, length};
ghost use Rattle.callback_store.specs.Tables.{Table};
ghost use Rattle.dimension_core.specs.Cumuls.{Bounds, IsInBounds, cap_of};
ghost use Rattle.denial_facts.specs.Totals.{IsUpTo, total_of};

/// Where only the vehicle's capacity bounds a dimension, a route that is out of bounds takes more than that in all.
pub fn totals_above_the_capacity()
    ensures { (t : Table) (d : Bounds) (vehicle : ℕ) (route : List ℕ) → IsUpTo d vehicle → All (λ node. node < length d.ranges) route
        → ¬ IsInBounds t d vehicle route → cap_of d vehicle < total_of t route }
{}
