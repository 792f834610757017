//! Laws of the definitions, each the contract of a function that does nothing; and what the crates below promise, in one place.
ghost use Rattle.move_judge.specs.Given.{Laws};
ghost use Rattle.move_judge.specs.Laws.{AllowedMovesAreFree, BoundsOnlyForbid};

use move_core::{
    fronts_by_first_change, moves_are_possible, moves_between_carry_over, moves_inside_rearrange,
    moves_keep_plans, moves_keep_the_untouched, moves_name_vehicles, shifts_in_parts,
};
use pin_core::freezes_by_named;
use plan_core::{customers_stand_by_route, routes_are_known, routes_replaced};

/// The laws of plans, pins and moves by which a move is judged.
pub(crate) fn laws_below()
    ensures { Laws }
{
    routes_replaced();
    routes_are_known();
    customers_stand_by_route();
    freezes_by_named();
    moves_are_possible();
    moves_name_vehicles();
    moves_keep_plans();
    moves_keep_the_untouched();
    fronts_by_first_change();
    moves_inside_rearrange();
    moves_between_carry_over();
    shifts_in_parts();
}

/// A move that is allowed changes its routes behind their frozen fronts alone, and nobody is pinned whom it sends to another vehicle.
pub fn allowed_moves_are_free()
    ensures { AllowedMovesAreFree }
{
    laws_below();
}

/// Without the dimensions a view is still one of a feasible plan, and each move that is allowed with them is allowed.
pub fn bounds_only_forbid()
    ensures { BoundsOnlyForbid }
{}
