//! A law of the definitions, the contract of a function that does nothing.
ghost use Rattle.way_costs.specs.Laws.{MovesSave};

use move_core::{moves_are_possible, moves_keep_plans, moves_name_vehicles};
use plan_core::{costs_differ_by_named, routes_replaced};

/// What a move of each kind saves: the ways that it loses less the ways that it gains, by the stops of its vehicles.
pub fn moves_save()
    ensures { MovesSave }
{
    routes_replaced();
    costs_differ_by_named();
    moves_are_possible();
    moves_name_vehicles();
    moves_keep_plans();
}
