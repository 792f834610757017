//! Laws of the definitions, each the contract of a function that does nothing.
ghost use Rattle.move_core.specs.Laws.{MovesArePossible, PlacedIsTested, MovesNameVehicles, MovesKeepPlans, MovesKeepTheUntouched, FrontsByFirstChange, MovesInsideRearrange, MovesBetweenCarryOver, ShiftsInParts, MovesSaveTheSame};

use plan_core::{
    among_is_tested, costs_differ_by_named, customers_stand_by_route, fronts_are_common,
    routes_replaced,
};

/// A move of each kind has an effect exactly where its numbers are in range.
pub fn moves_are_possible()
    ensures moves { MovesArePossible }
    ensures placed { PlacedIsTested }
{
    among_is_tested();
    customers_stand_by_route();
    routes_replaced();
}

/// The effect of a move is new routes for the vehicles that it names, one or two of the fleet, each once and in that order.
pub fn moves_name_vehicles()
    ensures { MovesNameVehicles }
{}

/// A move that has an effect takes a plan to a plan, and touches customers of the plan alone.
pub fn moves_keep_plans()
    ensures { MovesKeepPlans }
{
    among_is_tested();
    customers_stand_by_route();
    routes_replaced();
}

/// Customers that are not touched keep their vehicle and their order among themselves: on each vehicle they are the same list before and
/// after. So a customer on a vehicle stays on it or is touched.
pub fn moves_keep_the_untouched()
    ensures { MovesKeepTheUntouched }
{
    among_is_tested();
    customers_stand_by_route();
    routes_replaced();
}

/// The routes that differ are exactly those of the named vehicles, and each differs first at the place that the move's numbers say. So a
/// frozen front is kept exactly where it ends before that place, and the length of the longest common prefix of the two routes is that
/// place less one.
pub fn fronts_by_first_change()
    ensures { FrontsByFirstChange }
{
    among_is_tested();
    customers_stand_by_route();
    routes_replaced();
    fronts_are_common();
}

/// A move of one vehicle, other than Insert and Remove, leaves each customer on the route as often as before, so the route keeps its
/// customers.
pub fn moves_inside_rearrange()
    ensures { MovesInsideRearrange }
{}

/// A customer that a move between two vehicles touches stands on one of them before and on the other afterwards.
pub fn moves_between_carry_over()
    ensures { MovesBetweenCarryOver }
{}

/// The new route of a shift inside a vehicle is made of four parts of the old one.
pub fn shifts_in_parts()
    ensures { ShiftsInParts }
{}

/// A move saves the same in two plans in which the vehicles that it names have the same routes: it makes the same new routes in both, and
/// where it has an effect in both, the costs of the two plans differ by the same.
pub fn moves_save_the_same()
    ensures { MovesSaveTheSame }
{
    costs_differ_by_named();
    moves_name_vehicles();
}
