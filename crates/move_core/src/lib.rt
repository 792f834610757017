//! The six moves of a plan: which vehicles they name, which customers they touch, and the new routes that they make.
#![tactic(auto)]

mod drafting;
mod fault;
mod laws;
mod moves;
mod parts;
mod possible;
mod touches;

pub use fault::MoveFault;
pub use laws::{
    fronts_by_first_change, moves_are_possible, moves_between_carry_over, moves_inside_rearrange,
    moves_keep_plans, moves_keep_the_untouched, moves_name_vehicles, moves_save_the_same,
    shifts_in_parts,
};
pub use moves::Move;
