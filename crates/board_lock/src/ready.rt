//! What a desk begins with.
ghost use Rattle.std.specs.Prelude.{◌≤◌};
ghost use Rattle.limits.specs.declared.TheConstants.{MOST_EVENTS};
ghost use Rattle.board_rules.specs.History.{turns_of};

use published_board::{Eye, Naming};

#[derive(Drop)]
pub(crate) struct Ready<N: Naming> {
    pub eye: Eye<N>,
    pub number: u32,
    pub own: u32,
    ghost fits: { (1 ≤ number) × (number ≤ N.opening.desks) × (own ≤ turns_of number eye.seen) × (own ≤ MOST_EVENTS) },
}
