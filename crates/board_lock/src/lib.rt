//! Desks: a board for many threads. Each call of a desk is one hold of the board's lock, and what it changes is published in that hold.
#![tactic(auto)]

mod change;
mod copies;
mod desk;
mod desk_front;
mod foyer;
mod hall;
mod held;
mod laws;
mod locked;
mod opening;
mod ready;
mod room;
mod seat;
mod settles;
mod verdict;

pub use desk::{Desk, DeskOf, open_hall};
pub use foyer::{Foyer, make_foyer};
pub use hall::open_seats;
pub use held::Held;
pub use laws::{commits_stay_in_views, proposals_have_verdicts};
pub use locked::Locked;
pub use pin_core::View;
pub use published_board::{Naming, SnapFault};
pub use room::{Anteroom, OpenFault};
pub use seat::{Seat, SeatOf};
pub use verdict::verdict_of;
