//! What a judged call tells the log of its hall.
use board_core::Prepared;
use published_board::Noting;

/// A judged call tells its entry.
pub(crate) struct Settles;

impl Noting<Prepared> for Settles {
    ghost entry = { λ prepared. prepared.entry };
}
