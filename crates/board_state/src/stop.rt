//! Why a proposal is not committed.
use board_rules::Denial;

/// Why a proposal is not committed.
#[derive(Clone, Copy)]
pub enum Stop {
    /// A rule denies it.
    Denied(Denial),
    /// Memory ran out.
    NoMemory,
}
