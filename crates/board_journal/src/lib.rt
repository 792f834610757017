//! The journal of a board: each call that was answered, in order, with its reply, in less than half the bytes of a list of entries.
//!
//! An `Entry` is as large as the largest command on the policy, 120 bytes, and nearly all entries are proposals. So a proposal, and a call on
//! pins and fronts, is kept as a record of 48 bytes, and what does not fit into one stands whole beside the records. Contracts see the list of
//! the entries alone.
//!
//! Records stand in pages of 4,096. A page never moves, so the journal copies no record when it grows, and a page that is full never
//! changes, so it may be shared.
#![tactic(auto)]

mod answer;
mod entries;
mod journal;
mod kept;
mod packed;
mod page;
mod proposal;

pub use answer::Answer;
pub use entries::Entries;
pub use journal::Journal;
pub use kept::Kept;
pub use proposal::Proposal;
