//! The policy of a dispatch board: users, roles, permissions, sessions and separation of duty, by
//! the commands and reviews of ANSI INCITS 359-2004, 6.1 to 6.4.
#![tactic(auto)]

mod access;
mod authority;
mod fault;
mod parts;
mod policy;
mod refusal;
mod reviews;
mod roles;
mod rows;
mod separation;
mod session;
mod sessions;
mod sets;
mod users;

pub use authority::{
    authority_is_by_chains, cycles_are_by_chains, refusals_are_by_chains, separation_is_by_chains,
    sessions_keep_authorized_roles,
};
pub use parts::Parts;
pub use policy::Policy;
pub use refusal::Refusal;
pub use separation::Separation;
pub use session::{Counting, Session};
