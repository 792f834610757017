//! The rules of the board: its calls and replies, which reply is right in which state, and what a history of calls leaves.
//!
//! It keeps no running state. The types are those of the board's calls, the definitions are in `specs/`, and the laws over them are the
//! contracts of functions that do nothing. What runs is small: copies of calls and entries, the constructors and readers of `Delta` and
//! `Row`, and `Refusal::of_policy`.
#![tactic(auto)]

mod call;
mod delta;
mod hold;
mod laws;
mod reply;
mod review;
mod row;

pub use call::{Call, Entry, Event};
pub use delta::Delta;
pub use hold::{Hold, HoldRefusal, Ruling};
pub use laws::{
    calls_keep_the_rest, changes_by_stamps, commands_by_parts, current_vehicles_keep_their_routes,
    customers_have_one_spot, histories_go_on, histories_grow_by_entries, histories_settle_policies,
    legal_histories_leave_good_states, listings_are_determined, pins_by_touches,
    plans_are_judged_by_new_routes, prefixes_of_legal_histories_are_legal,
    proposals_commit_exactly, replies_are_determined, right_replies_keep_good_states,
    separation_of_duty_holds, session_numbers_rise_in_histories, spots_change_on_named_vehicles,
    verdicts_by_agreeing_facts,
};
pub use reply::{AskFault, Denial, Fault, Refusal, Reply};
pub use review::Review;
pub use row::Row;
