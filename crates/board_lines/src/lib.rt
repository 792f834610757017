//! The lines of the board: what each says, and the texts of calls, replies and listings.
#![tactic(auto)]

mod arguments;
mod command;
mod digits;
mod json;
mod laws;
mod listing;
mod reading;
mod replies;
mod spelling;
mod word;

pub use command::{Command, LineFault, ReadFault};
pub use json::{list_json, push_json};
pub use laws::{faults_are_first, lines_are_commands, text_is_read};
pub use listing::{
    list_text, push_audit, push_check, push_end, push_entry, push_list, push_review, push_row,
};
pub use reading::{
    Head, Order, Proposed, read_command, read_head, read_hold, read_kept, read_line, read_order,
    read_proposal, read_words,
};
pub use replies::{
    push_ask_fault, push_committed, push_denied, push_fault, push_line_fault, push_reply,
    reply_text,
};
pub use spelling::{event_text, push_event};
pub use word::{AskWord, HoldWord, ManageWord, MoveWord, SessionWord, SetWord, Word};
