//! What refusals and faults mean, each in a sentence.

use board_lines::LineFault;
use board_rules::{AskFault, Refusal};
use line_engine::RunFault;

/// What the refusal of a call means.
pub(crate) fn refusal_meaning(refusal: &Refusal) -> &'static str {
    match refusal {
        Refusal::NoSession => "there is no such session",
        Refusal::NoAccess => "the session lacks the permission that the call needs",
        Refusal::BadVehicle => "the vehicle is not in the fleet",
        Refusal::BadCustomer => "there is no such customer",
        Refusal::NoUser => "there is no such user",
        Refusal::NoRole => "there is no such role",
        Refusal::NoSet => "there is no such set of roles",
        Refusal::BadObject => "the range of objects is empty, begins at 0 or ends too high",
        Refusal::Already => "what the call would add is there already",
        Refusal::NotThere => "what the call would change or take away is not there",
        Refusal::NotAuthorized => "the user is not authorized for the role",
        Refusal::Cycle => "the senior role would be its own junior",
        Refusal::InSet => "the role is in a set of separation of duty",
        Refusal::Number =>
            "the number of the set would be below 2 or above the number of its roles",
        Refusal::Ssd(_) => "static separation of duty would break in that set",
        Refusal::Dsd(_) => "dynamic separation of duty would break in that set",
        Refusal::Full => "a limit of the policy is reached",
        Refusal::NotPlaced => "the customer is not planned",
        Refusal::Length =>
            "the length is not above the old one, or not below it, or above the route's",
    }
}

/// What the refusal of a question means.
pub(crate) fn question_meaning(fault: AskFault) -> &'static str {
    match fault {
        AskFault::NoSession => "there is no such session",
        AskFault::NoAccess => "the session lacks `audit` on the board",
        AskFault::NoUser => "there is no such user",
        AskFault::NoRole => "there is no such role",
        AskFault::NotThere => "there is no such session to review",
        AskFault::NoMemory => "memory ran out",
    }
}

/// What is wrong with the word of a bad line.
pub(crate) fn word_meaning(fault: LineFault) -> &'static str {
    match fault {
        LineFault::Number => " is not a number from 0 to 4294967295",
        LineFault::Word => " is not a command",
        LineFault::Count => " has too few or too many words behind it",
        LineFault::Name => " is not a name",
        LineFault::Op => " is not an operation",
        LineFault::Object => " is not board, vehicle or customer",
    }
}

/// How a run ended early at a line.
pub(crate) fn end_meaning(fault: RunFault) -> &'static str {
    match fault {
        RunFault::Read => "the script cannot be read from here on",
        RunFault::Write => "the reply cannot be written",
        RunFault::LongLine => "the line has more than 4096 bytes",
        RunFault::NoMemory => "memory ran out",
    }
}
