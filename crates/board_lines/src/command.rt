//! What a line says, and its faults.

ghost use Rattle.std.specs.Prelude.{◌≡◌};
ghost use Rattle.board_lines.specs.declared.command.ReadFault.TheVariants.{Line, NoMemory};

use board_rules::{Call, Review};
use rbac_core::{Object, Operation};
use std::alloc::{AllocError, AllocFailed};
use thiserror::Error;

/// What a line asks for.
#[derive(Drop)]
pub enum Command {
    /// A line without words, or a comment.
    Skip,
    /// A call, which the board journals.
    Submit(Call),
    /// The question for the rows that the session may view. No question is journaled.
    List {
        session: u32,
    },
    /// The same rows as JSON.
    Json {
        session: u32,
    },
    /// The question for the journal.
    Audit {
        session: u32,
    },
    /// The question whether the session may do the operation to the object.
    Check {
        session: u32,
        operation: Operation,
        object: Object,
    },
    /// The question for a part of the policy.
    Review {
        session: u32,
        which: Review,
    },
}

/// Why a line is not a command: the first of these that holds.
#[derive(Clone, Copy, Debug, PartialEq, Eq, Error)]
pub enum LineFault {
    /// The first word, or an argument that stands for a number, is not 1 to 10 digits with a value of at most 4,294,967,295.
    #[error("not a number")]
    Number,
    /// There is no second word, or it is no command.
    #[error("not a command")]
    Word,
    /// There are too few or too many words.
    #[error("too few or too many words")]
    Count,
    /// A name is not 1 to 32 letters, digits, `_`, `-` and `.`.
    #[error("not a name")]
    Name,
    /// There is no such operation.
    #[error("not an operation")]
    Op,
    /// The kind of an object is not `board`, `vehicle` or `customer`.
    #[error("not an object")]
    Object,
}

/// Why a line was not read.
#[derive(Clone, Copy, Debug, PartialEq, Eq, Error)]
pub enum ReadFault {
    /// The line is not a command.
    #[error("{0}")]
    Line(LineFault),
    /// Memory ran out.
    #[error("out of memory")]
    NoMemory,
}

impl From<LineFault> for ReadFault {
    ghost from_gives = { λ fault e. e ≡ Line fault };

    fn from(fault: LineFault) -> ReadFault {
        ReadFault::Line(fault)
    }
}

impl From<AllocError> for ReadFault {
    ghost from_gives = { λ _ e. e ≡ NoMemory };

    fn from(_e: AllocError) -> ReadFault {
        ReadFault::NoMemory
    }
}

impl<T: Drop> From<AllocFailed<T>> for ReadFault {
    ghost from_gives = { λ _ e. e ≡ NoMemory };

    fn from(_e: AllocFailed<T>) -> ReadFault {
        ReadFault::NoMemory
    }
}
