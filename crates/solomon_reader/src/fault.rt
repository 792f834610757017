//! Why a text is no instance.

ghost use Rattle.std.specs.Prelude.{◌≡◌};
ghost use Rattle.solomon_reader.specs.declared.fault.ReadFault.TheVariants.{NoMemory};

use std::alloc::{AllocError, AllocFailed};
use std::fmt;
use thiserror::Error;

/// The check that a line fails, in the order of the file.
///
/// `Display` gives the kind in lower case, as `name`.
#[derive(Clone, Copy, Debug, PartialEq, Eq)]
pub enum Kind {
    /// The name is not 1 to 64 bytes from space to `~`.
    Name,
    /// The line is not the one field `VEHICLE`.
    Vehicle,
    /// The line is not `NUMBER CAPACITY`, or the next line has not two fields.
    Fleet,
    /// The line is not the one field `CUSTOMER`.
    Customer,
    /// The first field of the line is not `CUST`.
    Heading,
    /// A node row does not have seven fields.
    Fields,
    /// A field is not a number.
    Number,
    /// The number of a node row is not the count of node rows before it.
    Order,
    /// The ready time is above the due date.
    Window,
    /// The depot has a demand.
    Depot,
    /// Vehicles are not 1 to 1,000, or there is a 1,002nd node row.
    Count,
    /// The text ends with fewer than two node rows.
    End,
}

impl fmt::Display for Kind {
    fn fmt<W: fmt::Write>(&self, f: &mut fmt::Formatter<W>) -> fmt::Result {
        f.write_str(match self {
            Kind::Name => "name",
            Kind::Vehicle => "vehicle",
            Kind::Fleet => "fleet",
            Kind::Customer => "customer",
            Kind::Heading => "heading",
            Kind::Fields => "fields",
            Kind::Number => "number",
            Kind::Order => "order",
            Kind::Window => "window",
            Kind::Depot => "depot",
            Kind::Count => "count",
            Kind::End => "end",
        })
    }
}

/// Why a text was not read.
#[derive(Clone, Copy, Debug, PartialEq, Eq, Error)]
pub enum ReadFault {
    /// Memory ran out.
    #[error("out of memory")]
    NoMemory,
    /// The first check of the file that fails, and its line, counted from 1. The line of a part
    /// that is missing is the number of lines plus 1.
    #[error("{0} line {1}")]
    At(Kind, usize),
}

impl From<AllocError> for ReadFault {
    ghost from_gives = { λ _ e. e ≡ NoMemory };

    fn from(_e: AllocError) -> ReadFault {
        ReadFault::NoMemory
    }
}

impl<T: Drop> From<AllocFailed<T>> for ReadFault {
    ghost from_gives = { λ _ e. e ≡ NoMemory };

    fn from(_e: AllocFailed<T>) -> ReadFault {
        ReadFault::NoMemory
    }
}
