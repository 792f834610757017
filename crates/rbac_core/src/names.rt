//! Names that travel together in a command.
ghost use Rattle.std.specs.Prelude.{◌≡◌, IfOk};

use separation_core::Name;
use std::alloc::AllocError;
use std::marker::Model;

/// Names in order; one may come twice. Contracts see their list.
#[derive(Drop)]
pub struct Names {
    names: Vec<Name>,
}

impl Model for Names {
    ghost use Rattle.std.specs.Prelude.{List, ℕ};

    ghost Value = { List (List ℕ) };

    ghost view = { λ a. a.names.items };
}

impl Names {
    /// These names. It takes no memory.
    pub fn of(names: Vec<Name>) -> Names
        ensures { result ≡ names.items }
    {
        Names { names }
    }

    /// The names.
    pub fn as_slice(&self) -> &[Name]
        ensures { result.now ≡ self.now }
    {
        &self.names
    }

    /// The names, by value. It takes no memory.
    pub fn into_vec(self) -> Vec<Name>
        ensures { result.items ≡ self }
    {
        self.names
    }

    /// A copy of the names.
    pub fn copy(&self) -> Result<Names, AllocError>
        ensures { IfOk result (λ names. names ≡ self.now) }
    {
        Ok(Names {
            names: self.names.clone()?,
        })
    }
}
