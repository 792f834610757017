//! Fronts that can say what their replies mean.

ghost use Rattle.std.specs.Prelude.{◌≡◌, IfOk, string_bytes};
ghost use Rattle.board_text.specs.Numbered.{IsNumbered};

use crate::board_front::BoardFront;
use crate::line_note::line_note;
use std::alloc::{AllocError, Global};

/// What can say what its last reply means.
pub trait Notes {
    /// How many entries its journal has.
    fn events(&self) -> usize;

    /// The note on a line, by its number, that it answered with no as its last one. Before the line its journal had so many entries.
    fn note(
        &self,
        alloc: Global,
        before: usize,
        line: &[u8],
        number: u64,
    ) -> Result<String, AllocError>
        ensures { IfOk result (λ text. IsNumbered number (string_bytes text)) };
}

impl Notes for BoardFront {
    fn events(&self) -> usize {
        self.board.events()
    }

    fn note(
        &self,
        alloc: Global,
        before: usize,
        line: &[u8],
        number: u64,
    ) -> Result<String, AllocError> {
        line_note(alloc, &self.board, before, line, number)
    }
}
