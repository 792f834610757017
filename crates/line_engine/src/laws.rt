//! Laws of the definitions, each the contract of a function that does nothing.
ghost use Rattle.std.specs.Prelude.{◌≡◌, ℕ, List, ◌++◌};
ghost use Rattle.std.specs.List.{flat_map, AllByRecursion};
ghost use Rattle.board_lines.specs.Replies.{ended};
ghost use Rattle.line_engine.specs.Running.{HasNoEnd, IsLine, last_line};
ghost use Rattle.line_engine.specs.TextLines.{lines_of};

/// The lines of a text that is made of lines with their ends, and of what follows the last end, are these lines and, unless it is empty,
/// what follows.
pub fn texts_have_their_lines()
    ensures parts { (lines : List (List ℕ)) (rest : List ℕ) → AllByRecursion IsLine lines → HasNoEnd rest
        → lines_of (flat_map ended lines ++ rest) ≡ lines ++ last_line rest }
    ensures whole { (lines : List (List ℕ)) → AllByRecursion IsLine lines → lines_of (flat_map ended lines) ≡ lines }
{}
