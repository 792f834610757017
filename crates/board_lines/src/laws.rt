//! What follows from the definitions alone.

ghost use Rattle.board_lines.specs.Checks.{FaultsAreFirst};
ghost use Rattle.board_lines.specs.Grammar.{LinesAreCommands};
ghost use Rattle.board_lines.specs.Saying.{TextIsRead};

/// A line is read as a command exactly where its words are the words of that command.
pub fn lines_are_commands()
    ensures { LinesAreCommands }
{}

/// A line is read as a fault exactly where that is the fault of the first check that fails.
pub fn faults_are_first()
    ensures { FaultsAreFirst }
{}

/// The text of a call whose numbers are at most 4,294,967,295, and whose names are names, is read as that call and as nothing else.
pub fn text_is_read()
    ensures { TextIsRead }
{}
