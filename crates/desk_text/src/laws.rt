//! Laws of runs over a desk, each the contract of a function that does nothing.
ghost use Rattle.std.specs.Prelude.{◌≡◌, ℕ, List, Option};
ghost use Rattle.board_rules.specs.History.{Opening};
ghost use Rattle.line_engine.specs.WholeRuns.{IsAnswered, IsStopped};
ghost use Rattle.line_engine.specs.declared.run_fault.RunFault.{RunFault};
ghost use Rattle.board_lock.specs.Watches.{Watch};
ghost use Rattle.board_lock.specs.DeskSteps.{IsDeskStep, DeskLacksMemory};
ghost use Rattle.board_text.specs.BoardSteps.{IsBoardStep, LacksMemory};
ghost use Rattle.desk_text.specs.DeskRuns.{HasSeenItsTurns, IsHeld, IsHeldAtStop, IsOnlyDesk, board_state};

/// What is written for the calls of lines is the texts of the replies that the desk's list holds for them.
pub fn lists_hold_what_is_written()
    ensures answered { (o : Opening) (old new : Watch) (left_old left_new was now : Option (List ℕ)) (answers refusals : ℕ)
        → HasSeenItsTurns old
        → IsAnswered (IsDeskStep o) old new left_old left_new was now answers refusals
        → IsHeld o old new left_old left_new was now answers refusals }
    ensures stopped { (o : Opening) (fault : RunFault) (old new : Watch) (left_old left_new was now : Option (List ℕ)) → HasSeenItsTurns old
        → IsStopped (IsDeskStep o) (DeskLacksMemory o) fault old new left_old left_new was now
        → IsHeldAtStop o fault old new left_old left_new was now }
{}

/// On a board of one desk a run over the desk is a run over a board of one thread, entry by entry, also where it ended early.
pub fn only_desks_run_as_boards()
    ensures answered { (o : Opening) (old new : Watch) (left_old left_new was now : Option (List ℕ)) (answers refusals : ℕ) → o.desks ≡ 1
        → IsOnlyDesk old
        → IsAnswered (IsDeskStep o) old new left_old left_new was now answers refusals
        → IsAnswered IsBoardStep (board_state o old) (board_state o new) left_old left_new was now answers refusals }
    ensures stopped { (o : Opening) (fault : RunFault) (old new : Watch) (left_old left_new was now : Option (List ℕ)) → o.desks ≡ 1
        → IsOnlyDesk old
        → IsStopped (IsDeskStep o) (DeskLacksMemory o) fault old new left_old left_new was now
        → IsStopped IsBoardStep LacksMemory fault (board_state o old) (board_state o new) left_old left_new was now }
{}
