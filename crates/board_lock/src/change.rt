//! What a judged call changes, made before anything is put in place.
ghost use Rattle.std.specs.Prelude.{IfOk};
ghost use Rattle.dimension_core.specs.Setting.{Setting};
ghost use Rattle.board_rules.specs.History.{state_after};
ghost use Rattle.board_core.specs.Kept.{IsKept};
ghost use Rattle.board_core.specs.Prepared.{Makes};
ghost use Rattle.published_board.specs.Changed.{IsChangeBy};

use board_core::{Difference, Prepared};
use published_board::Change;
use std::alloc::AllocError;

/// What a judged call changes of the copies that desks read.
pub(crate) fn change_of(prepared: &Prepared) -> Result<Change, AllocError>
    ensures { (s : Setting) → IsKept s prepared.now.of → Makes s prepared.now
        → IfOk result (IsChangeBy s (state_after s prepared.now.of.journal) prepared.now.entry) }
{
    let Difference {
        first,
        second,
        pins,
        front,
        version,
    } = prepared.difference()?;
    Ok(Change {
        first,
        second,
        pins,
        front,
        version,
    })
}
