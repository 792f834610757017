//! An anteroom with the setup beside.
ghost use Rattle.std.specs.Prelude.{◌≡◌, IfOk, IfErr};
ghost use Rattle.dimension_core.specs.Setup.{setting};
ghost use Rattle.board_core.specs.Boards.{history};
ghost use Rattle.board_lock.specs.declared.room.OpenFault.{OpenFault};

use crate::room::{Anteroom, OpenFault, make_room};
use board_core::Board;
use dimension_core::Setup;
use std::alloc::Global;
use std::sync::{Arc, Wait};

/// A board with its published copy, before its hall has a name.
pub struct Foyer<R: Wait + Drop> {
    pub setup: Arc<Setup>,
    pub room: Anteroom<R>,
    ghost same: { setting setup.value ≡ room.opening.setting },
}

/// Makes the published copy of a board. On a fault the board is dropped.
pub fn make_foyer<R: Wait + Drop>(rt: R, alloc: Global, board: Board) -> Result<Foyer<R>, OpenFault>
    ensures opening { IfOk result (λ f. f.room.opening ≡ (history board).opening) }
    ensures entries { IfOk result (λ f. f.room.entries ≡ (history board).entries) }
    ensures fault { IfErr result (λ f. f ≡ OpenFault.NoMemory) }
{
    match make_room(rt, alloc, board) {
        Ok((setup, room)) => Ok(Foyer { setup, room }),
        Err(fault) => Err(fault),
    }
}
