//! The core of a board with its published copy.
ghost use Rattle.std.specs.Prelude.{◌≡◌, IfOk, IfErr};
ghost use Rattle.dimension_core.specs.Setup.{setting};
ghost use Rattle.board_core.specs.Boards.{history};
ghost use Rattle.board_lock.specs.declared.room.OpenFault.{OpenFault};

use crate::copies::view;
use crate::locked::Locked;
use crate::opening::Opens;
use board_core::{Board, Core};
use dimension_core::Setup;
use published_board::{Naming, Publication};
use std::alloc::Global;
use std::marker::Model;
use std::sync::{Arc, Wait};
use thiserror::Error;

/// Why a hall was not opened.
#[derive(Clone, Copy, Debug, PartialEq, Eq, Error)]
pub enum OpenFault {
    #[error("out of memory")]
    NoMemory,
    #[error("there are fewer places for readers than desks")]
    Readers,
}

/// The core of a board with its published copy, which has no name yet.
pub struct Anteroom<R: Wait + Drop> {
    core: Core,
    publication: Publication,
    rt: R,
}

impl<R: Wait + Drop> Model for Anteroom<R> {
    ghost use Rattle.published_board.specs.Published.{Published};
    ghost use Rattle.board_lock.specs.Ties.{IsTied};

    ghost Value = { Published };

    ghost view = { λ d. d.publication };

    ghost invariant = { λ d. IsTied d.publication.book d.publication.opening d.core d.publication };
}

impl<R: Wait + Drop> Drop for Anteroom<R> {
    fn drop(self) {
        let Self {
            core: _,
            publication,
            rt,
        } = self;
        publication.close(&rt);
    }
}

impl<R: Wait + Drop> Anteroom<R> {
    /// What lies under the lock of the hall that the name says.
    pub fn named<N: Naming>(self) -> Locked<N, R>
        requires opening { self.opening ≡ N.opening }
        requires book { self.book ≡ N.book }
        ensures { result.journal ≡ self.entries }
    {
        let Anteroom {
            core,
            publication,
            rt,
        } = self;
        Locked::over(core, publication, rt)
    }
}

/// Publishes a board.
pub(crate) fn make_room<R: Wait + Drop>(
    rt: R,
    alloc: Global,
    board: Board,
) -> Result<(Arc<Setup>, Anteroom<R>), OpenFault>
    ensures start { IfOk result (λ t. (t.1.opening ≡ (history board).opening) × (t.1.entries ≡ (history board).entries)) }
    ensures setup { IfOk result (λ t. setting t.0.value ≡ t.1.opening.setting) }
    ensures fault { IfErr result (λ f. f ≡ OpenFault.NoMemory) }
{
    let _few = board.setup.max_events();
    let Ok(view) = view(alloc, &board.setup, &board.core) else {
        return Err(OpenFault::NoMemory);
    };
    let entries = board.core.events() as u64;
    let readers = board.core.desks() as usize;
    let Ok(publication) = Publication::open::<Board, Opens, R>(
        &rt, alloc, &board, view, entries, readers,
    ) else {
        return Err(OpenFault::NoMemory);
    };
    let Board { setup, mut core } = board;
    core.give_up();
    let room = Anteroom {
        core,
        publication,
        rt,
    };
    Ok((setup, room))
}
