//! How a worker finds a move: all that it knows of the search.
ghost use Rattle.std.specs.Prelude.{◌≤◌, IfOk};
ghost use Rattle.dimension_core.specs.Setup.{setting};
ghost use Rattle.move_judge.specs.View.{IsViewOf};
ghost use Rattle.search_workers.specs.Steps.{IsFound};

use crate::draws::Drawn;
use dimension_core::Setup;
use move_core::Move;
use neighbourhood::Searcher;
use pin_core::View;
use std::alloc::{AllocError, Global};

/// A move, what it saves, and the version of the view in which it was found.
#[derive(Clone, Copy)]
pub(crate) struct Found {
    pub mv: Move,
    pub gain: u64,
    pub version: u32,
}

/// What is kept of the search from round to round: the memory of its tables. Nothing that it found in one view is used in another.
#[derive(Drop)]
pub(crate) struct Finder {
    searcher: Searcher,
}

impl Finder {
    pub fn new(alloc: Global) -> Finder {
        Finder {
            searcher: Searcher::new(alloc),
        }
    }

    /// The best move near the two vehicles of a view that were drawn, but for those that are to be skipped.
    pub fn find(
        &mut self,
        view: &View,
        setup: &Setup,
        drawn: Drawn,
        skip: &[Move],
    ) -> Result<Option<Found>, AllocError>
        requires view { IsViewOf (setting setup.now) view.now }
        requires first { (1 ≤ drawn.first) × (drawn.first ≤ (setting setup.now).vehicles) }
        requires second { (1 ≤ drawn.second) × (drawn.second ≤ (setting setup.now).vehicles) }
        ensures { IfOk result (λ found. IsFound (setting setup.now) view.now skip.now drawn.first drawn.second found) }
    {
        let version = view.version;
        let Drawn { first, second } = drawn;
        match self.searcher.best_move(view, setup, first, second, skip) {
            Err(fault) => Err(fault),
            Ok(None) => Ok(None),
            Ok(Some((mv, gain))) => Ok(Some(Found { mv, gain, version })),
        }
    }
}
