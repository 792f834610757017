//! Moves that a worker does not try again.
ghost use Rattle.std.specs.Prelude.{◌≡◌, ◌++◌, ◌∷◌, ◌<◌, ◌≤◌, [], ℕ, List, OnOk, if◌then◌else◌, length, vec_capacity};
ghost use Rattle.search_workers.specs.Kinds.{Round};
ghost use Rattle.search_workers.specs.Skips.{is_stale, is_final};
ghost use Rattle.search_workers.specs.Steps.{AreSkipped, outcome_by};

use crate::tally::Outcome;
use board_rules::{Denial, Reply};
use move_core::Move;
use std::alloc::{AllocError, Global};

/// The moves that were denied at a version.
#[derive(Drop)]
pub(crate) struct Skips {
    pub moves: Vec<Move>,
    pub version: u32,
}

/// Whether a denial says only that the base is old.
fn is_stale(denial: Denial) -> bool
    ensures { result ≡ is_stale denial }
{
    matches!(denial, Denial::Stale(_))
}

impl Skips {
    pub fn new(alloc: Global) -> Skips
        ensures version { result.version ≡ 0 }
        ensures moves { result.moves.items ≡ [] }
    {
        Skips {
            moves: Vec::new(alloc),
            version: 0,
        }
    }

    /// Forgets the moves where the version is another one than before.
    pub fn turn_to(&mut self, version: u32)
        requires { self.old.version ≤ version }
        ensures version { self.new.version ≡ version }
        ensures skipped { (done : List Round) → AreSkipped done self.old.version self.old.moves.items
            → AreSkipped done version self.new.moves.items }
    {
        if version == self.version {
            return;
        }
        self.moves.clear();
        self.version = version;
    }

    /// Makes room for one more move.
    pub fn make_room(&mut self) -> Result<(), AllocError>
        ensures version { self.new.version ≡ self.old.version }
        ensures moves { self.new.moves.items ≡ self.old.moves.items }
        ensures room { OnOk result (length self.new.moves.items < vec_capacity self.new.moves) }
    {
        match self.moves.reserve(1) {
            Ok(()) => Ok(()),
            Err(_) => Err(AllocError),
        }
    }

    /// Notes what a move was answered, and how the round that proposed it is counted. There is room for it.
    pub fn note(&mut self, mv: Move, reply: Reply) -> Outcome
        requires { length self.old.moves.items < vec_capacity self.old.moves }
        ensures version { self.new.version ≡ self.old.version }
        ensures moves { self.new.moves.items ≡ (if is_final reply then self.old.moves.items ++ mv ∷ [] else self.old.moves.items) }
        ensures outcome { result ≡ outcome_by reply }
    {
        match reply {
            Reply::Committed(_) => Outcome::Committed,
            Reply::Denied(denial) => {
                if !is_stale(denial) {
                    self.moves.push_reserved(mv);
                }
                Outcome::Denied
            }
            _ => Outcome::Refused,
        }
    }
}
