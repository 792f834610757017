//! What is judged and not yet taken, and the memory of it.
ghost use Rattle.std.specs.Prelude.{◌≡◌, ◌≤◌, length, take, OnOk};

use crate::cache::Cache;
use crate::fresh::Fresh;
use crate::row::Row;
use std::alloc::{AllocError, Global};
use std::marker::Model;
use std::mem::replace;
use std::snapshot::Snapshot;

/// The memory of rows that were replaced, kept for the rows of the next judgement, and that in which new routes are walked.
#[derive(Drop)]
pub struct Room {
    pub(crate) rows: Vec<(u32, Row)>,
    /// At least one for each new route of the last judgement. They stay when the rows are taken out.
    pub(crate) fresh: Vec<Fresh>,
    /// A row that a judgement of fewer new routes left over, for one of more.
    spare: Option<(u32, Row)>,
}

impl Room {
    /// A room without memory.
    pub fn new(alloc: Global) -> Room {
        Room::of(Vec::new(alloc))
    }

    /// The room of these rows.
    pub(crate) fn of(rows: Vec<(u32, Row)>) -> Room {
        let fresh = Vec::new(*rows.allocator());
        Room {
            rows,
            fresh,
            spare: None,
        }
    }

    /// Takes in the memory that `Cache::take` gave back. Its own spare row stays, and the memory in which new routes are walked.
    pub fn refill(&mut self, replaced: Room) {
        let Room { rows, .. } = replaced;
        self.rows = rows;
    }

    /// Makes it hold at least this many rows, whatever they contain.
    #[inline(always)]
    pub(crate) fn hold(&mut self, count: usize) -> Result<(), AllocError>
        ensures rows { OnOk result (count ≤ length self.new.rows.items) }
        ensures fresh { self.new.fresh.items ≡ self.old.fresh.items }
    {
        let alloc = *self.rows.allocator();
        'rows: while self.rows.len() < count {
            self.rows.reserve(1)?;
            let row = self.spare.take().unwrap_or((0, Row::empty(alloc)));
            self.rows.push(row)?;
        }
        Ok(())
    }

    /// Makes it have room to walk at least this many new routes.
    #[inline(always)]
    pub(crate) fn hold_fresh(&mut self, count: usize) -> Result<(), AllocError>
        ensures { OnOk result (count ≤ length self.new.fresh.items) }
    {
        let alloc = *self.rows.allocator();
        'fresh: while self.fresh.len() < count {
            self.fresh.push(Fresh::empty(alloc))?;
        }
        Ok(())
    }

    /// Takes out the first `count` rows. One that is left over becomes the spare row.
    #[inline(always)]
    pub(crate) fn take_rows(&mut self, count: usize) -> Vec<(u32, Row)>
        ensures { result.items ≡ take count self.old.rows.items }
    {
        if self.rows.len() > count {
            self.spare = self.rows.pop();
            self.rows.truncate(count);
        }
        let none = Vec::new(*self.rows.allocator());
        replace(&mut self.rows, none)
    }
}

/// New routes that were judged and found in bounds, with their ranges, ready to be taken by the cache that judged them.
///
/// Contracts see that cache as it was then (`of`).
#[derive(Drop)]
pub struct Pending {
    of: Snapshot<Cache>,
    rows: Vec<(u32, Row)>,
}

impl Model for Pending {
    ghost use Rattle.range_cache.specs.Pending.{PendingState, AreWithin};

    ghost Value = { PendingState };

    ghost view = { λ a. record { of = a.of.value; rows = a.rows.items } };

    ghost invariant = { λ a. AreWithin a.of.value a.rows.items };
}

impl Pending {
    ghost use Rattle.std.specs.Prelude.{◌≡◌};
    ghost use Rattle.range_cache.specs.Pending.{AreWithin};

    /// What was judged on a cache.
    pub(crate) fn new(cache: &Cache, rows: Vec<(u32, Row)>) -> Pending
        requires { AreWithin cache.now rows.items }
        ensures of { result.of ≡ cache.now }
        ensures rows { result.rows ≡ rows.items }
    {
        Pending {
            of: Snapshot::of(cache),
            rows,
        }
    }

    /// The new rows.
    pub(crate) fn into_rows(self) -> Vec<(u32, Row)>
        ensures rows { result.items ≡ self.rows }
        ensures within { AreWithin self.of self.rows }
    {
        let Pending { rows, .. } = self;
        rows
    }
}
