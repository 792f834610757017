//! The journal.
ghost use Rattle.std.specs.Prelude.{◌≡◌, ◌+◌, ◌≤◌, ◌++◌, ◌∷◌, ◌==◌, if◌then◌else◌, [], true, length, slice_get, IfOk, OnOk};
ghost use Rattle.std.specs.Option.{option_map};
ghost use Rattle.board_journal.specs.Shown.{HasRoom};
ghost use Rattle.board_rules.specs.Step.{reply_by};
ghost use Rattle.board_journal.specs.Entries.{entry_of, proposed, held, commanded};
ghost use Rattle.board_journal.specs.Packed.{is_packed, is_packed_proposal, is_short};
ghost use Rattle.board_journal.specs.Kept.{kept_entry};
ghost use Rattle.board_journal.specs.Journals.{pages_of};

use crate::entries::Entries;
use crate::kept::Kept;
use crate::page::{PAGE_ENTRIES, Page};
use crate::proposal::Proposal;
use board_rules::{Denial, Event, Hold, Reply, Ruling};
use rbac_core::Command;
use std::alloc::{AllocError, Global};
use std::marker::Model;
use std::mem;
use std::sync::Arc;

/// How many full pages there are at most: more are never asked for, since their entries would not be counted in 32 bits.
const MOST_PAGES: usize = 1048576;

/// The journal of a board. The full pages are shared, so that a reader may keep them while the journal grows.
pub struct Journal {
    full: Vec<Arc<Page>>,
    last: Page,
}

// Written by hand: a derived drop is expanded, down to each list, at every place where a value is dropped.
impl Drop for Journal {
    fn drop(self) {
        let Journal { full: _, last: _ } = self;
    }
}

impl Model for Journal {
    ghost use Rattle.std.specs.Prelude.{◌++◌};
    ghost use Rattle.board_journal.specs.Shown.{Shown};
    ghost use Rattle.board_journal.specs.Journals.{paged, IsJournal};

    ghost Value = { Shown };

    ghost view = { λ j. record { entries = paged j.full.items ++ j.last.entries; room = j.last.room; spare = j.last.spare } };

    ghost invariant = { λ j. IsJournal j.full.items j.last };
}

impl Journal {
    /// A journal without entries, with room for 4,096 of any kind but no more than 16 that stand whole.
    pub fn new(alloc: Global) -> Result<Journal, AllocError>
        ensures entries { IfOk result (λ journal. journal.entries ≡ []) }
        ensures room { IfOk result (λ journal. journal.room ≡ 4096) }
        ensures spare { IfOk result (λ journal. journal.spare ≡ 16) }
    {
        let last = Page::new(alloc)?;
        Ok(Journal {
            full: Vec::new(alloc),
            last,
        })
    }

    /// A journal of the same entries, to be read while this one grows. The full pages are shared, so it takes memory for a handle to each of
    /// them and for the last page alone.
    pub fn share(&self, alloc: Global) -> Result<Journal, AllocError>
        ensures { IfOk result (λ journal. journal.entries ≡ self.now.entries) }
    {
        let full = shared(alloc, self.full.as_slice())?;
        let last = self.last.copy(alloc)?;
        Ok(Journal { full, last })
    }

    /// The allocator of its pages.
    pub fn allocator(&self) -> &Global {
        self.full.allocator()
    }

    /// How many entries there are.
    pub fn len(&self) -> usize
        ensures { result ≡ length self.now.entries }
    {
        self.full.len() * PAGE_ENTRIES + self.last.len()
    }

    /// Makes room for one more entry of any kind. A journal without room gets a new page, and so room for 4,096 more. The room for entries
    /// that stand whole is 16 on each page, and grows there by at least as many. Where it fails there was no memory, or there are 1,048,576 full pages.
    pub fn make_room(&mut self) -> Result<(), AllocError>
        ensures entries { self.new.entries ≡ self.old.entries }
        ensures ready { OnOk result (HasRoom self.new) }
        ensures room { OnOk result (self.new.room ≡ (if self.old.room == 0 then 4096 else self.old.room)) }
        ensures spare { OnOk result (self.old.spare ≡ 0 → 16 ≤ self.new.spare) }
    {
        if self.last.len() == PAGE_ENTRIES {
            self.turn_page()?;
        }
        self.last.make_spare()
    }

    /// Puts the last page, which is full, beside the other full ones, and begins a new one.
    #[cold]
    fn turn_page(&mut self) -> Result<(), AllocError>
        requires { self.old.room ≡ 0 }
        ensures entries { self.new.entries ≡ self.old.entries }
        ensures room { OnOk result (self.new.room ≡ 4096) }
        ensures spare { OnOk result (self.new.spare ≡ 16) }
    {
        if self.full.len() >= MOST_PAGES {
            return Err(AllocError);
        }
        self.full.reserve(1)?;
        let alloc = *self.full.allocator();
        let next = Page::new(alloc)?;
        match Arc::new(alloc, mem::replace(&mut self.last, next)) {
            Ok(page) => {
                self.full.push_reserved(page);
                Ok(())
            }
            Err(failed) => {
                self.last = failed.value;
                Err(AllocError)
            }
        }
    }

    /// Appends an event with its reply. It takes no memory.
    #[inline]
    pub fn push(&mut self, event: Event, reply: Reply)
        requires { HasRoom self.old }
        ensures entries { self.new.entries ≡ self.old.entries ++ entry_of event reply ∷ [] }
        ensures room { self.new.room + 1 ≡ self.old.room }
        ensures spare { self.old.spare ≤ self.new.spare + 1 }
        ensures packed { is_packed event reply ≡ true → self.new.spare ≡ self.old.spare }
    {
        self.last.push(event, reply);
    }

    /// Appends a proposal with the version that it commits or why it is denied. It takes no memory.
    #[inline(always)]
    pub fn push_proposal(&mut self, proposal: Proposal, verdict: Result<u32, Denial>)
        requires { HasRoom self.old }
        ensures entries { self.new.entries ≡ self.old.entries ++ proposed proposal verdict ∷ [] }
        ensures room { self.new.room + 1 ≡ self.old.room }
        ensures spare { self.old.spare ≤ self.new.spare + 1 }
        ensures packed { is_packed_proposal proposal.desk (reply_by verdict) ≡ true → self.new.spare ≡ self.old.spare }
    {
        self.last.push_proposal(proposal, verdict);
    }

    /// Appends a call on a pin or a front with the reply to it. It takes no memory.
    #[inline(always)]
    pub fn push_hold(&mut self, desk: u32, turn: u32, hold: Hold, ruling: Ruling)
        requires { HasRoom self.old }
        ensures entries { self.new.entries ≡ self.old.entries ++ held desk turn hold ruling ∷ [] }
        ensures room { self.new.room + 1 ≡ self.old.room }
        ensures spare { self.old.spare ≤ self.new.spare + 1 }
        ensures packed { is_short desk ≡ true → self.new.spare ≡ self.old.spare }
    {
        self.last.push_hold(desk, turn, hold, ruling);
    }

    /// Appends a policy command with the reply to it. It takes no memory.
    #[inline(always)]
    pub fn push_command(
        &mut self,
        desk: u32,
        turn: u32,
        session: u32,
        command: Command,
        reply: Reply,
    )
        requires { HasRoom self.old }
        ensures entries { self.new.entries ≡ self.old.entries ++ commanded desk turn session command reply ∷ [] }
        ensures room { self.new.room + 1 ≡ self.old.room }
        ensures spare { self.new.spare + 1 ≡ self.old.spare }
    {
        self.last.push_command(desk, turn, session, command, reply);
    }

    /// The entry at an index, from 0, or none where there are not that many. It takes no memory.
    pub fn get(&self, index: usize) -> Option<Kept<'_>>
        ensures { option_map kept_entry result ≡ slice_get self.now.entries index }
    {
        let paged = self.full.len() * PAGE_ENTRIES;
        if index < paged {
            self.full[index / PAGE_ENTRIES].get(index % PAGE_ENTRIES)
        } else {
            self.last.get(index - paged)
        }
    }

    /// The entries in order, from the first on.
    pub fn iter(&self) -> Entries<'_>
        ensures { result ≡ self.now.entries }
    {
        Entries::over(self.full.as_slice(), &self.last)
    }
}

/// The same pages, each with one owner more.
fn shared(alloc: Global, pages: &[Arc<Page>]) -> Result<Vec<Arc<Page>>, AllocError>
    ensures { IfOk result (λ made. pages_of made.items ≡ pages_of pages.now) }
{
    let mut made = Vec::with_capacity(alloc, pages.len())?;
    for page in pages {
        let Ok(page) = Arc::try_clone(page) else {
            return Err(AllocError);
        };
        made.push(page)?;
    }
    Ok(made)
}
