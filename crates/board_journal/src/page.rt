//! A page of the journal.
ghost use Rattle.std.specs.Prelude.{◌≡◌, ℕ, List, ◌+◌, ◌≤◌, ◌<◌, ◌++◌, ◌∷◌, [], true, length, slice_get, Some, IfOk, OnOk};
ghost use Rattle.std.specs.Option.{option_map};
ghost use Rattle.board_rules.specs.declared.call.Entry.{Entry};
ghost use Rattle.board_journal.specs.Shown.{HasRoom};
ghost use Rattle.board_rules.specs.Step.{reply_by};
ghost use Rattle.board_journal.specs.Entries.{entry_of, proposed, held, commanded};
ghost use Rattle.board_journal.specs.Packed.{is_packed, is_packed_proposal, is_short};
ghost use Rattle.board_journal.specs.Kept.{kept_entry};
ghost use Rattle.board_journal.specs.Records.{entry_in, IsWithin};

use crate::kept::Kept;
use crate::packed::Packed;
use crate::proposal::Proposal;
use board_rules::{Call, Denial, Entry, Event, Hold, Reply, Ruling};
use rbac_core::Command;
use std::alloc::{AllocError, Global};
use std::marker::Model;

/// How many entries a page has room for.
pub(crate) const PAGE_ENTRIES: usize = 4096;

/// For how many whole entries a page has room at first.
const FIRST_WHOLE: usize = 16;

/// The records of up to 4,096 entries, and beside them the entries that did not fit into records.
#[derive(Drop)]
pub(crate) struct Page {
    records: Vec<Packed>,
    whole: Vec<Entry>,
}

impl Model for Page {
    ghost use Rattle.std.specs.Prelude.{◌-◌, length, vec_capacity};
    ghost use Rattle.board_journal.specs.Shown.{Shown};

    ghost Value = { Shown };

    ghost use Rattle.board_journal.specs.Records.{entries_in};
    ghost use Rattle.board_journal.specs.Pages.{IsPage};

    ghost view = { λ p. record {
      entries = entries_in p.whole.items p.records.items;
      room = 4096
          - length p.records.items;
      spare = vec_capacity p.whole - length p.whole.items;
    } };

    ghost invariant = { λ p. IsPage p.records.items p.whole.items (vec_capacity p.records) (vec_capacity p.whole) };
}

impl Page {
    /// An empty page.
    pub(crate) fn new(alloc: Global) -> Result<Page, AllocError>
        ensures entries { IfOk result (λ page. page.entries ≡ []) }
        ensures room { IfOk result (λ page. page.room ≡ 4096) }
        ensures spare { IfOk result (λ page. page.spare ≡ 16) }
    {
        let records = Vec::with_capacity(alloc, PAGE_ENTRIES)?;
        let whole = Vec::with_capacity(alloc, FIRST_WHOLE)?;
        Ok(Page { records, whole })
    }

    /// The same page once more.
    pub(crate) fn copy(&self, alloc: Global) -> Result<Page, AllocError>
        ensures entries { IfOk result (λ page. page.entries ≡ self.now.entries) }
        ensures room { IfOk result (λ page. page.room ≡ self.now.room) }
    {
        let mut records = Vec::with_capacity(alloc, PAGE_ENTRIES)?;
        records.extend_from_slice(self.records.as_slice())?;
        let whole = copies(alloc, self.whole.as_slice())?;
        Ok(Page { records, whole })
    }

    /// How many entries it has.
    #[inline]
    pub(crate) fn len(&self) -> usize
        ensures len { result ≡ length self.now.entries }
        ensures room { result + self.now.room ≡ 4096 }
    {
        self.records.len()
    }

    /// Makes room for one more whole entry, where there is none: room for 16 or more at a time.
    pub(crate) fn make_spare(&mut self) -> Result<(), AllocError>
        ensures entries { self.new.entries ≡ self.old.entries }
        ensures room { self.new.room ≡ self.old.room }
        ensures some { OnOk result (1 ≤ self.new.spare) }
        ensures kept { 1 ≤ self.old.spare → self.new.spare ≡ self.old.spare }
        ensures grown { OnOk result (self.old.spare ≡ 0 → 16 ≤ self.new.spare) }
    {
        let len = self.whole.len();
        if len < self.whole.capacity() {
            return Ok(());
        }
        self.whole.reserve_exact(len.max(FIRST_WHOLE))
    }

    /// Appends an event with its reply.
    #[inline]
    pub(crate) fn push(&mut self, event: Event, reply: Reply)
        requires { HasRoom self.old }
        ensures entries { self.new.entries ≡ self.old.entries ++ entry_of event reply ∷ [] }
        ensures room { self.new.room + 1 ≡ self.old.room }
        ensures spare { self.old.spare ≤ self.new.spare + 1 }
        ensures packed { is_packed event reply ≡ true → self.new.spare ≡ self.old.spare }
    {
        let packed = Packed::of(&event, &reply);
        let Event { desk, turn, call } = event;
        match packed {
            Some(packed) => self.push_packed(packed),
            None => self.push_whole(Entry {
                desk,
                turn,
                call,
                reply,
            }),
        }
    }

    /// Appends a proposal with the verdict on it.
    #[inline(always)]
    pub(crate) fn push_proposal(&mut self, proposal: Proposal, verdict: Result<u32, Denial>)
        requires { HasRoom self.old }
        ensures entries { self.new.entries ≡ self.old.entries ++ proposed proposal verdict ∷ [] }
        ensures room { self.new.room + 1 ≡ self.old.room }
        ensures spare { self.old.spare ≤ self.new.spare + 1 }
        ensures packed { is_packed_proposal proposal.desk (reply_by verdict) ≡ true → self.new.spare ≡ self.old.spare }
    {
        match Packed::of_proposal(&proposal, verdict) {
            Some(packed) => self.push_packed(packed),
            None => self.push_long(proposal, verdict),
        }
    }

    /// Appends a proposal that does not fit into a record.
    #[cold]
    fn push_long(&mut self, proposal: Proposal, verdict: Result<u32, Denial>)
        requires { HasRoom self.old }
        ensures entries { self.new.entries ≡ self.old.entries ++ proposed proposal verdict ∷ [] }
        ensures room { self.new.room + 1 ≡ self.old.room }
        ensures spare { self.new.spare + 1 ≡ self.old.spare }
    {
        let Proposal {
            desk,
            turn,
            session,
            base,
            mv,
        } = proposal;
        let reply = match verdict {
            Ok(version) => Reply::Committed(version),
            Err(denial) => Reply::Denied(denial),
        };
        self.push_whole(Entry {
            desk,
            turn,
            call: Call::Propose { session, base, mv },
            reply,
        });
    }

    /// Appends a call on a pin or a front with the reply to it.
    #[inline(always)]
    pub(crate) fn push_hold(&mut self, desk: u32, turn: u32, hold: Hold, ruling: Ruling)
        requires { HasRoom self.old }
        ensures entries { self.new.entries ≡ self.old.entries ++ held desk turn hold ruling ∷ [] }
        ensures room { self.new.room + 1 ≡ self.old.room }
        ensures spare { self.old.spare ≤ self.new.spare + 1 }
        ensures packed { is_short desk ≡ true → self.new.spare ≡ self.old.spare }
    {
        match Packed::of_hold(desk, turn, hold, ruling) {
            Some(packed) => self.push_packed(packed),
            None => self.push_whole(Entry {
                desk,
                turn,
                call: hold.call(),
                reply: ruling.reply(),
            }),
        }
    }

    /// Appends a policy command with the reply to it.
    #[inline(always)]
    pub(crate) fn push_command(
        &mut self,
        desk: u32,
        turn: u32,
        session: u32,
        command: Command,
        reply: Reply,
    )
        requires { HasRoom self.old }
        ensures entries { self.new.entries ≡ self.old.entries ++ commanded desk turn session command reply ∷ [] }
        ensures room { self.new.room + 1 ≡ self.old.room }
        ensures spare { self.new.spare + 1 ≡ self.old.spare }
    {
        self.push_whole(Entry {
            desk,
            turn,
            call: Call::Policy { session, command },
            reply,
        });
    }

    /// Appends the record of an entry that does not stand whole.
    #[inline]
    fn push_packed(&mut self, packed: Packed)
        requires room { HasRoom self.old }
        requires within { (n : ℕ) → IsWithin n packed }
        ensures entries { (entry : Entry) → ((whole : List Entry) → entry_in whole packed ≡ entry)
            → self.new.entries ≡ self.old.entries ++ entry ∷ [] }
        ensures room { self.new.room + 1 ≡ self.old.room }
        ensures spare { self.new.spare ≡ self.old.spare }
    {
        self.records.push_reserved(packed);
    }

    /// Appends an entry that stands whole.
    fn push_whole(&mut self, entry: Entry)
        requires { HasRoom self.old }
        ensures entries { self.new.entries ≡ self.old.entries ++ entry ∷ [] }
        ensures room { self.new.room + 1 ≡ self.old.room }
        ensures spare { self.new.spare + 1 ≡ self.old.spare }
    {
        let place = self.whole.len() as u32;
        self.whole.push_reserved(entry);
        self.records.push_reserved(Packed::Whole(place));
    }

    /// The entry at an index, from 0.
    #[inline(always)]
    pub(crate) fn entry(&self, index: usize) -> Kept<'_>
        requires { index < length self.now.entries }
        ensures { slice_get self.now.entries index ≡ Some (kept_entry result) }
    {
        match &self.records[index] {
            Packed::Proposal {
                desk,
                turn,
                session,
                base,
                mv,
                answer,
            } => Kept::Proposal {
                desk: u32::from(*desk),
                turn: *turn,
                session: *session,
                base: *base,
                mv,
                answer: *answer,
            },
            Packed::Hold {
                desk,
                turn,
                hold,
                ruling,
            } => Kept::Hold {
                desk: u32::from(*desk),
                turn: *turn,
                hold: *hold,
                ruling: *ruling,
            },
            Packed::Whole(place) => Kept::Whole(&self.whole[*place as usize]),
        }
    }

    /// The entry at an index, or none where there are not that many.
    #[inline]
    pub(crate) fn get(&self, index: usize) -> Option<Kept<'_>>
        ensures { option_map kept_entry result ≡ slice_get self.now.entries index }
    {
        if index >= self.len() {
            return None;
        }
        Some(self.entry(index))
    }
}

/// The same entries once more.
fn copies(alloc: Global, entries: &[Entry]) -> Result<Vec<Entry>, AllocError>
    ensures { IfOk result (λ made. made.items ≡ entries.now) }
{
    let mut made = Vec::with_capacity(alloc, entries.len())?;
    for entry in entries {
        made.push(entry.copy()?)?;
    }
    Ok(made)
}
