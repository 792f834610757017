//! The entries of a journal, one after the other.
ghost use Rattle.std.specs.Prelude.{◌≡◌, ◌++◌};
ghost use Rattle.std.specs.Iterator.{YieldsFirstBy, item_count};
ghost use Rattle.board_journal.specs.Journals.{paged};
ghost use Rattle.board_journal.specs.Kept.{kept_entry};

use crate::kept::Kept;
use crate::page::Page;
use std::marker::Model;
use std::sync::Arc;

/// The entries that are left. Contracts see the list of them.
#[derive(Drop)]
pub struct Entries<'a> {
    page: &'a Page,
    // The index in the page of the next entry.
    next: usize,
    full: &'a [Arc<Page>],
    last: Option<&'a Page>,
}

impl<'a> Model for Entries<'a> {
    ghost use Rattle.std.specs.Prelude.{List, ◌++◌, ◌≤◌, drop, length};
    ghost use Rattle.board_rules.specs.declared.call.Entry.{Entry};

    ghost Value = { List Entry };

    ghost use Rattle.board_journal.specs.Journals.{paged, last_entries};

    ghost view = { λ e. drop e.next e.page.now.entries ++ (paged e.full.now ++ last_entries e.last) };
}

impl<'a> Entries<'a> {
    /// The entries of full pages, and those of a last one.
    pub(crate) fn over(full: &'a [Arc<Page>], last: &'a Page) -> Entries<'a>
        ensures { result ≡ paged full.now ++ last.now.entries }
    {
        match full.split_first() {
            None => Entries {
                page: last,
                next: 0,
                full,
                last: None,
            },
            Some((page, full)) => Entries {
                page,
                next: 0,
                full,
                last: Some(last),
            },
        }
    }
}

impl<'a> Iterator for Entries<'a> {
    type Item = Kept<'a>;

    ghost next_gives = { YieldsFirstBy kept_entry (λ rest. rest) };

    ghost remaining = { item_count (λ rest. rest) };

    #[inline]
    fn next(&mut self) -> Option<Kept<'a>> {
        while self.next >= self.page.len() {
            if let Some((page, full)) = self.full.split_first() {
                self.page = page;
                self.full = full;
            } else if let Some(page) = self.last {
                self.page = page;
                self.last = None;
            } else {
                return None;
            }
            self.next = 0;
        }
        let kept = self.page.entry(self.next);
        self.next += 1;
        Some(kept)
    }
}
