//! The log of a hall with the writer of the copies that its desks read.
ghost use Rattle.std.specs.Prelude.{◌≡◌, ◌+◌, ◌≤◌, ◌<◌, ◌^◌, ◌++◌, ◌∷◌, [], length, None, IfOk, OnOk, OnErr};
ghost use Rattle.std.specs.Bool.{OnTrue};
ghost use mathlib.Core.List.{IsPrefix};
ghost use Rattle.board_rules.specs.History.{IsLegal, IsNext, state_after};
ghost use Rattle.published_board.specs.Changed.{IsChangeBy};
ghost use Rattle.published_board.specs.Shelves.{view_of};
ghost use Rattle.published_board.specs.Reached.{opening_of};
ghost use Rattle.published_board.specs.Trails.{head_of};
ghost use Rattle.published_board.specs.declared.page.Page.TheVariants.{Did, Undone};

use crate::change::Change;
use crate::eye::Eye;
use crate::page::{Beginning, Begins, Notes, Noting};
use crate::rule::{Grows, Learns, Sees, Tells};
use crate::shown::{Cells, Shown, Step};
use crate::trail::{Head, Naming, Trail, open};
use board_rules::{histories_grow_by_entries, legal_histories_leave_good_states};
use core::mem::replace_with;
use left_right::writer::Writer;
use limits::MOST_VEHICLES;
use pin_core::View;
use std::alloc::{AllocError, Global};
use std::marker::{Model, PhantomData};
use std::sync::atomic::{AtomicU64, Ordering};
use std::sync::{Arc, Wait};

/// No log has so many pages.
const ROOM: u64 = 1 << 61;

type CopyWriter = Writer<Shown, Step, Option<Trail>, Grows>;

/// A hall's log with the writer of its copies. Contracts see it as the history that the log tells, and the entries of which the copies do:
/// an entry may be staged, which readers do not see yet. It is not `Drop`: end it by `close`.
pub struct Publication {
    head: Head,
    trail: Trail,
    writer: CopyWriter,
    /// How many pages the log had where they were published last, for the eyes: where it is what it was, there is nothing new to see. Nothing
    /// is proved of it.
    latest: Arc<AtomicU64>,
}

impl Model for Publication {
    ghost use Rattle.std.specs.Prelude.{drop};
    ghost use Rattle.left_right.specs.Sides.{view as place_view};
    ghost use Rattle.published_board.specs.Reached.{opening_of, entries_of};
    ghost use Rattle.published_board.specs.Pictures.{picture_of};
    ghost use Rattle.published_board.specs.Published.{Published, IsPublished};

    ghost Value = { Published };

    ghost view = { λ p. record {
      book = p.trail.book;
      opening = opening_of p.trail.pages;
      entries = entries_of p.trail.pages;
      shown = entries_of p.writer.desk.shown.value.base.pages;
    } };

    ghost invariant = { λ p. IsPublished p.head p.trail (picture_of p.writer.desk.shown.value)
        (drop p.writer.behind p.writer.log.items) (place_view p.writer.desk.place) };
}

/// Never returns.
pub fn never<R: Wait>(rt: &R)
    ensures { ⊥ }
{
    for _ in rt.forever() {}
    unreachable!()
}

/// Adds the page of an entry. Who has the trail is alone to add one, so nothing else can come.
fn note<X, M: Noting<X>, R: Wait>(rt: &R, trail: &mut Trail, head: &Head, about: &X)
    requires { head.now.word ≡ head_of trail.old.book }
    ensures book { trail.new.book ≡ trail.old.book }
    ensures opening { opening_of trail.new.pages ≡ opening_of trail.old.pages }
    ensures pages { trail.new.pages ≡ trail.old.pages ++ Did (M.entry about.now) ∷ [] }
{
    if trail.count() >= ROOM {
        never(rt);
    }
    if !trail.push::<X, Notes<M>>(head, about) {
        never(rt);
    }
}

/// Adds the page that takes the last entry back.
fn take_back<R: Wait>(rt: &R, trail: &mut Trail, head: &Head)
    requires { head.now.word ≡ head_of trail.old.book }
    ensures book { trail.new.book ≡ trail.old.book }
    ensures opening { opening_of trail.new.pages ≡ opening_of trail.old.pages }
    ensures pages { trail.new.pages ≡ trail.old.pages ++ Undone ∷ [] }
{
    if trail.count() >= ROOM {
        never(rt);
    }
    if !trail.undo(head) {
        never(rt);
    }
}

impl Publication {
    /// Publishes a board, whose history of so many entries `about` tells and whose plan the view is, to so many readers.
    pub fn open<X, M: Beginning<X>, R: Wait>(
        rt: &R,
        alloc: Global,
        about: &X,
        view: View,
        entries: u64,
        readers: usize,
    ) -> Result<Publication, AllocError>
        requires readers { (0 < readers) × (readers < 2 ^ 32) }
        requires legal { IsLegal (M.history about.now) }
        requires view { view ≡ view_of (state_after (M.history about.now).opening.setting (M.history about.now).entries) }
        requires few { length view.routes ≤ MOST_VEHICLES }
        requires entries { entries ≡ length (M.history about.now).entries }
        ensures opening { IfOk result (λ p. p.opening ≡ (M.history about.now).opening) }
        ensures entries { IfOk result (λ p. p.entries ≡ (M.history about.now).entries) }
        ensures shown { IfOk result (λ p. p.shown ≡ (M.history about.now).entries) }
    {
        legal_histories_leave_good_states();
        let (head, trail) = open::<X, Begins<M>>(about);
        let first = Shown {
            cells: Cells::of(alloc, view, &trail, entries)?,
            base: trail.again(),
        };
        let second = first.copy(alloc)?;
        let latest = Arc::new(alloc, AtomicU64::new(0))?;
        let made: Result<CopyWriter, AllocError> = Writer::new(alloc, first, second, readers);
        let Ok(writer) = made else {
            return Err(AllocError);
        };
        let (writer, _published) = writer.publish_as::<Sees, R>(rt);
        Ok(Publication {
            head,
            trail,
            writer,
            latest,
        })
    }

    /// Stages one entry more, which `about` tells, with what it changes and its number, where readers see each entry before; or nothing, where
    /// there is no memory for it. Readers see it once it is published.
    pub fn stage<X, M: Noting<X>, R: Wait>(
        &mut self,
        rt: &R,
        about: &X,
        change: Change,
        entries: u64,
    ) -> Result<(), AllocError>
        requires shown { self.old.shown ≡ self.old.entries }
        requires next { IsNext self.old.opening self.old.entries (M.entry about.now) }
        requires change { IsChangeBy self.old.opening.setting (state_after self.old.opening.setting self.old.entries)
            (M.entry about.now) change }
        requires entries { entries ≡ length self.old.entries + 1 }
        ensures ok { OnOk result (self.new ≡ record self.old { entries = self.old.entries ++ M.entry about.now ∷ [] }) }
        ensures err { OnErr result (self.new ≡ self.old) }
    {
        histories_grow_by_entries();
        legal_histories_leave_good_states();
        note::<X, M, R>(rt, &mut self.trail, &self.head, about);
        let base = self.trail.again();
        let Ok(()) = self.writer.append(Step {
            change,
            entries,
            base,
        })
        else {
            take_back(rt, &mut self.trail, &self.head);
            return Err(AllocError);
        };
        Ok(())
    }

    /// Lets readers see each entry. It takes no memory.
    pub fn publish<R: Wait>(&mut self, rt: &R)
        ensures { self.new ≡ record self.old { shown = self.old.entries } }
    {
        let _published = replace_with(&mut self.writer, rt, CopyWriter::publish_as::<Sees, R>);
        self.latest.store(self.trail.count(), Ordering::Release);
    }

    /// A reader that has seen what is published, where that is each entry.
    pub fn eye<N: Naming>(&mut self) -> Result<Eye<N>, AllocError>
        requires shown { self.old.shown ≡ self.old.entries }
        requires book { self.old.book ≡ N.book }
        requires opening { self.old.opening ≡ N.opening }
        ensures same { self.new ≡ self.old }
        ensures seen { IfOk result (λ e. (e.seen ≡ self.old.entries) × (e.viewed ≡ None)) }
    {
        let latest = self.latest.clone()?;
        let mut reader = self.writer.factory().reader()?;
        reader.learn::<Learns>(self.writer.tell::<Tells>());
        let eye = Eye {
            reader: Some(reader),
            kept: None,
            latest,
            told: None,
            of: PhantomData,
        };
        Ok(eye)
    }

    /// Brings a reader up to what is published. The answer tells whether this is what it has seen; nothing else can come.
    pub fn show<N: Naming>(&self, eye: &mut Eye<N>) -> bool
        requires book { self.now.book ≡ N.book }
        ensures grows { IsPrefix eye.old.seen eye.new.seen }
        ensures legal { IsLegal (record { opening = N.opening; entries = eye.new.seen }) }
        ensures seen { OnTrue result (eye.new.seen ≡ self.now.shown) }
        ensures viewed { eye.new.viewed ≡ eye.old.viewed }
    {
        eye.meet(self.writer.published())
    }

    /// Waits for the readers, and ends it.
    pub fn close<R: Wait>(self, rt: &R) {
        let Publication {
            head: _,
            trail: _,
            writer,
            latest: _,
        } = self;
        drop(writer.take(rt));
    }
}
