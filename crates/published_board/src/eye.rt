//! A reader of one hall, with what it has seen and the view that it keeps.
ghost use Rattle.std.specs.Prelude.{◌≡◌, List, Some, None, IfOk, IfErr, IfSome, OnOk, IsErrOf};
ghost use Rattle.std.specs.Bool.{OnTrue};
ghost use mathlib.Core.List.{IsPrefix};
ghost use Rattle.logbook.specs.Pages.{Book};
ghost use Rattle.board_rules.specs.declared.call.Entry.{Entry};
ghost use Rattle.board_rules.specs.History.{Opening, state_after, IsLegal};
ghost use Rattle.plan_core.specs.Plan.{routes_of};
ghost use Rattle.published_board.specs.declared.eye.SnapFault.{SnapFault};
ghost use Rattle.published_board.specs.Reached.{entries_of, opening_of};
ghost use Rattle.published_board.specs.Shelves.{cells_of, Shows, view_of};
ghost use Rattle.published_board.specs.Pictures.{picture_of};
ghost use Rattle.published_board.specs.Sights.{IsPicture};
ghost use Rattle.published_board.specs.Kepts.{AreKeptFor, IsKeptFor};

use crate::rule::{Grows, Sees};
use crate::shown::{Cells, Shown};
use crate::trail::{Naming, Trail};
use board_rules::legal_histories_leave_good_states;
use left_right::reader::Reader;
use pin_core::View;
use plan_core::Route;
use std::alloc::{AllocError, Global};
use std::marker::{Model, PhantomData};
use std::sync::Arc;
use std::sync::atomic::{AtomicU64, Ordering};
use thiserror::Error;

pub type CopyReader = Reader<Shown, Option<Trail>, Grows>;

/// A view that is kept, with the log of which it tells and how many entries that has.
#[derive(Drop)]
pub struct Kept {
    pub view: View,
    pub base: Trail,
    pub entries: u64,
}

/// Contracts see it as the entries that it has seen, and those of which its view tells.
pub struct Eye<N: Naming> {
    // It is there between any two calls.
    pub reader: Option<CopyReader>,
    pub kept: Option<Kept>,
    /// How many pages the log had where they were published last. Its place in memory is the writer's.
    pub latest: Arc<AtomicU64>,
    /// What `latest` was before the copy was read of which the view tells, where nothing was seen since.
    pub told: Option<u64>,
    pub of: PhantomData<N>,
}

// Written by hand: a derived drop is expanded, down to each list of the view, at every place where a value is dropped.
impl<N: Naming> Drop for Eye<N> {
    fn drop(self) {
        let Self {
            reader: _,
            kept: _,
            latest: _,
            told: _,
            of: _,
        } = self;
    }
}

impl<N: Naming> Model for Eye<N> {
    ghost use Rattle.std.specs.Prelude.{◌≡◌, Some, IfSome};
    ghost use Rattle.std.specs.Option.{option_and_then};
    ghost use Rattle.left_right.specs.Sides.{view as place_view};
    ghost use Rattle.published_board.specs.Sights.{IsOf, entries_in};
    ghost use Rattle.published_board.specs.Kepts.{EyeState, viewed_in, AreKeptFor};

    ghost Value = { EyeState };

    ghost view = { λ e. record { seen = entries_in (option_and_then (λ r. place_view r.place) e.reader); viewed = viewed_in e.kept } };

    ghost invariant = { λ e. let saw = option_and_then (λ r. place_view r.place) e.reader in IsOf N.opening N.book saw
        × AreKeptFor N.opening N.book (entries_in saw) e.kept × IfSome e.told (λ _. viewed_in e.kept ≡ Some (entries_in saw)) };
}

/// Why there is no snapshot. `Closed` is tried first.
#[derive(Clone, Copy, Debug, PartialEq, Eq, Error)]
pub enum SnapFault {
    #[error("out of memory")]
    NoMemory,
    #[error("the published copy could not be entered")]
    Closed,
}

/// The view of cells: a kept one that is brought up to them, or a new one, where there is none.
fn brought(alloc: Global, kept: Option<Kept>, cells: &Cells) -> Result<View, AllocError>
    ensures { (o : Opening) (book : Book) (seen es : List Entry) → AreKeptFor o book seen kept
        → IsLegal (record { opening = o; entries = es })
        → Shows o.setting es (cells_of cells.now) → IsPrefix seen es → IfOk result (λ v. v ≡ view_of (state_after o.setting es)) }
{
    legal_histories_leave_good_states();
    match kept {
        None => cells.view(alloc),
        Some(kept) => cells.renew(kept.view, kept.entries),
    }
}

/// A kept view of what a copy shows.
fn renewed(alloc: Global, kept: Option<Kept>, shown: &Shown) -> Result<Kept, AllocError>
    ensures { (o : Opening) (book : Book) (seen : List Entry) → AreKeptFor o book seen kept → IsPicture (picture_of shown.now)
        → shown.now.base.book ≡ book → opening_of shown.now.base.pages ≡ o → IsPrefix seen (entries_of shown.now.base.pages)
        → IfOk result (λ k. IsKeptFor o book (entries_of shown.now.base.pages) k × (k.base ≡ shown.now.base)) }
{
    Ok(Kept {
        view: brought(alloc, kept, &shown.cells)?,
        base: shown.base.again(),
        entries: shown.cells.entries,
    })
}

/// The same view once more: the routes are shared.
fn copy_of(alloc: Global, view: &View) -> Result<View, AllocError>
    ensures { IfOk result (λ v. v ≡ view.now) }
{
    Ok(View {
        routes: shared(alloc, view.routes.as_slice())?,
        pinned: Vec::from_slice(alloc, view.pinned.as_slice())?,
        frozen: Vec::from_slice(alloc, view.frozen.as_slice())?,
        version: view.version,
    })
}

/// The same routes, each with one owner more.
fn shared(alloc: Global, routes: &[Arc<Route>]) -> Result<Vec<Arc<Route>>, AllocError>
    ensures { IfOk result (λ v. routes_of v.items ≡ routes_of routes.now) }
{
    let mut made = Vec::with_capacity(alloc, routes.len())?;
    for route in routes {
        let Ok(route) = Arc::try_clone(route) else {
            return Err(AllocError);
        };
        made.push(route)?;
    }
    Ok(made)
}

impl<N: Naming> Eye<N> {
    ghost use Rattle.std.specs.Prelude.{MatchOption};

    /// Brings the view up to what is published, by the routes that changed, and by all pins and lengths where one did. It waits for nobody.
    /// Where memory runs out, the view is lost, and the next call makes it anew.
    pub fn refresh(&mut self, alloc: Global) -> Result<(), SnapFault>
        ensures grows { IsPrefix self.old.seen self.new.seen }
        ensures legal { IsLegal (record { opening = N.opening; entries = self.new.seen }) }
        ensures ok { OnOk result (self.new.viewed ≡ Some self.new.seen) }
        ensures no_memory { IsErrOf result SnapFault.NoMemory → self.new.viewed ≡ None }
        ensures closed { IsErrOf result SnapFault.Closed → self.new ≡ self.old }
    {
        // A load costs less than to enter the copy, which writes what other threads read.
        let latest = self.latest.load(Ordering::Acquire);
        if self.told == Some(latest) {
            return Ok(());
        }
        let Some(reader) = self.reader.take() else {
            unreachable!()
        };
        match reader.enter_as::<Sees>() {
            Err(reader) => {
                self.reader = Some(reader);
                Err(SnapFault::Closed)
            }
            Ok(reading) => {
                self.told = None;
                let renewed = renewed(alloc, self.kept.take(), reading.get());
                self.reader = Some(reading.leave());
                match renewed {
                    Ok(kept) => {
                        self.kept = Some(kept);
                        self.told = Some(latest);
                        Ok(())
                    }
                    Err(_) => Err(SnapFault::NoMemory),
                }
            }
        }
    }

    /// The view as it was brought up last, if there is one.
    pub fn view(&self) -> Option<&View>
        ensures { MatchOption result (self.now.viewed ≡ None)
            (λ v. MatchOption self.now.viewed ⊥ (λ es. v.now ≡ view_of (state_after N.opening.setting es))) }
    {
        match &self.kept {
            Some(kept) => Some(&kept.view),
            None => None,
        }
    }

    /// A law: the entries of which the view tells are the first of those that were seen, and a legal history. It does nothing.
    pub fn view_is_seen(&self)
        ensures { MatchOption self.now.viewed (Unit {0}) (λ es. IsLegal (record { opening = N.opening; entries = es })
            × IsPrefix es self.now.seen) }
    {
        let _kept = &self.kept;
    }

    /// A copy of the view, brought up to what is published. It waits for nobody.
    pub fn snapshot(&mut self, alloc: Global) -> Result<View, SnapFault>
        ensures grows { IsPrefix self.old.seen self.new.seen }
        ensures legal { IsLegal (record { opening = N.opening; entries = self.new.seen }) }
        ensures view { IfOk result (λ v. v ≡ view_of (state_after N.opening.setting self.new.seen)) }
        ensures viewed { OnOk result (self.new.viewed ≡ Some self.new.seen) }
        ensures closed { IsErrOf result SnapFault.Closed → self.new ≡ self.old }
    {
        match self.refresh(alloc) {
            Err(fault) => Err(fault),
            Ok(()) => self.copy(alloc),
        }
    }

    /// A copy of the view as it was brought up last.
    fn copy(&self, alloc: Global) -> Result<View, SnapFault>
        ensures fault { IfErr result (λ f. f ≡ SnapFault.NoMemory) }
        ensures view { (es : List Entry) → self.now.viewed ≡ Some es → IfOk result (λ v. v ≡ view_of (state_after N.opening.setting es)) }
    {
        match self.view() {
            Some(view) => match copy_of(alloc, view) {
                Ok(view) => Ok(view),
                Err(_) => Err(SnapFault::NoMemory),
            },
            None => Err(SnapFault::NoMemory),
        }
    }

    /// Sees what is published, and tells whether that is what this copy shows. The view stays as it is.
    pub fn meet(&mut self, published: &Shown) -> bool
        requires { published.now.base.book ≡ N.book }
        ensures grows { IsPrefix self.old.seen self.new.seen }
        ensures legal { IsLegal (record { opening = N.opening; entries = self.new.seen }) }
        ensures seen { OnTrue result (self.new.seen ≡ entries_of published.now.base.pages) }
        ensures viewed { self.new.viewed ≡ self.old.viewed }
    {
        let Some(reader) = self.reader.take() else {
            unreachable!()
        };
        match reader.enter_as::<Sees>() {
            Err(reader) => {
                self.reader = Some(reader);
                false
            }
            Ok(reading) => {
                self.told = None;
                let same = reading.get().shows_same(published);
                self.reader = Some(reading.leave());
                same
            }
        }
    }
}
