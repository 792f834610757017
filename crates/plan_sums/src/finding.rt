//! Where the last listing of an output stands.

ghost use Rattle.std.specs.Prelude.{◌≡◌, ◌+◌, ◌^◌, ◌<◌, ℕ, List, length, map, IfOk};
ghost use Rattle.plan_sums.specs.Lines.{IsFound, kind_at};
ghost use Rattle.plan_sums.specs.Progress.{IsSearched};

use crate::lines::{Kind, kind_of};
use std::alloc::{AllocError, Global};

/// The places, among the lines of an output and from 0, of the first row of a listing and of the line that ends it.
#[derive(Clone, Copy)]
pub(crate) struct Span {
    pub(crate) first: usize,
    pub(crate) end: usize,
}

/// A search for the last listing: where the rows begin that come together up to here, and the last listing so far.
#[derive(Clone, Copy)]
pub(crate) struct Search {
    pub(crate) first: usize,
    pub(crate) found: Option<Span>,
}

impl Search {
    /// The search behind one more line, the one at a place.
    fn behind(self, k: usize, kind: Kind) -> Search
        requires { k + 1 < 2 ^ 64 }
        ensures { (lines : List (List ℕ)) → k < length lines → IsSearched lines k self
            → kind ≡ kind_at lines k → IsSearched lines (k + 1) result }
    {
        match kind {
            Kind::Row => self,
            Kind::Other => Search {
                first: k + 1,
                found: self.found,
            },
            Kind::End if self.first < k => Search {
                first: k + 1,
                found: Some(Span {
                    first: self.first,
                    end: k,
                }),
            },
            Kind::End => Search {
                first: k + 1,
                found: self.found,
            },
        }
    }
}

/// The last listing: one row or more, all that come together, and the line `end` right behind them.
pub(crate) fn last_listing(alloc: Global, lines: &[&[u8]]) -> Result<Option<Span>, AllocError>
    ensures { IfOk result (IsFound (map (λ w. w.now) lines.now)) }
{
    let mut words = Vec::new(alloc);
    let mut search = Search {
        first: 0,
        found: None,
    };
    for k in 0..lines.len() {
        search = search.behind(k, kind_of(&mut words, lines[k])?);
    }
    Ok(search.found)
}
