//! The parts of which a new route is made.

use crate::kept::Spans;

/// A new route by its parts, of which `first` is driven back where `turned` is true; and what is kept of the cumuls after `front` and
/// before `back`, or nothing.
#[derive(Clone, Copy)]
pub(crate) struct Parts<'a> {
    pub(crate) ahead: &'a Spans,
    pub(crate) front: &'a [u32],
    pub(crate) turned: bool,
    pub(crate) first: &'a [u32],
    pub(crate) second: &'a [u32],
    pub(crate) third: &'a [u32],
    pub(crate) back: &'a [u32],
    pub(crate) behind: &'a Spans,
}
