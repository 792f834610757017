//! What is searched, and what is gathered of it.

use dimension_core::Setup;
use move_core::Move;
use move_judge::Kept;
use pin_core::View;

/// What is searched: the moves near two vehicles of a plan, or inside one, but those to be skipped. Where `bounded` is false, the
/// dimensions are left out. What is kept of these for each vehicle is as `fits_after` says it.
#[derive(Clone, Copy)]
pub struct Search<'a> {
    pub view: &'a View,
    pub setup: &'a Setup,
    pub skip: &'a [Move],
    pub bounded: bool,
    pub v: u32,
    pub w: u32,
    pub v_kept: &'a Kept,
    pub w_kept: &'a Kept,
}

/// The stops of the first vehicle and of the second, which may be one, and the ways along each, none of the second dearer than `most`; and
/// the ways from each stop of the first to each of the second, and back.
#[derive(Clone, Copy)]
pub struct Gathered<'a> {
    pub from: &'a [u32],
    pub to: &'a [u32],
    pub from_edges: &'a [u32],
    pub to_edges: &'a [u32],
    pub most: u32,
    pub out: &'a [u32],
    pub into: &'a [u32],
}
