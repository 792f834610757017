//! New routes that are made of old ones.
ghost use Rattle.std.specs.Prelude.{◌≤◌, ◌<◌, ◌↔◌, length, All, IsTrue};
ghost use Rattle.dimension_core.specs.Feasible.{FitsAll};
ghost use Rattle.dimension_core.specs.Setup.{setting};
ghost use Rattle.route_parts.specs.Kept.{AreAhead, AreBehind};
ghost use Rattle.route_parts.specs.Replaced.{joined, replaced};

use crate::fits::fits;
use crate::kept::Kept;
use crate::laws::laws_below;
use crate::parts::Parts;
use dimension_core::Setup;

/// What is driven in place of a stretch of a route: the stretch, by the customers before it and those up to its end, and up to three parts,
/// of which `first` is driven back where `turned` is true.
#[derive(Clone, Copy)]
pub struct Replacement<'a> {
    pub begin: usize,
    pub end: usize,
    pub turned: bool,
    pub first: &'a [u32],
    pub second: &'a [u32],
    pub third: &'a [u32],
}

/// Whether a vehicle's route with a stretch replaced is in bounds, by what is kept of the vehicle, or nothing. Vehicles count from 1.
#[inline(always)]
pub fn replaced_fits(setup: &Setup, v: u32, route: &[u32], by: Replacement, kept: &Kept) -> bool
    requires known { All (λ c. c ≤ (setting setup.now).customers) (replaced route.now by) }
    requires low { 1 ≤ v }
    requires high { v ≤ (setting setup.now).vehicles }
    requires begin { by.begin ≤ length route.now }
    requires end { by.end ≤ length route.now }
    requires ahead { 0 < kept.now.ahead.width → AreAhead (setting setup.now) v route.now kept.now.ahead }
    requires behind { 0 < kept.now.behind.width → AreBehind (setting setup.now) v route.now kept.now.behind }
    ensures { IsTrue result ↔ FitsAll (setting setup.now) v (replaced route.now by.entry) }
{
    laws_below();
    let front = &route[..by.begin];
    let back = &route[by.end..];
    let parts = Parts {
        ahead: &kept.ahead,
        front,
        turned: by.turned,
        first: by.first,
        second: by.second,
        third: by.third,
        back,
        behind: &kept.behind,
    };
    fits(setup, v, &parts)
}

/// The first customers of a route, and behind them those of another route after so many.
#[derive(Clone, Copy)]
pub struct Joining<'a> {
    pub route: &'a [u32],
    pub keep: usize,
    pub other: &'a [u32],
    pub keep_other: usize,
}

/// Whether the first customers of a vehicle's route and the last ones of another's are together in bounds for the vehicle, by what is kept of
/// it beside the other, or nothing. Vehicles count from 1.
#[inline(always)]
pub fn joined_fits(setup: &Setup, v: u32, by: Joining, kept: &Kept) -> bool
    requires known { All (λ c. c ≤ (setting setup.now).customers) (joined by) }
    requires low { 1 ≤ v }
    requires high { v ≤ (setting setup.now).vehicles }
    requires keep { by.keep ≤ length by.route.now }
    requires keep_other { by.keep_other ≤ length by.other.now }
    requires ahead { 0 < kept.now.ahead.width → AreAhead (setting setup.now) v by.route.now kept.now.ahead }
    requires over { 0 < kept.now.over.width → AreBehind (setting setup.now) v by.other.now kept.now.over }
    ensures { IsTrue result ↔ FitsAll (setting setup.now) v (joined by.entry) }
{
    laws_below();
    let none: &[u32] = &[];
    let front = &by.route[..by.keep];
    let back = &by.other[by.keep_other..];
    let parts = Parts {
        ahead: &kept.ahead,
        front,
        turned: false,
        first: none,
        second: none,
        third: none,
        back,
        behind: &kept.over,
    };
    fits(setup, v, &parts)
}
