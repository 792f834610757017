//! What a view allows: a move by the parts of its new routes, and where a move may begin at all.
ghost use Rattle.std.specs.Prelude.{ℕ, ◌⊎◌, ◌≡◌, ◌≢◌, ◌≤◌, ◌<◌, ◌+◌, ◌-◌, ◌++◌, ◌↔◌, [], true, false, length, take, drop, IsTrue, All, Contains};
ghost use Rattle.dimension_core.specs.NewRoutes.{AllFit};
ghost use Rattle.dimension_core.specs.Setting.{Setting};
ghost use Rattle.dimension_core.specs.Setup.{setting};
ghost use Rattle.move_core.specs.declared.moves.Move.TheVariants.{Shift, Swap, Reverse, Cross};
ghost use Rattle.move_core.specs.Moves.{is_possible, changes_by, stretch};
ghost use Rattle.plan_core.specs.Plan.{route_at};
ghost use Rattle.pin_core.specs.Pins.{front_of};
ghost use Rattle.pin_core.specs.View.{pins_of};
ghost use Rattle.move_judge.specs.Scope.{scope};
ghost use Rattle.move_judge.specs.Near.{IsNear};
ghost use Rattle.move_judge.specs.Allowed.{IsAllowed, AreLoose};
ghost use Rattle.move_judge.specs.Given.{Laws};
ghost use Rattle.route_parts.specs.Kept.{AreKept};
ghost use Rattle.route_parts.specs.View.{IsViewOf};

use crate::laws::laws_below;
use dimension_core::Setup;
use move_core::Move;
use pin_core::View;
use route_parts::{Joining, Kept, Replacement, joined_fits, replaced_fits};

/// The customers of a route from one place on, before another.
fn part(route: &[u32], from: u32, to: u32) -> &[u32]
    requires low { 1 ≤ from }
    requires order { from ≤ to }
    requires high { to ≤ length route.now + 1 }
    ensures { result.now ≡ take (to - from) (drop (from - 1) route.now) }
{
    &route[from as usize - 1..to as usize - 1]
}

/// The customers of a route after so many.
fn back_of(route: &[u32], count: usize) -> &[u32]
    requires { count ≤ length route.now }
    ensures { result.now ≡ drop count route.now }
{
    &route[count..]
}

/// Whether none of some customers is pinned.
fn are_loose(view: &View, customers: &[u32]) -> bool
    requires laws { Laws }
    requires known { All (λ c. (1 ≤ c) × (c ≤ length view.now.pinned)) customers.now }
    ensures { IsTrue result ↔ AreLoose (pins_of view.now) customers.now }
{
    for customer in customers {
        if view.is_pinned(*customer) {
            return false;
        }
    }
    true
}

/// The first place at which a vehicle's route may change: the one after its frozen front. Vehicles and places count from 1.
pub fn first_free(view: &View, setup: &Setup, v: u32) -> u32
    requires view { IsViewOf (setting setup.now) view.now }
    requires v { (1 ≤ v) × (v ≤ length view.now.routes) }
    ensures value { result ≡ front_of (pins_of view.now) v + 1 }
    ensures high { result ≤ length (route_at view.now.routes v) + 1 }
{
    laws_below();
    let _customers = setup.customers();
    view.front(v) + 1
}

/// Whether so many customers from a place on may leave their vehicle: they stand behind its frozen front, and none is pinned.
pub fn may_leave(view: &View, setup: &Setup, v: u32, place: u32, count: u32) -> bool
    requires view { IsViewOf (setting setup.now) view.now }
    requires v { (1 ≤ v) × (v ≤ length view.now.routes) }
    requires low { 1 ≤ place }
    requires high { place + count ≤ length (route_at view.now.routes v) + 1 }
    ensures { IsTrue result ↔ (front_of (pins_of view.now) v < place)
        × AreLoose (pins_of view.now) (stretch (route_at view.now.routes v) place count) }
{
    laws_below();
    if place < first_free(view, setup, v) {
        return false;
    }
    are_loose(view, part(view.customers(v), place, place + count))
}

/// How many customers from a place on may leave their vehicle together, up to three: none where they stand in its frozen front, and none
/// from the first one on that is pinned.
pub fn loose_from(view: &View, setup: &Setup, v: u32, place: u32) -> u32
    requires view { IsViewOf (setting setup.now) view.now }
    requires v { (1 ≤ v) × (v ≤ length view.now.routes) }
    requires low { 1 ≤ place }
    ensures few { result ≤ 3 }
    ensures loose { 1 ≤ result → (place + result ≤ length (route_at view.now.routes v) + 1)
        × ((front_of (pins_of view.now) v < place) × AreLoose (pins_of view.now) (stretch (route_at view.now.routes v) place result)) }
    ensures most { (count : ℕ) → count ≤ 3 → place + count ≤ length (route_at view.now.routes v) + 1
        → (front_of (pins_of view.now) v < place) × AreLoose (pins_of view.now) (stretch (route_at view.now.routes v) place count)
        → count ≤ result }
{
    laws_below();
    if place < first_free(view, setup, v) {
        return 0;
    }
    let _customers = setup.customers();
    let route = view.customers(v);
    for k in 0..3usize {
        let index = place as usize - 1 + k;
        if index >= route.len() {
            return k as u32;
        }
        if view.is_pinned(route[index]) {
            return k as u32;
        }
    }
    3
}

/// How many of its first customers a vehicle has to keep in a cross: those of its frozen front, and all up to the last one that is pinned.
pub fn must_keep(view: &View, setup: &Setup, v: u32) -> u32
    requires view { IsViewOf (setting setup.now) view.now }
    requires v { (1 ≤ v) × (v ≤ length view.now.routes) }
    ensures high { result ≤ length (route_at view.now.routes v) }
    ensures enough { (front_of (pins_of view.now) v ≤ result) × AreLoose (pins_of view.now) (drop result (route_at view.now.routes v)) }
    ensures held { (k : ℕ) → k < result → (k < front_of (pins_of view.now) v)
        ⊎ ¬ AreLoose (pins_of view.now) (drop k (route_at view.now.routes v)) }
{
    laws_below();
    let _customers = setup.customers();
    let route = view.customers(v);
    let mut keep = view.front(v);
    for place in 0..route.len() as u32 {
        if view.is_pinned(route[place as usize]) {
            keep = keep.max(place + 1);
        }
    }
    keep
}

/// Whether a move is to be skipped.
fn is_skipped(skip: &[Move], mv: &Move) -> bool
    ensures { IsTrue result ↔ Contains skip.now mv.now }
{
    if skip.is_empty() {
        return false;
    }
    skip.contains(mv)
}

/// Two vehicles, which may be one and count from 1, and what is kept of each beside the other: what `Kept::keep_between` or
/// `Kept::keep_alone` kept last, or nothing.
#[derive(Clone, Copy)]
pub struct Pair<'a> {
    pub v: u32,
    pub w: u32,
    pub v_kept: &'a Kept,
    pub w_kept: &'a Kept,
}

/// Some customers of a route, from a place on.
#[derive(Clone, Copy)]
struct Moved {
    place: u32,
    length: u32,
}

/// Whether the new route of a shift inside a vehicle is in bounds.
fn shift_inside_fits(view: &View, setup: &Setup, v: u32, moved: Moved, at: u32, kept: &Kept) -> bool
    requires laws { Laws }
    requires kept { AreKept (setting setup.now) view.now.routes v v kept.now }
    requires view { IsViewOf (setting setup.now) view.now }
    requires possible { is_possible (setting setup.now).customers view.now.routes (Shift v moved.place moved.length v at) ≡ true }
    ensures { IsTrue result ↔ AllFit (setting setup.now) (changes_by view.now.routes (Shift v moved.place moved.length v at)) }
{
    let none: &[u32] = &[];
    let route = view.customers(v);
    let begin = moved.place as usize - 1;
    let onto = at as usize - 1;
    let length = moved.length as usize;
    let stretch = &route[begin..begin + length];
    let by = if onto < begin {
        Replacement {
            begin: onto,
            end: begin + length,
            turned: false,
            first: stretch,
            second: &route[onto..begin],
            third: none,
        }
    } else {
        Replacement {
            begin,
            end: onto + length,
            turned: false,
            first: &route[begin + length..onto + length],
            second: stretch,
            third: none,
        }
    };
    replaced_fits(setup, v, route, by, kept)
}

/// Whether the new route of a swap inside a vehicle, named from its first place, is in bounds.
fn swap_inside_fits(view: &View, setup: &Setup, v: u32, place: u32, at: u32, kept: &Kept) -> bool
    requires laws { Laws }
    requires kept { AreKept (setting setup.now) view.now.routes v v kept.now }
    requires view { IsViewOf (setting setup.now) view.now }
    requires possible { is_possible (setting setup.now).customers view.now.routes (Swap v place v at) ≡ true }
    requires order { place < at }
    ensures { IsTrue result ↔ AllFit (setting setup.now) (changes_by view.now.routes (Swap v place v at)) }
{
    let route = view.customers(v);
    let place = place as usize;
    let at = at as usize;
    let by = Replacement {
        begin: place - 1,
        end: at,
        turned: false,
        first: &route[at - 1..at],
        second: &route[place..at - 1],
        third: &route[place - 1..place],
    };
    replaced_fits(setup, v, route, by, kept)
}

/// Whether the new route of a reverse is in bounds.
fn reverse_fits(view: &View, setup: &Setup, v: u32, first: u32, last: u32, kept: &Kept) -> bool
    requires laws { Laws }
    requires kept { AreKept (setting setup.now) view.now.routes v v kept.now }
    requires view { IsViewOf (setting setup.now) view.now }
    requires possible { is_possible (setting setup.now).customers view.now.routes (Reverse v first last) ≡ true }
    ensures { IsTrue result ↔ AllFit (setting setup.now) (changes_by view.now.routes (Reverse v first last)) }
{
    let none: &[u32] = &[];
    let route = view.customers(v);
    let begin = first as usize - 1;
    let end = last as usize;
    let by = Replacement {
        begin,
        end,
        turned: true,
        first: &route[begin..end],
        second: none,
        third: none,
    };
    replaced_fits(setup, v, route, by, kept)
}

/// Whether the new routes of a shift between two vehicles are in bounds.
fn shift_fits(view: &View, setup: &Setup, pair: Pair, place: u32, length: u32, at: u32) -> bool
    requires laws { Laws }
    requires v_kept { AreKept (setting setup.now) view.now.routes pair.v pair.w pair.v_kept.now }
    requires w_kept { AreKept (setting setup.now) view.now.routes pair.w pair.v pair.w_kept.now }
    requires view { IsViewOf (setting setup.now) view.now }
    requires possible { is_possible (setting setup.now).customers view.now.routes (Shift pair.v place length pair.w at) ≡ true }
    requires apart { pair.v ≢ pair.w }
    ensures { IsTrue result ↔ AllFit (setting setup.now) (changes_by view.now.routes (Shift pair.entry.v place length pair.entry.w at)) }
{
    let none: &[u32] = &[];
    let route = view.customers(pair.v);
    let begin = place as usize - 1;
    let end = begin + length as usize;
    let taken = Replacement {
        begin,
        end,
        turned: false,
        first: none,
        second: none,
        third: none,
    };
    if !replaced_fits(setup, pair.v, route, taken, pair.v_kept) {
        return false;
    }
    let other = view.customers(pair.w);
    let onto = at as usize - 1;
    let given = Replacement {
        begin: onto,
        end: onto,
        turned: false,
        first: &route[begin..end],
        second: none,
        third: none,
    };
    replaced_fits(setup, pair.w, other, given, pair.w_kept)
}

/// Whether the new routes of a swap between two vehicles are in bounds.
fn swap_fits(view: &View, setup: &Setup, pair: Pair, place: u32, at: u32) -> bool
    requires laws { Laws }
    requires v_kept { AreKept (setting setup.now) view.now.routes pair.v pair.w pair.v_kept.now }
    requires w_kept { AreKept (setting setup.now) view.now.routes pair.w pair.v pair.w_kept.now }
    requires view { IsViewOf (setting setup.now) view.now }
    requires possible { is_possible (setting setup.now).customers view.now.routes (Swap pair.v place pair.w at) ≡ true }
    requires apart { pair.v ≢ pair.w }
    ensures { IsTrue result ↔ AllFit (setting setup.now) (changes_by view.now.routes (Swap pair.entry.v place pair.entry.w at)) }
{
    let none: &[u32] = &[];
    let route = view.customers(pair.v);
    let other = view.customers(pair.w);
    let place = place as usize;
    let at = at as usize;
    let there = Replacement {
        begin: place - 1,
        end: place,
        turned: false,
        first: &other[at - 1..at],
        second: none,
        third: none,
    };
    if !replaced_fits(setup, pair.v, route, there, pair.v_kept) {
        return false;
    }
    let here = Replacement {
        begin: at - 1,
        end: at,
        turned: false,
        first: &route[place - 1..place],
        second: none,
        third: none,
    };
    replaced_fits(setup, pair.w, other, here, pair.w_kept)
}

/// Whether the new routes of a cross are in bounds.
fn cross_fits(view: &View, setup: &Setup, pair: Pair, keep: u32, keep_other: u32) -> bool
    requires laws { Laws }
    requires v_kept { AreKept (setting setup.now) view.now.routes pair.v pair.w pair.v_kept.now }
    requires w_kept { AreKept (setting setup.now) view.now.routes pair.w pair.v pair.w_kept.now }
    requires view { IsViewOf (setting setup.now) view.now }
    requires possible { is_possible (setting setup.now).customers view.now.routes (Cross pair.v keep pair.w keep_other) ≡ true }
    ensures { IsTrue result ↔ AllFit (setting setup.now) (changes_by view.now.routes (Cross pair.entry.v keep pair.entry.w keep_other)) }
{
    let route = view.customers(pair.v);
    let other = view.customers(pair.w);
    let keep = keep as usize;
    let keep_other = keep_other as usize;
    let here = Joining {
        route,
        keep,
        other,
        keep_other,
    };
    if !joined_fits(setup, pair.v, here, pair.v_kept) {
        return false;
    }
    let there = Joining {
        route: other,
        keep: keep_other,
        other: route,
        keep_other: keep,
    };
    joined_fits(setup, pair.w, there, pair.w_kept)
}

/// Whether a shift between two vehicles keeps the frozen fronts and the pins.
#[inline(always)]
fn may_shift(view: &View, setup: &Setup, v: u32, moved: Moved, w: u32, at: u32) -> bool
    requires laws { Laws }
    requires view { IsViewOf (setting setup.now) view.now }
    requires possible { is_possible (setting setup.now).customers view.now.routes (Shift v moved.place moved.length w at) ≡ true }
    requires apart { v ≢ w }
    ensures { IsTrue result ↔ IsAllowed (scope false (setting setup.now)) view.now [] (Shift v moved.place moved.length w at) }
{
    if at < first_free(view, setup, w) {
        return false;
    }
    may_leave(view, setup, v, moved.place, moved.length)
}

/// Whether a shift inside a vehicle keeps its frozen front.
#[inline(always)]
fn may_shift_inside(view: &View, setup: &Setup, v: u32, place: u32, at: u32) -> bool
    requires laws { Laws }
    requires view { IsViewOf (setting setup.now) view.now }
    requires v { (1 ≤ v) × (v ≤ length view.now.routes) }
    ensures { (n : ℕ) → is_possible (setting setup.now).customers view.now.routes (Shift v place n v at) ≡ true
        → IsTrue result ↔ IsAllowed (scope false (setting setup.now)) view.now [] (Shift v place n v at) }
{
    let begin = first_free(view, setup, v);
    if place < begin {
        return false;
    }
    if at < begin {
        return false;
    }
    true
}

/// Whether a swap between two vehicles keeps the frozen fronts and the pins.
#[inline(always)]
fn may_swap(view: &View, setup: &Setup, v: u32, place: u32, w: u32, at: u32) -> bool
    requires laws { Laws }
    requires view { IsViewOf (setting setup.now) view.now }
    requires possible { is_possible (setting setup.now).customers view.now.routes (Swap v place w at) ≡ true }
    requires apart { v ≢ w }
    ensures { IsTrue result ↔ IsAllowed (scope false (setting setup.now)) view.now [] (Swap v place w at) }
{
    if !may_leave(view, setup, v, place, 1) {
        return false;
    }
    may_leave(view, setup, w, at, 1)
}

/// Whether a swap inside a vehicle, named from its first place, keeps its frozen front.
#[inline(always)]
fn may_swap_inside(view: &View, setup: &Setup, v: u32, place: u32) -> bool
    requires laws { Laws }
    requires view { IsViewOf (setting setup.now) view.now }
    requires v { (1 ≤ v) × (v ≤ length view.now.routes) }
    ensures { (at : ℕ) → place < at → is_possible (setting setup.now).customers view.now.routes (Swap v place v at) ≡ true
        → IsTrue result ↔ IsAllowed (scope false (setting setup.now)) view.now [] (Swap v place v at) }
{
    if place < first_free(view, setup, v) {
        return false;
    }
    true
}

/// Whether a reverse keeps the frozen front.
#[inline(always)]
fn may_reverse(view: &View, setup: &Setup, v: u32, first: u32) -> bool
    requires laws { Laws }
    requires view { IsViewOf (setting setup.now) view.now }
    requires v { (1 ≤ v) × (v ≤ length view.now.routes) }
    ensures { (last : ℕ) → is_possible (setting setup.now).customers view.now.routes (Reverse v first last) ≡ true
        → IsTrue result ↔ IsAllowed (scope false (setting setup.now)) view.now [] (Reverse v first last) }
{
    if first < first_free(view, setup, v) {
        return false;
    }
    true
}

/// Whether all customers of a vehicle but the first ones may leave it: these are its frozen front at least, and none of the others is
/// pinned.
#[inline(always)]
fn may_part(view: &View, v: u32, keep: u32) -> bool
    requires laws { Laws }
    requires view { (s : Setting) × IsViewOf s view.now }
    requires v { (1 ≤ v) × (v ≤ length view.now.routes) }
    requires keep { keep ≤ length (route_at view.now.routes v) }
    ensures { IsTrue result ↔ (front_of (pins_of view.now) v < keep + 1)
        × AreLoose (pins_of view.now) (drop keep (route_at view.now.routes v)) }
{
    if keep < view.front(v) {
        return false;
    }
    are_loose(view, back_of(view.customers(v), keep as usize))
}

/// Whether a cross keeps the frozen fronts and the pins.
#[inline(always)]
fn may_cross(view: &View, setup: &Setup, v: u32, keep: u32, w: u32, keep_other: u32) -> bool
    requires laws { Laws }
    requires view { IsViewOf (setting setup.now) view.now }
    requires possible { is_possible (setting setup.now).customers view.now.routes (Cross v keep w keep_other) ≡ true }
    ensures { IsTrue result ↔ IsAllowed (scope false (setting setup.now)) view.now [] (Cross v keep w keep_other) }
{
    if !may_part(view, v, keep) {
        return false;
    }
    may_part(view, w, keep_other)
}

/// Whether a move near two vehicles, or near one, that has an effect keeps the frozen fronts and the pins.
#[inline(always)]
fn may_go(view: &View, setup: &Setup, mv: Move) -> bool
    requires laws { Laws }
    requires view { IsViewOf (setting setup.now) view.now }
    requires possible { is_possible (setting setup.now).customers view.now.routes mv ≡ true }
    requires near { (v : ℕ) × ((w : ℕ) × IsNear v w mv) }
    ensures { IsTrue result ↔ IsAllowed (scope false (setting setup.now)) view.now [] mv }
{
    match mv {
        Move::Shift {
            vehicle,
            place,
            length,
            to,
            at,
        } => {
            if vehicle == to {
                may_shift_inside(view, setup, vehicle, place, at)
            } else {
                may_shift(view, setup, vehicle, Moved { place, length }, to, at)
            }
        }
        Move::Swap {
            vehicle,
            place,
            other,
            at,
        } => {
            if vehicle == other {
                may_swap_inside(view, setup, vehicle, place)
            } else {
                may_swap(view, setup, vehicle, place, other, at)
            }
        }
        Move::Reverse { vehicle, first, .. } => may_reverse(view, setup, vehicle, first),
        Move::Cross {
            vehicle,
            keep,
            other,
            keep_other,
        } => may_cross(view, setup, vehicle, keep, other, keep_other),
        Move::Insert { .. } | Move::Remove { .. } => false,
    }
}

/// Whether a move near two vehicles, or near one, that has an effect keeps the frozen fronts and the pins and is not to be skipped: whether
/// it is allowed, with the dimensions left out.
#[inline(never)]
pub fn is_free(view: &View, setup: &Setup, skip: &[Move], v: u32, w: u32, mv: Move) -> bool
    requires view { IsViewOf (setting setup.now) view.now }
    requires possible { is_possible (setting setup.now).customers view.now.routes mv ≡ true }
    requires near { IsNear v w mv }
    ensures { IsTrue result ↔ IsAllowed (scope false (setting setup.now)) view.now skip.now mv }
{
    laws_below();
    if is_skipped(skip, &mv) {
        return false;
    }
    may_go(view, setup, mv)
}

/// Whether the new routes of a move near two vehicles, or near one, that has an effect are in bounds.
#[inline(never)]
pub fn fits_after(view: &View, setup: &Setup, pair: Pair, mv: Move) -> bool
    requires v_kept { AreKept (setting setup.now) view.now.routes pair.v pair.w pair.v_kept.now }
    requires w_kept { AreKept (setting setup.now) view.now.routes pair.w pair.v pair.w_kept.now }
    requires view { IsViewOf (setting setup.now) view.now }
    requires possible { is_possible (setting setup.now).customers view.now.routes mv ≡ true }
    requires near { IsNear pair.v pair.w mv }
    ensures { IsTrue result ↔ AllFit (setting setup.now) (changes_by view.now.routes mv) }
{
    laws_below();
    match mv {
        Move::Shift {
            vehicle,
            place,
            length,
            to,
            at,
        } => {
            if vehicle == to {
                shift_inside_fits(
                    view,
                    setup,
                    vehicle,
                    Moved { place, length },
                    at,
                    pair.v_kept,
                )
            } else {
                shift_fits(view, setup, pair, place, length, at)
            }
        }
        Move::Swap {
            vehicle,
            place,
            other,
            at,
        } => {
            if vehicle == other {
                swap_inside_fits(view, setup, vehicle, place, at, pair.v_kept)
            } else {
                swap_fits(view, setup, pair, place, at)
            }
        }
        Move::Reverse {
            vehicle,
            first,
            last,
        } => reverse_fits(view, setup, vehicle, first, last, pair.v_kept),
        Move::Cross {
            keep,
            keep_other,
            ..
        } => cross_fits(view, setup, pair, keep, keep_other),
        Move::Insert { .. } | Move::Remove { .. } => false,
    }
}
