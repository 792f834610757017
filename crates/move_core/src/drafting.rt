//! The drafts of the new routes of a move of each kind, in the memory of others that the caller gives up.
ghost use Rattle.std.specs.Prelude.{◌≡◌, true, IfOk};
ghost use Rattle.plan_core.specs.Drafts.{AreFrontsWithin, drafts_of};
ghost use Rattle.move_core.specs.Moves.{is_possible, changes_by};

use crate::moves::Move;
use crate::parts;
use plan_core::{Drafts, Plan};
use std::alloc::AllocError;

/// What drafts are made of, and in: a plan, and the memory of others that the caller gives up.
pub(crate) struct Drafting<'a> {
    pub(crate) room: Drafts,
    pub(crate) plan: &'a Plan,
}

impl Drafting<'_> {
    #[inline(always)]
    pub(crate) fn by_insert(
        self,
        customer: u32,
        vehicle: u32,
        place: u32,
    ) -> Result<Drafts, AllocError>
        requires { is_possible self.plan.now.customers self.plan.now.routes (Move.Insert customer vehicle place) ≡ true }
        ensures drafts { IfOk result (λ drafts. drafts_of self.entry.plan.now.routes drafts
            ≡ changes_by self.entry.plan.now.routes (Move.Insert customer vehicle place)) }
        ensures fronts { IfOk result (AreFrontsWithin self.entry.plan.now.routes) }
    {
        let Drafting { room, plan } = self;
        let mut drafts = room;
        drafts.clear();
        let route = plan.route(vehicle).customers();
        parts::with_stretch(&mut drafts, vehicle, route, place, &[customer])?;
        Ok(drafts)
    }

    #[inline(always)]
    pub(crate) fn by_remove(self, vehicle: u32, place: u32) -> Result<Drafts, AllocError>
        requires { is_possible self.plan.now.customers self.plan.now.routes (Move.Remove vehicle place) ≡ true }
        ensures drafts { IfOk result (λ drafts. drafts_of self.entry.plan.now.routes drafts
            ≡ changes_by self.entry.plan.now.routes (Move.Remove vehicle place)) }
        ensures fronts { IfOk result (AreFrontsWithin self.entry.plan.now.routes) }
    {
        let Drafting { room, plan } = self;
        let mut drafts = room;
        drafts.clear();
        let route = plan.route(vehicle).customers();
        parts::without(&mut drafts, vehicle, route, place, 1)?;
        Ok(drafts)
    }

    #[inline(always)]
    pub(crate) fn by_shift(
        self,
        vehicle: u32,
        place: u32,
        count: u32,
        to: u32,
        at: u32,
    ) -> Result<Drafts, AllocError>
        requires { is_possible self.plan.now.customers self.plan.now.routes (Move.Shift vehicle place count to at) ≡ true }
        ensures drafts { IfOk result (λ drafts. drafts_of self.entry.plan.now.routes drafts
            ≡ changes_by self.entry.plan.now.routes (Move.Shift vehicle place count to at)) }
        ensures fronts { IfOk result (AreFrontsWithin self.entry.plan.now.routes) }
    {
        let Drafting { room, plan } = self;
        let mut drafts = room;
        drafts.clear();
        let route = plan.route(vehicle).customers();
        if vehicle == to {
            parts::moved_within(&mut drafts, vehicle, route, place, count, at)?;
            return Ok(drafts);
        }
        let there = plan.route(to).customers();
        let moved = parts::stretch(route, place, count);
        parts::without(&mut drafts, vehicle, route, place, count)?;
        parts::with_stretch(&mut drafts, to, there, at, moved)?;
        Ok(drafts)
    }

    #[inline(always)]
    pub(crate) fn by_swap(
        self,
        vehicle: u32,
        place: u32,
        other: u32,
        at: u32,
    ) -> Result<Drafts, AllocError>
        requires { is_possible self.plan.now.customers self.plan.now.routes (Move.Swap vehicle place other at) ≡ true }
        ensures drafts { IfOk result (λ drafts. drafts_of self.entry.plan.now.routes drafts
            ≡ changes_by self.entry.plan.now.routes (Move.Swap vehicle place other at)) }
        ensures fronts { IfOk result (AreFrontsWithin self.entry.plan.now.routes) }
    {
        let Drafting { room, plan } = self;
        let mut drafts = room;
        drafts.clear();
        let route = plan.route(vehicle).customers();
        if vehicle == other {
            parts::swapped_within(&mut drafts, vehicle, route, place, at)?;
            return Ok(drafts);
        }
        let there = plan.route(other).customers();
        let first = route[place as usize - 1];
        let second = there[at as usize - 1];
        parts::with_customer(&mut drafts, vehicle, route, place, second)?;
        parts::with_customer(&mut drafts, other, there, at, first)?;
        Ok(drafts)
    }

    #[inline(always)]
    pub(crate) fn by_reverse(
        self,
        vehicle: u32,
        first: u32,
        last: u32,
    ) -> Result<Drafts, AllocError>
        requires { is_possible self.plan.now.customers self.plan.now.routes (Move.Reverse vehicle first last) ≡ true }
        ensures drafts { IfOk result (λ drafts. drafts_of self.entry.plan.now.routes drafts
            ≡ changes_by self.entry.plan.now.routes (Move.Reverse vehicle first last)) }
        ensures fronts { IfOk result (AreFrontsWithin self.entry.plan.now.routes) }
    {
        let Drafting { room, plan } = self;
        let mut drafts = room;
        drafts.clear();
        let route = plan.route(vehicle).customers();
        parts::reversed_within(&mut drafts, vehicle, route, first, last)?;
        Ok(drafts)
    }

    #[inline(always)]
    pub(crate) fn by_cross(
        self,
        vehicle: u32,
        keep: u32,
        other: u32,
        keep_other: u32,
    ) -> Result<Drafts, AllocError>
        requires { is_possible self.plan.now.customers self.plan.now.routes (Move.Cross vehicle keep other keep_other) ≡ true }
        ensures drafts { IfOk result (λ drafts. drafts_of self.entry.plan.now.routes drafts
            ≡ changes_by self.entry.plan.now.routes (Move.Cross vehicle keep other keep_other)) }
        ensures fronts { IfOk result (AreFrontsWithin self.entry.plan.now.routes) }
    {
        let Drafting { room, plan } = self;
        let mut drafts = room;
        drafts.clear();
        let route = plan.route(vehicle).customers();
        let there = plan.route(other).customers();
        parts::crossed(&mut drafts, vehicle, route, keep, there, keep_other)?;
        parts::crossed(&mut drafts, other, there, keep_other, route, keep)?;
        Ok(drafts)
    }
}
