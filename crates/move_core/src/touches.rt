//! The touches of a move of each kind, in the memory of a list that the caller gives up.
ghost use Rattle.std.specs.Prelude.{◌≡◌, true, IfOk};
ghost use Rattle.move_core.specs.Moves.{is_possible};
ghost use Rattle.move_core.specs.Touched.{touched_by};

use crate::moves::Move;
use crate::parts;
use plan_core::{Plan, Touch};
use std::alloc::AllocError;

/// What touches are listed of, and in: a plan, and the memory of a list that the caller gives up.
pub(crate) struct Touching<'a> {
    pub(crate) room: Vec<Touch>,
    pub(crate) plan: &'a Plan,
}

impl Touching<'_> {
    #[inline(always)]
    pub(crate) fn of_insert(
        self,
        customer: u32,
        vehicle: u32,
        place: u32,
    ) -> Result<Vec<Touch>, AllocError>
        requires { is_possible self.plan.now.customers self.plan.now.routes (Move.Insert customer vehicle place) ≡ true }
        ensures { IfOk result (λ touched. touched.items ≡ touched_by self.entry.plan.now.routes (Move.Insert customer vehicle place)) }
    {
        let Touching { room, plan: _ } = self;
        let mut touched = parts::emptied(room, 1)?;
        touched.push(Touch {
            vehicle,
            place,
            customer,
        })?;
        Ok(touched)
    }

    #[inline(always)]
    pub(crate) fn of_remove(self, vehicle: u32, place: u32) -> Result<Vec<Touch>, AllocError>
        requires { is_possible self.plan.now.customers self.plan.now.routes (Move.Remove vehicle place) ≡ true }
        ensures { IfOk result (λ touched. touched.items ≡ touched_by self.entry.plan.now.routes (Move.Remove vehicle place)) }
    {
        let Touching { room, plan } = self;
        let mut touched = parts::emptied(room, 1)?;
        let route = plan.route(vehicle).customers();
        parts::push_touches(&mut touched, vehicle, place, &[route[place as usize - 1]])?;
        Ok(touched)
    }

    #[inline(always)]
    pub(crate) fn of_shift(
        self,
        vehicle: u32,
        place: u32,
        count: u32,
        to: u32,
        at: u32,
    ) -> Result<Vec<Touch>, AllocError>
        requires { is_possible self.plan.now.customers self.plan.now.routes (Move.Shift vehicle place count to at) ≡ true }
        ensures { IfOk result (λ touched. touched.items ≡ touched_by self.entry.plan.now.routes (Move.Shift vehicle place count to at)) }
    {
        let Touching { room, plan } = self;
        let mut touched = parts::emptied(room, count as usize)?;
        let route = plan.route(vehicle).customers();
        parts::push_touches(
            &mut touched,
            vehicle,
            place,
            parts::stretch(route, place, count),
        )?;
        Ok(touched)
    }

    #[inline(always)]
    pub(crate) fn of_swap(
        self,
        vehicle: u32,
        place: u32,
        other: u32,
        at: u32,
    ) -> Result<Vec<Touch>, AllocError>
        requires { is_possible self.plan.now.customers self.plan.now.routes (Move.Swap vehicle place other at) ≡ true }
        ensures { IfOk result (λ touched. touched.items ≡ touched_by self.entry.plan.now.routes (Move.Swap vehicle place other at)) }
    {
        let Touching { room, plan } = self;
        let mut touched = parts::emptied(room, 2)?;
        let route = plan.route(vehicle).customers();
        let there = plan.route(other).customers();
        parts::push_touches(&mut touched, vehicle, place, &[route[place as usize - 1]])?;
        parts::push_touches(&mut touched, other, at, &[there[at as usize - 1]])?;
        Ok(touched)
    }

    #[inline(always)]
    pub(crate) fn of_reverse(
        self,
        vehicle: u32,
        first: u32,
        last: u32,
    ) -> Result<Vec<Touch>, AllocError>
        requires { is_possible self.plan.now.customers self.plan.now.routes (Move.Reverse vehicle first last) ≡ true }
        ensures { IfOk result (λ touched. touched.items ≡ touched_by self.entry.plan.now.routes (Move.Reverse vehicle first last)) }
    {
        let Touching { room, plan } = self;
        let count = last - first + 1;
        let mut touched = parts::emptied(room, count as usize)?;
        let route = plan.route(vehicle).customers();
        parts::push_touches(
            &mut touched,
            vehicle,
            first,
            parts::stretch(route, first, count),
        )?;
        Ok(touched)
    }

    #[inline(always)]
    pub(crate) fn of_cross(
        self,
        vehicle: u32,
        keep: u32,
        other: u32,
        keep_other: u32,
    ) -> Result<Vec<Touch>, AllocError>
        requires { is_possible self.plan.now.customers self.plan.now.routes (Move.Cross vehicle keep other keep_other) ≡ true }
        ensures { IfOk result (λ touched. touched.items
            ≡ touched_by self.entry.plan.now.routes (Move.Cross vehicle keep other keep_other)) }
    {
        let Touching { room, plan } = self;
        let tail = &plan.route(vehicle).customers()[keep as usize..];
        let other_tail = &plan.route(other).customers()[keep_other as usize..];
        let mut touched = parts::emptied(room, tail.len() + other_tail.len())?;
        parts::push_touches(&mut touched, vehicle, keep + 1, tail)?;
        parts::push_touches(&mut touched, other, keep_other + 1, other_tail)?;
        Ok(touched)
    }
}
