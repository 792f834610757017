//! New routes as they are judged: how much of the old ones stays, and what follows. They are written only where they are put in place.
ghost use Rattle.std.specs.Prelude.{◌≡◌, ◌<◌, ◌≤◌, ◌++◌, ◌∷◌, [], length, take, reverse, OnOk};

use crate::append::{append_part, refill};
use std::alloc::{AllocError, Global};
use std::marker::Model;

/// The new route of a vehicle: the first customers of its route in the plan, and the rest, which follows them.
#[derive(Drop)]
pub struct Draft {
    vehicle: u32,
    kept: u32,
    rest: Vec<u32>,
}

impl Model for Draft {
    ghost use Rattle.plan_core.specs.Drafts.{DraftState};

    ghost Value = { DraftState };

    ghost view = { λ a. record { vehicle = a.vehicle; kept = a.kept; rest = a.rest.items } };
}

impl Draft {
    /// The vehicle, counted from 1.
    pub fn vehicle(&self) -> u32
        ensures { result ≡ self.now.vehicle }
    {
        self.vehicle
    }

    /// How many of the first customers of the vehicle's route stay where they are.
    pub fn kept(&self) -> usize
        ensures { result ≡ self.now.kept }
    {
        self.kept as usize
    }

    /// The customers after those, in order.
    pub fn rest(&self) -> &[u32]
        ensures { result.now ≡ self.now.rest }
    {
        self.rest.as_slice()
    }

    /// Makes it that of a vehicle, with a rest of four parts, one after the other.
    #[inline(always)]
    fn fill(
        &mut self,
        vehicle: u32,
        kept: u32,
        first: &[u32],
        second: &[u32],
        third: &[u32],
        last: &[u32],
    ) -> Result<(), AllocError>
        ensures { OnOk result (self.new ≡ record {
          vehicle = vehicle;
          kept = kept;
          rest = first.now ++ (second.now ++ (third.now ++ last.now));
        }) }
    {
        self.vehicle = vehicle;
        self.kept = kept;
        refill(&mut self.rest, first, second, third, last)
    }

    /// Makes it that of a vehicle, with a rest that begins with a part in the opposite order.
    #[inline(always)]
    fn fill_turned(
        &mut self,
        vehicle: u32,
        kept: u32,
        turned: &[u32],
        last: &[u32],
    ) -> Result<(), AllocError>
        ensures { OnOk result (self.new ≡ record { vehicle = vehicle; kept = kept; rest = reverse turned.now ++ last.now }) }
    {
        self.vehicle = vehicle;
        self.kept = kept;
        self.rest.clear();
        self.rest.reserve(turned.len() + last.len())?;
        append_part(&mut self.rest, turned)?;
        self.rest.reverse();
        append_part(&mut self.rest, last)
    }
}

/// The drafts of one move, in memory that is kept for those of the next.
#[derive(Drop)]
pub struct Drafts {
    count: usize,
    list: Vec<Draft>,
}

impl Model for Drafts {
    ghost use Rattle.std.specs.Prelude.{◌≤◌, List, length, take};
    ghost use Rattle.plan_core.specs.Drafts.{DraftState};

    ghost Value = { List DraftState };

    ghost view = { λ a. take a.count a.list.items };

    ghost invariant = { λ a. a.count ≤ length a.list.items };
}

impl Drafts {
    /// No drafts, without memory.
    pub fn new(alloc: Global) -> Drafts
        ensures { result ≡ [] }
    {
        Drafts {
            count: 0,
            list: Vec::new(alloc),
        }
    }

    /// Forgets the drafts, and keeps their memory.
    pub fn clear(&mut self)
        ensures { self.new ≡ [] }
    {
        self.count = 0;
    }

    /// The drafts, in order.
    pub fn as_slice(&self) -> &[Draft]
        ensures { result.now ≡ self.now }
    {
        &self.list[..self.count]
    }

    /// Adds the draft of a vehicle whose rest is four parts, one after the other.
    #[inline(always)]
    pub fn add(
        &mut self,
        vehicle: u32,
        kept: u32,
        first: &[u32],
        second: &[u32],
        third: &[u32],
        last: &[u32],
    ) -> Result<(), AllocError>
        ensures { OnOk result (self.new ≡ self.old ++ (record {
          vehicle = vehicle;
          kept = kept;
          rest = first.now ++ (second.now ++ (third.now ++ last.now));
        } ∷ [])) }
    {
        hold_more(&mut self.list, self.count)?;
        let draft = &mut self.list[self.count];
        draft.fill(vehicle, kept, first, second, third, last)?;
        self.count += 1;
        Ok(())
    }

    /// Adds the draft of a vehicle whose rest begins with a part in the opposite order.
    #[inline(always)]
    pub fn add_turned(
        &mut self,
        vehicle: u32,
        kept: u32,
        turned: &[u32],
        last: &[u32],
    ) -> Result<(), AllocError>
        ensures { OnOk result (self.new
            ≡ self.old ++ (record { vehicle = vehicle; kept = kept; rest = reverse turned.now ++ last.now } ∷ [])) }
    {
        hold_more(&mut self.list, self.count)?;
        let draft = &mut self.list[self.count];
        draft.fill_turned(vehicle, kept, turned, last)?;
        self.count += 1;
        Ok(())
    }
}

/// Makes a list hold more than so many drafts, of which it has at least as many.
#[inline(always)]
fn hold_more(list: &mut Vec<Draft>, count: usize) -> Result<(), AllocError>
    requires { count ≤ length list.old.items }
    ensures more { OnOk result (count < length list.new.items) }
    ensures same { take count list.new.items ≡ take count list.old.items }
{
    if count < list.len() {
        return Ok(());
    }
    let alloc = *list.allocator();
    list.push(Draft {
        vehicle: 0,
        kept: 0,
        rest: Vec::new(alloc),
    })?;
    Ok(())
}
