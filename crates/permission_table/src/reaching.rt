//! For each role the places of the sessions that reach it.
ghost use Rattle.std.specs.Prelude.{◌≡◌, ◌<◌, ◌≤◌, ◌^◌, ◌%◌, ◌==◌, ◌&&◌, ◌||◌, ℕ, true, false, not, [], if◌then◌else◌, length, IfSome, IfNone, OnOk};
ghost use Rattle.role_hierarchy.specs.Roles.{has};
ghost use Rattle.permission_table.specs.Reaching.{is_marked};

use role_hierarchy::RoleSet;
use std::alloc::{AllocError, Global};
use std::marker::Model;

/// For each role a set of places. A block of 256 places has 256 sets, one for each role, so there are as many sets as places. A place in
/// its block is a number below 256, as a role is, so the sets are sets of the same kind.
#[derive(Drop)]
pub struct Reaching {
    sets: Vec<RoleSet>,
}

impl Model for Reaching {
    ghost use Rattle.std.specs.Prelude.{◌≡◌, ◌%◌, ℕ, List, length};

    ghost Value = { List ℕ };

    ghost view = { λ a. a.sets.items };

    ghost invariant = { λ a. length a.sets.items % 256 ≡ 0 };
}

impl Reaching {
    /// No places.
    pub(crate) fn new(alloc: Global) -> Reaching
        ensures { result ≡ [] }
    {
        Reaching {
            sets: Vec::new(alloc),
        }
    }

    /// At least so many places; at those that are new no role is reached.
    pub(crate) fn reserve(&mut self, places: usize) -> Result<(), AllocError>
        ensures whole { length self.new % 256 ≡ 0 }
        ensures longer { length self.old ≤ length self.new }
        ensures room { OnOk result (places ≤ length self.new) }
        ensures same { (role place : ℕ) → role < 256 → place < length self.old →
            is_marked self.new role place ≡ is_marked self.old role place }
        ensures new { (role place : ℕ) → role < 256 → length self.old ≤ place → place < length self.new →
            is_marked self.new role place ≡ false }
    {
        while self.sets.len() < places {
            self.add_block()?;
        }
        Ok(())
    }

    /// One more block of places, at which no role is reached.
    fn add_block(&mut self) -> Result<(), AllocError>
        ensures whole { length self.new % 256 ≡ 0 }
        ensures longer { length self.old ≤ length self.new }
        ensures more { OnOk result (length self.old < length self.new) }
        ensures same { (role place : ℕ) → role < 256 → place < length self.old →
            is_marked self.new role place ≡ is_marked self.old role place }
        ensures new { (role place : ℕ) → role < 256 → length self.old ≤ place → place < length self.new →
            is_marked self.new role place ≡ false }
    {
        let sets = self.sets.len();
        self.sets.resize(sets + 256, RoleSet::new())
    }

    /// At the place these roles are reached, where those were.
    #[inline(always)]
    pub(crate) fn turn(&mut self, place: usize, from: RoleSet, to: RoleSet)
        requires place { place < length self.old }
        requires from { (role : ℕ) → role < 256 → is_marked self.old role place ≡ has from role }
        ensures places { length self.new ≡ length self.old }
        ensures marks { (role q : ℕ) → role < 256 → q < length self.old →
            is_marked self.new role q ≡ (if q == place then has to role else is_marked self.old role q) }
    {
        if from == to {
            return;
        }
        self.leave(place, from);
        self.enter(place, to);
    }

    /// None of these roles is reached at the place.
    fn leave(&mut self, place: usize, roles: RoleSet)
        requires place { place < length self.old }
        ensures places { length self.new ≡ length self.old }
        ensures marks { (role q : ℕ) → role < 256 → q < length self.old →
            is_marked self.new role q ≡ (not (q == place && has roles role) && is_marked self.old role q) }
    {
        let mut from = 0;
        while let Some(role) = roles.next_from(from) {
            self.sets[256 * (place / 256) + role as usize].remove((place % 256) as u8);
            from = role as u32 + 1;
        }
    }

    /// Each of these roles is reached at the place.
    fn enter(&mut self, place: usize, roles: RoleSet)
        requires place { place < length self.old }
        ensures places { length self.new ≡ length self.old }
        ensures marks { (role q : ℕ) → role < 256 → q < length self.old →
            is_marked self.new role q ≡ (q == place && has roles role || is_marked self.old role q) }
    {
        let mut from = 0;
        while let Some(role) = roles.next_from(from) {
            self.sets[256 * (place / 256) + role as usize].insert((place % 256) as u8);
            from = role as u32 + 1;
        }
    }

    /// The first place, from this one on, at which the role is reached.
    #[inline(always)]
    pub(crate) fn next(&self, role: u8, from: usize) -> Option<usize>
        ensures within { IfSome result (λ place. place < length self.now) }
        ensures small { IfSome result (λ place. place < 2 ^ 63) }
        ensures from { IfSome result (λ place. from ≤ place) }
        ensures between { IfSome result (λ place. (q : ℕ) → from ≤ q → q < place → is_marked self.now role q ≡ false) }
        ensures none { IfNone result ((q : ℕ) → from ≤ q → q < length self.now → is_marked self.now role q ≡ false) }
    {
        let mut block = from / 256;
        let mut first = (from % 256) as u32;
        while block < self.sets.len() / 256 {
            if let Some(place) = self.sets[256 * block + role as usize].next_from(first) {
                return Some(256 * block + place as usize);
            }
            block += 1;
            first = 0;
        }
        None
    }
}
