//! Operations on objects, and sets of objects: the OPS and OBS of ANSI INCITS 359-2004, 6.1.
ghost use Rattle.std.specs.Prelude.{◌≡◌, ◌<◌, ◌≤◌, ◌+◌, ◌-◌, ◌*◌, ◌^◌};
ghost use Rattle.role_hierarchy.specs.Roles.{has, with_role, without};
ghost use Rattle.std.specs.Prelude.{is_some, is_none, IfSome};
ghost use Rattle.role_hierarchy.specs.Words.{joined};
ghost use Rattle.permission_core.specs.Objects.{AreWords, index_of, number_of, is_object, first_of, size_of, is_bad_range, with_range, without_range};

use limits::{MOST_CUSTOMERS, MOST_VEHICLES};
use std::marker::Model;

/// How many operations there are. A role has a row for each.
pub const OPERATIONS: usize = 7;

/// What a session may do to an object. For what an operation is needed is decided by the crates above; here it is one row of a role's
/// permissions.
#[derive(Clone, Copy, Debug, PartialEq, Eq)]
pub enum Operation {
    /// To see a customer in a listing: needed on the customer and, where it is placed, on its vehicle.
    View,
    /// To change the plan by a move: needed on each vehicle that the move names and on each customer that it touches.
    Move,
    /// To pin and unpin a customer: needed on the customer.
    Pin,
    /// To freeze and thaw the first stops of a route: needed on the vehicle.
    Freeze,
    /// To change the policy: needed on the board.
    Admin,
    /// To read the journal and the reviews of the policy: needed on the board.
    Audit,
    /// To move a customer off the vehicle to which it is pinned: needed on the customer. Its pin does not hold it for such a session.
    Override,
}

impl Operation {
    /// Each operation, in the order of their rows.
    pub const ALL: [Operation; OPERATIONS] = [
        Operation::View,
        Operation::Move,
        Operation::Pin,
        Operation::Freeze,
        Operation::Admin,
        Operation::Audit,
        Operation::Override,
    ];

    /// Its place among the rows of a role, from 0.
    pub fn index(self) -> usize
        ensures value { result ≡ index_of self }
        ensures small { result < OPERATIONS }
    {
        self as usize
    }
}

/// What an operation is done to. Vehicles and customers count from 1.
#[derive(Clone, Copy, Debug, PartialEq, Eq)]
pub enum Object {
    /// The board itself.
    Board,
    /// The vehicle of this number.
    Vehicle(u32),
    /// The customer of this number.
    Customer(u32),
}

impl Object {
    /// Its number, which does not depend on the sizes: the board is 0, vehicle k is k, customer c is 1000 + c. `None` where there is no
    /// such object among this many customers and vehicles, of which there are at most 1,000 each.
    pub fn number(self, customers: u32, vehicles: u32) -> Option<u32>
        requires customers { customers ≤ MOST_CUSTOMERS }
        requires vehicles { vehicles ≤ MOST_VEHICLES }
        ensures there { is_some result ≡ is_object customers vehicles self }
        ensures value { IfSome result (λ number. number ≡ number_of self) }
        ensures small { IfSome result (λ number. number < 2048) }
    {
        match self {
            Object::Board => Some(0),
            Object::Vehicle(vehicle) if 1 <= vehicle && vehicle <= vehicles => Some(vehicle),
            Object::Customer(customer) if 1 <= customer && customer <= customers => {
                Some(1000 + customer)
            }
            _ => None,
        }
    }
}

/// Objects that are granted together: the board, or the vehicles or customers from `first` to `last`, both included.
#[derive(Clone, Copy, Debug, PartialEq, Eq)]
pub enum ObjectRange {
    /// The board itself.
    Board,
    /// The vehicles from `first` to `last`.
    Vehicles { first: u32, last: u32 },
    /// The customers from `first` to `last`.
    Customers { first: u32, last: u32 },
}

impl ObjectRange {
    /// The numbers of its first object and of the one past its last; `None` where the range is empty, begins at 0, or ends above the
    /// customers or vehicles, of which there are at most 1,000 each.
    pub fn span(self, customers: u32, vehicles: u32) -> Option<(u32, u32)>
        requires customers { customers ≤ MOST_CUSTOMERS }
        requires vehicles { vehicles ≤ MOST_VEHICLES }
        ensures bad { is_none result ≡ is_bad_range customers vehicles self }
        ensures first { IfSome result (λ r. r.0 ≡ first_of self) }
        ensures size { IfSome result (λ r. r.1 - r.0 ≡ size_of self) }
        ensures order { IfSome result (λ r. r.0 ≤ r.1) }
        ensures small { IfSome result (λ r. r.1 ≤ 2048) }
    {
        match self {
            ObjectRange::Board => Some((0, 1)),
            ObjectRange::Vehicles { first, last } => {
                if last < first || first == 0 || vehicles < last {
                    return None;
                }
                Some((first, last + 1))
            }
            ObjectRange::Customers { first, last } => {
                if last < first || first == 0 || customers < last {
                    return None;
                }
                Some((1000 + first, 1001 + last))
            }
        }
    }
}

/// A set of objects, each a number below 2,048. Contracts see the number whose binary digits are 1 at its members.
#[derive(Clone, Copy)]
pub struct ObjectSet {
    words: [u64; 32],
}

impl Model for ObjectSet {
    ghost use Rattle.std.specs.Prelude.{ℕ};
    ghost use Rattle.role_hierarchy.specs.Words.{joined};
    ghost use Rattle.role_hierarchy.specs.Words.{parts};
    ghost use Rattle.permission_core.specs.Objects.{AreWords, parts_whole};

    ghost Value = { ℕ };

    ghost view = { λ a. joined a.words };

    ghost invariant = { λ a. AreWords a.words };

    ghost inverse = { λ n. record { words = parts 32 n } };

    ghost inverse_ok = { λ a are. λ i. record { words = parts_whole a.words are i } };
}

impl ObjectSet {
    /// The set without members.
    pub fn new() -> ObjectSet
        ensures { result ≡ 0 }
    {
        ObjectSet { words: [0; 32] }
    }

    /// The words of the set, with object 64 * k + i at digit i of word k, for a crate that goes over them word by word.
    pub fn words(&self) -> &[u64; 32]
        ensures value { joined result.now ≡ self.now }
        ensures whole { AreWords result.now }
    {
        &self.words
    }

    /// Whether the object is a member.
    pub fn contains(&self, object: u32) -> bool
        requires { object < 2048 }
        ensures { result ≡ has self.now object }
    {
        (self.words[object as usize / 64] >> (object % 64)) & 1 == 1
    }

    /// The object becomes a member.
    pub fn insert(&mut self, object: u32)
        requires { object < 2048 }
        ensures { self.new ≡ with_role self.old object }
    {
        let place = object as usize / 64;
        self.words[place] |= 1 << (object % 64);
    }

    /// The objects from `first` on, up to but not including `end`, become members: whole words at a time.
    pub fn insert_range(&mut self, first: u32, end: u32)
        requires order { first ≤ end }
        requires small { end ≤ 2048 }
        ensures { self.new ≡ with_range self.old first (end - first) }
    {
        let mut from = first;
        while from < end {
            let place = from / 64;
            let high = (end - 64 * place).min(64);
            self.insert_in(place, from % 64, high);
            from = 64 * place + high;
        }
    }

    /// The objects of one word from its digit `low` on, up to but not including `high`, become members.
    fn insert_in(&mut self, place: u32, low: u32, high: u32)
        requires place { place < 32 }
        requires order { low ≤ high }
        requires small { high ≤ 64 }
        ensures { self.new ≡ with_range self.old (64 * place + low) (high - low) }
    {
        let digits = ones_between(low, high);
        self.words[place as usize] |= digits;
    }

    /// The object is no longer a member.
    pub fn remove(&mut self, object: u32)
        requires { object < 2048 }
        ensures { self.new ≡ without self.old object }
    {
        let place = object as usize / 64;
        self.words[place] &= !(1 << (object % 64));
    }

    /// The objects from `first` on, up to but not including `end`, are no longer members: whole words at a time.
    pub fn remove_range(&mut self, first: u32, end: u32)
        requires order { first ≤ end }
        requires small { end ≤ 2048 }
        ensures { self.new ≡ without_range self.old first (end - first) }
    {
        let mut from = first;
        while from < end {
            let place = from / 64;
            let high = (end - 64 * place).min(64);
            self.remove_in(place, from % 64, high);
            from = 64 * place + high;
        }
    }

    /// The objects of one word from its digit `low` on, up to but not including `high`, are no longer members.
    fn remove_in(&mut self, place: u32, low: u32, high: u32)
        requires place { place < 32 }
        requires order { low ≤ high }
        requires small { high ≤ 64 }
        ensures { self.new ≡ without_range self.old (64 * place + low) (high - low) }
    {
        let digits = ones_between(low, high);
        self.words[place as usize] &= !digits;
    }
}

/// The word whose digits are 1 from `low` on, up to but not including `high`.
fn ones_between(low: u32, high: u32) -> u64
    requires order { low ≤ high }
    requires small { high ≤ 64 }
    ensures { result ≡ 2 ^ high - 2 ^ low }
{
    below(high) - below(low)
}

/// The word whose digits are 1 below that place; all of them where it is 64.
fn below(place: u32) -> u64
    requires { place ≤ 64 }
    ensures { result ≡ 2 ^ place - 1 }
{
    if place == 64 {
        return u64::MAX;
    }
    (1 << place) - 1
}
