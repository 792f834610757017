//! One session's rows.
ghost use Rattle.std.specs.Prelude.{◌≡◌, ◌<◌, ◌≤◌, ◌⊎◌, ℕ, true, false, slice_index, length, bit_or, IfOk, IfSome, IfNone};
ghost use Rattle.role_hierarchy.specs.Roles.{has};
ghost use Rattle.permission_core.specs.declared.objects.Operation.{Operation as AnOperation};
ghost use Rattle.permission_core.specs.Objects.{index_of};
ghost use Rattle.policy_core.specs.Access.{row_of};
ghost use Rattle.permission_table.specs.Bits.{row_in};
ghost use Rattle.permission_table.specs.Unions.{AreUnions};
ghost use Rattle.permission_table.specs.Rights.{row_made, rows_made, part_of, granted_to, revoked_from, followed, all_made};

use permission_core::{OPERATIONS, Operation};
use policy_core::Policy;
use role_hierarchy::RoleSet;
use std::alloc::{AllocError, Global};
use std::array;
use std::marker::Model;

/// The objects to which a session may do one operation. Contracts see the number whose binary digits are 1 at them.
#[derive(Drop)]
pub struct Row {
    words: [u64; 32],
}

impl Model for Row {
    ghost use Rattle.std.specs.Prelude.{ℕ};
    ghost use Rattle.role_hierarchy.specs.Words.{joined};
    ghost use Rattle.permission_core.specs.Objects.{AreWords};

    ghost Value = { ℕ };

    ghost view = { λ a. joined a.words };

    ghost invariant = { λ a. AreWords a.words };
}

impl Row {
    /// A row without objects.
    fn new() -> Row
        ensures { result ≡ 0 }
    {
        Row { words: [0; 32] }
    }

    /// Whether the object is in the row: a test of one bit of a word.
    fn contains(&self, number: u32) -> bool
        requires { number < 2048 }
        ensures { result ≡ has self.now number }
    {
        (self.words[number as usize / 64] >> (number % 64)) & 1 == 1
    }

    /// The objects to which the two roles may do the operation join the row. Roles are joined two at a time, since the row's own words are
    /// then read and written half as often.
    fn join(&mut self, policy: &Policy, roles: (u8, u8), operation: Operation)
        ensures { self.new ≡ bit_or (bit_or self.old (row_of policy.now roles.0 operation)) (row_of policy.now roles.1 operation) }
    {
        let one = policy.permissions(roles.0, operation).words();
        let other = policy.permissions(roles.1, operation).words();
        join_words(&mut self.words, one, other);
    }

    /// The objects to which some role of the set may do the operation.
    fn of(policy: &Policy, roles: RoleSet, operation: Operation) -> Row
        ensures { result ≡ row_made policy.now roles operation }
    {
        roles.is_small();
        let mut row = Row::new();
        let mut from = 0;
        while let Some(two) = two_from(roles, from) {
            row.join(policy, two, operation);
            from = two.1 as u32 + 1;
        }
        row
    }

    /// The objects of these words to which the role may do the operation join the row.
    fn add(&mut self, policy: &Policy, role: u8, operation: Operation, words: (u32, u32))
        requires order { words.0 ≤ words.1 }
        requires small { words.1 ≤ 32 }
        ensures { self.new ≡ bit_or self.old (part_of words.0 words.1 (row_of policy.now role operation)) }
    {
        add_words(
            &mut self.words,
            policy.permissions(role, operation).words(),
            words,
        );
    }
}

/// Joins word by word with one other row, from the first of the two places on, up to but not including the second.
fn add_words(words: &mut [u64; 32], other: &[u64; 32], places: (u32, u32))
    requires order { places.0 ≤ places.1 }
    requires small { places.1 ≤ 32 }
    ensures inside { (k : ℕ) → places.0 ≤ k → k < places.1
        → slice_index words.new k ≡ bit_or (slice_index words.old k) (slice_index other.now k) }
    ensures below { (k : ℕ) → k < places.0 → slice_index words.new k ≡ slice_index words.old k }
    ensures above { (k : ℕ) → places.1 ≤ k → slice_index words.new k ≡ slice_index words.old k }
{
    for place in places.0..places.1 {
        words[place as usize] |= other[place as usize];
    }
}

/// Joins word by word.
fn join_words(words: &mut [u64; 32], one: &[u64; 32], other: &[u64; 32])
    ensures { (k : ℕ) → slice_index words.new k
        ≡ bit_or (bit_or (slice_index words.old k) (slice_index one.now k)) (slice_index other.now k) }
{
    for place in 0..32 {
        words[place] = words[place] | one[place] | other[place];
    }
}

/// Rows without objects, one for each operation.
fn no_rows() -> [Row; OPERATIONS]
    ensures whole { length result ≡ OPERATIONS }
    ensures empty { (operation : AnOperation) → slice_index result (index_of operation) ≡ 0 }
{
    array::from_fn(|_| Row::new())
}

/// What the two roles may do joins the rows, one for each operation.
fn join_all(rows: &mut [Row; OPERATIONS], policy: &Policy, two: (u8, u8))
    requires whole { length rows.old ≡ OPERATIONS }
    ensures whole { length rows.new ≡ OPERATIONS }
    ensures joined { (operation : AnOperation) → slice_index rows.new (index_of operation)
        ≡ bit_or (bit_or (slice_index rows.old (index_of operation)) (row_of policy.now two.0 operation))
        (row_of policy.now two.1 operation) }
{
    for operation in Operation::ALL {
        rows[operation.index()].join(policy, two, operation);
    }
}

/// The rows become those of a session that reaches these roles, one for each operation.
fn make_all(rows: &mut [Row; OPERATIONS], policy: &Policy, roles: RoleSet)
    requires { length rows.old ≡ OPERATIONS }
    ensures { rows.new ≡ rows_made policy.now roles }
{
    for operation in Operation::ALL {
        rows[operation.index()] = Row::of(policy, roles, operation);
    }
}

/// The next two roles of the set that are not below `from`; where only one is left, it comes twice.
fn two_from(roles: RoleSet, from: u32) -> Option<(u8, u8)>
    ensures members { IfSome result (λ r. (has roles r.0 ≡ true) × (has roles r.1 ≡ true)) }
    ensures order { IfSome result (λ r. (from ≤ r.0) × (r.0 ≤ r.1)) }
    ensures between { IfSome result (λ r. (q : ℕ) → from ≤ q → q ≤ r.1 → has roles q ≡ true → (q ≡ r.0) ⊎ (q ≡ r.1)) }
    ensures none { IfNone result ((q : ℕ) → from ≤ q → has roles q ≡ false) }
{
    let first = roles.next_from(from)?;
    match roles.next_from(first as u32 + 1) {
        Some(second) => Some((first, second)),
        None => Some((first, first)),
    }
}

/// The roles that a session reaches, and its rows, one for each operation.
#[derive(Drop)]
pub struct SessionRows {
    reach: RoleSet,
    rows: Box<[Row; OPERATIONS]>,
}

impl Model for SessionRows {
    ghost use Rattle.std.specs.Prelude.{◌≡◌, length};
    ghost use Rattle.permission_core.specs.declared.objects.TheConstants.{OPERATIONS};
    ghost use Rattle.permission_table.specs.Bits.{SessionAccess};

    ghost Value = { SessionAccess };

    ghost view = { λ a. record { reach = a.reach; rows = a.rows.value } };

    ghost invariant = { λ a. length a.rows.value ≡ OPERATIONS };
}

impl SessionRows {
    /// The rows of a session that reaches these roles.
    pub(crate) fn of(
        alloc: Global,
        policy: &Policy,
        roles: RoleSet,
    ) -> Result<SessionRows, AllocError>
        ensures { IfOk result (λ rows. AreUnions policy.now roles rows) }
    {
        roles.is_small();
        let mut rows = Box::new(alloc, no_rows())?;
        let mut from = 0;
        while let Some(two) = two_from(roles, from) {
            join_all(&mut rows, policy, two);
            from = two.1 as u32 + 1;
        }
        Ok(SessionRows { reach: roles, rows })
    }

    /// Whether the object is in the row of the operation.
    pub(crate) fn contains(&self, operation: Operation, number: u32) -> bool
        requires { number < 2048 }
        ensures { result ≡ has (row_in self.now operation) number }
    {
        self.rows[operation.index()].contains(number)
    }

    /// The role may do more of the operation: what it may do to the objects of these words joins the row of that operation, where the
    /// session reaches the role.
    #[inline(always)]
    pub(crate) fn grant(
        &mut self,
        policy: &Policy,
        role: u8,
        operation: Operation,
        words: (u32, u32),
    )
        requires order { words.0 ≤ words.1 }
        requires small { words.1 ≤ 32 }
        ensures { (session : ℕ) → self.new ≡ granted_to policy.now role operation words session self.old }
    {
        if self.reach.contains(role) {
            self.rows[operation.index()].add(policy, role, operation, words);
        }
    }

    /// The role may do less of the operation: the row of that operation is made anew, where the session reaches the role.
    #[inline(always)]
    pub(crate) fn revoke(&mut self, policy: &Policy, role: u8, operation: Operation)
        ensures { (session : ℕ) → self.new ≡ revoked_from policy.now role operation session self.old }
    {
        if self.reach.contains(role) {
            self.rows[operation.index()] = Row::of(policy, self.reach, operation);
        }
    }

    /// The roles that the session reaches.
    #[inline(always)]
    pub(crate) fn reach(&self) -> RoleSet
        ensures { result ≡ self.now.reach }
    {
        self.reach
    }

    /// The session reaches these roles: where they are others than before, its rows are made anew.
    pub(crate) fn follow(&mut self, policy: &Policy, roles: RoleSet)
        ensures { self.new ≡ followed policy.now roles self.old }
    {
        if roles == self.reach {
            return;
        }
        self.make(policy, roles);
    }

    /// The rows of a session that reaches these roles, in the place of the old ones.
    pub(crate) fn make(&mut self, policy: &Policy, roles: RoleSet)
        ensures { self.new ≡ all_made policy.now roles }
    {
        self.reach = roles;
        make_all(&mut self.rows, policy, roles);
    }
}
