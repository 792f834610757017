//! Which role may do what to which objects.
ghost use Rattle.std.specs.Prelude.{◌≡◌, ◌≤◌, ◌<◌, ◌-◌, ◌*◌, IfOk, length};
ghost use Rattle.role_hierarchy.specs.Roles.{has};
ghost use Rattle.permission_core.specs.Objects.{with_range, without_range};
ghost use Rattle.permission_core.specs.Permissions.{row_at, row_set, no_rows, rows_cleared};

use crate::objects::{OPERATIONS, ObjectSet, Operation};
use limits::MOST_ROLES;
use std::alloc::{AllocError, Global};
use std::marker::Model;

/// Empties the rows of the slot.
fn empty(rows: &mut Vec<ObjectSet>, slot: u8)
    requires { length rows.old.items ≡ OPERATIONS * MOST_ROLES }
    ensures rows { rows.new.items ≡ rows_cleared rows.old.items slot }
    ensures whole { length rows.new.items ≡ OPERATIONS * MOST_ROLES }
{
    for operation in 0..OPERATIONS {
        rows[OPERATIONS * slot as usize + operation] = ObjectSet::new();
    }
}

/// The permissions of all roles: for each slot and operation a set of objects, PA of ANSI INCITS 359-2004, 6.1. Contracts see the list of
/// the sets, slot by slot, with one for each operation. Only `new` and `copy` take memory.
#[derive(Drop)]
pub struct Permissions {
    rows: Vec<ObjectSet>,
}

impl Model for Permissions {
    ghost use Rattle.permission_core.specs.Permissions.{Rows};
    ghost use Rattle.limits.specs.declared.TheConstants.{MOST_ROLES};
    ghost use Rattle.permission_core.specs.declared.objects.TheConstants.{OPERATIONS};
    ghost use Rattle.std.specs.Prelude.{◌≡◌, ◌*◌, length};

    ghost Value = { Rows };

    ghost view = { λ a. a.rows.items };

    ghost invariant = { λ a. length a.rows.items ≡ OPERATIONS * MOST_ROLES };
}

impl Permissions {
    /// No permission of any role.
    pub fn new(alloc: Global) -> Result<Permissions, AllocError>
        ensures { IfOk result (λ rows. rows ≡ no_rows) }
    {
        let rows = vec![in alloc; ObjectSet::new(); OPERATIONS * MOST_ROLES]?;
        Ok(Permissions { rows })
    }

    /// The objects to which the role may do the operation.
    pub fn row(&self, slot: u8, operation: Operation) -> &ObjectSet
        ensures { result.now ≡ row_at self.now slot operation }
    {
        &self.rows[OPERATIONS * slot as usize + operation.index()]
    }

    /// Whether the role may do the operation to the object of that number: one bit.
    pub fn permits(&self, slot: u8, operation: Operation, number: u32) -> bool
        requires { number < 2048 }
        ensures { result ≡ has (row_at self.now slot operation) number }
    {
        self.row(slot, operation).contains(number)
    }

    /// The role may do the operation to the objects of the numbers from `first` on, up to but not including `end`. What it
    /// may do already it may still do.
    pub fn grant(&mut self, slot: u8, operation: Operation, first: u32, end: u32)
        requires order { first ≤ end }
        requires small { end ≤ 2048 }
        ensures { self.new ≡ row_set self.old slot operation (with_range (row_at self.old slot operation) first (end - first)) }
    {
        let place = OPERATIONS * slot as usize + operation.index();
        self.rows[place].insert_range(first, end);
    }

    /// The role may no longer do the operation to the objects of the numbers from `first` on, up to but not including `end`.
    pub fn revoke(&mut self, slot: u8, operation: Operation, first: u32, end: u32)
        requires order { first ≤ end }
        requires small { end ≤ 2048 }
        ensures { self.new ≡ row_set self.old slot operation (without_range (row_at self.old slot operation) first (end - first)) }
    {
        let place = OPERATIONS * slot as usize + operation.index();
        self.rows[place].remove_range(first, end);
    }

    /// The role loses all its permissions.
    pub fn clear(&mut self, slot: u8)
        ensures { self.new ≡ rows_cleared self.old slot }
    {
        empty(&mut self.rows, slot);
    }

    /// An independent copy.
    pub fn copy(&self) -> Result<Permissions, AllocError>
        ensures { IfOk result (λ rows. rows ≡ self.now) }
    {
        Ok(Permissions {
            rows: self.rows.clone()?,
        })
    }
}
