//! The permissions of one role are copied back, in place.
ghost use Rattle.std.specs.Prelude.{◌≡◌, ◌<◌, ◌+◌, ◌*◌};
ghost use Rattle.permission_core.specs.Permissions.{row_at, row_set, rows_cleared};
ghost use Rattle.policy_core.specs.Parts.{DifferInRole, members_below};

use crate::policy::Policy;
use permission_core::{ObjectSet, Operation, Permissions};
use separation_core::Name;

/// Makes the permissions those of `from`, where they differ at most in those of the role.
pub(crate) fn restore_grants(grants: &mut Permissions, from: &Policy, role: Option<Name>)
    requires { DifferInRole role grants.old from.now }
    ensures { grants.new ≡ from.now.grants }
{
    if let Some(role) = role {
        let slot = from.slot_of(role).unwrap_or(0);
        copy_rows(grants, &from.grants, slot);
    }
}

/// Copies the rows of the slot. The others are equal before.
fn copy_rows(grants: &mut Permissions, from: &Permissions, slot: u8)
    requires { rows_cleared grants.old slot ≡ rows_cleared from.now slot }
    ensures { grants.new ≡ from.now }
{
    for operation in Operation::ALL {
        copy_row(grants, from, slot, operation);
    }
}

/// Copies one row: empties it, and grants what the other has.
fn copy_row(grants: &mut Permissions, from: &Permissions, slot: u8, operation: Operation)
    ensures { grants.new ≡ row_set grants.old slot operation (row_at from.now slot operation) }
{
    let _words = grants.row(slot, operation).words();
    grants.revoke(slot, operation, 0, 2048);
    let row = from.row(slot, operation);
    for place in 0..32u32 {
        copy_word(grants, row, slot, operation, place);
    }
    let _words = row.words();
}

/// Grants the members of one word, where those below it are granted. Nearly every word has all or none.
fn copy_word(grants: &mut Permissions, row: &ObjectSet, slot: u8, operation: Operation, place: u32)
    requires place { place < 32 }
    requires below { grants.old ≡ row_set grants.old slot operation (members_below row.now (64 * place)) }
    ensures { grants.new ≡ row_set grants.old slot operation (members_below row.now (64 * (place + 1))) }
{
    let word = row.words()[place as usize];
    let first = 64 * place;
    if word == 0 {
        return;
    }
    if word == u64::MAX {
        grants.grant(slot, operation, first, first + 64);
        return;
    }
    for number in first..first + 64 {
        copy_member(grants, row, slot, operation, number);
    }
}

/// Grants the object, if it is a member, where the members below it are granted.
fn copy_member(
    grants: &mut Permissions,
    row: &ObjectSet,
    slot: u8,
    operation: Operation,
    number: u32,
)
    requires number { number < 2048 }
    requires below { grants.old ≡ row_set grants.old slot operation (members_below row.now number) }
    ensures { grants.new ≡ row_set grants.old slot operation (members_below row.now (number + 1)) }
{
    if row.contains(number) {
        grants.grant(slot, operation, number, number + 1);
    }
}
