//! The sets by role: a row of 64 digits for each of the 256 roles, whose digit at a place is 1 where the set at that place, from 0, has the
//! role.
ghost use Rattle.std.specs.Prelude.{◌≡◌, ℕ, ◌<◌, ◌≤◌, ◌==◌, ◌&&◌, ◌||◌, length, slice_index, OnOk};
ghost use Rattle.role_hierarchy.specs.Roles.{has};
ghost use Rattle.separation_core.specs.Index.{IsIndex, IsKept, IsPlaces};
ghost use Rattle.separation_core.specs.Groups.{Groups};

use crate::name::Name;
use crate::sets::Limit;
use indexmap::IndexMap;
use limits::{MOST_ROLES, MOST_SETS};
use role_hierarchy::RoleSet;
use std::alloc::AllocError;

/// Gives the index its rows, if it has none.
pub(crate) fn provide(rows: &mut Vec<u64>) -> Result<(), AllocError>
    ensures ok { OnOk result (length rows.new.items ≡ MOST_ROLES) }
    ensures kept { (groups : Groups) → IsKept groups rows.old.items → IsKept groups rows.new.items }
{
    match rows.resize(MOST_ROLES, 0) {
        Ok(()) => Ok(()),
        Err(e) => Err(e),
    }
}

/// Marks the set at the place in the row of each of its roles.
pub(crate) fn mark(rows: &mut [u64], place: u32, roles: RoleSet)
    requires rows { length rows.old ≡ MOST_ROLES }
    requires place { place < 64 }
    ensures { (role q : ℕ) → role < MOST_ROLES → has (slice_index rows.new role) q
        ≡ (has (slice_index rows.old role) q || (q == place && has roles role)) }
{
    roles.is_small();
    let mut from = 0;
    while let Some(role) = roles.next_from(from) {
        rows[role as usize] |= 1 << place;
        from = role as u32 + 1;
    }
}

/// Writes each row again.
pub(crate) fn renew(rows: &mut [u64], groups: &IndexMap<Name, Limit>)
    requires rows { length rows.old ≡ MOST_ROLES }
    requires few { length groups.now.entries ≤ MOST_SETS }
    ensures { IsIndex rows.new groups.now.entries }
{
    rows.fill(0);
    for place in 0..groups.len() {
        if let Some((_, limit)) = groups.get_index(place) {
            mark(rows, place as u32, limit.roles);
        }
    }
}

/// The places of the sets that have one of the roles, each a digit 1.
pub(crate) fn places_of(rows: &[u64], roles: RoleSet) -> u64
    requires { length rows.now ≡ MOST_ROLES }
    ensures { IsPlaces result rows.now roles }
{
    roles.is_small();
    let mut places = 0;
    let mut from = 0;
    while let Some(role) = roles.next_from(from) {
        places |= rows[role as usize];
        from = role as u32 + 1;
    }
    places
}
