//! Sessions, and what DSD counts of one.
ghost use Rattle.std.specs.Prelude.{◌≡◌};

use role_hierarchy::RoleSet;
use separation_core::Name;

/// A session: its user and the roles that are active in it (ANSI INCITS 359-2004, 6.1).
#[derive(Clone, Copy)]
pub struct Session {
    pub user: Name,
    pub active: RoleSet,
}

impl Session {
    /// A session of that user with these active roles.
    pub(crate) fn of(user: Name, active: RoleSet) -> Session
        ensures { result ≡ record { user = user; active = active } }
    {
        Session { user, active }
    }
}

/// Which roles of a session DSD counts.
#[derive(Clone, Copy)]
pub enum Counting {
    /// Those that are active.
    Active,
    /// All to which an active one is senior, the active ones among them.
    Inherited,
}
