use separation_core::Name;

/// The part of the policy that a session asks to see, as a list of names.
#[derive(Clone, Copy)]
pub enum Review {
    /// The users that are assigned to the role, in the order in which they were created (AssignedUsers).
    Users(Name),
    /// The roles to which the user is assigned, in the order in which they were created (AssignedRoles).
    Roles(Name),
    /// The roles that are active in the session of this number, in the order in which they were created (SessionRoles).
    Active(u32),
}
