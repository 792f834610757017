//! The two kinds of separation of duty.

/// The two kinds of separation of duty.
#[derive(Clone, Copy)]
pub enum Separation {
    /// SSD (6.3): a set limits for which roles a user is authorized.
    Static,
    /// DSD (6.4): a set limits which roles are counted for a session.
    Dynamic,
}
