//! What is written for a line, and how it counts.

use board_lines::LineFault;

/// What is written for a line. The shortest replies have variants of their own, so that nothing is spelled for them; every other reply is a
/// text that was spelled.
#[derive(Clone, Copy, Drop)]
pub(crate) enum Mark {
    /// Nothing.
    Nothing,
    /// The text that was spelled, and whether it is a denial, a refusal, a fault or a refused question.
    Text(bool),
    /// A call was done.
    Done,
    /// Whether CheckAccess holds.
    Checked(bool),
    /// A proposal is denied, since there is no such session.
    NoSession,
    /// The line is bad.
    Bad(LineFault),
}
