//! Tests of workers: one alone, one that is held while rights or the plan change, two at once, what a gate hears, and eight beside a busy desk.
//! Calls, replies and journals are compared as the text of their lines.
mod alone;
mod busy;
mod crossed;
mod crowd;
mod held;
mod noted;
mod replay;
mod rights;
mod tests;
