//! Lines that a desk submits, and the text of its audit.
ghost use Rattle.std.specs.Prelude.{◌≡◌};
ghost use Rattle.dimension_core.specs.Setup.{setting};

use board_journal::Journal;
use board_lines::{Command, push_audit, read_line};
use board_lock::{Naming, Seat};
use board_rules::Call;
use dimension_core::Setup;
use std::alloc::Global;
use std::sync::Wait;

/// The call that a line says.
fn call_of(alloc: Global, line: &str) -> Option<Call> {
    match read_line(alloc, line.as_bytes()) {
        Ok(Command::Submit(call)) => Some(call),
        _ => None,
    }
}

/// Submits the calls that some lines say, one after another. A line that says none is left out.
pub fn play<N: Naming, R: Wait + Drop, W: Wait>(
    rt: &W,
    alloc: Global,
    setup: &Setup,
    seat: &mut Seat<N, R>,
    lines: &[&str],
)
    requires { setting setup.now ≡ N.opening.setting }
{
    for line in lines {
        if let Some(call) = call_of(alloc, line) {
            let _reply = seat.submit(rt, setup, call);
        }
    }
}

/// A journal as the text of an audit.
pub fn text_of(alloc: Global, journal: &Journal) -> Option<String> {
    let mut text = String::new(alloc);
    push_audit(&mut text, journal).ok()?;
    Some(text)
}

/// The text of an audit by session 1, if it may read the journal.
pub fn audit<N: Naming, R: Wait + Drop, W: Wait>(
    rt: &W,
    alloc: Global,
    seat: &mut Seat<N, R>,
) -> Option<String> {
    match seat.audit(rt, 1) {
        Ok(journal) => text_of(alloc, &journal),
        Err(_) => None,
    }
}
