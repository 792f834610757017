//! Calls of boards as lines, each with ` => ` and what is wanted of it.
use crate::comparing::same;
use board_core::{Board, Event};
use board_lines::{Command, read_line, reply_text};
use callback_store::Meter;
use std::alloc::Global;
use std::process::Abort;

/// The call of a line as the event of a turn of desk 1, if it is a call.
pub(crate) fn event_of(alloc: Global, turn: u32, line: &str) -> Option<Event> {
    match read_line(alloc, line.as_bytes()) {
        Ok(Command::Submit(call)) => Some(Event {
            desk: 1,
            turn,
            call,
        }),
        _ => None,
    }
}

/// The next turn of desk 1, which alone has turns.
pub(crate) fn next_turn(board: &Board) -> u32 {
    (board.events() as u32).saturating_add(1)
}

/// A line and what is wanted of it, or a reply and the limit of its asks; the second is empty where it is not there.
pub(crate) fn cut(row: &str) -> (&str, &str) {
    row.split_once(" => ").unwrap_or((row, ""))
}

/// Applies a line as the next event of desk 1, and gives the text of the reply.
fn reply_to(alloc: Global, board: &mut Board, meter: &mut Meter, line: &str) -> Option<String> {
    let event = event_of(alloc, next_turn(board), line)?;
    let Ok(reply) = board.apply(event, meter) else {
        return None;
    };
    reply_text(alloc, reply).ok()
}

/// Whether so many asks are no more than the limit, if there is one.
fn is_within(asks: u64, limit: &str) -> bool {
    match limit.parse::<u64>() {
        Ok(most) => asks <= most,
        Err(_) => limit.is_empty(),
    }
}

/// Applies the line of a row, and compares its reply and its asks.
fn answer(rt: &impl Abort, alloc: Global, board: &mut Board, meter: &mut Meter, row: &str) {
    let (line, told) = cut(row);
    let (wanted, limit) = cut(told);
    let before = meter.asks;
    let reply = reply_to(alloc, board, meter, line).expect(rt, "a reply");
    let is_cheap = is_within(meter.asks.wrapping_sub(before), limit);
    same(rt, (reply.as_str(), is_cheap), (wanted, true), line);
}

/// Applies the lines of a script in turn. Its rows are a line, ` => ` and its reply, and where this is told ` => ` and how many asks the line
/// may make at most.
pub(crate) fn answers(
    rt: &impl Abort,
    alloc: Global,
    board: &mut Board,
    meter: &mut Meter,
    script: &str,
) {
    for row in script.split('\n') {
        answer(rt, alloc, board, meter, row);
    }
}
