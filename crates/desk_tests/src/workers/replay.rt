//! A journal that is judged again by a board of one thread.
use board_core::Board;
use board_journal::{Journal, Kept};
use board_rules::{Call, Event, Reply};
use callback_store::Meter;
use dimension_core::Setup;
use std::alloc::Global;
use std::sync::Arc;

/// The event of an entry, and its reply.
fn event_of(kept: Kept<'_>) -> Option<(Event, Reply)> {
    match kept {
        Kept::Proposal {
            desk,
            turn,
            session,
            base,
            mv,
            answer,
        } => {
            let call = Call::Propose {
                session,
                base,
                mv: *mv,
            };
            Some((Event { desk, turn, call }, answer.reply()))
        }
        Kept::Hold {
            desk,
            turn,
            hold,
            ruling,
        } => {
            let call = hold.call();
            Some((Event { desk, turn, call }, ruling.reply()))
        }
        Kept::Whole(entry) => {
            let call = entry.call.copy().ok()?;
            let (desk, turn) = (entry.desk, entry.turn);
            Some((Event { desk, turn, call }, entry.reply))
        }
    }
}

/// How many entries a board of nine desks answers otherwise than the journal, and its version in the end.
pub(crate) fn judged_again(
    alloc: Global,
    setup: Arc<Setup>,
    journal: &Journal,
) -> Option<(u32, u32)> {
    let mut board = Board::new(alloc, setup, 9).ok()?;
    let mut meter = Meter::new();
    let mut differ = 0u32;
    for index in 0..journal.len() {
        let (event, reply) = event_of(journal.get(index)?)?;
        if board.apply(event, &mut meter) != Ok(reply) {
            differ = differ.wrapping_add(1);
        }
    }
    Some((differ, board.version()))
}
