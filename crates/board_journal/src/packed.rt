//! An entry in 48 bytes.
ghost use Rattle.std.specs.Prelude.{◌≡◌, ℕ, List, false, MatchOption};
ghost use Rattle.board_rules.specs.declared.call.Entry.{Entry};
ghost use Rattle.board_rules.specs.Step.{reply_by};
ghost use Rattle.board_journal.specs.Entries.{entry_of, proposed, held};
ghost use Rattle.board_journal.specs.Packed.{is_packed, is_packed_proposal, is_short};

use crate::answer::{Answer, short};
use crate::proposal::Proposal;
use board_rules::{Call, Denial, Event, Hold, Reply, Ruling};
use move_core::Move;
use std::mem::size_of;

/// A proposal or a call on pins or fronts with its reply, or the index of an entry among those that stand whole. The desk is at most 65,535.
#[derive(Clone, Copy)]
pub(crate) enum Packed {
    Proposal {
        desk: u16,
        turn: u32,
        session: u32,
        base: u32,
        mv: Move,
        answer: Answer,
    },
    Hold {
        desk: u16,
        turn: u32,
        hold: Hold,
        ruling: Ruling,
    },
    Whole(u32),
}

/// The bytes of a record. The desk stands beside the tag, and the answer in eight bytes: anything larger would show here.
const RECORD_BYTES: usize = 48;

const _: () = prove!(size_of::<Packed>() <= RECORD_BYTES);

impl Packed {
    ghost use Rattle.board_journal.specs.Records.{entry_in, IsWithin};

    /// The record of a proposal with the verdict on it, where the desk and the numbers of the verdict are small enough.
    #[inline]
    pub(crate) fn of_proposal(proposal: &Proposal, verdict: Result<u32, Denial>) -> Option<Packed>
        ensures { MatchOption result (is_packed_proposal proposal.now.desk (reply_by verdict) ≡ false)
            (λ packed. ((whole : List Entry) → entry_in whole packed ≡ proposed proposal.now verdict) × ((n : ℕ) → IsWithin n packed)) }
    {
        let desk = short(proposal.desk)?;
        let answer = Answer::of_verdict(verdict)?;
        Some(Packed::Proposal {
            desk,
            turn: proposal.turn,
            session: proposal.session,
            base: proposal.base,
            mv: proposal.mv,
            answer,
        })
    }

    /// The record of a call on a pin or a front with the reply to it, where the desk is small enough.
    #[inline]
    pub(crate) fn of_hold(desk: u32, turn: u32, hold: Hold, ruling: Ruling) -> Option<Packed>
        ensures { MatchOption result (is_short desk ≡ false)
            (λ packed. ((whole : List Entry) → entry_in whole packed ≡ held desk turn hold ruling) × ((n : ℕ) → IsWithin n packed)) }
    {
        let desk = short(desk)?;
        Some(Packed::Hold {
            desk,
            turn,
            hold,
            ruling,
        })
    }

    /// The record of an event with its reply, where it fits into one: it is a proposal or a call on pins or fronts, and the desk and the
    /// numbers of its reply are small enough.
    #[inline]
    pub(crate) fn of(event: &Event, reply: &Reply) -> Option<Packed>
        ensures { MatchOption result (is_packed event.now reply.now ≡ false)
            (λ packed. ((whole : List Entry) → entry_in whole packed ≡ entry_of event.now reply.now) × ((n : ℕ) → IsWithin n packed)) }
    {
        let desk = short(event.desk)?;
        let turn = event.turn;
        match &event.call {
            Call::Propose { session, base, mv } => {
                let answer = Answer::of(*reply)?;
                Some(Packed::Proposal {
                    desk,
                    turn,
                    session: *session,
                    base: *base,
                    mv: *mv,
                    answer,
                })
            }
            call => {
                let hold = Hold::of(call)?;
                let ruling = Ruling::of(reply)?;
                Some(Packed::Hold {
                    desk,
                    turn,
                    hold,
                    ruling,
                })
            }
        }
    }
}
