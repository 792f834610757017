//! The reply to a proposal in eight bytes.
ghost use Rattle.std.specs.Prelude.{◌≡◌, false, MatchOption, MatchResult};
ghost use Rattle.board_rules.specs.declared.reply.Reply.TheVariants.{Committed, Denied};
ghost use Rattle.board_rules.specs.Step.{reply_by};
ghost use Rattle.board_journal.specs.Packed.{is_short, is_short_denial, is_short_reply};

use board_rules::{Denial, Reply};

/// The reply to a proposal, with the variants of `Denial`. Vehicles, places and dimensions are at most 65,535. It takes eight bytes, and a
/// `Reply` takes several times as many: where each instruction counts, match on it and make no `Reply`.
#[derive(Clone, Copy)]
pub enum Answer {
    Committed(u32),
    NoSession,
    BadVehicle,
    AccessVehicle(u16),
    Ahead,
    Stale(u16),
    BadPlace,
    AccessCustomer(u16, u16),
    Frozen(u16),
    Pinned(u16, u16),
    Bound(u16, u16),
}

impl Answer {
    ghost use Rattle.board_journal.specs.Records.{reply_of};

    /// The reply in eight bytes, where it is one to a proposal and its numbers are small enough.
    #[inline]
    pub(crate) fn of(reply: Reply) -> Option<Answer>
        ensures { MatchOption result (is_short_reply reply ≡ false) (λ answer. reply_of answer ≡ reply) }
    {
        match reply {
            Reply::Committed(version) => Some(Answer::Committed(version)),
            Reply::Denied(denial) => Answer::of_denial(denial),
            Reply::Done | Reply::Session(_) | Reply::Refused(_) => None,
        }
    }

    /// The verdict on a proposal in eight bytes, where its numbers are small enough.
    #[inline]
    pub(crate) fn of_verdict(verdict: Result<u32, Denial>) -> Option<Answer>
        ensures { MatchOption result (is_short_reply (reply_by verdict) ≡ false) (λ answer. reply_of answer ≡ reply_by verdict) }
    {
        match verdict {
            Ok(version) => Some(Answer::Committed(version)),
            Err(denial) => Answer::of_denial(denial),
        }
    }

    /// The denial in eight bytes, where its numbers are small enough.
    #[inline]
    fn of_denial(denial: Denial) -> Option<Answer>
        ensures { MatchOption result (is_short_denial denial ≡ false) (λ answer. reply_of answer ≡ Denied denial) }
    {
        let answer = match denial {
            Denial::NoSession => Answer::NoSession,
            Denial::BadVehicle => Answer::BadVehicle,
            Denial::AccessVehicle(vehicle) => Answer::AccessVehicle(short(vehicle)?),
            Denial::Ahead => Answer::Ahead,
            Denial::Stale(vehicle) => Answer::Stale(short(vehicle)?),
            Denial::BadPlace => Answer::BadPlace,
            Denial::AccessCustomer(vehicle, place) => {
                Answer::AccessCustomer(short(vehicle)?, short(place)?)
            }
            Denial::Frozen(vehicle) => Answer::Frozen(short(vehicle)?),
            Denial::Pinned(vehicle, place) => Answer::Pinned(short(vehicle)?, short(place)?),
            Denial::Bound(vehicle, dimension) => {
                Answer::Bound(short(vehicle)?, short(dimension)?)
            }
        };
        Some(answer)
    }

    /// The version that was committed, or why the proposal was denied. It is smaller than a `Reply`, which may hold a name.
    #[inline(always)]
    pub fn verdict(self) -> Result<u32, Denial>
        ensures { MatchResult result (λ version. reply_of self ≡ Committed version) (λ denial. reply_of self ≡ Denied denial) }
    {
        match self {
            Answer::Committed(version) => Ok(version),
            Answer::NoSession => Err(Denial::NoSession),
            Answer::BadVehicle => Err(Denial::BadVehicle),
            Answer::AccessVehicle(vehicle) => Err(Denial::AccessVehicle(u32::from(vehicle))),
            Answer::Ahead => Err(Denial::Ahead),
            Answer::Stale(vehicle) => Err(Denial::Stale(u32::from(vehicle))),
            Answer::BadPlace => Err(Denial::BadPlace),
            Answer::AccessCustomer(vehicle, place) => {
                Err(Denial::AccessCustomer(u32::from(vehicle), u32::from(place)))
            }
            Answer::Frozen(vehicle) => Err(Denial::Frozen(u32::from(vehicle))),
            Answer::Pinned(vehicle, place) => {
                Err(Denial::Pinned(u32::from(vehicle), u32::from(place)))
            }
            Answer::Bound(vehicle, dimension) => {
                Err(Denial::Bound(u32::from(vehicle), u32::from(dimension)))
            }
        }
    }

    /// The reply for which it stands.
    pub fn reply(self) -> Reply
        ensures { result ≡ reply_of self }
    {
        match self.verdict() {
            Ok(version) => Reply::Committed(version),
            Err(denial) => Reply::Denied(denial),
        }
    }
}

/// The number in two bytes, where it fits.
#[inline]
pub(crate) fn short(number: u32) -> Option<u16>
    ensures { MatchOption result (is_short number ≡ false) (λ n. n ≡ number) }
{
    if number > 65535 {
        return None;
    }
    Some(number as u16)
}
