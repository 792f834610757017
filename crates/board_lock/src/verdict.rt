//! Replies to proposals.

ghost use Rattle.std.specs.Prelude.{◌≡◌, true};
ghost use Rattle.board_rules.specs.Step.{reply_by};
ghost use Rattle.board_lock.specs.Verdicts.{is_verdict};

use board_rules::{Denial, Reply};

/// The verdict in the reply to a proposal: the version that it commits, or why it is denied.
pub fn verdict_of(reply: Reply) -> Result<u32, Denial>
    requires { is_verdict reply ≡ true }
    ensures { reply ≡ reply_by result }
{
    match reply {
        Reply::Committed(version) => Ok(version),
        Reply::Denied(denial) => Err(denial),
        Reply::Done | Reply::Session(_) | Reply::Refused(_) => unreachable!(),
    }
}
