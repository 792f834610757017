//! Scripts on a policy: each row is a line of a board, ` => ` and its reply.
use crate::comparing::{holds, same};
use board_lines::{Command as Line, read_line, reply_text};
use board_rules::{Call, Refusal as BoardRefusal, Reply};
use rbac_core::{Command, Outcome, Policy, Refusal, step};
use separation_core::Name;
use std::alloc::Global;
use std::process::Abort;

pub(crate) fn name(rt: &impl Abort, text: &[u8]) -> Name {
    Name::new(text).expect(rt, "the bytes of a name")
}

/// The session and the command of a line.
pub(crate) fn command(rt: &impl Abort, alloc: Global, line: &str) -> (u32, Command) {
    let Ok(Line::Submit(Call::Policy { session, command })) = read_line(alloc, line.as_bytes())
    else {
        holds(rt, false, line);
        return (0, Command::Migrate);
    };
    (session, command)
}

/// The answer as a board replies it.
fn reply_of(rt: &impl Abort, answer: Result<Outcome, Refusal>) -> Reply {
    match answer {
        Ok(Outcome::Done) => Reply::Done,
        Ok(Outcome::Session(number)) => Reply::Session(number),
        Err(refusal) => {
            Reply::Refused(BoardRefusal::of_policy(refusal).expect(rt, "a refusal of the policy"))
        }
    }
}

/// Gives a line's command by its session, and compares the reply.
fn answer(rt: &impl Abort, alloc: Global, policy: &mut Policy, line: &str, wanted: &str) {
    let (session, command) = command(rt, alloc, line);
    let reply = reply_of(rt, step(policy, session, &command));
    let text = reply_text(alloc, reply).expect(rt, "memory");
    same(rt, text.as_str(), wanted, line);
}

/// Gives the commands of a script in turn, and compares the replies.
pub(crate) fn answers(rt: &impl Abort, alloc: Global, policy: &mut Policy, script: &str) {
    for row in script.split('\n') {
        let (line, wanted) = row.split_once(" => ").unwrap_or((row, ""));
        answer(rt, alloc, policy, line, wanted);
    }
}
