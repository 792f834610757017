//! The set-up of the workers.
ghost use Rattle.std.specs.Prelude.{◌≡◌, OnOk, IfErr};
ghost use Rattle.board_rules.specs.declared.reply.Reply.TheVariants as replies;
ghost use Rattle.board_lines.specs.declared.command.Command.TheVariants as commands;
ghost use Rattle.line_engine.specs.Answers.{Replied};
ghost use Rattle.worker_runs.specs.SetUp.{AreAsked, by_root, sessions_to, set_up_of, user_and_role};

use crate::orders::Orders;
use board_rules::{Call, Reply};
use line_engine::Front;
use program_parts::Stop;
use rbac_core::{Command, Names};
use separation_core::Name;
use std::alloc::Global;

/// A command of session 1.
fn by_root(command: Command) -> Call
    ensures { result ≡ by_root command }
{
    Call::Policy {
        session: 1,
        command,
    }
}

/// Has a desk submit a call that is done.
fn done<R, F: Front<R>>(rt: &R, front: &mut F, call: Call) -> Result<(), Stop>
    requires ready { F.ready front.old }
    ensures ok { OnOk result (F.step (F.seen front.old) (commands.Submit call) (Replied replies.Done)
        (F.seen front.new)) }
    ensures ready { F.ready front.new }
    ensures err { IfErr result (λ stop. stop ≡ Stop.Open) }
{
    match front.submit(rt, call) {
        Ok(Reply::Done) => Ok(()),
        _ => Err(Stop::Open),
    }
}

/// Has a desk open a session, which gets this number.
fn opened<R, F: Front<R>>(rt: &R, front: &mut F, call: Call, number: u32) -> Result<(), Stop>
    requires ready { F.ready front.old }
    ensures ok { OnOk result (F.step (F.seen front.old) (commands.Submit call) (Replied (replies.Session number))
        (F.seen front.new)) }
    ensures ready { F.ready front.new }
    ensures err { IfErr result (λ stop. stop ≡ Stop.Open) }
{
    match front.submit(rt, call) {
        Ok(Reply::Session(n)) => { if n == number { Ok(()) } else { Err(Stop::Open) } }
        _ => Err(Stop::Open),
    }
}

/// Has a desk make the user and the role of the workers.
fn user_and_role<R, F: Front<R>>(rt: &R, front: &mut F) -> Result<(), Stop>
    requires ready { F.ready front.old }
    ensures ok { OnOk result (AreAsked F.step (F.seen front.old) user_and_role (F.seen front.new)) }
    ensures ready { F.ready front.new }
    ensures err { IfErr result (λ stop. stop ≡ Stop.Open) }
{
    let Some(worker) = Name::new(b"worker") else {
        return Err(Stop::Open);
    };
    done(rt, front, by_root(Command::AddUser { user: worker }))?;
    done(rt, front, by_root(Command::AddRole { role: worker }))?;
    done(
        rt,
        front,
        by_root(Command::AssignUser {
            user: worker,
            role: worker,
        }),
    )
}

/// Has a desk open a session for each worker: 2 for the first, and so on.
fn sessions<R, F: Front<R>>(
    rt: &R,
    alloc: Global,
    front: &mut F,
    orders: Orders,
) -> Result<(), Stop>
    requires ready { F.ready front.old }
    ensures ok { OnOk result (AreAsked F.step (F.seen front.old) (sessions_to orders.workers) (F.seen front.new)) }
    ensures ready { F.ready front.new }
    ensures err { IfErr result (λ stop. stop ≡ Stop.Open) }
{
    let Some(worker) = Name::new(b"worker") else {
        return Err(Stop::Open);
    };
    for before in 0..orders.workers {
        let roles = vec![in alloc; worker]?;
        let command = Command::CreateSession {
            user: worker,
            roles: Names::of(roles),
        };
        opened(rt, front, by_root(command), before + 2)?;
    }
    Ok(())
}

/// Makes the user `worker` with the role `worker`, and a session of it for each worker, in which the role is active. The calls are those of
/// session 1, and are journaled as a desk's. Nothing is granted to the role.
pub(crate) fn set_up<R, F: Front<R>>(
    rt: &R,
    alloc: Global,
    front: &mut F,
    orders: Orders,
) -> Result<(), Stop>
    requires ready { F.ready front.old }
    ensures ok { OnOk result (AreAsked F.step (F.seen front.old) (set_up_of orders.workers) (F.seen front.new)) }
    ensures ready { F.ready front.new }
    ensures err { IfErr result (λ stop. stop ≡ Stop.Open) }
{
    if orders.workers == 0 {
        return Ok(());
    }
    user_and_role(rt, front)?;
    sessions(rt, alloc, front, orders)
}
