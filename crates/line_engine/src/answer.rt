//! What a front answers to a command, as text.

ghost use Rattle.std.specs.Prelude.{◌≡◌, ◌++◌, [], ℕ, List, IfOk, OnOk, OnErr, string_bytes};
ghost use Rattle.board_lines.specs.Replies.{ended, reply_text, fault_text, ask_fault_text};
ghost use Rattle.board_lines.specs.declared.command.Command.{Command};
ghost use Rattle.line_engine.specs.Outcomes.{Outcome, is_reply_refusal};
ghost use Rattle.line_engine.specs.Leaving.{Fails, Loses};
ghost use Rattle.line_engine.specs.Marks.{Obeys, Tells, TellsJson, IsUnread};
ghost use Rattle.board_rules.specs.declared.reply.Fault.TheVariants as faults;
ghost use Rattle.board_rules.specs.declared.reply.AskFault.TheVariants as asks;
ghost use Rattle.std.specs.Prelude.{◌≢◌};

use crate::front::Front;
use crate::mark::Mark;
use board_lines::{
    Command, ReadFault, push_ask_fault, push_committed, push_denied, push_fault, push_json,
    push_list, push_reply, push_review,
};
use board_rules::{AskFault, Call, Denial, Fault, Reply, Review};
use move_core::Move;
use rbac_core::{Object, Operation};
use std::alloc::AllocError;

/// Memory ran out.
#[derive(Clone, Copy, Drop)]
pub(crate) struct OutOfMemory;

impl From<AllocError> for OutOfMemory {
    fn from(_e: AllocError) -> OutOfMemory {
        OutOfMemory
    }
}

fn is_reply_refusal(reply: &Reply) -> bool
    ensures { result ≡ is_reply_refusal reply.now }
{
    match reply {
        Reply::Done | Reply::Session(_) | Reply::Committed(_) => false,
        Reply::Denied(_) | Reply::Refused(_) => true,
    }
}

// ---- lines

/// Ends the line.
#[inline(always)]
fn end_line(text: &mut String) -> Result<(), AllocError>
    ensures { OnOk result (string_bytes text.new ≡ ended (string_bytes text.old)) }
{
    text.push('\n')
}

fn reply_line(text: &mut String, reply: Reply) -> Result<(), AllocError>
    ensures { OnOk result (string_bytes text.new ≡ string_bytes text.old ++ ended (reply_text reply)) }
{
    push_reply(text, reply)?;
    end_line(text)
}

// Apart from `reply_line`, since this reply comes most.
fn committed_line(text: &mut String, version: u32) -> Result<(), AllocError>
    ensures { OnOk result (string_bytes text.new ≡ string_bytes text.old ++ ended (reply_text (Reply.Committed version))) }
{
    push_committed(text, version)?;
    end_line(text)
}

// And this one, since no reply has to be built for it.
fn denied_line(text: &mut String, denial: Denial) -> Result<(), AllocError>
    ensures { OnOk result (string_bytes text.new ≡ string_bytes text.old ++ ended (reply_text (Reply.Denied denial))) }
{
    push_denied(text, denial)?;
    end_line(text)
}

fn fault_line(text: &mut String, fault: Fault) -> Result<(), AllocError>
    requires { fault ≢ faults.NoMemory }
    ensures { OnOk result (string_bytes text.new ≡ string_bytes text.old ++ ended (fault_text fault)) }
{
    push_fault(text, fault)?;
    end_line(text)
}

fn refused_line(text: &mut String, fault: AskFault) -> Result<(), AllocError>
    requires { fault ≢ asks.NoMemory }
    ensures { OnOk result (string_bytes text.new ≡ string_bytes text.old ++ ended (ask_fault_text fault)) }
{
    push_ask_fault(text, fault)?;
    end_line(text)
}

// ---- commands, each with an empty text before

#[inline(always)]
pub(crate) fn reply<R, F: Front<R>>(
    rt: &R,
    front: &mut F,
    text: &mut String,
    call: Call,
) -> Result<Mark, OutOfMemory>
    requires ready { F.ready front.old }
    requires none { string_bytes text.old ≡ [] }
    ensures ready { F.ready front.new }
    ensures ok { IfOk result (Tells F.step (F.seen front.old) (Command.Submit call) (F.seen front.new) (string_bytes text.new)) }
    ensures err { OnErr result (Loses F.step F.refuses (F.seen front.old) (Command.Submit call) (F.seen front.new)) }
{
    match front.submit(rt, call) {
        Ok(Reply::Done) => Ok(Mark::Done),
        Ok(Reply::Denied(Denial::NoSession)) => Ok(Mark::NoSession),
        Ok(reply) => {
            let refused = is_reply_refusal(&reply);
            reply_line(text, reply)?;
            Ok(Mark::Text(refused))
        }
        Err(Fault::NoMemory) => Err(OutOfMemory),
        Err(Fault::OutOfTurn) => {
            fault_line(text, Fault::OutOfTurn)?;
            Ok(Mark::Text(true))
        }
        Err(Fault::Full) => {
            fault_line(text, Fault::Full)?;
            Ok(Mark::Text(true))
        }
    }
}

#[inline(always)]
pub(crate) fn propose<R, F: Front<R>>(
    rt: &R,
    front: &mut F,
    text: &mut String,
    session: u32,
    base: u32,
    mv: Move,
) -> Result<Mark, OutOfMemory>
    requires ready { F.ready front.old }
    requires none { string_bytes text.old ≡ [] }
    ensures ready { F.ready front.new }
    ensures ok { IfOk result (Tells F.step (F.seen front.old) (Command.Submit (Call.Propose session base mv))
        (F.seen front.new) (string_bytes text.new)) }
    ensures err { OnErr result (Loses F.step F.refuses (F.seen front.old)
        (Command.Submit (Call.Propose session base mv)) (F.seen front.new)) }
{
    match front.propose(rt, session, base, mv) {
        Ok(Ok(version)) => {
            committed_line(text, version)?;
            Ok(Mark::Text(false))
        }
        Ok(Err(Denial::NoSession)) => Ok(Mark::NoSession),
        Ok(Err(denial)) => {
            denied_line(text, denial)?;
            Ok(Mark::Text(true))
        }
        Err(Fault::NoMemory) => Err(OutOfMemory),
        Err(Fault::OutOfTurn) => {
            fault_line(text, Fault::OutOfTurn)?;
            Ok(Mark::Text(true))
        }
        Err(Fault::Full) => {
            fault_line(text, Fault::Full)?;
            Ok(Mark::Text(true))
        }
    }
}

fn list<R, F: Front<R>>(
    rt: &R,
    front: &mut F,
    text: &mut String,
    session: u32,
) -> Result<Mark, OutOfMemory>
    requires ready { F.ready front.old }
    requires none { string_bytes text.old ≡ [] }
    ensures ready { F.ready front.new }
    ensures ok { IfOk result (Tells F.step (F.seen front.old) (Command.List session) (F.seen front.new) (string_bytes text.new)) }
    ensures err { OnErr result (Loses F.step F.refuses (F.seen front.old) (Command.List session) (F.seen front.new)) }
{
    match front.list(rt, session) {
        Ok(rows) => {
            push_list(text, rows.as_slice())?;
            Ok(Mark::Text(false))
        }
        Err(AskFault::NoMemory) => Err(OutOfMemory),
        Err(fault) => {
            refused_line(text, fault)?;
            Ok(Mark::Text(true))
        }
    }
}

fn audit<R, F: Front<R>>(
    rt: &R,
    front: &mut F,
    text: &mut String,
    session: u32,
) -> Result<Mark, OutOfMemory>
    requires ready { F.ready front.old }
    requires none { string_bytes text.old ≡ [] }
    ensures ready { F.ready front.new }
    ensures ok { IfOk result (Tells F.step (F.seen front.old) (Command.Audit session) (F.seen front.new) (string_bytes text.new)) }
    ensures err { OnErr result (Loses F.step F.refuses (F.seen front.old) (Command.Audit session) (F.seen front.new)) }
{
    match front.audit(rt, session, text) {
        Ok(()) => Ok(Mark::Text(false)),
        Err(AskFault::NoMemory) => Err(OutOfMemory),
        Err(fault) => {
            text.clear();
            refused_line(text, fault)?;
            Ok(Mark::Text(true))
        }
    }
}

fn review<R, F: Front<R>>(
    rt: &R,
    front: &mut F,
    text: &mut String,
    session: u32,
    which: Review,
) -> Result<Mark, OutOfMemory>
    requires ready { F.ready front.old }
    requires none { string_bytes text.old ≡ [] }
    ensures ready { F.ready front.new }
    ensures ok { IfOk result (Tells F.step (F.seen front.old) (Command.Review session which) (F.seen front.new) (string_bytes text.new)) }
    ensures err { OnErr result (Loses F.step F.refuses (F.seen front.old) (Command.Review session which) (F.seen front.new)) }
{
    match front.review(rt, session, which) {
        Ok(names) => {
            push_review(text, names.as_slice())?;
            Ok(Mark::Text(false))
        }
        Err(AskFault::NoMemory) => Err(OutOfMemory),
        Err(fault) => {
            refused_line(text, fault)?;
            Ok(Mark::Text(true))
        }
    }
}

fn check<R, F: Front<R>>(
    rt: &R,
    front: &mut F,
    text: &mut String,
    session: u32,
    operation: Operation,
    object: Object,
) -> Result<Mark, OutOfMemory>
    requires ready { F.ready front.old }
    requires none { string_bytes text.old ≡ [] }
    ensures ready { F.ready front.new }
    ensures ok { IfOk result (Tells F.step (F.seen front.old) (Command.Check session operation object)
        (F.seen front.new) (string_bytes text.new)) }
    ensures err { OnErr result (Loses F.step F.refuses (F.seen front.old) (Command.Check session operation object) (F.seen front.new)) }
{
    Ok(Mark::Checked(front.check(rt, session, operation, object)))
}

fn json<R, F: Front<R>>(
    rt: &R,
    front: &mut F,
    text: &mut String,
    session: u32,
) -> Result<Mark, OutOfMemory>
    requires ready { F.ready front.old }
    requires none { string_bytes text.old ≡ [] }
    ensures ready { F.ready front.new }
    ensures ok { IfOk result (TellsJson F.step (F.seen front.old) session (F.seen front.new) (string_bytes text.new)) }
    ensures err { OnErr result (Loses F.step F.refuses (F.seen front.old) (Command.List session) (F.seen front.new)) }
{
    match front.list(rt, session) {
        Ok(rows) => {
            push_json(text, rows.as_slice())?;
            end_line(text)?;
            Ok(Mark::Text(false))
        }
        Err(AskFault::NoMemory) => Err(OutOfMemory),
        Err(fault) => {
            refused_line(text, fault)?;
            Ok(Mark::Text(true))
        }
    }
}

// ---- lines

/// Has the front do what a line says, and answers what is to be written for it. Where that is a text, it is put into `text`, which is empty
/// before.
#[inline(always)]
pub(crate) fn obey<R, F: Front<R>>(
    rt: &R,
    front: &mut F,
    text: &mut String,
    command: Command,
) -> Result<Mark, OutOfMemory>
    requires ready { F.ready front.old }
    requires none { string_bytes text.old ≡ [] }
    ensures ready { F.ready front.new }
    ensures ok { IfOk result (Obeys F.step (F.seen front.old) command (F.seen front.new) (string_bytes text.new)) }
    ensures err { OnErr result (Fails F.step F.refuses (F.seen front.old) command (F.seen front.new)) }
{
    match command {
        Command::Skip => Ok(Mark::Nothing),
        Command::Submit(call) => reply(rt, front, text, call),
        Command::List { session } => list(rt, front, text, session),
        Command::Json { session } => json(rt, front, text, session),
        Command::Audit { session } => audit(rt, front, text, session),
        Command::Check {
            session,
            operation,
            object,
        } => check(rt, front, text, session, operation, object),
        Command::Review { session, which } => review(rt, front, text, session, which),
    }
}

/// How a line that is not a command counts.
pub(crate) fn unread(fault: ReadFault) -> Result<Mark, OutOfMemory>
    ensures { (text : List ℕ) → IfOk result (IsUnread fault text) }
{
    match fault {
        ReadFault::Line(fault) => Ok(Mark::Bad(fault)),
        ReadFault::NoMemory => Err(OutOfMemory),
    }
}
