//! The texts of replies and faults.

ghost use Rattle.std.specs.Prelude.{◌≡◌, ◌≢◌, ◌++◌, IfOk, OnOk, OnErr, string_bytes};
ghost use Rattle.std.specs.Fmt.{decimal};
ghost use Rattle.board_journal.specs.Records.{reply_of};
ghost use Rattle.board_rules.specs.declared.reply.Reply.TheVariants.{Committed, Denied};
ghost use Rattle.board_rules.specs.declared.reply.Fault.TheVariants as faults;
ghost use Rattle.board_rules.specs.declared.reply.AskFault.TheVariants as asks;
ghost use Rattle.board_lines.specs.Replies.{AppendsPrefix, spaced, denial_text, refusal_text, reply_text, fault_text, ask_fault_text, line_fault_text};

use crate::command::LineFault;
use crate::digits::{push_decimal, push_number, push_spaced, push_text};
use board_journal::Answer;
use board_rules::{AskFault, Denial, Fault, Refusal, Reply};
use std::alloc::{AllocError, Global};

/// Appends a text and a number. The text ends with the space between them, which is cheaper than one that is appended alone.
fn push_with(out: &mut String, text: &str, number: u32) -> Result<(), AllocError>
    ensures ok { OnOk result (string_bytes out.new ≡ string_bytes out.old ++ (text.now ++ decimal number)) }
    ensures left { OnErr result (AppendsPrefix (string_bytes out.old) (text.now ++ decimal number) (string_bytes out.new)) }
{
    push_text(out, text)?;
    push_number(out, u64::from(number))
}

// Out of line, since most replies have no second number.
#[inline(never)]
fn push_second(out: &mut String, number: u32) -> Result<(), AllocError>
    ensures ok { OnOk result (string_bytes out.new ≡ string_bytes out.old ++ spaced number) }
    ensures left { OnErr result (AppendsPrefix (string_bytes out.old) (spaced number) (string_bytes out.new)) }
{
    push_spaced(out, u64::from(number))
}

fn push_with_two(out: &mut String, text: &str, first: u32, second: u32) -> Result<(), AllocError>
    ensures ok { OnOk result (string_bytes out.new ≡ string_bytes out.old ++ (text.now ++ (decimal first ++ spaced second))) }
    ensures left { OnErr result (AppendsPrefix (string_bytes out.old)
        (text.now ++ (decimal first ++ spaced second)) (string_bytes out.new)) }
{
    push_with(out, text, first)?;
    push_second(out, second)
}

fn push_denial(out: &mut String, denial: Denial) -> Result<(), AllocError>
    ensures ok { OnOk result (string_bytes out.new ≡ string_bytes out.old ++ denial_text denial) }
    ensures left { OnErr result (AppendsPrefix (string_bytes out.old) (denial_text denial) (string_bytes out.new)) }
{
    match denial {
        Denial::NoSession => push_text(out, "denied no-session"),
        Denial::BadVehicle => push_text(out, "denied bad-vehicle"),
        Denial::AccessVehicle(vehicle) => push_with(out, "denied access vehicle ", vehicle),
        Denial::Ahead => push_text(out, "denied ahead"),
        Denial::Stale(vehicle) => push_with(out, "denied stale ", vehicle),
        Denial::BadPlace => push_text(out, "denied bad-place"),
        Denial::AccessCustomer(vehicle, place) => {
            push_with_two(out, "denied access customer ", vehicle, place)
        }
        Denial::Frozen(vehicle) => push_with(out, "denied frozen ", vehicle),
        Denial::Pinned(vehicle, place) => push_with_two(out, "denied pinned ", vehicle, place),
        Denial::Bound(vehicle, dimension) => push_with_two(
            out,
            "denied bound ",
            vehicle,
            dimension,
        ),
    }
}

fn push_refusal(out: &mut String, refusal: Refusal) -> Result<(), AllocError>
    ensures ok { OnOk result (string_bytes out.new ≡ string_bytes out.old ++ refusal_text refusal) }
    ensures left { OnErr result (AppendsPrefix (string_bytes out.old) (refusal_text refusal) (string_bytes out.new)) }
{
    match refusal {
        Refusal::NoSession => push_text(out, "refused no-session"),
        Refusal::NoAccess => push_text(out, "refused no-access"),
        Refusal::BadVehicle => push_text(out, "refused bad-vehicle"),
        Refusal::BadCustomer => push_text(out, "refused bad-customer"),
        Refusal::NoUser => push_text(out, "refused no-user"),
        Refusal::NoRole => push_text(out, "refused no-role"),
        Refusal::NoSet => push_text(out, "refused no-set"),
        Refusal::BadObject => push_text(out, "refused bad-object"),
        Refusal::Already => push_text(out, "refused already"),
        Refusal::NotThere => push_text(out, "refused not-there"),
        Refusal::NotAuthorized => push_text(out, "refused not-authorized"),
        Refusal::Cycle => push_text(out, "refused cycle"),
        Refusal::InSet => push_text(out, "refused in-set"),
        Refusal::Number => push_text(out, "refused number"),
        Refusal::Ssd(name) => {
            push_text(out, "refused ssd ")?;
            push_text(out, name.as_str())
        }
        Refusal::Dsd(name) => {
            push_text(out, "refused dsd ")?;
            push_text(out, name.as_str())
        }
        Refusal::Full => push_text(out, "refused full"),
        Refusal::NotPlaced => push_text(out, "refused not-placed"),
        Refusal::Length => push_text(out, "refused length"),
    }
}

/// Appends the text of a reply, without a line end.
#[inline(always)]
pub fn push_reply(out: &mut String, reply: Reply) -> Result<(), AllocError>
    ensures ok { OnOk result (string_bytes out.new ≡ string_bytes out.old ++ reply_text reply) }
    ensures left { OnErr result (AppendsPrefix (string_bytes out.old) (reply_text reply) (string_bytes out.new)) }
{
    match reply {
        Reply::Done => push_text(out, "done"),
        Reply::Session(number) => push_with(out, "session ", number),
        Reply::Committed(version) => push_with(out, "committed ", version),
        Reply::Denied(denial) => push_denial(out, denial),
        Reply::Refused(refusal) => push_refusal(out, refusal),
    }
}

/// Appends the text of the reply to a proposal that was committed, without a line end. It does so at less cost than `push_reply`.
pub fn push_committed(out: &mut String, version: u32) -> Result<(), AllocError>
    ensures ok { OnOk result (string_bytes out.new ≡ string_bytes out.old ++ reply_text (Committed version)) }
    ensures left { OnErr result (AppendsPrefix (string_bytes out.old) (reply_text (Committed version)) (string_bytes out.new)) }
{
    push_text(out, "committed ")?;
    push_decimal(out, u64::from(version))
}

/// Appends the text of the reply to a proposal that was denied, without a line end. It does so at less cost than `push_reply`.
#[inline(always)]
pub fn push_denied(out: &mut String, denial: Denial) -> Result<(), AllocError>
    ensures ok { OnOk result (string_bytes out.new ≡ string_bytes out.old ++ reply_text (Denied denial)) }
    ensures left { OnErr result (AppendsPrefix (string_bytes out.old) (reply_text (Denied denial)) (string_bytes out.new)) }
{
    push_denial(out, denial)
}

/// Appends the text of the reply to a proposal, as the journal keeps it.
pub(crate) fn push_verdict(out: &mut String, answer: Answer) -> Result<(), AllocError>
    ensures ok { OnOk result (string_bytes out.new ≡ string_bytes out.old ++ reply_text (reply_of answer)) }
    ensures left { OnErr result (AppendsPrefix (string_bytes out.old) (reply_text (reply_of answer)) (string_bytes out.new)) }
{
    match answer.verdict() {
        Ok(version) => push_with(out, "committed ", version),
        Err(denial) => push_denial(out, denial),
    }
}

/// The text of a reply, without a line end.
pub fn reply_text(alloc: Global, reply: Reply) -> Result<String, AllocError>
    ensures { IfOk result (λ text. string_bytes text ≡ reply_text reply) }
{
    let mut text = String::new(alloc);
    push_reply(&mut text, reply)?;
    Ok(text)
}

/// Appends the text of a call that was not taken, without a line end. `NoMemory` must not be passed: it has no text, since it ends the run.
pub fn push_fault(out: &mut String, fault: Fault) -> Result<(), AllocError>
    requires { fault ≢ faults.NoMemory }
    ensures ok { OnOk result (string_bytes out.new ≡ string_bytes out.old ++ fault_text fault) }
    ensures left { OnErr result (AppendsPrefix (string_bytes out.old) (fault_text fault) (string_bytes out.new)) }
{
    match fault {
        Fault::OutOfTurn => push_text(out, "fault out-of-turn"),
        Fault::Full => push_text(out, "fault full"),
        Fault::NoMemory => unreachable!(),
    }
}

/// Appends the text of a question that was refused, without a line end. `NoMemory` must not be passed: it has no text, since it ends the
/// run.
pub fn push_ask_fault(out: &mut String, fault: AskFault) -> Result<(), AllocError>
    requires { fault ≢ asks.NoMemory }
    ensures ok { OnOk result (string_bytes out.new ≡ string_bytes out.old ++ ask_fault_text fault) }
    ensures left { OnErr result (AppendsPrefix (string_bytes out.old) (ask_fault_text fault) (string_bytes out.new)) }
{
    match fault {
        AskFault::NoSession => push_text(out, "refused no-session"),
        AskFault::NoAccess => push_text(out, "refused no-access"),
        AskFault::NoUser => push_text(out, "refused no-user"),
        AskFault::NoRole => push_text(out, "refused no-role"),
        AskFault::NotThere => push_text(out, "refused not-there"),
        AskFault::NoMemory => unreachable!(),
    }
}

/// Appends the text of a bad line's fault, without a line end.
pub fn push_line_fault(out: &mut String, fault: LineFault) -> Result<(), AllocError>
    ensures ok { OnOk result (string_bytes out.new ≡ string_bytes out.old ++ line_fault_text fault) }
    ensures left { OnErr result (AppendsPrefix (string_bytes out.old) (line_fault_text fault) (string_bytes out.new)) }
{
    match fault {
        LineFault::Number => push_text(out, "bad number"),
        LineFault::Word => push_text(out, "bad word"),
        LineFault::Count => push_text(out, "bad count"),
        LineFault::Name => push_text(out, "bad name"),
        LineFault::Op => push_text(out, "bad op"),
        LineFault::Object => push_text(out, "bad object"),
    }
}
