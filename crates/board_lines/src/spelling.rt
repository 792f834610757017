//! The texts of calls.

ghost use Rattle.std.specs.Prelude.{◌≡◌, ◌++◌, [], ◌∷◌, IfOk, OnOk, OnErr, string_bytes};
ghost use Rattle.std.specs.List.{flat_map};
ghost use Rattle.std.specs.Fmt.{decimal};
ghost use Rattle.board_rules.specs.declared.call.Call.TheVariants.{Propose};
ghost use Rattle.board_lines.specs.declared.word.Word.TheVariants.{Separate};
ghost use Rattle.board_lines.specs.Table.{row_of};
ghost use Rattle.board_lines.specs.Replies.{AppendsPrefix, spaced};
ghost use Rattle.board_lines.specs.Arguments.{operation_word};
ghost use Rattle.board_lines.specs.Saying.{range_words, behind, move_said, policy_said, after_number, event_text};

use crate::digits::{push_ascii, push_each, push_number, push_text};
use crate::word::SetWord;
use board_rules::Call;
use move_core::Move;
use rbac_core::{Command as PolicyCommand, ObjectRange, Operation, Separation};
use separation_core::Name;
use std::alloc::{AllocError, Global};

// ---- parts

fn push_name(out: &mut String, name: &Name) -> Result<(), AllocError>
    ensures ok { OnOk result (string_bytes out.new ≡ string_bytes out.old ++ 32 ∷ name.now) }
    ensures left { OnErr result (AppendsPrefix (string_bytes out.old) (32 ∷ name.now) (string_bytes out.new)) }
{
    push_ascii(out, ' ')?;
    push_text(out, name.as_str())
}

fn push_names(out: &mut String, names: &[Name]) -> Result<(), AllocError>
    ensures ok { OnOk result (string_bytes out.new ≡ string_bytes out.old ++ behind names.now) }
    ensures left { OnErr result (AppendsPrefix (string_bytes out.old) (behind names.now) (string_bytes out.new)) }
{
    for name in names {
        push_name(out, name)?;
    }
    Ok(())
}

/// Appends a command's word, which begins with a space, and numbers.
fn push_numbers(out: &mut String, word: &str, numbers: &[u32]) -> Result<(), AllocError>
    ensures ok { OnOk result (string_bytes out.new ≡ string_bytes out.old ++ (word.now ++ flat_map spaced numbers.now)) }
    ensures left { OnErr result (AppendsPrefix (string_bytes out.old) (word.now ++ flat_map spaced numbers.now) (string_bytes out.new)) }
{
    push_text(out, word)?;
    push_each(out, numbers)
}

fn push_one_name(out: &mut String, word: &str, name: &Name) -> Result<(), AllocError>
    ensures ok { OnOk result (string_bytes out.new ≡ string_bytes out.old ++ (word.now ++ behind (name.now ∷ []))) }
    ensures left { OnErr result (AppendsPrefix (string_bytes out.old) (word.now ++ behind (name.now ∷ [])) (string_bytes out.new)) }
{
    push_text(out, word)?;
    push_name(out, name)
}

fn push_two_names(
    out: &mut String,
    word: &str,
    first: &Name,
    second: &Name,
) -> Result<(), AllocError>
    ensures ok { OnOk result (string_bytes out.new ≡ string_bytes out.old ++ (word.now ++ behind (first.now ∷ second.now ∷ []))) }
    ensures left { OnErr result (AppendsPrefix (string_bytes out.old)
        (word.now ++ behind (first.now ∷ second.now ∷ [])) (string_bytes out.new)) }
{
    push_text(out, word)?;
    push_name(out, first)?;
    push_name(out, second)
}

fn push_name_and_number(
    out: &mut String,
    word: &str,
    name: &Name,
    number: u32,
) -> Result<(), AllocError>
    ensures ok { OnOk result (string_bytes out.new ≡ string_bytes out.old ++ (word.now ++ behind (name.now ∷ decimal number ∷ []))) }
    ensures left { OnErr result (AppendsPrefix (string_bytes out.old) (word.now ++ behind (name.now ∷ decimal number ∷ []))
        (string_bytes out.new)) }
{
    push_text(out, word)?;
    push_name(out, name)?;
    push_each(out, &[number])
}

fn push_number_and_name(
    out: &mut String,
    word: &str,
    number: u32,
    name: &Name,
) -> Result<(), AllocError>
    ensures ok { OnOk result (string_bytes out.new ≡ string_bytes out.old ++ (word.now ++ behind (decimal number ∷ name.now ∷ []))) }
    ensures left { OnErr result (AppendsPrefix (string_bytes out.old) (word.now ++ behind (decimal number ∷ name.now ∷ []))
        (string_bytes out.new)) }
{
    push_text(out, word)?;
    push_each(out, &[number])?;
    push_name(out, name)
}

fn push_operation(out: &mut String, operation: Operation) -> Result<(), AllocError>
    ensures ok { OnOk result (string_bytes out.new ≡ string_bytes out.old ++ 32 ∷ operation_word operation) }
    ensures left { OnErr result (AppendsPrefix (string_bytes out.old) (32 ∷ operation_word operation) (string_bytes out.new)) }
{
    match operation {
        Operation::View => push_text(out, " view"),
        Operation::Move => push_text(out, " move"),
        Operation::Pin => push_text(out, " pin"),
        Operation::Freeze => push_text(out, " freeze"),
        Operation::Admin => push_text(out, " admin"),
        Operation::Audit => push_text(out, " audit"),
        Operation::Override => push_text(out, " override"),
    }
}

fn push_range(out: &mut String, range: ObjectRange) -> Result<(), AllocError>
    ensures ok { OnOk result (string_bytes out.new ≡ string_bytes out.old ++ behind (range_words range)) }
    ensures left { OnErr result (AppendsPrefix (string_bytes out.old) (behind (range_words range)) (string_bytes out.new)) }
{
    match range {
        ObjectRange::Board => push_text(out, " board"),
        ObjectRange::Vehicles { first, last } => push_numbers(out, " vehicle", &[first, last]),
        ObjectRange::Customers { first, last } => push_numbers(out, " customer", &[first, last]),
    }
}

fn push_permission(
    out: &mut String,
    word: &str,
    role: &Name,
    operation: Operation,
    range: ObjectRange,
) -> Result<(), AllocError>
    ensures ok { OnOk result (string_bytes out.new ≡ string_bytes out.old
        ++ (word.now ++ behind (role.now ∷ operation_word operation ∷ range_words range))) }
    ensures left { OnErr result (AppendsPrefix (string_bytes out.old)
        (word.now ++ behind (role.now ∷ operation_word operation ∷ range_words range)) (string_bytes out.new)) }
{
    push_text(out, word)?;
    push_name(out, role)?;
    push_operation(out, operation)?;
    push_range(out, range)
}

/// The word of a change of a set, behind a space.
#[inline(always)]
fn set_word(kind: Separation, word: SetWord) -> &'static str
    ensures { result.now ≡ 32 ∷ (row_of (Separate kind word)).text }
{
    match kind {
        Separation::Static => match word {
            SetWord::Create => " ssd-create",
            SetWord::Add => " ssd-add",
            SetWord::Drop => " ssd-drop",
            SetWord::Delete => " ssd-delete",
            SetWord::Number => " ssd-number",
        },
        Separation::Dynamic => match word {
            SetWord::Create => " dsd-create",
            SetWord::Add => " dsd-add",
            SetWord::Drop => " dsd-drop",
            SetWord::Delete => " dsd-delete",
            SetWord::Number => " dsd-number",
        },
    }
}

/// Appends a set's word, its name, its number and its roles.
fn push_set(
    out: &mut String,
    word: &str,
    name: &Name,
    number: u32,
    roles: &[Name],
) -> Result<(), AllocError>
    ensures ok { OnOk result (string_bytes out.new ≡ string_bytes out.old ++ (word.now ++ behind (name.now ∷ decimal number ∷ roles.now))) }
    ensures left { OnErr result (AppendsPrefix (string_bytes out.old) (word.now ++ behind (name.now ∷ decimal number ∷ roles.now))
        (string_bytes out.new)) }
{
    push_name_and_number(out, word, name, number)?;
    push_names(out, roles)
}

// ---- calls, after the session

fn push_move(out: &mut String, session: u32, base: u32, mv: Move) -> Result<(), AllocError>
    ensures ok { OnOk result (string_bytes out.new ≡ string_bytes out.old ++ after_number (move_said session base mv)) }
    ensures left { OnErr result (AppendsPrefix (string_bytes out.old) (after_number (move_said session base mv)) (string_bytes out.new)) }
{
    match mv {
        Move::Insert {
            customer,
            vehicle,
            place,
        } => { push_numbers(out, " insert", &[customer, vehicle, place, base]) }
        Move::Remove { vehicle, place } => push_numbers(out, " remove", &[vehicle, place, base]),
        Move::Shift {
            vehicle,
            place,
            length,
            to,
            at,
        } => { push_numbers(out, " shift", &[vehicle, place, length, to, at, base]) }
        Move::Swap {
            vehicle,
            place,
            other,
            at,
        } => { push_numbers(out, " swap", &[vehicle, place, other, at, base]) }
        Move::Reverse {
            vehicle,
            first,
            last,
        } => { push_numbers(out, " reverse", &[vehicle, first, last, base]) }
        Move::Cross {
            vehicle,
            keep,
            other,
            keep_other,
        } => { push_numbers(out, " cross", &[vehicle, keep, other, keep_other, base]) }
    }
}

fn push_policy(out: &mut String, session: u32, command: &PolicyCommand) -> Result<(), AllocError>
    ensures ok { OnOk result (string_bytes out.new ≡ string_bytes out.old ++ after_number (policy_said session command.now)) }
    ensures left { OnErr result (AppendsPrefix (string_bytes out.old)
        (after_number (policy_said session command.now)) (string_bytes out.new)) }
{
    match command {
        PolicyCommand::AddUser { user } => push_one_name(out, " add-user", user),
        PolicyCommand::DeleteUser { user } => push_one_name(out, " delete-user", user),
        PolicyCommand::AddRole { role } => push_one_name(out, " add-role", role),
        PolicyCommand::DeleteRole { role } => push_one_name(out, " delete-role", role),
        PolicyCommand::AssignUser { user, role } => push_two_names(out, " assign", user, role),
        PolicyCommand::DeassignUser { user, role } => push_two_names(out, " deassign", user, role),
        PolicyCommand::GrantPermission {
            role,
            operation,
            range,
        } => { push_permission(out, " grant", role, *operation, *range) }
        PolicyCommand::RevokePermission {
            role,
            operation,
            range,
        } => { push_permission(out, " revoke", role, *operation, *range) }
        PolicyCommand::AddInheritance { senior, junior } => {
            push_two_names(out, " inherit", senior, junior)
        }
        PolicyCommand::DeleteInheritance { senior, junior } => {
            push_two_names(out, " uninherit", senior, junior)
        }
        PolicyCommand::CreateSet {
            kind,
            name,
            number,
            roles,
        } => {
            push_set(
                out,
                set_word(*kind, SetWord::Create),
                name,
                *number,
                roles.as_slice(),
            )
        }
        PolicyCommand::AddSetMember { kind, name, role } => {
            push_two_names(out, set_word(*kind, SetWord::Add), name, role)
        }
        PolicyCommand::DeleteSetMember { kind, name, role } => {
            push_two_names(out, set_word(*kind, SetWord::Drop), name, role)
        }
        PolicyCommand::DeleteSet { kind, name } => {
            push_one_name(out, set_word(*kind, SetWord::Delete), name)
        }
        PolicyCommand::SetCardinality { kind, name, number } => {
            push_name_and_number(out, set_word(*kind, SetWord::Number), name, *number)
        }
        PolicyCommand::Migrate => push_text(out, " migrate"),
        PolicyCommand::CreateSession { user, roles } => {
            push_one_name(out, " open", user)?;
            push_names(out, roles.as_slice())
        }
        PolicyCommand::DeleteSession { session } => push_numbers(out, " close", &[*session]),
        PolicyCommand::AddActiveRole { session, role } => {
            push_number_and_name(out, " activate", *session, role)
        }
        PolicyCommand::DropActiveRole { session, role } => {
            push_number_and_name(out, " deactivate", *session, role)
        }
    }
}

/// Appends the line of a proposal.
pub(crate) fn push_proposal(
    out: &mut String,
    session: u32,
    base: u32,
    mv: Move,
) -> Result<(), AllocError>
    ensures ok { OnOk result (string_bytes out.new ≡ string_bytes out.old ++ event_text (Propose session base mv)) }
    ensures left { OnErr result (AppendsPrefix (string_bytes out.old) (event_text (Propose session base mv)) (string_bytes out.new)) }
{
    push_number(out, u64::from(session))?;
    push_move(out, session, base, mv)
}

/// Appends the line of a call: single spaces, numbers without leading zeros, no line end.
pub fn push_event(out: &mut String, call: &Call) -> Result<(), AllocError>
    ensures ok { OnOk result (string_bytes out.new ≡ string_bytes out.old ++ event_text call.now) }
    ensures left { OnErr result (AppendsPrefix (string_bytes out.old) (event_text call.now) (string_bytes out.new)) }
{
    match call {
        Call::Propose { session, base, mv } => push_proposal(out, *session, *base, *mv),
        Call::Pin { session, customer } => {
            push_number(out, u64::from(*session))?;
            push_numbers(out, " pin", &[*customer])
        }
        Call::Unpin { session, customer } => {
            push_number(out, u64::from(*session))?;
            push_numbers(out, " unpin", &[*customer])
        }
        Call::Freeze {
            session,
            vehicle,
            length,
        } => {
            push_number(out, u64::from(*session))?;
            push_numbers(out, " freeze", &[*vehicle, *length])
        }
        Call::Thaw {
            session,
            vehicle,
            length,
        } => {
            push_number(out, u64::from(*session))?;
            push_numbers(out, " thaw", &[*vehicle, *length])
        }
        Call::Policy { session, command } => {
            push_number(out, u64::from(*session))?;
            push_policy(out, *session, command)
        }
    }
}

/// The line of a call: single spaces, numbers without leading zeros, no line end. `read_line` reads that call from it again.
pub fn event_text(alloc: Global, call: &Call) -> Result<String, AllocError>
    ensures { IfOk result (λ text. string_bytes text ≡ event_text call.now) }
{
    let mut text = String::new(alloc);
    push_event(&mut text, call)?;
    Ok(text)
}
