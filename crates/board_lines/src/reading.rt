//! The grammar of lines.

ghost use Rattle.std.specs.Prelude.{◌≡◌, map};
ghost use Rattle.board_rules.specs.declared.call.Call.TheVariants as calls;
ghost use Rattle.board_lines.specs.declared.command.Command.TheVariants.{Submit};
ghost use Rattle.board_lines.specs.declared.word.Word.TheVariants.{Propose, Hold as HoldBy, Manage, Separate, Session, Ask};
ghost use Rattle.board_lines.specs.declared.word.ManageWord.TheVariants as manages;
ghost use Rattle.text_words.specs.Words.{words as line_words, AreFirstOf};
ghost use Rattle.board_lines.specs.Reading.{Says, Proposes, Holds, Orders, Begins, by_policy, after_word, words_read, read_of};

use crate::arguments::{
    access, five_numbers, four_numbers, name_and_names, name_and_number, name_number_and_names,
    no_arguments, number_and_name, number_argument, one_name, one_number, permission, six_numbers,
    three_numbers, two_names, two_numbers,
};
use crate::command::{Command, LineFault, ReadFault};
use crate::word::{AskWord, HoldWord, ManageWord, MoveWord, SessionWord, SetWord, Word};
use board_rules::{Call, Hold, Review};
use move_core::Move;
use rbac_core::{Command as PolicyCommand, Separation};
use std::alloc::Global;
use text_words::keep_all_words;

// ---- each family of commands, by the words after the command's word; one function each, since each fills a large result

/// A proposal, as a line makes it.
#[derive(Clone, Copy, Drop)]
pub struct Proposed {
    pub session: u32,
    pub base: u32,
    pub mv: Move,
}

/// A change of the policy, as a line asks for it.
#[derive(Drop)]
pub struct Order {
    pub session: u32,
    pub command: PolicyCommand,
}

#[inline(always)]
fn order_of(session: u32, command: PolicyCommand) -> Order
    ensures session { result.session ≡ session }
    ensures command { result.command ≡ command }
{
    Order { session, command }
}

#[inline(always)]
fn proposal_of(session: u32, base: u32, mv: Move) -> Proposed
    ensures session { result.session ≡ session }
    ensures base { result.base ≡ base }
    ensures mv { result.mv ≡ mv }
{
    Proposed { session, base, mv }
}

#[inline(always)]
fn by_policy(session: u32, command: PolicyCommand) -> Command
    ensures { result ≡ by_policy session command }
{
    Command::Submit(Call::Policy { session, command })
}

/// What a line proposes, or its first fault, where its session and the word of a move are known, by the words after that. A proposal is much
/// shorter than a command, which has room for names.
#[tactic(auto, unfolding(crate::specs::Reading::command_of))]
#[inline(never)]
pub fn read_proposal(
    session: u32,
    word: MoveWord,
    arguments: &[&[u8]],
) -> Result<Proposed, LineFault>
    ensures { Proposes result (after_word session (Propose word) (map (λ w. w.now) arguments.now)) }
{
    match word {
        MoveWord::Insert => {
            let (customer, vehicle, place, base) = four_numbers(arguments)?;
            Ok(proposal_of(
                session,
                base,
                Move::Insert {
                    customer,
                    vehicle,
                    place,
                },
            ))
        }
        MoveWord::Remove => {
            let (vehicle, place, base) = three_numbers(arguments)?;
            Ok(proposal_of(session, base, Move::Remove { vehicle, place }))
        }
        MoveWord::Shift => {
            let (vehicle, place, length, to, at, base) = six_numbers(arguments)?;
            Ok(proposal_of(
                session,
                base,
                Move::Shift {
                    vehicle,
                    place,
                    length,
                    to,
                    at,
                },
            ))
        }
        MoveWord::Swap => {
            let (vehicle, place, other, at, base) = five_numbers(arguments)?;
            Ok(proposal_of(
                session,
                base,
                Move::Swap {
                    vehicle,
                    place,
                    other,
                    at,
                },
            ))
        }
        MoveWord::Reverse => {
            let (vehicle, first, last, base) = four_numbers(arguments)?;
            Ok(proposal_of(
                session,
                base,
                Move::Reverse {
                    vehicle,
                    first,
                    last,
                },
            ))
        }
        MoveWord::Cross => {
            let (vehicle, keep, other, keep_other, base) = five_numbers(arguments)?;
            Ok(proposal_of(
                session,
                base,
                Move::Cross {
                    vehicle,
                    keep,
                    other,
                    keep_other,
                },
            ))
        }
    }
}

#[inline(never)]
fn proposal(session: u32, word: MoveWord, arguments: &[&[u8]]) -> Result<Command, ReadFault>
    ensures { Says result (after_word session (Propose word) (map (λ w. w.now) arguments.now)) }
{
    let Proposed { session, base, mv } = read_proposal(session, word, arguments)?;
    Ok(Command::Submit(Call::Propose { session, base, mv }))
}

/// What a line asks of a pin or of a frozen front, or its first fault, where its session and the command's word are known, by the words
/// after that.
#[tactic(auto, unfolding(crate::specs::Reading::command_of))]
#[inline(never)]
pub fn read_hold(session: u32, word: HoldWord, arguments: &[&[u8]]) -> Result<Hold, LineFault>
    ensures { Holds result (after_word session (HoldBy word) (map (λ w. w.now) arguments.now)) }
{
    match word {
        HoldWord::Pin => {
            let customer = one_number(arguments)?;
            Ok(Hold::Pin { session, customer })
        }
        HoldWord::Unpin => {
            let customer = one_number(arguments)?;
            Ok(Hold::Unpin { session, customer })
        }
        HoldWord::Freeze => {
            let (vehicle, length) = two_numbers(arguments)?;
            Ok(Hold::Freeze {
                session,
                vehicle,
                length,
            })
        }
        HoldWord::Thaw => {
            let (vehicle, length) = two_numbers(arguments)?;
            Ok(Hold::Thaw {
                session,
                vehicle,
                length,
            })
        }
    }
}

#[inline(never)]
fn hold(session: u32, word: HoldWord, arguments: &[&[u8]]) -> Result<Command, ReadFault>
    ensures { Says result (after_word session (HoldBy word) (map (λ w. w.now) arguments.now)) }
{
    let hold = read_hold(session, word, arguments)?;
    Ok(Command::Submit(hold.call()))
}

// Two names and permissions are read out of line, so that the other lines do not pay for their room.

#[tactic(auto, unfolding(crate::specs::Reading::command_of))]
#[inline(never)]
fn assignment(session: u32, arguments: &[&[u8]]) -> Result<Order, LineFault>
    ensures { Orders result (after_word session (Manage manages.Assign) (map (λ w. w.now) arguments.now)) }
{
    let (user, role) = two_names(arguments)?;
    Ok(order_of(session, PolicyCommand::AssignUser { user, role }))
}

#[tactic(auto, unfolding(crate::specs::Reading::command_of))]
#[inline(never)]
fn deassignment(session: u32, arguments: &[&[u8]]) -> Result<Order, LineFault>
    ensures { Orders result (after_word session (Manage manages.Deassign) (map (λ w. w.now) arguments.now)) }
{
    let (user, role) = two_names(arguments)?;
    Ok(order_of(session, PolicyCommand::DeassignUser { user, role }))
}

#[tactic(auto, unfolding(crate::specs::Reading::command_of))]
#[inline(never)]
fn grant(session: u32, arguments: &[&[u8]]) -> Result<Order, LineFault>
    ensures { Orders result (after_word session (Manage manages.Grant) (map (λ w. w.now) arguments.now)) }
{
    let (role, operation, range) = permission(arguments)?;
    Ok(order_of(
        session,
        PolicyCommand::GrantPermission {
            role,
            operation,
            range,
        },
    ))
}

#[tactic(auto, unfolding(crate::specs::Reading::command_of))]
#[inline(never)]
fn revocation(session: u32, arguments: &[&[u8]]) -> Result<Order, LineFault>
    ensures { Orders result (after_word session (Manage manages.Revoke) (map (λ w. w.now) arguments.now)) }
{
    let (role, operation, range) = permission(arguments)?;
    Ok(order_of(
        session,
        PolicyCommand::RevokePermission {
            role,
            operation,
            range,
        },
    ))
}

#[tactic(auto, unfolding(crate::specs::Reading::command_of))]
#[inline(never)]
fn inheritance(session: u32, arguments: &[&[u8]]) -> Result<Order, LineFault>
    ensures { Orders result (after_word session (Manage manages.Inherit) (map (λ w. w.now) arguments.now)) }
{
    let (senior, junior) = two_names(arguments)?;
    Ok(order_of(session, PolicyCommand::AddInheritance { senior, junior }))
}

#[tactic(auto, unfolding(crate::specs::Reading::command_of))]
#[inline(never)]
fn disinheritance(session: u32, arguments: &[&[u8]]) -> Result<Order, LineFault>
    ensures { Orders result (after_word session (Manage manages.Uninherit) (map (λ w. w.now) arguments.now)) }
{
    let (senior, junior) = two_names(arguments)?;
    Ok(order_of(session, PolicyCommand::DeleteInheritance { senior, junior }))
}

/// What a line asks of users, roles, assignments, permissions or pairs, or its first fault, where its session and the command's word are
/// known, by the words after that.
#[tactic(auto, unfolding(crate::specs::Reading::command_of))]
#[inline(never)]
pub fn read_order(session: u32, word: ManageWord, arguments: &[&[u8]]) -> Result<Order, LineFault>
    ensures { Orders result (after_word session (Manage word) (map (λ w. w.now) arguments.now)) }
{
    match word {
        ManageWord::AddUser => {
            let user = one_name(arguments)?;
            Ok(order_of(session, PolicyCommand::AddUser { user }))
        }
        ManageWord::DeleteUser => {
            let user = one_name(arguments)?;
            Ok(order_of(session, PolicyCommand::DeleteUser { user }))
        }
        ManageWord::AddRole => {
            let role = one_name(arguments)?;
            Ok(order_of(session, PolicyCommand::AddRole { role }))
        }
        ManageWord::DeleteRole => {
            let role = one_name(arguments)?;
            Ok(order_of(session, PolicyCommand::DeleteRole { role }))
        }
        ManageWord::Assign => assignment(session, arguments),
        ManageWord::Deassign => deassignment(session, arguments),
        ManageWord::Grant => grant(session, arguments),
        ManageWord::Revoke => revocation(session, arguments),
        ManageWord::Inherit => inheritance(session, arguments),
        ManageWord::Uninherit => disinheritance(session, arguments),
        ManageWord::Migrate => {
            no_arguments(arguments)?;
            Ok(order_of(session, PolicyCommand::Migrate))
        }
    }
}

#[inline(never)]
fn manage(session: u32, word: ManageWord, arguments: &[&[u8]]) -> Result<Command, ReadFault>
    ensures { Says result (after_word session (Manage word) (map (λ w. w.now) arguments.now)) }
{
    let Order { session, command } = read_order(session, word, arguments)?;
    Ok(by_policy(session, command))
}

#[tactic(auto, unfolding(crate::specs::Reading::command_of))]
#[inline(never)]
fn separate(
    alloc: Global,
    session: u32,
    kind: Separation,
    word: SetWord,
    arguments: &[&[u8]],
) -> Result<Command, ReadFault>
    ensures { Says result (after_word session (Separate kind word) (map (λ w. w.now) arguments.now)) }
{
    match word {
        SetWord::Create => {
            let (name, number, roles) = name_number_and_names(alloc, arguments)?;
            Ok(by_policy(
                session,
                PolicyCommand::CreateSet {
                    kind,
                    name,
                    number,
                    roles,
                },
            ))
        }
        SetWord::Add => {
            let (name, role) = two_names(arguments)?;
            Ok(by_policy(session, PolicyCommand::AddSetMember { kind, name, role }))
        }
        SetWord::Drop => {
            let (name, role) = two_names(arguments)?;
            Ok(by_policy(session, PolicyCommand::DeleteSetMember { kind, name, role }))
        }
        SetWord::Delete => {
            let name = one_name(arguments)?;
            Ok(by_policy(session, PolicyCommand::DeleteSet { kind, name }))
        }
        SetWord::Number => {
            let (name, number) = name_and_number(arguments)?;
            Ok(by_policy(
                session,
                PolicyCommand::SetCardinality { kind, name, number },
            ))
        }
    }
}

#[tactic(auto, unfolding(crate::specs::Reading::command_of))]
#[inline(never)]
fn change_session(
    alloc: Global,
    session: u32,
    word: SessionWord,
    arguments: &[&[u8]],
) -> Result<Command, ReadFault>
    ensures { Says result (after_word session (Session word) (map (λ w. w.now) arguments.now)) }
{
    match word {
        SessionWord::Open => {
            let (user, roles) = name_and_names(alloc, arguments)?;
            Ok(by_policy(session, PolicyCommand::CreateSession { user, roles }))
        }
        SessionWord::Close => {
            let number = one_number(arguments)?;
            Ok(by_policy(session, PolicyCommand::DeleteSession { session: number }))
        }
        SessionWord::Activate => {
            let (number, role) = number_and_name(arguments)?;
            Ok(by_policy(
                session,
                PolicyCommand::AddActiveRole {
                    session: number,
                    role,
                },
            ))
        }
        SessionWord::Deactivate => {
            let (number, role) = number_and_name(arguments)?;
            Ok(by_policy(
                session,
                PolicyCommand::DropActiveRole {
                    session: number,
                    role,
                },
            ))
        }
    }
}

#[tactic(auto, unfolding(crate::specs::Reading::command_of))]
#[inline(never)]
fn question(session: u32, word: AskWord, arguments: &[&[u8]]) -> Result<Command, ReadFault>
    ensures { Says result (after_word session (Ask word) (map (λ w. w.now) arguments.now)) }
{
    match word {
        AskWord::List => {
            no_arguments(arguments)?;
            Ok(Command::List { session })
        }
        AskWord::Json => {
            no_arguments(arguments)?;
            Ok(Command::Json { session })
        }
        AskWord::Audit => {
            no_arguments(arguments)?;
            Ok(Command::Audit { session })
        }
        AskWord::Check => {
            let (operation, object) = access(arguments)?;
            Ok(Command::Check {
                session,
                operation,
                object,
            })
        }
        AskWord::Users => {
            let role = one_name(arguments)?;
            Ok(Command::Review {
                session,
                which: Review::Users(role),
            })
        }
        AskWord::Roles => {
            let user = one_name(arguments)?;
            Ok(Command::Review {
                session,
                which: Review::Roles(user),
            })
        }
        AskWord::Active => {
            let number = one_number(arguments)?;
            Ok(Command::Review {
                session,
                which: Review::Active(number),
            })
        }
    }
}

// ---- lines

/// What a line says, or its first fault, where its session and command are known, by the words after the command's word.
// Inlined into its caller, which holds the large result; out of line, the result would be copied once more.
#[inline(always)]
pub fn read_command(
    alloc: Global,
    session: u32,
    word: Word,
    arguments: &[&[u8]],
) -> Result<Command, ReadFault>
    ensures { Says result (after_word session word (map (λ w. w.now) arguments.now)) }
{
    match word {
        Word::Propose(word) => proposal(session, word, arguments),
        Word::Hold(word) => hold(session, word, arguments),
        Word::Manage(word) => manage(session, word, arguments),
        Word::Separate(kind, word) => separate(alloc, session, kind, word, arguments),
        Word::Session(word) => change_session(alloc, session, word, arguments),
        Word::Ask(word) => question(session, word, arguments),
    }
}

/// What a line begins with, before its arguments are looked at.
#[derive(Clone, Copy, Drop)]
pub enum Head<'a> {
    /// A line without words, or a comment.
    Skip,
    /// The session, the command, and the words after the command's word.
    Asks {
        session: u32,
        word: Word,
        arguments: &'a [&'a [u8]],
    },
}

/// What the words of a line begin with, or the first fault: the session is no number, or there is no such command. What a whole line says
/// is large, and this part alone shows most bad lines.
#[tactic(auto, unfolding(crate::specs::Reading::words_read))]
#[inline(always)]
pub fn read_head<'a>(words: &'a [&'a [u8]]) -> Result<Head<'a>, LineFault>
    ensures { Begins result (words_read (map (λ w. w.now) words.now)) }
{
    let [first, rest @ ..] = words else {
        return Ok(Head::Skip);
    };
    if let [b'#', ..] = first {
        return Ok(Head::Skip);
    }
    let session = number_argument(first)?;
    let [word, arguments @ ..] = rest else {
        return Err(LineFault::Word);
    };
    let Some(word) = Word::of(word) else {
        return Err(LineFault::Word);
    };
    Ok(Head::Asks {
        session,
        word,
        arguments,
    })
}

/// What the words of a line say, or the first fault. Only the names of a set or a session take memory.
///
/// A line without words, or whose first word begins with `#`, is skipped. Any other is `SESSION COMMAND ARGUMENTS`. The faults, in the
/// order in which they are checked: the session is no number; the command's word; the count of words (without the words of an object whose
/// kind is none of the three); then from the left the first argument that does not fit.
pub fn read_words(alloc: Global, words: &[&[u8]]) -> Result<Command, ReadFault>
    ensures { Says result (words_read (map (λ w. w.now) words.now)) }
{
    match read_head(words)? {
        Head::Skip => Ok(Command::Skip),
        Head::Asks {
            session,
            word,
            arguments,
        } => read_command(alloc, session, word, arguments),
    }
}

/// What a line says, or its first fault. The line comes without its line end. Spaces and tabs separate the words, which are kept in `kept`;
/// the caller reuses that from line to line; where memory runs out, the first of the words are kept. The length of a line is not limited
/// here.
pub fn read_kept<'a>(
    alloc: Global,
    kept: &mut Vec<&'a [u8]>,
    line: &'a [u8],
) -> Result<Command, ReadFault>
    ensures says { Says result (read_of line.now) }
    ensures left { AreFirstOf (map (λ w. w.now) kept.new.items) (line_words line.now) }
{
    keep_all_words(kept, line)?;
    read_words(alloc, kept.as_slice())
}

/// What a line says, or its first fault, as `read_kept` has it.
pub fn read_line(alloc: Global, line: &[u8]) -> Result<Command, ReadFault>
    ensures { Says result (read_of line.now) }
{
    let mut kept = Vec::new(alloc);
    read_kept(alloc, &mut kept, line)
}
