//! Reviews of a policy (ANSI INCITS 359-2004, 6.1), as questions answer them.
ghost use Rattle.std.specs.Prelude.{◌≡◌, None, IfOk, OnOk, IfErr};
ghost use Rattle.policy_core.specs.Reviews.{assigned_users, assigned_roles, session_roles};
ghost use Rattle.board_rules.specs.declared.review.Review.TheVariants.{Users, Roles, Active};
ghost use Rattle.board_rules.specs.Questions.{MayAsk, missing, review_of};

use board_rules::{AskFault, Review};
use policy_core::{Policy, Refusal};
use separation_core::Name;

/// The names that a review shows.
pub(crate) fn names(policy: &Policy, which: Review) -> Result<Vec<Name>, AskFault>
    ensures names { IfOk result (λ names. names.items ≡ review_of policy.now which) }
    ensures asked { OnOk result (missing policy.now which ≡ None) }
    ensures fault { IfErr result (MayAsk (missing policy.now which)) }
{
    match which {
        Review::Users(role) => users(policy, role),
        Review::Roles(user) => roles(policy, user),
        Review::Active(session) => active(policy, session),
    }
}

/// The users that are assigned to the role.
fn users(policy: &Policy, role: Name) -> Result<Vec<Name>, AskFault>
    ensures names { IfOk result (λ names. names.items ≡ assigned_users policy.now role) }
    ensures asked { OnOk result (missing policy.now (Users role) ≡ None) }
    ensures fault { IfErr result (MayAsk (missing policy.now (Users role))) }
{
    match policy.assigned_users(role) {
        Ok(names) => Ok(names),
        Err(Refusal::NoRole) => Err(AskFault::NoRole),
        Err(_) => Err(AskFault::NoMemory),
    }
}

/// The roles to which the user is assigned.
fn roles(policy: &Policy, user: Name) -> Result<Vec<Name>, AskFault>
    ensures names { IfOk result (λ names. names.items ≡ assigned_roles policy.now user) }
    ensures asked { OnOk result (missing policy.now (Roles user) ≡ None) }
    ensures fault { IfErr result (MayAsk (missing policy.now (Roles user))) }
{
    match policy.assigned_roles(user) {
        Ok(names) => Ok(names),
        Err(Refusal::NoUser) => Err(AskFault::NoUser),
        Err(_) => Err(AskFault::NoMemory),
    }
}

/// The roles that are active in the session.
fn active(policy: &Policy, session: u32) -> Result<Vec<Name>, AskFault>
    ensures names { IfOk result (λ names. names.items ≡ session_roles policy.now session) }
    ensures asked { OnOk result (missing policy.now (Active session) ≡ None) }
    ensures fault { IfErr result (MayAsk (missing policy.now (Active session))) }
{
    match policy.session_roles(session) {
        Ok(names) => Ok(names),
        Err(Refusal::NotThere) => Err(AskFault::NotThere),
        Err(_) => Err(AskFault::NoMemory),
    }
}
