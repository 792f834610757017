//! The texts of listings, of the journal, of reviews and of checks.

ghost use Rattle.std.specs.Prelude.{◌≡◌, ℕ, ◌++◌, ◌+◌, IfOk, OnOk, OnErr, string_bytes};
ghost use Rattle.std.specs.List.{flat_map};
ghost use Rattle.board_journal.specs.Kept.{kept_entry};
ghost use Rattle.board_rules.specs.Holds.{call_of, reply_to};
ghost use Rattle.board_journal.specs.Records.{reply_of};
ghost use Rattle.board_rules.specs.declared.call.Call.TheVariants.{Propose};
ghost use Rattle.board_lines.specs.Replies.{AppendsPrefix, spaced};
ghost use Rattle.board_lines.specs.Listings.{end_line, row_line, list_text, tag_of, answer_text, entry_text, entry_line, audit_text, name_line, review_text, check_text};

use crate::digits::{push_ascii, push_number, push_spaced, push_text};
use crate::replies::{push_reply, push_verdict};
use crate::spelling::{push_event, push_proposal};
use board_journal::{Answer, Journal, Kept};
use board_rules::{Entry, Hold, Row, Ruling};
use move_core::Move;
use separation_core::Name;
use std::alloc::{AllocError, Global};

/// Appends the line that ends a listing, with its line end.
pub fn push_end(out: &mut String) -> Result<(), AllocError>
    ensures ok { OnOk result (string_bytes out.new ≡ string_bytes out.old ++ end_line) }
    ensures left { OnErr result (AppendsPrefix (string_bytes out.old) end_line (string_bytes out.new)) }
{
    push_text(out, "end\n")
}

// ---- rows

fn push_early(out: &mut String, early: &[u64]) -> Result<(), AllocError>
    ensures ok { OnOk result (string_bytes out.new ≡ string_bytes out.old ++ flat_map spaced early.now) }
    ensures left { OnErr result (AppendsPrefix (string_bytes out.old) (flat_map spaced early.now) (string_bytes out.new)) }
{
    for value in early {
        push_spaced(out, *value)?;
    }
    Ok(())
}

/// Appends the line of a row, with its line end: `row`, its vehicle, its place, its customer and its early values.
pub fn push_row(out: &mut String, row: &Row) -> Result<(), AllocError>
    ensures ok { OnOk result (string_bytes out.new ≡ string_bytes out.old ++ row_line row.now) }
    ensures left { OnErr result (AppendsPrefix (string_bytes out.old) (row_line row.now) (string_bytes out.new)) }
{
    push_text(out, "row")?;
    push_spaced(out, u64::from(row.vehicle()))?;
    push_spaced(out, u64::from(row.place()))?;
    push_spaced(out, u64::from(row.customer()))?;
    push_early(out, row.early())?;
    push_ascii(out, '\n')
}

/// Appends a listing: one line for each row, then the line `end`, each with its line end.
pub fn push_list(out: &mut String, rows: &[Row]) -> Result<(), AllocError>
    ensures ok { OnOk result (string_bytes out.new ≡ string_bytes out.old ++ list_text rows.now) }
    ensures left { OnErr result (AppendsPrefix (string_bytes out.old) (list_text rows.now) (string_bytes out.new)) }
{
    for row in rows {
        push_row(out, row)?;
    }
    push_end(out)
}

/// The text of a listing: one line for each row, then the line `end`, each with its line end.
pub fn list_text(alloc: Global, rows: &[Row]) -> Result<String, AllocError>
    ensures { IfOk result (λ text. string_bytes text ≡ list_text rows.now) }
{
    let mut text = String::new(alloc);
    push_list(&mut text, rows)?;
    Ok(text)
}

// ---- the journal

fn push_tag(out: &mut String, n: u64, desk: u32, turn: u32) -> Result<(), AllocError>
    ensures ok { OnOk result (string_bytes out.new ≡ string_bytes out.old ++ tag_of n desk turn) }
    ensures left { OnErr result (AppendsPrefix (string_bytes out.old) (tag_of n desk turn) (string_bytes out.new)) }
{
    push_text(out, "event ")?;
    push_number(out, n)?;
    push_spaced(out, u64::from(desk))?;
    push_spaced(out, u64::from(turn))
}

/// Appends the call of an entry that stands whole, and its reply.
fn push_answer(out: &mut String, entry: &Entry) -> Result<(), AllocError>
    ensures ok { OnOk result (string_bytes out.new ≡ string_bytes out.old ++ answer_text entry.now) }
    ensures left { OnErr result (AppendsPrefix (string_bytes out.old) (answer_text entry.now) (string_bytes out.new)) }
{
    push_text(out, " | ")?;
    push_event(out, &entry.call)?;
    push_text(out, " | ")?;
    push_reply(out, entry.reply)
}

/// Appends the call of a proposal, and its reply.
#[inline(always)]
fn push_verdict_on(
    out: &mut String,
    session: u32,
    base: u32,
    mv: &Move,
    answer: Answer,
) -> Result<(), AllocError>
    ensures ok { (desk turn : ℕ) → OnOk result (string_bytes out.new ≡ string_bytes out.old ++ answer_text
        (record { desk = desk; turn = turn; call = Propose session base mv.now; reply = reply_of answer })) }
    ensures left { (desk turn : ℕ) → OnErr result (AppendsPrefix (string_bytes out.old) (answer_text
        (record { desk = desk; turn = turn; call = Propose session base mv.now; reply = reply_of answer })) (string_bytes out.new)) }
{
    push_text(out, " | ")?;
    push_proposal(out, session, base, *mv)?;
    push_text(out, " | ")?;
    push_verdict(out, answer)
}

/// Appends a call on pins or fronts, and its reply.
fn push_ruling_on(out: &mut String, hold: Hold, ruling: Ruling) -> Result<(), AllocError>
    ensures ok { (desk turn : ℕ) → OnOk result (string_bytes out.new
        ≡ string_bytes out.old ++ answer_text (record { desk = desk; turn = turn; call = call_of hold; reply = reply_to ruling })) }
    ensures left { (desk turn : ℕ) → OnErr result (AppendsPrefix (string_bytes out.old)
        (answer_text (record { desk = desk; turn = turn; call = call_of hold; reply = reply_to ruling })) (string_bytes out.new)) }
{
    push_text(out, " | ")?;
    push_event(out, &hold.call())?;
    push_text(out, " | ")?;
    push_reply(out, ruling.reply())
}

/// Appends the line of an entry without its line end.
#[inline(always)]
fn push_kept(out: &mut String, n: u64, kept: Kept<'_>) -> Result<(), AllocError>
    ensures ok { OnOk result (string_bytes out.new ≡ string_bytes out.old ++ entry_text n (kept_entry kept.entry)) }
    ensures left { OnErr result (AppendsPrefix (string_bytes out.old) (entry_text n (kept_entry kept.entry)) (string_bytes out.new)) }
{
    match kept {
        Kept::Proposal {
            desk,
            turn,
            session,
            base,
            mv,
            answer,
        } => {
            push_tag(out, n, desk, turn)?;
            push_verdict_on(out, session, base, mv, answer)
        }
        Kept::Hold {
            desk,
            turn,
            hold,
            ruling,
        } => {
            push_tag(out, n, desk, turn)?;
            push_ruling_on(out, hold, ruling)
        }
        Kept::Whole(entry) => {
            push_tag(out, n, entry.desk, entry.turn)?;
            push_answer(out, entry)
        }
    }
}

/// Appends the line of an entry, with its line end: `event`, its number from 1, its desk and its turn, and then, each after a bar, the line of
/// its call and the text of its reply.
#[tactic(auto, unfolding(crate::specs::Listings::entry_line))]
pub fn push_entry(out: &mut String, n: u64, kept: Kept<'_>) -> Result<(), AllocError>
    ensures ok { OnOk result (string_bytes out.new ≡ string_bytes out.old ++ entry_line n (kept_entry kept.entry)) }
    ensures left { OnErr result (AppendsPrefix (string_bytes out.old) (entry_line n (kept_entry kept.entry)) (string_bytes out.new)) }
{
    push_kept(out, n, kept)?;
    push_ascii(out, '\n')
}

/// Appends the journal: one line for each entry from the first on, then the line `end`, each with its line end.
pub fn push_audit(out: &mut String, journal: &Journal) -> Result<(), AllocError>
    ensures ok { OnOk result (string_bytes out.new ≡ string_bytes out.old ++ audit_text journal.now.entries) }
    ensures left { OnErr result (AppendsPrefix (string_bytes out.old) (audit_text journal.now.entries) (string_bytes out.new)) }
{
    let _many = journal.len();
    let mut n = 0;
    for kept in journal.iter() {
        n += 1;
        push_entry(out, n, kept)?;
    }
    push_end(out)
}

// ---- reviews and checks

fn push_name_line(out: &mut String, name: &Name) -> Result<(), AllocError>
    ensures ok { OnOk result (string_bytes out.new ≡ string_bytes out.old ++ name_line name.now) }
    ensures left { OnErr result (AppendsPrefix (string_bytes out.old) (name_line name.now) (string_bytes out.new)) }
{
    push_text(out, "name ")?;
    push_text(out, name.as_str())?;
    push_ascii(out, '\n')
}

/// Appends a review: one line `name` for each name, then the line `end`, each with its line end.
pub fn push_review(out: &mut String, names: &[Name]) -> Result<(), AllocError>
    ensures ok { OnOk result (string_bytes out.new ≡ string_bytes out.old ++ review_text names.now) }
    ensures left { OnErr result (AppendsPrefix (string_bytes out.old) (review_text names.now) (string_bytes out.new)) }
{
    for name in names {
        push_name_line(out, name)?;
    }
    push_end(out)
}

/// Appends the answer to a check, `yes` or `no`, without a line end.
pub fn push_check(out: &mut String, answer: bool) -> Result<(), AllocError>
    ensures ok { OnOk result (string_bytes out.new ≡ string_bytes out.old ++ check_text answer) }
    ensures left { OnErr result (AppendsPrefix (string_bytes out.old) (check_text answer) (string_bytes out.new)) }
{
    if answer {
        push_text(out, "yes")
    } else {
        push_text(out, "no")
    }
}
