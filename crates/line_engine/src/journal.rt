//! The answer to an audit.

ghost use Rattle.std.specs.Prelude.{◌≡◌, ◌++◌, OnOk, IfErr, string_bytes};
ghost use Rattle.board_rules.specs.declared.reply.AskFault.TheVariants as asks;
ghost use Rattle.board_lines.specs.Listings.{audit_text};

use board_journal::Journal;
use board_lines::push_audit;
use board_rules::AskFault;

/// Appends the text of a journal. Where memory runs out, part of it may have been appended.
pub fn append_journal(text: &mut String, journal: &Journal) -> Result<(), AskFault>
    ensures ok { OnOk result (string_bytes text.new ≡ string_bytes text.old ++ audit_text journal.now.entries) }
    ensures err { IfErr result (λ fault. fault ≡ asks.NoMemory) }
{
    match push_audit(text, journal) {
        Ok(()) => Ok(()),
        Err(_) => Err(AskFault::NoMemory),
    }
}
