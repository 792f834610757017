//! A note behind the number of its line.

ghost use Rattle.std.specs.Prelude.{◌≡◌, IfOk, string_bytes};
ghost use Rattle.denial_facts.specs.Numbered.{numbered_text};

use std::alloc::{AllocError, Global};

/// A note behind the number of its line.
pub fn numbered(alloc: Global, number: u64, note: &str) -> Result<String, AllocError>
    ensures { IfOk result (λ text. string_bytes text ≡ numbered_text number note.now) }
{
    let mut text = String::new(alloc);
    write!(text, "line {number}: {note}\n")?;
    Ok(text)
}
