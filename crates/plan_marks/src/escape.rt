//! Names as XML has them.

ghost use Rattle.std.specs.Prelude.{◌≡◌, ◌++◌, OnOk, string_bytes};
ghost use Rattle.plan_marks.specs.Names.{escaped, escaped_char};

use std::alloc::AllocError;

/// Appends a text.
pub fn push_text(out: &mut String, text: &str) -> Result<(), AllocError>
    ensures { OnOk result (string_bytes out.new ≡ string_bytes out.old ++ text.now) }
{
    out.push_str(text)
}

/// Appends a character; the five that XML keeps for itself as their entities.
fn push_escaped_char(out: &mut String, c: char) -> Result<(), AllocError>
    ensures { OnOk result (string_bytes out.new ≡ string_bytes out.old ++ escaped_char c) }
{
    match c {
        '&' => push_text(out, "&amp;"),
        '<' => push_text(out, "&lt;"),
        '>' => push_text(out, "&gt;"),
        '"' => push_text(out, "&quot;"),
        '\'' => push_text(out, "&#39;"),
        _ => out.push(c),
    }
}

/// Appends a name, so that it is that name in the text of an element or in an attribute.
pub fn push_escaped(out: &mut String, name: &str) -> Result<(), AllocError>
    ensures { OnOk result (string_bytes out.new ≡ string_bytes out.old ++ escaped name.now) }
{
    for c in name.chars() {
        push_escaped_char(out, c)?;
    }
    Ok(())
}
