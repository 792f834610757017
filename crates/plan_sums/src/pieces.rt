//! Texts and numbers, one behind another.

ghost use Rattle.std.specs.Prelude.{◌≡◌, ◌++◌, OnOk, length, string_bytes};
ghost use Rattle.std.specs.Fmt.{decimal};
ghost use Rattle.plan_sums.specs.Pieces.{filled};

use itoa::Buffer;
use std::alloc::AllocError;

/// Appends a text, and a number behind it.
fn push_piece(out: &mut String, text: &str, number: u64) -> Result<(), AllocError>
    ensures { OnOk result (string_bytes out.new ≡ string_bytes out.old ++ (text.now ++ decimal number)) }
{
    out.push_str(text)?;
    out.push_str(Buffer::new().format(number))
}

/// Appends texts, each with its number in decimal behind it, and a last text.
pub fn push_filled(
    out: &mut String,
    texts: &[&str],
    numbers: &[u64],
    last: &str,
) -> Result<(), AllocError>
    requires { length texts.now ≡ length numbers.now }
    ensures { OnOk result (string_bytes out.new ≡ string_bytes out.old ++ filled texts.now numbers.now last.now) }
{
    for k in 0..numbers.len() {
        push_piece(out, texts[k], numbers[k])?;
    }
    out.push_str(last)?;
    Ok(())
}
