//! Numbers, appended to a text.

ghost use Rattle.std.specs.Prelude.{◌≡◌, ◌≤◌, ◌<◌, ◌++◌, [], ◌∷◌, OnOk, OnErr, string_bytes};
ghost use Rattle.std.specs.List.{flat_map};
ghost use Rattle.std.specs.Fmt.{decimal};
ghost use Rattle.board_lines.specs.Replies.{AppendsPrefix, spaced, leading};

use itoa::Buffer;
use std::alloc::AllocError;

/// Appends an ASCII character, at half the cost of appending a text of one character.
#[inline(always)]
pub(crate) fn push_ascii(out: &mut String, ch: char) -> Result<(), AllocError>
    requires { ch < 128 }
    ensures ok { OnOk result (string_bytes out.new ≡ string_bytes out.old ++ ch ∷ []) }
    ensures left { OnErr result (AppendsPrefix (string_bytes out.old) (ch ∷ []) (string_bytes out.new)) }
{
    out.push(ch)
}

/// Appends a text.
#[inline(always)]
pub(crate) fn push_text(out: &mut String, text: &str) -> Result<(), AllocError>
    ensures ok { OnOk result (string_bytes out.new ≡ string_bytes out.old ++ text.now) }
    ensures left { OnErr result (AppendsPrefix (string_bytes out.old) text.now (string_bytes out.new)) }
{
    out.push_str(text)
}

/// Appends a number below ten.
#[inline(always)]
fn push_digit(out: &mut String, n: u64) -> Result<(), AllocError>
    requires { n < 10 }
    ensures ok { OnOk result (string_bytes out.new ≡ string_bytes out.old ++ decimal n) }
    ensures left { OnErr result (AppendsPrefix (string_bytes out.old) (decimal n) (string_bytes out.new)) }
{
    out.push(char::from(b'0' + n as u8))
}

/// Appends the digit with which a number begins, and nothing for 0.
#[inline(always)]
fn push_first(out: &mut String, n: u64) -> Result<(), AllocError>
    requires { n < 10 }
    ensures ok { OnOk result (string_bytes out.new ≡ string_bytes out.old ++ leading n) }
    ensures left { OnErr result (AppendsPrefix (string_bytes out.old) (leading n) (string_bytes out.new)) }
{
    if n == 0 {
        return Ok(());
    }
    push_digit(out, n)
}

/// Appends the one or two digits with which a number begins, and nothing for 0.
#[inline(always)]
fn push_leading(out: &mut String, n: u64) -> Result<(), AllocError>
    requires { n < 100 }
    ensures ok { OnOk result (string_bytes out.new ≡ string_bytes out.old ++ leading n) }
    ensures left { OnErr result (AppendsPrefix (string_bytes out.old) (leading n) (string_bytes out.new)) }
{
    if n == 0 {
        return Ok(());
    }
    push_first(out, n / 10)?;
    push_digit(out, n % 10)
}

/// Appends a number of two, three or four digits. There are few places at which a digit is pushed, so that each is written out.
#[inline(always)]
fn push_few(out: &mut String, n: u64) -> Result<(), AllocError>
    requires low { 10 ≤ n }
    requires high { n < 10000 }
    ensures ok { OnOk result (string_bytes out.new ≡ string_bytes out.old ++ decimal n) }
    ensures left { OnErr result (AppendsPrefix (string_bytes out.old) (decimal n) (string_bytes out.new)) }
{
    let hundreds = n / 100;
    let rest = n % 100;
    push_leading(out, hundreds)?;
    push_digit(out, rest / 10)?;
    push_digit(out, rest % 10)
}

// Out of line, so that a small number pays nothing for the formatter's buffer.
#[inline(never)]
fn push_large(out: &mut String, n: u64) -> Result<(), AllocError>
    ensures ok { OnOk result (string_bytes out.new ≡ string_bytes out.old ++ decimal n) }
    ensures left { OnErr result (AppendsPrefix (string_bytes out.old) (decimal n) (string_bytes out.new)) }
{
    let mut digits = Buffer::new();
    push_text(out, digits.format(n))
}

/// Appends a number, without leading zeros. One below ten thousand is written digit by digit, which takes half of what the formatter takes.
// Written out wherever it is called, which saves a sixth in a line of many numbers.
#[inline(always)]
pub(crate) fn push_decimal(out: &mut String, n: u64) -> Result<(), AllocError>
    ensures ok { OnOk result (string_bytes out.new ≡ string_bytes out.old ++ decimal n) }
    ensures left { OnErr result (AppendsPrefix (string_bytes out.old) (decimal n) (string_bytes out.new)) }
{
    if n < 10 {
        push_digit(out, n)
    } else if n < 10_000 {
        push_few(out, n)
    } else {
        push_large(out, n)
    }
}

/// Appends a number, without leading zeros.
#[inline(never)]
pub(crate) fn push_number(out: &mut String, n: u64) -> Result<(), AllocError>
    ensures ok { OnOk result (string_bytes out.new ≡ string_bytes out.old ++ decimal n) }
    ensures left { OnErr result (AppendsPrefix (string_bytes out.old) (decimal n) (string_bytes out.new)) }
{
    push_decimal(out, n)
}

/// Appends a space and a number.
#[inline(always)]
pub(crate) fn push_spaced(out: &mut String, n: u64) -> Result<(), AllocError>
    ensures ok { OnOk result (string_bytes out.new ≡ string_bytes out.old ++ spaced n) }
    ensures left { OnErr result (AppendsPrefix (string_bytes out.old) (spaced n) (string_bytes out.new)) }
{
    push_ascii(out, ' ')?;
    push_decimal(out, n)
}

/// Appends some numbers, each with a space before it.
pub(crate) fn push_each(out: &mut String, numbers: &[u32]) -> Result<(), AllocError>
    ensures ok { OnOk result (string_bytes out.new ≡ string_bytes out.old ++ flat_map spaced numbers.now) }
    ensures left { OnErr result (AppendsPrefix (string_bytes out.old) (flat_map spaced numbers.now) (string_bytes out.new)) }
{
    for n in numbers {
        push_spaced(out, u64::from(*n))?;
    }
    Ok(())
}
