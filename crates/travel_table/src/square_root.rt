ghost use Rattle.std.specs.Prelude.{◌≡◌, ◌↔◌, ◌+◌, ◌*◌, ◌<◌, ◌≤◌, IsTrue};
ghost use Rattle.std.specs.Float.{NotNan};
ghost use Rattle.travel_table.specs.Root.{IsRoot};

use std::num::nearest_u64_to_f64;

/// From 2 to its 51st on, two neighbours among the doubles differ by one half. So the sum of a small number and this one, which is one half
/// below 2 to the 52nd, has the number without its fraction in its low bits, or one less.
const SHIFT: f64 = 4503599627370495.5;

/// A little more than 1. The root of a square, multiplied by this, is not one half below it after the shift.
const UP: f64 = 1.0000000000001;

/// Ten times as much.
pub(crate) const TEN_UP: f64 = 10.000000000001;

/// The whole part of a number below 2 to the 32nd, or one less. Nothing is proved of it, and nothing depends on it.
#[inline(always)]
pub(crate) fn whole_part(x: f64) -> u32
    requires { NotNan x }
{
    ((x + SHIFT).to_bits() & 0xffff_ffff) as u32
}

/// Whether `t` is the root of `n`. The greatest number with this root is `t * (t + 2)`, and the least is `2 * t` below it. Where `n` is
/// above both, the difference wraps to more than `2 * t`.
#[inline(always)]
fn is_root(n: u64, t: u64) -> bool
    requires { t < 4294967296 }
    ensures { IsTrue result → IsRoot n t }
{
    (t * (t + 2)).wrapping_sub(n) <= 2 * t
}

/// The root of `n`, found by halving an interval, in at most 32 steps.
#[cold]
#[inline(never)]
fn halved(n: u64) -> u32
    ensures { IsRoot n result }
{
    let mut low = 0u64;
    let mut high = if n < 4_294_967_296 {
        65_536u64
    } else {
        4_294_967_296
    };
    'halves: while high - low > 1 {
        let middle = (low + high) / 2;
        if middle * middle <= n {
            low = middle;
        } else {
            high = middle;
        }
    }
    low as u32
}

/// The greatest whole number whose square is at most `n`. It is found at once where the guess is right.
#[inline(always)]
pub(crate) fn root_near(n: u64, guess: u32) -> u32
    ensures { IsRoot n result }
{
    if is_root(n, u64::from(guess)) {
        guess
    } else {
        halved(n)
    }
}

/// The greatest whole number whose square is at most `n`. It takes no memory.
pub fn root(n: u64) -> u32
    ensures low { result * result ≤ n }
    ensures high { n < (result + 1) * (result + 1) }
{
    root_near(n, whole_part(nearest_u64_to_f64(n).sqrt() * UP))
}
