//! Rounded quotients, exact for every value.
ghost use Rattle.std.specs.Prelude.{◌≡◌, ◌*◌, ◌-◌, ◌^◌, ◌<◌, ◌≤◌};
ghost use Rattle.indicatif_text.specs.Format.{rounds_up, round, rounded_half_up};

/// Whether a quotient is rounded up from the whole number below it, by whether that is odd and by the remainder.
#[inline(always)]
pub(crate) fn rounds_up(odd: bool, rest: u64, den: u64) -> bool
    requires { rest < den }
    ensures { result ≡ rounds_up odd rest den }
{
    let missing = den - rest;
    rest > missing || (rest == missing && odd)
}

/// The nearest whole number to the quotient `num / den`, the even one of a tie; `den` is above 0, and the quotient below 2^64 - 1. It takes
/// no memory.
///
/// ```
/// nearest(7, 2) // 4
/// nearest(5, 2) // 2
/// ```
#[inline(always)]
pub fn nearest(num: u128, den: u64) -> u64
    requires some { 0 < den }
    requires small { num < (2 ^ 64 - 1) * den }
    ensures { result ≡ round num den }
{
    let wide = u128::from(den);
    let below = (num / wide) as u64;
    if rounds_up(below % 2 == 1, (num % wide) as u64, den) {
        below + 1
    } else {
        below
    }
}

/// The units in a duration: the nearest whole number, a half up.
#[inline(always)]
pub(crate) fn rounded_half_up(nanos: u64, unit: u64) -> u64
    requires { 2 ≤ unit }
    ensures { result ≡ rounded_half_up nanos unit }
{
    let whole = nanos / unit;
    let rest = nanos % unit;
    if rest >= unit - rest {
        whole + 1
    } else {
        whole
    }
}
