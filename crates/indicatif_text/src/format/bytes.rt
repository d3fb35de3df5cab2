//! Numbers of bytes with a prefix.
ghost use Rattle.std.specs.Prelude.{◌≡◌, ◌^◌, ◌≤◌, length, IsAscii};
ghost use Rattle.indicatif_text.specs.Format.{prefix_exponent, bytes_text, binary_bytes, decimal_bytes};

use crate::format::rounding::nearest;
use crate::format::short_text::ShortText;

/// A number of bytes by powers of 1024.
pub(crate) fn binary_text(n: u64) -> ShortText
    ensures { result ≡ binary_bytes n }
{
    prefixed_text(n, 1024, b"KMGTPE", "iB")
}

/// A number of bytes by powers of 1000.
pub(crate) fn decimal_text(n: u64) -> ShortText
    ensures { result ≡ decimal_bytes n }
{
    prefixed_text(n, 1000, b"kMGTPE", "B")
}

/// A number of bytes by powers of `base`, with the prefixes' letters and the rest of the unit.
#[inline(always)]
fn prefixed_text(n: u64, base: u64, letters: &[u8; 6], tail: &str) -> ShortText
    requires low { 1000 ≤ base }
    requires high { base ≤ 1024 }
    requires letters { IsAscii letters.now }
    requires tail { IsAscii tail.now }
    requires short { length tail.now ≤ 2 }
    ensures { result ≡ bytes_text base letters.now tail.now n }
{
    let mut text = ShortText::new();
    if n < base {
        text.prepend_str(" B");
        text.prepend_number(n);
        return text;
    }
    let power = prefix_power(base, n);
    let hundredths = nearest(u128::from(n) * 100, power.size);
    text.prepend_str(tail);
    text.prepend(letters[power.exponent - 1]);
    text.prepend(b' ');
    text.prepend_two_digits(hundredths);
    text.prepend(b'.');
    text.prepend_number(hundredths / 100);
    text
}

/// A power of a base.
#[derive(Clone, Copy)]
struct Power {
    size: u64,
    exponent: usize,
}

/// The greatest of the first six powers of `base` that is at most `n`, or otherwise the first.
#[inline(always)]
fn prefix_power(base: u64, n: u64) -> Power
    requires low { 1000 ≤ base }
    requires high { base ≤ 1024 }
    ensures exponent { result.exponent ≡ prefix_exponent base 6 n }
    ensures size { result.size ≡ base ^ result.exponent }
    ensures first { 1 ≤ result.exponent }
    ensures last { result.exponent ≤ 6 }
{
    let most = n / base;
    let mut size = base;
    let mut exponent = 1;
    while exponent < 6 && size <= most {
        size *= base;
        exponent += 1;
    }
    Power { size, exponent }
}
