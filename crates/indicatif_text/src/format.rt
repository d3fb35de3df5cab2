//! Numbers as texts for people: durations, bytes and counts.
//!
//! Each value is exact: quotients are of whole numbers and rounded once, to nearest. Printing one takes no memory, and is one write; format
//! options, such as a width, are ignored.
//!
//! The types that are printed are here. The modules below are private:
//!
//! - `durations`: durations as texts: in which unit is one shown (`TimeUnit`), and how many of it are there?
//! - `bytes`: numbers of bytes as texts, with the prefix of the greatest power of 1024 or 1000.
//! - `quotients`: a quotient with decimals by long division: its digits (`Quotient`, `Rounded`), and its text, made or appended.
//! - `rounding`: the whole number nearest to a quotient: is it rounded up?
//! - `short_text`: `ShortText`, a text of ASCII on the stack: bytes, digits, numbers and counts with commas are put in front.
ghost use Rattle.std.specs.Prelude.{◌≡◌, ◌<◌, ◌+◌, ◌++◌, ◌↔◌, Some, IfSome, OnOk, OnErr, IfErr, length, string_len, string_capacity};
ghost use Rattle.std.specs.String.{string_bytes};
ghost use Rattle.indicatif_text.specs.Format.{formatted_duration, human_duration, short_duration, binary_bytes, decimal_bytes, human_count, Quotient, human_float_count};

mod bytes;
mod durations;
mod quotients;
mod rounding;
pub(crate) mod short_text;

use crate::refusal::Refusal;
use quotients::Quotient;
pub use rounding::nearest;
use short_text::ShortText;
use std::fmt;
use std::marker::Model;

/// A duration in nanoseconds, as hours, minutes and seconds of two digits, `HH:MM:SS`, after `Dd ` if there are D whole days. Fractions of
/// a second are left out. The rule is that of the documentation of the Rust crate `indicatif` 0.18.6.
///
/// ```
/// let text = FormattedDuration(90_061 * 1_000_000_000).to_string(alloc)?;
/// assert_eq!(text.as_str(), "1d 01:01:01");
/// ```
#[derive(Clone, Copy, Debug, Drop, PartialEq, Eq)]
pub struct FormattedDuration(pub u64);

/// Days, hours, minutes and seconds, in one write; format options, such as a width in `{:>12}`, are ignored.
impl fmt::Display for FormattedDuration {
    ghost output = { λ duration. Some (formatted_duration duration.0) };

    ghost styled_output = { λ duration _. Some (formatted_duration duration.0) };

    fn fmt<W: fmt::Write>(&self, f: &mut fmt::Formatter<W>) -> fmt::Result {
        f.write_str(durations::formatted_text(self.0).as_str())
    }
}

/// A duration in nanoseconds, as a number of years (of 365 days), weeks, days, hours, minutes or seconds.
///
/// The unit is the first of which the duration, with half of the next smaller unit added, is at least one and a half; otherwise seconds.
/// The count is rounded to nearest, a half up, and is at least 2 unless the unit is seconds: `89 seconds`, `2 minutes`. The rule is that of
/// the documentation of the Rust crate `indicatif` 0.18.6.
///
/// ```
/// assert_eq!(HumanDuration(89_499_000_000).to_string(alloc)?.as_str(), "89 seconds");
/// assert_eq!(HumanDuration(89_500_000_000).to_string(alloc)?.as_str(), "2 minutes");
/// ```
#[derive(Clone, Copy, Debug, Drop, PartialEq, Eq)]
pub struct HumanDuration(pub u64);

/// The count and the unit in words, in one write; format options, such as a width in `{:>12}`, are ignored.
impl fmt::Display for HumanDuration {
    ghost output = { λ duration. Some (human_duration duration.0) };

    ghost styled_output = { λ duration _. Some (human_duration duration.0) };

    fn fmt<W: fmt::Write>(&self, f: &mut fmt::Formatter<W>) -> fmt::Result {
        f.write_str(durations::words_text(self.0).as_str())
    }
}

impl HumanDuration {
    /// Appends the short form to `out`: the count and the unit's first letter, such as `89s`.
    ///
    /// Refused: `Memory`, only if `out` has no room for all of it; then `out` is unchanged.
    ///
    /// ```
    /// HumanDuration(4_000_000_000).write_short(&mut out)?;
    /// assert_eq!(out.as_str(), "4s");
    /// ```
    pub fn write_short(&self, out: &mut String) -> Result<(), Refusal>
        ensures written { OnOk result (string_bytes out.new
            ≡ string_bytes out.old ++ short_duration self.now.0) }
        ensures unchanged { OnErr result (string_bytes out.new ≡ string_bytes out.old) }
        ensures memory { IfErr result (λ e. e ≡ Refusal.Memory) }
        ensures full { OnErr result (string_capacity out.old
            < string_len out.old + length (short_duration self.now.0)) }
    {
        out.push_str(durations::letter_text(self.0).as_str())?;
        Ok(())
    }
}

/// A number of bytes by powers of 1024: below 1024 `n B`, otherwise two decimals and the greatest prefix of `Ki`, `Mi`, `Gi`, `Ti`, `Pi`
/// and `Ei` that leaves at least 1, chosen before rounding. The quotient is rounded to nearest, ties to even.
///
/// ```
/// assert_eq!(HumanBytes(1_500).to_string(alloc)?.as_str(), "1.46 KiB");
/// ```
#[derive(Clone, Copy, Debug, Drop, PartialEq, Eq)]
pub struct HumanBytes(pub u64);

/// The bytes by powers of 1024, in one write; format options, such as a width in `{:>12}`, are ignored.
impl fmt::Display for HumanBytes {
    ghost output = { λ bytes. Some (binary_bytes bytes.0) };

    ghost styled_output = { λ bytes _. Some (binary_bytes bytes.0) };

    fn fmt<W: fmt::Write>(&self, f: &mut fmt::Formatter<W>) -> fmt::Result {
        f.write_str(bytes::binary_text(self.0).as_str())
    }
}

/// A number of bytes by powers of 1000: below 1000 `n B`, otherwise two decimals and the greatest prefix of `k`, `M`, `G`, `T`, `P` and `E`
/// that leaves at least 1, chosen before rounding. The quotient is rounded to nearest, ties to even.
///
/// ```
/// assert_eq!(DecimalBytes(1_500).to_string(alloc)?.as_str(), "1.50 kB");
/// ```
#[derive(Clone, Copy, Debug, Drop, PartialEq, Eq)]
pub struct DecimalBytes(pub u64);

/// The bytes by powers of 1000, in one write; format options, such as a width in `{:>12}`, are ignored.
impl fmt::Display for DecimalBytes {
    ghost output = { λ bytes. Some (decimal_bytes bytes.0) };

    ghost styled_output = { λ bytes _. Some (decimal_bytes bytes.0) };

    fn fmt<W: fmt::Write>(&self, f: &mut fmt::Formatter<W>) -> fmt::Result {
        f.write_str(bytes::decimal_text(self.0).as_str())
    }
}

/// A number of bytes by powers of 1024, as `HumanBytes` writes it.
///
/// ```
/// assert_eq!(BinaryBytes(1_500).to_string(alloc)?.as_str(), "1.46 KiB");
/// ```
#[derive(Clone, Copy, Debug, Drop, PartialEq, Eq)]
pub struct BinaryBytes(pub u64);

/// The bytes by powers of 1024, in one write; format options, such as a width in `{:>12}`, are ignored.
impl fmt::Display for BinaryBytes {
    ghost output = { λ bytes. Some (binary_bytes bytes.0) };

    ghost styled_output = { λ bytes _. Some (binary_bytes bytes.0) };

    fn fmt<W: fmt::Write>(&self, f: &mut fmt::Formatter<W>) -> fmt::Result {
        f.write_str(bytes::binary_text(self.0).as_str())
    }
}

/// A count as its decimal numeral, with a comma before every third digit from the right except at the front. The rule is that of the
/// documentation of the Rust crate `indicatif` 0.18.6.
///
/// ```
/// assert_eq!(HumanCount(7_654_321).to_string(alloc)?.as_str(), "7,654,321");
/// ```
#[derive(Clone, Copy, Debug, Drop, PartialEq, Eq)]
pub struct HumanCount(pub u64);

/// The count with its commas, in one write; format options, such as a width in `{:>12}`, are ignored.
impl fmt::Display for HumanCount {
    ghost output = { λ count. Some (human_count count.0) };

    ghost styled_output = { λ count _. Some (human_count count.0) };

    fn fmt<W: fmt::Write>(&self, f: &mut fmt::Formatter<W>) -> fmt::Result {
        let mut text = ShortText::new();
        text.prepend_count(self.0);
        f.write_str(text.as_str())
    }
}

/// A quotient of whole numbers, rounded to four decimals: to nearest, ties to even. The whole part has commas as `HumanCount`; zeros at the
/// end are dropped, and so is the point if nothing follows it.
///
/// ```
/// let count = HumanFloatCount::new(85, 2).ok_or("a divisor of 0")?;
/// assert_eq!(count.to_string(alloc)?.as_str(), "42.5");
/// ```
#[derive(Debug, Drop)]
pub struct HumanFloatCount {
    num: u128,
    den: u64,
}

/// Contracts see a count as its quotient.
impl Model for HumanFloatCount {
    ghost Value = { Quotient };

    ghost view = { λ count. record { num = count.num; den = count.den } };

    ghost invariant = { λ count. 0 < count.den };
}

/// The quotient to four decimals, in one write; format options, such as a width in `{:>12}`, are ignored.
impl fmt::Display for HumanFloatCount {
    ghost output = { λ count. Some (human_float_count count.num count.den 4) };

    ghost styled_output = { λ count _. Some (human_float_count count.num count.den 4) };

    fn fmt<W: fmt::Write>(&self, f: &mut fmt::Formatter<W>) -> fmt::Result {
        f.write_str(quotients::four_decimals_text(self.num, self.den).as_str())
    }
}

impl HumanFloatCount {
    /// The quotient `num / den`; none exactly if `den` is 0.
    ///
    /// ```
    /// assert!(HumanFloatCount::new(1, 0).is_none());
    /// ```
    pub fn new(num: u128, den: u64) -> Option<HumanFloatCount>
        ensures none { (result ≡ None) ↔ (den ≡ 0) }
        ensures quotient { IfSome result (λ count. (count.num ≡ num) × (count.den ≡ den)) }
    {
        if den == 0 {
            return None;
        }
        Some(HumanFloatCount { num, den })
    }

    /// Appends the quotient to `out`, rounded to `decimals` decimals in place of four.
    ///
    /// Refused: `Memory`, only if `out` has no room for all of it; then `out` is unchanged.
    ///
    /// ```
    /// let eighth = HumanFloatCount::new(1, 8).ok_or("a divisor of 0")?;
    /// eighth.with_decimals(2, &mut out)?;
    /// assert_eq!(out.as_str(), "0.12");
    /// ```
    pub fn with_decimals(&self, decimals: u16, out: &mut String) -> Result<(), Refusal>
        ensures written { OnOk result (string_bytes out.new
            ≡ string_bytes out.old ++ human_float_count self.now.num self.now.den decimals) }
        ensures unchanged { OnErr result (string_bytes out.new ≡ string_bytes out.old) }
        ensures memory { IfErr result (λ e. e ≡ Refusal.Memory) }
        ensures full { OnErr result (string_capacity out.old
            < string_len out.old + length (human_float_count self.now.num self.now.den decimals)) }
    {
        let quotient = Quotient {
            num: self.num,
            den: self.den,
        };
        quotients::push_quotient(quotient, decimals, out)?;
        Ok(())
    }
}
