//! Quotients with decimals, by long division.
ghost use Rattle.std.specs.Prelude.{◌∷◌, [], string_len, string_capacity, ◌≡◌, ◌+◌, ◌*◌, ◌/◌, ◌%◌, ◌<◌, ◌≤◌, ◌++◌, length, true, if◌then◌else◌, IsAscii, OnOk, OnErr};
ghost use Rattle.std.specs.String.{string_bytes};
ghost use Rattle.indicatif_text.specs.Format.{last_digits, after_point, human_count, human_float_count};
ghost use Rattle.indicatif_text.specs.Inside.Quotients.{below, raised, NeedsNoCarry};

use crate::appending::append;
use crate::format::rounding::rounds_up;
use crate::format::short_text::ShortText;
use std::alloc::AllocError;

/// A number divided by another.
#[derive(Clone, Copy, Drop)]
pub(crate) struct Quotient {
    pub(crate) num: u128,
    pub(crate) den: u64,
}

/// A long division: the remainder after each decimal.
#[derive(Drop)]
struct LongDivision {
    rest: u64,
    den: u64,
    ghost proper: { rest < den },
}

impl LongDivision {
    /// The long division of a quotient, after its point.
    fn new(quotient: Quotient) -> LongDivision
        requires { 0 < quotient.den }
        ensures rest { result.rest ≡ quotient.num % quotient.den }
        ensures den { result.den ≡ quotient.den }
    {
        LongDivision {
            rest: (quotient.num % u128::from(quotient.den)) as u64,
            den: quotient.den,
        }
    }

    /// The next decimal of the quotient.
    #[inline(always)]
    fn next_digit(&mut self) -> u8
        ensures digit { result ≡ self.old.rest * 10 / self.old.den }
        ensures small { result < 10 }
        ensures rest { self.new.rest ≡ self.old.rest * 10 % self.old.den }
        ensures den { self.new.den ≡ self.old.den }
    {
        let den = self.den;
        if self.rest <= u64::MAX / 10 {
            let tenfold = self.rest * 10;
            self.rest = tenfold % den;
            return (tenfold / den) as u8;
        }
        let tenfold = u128::from(self.rest) * 10;
        let wide_den = u128::from(den);
        self.rest = (tenfold % wide_den) as u64;
        (tenfold / wide_den) as u8
    }
}

/// A quotient rounded to some decimals, to nearest, ties to even.
#[derive(Clone, Copy, Drop)]
pub(crate) struct Rounded {
    /// The digits before the point, as a number.
    pub(crate) whole: u128,
    /// How many decimals follow, without the zeros at the end.
    pub(crate) shown: u16,
    /// Whether the last of them is rounded up from the division's digit; without decimals, whether `whole` is.
    pub(crate) up: bool,
}

impl Rounded {
    /// A quotient rounded to some decimals, in one pass over them: a number that is rounded down ends in its last decimal other than 0, one
    /// that is rounded up in its last other than 9.
    pub(crate) fn of(quotient: Quotient, decimals: u16) -> Rounded
        requires { 0 < quotient.den }
        ensures shown { result.shown ≤ decimals }
        ensures text { human_float_count quotient.num quotient.den decimals ≡ human_count result.whole
            ++ after_point (last_digits result.shown (raised result.up (below quotient.num quotient.den result.shown))) }
        ensures no_carry { NeedsNoCarry result.up quotient.num quotient.den result.shown }
    {
        let whole = quotient.num / u128::from(quotient.den);
        let mut division = LongDivision::new(quotient);
        let mut odd = whole % 2 == 1;
        let mut nonzero: u16 = 0;
        let mut not_nine: u16 = 0;
        for place in 0..decimals {
            let digit = division.next_digit();
            nonzero = last_place(digit == 0, nonzero, place + 1);
            not_nine = last_place(digit == 9, not_nine, place + 1);
            odd = digit % 2 == 1;
        }
        if !rounds_up(odd, division.rest, quotient.den) {
            return Rounded {
                whole,
                shown: nonzero,
                up: false,
            };
        }
        if not_nine == 0 {
            return Rounded {
                whole: whole + 1,
                shown: 0,
                up: true,
            };
        }
        Rounded {
            whole,
            shown: not_nine,
            up: true,
        }
    }
}

/// The last significant place so far: `place`, unless its digit is skipped.
#[inline(always)]
fn last_place(is_passed_over: bool, before: u16, place: u16) -> u16
    ensures { result ≡ (if is_passed_over then before else place) }
{
    if is_passed_over { before } else { place }
}

/// Fills `out` with the first decimals of a quotient, the last of them raised by one if `up`.
pub(crate) fn fill_decimals(quotient: Quotient, up: bool, out: &mut [u8])
    requires den { 0 < quotient.den }
    requires no_carry { NeedsNoCarry up quotient.num quotient.den (length out.old) }
    ensures { out.new ≡ last_digits (length out.old) (raised up (below quotient.num quotient.den (length out.old))) }
{
    let mut division = LongDivision::new(quotient);
    for digit in out.iter_mut() {
        *digit = b'0' + division.next_digit();
    }
    if up && !out.is_empty() {
        let last = out.len() - 1;
        out[last] += 1;
    }
}

/// The text of a quotient to four decimals.
pub(crate) fn four_decimals_text(num: u128, den: u64) -> ShortText
    requires { 0 < den }
    ensures { result ≡ human_float_count num den 4 }
{
    let quotient = Quotient { num, den };
    let rounded = Rounded::of(quotient, 4);
    let mut digits = [0u8; 4];
    let decimals = &mut digits[..rounded.shown as usize];
    fill_decimals(quotient, rounded.up, decimals);
    joined(rounded.whole, decimals)
}

/// The text with these digits before the point, and these after it.
fn joined(whole: u128, decimals: &[u8]) -> ShortText
    requires short { length decimals.now ≤ 4 }
    requires ascii { IsAscii decimals.now }
    ensures { result ≡ human_count whole ++ after_point decimals.now }
{
    let mut text = ShortText::new();
    if !decimals.is_empty() {
        text.prepend_bytes(decimals);
        text.prepend(b'.');
    }
    text.prepend_wide_count(whole);
    text
}

/// Appends the text of a quotient to `decimals` decimals. All memory is taken first, so that a refusal leaves `out` unchanged.
pub(crate) fn push_quotient(
    quotient: Quotient,
    decimals: u16,
    out: &mut String,
) -> Result<(), AllocError>
    requires { 0 < quotient.den }
    ensures written { OnOk result (string_bytes out.new
        ≡ string_bytes out.old ++ human_float_count quotient.num quotient.den decimals) }
    ensures unchanged { OnErr result (string_bytes out.new ≡ string_bytes out.old) }
    ensures full { OnErr result (string_capacity out.old
        < string_len out.old + length (human_float_count quotient.num quotient.den decimals)) }
{
    let rounded = Rounded::of(quotient, decimals);
    let mut whole = ShortText::new();
    whole.prepend_wide_count(rounded.whole);
    let shown = rounded.shown as usize;
    if shown == 0 {
        return out.push_str(whole.as_str());
    }
    out.reserve(whole.as_str().len() + 1 + shown)?;
    append(out, whole.as_str());
    append(out, ".");
    append_decimals(quotient, rounded, out);
    Ok(())
}

/// Appends the decimals of a rounded quotient, if there are any, in memory that was taken before.
fn append_decimals(quotient: Quotient, rounded: Rounded, out: &mut String)
    requires den { 0 < quotient.den }
    requires some { 0 < rounded.shown }
    requires no_carry { NeedsNoCarry rounded.up quotient.num quotient.den rounded.shown }
    requires room { string_len out.old + rounded.shown ≤ string_capacity out.old }
    ensures { string_bytes out.new ≡ string_bytes out.old
        ++ last_digits rounded.shown (raised rounded.up (below quotient.num quotient.den rounded.shown)) }
{
    let mut division = LongDivision::new(quotient);
    for place in 0..rounded.shown - 1 {
        append_digit(out, division.next_digit());
    }
    let last = division.next_digit();
    append_digit(out, if rounded.up { last + 1 } else { last });
}

/// Appends a decimal digit, in memory that was taken before.
fn append_digit(out: &mut String, digit: u8)
    requires digit { digit < 10 }
    requires room { string_len out.old < string_capacity out.old }
    ensures bytes { string_bytes out.new ≡ string_bytes out.old ++ (48 + digit) ∷ [] }
    ensures len { string_len out.new ≡ string_len out.old + 1 }
    ensures capacity { string_capacity out.old ≤ string_capacity out.new }
{
    out.push(char::from(b'0' + digit)).unwrap();
}
