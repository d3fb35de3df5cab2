//! The keys of a template that need no tracker: their names, and the bars, texts and numbers that they show.
ghost use Rattle.std.specs.Prelude.{◌≡◌, ◌<◌, ◌≤◌, ◌*◌, ◌^◌, ◌++◌, min, drop, string_bytes, decimal, OnOk, IfErr};
ghost use Rattle.indicatif_text.specs.Format.{round};
ghost use Rattle.indicatif_bar.specs.Keys.{key_named, bar_fraction, shown_text, number_text, count_text, time_text, percent_text, rate_text, whole_rate_text};

use crate::measures::{Fraction, Rate};
use crate::progress::ProgressState;
use crate::style::ProgressStyle;
use crate::tracker::Tracks;
use indicatif_text::columns::{Moment, Refusal};
use indicatif_text::format::{
    BinaryBytes, DecimalBytes, FormattedDuration, HumanCount, HumanDuration, HumanFloatCount,
    nearest,
};
use itoa::Buffer;

/// How a count is written.
#[derive(Clone, Copy, Drop)]
pub enum CountForm {
    /// Its decimal digits.
    Plain,
    /// With commas.
    Human,
    /// As bytes by powers of 1024.
    Binary,
    /// As bytes by powers of 1000.
    Decimal,
}

/// How a time is written.
#[derive(Clone, Copy, Drop)]
pub enum TimeForm {
    /// As days, hours, minutes and seconds.
    Clock,
    /// As a number of one unit.
    Short,
}

/// What a bar in a line shows.
#[derive(Clone, Copy, Drop)]
pub enum BarKey {
    /// The part of the length that is done.
    PartDone,
}

/// A key that shows a text of the bar or of its spinner.
#[derive(Clone, Copy, Drop)]
pub enum TextKey {
    /// The spinner's text after the bar's ticks.
    Spinner,
    /// The prefix.
    Prefix,
    /// The message.
    Message,
}

/// A key that shows a number of the bar.
#[derive(Clone, Copy, Drop)]
pub enum NumberKey {
    /// The position.
    Position(CountForm),
    /// The length, or the position if there is none.
    Length(CountForm),
    /// The part of the length that is done, in hundredths with this number of decimals, at most 16.
    Percent(u8),
    /// The time since the start.
    Elapsed(TimeForm),
    /// The time to the end.
    Eta(TimeForm),
    /// The time from the start to the end.
    Duration(TimeForm),
    /// The steps a second.
    PerSecond,
    /// The whole steps a second, as bytes.
    BytesPerSecond(CountForm),
}

/// A key that needs no tracker.
#[derive(Clone, Copy, Drop)]
pub enum Key {
    /// A bar, at the placeholder's width or 20 columns.
    Bar(BarKey),
    /// A bar, in the columns that the line leaves free.
    WideBar(BarKey),
    /// A text, in the columns that the line leaves free.
    WideText(TextKey),
    /// A text.
    Text(TextKey),
    /// A number.
    Number(NumberKey),
}

/// The key with a name.
pub(crate) fn key_named(name: &str) -> Option<Key>
    ensures { result ≡ key_named name.now }
{
    let key = match name {
        "bar" => Key::Bar(BarKey::PartDone),
        "wide_bar" => Key::WideBar(BarKey::PartDone),
        "wide_msg" => Key::WideText(TextKey::Message),
        "spinner" => Key::Text(TextKey::Spinner),
        "prefix" => Key::Text(TextKey::Prefix),
        "msg" => Key::Text(TextKey::Message),
        "pos" => Key::Number(NumberKey::Position(CountForm::Plain)),
        "human_pos" => Key::Number(NumberKey::Position(CountForm::Human)),
        "bytes" => Key::Number(NumberKey::Position(CountForm::Binary)),
        "binary_bytes" => Key::Number(NumberKey::Position(CountForm::Binary)),
        "decimal_bytes" => Key::Number(NumberKey::Position(CountForm::Decimal)),
        "len" => Key::Number(NumberKey::Length(CountForm::Plain)),
        "human_len" => Key::Number(NumberKey::Length(CountForm::Human)),
        "total_bytes" => Key::Number(NumberKey::Length(CountForm::Binary)),
        "binary_total_bytes" => Key::Number(NumberKey::Length(CountForm::Binary)),
        "decimal_total_bytes" => Key::Number(NumberKey::Length(CountForm::Decimal)),
        "percent" => Key::Number(NumberKey::Percent(0)),
        "percent_precise" => Key::Number(NumberKey::Percent(3)),
        "elapsed" => Key::Number(NumberKey::Elapsed(TimeForm::Short)),
        "elapsed_precise" => Key::Number(NumberKey::Elapsed(TimeForm::Clock)),
        "eta" => Key::Number(NumberKey::Eta(TimeForm::Short)),
        "eta_precise" => Key::Number(NumberKey::Eta(TimeForm::Clock)),
        "duration" => Key::Number(NumberKey::Duration(TimeForm::Short)),
        "duration_precise" => Key::Number(NumberKey::Duration(TimeForm::Clock)),
        "per_sec" => Key::Number(NumberKey::PerSecond),
        "bytes_per_sec" => Key::Number(NumberKey::BytesPerSecond(CountForm::Binary)),
        "binary_bytes_per_sec" => Key::Number(NumberKey::BytesPerSecond(CountForm::Binary)),
        "decimal_bytes_per_sec" => Key::Number(NumberKey::BytesPerSecond(CountForm::Decimal)),
        _ => return None,
    };
    Some(key)
}

impl BarKey {
    /// The fraction that a bar shows in this state.
    #[inline(always)]
    pub(crate) fn fraction(self, state: &ProgressState) -> Fraction
        ensures fraction { result ≡ bar_fraction state.now self }
        ensures some { 0 < result.den }
        ensures whole { result.num ≤ result.den }
    {
        match self {
            BarKey::PartDone => state.fraction(),
        }
    }
}

impl<K: Tracks> ProgressStyle<K> {
    /// The text that a key shows in this state.
    pub(crate) fn shown_text<'a>(&'a self, key: TextKey, state: &'a ProgressState) -> &'a str
        ensures { result.now ≡ shown_text self.now.tick_strings state.now key }
    {
        match key {
            TextKey::Spinner if state.is_finished() => self.get_final_tick_str(),
            TextKey::Spinner => self.get_tick_str(state.ticks()),
            TextKey::Prefix => state.prefix(),
            TextKey::Message => state.message(),
        }
    }
}

impl NumberKey {
    /// Appends the number that a key shows in this state, for a placeholder of this width.
    pub(crate) fn push(
        self,
        state: &ProgressState,
        now: Moment,
        width: Option<u16>,
        out: &mut String,
    ) -> Result<(), Refusal>
        ensures text { OnOk result (string_bytes out.new ≡ string_bytes out.old ++ number_text state.now now width self) }
        ensures memory { IfErr result (λ e. e ≡ Refusal.Memory) }
    {
        match self {
            NumberKey::Position(form) => push_count(form, state.pos(), out),
            NumberKey::Length(form) => push_count(form, state.len().unwrap_or(state.pos()), out),
            NumberKey::Percent(places) => push_percent(state.fraction(), places, out),
            NumberKey::Elapsed(form) => push_time(form, state.elapsed(now), out),
            NumberKey::Eta(form) => push_time(form, state.eta(now), out),
            NumberKey::Duration(form) => push_time(form, state.duration(now), out),
            NumberKey::PerSecond => push_rate(state.per_sec(now), width.unwrap_or(4), out),
            NumberKey::BytesPerSecond(form) => push_whole_rate(form, state.per_sec(now), out),
        }
    }
}

/// Appends the decimal digits of a number.
#[inline(always)]
fn push_number(n: u64, out: &mut String) -> Result<(), Refusal>
    ensures text { OnOk result (string_bytes out.new ≡ string_bytes out.old ++ decimal n) }
    ensures memory { IfErr result (λ e. e ≡ Refusal.Memory) }
{
    let mut digits = Buffer::new();
    out.push_str(digits.format(n))?;
    Ok(())
}

/// Appends a count in its form.
#[inline(always)]
fn push_count(form: CountForm, n: u64, out: &mut String) -> Result<(), Refusal>
    ensures text { OnOk result (string_bytes out.new ≡ string_bytes out.old ++ count_text form n) }
    ensures memory { IfErr result (λ e. e ≡ Refusal.Memory) }
{
    match form {
        CountForm::Plain => push_number(n, out)?,
        CountForm::Human => write!(out, "{}", HumanCount(n))?,
        CountForm::Binary => write!(out, "{}", BinaryBytes(n))?,
        CountForm::Decimal => write!(out, "{}", DecimalBytes(n))?,
    }
    Ok(())
}

/// Appends a time in its form.
pub(crate) fn push_time(form: TimeForm, nanos: u64, out: &mut String) -> Result<(), Refusal>
    ensures text { OnOk result (string_bytes out.new ≡ string_bytes out.old ++ time_text form nanos) }
    ensures memory { IfErr result (λ e. e ≡ Refusal.Memory) }
{
    match form {
        TimeForm::Clock => write!(out, "{}", FormattedDuration(nanos))?,
        TimeForm::Short => HumanDuration(nanos).write_short(out)?,
    }
    Ok(())
}

/// Appends a fraction in hundredths with a number of decimals, at most 16. They are the digits of a number behind its first one, a 1.
fn push_percent(done: Fraction, places: u8, out: &mut String) -> Result<(), Refusal>
    requires some { 0 < done.den }
    requires whole { done.num ≤ done.den }
    ensures text { OnOk result (string_bytes out.new ≡ string_bytes out.old ++ percent_text done (min places 16)) }
    ensures memory { IfErr result (λ e. e ≡ Refusal.Memory) }
{
    if places == 0 {
        return push_number(hundredths(done, 1), out);
    }
    let unit = power_of_ten(places.min(16));
    let scaled = hundredths(done, unit);
    push_number(scaled / unit, out)?;
    out.push_str(".")?;
    push_behind_first(unit + scaled % unit, out)
}

/// A power of ten.
fn power_of_ten(exponent: u8) -> u64
    requires { exponent ≤ 16 }
    ensures power { result ≡ 10 ^ exponent }
    ensures some { 0 < result }
    ensures small { result ≤ 10 ^ 16 }
{
    10u64.pow(u32::from(exponent))
}

/// The hundredths of a fraction times `unit`, as the nearest whole number.
#[inline(always)]
fn hundredths(done: Fraction, unit: u64) -> u64
    requires some { 0 < done.den }
    requires whole { done.num ≤ done.den }
    requires small { unit ≤ 10 ^ 16 }
    ensures { result ≡ round (100 * done.num * unit) done.den }
{
    nearest(u128::from(done.num) * u128::from(100 * unit), done.den)
}

/// Appends the decimal digits of a number behind the first one.
fn push_behind_first(n: u64, out: &mut String) -> Result<(), Refusal>
    ensures text { OnOk result (string_bytes out.new ≡ string_bytes out.old ++ drop 1 (decimal n)) }
    ensures memory { IfErr result (λ e. e ≡ Refusal.Memory) }
{
    let mut digits = Buffer::new();
    let (_, behind) = digits.format(n).split_at(1);
    out.push_str(behind)?;
    Ok(())
}

/// Appends the steps a second, rounded to `decimals` decimals.
pub(crate) fn push_rate(rate: Rate, decimals: u16, out: &mut String) -> Result<(), Refusal>
    requires { 0 < rate.nanos }
    ensures text { OnOk result (string_bytes out.new ≡ string_bytes out.old ++ rate_text rate decimals) }
    ensures memory { IfErr result (λ e. e ≡ Refusal.Memory) }
{
    let steps = u128::from(rate.steps) * 1_000_000_000;
    let count = HumanFloatCount::new(steps, rate.nanos).unwrap();
    count.with_decimals(decimals, out)?;
    out.push_str("/s")?;
    Ok(())
}

/// Appends the whole steps a second, in a form.
pub(crate) fn push_whole_rate(form: CountForm, rate: Rate, out: &mut String) -> Result<(), Refusal>
    requires { 0 < rate.nanos }
    ensures text { OnOk result (string_bytes out.new ≡ string_bytes out.old ++ whole_rate_text form rate) }
    ensures memory { IfErr result (λ e. e ≡ Refusal.Memory) }
{
    push_count(form, rate.steps_a_second(), out)?;
    out.push_str("/s")?;
    Ok(())
}
