//! Durations as texts.
ghost use Rattle.std.specs.Prelude.{◌≡◌, ◌∷◌, [], ◌≤◌, take, length, max, IsAscii};
ghost use Rattle.indicatif_text.specs.Format.{count_and_unit, rounded_half_up, formatted_duration, human_duration, short_duration};
ghost use Rattle.indicatif_text.specs.Inside.Durations.{span_of};

use crate::format::rounding::rounded_half_up;
use crate::format::short_text::ShortText;

const SECOND: u64 = 1_000_000_000;

const MINUTE: u64 = 60 * SECOND;

const HOUR: u64 = 60 * MINUTE;

const DAY: u64 = 24 * HOUR;

const WEEK: u64 = 7 * DAY;

const YEAR: u64 = 365 * DAY;

/// A unit of time.
#[derive(Clone, Copy, Drop)]
enum TimeUnit {
    Year,
    Week,
    Day,
    Hour,
    Minute,
    Second,
}

impl TimeUnit {
    fn nanos(self) -> u64
        ensures { result ≡ (span_of self).nanos }
    {
        match self {
            TimeUnit::Year => YEAR,
            TimeUnit::Week => WEEK,
            TimeUnit::Day => DAY,
            TimeUnit::Hour => HOUR,
            TimeUnit::Minute => MINUTE,
            TimeUnit::Second => SECOND,
        }
    }

    fn name(self) -> &'static str
        ensures name { result.now ≡ (span_of self).name }
        ensures ascii { IsAscii result.now }
        ensures short { length result.now ≤ 6 }
    {
        match self {
            TimeUnit::Year => "year",
            TimeUnit::Week => "week",
            TimeUnit::Day => "day",
            TimeUnit::Hour => "hour",
            TimeUnit::Minute => "minute",
            TimeUnit::Second => "second",
        }
    }

    fn letter(self) -> u8
        ensures letter { result ∷ [] ≡ take 1 (span_of self).name }
        ensures ascii { result ≤ 127 }
    {
        match self {
            TimeUnit::Year => b'y',
            TimeUnit::Week => b'w',
            TimeUnit::Day => b'd',
            TimeUnit::Hour => b'h',
            TimeUnit::Minute => b'm',
            TimeUnit::Second => b's',
        }
    }
}

/// A duration as a count of a unit.
#[derive(Clone, Copy, Drop)]
struct CountOfUnit {
    count: u64,
    unit: TimeUnit,
}

impl CountOfUnit {
    /// A duration in the unit that `HumanDuration` shows.
    fn of(nanos: u64) -> CountOfUnit
        ensures count { result.count ≡ (count_and_unit nanos).0 }
        ensures unit { span_of result.unit ≡ (count_and_unit nanos).1 }
    {
        if nanos >= YEAR + YEAR / 2 - WEEK / 2 {
            CountOfUnit::at_least_two(nanos, TimeUnit::Year)
        } else if nanos >= WEEK + WEEK / 2 - DAY / 2 {
            CountOfUnit::at_least_two(nanos, TimeUnit::Week)
        } else if nanos >= DAY + DAY / 2 - HOUR / 2 {
            CountOfUnit::at_least_two(nanos, TimeUnit::Day)
        } else if nanos >= HOUR + HOUR / 2 - MINUTE / 2 {
            CountOfUnit::at_least_two(nanos, TimeUnit::Hour)
        } else if nanos >= MINUTE + MINUTE / 2 - SECOND / 2 {
            CountOfUnit::at_least_two(nanos, TimeUnit::Minute)
        } else {
            CountOfUnit {
                count: rounded_half_up(nanos, SECOND),
                unit: TimeUnit::Second,
            }
        }
    }

    /// A duration in a unit, rounded to nearest, a half up, and at least 2.
    #[inline(always)]
    fn at_least_two(nanos: u64, unit: TimeUnit) -> CountOfUnit
        ensures count { result.count ≡ max 2 (rounded_half_up nanos (span_of unit).nanos) }
        ensures unit { result.unit ≡ unit }
    {
        CountOfUnit {
            count: rounded_half_up(nanos, unit.nanos()).max(2),
            unit,
        }
    }
}

/// A duration as days, if there are any, hours, minutes and seconds.
pub(crate) fn formatted_text(nanos: u64) -> ShortText
    ensures { result ≡ formatted_duration nanos }
{
    let seconds = nanos / SECOND;
    let days = seconds / 86_400;
    let mut text = ShortText::new();
    text.prepend_two_digits(seconds % 60);
    text.prepend(b':');
    text.prepend_two_digits(seconds % 3_600 / 60);
    text.prepend(b':');
    text.prepend_two_digits(seconds % 86_400 / 3_600);
    if days > 0 {
        text.prepend_str("d ");
        text.prepend_number(days);
    }
    text
}

/// A duration in words: its count and its unit.
pub(crate) fn words_text(nanos: u64) -> ShortText
    ensures { result ≡ human_duration nanos }
{
    let told = CountOfUnit::of(nanos);
    let mut text = ShortText::new();
    if told.count != 1 {
        text.prepend(b's');
    }
    text.prepend_str(told.unit.name());
    text.prepend(b' ');
    text.prepend_number(told.count);
    text
}

/// A duration in short: its count and its unit's letter.
pub(crate) fn letter_text(nanos: u64) -> ShortText
    ensures { result ≡ short_duration nanos }
{
    let told = CountOfUnit::of(nanos);
    let mut text = ShortText::new();
    text.prepend(told.unit.letter());
    text.prepend_number(told.count);
    text
}
