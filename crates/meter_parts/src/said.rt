//! Numbers in options, and texts that are shown.
ghost use Rattle.std.specs.Prelude.{◌<◌, IfSome};

use indicatif_term::target::OwnRow;
use std::fmt::{self, Display, Formatter};
use std::time::Duration;

/// The number of bytes of a text: digits, followed by a letter of `KMGTPE` for a power of 1024, as in `10M` and `10MiB`, or of 1000 with
/// `B`, as in `10MB`. This is as for `head -c` and `dd`. None for any other text, or for 2^64 and more.
pub fn bytes_said(text: &str) -> Option<u64> {
    let unit = text.trim_start_matches(|c: char| c.is_ascii_digit());
    let number: u64 = text.strip_suffix(unit)?.parse().ok()?;
    number.checked_mul(bytes_of_unit(unit)?)
}

/// How many bytes a unit has.
fn bytes_of_unit(unit: &str) -> Option<u64> {
    let mut rest = unit.chars();
    let Some(letter) = rest.next() else {
        return Some(1);
    };
    let power = power_of(letter)?;
    match rest.as_str() {
        "" | "iB" => 1024u64.checked_pow(power),
        "B" => 1000u64.checked_pow(power),
        _ => None,
    }
}

/// The power of a letter.
fn power_of(letter: char) -> Option<u32> {
    match letter {
        'K' | 'k' => Some(1),
        'M' | 'm' => Some(2),
        'G' | 'g' => Some(3),
        'T' | 't' => Some(4),
        'P' | 'p' => Some(5),
        'E' | 'e' => Some(6),
        _ => None,
    }
}

/// The nanoseconds of a text in seconds, such as `2` or `0.5`: at least one, and below 2^64. None for any other text.
pub fn nanos_said(text: &str) -> Option<u64>
    ensures { IfSome result (λ nanos. 0 < nanos) }
{
    let seconds = text.parse::<f64>().ok()?;
    let said = Duration::try_from_secs_f64(seconds).ok()?;
    match u64::try_from(said.as_nanos()) {
        Ok(0) | Err(_) => None,
        Ok(nanos) => Some(nanos),
    }
}

/// The row of a text: `2/3` is the second of three.
pub fn row_said(text: &str) -> Option<OwnRow> {
    let (number, of) = text.split_once('/')?;
    OwnRow::new(number.parse().ok()?, of.parse().ok()?)
}

/// How many lines end in these bytes, each by the byte `end`.
pub fn lines_in(bytes: &[u8], end: u8) -> u64 {
    bytes.iter().filter(|byte| **byte == end).count() as u64
}

/// How many bytes the first `lines` lines have, all of them if fewer lines end there.
pub fn bytes_of_lines(bytes: &[u8], end: u8, lines: usize) -> usize {
    let mut left = lines;
    for (at, byte) in bytes.iter().enumerate() {
        if left == 0 {
            return at;
        }
        if *byte == end {
            left -= 1;
        }
    }
    bytes.len()
}

/// A time of day, from its seconds: `14:05:09`. Format options, such as a width, are ignored.
#[derive(Clone, Copy, Drop)]
pub struct TimeOfDay(pub u64);

impl Display for TimeOfDay {
    fn fmt<W: fmt::Write>(&self, f: &mut Formatter<W>) -> fmt::Result {
        let seconds = self.0 % 60;
        let minutes = self.0 / 60 % 60;
        let hours = self.0 / 3600 % 24;
        write!(f, "{hours:02}:{minutes:02}:{seconds:02}")
    }
}
