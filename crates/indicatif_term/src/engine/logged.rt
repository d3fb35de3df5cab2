//! A text that is logged above the lines.
ghost use Rattle.std.specs.Prelude.{Err, ◌≡◌, ◌≢◌};
ghost use Rattle.std.specs.Str.Lines.{lines};
ghost use Rattle.indicatif_term.specs.Lines.{logged_lines};
ghost use Rattle.indicatif_term.specs.Inside.Plans.{HasPlainRow, MeasuredText, logged_text};

use crate::engine::comparing::{is_plain_row, metrics_of};
use crate::engine::inks::leaves_open;
use crate::target::window::Window;
use indicatif_text::columns::{Metrics, Refusal};

/// A text that is logged, if any is. Most are of one row, and aren't searched for line ends.
#[derive(Clone, Copy)]
pub enum Logged<'a> {
    Nothing,
    /// Printable ASCII that fits in a row.
    Row(&'a str),
    /// Any other text.
    Lines(&'a str),
}

impl<'a> Logged<'a> {
    /// This text.
    pub fn of(text: &'a str, window: Window) -> Logged<'a>
        ensures lines { logged_text result ≡ logged_lines text.entry.now }
        ensures row { HasPlainRow window.columns result }
    {
        if is_plain_row(text, window) {
            return Logged::Row(text);
        }
        Logged::Lines(text)
    }

    /// The rows of its lines, or 2^64 - 1 if there are more, and how many columns the last line takes of its last row.
    pub fn metrics(self, window: Window) -> Result<Metrics, Refusal>
        requires { HasPlainRow window.columns self }
        ensures measured { MeasuredText window.columns (logged_text self.entry) result }
        ensures no_memory { result ≢ Err Refusal.Memory }
    {
        match self {
            Logged::Nothing => Ok(Metrics {
                height: 0,
                last_line_width: 0,
            }),
            Logged::Row(text) => Ok(Metrics {
                height: 1,
                last_line_width: text.len(),
            }),
            Logged::Lines(text) => metrics_of_lines(text, window),
        }
    }

    /// Whether it leaves colours open.
    pub fn leaves_open(self) -> bool {
        match self {
            Logged::Lines(text) => leaves_open(text),
            _ => false,
        }
    }
}

/// The rows of the lines of a text, and how many columns the last one takes of its last row.
fn metrics_of_lines(text: &str, window: Window) -> Result<Metrics, Refusal>
    ensures measured { MeasuredText window.columns (lines text.now) result }
    ensures no_memory { result ≢ Err Refusal.Memory }
{
    let mut all = Metrics {
        height: 0,
        last_line_width: 0,
    };
    for line in text.lines() {
        let metrics = metrics_of(line, window)?;
        all = Metrics {
            height: all.height.saturating_add(metrics.height),
            last_line_width: metrics.last_line_width,
        };
    }
    Ok(all)
}
