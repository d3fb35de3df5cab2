//! Bars as plain lines, if no terminal shows them.
ghost use Rattle.std.specs.Prelude.{◌≡◌, None, false, IsTrue, is_some, IfOk, OnOk, OnErr, IfErr};
ghost use Rattle.indicatif_bar.specs.Progress.{is_finished};
ghost use Rattle.indicatif.specs.PlainLines.{due, due_meanwhile};

use indicatif_bar::state::BarState;
use indicatif_bar::style::Tracks;
use indicatif_text::columns::{Moment, Refusal, pieces};
use std::convert::AsStr;

/// The columns that plain lines are laid out for.
const COLUMNS: u16 = 79;

/// Decides when a bar that no terminal shows is written as a plain line: each `every` nanoseconds from the first look, and once when it is
/// finished. It is for logs, as those of a build, which want a line now and then. Use one for each bar.
///
/// ```
/// let mut lines = PlainLines::every(5_000_000_000);
/// for _ in 0..20u32 {
///     bar.inc(1)?;
///     bar.tell_line(&mut lines, &mut host.stderr())?; // where the bar is hidden, a line each five seconds
///     sleep(rt, Duration::from_millis(10));
/// }
/// bar.finish()?;
/// bar.tell_line(&mut lines, &mut host.stderr())?; // and the last one
/// ```
#[derive(Clone, Copy, Drop)]
pub struct PlainLines {
    every: u64,
    last: Option<Moment>,
    is_over: bool,
}

impl PlainLines {
    /// One line each `nanos` nanoseconds.
    pub fn every(nanos: u64) -> PlainLines
        ensures { (result.every ≡ nanos) × (result.last ≡ None) × (result.is_over ≡ false) }
    {
        PlainLines {
            every: nanos,
            last: None,
            is_over: false,
        }
    }

    /// Whether a line of a bar is due at this moment, and the state to keep.
    fn look(self, is_finished: bool, now: Moment) -> (bool, PlainLines)
        ensures { result ≡ due self is_finished now }
    {
        if is_finished {
            let is_over = true;
            return (!self.is_over, PlainLines { is_over, ..self });
        }
        self.look_meanwhile(now)
    }

    /// Whether a line of an unfinished bar is due at this moment, and the state to keep.
    fn look_meanwhile(self, now: Moment) -> (bool, PlainLines)
        ensures { result ≡ due_meanwhile self now }
    {
        let is_over = false;
        let is_due = self
            .last
            .is_some_and(|last| now.saturating_sub(last) >= self.every);
        if is_due || self.last.is_none() {
            let last = Some(now);
            return (
                is_due,
                PlainLines {
                    last,
                    is_over,
                    ..self
                },
            );
        }
        (false, PlainLines { is_over, ..self })
    }

    /// The bar's line at this moment, if one is due: those of its style on 79 columns, without colours, each with a line end. A bar that
    /// was finished and cleared has none. For a bar or a board without a lock; a shared bar has `tell_line`.
    ///
    /// ```
    /// if let Some(line) = lines.line_of(bar.bar(), now)? {
    ///     out.write_all(line.as_bytes())?;
    /// }
    /// ```
    ///
    /// Refused: `Memory`; then the line is due at the next look.
    pub fn line_of<K: Tracks>(
        &mut self,
        bar: &BarState<K>,
        now: Moment,
    ) -> Result<Option<String>, Refusal>
        ensures due { IfOk result (λ line. IsTrue (is_some line) → IsTrue (due self.old (is_finished bar.now.progress) now).0) }
        ensures next { OnOk result (self.new ≡ (due self.old (is_finished bar.now.progress) now).1) }
        ensures unchanged { OnErr result (self.new ≡ self.old) }
        ensures memory { IfErr result (λ e. e ≡ Refusal.Memory) }
    {
        let (is_due, next) = self.look(bar.state().is_finished(), now);
        let line = if is_due { plain_lines(bar, now)? } else { None };
        *self = next;
        Ok(line)
    }
}

/// A bar's plain lines; none if it shows nothing.
fn plain_lines<K: Tracks>(bar: &BarState<K>, now: Moment) -> Result<Option<String>, Refusal>
    ensures { IfErr result (λ e. e ≡ Refusal.Memory) }
{
    let lines = bar.lines(now, COLUMNS)?;
    let mut text = String::new(*lines.allocator());
    for line in &lines {
        push_plain(line.as_str(), &mut text)?;
    }
    if text.is_empty() {
        return Ok(None);
    }
    Ok(Some(text))
}

/// Appends a line without its colour sequences and control characters, and a line end.
fn push_plain(line: &str, out: &mut String) -> Result<(), Refusal>
    ensures { IfErr result (λ e. e ≡ Refusal.Memory) }
{
    for piece in pieces(line) {
        if !piece.colour {
            push_shown(piece.text, out)?;
        }
    }
    out.push('\n')?;
    Ok(())
}

/// Appends a text to a plain line, without its control characters.
fn push_shown(text: &str, out: &mut String) -> Result<(), Refusal>
    ensures { IfErr result (λ e. e ≡ Refusal.Memory) }
{
    for c in text.chars() {
        if !c.is_control() {
            out.push(c)?;
        }
    }
    Ok(())
}
