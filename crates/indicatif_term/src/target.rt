//! Where bars are drawn, how often, and where they stand if a draw has fewer rows than the last one.
//!
//! `Facts`, `ProgressDrawTarget`, `Setup` and `MultiProgressAlignment` are here, and the public names of the engine.
//!
//! - `lines`: `LineType` and `Segment`, the lines that bars show.
//! - `limiter`: `RateLimiter`, how often a target may draw.
//! - `term_like`: `TermLike`, what a terminal has to offer: its size, its faults, and its calls, each with its bytes: moves, texts, lines,
//!   a cleared line, a flush. `Resize`, what changes its size.
//! - `window`: `Window`, the size of a terminal that has some columns.
//! - `move_bytes`: `MoveBytes`, the escape sequence of a move of the cursor.
//! - `term`: `Term`, a terminal behind any writer. `write_whole` writes all of some bytes.
//! - `own_rows`: `OwnRows`, a terminal whose rows are ended by the program if nobody knows the columns, or by the terminal.
//! - `own_row`: `OwnRow`, the number of one row of several, where other programs draw on those above and below.
//! - `ended_rows`: `EndedRows`, the terminal in an `OwnRows` that ends rows: how a draw begins and ends, where the cursor goes, rests and
//!   waits (`Phase`), how a text is put piece by piece where its row has room, and how a row is left.
ghost use Rattle.std.specs.Prelude.{◌≡◌, ◌↔◌, Option, option_map, string_bytes, IsTrue, Some, None, Err, IfOk, IfErr, if◌then◌else◌};
ghost use Rattle.indicatif_term.specs.Limiters.{default_rate, draw_limiter};
ghost use Rattle.indicatif_term.specs.Target.{term_of, is_dumb, hides, term_behind};

mod ended_rows;
pub(crate) mod limiter;
pub(crate) mod lines;
pub(crate) mod move_bytes;
mod own_row;
mod own_rows;
pub(crate) mod term;
pub(crate) mod term_like;
pub(crate) mod window;

pub use crate::engine::Engine;
pub use crate::engine::counts::Keep;
pub use crate::target::limiter::{DEFAULT_RATE, RateLimiter};
pub use crate::target::lines::{LineType, Segment};
pub use crate::target::own_row::OwnRow;
pub use crate::target::own_rows::OwnRows;
pub use crate::target::term::{Term, write_whole};
pub use crate::target::term_like::{Resize, TermLike};
use indicatif_text::columns::{Moment, Refusal};
use std::io::Write;
use std::marker::Model;

/// What a program knows about a stream that may be a terminal. This crate doesn't find it; `indicatif::machine` does.
///
/// ```
/// let facts = Facts { rows: 24, cols: 80, attended: true, term: None };
/// facts.hides() // true: where TERM is unset, moves of the cursor may do nothing
/// ```
#[derive(Debug, Drop)]
pub struct Facts {
    /// The terminal's rows.
    pub rows: u16,
    /// The terminal's columns.
    pub cols: u16,
    /// Whether the stream is a terminal, not a file or a pipe.
    pub attended: bool,
    /// The value of the variable `TERM`, if it is set.
    pub term: Option<String>,
}

impl Facts {
    /// Whether bars are hidden: the stream is no terminal, or `TERM` is unset or `dumb`, which means no cursor moves.
    pub fn hides(&self) -> bool
        ensures { result ≡ hides self.now }
    {
        !self.attended || is_dumb(&self.term)
    }
}

/// Where a bar is drawn, a terminal or nowhere, and how often.
///
/// A target with a rate allows 20 draws at once, and one more for each interval of `1000 / rate` whole milliseconds from its making on
/// (`RateLimiter`); forced draws aren't counted. Moments are nanoseconds. The rule is that of the documentation of the Rust crate
/// `indicatif` 0.18.6.
///
/// ```
/// let facts = Facts { rows: 24, cols: 80, attended: true, term };
/// let target = ProgressDrawTarget::stderr(writer, facts, now); // hidden where the facts say so, else 20 draws a second
/// let often = ProgressDrawTarget::term_like(term); // at each call that draws
/// ```
#[derive(Debug)]
pub struct ProgressDrawTarget<T> {
    parts: Option<(T, Option<RateLimiter>)>,
}

impl<T: Drop> Drop for ProgressDrawTarget<T> {
    fn drop(self) {
        let ProgressDrawTarget { parts: _ } = self;
    }
}

/// Contracts see the terminal with its limiter, if it has one; none if the target is hidden.
impl<T> Model for ProgressDrawTarget<T> {
    ghost use Rattle.std.specs.Prelude.{Option};
    ghost use Rattle.indicatif_term.specs.Limiters.{Limiter};

    ghost Value = { Option (T × Option Limiter) };

    ghost view = { λ target. target.parts };
}

impl<T: Drop> ProgressDrawTarget<T> {
    /// Draws on this terminal, without a limit.
    pub fn term_like(term: T) -> Self
        ensures { result ≡ Some (term, None) }
    {
        ProgressDrawTarget {
            parts: Some((term, None)),
        }
    }

    /// Draws on this terminal, `hz` times a second.
    ///
    /// Refused: `ZeroRate`, exactly if `hz` is 0; the terminal is dropped.
    pub fn term_like_with_hz(term: T, hz: u8, now: Moment) -> Result<Self, Refusal>
        ensures target { IfOk result (λ t. t ≡ Some (term, Some (draw_limiter hz now))) }
        ensures zero { (result ≡ Err Refusal.ZeroRate) ↔ (hz ≡ 0) }
        ensures no_other { IfErr result (λ e. e ≡ Refusal.ZeroRate) }
    {
        let limiter = RateLimiter::new(hz, now)?;
        Ok(ProgressDrawTarget {
            parts: Some((term, Some(limiter))),
        })
    }

    /// Draws on this terminal, `hz` times a second; nowhere if the facts hide bars (`Facts::hides`). The terminal keeps its own size.
    ///
    /// Refused: `ZeroRate`, exactly if `hz` is 0, even if the target would be hidden; the terminal is dropped.
    pub fn term(term: T, facts: Facts, hz: u8, now: Moment) -> Result<Self, Refusal>
        ensures target { IfOk result (λ t. t ≡ (if hides facts then None else Some (term, Some (draw_limiter hz now)))) }
        ensures zero { (result ≡ Err Refusal.ZeroRate) ↔ (hz ≡ 0) }
        ensures no_other { IfErr result (λ e. e ≡ Refusal.ZeroRate) }
    {
        let target = ProgressDrawTarget::term_like_with_hz(term, hz, now)?;
        if facts.hides() {
            return Ok(ProgressDrawTarget::hidden());
        }
        Ok(target)
    }

    /// A target that draws nowhere.
    pub fn hidden() -> Self
        ensures { result ≡ None }
    {
        ProgressDrawTarget { parts: None }
    }

    /// A target of these parts, as `into_parts` returns them.
    pub fn from_parts(parts: Option<(T, Option<RateLimiter>)>) -> Self
        ensures { result ≡ parts }
    {
        ProgressDrawTarget { parts }
    }

    /// Whether nothing is ever drawn.
    pub fn is_hidden(&self) -> bool
        ensures { IsTrue result ↔ (self.now ≡ None) }
    {
        self.parts.is_none()
    }

    /// The terminal; `None` if the target is hidden.
    pub fn into_term(self) -> Option<T>
        ensures { result ≡ term_of self }
    {
        let ProgressDrawTarget { parts } = self;
        match parts {
            Some((term, _)) => Some(term),
            None => None,
        }
    }

    /// The terminal with its limiter, which is `None` if it draws without a limit; `None` if the target is hidden.
    pub fn into_parts(self) -> Option<(T, Option<RateLimiter>)>
        ensures { result ≡ self }
    {
        let ProgressDrawTarget { parts } = self;
        parts
    }
}

impl<W: Write + Drop> ProgressDrawTarget<Term<W>> {
    /// Draws on the terminal behind this writer, which writes to standard output, 20 times a second; nowhere if the facts hide bars. The
    /// terminal has the facts' size.
    pub fn stdout(w: W, facts: Facts, now: Moment) -> Self
        ensures { result ≡ (if hides facts then None else Some (term_behind w facts, Some (draw_limiter default_rate now))) }
    {
        ProgressDrawTarget::behind(w, facts, now)
    }

    /// Draws on the terminal behind this writer, which writes to standard error, 20 times a second; nowhere if the facts hide bars. The
    /// terminal has the facts' size.
    pub fn stderr(w: W, facts: Facts, now: Moment) -> Self
        ensures { result ≡ (if hides facts then None else Some (term_behind w facts, Some (draw_limiter default_rate now))) }
    {
        ProgressDrawTarget::behind(w, facts, now)
    }

    /// Draws as `stdout`, `hz` times a second.
    ///
    /// Refused: `ZeroRate`, exactly if `hz` is 0, even if the target would be hidden; the writer is dropped.
    pub fn stdout_with_hz(w: W, facts: Facts, hz: u8, now: Moment) -> Result<Self, Refusal>
        ensures target { IfOk result (λ t. t ≡ (if hides facts then None else Some (term_behind w facts, Some (draw_limiter hz now)))) }
        ensures zero { (result ≡ Err Refusal.ZeroRate) ↔ (hz ≡ 0) }
        ensures no_other { IfErr result (λ e. e ≡ Refusal.ZeroRate) }
    {
        let term = Term::new(w, facts.rows, facts.cols);
        ProgressDrawTarget::term(term, facts, hz, now)
    }

    /// Draws as `stderr`, `hz` times a second.
    ///
    /// Refused: `ZeroRate`, exactly if `hz` is 0, even if the target would be hidden; the writer is dropped.
    pub fn stderr_with_hz(w: W, facts: Facts, hz: u8, now: Moment) -> Result<Self, Refusal>
        ensures target { IfOk result (λ t. t ≡ (if hides facts then None else Some (term_behind w facts, Some (draw_limiter hz now)))) }
        ensures zero { (result ≡ Err Refusal.ZeroRate) ↔ (hz ≡ 0) }
        ensures no_other { IfErr result (λ e. e ≡ Refusal.ZeroRate) }
    {
        let term = Term::new(w, facts.rows, facts.cols);
        ProgressDrawTarget::term(term, facts, hz, now)
    }

    /// Draws on the terminal behind this writer, 20 times a second; nowhere if the facts hide bars.
    fn behind(w: W, facts: Facts, now: Moment) -> Self
        ensures { result ≡ (if hides facts then None else Some (term_behind w facts, Some (draw_limiter default_rate now))) }
    {
        if facts.hides() {
            return ProgressDrawTarget::hidden();
        }
        let term = Term::new(w, facts.rows, facts.cols);
        ProgressDrawTarget {
            parts: Some((term, Some(RateLimiter::by_default(now)))),
        }
    }
}

/// Whether a terminal of this kind has no cursor moves.
fn is_dumb(kind: &Option<String>) -> bool
    ensures { result ≡ is_dumb (option_map string_bytes kind.now) }
{
    match kind {
        Some(kind) => kind.as_str() == "dumb",
        None => true,
    }
}

/// What a bar is made with: where it is drawn, and its clock.
///
/// ```
/// let setup = Setup { target: ProgressDrawTarget::term_like(term), clock: StepClock { next: 0, step: 1 } };
/// ```
#[derive(Debug, Drop)]
pub struct Setup<T, C> {
    /// Where the bar is drawn.
    pub target: ProgressDrawTarget<T>,
    /// The clock of the bar.
    pub clock: C,
}

/// Where the bars stand if a draw has fewer rows than it erases.
///
/// ```
/// engine.draw(&frame, 0, MultiProgressAlignment::Bottom)?; // a shorter frame stands below blank rows
/// ```
#[derive(Clone, Copy, Debug, Default, Drop, PartialEq, Eq)]
pub enum MultiProgressAlignment {
    /// From the first erased row on.
    #[default]
    Top,
    /// Down to the last erased row, below blank rows.
    Bottom,
}

impl MultiProgressAlignment {
    ghost use Rattle.indicatif_term.specs.Target.{is_bottom};

    /// Whether the bars stand below blank rows.
    pub(crate) fn is_bottom(self) -> bool
        ensures { result ≡ is_bottom self }
    {
        matches!(self, MultiProgressAlignment::Bottom)
    }
}
