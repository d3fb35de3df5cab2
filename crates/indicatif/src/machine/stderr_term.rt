//! The terminal behind standard error.
ghost use Rattle.std.specs.Prelude.{◌≡◌, false};
ghost use Rattle.indicatif.specs.StderrTerm.{stderr_target};

use crate::machine::until_gone::UntilGone;
use indicatif_term::target::{OwnRows, ProgressDrawTarget, Resize, Term, TermLike};
use indicatif_text::columns::Refusal;
use std::io::{self, BufWriter, Stderr};

/// The terminal behind standard error: an `OwnRows` over a `Term` behind a buffer, in a type without parameters. A proof compares it by its
/// name alone, so each function that calls a bar on it is proved faster than one whose bar is on a `StreamTerm`. It gives what that
/// `OwnRows` gives: on standard error only its size and its faults, since no bytes can be read back. Once the terminal is gone, what is
/// written is dropped, and each call succeeds (`UntilGone`).
///
/// ```
/// type Logger<R> = Logged<R, LogBridge<StderrTerm, MachineClock<HostRuntime>, R>>;
/// ```
#[derive(Drop)]
pub struct StderrTerm {
    rows: OwnRows<Term<BufWriter<UntilGone<Stderr>>>>,
}

impl StderrTerm {
    /// A target on an `OwnRows` over standard error, as a target on a `StderrTerm`.
    pub(crate) fn target(
        target: ProgressDrawTarget<OwnRows<Term<BufWriter<UntilGone<Stderr>>>>>,
    ) -> ProgressDrawTarget<StderrTerm>
        ensures { result ≡ stderr_target target }
    {
        match target.into_parts() {
            None => ProgressDrawTarget::hidden(),
            Some((rows, limiter)) => {
                ProgressDrawTarget::from_parts(Some((StderrTerm { rows }, limiter)))
            }
        }
    }

    /// Whether a draw has found that the terminal is gone.
    ///
    /// ```
    /// let is_gone = bar.with_term(|term| term.is_some_and(|shown| shown.is_gone()));
    /// ```
    pub fn is_gone(&self) -> bool {
        self.rows.term().writer().get_ref().is_gone()
    }
}

impl TermLike for StderrTerm {
    ghost view = { λ shown. ⟦<OwnRows<Term<BufWriter<UntilGone<Stderr>>>> as TermLike>⟧.view shown.rows };

    fn width(&self) -> u16 {
        self.rows.width()
    }

    fn height(&self) -> u16 {
        self.rows.height()
    }

    fn faults(&self) -> u64 {
        self.rows.faults()
    }

    fn move_cursor_up(&mut self, n: usize) -> io::Result<()> {
        self.rows.move_cursor_up(n)
    }

    fn move_cursor_down(&mut self, n: usize) -> io::Result<()> {
        self.rows.move_cursor_down(n)
    }

    fn move_cursor_right(&mut self, n: usize) -> io::Result<()> {
        self.rows.move_cursor_right(n)
    }

    fn move_cursor_left(&mut self, n: usize) -> io::Result<()> {
        self.rows.move_cursor_left(n)
    }

    fn write_line(&mut self, s: &str) -> io::Result<()> {
        self.rows.write_line(s)
    }

    fn write_str(&mut self, s: &str) -> io::Result<()> {
        self.rows.write_str(s)
    }

    fn clear_line(&mut self) -> io::Result<()> {
        self.rows.clear_line()
    }

    fn flush(&mut self) -> io::Result<()> {
        self.rows.flush()
    }
}

/// As `OwnRows` does it: no byte is written. To one that `on_stderr` made, give one column less than the terminal has.
impl Resize for StderrTerm {
    ghost takes_memory = { false };

    fn resize(&mut self, rows: u16, cols: u16) -> Result<(), Refusal> {
        self.rows.resize(rows, cols)
    }
}
