//! Shared bars as plain lines.
use crate::plain_lines::PlainLines;
use crate::shared::ProgressBar;
use indicatif_bar::style::Tracks;
use indicatif_term::target::{TermLike, write_whole};
use indicatif_text::columns::{Clock, Refusal};
use std::io::Write;
use std::sync::Wait;

impl<T: TermLike + Drop, C: Clock + Drop, R: Wait + Clone + Drop, K: Tracks> ProgressBar<
    T,
    C,
    R,
    K,
> {
    /// If the bar is hidden and a line is due (`PlainLines`), writes the bar to `out` as a plain line, and returns whether it did. Call it
    /// after each step and after the finish. On a terminal it does nothing.
    ///
    /// ```
    /// bar.inc(1)?;
    /// bar.tell_line(&mut lines, &mut host.stderr())?;
    /// ```
    ///
    /// Refused: `Memory`: then the line is due at the next call; `Terminal` with the kind of the writer's failure; `NotMember`, if `tick`
    /// is, on a board.
    pub fn tell_line<W: Write>(
        &self,
        lines: &mut PlainLines,
        out: &mut W,
    ) -> Result<bool, Refusal> {
        let due = self.state.lock.lock(&self.rt).line_due(&self.rt, lines);
        let Some(text) = due? else {
            return Ok(false);
        };
        match write_whole(out, text.as_bytes()) {
            Ok(()) => Ok(true),
            Err(e) => Err(Refusal::Terminal(e.kind())),
        }
    }
}
