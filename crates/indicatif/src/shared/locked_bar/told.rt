//! A shared bar's plain line.
ghost use Rattle.std.specs.Prelude.{◌≡◌};

use super::LockedBar;
use crate::plain_lines::PlainLines;
use crate::shared::any_bar::AnyBar;
use indicatif_bar::style::Tracks;
use indicatif_term::target::TermLike;
use indicatif_text::columns::{Clock, Refusal};
use std::sync::Wait;

impl<K: Tracks, T: TermLike + Drop, C: Clock + Drop> LockedBar<K, T, C> {
    /// The bar's line, if its target is hidden and a line is due.
    pub fn line_due<R: Wait>(
        &mut self,
        rt: &R,
        lines: &mut PlainLines,
    ) -> Result<Option<String>, Refusal>
        ensures { self.new.bar ≡ self.old.bar }
    {
        let now = self.clock.now();
        match &self.bar {
            AnyBar::Alone(bar) => {
                if !bar.is_hidden() {
                    return Ok(None);
                }
                lines.line_of(bar.bar(), now)
            }
            AnyBar::Member(member) => {
                let locked = member.board.lock(rt);
                let board = locked.board.as_board();
                if !board.is_hidden() {
                    return Ok(None);
                }
                lines.line_of(board.bar(member.id)?, now)
            }
        }
    }
}
