//! The lines of a bar.
ghost use Rattle.std.specs.Prelude.{◌≡◌, IfOk, IfErr, IsTrue, map};
ghost use Rattle.std.specs.List.{list_all};
ghost use Rattle.indicatif_term.specs.Lines.{line_text};
ghost use Rattle.indicatif_bar.specs.Bars.{lines_of_bar, lines_take_memory, is_bar_line};

use crate::spare::SpareLines;
use crate::stage::relay;
use crate::state::BarState;
use crate::tracker::Tracks;
use indicatif_term::target::LineType;
use indicatif_text::columns::{Moment, Refusal};
use std::alloc::Global;

impl<K: Tracks> BarState<K> {
    /// The lines that the bar shows on a terminal of `width` columns at this moment: those of its style, and none once it
    /// finished hidden.
    ///
    /// Refused: `Memory`; never after it finished hidden, and never if no part of its template shows anything.
    pub fn lines(&self, now: Moment, width: u16) -> Result<Vec<LineType>, Refusal>
        ensures lines { IfOk result (λ v. map line_text v.items ≡ lines_of_bar K.means self.now now width) }
        ensures kind { IfOk result (λ v. IsTrue (list_all is_bar_line v.items)) }
        ensures memory { IfErr result (λ e. (e ≡ Refusal.Memory) × IsTrue (lines_take_memory self.now)) }
    {
        let mut spare = SpareLines::new(self.alloc());
        self.lines_in(&mut spare, now, width)
    }

    /// The lines of the bar as `lines`, in the memory of `spare`, whatever that holds. A bar that is laid out repeatedly, each time with
    /// the old lines stored there, takes no memory once `spare` has enough.
    ///
    /// Refused: as `lines`.
    ///
    /// ```
    /// let lines = bar.lines_in(&mut spare, now, 80)?;
    /// ```
    pub fn lines_in(
        &self,
        spare: &mut SpareLines,
        now: Moment,
        width: u16,
    ) -> Result<Vec<LineType>, Refusal>
        ensures lines { IfOk result (λ v. map line_text v.items ≡ lines_of_bar K.means self.now now width) }
        ensures kind { IfOk result (λ v. IsTrue (list_all is_bar_line v.items)) }
        ensures memory { IfErr result (λ e. (e ≡ Refusal.Memory) × IsTrue (lines_take_memory self.now)) }
    {
        let mut lines = Vec::new(self.alloc());
        relay(self, &mut lines, spare, width, now)?;
        Ok(lines)
    }

    /// The allocator of the bar's texts.
    pub(crate) fn alloc(&self) -> Global {
        self.state().alloc()
    }
}
