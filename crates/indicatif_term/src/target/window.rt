//! The size of a terminal that has some columns.
ghost use Rattle.std.specs.Prelude.{◌≡◌, ◌<◌, ◌≤◌};

use crate::target::term_like::TermLike;
use indicatif_text::columns::Refusal;

/// How many columns and rows a terminal has, asked once a call.
#[derive(Clone, Copy, Drop)]
pub struct Window {
    pub columns: usize,
    pub rows: usize,
    pub ghost some: { 0 < columns },
    pub ghost small: { rows ≤ 65535 },
}

impl Window {
    ghost use Rattle.indicatif_term.specs.Inside.Windows.{WindowOf};

    /// The size of this terminal.
    ///
    /// Refused: `NoColumns` where it has no columns.
    pub fn of<T: TermLike>(term: &T) -> Result<Window, Refusal>
        ensures { WindowOf (T.view term.now) result }
    {
        let columns = term.width() as usize;
        if columns == 0 {
            return Err(Refusal::NoColumns);
        }
        Ok(Window {
            columns,
            rows: term.height() as usize,
        })
    }
}
