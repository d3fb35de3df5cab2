//! A terminal whose rows are ended by the program, or by the terminal.
ghost use Rattle.std.specs.Prelude.{◌≡◌, List, [], ◌∷◌, chars, Err, IsTrue, IsFalse, None, Some, OnOk, OnErr, IfErr, ◌⊎◌, ◌↔◌};
ghost use Rattle.indicatif_text.specs.Columns.{is_plain};
ghost use Rattle.indicatif_term.specs.EndedRows.{OwnDraws, OwnKeeps};
ghost use Rattle.indicatif_term.specs.Calls.{TermView, Writes, move_bytes, line_bytes, clear_bytes, UP, DOWN, RIGHT, LEFT};
ghost use Rattle.indicatif_term.specs.Resizes.{Resized, has_size};
ghost use Rattle.indicatif_term.specs.OwnRows.{own_rows, left_rows, inner_term, own_view, unsynchronized};

use crate::target::ended_rows::{EndedRows, Shown};
use crate::target::own_row::OwnRow;
use crate::target::term_like::{Resize, TermLike};
use indicatif_text::columns::Refusal;
use std::fmt::{self, Debug, Formatter};
use std::io;

/// A terminal of unknown width: no draw on it erases a row that isn't the bars' own, whatever width it was given.
///
/// Each row is wrapped here, at the given columns, and ended by CR LF. The terminal's own wrap is off during a draw (DEC's private mode 7:
/// ESC `[?7l` before it, ESC `[?7h` after it). So each row is one row of the terminal. On a narrower terminal the right end of each row is
/// lost, also of a logged line, and the last column is blank; on a wider one the rest is free.
///
/// A row on which characters were written is emptied from the given columns on (ESC `[K`), before the cursor leaves it. So a narrower
/// terminal doesn't show the last character written on its last column.
///
/// After a draw the cursor waits at the terminal's right edge, after a blank on the last column, so that the next text, whoever writes it,
/// begins on a new row. So give it one column less than the terminal may have.
///
/// A draw is a synchronized update (DEC's private mode 2026: ESC `[?2026h` before it, ESC `[?2026l` after it). Terminals that know this
/// mode show a whole draw at once, and the others ignore it. `unsynchronized` omits it.
///
/// A character wider than the given columns is left out. As a terminal it gives its size and its faults; its bytes can't be read. For plain
/// texts, the clause `draws` of each call says that at any true width the rows above the cursor's stand after each byte, and that the
/// cursor is on the row on which a terminal of the given columns has it. The laws `where_own_rows_begin` and `what_own_rows_draw` lead from
/// a new one over any calls. If the terminal ends rows, contracts see all of the terminal.
///
/// ```
/// let term = OwnRows::new(Term::new(writer, 24, 79)); // for a terminal of 80 columns, or of any other number
/// let target = ProgressDrawTarget::term(term, facts, 20, now)?;
/// ```
#[derive(Drop)]
pub struct OwnRows<T> {
    rows: Rows<T>,
}

/// Who ends rows.
#[derive(Drop)]
enum Rows<T> {
    /// The terminal.
    Left(T),
    /// The program.
    Ended(EndedRows<T>),
}

/// Shows the terminal.
impl<T: Debug> Debug for OwnRows<T> {
    fn fmt<W: fmt::Write>(&self, f: &mut Formatter<W>) -> fmt::Result {
        f.debug_struct("OwnRows")
            .field("term", self.term())
            .finish_non_exhaustive()
    }
}

impl<T> OwnRows<T> {
    /// Own rows on this terminal, whose cursor stands at the front of an empty row.
    pub fn new(term: T) -> OwnRows<T>
        ensures { result ≡ own_rows term None }
    {
        OwnRows {
            rows: Rows::Ended(EndedRows::new(term, None)),
        }
    }

    /// One own row of this terminal, where other programs draw on those above and below it. The cursor stands on the last of these rows.
    /// Each draw goes up to its own row and back, and is one write behind a `BufWriter`. So no program waits for another.
    ///
    /// A draw must have one line, so give the terminal one row. What others write while bars stand begins on a new row, below the last row.
    ///
    /// ```
    /// let term = OwnRows::on_row(Term::new(writer, 1, 79), row); // for the second of three rows
    /// ```
    pub fn on_row(term: T, row: OwnRow) -> OwnRows<T>
        ensures { result ≡ own_rows term (Some row) }
    {
        OwnRows {
            rows: Rows::Ended(EndedRows::new(term, Some(row))),
        }
    }

    /// Rows of this terminal, with a known width: it wraps rows by itself, and only the calls' own bytes are written.
    ///
    /// ```
    /// let term = OwnRows::left_to_terminal(Term::new(writer, 24, 80)); // writes what the `Term` does
    /// ```
    pub fn left_to_terminal(term: T) -> OwnRows<T>
        ensures { result ≡ left_rows term }
    {
        OwnRows {
            rows: Rows::Left(term),
        }
    }

    /// The terminal without synchronized updates: for one that shows DEC's private mode 2026 as text. If the terminal ends rows there are
    /// none.
    ///
    /// ```
    /// let term = OwnRows::new(Term::new(writer, 24, 79)).unsynchronized();
    /// ```
    pub fn unsynchronized(self) -> OwnRows<T>
        ensures { result ≡ unsynchronized self }
    {
        match self.rows {
            Rows::Left(term) => OwnRows::left_to_terminal(term),
            Rows::Ended(rows) => OwnRows {
                rows: Rows::Ended(rows.shown(Shown::AsWritten)),
            },
        }
    }

    /// The terminal behind the own rows.
    ///
    /// ```
    /// let writer = own.term().writer();
    /// ```
    pub fn term(&self) -> &T
        ensures { result.now ≡ inner_term self.now }
    {
        match &self.rows {
            Rows::Left(term) => term,
            Rows::Ended(rows) => rows.term(),
        }
    }
}

impl<T: TermLike> TermLike for OwnRows<T> {
    ghost view = { λ own. own_view T.view own };

    fn width(&self) -> u16 {
        match &self.rows {
            Rows::Left(term) => term.width(),
            Rows::Ended(rows) => rows.width(),
        }
    }

    fn height(&self) -> u16 {
        match &self.rows {
            Rows::Left(term) => term.height(),
            Rows::Ended(rows) => rows.height(),
        }
    }

    fn faults(&self) -> u64 {
        match &self.rows {
            Rows::Left(term) => term.faults(),
            Rows::Ended(rows) => rows.faults(),
        }
    }

    fn move_cursor_up(&mut self, n: usize) -> io::Result<()>
        ensures writes { Writes (move_bytes UP n) (own_view T.view self.old) (own_view T.view self.new) result }
        ensures draws { OwnDraws T.view (move_bytes UP n ∷ []) self.old self.new result }
    {
        match &mut self.rows {
            Rows::Left(term) => term.move_cursor_up(n),
            Rows::Ended(rows) => rows.move_cursor_up(n),
        }
    }

    fn move_cursor_down(&mut self, n: usize) -> io::Result<()>
        ensures writes { Writes (move_bytes DOWN n) (own_view T.view self.old) (own_view T.view self.new) result }
        ensures draws { OwnDraws T.view (move_bytes DOWN n ∷ []) self.old self.new result }
    {
        match &mut self.rows {
            Rows::Left(term) => term.move_cursor_down(n),
            Rows::Ended(rows) => rows.move_cursor_down(n),
        }
    }

    fn move_cursor_right(&mut self, n: usize) -> io::Result<()>
        ensures writes { Writes (move_bytes RIGHT n) (own_view T.view self.old) (own_view T.view self.new) result }
        ensures draws { OwnDraws T.view (move_bytes RIGHT n ∷ []) self.old self.new result }
    {
        match &mut self.rows {
            Rows::Left(term) => term.move_cursor_right(n),
            Rows::Ended(rows) => rows.move_cursor_right(n),
        }
    }

    fn move_cursor_left(&mut self, n: usize) -> io::Result<()>
        ensures writes { Writes (move_bytes LEFT n) (own_view T.view self.old) (own_view T.view self.new) result }
        ensures draws { OwnDraws T.view (move_bytes LEFT n ∷ []) self.old self.new result }
    {
        match &mut self.rows {
            Rows::Left(term) => term.move_cursor_left(n),
            Rows::Ended(rows) => rows.move_cursor_left(n),
        }
    }

    fn write_line(&mut self, s: &str) -> io::Result<()>
        ensures writes { Writes (line_bytes s.now) (own_view T.view self.old) (own_view T.view self.new) result }
        ensures draws { IsTrue (is_plain (chars s.now)) → OwnDraws T.view (line_bytes s.now ∷ []) self.old self.new result }
    {
        match &mut self.rows {
            Rows::Left(term) => term.write_line(s),
            Rows::Ended(rows) => rows.write_line(s),
        }
    }

    fn write_str(&mut self, s: &str) -> io::Result<()>
        ensures writes { Writes s.now (own_view T.view self.old) (own_view T.view self.new) result }
        ensures draws { IsTrue (is_plain (chars s.now)) → OwnDraws T.view (s.now ∷ []) self.old self.new result }
    {
        match &mut self.rows {
            Rows::Left(term) => term.write_str(s),
            Rows::Ended(rows) => rows.write_str(s),
        }
    }

    fn clear_line(&mut self) -> io::Result<()>
        ensures writes { Writes clear_bytes (own_view T.view self.old) (own_view T.view self.new) result }
        ensures draws { OwnDraws T.view (clear_bytes ∷ []) self.old self.new result }
    {
        match &mut self.rows {
            Rows::Left(term) => term.clear_line(),
            Rows::Ended(rows) => rows.clear_line(),
        }
    }

    fn flush(&mut self) -> io::Result<()>
        ensures writes { Writes [] (own_view T.view self.old) (own_view T.view self.new) result }
        ensures draws { OwnDraws T.view ([] ∷ []) self.old self.new result }
    {
        match &mut self.rows {
            Rows::Left(term) => term.flush(),
            Rows::Ended(rows) => rows.flush(),
        }
    }
}

/// Sets the size of the inner terminal, and writes nothing. If the program ends rows, they are wrapped at the new columns from then on:
/// give it one column less than there are now, as at first.
///
/// The rows that stand then count as wrapped at these columns. A terminal that wrapped them otherwise, or not at all, may have fewer: then
/// the next draw erases rows above. If it has as many, the clause `together` says that `draws` goes on. A new target
/// (`machine::sized_target`) after a clear counts what was drawn.
///
/// ```
/// own.resize(50, 131)?; // for a terminal that has 132 columns now
/// ```
impl<T: Resize> Resize for OwnRows<T> {
    ghost takes_memory = { T.takes_memory };

    fn resize(&mut self, rows: u16, cols: u16) -> Result<(), Refusal>
        ensures resized { OnOk result (Resized cols rows (own_view T.view self.old) (own_view T.view self.new)) }
        ensures together { OnOk result (OwnKeeps T.view cols self.old self.new) }
        ensures unchanged { OnErr result (self.new ≡ self.old) }
        ensures zero_size { (result ≡ Err Refusal.ZeroSize) ↔ ((rows ≡ 0) ⊎ (cols ≡ 0)) }
        ensures no_other { IfErr result (λ e. (e ≡ Refusal.ZeroSize) ⊎ (e ≡ Refusal.Memory)) }
        ensures memory { result ≡ Err Refusal.Memory → IsFalse (has_size cols rows (own_view T.view self.old)) }
        ensures takes { result ≡ Err Refusal.Memory → IsTrue T.takes_memory }
    {
        match &mut self.rows {
            Rows::Left(term) => term.resize(rows, cols),
            Rows::Ended(own) => own.resize(rows, cols),
        }
    }
}
