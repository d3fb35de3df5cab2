//! A grid that gets another size: its rows are put on a new one, each wrapped again.
ghost use Rattle.std.specs.Prelude.{◌≡◌, ◌==◌, ◌&&◌, ◌+◌, ◌<◌, ◌≤◌, IfOk, IfErr, IsFalse, OnOk, OnErr, length, max, reverse, take};
ghost use Rattle.indicatif_text.specs.Columns.{width_of};
ghost use Rattle.std.specs.Int.{is_in_range};
ghost use Rattle.indicatif_term.specs.Screen.{blank_screen, top};
ghost use Rattle.indicatif_term.specs.Resizes.{recut_screen, resized, used_rows};
ghost use Rattle.indicatif_term.specs.Inside.Resizing.{LastingPut, all_joined, glyph_put, row_put, row_after, rows_ended, rows_begun};

use crate::cells::glyph::Glyph;
use crate::cells::grid::Grid;
use crate::cells::row::Row;
use indicatif_text::columns::{Refusal, width};

/// The rows that the cursor's row becomes.
#[derive(Clone, Copy, Drop)]
struct CursorRows {
    first: usize,
    last: usize,
}

impl Grid {
    /// Sets the grid's size: each row is wrapped again, and rows aren't joined. Refused: `Memory`; then nothing has changed.
    pub(crate) fn resize(&mut self, height: u16, columns: u16) -> Result<(), Refusal>
        requires rows { 0 < height }
        requires columns { 0 < columns }
        ensures resized { OnOk result (self.new ≡ resized columns height self.old) }
        ensures err { OnErr result (self.new ≡ self.old) }
        ensures refused { IfErr result (λ e. e ≡ Refusal.Memory) }
        ensures another { IfErr result (λ e. IsFalse ((self.old.columns == columns) && (self.old.height == height))) }
    {
        if self.has_size(height, columns) {
            return Ok(());
        }
        *self = self.recut(height, columns)?;
        Ok(())
    }

    /// Whether the grid has this size.
    fn has_size(&self, height: u16, columns: u16) -> bool
        ensures { result ≡ ((self.now.columns == columns) && (self.now.height == height)) }
    {
        self.columns == columns && self.height == height
    }

    /// The grid that this one becomes at another size. Refused: `Memory`.
    fn recut(&self, height: u16, columns: u16) -> Result<Grid, Refusal>
        requires rows { 0 < height }
        requires columns { 0 < columns }
        ensures recut { IfOk result (λ g. g ≡ recut_screen columns height self.now) }
        ensures refused { IfErr result (λ e. e ≡ Refusal.Memory) }
    {
        let mut cut = Grid::new(self.alloc, height, columns)?;
        let cursor = cut.put_lasting(self)?;
        if self.column == self.columns {
            cut.go_to(cursor.last, columns);
        } else {
            cut.go_to(cursor.first, self.column.min(columns));
        }
        Ok(cut)
    }

    /// Puts the rows of another grid on this new one, and returns the rows that the cursor's row becomes. Refused: `Memory`.
    fn put_lasting(&mut self, old: &Grid) -> Result<CursorRows, Refusal>
        requires some { 0 < self.old.height }
        requires blank { self.old ≡ blank_screen self.old.height self.old.columns }
        ensures put { IfOk result (λ rows. LastingPut old.now self.old self.new rows) }
        ensures refused { IfErr result (λ e. e ≡ Refusal.Memory) }
    {
        self.put_ended(&old.rows[..old.row])?;
        let first = self.row;
        self.put_row(&old.rows[old.row])?;
        let last = self.row;
        self.put_used(&old.rows[old.row + 1..])?;
        Ok(CursorRows { first, last })
    }

    /// Moves the new grid's cursor to this row, or to the first one of the window if it is above that, and to this column.
    fn go_to(&mut self, row: usize, column: u16)
        requires in_rows { row < length self.old.rows }
        requires in_columns { column ≤ self.old.columns }
        ensures { self.new ≡ record self.old { row = max row (top self.old); column = column } }
    {
        let top = self.rows.len() - usize::from(self.height);
        self.row = row.max(top);
        self.column = column;
    }

    /// Puts old rows on the new grid, and goes to the front of the next one after each. Refused: `Memory`.
    fn put_ended(&mut self, rows: &[Row]) -> Result<(), Refusal>
        ensures put { OnOk result (self.new ≡ rows_ended self.old rows.now) }
        ensures refused { IfErr result (λ e. e ≡ Refusal.Memory) }
    {
        for row in rows {
            self.put_row(row)?;
            self.begin_row()?;
        }
        Ok(())
    }

    /// Puts old rows on the new grid, down to the last one that isn't blank, each from the front of the next one on. Refused: `Memory`.
    fn put_used(&mut self, rows: &[Row]) -> Result<(), Refusal>
        ensures put { OnOk result (self.new ≡ rows_begun self.old (used_rows rows.now)) }
        ensures refused { IfErr result (λ e. e ≡ Refusal.Memory) }
    {
        self.put_begun(&rows[..used_length(rows)])
    }

    /// Puts old rows on the new grid, each from the front of the next one on. Refused: `Memory`.
    fn put_begun(&mut self, rows: &[Row]) -> Result<(), Refusal>
        ensures put { OnOk result (self.new ≡ rows_begun self.old rows.now) }
        ensures refused { IfErr result (λ e. e ≡ Refusal.Memory) }
    {
        for row in rows {
            self.begin_row()?;
            self.put_row(row)?;
        }
        Ok(())
    }

    /// Goes to the front of the new grid's next row. Refused: `Memory`.
    fn begin_row(&mut self) -> Result<(), Refusal>
        ensures begun { OnOk result (self.new ≡ row_after self.old) }
        ensures refused { IfErr result (λ e. e ≡ Refusal.Memory) }
    {
        self.go_to_front();
        self.feed_line()
    }

    /// Puts the characters of an old row on the new grid, without the blanks at its end. Refused: `Memory`.
    fn put_row(&mut self, row: &Row) -> Result<(), Refusal>
        ensures put { OnOk result (self.new ≡ row_put self.old row.now) }
        ensures refused { IfErr result (λ e. e ≡ Refusal.Memory) }
    {
        let glyphs = row.glyphs(self.alloc)?;
        for glyph in &glyphs {
            self.put_glyph(glyph)?;
        }
        Ok(())
    }

    /// Puts a character with its joiners on the new grid, if it fits into a row. Refused: `Memory`.
    fn put_glyph(&mut self, glyph: &Glyph) -> Result<(), Refusal>
        ensures put { OnOk result (self.new ≡ glyph_put self.old glyph.now) }
        ensures refused { IfErr result (λ e. e ≡ Refusal.Memory) }
    {
        if !self.has_place(glyph.base()) {
            return Ok(());
        }
        self.put(glyph.base())?;
        self.join_all(glyph.joiners_reversed())
    }

    /// Whether a character has a place on the new grid: it has columns, and no more than a row.
    fn has_place(&self, c: char) -> bool
        ensures { result ≡ is_in_range 1 self.now.columns (width_of c) }
    {
        let columns = width(c);
        1 <= columns && columns <= usize::from(self.columns)
    }

    /// Joins joiners to the character before the new grid's cursor, from the last of these to the first. Refused: `Memory`.
    fn join_all(&mut self, reversed: &[char]) -> Result<(), Refusal>
        ensures joined { OnOk result (self.new ≡ all_joined self.old (reverse reversed.now)) }
        ensures refused { IfErr result (λ e. e ≡ Refusal.Memory) }
    {
        let mut left = reversed.len();
        while left > 0 {
            left -= 1;
            self.put_joiner(reversed[left])?;
        }
        Ok(())
    }
}

/// How many of the old rows there are up to the last one that isn't blank.
fn used_length(rows: &[Row]) -> usize
    ensures within { result ≤ length rows.now }
    ensures used { take result rows.now ≡ used_rows rows.now }
{
    let mut used = rows.len();
    while used > 0 {
        if !rows[used - 1].is_blank() {
            return used;
        }
        used -= 1;
    }
    0
}
