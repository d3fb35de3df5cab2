//! A row of cells, and how writing into it changes its wide characters.
ghost use Rattle.std.specs.Prelude.{◌≡◌, ◌+◌, ◌<◌, ◌≤◌, ◌++◌, ◌⊎◌, IfOk, IfErr, OnOk, OnErr, map, length, drop, take, string_bytes, encode_utf8_all, flat_map};
ghost use Rattle.std.specs.List.{list_all};
ghost use Rattle.indicatif_text.specs.Columns.{blank_row};
ghost use Rattle.indicatif_term.specs.Screen.{cut_before, written_at, joined_at};
ghost use Rattle.indicatif_term.specs.Pictures.{cell_text, is_blank, is_written, has_written, row_text, trimmed};
ghost use Rattle.indicatif_term.specs.Resizes.{glyph_at, glyphs_in};
ghost use Rattle.indicatif_term.specs.Inside.Runs.{run_chars, narrow_cells};
ghost use Rattle.indicatif_term.specs.Inside.Rows.{cell_shown, LeavesJoiners, BeginTheSame, emptied_back, emptied_on, overwritten, character_cells};

use crate::cells::cell::Cell;
use crate::cells::glyph::Glyph;
use crate::cells::joiners::Joiner;
use crate::cells::run::NarrowRun;
use indicatif_text::columns::Refusal;
use std::alloc::Global;
use std::marker::Model;

/// A row of cells, kept up to the last one that was written: a row without written cells takes no memory of its own.
#[derive(Drop)]
pub(crate) struct Row {
    columns: u16,
    cells: Vec<Cell>,
    joiners: Vec<Joiner>,
}

impl Model for Row {
    ghost use Rattle.std.specs.Prelude.{List};
    ghost use Rattle.indicatif_text.specs.Columns.{Cell};

    ghost Value = { List Cell };

    ghost use Rattle.indicatif_term.specs.Inside.Rows.{row_stored, IsStored};

    ghost view = { row_stored };

    ghost invariant = { IsStored };
}

impl Row {
    /// A row of this many empty cells. Takes no memory.
    pub(crate) fn blank(alloc: Global, columns: u16) -> Row
        ensures { result ≡ blank_row columns }
    {
        Row {
            columns,
            cells: Vec::new(alloc),
            joiners: Vec::new(alloc),
        }
    }

    /// Empties each cell of the row.
    pub(crate) fn empty(&mut self)
        ensures { self.new ≡ blank_row (length self.old) }
    {
        self.cells.clear();
        self.joiners.clear();
    }

    /// Writes a character of `columns` columns at column `at`, and empties the wide characters that it overwrites in part. Refused:
    /// `Memory`; then nothing has changed.
    #[inline]
    pub(crate) fn write(&mut self, at: usize, c: char, columns: usize) -> Result<(), Refusal>
        requires some { 0 < columns }
        requires fits { at + columns ≤ length self.old }
        ensures written { OnOk result (self.new ≡ written_at at (character_cells c columns) self.old) }
        ensures err { OnErr result (self.new ≡ self.old) }
        ensures refused { IfErr result (λ e. e ≡ Refusal.Memory) }
    {
        if columns == 1 && at == self.cells.len() {
            self.cells.push(Cell::plain(c))?;
            return Ok(());
        }
        lengthen(&mut self.cells, at + columns)?;
        let cells: &mut [Cell] = &mut self.cells;
        empty_before(cells, at);
        empty_on(cells, at + columns);
        overwrite(cells, at, c, columns);
        Ok(())
    }

    /// Writes characters of one column from column `at` on: all if no cell is kept from there on, otherwise the first. Returns how many.
    /// Refused: `Memory`; then nothing has changed.
    pub(crate) fn write_run(&mut self, at: usize, run: NarrowRun<'_>) -> Result<usize, Refusal>
        requires some { 0 < length (run_chars run) }
        requires fits { at + length (run_chars run) ≤ length self.old }
        ensures written { IfOk result (λ n. self.new ≡ written_at at (narrow_cells (take n (run_chars run.entry))) self.old) }
        ensures some { IfOk result (λ n. 0 < n) }
        ensures within { IfOk result (λ n. n ≤ length (run_chars run.entry)) }
        ensures err { OnErr result (self.new ≡ self.old) }
        ensures refused { IfErr result (λ e. e ≡ Refusal.Memory) }
    {
        if at == self.cells.len() {
            run.append_to(&mut self.cells)?;
            return Ok(run.len());
        }
        self.write(at, run.first(), 1)?;
        Ok(1)
    }

    /// Joins a joiner to the character that ends just before column `at`, if one does. Refused: `Memory`; then nothing has changed.
    pub(crate) fn join(&mut self, at: usize, joiner: char) -> Result<(), Refusal>
        requires { at ≤ length self.old }
        ensures joined { OnOk result (self.new ≡ joined_at at joiner self.old) }
        ensures err { OnErr result (self.new ≡ self.old) }
        ensures refused { IfErr result (λ e. e ≡ Refusal.Memory) }
    {
        if at > self.cells.len() {
            return Ok(());
        }
        join_before(&mut self.cells, &mut self.joiners, at, joiner)?;
        Ok(())
    }

    /// Whether one of the row's cells was written, and not emptied since.
    pub(crate) fn has_written(&self) -> bool
        ensures { result ≡ has_written self.now }
    {
        for cell in &self.cells {
            if cell.is_written() {
                return true;
            }
        }
        false
    }

    /// Whether each of the row's cells is empty, or a space without a joiner.
    pub(crate) fn is_blank(&self) -> bool
        ensures { result ≡ list_all is_blank self.now }
    {
        shown_length(&self.cells, &self.joiners) == 0
    }

    /// The row's characters with their joiners, without the blanks at its end; an empty cell before them is a space. Refused: `Memory`.
    pub(crate) fn glyphs(&self, alloc: Global) -> Result<Vec<Glyph>, Refusal>
        ensures glyphs { IfOk result (λ v. v.items ≡ glyphs_in self.now) }
        ensures refused { IfErr result (λ e. e ≡ Refusal.Memory) }
    {
        let end = shown_length(&self.cells, &self.joiners);
        glyphs_of(alloc, &self.cells[..end], &self.joiners)
    }

    /// Appends the row's text to `out`, without the blanks at its end. Refused: `Memory`.
    pub(crate) fn show(&self, alloc: Global, out: &mut String) -> Result<(), Refusal>
        ensures shown { OnOk result (string_bytes out.new ≡ string_bytes out.old ++ row_text self.now) }
        ensures refused { IfErr result (λ e. e ≡ Refusal.Memory) }
    {
        let end = shown_length(&self.cells, &self.joiners);
        show_cells(alloc, &self.cells[..end], &self.joiners, out)
    }
}

/// Appends the text of a row's cells to `out`. Refused: `Memory`.
fn show_cells(
    alloc: Global,
    cells: &[Cell],
    joiners: &[Joiner],
    out: &mut String,
) -> Result<(), Refusal>
    ensures shown { OnOk result (string_bytes out.new
        ≡ string_bytes out.old ++ encode_utf8_all (flat_map cell_text (map (cell_shown joiners.now) cells.now))) }
    ensures refused { IfErr result (λ e. e ≡ Refusal.Memory) }
{
    for cell in cells {
        cell.show(alloc, joiners, out)?;
    }
    Ok(())
}

/// The characters of a row's cells with their joiners. Refused: `Memory`.
fn glyphs_of(alloc: Global, cells: &[Cell], joiners: &[Joiner]) -> Result<Vec<Glyph>, Refusal>
    ensures glyphs { IfOk result (λ v. v.items ≡ flat_map glyph_at (map (cell_shown joiners.now) cells.now)) }
    ensures refused { IfErr result (λ e. e ≡ Refusal.Memory) }
{
    let mut glyphs = Vec::new(alloc);
    for cell in cells {
        if let Some(glyph) = cell.glyph(alloc, joiners)? {
            glyphs.push(glyph)?;
        }
    }
    Ok(glyphs)
}

/// How many cells a row has up to the last one that is no blank.
fn shown_length(cells: &[Cell], joiners: &[Joiner]) -> usize
    ensures within { result ≤ length cells.now }
    ensures shown { take result (map (cell_shown joiners.now) cells.now) ≡ trimmed (map (cell_shown joiners.now) cells.now) }
{
    let mut shown = cells.len();
    while shown > 0 {
        if !cells[shown - 1].is_blank(joiners) {
            return shown;
        }
        shown -= 1;
    }
    0
}

/// Joins a joiner to the character that ends just before column `at`, if one does. Refused: `Memory`; then nothing has changed.
fn join_before(
    cells: &mut [Cell],
    joiners: &mut Vec<Joiner>,
    at: usize,
    joiner: char,
) -> Result<(), Refusal>
    requires within { at ≤ length cells.old }
    requires leaves { LeavesJoiners joiners.old.items cells.old }
    ensures joined { OnOk result (map (cell_shown joiners.new.items) cells.new
        ≡ joined_at at joiner (map (cell_shown joiners.old.items) cells.old)) }
    ensures err { OnErr result (map (cell_shown joiners.new.items) cells.new ≡ map (cell_shown joiners.old.items) cells.old) }
    ensures leaves { LeavesJoiners joiners.new.items cells.new }
    ensures refused { IfErr result (λ e. e ≡ Refusal.Memory) }
{
    let mut left = at;
    while left > 0 {
        left -= 1;
        if !cells[left].is_continued() {
            cells[left].join(joiners, joiner)?;
            return Ok(());
        }
    }
    Ok(())
}

/// Appends empty cells to the row, so that there are at least `end` cells. Refused: `Memory`.
#[inline]
fn lengthen(cells: &mut Vec<Cell>, end: usize) -> Result<(), Refusal>
    ensures same { BeginTheSame end cells.new.items cells.old.items }
    ensures within { (length cells.new.items ≤ end) ⊎ (length cells.new.items ≤ length cells.old.items) }
    ensures enough { OnOk result (end ≤ length cells.new.items) }
    ensures refused { IfErr result (λ e. e ≡ Refusal.Memory) }
{
    while cells.len() < end {
        cells.push(Cell::empty())?;
    }
    Ok(())
}

/// Empties the cells before column `at` of a wide character that continues there.
#[inline]
fn empty_before(cells: &mut [Cell], at: usize)
    requires { at ≤ length cells.old }
    ensures { cells.new ≡ cut_before at cells.old ++ drop at cells.old }
{
    if at < cells.len() && cells[at].is_continued() {
        empty_back(cells, at);
    }
}

/// Empties the character that ends just before column `at`.
fn empty_back(cells: &mut [Cell], at: usize)
    requires { at ≤ length cells.old }
    ensures { cells.new ≡ emptied_back at cells.old }
{
    let mut left = at;
    while left > 0 {
        left -= 1;
        let continued = cells[left].is_continued();
        cells[left] = Cell::empty();
        if !continued {
            return;
        }
    }
}

/// Empties the continued cells of a wide character from column `at` on.
#[inline]
fn empty_on(cells: &mut [Cell], at: usize)
    ensures { cells.new ≡ emptied_on at cells.old }
{
    let mut column = at;
    while column < cells.len() {
        if !cells[column].is_continued() {
            return;
        }
        cells[column] = Cell::empty();
        column += 1;
    }
}

/// Puts the cells of a character at column `at`.
#[inline]
fn overwrite(cells: &mut [Cell], at: usize, c: char, columns: usize)
    requires some { 0 < columns }
    requires fits { at + columns ≤ length cells.old }
    ensures { cells.new ≡ overwritten at (character_cells c columns) cells.old }
{
    cells[at] = Cell::plain(c);
    for column in at + 1..at + columns {
        cells[column] = Cell::continued();
    }
}
