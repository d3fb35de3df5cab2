//! The rows of a terminal, and its cursor, and how each operation changes them.
//!
//! - `resizing`: another size: all rows are put on a new grid, character by character, each wrapped again, and the cursor goes along.
ghost use Rattle.std.specs.Prelude.{All, ◌≡◌, ℕ, ◌+◌, ◌-◌, ◌<◌, ◌≤◌, [], false, IsTrue, IfOk, IfErr, OnOk, OnErr, length, take, replicate, slice_index_or, string_bytes, map};
ghost use Rattle.std.specs.List.{join_with_byte};
ghost use Rattle.indicatif_text.specs.Columns.{blank_row};
ghost use Rattle.indicatif_term.specs.Screen.{Put, Return, Up, Down, Right, Left, EmptyRow, performed, blank_screen, line_feed, put_wide, put_joiner, put_here, top};
ghost use Rattle.indicatif_term.specs.Inside.Scanners.{performed_all};
ghost use Rattle.indicatif_term.specs.Pictures.{contents_text, has_contents, picture_text, row_text, written_rows};
ghost use Rattle.indicatif_term.specs.Feeding.{op_takes_memory};
ghost use Rattle.indicatif_term.specs.Inside.Grids.{op_of};
ghost use Rattle.indicatif_term.specs.Inside.Runs.{run_chars, puts, TakesOneColumn};
ghost use Rattle.unicode_width.specs.Width.{char_width};

mod resizing;

use crate::cells::known_width::KnownWidth;
use crate::cells::row::Row;
use crate::cells::run::NarrowRun;
use indicatif_text::columns::Refusal;
use std::alloc::Global;
use std::marker::Model;

/// An operation of a terminal.
#[derive(Clone, Copy, Drop)]
pub(crate) enum Op {
    /// Writes a character at the cursor.
    Put(char),
    /// Goes to the front of the row.
    Return,
    /// One row down.
    LineFeed,
    /// This many rows up, at most to the first row of the window.
    Up(u16),
    /// This many rows down, at most to the last row of the window.
    Down(u16),
    /// This many columns right, at most to the last column; a waiting cursor stays.
    Right(u16),
    /// This many columns left, at most to the first column.
    Left(u16),
    /// Empties the cursor's row.
    EmptyRow,
}

/// The rows that scrolled away, those of the window, and the cursor.
#[derive(Drop)]
pub(crate) struct Grid {
    alloc: Global,
    columns: u16,
    height: u16,
    rows: Vec<Row>,
    row: usize,
    column: u16,
    width: KnownWidth,
}

impl Model for Grid {
    ghost use Rattle.indicatif_term.specs.Screen.{Screen};

    ghost Value = { Screen };

    ghost use Rattle.indicatif_term.specs.Inside.Grids.{screen_of, IsSound};

    ghost view = { screen_of };

    ghost invariant = { IsSound };
}

impl Grid {
    /// A grid of blank rows, the cursor at the front of the first. Refused: `Memory`.
    pub(crate) fn new(alloc: Global, height: u16, columns: u16) -> Result<Grid, Refusal>
        requires rows { 0 < height }
        requires columns { 0 < columns }
        ensures blank { IfOk result (λ g. g ≡ blank_screen height columns) }
        ensures refused { IfErr result (λ e. e ≡ Refusal.Memory) }
    {
        let mut rows = Vec::with_capacity(alloc, usize::from(height))?;
        for _row in 0..height {
            rows.push(Row::blank(alloc, columns))?;
        }
        Ok(Grid {
            alloc,
            columns,
            height,
            rows,
            row: 0,
            column: 0,
            width: KnownWidth::new(),
        })
    }

    /// How many columns the grid's rows have.
    pub(crate) fn columns(&self) -> u16
        ensures { result ≡ self.now.columns }
    {
        self.columns
    }

    /// How many rows the grid's window has.
    pub(crate) fn height(&self) -> u16
        ensures { result ≡ self.now.height }
    {
        self.height
    }

    /// The grid's cursor: its row, counted from the first of the window, and its column; at the end of a full row the column is the one
    /// after the last.
    pub(crate) fn cursor(&self) -> (u16, u16)
        ensures row { result.0 ≡ self.now.row - top self.now }
        ensures column { result.1 ≡ self.now.column }
    {
        let top = self.rows.len() - usize::from(self.height);
        ((self.row - top) as u16, self.column)
    }

    /// The texts of all rows of the grid. Refused: `Memory`.
    pub(crate) fn picture(&self) -> Result<Vec<String>, Refusal>
        ensures picture { IfOk result (λ v. map (λ t. string_bytes t) v.items ≡ picture_text self.now) }
        ensures refused { IfErr result (λ e. e ≡ Refusal.Memory) }
    {
        texts_of(self.alloc, &self.rows)
    }

    /// The texts of the window's rows up to the last one with a written cell, joined by line feeds. Refused: `Memory`, only if there is
    /// such a cell.
    pub(crate) fn contents(&self) -> Result<String, Refusal>
        ensures contents { IfOk result (λ t. string_bytes t ≡ contents_text self.now) }
        ensures refused { IfErr result (λ e. (e ≡ Refusal.Memory) × IsTrue (has_contents self.now)) }
    {
        let top = self.rows.len() - usize::from(self.height);
        let window = &self.rows[top..];
        let mut text = String::new(self.alloc);
        show_joined(self.alloc, &window[..written_length(window)], &mut text)?;
        Ok(text)
    }

    /// Resets the grid to a new one, without taking memory: the rows that scrolled away are dropped, the others emptied.
    pub(crate) fn reset(&mut self)
        ensures { self.new ≡ blank_screen self.old.height self.old.columns }
    {
        self.rows.truncate(usize::from(self.height));
        clear_rows(&mut self.rows, self.columns);
        self.row = 0;
        self.column = 0;
    }

    /// Carries out an operation on the grid. Refused: `Memory`; then nothing has changed.
    pub(crate) fn perform(&mut self, op: Op) -> Result<(), Refusal>
        ensures ok { OnOk result (self.new ≡ performed (op_of op) self.old) }
        ensures err { OnErr result (self.new ≡ self.old) }
        ensures memory { OnErr result (IsTrue (op_takes_memory (op_of op) self.old)) }
        ensures refused { IfErr result (λ e. e ≡ Refusal.Memory) }
    {
        match op {
            Op::Put(c) => return self.put(c),
            Op::LineFeed => return self.feed_line(),
            Op::Return => self.go_to_front(),
            Op::Up(rows) => self.go_up(rows),
            Op::Down(rows) => self.go_down(rows),
            Op::Right(columns) => self.go_right(columns),
            Op::Left(columns) => self.go_left(columns),
            Op::EmptyRow => self.empty_row(),
        }
        Ok(())
    }

    /// Moves the grid's cursor to the front of its row.
    fn go_to_front(&mut self)
        ensures { self.new ≡ performed Return self.old }
    {
        self.column = 0;
    }

    /// Moves the grid's cursor this many rows up, at most to the first row of the window.
    fn go_up(&mut self, rows: u16)
        ensures { self.new ≡ performed (Up rows) self.old }
    {
        let top = self.rows.len() - usize::from(self.height);
        self.row = self.row.saturating_sub(usize::from(rows)).max(top);
    }

    /// Moves the grid's cursor this many rows down, at most to the last row of the window.
    fn go_down(&mut self, rows: u16)
        ensures { self.new ≡ performed (Down rows) self.old }
    {
        let room = self.rows.len() - 1 - self.row;
        self.row += usize::from(rows).min(room);
    }

    /// Moves the grid's cursor this many columns right, at most to the last column; a waiting cursor stays.
    fn go_right(&mut self, columns: u16)
        ensures { self.new ≡ performed (Right columns) self.old }
    {
        if self.column < self.columns {
            let room = self.columns - 1 - self.column;
            self.column += columns.min(room);
        }
    }

    /// Moves the grid's cursor this many columns left, at most to the first column.
    fn go_left(&mut self, columns: u16)
        ensures { self.new ≡ performed (Left columns) self.old }
    {
        self.column = self.column.saturating_sub(columns);
    }

    /// Empties each cell of the cursor's row.
    fn empty_row(&mut self)
        ensures { self.new ≡ performed EmptyRow self.old }
    {
        let row = &mut self.rows[self.row];
        row.empty();
    }

    /// Moves the grid's cursor one row down; after the last row comes a blank one. Refused: `Memory`; then nothing has changed.
    fn feed_line(&mut self) -> Result<(), Refusal>
        ensures ok { OnOk result (self.new ≡ line_feed self.old) }
        ensures err { OnErr result (self.new ≡ self.old) }
        ensures last { OnErr result (length self.old.rows ≤ self.old.row + 1) }
        ensures refused { IfErr result (λ e. e ≡ Refusal.Memory) }
    {
        if self.row + 1 == self.rows.len() {
            let row = Row::blank(self.alloc, self.columns);
            self.rows.push(row)?;
        }
        self.row += 1;
        Ok(())
    }

    /// Writes a character at the grid's cursor. Refused: `Memory`; then nothing has changed.
    #[inline]
    pub(crate) fn put(&mut self, c: char) -> Result<(), Refusal>
        ensures ok { OnOk result (self.new ≡ performed (Put c) self.old) }
        ensures err { OnErr result (self.new ≡ self.old) }
        ensures refused { IfErr result (λ e. e ≡ Refusal.Memory) }
    {
        match self.width.columns(c) {
            None => Ok(()),
            Some(0) => self.put_joiner(c),
            Some(columns) => self.put_wide(c, columns),
        }
    }

    /// How many columns there are from the grid's cursor to the end of its row.
    pub(crate) fn room(&self) -> usize
        ensures { self.now.column + result ≡ self.now.columns }
    {
        usize::from(self.columns - self.column)
    }

    /// How many columns there are from the grid's cursor to the end of its row, if a character takes one column; otherwise 0.
    pub(crate) fn room_for(&mut self, c: char) -> usize
        ensures same { self.new ≡ self.old }
        ensures narrow { 0 < result → TakesOneColumn c }
        ensures room { self.old.column + result ≤ self.old.columns }
    {
        match self.width.columns(c) {
            Some(1) => self.room(),
            _ => 0,
        }
    }

    /// Writes characters of one column from the cursor on: all of them, or only the first. Returns how many. Refused: `Memory`; then
    /// nothing has changed.
    pub(crate) fn put_run(&mut self, run: NarrowRun<'_>) -> Result<usize, Refusal>
        requires some { 0 < length (run_chars run) }
        requires narrow { All TakesOneColumn (run_chars run) }
        requires fits { self.old.column + length (run_chars run) ≤ self.old.columns }
        ensures ok { IfOk result (λ n. self.new ≡ performed_all (puts (take n (run_chars run.entry))) self.old) }
        ensures some { IfOk result (λ n. 0 < n) }
        ensures within { IfOk result (λ n. n ≤ length (run_chars run.entry)) }
        ensures err { OnErr result (self.new ≡ self.old) }
        ensures refused { IfErr result (λ e. e ≡ Refusal.Memory) }
    {
        let at = usize::from(self.column);
        let row = &mut self.rows[self.row];
        let written = row.write_run(at, run)?;
        self.column += written as u16;
        Ok(written)
    }

    /// Joins a joiner to the character before the cursor, if there is one. Refused: `Memory`; then nothing has changed.
    fn put_joiner(&mut self, joiner: char) -> Result<(), Refusal>
        ensures ok { OnOk result (self.new ≡ put_joiner joiner self.old) }
        ensures err { OnErr result (self.new ≡ self.old) }
        ensures refused { IfErr result (λ e. e ≡ Refusal.Memory) }
    {
        let at = usize::from(self.column);
        let row = &mut self.rows[self.row];
        row.join(at, joiner)
    }

    /// Writes a character of this many columns at the grid's cursor. Refused: `Memory`; then nothing has changed.
    #[inline]
    fn put_wide(&mut self, c: char, columns: usize) -> Result<(), Refusal>
        requires some { 0 < columns }
        requires columns { char_width false c ≡ Some columns }
        ensures ok { OnOk result (self.new ≡ put_wide c columns self.old) }
        ensures err { OnErr result (self.new ≡ self.old) }
        ensures refused { IfErr result (λ e. e ≡ Refusal.Memory) }
    {
        let all = usize::from(self.columns);
        if columns > all {
            return Ok(());
        }
        if usize::from(self.column) + columns > all {
            return self.put_below(c, columns);
        }
        self.put_here(c, columns)
    }

    /// Writes a character of this many columns at the front of the row below. Refused: `Memory`; then nothing has changed.
    fn put_below(&mut self, c: char, columns: usize) -> Result<(), Refusal>
        requires some { 0 < columns }
        requires columns { char_width false c ≡ Some columns }
        requires fits { columns ≤ self.old.columns }
        ensures ok { OnOk result (self.new
            ≡ put_here (record { base = c; joiners = [] }) columns (line_feed (record self.old { column = 0 }))) }
        ensures err { OnErr result (self.new ≡ self.old) }
        ensures refused { IfErr result (λ e. e ≡ Refusal.Memory) }
    {
        if self.row + 1 < self.rows.len() {
            self.put_on_next_row(c, columns)
        } else {
            self.put_on_new_row(c, columns)
        }
    }

    /// Writes a character as `put_below`, if there is a row below.
    fn put_on_next_row(&mut self, c: char, columns: usize) -> Result<(), Refusal>
        requires some { 0 < columns }
        requires columns { char_width false c ≡ Some columns }
        requires fits { columns ≤ self.old.columns }
        requires below { self.old.row + 1 < length self.old.rows }
        ensures ok { OnOk result (self.new
            ≡ put_here (record { base = c; joiners = [] }) columns (line_feed (record self.old { column = 0 }))) }
        ensures err { OnErr result (self.new ≡ self.old) }
        ensures refused { IfErr result (λ e. e ≡ Refusal.Memory) }
    {
        let next = self.row + 1;
        let row = &mut self.rows[next];
        row.write(0, c, columns)?;
        self.row = next;
        self.column = columns as u16;
        Ok(())
    }

    /// Writes a character as `put_below`, if there is no row below: the row is made and written before anything changes.
    fn put_on_new_row(&mut self, c: char, columns: usize) -> Result<(), Refusal>
        requires some { 0 < columns }
        requires columns { char_width false c ≡ Some columns }
        requires fits { columns ≤ self.old.columns }
        requires last { length self.old.rows ≤ self.old.row + 1 }
        ensures ok { OnOk result (self.new
            ≡ put_here (record { base = c; joiners = [] }) columns (line_feed (record self.old { column = 0 }))) }
        ensures err { OnErr result (self.new ≡ self.old) }
        ensures refused { IfErr result (λ e. e ≡ Refusal.Memory) }
    {
        let mut row = Row::blank(self.alloc, self.columns);
        row.write(0, c, columns)?;
        self.rows.push(row)?;
        self.row += 1;
        self.column = columns as u16;
        Ok(())
    }

    /// Writes a character of this many columns, which fits into the row, at the grid's cursor. Refused: `Memory`; then nothing has changed.
    #[inline]
    fn put_here(&mut self, c: char, columns: usize) -> Result<(), Refusal>
        requires some { 0 < columns }
        requires columns { char_width false c ≡ Some columns }
        requires fits { self.old.column + columns ≤ self.old.columns }
        ensures ok { OnOk result (self.new ≡ put_here (record { base = c; joiners = [] }) columns self.old) }
        ensures err { OnErr result (self.new ≡ self.old) }
        ensures refused { IfErr result (λ e. e ≡ Refusal.Memory) }
    {
        let at = usize::from(self.column);
        let row = &mut self.rows[self.row];
        row.write(at, c, columns)?;
        self.column += columns as u16;
        Ok(())
    }
}

/// The texts of rows of a grid. Refused: `Memory`.
fn texts_of(alloc: Global, rows: &[Row]) -> Result<Vec<String>, Refusal>
    ensures texts { IfOk result (λ v. map (λ t. string_bytes t) v.items ≡ map row_text rows.now) }
    ensures refused { IfErr result (λ e. e ≡ Refusal.Memory) }
{
    let mut texts = Vec::with_capacity(alloc, rows.len())?;
    for row in rows {
        let mut text = String::new(alloc);
        row.show(alloc, &mut text)?;
        texts.push(text)?;
    }
    Ok(texts)
}

/// How many rows there are up to the last one with a written cell.
fn written_length(rows: &[Row]) -> usize
    ensures within { result ≤ length rows.now }
    ensures written { take result rows.now ≡ written_rows rows.now }
{
    let mut written = rows.len();
    while written > 0 {
        if rows[written - 1].has_written() {
            return written;
        }
        written -= 1;
    }
    0
}

/// Appends the texts of rows to `out`, a line feed between each two. Refused: `Memory`, never without rows.
fn show_joined(alloc: Global, rows: &[Row], out: &mut String) -> Result<(), Refusal>
    requires { string_bytes out.old ≡ [] }
    ensures shown { OnOk result (string_bytes out.new ≡ join_with_byte 0x0A (map row_text rows.now)) }
    ensures refused { IfErr result (λ e. (e ≡ Refusal.Memory) × (0 < length rows.now)) }
{
    for (place, row) in rows.iter().enumerate() {
        if place > 0 {
            out.push('\n')?;
        }
        row.show(alloc, out)?;
    }
    Ok(())
}

/// Empties each cell of a grid's rows, which have this many.
fn clear_rows(rows: &mut [Row], columns: u16)
    requires { (k : ℕ) → k < length rows.old → length (slice_index_or rows.old k []) ≡ columns }
    ensures { rows.new ≡ replicate (length rows.old) (blank_row columns) }
{
    for row in rows.iter_mut() {
        row.empty();
    }
}
