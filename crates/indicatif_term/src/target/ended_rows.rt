//! Rows that the program wraps and ends by itself.
ghost use Rattle.std.specs.Prelude.{◌≡◌, ◌-◌, ◌≤◌, ◌⊎◌, ◌↔◌, Bool, Option, None, List, [], ◌∷◌, true, false, is_some, chars, nat_lt, nat_le, ◌&&◌, Err, IsTrue, IsFalse, IfErr, OnOk, OnErr};
ghost use Rattle.unicode_width.specs.Width.{char_width};
ghost use Rattle.indicatif_text.specs.Columns.{visible, is_plain};
ghost use Rattle.indicatif_text.specs.Pieces.{Colour, text_piece};
ghost use Rattle.indicatif_text.specs.PieceLaws.{IsExact, run_text};
ghost use Rattle.indicatif_term.specs.Screen.{Put, performed};
ghost use Rattle.indicatif_term.specs.Calls.{TermView, Writes, move_bytes, line_bytes, clear_bytes, UP, DOWN, RIGHT, LEFT};
ghost use Rattle.indicatif_term.specs.Resizes.{Resized, has_size};
ghost use Rattle.indicatif_term.specs.OwnRows.{quiet, first_place, new_rows};
ghost use Rattle.indicatif_term.specs.EndedRows.{is_between, Together, Draws, SizeKeeps};
ghost use Rattle.indicatif_term.specs.Inside.EndedRows.{Meets, Held, Within, WithinIf, WithinTo, WithinRoom, Between, Ended, LeadsBoth, Falls, unfailed, drawn_place, moved_place, opening_bytes, closing_bytes, at_column, next_front, rows_moved, front_emptied, with_room, all_put, AreShown, right_column};

use crate::target::own_row::OwnRow;
use crate::target::term_like::{Resize, TermLike};
use indicatif_text::columns::{Piece, Refusal, columns, pieces, width};
use std::io;

/// A terminal whose rows are wrapped here; all of it, or one row of several.
#[derive(Drop)]
pub struct EndedRows<T> {
    term: T,
    row: Option<OwnRow>,
    shown: Shown,
    place: Phase,
    /// The cursor's column on a terminal of the given width: that width, if it waits at the end of a full row.
    column: usize,
    /// The terminal's faults at the start of a draw.
    faults: u64,
    /// The bytes of texts that were written since the wrap was on.
    sent: usize,
    /// Whether characters were written on the cursor's row, since it came there or a draw began.
    written: bool,
}

/// How a draw is shown.
#[derive(Clone, Copy, Drop, PartialEq, Eq)]
pub enum Shown {
    /// As a synchronized update.
    AtOnce,
    /// As it is written.
    AsWritten,
}

/// Where the cursor is.
#[derive(Clone, Copy, Drop, PartialEq, Eq)]
enum Phase {
    /// Within a draw, at its column; the wrap is off.
    Drawing,
    /// Within a draw, but not at its column: at the right edge, or past the given columns; the wrap is off.
    Edge,
    /// Between two draws, at its column.
    Resting,
    /// Between two draws, at the right edge.
    Waiting,
}

impl Phase {
    /// Whether the cursor is between two draws: then the wrap is on.
    fn is_between(self) -> bool
        ensures { result ≡ is_between self }
    {
        match self {
            Phase::Resting | Phase::Waiting => true,
            Phase::Drawing | Phase::Edge => false,
        }
    }

    /// The cursor's phase after the start of a draw.
    fn drawn(self) -> Phase
        ensures { result ≡ drawn_place self }
    {
        match self {
            Phase::Resting | Phase::Drawing => Phase::Drawing,
            Phase::Waiting | Phase::Edge => Phase::Edge,
        }
    }
}

/// More columns than any terminal has.
const EDGE: usize = 9_999;

/// The most bytes of texts that are written before the wrap is turned on, apart from the text that exceeds them. Linux takes two thousand
/// bytes from a terminal's program at once, and looks for a signal only then.
const BREATH: usize = 1_024;

/// Where the cursor waits before the first draw.
fn first_place(row: Option<OwnRow>) -> Phase
    ensures { result ≡ first_place row }
{
    match row {
        None => Phase::Resting,
        Some(_) => Phase::Waiting,
    }
}

impl<T> EndedRows<T> {
    /// The ended rows of this terminal, or one row of it.
    pub fn new(term: T, row: Option<OwnRow>) -> EndedRows<T>
        ensures { result ≡ new_rows term row }
    {
        EndedRows {
            term,
            row,
            shown: Shown::AtOnce,
            place: first_place(row),
            column: 0,
            faults: 0,
            sent: 0,
            written: false,
        }
    }

    /// The terminal with its draws shown in this way.
    pub fn shown(self, shown: Shown) -> EndedRows<T>
        ensures { result ≡ record self { shown = shown } }
    {
        EndedRows { shown, ..self }
    }

    /// The terminal behind the ended rows.
    pub fn term(&self) -> &T
        ensures { result.now ≡ self.now.term }
    {
        &self.term
    }

    /// What is written at the start of a draw.
    fn opening(&self) -> &'static str
        ensures { result.now ≡ opening_bytes self.now.shown }
    {
        match self.shown {
            Shown::AtOnce => "\u{1b}[?2026h\u{1b}[?7l",
            Shown::AsWritten => "\u{1b}[?7l",
        }
    }

    /// What is written at the end of a draw.
    fn closing(&self) -> &'static str
        ensures { result.now ≡ closing_bytes self.now.shown }
    {
        match self.shown {
            Shown::AtOnce => "\u{1b}[?2026l",
            Shown::AsWritten => "",
        }
    }

    /// How many rows of other programs are below.
    fn below(&self) -> usize
        ensures { self.now.row ≡ None → result ≡ 0 }
    {
        match self.row {
            None => 0,
            Some(row) => row.below(),
        }
    }

    /// Notes that the cursor is at this column of the row, during a draw.
    fn is_at(&mut self, column: usize)
        ensures { self.new ≡ record self.old { column = column; place = moved_place self.old.place } }
    {
        self.column = column;
        if self.place == Phase::Edge {
            self.place = Phase::Drawing;
        }
    }
}

impl<T: TermLike> EndedRows<T> {
    /// Turns the wrap off, and goes to the row, if a draw begins.
    fn begin(&mut self) -> io::Result<()>
        ensures { Falls T.view (Together T.view) (Within T.view) (λ s. s) self.old self.new result }
    {
        self.forget_failed();
        if self.place.is_between() {
            return self.begin_drawing();
        }
        self.breathe()
    }

    /// Begins a draw: turns the wrap off, and goes to the row.
    fn begin_drawing(&mut self) -> io::Result<()>
        ensures { Falls T.view (Between T.view) (Within T.view) (λ s. s) self.old self.new result }
    {
        self.place = self.place.drawn();
        self.sent = 0;
        self.written = false;
        self.send(self.opening())?;
        self.go_up(self.below())
    }

    /// After a failed call the cursor's place is unknown: the next draw begins there.
    fn forget_failed(&mut self)
        ensures { self.new ≡ unfailed T.view self.old }
    {
        let faults = self.term.faults();
        if faults != self.faults {
            self.faults = faults;
            self.place = first_place(self.row);
            self.column = 0;
        }
    }

    /// Flushes what was written, with the wrap on, if it is much. So a program that is killed during a long draw usually leaves the wrap
    /// on.
    fn breathe(&mut self) -> io::Result<()>
        ensures { Falls T.view (Within T.view) (Within T.view) (λ s. s) self.old self.new result }
    {
        if self.sent < BREATH {
            return Ok(());
        }
        self.send("\u{1b}[?7h")?;
        self.hand_on()?;
        self.sent = 0;
        self.send("\u{1b}[?7l")
    }

    /// Ends a draw, if there is one.
    fn end(&mut self) -> io::Result<()>
        ensures { Falls T.view (Together T.view) (Together T.view) (λ s. s) self.old self.new result }
    {
        if self.place.is_between() {
            return Ok(());
        }
        self.end_drawing()
    }

    /// Ends a draw: turns the wrap on, and lets the cursor rest or wait.
    fn end_drawing(&mut self) -> io::Result<()>
        ensures { Falls T.view (Within T.view) (Together T.view) (λ s. s) self.old self.new result }
    {
        self.send("\u{1b}[?7h")?;
        self.leave()?;
        self.send(self.closing())
    }

    /// Lets the cursor wait at the right edge. On a whole terminal it rests at the front of a row.
    fn leave(&mut self) -> io::Result<()>
        ensures { Falls T.view (Held T.view true) (Ended T.view) (λ s. s) self.old self.new result }
    {
        if self.column == 0 && self.row.is_none() {
            return self.rest();
        }
        self.go_to_edge()?;
        self.place = Phase::Waiting;
        Ok(())
    }

    /// Lets the cursor rest at the front of its row.
    fn rest(&mut self) -> io::Result<()>
        ensures { self.old.column ≡ 0 → Falls T.view (Held T.view true) (Ended T.view) (λ s. s) self.old self.new result }
    {
        if self.place == Phase::Edge {
            self.send("\r")?;
        }
        self.place = Phase::Resting;
        Ok(())
    }

    /// Goes to the right edge of the last of all rows, after a blank there.
    fn go_to_edge(&mut self) -> io::Result<()>
        ensures { Falls T.view (Held T.view true) (Meets T.view true false) (λ s. s) self.old self.new result }
    {
        self.go_down(self.below())?;
        self.go_right(EDGE)?;
        self.send(" ")
    }

    /// Sends a text as it is to the terminal behind the ended rows.
    fn send(&mut self, text: &str) -> io::Result<()>
        ensures writes { Writes text.now (T.view self.old.term) (T.view self.new.term) result }
        ensures same { self.new ≡ record self.old { term = self.new.term; sent = self.new.sent } }
    {
        self.sent = self.sent.saturating_add(text.len());
        self.term.write_str(text)
    }

    /// Leaves the row, and goes up `n` rows; 0 is no move.
    fn go_up(&mut self, n: usize) -> io::Result<()>
        ensures { LeadsBoth T.view (Within T.view) (Within T.view) (rows_moved UP n) self.old self.new result }
    {
        if n == 0 {
            return Ok(());
        }
        self.leave_row()?;
        self.term.move_cursor_up(n)
    }

    /// Leaves the row, and goes down `n` rows; 0 is no move.
    fn go_down(&mut self, n: usize) -> io::Result<()>
        ensures { (wraps : Bool) → Falls T.view (Held T.view wraps) (Held T.view wraps) (rows_moved DOWN n) self.old self.new result }
    {
        if n == 0 {
            return Ok(());
        }
        self.leave_row()?;
        self.term.move_cursor_down(n)
    }

    /// Empties the row from the given columns on, if characters were written on it. A terminal that has no more columns empties its last
    /// one: characters that didn't fit were written there, one over the other.
    fn leave_row(&mut self) -> io::Result<()>
        ensures { (wraps : Bool) → Falls T.view (Held T.view wraps) (Held T.view wraps) (λ s. s) self.old self.new result }
    {
        if !self.written {
            return Ok(());
        }
        self.written = false;
        self.place = Phase::Edge;
        let told = self.term.width() as usize;
        self.send("\r")?;
        self.go_right(told)?;
        self.send("\u{1b}[K")
    }

    /// Goes right by `n` columns of the row.
    fn go_right(&mut self, n: usize) -> io::Result<()>
        ensures writes { Writes (move_bytes RIGHT n) (T.view self.old.term) (T.view self.new.term) result }
        ensures same { self.new ≡ record self.old { term = self.new.term } }
    {
        self.term.move_cursor_right(n)
    }

    /// Goes to a column of the row.
    fn go_to(&mut self, column: usize) -> io::Result<()>
        ensures { Falls T.view (WithinTo T.view column) (Within T.view) (at_column column) self.old self.new result }
    {
        self.go_to_front()?;
        self.column = column;
        self.go_right(column)
    }

    /// Goes to the front of the row by CR.
    fn go_to_front(&mut self) -> io::Result<()>
        ensures { Falls T.view (Within T.view) (Within T.view) (at_column 0) self.old self.new result }
    {
        self.is_at(0);
        self.send("\r")
    }

    /// Goes to the front of the next row by CR LF.
    fn go_to_next_row(&mut self) -> io::Result<()>
        ensures { Falls T.view (Within T.view) (Within T.view) next_front self.old self.new result }
    {
        self.leave_row()?;
        self.is_at(0);
        self.send("\r\n")
    }

    /// Empties the row on the terminal behind the ended rows, and goes to its front.
    fn empty_row(&mut self) -> io::Result<()>
        ensures { Falls T.view (Within T.view) (Within T.view) front_emptied self.old self.new result }
    {
        self.is_at(0);
        self.term.clear_line()
    }

    /// Flushes the terminal behind the ended rows.
    fn hand_on(&mut self) -> io::Result<()>
        ensures writes { Writes [] (T.view self.old.term) (T.view self.new.term) result }
        ensures same { self.new ≡ record self.old { term = self.new.term } }
    {
        self.term.flush()
    }

    /// Goes back to the column at which the last draw ended, or from which the cursor left a row.
    fn leave_edge(&mut self) -> io::Result<()>
        ensures { Falls T.view (Within T.view) (Within T.view) (λ s. s) self.old self.new result }
    {
        if self.place != Phase::Edge {
            return Ok(());
        }
        self.go_to(self.column)
    }

    /// Writes a text piece by piece, wrapped into rows.
    fn put(&mut self, text: &str) -> io::Result<()>
        ensures { Falls T.view (WithinIf T.view (AreShown (visible (chars text.now)))) (Within T.view) (all_put (visible (chars text.now))) self.old self.new result }
    {
        let mut rest = pieces(text);
        'rest: while let Some(piece) = rest.next() {
            self.put_piece(piece)?;
        }
        Ok(())
    }

    /// Writes a colour sequence, a return to the front of the row, or a run of visible characters.
    fn put_piece(&mut self, piece: Piece<'_>) -> io::Result<()>
        ensures { Falls T.view (WithinIf T.view (AreShown (run_text (text_piece piece.entry)) × IsExact (text_piece piece.entry)))
            (Within T.view) (all_put (run_text (text_piece piece.entry))) self.old self.new result }
    {
        if piece.colour {
            return self.put_colour(piece.text);
        }
        if piece.text == "\r" {
            return self.go_to_front();
        }
        self.leave_edge()?;
        self.put_run(piece.text)
    }

    /// Puts a colour sequence, which needs no room in the row.
    fn put_colour(&mut self, text: &str) -> io::Result<()>
        ensures { Falls T.view (WithinIf T.view (IsExact (Colour (chars text.now)))) (Within T.view) (λ s. s) self.old self.new result }
    {
        self.send(text)
    }

    /// Writes visible characters, together if the row has room for all.
    fn put_run(&mut self, text: &str) -> io::Result<()>
        ensures { Falls T.view (WithinIf T.view (AreShown (chars text.now))) (Within T.view) (all_put (chars text.now)) self.old self.new result }
    {
        let wide = columns(text);
        if wide > self.room() {
            return self.put_chars(text);
        }
        self.written = true;
        self.column = self.column.saturating_add(wide);
        self.send(text)
    }

    /// Puts characters one by one, wrapped into rows.
    fn put_chars(&mut self, text: &str) -> io::Result<()>
        ensures { Falls T.view (WithinIf T.view (AreShown (chars text.now))) (Within T.view) (all_put (chars text.now)) self.old self.new result }
    {
        for c in text.chars() {
            self.put_char(c)?;
        }
        Ok(())
    }

    /// Writes a character, on the next row if this one has no room for it, and not at all if no row has.
    fn put_char(&mut self, c: char) -> io::Result<()>
        ensures { Falls T.view (WithinIf T.view (is_some (char_width false c) ≡ true)) (Within T.view) (performed (Put c)) self.old self.new result }
    {
        let wide = width(c);
        if wide > self.term.width() as usize {
            return Ok(());
        }
        self.make_room(wide)?;
        self.written = true;
        self.column = self.column.saturating_add(wide);
        let mut bytes = [0u8; 4];
        let text = c.encode_utf8(&mut bytes);
        self.send(text)
    }

    /// Ends the row and begins the next one, if this one hasn't `wide` columns left.
    fn make_room(&mut self, wide: usize) -> io::Result<()>
        ensures { Falls T.view (Within T.view) (WithinRoom T.view wide) (with_room wide) self.old self.new result }
    {
        if wide > self.room() {
            return self.go_to_next_row();
        }
        Ok(())
    }

    /// How many columns of the row are left for a text that is put.
    fn room(&self) -> usize
        ensures { result ≡ (T.view self.now.term).columns - self.now.column }
    {
        (self.term.width() as usize).saturating_sub(self.column)
    }

    /// Whether the cursor waits at the end of a full row.
    fn waits(&self) -> bool
        ensures { result ≡ nat_lt 0 self.now.column && nat_le (T.view self.now.term).columns self.now.column }
    {
        0 < self.column && self.term.width() as usize <= self.column
    }

    /// The column after a move to the right: at most the last one. A cursor that waits at the end of a full row stays.
    fn right_of(&self, n: usize) -> usize
        ensures { result ≡ right_column (T.view self.now.term).columns self.now.column n }
    {
        let last = (self.term.width() as usize).saturating_sub(1);
        if self.column > last {
            return self.column;
        }
        self.column.saturating_add(n).min(last)
    }
}

/// Its bytes can't be read.
impl<T: TermLike> TermLike for EndedRows<T> {
    ghost view = { λ own. quiet (T.view own.term) };

    fn width(&self) -> u16 {
        self.term.width()
    }

    fn height(&self) -> u16 {
        self.term.height()
    }

    fn faults(&self) -> u64 {
        self.term.faults()
    }

    fn move_cursor_up(&mut self, n: usize) -> io::Result<()>
        ensures writes { Writes (move_bytes UP n) (quiet (T.view self.old.term)) (quiet (T.view self.new.term)) result }
        ensures draws { Draws T.view (move_bytes UP n ∷ []) self.old self.new result }
    {
        self.begin()?;
        self.go_up(n)
    }

    fn move_cursor_down(&mut self, n: usize) -> io::Result<()>
        ensures writes { Writes (move_bytes DOWN n) (quiet (T.view self.old.term)) (quiet (T.view self.new.term)) result }
        ensures draws { Draws T.view (move_bytes DOWN n ∷ []) self.old self.new result }
    {
        self.begin()?;
        self.go_down(n)
    }

    fn move_cursor_right(&mut self, n: usize) -> io::Result<()>
        ensures writes { Writes (move_bytes RIGHT n) (quiet (T.view self.old.term)) (quiet (T.view self.new.term)) result }
        ensures draws { Draws T.view (move_bytes RIGHT n ∷ []) self.old self.new result }
    {
        self.begin()?;
        self.go_to(self.right_of(n))
    }

    fn move_cursor_left(&mut self, n: usize) -> io::Result<()>
        ensures writes { Writes (move_bytes LEFT n) (quiet (T.view self.old.term)) (quiet (T.view self.new.term)) result }
        ensures draws { Draws T.view (move_bytes LEFT n ∷ []) self.old self.new result }
    {
        self.begin()?;
        self.go_to(self.column.saturating_sub(n))
    }

    fn write_line(&mut self, s: &str) -> io::Result<()>
        ensures writes { Writes (line_bytes s.now) (quiet (T.view self.old.term)) (quiet (T.view self.new.term)) result }
        ensures draws { IsTrue (is_plain (chars s.now)) → Draws T.view (line_bytes s.now ∷ []) self.old self.new result }
    {
        self.begin()?;
        self.put(s)?;
        self.go_to_next_row()
    }

    fn write_str(&mut self, s: &str) -> io::Result<()>
        ensures writes { Writes s.now (quiet (T.view self.old.term)) (quiet (T.view self.new.term)) result }
        ensures draws { IsTrue (is_plain (chars s.now)) → Draws T.view (s.now ∷ []) self.old self.new result }
    {
        self.begin()?;
        self.put(s)
    }

    fn clear_line(&mut self) -> io::Result<()>
        ensures writes { Writes clear_bytes (quiet (T.view self.old.term)) (quiet (T.view self.new.term)) result }
        ensures draws { Draws T.view (clear_bytes ∷ []) self.old self.new result }
    {
        self.begin()?;
        self.empty_row()
    }

    fn flush(&mut self) -> io::Result<()>
        ensures writes { Writes [] (quiet (T.view self.old.term)) (quiet (T.view self.new.term)) result }
        ensures draws { Draws T.view ([] ∷ []) self.old self.new result }
    {
        self.end()?;
        self.hand_on()
    }
}

impl<T: Resize> Resize for EndedRows<T> {
    ghost takes_memory = { T.takes_memory };

    fn resize(&mut self, rows: u16, cols: u16) -> Result<(), Refusal>
        ensures resized { OnOk result (Resized cols rows (quiet (T.view self.old.term)) (quiet (T.view self.new.term))) }
        ensures together { OnOk result (SizeKeeps T.view cols self.old self.new) }
        ensures unchanged { OnErr result (self.new ≡ self.old) }
        ensures zero_size { (result ≡ Err Refusal.ZeroSize) ↔ ((rows ≡ 0) ⊎ (cols ≡ 0)) }
        ensures no_other { IfErr result (λ e. (e ≡ Refusal.ZeroSize) ⊎ (e ≡ Refusal.Memory)) }
        ensures memory { result ≡ Err Refusal.Memory → IsFalse (has_size cols rows (quiet (T.view self.old.term))) }
        ensures takes { result ≡ Err Refusal.Memory → IsTrue T.takes_memory }
    {
        let waits = self.waits();
        self.term.resize(rows, cols)?;
        let columns = cols as usize;
        self.column = if waits {
            columns
        } else {
            self.column.min(columns)
        };
        Ok(())
    }
}
