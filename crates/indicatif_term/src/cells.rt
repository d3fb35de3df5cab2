//! A terminal in memory: the cells after its bytes.
//!
//! `InMemoryTerm`, this terminal as a bar's target, is here: its calls are played and kept as text, its cursor and its picture read. The
//! modules below are private:
//!
//! - `call_log`: the calls of an `InMemoryTerm` as lines of text, with what they write between quotation marks, escaped.
//! - `feeding`: `Cells`, the terminal alone, fed with bytes: by a byte, a character or a sequence; its cursor, picture and size.
//! - `whole_char`: `WholeChar`, a printable character of one byte or three at the front of bytes.
//! - `scanner`: which operation does a byte or an escape sequence have? `Scanner` and `ScanState` are between bytes and characters,
//!   `WholeSequence` is a sequence with its number, read at once.
//! - `spelling`: `Spelling`, at most four bytes of a character that isn't complete.
//! - `grid`: `Grid`, the rows and the cursor: what each operation (`Op`) does to them, how a character is put at the cursor, in this row or
//!   the next, and the rows as texts. In its folder `resizing`: another size.
//! - `row`: `Row`, a row of cells: what is written into it at a column, which wide characters that empties, and its text without the blanks
//!   at its end.
//! - `run`: `NarrowRun`, characters of one column that are written into a row together: printable ASCII, or one character repeated.
//! - `cell`: `Cell`: is it empty, blank, written, or a further cell of a wide character?
//! - `joiners`: `Joiner`, a zero-width character in the one list of a row: it is stored, and those of a character are found by the last
//!   one's place.
//! - `glyph`: `Glyph`, a character with its joiners, read from a row.
//! - `known_width`: `KnownWidth`, the columns of a character, remembered while it is repeated.
ghost use Rattle.std.specs.Prelude.{◌≡◌, true, ◌-◌, ◌++◌, ◌==◌, ◌⊎◌, ◌↔◌, [], if◌then◌else◌, map, codes, Err, IfOk, IsOk, IsOkAnd, IfErr, IsTrue, IsFalse, OnOk, OnErr, string_bytes};
ghost use Rattle.std.specs.IoError.{error_kind};
ghost use Rattle.indicatif_term.specs.Screen.{top};
ghost use Rattle.indicatif_term.specs.Terminal.{after, blank_terminal};
ghost use Rattle.indicatif_term.specs.Pictures.{contents_text, has_contents, picture_text};
ghost use Rattle.indicatif_term.specs.Calls.{Writes, move_bytes, line_bytes, clear_bytes, UP, DOWN, RIGHT, LEFT};
ghost use Rattle.indicatif_term.specs.Resizes.{Resized, has_size, resized_terminal};
ghost use Rattle.indicatif_term.specs.Cells.{view_of, Records, move_text, written_text};
ghost use Rattle.indicatif_term.specs.Inside.Feeding.{ReadsBeginning};

mod call_log;
mod cell;
mod feeding;
mod glyph;
mod grid;
mod joiners;
mod known_width;
mod row;
mod run;
mod scanner;
mod spelling;
mod whole_char;

use crate::cells::call_log::{ended_line, move_line, own_line, text_line};
use crate::target::move_bytes::MoveBytes;
use crate::target::term_like::{Resize, TermLike};
pub use feeding::Cells;
use indicatif_text::columns::Refusal;
use std::alloc::Global;
use std::io::ErrorKind;
use std::marker::Model;
use std::{io, mem};

/// A terminal in memory, on which bars can draw. Its state can be read, and it keeps its calls as text. Rows that scroll away are kept.
///
/// ```
/// let mut term = InMemoryTerm::new(rt.alloc(), 3, 10)?;
/// term.write_line("one")?;
/// term.write_str("two ")?;
/// // contents: "one\ntwo", cursor: (1, 4), picture: ["one", "two", ""]
/// // moves_since_last_check: "Str(\"one\")\nNewLine\nStr(\"two \")\n"
/// ```
///
/// It takes memory for the cells of a row up to the last one that was written, and some 60 bytes for each row: a terminal of 65,535 rows
/// and columns is made at once and takes 4 MB.
///
/// A call that gets no memory fails with an error of kind `OutOfMemory`, counts it in `faults`, and has read a prefix of its bytes. The
/// memory for the text of a call is taken before the cells change, so a call that fails leaves the text unchanged, or with this call at its
/// end.
///
/// That text grows with all that is written, until `moves_since_last_check` returns it or `reset` empties it.
#[derive(Debug)]
pub struct InMemoryTerm {
    alloc: Global,
    cells: Cells,
    faults: u64,
    moves: String,
}

impl Drop for InMemoryTerm {
    fn drop(self) {
        let InMemoryTerm {
            alloc: _,
            cells: _,
            faults: _,
            moves: _,
        } = self;
    }
}

impl Model for InMemoryTerm {
    ghost use Rattle.indicatif_term.specs.Cells.{MemoryTerm};

    ghost Value = { MemoryTerm };

    ghost use Rattle.std.specs.Prelude.{string_bytes};

    ghost view = { λ t. record { terminal = t.cells; faults = t.faults; moves = string_bytes t.moves } };
}

impl InMemoryTerm {
    /// A terminal of `rows` rows and `cols` columns, all blank, the cursor at the front of the first row, no faults and
    /// no calls.
    ///
    /// Refused: `ZeroSize` if `rows` or `cols` is 0; `Memory`. Nothing is made.
    ///
    /// ```
    /// let term = InMemoryTerm::new(rt.alloc(), 24, 80)?;
    /// // contents: "", cursor: (0, 0); with 0 in the place of 24 or 80: Err(ZeroSize)
    /// ```
    pub fn new(alloc: Global, rows: u16, cols: u16) -> Result<Self, Refusal>
        ensures blank { IfOk result (λ t. t ≡ record { terminal = blank_terminal rows cols; faults = 0; moves = [] }) }
        ensures zero_size { (result ≡ Err Refusal.ZeroSize) ↔ ((rows ≡ 0) ⊎ (cols ≡ 0)) }
        ensures no_other { IfErr result (λ e. (e ≡ Refusal.ZeroSize) ⊎ (e ≡ Refusal.Memory)) }
    {
        let cells = Cells::new(alloc, rows, cols)?;
        Ok(InMemoryTerm {
            alloc,
            cells,
            faults: 0,
            moves: String::new(alloc),
        })
    }

    /// Resets it to a new terminal, except `faults`. Takes no memory.
    ///
    /// ```
    /// term.write_str("abc")?;
    /// term.reset();
    /// // contents: "", cursor: (0, 0), moves_since_last_check: ""
    /// ```
    pub fn reset(&mut self)
        ensures terminal { self.new.terminal
            ≡ blank_terminal self.old.terminal.screen.height self.old.terminal.screen.columns }
        ensures faults { self.new.faults ≡ self.old.faults }
        ensures moves { self.new.moves ≡ [] }
    {
        self.cells.reset();
        self.moves.clear();
    }

    /// The window's rows as text, up to the last one with a written cell, each without the blanks at its end (empty cells and spaces),
    /// joined by line feeds. A space that was written is a written cell. Refused: `Memory`, never if the window has no written cell.
    ///
    /// It doesn't show which of a row's last cells are empty and which are spaces, how many rows without a written cell follow, what
    /// scrolled away, the cursor, or colours: a terminal in memory has none, and the characters of a colour sequence are shown nowhere.
    ///
    /// ```
    /// term.write_str("a  \r\n\r\n ")?;
    /// // contents: "a\n\n", since a space was written into the third row
    /// ```
    pub fn contents(&self) -> Result<String, Refusal>
        ensures contents { IfOk result (λ t. string_bytes t ≡ contents_text self.now.terminal.screen) }
        ensures refused { IfErr result (λ e. (e ≡ Refusal.Memory) × IsTrue (has_contents self.now.terminal.screen)) }
    {
        self.cells.contents()
    }

    /// The cursor's row, counted from the first of the window, and its column. At the end of a full row the column is the one after the
    /// last.
    ///
    /// ```
    /// let mut term = InMemoryTerm::new(rt.alloc(), 2, 2)?;
    /// term.write_str("ab")?;
    /// // cursor: (0, 2); after one more "c" (1, 1)
    /// ```
    pub fn cursor(&self) -> (u16, u16)
        ensures row { result.0 ≡ self.now.terminal.screen.row - top self.now.terminal.screen }
        ensures column { result.1 ≡ self.now.terminal.screen.column }
    {
        self.cells.cursor()
    }

    /// The rows that scrolled away, then those of the window, each as text without the blanks at its end: empty cells
    /// and spaces. Refused: `Memory`.
    ///
    /// ```
    /// let mut term = InMemoryTerm::new(rt.alloc(), 2, 3)?;
    /// term.write_str("a\r\nb\r\nc")?;
    /// // picture: ["a", "b", "c"], contents: "b\nc"
    /// ```
    pub fn picture(&self) -> Result<Vec<String>, Refusal>
        ensures picture { IfOk result (λ v.
            map (λ t. string_bytes t) v.items ≡ picture_text self.now.terminal.screen) }
        ensures refused { IfErr result (λ e. e ≡ Refusal.Memory) }
    {
        self.cells.picture()
    }

    /// The calls kept since the last check, one a line: `Up(n)`, `Down(n)`, `Left(n)`, `Right(n)`, `Str("..")`, `NewLine`, `Clear`,
    /// `Flush`. `write_line` is `Str` and `NewLine`; a move by 0 isn't listed. Quotation joiners, backslashes and ASCII control characters
    /// of a text are escaped as by Rust's `{:?}`. Takes no memory.
    ///
    /// ```
    /// term.move_cursor_up(2)?;
    /// term.write_line("a\tb")?;
    /// // moves_since_last_check: "Up(2)\nStr(\"a\\tb\")\nNewLine\n", and right after it ""
    /// ```
    pub fn moves_since_last_check(&mut self) -> String
        ensures moves { string_bytes result ≡ self.old.moves }
        ensures after { self.new ≡ record self.old { moves = [] } }
    {
        mem::replace(&mut self.moves, String::new(self.alloc))
    }

    /// Keeps the text of a call, then reads its bytes: `bytes` and `end`.
    fn play(&mut self, line: Result<String, Refusal>, bytes: &[u8], end: &[u8]) -> io::Result<()>
        ensures writes { Writes (bytes.now ++ end.now) (view_of self.old) (view_of self.new) result }
        ensures recorded { OnOk result (IsOkAnd line (λ t. self.new.moves ≡ self.old.moves ++ string_bytes t)) }
        ensures left { OnErr result ((self.new.moves ≡ self.old.moves)
            ⊎ IsOkAnd line (λ t. self.new.moves ≡ self.old.moves ++ string_bytes t)) }
        ensures kind { IfErr result (λ e. error_kind e ≡ ErrorKind.OutOfMemory) }
    {
        match self.try_play(line, bytes, end) {
            Ok(()) => Ok(()),
            Err(_) => {
                self.faults = self.faults.wrapping_add(1);
                Err(io::Error::from(ErrorKind::OutOfMemory))
            }
        }
    }

    /// Plays a call as `play`, without the count of faults.
    fn try_play(
        &mut self,
        line: Result<String, Refusal>,
        bytes: &[u8],
        end: &[u8],
    ) -> Result<(), Refusal>
        ensures read { OnOk result (self.new.terminal ≡ after self.old.terminal (bytes.now ++ end.now)) }
        ensures stopped { OnErr result (ReadsBeginning (bytes.now ++ end.now) self.old.terminal self.new.terminal) }
        ensures faults { self.new.faults ≡ self.old.faults }
        ensures recorded { OnOk result (IsOkAnd line (λ t. self.new.moves ≡ self.old.moves ++ string_bytes t)) }
        ensures left { OnErr result ((self.new.moves ≡ self.old.moves)
            ⊎ IsOkAnd line (λ t. self.new.moves ≡ self.old.moves ++ string_bytes t)) }
    {
        let line = line?;
        self.moves.push_str(&line)?;
        self.read(bytes)?;
        self.read(end)
    }

    /// Reads bytes into the cells; a refusal doesn't say how many were read.
    fn read(&mut self, bytes: &[u8]) -> Result<(), Refusal>
        ensures read { OnOk result (self.new.terminal ≡ after self.old.terminal bytes.now) }
        ensures stopped { OnErr result (ReadsBeginning bytes.now self.old.terminal self.new.terminal) }
        ensures faults { self.new.faults ≡ self.old.faults }
        ensures moves { self.new.moves ≡ self.old.moves }
    {
        if let Err((_, refusal)) = self.cells.feed(bytes) {
            return Err(refusal);
        }
        Ok(())
    }
}

impl TermLike for InMemoryTerm {
    ghost view = { view_of };

    fn width(&self) -> u16 {
        self.cells.columns()
    }

    fn height(&self) -> u16 {
        self.cells.height()
    }

    fn faults(&self) -> u64 {
        self.faults
    }

    fn move_cursor_up(&mut self, n: usize) -> io::Result<()>
        ensures by_none { n ≡ 0 → IsOk result }
        ensures writes { Writes (move_bytes UP n) (view_of self.old) (view_of self.new) result }
        ensures kind { IfErr result (λ e. error_kind e ≡ ErrorKind.OutOfMemory) }
        ensures recorded { Records (if n == 0 then [] else move_text (codes "Up") n) self.old self.new result }
    {
        if n == 0 {
            return Ok(());
        }
        let line = move_line(self.alloc, "Up", n);
        self.play(line, MoveBytes::new(b'A', n).as_slice(), b"")
    }

    fn move_cursor_down(&mut self, n: usize) -> io::Result<()>
        ensures by_none { n ≡ 0 → IsOk result }
        ensures writes { Writes (move_bytes DOWN n) (view_of self.old) (view_of self.new) result }
        ensures kind { IfErr result (λ e. error_kind e ≡ ErrorKind.OutOfMemory) }
        ensures recorded { Records (if n == 0 then [] else move_text (codes "Down") n) self.old self.new result }
    {
        if n == 0 {
            return Ok(());
        }
        let line = move_line(self.alloc, "Down", n);
        self.play(line, MoveBytes::new(b'B', n).as_slice(), b"")
    }

    fn move_cursor_right(&mut self, n: usize) -> io::Result<()>
        ensures by_none { n ≡ 0 → IsOk result }
        ensures writes { Writes (move_bytes RIGHT n) (view_of self.old) (view_of self.new) result }
        ensures kind { IfErr result (λ e. error_kind e ≡ ErrorKind.OutOfMemory) }
        ensures recorded { Records (if n == 0 then [] else move_text (codes "Right") n) self.old self.new result }
    {
        if n == 0 {
            return Ok(());
        }
        let line = move_line(self.alloc, "Right", n);
        self.play(line, MoveBytes::new(b'C', n).as_slice(), b"")
    }

    fn move_cursor_left(&mut self, n: usize) -> io::Result<()>
        ensures by_none { n ≡ 0 → IsOk result }
        ensures writes { Writes (move_bytes LEFT n) (view_of self.old) (view_of self.new) result }
        ensures kind { IfErr result (λ e. error_kind e ≡ ErrorKind.OutOfMemory) }
        ensures recorded { Records (if n == 0 then [] else move_text (codes "Left") n) self.old self.new result }
    {
        if n == 0 {
            return Ok(());
        }
        let line = move_line(self.alloc, "Left", n);
        self.play(line, MoveBytes::new(b'D', n).as_slice(), b"")
    }

    fn write_line(&mut self, s: &str) -> io::Result<()>
        ensures writes { Writes (line_bytes s.now) (view_of self.old) (view_of self.new) result }
        ensures kind { IfErr result (λ e. error_kind e ≡ ErrorKind.OutOfMemory) }
        ensures recorded { Records (written_text s.now ++ codes "NewLine\n") self.old self.new result }
    {
        let line = ended_line(self.alloc, s);
        self.play(line, s.as_bytes(), b"\r\n")
    }

    fn write_str(&mut self, s: &str) -> io::Result<()>
        ensures writes { Writes s.now (view_of self.old) (view_of self.new) result }
        ensures kind { IfErr result (λ e. error_kind e ≡ ErrorKind.OutOfMemory) }
        ensures recorded { Records (written_text s.now) self.old self.new result }
    {
        let line = text_line(self.alloc, s);
        self.play(line, s.as_bytes(), b"")
    }

    fn clear_line(&mut self) -> io::Result<()>
        ensures writes { Writes clear_bytes (view_of self.old) (view_of self.new) result }
        ensures kind { IfErr result (λ e. error_kind e ≡ ErrorKind.OutOfMemory) }
        ensures recorded { Records (codes "Clear\n") self.old self.new result }
    {
        let line = own_line(self.alloc, "Clear\n");
        self.play(line, b"\r\x1B[2K", b"")
    }

    fn flush(&mut self) -> io::Result<()>
        ensures writes { Writes [] (view_of self.old) (view_of self.new) result }
        ensures kind { IfErr result (λ e. error_kind e ≡ ErrorKind.OutOfMemory) }
        ensures recorded { Records (codes "Flush\n") self.old self.new result }
    {
        let line = own_line(self.alloc, "Flush\n");
        self.play(line, b"", b"")
    }
}

/// Each other size takes memory for all its rows, even if they are blank.
impl Resize for InMemoryTerm {
    ghost takes_memory = { true };

    fn resize(&mut self, rows: u16, cols: u16) -> Result<(), Refusal>
        ensures resized { OnOk result (Resized cols rows (view_of self.old) (view_of self.new)) }
        ensures unchanged { OnErr result (self.new ≡ self.old) }
        ensures zero_size { (result ≡ Err Refusal.ZeroSize) ↔ ((rows ≡ 0) ⊎ (cols ≡ 0)) }
        ensures no_other { IfErr result (λ e. (e ≡ Refusal.ZeroSize) ⊎ (e ≡ Refusal.Memory)) }
        ensures memory { result ≡ Err Refusal.Memory → IsFalse (has_size cols rows (view_of self.old)) }
        ensures alone { OnOk result (self.new
            ≡ record self.old { terminal = resized_terminal cols rows self.old.terminal }) }
    {
        self.cells.resize(rows, cols)
    }
}
