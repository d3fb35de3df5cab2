//! The cell terminal: a machine over bytes.
ghost use Rattle.std.specs.Prelude.{◌≡◌, ◌∷◌, [], ◌⊎◌, ◌↔◌, ◌-◌, ◌<◌, ◌≤◌, ◌==◌, ◌&&◌, take, drop, map, length, Err, IfOk, IfErr, IsTrue, IsFalse, OnOk, OnErr, string_bytes};
ghost use Rattle.indicatif_term.specs.Screen.{top};
ghost use Rattle.indicatif_term.specs.Terminal.{after, blank_terminal, idle};
ghost use Rattle.indicatif_term.specs.Inside.Scanners.{byte_ops, IsWholeChar, IsWholeSequence};
ghost use Rattle.indicatif_term.specs.Feeding.{first_takes_memory, feeding_takes_memory};
ghost use Rattle.indicatif_term.specs.Pictures.{contents_text, has_contents, picture_text};
ghost use Rattle.indicatif_term.specs.Resizes.{resized_terminal};

use crate::cells::grid::Grid;
use crate::cells::run::{NarrowRun, printable_len, repeats_of_three};
use crate::cells::scanner::{Scanner, WholeSequence};
use crate::cells::whole_char::{WholeChar, whole_char_of};
use indicatif_text::columns::Refusal;
use std::alloc::Global;
use std::fmt::{self, Debug, Formatter};
use std::marker::Model;

/// A terminal of cells, which reads bytes: UTF-8 first, escape sequences (ECMA-48) next. Unknown sequences and invalid bytes change
/// nothing. Contracts see its screen, and what it has read of a character and of a sequence.
///
/// ```
/// let mut cells = Cells::new(rt.alloc(), 2, 4)?;
/// cells.feed(b"ab\r\ncd\x1B[1A!")?;
/// // contents: "ab!\ncd", cursor: (0, 3)
/// ```
///
/// Its memory grows with what is written: each row keeps its cells up to the last one that was written. Rows that scroll away are kept too.
#[derive(Drop)]
pub struct Cells {
    grid: Grid,
    scanner: Scanner,
}

/// Shows the cursor.
impl Debug for Cells {
    fn fmt<W: fmt::Write>(&self, f: &mut Formatter<W>) -> fmt::Result {
        f.debug_struct("Cells")
            .field("cursor", &self.cursor())
            .finish_non_exhaustive()
    }
}

impl Model for Cells {
    ghost use Rattle.indicatif_term.specs.Terminal.{Terminal};

    ghost Value = { Terminal };

    ghost view = { λ c. record { screen = c.grid; reader = c.scanner } };
}

impl Cells {
    /// The cells of a terminal of `rows` rows and `cols` columns, all blank, the cursor at the front of the first row.
    ///
    /// Refused: `ZeroSize` if `rows` or `cols` is 0, which is tested before memory is taken; `Memory`.
    ///
    /// ```
    /// let cells = Cells::new(rt.alloc(), 65535, 65535)?;
    /// // contents: "", cursor: (0, 0)
    /// ```
    pub fn new(alloc: Global, rows: u16, cols: u16) -> Result<Self, Refusal>
        ensures blank { IfOk result (λ c. c ≡ blank_terminal rows cols) }
        ensures zero_size { (result ≡ Err Refusal.ZeroSize) ↔ ((rows ≡ 0) ⊎ (cols ≡ 0)) }
        ensures no_other { IfErr result (λ e. (e ≡ Refusal.ZeroSize) ⊎ (e ≡ Refusal.Memory)) }
    {
        if rows == 0 || cols == 0 {
            return Err(Refusal::ZeroSize);
        }
        let grid = Grid::new(alloc, rows, cols)?;
        Ok(Cells {
            grid,
            scanner: Scanner::new(),
        })
    }

    /// Reads these bytes. However the bytes are cut into calls, the cells are the same.
    ///
    /// ```
    /// cells.feed(b"\xE5\x9B")?;
    /// cells.feed(b"\xBD")?;
    /// // contents: "\u{56FD}", of two columns: cursor (0, 2)
    /// ```
    ///
    /// Refused: `Memory`, with the number of bytes that were read; the terminal is the one after these. It comes only if the rest of the
    /// bytes begins with a character, or feeds a line on the last row.
    pub fn feed(&mut self, bytes: &[u8]) -> Result<(), (usize, Refusal)>
        ensures fed { OnOk result (self.new ≡ after self.old bytes.now) }
        ensures stopped { IfErr result (λ e. self.new ≡ after self.old (take e.0 bytes.now)) }
        ensures within { IfErr result (λ e. e.0 < length bytes.now) }
        ensures refused { IfErr result (λ e. e.1 ≡ Refusal.Memory) }
        ensures memory { IfErr result (λ e. IsTrue (feeding_takes_memory self.new (drop e.0 bytes.now))) }
    {
        let mut read = 0;
        while read < bytes.len() {
            match self.feed_front(&bytes[read..]) {
                Ok(taken) => read += taken,
                Err(refusal) => return Err((read, refusal)),
            }
        }
        Ok(())
    }

    /// Feeds a character or a byte, and returns its number of bytes. Refused: `Memory`; then nothing has changed.
    fn feed_front(&mut self, bytes: &[u8]) -> Result<usize, Refusal>
        requires { 0 < length bytes.now }
        ensures fed { IfOk result (λ n. self.new ≡ after self.old (take n bytes.now)) }
        ensures some { IfOk result (λ n. 0 < n) }
        ensures within { IfOk result (λ n. n ≤ length bytes.now) }
        ensures err { OnErr result (self.new ≡ self.old) }
        ensures memory { OnErr result (IsTrue (feeding_takes_memory self.old bytes.now)) }
        ensures refused { IfErr result (λ e. e ≡ Refusal.Memory) }
    {
        if self.scanner.is_idle() {
            return self.feed_idle(bytes);
        }
        self.feed_byte(bytes[0])?;
        Ok(1)
    }

    /// Feeds characters, a sequence or a byte, between two characters and outside a sequence.
    fn feed_idle(&mut self, bytes: &[u8]) -> Result<usize, Refusal>
        requires some { 0 < length bytes.now }
        requires idle { self.old.reader ≡ idle }
        ensures fed { IfOk result (λ n. self.new ≡ after self.old (take n bytes.now)) }
        ensures some { IfOk result (λ n. 0 < n) }
        ensures within { IfOk result (λ n. n ≤ length bytes.now) }
        ensures err { OnErr result (self.new ≡ self.old) }
        ensures memory { OnErr result (IsTrue (feeding_takes_memory self.old bytes.now)) }
        ensures refused { IfErr result (λ e. e ≡ Refusal.Memory) }
    {
        let ascii = printable_len(bytes, self.grid.room());
        if ascii > 0 {
            let put = self.grid.put_run(NarrowRun::Ascii(&bytes[..ascii]))?;
            return Ok(put);
        }
        if let Some(whole) = whole_char_of(bytes) {
            return self.feed_whole(bytes, whole);
        }
        if let Some(sequence) = WholeSequence::of(bytes) {
            return self.feed_sequence(bytes, sequence);
        }
        self.feed_byte(bytes[0])?;
        Ok(1)
    }

    /// Feeds a character at the front, as often as it is repeated there and fits into the row.
    fn feed_whole(&mut self, bytes: &[u8], whole: WholeChar) -> Result<usize, Refusal>
        requires whole { IsWholeChar bytes.now whole.character whole.len }
        requires idle { self.old.reader ≡ idle }
        ensures fed { IfOk result (λ n. self.new ≡ after self.old (take n bytes.now)) }
        ensures some { IfOk result (λ n. 0 < n) }
        ensures within { IfOk result (λ n. n ≤ length bytes.now) }
        ensures err { OnErr result (self.new ≡ self.old) }
        ensures memory { OnErr result (IsTrue (feeding_takes_memory self.old bytes.now)) }
        ensures refused { IfErr result (λ e. e ≡ Refusal.Memory) }
    {
        let room = self.grid.room_for(whole.character);
        if whole.len != 3 || room == 0 {
            self.grid.put(whole.character)?;
            return Ok(whole.len);
        }
        let count = repeats_of_three(bytes, room);
        let character = whole.character;
        let put = self.grid.put_run(NarrowRun::Repeated(character, count))?;
        Ok(3 * put)
    }

    /// Feeds an escape sequence at the front.
    fn feed_sequence(&mut self, bytes: &[u8], sequence: WholeSequence) -> Result<usize, Refusal>
        requires whole { IsWholeSequence bytes.now sequence.number sequence.last sequence.len }
        requires idle { self.old.reader ≡ idle }
        ensures fed { IfOk result (λ n. self.new ≡ after self.old (take n bytes.now)) }
        ensures some { IfOk result (λ n. 0 < n) }
        ensures within { IfOk result (λ n. n ≤ length bytes.now) }
        ensures err { OnErr result (self.new ≡ self.old) }
        ensures memory { OnErr result (IsTrue (feeding_takes_memory self.old bytes.now)) }
        ensures refused { IfErr result (λ e. e ≡ Refusal.Memory) }
    {
        match sequence.op() {
            None => Ok(sequence.len),
            Some(op) => {
                self.grid.perform(op)?;
                Ok(sequence.len)
            }
        }
    }

    /// Feeds a byte. Refused: `Memory`; then nothing has changed.
    fn feed_byte(&mut self, byte: u8) -> Result<(), Refusal>
        ensures fed { OnOk result (self.new ≡ after self.old (byte ∷ [])) }
        ensures err { OnErr result (self.new ≡ self.old) }
        ensures memory { OnErr result (IsTrue (first_takes_memory (byte_ops self.old.reader byte) self.old.screen)) }
        ensures refused { IfErr result (λ e. e ≡ Refusal.Memory) }
    {
        let reading = self.scanner.read(byte);
        match reading.op {
            Some(op) => self.grid.perform(op)?,
            None => {}
        }
        self.scanner = reading.next;
        Ok(())
    }

    /// The cells' cursor: its row, counted from the first of the window, and its column. At the end of a full row the column is the one
    /// after the last.
    ///
    /// ```
    /// let mut cells = Cells::new(rt.alloc(), 2, 2)?;
    /// cells.feed(b"ab")?;
    /// // cursor: (0, 2)
    /// ```
    pub fn cursor(&self) -> (u16, u16)
        ensures row { result.0 ≡ self.now.screen.row - top self.now.screen }
        ensures column { result.1 ≡ self.now.screen.column }
    {
        self.grid.cursor()
    }

    /// The rows of the cells that scrolled away, then those of their window, each as text without the blanks at its end: empty cells and
    /// spaces. Refused: `Memory`.
    ///
    /// ```
    /// let mut cells = Cells::new(rt.alloc(), 1, 3)?;
    /// cells.feed(b"a\r\nb ")?;
    /// // picture: ["a", "b"]
    /// ```
    pub fn picture(&self) -> Result<Vec<String>, Refusal>
        ensures picture { IfOk result (λ v. map (λ t. string_bytes t) v.items ≡ picture_text self.now.screen) }
        ensures refused { IfErr result (λ e. e ≡ Refusal.Memory) }
    {
        self.grid.picture()
    }

    /// The rows of the cells' window as text, up to the last one with a written cell, each without the blanks at its end, joined by line
    /// feeds. Refused: `Memory`, never if the window has no written cell.
    ///
    /// ```
    /// let mut cells = Cells::new(rt.alloc(), 3, 3)?;
    /// cells.feed(b"a \r\n ")?;
    /// // contents: "a\n": the second row has a written space, the third nothing
    /// ```
    pub fn contents(&self) -> Result<String, Refusal>
        ensures contents { IfOk result (λ t. string_bytes t ≡ contents_text self.now.screen) }
        ensures refused { IfErr result (λ e. (e ≡ Refusal.Memory) × IsTrue (has_contents self.now.screen)) }
    {
        self.grid.contents()
    }

    /// Sets the size to `rows` rows and `cols` columns. Each row, without the blanks at its end, is wrapped at the new width; rows aren't
    /// joined. Its own size changes nothing.
    ///
    /// ```
    /// let mut cells = Cells::new(rt.alloc(), 4, 10)?;
    /// cells.feed(b"progress b\r\nars")?;
    /// cells.resize(4, 5)?;
    /// // contents: "progr\ness b\nars", cursor: (2, 3)
    /// cells.resize(4, 20)?;
    /// // contents: "progr\ness b\nars" still: no row is joined to another
    /// ```
    ///
    /// Blank rows at the end, below the cursor's row, are dropped. The window is then the last `rows` rows, and those above it have
    /// scrolled away. The cursor goes to the first row that its row became, and keeps its column, which is at most `cols`; a cursor that
    /// waits at a row's end waits at the end of the last. Above the window it goes to the window's first row. A character wider than `cols`
    /// is left out.
    ///
    /// Refused: `ZeroSize` if `rows` or `cols` is 0, which is tested before memory is taken; `Memory`, which is taken for all rows,
    /// including those that scrolled away, before anything changes, and not for its own size.
    pub fn resize(&mut self, rows: u16, cols: u16) -> Result<(), Refusal>
        ensures resized { OnOk result (self.new ≡ resized_terminal cols rows self.old) }
        ensures unchanged { OnErr result (self.new ≡ self.old) }
        ensures zero_size { (result ≡ Err Refusal.ZeroSize) ↔ ((rows ≡ 0) ⊎ (cols ≡ 0)) }
        ensures no_other { IfErr result (λ e. (e ≡ Refusal.ZeroSize) ⊎ (e ≡ Refusal.Memory)) }
        ensures memory { result ≡ Err Refusal.Memory →
            IsFalse ((self.old.screen.columns == cols) && (self.old.screen.height == rows)) }
    {
        if cols == 0 || rows == 0 {
            return Err(Refusal::ZeroSize);
        }
        self.grid.resize(rows, cols)
    }

    /// Resets the cells to those of a new terminal, without taking memory.
    pub(crate) fn reset(&mut self)
        ensures { self.new ≡ blank_terminal self.old.screen.height self.old.screen.columns }
    {
        self.grid.reset();
        self.scanner = Scanner::new();
    }

    /// How many columns the cells' terminal has.
    pub(crate) fn columns(&self) -> u16
        ensures { result ≡ self.now.screen.columns }
    {
        self.grid.columns()
    }

    /// How many rows the cells' window has.
    pub(crate) fn height(&self) -> u16
        ensures { result ≡ self.now.screen.height }
    {
        self.grid.height()
    }
}
