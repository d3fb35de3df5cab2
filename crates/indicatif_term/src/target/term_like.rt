//! What a terminal has to offer: its size, its faults, and eight calls, each with the bytes that it writes. And changes of its size.
ghost use Rattle.std.specs.Prelude.{◌≡◌, ◌^◌, ◌<◌, ◌⊎◌, ◌↔◌, [], Bool, Err, IfErr, IsTrue, IsFalse, OnOk, OnErr};
ghost use Rattle.indicatif_term.specs.Calls.{TermView, Writes, move_bytes, line_bytes, clear_bytes, UP, DOWN, RIGHT, LEFT};
ghost use Rattle.indicatif_term.specs.Resizes.{Resized, has_size};

use indicatif_text::columns::Refusal;
use std::io;

/// A terminal that bars can draw on.
///
/// Each call that returns an `io::Result` writes the ECMA-48 bytes that are given with it. A call that succeeds leads the terminal on by
/// exactly these bytes and changes nothing else, not even the size. A call that fails has written a prefix of them, and adds 1 modulo 2^64
/// to `faults`; no other call changes it. Contracts see the kind of the last failure, so a draw that fails returns the kind of the call
/// that failed. Nothing is stated about the bytes of a terminal that can't be read.
///
/// ```
/// term.write_line("ab")?;
/// term.move_cursor_up(1)?;
/// term.clear_line()?; // the row of `ab` is empty again
/// ```
pub trait TermLike {
    /// What contracts see of it: what can be read of it, its size, how often a call has failed, and the kind of the last failure.
    ghost view: { Self → TermView };

    /// How many columns the terminal has.
    fn width(&self) -> u16
        ensures { result ≡ (view self.now).columns };

    /// How many rows the terminal has.
    fn height(&self) -> u16
        ensures { result ≡ (view self.now).rows };

    /// How often a call has failed, modulo 2^64.
    fn faults(&self) -> u64
        ensures { result ≡ (view self.now).faults };

    /// Moves the cursor up `n` rows: ESC `[` n `A`, and nothing if `n` is 0.
    fn move_cursor_up(&mut self, n: usize) -> io::Result<()>
        ensures { Writes (move_bytes UP n) (view self.old) (view self.new) result };

    /// Moves the cursor down `n` rows: ESC `[` n `B`, and nothing if `n` is 0.
    fn move_cursor_down(&mut self, n: usize) -> io::Result<()>
        ensures { Writes (move_bytes DOWN n) (view self.old) (view self.new) result };

    /// Moves the cursor right `n` columns: ESC `[` n `C`, and nothing if `n` is 0.
    fn move_cursor_right(&mut self, n: usize) -> io::Result<()>
        ensures { Writes (move_bytes RIGHT n) (view self.old) (view self.new) result };

    /// Moves the cursor left `n` columns: ESC `[` n `D`, and nothing if `n` is 0.
    fn move_cursor_left(&mut self, n: usize) -> io::Result<()>
        ensures { Writes (move_bytes LEFT n) (view self.old) (view self.new) result };

    /// Writes the text, then CR LF.
    fn write_line(&mut self, s: &str) -> io::Result<()>
        ensures { Writes (line_bytes s.now) (view self.old) (view self.new) result };

    /// Writes the text as it is.
    fn write_str(&mut self, s: &str) -> io::Result<()>
        ensures { Writes s.now (view self.old) (view self.new) result };

    /// Empties the cursor's row and goes to its front: CR, ESC `[2K`.
    fn clear_line(&mut self) -> io::Result<()>
        ensures { Writes clear_bytes (view self.old) (view self.new) result };

    /// Flushes what is buffered; it has no bytes of its own.
    fn flush(&mut self) -> io::Result<()>
        ensures { Writes [] (view self.old) (view self.new) result };
}

/// A boxed terminal is the terminal in the box. The caller makes the box.
impl TermLike for Box<dyn TermLike + Drop> {
    ghost view = { λ b. (TermLike-box b).view b.value };

    fn width(&self) -> u16 {
        (**self).width()
    }

    fn height(&self) -> u16 {
        (**self).height()
    }

    fn faults(&self) -> u64 {
        (**self).faults()
    }

    fn move_cursor_up(&mut self, n: usize) -> io::Result<()> {
        (**self).move_cursor_up(n)
    }

    fn move_cursor_down(&mut self, n: usize) -> io::Result<()> {
        (**self).move_cursor_down(n)
    }

    fn move_cursor_right(&mut self, n: usize) -> io::Result<()> {
        (**self).move_cursor_right(n)
    }

    fn move_cursor_left(&mut self, n: usize) -> io::Result<()> {
        (**self).move_cursor_left(n)
    }

    fn write_line(&mut self, s: &str) -> io::Result<()> {
        (**self).write_line(s)
    }

    fn write_str(&mut self, s: &str) -> io::Result<()> {
        (**self).write_str(s)
    }

    fn clear_line(&mut self) -> io::Result<()> {
        (**self).clear_line()
    }

    fn flush(&mut self) -> io::Result<()> {
        (**self).flush()
    }
}

/// A terminal whose size can be changed between its calls.
///
/// A `Term` takes the new size for later draws, and nothing else: its screen is behind the writer, and wraps its own rows. An engine owns
/// its terminal: `Engine::resize` gives both the new size.
pub trait Resize: TermLike {
    /// Whether its `resize` may take memory: a `Term` takes none.
    ghost takes_memory: { Bool };

    /// Sets the size to `rows` rows and `cols` columns; no byte is written, and no failure counted. A terminal whose state can be read has
    /// wrapped each of its rows. The bytes that can be read stay.
    ///
    /// ```
    /// let mut term = InMemoryTerm::new(rt.alloc(), 4, 10)?;
    /// term.write_str("progress")?;
    /// term.resize(4, 5)?;
    /// // contents: "progr\ness", cursor: (0, 5)
    /// ```
    ///
    /// Refused: `ZeroSize` if `rows` or `cols` is 0; `Memory`, never for its own size, nor on a terminal that takes none for this. Then
    /// nothing has changed.
    fn resize(&mut self, rows: u16, cols: u16) -> Result<(), Refusal>
        ensures resized { OnOk result (Resized cols rows (Self.view self.old) (Self.view self.new)) }
        ensures unchanged { OnErr result (self.new ≡ self.old) }
        ensures zero_size { (result ≡ Err Refusal.ZeroSize) ↔ ((rows ≡ 0) ⊎ (cols ≡ 0)) }
        ensures no_other { IfErr result (λ e. (e ≡ Refusal.ZeroSize) ⊎ (e ≡ Refusal.Memory)) }
        ensures memory { result ≡ Err Refusal.Memory → IsFalse (has_size cols rows (Self.view self.old)) }
        ensures takes { result ≡ Err Refusal.Memory → IsTrue takes_memory };
}
