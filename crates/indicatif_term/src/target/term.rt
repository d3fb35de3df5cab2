//! A terminal behind a writer of bytes.
ghost use Rattle.std.specs.Prelude.{◌≡◌, false, ◌⊎◌, ◌↔◌, IsOk, IfErr, OnOk, OnErr};
ghost use Rattle.indicatif_term.specs.Calls.{Writes, move_bytes, UP, DOWN, RIGHT, LEFT};
ghost use Rattle.indicatif_term.specs.Resizes.{Resized};
ghost use Rattle.indicatif_term.specs.Term.{WriterTerm, view_behind, counted_as, AppendsAllOrFront};

use crate::target::move_bytes::MoveBytes;
use crate::target::term_like::{Resize, TermLike};
use indicatif_text::columns::Refusal;
use std::io;
use std::io::{ErrorKind, Write};
use std::marker::Model;

/// A terminal whose calls write their bytes to a writer. Its size is the one that it was made with, or the last one set by `resize`.
///
/// A call that fails has written a prefix of its bytes, adds 1 modulo 2^64 to `faults`, and fails with the writer's kind. A move by 0
/// writes nothing and never fails.
///
/// ```
/// let mut term = Term::new(BufWriter::new(alloc, rt.stderr())?, 24, 80);
/// term.write_line("ab")?; // the bytes `ab\r\n`
/// ```
#[derive(Drop)]
pub struct Term<W: Write> {
    writer: W,
    columns: u16,
    rows: u16,
    faults: u64,
    kind: ErrorKind,
}

impl<W: Write> Model for Term<W> {
    ghost use Rattle.indicatif_term.specs.Term.{WriterTerm};

    ghost Value = { WriterTerm W };

    ghost view = { λ t. record { writer = t.writer; columns = t.columns; rows = t.rows; faults = t.faults; kind = t.kind } };
}

impl<W: Write> Term<W> {
    /// A terminal of `rows` rows and `cols` columns behind `w`, without faults.
    pub fn new(w: W, rows: u16, cols: u16) -> Term<W>
        ensures { result ≡ record { writer = w; columns = cols; rows = rows; faults = 0; kind = ErrorKind.Other } }
    {
        Term {
            writer: w,
            columns: cols,
            rows,
            faults: 0,
            kind: ErrorKind::Other,
        }
    }

    /// The writer behind the terminal.
    pub fn writer(&self) -> &W
        ensures { result.now ≡ self.now.writer }
    {
        &self.writer
    }

    /// Writes a cursor move by `n`, in the direction of `letter`.
    fn send_move(&mut self, letter: u8, n: usize) -> io::Result<()>
        ensures writes { Writes (move_bytes letter n) (view_behind W.contents self.old) (view_behind W.contents self.new) result }
        ensures none { n ≡ 0 → IsOk result × (self.new ≡ self.old) }
    {
        if n == 0 {
            return Ok(());
        }
        self.send(MoveBytes::new(letter, n).as_slice())
    }

    /// Writes these bytes; counts a failure, and keeps its kind.
    #[inline(always)]
    fn send(&mut self, bytes: &[u8]) -> io::Result<()>
        ensures writes { Writes bytes.now (view_behind W.contents self.old) (view_behind W.contents self.new) result }
    {
        match write_whole(&mut self.writer, bytes) {
            Ok(()) => Ok(()),
            Err(e) => Err(self.counted(e)),
        }
    }

    /// Passes on an error, counts it, and keeps its kind.
    fn counted(&mut self, e: io::Error) -> io::Error
        ensures same { result ≡ e }
        ensures counts { self.new ≡ counted_as (Err e) self.old }
    {
        self.faults = self.faults.wrapping_add(1);
        self.kind = e.kind();
        e
    }
}

impl<W: Write> TermLike for Term<W> {
    ghost view = { λ t. view_behind W.contents t };

    fn width(&self) -> u16 {
        self.columns
    }

    fn height(&self) -> u16 {
        self.rows
    }

    fn faults(&self) -> u64 {
        self.faults
    }

    fn move_cursor_up(&mut self, n: usize) -> io::Result<()>
        ensures writes { Writes (move_bytes UP n) (view_behind W.contents self.old) (view_behind W.contents self.new) result }
        ensures none { n ≡ 0 → IsOk result × (self.new ≡ self.old) }
    {
        self.send_move(b'A', n)
    }

    fn move_cursor_down(&mut self, n: usize) -> io::Result<()>
        ensures writes { Writes (move_bytes DOWN n) (view_behind W.contents self.old) (view_behind W.contents self.new) result }
        ensures none { n ≡ 0 → IsOk result × (self.new ≡ self.old) }
    {
        self.send_move(b'B', n)
    }

    fn move_cursor_right(&mut self, n: usize) -> io::Result<()>
        ensures writes { Writes (move_bytes RIGHT n) (view_behind W.contents self.old) (view_behind W.contents self.new) result }
        ensures none { n ≡ 0 → IsOk result × (self.new ≡ self.old) }
    {
        self.send_move(b'C', n)
    }

    fn move_cursor_left(&mut self, n: usize) -> io::Result<()>
        ensures writes { Writes (move_bytes LEFT n) (view_behind W.contents self.old) (view_behind W.contents self.new) result }
        ensures none { n ≡ 0 → IsOk result × (self.new ≡ self.old) }
    {
        self.send_move(b'D', n)
    }

    fn write_line(&mut self, s: &str) -> io::Result<()> {
        if !s.is_empty() {
            self.write_str(s)?;
        }
        self.write_str("\r\n")
    }

    fn write_str(&mut self, s: &str) -> io::Result<()> {
        self.send(s.as_bytes())
    }

    fn clear_line(&mut self) -> io::Result<()> {
        self.write_str("\r\x1B[2K")
    }

    fn flush(&mut self) -> io::Result<()> {
        match self.writer.flush() {
            Ok(()) => Ok(()),
            Err(e) => Err(self.counted(e)),
        }
    }
}

impl<W: Write> Resize for Term<W> {
    ghost takes_memory = { false };

    fn resize(&mut self, rows: u16, cols: u16) -> Result<(), Refusal>
        ensures resized { OnOk result (Resized cols rows (view_behind W.contents self.old) (view_behind W.contents self.new)) }
        ensures unchanged { OnErr result (self.new ≡ self.old) }
        ensures zero_size { (result ≡ Err Refusal.ZeroSize) ↔ ((rows ≡ 0) ⊎ (cols ≡ 0)) }
        ensures no_other { IfErr result (λ e. e ≡ Refusal.ZeroSize) }
        ensures alone { OnOk result (self.new ≡ record self.old { columns = cols; rows = rows }) }
    {
        if rows == 0 || cols == 0 {
            return Err(Refusal::ZeroSize);
        }
        self.columns = cols;
        self.rows = rows;
        Ok(())
    }
}

/// Writes all of these bytes, or a prefix of them if the writer fails or takes no more. An interrupted call is repeated.
///
/// ```
/// write_whole(&mut writer, b"ab")?; // both bytes, where `writer.write(b"ab")` may take one
/// ```
///
/// Fails: as the writer does, with `WriteZero` if it takes no more, and with `TimedOut` after 2^64 - 1 calls of it.
pub fn write_whole<W: Write>(writer: &mut W, bytes: &[u8]) -> io::Result<()>
    ensures { AppendsAllOrFront (W.contents writer.old) (W.contents writer.new) bytes.now result }
{
    let mut rest = bytes;
    for _ in 0..u64::MAX {
        if rest.is_empty() {
            return Ok(());
        }
        match writer.write(rest) {
            Ok(0) => return Err(io::Error::from(ErrorKind::WriteZero)),
            Ok(n) => rest = &rest[n..],
            Err(e) => {
                if e.kind() != ErrorKind::Interrupted {
                    return Err(e);
                }
            }
        }
    }
    Err(io::Error::from(ErrorKind::TimedOut))
}
