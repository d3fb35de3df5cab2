//! A writer that outlives its reader.
ghost use Rattle.std.specs.Prelude.{◌≡◌, ◌↔◌, IsTrue, IsOk, Ok, IfErr, length, false};
ghost use Rattle.std.specs.Io.{WritesAtMost};
ghost use Rattle.indicatif.specs.UntilGone.{IsGone};

use std::io::{self, ErrorKind, Write};

/// A writer to a terminal that may go away before the program ends, for instance because its window is closed. Then a write fails. From
/// that write on, everything written is dropped, and each call succeeds: a program needn't end because its bars can't be drawn.
///
/// A terminal is gone if a write fails with `BrokenPipe` or `ConnectionReset`, or with an input/output error (`EIO`), which Linux gives
/// once a terminal is closed. A terminal that would block (`WouldBlock`) counts as gone too: an unknown part of a draw stands there. Any
/// other failure, such as a full disk, is handed on.
///
/// Contracts don't see the bytes.
///
/// ```
/// let writer = BufWriter::new(alloc, UntilGone::new(rt.stderr()))?;
/// let mut term = Term::new(writer, 24, 80);
/// ```
#[derive(Drop)]
pub struct UntilGone<W> {
    writer: W,
    gone: bool,
}

impl<W> UntilGone<W> {
    /// Wraps a writer whose reader is there.
    pub fn new(writer: W) -> UntilGone<W>
        ensures { result ≡ record { writer = writer; gone = false } }
    {
        UntilGone {
            writer,
            gone: false,
        }
    }

    /// The writer whose reader may go away.
    pub fn get_ref(&self) -> &W
        ensures { result.now ≡ self.now.writer }
    {
        &self.writer
    }

    /// Whether a write has found that the reader is gone.
    ///
    /// ```
    /// let is_gone = term.writer().get_ref().is_gone(); // of a `Term` behind a `BufWriter`
    /// ```
    pub fn is_gone(&self) -> bool
        ensures { result ≡ self.now.gone }
    {
        self.gone
    }
}

impl<W: Write> Write for UntilGone<W> {
    fn write(&mut self, buf: &[u8]) -> io::Result<usize>
        ensures bound { WritesAtMost result buf.now }
        ensures dropped { IsTrue self.old.gone → (result ≡ Ok (length buf.now)) × (self.new ≡ self.old) }
        ensures handed_on { IfErr result (λ e. IsGone e → ⊥) }
    {
        if self.gone {
            return Ok(buf.len());
        }
        match self.writer.write(buf) {
            Err(e) if says_gone(&e) => {
                self.gone = true;
                Ok(buf.len())
            }
            written => written,
        }
    }

    fn flush(&mut self) -> io::Result<()>
        ensures dropped { IsTrue self.old.gone → IsOk result × (self.new ≡ self.old) }
        ensures handed_on { IfErr result (λ e. IsGone e → ⊥) }
    {
        if self.gone {
            return Ok(());
        }
        match self.writer.flush() {
            Err(e) if says_gone(&e) => {
                self.gone = true;
                Ok(())
            }
            flushed => flushed,
        }
    }
}

/// Linux's number of an input/output error, which has no `ErrorKind` of its own.
const EIO: i32 = 5;

/// Whether an error means that the reader is gone.
fn says_gone(error: &io::Error) -> bool
    ensures { IsTrue result ↔ IsGone error.now }
{
    match error.kind() {
        ErrorKind::BrokenPipe | ErrorKind::ConnectionReset | ErrorKind::WouldBlock => true,
        _ => error.raw_os_error() == Some(EIO),
    }
}
