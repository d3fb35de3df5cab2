//! Bytes that are read and written.
ghost use Rattle.std.specs.Prelude.{◌≡◌, [], Some, None, IfSome, IfOk, MatchResult, OnOk, length, string_bytes, ◌++◌};
ghost use Rattle.std.specs.Borrow.{sem};
ghost use Rattle.std.specs.Io.{ReadsAtMost, WritesAtMost, StartsWith};
ghost use Rattle.std.specs.Io.KnownBytes.{ReadConsumes, WriteAppends, Consumes, Keeps};
ghost use Rattle.std.specs.Io.BufRead.{Rests, FillKeeps, DropsConsumable};
ghost use Rattle.indicatif.specs.Wrap.{inner_of, PlacesBar, SameBar};
ghost use Rattle.indicatif.specs.contracts.wrappers.wrap.ProgressBarIter.{the_row};

use crate::wrappers::moves::Moves;
use crate::wrappers::wrap::ProgressBarIter;
use std::io::{self, BufRead, Read, Write};

/// Reads from the inner reader; a read that succeeded moves the bar once, by the bytes read.
///
/// `read_to_end` and the vectored reads are std's own over `read`, and move the bar at each `read`.
impl<T: Read, P: Moves> Read for ProgressBarIter<T, P> {
    ghost remaining = { λ s. T.remaining (inner_of s) };

    fn read(&mut self, buf: &mut [u8]) -> io::Result<usize>
        ensures bound { ReadsAtMost result buf.new }
        ensures bytes { ReadConsumes (T.remaining (inner_of self.old)) (T.remaining (inner_of self.new)) result buf.new }
        ensures placed { MatchResult result (λ n. PlacesBar P.stands P.leads self.old n self.new) (λ _. SameBar self.old self.new) }
    {
        let n = self.it.read(buf)?;
        self.went_on(n as u64);
        Ok(n)
    }

    fn read_exact(&mut self, buf: &mut [u8]) -> io::Result<()>
        ensures bytes { OnOk result (Consumes (T.remaining (inner_of self.old)) (T.remaining (inner_of self.new)) buf.new) }
        ensures placed { MatchResult result (λ _. PlacesBar P.stands P.leads self.old (length buf.new) self.new) (λ _. SameBar self.old self.new) }
    {
        self.it.read_exact(buf)?;
        self.went_on(buf.len() as u64);
        Ok(())
    }
}

/// The inner reader's buffer; consuming bytes moves the bar by them.
impl<T: BufRead, P: Moves> BufRead for ProgressBarIter<T, P> {
    ghost consumable_len = { λ s. T.consumable_len (inner_of s) };

    fn fill_buf(&mut self) -> io::Result<&[u8]>
        ensures front { IfSome (T.remaining (inner_of self.old)) (λ xs. IfOk result (λ s. StartsWith xs s.now)) }
        ensures end { IfSome (T.remaining (inner_of self.old)) (λ xs. IfOk result (λ s. length s.now ≡ 0 → xs ≡ [])) }
        ensures* after_borrow { sem 𝓛 (Rests (the_row T.row P.row) self.entry (λ new.
            FillKeeps (T.remaining (inner_of self.old)) (T.remaining (inner_of new)) (T.consumable_len (inner_of new)) result
            × SameBar self.old new)) }
    {
        self.it.fill_buf()
    }

    fn consume(&mut self, amount: usize)
        ensures bytes { DropsConsumable (T.remaining (inner_of self.old)) (T.remaining (inner_of self.new)) (T.consumable_len (inner_of self.old)) amount }
        ensures placed { PlacesBar P.stands P.leads self.old amount self.new }
    {
        self.it.consume(amount);
        self.went_on(amount as u64);
    }
}

/// Writes to the inner writer; the bytes that it took move the bar. `write_all` is std's own over `write`.
impl<T: Write, P: Moves> Write for ProgressBarIter<T, P> {
    ghost contents = { λ s. T.contents (inner_of s) };

    fn write(&mut self, buf: &[u8]) -> io::Result<usize>
        ensures bound { WritesAtMost result buf.now }
        ensures bytes { WriteAppends (T.contents (inner_of self.old)) (T.contents (inner_of self.new)) result buf.now }
        ensures placed { MatchResult result (λ n. PlacesBar P.stands P.leads self.old n self.new) (λ _. SameBar self.old self.new) }
    {
        let n = self.it.write(buf)?;
        self.went_on(n as u64);
        Ok(n)
    }

    fn flush(&mut self) -> io::Result<()>
        ensures bytes { Keeps (T.contents (inner_of self.old)) (T.contents (inner_of self.new)) }
        ensures placed { SameBar self.old self.new }
    {
        self.it.flush()
    }
}

impl<T: Read, P: Moves> ProgressBarIter<T, P> {
    /// Appends the rest as text to `buf`, and moves the bar once, by all its bytes. (Through the trait `Read` this is std's own over
    /// `read`, and moves the bar at each `read`.)
    ///
    /// Refused: as the inner reader's, and the bar is unchanged.
    pub fn read_to_string(&mut self, buf: &mut String) -> io::Result<usize>
        ensures bytes { OnOk result (IfSome (T.remaining (inner_of self.old)) (λ xs. string_bytes buf.new ≡ string_bytes buf.old ++ xs)) }
        ensures placed { MatchResult result (λ n. PlacesBar P.stands P.leads self.old n self.new) (λ _. SameBar self.old self.new) }
    {
        let n = self.it.read_to_string(buf)?;
        self.went_on(n as u64);
        Ok(n)
    }
}
