//! Wrapped readers and writers that seek.
ghost use Rattle.std.specs.Prelude.{◌≡◌, Some, None, IfSome, IfOk, OnErr, Ok, pos};
ghost use Rattle.std.specs.Io.Seek.{SeekMoves};
ghost use Rattle.std.specs.Io.KnownBytes.{Keeps};
ghost use Rattle.indicatif.specs.Wrap.{inner_of, Sought, SameBar, SeekMovesBar};

use crate::wrappers::moves::Moves;
use crate::wrappers::wrap::ProgressBarIter;
use std::io::{self, Seek, SeekFrom};

impl<T, P: Moves> ProgressBarIter<T, P> {
    // Places the bar by a seek to `at`.
    fn sought(&mut self, at: u64)
        ensures it { (inner_of self.new) ≡ (inner_of self.old) }
        ensures sought { Sought P.stands P.leads self.old at self.new }
    {
        let place = self.seeks.update_seek(at);
        self.last = Some(self.progress.place(place));
    }
}

/// The inner one's place. A seek that succeeded places the bar there, except `Current(0)`, which only asks for the place.
impl<T: Seek, P: Moves> Seek for ProgressBarIter<T, P> {
    ghost stream_position = { λ s. T.stream_position (inner_of s) };

    ghost stream_bytes = { λ s. T.stream_bytes (inner_of s) };

    fn seek(&mut self, to: SeekFrom) -> io::Result<u64>
        ensures moves { SeekMoves (T.stream_position (inner_of self.old)) (T.stream_position (inner_of self.new)) (T.stream_bytes (inner_of self.old)) to result }
        ensures bytes { Keeps (T.stream_bytes (inner_of self.old)) (T.stream_bytes (inner_of self.new)) }
        ensures sought { IfOk result (λ at. SeekMovesBar to (SameBar self.old self.new) (Sought P.stands P.leads self.old at self.new)) }
        ensures err { OnErr result (SameBar self.old self.new) }
    {
        let at = self.it.seek(to)?;
        match to {
            SeekFrom::Current(0) => {}
            _ => self.sought(at),
        }
        Ok(at)
    }
}
