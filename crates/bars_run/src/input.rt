//! The input of a run.
use std::io;
use std::io::{ErrorKind, Read};

/// A reader that never fails for want of memory: such a failure of the inner reader counts as a failed input, like any other, so want of
/// memory is always that of a line.
#[derive(Drop)]
pub struct Input<R: Drop>(pub R);

impl<R: Read + Drop> Read for Input<R> {
    ghost remaining = { λ input. R.remaining input.0 };

    fn read(&mut self, buf: &mut [u8]) -> io::Result<usize> {
        match self.0.read(buf) {
            Err(e) if e.kind() == ErrorKind::OutOfMemory => Err(io::Error::from(ErrorKind::Other)),
            done => done,
        }
    }
}
