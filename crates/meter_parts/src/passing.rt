//! Bytes passed on.
ghost use Rattle.std.specs.Prelude.{◌≡◌, ◌<◌, ◌≤◌, length, IfOk, IfErr};
ghost use Rattle.std.specs.Io.KnownBytes.{WriteAppends};
ghost use Rattle.indicatif_term.specs.Term.{AppendsAllOrFront};
ghost use Rattle.meter_parts.specs.Passing.{PassedAll, IsFinal, EndsAt};
ghost use Rattle.meter_parts.specs.Inside.Passing.{PassedSome};

use std::io::{Error, ErrorKind, Read, Result as IoResult, Write};

/// Which end failed.
#[derive(Clone, Copy, Drop)]
pub enum Broken {
    /// The input failed.
    Input(Error),
    /// The output failed.
    Output(Error),
}

/// Gets the bytes as they are passed on, and may delay them. It can't change a byte.
pub trait Gauge {
    /// How many of these bytes to send at once. It may wait first. 0 counts as 1.
    fn piece(&mut self, bytes: &[u8]) -> usize;

    /// These bytes were sent.
    fn went(&mut self, bytes: &[u8]);

    /// The input has nothing yet, or the output takes nothing: wait a little.
    fn rest(&mut self);
}

/// Passes all bytes of the input on to the output, unchanged and in order, through a buffer. A call that is interrupted is repeated, and so
/// is one that would block, after a rest.
///
/// Fails: if the input fails, after everything that was read was sent; or if the output fails or takes no more. With an empty buffer
/// nothing is read, and the error is `Input` with `InvalidInput`.
pub fn pass_on<R: Read, W: Write, G: Gauge>(
    input: &mut R,
    output: &mut W,
    gauge: &mut G,
    buffer: &mut [u8],
) -> Result<(), Broken>
    ensures passed { PassedAll (R.remaining input.old) (R.remaining input.new) (W.contents output.old) (W.contents output.new) result }
    ensures ends { IfErr result (λ broken. EndsAt broken) }
{
    if buffer.is_empty() {
        return Err(Broken::Input(Error::from(ErrorKind::InvalidInput)));
    }
    for _ in 0..u64::MAX {
        match pass_some(input, output, gauge, buffer) {
            Ok(true) => return Ok(()),
            Ok(false) => {}
            Err(broken) => return Err(broken),
        }
    }
    Err(Broken::Output(Error::from(ErrorKind::TimedOut)))
}

/// Passes on the bytes of one read; whether the input is at its end.
fn pass_some<R: Read, W: Write, G: Gauge>(
    input: &mut R,
    output: &mut W,
    gauge: &mut G,
    buffer: &mut [u8],
) -> Result<bool, Broken>
    requires { 0 < length buffer.old }
    ensures passed { PassedSome (R.remaining input.old) (R.remaining input.new) (W.contents output.old) (W.contents output.new) result }
    ensures ends { IfErr result (λ broken. EndsAt broken) }
    ensures buffer { length buffer.new ≡ length buffer.old }
{
    match input.read(buffer) {
        Ok(0) => Ok(true),
        Ok(n) => match write_all(output, gauge, &buffer[..n]) {
            Ok(()) => Ok(false),
            Err(e) => Err(Broken::Output(e)),
        },
        Err(e) => match e.kind() {
            ErrorKind::Interrupted => Ok(false),
            ErrorKind::WouldBlock => {
                gauge.rest();
                Ok(false)
            }
            _ => Err(Broken::Input(e)),
        },
    }
}

/// Writes all of these bytes, piece by piece, or a prefix of them if the output fails or takes no more.
fn write_all<W: Write, G: Gauge>(output: &mut W, gauge: &mut G, bytes: &[u8]) -> IoResult<()>
    ensures went { AppendsAllOrFront (W.contents output.old) (W.contents output.new) bytes.now result }
    ensures ends { IfErr result (λ error. IsFinal error) }
{
    let mut rest = bytes;
    for _ in 0..u64::MAX {
        if rest.is_empty() {
            return Ok(());
        }
        match write_some(output, gauge, rest) {
            Ok(n) => rest = &rest[n..],
            Err(e) => return Err(e),
        }
    }
    Err(Error::from(ErrorKind::TimedOut))
}

/// Writes a piece of these bytes, and returns how many were sent; 0 if the call has to be repeated.
fn write_some<W: Write, G: Gauge>(output: &mut W, gauge: &mut G, bytes: &[u8]) -> IoResult<usize>
    requires { 0 < length bytes.now }
    ensures bound { IfOk result (λ n. n ≤ length bytes.now) }
    ensures went { WriteAppends (W.contents output.old) (W.contents output.new) result bytes.now }
    ensures ends { IfErr result (λ error. IsFinal error) }
{
    let piece = gauge.piece(bytes).clamp(1, bytes.len());
    match output.write(&bytes[..piece]) {
        Ok(0) => Err(Error::from(ErrorKind::WriteZero)),
        Ok(n) => {
            gauge.went(&bytes[..n]);
            Ok(n)
        }
        Err(e) => match e.kind() {
            ErrorKind::Interrupted => Ok(0),
            ErrorKind::WouldBlock => {
                gauge.rest();
                Ok(0)
            }
            _ => Err(e),
        },
    }
}
