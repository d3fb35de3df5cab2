//! A reader, a writer and a stream that do what a row says.
ghost use Rattle.std.specs.Prelude.{◌≤◌, ⊤, length, IfOk};
ghost use Rattle.futures.specs.Poll.{OnPending};
ghost use Rattle.futures.specs.Task.{Covers, Keeps};
ghost use Rattle.tokio.specs.Io.Moved.{count_moved};

use futures::stream::Stream;
use futures::task::{Context, Poll};
use scripts::got::Bad;
use scripts::row::{number, unescaped};
use std::alloc::Global;
use std::io::{self, BufRead, Cursor, Error, ErrorKind, IsTerminal, Read, Seek, SeekFrom, Write};
use tokio::io::{AsyncRead, AsyncWrite};

/// The effect of a call.
#[derive(Clone, Copy, Drop)]
pub enum Answer {
    /// A poll that isn't ready.
    Pending,
    /// At most this many bytes.
    Bytes(usize),
    /// This failure.
    Fails(ErrorKind),
}

/// Bytes to read, bytes that were written, and the effects of the calls of both, one after another; afterwards all calls have the last one.
#[derive(Drop)]
pub struct Scripted {
    bytes: Cursor<Vec<u8>>,
    written: Vec<u8>,
    pub answers: Vec<Answer>,
    calls: usize,
    /// How many bytes it still takes; then writes fail.
    pub room: usize,
    pub is_flush_failing: bool,
    pub is_terminal: bool,
}

/// `TEXT`, `#N` (N bytes that are 0, 1, 2 and so on, modulo 256) or `*N` (N times `x`); after `, ` the effects of the calls.
pub fn script_of(alloc: Global, rest: &str) -> Result<Scripted, Bad> {
    let (text, answers) = rest.split_once(", ").unwrap_or((rest, ""));
    let bytes = bytes_of(alloc, text)?;
    Ok(Scripted::new(alloc, bytes, answers_of(alloc, answers)?))
}

fn bytes_of(alloc: Global, text: &str) -> Result<Vec<u8>, Bad> {
    match (text.strip_prefix('#'), text.strip_prefix('*')) {
        (Some(count), _) => counting(alloc, number(count)?),
        (_, Some(count)) => Ok(vec![in alloc; b'x'; number(count)?]?),
        (None, None) => Ok(unescaped(alloc, text)?.into_bytes()),
    }
}

fn counting(alloc: Global, count: u32) -> Result<Vec<u8>, Bad> {
    let mut bytes = Vec::new(alloc);
    for k in 0..count {
        bytes.push((k % 256) as u8)?;
    }
    Ok(bytes)
}

fn answers_of(alloc: Global, words: &str) -> Result<Vec<Answer>, Bad> {
    let mut answers = Vec::new(alloc);
    for word in words.split_whitespace() {
        answers.push(answer_of(word)?)?;
    }
    Ok(answers)
}

fn answer_of(word: &str) -> Result<Answer, Bad> {
    Ok(match word {
        "pending" => Answer::Pending,
        "all" => Answer::Bytes(usize::MAX),
        "interrupted" => Answer::Fails(ErrorKind::Interrupted),
        "reset" => Answer::Fails(ErrorKind::ConnectionReset),
        "broken" => Answer::Fails(ErrorKind::BrokenPipe),
        "full" => Answer::Fails(ErrorKind::StorageFull),
        "timed_out" => Answer::Fails(ErrorKind::TimedOut),
        _ => Answer::Bytes(number(word)?),
    })
}

/// A failure in a row.
pub fn kind_name(kind: ErrorKind) -> &'static str {
    match kind {
        ErrorKind::Interrupted => "interrupted",
        ErrorKind::ConnectionReset => "reset",
        ErrorKind::BrokenPipe => "broken",
        ErrorKind::StorageFull => "full",
        ErrorKind::TimedOut => "timed_out",
        ErrorKind::UnexpectedEof => "at its end",
        ErrorKind::InvalidInput => "invalid",
        _ => "another failure",
    }
}

impl Scripted {
    /// One that gives these bytes, and takes any.
    pub fn new(alloc: Global, bytes: Vec<u8>, answers: Vec<Answer>) -> Scripted {
        Scripted {
            bytes: Cursor::new(bytes),
            written: Vec::new(alloc),
            answers,
            calls: 0,
            room: usize::MAX,
            is_flush_failing: false,
            is_terminal: false,
        }
    }

    /// The effect of the next call.
    fn answer(&mut self) -> Answer {
        let at = self.calls;
        self.calls = self.calls.saturating_add(1);
        match self.answers.get(at).or(self.answers.last()) {
            Some(answer) => *answer,
            None => Answer::Bytes(usize::MAX),
        }
    }

    /// Keeps written bytes.
    fn store(&mut self, bytes: &[u8]) -> io::Result<usize>
        ensures { IfOk result (λ n. n ≤ length bytes.now) }
    {
        match self.written.extend_from_slice(bytes) {
            Ok(()) => Ok(bytes.len()),
            Err(_) => Err(Error::from(ErrorKind::OutOfMemory)),
        }
    }

    /// What was written.
    pub fn written(&self) -> &[u8] {
        self.written.as_slice()
    }
}

/// How many of `room` bytes an answer takes.
fn count_of(answer: Answer, room: usize) -> io::Result<usize>
    ensures { IfOk result (λ n. n ≤ room) }
{
    match answer {
        Answer::Pending => Err(Error::from(ErrorKind::WouldBlock)),
        Answer::Bytes(count) => Ok(room.min(count)),
        Answer::Fails(kind) => Err(Error::from(kind)),
    }
}

impl Read for Scripted {
    fn read(&mut self, buf: &mut [u8]) -> io::Result<usize> {
        let count = count_of(self.answer(), buf.len())?;
        self.bytes.read(&mut buf[..count])
    }
}

impl BufRead for Scripted {
    fn fill_buf(&mut self) -> io::Result<&[u8]> {
        count_of(self.answer(), 0)?;
        self.bytes.fill_buf()
    }

    fn consume(&mut self, amount: usize) {
        self.bytes.consume(amount)
    }
}

impl Seek for Scripted {
    fn seek(&mut self, to: SeekFrom) -> io::Result<u64> {
        self.bytes.seek(to)
    }
}

impl Write for Scripted {
    fn write(&mut self, buf: &[u8]) -> io::Result<usize> {
        if self.room == 0 {
            return Err(Error::from(ErrorKind::StorageFull));
        }
        let count = count_of(self.answer(), buf.len().min(self.room))?;
        self.room = self.room.saturating_sub(count);
        self.store(&buf[..count])
    }

    fn flush(&mut self) -> io::Result<()> {
        match self.is_flush_failing {
            true => Err(Error::from(ErrorKind::StorageFull)),
            false => Ok(()),
        }
    }
}

impl IsTerminal for Scripted {
    fn is_terminal(&self) -> bool {
        self.is_terminal
    }
}

impl Iterator for Scripted {
    type Item = u8;

    fn next(&mut self) -> Option<u8> {
        let mut byte = [0u8; 1];
        match self.bytes.read(&mut byte) {
            Ok(1) => Some(byte[0]),
            _ => None,
        }
    }
}

impl Stream for Scripted {
    type Item = u8;

    fn poll_next(&mut self, cx: &mut Context<'_>) -> Poll<Option<u8>> {
        match self.answer() {
            Answer::Pending => cx.yield_now(),
            _ => Poll::Ready(Iterator::next(self)),
        }
    }
}

impl Scripted {
    /// How many of `room` bytes a poll takes.
    fn polled(&mut self, cx: &mut Context<'_>, room: usize) -> Poll<io::Result<usize>>
        ensures bound { count_moved result ≤ room }
        ensures registered { OnPending result (Covers cx.new (λ _. ⊥)) }
        ensures kept { Keeps cx.old cx.new }
    {
        match self.answer() {
            Answer::Pending => cx.yield_now(),
            Answer::Bytes(count) => Poll::Ready(Ok(room.min(count))),
            Answer::Fails(kind) => Poll::Ready(Err(Error::from(kind))),
        }
    }
}

impl AsyncRead for Scripted {
    ghost reads = { λ _ _ _. ⊤ };

    ghost is_at_end = { λ _. ⊤ };

    ghost reads_nothing = { λ _. tt };

    ghost reads_in_order = { λ _ _ _ _ _ _ _. tt };

    fn poll_read(&mut self, cx: &mut Context<'_>, buf: &mut [u8]) -> Poll<io::Result<usize>> {
        let polled = self.polled(cx, buf.len());
        match polled {
            Poll::Ready(Ok(count)) => Poll::Ready(self.bytes.read(&mut buf[..count])),
            polled => polled,
        }
    }
}

impl AsyncWrite for Scripted {
    ghost writes = { λ _ _ _. ⊤ };

    ghost writes_nothing = { λ _. tt };

    ghost writes_in_order = { λ _ _ _ _ _ _ _. tt };

    fn poll_write(&mut self, cx: &mut Context<'_>, buf: &[u8]) -> Poll<io::Result<usize>> {
        let polled = self.polled(cx, buf.len());
        match polled {
            Poll::Ready(Ok(count)) => Poll::Ready(self.store(&buf[..count])),
            polled => polled,
        }
    }

    fn poll_flush(&mut self, cx: &mut Context<'_>) -> Poll<io::Result<()>> {
        match self.answer() {
            Answer::Pending => cx.yield_now(),
            _ => Poll::Ready(Ok(())),
        }
    }

    fn poll_shutdown(&mut self, _cx: &mut Context<'_>) -> Poll<io::Result<()>> {
        Poll::Ready(Ok(()))
    }
}
