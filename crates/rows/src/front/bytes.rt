//! Wrapped readers, writers and streams.
//!
//! `bytes POSITION TEXT, ANSWERS` wraps one (`scripted`) with a bar at this position that counts its moves. Then
//!
//! - `read N`, `read_exact N`, `room N`: a read into the front of a buffer of 16 bytes gives the bytes that came; the buffer's first bytes.
//! - `read_to_string`, `read_to_end`, `copy`: the rest.
//! - `fill_buf`, `consume N`, `read_line`; `seek start N`, `seek end N`, `seek current N`, `position`.
//! - `write TEXT`, `write_all TEXT`, `flush`, `written`, the last of which unwraps; `next` of the value wrapped as an iterator.
//! - `poll_read N`, `poll_write TEXT`, `poll_flush`, `poll_shutdown`, `poll_next`, `poll_next N` (N polls).
//! - `last`: the answer of the last draw; `pos`, `finished`, and `stands`: the bar's position and how many moves it made; `place N` sets
//!   it, without a move.
//!
//! A failure is spelled as in `scripted`.
use crate::front::counted::Counted;
use crate::scripted::{Scripted, kind_name, script_of};
use futures::stream::Stream;
use futures::task::Poll;
use futures::test::MockTask;
use indicatif::{Drawn, Moves, ProgressBarIter, Refusal};
use scripts::got::{Bad, Got, Outcome};
use scripts::row::{Words, headed, number, unescaped};
use std::alloc::Global;
use std::fmt::Display;
use std::io::{self, BufRead, Read, Seek, SeekFrom, Write};
use std::random::RandomSource;
use tokio::io::{AsyncRead, AsyncWrite};

/// The wrapped value.
pub type Wrapped<P> = ProgressBarIter<Scripted, P>;

/// The wrapped value, none once it was unwrapped; a buffer for reads, and a task for polls.
#[derive(Drop)]
pub struct Over<P> {
    wrapped: Option<Wrapped<P>>,
    room: [u8; 16],
    task: MockTask,
    alloc: Global,
}

impl<P: Drop> Over<P> {
    /// Steps over a value that is wrapped already.
    pub fn of<R: AllocGlobal + RandomSource>(rt: &R, wrapped: Wrapped<P>) -> Result<Over<P>, Bad> {
        Ok(Over {
            wrapped: Some(wrapped),
            room: [0; 16],
            task: MockTask::new(rt).ok().ok_or(Bad::Step)?,
            alloc: rt.alloc(),
        })
    }
}

impl Over<Counted> {
    /// A new one with a bar that counts its moves.
    pub fn begin<R: AllocGlobal + RandomSource>(rt: &R, rest: &str) -> Result<Over<Counted>, Bad> {
        let mut words = Words::of(rest);
        let bar = Counted::at(words.number()?);
        let script = script_of(rt.alloc(), words.rest())?;
        Over::of(rt, ProgressBarIter::new(script, bar))
    }

    /// Makes a step, or reads the bar.
    pub fn step(&mut self, step: &str, got: &mut Got) -> Outcome {
        let bar = &mut self.wrapped.as_mut().ok_or(Bad::Step)?.progress;
        match headed(step) {
            ("place", place) => bar.position = number(place)?,
            ("finished", "") => got.flag(bar.finished),
            ("pos", "") => got.number(bar.position),
            ("stands", "") => bar.push(got),
            _ => return self.asks(step, got),
        }
        Ok(())
    }
}

impl<P: Moves + Drop> Over<P> {
    /// Makes a step of the wrapped value.
    pub fn asks(&mut self, step: &str, got: &mut Got) -> Outcome {
        match headed(step) {
            ("written", "") => self.unwraps(got),
            (name @ ("write" | "write_all" | "poll_write"), text) => {
                let text = unescaped(self.alloc, text)?;
                self.writes(name, text.as_bytes(), got)
            }
            (name, "") => self.bare(name, got),
            ("seek", to) => {
                let place = self.wrapped()?.seek(seek_of(to)?);
                push_number(place, got);
                Ok(())
            }
            ("consume", count) => {
                self.wrapped()?.consume(number(count)?);
                Ok(())
            }
            ("poll_next", count) => self.polls_next(number(count)?, got),
            (name, count) => self.reads(name, number(count)?, got),
        }
    }

    fn wrapped(&mut self) -> Result<&mut Wrapped<P>, Bad> {
        self.wrapped.as_mut().ok_or(Bad::Step)
    }

    /// Unwraps, and shows what was written.
    fn unwraps(&mut self, got: &mut Got) -> Outcome {
        let (inner, bar) = self.wrapped.take().ok_or(Bad::Step)?.into_inner();
        drop(bar);
        got.bytes(inner.written());
        Ok(())
    }

    fn writes(&mut self, name: &str, bytes: &[u8], got: &mut Got) -> Outcome {
        let wrapped = self.wrapped.as_mut().ok_or(Bad::Step)?;
        match name {
            "write" => push_number(wrapped.write(bytes), got),
            "write_all" => push_done(wrapped.write_all(bytes), got),
            _ => {
                let polled = self.task.enter(|cx| wrapped.poll_write(cx, bytes));
                if let Some(written) = ready(polled, got) {
                    push_number(written, got);
                }
            }
        }
        Ok(())
    }

    fn polls_next(&mut self, count: u64, got: &mut Got) -> Outcome {
        let wrapped = self.wrapped.as_mut().ok_or(Bad::Step)?;
        for _ in 0..count {
            let polled = self.task.enter(|cx| wrapped.poll_next(cx));
            if let Some(item) = ready(polled, got) {
                push_item(item, got);
            }
        }
        Ok(())
    }

    /// A read into the front of the buffer, or the buffer itself.
    fn reads(&mut self, name: &str, count: usize, got: &mut Got) -> Outcome {
        let wrapped = self.wrapped.as_mut().ok_or(Bad::Step)?;
        let room = self.room.get_mut(..count).ok_or(Bad::Step)?;
        let read = match name {
            "room" => Some(Ok(count)),
            "read" => Some(wrapped.read(room)),
            "read_exact" => Some(wrapped.read_exact(room).and(Ok(count))),
            "poll_read" => ready(self.task.enter(|cx| wrapped.poll_read(cx, room)), got),
            _ => return Err(Bad::Step),
        };
        match read {
            Some(Ok(count)) => got.bytes(room.get(..count).unwrap_or(&[])),
            Some(Err(e)) => got.text(kind_name(e.kind())),
            None => (),
        }
        Ok(())
    }

    fn bare(&mut self, name: &str, got: &mut Got) -> Outcome {
        let wrapped = self.wrapped.as_mut().ok_or(Bad::Step)?;
        match name {
            "position" => push_number(wrapped.stream_position(), got),
            "flush" => push_done(wrapped.flush(), got),
            "fill_buf" => match wrapped.fill_buf() {
                Ok(bytes) => got.bytes(bytes),
                Err(e) => got.text(kind_name(e.kind())),
            },
            "next" => push_item(Iterator::next(wrapped), got),
            "last" => push_last(wrapped.last_draw(), got),
            "poll_next" => return self.polls_next(1, got),
            "poll_flush" => push_polled(self.task.enter(|cx| wrapped.poll_flush(cx)), got),
            "poll_shutdown" => push_polled(self.task.enter(|cx| wrapped.poll_shutdown(cx)), got),
            _ => return self.to_end(name, got),
        }
        Ok(())
    }

    /// The rest, or a line of it.
    fn to_end(&mut self, name: &str, got: &mut Got) -> Outcome {
        let (mut text, mut bytes) = (String::new(self.alloc), Vec::new(self.alloc));
        let wrapped = self.wrapped()?;
        match name {
            "read_to_string" => push_number(wrapped.read_to_string(&mut text), got),
            "read_line" => push_number(wrapped.read_line(&mut text), got),
            "read_to_end" => push_number(wrapped.read_to_end(&mut bytes), got),
            "copy" => push_number(io::copy(wrapped, &mut bytes), got),
            _ => return Err(Bad::Step),
        }
        got.text(" ");
        got.text(text.as_str());
        got.bytes(&bytes);
        Ok(())
    }
}

fn seek_of(to: &str) -> Result<SeekFrom, Bad> {
    match headed(to) {
        ("start", place) => Ok(SeekFrom::Start(number(place)?)),
        ("end", place) => Ok(SeekFrom::End(number(place)?)),
        ("current", place) => Ok(SeekFrom::Current(number(place)?)),
        _ => Err(Bad::Step),
    }
}

// ---- what came

/// What a poll gives; none, and `pending`, if it isn't ready.
fn ready<T>(polled: Poll<T>, got: &mut Got) -> Option<T> {
    match polled {
        Poll::Ready(value) => Some(value),
        Poll::Pending => {
            got.text("pending");
            None
        }
    }
}

/// Appends a number, or a failure.
fn push_number<N: Display + Drop>(number: io::Result<N>, got: &mut Got) {
    match number {
        Ok(number) => got.number(number),
        Err(e) => got.text(kind_name(e.kind())),
    }
}

/// Appends `done`, or a failure.
fn push_done(done: io::Result<()>, got: &mut Got) {
    match done {
        Ok(()) => got.text("done"),
        Err(e) => got.text(kind_name(e.kind())),
    }
}

/// Appends what such a poll gives.
fn push_polled(polled: Poll<io::Result<()>>, got: &mut Got) {
    if let Some(done) = ready(polled, got) {
        push_done(done, got);
    }
}

/// Appends the answer of the last draw, or `none`.
pub fn push_last(last: Option<Result<Drawn, Refusal>>, got: &mut Got) {
    match last {
        Some(drawn) => got.answer(drawn),
        None => got.text("none"),
    }
}

/// Appends an item, or `end`.
fn push_item(item: Option<u8>, got: &mut Got) {
    match item {
        Some(byte) => got.bytes(&[byte]),
        None => got.text("end"),
    }
}
