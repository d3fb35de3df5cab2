//! The facts of an environment about a terminal: `environment VARIABLE=TEXT ..` gives rows, columns, whether the stream is a terminal, and
//! the kind, in quotes, or `none`; `colours VARIABLE=TEXT ..` whether colours are wanted; `stream VARIABLE=TEXT ..` rows and columns of the
//! setup of a bar there, and who ends a full row, the `program` or the `terminal`, or `hidden`; `sized ROWS COLS VARIABLE=TEXT ..` the same
//! for a target of this size there. A stream that is no terminal has `not` before its variables.
use crate::scripted::Scripted;
use indicatif::machine::{StreamTerm, facts_of, on_stream, sized_target, wants_colors};
use indicatif::{Facts, ProgressDrawTarget, TermLike};
use scripts::got::{Bad, Got, Outcome};
use scripts::row::{At, Words, unescaped_bytes};
use std::alloc::Global;
use std::env::{Env, FillError};
use std::io::{self, ErrorKind};
use std::time::{Clock, Duration};

/// A program's environment: variables and their values with escapes, separated by spaces.
#[derive(Clone, Copy, Drop)]
struct Told<'a> {
    words: &'a str,
    alloc: Global,
}

impl<'a> Told<'a> {
    /// The value of the variable.
    fn said(&self, name: &str) -> Option<&'a str> {
        for word in self.words.split(' ') {
            match word.split_once('=') {
                Some((variable, text)) if variable == name => return Some(text),
                _ => (),
            }
        }
        None
    }
}

impl Env for Told<'_> {
    fn arg(&self, _i: usize, _buf: &mut [u8]) -> Result<usize, FillError> {
        Err(FillError::NotPresent)
    }

    fn var(&self, name: &str, buf: &mut [u8]) -> Result<usize, FillError> {
        let text = self.said(name).ok_or(FillError::NotPresent)?;
        let bytes = unescaped_bytes(self.alloc, text).ok();
        let bytes = bytes.ok_or(FillError::NotPresent)?;
        match buf.get_mut(..bytes.len()) {
            Some(front) => {
                front.copy_from_slice(&bytes);
                Ok(bytes.len())
            }
            None => Err(FillError::TooLong),
        }
    }

    fn var_at(&self, _i: usize, _buf: &mut [u8]) -> Result<usize, FillError> {
        Err(FillError::NotPresent)
    }
}

/// It has no time.
impl Clock for Told<'_> {
    fn monotonic(&self) -> io::Result<Duration> {
        Err(io::Error::from(ErrorKind::Unsupported))
    }

    fn since_1970(&self) -> io::Result<Duration> {
        self.monotonic()
    }
}

/// A stream that is a terminal, unless the words begin with `not`.
fn stream_of(words: &str, alloc: Global) -> Scripted {
    let mut stream = Scripted::new(alloc, Vec::new(alloc), Vec::new(alloc));
    stream.is_terminal = !words.starts_with("not");
    stream
}

/// Appends what a question asks of an environment; whether the step with this name is one.
pub fn asked(name: &str, rest: &str, at: At, got: &mut Got) -> Result<bool, Bad> {
    let alloc = at.alloc;
    let rt = (Told { words: rest, alloc }, alloc);
    let stream = stream_of(rest, alloc);
    match name {
        "environment" => push_facts(&facts_of(&rt, &stream)?, got),
        "colours" => got.flag(wants_colors(&rt, &stream)?),
        "stream" => push_target(on_stream(&rt, stream)?.target, got),
        "sized" => push_sized(alloc, rest, got)?,
        _ => return Ok(false),
    }
    Ok(true)
}

/// Appends a target on a stream with a given size.
fn push_sized(alloc: Global, rest: &str, got: &mut Got) -> Outcome {
    let mut words = Words::of(rest);
    let (rows, cols) = (words.number()?, words.number()?);
    let words = words.rest();
    let stream = stream_of(words, alloc);
    let target = sized_target(&(Told { words, alloc }, alloc), stream, rows, cols)?;
    push_target(target, got);
    Ok(())
}

/// Appends a target's size, and who ends full rows there.
fn push_target(target: ProgressDrawTarget<StreamTerm<Scripted>>, got: &mut Got) {
    match target.into_term() {
        Some(mut term) => {
            got.number(format_args!("{} {}", term.height(), term.width()));
            got.text(match turns_wrap_off(&mut term) {
                Ok(true) => " program",
                Ok(false) => " terminal",
                Err(_) => " failed",
            });
        }
        None => got.text("hidden"),
    }
}

/// Whether a draw begins with an escape sequence: that turns the terminal's own wrap off.
fn turns_wrap_off(term: &mut StreamTerm<Scripted>) -> io::Result<bool> {
    term.write_str("a")?;
    term.flush()?;
    let stream = term.term().writer().get_ref().get_ref();
    Ok(stream.written().first() == Some(&0x1b))
}

fn push_facts(facts: &Facts, got: &mut Got) {
    got.number(format_args!("{} {} ", facts.rows, facts.cols));
    got.flag(facts.attended);
    match &facts.term {
        Some(kind) => got.number(format_args!(" \"{}\"", kind.as_str())),
        None => got.text(" none"),
    }
}
