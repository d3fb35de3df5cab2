//! `bars run` over readers and writers: its output, its message, and its status.
use crate::scripted::{Answer, Scripted};
use bars_run::run_bars;
use scripts::got::{Bad, Got, Outcome};
use scripts::row::{At, Words, number, unescaped_bytes};
use std::io::ErrorKind;

/// The streams of a run, and how many bytes of commands there are.
#[derive(Drop)]
struct Streams {
    input: Scripted,
    count: usize,
    out: Scripted,
    err: Scripted,
}

/// `bars [CHANGE ..] WORDS: COMMANDS`, with `\n` after each command: `bars` with these words, separated by spaces, on these commands. Gives
/// the status; after a space the output, if any; and after ` !` the message.
///
/// A change, each at most once, is `input=KIND`, which gives one byte a call, and fails so after the commands (`BrokenPipe` or
/// `OutOfMemory`); `room=N`, the output takes N bytes; `flush=no`, the last flush fails; `said=no`, the message can't be written. The word
/// `alone`: no words, not even an empty one.
pub fn ran(rest: &str, at: At, got: &mut Got) -> Outcome {
    let (words, commands) = rest.split_once(':').ok_or(Bad::Step)?;
    let mut words = Words::of(words);
    let mut streams = streams_of(commands.strip_prefix(' ').unwrap_or(commands), at)?;
    for _ in 0..4 {
        change(&mut streams, &mut words, at)?;
    }
    let args = args_of(words.rest(), at)?;
    let Streams {
        input,
        mut out,
        mut err,
        ..
    } = streams;
    got.number(run_bars(at.alloc, &args, input, &mut out, &mut err));
    push_printed(" ", out.written(), got);
    push_printed(" !", err.written(), got);
    Ok(())
}

fn streams_of(commands: &str, at: At) -> Result<Streams, Bad> {
    let commands = unescaped_bytes(at.alloc, commands)?;
    Ok(Streams {
        count: commands.len(),
        input: Scripted::new(at.alloc, commands, Vec::new(at.alloc)),
        out: Scripted::new(at.alloc, Vec::new(at.alloc), Vec::new(at.alloc)),
        err: Scripted::new(at.alloc, Vec::new(at.alloc), Vec::new(at.alloc)),
    })
}

/// Makes the change of the next word, if it is one.
fn change(streams: &mut Streams, words: &mut Words<'_>, at: At) -> Outcome {
    let mut behind = *words;
    match behind.word().split_once('=') {
        Some(("input", kind)) => {
            let mut answers = vec![in at.alloc; Answer::Bytes(1); streams.count]?;
            answers.push(Answer::Fails(match kind {
                "BrokenPipe" => ErrorKind::BrokenPipe,
                _ => ErrorKind::OutOfMemory,
            }))?;
            streams.input.answers = answers;
        }
        Some(("room", room)) => streams.out.room = number(room)?,
        Some(("flush", "no")) => streams.out.is_flush_failing = true,
        Some(("said", "no")) => streams.err.room = 0,
        _ => return Ok(()),
    }
    *words = behind;
    Ok(())
}

/// The words that `bars` is run with.
fn args_of(words: &str, at: At) -> Result<Vec<String>, Bad> {
    let mut args = Vec::new(at.alloc);
    if words != "alone" {
        for word in words.split(' ') {
            args.push(String::from_str(at.alloc, word)?)?;
        }
    }
    Ok(args)
}

/// Appends the output after this text; nothing if there is none.
fn push_printed(parting: &str, output: &[u8], got: &mut Got) {
    if !output.is_empty() {
        got.text(parting);
        got.bytes(output);
    }
}
