//! A hidden bar as plain lines.
//!
//! `plain EVERY LEN BAR` begins with a bar that was made at moment 0, and one line each EVERY nanoseconds. Then
//!
//! - `look @NOW`: the line that is due, with a line end after each row, or `-`.
//! - Any other step is a command of the bar, and gives nothing.
use indicatif::PlainLines;
use scripts::commands::command;
use scripts::got::{Bad, Got, Outcome};
use scripts::lone::{Bar, bar_of};
use scripts::row::{At, Words};

/// The bar, and the state of its plain lines.
#[derive(Drop)]
pub struct Plain {
    bar: Box<Bar>,
    lines: PlainLines,
}

/// A bar without a line yet.
pub fn begin(rest: &str, at: At) -> Result<Plain, Bad> {
    let mut words = Words::of(rest);
    let lines = PlainLines::every(words.number()?);
    let len = words.optional()?;
    let bar = bar_of(at, words.rest(), len)?;
    Ok(Plain { bar, lines })
}

impl Plain {
    /// Makes a command, or asks for the line that is due.
    pub fn step(&mut self, step: &str, at: At, got: &mut Got) -> Outcome {
        if step != "look" {
            let _ = self.bar.apply(command(at.alloc, step)?, at.now);
            return Ok(());
        }
        match self.lines.line_of(&self.bar, at.now)? {
            Some(line) => got.text(line.as_str()),
            None => got.text("-"),
        }
        Ok(())
    }
}
