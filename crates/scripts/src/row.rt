//! A line of a file, its steps, and the words of a step.
use crate::got::Bad;
pub use crate::spelling::{Escaped, flag, number, optional, unescaped, unescaped_bytes};
use indicatif_text::columns::Moment;
use std::alloc::Global;
use std::str::FromStr;

/// The steps of a line, and their expected result.
#[derive(Clone, Copy, Drop)]
pub struct Row<'a> {
    /// One step, or several, separated by `; `.
    pub steps: &'a str,
    /// The expected result of the steps.
    pub wanted: &'a str,
}

impl<'a> Row<'a> {
    /// The row of a line; `None` if it is skipped.
    pub fn of(line: &'a str) -> Option<Row<'a>> {
        if line.is_empty() || line.starts_with('#') {
            return None;
        }
        Some(match line.split_once(" -> ") {
            Some((steps, wanted)) => Row { steps, wanted },
            None => Row {
                steps: line.strip_suffix(" ->").unwrap_or(line),
                wanted: "",
            },
        })
    }
}

/// The allocator and the moment of a step.
#[derive(Clone, Copy, Drop)]
pub struct At {
    /// The allocator.
    pub alloc: Global,
    /// The moment of the step.
    pub now: Moment,
}

impl At {
    /// A value in a box, so that each way out of a function drops it by one call.
    pub fn boxed<V: Drop>(self, value: V) -> Result<Box<V>, Bad> {
        Ok(Box::new(self.alloc, value)?)
    }
}

/// A step without its moment (` @` and nanoseconds at its end), and that moment.
pub fn timed(step: &str) -> (&str, Option<Moment>) {
    match step.rsplit_once(" @") {
        Some((before, moment)) => match moment.parse::<u64>() {
            Ok(moment) => (before, Some(moment)),
            Err(_) => (step, None),
        },
        None => (step, None),
    }
}

/// The first word of a text, and the text after the space.
pub fn headed(text: &str) -> (&str, &str) {
    text.split_once(' ').unwrap_or((text, ""))
}

/// The text before the first tab, and the text behind it.
pub fn tabbed(text: &str) -> (&str, &str) {
    text.split_once('\t').unwrap_or((text, ""))
}

/// The words of a step, read one after another.
#[derive(Clone, Copy, Drop)]
pub struct Words<'a> {
    rest: &'a str,
    parting: char,
}

impl<'a> Words<'a> {
    /// The words of a text, separated by spaces.
    pub fn of(text: &'a str) -> Words<'a> {
        Words {
            rest: text,
            parting: ' ',
        }
    }

    /// The words of a text, separated by tabs.
    pub fn in_fields(text: &'a str) -> Words<'a> {
        Words {
            rest: text,
            parting: '\t',
        }
    }

    /// The rest.
    pub fn rest(&self) -> &'a str {
        self.rest
    }

    /// The next word.
    pub fn word(&mut self) -> &'a str {
        let (word, rest) = self
            .rest
            .split_once(self.parting)
            .unwrap_or((self.rest, ""));
        self.rest = rest;
        word
    }

    /// The next word as a number.
    pub fn number<N: FromStr>(&mut self) -> Result<N, Bad>
    where
        N::Err: Drop,
    {
        number(self.word())
    }

    /// The next word as a number, or `-` for none.
    pub fn optional(&mut self) -> Result<Option<u64>, Bad> {
        optional(self.word())
    }

    /// The rest as a text, with its escapes replaced.
    pub fn text(self, alloc: Global) -> Result<String, Bad> {
        unescaped(alloc, self.rest)
    }
}
