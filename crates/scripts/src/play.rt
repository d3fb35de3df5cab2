//! Files of rows: which of their lines are rows, which steps a row makes, and which rows agree. Whoever plays them makes the steps, since a
//! step may start a thread, which no method of a trait can.
use crate::got::Got;
use crate::row::Row;
use crate::spelling::{Escaped, unescaped};
use std::alloc::{AllocError, Global};
use std::io;

/// How many rows agreed and differed.
#[derive(Clone, Copy, Default, Drop)]
pub struct Tally {
    /// Rows that agreed.
    pub passed: u64,
    /// Rows that differed.
    pub failed: u64,
}

impl Tally {
    /// The sum of both.
    pub fn and(self, other: Tally) -> Tally {
        Tally {
            passed: self.passed.saturating_add(other.passed),
            failed: self.failed.saturating_add(other.failed),
        }
    }

    /// Counts a row.
    fn count(&mut self, agrees: bool) {
        self.passed = self.passed.saturating_add(u64::from(agrees));
        self.failed = self.failed.saturating_add(u64::from(!agrees));
    }
}

/// The steps of a row, and what they are to give; what a row behind `given ` has comes first in each row behind `+ `.
#[derive(Drop)]
struct Text {
    steps: String,
    wanted: String,
}

impl Text {
    fn new(alloc: Global) -> Text {
        Text {
            steps: String::new(alloc),
            wanted: String::new(alloc),
        }
    }

    /// Has what this row has, and nothing before.
    fn store(&mut self, row: Row<'_>) -> Result<(), AllocError> {
        self.steps.clear();
        self.wanted.clear();
        self.add(row)
    }

    /// Has what this row has behind what was there.
    fn add(&mut self, row: Row<'_>) -> Result<(), AllocError> {
        add(&mut self.steps, row.steps)?;
        add(&mut self.wanted, row.wanted)
    }

    fn row(&self) -> Row<'_> {
        Row {
            steps: self.steps.as_str(),
            wanted: self.wanted.as_str(),
        }
    }
}

/// Appends a text, parted by `; ` from what stands before it.
fn add(text: &mut String, more: &str) -> Result<(), AllocError> {
    if !text.is_empty() && !more.is_empty() {
        text.push_str("; ")?;
    }
    text.push_str(more)
}

/// The rows of a file, of which one after another is read, made and judged.
#[derive(Drop)]
pub struct Player<'a> {
    alloc: Global,
    path: &'a str,
    line: u64,
    given: Text,
    row: Text,
    tally: Tally,
}

impl<'a> Player<'a> {
    /// Before the first line of this file.
    pub fn new(alloc: Global, path: &'a str) -> Player<'a> {
        Player {
            alloc,
            path,
            line: 0,
            given: Text::new(alloc),
            row: Text::new(alloc),
            tally: Tally::default(),
        }
    }

    /// Reads the next line; whether it is a row, whose steps are to be made.
    pub fn reads(&mut self, line: &str) -> Result<bool, AllocError> {
        self.line = self.line.saturating_add(1);
        match Row::of(line) {
            Some(row) => self.store(row)?,
            None => return Ok(false),
        }
        Ok(true)
    }

    fn store(&mut self, row: Row<'_>) -> Result<(), AllocError> {
        if let Some(steps) = row.steps.strip_prefix("+ ") {
            self.row.store(self.given.row())?;
            return self.row.add(Row { steps, ..row });
        }
        if let Some(steps) = row.steps.strip_prefix("given ") {
            let row = Row { steps, ..row };
            self.given.store(row)?;
            return self.row.store(row);
        }
        self.row.store(row)
    }

    /// The steps of the row, parted by `; `.
    pub fn steps(&self) -> &str {
        self.row.steps.as_str()
    }

    /// Counts the row by what its steps gave, and prints it, with its file and its line, if it differs.
    pub fn judge<R: Print>(&mut self, rt: &R, got: &Got) -> io::Result<()> {
        let agrees = self.is_wanted(got);
        self.tally.count(agrees);
        if agrees {
            return Ok(());
        }
        let (path, line, got) = (self.path, self.line, Escaped(got.as_str()));
        let Row { steps, wanted } = self.row.row();
        println!(rt; "{path}, line {line}: {steps}\n  wanted {wanted}\n  got {got}")
    }

    /// Whether this is what the row says.
    fn is_wanted(&self, got: &Got) -> bool {
        match unescaped(self.alloc, self.row.wanted.as_str()) {
            Ok(wanted) => !got.is_lost() && got.as_str() == wanted.as_str(),
            Err(_) => false,
        }
    }

    /// How many rows agreed and differed so far.
    pub fn tally(&self) -> Tally {
        self.tally
    }
}
