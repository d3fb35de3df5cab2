//! The results of steps, and why one has none.
use indicatif_text::columns::{Drawn, Refusal};
use std::alloc::{AllocError, AllocFailed, Global};
use std::fmt::Display;
use std::io::ErrorKind;
use std::str;

/// Why a step has no result.
#[derive(Clone, Copy, Drop)]
pub enum Bad {
    /// It can't be read.
    Step,
    /// It was refused.
    Refused(Refusal),
}

impl From<Refusal> for Bad {
    fn from(refusal: Refusal) -> Bad {
        Bad::Refused(refusal)
    }
}

impl From<AllocError> for Bad {
    fn from(_: AllocError) -> Bad {
        Bad::Refused(Refusal::Memory)
    }
}

impl<V: Drop> From<AllocFailed<V>> for Bad {
    fn from(_: AllocFailed<V>) -> Bad {
        Bad::Refused(Refusal::Memory)
    }
}

/// A step that was made, or why it has no result.
pub type Outcome = Result<(), Bad>;

/// The results of steps, as one text, separated by `; `. If a step has none, the text says why. Want of memory is kept, and makes the row
/// differ.
#[derive(Drop)]
pub struct Got {
    text: String,
    is_new: bool,
    is_lost: bool,
}

impl Got {
    /// No result yet.
    pub fn new(alloc: Global) -> Got {
        Got {
            text: String::new(alloc),
            is_new: true,
            is_lost: false,
        }
    }

    /// Clears the results.
    pub fn clear(&mut self) {
        self.text.clear();
        self.is_new = true;
        self.is_lost = false;
    }

    /// Begins the result of the next step.
    pub fn begin(&mut self) {
        self.is_new = true;
    }

    /// The results of the steps, without escapes.
    pub fn as_str(&self) -> &str {
        self.text.as_str()
    }

    /// Whether a part of it got no memory.
    pub fn is_lost(&self) -> bool {
        self.is_lost
    }

    fn note(&mut self, done: Result<(), AllocError>) {
        self.is_lost |= done.is_err();
    }

    /// Separates the next result from those before.
    fn part(&mut self) {
        if self.is_new && !self.text.is_empty() {
            let done = self.text.push_str("; ");
            self.note(done);
        }
        self.is_new = false;
    }

    /// Appends a text.
    pub fn text(&mut self, text: &str) {
        if !text.is_empty() {
            self.part();
            let done = self.text.push_str(text);
            self.note(done);
        }
    }

    /// The text to which a call appends.
    pub fn room(&mut self) -> &mut String {
        self.part();
        &mut self.text
    }

    /// Appends a number, or anything else with a text.
    pub fn number<D: Display + Drop>(&mut self, value: D) {
        self.part();
        let done = self.text.write_fmt(value);
        self.note(done);
    }

    /// Appends a number, or `-`.
    pub fn optional<D: Display + Drop>(&mut self, value: Option<D>) {
        self.number_or(value, "-");
    }

    /// Appends a number, or this text if there is none.
    pub fn number_or<D: Display + Drop>(&mut self, value: Option<D>, none: &str) {
        match value {
            Some(value) => self.number(value),
            None => self.text(none),
        }
    }

    /// Appends two numbers: a row and a column, or rows and columns.
    pub fn pair(&mut self, (one, other): (u16, u16)) {
        self.number(format_args!("{one} {other}"));
    }

    /// Appends this text, unless the step has no result yet: it stands between the parts of a result.
    pub fn between(&mut self, parting: &str) {
        if !self.is_new {
            self.text(parting);
        }
    }

    /// Appends `yes` or `no`.
    pub fn flag(&mut self, value: bool) {
        self.text(if value { "yes" } else { "no" });
    }

    /// Appends the answer of a call: `yes`, `limited`, `hidden`, or a refusal's number.
    pub fn answer(&mut self, answer: Result<Drawn, Refusal>) {
        match answer {
            Ok(Drawn::Yes) => self.text("yes"),
            Ok(Drawn::Limited) => self.text("limited"),
            Ok(Drawn::Hidden) => self.text("hidden"),
            Err(refusal) => self.refusal(refusal),
        }
    }

    /// Appends a refusal's number; for a template also the character and its state, for a terminal also how it failed.
    pub fn refusal(&mut self, refusal: Refusal) {
        self.text("E");
        self.number(refusal.number());
        match refusal {
            Refusal::Template { next, state } => self.number(format_args!(" {next} {state:?}")),
            Refusal::Terminal(kind) => {
                self.text(" ");
                self.kind(kind);
            }
            _ => {}
        }
    }

    /// Appends how a call of a terminal failed: `BrokenPipe`, `WriteZero`, or `failed`.
    pub fn kind(&mut self, kind: ErrorKind) {
        self.text(match kind {
            ErrorKind::BrokenPipe => "BrokenPipe",
            ErrorKind::WriteZero => "WriteZero",
            _ => "failed",
        });
    }

    /// Appends why a step has no result.
    pub fn bad(&mut self, bad: Bad) {
        match bad {
            Bad::Step => self.text("no such step"),
            Bad::Refused(refusal) => self.refusal(refusal),
        }
    }

    /// Appends texts, each followed by a newline.
    pub fn rows(&mut self, rows: &[String]) {
        for row in rows {
            self.text(row.as_str());
            self.text("\n");
        }
    }

    /// Appends numbers, separated by spaces.
    pub fn numbers(&mut self, numbers: &[u64]) {
        for number in numbers {
            self.between(" ");
            self.number(*number);
        }
    }

    /// Appends bytes: as text if they are UTF-8, otherwise each that isn't ASCII as its number between `<` and `>`.
    pub fn bytes(&mut self, bytes: &[u8]) {
        match str::from_utf8(bytes) {
            Ok(text) => self.text(text),
            Err(_) => self.each_byte(bytes),
        }
    }

    fn each_byte(&mut self, bytes: &[u8]) {
        for byte in bytes {
            if byte.is_ascii() {
                self.number(char::from(*byte));
            } else {
                self.number(format_args!("<{}>", *byte));
            }
        }
    }
}
