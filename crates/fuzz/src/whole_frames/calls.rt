//! Random frames, each like the last one, and calls.
use crate::numbers::Numbers;
use indicatif_term::target::{Keep, LineType, MultiProgressAlignment, Segment};
use indicatif_text::columns::Refusal;
use std::alloc::Global;

/// A call of an engine; a draw and a log also take the frame.
#[derive(Drop)]
pub enum Call {
    /// A draw, with the given number of bars from the first on dropped.
    Draw(usize),
    Log(String),
    Clear,
    Keep(u64),
}

/// The answer of a call, with what became of the rows of a bar if it keeps them.
pub type Answer = Result<Option<Keep>, Refusal>;

/// The bars that are drawn, and where.
#[derive(Drop)]
pub struct Frame {
    alloc: Global,
    pub bars: Vec<Segment>,
    pub alignment: MultiProgressAlignment,
    /// The number of the next new bar.
    next: u64,
}

impl Frame {
    pub fn new(alloc: Global) -> Frame {
        Frame {
            alloc,
            bars: Vec::new(alloc),
            alignment: MultiProgressAlignment::Top,
            next: 0,
        }
    }

    /// Changes it a little, or not at all.
    pub fn change(&mut self, numbers: &mut Numbers) -> Result<(), Refusal> {
        let at = numbers.below(self.bars.len() + 1);
        let change = numbers.below(8);
        match (change, self.bars.get_mut(at)) {
            (0 | 1, _) => self.add(at, numbers)?,
            (2, _) => self.take(at),
            (3, Some(bar)) => lengthen(self.alloc, bar, numbers)?,
            (4 | 5, Some(bar)) => rewrite(self.alloc, &mut bar.lines, numbers)?,
            _ => (),
        }
        self.alignment = match numbers.one_in(4) {
            true => MultiProgressAlignment::Bottom,
            false => MultiProgressAlignment::Top,
        };
        Ok(())
    }

    /// Adds a new bar of up to three lines.
    fn add(&mut self, at: usize, numbers: &mut Numbers) -> Result<(), Refusal> {
        let mut lines = Vec::new(self.alloc);
        for _ in 0..numbers.below(4) {
            lines.push(line(self.alloc, numbers)?)?;
        }
        let bar = self.next;
        self.next = self.next.saturating_add(1);
        self.bars
            .insert(at.min(self.bars.len()), Segment { bar, lines })?;
        Ok(())
    }

    /// Removes a bar.
    fn take(&mut self, at: usize) {
        if at < self.bars.len() {
            self.bars.remove(at);
        }
    }

    /// A call that fits the frame.
    pub fn call(&mut self, numbers: &mut Numbers) -> Result<Call, Refusal> {
        Ok(match (numbers.below(16), self.bars.first()) {
            (0 | 1, _) => Call::Log(text(self.alloc, numbers)?),
            (2, _) => Call::Clear,
            (3, Some(bar)) => Call::Keep(bar.bar),
            (3, None) => Call::Keep(0),
            (4 | 5, _) => Call::Draw(numbers.below(self.bars.len() + 1)),
            _ => Call::Draw(0),
        })
    }

    /// Removes the bars that were dropped or kept.
    pub fn follow(&mut self, call: &Call) {
        let gone = match call {
            Call::Draw(pass) => *pass,
            Call::Keep(_) => 1,
            Call::Log(_) | Call::Clear => 0,
        };
        for _ in 0..gone {
            self.take(0);
        }
    }
}

/// Adds a line to a bar.
fn lengthen(alloc: Global, bar: &mut Segment, numbers: &mut Numbers) -> Result<(), Refusal> {
    let line = line(alloc, numbers)?;
    let place = numbers.below(bar.lines.len() + 1);
    Ok(bar.lines.insert(place.min(bar.lines.len()), line)?)
}

/// Sets another text of a line.
fn rewrite(alloc: Global, lines: &mut [LineType], numbers: &mut Numbers) -> Result<(), Refusal> {
    let line = match numbers.one_in(2) {
        true => LineType::Bar(progress(alloc, numbers)?),
        false => line(alloc, numbers)?,
    };
    if let Some(old) = lines.get_mut(numbers.below(lines.len())) {
        *old = line;
    }
    Ok(())
}

/// A line.
fn line(alloc: Global, numbers: &mut Numbers) -> Result<LineType, Refusal> {
    Ok(match numbers.below(6) {
        0 => LineType::Empty,
        1 => LineType::Text(characters(alloc, numbers)?),
        2 | 3 => LineType::Bar(progress(alloc, numbers)?),
        _ => LineType::Bar(characters(alloc, numbers)?),
    })
}

/// A text of one line or two.
fn text(alloc: Global, numbers: &mut Numbers) -> Result<String, Refusal> {
    let mut text = characters(alloc, numbers)?;
    if numbers.one_in(3) {
        text.push('\n')?;
        text.push_str(characters(alloc, numbers)?.as_str())?;
    }
    Ok(text)
}

/// A progress bar in colours between narrow characters, as long as any other: of two such lines only some cells differ.
fn progress(alloc: Global, numbers: &mut Numbers) -> Result<String, Refusal> {
    let done = numbers.below(5);
    let colours = match numbers.one_in(8) {
        true => "\u{1b}[35m",
        false => "\u{1b}[1m\u{1b}[36m",
    };
    let last = numbers.piece_of("c|\u{1b}[31mr\u{1b}[0m|d|d");
    let front = "bbbb".get(..done).unwrap_or("");
    let back = "dd d".get(done..).unwrap_or("");
    Ok(format!(in alloc; "c{colours}{front}\u{1b}[34m{back}\u{1b}[0m\u{1b}[0m{last}")?)
}

/// Some characters: narrow, wide and joined ones, and colours.
fn characters(alloc: Global, numbers: &mut Numbers) -> Result<String, Refusal> {
    let pieces =
        "国|国|a\u{308}|\u{1b}[31mr\u{1b}[0m| |b|\u{1b}[36mb\u{1b}[34md\u{1b}[0m\u{1b}[0m|c|d|d|d|d";
    numbers.joined(alloc, pieces, 9)
}
