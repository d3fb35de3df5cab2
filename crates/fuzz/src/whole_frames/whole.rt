//! An engine that writes whole frames: it erases all rows, and writes all lines again.
use crate::sweeps::record::Size;
use crate::whole_frames::calls::{Answer, Call, Frame};
use indicatif_term::target::{Keep, MultiProgressAlignment, Segment};
use indicatif_text::columns::{Refusal, wrapped};
use std::alloc::Global;
use std::convert::AsStr;

/// An engine that writes whole frames. Rows are counted from the first one that may still change.
#[derive(Drop)]
pub struct WholeFrames {
    alloc: Global,
    size: Size,
    written: String,
    kept: usize,
    /// Whose each row below these is; nobody's if it is a blank one.
    live: Vec<Option<u64>>,
    /// How many rows were reached.
    reach: usize,
    /// Whether the cursor is at the front of the row below all these; otherwise it waits at the end of the last.
    below: bool,
}

impl WholeFrames {
    pub fn new(alloc: Global, size: Size) -> WholeFrames {
        WholeFrames {
            alloc,
            size,
            written: String::new(alloc),
            kept: 0,
            live: Vec::new(alloc),
            reach: 1,
            below: true,
        }
    }

    /// What it has written.
    pub fn written(&self) -> &[u8] {
        self.written.as_str().as_bytes()
    }

    /// Makes a call: a draw writes a frame over the live rows, and keeps the rows of its first bars; a log writes a text above a frame, over
    /// all rows; a clear writes nothing over all rows.
    pub fn make(&mut self, call: &Call, frame: &Frame) -> Answer {
        let (bars, alignment) = (&frame.bars, frame.alignment);
        let live = self.live.len();
        let all = self.kept.saturating_add(live);
        let above = match call {
            Call::Draw(_) => self.replace(live, None, bars, alignment)?,
            Call::Log(text) => self.replace(all, Some(text.as_str()), bars, alignment)?,
            Call::Clear => self.replace(all, None, &[], alignment)?,
            Call::Keep(bar) => return Ok(Some(self.keep(*bar)?)),
        };
        match call {
            Call::Draw(pass) => self.scroll(bars.get(..*pass).unwrap_or(bars))?,
            _ => {
                self.kept = 0;
                let reached = above.saturating_add(self.live.len());
                self.reach = self.reach.max(reached).saturating_sub(above);
            }
        }
        self.rest()?;
        Ok(None)
    }

    /// Writes a text and below it a frame, over the last rows; how many rows the text has.
    fn replace(
        &mut self,
        taken: usize,
        text: Option<&str>,
        frame: &[Segment],
        alignment: MultiProgressAlignment,
    ) -> Result<usize, Refusal> {
        let mut lines = text_lines(self.alloc, text)?;
        let above = self.rows_of(&lines)?;
        let (shown, live) = self.fitting_lines(frame)?;
        let blanks = match alignment {
            MultiProgressAlignment::Bottom if !live.is_empty() => {
                taken.saturating_sub(above).saturating_sub(live.len())
            }
            _ => 0,
        };
        lines.resize(lines.len().saturating_add(blanks), "")?;
        lines.extend_from_slice(&shown)?;
        self.take_back(taken)?;
        for line in lines {
            self.put(line)?;
        }
        self.live = Vec::from_elem(self.alloc, None, blanks)?;
        self.live.extend_from_slice(&live)?;
        Ok(above)
    }

    /// Keeps the rows of these bars; rows that the window left behind don't change anymore.
    fn scroll(&mut self, passed: &[Segment]) -> Result<(), Refusal> {
        let reached = self.kept.saturating_add(self.live.len());
        self.reach = self.reach.max(reached);
        for bar in passed {
            self.keep(bar.bar)?;
        }
        let behind = self.reach.saturating_sub(usize::from(self.size.rows));
        let gone = self.kept.min(behind);
        self.kept = self.kept.saturating_sub(gone);
        self.reach = self.reach.saturating_sub(gone);
        Ok(())
    }

    /// Keeps the rows of a bar that is gone, with the blanks above them, if they are the first.
    fn keep(&mut self, bar: u64) -> Result<Keep, Refusal> {
        let mut end = 0_usize;
        let mut is_behind = false;
        for (at, row) in self.live.iter().enumerate() {
            if *row == Some(bar) {
                end = at.saturating_add(1);
            }
            is_behind |= end == 0 && row.is_some();
        }
        match (end, is_behind) {
            (0, _) => Ok(Keep::Absent),
            (_, true) => Ok(Keep::Behind),
            _ => {
                self.kept = self.kept.saturating_add(end);
                let rest = self.live.get(end..).unwrap_or(&[]);
                self.live = Vec::from_slice(self.alloc, rest)?;
                Ok(Keep::Passed)
            }
        }
    }

    fn width(&self) -> usize {
        usize::from(self.size.cols)
    }

    /// How many rows these lines have.
    fn rows_of(&self, lines: &[&str]) -> Result<usize, Refusal> {
        let mut rows = 0_usize;
        for line in lines {
            rows = rows.saturating_add(wrapped(line, self.width())?.height);
        }
        Ok(rows)
    }

    /// As many lines from the front of a frame as fit on the terminal's rows, and whose these rows are.
    fn fitting_lines<'a>(
        &self,
        frame: &'a [Segment],
    ) -> Result<(Vec<&'a str>, Vec<Option<u64>>), Refusal> {
        let (mut lines, mut live) = (Vec::new(self.alloc), Vec::new(self.alloc));
        let mut is_full = false;
        for bar in frame {
            is_full = self.push_fitting(bar, &mut lines, &mut live, is_full)?;
        }
        Ok((lines, live))
    }

    /// As many lines of a bar as fit, none after one that didn't fit; whether there is such a line by now.
    fn push_fitting<'a>(
        &self,
        bar: &'a Segment,
        lines: &mut Vec<&'a str>,
        live: &mut Vec<Option<u64>>,
        mut is_full: bool,
    ) -> Result<bool, Refusal> {
        for line in &bar.lines {
            let rows = wrapped(line.as_str(), self.width())?.height;
            let end = live.len().saturating_add(rows);
            is_full |= end > usize::from(self.size.rows);
            if !is_full {
                lines.push(line.as_str())?;
                live.resize(end, Some(bar.bar))?;
            }
        }
        Ok(is_full)
    }

    /// Erases the last rows: the cursor is at the front of the first afterwards.
    fn take_back(&mut self, rows: usize) -> Result<(), Refusal> {
        if rows == 0 {
            return Ok(());
        }
        let last = rows.saturating_sub(1);
        self.move_up(if self.below { rows } else { last })?;
        self.written.push_str("\r\u{1b}[2K")?;
        for _ in 0..last {
            self.written.push_str("\r\n\r\u{1b}[2K")?;
        }
        self.below = true;
        self.move_up(last)
    }

    fn move_up(&mut self, rows: usize) -> Result<(), Refusal> {
        if rows > 0 {
            let up = format!(in self.alloc; "\u{1b}[{rows}A")?;
            self.written.push_str(up.as_str())?;
        }
        Ok(())
    }

    /// Writes a line and fills its last row.
    fn put(&mut self, line: &str) -> Result<(), Refusal> {
        self.end_row()?;
        self.written.push_str(line)?;
        for _ in wrapped(line, self.width())?.last_line_width..self.width() {
            self.written.push(' ')?;
        }
        self.below = false;
        Ok(())
    }

    /// Goes below the row at whose end the cursor waits, if it does.
    fn end_row(&mut self) -> Result<(), Refusal> {
        if !self.below {
            self.written.push_str("\r\n")?;
        }
        Ok(())
    }

    /// Goes below the rows if no live one is left, and rows below them were reached.
    fn rest(&mut self) -> Result<(), Refusal> {
        let goes_below = self.live.is_empty() && self.reach > self.kept;
        if goes_below {
            self.end_row()?;
        }
        self.below = goes_below;
        Ok(())
    }
}

/// The lines of a text, if there is one: an empty one of an empty text.
fn text_lines(alloc: Global, text: Option<&str>) -> Result<Vec<&str>, Refusal> {
    let mut lines = Vec::new(alloc);
    if text == Some("") {
        lines.push("")?;
    }
    for line in text.unwrap_or("").lines() {
        lines.push(line)?;
    }
    Ok(lines)
}
