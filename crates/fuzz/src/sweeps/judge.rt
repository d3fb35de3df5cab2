//! What must hold of the bytes that were written: rows above stand at each of them.
use crate::faults::{Fault, Held};
use crate::sweeps::record::Size;
use indicatif_term::cells::Cells;
use scripts::screen::filled;
use std::alloc::Global;

/// At which bytes the rows are checked.
#[derive(Clone, Copy, Drop)]
pub enum Look {
    /// After each of them.
    EachByte,
    /// After each from the first call that fails on, and after the last one of each call before it.
    FromFailure,
    /// After each of a call that fails and of the first draw after it, and after the last one of each other call.
    AtFailure,
    /// After the last byte of a call.
    EachCall,
}

/// The rows of a terminal, and which of them must not change.
#[derive(Drop)]
pub struct Judge {
    alloc: Global,
    size: Size,
    look: Look,
    cells: Cells,
    above: Vec<String>,
    has_failed: bool,
    is_littered: bool,
    is_cut: bool,
    /// What would stand if all had been empty where the first drawing behind a failure began, and below that.
    emptied: Option<Cells>,
}

impl Judge {
    /// A terminal of this size, on which two rows stand, with the cursor at the front of the next.
    pub fn new(alloc: Global, size: Size, look: Look) -> Result<Judge, Fault> {
        let above = text_lines(alloc, "x\ny")?;
        let mut cells = written(alloc, size, &above)?;
        feed(&mut cells, b"\r\n")?;
        Ok(Judge {
            alloc,
            size,
            look,
            cells,
            above,
            has_failed: false,
            is_littered: false,
            is_cut: false,
            emptied: None,
        })
    }

    /// Reads what a call wrote, which failed or didn't.
    pub fn reads(&mut self, bytes: &[u8], has_failed: bool) -> Held {
        let rest = match bytes.strip_prefix(b"\r\n") {
            _ if !self.has_failed || has_failed || bytes.is_empty() => bytes,
            Some(rest) => {
                self.looks_at(b"\r\n", has_failed)?;
                self.emptied = Some(self.emptied_below()?);
                rest
            }
            None => return Err(Fault::Beginning),
        };
        self.looks_at(rest, has_failed)?;
        self.has_failed = has_failed || self.has_failed && bytes.is_empty();
        if has_failed {
            self.is_littered = true;
            self.emptied = None;
            self.keeps(self.rows_to_the_cursor()?)?;
        }
        self.stands_alone(rest)
    }

    /// Reads bytes of a call which failed or didn't, as closely as they are looked at, and checks the rows above.
    fn looks_at(&mut self, bytes: &[u8], has_failed: bool) -> Held {
        let is_looked_at_each = match self.look {
            Look::EachByte => true,
            Look::FromFailure => has_failed || self.is_littered,
            Look::AtFailure => has_failed || self.has_failed,
            Look::EachCall => false,
        };
        let count = if is_looked_at_each { 1 } else { bytes.len() };
        for piece in bytes.chunks(count.max(1)) {
            self.takes(piece)?;
            self.stands()?;
        }
        Ok(())
    }

    /// The rows above are there.
    fn stands(&self) -> Held {
        Fault::Above.unless(self.cells.picture()?.starts_with(&self.above))
    }

    /// Notes that the first rows must not change from now on.
    fn keeps(&mut self, rows: usize) -> Held {
        self.above = self.cells.picture()?;
        self.above.truncate(rows);
        Ok(())
    }

    /// Gives the terminal another size: each row above is wrapped into rows, which must stand from now on. If nothing was drawn since a
    /// call failed, the cursor may be within its row: of the rows that this one becomes, those below the cursor needn't stand.
    pub fn resizes(&mut self, size: Size) -> Held {
        self.above = wrapped(self.alloc, size, &self.above)?;
        self.cells.resize(size.rows, size.cols)?;
        self.size = size;
        self.is_cut = self.is_littered;
        self.emptied = None;
        self.stands()?;
        match self.has_failed {
            true => self.keeps(self.rows_to_the_cursor()?),
            false => Ok(()),
        }
    }

    /// Reads bytes without a check.
    pub fn takes(&mut self, bytes: &[u8]) -> Held {
        feed(&mut self.cells, bytes)
    }

    /// The rows that were written behind a failure hold nothing else: down to the last text they are what would stand if all had been empty there.
    fn stands_alone(&mut self, bytes: &[u8]) -> Held {
        let Some(emptied) = &mut self.emptied else {
            return Ok(());
        };
        feed(emptied, bytes)?;
        let rows = emptied.picture()?;
        Fault::Beside.unless(self.cells.picture()?.starts_with(filled(&rows)))
    }

    /// The same terminal, if all were empty from the cursor's row on, at whose front it stands.
    fn emptied_below(&self) -> Result<Cells, Fault> {
        let mut rows = self.cells.picture()?;
        let above = self.rows_to_the_cursor()?.saturating_sub(1);
        for row in rows.iter_mut().skip(above) {
            row.clear();
        }
        let mut cells = written(self.alloc, self.size, &rows)?;
        let below = rows.len().saturating_sub(above).saturating_sub(1);
        if below > 0 {
            let up = format!(in self.alloc; "\x1b[{below}A")?;
            feed(&mut cells, up.as_bytes())?;
        }
        Ok(cells)
    }

    /// The rows that stand, including those that scrolled away, down to the last one that isn't empty.
    pub fn rows(&self) -> Result<Vec<String>, Fault> {
        let mut rows = self.cells.picture()?;
        let count = filled(&rows).len();
        rows.truncate(count);
        Ok(rows)
    }

    /// How many rows there are down to the cursor's, with those that have scrolled away.
    fn rows_to_the_cursor(&self) -> Result<usize, Fault> {
        let (row, _) = self.cells.cursor();
        let rows = self.cells.picture()?.len();
        let before = rows.saturating_sub(usize::from(self.size.rows));
        Ok(before.saturating_add(usize::from(row)).saturating_add(1))
    }

    /// Notes a logged text: it stands somewhere below the rows above, and belongs to them from now on. Its rows hold nothing else, even if
    /// a call failed before. Only if the terminal got another size since then, what that call left may stand after a row of the text.
    pub fn logged(&mut self, text: &str) -> Held {
        let picture = self.cells.picture()?;
        let rows = wrapped(self.alloc, self.size, &text_lines(self.alloc, text)?)?;
        match end_of(&picture, &rows, self.above.len(), self.is_cut) {
            Some(end) => self.keeps(end),
            None => Err(Fault::Lost),
        }
    }
}

fn feed(cells: &mut Cells, bytes: &[u8]) -> Held {
    let fed = cells.feed(bytes);
    fed.map_err(|(_, refusal)| Fault::Refused(refusal))
}

/// A terminal of this size to which these lines were written.
fn written(alloc: Global, size: Size, lines: &[String]) -> Result<Cells, Fault> {
    let mut cells = Cells::new(alloc, size.rows, size.cols)?;
    for (at, line) in lines.iter().enumerate() {
        if at > 0 {
            feed(&mut cells, b"\r\n")?;
        }
        feed(&mut cells, line.as_bytes())?;
    }
    Ok(cells)
}

/// The rows of these lines on a terminal of this size, without the blanks at their ends.
fn wrapped(alloc: Global, Size { cols, .. }: Size, lines: &[String]) -> Result<Vec<String>, Fault> {
    Ok(written(alloc, Size { rows: 1, cols }, lines)?.picture()?)
}

/// The lines of a text.
fn text_lines(alloc: Global, text: &str) -> Result<Vec<String>, Fault> {
    let mut lines = Vec::new(alloc);
    for line in text.split('\n') {
        lines.push(String::from_str(alloc, line)?)?;
    }
    Ok(lines)
}

/// The end of these rows in the picture, from this row on or later, unchanged or at the front of others.
fn end_of(picture: &[String], rows: &[String], from: usize, is_cut: bool) -> Option<usize> {
    for at in from..picture.len() {
        let rest = picture.get(at..)?;
        if rest.starts_with(rows) || is_cut && fronts_are(rest, rows) {
            return at.checked_add(rows.len());
        }
    }
    None
}

/// Whether these rows are prefixes of the first ones.
fn fronts_are(rows: &[String], fronts: &[String]) -> bool {
    let mut pairs = fronts.iter().zip(rows);
    fronts.len() <= rows.len() && pairs.all(|(front, row)| row.as_str().starts_with(front.as_str()))
}
