//! A terminal that keeps colours: one in memory that shows a character with colours as another one of its width.
use crate::sweeps::record::Size;
use indicatif_term::cells::Cells;
use indicatif_text::columns::Refusal;
use std::alloc::Global;

/// The number of the open colours after a parameter of a colour sequence: 0 for none, 1 to 8 for `30` to `37`, and 9 more for bold letters.
fn colour_number(number: u8, parameter: &str) -> u8 {
    match parameter.parse::<u8>() {
        Ok(1) => (number % 9).saturating_add(9),
        Ok(colour) if 30 <= colour && colour < 38 => {
            (number / 9).saturating_mul(9).saturating_add(colour - 29)
        }
        _ => 0,
    }
}

/// The character that shows this one with colours: one of private use for an ASCII one, a wide one for a wide one.
fn in_colours(number: u8, c: char) -> char {
    let other = match c {
        ' '..='~' if number > 0 => char::from_u32(0xE000 + 96 * u32::from(number) + c as u32),
        '国' => char::from_u32('国' as u32 + u32::from(number)),
        _ => None,
    };
    other.unwrap_or(c)
}

/// A terminal with its colours, of which `0`, `1` and the eight of `30` to `37` are known.
#[derive(Drop)]
pub struct Coloured {
    cells: Cells,
    /// The number of the open colours.
    open: u8,
    /// How many bytes were read.
    read: usize,
    /// What was read of a sequence.
    sequence: String,
    /// The bytes for the cells.
    fed: String,
}

impl Coloured {
    pub fn new(alloc: Global, size: Size) -> Result<Coloured, Refusal> {
        Ok(Coloured {
            cells: Cells::new(alloc, size.rows, size.cols)?,
            open: 0,
            read: 0,
            sequence: String::new(alloc),
            fed: String::new(alloc),
        })
    }

    /// Reads what was written since; whether it could be read.
    pub fn read_on(&mut self, written: &[u8]) -> Result<bool, Refusal> {
        let Ok(text) = str::from_utf8(written.get(self.read..).unwrap_or(&[])) else {
            return Ok(false);
        };
        self.read = written.len();
        for c in text.chars() {
            self.take(c)?;
        }
        let is_fed = self.cells.feed(self.fed.as_str().as_bytes()).is_ok();
        self.fed.clear();
        Ok(is_fed)
    }

    fn take(&mut self, c: char) -> Result<(), Refusal> {
        if self.sequence.is_empty() && c != '\u{1b}' {
            return Ok(self.fed.push(in_colours(self.open, c))?);
        }
        self.sequence.push(c)?;
        if c.is_ascii_alphabetic() {
            self.end_sequence()?;
        }
        Ok(())
    }

    /// A colour sequence sets colours; the cells get any other.
    fn end_sequence(&mut self) -> Result<(), Refusal> {
        let sequence = self.sequence.as_str();
        let inner = sequence.strip_prefix("\u{1b}[").unwrap_or("");
        match inner.strip_suffix('m') {
            Some(parameter) => self.open = colour_number(self.open, parameter),
            None => self.fed.push_str(sequence)?,
        }
        self.sequence.clear();
        Ok(())
    }

    /// Whether both show the same rows in the same colours, with the same cursor.
    pub fn is_as(&self, other: &Coloured) -> Result<bool, Refusal> {
        let (ours, theirs) = (&self.cells, &other.cells);
        Ok(ours.cursor() == theirs.cursor() && ours.picture()? == theirs.picture()?)
    }
}
