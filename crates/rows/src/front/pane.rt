//! A terminal whose wrap can be turned off and on: a screen, and DEC's private mode 7 before it (ESC `[?7l`, ESC `[?7h`). It also knows how
//! to empty a row from the cursor on (ESC `[K`).
//!
//! With the wrap off a character on the last column leaves the cursor there, so that the next one takes its place; one of two columns that
//! would begin there is skipped. So does tmux. Synchronized updates (DEC's private mode 2026) change nothing.
use indicatif::{Refusal, Term, width};
use meter_parts::cut;
use scripts::got::{Bad, Got};
use scripts::row::{At, Words, headed, number, unescaped};
use scripts::screen::{Screen, look_at};
use std::alloc::Global;
use std::cell::Cell;
use std::io::{self, Error, ErrorKind, Write};
use std::rc::Rc;
use std::str;

/// The screen, whether a full row goes on on the next one, and which write fails.
#[derive(Drop)]
pub struct Pane {
    screen: Rc<Screen>,
    columns: Cell<u16>,
    wraps: Cell<bool>,
    /// How many writes from now on the one that fails is; none if it is 0.
    fails: Cell<u64>,
    /// How many bytes are taken before one write fails.
    pub breaks: Cell<Option<usize>>,
}

/// What a sequence does that the screen doesn't know.
#[derive(Clone, Copy)]
enum Effect {
    Wrap(bool),
    EmptyBehind,
    Nothing,
}

const SEQUENCES: &[(&str, Effect)] = &[
    ("\x1b[?7l", Effect::Wrap(false)),
    ("\x1b[?7h", Effect::Wrap(true)),
    ("\x1b[K", Effect::EmptyBehind),
    ("\x1b[?2026h", Effect::Nothing),
    ("\x1b[?2026l", Effect::Nothing),
];

impl Pane {
    /// An empty one of this size, which wraps.
    fn new(alloc: Global, rows: u16, columns: u16) -> Result<Rc<Pane>, Refusal> {
        let pane = Pane {
            screen: Screen::new(alloc, rows, columns)?,
            columns: Cell::new(columns),
            wraps: Cell::new(true),
            fails: Cell::new(0),
            breaks: Cell::new(None),
        };
        Ok(Rc::new(alloc, pane)?)
    }

    /// A terminal with one size, on a pane of another: `ROWS COLS on ROWS COLS`.
    pub fn told(alloc: Global, rest: &str) -> Result<(Rc<Pane>, Term<Wire>), Bad> {
        let mut words = Words::of(rest);
        let told = (words.number()?, words.number()?);
        words.word();
        let pane = Pane::new(alloc, words.number()?, words.number()?)?;
        let term = Term::new(Wire(pane.clone()?), told.0, told.1);
        Ok((pane, term))
    }

    /// Makes a step of the pane, or reads it: `others TEXT`, `fails N`, `wraps`, `above N`, `clipped N TEXT`; or looks at its screen. Whether
    /// the step is one.
    pub fn step(&self, step: &str, at: At, got: &mut Got) -> Result<bool, Bad> {
        match headed(step) {
            ("others", text) => {
                let shown = self.show(unescaped(at.alloc, text)?.as_str());
                shown.ok().ok_or(Bad::Step)?;
            }
            ("fails", writes) => self.fails.set(number(writes)?),
            ("wraps", "") => got.flag(self.wraps.get()),
            ("above", count) => {
                let rows = self.screen.picture()?;
                got.rows(rows.get(..number(count)?).unwrap_or(&rows));
            }
            ("clipped", words) => got.flag(self.is_clipped(words, at)?),
            _ => return look_at(&self.screen, step, at, got),
        }
        Ok(true)
    }

    /// Whether the rows after the given number are these, each cut before the last column, without blanks at its end.
    fn is_clipped(&self, words: &str, at: At) -> Result<bool, Bad> {
        let mut words = Words::of(words);
        let above: usize = words.number()?;
        let text = words.text(at.alloc)?;
        let rows = self.screen.picture()?;
        let room = usize::from(self.columns.get().saturating_sub(1));
        let mut wanted = text.as_str();
        let mut are_so = true;
        for row in rows.get(above..).unwrap_or(&[]) {
            let (line, behind) = wanted.split_once('\n').unwrap_or((wanted, ""));
            let line = cut(at.alloc, line, room)?;
            are_so &= row.as_str() == line.as_str().trim_end_matches(' ');
            wanted = behind;
        }
        Ok(are_so && wanted.is_empty())
    }

    /// Gets another size.
    pub fn resize(&self, rows: u16, columns: u16) -> Result<(), Refusal> {
        self.screen.resize(rows, columns)?;
        self.columns.set(columns);
        Ok(())
    }

    /// Keeps a text, and shows it.
    fn show(&self, text: &str) -> io::Result<()> {
        self.screen.store(text.as_bytes())?;
        let mut rest = text;
        for _ in 0..text.len() {
            rest = self.show_next(rest)?;
        }
        Ok(())
    }

    /// Shows the escape sequence or the character at the front of a text; the rest.
    fn show_next<'a>(&self, text: &'a str) -> io::Result<&'a str> {
        for (sequence, effect) in SEQUENCES {
            if let Some(behind) = text.strip_prefix(*sequence) {
                match effect {
                    Effect::Wrap(wraps) => self.wraps.set(*wraps),
                    Effect::EmptyBehind => self.empty_behind()?,
                    Effect::Nothing => (),
                }
                return Ok(behind);
            }
        }
        self.show_first(text)
    }

    /// Empties the row from the cursor on.
    fn empty_behind(&self) -> io::Result<()> {
        let columns = self.columns.get().saturating_sub(self.column());
        self.feed_times(b" ", columns)?;
        self.feed_times(b"\x1b[1D", columns)
    }

    /// Writes bytes to the screen `times` times.
    fn feed_times(&self, bytes: &[u8], times: u16) -> io::Result<()> {
        for _ in 0..times {
            self.screen.feed(bytes)?;
        }
        Ok(())
    }

    /// Shows the first character, or a sequence that the screen knows; the rest.
    fn show_first<'a>(&self, text: &'a str) -> io::Result<&'a str> {
        let mut chars = text.chars();
        let Some(first) = chars.next() else {
            return Ok("");
        };
        self.put(first)?;
        if first == '\u{1b}' {
            for c in chars.by_ref() {
                self.feed(c)?;
                if c.is_ascii_alphabetic() {
                    break;
                }
            }
        }
        Ok(chars.as_str())
    }

    /// The column of the cursor, and whether it is at the end of a full row.
    fn column(&self) -> u16 {
        self.screen.cursor().unwrap_or((0, 0)).1
    }

    /// Shows a character.
    fn put(&self, c: char) -> io::Result<()> {
        if self.wraps.get() {
            return self.feed(c);
        }
        self.stay_within()?;
        let left = usize::from(self.columns.get().saturating_sub(self.column()));
        if width(c) > left {
            return Ok(());
        }
        self.feed(c)?;
        self.stay_within()
    }

    /// Takes the cursor back from the end of a full row.
    fn stay_within(&self) -> io::Result<()> {
        if self.column() < self.columns.get() {
            return Ok(());
        }
        self.screen.feed(b"\x1b[1D")
    }

    /// Writes a character to the screen.
    fn feed(&self, c: char) -> io::Result<()> {
        let mut bytes = [0u8; 4];
        let text = c.encode_utf8(&mut bytes);
        self.screen.feed(text.as_bytes())
    }
}

/// The writer that leads to a pane. It takes whole texts, except where it breaks off.
#[derive(Drop)]
pub struct Wire(pub Rc<Pane>);

impl Wire {
    /// How many of `count` bytes are taken; none if the write fails.
    fn takes(&mut self, count: usize) -> Option<usize> {
        let fails = self.0.fails.get();
        self.0.fails.set(fails.saturating_sub(1));
        let left = self.0.breaks.get();
        let taken = left.unwrap_or(count).min(count);
        self.0.breaks.set(match left {
            Some(0) | None => None,
            Some(left) => Some(left.saturating_sub(taken)),
        });
        (fails != 1 && left != Some(0)).then_some(taken)
    }
}

impl Write for Wire {
    fn write(&mut self, buf: &[u8]) -> io::Result<usize> {
        let taken = self.takes(buf.len()).ok_or(ErrorKind::BrokenPipe)?;
        let buf = buf.get(..taken).unwrap_or(buf);
        let text = str::from_utf8(buf).ok().ok_or(ErrorKind::InvalidData)?;
        self.0.show(text)?;
        Ok(buf.len())
    }

    fn flush(&mut self) -> io::Result<()> {
        Ok(())
    }
}
