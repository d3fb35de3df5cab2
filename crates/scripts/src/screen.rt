//! A terminal behind a writer: its rows can be read at any time, and its writer fails or takes little if a row asks for it.
use crate::got::{Bad, Got};
use crate::row::{At, Words, headed};
use crate::spelling::{number, unescaped, unescaped_bytes};
use indicatif_term::cells::Cells;
use indicatif_term::target::{ProgressDrawTarget, Term};
use indicatif_text::columns::Refusal;
use std::alloc::Global;
use std::cell::{Cell, Ref, RefCell};
use std::io;
use std::io::{Error, ErrorKind, Write};
use std::rc::Rc;

/// How the writer fails.
#[derive(Clone, Copy, Default)]
struct Limits {
    /// The most bytes that a call takes, if there is a most.
    takes: Option<usize>,
    /// How many calls from now on the one that fails is; none if it is 0.
    fails_call: u64,
    /// The number of bytes after which calls halt.
    halts_at: u64,
    /// How they fail; if they don't, they take nothing.
    halt: Option<ErrorKind>,
    /// How many calls halt.
    halts: u64,
}

/// How much the writer got so far.
#[derive(Clone, Copy, Default)]
struct Counts {
    bytes: u64,
    writes: u64,
    flushes: u64,
}

/// The cells of a terminal, the bytes that led there, and how its writer fails.
#[derive(Drop)]
pub struct Screen {
    cells: RefCell<Cells>,
    written: RefCell<Vec<u8>>,
    limits: Cell<Limits>,
    counts: Cell<Counts>,
}

impl Screen {
    /// A screen with nothing on it, whose writer never fails.
    pub fn new(alloc: Global, rows: u16, cols: u16) -> Result<Rc<Screen>, Refusal> {
        let screen = Screen {
            cells: RefCell::new(Cells::new(alloc, rows, cols)?),
            written: RefCell::new(Vec::new(alloc)),
            limits: Cell::new(Limits::default()),
            counts: Cell::new(Counts::default()),
        };
        Ok(Rc::new(alloc, screen)?)
    }

    /// Its cells, unless a call changes them.
    fn cells(&self) -> Result<Ref<'_, Cells>, Refusal> {
        self.cells.try_borrow().ok().ok_or(Refusal::Memory)
    }

    /// The rows of the window.
    pub fn contents(&self) -> Result<String, Refusal> {
        self.cells()?.contents()
    }

    /// All rows, including those that scrolled away.
    pub fn picture(&self) -> Result<Vec<String>, Refusal> {
        self.cells()?.picture()
    }

    /// The row and the column of the cursor.
    pub fn cursor(&self) -> Result<(u16, u16), Refusal> {
        Ok(self.cells()?.cursor())
    }

    /// How many bytes were taken.
    pub fn bytes(&self) -> u64 {
        self.counts.get().bytes
    }

    /// Appends the bytes that were taken.
    fn push_written(&self, got: &mut Got) {
        if let Ok(written) = self.written.try_borrow() {
            got.bytes(&written);
        }
    }

    /// Fails if this is the call of the writer that has to.
    fn admit(&self) -> io::Result<()> {
        let mut limits = self.limits.get();
        let fails = limits.fails_call == 1;
        limits.fails_call = limits.fails_call.saturating_sub(1);
        self.limits.set(limits);
        match fails {
            true => Err(Error::from(ErrorKind::BrokenPipe)),
            false => Ok(()),
        }
    }

    /// Whether this call of the writer halts.
    fn halts(&self) -> bool {
        let mut limits = self.limits.get();
        let halts = limits.halts > 0 && self.bytes() == limits.halts_at;
        limits.halts = limits.halts.saturating_sub(u64::from(halts));
        self.limits.set(limits);
        halts
    }

    /// Keeps bytes as taken.
    pub fn store(&self, bytes: &[u8]) -> io::Result<()> {
        self.written.try_borrow_mut()?.extend_from_slice(bytes)?;
        Ok(())
    }

    /// Puts bytes on the screen.
    pub fn feed(&self, bytes: &[u8]) -> io::Result<()> {
        match self.cells.try_borrow_mut()?.feed(bytes) {
            Ok(()) => Ok(()),
            Err(_) => Err(Error::from(ErrorKind::OutOfMemory)),
        }
    }

    /// Gets another size, with the terminal that writes to it.
    pub fn resize(&self, rows: u16, cols: u16) -> Result<(), Refusal> {
        match self.cells.try_borrow_mut() {
            Ok(mut cells) => cells.resize(rows, cols),
            Err(_) => Err(Refusal::Memory),
        }
    }

    /// Takes these bytes.
    fn take(&self, bytes: &[u8]) -> io::Result<()> {
        self.feed(bytes)?;
        self.store(bytes)?;
        let mut counts = self.counts.get();
        counts.bytes = counts.bytes.saturating_add(bytes.len() as u64);
        self.counts.set(counts);
        Ok(())
    }
}

/// The writer that leads to a screen.
#[derive(Drop)]
pub struct Wire(pub Rc<Screen>);

impl Write for Wire {
    fn write(&mut self, buf: &[u8]) -> io::Result<usize> {
        let mut counts = self.0.counts.get();
        counts.writes = counts.writes.saturating_add(1);
        self.0.counts.set(counts);
        self.0.admit()?;
        let Limits { takes, halt, .. } = self.0.limits.get();
        match (self.0.halts(), halt) {
            (true, None) => Ok(0),
            (true, Some(kind)) => Err(Error::from(kind)),
            (false, _) => {
                let taken = buf.len().min(takes.unwrap_or(usize::MAX));
                self.0.take(&buf[..taken])?;
                Ok(taken)
            }
        }
    }

    fn flush(&mut self) -> io::Result<()> {
        let mut counts = self.0.counts.get();
        counts.flushes = counts.flushes.saturating_add(1);
        self.0.counts.set(counts);
        self.0.admit()
    }
}

/// A terminal behind such a writer.
pub type Behind = Term<Wire>;

/// A target to draw on.
#[derive(Drop)]
pub struct Target(pub ProgressDrawTarget<Behind>);

/// A new screen with the size of the next words, `ROWS COLS`, and the terminal that writes to it. If its size has no rows or no columns, the
/// screen has one.
pub fn terminal(words: &mut Words<'_>, at: At) -> Result<(Rc<Screen>, Behind), Bad> {
    let (rows, cols): (u16, u16) = (words.number()?, words.number()?);
    let screen = Screen::new(at.alloc, rows.max(1), cols.max(1))?;
    let wire = Wire(screen.clone()?);
    Ok((screen, Term::new(wire, rows, cols)))
}

/// The size of the words `ROWS COLS`.
pub fn size(words: &str) -> Result<(u16, u16), Bad> {
    let (rows, cols) = headed(words);
    Ok((number(rows)?, number(cols)?))
}

/// A new screen of the next words, `ROWS COLS RATE`, and the target that draws on it; a rate of 0 means no limit. `hidden`: a hidden
/// target.
pub fn begin(words: &mut Words<'_>, at: At) -> Result<(Rc<Screen>, Target), Bad> {
    let mut behind = *words;
    if behind.word() == "hidden" {
        *words = behind;
        let screen = Screen::new(at.alloc, 1, 1)?;
        return Ok((screen, Target(ProgressDrawTarget::hidden())));
    }
    let (screen, term) = terminal(words, at)?;
    let target = match words.number()? {
        0 => ProgressDrawTarget::term_like(term),
        rate => ProgressDrawTarget::term_like_with_hz(term, rate, at.now)?,
    };
    Ok((screen, Target(target)))
}

/// Reads a screen, puts bytes there, or makes its writer fail; whether the step asks for that.
pub fn look_at(screen: &Screen, step: &str, at: At, got: &mut Got) -> Result<bool, Bad> {
    match headed(step) {
        ("shows", "") => got.text(screen.contents()?.as_str()),
        ("picture", "") => got.rows(&screen.picture()?),
        ("rows", "") => got.rows(filled(&screen.picture()?)),
        ("cursor", "") => got.pair(screen.cursor()?),
        ("written", "") => screen.push_written(got),
        ("bytes", "") => got.number(screen.bytes()),
        ("writes", "") => got.number(screen.counts.get().writes),
        ("flushes", "") => got.number(screen.counts.get().flushes),
        ("writes_over_bytes", "") => {
            let Counts { bytes, writes, .. } = screen.counts.get();
            got.number(writes.saturating_sub(bytes));
        }
        ("row_count", "") => got.number(screen.contents()?.as_str().split('\n').count()),
        ("row", row) => push_row(screen, number(row)?, got)?,
        ("feed", text) => {
            let fed = screen.feed(&unescaped_bytes(at.alloc, text)?);
            fed.ok().ok_or(Bad::Step)?
        }
        ("ends", text) => push_ends(screen, unescaped(at.alloc, text)?.as_str(), got)?,
        (name, rest) => return limit(screen, name, rest),
    }
    Ok(true)
}

/// `row N`: a row of the window, counted from 1; nothing past its end.
fn push_row(screen: &Screen, row: usize, got: &mut Got) -> Result<(), Bad> {
    let contents = screen.contents()?;
    let before = row.saturating_sub(1);
    got.text(contents.as_str().split('\n').nth(before).unwrap_or(""));
    Ok(())
}

/// The rows up to the last one that isn't empty.
pub fn filled(rows: &[String]) -> &[String] {
    let mut count: usize = 0;
    for (at, row) in rows.iter().enumerate() {
        if !row.is_empty() {
            count = at.saturating_add(1);
        }
    }
    rows.get(..count).unwrap_or(rows)
}

/// `ends TEXT`: whether the rows of this text are the last ones down to the cursor's.
fn push_ends(screen: &Screen, text: &str, got: &mut Got) -> Result<(), Bad> {
    let (row, _) = screen.cursor()?;
    let rows = screen.picture()?;
    let rows = rows.get(..=usize::from(row)).unwrap_or(&rows);
    got.flag(are_last(rows, text));
    Ok(())
}

/// Whether the last of these rows are those of a text.
fn are_last(rows: &[String], text: &str) -> bool {
    let before = rows.len().saturating_sub(text.split('\n').count());
    let mut last = rows.get(before..).unwrap_or(rows).iter();
    for row in text.split('\n') {
        match last.next() {
            Some(stands) if stands.as_str() == row => (),
            _ => return false,
        }
    }
    true
}

/// `takes N`: a call of the writer takes at most N bytes. `fails_call N`: the Nth of its calls from now on fails, flushes included. `halts
/// AT KIND TIMES`: calls halt after AT bytes. Whether the step is one of these.
fn limit(screen: &Screen, name: &str, rest: &str) -> Result<bool, Bad> {
    let mut words = Words::of(rest);
    let mut limits = screen.limits.get();
    match name {
        "takes" => limits.takes = Some(words.number()?),
        "fails_call" => limits.fails_call = words.number()?,
        "halts" => {
            limits.halts_at = words.number()?;
            limits.halt = halt_of(words.word())?;
            limits.halts = words.number()?;
        }
        _ => return Ok(false),
    }
    screen.limits.set(limits);
    Ok(true)
}

/// How a call that halts fails, by a word.
fn halt_of(word: &str) -> Result<Option<ErrorKind>, Bad> {
    match word {
        "nothing" => Ok(None),
        "BrokenPipe" => Ok(Some(ErrorKind::BrokenPipe)),
        "Interrupted" => Ok(Some(ErrorKind::Interrupted)),
        _ => Err(Bad::Step),
    }
}
