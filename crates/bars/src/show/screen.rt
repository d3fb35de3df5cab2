//! The terminal's own file, or cells instead.
use indicatif::machine::{MachineClock, StreamSetup, StreamTerm, UntilGone, facts_of};
use indicatif::{Cells, Clock, DEFAULT_RATE, OwnRows, ProgressDrawTarget, Refusal, Setup, Term};
use std::alloc::Global;
use std::fs::{self, File, OpenOptions};
use std::io::{self, BufWriter, ErrorKind, IsTerminal, Write};

/// Rows and columns of the cells.
const SIZE: (u16, u16) = (12, 79);

/// What bars draw on.
#[derive(Drop)]
pub enum Screen {
    /// The terminal's own file.
    Terminal(File),
    /// Cells.
    Cells(Cells),
}

impl Screen {
    /// The rows of the cells.
    pub fn contents(&self, alloc: Global) -> Result<String, Refusal> {
        match self {
            Screen::Terminal(_) => Ok(String::new(alloc)),
            Screen::Cells(cells) => cells.contents(),
        }
    }
}

impl IsTerminal for Screen {
    fn is_terminal(&self) -> bool {
        match self {
            Screen::Terminal(file) => file.is_terminal(),
            Screen::Cells(_) => false,
        }
    }
}

impl Write for Screen {
    fn write(&mut self, buf: &[u8]) -> io::Result<usize> {
        match self {
            Screen::Terminal(file) => file.write(buf),
            Screen::Cells(cells) => match cells.feed(buf) {
                Ok(()) => Ok(buf.len()),
                Err(_) => Err(io::Error::from(ErrorKind::OutOfMemory)),
            },
        }
    }

    fn flush(&mut self) -> io::Result<()> {
        match self {
            Screen::Terminal(file) => file.flush(),
            Screen::Cells(_) => Ok(()),
        }
    }
}

/// A target on the terminal with its clock, if there is one that bars can draw on. `rt try` gives a program no variables: a terminal of
/// unknown kind counts as one with cursor moves.
pub fn on_terminal(rt: &HostRuntime) -> Result<Option<StreamSetup<Screen, HostRuntime>>, Refusal> {
    let Some(file) = terminal(rt) else {
        return Ok(None);
    };
    let screen = Screen::Terminal(file);
    let mut facts = facts_of(rt, &screen)?;
    facts.cols = facts.cols.saturating_sub(1).max(1);
    if facts.term.is_none() {
        facts.term = Some(String::from_str(rt.alloc(), "ansi")?);
    }
    let (rows, cols) = (facts.rows, facts.cols);
    let term = OwnRows::new(behind(rt.alloc(), screen, rows, cols)?);
    let mut clock = MachineClock::new(*rt);
    let target = ProgressDrawTarget::term(term, facts, DEFAULT_RATE, clock.now())?;
    if target.is_hidden() {
        return Ok(None);
    }
    Ok(Some(Setup { target, clock }))
}

/// A terminal of cells.
pub fn on_cells(alloc: Global) -> Result<StreamTerm<Screen>, Refusal> {
    let (rows, cols) = SIZE;
    let cells = Screen::Cells(Cells::new(alloc, rows, cols)?);
    Ok(OwnRows::left_to_terminal(behind(alloc, cells, rows, cols)?))
}

/// A terminal behind a screen, with buffered writes.
fn behind(
    alloc: Global,
    screen: Screen,
    rows: u16,
    cols: u16,
) -> Result<Term<BufWriter<UntilGone<Screen>>>, Refusal> {
    match BufWriter::new(alloc, UntilGone::new(screen)) {
        Ok(buffered) => Ok(Term::new(buffered, rows, cols)),
        Err(_) => Err(Refusal::Memory),
    }
}

/// The file of this program's terminal. `rt try` starts a program without one: then that of the program that started it, if its standard
/// output is one.
fn terminal(rt: &HostRuntime) -> Option<File> {
    let mut how = OpenOptions::new();
    how.write(true);
    if let Ok(file) = how.open(rt, "/dev/tty") {
        return Some(file);
    }
    let own = fs::read_to_string(rt, "/proc/self/stat").ok()?;
    let (_, numbers) = own.as_str().rsplit_once(") ")?;
    let parent = numbers.split(' ').nth(1)?;
    let name = format!(in rt.alloc(); "/proc/{parent}/fd/1").ok()?;
    let file = how.open(rt, name.as_str()).ok()?;
    if file.is_terminal() { Some(file) } else { None }
}
