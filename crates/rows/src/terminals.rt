//! The calls of a terminal; the terminal in memory, alone, or below a board whose calls of it are read at the end; and the cell terminal.
use indicatif_bar::style::NoTracker;
use indicatif_board::multi::Board;
use indicatif_term::cells::{Cells, InMemoryTerm};
use indicatif_term::target::{ProgressDrawTarget, Resize, TermLike};
use indicatif_text::columns::Refusal;
use scripts::boards::{MARK, board_call, push_answer};
use scripts::got::{Bad, Got, Outcome};
use scripts::row::{At, Words, flag, headed, number, unescaped, unescaped_bytes};
use scripts::screen::{filled, size};

/// Makes a call of a terminal, and appends `done`, or how it failed: `up N`, `down N`, `right N`, `left N`, `text TEXT`, `line TEXT`,
/// `clear_line`, `flush`; or resizes it: `size ROWS COLS`.
pub fn call<T: Resize>(term: &mut T, step: &str, at: At, got: &mut Got) -> Outcome {
    let (name, rest) = headed(step);
    let done = match name {
        "size" => {
            let (rows, cols) = size(rest)?;
            return Ok(term.resize(rows, cols)?);
        }
        "clear_line" => term.clear_line(),
        "flush" => term.flush(),
        "text" => term.write_str(unescaped(at.alloc, rest)?.as_str()),
        "line" => term.write_line(unescaped(at.alloc, rest)?.as_str()),
        "up" => term.move_cursor_up(number(rest)?),
        "down" => term.move_cursor_down(number(rest)?),
        "right" => term.move_cursor_right(number(rest)?),
        "left" => term.move_cursor_left(number(rest)?),
        _ => return Err(Bad::Step),
    };
    match done {
        Ok(()) => got.text("done"),
        Err(e) => got.kind(e.kind()),
    }
    Ok(())
}

/// `memory ROWS COLS`: a terminal in memory.
pub fn in_memory(rest: &str, at: At) -> Result<Box<InMemoryTerm>, Bad> {
    let (rows, cols) = size(rest)?;
    at.boxed(InMemoryTerm::new(at.alloc, rows, cols)?)
}

/// Makes a call of a terminal in memory, resizes it, or reads it; `moves` are the calls since the last reading.
pub fn step(term: &mut InMemoryTerm, step: &str, at: At, got: &mut Got) -> Outcome {
    match step {
        "contents" => got.text(term.contents()?.as_str()),
        "picture" => got.rows(&term.picture()?),
        "cursor" => got.pair(term.cursor()),
        "size" => got.pair((term.height(), term.width())),
        "faults" => got.number(term.faults()),
        "moves" => got.text(term.moves_since_last_check().as_str()),
        "reset" => term.reset(),
        _ => call(term, step, at, got)?,
    }
    Ok(())
}

/// A board on a terminal in memory.
#[derive(Drop)]
pub struct Noted(Board<NoTracker, InMemoryTerm>);

/// `noted ROWS COLS`.
pub fn begin_noted(rest: &str, at: At) -> Result<Box<Noted>, Bad> {
    let term = in_memory(rest, at)?;
    let target = ProgressDrawTarget::term_like(Box::into_inner(term));
    at.boxed(Noted(Board::new(at.alloc, target, MARK)))
}

impl Noted {
    /// A call of the board or of a bar; `move yes` or `move no`; `contents`; or at the end `moves`, all calls of the terminal, which leaves
    /// the board for that.
    pub fn step(&mut self, step: &str, at: At, got: &mut Got) -> Outcome {
        match headed(step) {
            ("move", word) => self.0.set_move_cursor(flag(word)?),
            ("contents", "") => {
                let term = self.0.term().ok_or(Bad::Step)?;
                got.text(term.contents()?.as_str());
            }
            ("moves", "") => {
                let target = self.0.set_draw_target(ProgressDrawTarget::hidden());
                let mut term = target.into_term().ok_or(Bad::Step)?;
                got.text(term.moves_since_last_check().as_str());
            }
            _ => push_answer(self.0.call(board_call(at, step)?, at.now), got),
        }
        Ok(())
    }
}

// ---- the cell terminal

/// `cells ROWS COLS`: a terminal with nothing on it.
pub fn of_cells(rest: &str, at: At) -> Result<Box<Cells>, Bad> {
    new_cells(size(rest)?, at)
}

/// `feed BYTES`, `size ROWS COLS`, or a reading: `contents`, `picture`, `cursor`, `reading`.
pub fn step_cells(cells: &mut Cells, step: &str, at: At, got: &mut Got) -> Outcome {
    match headed(step) {
        ("reading", "") => push_reading(cells, got)?,
        ("contents", "") => got.text(cells.contents()?.as_str()),
        ("picture", "") => got.rows(&cells.picture()?),
        ("cursor", "") => got.pair(cells.cursor()),
        ("feed", rest) => feed(cells, &unescaped_bytes(at.alloc, rest)?)?,
        ("size", rest) => {
            let (rows, cols) = size(rest)?;
            cells.resize(rows, cols)?;
        }
        _ => return Err(Bad::Step),
    }
    Ok(())
}

/// Rows and columns.
type Size = (u16, u16);

fn new_cells((rows, cols): Size, at: At) -> Result<Box<Cells>, Bad> {
    at.boxed(Cells::new(at.alloc, rows, cols)?)
}

fn feed(cells: &mut Cells, bytes: &[u8]) -> Result<(), Refusal> {
    match cells.feed(bytes) {
        Ok(()) => Ok(()),
        Err((_, refusal)) => Err(refusal),
    }
}

/// Appends the reading of `fed ROWS COLS BYTES`: fed byte by byte, and in two parts cut at each byte. If a cut gives something else, it
/// follows.
pub fn fed(rest: &str, at: At, got: &mut Got) -> Outcome {
    let mut words = Words::of(rest);
    let size = (words.number()?, words.number()?);
    let bytes = unescaped_bytes(at.alloc, words.rest())?;
    let mut single = Vec::new(at.alloc);
    for byte in bytes.chunks(1) {
        single.push(byte)?;
    }
    let mut wanted = Got::new(at.alloc);
    push_fed(size, &single, at, &mut wanted)?;
    got.text(wanted.as_str());
    push_cuts(size, &bytes, (wanted.as_str(), at), got)
}

/// Appends the result of the first cut of the bytes in two that gives something else.
fn push_cuts(size: Size, bytes: &[u8], (wanted, at): (&str, At), got: &mut Got) -> Outcome {
    let mut reading = Got::new(at.alloc);
    for cut in 0..bytes.len() {
        reading.clear();
        let (front, rest) = bytes.split_at(cut);
        push_fed(size, &[front, rest], at, &mut reading)?;
        if reading.as_str() != wanted {
            got.number(format_args!("\ncut at {cut}: {}", reading.as_str()));
            break;
        }
    }
    Ok(())
}

/// Appends what a terminal shows after these parts.
fn push_fed(size: Size, parts: &[&[u8]], at: At, got: &mut Got) -> Outcome {
    let mut cells = new_cells(size, at)?;
    for part in parts {
        feed(&mut cells, part)?;
    }
    push_reading(&cells, got)
}

/// Appends the picture without the empty rows at its end, the contents and the cursor, separated by tabs.
fn push_reading(cells: &Cells, got: &mut Got) -> Outcome {
    got.rows(filled(&cells.picture()?));
    got.text("\t");
    got.text(cells.contents()?.as_str());
    got.text("\t");
    got.pair(cells.cursor());
    Ok(())
}
