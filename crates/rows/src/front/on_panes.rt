//! Boards on panes of other sizes than they were given: one, or several with one size, each on its own pane.
//!
//! `told ROWS COLS on ROWS COLS` begins with a board that gets the first size, on a pane of the second one; `trusted ROWS COLS on ROWS
//! COLS` with one whose rows the terminal ends; `row K/N ROWS COLS on ROWS COLS` with one on row K of N. `widths FIRST LAST ROWS COLS on
//! ROWS` begins with a board for each number of columns of a pane, from the first to the last, and `broken FIRST LAST ROWS COLS on ROWS
//! COLS` with one for each number of bytes that a pane takes. A step is made of each, and gives the result of all; one that differs from
//! the first follows its number:
//!
//! - `size ROWS COLS`: the board gets another size. `pane ROWS COLS`: the pane gets another one. `target ROWS COLS`: the board continues
//!   there on a target of this size, whose rows the terminal ends.
//! - `others TEXT`: another program writes this. `fails N`: the Nth write from now on fails.
//! - `rows`: the rows up to the last one that isn't empty. `above N`: the first N rows. `wraps`: whether the wrap is on.
//! - `clipped N TEXT`: whether after the first N rows these rows stand, each cut before the pane's last column.
//! - `written`: all bytes that it got.
//! - `breaks`: each of these panes takes its number of bytes, and then refuses one write.
//! - `any STEP`: makes the step of each, whatever its result.
//! - Any other step is a call of the board or of a bar.
use crate::front::pane::{Pane, Wire};
use indicatif::{Board, NoTracker, OwnRows, ProgressDrawTarget, Term, TermLike};
use meter_parts::row_said;
use scripts::boards::{MARK, board_call, push_answer};
use scripts::got::{Bad, Got, Outcome};
use scripts::row::{At, Words, headed};
use scripts::screen::size;
use std::rc::Rc;

/// The board.
#[derive(Drop)]
struct OnOwnRows(Board<NoTracker, OwnRows<Term<Wire>>>);

/// A board, its pane, and its number.
#[derive(Drop)]
struct OnPane {
    number: u16,
    board: Box<OnOwnRows>,
    pane: Rc<Pane>,
}

/// All boards.
#[derive(Drop)]
pub struct OnPanes(Vec<OnPane>);

/// Boards without bars.
pub fn begin(name: &str, rest: &str, at: At) -> Result<OnPanes, Bad> {
    let mut words = Words::of(rest);
    let (first, last): (u16, u16) = match name {
        "widths" | "broken" => (words.number()?, words.number()?),
        _ => (0, 0),
    };
    let mut boards = Vec::new(at.alloc);
    for number in first..=last {
        boards.push(begin_one(name, words.rest(), number, at)?)?;
    }
    Ok(OnPanes(boards))
}

/// The board with this number.
fn begin_one(name: &str, rest: &str, number: u16, at: At) -> Result<OnPane, Bad> {
    let width = format!(in at.alloc; "{rest} {number}")?;
    let (row, sizes) = match name {
        "row" => headed(rest),
        "widths" => ("", width.as_str()),
        _ => ("", rest),
    };
    let (pane, term) = Pane::told(at.alloc, sizes)?;
    let term = match name {
        "trusted" => OwnRows::left_to_terminal(term),
        "row" => OwnRows::on_row(term, row_said(row).ok_or(Bad::Step)?),
        _ => OwnRows::new(term),
    };
    let target = ProgressDrawTarget::term_like(term);
    let board = at.boxed(OnOwnRows(Board::new(at.alloc, target, MARK)))?;
    Ok(OnPane {
        number,
        board,
        pane,
    })
}

/// Makes a call of a board, and appends its answer.
fn call<T: TermLike + Drop>(
    board: &mut Board<NoTracker, T>,
    step: &str,
    at: At,
    got: &mut Got,
) -> Outcome {
    let call = board_call(at, step)?;
    let calls = vec![in at.alloc; (call, at.now)]?;
    for answer in board.run(calls)? {
        push_answer(answer, got);
    }
    Ok(())
}

impl OnPane {
    /// Makes a step, whose result is all that `given` then has.
    fn make(&mut self, step: &str, at: At, given: &mut Got) {
        given.clear();
        if let Err(bad) = self.step(step, at, given) {
            given.bad(bad);
        }
    }

    /// Makes a step, or reads something.
    fn step(&mut self, step: &str, at: At, got: &mut Got) -> Outcome {
        if self.pane.step(step, at, got)? {
            return Ok(());
        }
        match headed(step) {
            (name @ ("size" | "target" | "pane"), words) => self.resize(name, size(words)?),
            _ => call(&mut self.board.0, step, at, got),
        }
    }

    /// Gives the board another size or a target of this size, whose rows the terminal ends, or resizes the pane.
    fn resize(&mut self, name: &str, (rows, columns): (u16, u16)) -> Outcome {
        match name {
            "size" => self.board.0.resize(rows, columns)?,
            "pane" => self.pane.resize(rows, columns)?,
            _ => {
                let term = Term::new(Wire(self.pane.clone()?), rows, columns);
                let target = ProgressDrawTarget::term_like(OwnRows::left_to_terminal(term));
                drop(self.board.0.set_draw_target(target));
            }
        }
        Ok(())
    }
}

impl OnPanes {
    /// Makes a step of each.
    pub fn step(&mut self, step: &str, at: At, got: &mut Got) -> Outcome {
        match headed(step) {
            ("breaks", "") => self.break_all(),
            ("any", step) => self.make_any(step, at),
            _ => self.agree(step, at, got),
        }
        Ok(())
    }

    fn break_all(&mut self) {
        for one in &mut self.0 {
            one.pane.breaks.set(Some(usize::from(one.number)));
        }
    }

    fn make_any(&mut self, step: &str, at: At) {
        let mut given = Got::new(at.alloc);
        for one in &mut self.0 {
            one.make(step, at, &mut given);
        }
    }

    /// The result of all, and a result that differs from the first, after its number.
    fn agree(&mut self, step: &str, at: At, got: &mut Got) {
        let mut wanted = Got::new(at.alloc);
        let mut given = Got::new(at.alloc);
        let mut is_first = true;
        for one in &mut self.0 {
            one.make(step, at, &mut given);
            if is_first {
                wanted.text(given.as_str());
            } else if given.as_str() != wanted.as_str() {
                got.number(format_args!("{}: {}\n", one.number, given.as_str()));
            }
            is_first = false;
        }
        got.text(wanted.as_str());
    }
}
