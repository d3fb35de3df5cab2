//! Bars that stand alone or on boards, and the boards.
//!
//! `fronts ROWS COLS FROM STEP` begins with nothing, on terminals of this size, with clocks that start at `FROM` and advance by `STEP`
//! nanoseconds with each reading. Then
//!
//! - `rate HZ MOMENT`: bars and boards made afterwards draw at most HZ times a second, on a target made at this moment; `moments COUNT
//!   MOMENT ..`: their clock gives each MOMENT COUNT times, and then advances as at first.
//! - `board`, `recorded`: a board without and with a history, with the next id, from 1 on; `on ID`: the following steps are of this board.
//! - `alone TEXT`, `bar LEN TEMPLATE`, `hidden_bar`: a bar that stands alone, whose owner comes after the others: owners are numbered from
//!   0.
//! - `made WAY LEN`: a bar made in this way: `new`, without a length by `no_length`; `spinner`, which has none; on a `target`; or by the
//!   `board`, as a spinner if it has no length.
//! - `add BAR`, `insert N BAR`, `back N BAR`, `before OWNER BAR`, `after OWNER BAR`: a new bar with this message, after `=` another owner
//!   of a bar, or with `<` the last owner itself; the owner that comes back is listed after the others.
//! - `own OWNER`, `release`, `drop`: another owner; the last owner is released, or dropped.
//! - `remove OWNER`, `log TEXT`, `clear`, `suspend`, `top`, `bottom`, `turn` (to another target), `hide` (to none): calls of the board.
//! - `OWNER: CALL`: a call of a bar (`tell`), a reading (`readings`), `target` (to its own target), `as OWNER` (in the style of another
//!   bar), `ticker NANOS`, `ticker off`, `ticks_past N` (whether it ticks more than N times within ten seconds, from the last `note` on),
//!   `ticks_since` (how often it has ticked since then), `rests` (whether it doesn't tick for 50 milliseconds) and `comes_to_rest` (whether
//!   it rests after a while).
//! - `wrap_iter OWNER TEXT`, `wrap_read ..`, `wrap_write ..`, `wrap_stream ..`, `wrap_async_read ..`, `wrap_async_write ..`: a value
//!   (`scripted`) that the bar wraps; `| STEP` makes a step of it (`bytes`).
//! - `weak OWNER`, `never`, `upgrades`, `upgrade`: a weak bar; whether it can be upgraded; and its new owner.
//! - `history_rests`: whether the history stays for 50 milliseconds; `kept_at`: the moments of its calls.
//! - `shows`, `hidden`, `order`, `adds`: readings of the board; the calls that its history has gained since the last `adds`. `adds OWNER:
//!   CALL`: a call, and what it adds. It is followed by `!answer` if the last of them is kept with another answer than was given, and by
//!   `!run` if a new board that makes all kept calls gives another answer or shows something else.
use crate::front::bars::{
    Bar, Front, Fronts, Room, Told, Weak, contents, moments_of, push_contents,
};
use crate::front::bytes::Over;
use crate::front::history::{Look, Question};
use crate::scripted::script_of;
use indicatif::machine::Shares;
use indicatif::{Drawn, MultiProgressAlignment, ProgressBar, ProgressDrawTarget, WeakProgressBar};
use scripts::got::{Bad, Got, Outcome};
use scripts::row::{At, Words, flag, headed, number, optional, unescaped};
use std::random::RandomSource;
use std::sync::Wait;
use std::thread;
use std::time::{Clock, Duration};

/// A value that a bar wraps.
#[derive(Drop)]
struct Wrapped<R: Wait + Copy + Clone + Drop>(Box<Over<Front<R>>>);

/// Boards and owners of bars, and the wrapped value of one of these bars. That is separate: a step without it is proved without it.
#[derive(Drop)]
pub struct WithWrapped<R: Wait + Copy + Clone + Drop> {
    fronts: Fronts<R>,
    wrapped: Option<Wrapped<R>>,
}

impl<R: Wait + Copy + Clone + Drop> Fronts<R> {
    // ---- what is made from now on

    /// Sets how bars are made, or the current board.
    fn sets(&mut self, step: &str) -> Outcome {
        let mut words = Words::of(step);
        match words.word() {
            "rate" => self.room.pace = Some((words.number()?, words.number()?)),
            "moments" => self.room.clock.listed = moments_of(&mut words)?,
            _ => self.on = words.number::<usize>()?.wrapping_sub(1),
        }
        Ok(())
    }

    // ---- boards and owners

    /// Releases or drops the last owner.
    fn goes(&mut self, is_released: bool) -> Outcome {
        self.answer = None;
        let bar = self.bars.pop().ok_or(Bad::Step)?;
        match is_released {
            true => bar.0.release(),
            false => drop(bar),
        }
        Ok(())
    }

    /// A bar that stands alone, or another owner, if the step asks for one.
    fn coming(&self, step: &str) -> Result<Option<Bar<R>>, Bad> {
        let alloc = self.alloc;
        Ok(Some(match headed(step) {
            ("hidden_bar", "") => Bar(ProgressBar::hidden(self.rt, alloc, self.room.clock)?),
            ("upgrade", "") => match self.weak.0.upgrade()? {
                Some(bar) => Bar(bar),
                None => return Err(Bad::Step),
            },
            ("alone", text) => self.saying(text)?,
            ("bar", rest) => {
                let (len, template) = headed(rest);
                self.templated(optional(len)?, unescaped(alloc, template)?.as_str())?
            }
            ("own", place) => self.another(place)?,
            ("made", rest) => {
                let (way, len) = headed(rest);
                self.made(way, optional(len)?)?
            }
            _ => return Ok(None),
        }))
    }

    // ---- insertions

    /// Inserts a bar, whose owner comes back from the board.
    fn takes_in(&mut self, step: &str, got: &mut Got) -> Outcome {
        let mut words = Words::of(step);
        let name = words.word();
        let place = match name {
            "add" => "",
            "insert" | "back" | "before" | "after" => words.word(),
            _ => return self.calls(step, got),
        };
        let bar = self.entrant(words.rest())?;
        let bar = self.taken((name, place), bar)?;
        self.answer = Some(Ok(Drawn::Limited));
        Ok(self.bars.push(bar)?)
    }

    /// The bar of a word.
    fn entrant(&mut self, word: &str) -> Result<Bar<R>, Bad> {
        match (word, word.strip_prefix('=')) {
            ("<", _) => self.bars.pop().ok_or(Bad::Step),
            (_, Some(place)) => self.another(place),
            (_, None) => self.saying(word),
        }
    }

    /// The owner that comes back from the board.
    fn taken(&self, (name, place): (&str, &str), bar: Bar<R>) -> Result<Bar<R>, Bad> {
        let board = &self.board()?.0;
        let given = match name {
            "insert" => board.insert(number(place)?, bar.0),
            "back" => board.insert_from_back(number(place)?, bar.0),
            "before" => board.insert_before(&self.bar(place)?.0, bar.0),
            "after" => board.insert_after(&self.bar(place)?.0, bar.0),
            _ => board.add(bar.0),
        };
        Ok(Bar(given?))
    }

    // ---- calls of a board

    /// Makes a call of the board, and keeps its answer; one that neither draws nor lends is `done`.
    fn calls(&mut self, step: &str, got: &mut Got) -> Outcome {
        let board = &self.board()?.0;
        let settled = match headed(step) {
            ("top", "") => board.set_alignment(MultiProgressAlignment::Top),
            ("bottom", "") => board.set_alignment(MultiProgressAlignment::Bottom),
            ("turn", "") => board.set_draw_target(self.room.target(self.alloc)?),
            ("hide", "") => board.set_draw_target(ProgressDrawTarget::hidden()),
            ("move", word) => board.set_move_cursor(flag(word)?),
            ("remove", place) => board.remove(&self.bar(place)?.0),
            _ => {
                let told = self.board_told(step)?;
                self.answered(told, got);
                return Ok(());
            }
        };
        self.answer = Some(settled.and(Ok(Drawn::Limited)));
        match settled {
            Ok(()) => got.text("done"),
            Err(refusal) => got.refusal(refusal),
        }
        Ok(())
    }

    /// Reads the board; whether the step asks for that.
    fn looks(&self, step: &str, got: &mut Got) -> Result<bool, Bad> {
        let Ok(board) = self.board() else {
            return Ok(false);
        };
        match step {
            "shows" => push_contents(board.0.with_term(contents), got)?,
            "hidden" => got.flag(board.0.is_hidden()),
            "order" => {
                board.answer_question(self.look(Question::Order), got);
            }
            "kept_at" => {
                board.answer_question(self.look(Question::Moments), got);
            }
            _ => return Ok(false),
        }
        Ok(true)
    }

    /// Keeps the answer of a call, and appends it.
    fn answered(&mut self, told: Told, got: &mut Got) {
        self.answer = Some(told);
        got.answer(told);
    }

    /// The answer of a call of the board that draws.
    fn board_told(&self, step: &str) -> Result<Told, Bad> {
        let board = &self.board()?.0;
        match headed(step) {
            ("clear", "") => Ok(board.clear()),
            ("suspend", "") => Ok(board.suspend(|| ()).1),
            ("log", text) => Ok(board.println(unescaped(self.alloc, text)?.as_str())),
            _ => Err(Bad::Step),
        }
    }

    /// The answer of a call of a bar.
    fn bar_told(&self, place: &str, rest: &str) -> Result<Told, Bad> {
        let bar = self.bar(place)?;
        match headed(rest) {
            ("target", "") => Ok(bar.0.set_draw_target(self.room.target(self.alloc)?)),
            ("as", other) => Ok(bar.0.set_style(self.bar(other)?.0.style()?)),
            _ => bar.tell(self.alloc, rest),
        }
    }

    // ---- what is seen

    fn look(&self, question: Question) -> Look {
        Look {
            alloc: self.alloc,
            room: self.room,
            question,
        }
    }

    /// The calls that the history has gained since it was last read; first a call of a bar or of the board, if there is one, whose answer is
    /// that of the entry that it adds.
    fn adds(&mut self, step: &str, got: &mut Got) -> Outcome {
        if !step.is_empty() {
            self.answer = Some(match step.split_once(": ") {
                Some((place, rest)) => self.bar_told(place, rest)?,
                None => self.board_told(step)?,
            });
        }
        let question = Question::Added {
            from: self.looked_at,
            answer: self.answer,
        };
        self.looked_at = self.board()?.answer_question(self.look(question), got);
        Ok(())
    }
}

impl<R: AllocGlobal + RandomSource + Wait + Copy + Clone + Drop> Fronts<R> {
    /// The value that a bar wraps by the call with this name.
    fn wrapped_by(&self, name: &str, rest: &str) -> Result<Wrapped<R>, Bad> {
        let (place, script) = headed(rest);
        let bar = &self.bar(place)?.0;
        let inner = script_of(self.alloc, script)?;
        let wrapped = match name {
            "wrap_iter" => bar.wrap_iter(inner),
            "wrap_read" => bar.wrap_read(inner),
            "wrap_write" => bar.wrap_write(inner),
            "wrap_stream" => bar.wrap_stream(inner),
            "wrap_async_read" => bar.wrap_async_read(inner),
            "wrap_async_write" => bar.wrap_async_write(inner),
            _ => return Err(Bad::Step),
        };
        let over = Over::of(&self.rt, wrapped?)?;
        Ok(Wrapped(Box::new(self.alloc, over)?))
    }
}

impl<R: Shares + RandomSource> WithWrapped<R> {
    /// Nothing yet.
    pub fn begin(rt: R, rest: &str, at: At) -> Result<Box<WithWrapped<R>>, Bad> {
        let room = Room::of(&mut Words::of(rest))?;
        at.boxed(WithWrapped {
            fronts: Fronts::new(rt, room, at.alloc),
            wrapped: None,
        })
    }

    /// Makes a step, or reads something.
    pub fn step(&mut self, step: &str, got: &mut Got) -> Outcome {
        let (name, rest) = headed(step);
        if name.starts_with("wrap_") {
            self.wrapped = Some(self.fronts.wrapped_by(name, rest)?);
            return Ok(());
        }
        match &mut self.wrapped {
            Some(wrapped) if name == "|" => wrapped.0.asks(rest, got),
            _ => self.fronts.step(step, got),
        }
    }
}

impl<R: Shares + RandomSource> Fronts<R> {
    /// Makes a step without the wrapped value. Unknown steps go to `takes_in`, and then to `calls`.
    fn step(&mut self, step: &str, got: &mut Got) -> Outcome {
        let (name, rest) = headed(step);
        match step.split_once(": ") {
            Some((place, call)) if name != "adds" => return self.of_bar(place, call, got),
            _ if self.looks(step, got)? => return Ok(()),
            _ => (),
        }
        match name {
            "board" | "recorded" => self.begins(name == "recorded")?,
            "release" | "drop" => self.goes(name == "release")?,
            "adds" => self.adds(rest, got)?,
            "history_rests" => self.history_rests(got)?,
            "rate" | "moments" | "on" => self.sets(step)?,
            "never" => self.weak = Weak(WeakProgressBar::new()),
            "upgrades" => got.flag(self.weak.0.upgrade()?.is_some()),
            "weak" => self.weak = Weak(self.bar(rest)?.0.downgrade()?.clone()?),
            _ => match self.coming(step)? {
                Some(bar) => self.bars.push(bar)?,
                None => self.takes_in(step, got)?,
            },
        }
        Ok(())
    }

    /// Sets a bar's ticker, reads the bar, or makes a call of it.
    fn of_bar(&mut self, place: &str, rest: &str, got: &mut Got) -> Outcome {
        let rt = &self.rt;
        let bar = self.bar(place)?;
        match headed(rest) {
            ("note", "") => self.noted = bar.0.ticks(),
            ("ticks_since", "") => got.number(bar.0.ticks().wrapping_sub(self.noted)),
            ("rests", "") => got.flag(bar.rests(rt, 1)),
            ("comes_to_rest", "") => got.flag(bar.rests(rt, 500)),
            ("ticks_past", ticks) => {
                let before = number::<u64>(ticks)?.saturating_add(self.noted);
                got.flag(bar.ticks_past(rt, before));
            }
            ("ticker", nanos) => {
                match nanos {
                    "off" => bar.0.disable_steady_tick()?,
                    _ => bar.0.enable_steady_tick(number(nanos)?)?,
                }
                self.answer = None;
            }
            _ => {
                if !bar.read(rest, got)? {
                    let told = self.bar_told(place, rest)?;
                    self.answered(told, got);
                }
            }
        }
        Ok(())
    }

    /// Whether nothing is added to the board's history for 50 milliseconds.
    fn history_rests(&self, got: &mut Got) -> Outcome {
        let board = self.board()?;
        let mut unsaid = Got::new(self.alloc);
        let before = board.answer_question(self.look(Question::Order), &mut unsaid);
        pause(&self.rt);
        got.flag(board.answer_question(self.look(Question::Order), &mut unsaid) == before);
        Ok(())
    }
}

/// Fifty turns of a millisecond: a running ticker of a millisecond ticks meanwhile.
fn pause<R: Clock>(rt: &R) {
    for _ in 0..50u32 {
        thread::sleep(rt, Duration::from_millis(1));
    }
}

impl<R: Wait + Clock + Copy + Clone + Drop> Bar<R> {
    /// Whether the bar has ticked more often than the given number, at the latest after 10,000 readings a millisecond apart.
    fn ticks_past(&self, rt: &R, before: u64) -> bool {
        for _ in 0..10_000u32 {
            if self.0.ticks() > before {
                return true;
            }
            thread::sleep(rt, Duration::from_millis(1));
        }
        false
    }

    /// Whether the bar ticks no more: one of `tries` tries finds two equal readings of the ticks, with 50 turns of a millisecond between
    /// them.
    fn rests(&self, rt: &R, tries: u32) -> bool {
        for _ in 0..tries {
            let before = self.0.ticks();
            pause(rt);
            if self.0.ticks() == before {
                return true;
            }
        }
        false
    }
}
