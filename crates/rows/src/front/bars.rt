//! Shared bars and boards, on terminals in memory with clocks of listed moments, and how they are made.
use indicatif::{
    Clock, Drawn, InMemoryTerm, Moment, MultiProgress, NoTracker, ProgressBar, ProgressDrawTarget,
    ProgressStyle, Refusal, Setup, StepClock, WeakProgressBar,
};
use scripts::got::{Bad, Got, Outcome};
use scripts::row::{Words, number};
use std::alloc::Global;
use std::sync::Wait;

/// The answer of a call.
pub type Told = Result<Drawn, Refusal>;

/// A shared bar, as `indicatif` has it.
pub type Front<R> = ProgressBar<InMemoryTerm, RowClock, R>;

/// An owner of such a bar. This is a separate type, since generic types (a list, a box, a `Result`) cost the prover much less over it.
#[derive(Drop)]
pub struct Bar<R: Wait + Copy + Clone + Drop>(pub Front<R>);

/// A weak bar: one without an owner, or one that refers to no bar.
#[derive(Drop)]
pub struct Weak<R: Wait + Copy + Clone + Drop>(pub WeakProgressBar<InMemoryTerm, RowClock, R>);

/// A shared board as a separate type.
#[derive(Drop)]
pub struct Shared<R: Wait + Copy + Clone + Drop>(pub MultiProgress<InMemoryTerm, RowClock, R>);

/// A target to draw on.
pub type Target = ProgressDrawTarget<InMemoryTerm>;

// ---- clocks

/// How many readings of a clock give one moment, and the moment; several in order.
type Listed = [(u64, Moment); 4];

/// A clock that gives listed moments, which may also go back, and then advances by steps.
#[derive(Clone, Copy, Drop)]
pub struct RowClock {
    pub listed: Listed,
    steps: StepClock,
}

impl Clock for RowClock {
    fn now(&mut self) -> Moment {
        for (count, moment) in &mut self.listed {
            if *count > 0 {
                *count -= 1;
                return *moment;
            }
        }
        self.steps.now()
    }
}

/// The readings of words: the number, and the moment, of each.
pub fn moments_of(words: &mut Words<'_>) -> Result<Listed, Bad> {
    let mut listed = [(0, 0); 4];
    for readings in &mut listed {
        if !words.rest().is_empty() {
            *readings = (words.number()?, words.number()?);
        }
    }
    Ok(listed)
}

// ---- terminals, bars and boards

/// The size of terminals; if their rate is limited, the rate of a target and when it was made; and the moments of clocks.
#[derive(Clone, Copy, Drop)]
pub struct Room {
    pub rows: u16,
    pub cols: u16,
    pub pace: Option<(u8, Moment)>,
    pub clock: RowClock,
}

impl Room {
    /// The next four words, `ROWS COLS FROM STEP`: the clock starts at `FROM`, and advances by `STEP` with each reading.
    pub fn of(words: &mut Words<'_>) -> Result<Room, Bad> {
        let (rows, cols) = (words.number()?, words.number()?);
        let (next, step) = (words.number()?, words.number()?);
        let clock = RowClock {
            listed: [(0, 0); 4],
            steps: StepClock { next, step },
        };
        Ok(Room {
            rows,
            cols,
            pace: None,
            clock,
        })
    }

    /// A terminal with nothing on it.
    pub fn target(self, alloc: Global) -> Result<Target, Refusal> {
        let term = InMemoryTerm::new(alloc, self.rows, self.cols)?;
        match self.pace {
            Some((hz, made)) => ProgressDrawTarget::term_like_with_hz(term, hz, made),
            None => Ok(ProgressDrawTarget::term_like(term)),
        }
    }

    /// A target with a clock.
    pub fn setup(self, alloc: Global) -> Result<Setup<InMemoryTerm, RowClock>, Refusal> {
        Ok(Setup {
            target: self.target(alloc)?,
            clock: self.clock,
        })
    }
}

/// Boards and owners of bars, and how they are made.
#[derive(Drop)]
pub struct Fronts<R: Wait + Copy + Clone + Drop> {
    pub rt: R,
    pub alloc: Global,
    pub room: Room,
    pub boards: Vec<Shared<R>>,
    pub on: usize,
    pub bars: Vec<Bar<R>>,
    pub weak: Weak<R>,
    pub looked_at: usize,
    /// The answer of the last call, if it is known.
    pub answer: Option<Told>,
    pub noted: u64,
}

impl<R: Wait + Copy + Clone + Drop> Fronts<R> {
    /// None yet.
    pub fn new(rt: R, room: Room, alloc: Global) -> Fronts<R> {
        Fronts {
            rt,
            alloc,
            room,
            boards: Vec::new(alloc),
            on: 0,
            bars: Vec::new(alloc),
            weak: Weak(WeakProgressBar::new()),
            looked_at: 0,
            answer: None,
            noted: 0,
        }
    }

    /// The current board.
    pub fn board(&self) -> Result<&Shared<R>, Bad> {
        self.boards.get(self.on).ok_or(Bad::Step)
    }

    /// The bar of the owner with this number.
    pub fn bar(&self, place: &str) -> Result<&Bar<R>, Bad> {
        let place: usize = number(place)?;
        self.bars.get(place).ok_or(Bad::Step)
    }

    /// Another owner of the same bar.
    pub fn another(&self, place: &str) -> Result<Bar<R>, Bad> {
        Ok(Bar(self.bar(place)?.0.clone()?))
    }

    /// Adds a board, which keeps its history if it is recorded.
    pub fn begins(&mut self, is_recorded: bool) -> Outcome {
        let count = self.boards.len();
        let mark = (count as u64).wrapping_add(1);
        let Setup { target, clock } = self.room.setup(self.alloc)?;
        self.boards.push(Shared(match is_recorded {
            true => MultiProgress::recorded(self.rt, self.alloc, target, clock, mark)?,
            false => MultiProgress::new(self.rt, self.alloc, Setup { target, clock }, mark)?,
        }))?;
        self.on = count;
        Ok(())
    }

    /// A bar made in this way: `new`, without a length if there is none; `spinner`; on a `target`; or by the `board`.
    pub fn made(&self, way: &str, len: Option<u64>) -> Result<Bar<R>, Bad> {
        if way == "board" {
            return Ok(Bar(match len {
                Some(len) => self.board()?.0.new_bar(len)?,
                None => self.board()?.0.new_spinner()?,
            }));
        }
        let setup = self.room.setup(self.alloc)?;
        Ok(Bar(match (way, len) {
            ("target", _) => {
                let Setup { target, clock } = setup;
                ProgressBar::with_draw_target(self.rt, self.alloc, len, target, clock)?
            }
            ("spinner", None) => ProgressBar::new_spinner(self.rt, self.alloc, setup)?,
            ("new", Some(len)) => ProgressBar::new(self.rt, self.alloc, len, setup)?,
            ("new", None) => ProgressBar::no_length(self.rt, self.alloc, setup)?,
            _ => return Err(Bad::Step),
        }))
    }

    /// A bar with this length in the style of a template.
    pub fn templated(&self, len: Option<u64>, template: &str) -> Result<Bar<R>, Bad> {
        let style = ProgressStyle::with_template(self.alloc, template)?;
        Ok(Bar(self.made("new", len)?.0.with_style(style)?))
    }

    /// A bar whose one line is its message, this text.
    pub fn saying(&self, text: &str) -> Result<Bar<R>, Bad> {
        Ok(Bar(self.templated(None, "{msg}")?.0.with_message(text)?))
    }
}

/// A spinner of three texts and the message; the last text is for a finished bar.
pub fn spinner(alloc: Global, last: &str) -> Result<ProgressStyle<NoTracker>, Refusal> {
    ProgressStyle::with_template(alloc, "{spinner} {msg}")?.tick_strings(&["-", "+", last])
}

/// The contents of a terminal, if there is one.
pub fn contents(term: Option<&InMemoryTerm>) -> Option<Result<String, Refusal>> {
    match term {
        Some(term) => Some(term.contents()),
        None => None,
    }
}

/// Appends the contents; `nothing` if there is no terminal.
pub fn push_contents(contents: Option<Result<String, Refusal>>, got: &mut Got) -> Outcome {
    match contents {
        Some(contents) => got.text(contents?.as_str()),
        None => got.text("nothing"),
    }
    Ok(())
}
