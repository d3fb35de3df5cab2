//! What draws on a screen: a lone bar, a board, a board that keeps its history, the engine, or a terminal alone.
//!
//! `lone ROWS COLS RATE LEN BAR`, `board ROWS COLS RATE`, with `bottom` at the end bars stand at the bottom, and `recorded ROWS COLS RATE`
//! begin with a target on a new screen. A rate of 0 means no limit; `hidden` in place of the three words is a hidden target. `term ROWS
//! COLS`, and `engine ROWS COLS top` or `bottom`, begin with a terminal. Then come looks at the screen, these steps, and those of what draws:
//!
//! - `target ROWS COLS RATE`: sets a target on a new screen, and gives the rows on the old one.
//! - `size ROWS COLS`: the terminal gets another size, and the screen with it, unless the target is hidden; a terminal alone gets it alone.
//! - `suspend TEXT`: the answer, and the rows on the screen while the closure runs, which then puts this text there; `suspend_bytes`: the
//!   answer, and how many bytes were taken by then.
//! - `hidden`, `faults`; `move yes` or `move no`.
use crate::boards::{self, OnTerm, Recording};
use crate::engines::{self, Drawing};
use crate::lone::{self, Lone};
use crate::terminals::call;
use indicatif_bar::lone::LoneBar;
use indicatif_board::multi::{Board, Recorded};
use indicatif_term::target::{Resize, TermLike};
use scripts::boards::MARK;
use scripts::got::{Bad, Got, Outcome};
use scripts::lone::Bar;
use scripts::row::{At, Words, flag, headed, unescaped};
use scripts::screen::{self, Behind, Screen, Target};
use std::rc::Rc;

/// What draws.
#[derive(Drop)]
enum Drawer {
    Lone(Box<Lone>),
    Board(Box<OnTerm>),
    Recorded(Box<Recording>),
    Engine(Box<Drawing>),
    Term(Box<Behind>),
}

/// What draws, and its screen.
#[derive(Drop)]
pub struct OnScreen {
    drawer: Drawer,
    screen: Rc<Screen>,
}

/// Begins with what the step names, on a new screen.
pub fn begin(name: &str, rest: &str, at: At) -> Result<OnScreen, Bad> {
    let mut words = Words::of(rest);
    if let "term" | "engine" = name {
        let (screen, term) = screen::terminal(&mut words, at)?;
        let drawer = match name {
            "term" => Drawer::Term(at.boxed(term)?),
            _ => Drawer::Engine(engines::begin(term, words.rest(), at)?),
        };
        return Ok(OnScreen { drawer, screen });
    }
    let (screen, target) = screen::begin(&mut words, at)?;
    let drawer = match name {
        "lone" => lone_on(lone::new_bar(&mut words, at)?, target, at)?,
        "board" => Drawer::Board(boards::begin(target, words.rest(), at)?),
        _ => Drawer::Recorded(at.boxed(Recorded::new(at.alloc, target.0, MARK))?),
    };
    Ok(OnScreen { drawer, screen })
}

/// `shown ROWS COLS RATE`: this bar on a new screen.
pub fn showing(bar: Box<Bar>, rest: &str, at: At) -> Result<OnScreen, Bad> {
    let (screen, target) = screen::begin(&mut Words::of(rest), at)?;
    let drawer = lone_on(bar, target, at)?;
    Ok(OnScreen { drawer, screen })
}

fn lone_on(bar: Box<Bar>, target: Target, at: At) -> Result<Drawer, Bad> {
    let bar = LoneBar::new(Box::into_inner(bar), target.0);
    Ok(Drawer::Lone(at.boxed(bar)?))
}

impl OnScreen {
    /// Makes a step, or reads the screen or what draws there.
    pub fn step(&mut self, step: &str, at: At, got: &mut Got) -> Outcome {
        if screen::look_at(&self.screen, step, at, got)? || self.look(step, got) {
            return Ok(());
        }
        match headed(step) {
            ("target", rest) => return self.go_on(rest, at, got),
            ("size", words) if !words.is_empty() => return self.resize(words),
            (name @ ("suspend" | "suspend_bytes"), text) => {
                return self.suspend(name, text, at, got);
            }
            _ => (),
        }
        match &mut self.drawer {
            Drawer::Lone(bar) => lone::step(bar, step, at, got),
            Drawer::Board(board) => boards::step(board, step, at, got),
            Drawer::Recorded(board) => boards::record(board, step, at, got),
            Drawer::Engine(engine) => engine.step(step, at, got),
            Drawer::Term(term) => call(&mut **term, step, at, got),
        }
    }

    /// The terminal of what draws; none if it is hidden.
    fn term(&self) -> Option<&Behind> {
        match &self.drawer {
            Drawer::Lone(bar) => bar.term(),
            Drawer::Board(board) => board.term(),
            Drawer::Recorded(board) => board.board().term(),
            Drawer::Engine(engine) => Some(engine.engine.term()),
            Drawer::Term(term) => Some(term),
        }
    }

    fn is_hidden(&self) -> bool {
        match &self.drawer {
            Drawer::Lone(bar) => bar.is_hidden(),
            Drawer::Board(board) => board.is_hidden(),
            _ => false,
        }
    }

    /// Reads what draws; whether the step asks for that.
    fn look(&self, step: &str, got: &mut Got) -> bool {
        match step {
            "hidden" => got.flag(self.is_hidden()),
            "faults" => match self.term() {
                Some(term) => got.number(term.faults()),
                None => got.text("-"),
            },
            "size" => match self.term() {
                Some(term) => got.pair((term.height(), term.width())),
                None => got.text("-"),
            },
            _ => return false,
        }
        true
    }

    fn go_on(&mut self, rest: &str, at: At, got: &mut Got) -> Outcome {
        let (screen, target) = screen::begin(&mut Words::of(rest), at)?;
        match &mut self.drawer {
            Drawer::Lone(bar) => drop(bar.set_draw_target(target.0)),
            Drawer::Board(board) => drop(board.set_draw_target(target.0)),
            _ => return Err(Bad::Step),
        }
        got.text(self.screen.contents()?.as_str());
        self.screen = screen;
        Ok(())
    }

    fn resize(&mut self, words: &str) -> Outcome {
        let (rows, cols) = screen::size(words)?;
        match &mut self.drawer {
            Drawer::Lone(bar) => bar.resize(rows, cols)?,
            Drawer::Board(board) => board.resize(rows, cols)?,
            Drawer::Engine(engine) => engine.engine.resize(rows, cols)?,
            Drawer::Term(term) => return Ok(term.resize(rows, cols)?),
            Drawer::Recorded(_) => return Err(Bad::Step),
        }
        if !self.is_hidden() {
            self.screen.resize(rows, cols)?;
        }
        Ok(())
    }

    fn suspend(&mut self, name: &str, text: &str, at: At, got: &mut Got) -> Outcome {
        let text = unescaped(at.alloc, text)?;
        let screen = self.screen.clone()?;
        let look = move || {
            let (contents, bytes) = (screen.contents(), screen.bytes());
            (contents, bytes, screen.feed(text.as_str().as_bytes()))
        };
        let ((contents, bytes, fed), answer) = match &mut self.drawer {
            Drawer::Lone(bar) => bar.suspend(at.now, look),
            Drawer::Board(board) => board.suspend(at.now, look),
            _ => return Err(Bad::Step),
        };
        fed.ok().ok_or(Bad::Step)?;
        let contents = contents?;
        got.answer(answer);
        if name == "suspend_bytes" {
            got.number(format_args!(" {bytes}"));
        } else if !contents.is_empty() {
            got.number(format_args!(" {contents}"));
        }
        Ok(())
    }

    /// The terminal alone, once the bar is gone.
    pub fn ended(self, at: At) -> Result<OnScreen, Bad> {
        let OnScreen { drawer, screen } = self;
        let Drawer::Lone(bar) = drawer else {
            return Err(Bad::Step);
        };
        let term = Box::into_inner(bar).into_term().ok_or(Bad::Step)?;
        let drawer = Drawer::Term(at.boxed(term)?);
        Ok(OnScreen { drawer, screen })
    }
}
