//! Bars and boards for tests, on terminals in memory of 4 rows and 10 columns, with clocks that advance by 1 with each reading; and the
//! rows on such terminals. Their calls have no clauses, so that a test of many calls is proved call by call.
use crate::checks::{Granted, Runtime};
use indicatif::style::Tracks;
use indicatif::{
    Clock, Drawn, InMemoryTerm, Moves, MultiProgress, ProgressBar, ProgressDrawTarget,
    ProgressStyle, Refusal, Setup, StepClock,
};
use std::alloc::Global;

/// A shared bar.
pub type Bar<R> = ProgressBar<InMemoryTerm, StepClock, R>;

/// A shared bar in the tests' own type, which moves as the bar does, but keeps the default `place_after`. So a wrapper reads its place and
/// sets it in two steps. Generic code over any bar is proved in a tenth of the time with it: the prover compares an instance of a library's
/// type by everything that it owns.
#[derive(Drop)]
pub struct Led<R: Runtime> {
    pub bar: Bar<R>,
}

impl<R: Runtime> Moves for Led<R> {
    fn advance(&mut self, n: u64) -> Result<Drawn, Refusal> {
        self.bar.advance(n)
    }

    fn place(&mut self, place: u64) -> Result<Drawn, Refusal> {
        self.bar.place(place)
    }

    fn finish(&mut self) -> Result<Drawn, Refusal> {
        self.bar.finish_using_style()
    }

    fn stops_within_blocks(&self) -> bool {
        self.bar.stops_within_blocks()
    }

    fn position(&self) -> u64 {
        self.bar.position()
    }

    fn finished(&self) -> bool {
        self.bar.finished()
    }
}

/// Another owner of a bar.
pub fn another_of<R: Runtime>(rt: &R, bar: &Bar<R>) -> Led<R> {
    let bar = bar.clone().expect(rt, "granted");
    Led { bar }
}

/// A shared board.
pub type Shared<R> = MultiProgress<InMemoryTerm, StepClock, R>;

/// A terminal with nothing on it.
pub fn target(alloc: Global) -> Result<ProgressDrawTarget<InMemoryTerm>, Refusal> {
    Ok(ProgressDrawTarget::term_like(InMemoryTerm::new(alloc, 4, 10)?))
}

/// A terminal of 4 rows and `cols` columns, and a clock.
pub fn setup<R: Runtime>(rt: &R, cols: u16) -> Setup<InMemoryTerm, StepClock> {
    let term = InMemoryTerm::new(rt.alloc(), 4, cols).granted(rt);
    let setup = Setup {
        target: ProgressDrawTarget::term_like(term),
        clock: StepClock { next: 0, step: 1 },
    };
    setup
}

/// A target that is hidden, and a clock.
pub fn hidden() -> Setup<InMemoryTerm, StepClock> {
    Setup {
        target: ProgressDrawTarget::hidden(),
        clock: StepClock { next: 0, step: 1 },
    }
}

/// A board without a history.
pub fn open<R: Runtime>(rt: &R, setup: Setup<InMemoryTerm, StepClock>) -> Shared<R> {
    MultiProgress::new(*rt, rt.alloc(), setup, 1).expect(rt, "granted")
}

/// A board that keeps its history.
pub fn recorded<R: Runtime>(rt: &R) -> Shared<R> {
    let Setup { target, clock } = setup(rt, 10);
    MultiProgress::recorded(*rt, rt.alloc(), target, clock, 1).expect(rt, "granted")
}

/// A bar that stands alone, in the style of a template.
pub fn alone<R: Runtime>(rt: &R, template: &str) -> Bar<R> {
    let style = ProgressStyle::with_template(rt.alloc(), template).granted(rt);
    ProgressBar::styled(*rt, rt.alloc(), style, None, setup(rt, 10)).expect(rt, "granted")
}

/// A bar after all others of a board, whose one line is this text, which has no keys.
pub fn bar_on<R: Runtime>(rt: &R, board: &Shared<R>, text: &str) -> Bar<R> {
    let bar = alone(rt, text);
    board.add(bar).expect(rt, "granted")
}

/// The contents of a terminal.
pub fn contents(term: Option<&InMemoryTerm>) -> Option<String> {
    term?.contents().ok()
}

/// Ends the test if something else stands on a bar's terminal.
pub fn bar_shows<C: Clock + Drop, R: Runtime, K: Tracks>(
    rt: &R,
    bar: &ProgressBar<InMemoryTerm, C, R, K>,
    wanted: &str,
) {
    let text = bar.with_term(contents).granted(rt);
    same!(rt; text.as_str(), wanted);
}

/// Ends the test if something else stands on a board's terminal.
pub fn board_shows<C: Clock + Drop, R: Runtime, K: Tracks>(
    rt: &R,
    board: &MultiProgress<InMemoryTerm, C, R, K>,
    wanted: &str,
) {
    let text = board.with_term(contents).granted(rt);
    same!(rt; text.as_str(), wanted);
}
