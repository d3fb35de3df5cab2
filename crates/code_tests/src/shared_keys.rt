//! Bars with a key of the tests' own that threads share, on their own target and on a board. What
//! the key says follows from its documentation: how many steps of ten are left.
ghost use Rattle.std.specs.Prelude.{◌-◌, decimal};
ghost use Rattle.indicatif_bar.specs.Trackers.{telling};

use crate::checks::{Granted, Runtime};
use crate::fronts::{bar_shows, board_shows, target};
use crate::recorded::replays;
use indicatif::style::ProgressTracker;
use indicatif::{
    InMemoryTerm, Moment, MultiProgress, ProgressBar, ProgressState, ProgressStyle, Refusal, Setup,
    StepClock,
};
use itoa::Buffer;
use std::alloc::Global;
use std::thread;

/// Says how many of the steps are left.
#[derive(Clone, Copy, Drop)]
pub struct Left {
    of: u64,
}

impl ProgressTracker for Left {
    ghost means = { telling (λ left p now. decimal (left.of - p.position)) };

    fn tick(&mut self, _state: &ProgressState, _now: Moment) {}

    fn reset(&mut self, _state: &ProgressState, _now: Moment) {}

    fn write(&self, state: &ProgressState, _now: Moment, out: &mut String) -> Result<(), Refusal> {
        let mut digits = Buffer::new();
        out.push_str(digits.format(self.of.saturating_sub(state.pos())))?;
        Ok(())
    }

    fn try_clone(&self) -> Result<Left, Refusal> {
        Ok(*self)
    }
}

/// A shared bar whose key `left` is the tests' own.
type Keyed<R> = ProgressBar<InMemoryTerm, StepClock, R, Left>;

/// A board of such bars.
pub type Several<R> = MultiProgress<InMemoryTerm, StepClock, R, Left>;

fn setup(alloc: Global) -> Result<Setup<InMemoryTerm, StepClock>, Refusal> {
    Ok(Setup {
        target: target(alloc)?,
        clock: StepClock { next: 0, step: 1 },
    })
}

/// A style that shows a message, and how many of ten steps are left.
fn style(alloc: Global) -> Result<ProgressStyle<Left>, Refusal> {
    let style = ProgressStyle::with_template(alloc, "{msg} {left}")?.with_key(
        "left",
        Left { of: 10 },
    )?;
    Ok(style)
}

fn files<R: Runtime>(rt: &R) -> Keyed<R> {
    let setup = setup(rt.alloc()).granted(rt);
    let style = style(rt.alloc()).granted(rt);
    let bar = ProgressBar::styled(*rt, rt.alloc(), style, Some(10), setup);
    let bar = bar.expect(rt, "granted");
    holds!(rt; bar.set_message("files").is_ok());
    bar
}

/// Positions of the bar, and what it shows there.
const SHOWN: &[(u64, &str)] = &[(12, "files 0"), (3, "files 7"), (0, "files 10")];

/// The bar has the length that it was made with. The key follows the position, whoever owns the bar, and stays at 0 past the end. Another
/// thread moves the bar, and the key with it. A style that is set later, and one that was read from the bar, have the key too.
#[test]
fn what_is_left(rt: HostRuntime) {
    let bar = files(&rt);
    same!(&rt; bar.length(), Some(10));
    let other = bar.clone().expect(&rt, "granted");
    for (position, wanted) in SHOWN {
        holds!(&rt; other.set_position(*position).is_ok());
        bar_shows(&rt, &bar, wanted);
    }
    let moved = thread::spawn(&rt, move || other.inc(4)).granted(&rt);
    holds!(&rt; moved.join(&rt).is_ok());
    bar_shows(&rt, &bar, "files 6");
    let style = bar.style().granted(&rt);
    let style = style.template("{left} of 10").granted(&rt);
    holds!(&rt; bar.set_style(style).is_ok());
    holds!(&rt; bar.set_position(1).is_ok());
    bar_shows(&rt, &bar, "9 of 10");
}

/// A bar that a board makes, in that style.
fn made_by<R: Runtime>(rt: &R, board: &Several<R>) -> Keyed<R> {
    let bar = board.new_bar(10).expect(rt, "granted");
    let style = style(rt.alloc()).granted(rt);
    holds!(rt; bar.set_style(style).is_ok());
    holds!(rt; bar.set_message("a").is_ok());
    bar
}

/// The second of a board's two bars moves by 2.
fn shows_two<R: Runtime>(rt: &R, board: &Several<R>) {
    let first = made_by(rt, board);
    let second = board.add(files(rt)).expect(rt, "granted");
    holds!(rt; first.tick().is_ok());
    holds!(rt; second.inc(2).is_ok());
    board_shows(rt, board, "a 10\nfiles 8");
}

/// A board without a history; and one whose history has the keys.
fn shows_both<R: Runtime>(rt: &R, alloc: Global) {
    let board: Several<R> = MultiProgress::keyed(
        *rt,
        alloc,
        setup(alloc).expect(rt, "granted"),
        1,
    ).expect(rt, "granted");
    shows_two(rt, &board);
    let setup = setup(alloc).expect(rt, "granted");
    let board = MultiProgress::keyed_recorded(*rt, alloc, setup, 1);
    let board: Several<R> = board.expect(rt, "granted");
    shows_two(rt, &board);
    replays(rt, &board);
}

#[test]
fn on_a_board(rt: HostRuntime) {
    shows_both(&rt, rt.alloc());
}
