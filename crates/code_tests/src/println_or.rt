//! Lines above bars, or beside them if they are hidden.
use crate::checks::{Granted, Runtime};
use crate::fronts::{Bar, alone, bar_on, bar_shows, board_shows, hidden, open, setup};
use crate::shown::Broken;
use indicatif::{
    BarState, Board, Drawn, InMemoryTerm, LoneBar, NoTracker, PlainLines, ProgressBar,
    ProgressDrawTarget, ProgressStyle, Refusal, StepClock, written_if_hidden,
};
use std::io::{ErrorKind, Write};
use std::process::Abort;

/// Ends the test if something else was written.
fn is_written<R: Abort>(rt: &R, out: &Vec<u8>, wanted: &str) {
    same!(rt; out.as_slice(), wanted.as_bytes());
}

/// What a call answers that writes to a closed pipe, as `Broken(32)` is.
const REFUSED: Refusal = Refusal::Terminal(ErrorKind::BrokenPipe);

/// Hides a bar.
fn hide<R: Runtime>(rt: &R, bar: &Bar<R>) {
    bar.move_to(ProgressDrawTarget::hidden()).granted(rt);
}

/// Above a shared bar nothing is written elsewhere. Once it is hidden, each text is written as a whole, with a line end.
#[test]
fn lines_above_a_bar_or_elsewhere(rt: HostRuntime) {
    let bar = alone(&rt, "x");
    let mut out = Vec::new(rt.alloc());
    same!(&rt; bar.println_or("a.txt", &mut out), Ok(Drawn::Yes));
    is_written(&rt, &out, "");
    bar_shows(&rt, &bar, "a.txt\nx");
    hide(&rt, &bar);
    same!(&rt; bar.println_or("b\nc", &mut out), Ok(Drawn::Hidden));
    same!(&rt; bar.println_or("", &mut out), Ok(Drawn::Hidden));
    is_written(&rt, &out, "b\nc\n\n");
    same!(&rt; bar.println_or("d", &mut Broken(32)), Err(REFUSED));
}

/// The same above a board.
#[test]
fn lines_above_a_board_or_elsewhere(rt: HostRuntime) {
    let board = open(&rt, setup(&rt, 10));
    let mut out = Vec::new(rt.alloc());
    same!(&rt; board.println_or("a.txt", &mut out), Ok(Drawn::Yes));
    is_written(&rt, &out, "");
    board_shows(&rt, &board, "a.txt");
    board.move_to(ProgressDrawTarget::hidden()).granted(&rt);
    same!(&rt; board.println_or("a.txt is done", &mut out), Ok(Drawn::Hidden));
    is_written(&rt, &out, "a.txt is done\n");
}

/// A board without a lock: what `println` returned decides.
#[test]
fn lines_without_a_lock(rt: HostRuntime) {
    let (alloc, now) = (rt.alloc(), 0);
    let mut out = Vec::new(alloc);
    let target: ProgressDrawTarget<InMemoryTerm> = ProgressDrawTarget::hidden();
    let mut board: Board<NoTracker, InMemoryTerm> = Board::new(alloc, target, 1);
    let drawn = board.println("a.txt", now);
    let drawn = written_if_hidden(alloc, drawn, "a.txt", &mut out).granted(&rt);
    same!(&rt; drawn, Drawn::Hidden);
    is_written(&rt, &out, "a.txt\n");
}

// ---- bars as plain lines

/// A shared bar on a terminal has no plain line, and its looks don't count. Once it is hidden, each call reads its clock, which advances by
/// one. A bar of a hidden board has plain lines, too.
#[test]
fn hidden_bars_are_told(rt: HostRuntime) {
    let bar = alone(&rt, "x");
    let mut lines = PlainLines::every(0);
    same!(&rt; bar.tell_line(&mut lines, &mut Broken(32)), Ok(false));
    same!(&rt; bar.tell_line(&mut lines, &mut Broken(32)), Ok(false));
    hide(&rt, &bar);
    is_told(&rt, &bar, &mut lines);
    let bar = bar_on(&rt, &open(&rt, hidden()), "x");
    is_told(&rt, &bar, &mut PlainLines::every(0));
}

/// A hidden bar that shows `x` has no line at the first look, and one at the next; a writer that has gone away refuses the one after.
fn is_told<R: Runtime>(rt: &R, bar: &Bar<R>, lines: &mut PlainLines) {
    let mut out = Vec::new(rt.alloc());
    same!(rt; bar.tell_line(lines, &mut out), Ok(false));
    same!(rt; bar.tell_line(lines, &mut out), Ok(true));
    is_written(rt, &out, "x\n");
    same!(rt; bar.tell_line(lines, &mut Broken(32)), Err(REFUSED));
}

/// A bar that stands alone and is hidden, and its line.
#[test]
fn a_lone_bar_is_told(rt: HostRuntime) {
    let (alloc, now) = (rt.alloc(), 7);
    let target: ProgressDrawTarget<InMemoryTerm> = ProgressDrawTarget::hidden();
    let style = ProgressStyle::with_template(alloc, "{pos}").granted(&rt);
    let record: BarState<NoTracker> = BarState::styled(alloc, style, Some(9), 0).granted(&rt);
    let mut bar = LoneBar::new(record, target);
    let (mut lines, mut out) = (PlainLines::every(10), Vec::new(alloc));
    holds!(&rt; bar.finish(now).is_ok());
    if let Some(line) = lines.line_of(bar.bar(), now).granted(&rt) {
        out.write_all(line.as_bytes()).granted(&rt);
    }
    is_written(&rt, &out, "9\n");
}

// ---- a bar that goes on

/// The steps of the rate, five after the work continued.
fn goes_on<R: Runtime>(bar: Bar<R>) -> Result<u64, Refusal> {
    let bar = bar.with_position(80)?.with_elapsed(60_000_000_000)?;
    bar.tick()?;
    bar.reset_eta()?;
    bar.set_position(85)?;
    Ok(bar.per_sec().steps)
}

#[test]
fn a_resumed_bar(rt: HostRuntime) {
    let clock = StepClock {
        next: 100_000_000_000,
        step: 1,
    };
    let target: ProgressDrawTarget<InMemoryTerm> = ProgressDrawTarget::hidden();
    let bar = ProgressBar::with_draw_target(rt, rt.alloc(), Some(100), target, clock);
    same!(&rt; goes_on(bar.expect(&rt, "granted")), Ok(5));
}
