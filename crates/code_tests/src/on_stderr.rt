//! Shared bars and boards on standard error, which are hidden if that is no terminal.
use crate::checks::Granted;
use indicatif::machine::{
    MachineClock, Shares, StderrBar, StderrBoard, StderrSetup, StreamTerm, on_stderr, sized_stderr,
    styled_on_stderr,
};
use indicatif::{Drawn, MultiProgress, NoTracker, ProgressBar, ProgressStyle, Refusal};
use std::io::Stdout;
use std::thread::sleep;
use std::time::Duration;

/// A step of a bar on standard error.
fn copy<R: Shares>(bar: &StderrBar<R>) -> Result<Drawn, Refusal> {
    bar.inc(1)
}

/// Advances by the given number of steps, one each millisecond.
fn work<R: Shares>(rt: &R, bar: &StderrBar<R>, steps: u64) -> Result<(), Refusal> {
    for _ in 0..steps {
        bar.inc(1)?;
        sleep(rt, Duration::from_millis(1));
    }
    Ok(())
}

/// Whether a bar on standard output is shown.
pub fn is_shown<R: Shares>(
    bar: &ProgressBar<StreamTerm<Stdout>, MachineClock<HostRuntime>, R>,
) -> bool {
    !bar.is_hidden()
}

/// A board on standard error.
fn board_on<R: Shares>(rt: R, setup: StderrSetup) -> Result<StderrBoard<R>, Refusal> {
    MultiProgress::new(rt, rt.alloc(), setup, 1)
}

/// A bar that advances by three, and a board, hidden as its setup is, whose terminal gets another size.
#[test]
fn shared_bars_on_standard_error(rt: HostRuntime) {
    let setup = on_stderr(&rt).granted(&rt);
    let bar = ProgressBar::new(rt, rt.alloc(), 3, setup).expect(&rt, "granted");
    holds!(&rt; copy(&bar).is_ok());
    work(&rt, &bar, 2).granted(&rt);
    same!(&rt; bar.position(), 3);
    let is_gone = bar.with_term(|term| term.is_some_and(|shown| shown.is_gone()));
    holds!(&rt; !is_gone);
    let setup = on_stderr(&rt).granted(&rt);
    let is_hidden = setup.target.is_hidden();
    let board = board_on(rt, setup).expect(&rt, "granted");
    same!(&rt; board.is_hidden(), is_hidden);
    board
        .move_to(sized_stderr(&rt, 50, 132).granted(&rt))
        .granted(&rt);
    holds!(&rt; board.is_hidden());
}

/// A bar in a style.
fn styled<R: Shares>(rt: R, host: &HostRuntime) -> Result<u64, Refusal> {
    let style: ProgressStyle<NoTracker> = ProgressStyle::default_bar(rt.alloc())?;
    let bar = styled_on_stderr(rt, host, style, Some(100))?;
    bar.inc(1)?;
    bar.println_or("a.txt is copied", &mut host.stderr())?;
    Ok(bar.position())
}

#[test]
fn a_style_on_standard_error(rt: HostRuntime) {
    same!(&rt; styled(rt, &rt), Ok(1));
}
