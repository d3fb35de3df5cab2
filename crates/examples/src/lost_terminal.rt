//! Work that goes on when its terminal goes away: two bars of a board, of which a thread ticks one, with log lines above them; then a
//! bar alone. `tools/programs.py gate` closes the terminal under it. What was done is printed to standard output at the end.
use anyhow::Result;
use indicatif::bridge::LogBridge;
use indicatif::machine::{MachineClock, Shares, StderrBar, StderrTerm, on_stderr};
use indicatif::{MultiProgress, ProgressBar};
use log::{Level, Logged, info};
use std::thread::sleep;
use std::time::Duration;

/// The steps of the board's work.
const STEPS: u64 = 20;

/// The steps of the bar alone.
const MORE: u64 = 30;

type Logger<R> = Logged<R, LogBridge<StderrTerm, MachineClock<HostRuntime>, R>>;

/// A step of the work, which a bar shows.
fn step<R: Shares>(rt: &R, bar: &StderrBar<R>) -> Result<()> {
    sleep(rt, Duration::from_millis(20));
    bar.inc(1)?;
    Ok(())
}

/// The board's work: each step logs a line above the bars.
fn on_board<R: Shares>(
    rt: &R,
    log: &Logger<R>,
    bar: &StderrBar<R>,
    ticked: &StderrBar<R>,
) -> Result<()> {
    ticked.enable_steady_tick(10_000_000)?;
    for number in 0..STEPS {
        step(rt, bar)?;
        info!(log; "step {number}");
    }
    ticked.disable_steady_tick()?;
    ticked.finish_and_clear()?;
    bar.finish()?;
    Ok(())
}

/// The work of a bar alone.
fn alone<R: Shares>(rt: &R, bar: &StderrBar<R>) -> Result<()> {
    for _ in 0..MORE {
        step(rt, bar)?;
    }
    bar.finish()?;
    Ok(())
}

pub fn main<R: Shares + Print>(rt: R, host: &HostRuntime) -> Result<()> {
    let board = MultiProgress::new(rt, rt.alloc(), on_stderr(host)?, 1)?;
    let bar = board.new_bar(STEPS)?;
    let ticked = board.new_spinner()?;
    let log = Logged::new(rt, Level::Info, LogBridge::new(board.clone()?));
    on_board(&rt, &log, &bar, &ticked)?;
    let own = ProgressBar::new(rt, rt.alloc(), MORE, on_stderr(host)?)?;
    alone(&rt, &own)?;
    let done = bar.position().saturating_add(own.position());
    println!(rt; "{done} steps done")?;
    Ok(())
}
