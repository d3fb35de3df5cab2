//! Shows ten bars on standard error, of which the first goes on. A draw writes the line that changed. The last five draws change nothing,
//! and write nothing (`tools/programs.py writes`).
use anyhow::Result;
use indicatif::machine::{Shares, StderrBar, StderrBoard, on_stderr};
use indicatif::{MultiProgress, Refusal};

fn ten_bars<R: Shares>(rt: R, board: &StderrBoard<R>) -> Result<Vec<StderrBar<R>>, Refusal> {
    let mut bars = Vec::new(rt.alloc());
    for _ in 0..10u32 {
        let bar = board.new_bar(100)?;
        bar.tick()?;
        bars.push(bar)?;
    }
    Ok(bars)
}

fn go_on<R: Shares>(bar: &StderrBar<R>) -> Result<()> {
    for _ in 0..10u32 {
        bar.inc(1)?;
    }
    stand_still(bar)
}

fn stand_still<R: Shares>(bar: &StderrBar<R>) -> Result<()> {
    for _ in 0..5u32 {
        bar.force_draw()?;
    }
    Ok(())
}

pub fn main<R: Shares>(rt: R, host: &HostRuntime) -> Result<()> {
    let board = MultiProgress::new(rt, rt.alloc(), on_stderr(host)?, 1)?;
    let bars = ten_bars(rt, &board)?;
    match bars.first() {
        Some(first) => go_on(first),
        None => Ok(()),
    }
}
