//! Three bars at once on standard error, each moved by its own thread.
use anyhow::Result;
use indicatif::machine::{Shares, StderrBar, on_stderr};
use indicatif::{Drawn, MultiProgress, Refusal};
use std::thread::join;

fn copy<R: Shares>(bar: &StderrBar<R>, parts: u32) -> Result<Drawn, Refusal> {
    for _ in 0..parts {
        bar.inc(1)?;
    }
    bar.finish()
}

pub fn main<R: Shares>(rt: R, host: &HostRuntime) -> Result<()> {
    let board = MultiProgress::new(rt, rt.alloc(), on_stderr(host)?, 1)?;
    let (a, b, c) = (board.new_bar(8)?, board.new_bar(250)?, board.new_bar(4000)?);
    let others = || join(&rt, || copy(&b, 250), || copy(&c, 4000));
    let (first, (second, third)) = join(&rt, || copy(&a, 8), others);
    first.and(second).and(third)?;
    Ok(())
}
