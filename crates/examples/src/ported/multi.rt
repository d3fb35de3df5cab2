//! Two bars at once, each moved by a thread, with lines that are logged above them.
use anyhow::Result;
use indicatif::machine::{Shares, StderrBar, on_stderr, style_on_stderr};
use indicatif::{Drawn, MultiProgress, Refusal};
use std::thread::{join, sleep};
use std::time::Duration;

const TEMPLATE: &str = "[{elapsed_precise}] {bar:40.cyan/blue} {pos:>7}/{len:7} {msg}";

fn work<R: Shares>(rt: &R, bar: &StderrBar<R>, steps: u64) -> Result<Drawn, Refusal> {
    for _ in 0..steps {
        bar.inc(1)?;
        sleep(rt, Duration::from_millis(5));
    }
    bar.println("a bar is done")?;
    bar.finish_with_message("done")
}

pub fn main<R: Shares>(rt: R, host: &HostRuntime) -> Result<()> {
    let style = style_on_stderr(host, TEMPLATE)?.progress_chars("##-")?;
    let board = MultiProgress::new(rt, rt.alloc(), on_stderr(host)?, 1)?;
    let first = board.new_bar(200)?.with_style(style.try_clone()?)?;
    let second = board.new_bar(400)?.with_style(style)?;
    board.println("starting!")?;
    let (one, other) = join(&rt, || work(&rt, &first, 200), || work(&rt, &second, 400));
    one.and(other)?;
    board.clear()?;
    Ok(())
}
