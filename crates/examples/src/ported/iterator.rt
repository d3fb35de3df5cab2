//! A loop with a spinner that ticks by itself, and a message at its end.
use anyhow::Result;
use indicatif::machine::{Shares, StderrBar, on_stderr, style_on_stderr};
use indicatif::{ProgressBar, ProgressFinish};
use std::thread::sleep;
use std::time::Duration;

const TICKS: [&str; 6] = [">    ", " >   ", "  >  ", "   > ", "    >", "done "];

fn add_up<R: Shares>(rt: &R, bar: &StderrBar<R>) -> Result<u64> {
    bar.enable_steady_tick(120_000_000)?;
    let mut sum: u64 = 0;
    for item in bar.wrap_iter(0..100u64)? {
        sum = sum.wrapping_add(item);
        sleep(rt, Duration::from_millis(20));
    }
    Ok(sum)
}

/// The sum of the loop's items.
pub fn main<R: Shares>(rt: R, host: &HostRuntime) -> Result<u64> {
    let style = style_on_stderr(host, "{spinner:.blue} {msg} {pos}")?.tick_strings(&TICKS)?;
    let ready = ProgressFinish::WithMessage(String::from_str(rt.alloc(), "ready")?);
    let bar = ProgressBar::styled(rt, rt.alloc(), style, None, on_stderr(host)?)?
        .with_message("calculating")?
        .with_finish(ready)?;
    add_up(&rt, &bar)
}
