//! A spinner on standard error that a thread ticks.
use anyhow::Result;
use indicatif::ProgressBar;
use indicatif::machine::{Shares, StderrBar, on_stderr, style_on_stderr};
use std::thread::sleep;
use std::time::Duration;

/// One after another; the last one once it is finished.
const TICKS: [&str; 5] = ["-", "\\", "|", "/", "ok"];

pub fn main<R: Shares>(rt: R, host: &HostRuntime) -> Result<()> {
    let style = style_on_stderr(host, "{spinner:.blue} {msg}")?.tick_strings(&TICKS)?;
    let setup = on_stderr(host)?;
    let spinner: StderrBar<R> = ProgressBar::styled(rt, rt.alloc(), style, None, setup)?;
    spinner.enable_steady_tick(100_000_000)?;
    spinner.set_message("copying")?;
    sleep(&rt, Duration::from_millis(500));
    spinner.finish_with_message("copied")?;
    Ok(())
}
