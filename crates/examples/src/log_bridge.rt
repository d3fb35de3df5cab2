//! Logs above two bars: the macros of `log` write through a bridge, while a thread ticks one of the bars. On standard error; if that is no
//! terminal, the bars are hidden, and the lines are written as the kit's console does.
use anyhow::Result;
use indicatif::MultiProgress;
use indicatif::bridge::{StderrLogger, logger_above};
use indicatif::machine::{Shares, StderrBar, on_stderr};
use log::{Level, info, warn};
use std::thread::sleep;
use std::time::Duration;

/// What is copied.
const NAMES: &[&str] = &["a.txt", "b.txt", "c.txt"];

fn copy<R: Shares>(
    rt: &R,
    log: &StderrLogger<R>,
    files: &StderrBar<R>,
    work: &StderrBar<R>,
) -> Result<()> {
    work.set_message("copying")?;
    work.enable_steady_tick(50_000_000)?;
    for name in NAMES {
        sleep(rt, Duration::from_millis(200));
        info!(log; "copied {name}");
        files.inc(1)?;
    }
    warn!(log; "no d.txt");
    work.disable_steady_tick()?;
    work.finish_with_message("copied")?;
    files.finish()?;
    Ok(())
}

pub fn main<R: Shares>(rt: R, host: &HostRuntime) -> Result<()> {
    let board = MultiProgress::new(rt, rt.alloc(), on_stderr(host)?, 1)?;
    let files = board.new_bar(4)?;
    let work = board.new_spinner()?;
    let log = logger_above(rt, host, &board, Level::Info)?;
    copy(&rt, &log, &files, &work)
}
