//! Copies standard input to standard output, and shows on standard error how much was copied: `examples reader < FILE > OTHER`.
use anyhow::Result;
use indicatif::ProgressBar;
use indicatif::machine::{Shares, StderrBar, on_stderr, style_on_stderr};
use std::io;

pub fn main<R: Shares>(rt: R, host: &HostRuntime) -> Result<()> {
    let style = style_on_stderr(host, "{spinner} {bytes} ({bytes_per_sec})")?;
    let bar: StderrBar<R> = ProgressBar::styled(rt, rt.alloc(), style, None, on_stderr(host)?)?;
    let mut reader = bar.wrap_read(host.stdin())?;
    io::copy(&mut reader, &mut host.stdout())?;
    bar.finish()?;
    Ok(())
}
