//! The program of the README, as a test: a bar of 1,000 steps on standard error. If that is no terminal, the bar is hidden.
use anyhow::Result;
use indicatif::ProgressBar;
use indicatif::machine::on_stderr;

#[test]
fn main(rt: HostRuntime) -> Result<()> {
    let bar = ProgressBar::new(rt, rt.alloc(), 1000, on_stderr(&rt)?)?;
    for _ in 0..1000u32 {
        bar.inc(1)?;
        // ...
    }
    bar.finish()?;
    Ok(())
}
