//! Shows your own key on standard error: how many of 400 files are left. If that is no terminal, the bar is hidden.
ghost use Rattle.std.specs.Prelude.{◌-◌, ◌++◌, codes, decimal};

use anyhow::Result;
use indicatif::machine::{Shares, on_stderr, style_on_stderr};
use indicatif::{FnTracker, Moment, ProgressBar, ProgressState, Refusal, TellsText};
use std::alloc::Global;

#[derive(Drop)]
struct Left(Global);

impl TellsText for Left {
    ghost told_text = { λ left p now. decimal (400 - p.position) ++ codes " left" };

    fn tell(&self, state: &ProgressState, _now: Moment) -> Result<String, Refusal> {
        Ok(format!(in self.0; "{} left", 400u64.saturating_sub(state.pos()))?)
    }
}

pub fn main<R: Shares>(rt: R, host: &HostRuntime) -> Result<()> {
    let left = FnTracker::new(rt.alloc(), Left(rt.alloc()))?;
    let style = style_on_stderr(host, "{wide_bar} {left}")?.with_key("left", left)?;
    let bar = ProgressBar::styled(rt, rt.alloc(), style, Some(400), on_stderr(host)?)?;
    for _ in 0..400u32 {
        bar.inc(1)?;
    }
    bar.finish()?;
    Ok(())
}
