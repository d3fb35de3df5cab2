//! Shows a bar of fine characters: a cell is full, empty or one of seven parts, so that 14 columns show 112 different steps.
use crate::shown::print;
use anyhow::Result;
use indicatif::{BarState, InMemoryTerm, LoneBar, NoTracker, ProgressDrawTarget, ProgressStyle};

const PERCENTS: &[u32] = &[0, 1, 2, 7, 13, 30, 50, 64, 99, 100];

fn fill(rt: &HostRuntime, bar: &mut LoneBar<NoTracker, InMemoryTerm>) -> Result<()> {
    for percent in PERCENTS {
        let done = u64::from(*percent);
        bar.set_position(done, done * 1_000_000_000)?;
        print(rt, bar.term())?;
    }
    Ok(())
}

pub fn main(rt: &HostRuntime) -> Result<()> {
    let style = ProgressStyle::with_template(rt.alloc(), "▕{wide_bar}▏{percent}%")?;
    let style = style.progress_chars("█▉▊▋▌▍▎▏ ")?;
    let bar = BarState::styled(rt.alloc(), style, Some(100), 0)?;
    let target = ProgressDrawTarget::term_like(InMemoryTerm::new(rt.alloc(), 2, 20)?);
    fill(rt, &mut LoneBar::new(bar, target))
}
