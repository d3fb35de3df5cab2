//! Shows a download of 500,000 bytes a second: bytes, rate and time left, and the rows on the terminal at four moments.
use crate::shown::print;
use anyhow::Result;
use indicatif::{BarState, InMemoryTerm, LoneBar, NoTracker, ProgressDrawTarget, ProgressStyle};

/// The file's length in bytes.
const LENGTH: u64 = 3_000_000;

/// The moments at which the rows are printed.
const SECONDS: &[u32] = &[0, 1, 3, 6];

fn download(rt: &HostRuntime, bar: &mut LoneBar<NoTracker, InMemoryTerm>) -> Result<()> {
    for second in SECONDS {
        let second = u64::from(*second);
        bar.set_position(second * 500_000, second * 1_000_000_000)?;
        print(rt, bar.term())?;
    }
    Ok(())
}

pub fn main(rt: &HostRuntime) -> Result<()> {
    let target = ProgressDrawTarget::term_like(InMemoryTerm::new(rt.alloc(), 3, 60)?);
    let template = "{bytes} of {total_bytes}, {bytes_per_sec}, {eta} left";
    let style = ProgressStyle::with_template(rt.alloc(), template)?;
    let bar = BarState::styled(rt.alloc(), style, Some(LENGTH), 0)?;
    download(rt, &mut LoneBar::new(bar, target))
}
