//! Shows a bar whose terminal gets other sizes. They come from a text here, one a line as `stty size` prints it; in a program they come
//! from whatever reports them.
use crate::shown::print;
use anyhow::Result;
use indicatif::{BarState, InMemoryTerm, LoneBar, NoTracker, ProgressDrawTarget};

/// Rows and columns.
const SIZES: &str = "4 10\n4 30";

fn pass_on(rt: &HostRuntime, bar: &mut LoneBar<NoTracker, InMemoryTerm>) -> Result<()> {
    bar.inc(1, 0)?;
    print(rt, bar.term())?;
    for size in SIZES.lines() {
        let (rows, cols) = size.split_once(' ').unwrap_or((size, ""));
        bar.resize(rows.parse()?, cols.parse()?)?;
        bar.tick(0)?;
        print(rt, bar.term())?;
    }
    Ok(())
}

pub fn main(rt: &HostRuntime) -> Result<()> {
    let bar = BarState::new(rt.alloc(), Some(2), 0)?;
    let target = ProgressDrawTarget::term_like(InMemoryTerm::new(rt.alloc(), 4, 20)?);
    pass_on(rt, &mut LoneBar::new(bar, target))
}
