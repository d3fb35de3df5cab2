//! Shows a first program, the guide's first bar: three steps. It draws on a terminal in memory, whose rows are printed at the end.
use crate::shown::{print, setup};
use anyhow::Result;
use indicatif::ProgressBar;
use std::sync::Wait;

pub fn main<R: AllocGlobal + Print + Wait + Copy + Drop>(rt: R) -> Result<()> {
    let setup = setup(rt.alloc(), 5, 30)?;
    let bar = ProgressBar::new(rt, rt.alloc(), 3, setup)?;
    for _ in 0..3u32 {
        bar.inc(1)?;
    }
    bar.finish()?;
    bar.with_term(|term| print(&rt, term))
}
