//! Shows the guide's own key: how many files are left.
ghost use Rattle.std.specs.Prelude.{◌-◌, decimal};

use crate::guide::{setup, show};
use anyhow::Result;
use indicatif::{FnTracker, Moment, ProgressBar, ProgressState, ProgressStyle, Refusal, TellsText};
use std::alloc::Global;
use std::sync::Wait;

/// Says how many of `of` files are left.
#[derive(Drop)]
pub struct Left {
    pub alloc: Global,
    pub of: u64,
}

impl TellsText for Left {
    ghost told_text = { λ left p now. decimal (left.of - p.position) };

    fn tell(&self, state: &ProgressState, _now: Moment) -> Result<String, Refusal> {
        let left = self.of.saturating_sub(state.pos());
        Ok(format!(in self.alloc; "{left}")?)
    }
}

pub fn main<R: AllocGlobal + Print + Wait + Copy + Drop>(rt: R) -> Result<()> {
    let alloc = rt.alloc();
    let setup = setup(alloc)?;
    let left = FnTracker::new(alloc, Left { alloc, of: 10 })?;
    let style = ProgressStyle::with_template(alloc, "{wide_bar} {left} left")?;
    let bar = ProgressBar::styled(rt, alloc, style.with_key("left", left)?, Some(10), setup)?;
    bar.set_position(3)?;
    show(rt, "a key of one's own", &bar)
}
