//! Shows a loop over a list with its own bar: the terminal is printed after each item.
use crate::shown::{print, setup};
use anyhow::Result;
use indicatif::{
    InMemoryTerm, NoTracker, OwnedBar, ProgressBarIter, ProgressFinish, ProgressIterator, StepClock,
};
use std::vec::IntoIter;

/// The list with its bar.
type Wrapped = ProgressBarIter<IntoIter<u32>, OwnedBar<NoTracker, InMemoryTerm, StepClock>>;

fn add_up(rt: &HostRuntime, list: &mut Wrapped) -> Result<()> {
    let mut sum: u32 = 0;
    for _ in 0..u64::MAX {
        let Some(item) = list.next() else { break };
        sum = sum.wrapping_add(item);
        print(rt, list.progress.bar().term())?;
    }
    println!(rt; "sum {sum}")?;
    Ok(())
}

pub fn main(rt: &HostRuntime) -> Result<()> {
    let list = vec![in rt.alloc(); 3u32, 4, 5]?.into_iter();
    let wrapped = list.progress(rt.alloc(), setup(rt.alloc(), 4, 20)?)?;
    add_up(rt, &mut wrapped.with_finish(ProgressFinish::AndLeave))
}
