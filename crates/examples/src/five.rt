//! Copies five files at once, each by a thread with its own bar. If standard error is no terminal, plain lines show the progress of each:
//! one each five seconds, and one at the end.
use anyhow::Result;
use indicatif::machine::{Shares, StderrBoard, on_stderr};
use indicatif::{MultiProgress, PlainLines, Refusal};
use std::thread::{map_indices, sleep};
use std::time::Duration;

fn copy<R: Shares>(rt: &R, host: &HostRuntime, board: &StderrBoard<R>) -> Result<(), Refusal> {
    let bar = board.new_bar(20)?;
    let mut lines = PlainLines::every(5_000_000_000);
    for _ in 0..20u32 {
        bar.inc(1)?;
        bar.tell_line(&mut lines, &mut host.stderr())?;
        sleep(rt, Duration::from_millis(10));
    }
    bar.finish()?;
    bar.tell_line(&mut lines, &mut host.stderr())?;
    Ok(())
}

pub fn main<R: Shares>(rt: R, host: &HostRuntime) -> Result<()> {
    let board = MultiProgress::new(rt, rt.alloc(), on_stderr(host)?, 1)?;
    let copy_one = |_number: usize| copy(&rt, host, &board);
    for copied in map_indices(&rt, rt.alloc(), 5, &copy_one)? {
        copied?;
    }
    board.println_or("five files are copied", &mut host.stderr())?;
    Ok(())
}
