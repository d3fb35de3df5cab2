//! Pieces of work that threads do, with a bar: a thousand, by as many threads as there are processors; then a hundred that all wait for one
//! another, so that each needs its own thread. It prints how many have answers, or the refusal, and the bar's position. `tools/refused.py`
//! refuses threads to it.
use anyhow::Result;
use indicatif::machine::{Shares, StderrBar, hidden_bar};
use indicatif::{Gate, run_workers};
use std::alloc::Global;
use std::sync::Barrier;

/// Lets every piece pass.
#[derive(Drop)]
struct Open;

impl Gate for Open {
    fn pass(&self, piece: usize) {}
}

/// Holds each piece until all have come, however long that takes.
#[derive(Drop)]
struct Meeting<'a, R> {
    rt: &'a R,
    barrier: Barrier,
}

impl<'a, R: Shares> Gate for Meeting<'a, R> {
    fn pass(&self, piece: usize) {
        self.barrier.wait(self.rt);
    }

    fn needs_all_at_once(&self) -> bool {
        true
    }
}

/// The given number of pieces with three items each.
fn pieces_of(alloc: Global, count: usize) -> Result<Vec<Vec<u32>>> {
    let mut pieces = Vec::new(alloc);
    for _ in 0..count {
        pieces.push(vec![in alloc; 1u32, 2, 3]?)?;
    }
    Ok(pieces)
}

fn work<R: Shares + Print, G: Gate>(
    rt: &R,
    bar: &StderrBar<R>,
    pieces: &[Vec<u32>],
    gate: &G,
) -> Result<()> {
    let double = |x: &u32| x.wrapping_mul(2);
    let place = bar.position();
    match run_workers(rt, rt.alloc(), pieces, double, gate, bar) {
        Ok(made) => println!(rt;
            "{} pieces are done; from {place} to {}",
            made.len(),
            bar.position()
        ),
        Err(refusal) => println!(rt; "{refusal}; from {place} to {}", bar.position()),
    }?;
    Ok(())
}

pub fn main<R: Shares + Print>(rt: R, host: &HostRuntime) -> Result<()> {
    let bar = hidden_bar(rt, host)?;
    let many = pieces_of(rt.alloc(), 1000)?;
    work(&rt, &bar, many.as_slice(), &Open)?;
    let waiting = pieces_of(rt.alloc(), 100)?;
    let gate = Meeting {
        rt: &rt,
        barrier: Barrier::new(waiting.len()),
    };
    work(&rt, &bar, waiting.as_slice(), &gate)
}
