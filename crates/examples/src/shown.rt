//! A terminal in memory, and its rows: some of the other programs draw their bars on it, and print it.
use anyhow::{Result, bail};
use indicatif::{InMemoryTerm, ProgressDrawTarget, Refusal, Setup, StepClock};
use std::alloc::Global;

/// The setup of a bar or a board on a terminal in memory: a target, and a clock that advances by a nanosecond at each reading.
pub fn setup(
    alloc: Global,
    rows: u16,
    cols: u16,
) -> Result<Setup<InMemoryTerm, StepClock>, Refusal> {
    let target = ProgressDrawTarget::term_like(InMemoryTerm::new(alloc, rows, cols)?);
    let clock = StepClock { next: 0, step: 1 };
    Ok(Setup { target, clock })
}

/// Prints the rows of the terminal.
pub fn print<R: Print>(rt: &R, term: Option<&InMemoryTerm>) -> Result<()> {
    match term {
        Some(term) => {
            println!(rt; "{}", term.contents()?)?;
            Ok(())
        }
        None => bail!("no terminal"),
    }
}
