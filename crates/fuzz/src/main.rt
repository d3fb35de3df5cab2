//! Random input, and laws that hold for all of it; terminals that fail; and the engine beside one that writes whole frames.
//!
//! `fuzz laws SEED TEMPLATES THREADS [STEPS]` lays out TEMPLATES bars with random templates, and plays THREADS random lists of calls of a
//! board in four threads with random delays, each of which makes STEPS calls, 8 by default. It prints how many runs of each kind there were
//! and how many broke a law; for the first of these its number and the law. The same seed gives the same templates and lists. The exit
//! status is 1 if a law was broken.
//!
//! `fuzz sweeps ..` and `fuzz whole_frames ..` do what the modules with these names say. `fuzz SEED TEMPLATES ..`, with numbers only, plays
//! random input, then the sweeps, and compares the engines last.
//!
//! - `numbers`: random numbers.
//! - `faults`: what may be wrong.
//! - `templates`: templates and their lines.
//! - `threads`: a shared board that keeps its history.
//! - `player`: the calls of a thread.
//! - `sweeps`: terminals that fail, at each possible place.
//! - `whole_frames`: engines beside one that writes whole frames.
#![tactic(auto)]

mod faults;
mod numbers;
mod player;
mod sweeps;
mod templates;
mod threads;
mod whole_frames;

use crate::faults::Tally;
use crate::player::{Plays, Random};
use crate::sweeps::{Telling, sweep_kinds};
use anyhow::{Result, anyhow};
use std::env::{self, Env};
use std::process::ExitCode;

/// How many calls each of four threads makes by default.
const STEPS: u64 = 8;

/// Prints the result of runs; whether none broke a law.
fn say<R: Print>(rt: &R, name: &str, tally: &Tally<u64>) -> Result<bool> {
    let Tally { runs, faulty, .. } = tally;
    println!(rt; "{name}: {runs} runs, {faulty} broke a law")?;
    tally.print_first(rt)?;
    Ok(*faulty == 0)
}

/// Plays random input by the numbers after the first `passed` words; whether no law was broken.
fn keeps_laws<R: Plays + Print + Env>(rt: R, passed: usize) -> Result<bool> {
    let mut numbers: Vec<u64> = Vec::new(rt.alloc());
    for word in env::args(&rt)?.skip(passed) {
        numbers.push(word.as_str().parse()?)?;
    }
    match numbers.as_slice() {
        [seed, templates, threads, rest @ ..] if rest.len() < 2 => {
            let steps = rest.first().copied().unwrap_or(STEPS);
            let drawn = templates::all(rt.alloc(), *seed, *templates);
            let are_kept = say(&rt, "templates", &drawn)?;
            let played = threads::all(rt, Random { seed: *seed, steps }, *threads);
            Ok(say(&rt, "lists in four threads", &played)? && are_kept)
        }
        _ => Err(anyhow!(
            "usage: fuzz [laws] SEED TEMPLATES THREADS [STEPS] | sweeps .. | whole_frames .."
        )),
    }
}

fn main(rt: HostRuntime) -> Result<ExitCode> {
    // They are read again if memory was refused.
    let mut words = env::args(&rt).or_else(|_| env::args(&rt))?;
    let first = words.nth(1);
    let mut are_kept = true;
    match first.as_deref() {
        Some("laws") => are_kept = keeps_laws(rt, 2)?,
        Some("sweeps") => sweeps::run(&rt, &mut words)?,
        Some("whole_frames") => whole_frames::run(&rt, &mut words)?,
        _ => {
            are_kept = keeps_laws(rt, 1)?;
            sweep_kinds(&rt, Telling::Verdicts)?;
            whole_frames::compare(&rt, 1, 1000)?;
        }
    }
    Ok(ExitCode::from(u8::from(!are_kept)))
}
