//! Plays scripts of calls on terminals that fail, at each possible place, and has them judged.
//!
//! `fuzz sweeps` prints for each sweep whether all of its runs are right, and `fuzz sweeps count` also how many runs there are. `fuzz
//! sweeps pairs` makes those with two failing calls at each size, which take longer.
//!
//! `fuzz sweeps memory SCRIPT` plays one of the scripts `board`, `sized-board`, `lone`, `sized-lone`, `shared`, `loop` and `run` once, for
//! `tools/refused.py`, which refuses it an allocation, and prints whether the run is as defined, and where memory was refused; the sweeps of
//! each script end with such a run, in which nothing is refused. With `grows` in place of `stays` the terminal takes memory too; with
//! `unjudged` in place of `count` the script is only played. Rows and columns after that are the terminal's.
//!
//! - `record`: a writer that keeps its bytes and fails as planned. `judge`: what must hold of the bytes: rows above stand at each of them.
//! - `script`: calls, and the answer of each if nothing fails. `players`: what makes them; `local`: a board and a lone bar, `on_shared`: a
//!   shared board.
//! - `play`: what the calls of a script did, and a look at it. `sweep`: the runs of a script. `printing`: `bars run` with an output that fails.
//! - `refused`: want of memory. `planted`: wrong bodies that its judge finds.
//!
//! Such a judgement is a test. Nothing is proved here, except that the functions are safe and return.
mod judge;
mod local;
mod on_shared;
mod planted;
mod play;
mod players;
mod printing;
pub mod record;
mod refused;
mod script;
pub mod sweep;

use crate::faults::{Fault, Tally};
use crate::sweeps::planted::PLANTED;
use crate::sweeps::play::Where;
use crate::sweeps::players::{KINDS, Kind};
use crate::sweeps::record::{Plan, Size};
use crate::sweeps::refused::{PLAYED, Playing, ROOM, found};
use crate::sweeps::sweep::{
    AT_EACH_SIZE, Case, EACH_PAIR, LARGEST, Runs, SIZES, size_of, sweep_at,
};
use anyhow::{Result, anyhow};
use std::env::Args;
use std::str::FromStr;

/// What is printed of sweeps.
#[derive(Clone, Copy, Drop)]
pub enum Telling {
    /// Whether all runs are right.
    Verdicts,
    /// Also how many runs there are.
    Counts,
}

/// Prints the result of a sweep.
fn say<R: Print>(rt: &R, telling: Telling, tally: &Tally<Case>) -> Result<()> {
    let Tally { runs, faulty, .. } = tally;
    match telling {
        _ if *faulty > 0 => println!(rt; "{faulty} of {runs} runs differ")?,
        _ if *runs <= u64::from(SIZES) => println!(rt; "{runs} runs, in which nothing failed")?,
        Telling::Verdicts => println!(rt; "as it should be")?,
        Telling::Counts => println!(rt; "{runs} runs, all as they should be")?,
    }
    tally.print_first(rt)
}

/// Makes a sweep of a script on terminals of one to four rows and of one to six columns, from the one with this number on.
fn sweep_from<R: Runs + Print>(
    rt: &R,
    telling: Telling,
    (kind, plan): (Kind, Plan),
    first: u16,
) -> Result<()> {
    let sizes = if first == 0 { " at each size" } else { "" };
    let (name, _, _) = kind.parts();
    print!(rt; "{name}, {}{sizes}: ", plan.name())?;
    let mut tally = Tally::new();
    for number in first..SIZES {
        let size = size_of(number);
        sweep_at(*rt, Some(kind), Case { size, plan }, &mut tally);
    }
    say(rt, telling, &tally)
}

/// The sweeps of a script: at each size, and those with two failing calls only on the largest terminal.
fn sweep_all<R: Runs + Print>(rt: &R, telling: Telling, kind: Kind) -> Result<()> {
    for plan in AT_EACH_SIZE {
        sweep_from(rt, telling, (kind, *plan), 0)?;
    }
    sweep_from(rt, telling, (kind, EACH_PAIR), SIZES - 1)
}

/// Prints whether a script in which memory may be refused is as defined.
fn say_found<R: Print>(rt: &R, found: Result<Where, Fault>) -> Result<()> {
    match found {
        Ok(found) => println!(rt; "as defined: {}", found.name())?,
        Err(fault) => println!(rt; "not as defined: {fault:?}")?,
    }
    Ok(())
}

/// Plays each script for refused memory, once with nothing refused.
fn play_unrefused<R: Runs + Print>(rt: &R) -> Result<()> {
    let playing = Playing {
        size: LARGEST,
        room: 0,
        is_judged: true,
    };
    for (name, kind) in PLAYED {
        print!(rt; "{name}, memory: ")?;
        say_found(rt, found(*rt, *kind, playing))?;
    }
    Ok(())
}

/// Prints what the judge of refused memory finds for wrong bodies.
fn play_wrong_bodies<R: Runs + Print>(rt: &R) -> Result<()> {
    for planted in PLANTED {
        print!(rt; "planted, {}: ", planted.name)?;
        say_found(rt, planted::found(*rt, planted))?;
    }
    Ok(())
}

/// Makes all sweeps but the longest.
pub fn sweep_kinds<R: Runs + Print>(rt: &R, telling: Telling) -> Result<()> {
    for kind in KINDS {
        sweep_all(rt, telling, *kind)?;
    }
    print!(rt; "bars run, each byte and each call of its output fail at each size: ")?;
    say(rt, telling, &printing::sweep_each_size(*rt))?;
    play_unrefused(rt)?;
    play_wrong_bodies(rt)
}

/// The number of a word.
pub fn number_of<N: FromStr>(word: Option<String>) -> Option<N>
where
    N::Err: Drop,
{
    word?.as_str().parse().ok()
}

/// How a script is played by these words; on the largest terminal if no size is given.
fn playing_by(words: &mut Args) -> Playing {
    let grows = words.next().as_deref() == Some("grows");
    let room = if grows { 0 } else { ROOM };
    let is_judged = words.next().as_deref() != Some("unjudged");
    let size = match (number_of(words.next()), number_of(words.next())) {
        (Some(rows), Some(cols)) => Size { rows, cols },
        _ => LARGEST,
    };
    Playing {
        size,
        room,
        is_judged,
    }
}

/// Plays the script with this name for refused memory. The words take no memory, so that `tools/refused.py` refuses them none.
fn play_named<R: Runs + Print>(rt: &R, script: Option<&str>, playing: Playing) -> Result<()> {
    for (name, kind) in PLAYED {
        if script == Some(*name) {
            return say_found(rt, found(*rt, *kind, playing));
        }
    }
    Err(anyhow!(
        "usage: fuzz sweeps [count | pairs | memory SCRIPT [grows | stays] [count | unjudged] [ROWS COLS]]"
    ))
}

/// Makes the sweeps with two failing calls, at each size.
fn sweep_pairs<R: Runs + Print>(rt: &R) -> Result<()> {
    for kind in KINDS {
        sweep_from(rt, Telling::Counts, (*kind, EACH_PAIR), 0)?;
    }
    Ok(())
}

/// Runs the request of the words after `sweeps`.
pub fn run<R: Runs + Print>(rt: &R, words: &mut Args) -> Result<()> {
    let (first, script) = (words.next(), words.next());
    match first.as_deref() {
        None => sweep_kinds(rt, Telling::Verdicts),
        Some("count") => sweep_kinds(rt, Telling::Counts),
        Some("pairs") => sweep_pairs(rt),
        Some("memory") => play_named(rt, script.as_deref(), playing_by(words)),
        _ => play_named(rt, None, playing_by(words)),
    }
}
