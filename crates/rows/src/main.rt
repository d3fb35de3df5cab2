//! Plays files of rows: `rows FILE ..`. Each row that differs is printed, with its file and its line, the expected and the actual result.
//! How many rows of each file agreed is printed to standard error, so standard output is empty if all did.
//!
//! Files in a folder `front` are played over the crate `indicatif`, all others over the four libraries below it, `bars_run` and
//! `meter_parts`.
//!
//! The exit status is 1 if a row differed or a file had none, and 2 if a file can't be read or a stream fails.
//!
//! - `world`: the world that steps are played on, and the module of a step.
//! - `front`: what is played over `indicatif`. All that follows is played without it.
//! - `screens`: what draws on a screen: `lone`, bars without a board; `boards`; `engines`; or a terminal alone.
//! - `terminals`: the calls of a terminal, the terminal in memory, and the cell terminal.
//! - `targets`: targets on streams, and limiters.
//! - `texts`: texts of formatters; columns, rows and pieces of texts.
//! - `templates`: templates, and words of styles.
//! - `refusals`: numbers and texts of refusals.
//! - `styles`: styles and their builders, and lines of bars.
//! - `program`: runs of `bars run`.
//! - `scripted`: a reader, a writer and a stream that do what a row says.
#![tactic(auto)]

mod boards;
mod engines;
mod front;
mod lone;
mod program;
mod refusals;
mod screens;
mod scripted;
mod styles;
mod targets;
mod templates;
mod terminals;
mod texts;
mod world;

use anyhow::{Context, Result};
use indicatif::machine::Shares;
use scripts::got::Got;
use scripts::play::{Player, Tally};
use std::env::{self, Env};
use std::fs::{self, Files};
use std::io::{self, BufRead, BufReader};
use std::process::ExitCode;
use std::random::RandomSource;
use world::World;

fn main(rt: HostRuntime) -> ExitCode {
    match play_all(rt) {
        Ok(tally) if tally.failed == 0 && tally.passed > 0 => ExitCode::SUCCESS,
        Ok(_) => ExitCode::FAILURE,
        Err(e) => {
            let _ = eprintln!(rt; "rows: {e:#}");
            ExitCode::from(2)
        }
    }
}

/// Plays the files of the arguments.
fn play_all<R: Shares + RandomSource + Env + Files + Print + Eprint>(rt: R) -> Result<Tally> {
    let mut tally = Tally::default();
    for path in env::args(&rt)?.skip(1) {
        let path = path.as_str();
        tally = tally.and(tell_file(rt, path).context(format_args!("{path}"))?);
    }
    Ok(tally)
}

/// Plays the rows of a file on a new world, over `indicatif` if the file stands in a folder `front`, and tells how many agreed. A file
/// without rows has failed.
fn tell_file<R: Shares + RandomSource + Files + Print + Eprint>(
    rt: R,
    path: &str,
) -> io::Result<Tally> {
    let lines = BufReader::new(rt.alloc(), fs::open(&rt, path)?)?;
    let is_front = path.starts_with("front/") || path.contains("/front/");
    let Tally { passed, failed } = play_file(rt, path, lines, &mut World::new(rt, is_front))?;
    eprintln!(rt; "{path}: {passed} passed, {failed} failed")?;
    Ok(Tally {
        passed,
        failed: if passed == 0 { failed.max(1) } else { failed },
    })
}

/// Plays the rows of a file, and prints each that differs.
fn play_file<R: Shares + RandomSource + Print, L: BufRead + Drop>(
    rt: R,
    path: &str,
    lines: L,
    world: &mut World<R>,
) -> io::Result<Tally> {
    let mut got = Got::new(rt.alloc());
    let mut player = Player::new(rt.alloc(), path);
    for line in lines.lines(rt.alloc()) {
        if player.reads(line?.as_str())? {
            play_row(world, player.steps(), &mut got);
            player.judge(&rt, &got)?;
        }
    }
    Ok(player.tally())
}

/// Makes steps one after another, with their results in `got`.
fn play_row<R: Shares + RandomSource>(world: &mut World<R>, steps: &str, got: &mut Got) {
    got.clear();
    for step in steps.split("; ") {
        got.begin();
        if let Err(bad) = world.play(step, got) {
            got.bad(bad);
        }
    }
}
