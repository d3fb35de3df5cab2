//! Small programs, each a module with its own `main`. They run in turn, each under its name; `examples NAME` runs one of them.
//!
//! - `first`: a first program.
//! - `wrapped`: a loop with its own bar.
//! - `download`: bytes, rate and time left.
//! - `fine`: a bar of fine characters.
//! - `logging`: lines above a bar (`examples log`).
//! - `refusal`: a call that is refused.
//! - `formatters`: numbers as texts.
//! - `template`: the parts of a template.
//! - `terminal`: a bar on standard error.
//! - `sizes`: another size of a terminal, passed on.
//! - `key`: your own key in a template, on standard error.
//! - `still`: ten bars there, of which one goes on.
//! - With threads, on standard error: `spinner`, which a thread ticks.
//! - `several`: three bars, each moved by a thread.
//! - `five`: five bars, as plain lines if that is no terminal.
//! - `log_bridge`: lines of the crate `log` above two bars.
//! - `ported`: three programs of the Rust crate's documentation, carried over.
//! - `pieces`: pieces of work that threads do, also some that wait for one another.
//! - `lost_terminal`: work that goes on when its terminal goes away.
//! - `storm`: 64 threads that log, pause and change targets. Not in turn.
//! - `reader`: standard input through a reader with a bar.
//! - `guide`: the programs of the guide at the head of crate `indicatif`.
//! - `guide_key`: the one with your own key.
//! - `shown`: the terminal in memory that some of these use, and how they print it.
#![tactic(auto)]

mod download;
mod fine;
mod first;
mod five;
mod formatters;
mod guide;
mod guide_key;
mod key;
mod log_bridge;
mod logging;
mod lost_terminal;
mod pieces;
mod ported;
mod reader;
mod refusal;
mod several;
mod shown;
mod sizes;
mod spinner;
mod still;
mod storm;
mod template;
mod terminal;
mod wrapped;

use anyhow::{Result, anyhow};
use indicatif::machine::Shares;
use std::env;

/// The programs, as they run in turn.
const NAMES: &[&str] = &[
    "first",
    "wrapped",
    "download",
    "fine",
    "log",
    "refusal",
    "formatters",
    "template",
    "terminal",
    "sizes",
    "key",
    "still",
    "spinner",
    "several",
    "five",
    "log_bridge",
    "pieces",
    "ported",
    "reader",
    "guide",
];

fn main(rt: HostRuntime) -> Result<()> {
    match env::args(&rt)?.nth(1) {
        Some(name) => run(rt, &rt, name.as_str()),
        None => run_all(rt, &rt),
    }
}

fn run_all<R: Shares + Print>(rt: R, host: &HostRuntime) -> Result<()> {
    for name in NAMES {
        println!(rt; "== {name}")?;
        run(rt, host, name)?;
    }
    Ok(())
}

/// Runs the program with this name. Fails if there is none.
fn run<R: Shares + Print>(rt: R, host: &HostRuntime, name: &str) -> Result<()> {
    match name {
        "first" => first::main(rt),
        "wrapped" => wrapped::main(host),
        "download" => download::main(host),
        "fine" => fine::main(host),
        "log" => logging::main(host),
        "refusal" => refusal::main(host),
        "formatters" => formatters::main(host),
        "template" => template::main(host),
        "terminal" => terminal::main(host),
        "sizes" => sizes::main(host),
        "key" => key::main(rt, host),
        "still" => still::main(rt, host),
        "spinner" => spinner::main(rt, host),
        "several" => several::main(rt, host),
        "five" => five::main(rt, host),
        "log_bridge" => log_bridge::main(rt, host),
        "pieces" => pieces::main(rt, host),
        "lost_terminal" => lost_terminal::main(rt, host),
        "storm" => storm::main(rt, host),
        "ported" => ported::main(rt, host),
        "reader" => reader::main(rt, host),
        "guide" => guide::main(rt),
        _ => Err(anyhow!("no example is called {name}")),
    }
}
