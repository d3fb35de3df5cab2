//! Bars on a terminal in memory, to look at: `bars demo`, and `bars run ROWS COLS [bottom]`, which reads commands. `bars show` draws some
//! on the terminal.
//!
//! The exit status is 0; 1 after a refusal, whose number is printed to standard error, with the line of the command if there is one; and 2
//! after wrong arguments, for which the usage is printed there, after a line that is no command, and if standard input or output fails, for
//! instance because the output's reader is gone. `bars_run` says more.
//!
//! - `demo`: what the demo shows.
//! - `show`: bars on the terminal.
#![tactic(auto)]

mod demo;
mod show;

use bars_run::fault::Fault;
use bars_run::run_bars;
use bars_run::words::words;
use indicatif::Refusal;
use std::io::BufWriter;
use std::process::ExitCode;

fn main(rt: HostRuntime) -> ExitCode {
    let status = match words(&rt) {
        Ok(words) if is_word(&words, "demo") => print_demo(
            rt,
            demo::rows_and_ticks(rt, rt.alloc()),
        ),
        Ok(words) if is_word(&words, "show") => end_show(rt, show::play(rt)),
        Ok(words) => run(rt, &words),
        Err(refusal) => say(rt, Fault::Refused(refusal)),
    };
    ExitCode::from(status)
}

/// Whether this is the only word.
fn is_word(words: &[String], wanted: &str) -> bool {
    match words {
        [word] => word.as_str() == wanted,
        _ => false,
    }
}

/// Returns the status of what was shown.
fn end_show(rt: HostRuntime, shown: Result<(), Fault>) -> u8 {
    match shown {
        Ok(()) => 0,
        Err(fault) => say(rt, fault),
    }
}

/// Prints the result of the demo, and returns the status.
fn print_demo(rt: HostRuntime, shown: Result<(String, u64), Refusal>) -> u8 {
    match shown {
        Ok((contents, ticks)) => match println!(rt; "{contents}\nticks {ticks}") {
            Ok(()) => 0,
            Err(_) => say(rt, Fault::Output),
        },
        Err(refusal) => say(rt, Fault::Refused(refusal)),
    }
}

/// Runs any other words, and returns the status.
fn run(rt: HostRuntime, words: &[String]) -> u8 {
    let Ok(mut out) = BufWriter::new(rt.alloc(), rt.stdout()) else {
        return say(rt, Fault::Refused(Refusal::Memory));
    };
    run_bars(rt.alloc(), words, rt.stdin(), &mut out, &mut rt.stderr())
}

/// Prints the message of a fault, and returns its status.
fn say(rt: HostRuntime, fault: Fault) -> u8 {
    let _ = eprintln!(rt; "{fault}");
    fault.status()
}
