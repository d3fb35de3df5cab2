//! A pipe viewer: `producer | meter | consumer`, or `meter FILE .. > device`, passes its inputs on to standard output unchanged. On
//! standard error it shows how much was sent, for how long, the rate of the last seconds and the mean rate. If the size is known, as that
//! of a file, it also shows the progress, the time left and the time of day of the end. It draws ten times a second, even while nothing
//! comes, and not at all if standard error is no terminal. Its README.md has its options beside those of `pv`.
//!
//! The exit status is 0 if all bytes were sent; 1 if an input failed, 3 if the output did, and 4 if memory was refused, each with a
//! message; 2 after wrong arguments; and 141, without a message, if the consumer went away, as shells report for `cat`.
//!
//! - `arguments`: the request.
//! - `sizes`: how much will come.
//! - `copying`: inputs passed on.
//! - `numbers`: numbers for other programs.
//! - `shown`: the bar.
//! - `telling`: what it shows besides the count.
//!
//! The proved parts are in the crate `meter_parts`.
#![tactic(auto)]

mod arguments;
mod copying;
mod numbers;
mod shown;
mod sizes;
mod telling;

use arguments::{Asked, Begins, Unasked, Unit};
use copying::{Copied, Streams, Why, copy_all};
use indicatif::Refusal;
use indicatif::machine::Shares;
use indicatif_term::target::OwnRow;
use meter_parts::plain_text;
use shown::{Bar, bar_for, parting_for};
use sizes::size_of_all;
use std::env::Env;
use std::io::{ErrorKind, Stderr};
use std::process::ExitCode;
use std::rt::Files;
use std::sync::Wait;
use std::thread::join;
use std::time::Clock;
use telling::{Known, tell_end, tell_until_finished};

fn main(rt: HostRuntime) -> ExitCode {
    let words = match arguments::words_of(&rt) {
        Ok(words) => words,
        Err(unasked) => return unanswered(&rt, &unasked),
    };
    let asked = match arguments::asked_by(rt.alloc(), &words) {
        Ok(asked) => asked,
        Err(unasked) => return unanswered(&rt, &unasked),
    };
    let streams = Streams {
        input: rt.stdin(),
        output: rt.stdout(),
    };
    let size = size_for(&rt, &asked);
    let bar = match begun(&rt, rt.stderr(), &asked, size) {
        Ok(bar) => bar,
        Err(refusal) => return refused(&rt, &refusal),
    };
    let copied = if bar.is_hidden() {
        copy_all(&rt, streams, &asked, size, &bar)
    } else {
        let copy = || copy_all(&rt, streams, &asked, size, &bar);
        let parting = parting_for(&rt, rt.stderr(), &asked.look);
        let known = Known { size, parting };
        let tell = || tell_until_finished(&rt, &bar, &asked, known);
        // (where no thread can be made, `join` calls its second closure first, and `tell` waits for the end of `copy`)
        let ((), copied) = join(&rt, tell, copy);
        last_look(&rt, &asked, &bar);
        copied
    };
    match copied {
        Ok(copied) => answered(&rt, &asked, &copied),
        Err(refusal) => refused(&rt, &refusal),
    }
}

/// How much will come, if it is known.
fn size_for<R: Files>(rt: &R, asked: &Asked<'_>) -> Option<u64> {
    match (asked.size, asked.look.unit) {
        (Some(size), _) => Some(size),
        (None, Unit::Bytes) => size_of_all(rt, &asked.files),
        (None, Unit::Lines(_)) => None,
    }
}

/// The requested bar, with room for all rows; it ticks if the time begins at once.
///
/// Refused: `Memory`, and as for templates.
fn begun<R: Shares + Env + Eprint>(
    rt: &R,
    errors: Stderr,
    asked: &Asked<'_>,
    size: Option<u64>,
) -> Result<Bar<R>, Refusal> {
    let bar = bar_for(rt, errors, asked, size)?;
    if bar.is_hidden() {
        return Ok(bar);
    }
    if let Some(row) = asked.look.row {
        make_room(rt, row)?;
    }
    if matches!(asked.timing.begins, Begins::AtOnce) {
        bar.enable_steady_tick(asked.timing.interval)?;
    }
    Ok(bar)
}

/// Makes as many rows above the cursor's as this meter goes up to its own. They are one write, since the others may draw already.
fn make_room<R: AllocGlobal + Eprint>(rt: &R, row: OwnRow) -> Result<(), Refusal> {
    let mut rows = String::new(rt.alloc());
    for _ in 0..row.below() {
        rows.push_str("\r\n")?;
    }
    let _ = eprint!(rt; "{rows}");
    Ok(())
}

/// The bar as it stands at the end, and the cursor on a new row below it, or below all of them after that of the last row.
fn last_look<R: AllocGlobal + Env + Files + Eprint + Wait + Clock + Copy + Drop>(
    rt: &R,
    asked: &Asked<'_>,
    bar: &Bar<R>,
) {
    let _ = bar.disable_steady_tick();
    let _ = tell_end(rt, bar);
    // (all rows are written anew, whatever another program wrote over them)
    let _ = bar.suspend(|| ());
    let _ = match asked.look.row {
        Some(row) if !row.is_last() => Ok(()),
        _ => eprint!(rt; "\r\n"),
    };
}

/// The status, after its message.
fn answered<R: AllocGlobal + Eprint>(rt: &R, asked: &Asked<'_>, copied: &Copied) -> ExitCode {
    for fault in &copied.faults {
        let name = match asked.files.get(fault.input) {
            Some(name) if *name != "-" => *name,
            _ => "standard input",
        };
        match plain_text(rt.alloc(), name) {
            Ok(name) => {
                let _ = match fault.why {
                    Why::Failed(error) => eprintln!(rt; "meter: {name}: {error}"),
                    Why::IsOutput => eprintln!(rt; "meter: {name}: input file is output file"),
                };
            }
            Err(_) => return refused(rt, &Refusal::Memory),
        }
    }
    match copied.output {
        Some(error) if error.kind() == ErrorKind::BrokenPipe => ExitCode::from(141),
        Some(error) => {
            let _ = eprintln!(rt; "meter: standard output: {error}");
            ExitCode::from(3)
        }
        None if copied.faults.is_empty() => ExitCode::SUCCESS,
        None => ExitCode::from(1),
    }
}

/// The status for a bar that was refused, after its message: other than for want of memory it was the template.
fn refused(rt: &impl Eprint, refusal: &Refusal) -> ExitCode {
    let _ = eprintln!(rt; "meter: {refusal}");
    match refusal {
        Refusal::Memory => ExitCode::from(4),
        _ => ExitCode::from(2),
    }
}

/// The status if there is nothing to pass on, after its message.
fn unanswered<R: Print + Eprint>(rt: &R, unasked: &Unasked) -> ExitCode {
    match unasked {
        Unasked::Words(error) => {
            let _ = error.print(rt);
            ExitCode::from(if error.use_stderr() { 2 } else { 0 })
        }
        Unasked::Value(fault) => {
            let _ = eprintln!(rt; "meter: {fault}");
            ExitCode::from(2)
        }
        Unasked::Memory => refused(rt, &Refusal::Memory),
    }
}
