//! Random calls of a shared board, and what must hold of it at the end.
use crate::faults::{Fault, Held, Tally};
use crate::player::{Bar, Multi, Player, Plays, Random};
use indicatif::machine::MachineClock;
use indicatif::{
    InMemoryTerm, MultiProgress, NoTracker, ProgressDrawTarget, RecordReader, Recorded, Refusal,
};
use scripts::replay::{is_one_run, rows_of};
use std::alloc::Global;
use std::thread::map_indices;

/// A terminal of 6 rows and 30 columns.
fn target(alloc: Global) -> Result<ProgressDrawTarget<InMemoryTerm>, Refusal> {
    let term = InMemoryTerm::new(alloc, 6, 30)?;
    Ok(ProgressDrawTarget::term_like(term))
}

/// The four bars that are on a board all the time, of length 9.
fn bars_of<R: Plays>(rt: R, board: &Multi<R>) -> Result<Vec<Bar<R>>, Refusal> {
    let mut bars = Vec::new(rt.alloc());
    for _ in 0..4u32 {
        bars.push(board.new_bar(9)?)?;
    }
    Ok(bars)
}

/// How many of the rows are logged lines.
fn logged_in(rows: &[String]) -> u64 {
    let logged = rows.iter().filter(|row| row.as_str().starts_with("log "));
    logged.count() as u64
}

type Recording = Recorded<NoTracker, InMemoryTerm>;

/// Reads a history in which this many lines were logged.
#[derive(Drop)]
struct RunsAgain {
    alloc: Global,
    logged: u64,
}

impl RecordReader<InMemoryTerm, NoTracker> for RunsAgain {
    type Found = Held;

    /// Checks that a new board that makes the calls of the history gives the same answers, shows the same, and has this many logged lines.
    fn read(self, record: Option<&Recording>) -> Held {
        let RunsAgain { alloc, logged } = self;
        let Some(recorded) = record else {
            return Err(Fault::Replay);
        };
        Fault::Replay.unless(is_one_run(alloc, recorded, target(alloc)?)?)?;
        match rows_of(recorded.board().term())? {
            Some(rows) => Fault::Lost.unless(logged_in(&rows) == logged),
            None => Err(Fault::Lost),
        }
    }
}

/// Four threads make random calls; how many lines they logged.
fn logged_by_all<R: Plays>(
    rt: R,
    board: &Multi<R>,
    bars: &[Bar<R>],
    random: &Random,
) -> Result<u64, Refusal> {
    let plays = |number: usize| {
        let player = Player {
            rt,
            board,
            bars,
            number: (number as u64).wrapping_add(1),
            random,
        };
        player.plays()
    };
    let mut total: u64 = 0;
    for logged in map_indices(&rt, rt.alloc(), 4, &plays)? {
        total = total.wrapping_add(logged?);
    }
    Ok(total)
}

/// Threads make random calls of a board and its bars: once each ticker has stopped, all that they logged must stand there, and its history
/// is one run.
fn check_run_on<R: Plays>(rt: R, board: &Multi<R>, bars: &[Bar<R>], random: &Random) -> Held {
    let logged = logged_by_all(rt, board, bars, random)?;
    for bar in bars {
        bar.disable_steady_tick()?;
    }
    let alloc = rt.alloc();
    board.with_record(RunsAgain { alloc, logged })
}

/// Threads make random calls of a new board that keeps its history, and it is checked.
fn check_run<R: Plays>(rt: R, random: &Random) -> Held {
    let clock = MachineClock::new(rt);
    let board = MultiProgress::recorded(rt, rt.alloc(), target(rt.alloc())?, clock, 1)?;
    let bars = bars_of(rt, &board)?;
    check_run_on(rt, &board, &bars, random)
}

/// Makes `count` runs, each with numbers of its own.
pub fn all<R: Plays>(rt: R, Random { seed, steps }: Random, count: u64) -> Tally<u64> {
    let mut tally = Tally::new();
    for number in 0..count {
        let seed = seed.wrapping_add(number);
        tally.count(number, check_run(rt, &Random { seed, steps }));
    }
    tally
}
