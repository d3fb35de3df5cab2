//! A storm on standard error: 64 threads log above four bars, move them and pause them, all at once, while one more thread ticks a bar;
//! three times, each time on a new target, and once more while they run. It prints how many lines each thread has written.
//! `tools/programs.py storms` checks that all of them stand.
use anyhow::Result;
use indicatif::bridge::{StderrLogger, logger_above};
use indicatif::machine::{Shares, StderrBar, StderrBoard, on_stderr};
use indicatif::{Drawn, MultiProgress, Refusal};
use log::{Level, info};
use std::io::Write;
use std::sync::Wait;
use std::thread::{map_indices, sleep};
use std::time::{Clock, Duration};

/// The threads.
const THREADS: usize = 64;

/// The steps of each on a target.
const STEPS: u64 = 20;

/// The nanoseconds between two ticks.
const TICK: u64 = 2_000_000;

/// What all threads share: a board with four bars.
#[derive(Drop)]
struct Storm<'a, R: Wait + Clone + Drop> {
    rt: &'a R,
    host: &'a HostRuntime,
    board: &'a StderrBoard<R>,
    one: &'a StderrBar<R>,
    two: &'a StderrBar<R>,
    three: &'a StderrBar<R>,
    four: &'a StderrBar<R>,
    log: &'a StderrLogger<R>,
}

/// Writes a line while the bars are cleared, as another program does.
fn write_in_pause<R: AllocGlobal + Wait + Clock + Copy + Clone + Drop>(
    storm: &Storm<'_, R>,
    text: &str,
) -> Result<(), Refusal> {
    let (host, ended) = (storm.host, format!(in storm.rt.alloc(); "{text}\n")?);
    let write = move || host.stderr().write_all(ended.as_bytes());
    let (written, drawn) = storm.board.suspend(write);
    drawn?;
    match written {
        Ok(()) => Ok(()),
        Err(error) => Err(Refusal::Terminal(error.kind())),
    }
}

/// Writes a line, in one of four ways.
fn write_line<R: AllocGlobal + Wait + Clock + Copy + Clone + Drop>(
    storm: &Storm<'_, R>,
    way: u64,
    text: &str,
) -> Result<(), Refusal> {
    match way {
        0 => {
            storm.board.println(text)?;
        }
        1 => {
            storm.two.println(text)?;
        }
        2 => write_in_pause(storm, text)?,
        _ => info!(storm.log; "{text}"),
    }
    Ok(())
}

/// Moves a bar.
fn move_bar<R: AllocGlobal + Wait + Clock + Copy + Clone + Drop>(
    storm: &Storm<'_, R>,
    way: u64,
) -> Result<Drawn, Refusal> {
    match way {
        0 => storm.one.inc(1),
        1 => storm.two.set_message("a message"),
        2 => storm.three.tick(),
        _ => storm.four.force_draw(),
    }
}

/// A thread's steps on a target, a line after each move; how many lines it has written. One thread sets another target meanwhile.
fn run<R: AllocGlobal + Wait + Clock + Copy + Clone + Drop>(
    storm: &Storm<'_, R>,
    target: u64,
    thread: usize,
) -> Result<u64, Refusal> {
    for step in 0..STEPS {
        if thread == 0 && step == STEPS / 2 {
            storm.board.move_to(on_stderr(storm.host)?.target)?;
        }
        let way = step.wrapping_mul(7).wrapping_add(thread as u64);
        move_bar(storm, way % 4)?;
        let text = format!(in storm.rt.alloc(); "line {target} {thread} {step}")?;
        write_line(storm, way / 4 % 4, text.as_str())?;
        sleep(storm.rt, Duration::from_millis(1));
    }
    Ok(STEPS)
}

/// All threads' steps on a target, with a ticker: how many lines each has written.
fn storm_on<R: Shares>(storm: &Storm<'_, R>, target: u64) -> Result<Vec<Result<u64, Refusal>>> {
    storm.one.enable_steady_tick(TICK)?;
    let one = |thread: usize| run(storm, target, thread);
    let lines = map_indices(storm.rt, storm.rt.alloc(), THREADS, &one)?;
    storm.one.disable_steady_tick()?;
    Ok(lines)
}

/// A storm on a target, and then another target.
fn round<R: Shares + Print>(storm: &Storm<'_, R>, target: u64) -> Result<()> {
    for lines in storm_on(storm, target)? {
        println!(storm.rt; "{target} {}", lines?)?;
    }
    storm.board.move_to(on_stderr(storm.host)?.target)?;
    Ok(())
}

pub fn main<R: Shares + Print>(rt: R, host: &HostRuntime) -> Result<()> {
    let board = MultiProgress::new(rt, rt.alloc(), on_stderr(host)?, 1)?;
    let log = logger_above(rt, host, &board, Level::Info)?;
    let (one, two) = (board.new_bar(10)?, board.new_bar(10)?);
    let (three, four) = (board.new_bar(10)?, board.new_bar(10)?);
    let storm = Storm {
        rt: &rt,
        host,
        board: &board,
        one: &one,
        two: &two,
        three: &three,
        four: &four,
        log: &log,
    };
    round(&storm, 0)?;
    round(&storm, 1)?;
    round(&storm, 2)?;
    println!(rt; "missed {}", log.sink().missed())?;
    Ok(())
}
