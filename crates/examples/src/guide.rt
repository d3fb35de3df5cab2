//! Shows the programs of the guide at the head of the crate `indicatif`: templates and your own keys, a board, a wrapper, and what goes
//! wrong beside what goes right (`first` is the first one). Each prints the rows of a terminal in memory at the end.
use crate::guide_key;
use crate::shown::{self, print};
use anyhow::Result;
use indicatif::style::Tracks;
use indicatif::{
    InMemoryTerm, MultiProgress, NoTracker, ProgressBar, ProgressFinish, ProgressStyle, Refusal,
    Setup, StepClock,
};
use std::alloc::Global;
use std::sync::Wait;

pub type Bar<R, K = NoTracker> = ProgressBar<InMemoryTerm, StepClock, R, K>;

type Several<R> = MultiProgress<InMemoryTerm, StepClock, R>;

/// A terminal in memory of 5 rows and 30 columns, and a clock.
pub fn setup(alloc: Global) -> Result<Setup<InMemoryTerm, StepClock>, Refusal> {
    shown::setup(alloc, 5, 30)
}

/// Prints the rows of a bar's terminal.
pub fn show<R: Print + Wait + Copy + Drop, K: Tracks>(
    rt: R,
    name: &str,
    bar: &Bar<R, K>,
) -> Result<()> {
    println!(rt; "-- {name}")?;
    bar.with_term(|term| print(&rt, term))
}

/// Prints the rows of a board's terminal.
fn show_all<R: Print + Wait + Copy + Drop>(rt: R, name: &str, board: &Several<R>) -> Result<()> {
    println!(rt; "-- {name}")?;
    board.with_term(|term| print(&rt, term))
}

fn template<R: AllocGlobal + Print + Wait + Copy + Drop>(rt: R) -> Result<()> {
    let setup = setup(rt.alloc())?;
    let style = ProgressStyle::with_template(rt.alloc(), "[{bar:10}] {pos:>3}/{len} {msg}")?;
    let bar = ProgressBar::new(rt, rt.alloc(), 200, setup)?
        .with_style(style.progress_chars("=> ")?)?
        .with_message("a.txt")?;
    bar.set_position(75)?;
    show(rt, "a template", &bar)
}

fn board<R: AllocGlobal + Print + Wait + Copy + Drop>(rt: R) -> Result<()> {
    let setup = setup(rt.alloc())?;
    let board = MultiProgress::new(rt, rt.alloc(), setup, 1)?;
    let files = board.new_bar(3)?;
    let bytes = board.new_bar(6000)?;
    files.inc(1)?;
    bytes.inc(1500)?;
    board.println("a.txt is done")?;
    show_all(rt, "a board", &board)
}

fn wrapper<R: AllocGlobal + Print + Wait + Copy + Drop>(rt: R) -> Result<()> {
    let setup = setup(rt.alloc())?;
    let mut sum = 0u64;
    let bar = ProgressBar::new(rt, rt.alloc(), 4, setup)?.with_finish(ProgressFinish::AndLeave)?;
    for size in bar.wrap_iter(1..5u64)? {
        sum = sum.wrapping_add(size);
    }
    bar.println(format!(in rt.alloc(); "sum {sum}")?.as_str())?;
    show(rt, "a wrapper", &bar)
}

fn messages<R: AllocGlobal + Print + Wait + Copy + Drop>(rt: R) -> Result<()> {
    let setup = setup(rt.alloc())?;
    let bar = ProgressBar::new(rt, rt.alloc(), 3, setup)?;
    bar.set_message("a.txt")?; // draws, but `{wide_bar} {pos}/{len}` has no `{msg}`
    show(rt, "a message without its key", &bar)?;
    bar.set_style(ProgressStyle::with_template(rt.alloc(), "{wide_bar} {msg}")?)?;
    bar.set_message("a.txt")?;
    show(rt, "a message with it", &bar)
}

fn drawn_early<R: AllocGlobal + Print + Wait + Copy + Drop>(rt: R) -> Result<()> {
    let setup = setup(rt.alloc())?;
    let spinner = ProgressBar::new_spinner(rt, rt.alloc(), setup)?;
    spinner.set_message("searching")?; // draws at once, as `set_prefix`, `set_length` and `tick`
    show(rt, "a draw that wasn't meant", &spinner)
}

fn drawn_late<R: AllocGlobal + Print + Wait + Copy + Drop>(rt: R) -> Result<()> {
    let setup = setup(rt.alloc())?;
    let spinner = ProgressBar::new_spinner(rt, rt.alloc(), setup)?.with_message("searching")?;
    show(rt, "no draw yet", &spinner)
}

fn dropped_early<R: AllocGlobal + Print + Wait + Copy + Drop>(rt: R) -> Result<()> {
    let setup = setup(rt.alloc())?;
    let board = MultiProgress::new(rt, rt.alloc(), setup, 1)?;
    for name in ["a.txt", "b.txt"] {
        let bar = board.new_bar(3)?;
        bar.set_position(3)?;
        board.println(name)?;
    } // `bar` was the last owner: its bar is cleared
    show_all(rt, "a bar dropped too early", &board)
}

/// Bars of files that are done, each finished. The owners of both are returned.
fn finish_each<R: AllocGlobal + Wait + Copy + Drop>(
    rt: R,
    board: &Several<R>,
) -> Result<Vec<Bar<R>>> {
    let mut bars = Vec::new(rt.alloc());
    for name in ["a.txt", "b.txt"] {
        let bar = board.new_bar(3)?;
        bar.set_position(3)?;
        board.println(name)?;
        bar.finish()?;
        bars.push(bar)?; // both bars have an owner to the end
    }
    Ok(bars)
}

fn finished<R: AllocGlobal + Print + Wait + Copy + Drop>(rt: R) -> Result<()> {
    let setup = setup(rt.alloc())?;
    let board = MultiProgress::new(rt, rt.alloc(), setup, 1)?;
    let _bars = finish_each(rt, &board)?;
    show_all(rt, "bars that were finished", &board)
}

fn logged<R: AllocGlobal + Print + Wait + Copy + Drop>(rt: R) -> Result<()> {
    let setup = setup(rt.alloc())?;
    let bar = ProgressBar::new(rt, rt.alloc(), 3, setup)?;
    bar.inc(1)?;
    bar.println("a.txt")?; // above the bar, which goes on below it
    show(rt, "a line beside a bar", &bar)
}

fn run_traps<R: AllocGlobal + Print + Wait + Copy + Drop>(rt: R) -> Result<()> {
    messages(rt)?;
    drawn_early(rt)?;
    drawn_late(rt)?;
    dropped_early(rt)?;
    finished(rt)?;
    logged(rt)
}

pub fn main<R: AllocGlobal + Print + Wait + Copy + Drop>(rt: R) -> Result<()> {
    template(rt)?;
    guide_key::main(rt)?;
    board(rt)?;
    wrapper(rt)?;
    run_traps(rt)
}
