//! A bar on a terminal of 4 rows and 10 columns, which threads tick.
use indicatif::{
    InMemoryTerm, ProgressBar, ProgressDrawTarget, ProgressStyle, Refusal, Setup, StepClock,
};
use std::alloc::Global;
use std::sync::Wait;
use std::thread::{Threads, join};

/// The demo's bar.
type Bar<R> = ProgressBar<InMemoryTerm, StepClock, R>;

/// A bar in the style `{msg}`; nothing is drawn yet.
fn started<R: Wait + Clone + Drop>(rt: R, alloc: Global) -> Result<Bar<R>, Refusal> {
    let setup = Setup {
        target: ProgressDrawTarget::term_like(InMemoryTerm::new(alloc, 4, 10)?),
        clock: StepClock { next: 0, step: 0 },
    };
    let style = ProgressStyle::with_template(alloc, "{msg}")?;
    ProgressBar::styled(rt, alloc, style, None, setup)
}

/// Shows `hello` and ticks, then shows something else, and a clone ticks in each of two threads; the rows on the terminal afterwards, and
/// how often the bar ticked.
fn play<R: Threads + Wait + Sync + Clone + Drop>(
    rt: &R,
    alloc: Global,
    bar: &Bar<R>,
) -> Result<(String, u64), Refusal> {
    bar.set_message("hello")?;
    bar.tick()?;
    bar.set_message("progress bars")?;
    let (mine, theirs) = (bar.clone()?, bar.clone()?);
    let (one, other) = join(rt, || mine.tick(), || theirs.tick());
    one.and(other)?;
    let contents = bar.with_term(|term| match term {
        Some(term) => term.contents(),
        None => Ok(String::new(alloc)),
    })?;
    Ok((contents, bar.ticks()))
}

/// The rows on the terminal after the bar ticked three times, and how often it ticked.
pub fn rows_and_ticks<R: Threads + Wait + Sync + Copy + Clone + Drop>(
    rt: R,
    alloc: Global,
) -> Result<(String, u64), Refusal> {
    play(&rt, alloc, &started(rt, alloc)?)
}
