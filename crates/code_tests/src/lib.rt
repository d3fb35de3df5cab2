//! Tests that need code: they have trackers, closures, threads, terminals and types of their own. All other tests are rows of data (crate `rows`).
//! Expected values come from outside. A module has the name of a call, or of a subject:
//!
//! - `writers`: writers behind a terminal.
//! - `own_rows`: a terminal of unknown width.
//! - `trackers`: keys of a template, also in tests of the crate `indicatif`.
//! - `recent`: keys of the last seconds.
//! - `many_bars`: a board of many bars.
//! - `done`: workers that add to one sum.
//! - `into_inner`: bars and boards that leave their locks.
//! - `log_bridge`: lines of a log above a board's bars.
//! - `machine`: what bars need from the machine.
//! - `map_collect`: lists, block by block.
//! - `on_stderr`: shared bars on standard error.
//! - `owners`: what the last owner of a bar leaves, and what crosses threads.
//! - `println_or`: lines above bars, or beside hidden ones.
//! - `progress`: what gets a bar when it is wrapped.
//! - `receipts`: what boards with a history hand out for texts and records.
//! - `recorded`: such boards, and what they have kept.
//! - `run_workers`: pieces that threads work on, and what counts for a bar.
//! - `shared_keys`: shared bars with keys of the tests' own.
//! - `suspend`: pauses.
//! - `tickers`: steady tickers, and calls that find no memory for another owner.
//! - `update`: updates by closures.
//! - `wrappers`: what is said of a wrapper's bar, and two readers of one.
//! - `documented`: the examples of the documentation comments.
//! - `readme`: the README's program.
//! - `rows`: which lines of a file are rows, and which of them agree.
//! - `words`: those of a command line.
//!
//! What tests share:
//!
//! - `checks`: what `same!`, `holds!` and `granted` do, and what a test's runtime is.
//! - `fronts`: shared bars and boards, and what they show.
//! - `shown`: a terminal that others see, with bars and boards there, and a writer that fails.
//! - `gates`: gates, and a bar for pieces.
//! - `lent`: a runtime that is counted.
#![tactic(auto)]

/// Ends the test if a value isn't the expected one.
#[cfg(test)]
macro_rules! same {
    ($rt:expr; $got:expr, $wanted:expr $(,)?) => {
        $crate::checks::are_same($rt, $got, $wanted)
    };
}

/// Ends the test if this doesn't hold.
#[cfg(test)]
macro_rules! holds {
    ($rt:expr; $holds:expr $(,)?) => {
        $crate::checks::is_so($rt, $holds)
    };
}

#[cfg(test)]
mod checks;
#[cfg(test)]
mod documented;
#[cfg(test)]
mod done;
#[cfg(test)]
mod fronts;
#[cfg(test)]
mod gates;
#[cfg(test)]
mod into_inner;
#[cfg(test)]
mod lent;
#[cfg(test)]
mod log_bridge;
#[cfg(test)]
mod machine;
#[cfg(test)]
mod many_bars;
#[cfg(test)]
mod map_collect;
#[cfg(test)]
mod on_stderr;
#[cfg(test)]
mod own_rows;
#[cfg(test)]
mod owners;
#[cfg(test)]
mod println_or;
#[cfg(test)]
mod progress;
#[cfg(test)]
mod readme;
#[cfg(test)]
mod receipts;
#[cfg(test)]
mod recent;
#[cfg(test)]
mod recorded;
#[cfg(test)]
mod rows;
#[cfg(test)]
mod run_workers;
#[cfg(test)]
mod shared_keys;
#[cfg(test)]
mod shown;
#[cfg(test)]
mod suspend;
#[cfg(test)]
mod tickers;
#[cfg(test)]
mod trackers;
#[cfg(test)]
mod update;
#[cfg(test)]
mod words;
#[cfg(test)]
mod wrappers;
#[cfg(test)]
mod writers;
