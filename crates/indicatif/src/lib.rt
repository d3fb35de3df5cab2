//! Progress bars for the terminal: a port of the Rust crate `indicatif` 0.18.6 to Rattle, with its names and its templates. For a bar or a
//! board without a lock, a theorem says what is on the screen after any list of calls (docs/THEOREM.md). For a bar or a board that threads
//! share, it is proved which answers its calls may give. docs/PROVED.md says where it stands for each call what is proved and tested.
//!
//! # What is here
//!
//! - Bars that threads share: `ProgressBar` for bars and spinners, `MultiProgress` for several on one terminal. A `WeakProgressBar`
//!   refers to a bar without owning it.
//! - Bars without a lock, whose contracts say more: `LoneBar` and `Board`. Both use `BarState`, a bar's record. `BarCommand`, `LoneCall`
//!   and `Call` are their calls as values. A `Recorded` board keeps its history.
//! - Looks: `ProgressStyle` from a template, `style::ProgressTracker` for keys of your own, `ProgressFinish` for a bar's end.
//! - Wrappers: `ProgressBar::wrap_iter`, `wrap_read`, `wrap_write` and the polled ones move a bar. `ProgressIterator` also makes the bar.
//!   `ParallelProgressIterator` is for slices, and `run_workers` for pieces in threads. Your own type of bar has to implement `Moves`.
//! - Targets, where a bar draws: `machine::on_stderr` and `machine::on_stdout`; `machine::sized_stderr` for another size. You can also make
//!   a `ProgressDrawTarget` over a `Term` behind any writer, over an `InMemoryTerm` in tests, or over your own `TermLike`.
//! - Numbers as texts: `HumanBytes`, `DecimalBytes`, `BinaryBytes`, `HumanDuration`, `FormattedDuration`, `HumanCount`, `HumanFloatCount`.
//! - Logs: `bridge::logger_above`, a logger of the crate `log` that writes above the bars; `bridge::LogBridge`, its sink.
//! - Where no terminal shows bars: `ProgressBar::println_or` and `MultiProgress::println_or` for lines, `PlainLines` for bars as plain
//!   lines.
//! - `laws`: what follows from the definitions, each as a function whose contract is the law.
//!
//! # Where it stands
//!
//! - `shared`: `ProgressBar`, a bar with several owners, and in its folder `MultiProgress`, what their locks keep, weak owners, tickers and
//!   counting threads.
//! - `machine`: what bars need from the machine: the clock, facts about streams, targets and setups on them.
//! - `style`: the names of the crate's own module `style`.
//! - `wrappers`: iterators, readers, writers and streams that move a bar, with or without its own.
//! - `parallel`: slices and pieces of work in threads.
//! - `plain_lines`: `PlainLines`, when a bar that no terminal shows is due as a plain line, and that line.
//! - `bridge`: `LogBridge`, a sink of the crate `log`: the form of a record's lines, a filter, and `logger_above`.
//! - `laws`: the laws.
//!
//! # A first bar
//!
//! ```
//! let bar = ProgressBar::new(rt, rt.alloc(), 3, setup)?;
//! for _ in 0..3u32 {
//!     bar.inc(1)?;
//! }
//! bar.finish()?;
//! ```
//!
//! On 30 columns this shows in the end:
//!
//! ```text
//! ██████████████████████████ 3/3
//! ```
//!
//! `rt` is the runtime that `main` is given, `rt.alloc()` its allocator. `setup` is a target with a clock. A program takes
//! `machine::on_stderr(&rt)?`, whose target is hidden if standard error is no terminal.
//!
//! - **When a bar draws.** `new` draws nothing. `inc`, `set_position`, `tick`, `set_length`, `set_message` and `set_prefix` ask for a draw.
//!   The target of `on_stderr` makes at most 20 of these draws at once, and one more each 50 ms. `finish`, `abandon`, `println`, `suspend`
//!   and `force_draw` draw whatever the rate says. `set_style` and the builders `with_..` ask for no draw.
//! - **What a call returns.** `Ok(Drawn::Yes)` means that it drew. `Limited` means that it asked for no draw, or that the rate allowed
//!   none. `Hidden` means that the target is hidden. Otherwise the call returns a `Refusal`: docs/USING.md lists them, with the state after
//!   each.
//! - **How a bar ends.** `finish` leaves it at its length, `abandon` where it is, and `finish_and_clear` takes it away. When the last owner
//!   is gone, the stored finish ends the bar (`with_finish`). The default is `AndClear`.
//! - **Spinners.** `new_spinner` makes a bar without a length. `enable_steady_tick(100_000_000)` ticks it ten times a second: times are
//!   nanoseconds.
//!
//! # Templates
//!
//! ```
//! let style = ProgressStyle::with_template(rt.alloc(), "[{bar:10}] {pos:>3}/{len} {msg}")?;
//! let bar = ProgressBar::new(rt, rt.alloc(), 200, setup)?
//!     .with_style(style.progress_chars("=> ")?)?
//!     .with_message("a.txt")?;
//! bar.set_position(75)?;
//! ```
//!
//! ```text
//! [===>      ]  75/200 a.txt
//! ```
//!
//! A key is in braces. After a colon come the alignment `<`, `^` or `>`, a width, `!` to cut a longer text, and after a dot the style:
//! `{msg:>20!.green}`. docs/TEMPLATES.md has all keys, each with what it shows. Colours are off until `with_colors(true)`.
//! `machine::style_on_stderr` turns them on if standard error is a terminal that wants them.
//!
//! # Keys of your own
//!
//! ```
//! ghost use Rattle.std.specs.Prelude.{◌-◌, decimal};
//! // ..
//! use indicatif::{FnTracker, Moment, ProgressBar, ProgressState, ProgressStyle, Refusal, TellsText};
//! use std::alloc::Global;
//! // ..
//! #[derive(Drop)]
//! pub struct Left {
//!     pub alloc: Global,
//!     pub of: u64,
//! }
//!
//! impl TellsText for Left {
//!     ghost told_text = { λ left p now. decimal (left.of - p.position) };
//!
//!     fn tell(&self, state: &ProgressState, _now: Moment) -> Result<String, Refusal> {
//!         let left = self.of.saturating_sub(state.pos());
//!         Ok(format!(in self.alloc; "{left}")?)
//!     }
//! }
//! ```
//!
//! ```
//! let left = FnTracker::new(alloc, Left { alloc, of: 10 })?;
//! let style = ProgressStyle::with_template(alloc, "{wide_bar} {left} left")?;
//! let bar = ProgressBar::styled(rt, alloc, style.with_key("left", left)?, Some(10), setup)?;
//! bar.set_position(3)?;
//! ```
//!
//! ```text
//! ██████░░░░░░░░░░░░░░░░░ 7 left
//! ```
//!
//! `told_text` states which text `tell` returns, and the prover checks that. If they differ, the crate isn't proved. `told_text` is a
//! function of the value (here a `Left`), of the bar's record `p` and of the moment. `p` has `position`, `len`, `start`, `ticks`,
//! `message`, `prefix` and more (`crates/indicatif_bar/specs/Progress.antt`). Name the operators and functions of such a statement in a
//! `ghost use`, where `◌` stands for an operand. Numbers are unbounded, and `-` stops at 0, as `saturating_sub` does. `decimal n` is a
//! number's digits, `codes "left"` a text, and `++` joins two texts: `crates/examples/src/key.rt` writes `12 left` this way.
//!
//! The library has one tracker, `Recent`: the rate of the last seconds, and the time left at that rate, for `with_key("per_sec", ..)`,
//! `with_key("eta", ..)` and the like.
//!
//! If your type changes when the bar ticks, implement `style::ProgressTracker`. All keys of a style have one type: for several, use an
//! enum. `MultiProgress::keyed` makes a board for bars with such keys: make each bar by `new_bar(len)?.with_style(style)?`. A function for
//! bars with any keys is generic over `K: style::Tracks`.
//!
//! # Several bars
//!
//! ```
//! let board = MultiProgress::new(rt, rt.alloc(), setup, 1)?;
//! let files = board.new_bar(3)?;
//! let bytes = board.new_bar(6000)?;
//! files.inc(1)?;
//! bytes.inc(1500)?;
//! board.println("a.txt is done")?;
//! ```
//!
//! ```text
//! a.txt is done
//! ████████░░░░░░░░░░░░░░░░░░ 1/3
//! █████░░░░░░░░░░░░░░░ 1500/6000
//! ```
//!
//! Each bar may be moved by its own thread: a clone is another owner of the same bar. The last argument of `new` is the board's mark, a
//! number that tells boards apart.
//!
//! # Wrappers
//!
//! ```
//! let bar = ProgressBar::new(rt, rt.alloc(), 4, setup)?.with_finish(ProgressFinish::AndLeave)?;
//! for size in bar.wrap_iter(1..5u64)? {
//!     sum = sum.wrapping_add(size);
//! }
//! ```
//!
//! ```text
//! ██████████████████████████ 4/4
//! ```
//!
//! The items are the inner iterator's. Each moves the bar by 1, and the end finishes it by its stored finish.
//!
//! # Traps
//!
//! **A message without `{msg}`.** The template of `new` is `{wide_bar} {pos}/{len}`: a message or a prefix is kept, but not shown. Bad:
//!
//! ```
//! bar.set_message("a.txt")?; // draws, but `{wide_bar} {pos}/{len}` has no `{msg}`
//! ```
//!
//! ```text
//! ░░░░░░░░░░░░░░░░░░░░░░░░░░ 0/3
//! ```
//!
//! Better:
//!
//! ```
//! bar.set_style(ProgressStyle::with_template(rt.alloc(), "{wide_bar} {msg}")?)?;
//! bar.set_message("a.txt")?;
//! ```
//!
//! ```text
//! ░░░░░░░░░░░░░░░░░░░░░░░░ a.txt
//! ```
//!
//! **A draw that you didn't mean.** Use builders before the bar should be visible. Bad, if other work comes first:
//!
//! ```
//! let spinner = ProgressBar::new_spinner(rt, rt.alloc(), setup)?;
//! spinner.set_message("searching")?; // draws at once, as `set_prefix`, `set_length` and `tick`
//! ```
//!
//! ```text
//! ⠁ searching
//! ```
//!
//! Better, since nothing is drawn until the bar moves:
//!
//! ```
//! let spinner = ProgressBar::new_spinner(rt, rt.alloc(), setup)?.with_message("searching")?;
//! ```
//!
//! **A bar dropped too early.** The last owner is dropped at the end of its block, and the stored finish clears the bar. Bad:
//!
//! ```
//! for name in ["a.txt", "b.txt"] {
//!     let bar = board.new_bar(3)?;
//!     bar.set_position(3)?;
//!     board.println(name)?;
//! } // `bar` was the last owner: its bar is cleared
//! ```
//!
//! ```text
//! a.txt
//! b.txt
//! ```
//!
//! A finished bar stays without an owner, but only until the next text is logged, which takes its row away. Better: keep the owners as
//! long as the bars should be visible.
//!
//! ```
//! let mut bars = Vec::new(rt.alloc());
//! for name in ["a.txt", "b.txt"] {
//!     let bar = board.new_bar(3)?;
//!     bar.set_position(3)?;
//!     board.println(name)?;
//!     bar.finish()?;
//!     bars.push(bar)?; // both bars have an owner to the end
//! }
//! ```
//!
//! ```text
//! a.txt
//! b.txt
//! ██████████████████████████ 3/3
//! ██████████████████████████ 3/3
//! ```
//!
//! **Printing beside a bar.** `println!(rt; ..)` writes where the last draw left the cursor, and the next draw erases rows that it takes
//! for its own. Better:
//!
//! ```
//! bar.println("a.txt")?; // above the bar, which goes on below it
//! ```
//!
//! ```text
//! a.txt
//! ████████░░░░░░░░░░░░░░░░░░ 1/3
//! ```
//!
//! On a hidden target `println` writes nothing. There `println_or` writes the line to a writer that you pass. For other output there is
//! `suspend`, which clears the rows, calls a closure and draws again.
//!
//! **A call inside a closure.** While the closure of `suspend` runs, readings such as `bar.position()` answer, also inside it. A call that
//! draws or changes a bar waits until the closure returns: a call of any bar of that board inside the closure deadlocks. The closures of
//! `update`, `with_term` and `with_record` run under the lock: any call of the same bar, or of any bar of its board, deadlocks inside them.
//!
//! **A bar that was drawn before it joins a board.** Its old rows stay on its old target. Make it by `MultiProgress::new_bar`, or by
//! `ProgressBar::hidden` and `MultiProgress::add`.
#![tactic(auto)]

pub mod bridge;
pub mod laws;
pub mod machine;
mod parallel;
mod plain_lines;
mod shared;
pub mod style;
mod wrappers;

pub use crate::parallel::ParallelProgressIterator;
pub use crate::parallel::workers::{Gate, run_workers, run_workers_with};
pub use crate::plain_lines::PlainLines;
pub use crate::shared::{
    MultiProgress, ProgressBar, RecordReader, UnlockedBar, UnlockedBoard, WeakProgressBar,
    written_if_hidden,
};
pub use crate::wrappers::moves::Moves;
pub use crate::wrappers::owned::OwnedBar;
pub use crate::wrappers::progress_iterator::ProgressIterator;
pub use crate::wrappers::ring::MaxRingBuf;
pub use crate::wrappers::seek::SeekMax;
pub use crate::wrappers::wrap::ProgressBarIter;
pub use indicatif_bar::lone::{LoneBar, LoneCall};
pub use indicatif_bar::state::{
    Ask, BarCommand, BarState, Change, Fraction, ProgressFinish, ProgressState, Rate, SpareLines,
};
pub use indicatif_bar::style::{
    FnTracker, LastSeconds, NoTracker, ProgressStyle, Recent, RecentKey, Sample, TICKS, TellsText,
};
pub use indicatif_board::done::{Account, BarWorker, Done};
pub use indicatif_board::multi::{
    Answer, BarId, Board, Call, Candidate, Entry, InsertLocation, MultiState, Opening, Receipt,
    Recorded, Size, Turned,
};
pub use indicatif_term::cells::{Cells, InMemoryTerm};
pub use indicatif_term::target::{
    DEFAULT_RATE, Engine, Facts, Keep, LineType, MultiProgressAlignment, OwnRow, OwnRows,
    ProgressDrawTarget, RateLimiter, Resize, Segment, Setup, Term, TermLike, write_whole,
};
pub use indicatif_text::columns::{
    Clock, Drawn, Metrics, Moment, Piece, Pieces, Refusal, StepClock, Style, TemplateState,
    columns, pieces, width, wrapped,
};
pub use indicatif_text::format::{
    BinaryBytes, DecimalBytes, FormattedDuration, HumanBytes, HumanCount, HumanDuration,
    HumanFloatCount,
};
pub use indicatif_text::template::{Alignment, Part, Parts, Template};
