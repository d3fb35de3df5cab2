//! Several bars on one terminal, in an order, with text above them. Also a sum that many threads add to.
//!
//! - `multi`: `Board`, several bars on one target. `Board::run` makes a list of calls: the main theorem is about such runs
//!   (docs/THEOREM.md). The public names of the next five modules stand there, too.
//! - `bar_id`: `BarId` names a bar.
//! - `calls`: `Call` is a call as a value, and `Answer` its answer. `Candidate` is a bar to insert, `InsertLocation` says where, and
//!   `Turned` is a candidate that was refused. An answer is read here as a draw or as a bar.
//! - `recorded`: `Recorded`, a board with its history, whose entries a new board can make again: `Opening`, `Entry`, `Size`.
//! - `receipts`: `Receipt`, which entry of a history has logged a text: it is handed out, and a history says whether it holds it.
//! - `slots`: `MultiState`, the order alone: bars are inserted and removed by their numbers, and each has a place and a slot.
//! - `bridge`: logs. `emit` writes a line with its level above the bars, `bridge_line` makes that line.
//! - `done`: sums without a lock, `Done`: a `BarWorker` adds, is split and joined, and reads or closes the sum.
//! - `laws`: what follows from the definitions, each as a function whose contract is the law.
//! - `cases`: the definitions computed on worked cases.
//!
//! Private, for those above:
//!
//! - `shown_bars`: `ShownBars`, the bars in their order with the lines that they show: taken in, taken out, laid out.
//! - `members`: `Member` and `Seated`, a bar's record on a board, and whether its owner is gone; items of lists are put at a place, taken
//!   out, moved.
//! - `places`: `Places`, where bars were last found, so that the usual call finds its bar at once.
//! - `in_window`: how many bars may the terminal have rows for? Those are put there.
//! - `call_copies`: copies of calls, candidates and answers.
//! - `sums`: the invariant of the word that workers share, with each step on it.
#![tactic(auto)]

mod bar_id;
pub mod bridge;
mod call_copies;
mod calls;
pub mod cases;
pub mod done;
mod in_window;
pub mod laws;
mod members;
pub mod multi;
mod places;
mod receipts;
mod recorded;
mod shown_bars;
mod slots;
mod sums;
