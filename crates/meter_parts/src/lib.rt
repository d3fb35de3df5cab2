//! The parts of the pipe viewer `meter`, except for its options and its bar.
//!
//! - `passing`: bytes passed on from a reader to a writer (`pass_on`, `Gauge`).
//! - `plain`: a text that a terminal can't take for a command (`plain_text`).
//! - `pace`: how fast bytes may be sent (`Pace`).
//! - `said`: numbers in options, and texts that are shown.
#![tactic(auto)]

mod pace;
mod passing;
mod plain;
mod said;

pub use pace::Pace;
pub use passing::{Broken, Gauge, pass_on};
pub use plain::{cut, plain_text};
pub use said::{TimeOfDay, bytes_of_lines, bytes_said, lines_in, nanos_said, row_said};
