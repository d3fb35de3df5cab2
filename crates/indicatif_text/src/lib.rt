//! Texts measured in the columns of a terminal, and numbers as people read them. The crate draws nothing and uses nothing of the machine,
//! so any program can use it.
//!
//! - `columns`: how wide is a text? `columns` and `width` count columns by Unicode's East Asian Width, `wrapped` the rows that a line
//!   takes. The public names of the next five modules stand there, too.
//! - `pieces`: a text split at its colour sequences: `Pieces`, `colour_len`, and which characters are parameters of a sequence.
//! - `range`: `write_ansi_range`, a text cut by columns: of the text, whole pieces and parts of runs are appended to another.
//! - `style_words`: `Style`, read from `red.on_blue.bold`, and the colour sequences that it writes.
//! - `refusal`: `Refusal` says why a call was refused, `TemplateState` where in a template, and `Drawn` whether a call drew.
//! - `moment`: the caller gives the time, by `Moment`, `Clock` and `StepClock`.
//! - `format`: numbers that `{}` prints: `HumanBytes`, `DecimalBytes`, `BinaryBytes`, `HumanDuration`, `FormattedDuration`, `HumanCount`
//!   and `HumanFloatCount`.
//! - `template`: `Template::parse` reads `{bar:20.green} {msg}` into its parts.
//! - `laws`: what follows from the definitions, each as a function whose contract is the law.
//! - `cases`: the definitions computed on worked cases.
//!
//! Private, for those above:
//!
//! - `runs`: visible characters of the same width, taken off the front of a text (`WidthRuns`): how many bytes of printable ASCII stand there,
//!   and how often are three bytes repeated?
//! - `spans`: the longest front of a text that belongs to a literal text, a key or a style's word (`CharacterClass`, `split_span`), by a table of the
//!   bytes that end it; or its first character.
//! - `appending`: `append`, a text behind another, in memory that was taken before.
#![tactic(auto)]

mod appending;
pub mod cases;
pub mod columns;
pub mod format;
pub mod laws;
mod moment;
mod pieces;
mod range;
mod refusal;
mod runs;
mod spans;
mod style_words;
pub mod template;
