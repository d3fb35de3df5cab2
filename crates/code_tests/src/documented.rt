//! The examples of the documentation comments that say what comes, and that no other test has. `tools/examples.py` looks for an example's
//! lines in each file of the tests.
//!
//! - `texts`: of `indicatif_text`. `terminals`, `engines`: of `indicatif_term`. `records`, `lone`: of `indicatif_bar`. `boards`: of
//!   `indicatif_board`. `shared`, `wrappers`: of `indicatif`.
mod boards;
mod engines;
mod lone;
pub mod records;
mod shared;
mod terminals;
mod texts;
mod wrappers;
