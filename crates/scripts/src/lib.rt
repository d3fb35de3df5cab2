//! Tests as rows of data: how rows are read and spelled, and how files of them are played.
//!
//! A row is a line: a step, ` -> `, and its result. A step without a result may lack both. Lines that are empty or begin with `#` are
//! skipped.
//!
//! - `play`: files of rows: which steps a row makes, and which rows agree; each that differs is printed, with its file and its line.
//! - `row`: the step of a line and its expected result; words, moments and numbers of a step.
//! - `spelling`: texts with escapes, as a row spells them.
//! - `got`: the result of a step, or why it has none.
//! - `commands`: commands of a bar.
//! - `lone`: calls of a lone bar, and readings of a bar.
//! - `boards`: calls of a board, their answers, and readings of a board.
//! - `replay`: whether a new board that makes the calls of a history does the same.
//! - `screen`: a terminal to draw on, whose writes fail if a row asks for it.
#![tactic(auto)]

pub mod boards;
pub mod commands;
pub mod got;
pub mod lone;
pub mod play;
pub mod replay;
pub mod row;
pub mod screen;
mod spelling;
