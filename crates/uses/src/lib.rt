//! Small callers of the libraries. Each is proved from the public contracts alone, which shows that these say enough.
//!
//! - `answers`: exact answers of a bar or a board that you are lent.
//! - `texts`: a line's rows, an amount and a range as texts, and a text that is no template.
//! - `runs`: what a terminal shows after a list of calls of a bar, also if it ends rows, or of a board; that a logged line stands.
//! - `any_width`: which rows stand on a terminal of unknown width.
//! - `engines`: what engines show of one draw and of fixed lines, and how many draws a limiter allows at once.
//! - `orders`: which bars stand in the order of a board.
//! - `histories`: what a board's history holds of a call.
//! - `receipts`: that texts and records stand if a history holds their receipts; which receipts are all that there is.
//! - `trackers`: that keys with texts of the caller's own keep runs plain.
//! - `unlocked`: what is proved about shared bars and boards once their only owner has taken them out of their locks.
//! - `fronts`: what is proved about shared bars and boards, and about lists and pieces that threads work on, and what threads add up to.
//! - `loops`: what a loop makes of the bar that shows its progress.
//! - `lent`: what is proved about a bar or a board that you are lent.
//! - `plain`: the rows and the bytes if the texts are plain, without a premise on states.
//! - `sizes`: that another size takes no memory if nothing stands.
//! - `programs`: what a program prints, if its words and its input are known.
//! - `warnings`: that a warning on a board is one log of its line, and that a line is written above the bars or elsewhere.
#![tactic(auto)]

pub mod answers;
pub mod any_width;
pub mod engines;
pub mod fronts;
pub mod histories;
pub mod lent;
pub mod loops;
pub mod orders;
pub mod plain;
pub mod programs;
pub mod receipts;
pub mod runs;
pub mod sizes;
pub mod texts;
pub mod trackers;
pub mod unlocked;
pub mod warnings;
