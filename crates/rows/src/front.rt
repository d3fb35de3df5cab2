//! Rows over the crate `indicatif`.
//!
//! - `bars`: shared bars and boards, and how they are made.
//! - `tell`: a bar's calls and readings.
//! - `fronts`: bars that stand alone or on boards.
//! - `history`: the history of a board.
//! - `beside`: a shared bar beside a lone one, call by call.
//! - `counted`: a bar that counts its moves.
//! - `bytes`: wrapped readers, writers and streams.
//! - `loops`: wrapped lists.
//! - `places`: the position that moves and seeks show.
//! - `environment`: the facts of an environment about a terminal.
//! - `on_panes`: boards on terminals of other sizes than they were given.
//! - `pane`: such a terminal.
//! - `plain`: a hidden bar as plain lines.
pub mod bars;
pub mod beside;
pub mod bytes;
pub mod counted;
pub mod environment;
pub mod fronts;
pub mod history;
pub mod loops;
pub mod on_panes;
pub mod pane;
pub mod places;
pub mod plain;
pub mod tell;
