//! Bars and boards that their only owners take out of their locks.
ghost use Rattle.std.specs.Prelude.{◌≡◌, IfOk, IfErr};
ghost use Rattle.indicatif.specs.Unlocked.{BarIsSomewhere, BoardIsSomewhere};

use crate::shared::any_bar::AnyBar;
use crate::shared::any_board::AnyBoard;
use crate::shared::board_cell::BoardCell;
use crate::shared::shared_bar::SharedBar;
use crate::shared::{MultiProgress, ProgressBar};
use indicatif_bar::lone::LoneBar;
use indicatif_bar::style::Tracks;
use indicatif_board::multi::{BarId, Board, Recorded};
use indicatif_term::target::TermLike;
use indicatif_text::columns::Clock;
use std::sync::{Arc, Wait};

/// What was under a bar's lock (`ProgressBar::into_inner`).
///
/// ```
/// let Ok(UnlockedBar::Alone(mut lone)) = bar.into_inner() else { .. };
/// lone.inc(2, 50)?; // by moments of your own from now on
/// ```
#[derive(Drop)]
pub enum UnlockedBar<K: Tracks, T: Drop> {
    /// A bar that stood alone, with its target.
    Alone(LoneBar<K, T>),
    /// The number of a bar on its board, which still has the bar.
    OnBoard(BarId),
}

/// What was under a board's lock (`MultiProgress::into_inner`).
///
/// ```
/// let Ok(UnlockedBoard::Recorded(record)) = board.into_inner() else { .. };
/// let entries = record.entries(); // the calls that were made under the lock
/// ```
#[derive(Drop)]
pub enum UnlockedBoard<K: Tracks, T: Drop> {
    /// A board that keeps no history.
    Open(Board<K, T>),
    /// A board with its history.
    Recorded(Recorded<K, T>),
}

impl<T: TermLike + Drop, C: Clock + Drop, R: Wait + Clone + Drop, K: Tracks> ProgressBar<
    T,
    C,
    R,
    K,
> {
    /// Takes the bar out of its lock, if this is the only owner: nothing is drawn, the bar isn't finished, and its clock is dropped.
    /// Everything proved about a `LoneBar` in any state holds for it afterwards. For a bar on a board you get its number, which names it in the board's
    /// own calls; the board still has it, even if its last owner is gone in this way.
    ///
    /// Otherwise it returns the owner, and nothing has changed. A weak reference counts as an owner here. So does the thread of a steady
    /// ticker until it has ended, which may be some moments after `disable_steady_tick`.
    pub fn into_inner(self) -> Result<UnlockedBar<K, T>, Self>
        ensures bar { IfOk result BarIsSomewhere }
        ensures owner { IfErr result (λ bar. bar ≡ self) }
    {
        let ProgressBar { state, alloc, rt } = self;
        match Arc::try_unwrap(state) {
            Ok(shared) => Ok(unlocked_bar(shared)),
            Err(state) => Err(ProgressBar { state, alloc, rt }),
        }
    }
}

impl<T: TermLike + Drop, C: Clock + Drop, R: Wait + Clone + Drop, K: Tracks> MultiProgress<
    T,
    C,
    R,
    K,
> {
    /// Takes the board out of its lock, if this is the only owner: nothing is drawn, and its clock is dropped. A board that keeps its
    /// history comes with it; the history is one run, whichever threads made its calls. So everything proved about a `Board` or a
    /// `Recorded` in any state, and the law `what_a_history_says`, hold for what was shared; but what its terminal shows isn't known.
    ///
    /// Otherwise it returns the board unchanged. Each clone is an owner. So is each bar on the board, until its own last owner is gone, or
    /// takes it out of its lock (`ProgressBar::into_inner`).
    pub fn into_inner(self) -> Result<UnlockedBoard<K, T>, Self>
        ensures board { IfOk result (BoardIsSomewhere K.means) }
        ensures owner { IfErr result (λ board. board ≡ self) }
    {
        let (board, alloc, rt) = self.into_parts();
        match Arc::try_unwrap(board) {
            Ok(cell) => Ok(unlocked_board(cell)),
            Err(board) => Err(MultiProgress { board, alloc, rt }),
        }
    }
}

/// What was under a bar's lock.
fn unlocked_bar<K: Tracks, T: TermLike + Drop, C: Clock + Drop>(
    shared: SharedBar<K, T, C>,
) -> UnlockedBar<K, T>
    ensures { BarIsSomewhere result }
{
    let SharedBar { lock, changed: _ } = shared;
    match lock.into_inner().into_bar() {
        AnyBar::Alone(bar) => {
            bar.bar();
            UnlockedBar::Alone(bar)
        }
        AnyBar::Member(member) => UnlockedBar::OnBoard(member.id),
    }
}

/// What was under a board's lock.
fn unlocked_board<K: Tracks, T: TermLike + Drop, C: Clock + Drop>(
    cell: BoardCell<K, T, C>,
) -> UnlockedBoard<K, T>
    ensures { BoardIsSomewhere K.means result }
{
    match cell.into_inner().into_board() {
        AnyBoard::Open(board) => {
            board.order();
            UnlockedBoard::Open(board)
        }
        AnyBoard::Recorded(record) => {
            record.replays();
            UnlockedBoard::Recorded(record)
        }
    }
}
