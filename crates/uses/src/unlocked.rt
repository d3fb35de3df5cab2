//! What is known of bars and boards that were shared, once their only owner has taken them out of their locks.
ghost use Rattle.std.specs.Prelude.{◌≡◌, ◌≢◌, Err, IfSome};

use crate::answers::take_bars_back;
use indicatif::{
    Clock, Drawn, MultiProgress, ProgressBar, Refusal, TermLike, UnlockedBar, UnlockedBoard,
};
use indicatif_bar::style::ProgressTracker;
use indicatif_text::columns::Moment;
use std::sync::Wait;

/// Places a bar that was shared, where this is its only owner and it stands alone, and reads where it stands: nobody else can have moved
/// it meanwhile.
pub fn placed_alone<
    T: TermLike + Drop,
    C: Clock + Drop,
    R: Wait + Clone + Drop,
    K: ProgressTracker,
>(bar: ProgressBar<T, C, R, K>, position: u64, now: Moment) -> Option<u64>
    ensures { IfSome result (λ found. found ≡ position) }
{
    match bar.into_inner() {
        Ok(UnlockedBar::Alone(mut lone)) => {
            let _drawn = lone.set_position(position, now);
            Some(lone.bar().state().pos())
        }
        Ok(UnlockedBar::OnBoard(_)) | Err(_) => None,
    }
}

/// Takes the bars' rows of a board back that was shared and keeps no history, where this is its only owner. That takes no memory.
pub fn taken_back_alone<
    T: TermLike + Drop,
    C: Clock + Drop,
    R: Wait + Clone + Drop,
    K: ProgressTracker,
>(board: MultiProgress<T, C, R, K>, now: Moment) -> Option<Result<Drawn, Refusal>>
    ensures { IfSome result (λ drawn. drawn ≢ Err Refusal.Memory) }
{
    match board.into_inner() {
        Ok(UnlockedBoard::Open(mut board)) => Some(take_bars_back(&mut board, now)),
        Ok(UnlockedBoard::Recorded(_)) | Err(_) => None,
    }
}
