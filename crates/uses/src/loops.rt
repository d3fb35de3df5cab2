//! What a loop makes of the bar that shows its progress.
ghost use Rattle.std.specs.Prelude.{◌≡◌, ◌<◌, ◌^◌, Some, IfSome, IsTrue};
ghost use Rattle.indicatif.specs.Moves.{after_bar_move, Advance};

use indicatif::{Moves, ProgressBarIter};
use std::vec::IntoIter;

/// Takes `count` items of a list, and returns whether there were as many: then a bar whose position can be read has advanced by their
/// number.
pub fn skip<T: Drop, P: Moves + Drop>(
    list: &mut ProgressBarIter<IntoIter<T>, P>,
    count: u64,
) -> bool
    ensures { IsTrue result → IfSome (P.stands list.old.progress) (λ bar. bar.position < 2 ^ 64 →
        P.stands list.new.progress ≡ Some (after_bar_move bar (Advance count))) }
{
    for _ in 0..count {
        if list.next().is_none() {
            return false;
        }
    }
    true
}
