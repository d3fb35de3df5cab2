//! Laws of the definitions: functions that do nothing, each with a law as its contract.
ghost use Rattle.std.specs.Prelude.{◌≡◌, ◌≤◌, ◌<◌, ◌^◌, false, ℕ, List, None, Some, IfSome, Result, Err, ◌⊎◌, take, reverse, map, sum, length};
ghost use Rattle.std.specs.Iterator.{YieldsThen};
ghost use Rattle.indicatif_text.specs.declared.refusal.Drawn.{Drawn};
ghost use Rattle.indicatif_text.specs.declared.refusal.Refusal.{Refusal};
ghost use Rattle.indicatif_text.specs.declared.refusal.Refusal.TheVariants.{Memory};
ghost use Rattle.indicatif.specs.Moves.{after_bar_move, MovedAlong, AreOfLoop, Move, Advance, Finish};
ghost use Rattle.indicatif.specs.Owned.{Commanded, IsRunOfMoves};
ghost use Rattle.indicatif.specs.Parallel.{Blocks};
ghost use Rattle.indicatif.specs.declared.wrappers.owned.OwnedBar.{OwnedBar};
ghost use Rattle.indicatif.specs.Wrap.{inner_of, last_draw_of, StaysAtItsEnd};
ghost use Rattle.indicatif.specs.Ring.{last_updates};
ghost use Rattle.indicatif.specs.Seek.{Seeks, no_seeks, saturated, Forward, after_seek, after_steps};

use crate::wrappers::moves::Moves;
use crate::wrappers::wrap::ProgressBarIter;
use indicatif_bar::style::Tracks;
use indicatif_term::target::TermLike;

/// What is kept after a list of updates is its last `n`, the latest first.
pub fn the_last_updates_stay()
    ensures { (n : ℕ) (updates : List ℕ) → last_updates n updates ≡ take n (reverse updates) }
{}

/// Without a seek a reader's bar shows the bytes read: moves add up, up to 2^64 - 1.
pub fn moves_add_up()
    ensures { (reset size at : ℕ) (moves : List ℕ) → at < 2 ^ 64 →
        after_steps reset size (at, no_seeks) (map Forward moves) ≡ (saturated at (sum moves), no_seeks) }
{}

/// After `reset` moves in a row no seek is remembered, whatever came first.
pub fn moves_forget_seeks()
    ensures { (reset size at : ℕ) (seeks : Seeks) (moves : List ℕ) → reset ≤ length moves → 0 < length moves →
        (after_steps reset size (at, seeks) (map Forward moves)).1 ≡ no_seeks }
{}

/// After a seek the bar shows at least the seek's place.
pub fn a_seek_shows_its_place_at_least()
    ensures { (size place : ℕ) (seeks : Seeks) → 0 < size → place ≤ (after_seek size seeks place).0 }
{}

/// A loop over all items: they are the inner iterator's, in its order, and the inner iterator came to its end. A bar whose position can be
/// read advances by their number, and is finished by its stored finish, if it wasn't finished; it stays unfinished only if the finish was
/// refused memory, as `last_draw` tells.
///
/// The premise is what std says of a loop over a wrapper: `next` gave these items one after another, and then nothing.
pub fn a_whole_loop<I: Iterator, P: Moves + Drop>()
    ensures { (items : List I.Item) (start end : ProgressBarIter I P) → YieldsThen ⟦<ProgressBarIter<I, P> as Iterator>⟧.next_gives start items None end →
        YieldsThen I.next_gives (inner_of start) items None (inner_of end)
        × IfSome (P.stands start.progress) (λ bar. bar.position < 2 ^ 64 → bar.finished ≡ false →
        (P.stands end.progress ≡ Some (after_bar_move (after_bar_move bar (Advance (length items))) Finish))
        ⊎ ((last_draw_of end ≡ Some (Err Memory)) × (P.stands end.progress ≡ Some (after_bar_move bar (Advance (length items)))))) }
{}

/// The moves that a loop over all items makes of its bar: an advance by 1 for each item, one after another, then the finish, and nothing
/// else; no finish if the bar was finished already.
pub fn the_moves_of_a_loop<I: Iterator, P: Moves + Drop>()
    ensures { (items : List I.Item) (start end : ProgressBarIter I P) → YieldsThen ⟦<ProgressBarIter<I, P> as Iterator>⟧.next_gives start items None end →
        (made : List (Move × Result Drawn Refusal)) × MovedAlong P.leads made start.progress end.progress × AreOfLoop (length items) (map (λ x. x.0) made) }
{}

/// A wrapper stays at its end if the inner iterator does: so a wrapped `FusedIterator` is one.
pub fn a_wrapped_end_stays<I: Iterator, P: Moves + Drop>()
    ensures { StaysAtItsEnd I.next_gives → StaysAtItsEnd ⟦<ProgressBarIter<I, P> as Iterator>⟧.next_gives }
{}

/// Any list of moves of a bar with its clock, as those of a loop, is a run of that bar, call by call with these answers; so the headline
/// holds of it.
pub fn moves_are_a_run<K: Tracks, T: TermLike + Drop, C>()
    ensures { (made : List (Move × Result Drawn Refusal)) (old new : OwnedBar K T C) →
        MovedAlong (Commanded K.means T.view) made old new → IsRunOfMoves K.means T.view made old new }
{}

/// A bar whose position can be read advances by the number of a list's items when threads work on the list with it.
pub fn blocks_add_up<P: Moves>()
    ensures { (items : ℕ) (old new : P) → Blocks P.stands P.leads old items new →
        IfSome (P.stands old) (λ bar. bar.position < 2 ^ 64 → P.stands new ≡ Some (after_bar_move bar (Advance items))) }
{}

/// The advances for such a list are moves of its bar, one for each block; so for a bar with its clock they are a run.
pub fn blocks_are_moves<P: Moves>()
    ensures { (items : ℕ) (old new : P) → (blocks : Blocks P.stands P.leads old items new) →
        MovedAlong P.leads (map (λ x. (Advance x.0, x.1)) blocks.made) old new }
{}
