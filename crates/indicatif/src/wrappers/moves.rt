//! The trait of bars that a wrapper moves.
ghost use Rattle.std.specs.Prelude.{◌≡◌, Option, None, IfSome, Result, false, ⊤};
ghost use Rattle.indicatif.specs.Moves.{Standing, Goes, PlacedAfter, Move, Advance, Place, Finish};
ghost use Rattle.indicatif_text.specs.declared.refusal.Drawn.{Drawn};
ghost use Rattle.indicatif_text.specs.declared.refusal.Refusal.{Refusal};

use crate::wrappers::seek::SeekMax;
use indicatif_text::columns::{Drawn, Refusal};

/// A bar that something else moves: an iterator by its items, a reader by its bytes.
///
/// Contracts can speak of the bar's position if its type states it: a bar with one owner does, a shared one can't. A move whose draw was
/// refused still counts.
///
/// ```
/// let mut wrapped = ProgressBarIter::new(list.into_iter(), bar); // bar: a type of one's own with these calls
/// wrapped.next(); // bar.advance(1)
/// ```
pub trait Moves {
    /// Where the bar stands, if its type states it.
    ghost stands: { Self → Option Standing } = { λ _. None };

    /// A move may lead from the first state to the second, with this answer.
    ghost leads: { Self → Move → Result Drawn Refusal → Self → Type 0 } = { λ _ _ _ _. ⊤ };

    /// Advances the bar's position by `n`, modulo 2^64.
    ///
    /// Refused: as a draw is.
    fn advance(&mut self, n: u64) -> Result<Drawn, Refusal>
        ensures led { leads self.old (Advance n) result self.new }
        ensures goes { Goes (stands self.old) (Advance n) result (stands self.new) };

    /// Sets the bar's position.
    ///
    /// Refused: as a draw is.
    fn place(&mut self, place: u64) -> Result<Drawn, Refusal>
        ensures led { leads self.old (Place place) result self.new }
        ensures goes { Goes (stands self.old) (Place place) result (stands self.new) };

    /// Finishes the bar by its stored finish. For a shared bar this is `finish_using_style`; its own `finish` leaves it at its length.
    ///
    /// Refused: as a draw is; after `Memory` the bar may be unfinished.
    fn finish(&mut self) -> Result<Drawn, Refusal>
        ensures led { leads self.old Finish result self.new }
        ensures goes { Goes (stands self.old) Finish result (stands self.new) };

    /// Moves the bar's position `n` further, as `seeks` says, in one step, and returns the answer of the draw. So nothing is lost if other
    /// owners move the bar meanwhile.
    ///
    /// The default returns `None`, for a bar with one owner, and does nothing: the caller then reads the position and sets it. A type
    /// around a shared bar has to pass this call on: otherwise two wrappers would lose bytes.
    ///
    /// Refused: as a draw is.
    fn place_after(&self, seeks: &mut SeekMax<5, 10>, n: u64) -> Option<Result<Drawn, Refusal>>
        ensures placed { IfSome result (λ answer. PlacedAfter stands leads self.now seeks.old n answer self.now seeks.new) }
        ensures none { result ≡ None → seeks.new ≡ seeks.old }
        ensures own { IfSome (stands self.now) (λ _. result ≡ None) }
    {
        None
    }

    /// Whether threads that work on a list (`map_collect`, `for_each`) may move the bar within a block, by smaller steps; how many steps
    /// depends on the threads. If not, the bar moves only after each block. A bar whose type states its position doesn't let them: so it
    /// makes one move for each block of its list.
    fn stops_within_blocks(&self) -> bool
        ensures { IfSome (stands self.now) (λ _. result ≡ false) }
    {
        false
    }

    /// The position of the bar that is moved.
    fn position(&self) -> u64
        ensures { IfSome (stands self.now) (λ bar. result ≡ bar.position) };

    /// Whether the bar that is moved is finished.
    fn finished(&self) -> bool
        ensures { IfSome (stands self.now) (λ bar. result ≡ bar.finished) };
}
