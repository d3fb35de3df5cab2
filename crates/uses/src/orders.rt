//! Where the bars of a board stand.
ghost use Rattle.std.specs.Prelude.{◌≡◌, ◌∷◌, [], ℕ, None, Ok, IfOk};
ghost use Rattle.indicatif_board.specs.Multi.{record_at, slots_of};

use indicatif_bar::style::ProgressTracker;
use indicatif_board::multi::{Board, MultiState};
use indicatif_term::target::TermLike;
use indicatif_text::columns::{Drawn, Moment, Refusal};
use std::alloc::Global;

/// Two bars, each inserted at the top: the second stands there, although its slot is the second one.
pub fn second_at_the_top(alloc: Global) -> Result<MultiState, Refusal>
    ensures { IfOk result (λ state. state.order ≡ 1 ∷ 0 ∷ []) }
{
    let mut state = MultiState::new(alloc);
    state.insert(0)?;
    state.insert(0)?;
    Ok(state)
}

/// Clears the rows of bars without an owner. If that was done, none of these bars stands in the order.
pub fn take_back_ownerless<K: ProgressTracker, T: TermLike + Drop>(
    board: &mut Board<K, T>,
    now: Moment,
) -> Result<Drawn, Refusal>
    ensures { ((number : ℕ) → record_at number board.old ≡ None) → result ≡ Ok Drawn.Yes → (slots_of board.new).order ≡ [] }
{
    board.clear(now)
}
