//! A board with its history.
ghost use Rattle.std.specs.Prelude.{◌≡◌, ◌⊎◌, ℕ, Option, IsTrue, [], map, option_map};
ghost use Rattle.indicatif_term.specs.Calls.{TermView};
ghost use Rattle.indicatif_term.specs.Target.{term_of, limiter_of};
ghost use Rattle.indicatif_bar.specs.Commands.{BarRecord};
ghost use Rattle.indicatif_bar.specs.Machines.{target_of};
ghost use Rattle.indicatif_board.specs.Boards.{BoardState, Refused};
ghost use Rattle.indicatif_board.specs.Calls.{call_of, answer_of};
ghost use Rattle.indicatif_board.specs.Multi.{IsIn, known, terminal_of};
ghost use Rattle.indicatif_board.specs.Recorded.{IsOneRun, IsRun, AddsCall, target_by, step_of, handed_back};
ghost use Rattle.indicatif_board.specs.declared.calls.Answer.{Answer};
ghost use Rattle.indicatif_text.specs.declared.refusal.Refusal.{Refusal};

use crate::calls::new_bar_in;
use crate::multi::{Answer, Board, Call};
use indicatif_bar::state::BarState;
use indicatif_bar::style::Tracks;
use indicatif_term::target::{ProgressDrawTarget, RateLimiter, TermLike};
use indicatif_text::columns::{Moment, Refusal};
use std::alloc::Global;
use std::marker::Model;

/// The size of a terminal.
///
/// ```
/// let record: Recorded<NoTracker, _> = Recorded::new(alloc, target, 7); // on a terminal of 4 rows and 10 columns
/// assert_eq!(record.opening().size, Some(Size { columns: 10, rows: 4 }));
/// ```
#[derive(Clone, Copy, Debug, Drop, PartialEq, Eq)]
pub struct Size {
    /// Columns.
    pub columns: u16,
    /// Rows.
    pub rows: u16,
}

/// A call that a board has made, and what it answered.
///
/// ```
/// let (answer, none) = record.apply(Call::Clear, 5);
/// let entry = &record.entries()[0];
/// assert!(matches!(entry.call, Call::Clear) && entry.now == 5 && entry.answer == answer);
/// ```
#[derive(Drop)]
pub struct Entry<K> {
    /// The call.
    pub call: Call<K>,
    /// Its moment.
    pub now: Moment,
    /// Its answer.
    pub answer: Answer,
}

/// What a board began with, except its terminal. Even a history without calls says what its calls would be made on.
///
/// ```
/// let target = ProgressDrawTarget::term_like_with_hz(term, 20, 0)?;
/// let record: Recorded<NoTracker, _> = Recorded::new(alloc, target, 7);
/// let opening = record.opening(); // its mark is 7, and its limiter has 20 draws in hand, whatever the board has drawn since
/// ```
#[derive(Drop)]
pub struct Opening {
    /// Its mark.
    pub mark: u64,
    /// The limiter as it was in the target; `None` if there is no limit, or the target is hidden.
    pub limiter: Option<RateLimiter>,
    /// The size of the terminal, for the whole history; `None` if the target is hidden.
    pub size: Option<Size>,
}

/// A board that keeps its calls and answers. The kept calls and answers are always those of one run from its opening on, on a target of one
/// size, and the board is where that run ends: also if it is kept in a lock.
///
/// It grows with each call. Its calls are those of `Board`, as values.
///
/// ```
/// let mut record = Recorded::new(alloc, ProgressDrawTarget::term_like(term), 1);
/// let (answer, none) = record.apply(Call::Clear, now);
/// let recorded = record.entries(); // one entry: the call, its moment, its answer
/// ```
pub struct Recorded<K: Tracks, T: Drop> {
    alloc: Global,
    opening: Opening,
    board: Board<K, T>,
    entries: Vec<Entry<K>>,
}

impl<K: Tracks, T: Drop> Drop for Recorded<K, T> {
    fn drop(self) {
        let Recorded {
            alloc: _,
            opening: _,
            board: _,
            entries: _,
        } = self;
    }
}

/// Contracts see the mark, the limiter and the target of the opening, the board, and its steps.
impl<K: Tracks, T: Drop> Model for Recorded<K, T> {
    ghost use Rattle.std.specs.Prelude.{map};
    ghost use Rattle.indicatif_board.specs.Recorded.{Record, IsOneRun, step_of, target_by};

    ghost Value = { Record K T };

    ghost view = { λ r. record { mark = r.opening.mark; limiter = r.opening.limiter; target = target_by r.opening.size; board = r.board; steps = map step_of r.entries.items } };

    ghost invariant = { λ r. IsOneRun K.means
        (record { mark = r.opening.mark; limiter = r.opening.limiter; target = target_by r.opening.size; board = r.board; steps = map step_of r.entries.items }) };
}

impl<K: Tracks, T: TermLike + Drop> Recorded<K, T> {
    /// A board without bars on this target, with this mark, and without calls. It takes no memory and writes nothing.
    pub fn new(alloc: Global, target: ProgressDrawTarget<T>, mark: u64) -> Self
        ensures opening { (result.mark ≡ mark) × (result.limiter ≡ limiter_of target) }
        ensures target { result.target ≡ target_of (option_map T.view (term_of target)) }
        ensures steps { result.steps ≡ [] }
        ensures terminal { terminal_of result.board ≡ term_of target }
        ensures run { IsRun K.means (option_map T.view (term_of target)) result (known T.view result.board) }
    {
        let (target, limiter) = with_limiter(target);
        let board = Board::new(alloc, target, mark);
        let size = size_of(&board);
        Recorded {
            alloc,
            opening: Opening {
                mark,
                limiter,
                size,
            },
            board,
            entries: Vec::new(alloc),
        }
    }

    /// Makes a call, and keeps it with its moment and its answer; it also returns the bar that was removed, or the new one that was
    /// refused.
    ///
    /// Refused: as the call; and `Memory` if the history finds no room: then the call isn't made, nothing has changed and nothing is kept.
    /// The same would happen if the terminal had another size than at the opening. No terminal that meets `TermLike` has one, since a board
    /// with its history is never given another size.
    pub fn apply(&mut self, call: Call<K>, now: Moment) -> (Answer, Option<BarState<K>>)
        ensures grows { AddsCall K.means T.view self.old (call_of call) now (answer_of result.0) self.new
            ⊎ ((self.new ≡ self.old) × (result.0 ≡ Answer.Refused Refusal.Memory)) }
        ensures back { (s : BoardState (BarRecord K)) (other : BarRecord K) → IsIn self.old.mark self.old.board s →
            result.1 ≡ handed_back (call_of call) (answer_of result.0) other s.members }
        ensures goes_on { (opened : Option TermView) → IsRun K.means opened self.old (known T.view self.old.board) → IsRun K.means opened self.new (known T.view self.new.board) }
    {
        if !is_as_large(size_of(&self.board), self.opening.size) {
            return (Answer::Refused(Refusal::Memory), returned_bar(call));
        }
        let Ok(copy) = call.try_clone(self.alloc) else {
            return (Answer::Refused(Refusal::Memory), returned_bar(call));
        };
        if self.entries.reserve(1).is_err() {
            return (Answer::Refused(Refusal::Memory), returned_bar(call));
        }
        let (answer, bar) = self.board.apply(call, now);
        self.entries.push_reserved(Entry {
            call: copy,
            now,
            answer: answer.same(),
        });
        (answer, bar)
    }

    /// What the board with its history began with.
    pub fn opening(&self) -> &Opening
        ensures began { (result.now.mark ≡ self.now.mark) × (result.now.limiter ≡ self.now.limiter) }
        ensures target { target_by result.now.size ≡ self.now.target }
    {
        &self.opening
    }

    /// The history: the calls that were made, with their moments and answers, in order.
    pub fn entries(&self) -> &[Entry<K>]
        ensures { map step_of result.now ≡ self.now.steps }
    {
        self.entries.as_slice()
    }

    /// The board as it stands after its history.
    pub fn board(&self) -> &Board<K, T>
        ensures { result.now ≡ self.now.board }
    {
        &self.board
    }

    /// What is kept is one run, and the board is where it ends. Calling it does nothing.
    pub fn replays(&self)
        ensures { IsOneRun K.means self.now }
    {
        let _ = &self.board;
    }
}

/// A target, and a copy of its limiter for the opening.
fn with_limiter<T: Drop>(
    target: ProgressDrawTarget<T>,
) -> (ProgressDrawTarget<T>, Option<RateLimiter>)
    ensures target { result.0 ≡ target }
    ensures limiter { result.1 ≡ limiter_of target }
{
    match target.into_parts() {
        None => (ProgressDrawTarget::hidden(), None),
        Some((term, limiter)) => {
            let again = limiter.as_ref().map(|limiter| limiter.same());
            (ProgressDrawTarget::from_parts(Some((term, limiter))), again)
        }
    }
}

/// The size of a board's terminal.
fn size_of<K: Tracks, T: TermLike + Drop>(board: &Board<K, T>) -> Option<Size>
    ensures { target_by result ≡ target_of (known T.view board.now) }
{
    match board.term() {
        Some(term) => Some(Size {
            columns: term.width(),
            rows: term.height(),
        }),
        None => None,
    }
}

/// Whether two terminals have the same size, or both targets are hidden.
fn is_as_large(one: Option<Size>, other: Option<Size>) -> bool
    ensures { IsTrue result → one ≡ other }
{
    match (one, other) {
        (None, None) => true,
        (Some(one), Some(other)) => one == other,
        (None, Some(_)) | (Some(_), None) => false,
    }
}

/// The new bar of a call that the board with its history doesn't make.
fn returned_bar<K: Tracks>(call: Call<K>) -> Option<BarState<K>>
    ensures { (s : BoardState (BarRecord K)) (other : BarRecord K) → result ≡ handed_back (call_of call) (Refused Refusal.Memory) other s.members }
{
    match call {
        Call::Insert { candidate, .. } => new_bar_in(candidate),
        Call::Remove(_)
        | Call::Drop(_)
        | Call::Log(_)
        | Call::BarLog(_, _)
        | Call::Clear
        | Call::Redraw
        | Call::Align(_)
        | Call::Bar(_, _) => None,
    }
}
