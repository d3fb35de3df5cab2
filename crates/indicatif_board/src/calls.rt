//! A board's calls and answers, as values.
ghost use Rattle.std.specs.Prelude.{◌≡◌};
ghost use Rattle.indicatif_bar.specs.Runs.{is_undisturbed};
ghost use Rattle.indicatif_board.specs.Boards.{says};
ghost use Rattle.indicatif_board.specs.Calls.{given, removal, answer_of, entrant_of};
ghost use Rattle.indicatif_board.specs.Inside.Calls.{bar_in, turned_back, removed_back};

use crate::bar_id::BarId;
use indicatif_bar::state::{BarCommand, BarState};
use indicatif_bar::style::Tracks;
use indicatif_term::target::MultiProgressAlignment;
use indicatif_text::columns::{Drawn, Refusal};

/// What to insert.
///
/// ```
/// let id = board.add(Candidate::New(bar)).map_err(|turned| turned.refusal)?;
/// assert!(board.insert(0, Candidate::Member(id)).is_ok_and(|again| again == id)); // it stays where it is
/// ```
#[derive(Drop)]
pub enum Candidate<K> {
    /// A new bar.
    New(BarState<K>),
    /// A bar that may be there already.
    Member(BarId),
}

/// A candidate that was refused, and why.
///
/// ```
/// if let Err(turned) = board.insert_after(id, Candidate::New(bar)) {
///     let returned = turned.candidate; // the bar as it was
/// }
/// ```
#[derive(Drop)]
pub struct Turned<K> {
    /// The candidate, as it was.
    pub candidate: Candidate<K>,
    /// Why it was refused.
    pub refusal: Refusal,
}

/// Where to insert a bar in the order.
///
/// ```
/// let first = board.add(Candidate::New(bar)).map_err(|turned| turned.refusal)?;
/// board.call(Call::Insert { at: InsertLocation::Before(first), candidate: Candidate::New(other) }, now); // `other` stands above `bar`
/// ```
#[derive(Clone, Copy, Debug, Drop, PartialEq, Eq)]
pub enum InsertLocation {
    /// After all others.
    End,
    /// After this many bars from the top, or after all if there are fewer.
    Index(usize),
    /// Before this many bars at the bottom, or before all if there are fewer.
    FromBack(usize),
    /// Right before this bar.
    Before(BarId),
    /// Right after this bar.
    After(BarId),
}

/// A call of a board as a value. `Insert` is `add` and the insertions, `Drop` is `drop_bar`, `Log` is `println`, `BarLog` is
/// `bar_println`, `Align` is `set_alignment`, `Bar` is `command`; the others are the calls of their names.
///
/// ```
/// board.call(Call::Log(text), now) // as board.println(text.as_str(), now)
/// ```
#[derive(Drop)]
pub enum Call<K> {
    /// Inserts a bar.
    Insert {
        /// Where to insert it in the order.
        at: InsertLocation,
        /// What to insert.
        candidate: Candidate<K>,
    },
    /// Removes a bar from the order.
    Remove(BarId),
    /// Tells the board that a bar's owner is gone.
    Drop(BarId),
    /// Writes lines of text above the bars.
    Log(String),
    /// Writes lines of text above the bars, and lays out one bar's lines again.
    BarLog(BarId, String),
    /// Erases the bars' rows.
    Clear,
    /// Draws the bars as they were last laid out.
    Redraw,
    /// Puts bars at the top or at the bottom of the rows that a draw erases.
    Align(MultiProgressAlignment),
    /// Makes a command of a bar.
    Bar(BarId, BarCommand<K>),
}

/// The answer of a board's call.
///
/// ```
/// board.call(Call::Clear, now) // Answer::Drawn(Drawn::Yes)
/// board.call(Call::Remove(id), now) // Answer::Accepted; of another board's bar Answer::Refused(Refusal::ForeignBar)
/// ```
#[derive(Debug, Drop, PartialEq, Eq)]
pub enum Answer {
    /// The bar that was inserted, or was there already.
    Id(BarId),
    /// It was done, and has no other result.
    Accepted,
    /// Whether the call drew.
    Drawn(Drawn),
    /// It was refused.
    Refused(Refusal),
}

/// The answer of a call that draws.
pub fn draw_answer(drawn: Result<Drawn, Refusal>) -> Answer
    ensures { answer_of result ≡ says drawn }
{
    match drawn {
        Ok(drawn) => Answer::Drawn(drawn),
        Err(refusal) => Answer::Refused(refusal),
    }
}

/// Whether a draw was broken off neither for want of memory nor by the terminal.
pub fn is_undisturbed(drawn: &Result<Drawn, Refusal>) -> bool
    ensures { result ≡ is_undisturbed drawn.now }
{
    !matches!(drawn, Err(Refusal::Memory | Refusal::Terminal(_)))
}

/// The answer of an insertion, and the new bar if it was refused.
pub fn insertion_answer<K: Tracks>(taken: Result<BarId, Turned<K>>) -> (Answer, Option<BarState<K>>)
    ensures answer { answer_of result.0 ≡ given taken }
    ensures back { result.1 ≡ turned_back taken }
{
    match taken {
        Ok(id) => (Answer::Id(id), None),
        Err(turned) => (
            Answer::Refused(turned.refusal),
            new_bar_in(turned.candidate),
        ),
    }
}

/// The answer of a removal, and the removed bar.
pub fn removal_answer<K: Tracks>(
    removed: Result<Option<BarState<K>>, Refusal>,
) -> (Answer, Option<BarState<K>>)
    ensures answer { answer_of result.0 ≡ removal removed }
    ensures back { result.1 ≡ removed_back removed }
{
    match removed {
        Ok(bar) => (Answer::Accepted, bar),
        Err(refusal) => (Answer::Refused(refusal), None),
    }
}

/// The bar of a candidate that is a new bar.
pub fn new_bar_in<K: Tracks>(candidate: Candidate<K>) -> Option<BarState<K>>
    ensures { result ≡ bar_in (entrant_of candidate) }
{
    match candidate {
        Candidate::New(bar) => Some(bar),
        Candidate::Member(_) => None,
    }
}
