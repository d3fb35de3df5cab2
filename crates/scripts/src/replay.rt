//! A history of a board: whether a new board that makes its calls gives the same answers, and then shows the same rows.
use indicatif_bar::style::Tracks;
use indicatif_board::multi::{Board, Recorded};
use indicatif_term::cells::InMemoryTerm;
use indicatif_term::target::ProgressDrawTarget;
use indicatif_text::columns::Refusal;
use std::alloc::Global;

/// The rows of a terminal, those that scrolled away first; none without a terminal.
pub fn rows_of(term: Option<&InMemoryTerm>) -> Result<Option<Vec<String>>, Refusal> {
    match term {
        Some(term) => Ok(Some(term.picture()?)),
        None => Ok(None),
    }
}

/// Whether a new board on this target gives the same answers to the calls of a history, and shows the same.
pub fn is_one_run<K: Tracks>(
    alloc: Global,
    recorded: &Recorded<K, InMemoryTerm>,
    target: ProgressDrawTarget<InMemoryTerm>,
) -> Result<bool, Refusal> {
    let board = Board::new(alloc, target, recorded.opening().mark);
    let mut fresh = Box::new(alloc, board)?;
    replays(&mut fresh, alloc, recorded)
}

fn replays<K: Tracks>(
    fresh: &mut Board<K, InMemoryTerm>,
    alloc: Global,
    recorded: &Recorded<K, InMemoryTerm>,
) -> Result<bool, Refusal> {
    for entry in recorded.entries() {
        let call = entry.call.try_clone(alloc)?;
        if fresh.call(call, entry.now) != entry.answer {
            return Ok(false);
        }
    }
    Ok(rows_of(fresh.term())? == rows_of(recorded.board().term())?)
}
