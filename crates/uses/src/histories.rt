//! What a board's history holds of a call, and what follows for the board.
ghost use Rattle.std.specs.Prelude.{◌≡◌, ◌+◌, ◌-◌, ◌/◌, ◌%◌, ◌^◌, ◌≤◌, ◌⊎◌, ◌≢◌, ◌++◌, ℕ, List, Some, None, IfOk, All, true, length, map, take, flat_map, string_bytes};
ghost use Rattle.std.specs.List.{last_or};
ghost use Rattle.std.specs.declared.io.ErrorKind.TheVariants.{Other};
ghost use Rattle.indicatif_text.specs.Columns.{Cell, rows_of};
ghost use Rattle.indicatif_term.specs.Calls.{TermView};
ghost use Rattle.indicatif_term.specs.Lines.{text_lines, logged_lines};
ghost use Rattle.indicatif_term.specs.Limiters.{draw_limiter};
ghost use Rattle.indicatif_term.specs.Lists.{opening_lists, all_rows};
ghost use Rattle.indicatif_term.specs.Cells.{view_of};
ghost use Rattle.indicatif_term.specs.Screen.{Screen};
ghost use Rattle.indicatif_bar.specs.Bounds.{unforced_draws};
ghost use Rattle.indicatif_bar.specs.Commands.{BarRecord};
ghost use Rattle.indicatif_bar.specs.Runs.{is_undisturbed, Starts};
ghost use Rattle.indicatif_board.specs.BoardBars.{board_bars};
ghost use Rattle.indicatif_board.specs.Boards.{board, drawn_of, opening_board};
ghost use Rattle.indicatif_board.specs.HistoryLaws.{AreUnbroken};
ghost use Rattle.indicatif_board.specs.Multi.{mark_of, known, record_at};
ghost use Rattle.indicatif_board.specs.PlainBoardLaws.{IsPlainCall};
ghost use Rattle.indicatif_board.specs.Recorded.{IsOneRun, IsRun, calls_of, answers_of, untold};
ghost use Rattle.uses.specs.Readings.{AreTextsOf};

use indicatif_bar::state::BarCommand;
use indicatif_bar::style::{NoTracker, ProgressTracker};
use indicatif_board::laws::what_a_history_says;
use indicatif_board::multi::{Answer, BarId, Call, Recorded};
use indicatif_term::cells::InMemoryTerm;
use indicatif_term::target::{ProgressDrawTarget, TermLike};
use indicatif_text::columns::{Drawn, Moment, Refusal};
use std::alloc::Global;

/// How many calls the history of a new board keeps after a clear: that one.
pub fn kept_of_a_clear(alloc: Global) -> Result<usize, Refusal>
    ensures { IfOk result (λ count. count ≡ 1) }
{
    let hidden = ProgressDrawTarget::hidden();
    let mut history: Recorded<NoTracker, InMemoryTerm> = Recorded::new(alloc, hidden, 0);
    match history.apply(Call::Clear, 0).0 {
        Answer::Refused(refusal) => Err(refusal),
        _ => Ok(history.entries().len()),
    }
}

/// Clears the rows of a board with a history. The board makes the call itself, so the answer is that of a draw, and never `Accepted`.
pub fn answer_of_a_clear<K: ProgressTracker, T: TermLike + Drop>(
    history: &mut Recorded<K, T>,
    now: Moment,
) -> Answer
    ensures { result ≢ Answer.Accepted }
{
    history.replays();
    history.apply(Call::Clear, now).0
}

/// One more step of a bar on a board with a history. The board makes the call that it keeps, or memory was refused and nothing has
/// changed.
pub fn step_kept<K: ProgressTracker, T: TermLike + Drop>(
    history: &mut Recorded<K, T>,
    id: BarId,
    now: Moment,
) -> Answer
    ensures { (bar : BarRecord K) → id.mark ≡ mark_of history.old.board → record_at id.number history.old.board ≡ Some bar →
        ((history.new ≡ history.old) × (result ≡ Answer.Refused Refusal.Memory))
        ⊎ ((next : BarRecord K) × (record_at id.number history.new.board ≡ Some next) × (next.progress.position ≡ (bar.progress.position + 1) % 2 ^ 64)) }
{
    history.apply(Call::Bar(id, BarCommand::Inc(1)), now).0
}

/// Two histories of boards that began alike and made the same calls. If neither terminal failed and no memory was refused, both boards gave
/// the same answers, in whichever threads the calls were made.
pub fn same_answers<K: ProgressTracker, T: TermLike + Drop>(
    one: &Recorded<K, T>,
    other: &Recorded<K, T>,
)
    ensures { (other.now.mark ≡ one.now.mark) → (other.now.limiter ≡ one.now.limiter) → (other.now.target ≡ one.now.target) →
        calls_of other.now.steps ≡ calls_of one.now.steps →
        All (λ answer. is_undisturbed (drawn_of answer) ≡ true) (answers_of one.now.steps) → All (λ answer. is_undisturbed (drawn_of answer) ≡ true) (answers_of other.now.steps) →
        answers_of other.now.steps ≡ answers_of one.now.steps }
{
    one.replays();
    other.replays();
    what_a_history_says::<K, T>();
}

/// Logs a text on a board with a history, which threads may share. If the answer is `Yes`, its rows stand above in the run that the history
/// holds.
pub fn log_kept<K: ProgressTracker, T: TermLike + Drop>(
    history: &mut Recorded<K, T>,
    text: String,
    now: Moment,
) -> Answer
    ensures { result ≡ Answer.Drawn Drawn.Yes → (run : IsOneRun K.means history.new) × (front : List (List Cell)) × (rest : List (List Cell))
        × (run.2.state.lists.above ≡ front ++ flat_map (rows_of history.new.target.columns) (text_lines (logged_lines (string_bytes text))) ++ rest) }
{
    let answer = history.apply(Call::Log(text), now).0;
    history.replays();
    what_a_history_says::<K, T>();
    answer
}

/// A board with a history that began with twenty draws a second, whoever draws: it has made at most 20 that weren't forced, and one more
/// for each 50 milliseconds from its making to the last of them.
pub fn unforced_are_few<K: ProgressTracker, T: TermLike + Drop>(history: &Recorded<K, T>)
    ensures { (run : IsOneRun K.means history.now) × ((making last : ℕ) → history.now.limiter ≡ Some (draw_limiter 20 making) →
        let moments = unforced_draws (board (board_bars K.means) history.now.mark) (calls_of history.now.steps) (answers_of history.now.steps)
        (untold history.now.target 0 Other) (opening_board history.now.limiter) (untold history.now.target run.0 run.1) run.2.state run.2.runs in
        last_or None moments ≡ Some last → length moments ≤ 20 + (last - making) / 50000000) }
{
    history.replays();
    what_a_history_says::<K, T>();
}

/// The texts of the rows of a board's terminal. If it showed an opening when the history began, the history is a run on it, no call was
/// broken off, and all texts are plain, they are the untouched rows and those of the run's lists.
///
/// Refused: `Memory`, also if the board is hidden.
pub fn picture_kept<K: ProgressTracker>(
    history: &Recorded<K, InMemoryTerm>,
) -> Result<Vec<String>, Refusal>
    ensures { (v : TermView) (opening : Screen) → Starts v opening opening_lists →
        (run : IsRun K.means (Some v) history.now (known view_of history.now.board)) → AreUnbroken history.now.steps → All (λ call. IsPlainCall K.means call.0) (calls_of history.now.steps) →
        IfOk result (λ texts. AreTextsOf (map (λ text. string_bytes text) texts.items) (take opening.row opening.rows ++ all_rows v.columns run.state.lists)) }
{
    what_a_history_says::<K, InMemoryTerm>();
    let left = history.board().term().ok_or(Refusal::Memory)?;
    Ok(left.picture()?)
}
