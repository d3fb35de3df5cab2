//! What a terminal shows after a list of calls of a bar, also one that ends rows, or of a board; and that a logged line stands, whatever is drawn
//! after it.
ghost use Rattle.std.specs.Prelude.{◌++◌, ◌∷◌, map, take, flat_map, Some, None, Option, List, Result, IfOk, OnOk, IsFalse, string_bytes};
ghost use Rattle.std.specs.List.{list_any};
ghost use Rattle.indicatif_text.specs.declared.refusal.Drawn.{Drawn as Answered};
ghost use Rattle.indicatif_text.specs.declared.refusal.Refusal.{Refusal as Refused};
ghost use Rattle.indicatif_text.specs.Columns.{rows_of};
ghost use Rattle.indicatif_term.specs.Screen.{Screen};
ghost use Rattle.indicatif_term.specs.Calls.{TermView};
ghost use Rattle.indicatif_term.specs.Cells.{view_of};
ghost use Rattle.indicatif_term.specs.Engines.{is_failure};
ghost use Rattle.indicatif_term.specs.Lines.{text_lines, logged_lines};
ghost use Rattle.indicatif_term.specs.Lists.{all_rows};
ghost use Rattle.indicatif_bar.specs.Commands.{BarRecord};
ghost use Rattle.indicatif_bar.specs.Runs.{Runs, AllPlain};
ghost use Rattle.indicatif_bar.specs.Lone.{LoneState, Log, opening_state};
ghost use Rattle.indicatif_bar.specs.LoneBars.{lone_bar, lone_timed};
ghost use Rattle.indicatif_board.specs.Boards.{Answer as BoardAnswer, BoardState, board, drawn_of, opening_board};
ghost use Rattle.indicatif_board.specs.BoardBars.{board_bars};
ghost use Rattle.indicatif_board.specs.Calls.{answer_of, timed};
ghost use Rattle.uses.specs.Readings.{AreTextsOf, BeginAs, StartsAt};

use indicatif_bar::laws::what_a_lone_run_reads;
use indicatif_bar::lone::{LoneBar, LoneCall};
use indicatif_bar::state::BarState;
use indicatif_bar::style::ProgressTracker;
use indicatif_board::laws::what_a_board_run_reads;
use indicatif_board::multi::{Answer, Board, Call};
use indicatif_term::cells::InMemoryTerm;
use indicatif_term::laws::{an_opening_shows_nothing, what_own_rows_tell};
use indicatif_term::target::{OwnRows, ProgressDrawTarget};
use indicatif_text::columns::{Drawn, Moment, Refusal};
use std::alloc::Global;

/// The terminal's failure, if it is among the answers.
pub fn unbroken(answers: &[Result<Drawn, Refusal>]) -> Result<(), Refusal>
    ensures { OnOk result (IsFalse (list_any is_failure answers.now)) }
{
    for answer in answers {
        if let Err(Refusal::Terminal(kind)) = answer {
            return Err(Refusal::Terminal(*kind));
        }
    }
    Ok(())
}

/// The texts of the rows that stand after these calls of a bar, which begins on this terminal.
///
/// Refused: `Memory`; or the terminal's failure, if it broke a call off.
pub fn picture_after<K: ProgressTracker>(
    term: InMemoryTerm,
    bar: BarState<K>,
    calls: Vec<(LoneCall<K>, Moment)>,
) -> Result<Vec<String>, Refusal>
    ensures { (opening : Screen) → StartsAt term.terminal opening →
        IfOk result (λ texts. let start = opening_state bar None in
        (answers : List (Result Answered Refused)) × (after : Option TermView) × (next : LoneState (BarRecord K))
        × (run : Runs (lone_bar K.means) (map lone_timed calls.items) answers (Some (view_of term)) start after next)
        × (AllPlain (lone_bar K.means) (map lone_timed calls.items) answers (Some (view_of term)) start after next run →
        AreTextsOf (map (λ text. string_bytes text) texts.items)
        (take opening.row opening.rows ++ all_rows opening.columns next.lists))) }
{
    let mut bar = LoneBar::new(bar, ProgressDrawTarget::term_like(term));
    let answers = bar.run(calls)?;
    unbroken(&answers)?;
    an_opening_shows_nothing();
    what_a_lone_run_reads::<K>();
    let left = bar.into_term().ok_or(Refusal::Memory)?;
    Ok(left.picture()?)
}

/// The texts of the rows that stand after these calls of a bar, which begins on an `OwnRows` whose rows this terminal ends: those of the
/// same bar on the terminal itself.
///
/// Refused: `Memory`; or the terminal's failure, if it broke a call off.
pub fn picture_on_own_rows<K: ProgressTracker>(
    term: InMemoryTerm,
    bar: BarState<K>,
    calls: Vec<(LoneCall<K>, Moment)>,
) -> Result<Vec<String>, Refusal>
    ensures { (opening : Screen) → StartsAt term.terminal opening →
        IfOk result (λ texts. let start = opening_state bar None in
        (answers : List (Result Answered Refused)) × (after : Option TermView) × (next : LoneState (BarRecord K))
        × (run : Runs (lone_bar K.means) (map lone_timed calls.items) answers (Some (view_of term)) start after next)
        × (AllPlain (lone_bar K.means) (map lone_timed calls.items) answers (Some (view_of term)) start after next run →
        AreTextsOf (map (λ text. string_bytes text) texts.items)
        (take opening.row opening.rows ++ all_rows opening.columns next.lists))) }
{
    let own = OwnRows::left_to_terminal(term);
    let mut bar = LoneBar::new(bar, ProgressDrawTarget::term_like(own));
    let answers = bar.run(calls)?;
    unbroken(&answers)?;
    an_opening_shows_nothing();
    what_a_lone_run_reads::<K>();
    what_own_rows_tell::<InMemoryTerm>();
    let left = bar.into_term().ok_or(Refusal::Memory)?;
    Ok(left.term().picture()?)
}

/// The texts of the rows that stand after a line was logged above a bar and any calls were made after it: below the rows that were not the
/// bar's the line's own rows come first, since nothing that is drawn later overwrites them.
///
/// Refused: as the log, or `Memory`; or the terminal's failure, if it broke a call off.
pub fn log_stands<K: ProgressTracker>(
    term: InMemoryTerm,
    bar: BarState<K>,
    line: &str,
    calls: Vec<(LoneCall<K>, Moment)>,
) -> Result<Vec<String>, Refusal>
    ensures { (opening : Screen) → StartsAt term.terminal opening →
        IfOk result (λ texts. let start = opening_state bar None in let made = (Log line.now, 0) ∷ map lone_timed calls.items in
        (answers : List (Result Answered Refused)) × (after : Option TermView) × (next : LoneState (BarRecord K))
        × (run : Runs (lone_bar K.means) made answers (Some (view_of term)) start after next)
        × (AllPlain (lone_bar K.means) made answers (Some (view_of term)) start after next run →
        BeginAs (map (λ text. string_bytes text) texts.items)
        (take opening.row opening.rows ++ flat_map (rows_of opening.columns) (text_lines (logged_lines line.now))))) }
{
    let mut bar = LoneBar::new(bar, ProgressDrawTarget::term_like(term));
    bar.println(line, 0)?;
    let answers = bar.run(calls)?;
    unbroken(&answers)?;
    an_opening_shows_nothing();
    what_a_lone_run_reads::<K>();
    let left = bar.into_term().ok_or(Refusal::Memory)?;
    Ok(left.picture()?)
}

// ---- of a board

/// The terminal's failure, if it is among a board's answers.
pub fn none_failed(answers: &[Answer]) -> Result<(), Refusal>
    ensures { OnOk result (IsFalse (list_any (λ answer. is_failure (drawn_of (answer_of answer))) answers.now)) }
{
    for answer in answers {
        if let Answer::Refused(Refusal::Terminal(kind)) = answer {
            return Err(Refusal::Terminal(*kind));
        }
    }
    Ok(())
}

/// The texts of the rows that stand after these calls of a board, which begins on this terminal.
///
/// Refused: `Memory`; or the terminal's failure, if it broke a call off.
pub fn board_picture_after<K: ProgressTracker>(
    alloc: Global,
    term: InMemoryTerm,
    calls: Vec<(Call<K>, Moment)>,
) -> Result<Vec<String>, Refusal>
    ensures { (opening : Screen) → StartsAt term.terminal opening →
        IfOk result (λ texts. let machine = board (board_bars K.means) 0 in let start = opening_board None in
        (answers : List BoardAnswer) × (after : Option TermView) × (next : BoardState (BarRecord K))
        × (run : Runs machine (map timed calls.items) answers (Some (view_of term)) start after next)
        × (AllPlain machine (map timed calls.items) answers (Some (view_of term)) start after next run →
        AreTextsOf (map (λ text. string_bytes text) texts.items)
        (take opening.row opening.rows ++ all_rows opening.columns next.lists))) }
{
    let mut board = Board::new(alloc, ProgressDrawTarget::term_like(term), 0);
    let answers = board.run(calls)?;
    none_failed(&answers)?;
    an_opening_shows_nothing();
    what_a_board_run_reads::<K>();
    let left = board.term().ok_or(Refusal::Memory)?;
    Ok(left.picture()?)
}
