//! Exact answers of a bar or a board that you are lent, whatever was done with it before.
ghost use Rattle.std.specs.Prelude.{◌≡◌, ◌≢◌, ◌↔◌, ◌⊎◌, Some, Ok, Err, IsTrue, IsFalse};
ghost use Rattle.indicatif_term.specs.Calls.{TermView};
ghost use Rattle.indicatif_term.specs.Engines.{Paints, is_failure};
ghost use Rattle.indicatif_term.specs.Lines.{logged_lines, some_wide, text_lines};
ghost use Rattle.indicatif_bar.specs.Commands.{BarRecord, command_of};
ghost use Rattle.indicatif_bar.specs.Lone.{LoneState, Obey};
ghost use Rattle.indicatif_bar.specs.LoneBars.{LoneIsIn, lone_bar, lone_known, lone_terminal, record_of};
ghost use Rattle.indicatif_bar.specs.Progress.{is_hidden};
ghost use Rattle.indicatif_bar.specs.Says.{Says};
ghost use Rattle.indicatif_board.specs.BoardBars.{board_bars};
ghost use Rattle.indicatif_board.specs.Boards.{BoardState, Tell, says, board as board_of};
ghost use Rattle.indicatif_board.specs.BarIds.{id_of};
ghost use Rattle.indicatif_board.specs.Members.{followers, order_of};
ghost use Rattle.indicatif_board.specs.Multi.{IsIn, known, mark_of, slots_of, terminal_of};

use indicatif_bar::laws::{a_lone_bar_is_limited, what_a_lone_bar_answers};
use indicatif_bar::lone::{LoneBar, LoneCall};
use indicatif_bar::state::BarCommand;
use indicatif_bar::style::ProgressTracker;
use indicatif_board::laws::what_a_board_answers;
use indicatif_board::multi::{BarId, Board};
use indicatif_term::target::{ProgressDrawTarget, TermLike};
use indicatif_text::columns::{Drawn, Moment, Refusal};

/// A command of a bar. Each answer comes exactly as the definition of a call says, in a state that the bar was in.
pub fn tell<K: ProgressTracker, T: TermLike + Drop>(
    bar: &mut LoneBar<K, T>,
    command: BarCommand<K>,
    now: Moment,
) -> Result<Drawn, Refusal>
    ensures { (s : LoneState (BarRecord K)) × LoneIsIn bar.old s
        × Says (lone_bar K.means) (lone_known T.view bar.old) (lone_known T.view bar.new) (Obey (command_of command), now) s result }
{
    let _in_some_state = bar.bar();
    what_a_lone_bar_answers::<K>();
    bar.call(LoneCall::Bar(command), now)
}

/// Clears a bar's rows. If the terminal has columns that is done, or the terminal fails, exactly if its faults grew. It takes no memory.
pub fn take_back<K: ProgressTracker, T: TermLike + Drop>(
    bar: &mut LoneBar<K, T>,
    now: Moment,
) -> Result<Drawn, Refusal>
    ensures done { (term : T) → lone_terminal bar.old ≡ Some term → (T.view term).columns ≢ 0 → (result ≡ Ok Drawn.Yes) ⊎ IsTrue (is_failure result) }
    ensures failed { (term next : T) → lone_terminal bar.old ≡ Some term → lone_terminal bar.new ≡ Some next →
        (IsTrue (is_failure result) ↔ ((T.view next).faults ≢ (T.view term).faults)) }
    ensures memory { result ≢ Err Refusal.Memory }
{
    let _in_some_state = bar.bar();
    what_a_lone_bar_answers::<K>();
    bar.clear(now)
}

/// Logs a text above a bar. A character that is wider than the terminal is refused, unless memory is refused first: that happens only if
/// the bar has lines to lay out, which it hasn't once it was finished and cleared.
pub fn log<K: ProgressTracker, T: TermLike + Drop>(
    bar: &mut LoneBar<K, T>,
    text: &str,
    now: Moment,
) -> Result<Drawn, Refusal>
    ensures too_wide { (term : T) → lone_terminal bar.old ≡ Some term → (T.view term).columns ≢ 0 →
        IsTrue (some_wide (T.view term).columns (text_lines (logged_lines text.now))) → result ≢ Err Refusal.Memory → result ≡ Err Refusal.TooWide }
    ensures memory { result ≡ Err Refusal.Memory → IsFalse (is_hidden (record_of bar.old).progress) }
{
    let _in_some_state = bar.bar();
    what_a_lone_bar_answers::<K>();
    bar.println(text, now)
}

/// A steady ticker's tick of a bar that moves to another terminal, without a limiter: it is never left out.
pub fn tick_on<K: ProgressTracker, T: TermLike + Drop>(
    bar: &mut LoneBar<K, T>,
    term: T,
    now: Moment,
) -> Result<Drawn, Refusal>
    ensures { result ≢ Ok Drawn.Limited }
{
    let _in_some_state = bar.bar();
    let _left = bar.set_draw_target(ProgressDrawTarget::term_like(term));
    what_a_lone_bar_answers::<K>();
    a_lone_bar_is_limited::<K>();
    bar.ticker_tick(now)
}

/// A steady ticker's tick of a bar on a board that moves to another terminal, without a limiter: it is never left out, although no draw is
/// forced.
pub fn tick_on_board<K: ProgressTracker, T: TermLike + Drop>(
    board: &mut Board<K, T>,
    id: BarId,
    term: T,
    now: Moment,
) -> Result<Drawn, Refusal>
    ensures { result ≢ Ok Drawn.Limited }
{
    let _in_some_state = board.order();
    let _left = board.set_draw_target(ProgressDrawTarget::term_like(term));
    what_a_board_answers::<K>();
    board.command(id, BarCommand::TickerTick, now)
}

/// A command of a bar on a board. Each answer comes exactly as the definition of a call says, in a state that the board was in.
pub fn tell_on<K: ProgressTracker, T: TermLike + Drop>(
    board: &mut Board<K, T>,
    id: BarId,
    command: BarCommand<K>,
    now: Moment,
) -> Result<Drawn, Refusal>
    ensures { (s : BoardState (BarRecord K)) × IsIn (mark_of board.old) board.old s
        × Says (board_of (board_bars K.means) (mark_of board.old)) (known T.view board.old) (known T.view board.new) (Tell (id_of id) (command_of command), now) s (says result) }
{
    let _in_some_state = board.order();
    what_a_board_answers::<K>();
    board.command(id, command, now)
}

/// Clears the bars' rows. If the terminal has columns that is done, or the terminal fails, exactly if its faults grew. It takes no memory.
/// If it was done, the dropped bars at the head leave the order; otherwise none does. Whatever was done with the board before, the call
/// paints its rows: it writes no lines, so no text has to be plain.
pub fn take_bars_back<K: ProgressTracker, T: TermLike + Drop>(
    board: &mut Board<K, T>,
    now: Moment,
) -> Result<Drawn, Refusal>
    ensures done { (term : T) → terminal_of board.old ≡ Some term → (T.view term).columns ≢ 0 → (result ≡ Ok Drawn.Yes) ⊎ IsTrue (is_failure result) }
    ensures failed { (term next : T) → terminal_of board.old ≡ Some term → terminal_of board.new ≡ Some next →
        (IsTrue (is_failure result) ↔ ((T.view next).faults ≢ (T.view term).faults)) }
    ensures memory { result ≢ Err Refusal.Memory }
    ensures leave { result ≡ Ok Drawn.Yes → (s : BoardState (BarRecord K)) × IsIn (mark_of board.old) board.old s
        × ((slots_of board.new).order ≡ order_of (followers s.members)) }
    ensures stay { result ≢ Ok Drawn.Yes → (slots_of board.new).order ≡ (slots_of board.old).order }
    ensures paints { (v : TermView) → known T.view board.old ≡ Some v →
        (s : BoardState (BarRecord K)) × (next : BoardState (BarRecord K)) × IsIn (mark_of board.old) board.old s × IsIn (mark_of board.old) board.new next
        × (v' : TermView) × (known T.view board.new ≡ Some v') × Paints v v' (is_failure result) s.lists next.lists }
{
    let _before = board.order();
    what_a_board_answers::<K>();
    let drawn = board.clear(now);
    let _after = board.order();
    drawn
}
