//! What is proved about a bar or a board that you are lent, without knowing how it was used before.
ghost use Rattle.std.specs.Prelude.{◌≡◌, ◌⊎◌, ◌+◌, ◌%◌, ◌^◌, ℕ, Some, None, Ok, Err, IfOk, IsFalse, string_bytes, vec_len, if◌then◌else◌};
ghost use Rattle.std.specs.List.{list_any};
ghost use Rattle.indicatif_bar.specs.Commands.{BarRecord};
ghost use Rattle.indicatif_bar.specs.LoneBars.{record_of, lone_terminal};
ghost use Rattle.indicatif_board.specs.Calls.{acts_on, call_of};
ghost use Rattle.indicatif_board.specs.Multi.{mark_of, record_at, terminal_of, OtherRecordsStay};
ghost use Rattle.indicatif_term.specs.Engines.{is_failure};

use indicatif_bar::laws::what_a_lone_bar_answers;
use indicatif_bar::lone::{LoneBar, LoneCall};
use indicatif_bar::state::BarCommand;
use indicatif_bar::style::ProgressTracker;
use indicatif_board::multi::{BarId, Board, Call};
use indicatif_term::target::TermLike;
use indicatif_text::columns::{Drawn, Moment, Refusal};
use std::io::ErrorKind;

/// Another message, or memory was refused and nothing has changed.
pub fn say<K: ProgressTracker, T: TermLike + Drop>(
    bar: &mut LoneBar<K, T>,
    text: &str,
    now: Moment,
) -> Result<Drawn, Refusal>
    ensures { ((record_of bar.new).progress.message ≡ text.now) ⊎ (bar.new ≡ bar.old) }
{
    bar.set_message(text, now)
}

/// Forces a draw of a bar that you are lent. Whatever was done with it before: if it can't draw the answer says why, and the terminal's
/// faults grow exactly by its failure, which has the kind of the call that failed.
pub fn draw_lent<K: ProgressTracker, T: TermLike + Drop>(
    bar: &mut LoneBar<K, T>,
    now: Moment,
) -> Result<Drawn, Refusal>
    ensures hidden { lone_terminal bar.old ≡ None → result ≡ Ok Drawn.Hidden }
    ensures no_columns { (term : T) → lone_terminal bar.old ≡ Some term → (T.view term).columns ≡ 0 → result ≡ Err Refusal.NoColumns }
    ensures failed { (term : T) → lone_terminal bar.old ≡ Some term → (next : T) × (lone_terminal bar.new ≡ Some next)
        × ((T.view next).faults ≡ (if is_failure result then ((T.view term).faults + 1) % 2 ^ 64 else (T.view term).faults)) }
    ensures kind { (kind : ErrorKind) (next : T) → result ≡ Err (Refusal.Terminal kind) → lone_terminal bar.new ≡ Some next → (T.view next).kind ≡ kind }
{
    what_a_lone_bar_answers::<K>();
    let _in_some_state = bar.bar();
    bar.force_draw(now)
}

/// Draws the bars of a board that you are lent. Whatever was done with it before, if it can't draw the answer says why.
pub fn redraw_lent<K: ProgressTracker, T: TermLike + Drop>(
    board: &mut Board<K, T>,
    now: Moment,
) -> Result<Drawn, Refusal>
    ensures hidden { terminal_of board.old ≡ None → result ≡ Ok Drawn.Hidden }
    ensures no_columns { (term : T) → terminal_of board.old ≡ Some term → (T.view term).columns ≡ 0 → result ≡ Err Refusal.NoColumns }
{
    let _in_some_state = board.order();
    board.redraw(now)
}

/// Whether something of a text may have been written above the bar; if not, the terminal is unchanged.
pub fn may_have_logged<K: ProgressTracker, T: TermLike + Drop>(
    bar: &mut LoneBar<K, T>,
    text: &str,
    now: Moment,
) -> bool
    ensures record { record_of bar.new ≡ record_of bar.old }
    ensures untouched { IsFalse result → lone_terminal bar.new ≡ lone_terminal bar.old }
{
    match bar.println(text, now) {
        Ok(Drawn::Yes) | Err(Refusal::Terminal(_)) => true,
        _ => false,
    }
}

/// Makes calls of a bar that you are lent, and returns their number; a hidden target stays hidden.
pub fn play<K: ProgressTracker, T: TermLike + Drop>(
    bar: &mut LoneBar<K, T>,
    calls: Vec<(LoneCall<K>, Moment)>,
) -> Result<usize, Refusal>
    ensures count { IfOk result (λ n. n ≡ vec_len calls) }
    ensures hidden { lone_terminal bar.old ≡ None → lone_terminal bar.new ≡ None }
{
    let answers = bar.run(calls)?;
    Ok(answers.len())
}

/// Another message of such a bar, or memory was refused and its record is unchanged; the other bars are unchanged.
pub fn say_on<K: ProgressTracker, T: TermLike + Drop>(
    board: &mut Board<K, T>,
    id: BarId,
    text: String,
    now: Moment,
) -> Result<Drawn, Refusal>
    ensures message { (bar : BarRecord K) → id.mark ≡ mark_of board.old → record_at id.number board.old ≡ Some bar →
        (next : BarRecord K) × (record_at id.number board.new ≡ Some next) × ((next.progress.message ≡ string_bytes text) ⊎ (next ≡ bar)) }
    ensures others { OtherRecordsStay id.number board.old board.new }
{
    board.command(id, BarCommand::SetMessage(text), now)
}

/// Makes calls of a board that you are lent, and returns their number. A bar that none of them removes, drops or commands keeps its record,
/// even if memory was refused.
pub fn play_on<K: ProgressTracker, T: TermLike + Drop>(
    board: &mut Board<K, T>,
    calls: Vec<(Call<K>, Moment)>,
) -> Result<usize, Refusal>
    ensures count { IfOk result (λ n. n ≡ vec_len calls) }
    ensures kept { (number : ℕ) (bar : BarRecord K) → IsFalse (list_any (λ call. acts_on (mark_of board.old) number (call_of call.0)) calls.items) →
        record_at number board.old ≡ Some bar → record_at number board.new ≡ Some bar }
{
    let answers = board.run(calls)?;
    Ok(answers.len())
}
