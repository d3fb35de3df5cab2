//! Log lines above the bars of a board.
ghost use Rattle.std.specs.Prelude.{◌≡◌, ◌⊎◌, ◌++◌, ◌+◌, ◌<◌, ◌≤◌, ◌∷◌, [], Option, IfErr, IfSome, IfNone, OnOk, OnErr, Err, IsFalse, length, string_bytes, string_len, string_capacity};
ghost use Rattle.indicatif_term.specs.Calls.{TermView};
ghost use Rattle.indicatif_bar.specs.Runs.{wrote};
ghost use Rattle.indicatif_board.specs.Boards.{Log, says};
ghost use Rattle.indicatif_board.specs.Bridge.{bridge_bytes, level_column};
ghost use Rattle.indicatif_board.specs.Calls.{answer_of};
ghost use Rattle.indicatif_board.specs.Multi.{LeadsBy, RecordsStay, IsNowhere, known, mark_of, terminal_of};
ghost use Rattle.indicatif_board.specs.Receipts.{Holds};
ghost use Rattle.indicatif_board.specs.Recorded.{AddsCall, IsRun};

use crate::multi::{Answer, Board, Receipt, Recorded};
use indicatif_bar::style::Tracks;
use indicatif_term::target::TermLike;
use indicatif_text::columns::{Drawn, Moment, Refusal};
use log::Level;
use std::alloc::Global;

/// Appends a record's line: its level in capitals, filled with spaces to five columns, a space, and the text.
///
/// Refused: `Memory`, only if `out` has no room for all of it; then `out` is unchanged.
///
/// ```
/// bridge_line(Level::Warn, "low disk", &mut out)?;
/// assert_eq!(out.as_str(), "WARN  low disk");
/// ```
pub fn bridge_line(level: Level, text: &str, out: &mut String) -> Result<(), Refusal>
    ensures line { OnOk result (string_bytes out.new ≡ string_bytes out.old ++ bridge_bytes level text.now) }
    ensures memory { IfErr result (λ e. e ≡ Refusal.Memory) }
    ensures unchanged { OnErr result (string_bytes out.new ≡ string_bytes out.old) }
    ensures full { OnErr result (string_capacity out.old
        < string_len out.old + length (bridge_bytes level text.now)) }
{
    let front = front_of(level);
    out.reserve(text.len().saturating_add(front.len()))?;
    append(out, front);
    append(out, text);
    Ok(())
}

/// Writes a log line above the bars of a board, whatever the rate says: its level and its text. In a text of several lines only the first
/// one has the level. On a hidden target the line is dropped.
///
/// Refused: `Memory` for the line, and then nothing has changed; otherwise as `Board::println`.
///
/// ```
/// let drawn = emit(alloc, &mut board, Level::Error, "no such file", now)?; // `ERROR no such file` stands above the bars
/// ```
pub fn emit<K: Tracks, T: TermLike + Drop>(
    alloc: Global,
    board: &mut Board<K, T>,
    level: Level,
    text: &str,
    now: Moment,
) -> Result<Drawn, Refusal>
    ensures silent { IsFalse (wrote result) → terminal_of board.new ≡ terminal_of board.old }
    ensures nowhere { IsNowhere T.view board.old → IsFalse (wrote result) }
    ensures mark { mark_of board.new ≡ mark_of board.old }
    ensures logged { LeadsBy K.means T.view board.old board.new (Log (bridge_bytes level text.now)) now (says result)
        ⊎ ((result ≡ Err Refusal.Memory) × (board.new ≡ board.old)) }
    ensures records { RecordsStay board.old board.new }
{
    let mut line = String::new(alloc);
    bridge_line(level, text, &mut line)?;
    board.println(line.as_str(), now)
}

/// Writes a log line above the bars of a board that keeps its history, as `emit`, and hands out a receipt for its entry, whatever was
/// answered.
///
/// Refused: as `Recorded::println_with_receipt`; `Memory` also for the line. There is no receipt only after `Memory`; then nothing has
/// changed.
///
/// ```
/// let (answer, receipt) = emit_with_receipt(alloc, &mut history, Level::Warn, "low disk", now);
/// let receipt = receipt.ok_or(Refusal::Memory)?; // of the text `WARN  low disk`
/// ```
pub fn emit_with_receipt<K: Tracks, T: TermLike + Drop>(
    alloc: Global,
    history: &mut Recorded<K, T>,
    level: Level,
    text: &str,
    now: Moment,
) -> (Answer, Option<Receipt>)
    ensures made { IfSome result.1 (λ _. AddsCall K.means T.view history.old (Log (bridge_bytes level text.now)) now (answer_of result.0) history.new) }
    ensures receipt { IfSome result.1 (λ receipt. (string_bytes receipt.text ≡ bridge_bytes level text.now)
        × (receipt ≡ record { mark = history.old.mark; number = length history.old.steps; text = receipt.text; moment = now; answer = result.0 })) }
    ensures held { IfSome result.1 (Holds history.new) }
    ensures refused { IfNone result.1 ((history.new ≡ history.old) × (result.0 ≡ Answer.Refused Refusal.Memory)) }
    ensures goes_on { (opened : Option TermView) → IsRun K.means opened history.old (known T.view history.old.board) → IsRun K.means opened history.new (known T.view history.new.board) }
{
    let mut line = String::new(alloc);
    if bridge_line(level, text, &mut line).is_err() {
        return (Answer::Refused(Refusal::Memory), None);
    }
    history.println_with_receipt(line, now)
}

/// A level as the start of a log line.
fn front_of(level: Level) -> &'static str
    ensures { result.now ≡ level_column level ++ 0x20 ∷ [] }
{
    match level {
        Level::Error => "ERROR ",
        Level::Warn => "WARN  ",
        Level::Info => "INFO  ",
        Level::Debug => "DEBUG ",
        Level::Trace => "TRACE ",
    }
}

/// Appends a text to a log line, in memory that was taken before.
fn append(out: &mut String, text: &str)
    requires { string_len out.old + length text.now ≤ string_capacity out.old }
    ensures bytes { string_bytes out.new ≡ string_bytes out.old ++ text.now }
    ensures len { string_len out.new ≡ string_len out.old + length text.now }
    ensures capacity { string_capacity out.old ≤ string_capacity out.new }
{
    out.push_str(text).unwrap();
}
