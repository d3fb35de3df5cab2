//! What receipts of a board's logs say, whichever threads logged.
ghost use Rattle.std.specs.Prelude.{◌≡◌, ◌<◌, ◌++◌, suc, List, Some, IsTrue, IsFalse, IfSome, All, codes, drop, map, take, string_bytes};
ghost use Rattle.indicatif_text.specs.Columns.{Cell};
ghost use Rattle.std.specs.List.{list_any};
ghost use Rattle.indicatif_term.specs.Calls.{TermView};
ghost use Rattle.indicatif_term.specs.Engines.{is_failure};
ghost use Rattle.indicatif_term.specs.Lists.{opening_lists};
ghost use Rattle.indicatif_term.specs.Cells.{view_of};
ghost use Rattle.indicatif_term.specs.Screen.{Screen};
ghost use Rattle.indicatif_bar.specs.Runs.{Starts};
ghost use Rattle.indicatif_board.specs.Boards.{drawn_of};
ghost use Rattle.indicatif_board.specs.Calls.{answer_of};
ghost use Rattle.indicatif_board.specs.HistoryLaws.{AreUnbroken};
ghost use Rattle.indicatif_board.specs.Multi.{known};
ghost use Rattle.indicatif_board.specs.PlainBoardLaws.{IsPlainCall};
ghost use Rattle.indicatif_board.specs.Receipts.{Holds, step_claimed};
ghost use Rattle.indicatif_board.specs.Recorded.{IsOneRun, IsRun, Record, calls_of};
ghost use Rattle.uses.specs.Readings.{AreTextsOf, StandAmong, StandInOrder, logged_rows};

use crate::histories::picture_kept;
use indicatif::bridge::{LevelOnce, LogBridge};
use indicatif::style::Tracks;
use indicatif::{Clock, MultiProgress, RecordReader, TermLike, UnlockedBoard};
use indicatif_bar::style::ProgressTracker;
use indicatif_board::laws::what_a_receipt_says;
use indicatif_board::multi::{Answer, Call, Entry, Receipt, Recorded};
use indicatif_term::cells::InMemoryTerm;
use indicatif_text::columns::{Drawn, Moment, Refusal};
use log::{Level, Metadata};
use std::sync::Wait;

/// Asks a history for two receipts, and whether the terminal broke none of its calls off.
#[derive(Drop)]
struct Both<'a> {
    one: &'a Receipt,
    other: &'a Receipt,
}

impl<T: TermLike + Drop, K: Tracks> RecordReader<T, K> for Both<'_> {
    ghost use Rattle.std.specs.Prelude.{◌≡◌, Some, IsTrue};
    ghost use Rattle.indicatif_board.specs.HistoryLaws.{AreUnbroken};
    ghost use Rattle.indicatif_board.specs.Receipts.{Holds};
    ghost use Rattle.indicatif_board.specs.Recorded.{Record};

    type Found = bool;

    ghost finds = { λ both history found. IsTrue found → (r : Record K T) × (history ≡ Some r) × Holds r both.one.now × Holds r both.other.now × AreUnbroken r.steps };

    fn read(self, history: Option<&Recorded<K, T>>) -> bool {
        match history {
            Some(record) => {
                if !none_failed(record.entries()) {
                    return false;
                }
                record.holds(self.one) && record.holds(self.other)
            }
            None => false,
        }
    }
}

/// Whether the terminal broke none of these calls off.
fn none_failed<K: Tracks>(entries: &[Entry<K>]) -> bool
    ensures { IsTrue result → IsFalse (list_any (λ entry. is_failure (drawn_of (answer_of entry.answer))) entries.now) }
{
    for entry in entries {
        if let Answer::Refused(Refusal::Terminal(_)) = &entry.answer {
            return false;
        }
    }
    true
}

/// Whether the history of a shared board holds two receipts, which two threads may have got, and the terminal broke none of its calls off.
/// If so, both texts were logged in one run; and where both were answered `Yes`, the rows of both stand above in it, those of the later
/// entry below those of the earlier one.
pub fn both_stand<T: TermLike + Drop, C: Clock + Drop, R: Wait + Clone + Drop, K: Tracks>(
    board: &MultiProgress<T, C, R, K>,
    one: &Receipt,
    other: &Receipt,
) -> bool
    ensures { IsTrue result → (r : Record K T) × (run : IsOneRun K.means r) × Holds r one.now × Holds r other.now
        × (one.now.answer ≡ Answer.Drawn Drawn.Yes → other.now.answer ≡ Answer.Drawn Drawn.Yes →
        StandAmong (logged_rows r.target.columns (string_bytes one.now.text)) run.2.state.lists.above
        × StandAmong (logged_rows r.target.columns (string_bytes other.now.text)) run.2.state.lists.above
        × (one.now.number < other.now.number → StandInOrder (logged_rows r.target.columns (string_bytes one.now.text))
        (logged_rows r.target.columns (string_bytes other.now.text)) run.2.state.lists.above)) }
{
    what_a_receipt_says::<K, T>();
    board.with_record(Both { one, other })
}

/// Asks a history for a receipt.
#[derive(Drop)]
struct Held<'a> {
    receipt: &'a Receipt,
}

impl<T: TermLike + Drop, K: Tracks> RecordReader<T, K> for Held<'_> {
    ghost use Rattle.std.specs.Prelude.{◌≡◌, Some, IsTrue};
    ghost use Rattle.indicatif_board.specs.Receipts.{Holds};
    ghost use Rattle.indicatif_board.specs.Recorded.{Record};

    type Found = bool;

    ghost finds = { λ held history found. IsTrue found → (r : Record K T) × (history ≡ Some r) × Holds r held.receipt.now };

    fn read(self, history: Option<&Recorded<K, T>>) -> bool {
        match history {
            Some(record) => record.holds(self.receipt),
            None => false,
        }
    }
}

/// Logs a warning through a bridge: a receipt that comes back is of the level and the text.
fn warned<T: TermLike + Drop, C: Clock + Drop, R: Wait + Clone + Drop, K: Tracks>(
    bridge: &LogBridge<T, C, R, LevelOnce, K>,
    text: &str,
) -> Option<Receipt>
    ensures { IfSome result (λ receipt. string_bytes receipt.text ≡ codes "WARN  " ++ text.now) }
{
    let record = log::Record::new(Metadata::new(Level::Warn, ""), text, (), ());
    let (_, receipt) = bridge.log_with_receipt(&record);
    receipt
}

/// Logs a warning through a bridge, and hands out its receipt if the board's history holds it. If it was answered `Yes`, and the terminal
/// broke no later call off, the rows of the level and the text stand above.
pub fn warned_above<T: TermLike + Drop, C: Clock + Drop, R: Wait + Clone + Drop, K: Tracks>(
    bridge: &LogBridge<T, C, R, LevelOnce, K>,
    board: &MultiProgress<T, C, R, K>,
    text: &str,
) -> Option<Receipt>
    ensures { IfSome result (λ receipt. (r : Record K T) × (run : IsOneRun K.means r) × Holds r receipt
        × (receipt.answer ≡ Answer.Drawn Drawn.Yes → AreUnbroken (drop (suc receipt.number) r.steps) →
        StandAmong (logged_rows r.target.columns (codes "WARN  " ++ text.now)) run.2.state.lists.above)) }
{
    what_a_receipt_says::<K, T>();
    let Some(receipt) = warned(bridge, text) else {
        return None;
    };
    if !board.with_record(Held { receipt: &receipt }) {
        return None;
    }
    Some(receipt)
}

/// The texts of the rows of a board's terminal, if its history holds a receipt. Where the terminal showed an opening when the history began,
/// the history is a run on it, no call was broken off, all texts are plain, and the receipt's text was answered `Yes`, its rows stand in the
/// picture below the untouched ones.
pub fn picture_with<K: ProgressTracker>(
    history: &Recorded<K, InMemoryTerm>,
    receipt: &Receipt,
) -> Option<Vec<String>>
    ensures { receipt.now.answer ≡ Answer.Drawn Drawn.Yes → (v : TermView) (opening : Screen) → Starts v opening opening_lists →
        (run : IsRun K.means (Some v) history.now (known view_of history.now.board)) → AreUnbroken history.now.steps → All (λ call. IsPlainCall K.means call.0) (calls_of history.now.steps) →
        IfSome result (λ texts. (rows : List (List Cell)) × AreTextsOf (map (λ text. string_bytes text) texts.items) (take opening.row opening.rows ++ rows)
        × StandAmong (logged_rows history.now.target.columns (string_bytes receipt.now.text)) rows) }
{
    what_a_receipt_says::<K, InMemoryTerm>();
    if !history.holds(receipt) {
        return None;
    }
    match picture_kept(history) {
        Ok(texts) => Some(texts),
        Err(_) => None,
    }
}

/// Logs one more text on a board whose history holds a receipt. It holds it still, also for the threads that ask later.
pub fn logged_on<K: ProgressTracker, T: TermLike + Drop>(
    history: &mut Recorded<K, T>,
    receipt: &Receipt,
    text: String,
    now: Moment,
) -> Answer
    requires held { Holds history.old receipt.now }
    ensures { Holds history.new receipt.now }
{
    what_a_receipt_says::<K, T>();
    history.apply(Call::Log(text), now).0
}

/// Whether the receipts are those of all entries of a history, in their order.
fn are_all<K: Tracks, T: TermLike + Drop>(history: &Recorded<K, T>, receipts: &[Receipt]) -> bool
    ensures { IsTrue result → map step_claimed receipts.now ≡ history.now.steps }
{
    if history.entries().len() != receipts.len() {
        return false;
    }
    for (number, receipt) in receipts.iter().enumerate() {
        if receipt.number != number || !history.holds(receipt) {
            return false;
        }
    }
    true
}

/// The history of a board that was shared, where this is its only owner, if these receipts, which the threads got, are those of all its
/// entries. Then as many calls were made as there are receipts, each logged its receipt's text, and they are one run.
pub fn exactly_these<
    T: TermLike + Drop,
    C: Clock + Drop,
    R: Wait + Clone + Drop,
    K: ProgressTracker,
>(board: MultiProgress<T, C, R, K>, receipts: &[Receipt]) -> Option<Recorded<K, T>>
    ensures { IfSome result (λ r. IsOneRun K.means r × (map step_claimed receipts.now ≡ r.steps)) }
{
    match board.into_inner() {
        Ok(UnlockedBoard::Recorded(history)) => {
            if !are_all(&history, receipts) {
                return None;
            }
            Some(history)
        }
        Ok(UnlockedBoard::Open(_)) | Err(_) => None,
    }
}
