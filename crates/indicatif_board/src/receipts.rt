//! Receipts: what a board with its history hands out for a text that it has logged, and looks up later.
ghost use Rattle.std.specs.Prelude.{◌≡◌, ◌↔◌, Option, Some, IsTrue, IfSome, IfNone, length, option_map, string_bytes};
ghost use Rattle.indicatif_term.specs.Calls.{TermView};
ghost use Rattle.indicatif_board.specs.Boards.{Log};
ghost use Rattle.indicatif_board.specs.Calls.{call_of, answer_of};
ghost use Rattle.indicatif_board.specs.Multi.{known};
ghost use Rattle.indicatif_board.specs.Receipts.{Holds, step_claimed};
ghost use Rattle.indicatif_board.specs.Recorded.{IsRun, AddsCall, step_of};

use crate::multi::{Answer, Call, Entry, Recorded};
use indicatif_bar::style::Tracks;
use indicatif_term::target::TermLike;
use indicatif_text::columns::{Moment, Refusal};

/// Which entry of a history has logged a text, and what was answered. It is a claim: anyone may write one, and the history says
/// whether it is so (`Recorded::holds`). What it holds once, it holds from then on. And unless the terminal broke a later call off,
/// a text that was answered `Yes` has its rows above the bars: law `what_a_receipt_says`.
///
/// ```
/// let (answer, receipt) = record.println_with_receipt(text, 5);
/// let receipt = receipt.ok_or(Refusal::Memory)?;
/// assert!(record.holds(&receipt) && receipt.number == 0 && receipt.answer == answer); // of the first call
/// ```
#[derive(Drop)]
pub struct Receipt {
    /// The board's mark.
    pub mark: u64,
    /// How many entries stand before the text's.
    pub number: usize,
    /// The text.
    pub text: String,
    /// The moment at which it was logged.
    pub moment: Moment,
    /// What was answered.
    pub answer: Answer,
}

impl<K: Tracks, T: TermLike + Drop> Recorded<K, T> {
    /// Makes the call `Log`, as `apply` does, and hands out a receipt for its entry, whatever was answered.
    ///
    /// Refused: as `apply`. There is no receipt only where `Memory` was refused to the history or the receipt: then the call isn't
    /// made, nothing has changed and nothing is kept.
    pub fn println_with_receipt(&mut self, text: String, now: Moment) -> (Answer, Option<Receipt>)
        ensures made { IfSome result.1 (λ _. AddsCall K.means T.view self.old (Log (string_bytes text)) now (answer_of result.0) self.new) }
        ensures receipt { IfSome result.1 (λ receipt. receipt ≡ record { mark = self.old.mark; number = length self.old.steps; text = text; moment = now; answer = result.0 }) }
        ensures held { IfSome result.1 (Holds self.new) }
        ensures refused { IfNone result.1 ((self.new ≡ self.old) × (result.0 ≡ Answer.Refused Refusal.Memory)) }
        ensures goes_on { (opened : Option TermView) → IsRun K.means opened self.old (known T.view self.old.board) → IsRun K.means opened self.new (known T.view self.new.board) }
    {
        let Ok(logged) = text.clone() else {
            return (Answer::Refused(Refusal::Memory), None);
        };
        let mark = self.opening().mark;
        let number = self.entries().len();
        let (answer, _) = self.apply(Call::Log(logged), now);
        if self.entries().len() == number {
            return (answer, None);
        }
        let receipt = Receipt {
            mark,
            number,
            text,
            moment: now,
            answer: answer.same(),
        };
        (answer, Some(receipt))
    }

    /// Whether this is a history of the receipt's mark, and the receipt's entry stands in it: its text was logged by just that call,
    /// at that moment, with that answer.
    pub fn holds(&self, receipt: &Receipt) -> bool
        ensures { IsTrue result ↔ Holds self.now receipt.now }
    {
        let entry = self.entries().get(receipt.number);
        self.opening().mark == receipt.mark && is_claimed(entry, receipt)
    }
}

/// Whether there is an entry, and it is the one that the receipt claims.
fn is_claimed<K: Tracks>(entry: Option<&Entry<K>>, receipt: &Receipt) -> bool
    ensures { IsTrue result ↔ (option_map (λ e. step_of e.now) entry.entry ≡ Some (step_claimed receipt.now)) }
{
    match entry {
        Some(entry) => {
            logs(&entry.call, receipt.text.as_str())
                && entry.now == receipt.moment
                && entry.answer == receipt.answer
        }
        None => false,
    }
}

/// Whether a call logs this text above all bars.
fn logs<K: Tracks>(call: &Call<K>, text: &str) -> bool
    ensures { IsTrue result ↔ (call_of call.now ≡ Log text.now) }
{
    match call {
        Call::Log(logged) => logged.as_str() == text,
        Call::Insert { .. }
        | Call::Remove(_)
        | Call::Drop(_)
        | Call::BarLog(_, _)
        | Call::Clear
        | Call::Redraw
        | Call::Align(_)
        | Call::Bar(_, _) => false,
    }
}
