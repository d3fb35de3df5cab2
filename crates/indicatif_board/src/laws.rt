//! Laws of the definitions: functions that do nothing, each with a law as its contract.
ghost use Rattle.std.specs.Prelude.{◌≡◌, ◌≢◌, ◌≤◌, ◌↔◌, ℕ, List, Option, Some, None, IsFalse};
ghost use Rattle.indicatif_term.specs.Calls.{TermView};
ghost use Rattle.indicatif_bar.specs.Commands.{BarRecord, Command};
ghost use Rattle.indicatif_bar.specs.Machines.{Target};
ghost use Rattle.indicatif_bar.specs.Runs.{RunsPaint, RowsAboveLast, RunsAreRead, RunsReadFromBytes, ReadsAfter, OneOutcome};
ghost use Rattle.indicatif_bar.specs.Says.{EachSays};
ghost use Rattle.indicatif_bar.specs.Bounds.{IsLimited, RunsAreBounded, RunsAreBoundedFrom, RunsSpend};
ghost use Rattle.indicatif_term.specs.Limiters.{Limiter};
ghost use Rattle.indicatif_board.specs.Boards.{BoardKind, BoardState, Call, Answer, opening_board, board};
ghost use Rattle.indicatif_bar.specs.Scripts.{UnbrokenScriptsAreRead, ScriptsAreBounded, ScriptsAreBoundedFrom, ScriptsSpend};
ghost use Rattle.indicatif_board.specs.BoardBars.{board_bars};
ghost use Rattle.indicatif_board.specs.Multi.{board_sizing};
ghost use Rattle.indicatif_board.specs.Done.{account_of_both, own_half, given_half};
ghost use Rattle.indicatif_board.specs.declared.done.Account.{Account};
ghost use Rattle.indicatif_board.specs.HistoryLaws.{AboveOnlyGrows, FollowsFromItsCalls, HasBoundedDraws, LoggedRowsStand, IsReadAsItsRun};
ghost use Rattle.indicatif_board.specs.LimitLaws.{IsAllowed};
ghost use Rattle.indicatif_board.specs.Receipts.{HeldStays, HeldRowsStand, HeldRowsStandInOrder};
ghost use Rattle.indicatif_board.specs.LoneLaws.{OneIsTakenIn, LoneRunsAreBoardRuns};
ghost use Rattle.indicatif_board.specs.PlainBoardLaws.{BoardRunsArePlain};
ghost use Rattle.indicatif_board.specs.OrderLaws.{RunsPreserve, StandsOnce, HasLeft, NumbersCount, NumbersAreNew};
ghost use Rattle.indicatif_board.specs.Slots.{SlotTable, IsSeated, slot_of, seated, unseated, head_unseated, occurrences};

use indicatif_bar::style::Tracks;

/// Joining two halves gives back what was split: its share, what it added and what it saw.
pub fn halves_join_again()
    ensures { (a : Account) → a.added ≤ a.seen → account_of_both (own_half a) (given_half a) ≡ a }
{}

/// What a run of a board leaves, whatever its bars and calls are, and whichever calls the terminal breaks off, if each line of a draw that
/// was written consists of characters with a width and colour sequences. After each byte the untouched rows and the rows above are
/// unchanged. If the terminal broke no call off, the bytes lead from a terminal at rest with the lists of the start to one at rest with the
/// lists of the end. Its rows are the untouched ones, the rows above, the kept rows and the live frame, and all else is blank; rows above
/// are only added.
pub fn what_a_run_leaves<B, C>()
    ensures { (kind : BoardKind B C) (mark : ℕ) → RunsPaint (board kind mark) }
{}

/// Rows that any call of a board's run of plain lines logged or drew above the bars stand from the end of that call to the end of the run,
/// after each byte, whichever calls of the run the terminal breaks off. Lines are plain as for `what_a_run_leaves`, here and in the laws
/// below.
pub fn what_lasts_throughout<B, C>()
    ensures { (kind : BoardKind B C) (mark : ℕ) → RowsAboveLast (board kind mark) }
{}

/// A terminal that shows the lists at the start of a board's run of plain lines gets the run's bytes. After each byte, whatever fails in the run, the
/// picture begins with the texts of the untouched rows and of the rows above at the start. If nothing failed, the terminal shows the lists
/// at the end, so the next run can start there.
pub fn what_is_read_throughout<B, C>()
    ensures { (kind : BoardKind B C) (mark : ℕ) → RunsReadFromBytes (board kind mark) }
{}

/// What can be read after a run of plain lines that the terminal did not break off, on a terminal whose state can be read and which shows
/// the lists of the start: the picture is the texts of the untouched rows, then those of the lists' rows, then empty ones.
pub fn what_a_run_reads<B, C>()
    ensures { (kind : BoardKind B C) (mark : ℕ) → RunsAreRead (board kind mark) }
{}

/// What can be read after any calls of plain lines, from a terminal that shows the lists of the start: a board's rows are forgotten only if
/// the terminal failed.
pub fn what_a_board_run_reads<K: Tracks>()
    ensures { (mark : ℕ) (calls : List (Call (BarRecord K) (Command K) × ℕ)) (answers : List Answer) (v : TermView)
        (s : BoardState (BarRecord K)) (new : Option TermView) (next : BoardState (BarRecord K)) →
        IsFalse s.lists.failed → ReadsAfter (board (board_bars K.means) mark) calls answers v s new next }
{}

/// If the texts of bars, commands and logs consist of characters with a width and colour sequences, every run of a board is plain, so the
/// laws on plain runs hold for it. The board's texts are plain at its end too, so this holds for the next run, whatever sizes come between.
pub fn plain_texts_give_plain_runs<K: Tracks>()
    ensures { BoardRunsArePlain K.means }
{}

/// If the terminal never failed and memory was never refused, a board's run has one outcome: its answers and its last state follow from its
/// calls alone.
pub fn one_outcome<B, C>()
    ensures { (kind : BoardKind B C) (mark : ℕ) → OneOutcome (board kind mark) }
{}

/// A board's run only adds rows above, if the terminal broke no call off, whatever its texts are.
pub fn rows_above_are_only_added<B, C>()
    ensures { (kind : BoardKind B C) (mark : ℕ) → AboveOnlyGrows (board kind mark) }
{}

/// What follows from a board's history (`Recorded`), also if threads share the board. It is one run from the opening on, so if nothing
/// failed and no memory was refused, the answers follow from the calls alone. A board that began with a new rate limiter made at most 20
/// unforced draws, and one more for each interval from its making to the last of them. The rows of a text that an entry logged, answered
/// `Yes`, are above, unless the terminal broke a later call off. And the picture is that of the run, if it is a run on a terminal whose state
/// can be read and which showed an opening, no call was broken off, and all texts are plain: so it is of a board that nobody shares.
pub fn what_a_history_says<K: Tracks, T>()
    ensures answers { FollowsFromItsCalls T K.means }
    ensures bounded { HasBoundedDraws T K.means }
    ensures logged { LoggedRowsStand T K.means }
    ensures read { IsReadAsItsRun T K.means }
{}

/// What a receipt says of a history that holds it (`Recorded::holds`): the history holds it after each further call. And where its
/// text was answered `Yes`, and the terminal broke no later call off, the text's rows are above; of two such texts the rows of the later
/// entry are below those of the earlier one.
pub fn what_a_receipt_says<K: Tracks, T>()
    ensures stays { HeldStays T K.means }
    ensures rows { HeldRowsStand T K.means }
    ensures in_order { HeldRowsStandInOrder T K.means }
{}

/// When a call of a board gives which answer.
pub fn what_an_answer_says<B, C>()
    ensures { (kind : BoardKind B C) (mark : ℕ) → EachSays (board kind mark) }
{}

/// When a call of a board whose bars have these trackers gives which answer.
pub fn what_a_board_answers<K: Tracks>()
    ensures { (mark : ℕ) → EachSays (board (board_bars K.means) mark) }
{}

/// A lone bar is a board with one bar, which lays itself out at each draw and keeps no rows: every run of it is a run of that board, with
/// the same answers, the same bytes and the same rows.
pub fn a_lone_bar_is_a_board_of_one<K: Tracks>()
    ensures begins { OneIsTakenIn (BarRecord K) }
    ensures runs { LoneRunsAreBoardRuns (board_bars K.means) }
{}

/// A board takes from its limiter once for each unforced draw, and nothing else changes the limiter. From a new rate limiter, a run makes
/// at most 20 unforced draws, and one more for each interval from its start to the last of them. From any other state of a limiter, a run
/// makes as many as it has in hand, and one for each interval from its moment; two runs, one after the other, add up
/// (`how_often_a_run_draws`). Without a limiter each draw is allowed.
pub fn a_board_is_limited<B, C>()
    ensures asks { (kind : BoardKind B C) (mark : ℕ) → IsLimited (board kind mark) (λ s. s.limiter) }
    ensures bounded { (kind : BoardKind B C) (mark : ℕ) → RunsAreBounded (board kind mark) (λ s. s.limiter) }
    ensures from_any { (kind : BoardKind B C) (mark : ℕ) → RunsAreBoundedFrom (board kind mark) (λ s. s.limiter) }
    ensures spends { (kind : BoardKind B C) (mark : ℕ) → RunsSpend (board kind mark) (λ s. s.limiter) }
    ensures free { (kind : BoardKind B C) (mark : ℕ) (target : Target) (call : Call B C) (now : ℕ) (s : BoardState B) → s.limiter ≡ None →
        IsAllowed ((board kind mark).deed target call now s) }
{}

/// Scripts of a board, that is, runs with changes of size between them: if the terminal broke no call off, their pictures can be read,
/// whenever the size changes; and sizes don't change how often it draws. The other laws on scripts hold for anything that draws by calls.
pub fn scripts_of_a_board<K: Tracks>()
    ensures read { (mark : ℕ) → UnbrokenScriptsAreRead (board (board_bars K.means) mark) (board_sizing K.means mark) }
    ensures bounded { (mark : ℕ) → ScriptsAreBounded (board (board_bars K.means) mark) (board_sizing K.means mark) (λ s. s.limiter) }
    ensures from_any { (mark : ℕ) → ScriptsAreBoundedFrom (board (board_bars K.means) mark) (board_sizing K.means mark) (λ s. s.limiter) }
    ensures spends { (mark : ℕ) → ScriptsSpend (board (board_bars K.means) mark) (board_sizing K.means mark) (λ s. s.limiter) }
{}

/// No bar stands in a board's order twice, and each was inserted: at first, and after each call of any run.
pub fn each_bar_stands_once<B, C>()
    ensures first { (limiter : Option Limiter) → StandsOnce {B = B} (opening_board limiter) }
    ensures kept { (kind : BoardKind B C) (mark : ℕ) → RunsPreserve (board kind mark) StandsOnce }
{}

/// A board counts the bars that are inserted: in any run they get the next numbers one after another, so no two have the same, and none has
/// one that was given before. A bar that left the order never comes back.
pub fn numbers_are_never_used_again<B, C>()
    ensures counted { (kind : BoardKind B C) (mark : ℕ) → NumbersCount kind mark }
    ensures new { (kind : BoardKind B C) (mark : ℕ) → NumbersAreNew kind mark }
    ensures gone { (kind : BoardKind B C) (mark number : ℕ) → RunsPreserve (board kind mark) (HasLeft number) }
{}

/// A bar has a slot exactly if it stands in the order, and no two bars have the same.
pub fn each_bar_has_its_slot()
    ensures some { (t : SlotTable) (number : ℕ) → IsSeated t → (slot_of number t ≡ None) ↔ (occurrences number t.order ≡ 0) }
    ensures apart { (t : SlotTable) (one other slot : ℕ) → IsSeated t → slot_of one t ≡ Some slot → slot_of other t ≡ Some slot → one ≡ other }
{}

/// A bar keeps its slot as others come and go: after bars at the head left, after one left from anywhere, or after a new one was inserted,
/// it has the slot that it had.
pub fn each_bar_stays_in_its_slot()
    ensures head { (t : SlotTable) (count number slot : ℕ) → IsSeated t → slot_of number (head_unseated count t) ≡ Some slot → slot_of number t ≡ Some slot }
    ensures out { (t : SlotTable) (at number slot : ℕ) → IsSeated t → slot_of number (unseated at t) ≡ Some slot → slot_of number t ≡ Some slot }
    ensures new { (t : SlotTable) (at number : ℕ) → IsSeated t → t.made ≢ number → slot_of number (seated at t) ≡ slot_of number t }
{}
