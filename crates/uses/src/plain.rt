//! The rows and the bytes if the texts are plain, without a premise on the outcome of the calls.
ghost use Rattle.std.specs.Prelude.{◌≡◌, ◌≤◌, ◌∷◌, [], ℕ, List, Some, map, take, replicate, All, IfOk, IfSome, IsTrue, string_bytes, codes};
ghost use Rattle.indicatif_term.specs.Calls.{TermView};
ghost use Rattle.indicatif_term.specs.Calm.{is_quiet};
ghost use Rattle.indicatif_term.specs.Engines.{Paints, is_failure};
ghost use Rattle.indicatif_term.specs.Lines.{logged_lines};
ghost use Rattle.indicatif_term.specs.Cells.{view_of};
ghost use Rattle.indicatif_term.specs.Pictures.{picture_text};
ghost use Rattle.indicatif_term.specs.Terminal.{after, blank_terminal};
ghost use Rattle.indicatif_bar.specs.Commands.{BarRecord};
ghost use Rattle.indicatif_bar.specs.Lone.{LoneState};
ghost use Rattle.indicatif_bar.specs.LoneBars.{LoneIsIn, lone_known, lone_timed, record_of};
ghost use Rattle.indicatif_bar.specs.PlainLaws.{IsPlainLoneCall};
ghost use Rattle.indicatif_bar.specs.StyleLaws.{IsPlainText};
ghost use Rattle.indicatif_bar.specs.Trackers.{writes_nothing};
ghost use Rattle.indicatif_board.specs.Boards.{End, Given, Insert, New};
ghost use Rattle.indicatif_board.specs.BarIds.{id_of};
ghost use Rattle.indicatif_board.specs.Calls.{timed};
ghost use Rattle.indicatif_board.specs.Multi.{LeadsBy, terminal_of};
ghost use Rattle.indicatif_board.specs.PlainBoardLaws.{IsPlainCall};
ghost use Rattle.uses.specs.Plain.{HasPlainRecordTexts};

use indicatif_bar::laws::{
    plain_texts_give_plain_runs as plain_texts_give_plain_lone_runs, what_a_lone_run_reads,
};
use indicatif_bar::lone::{LoneBar, LoneCall};
use indicatif_bar::state::{BarCommand, BarState};
use indicatif_bar::style::{NoTracker, ProgressStyle, ProgressTracker};
use indicatif_board::laws::{
    plain_texts_give_plain_runs, scripts_of_a_board, what_a_board_run_reads,
};
use indicatif_board::multi::{BarId, Board, Call, Candidate};
use indicatif_term::cells::InMemoryTerm;
use indicatif_term::laws::{
    a_new_terminal_is_an_opening, any_cut, what_calm_bytes_hold, what_is_shown_is_read,
    where_a_terminal_stands,
};
use indicatif_term::target::{ProgressDrawTarget, Term, TermLike};
use indicatif_text::columns::{Drawn, Moment, Refusal};
use indicatif_text::laws::{columns, template_or_refused};
use std::alloc::Global;

/// Two names logged on a new terminal of 4 rows and 10 columns, and the texts of the rows afterwards: they, and empty ones.
///
/// Refused: `Memory`.
pub fn names_logged(alloc: Global) -> Result<Vec<String>, Refusal>
    ensures { IfOk result (λ texts. (blank : ℕ) × (map (λ text. string_bytes text) texts.items
        ≡ codes "a.txt" ∷ codes "b.txt" ∷ replicate blank [])) }
{
    let term = InMemoryTerm::new(alloc, 4, 10)?;
    let mut board = Board::<NoTracker, _>::new(alloc, ProgressDrawTarget::term_like(term), 0);
    let _one = board.println("a.txt", 0)?;
    let _other = board.println("b.txt", 0)?;
    columns();
    a_new_terminal_is_an_opening();
    what_a_board_run_reads::<NoTracker>();
    plain_texts_give_plain_runs::<NoTracker>();
    let left = board.term().ok_or(Refusal::Memory)?;
    Ok(left.picture()?)
}

/// A name logged on a new terminal of 4 rows and 10 columns, which then gets 3 columns, and another name; and the texts of the rows: the
/// first name, wrapped, the other one, and empty ones.
///
/// Refused: `Memory`.
pub fn names_cut(alloc: Global) -> Result<Vec<String>, Refusal>
    ensures { IfOk result (λ texts. (blank : ℕ) × (map (λ text. string_bytes text) texts.items
        ≡ codes "a.t" ∷ codes "xt" ∷ codes "b" ∷ replicate blank [])) }
{
    let term = InMemoryTerm::new(alloc, 4, 10)?;
    let mut board = Board::<NoTracker, _>::new(alloc, ProgressDrawTarget::term_like(term), 0);
    let _one = board.println("a.txt", 0)?;
    board.resize(4, 3)?;
    let _other = board.println("b", 0)?;
    columns();
    a_new_terminal_is_an_opening();
    scripts_of_a_board::<NoTracker>();
    plain_texts_give_plain_runs::<NoTracker>();
    let left = board.term().ok_or(Refusal::Memory)?;
    Ok(left.picture()?)
}

/// A bar with the message `copying`, with a name logged above it, on a new terminal of 4 rows and 10 columns; and the texts of the rows
/// afterwards: the name, the bar, and empty ones.
///
/// Refused: `Memory`.
pub fn name_above_a_bar(alloc: Global) -> Result<Vec<String>, Refusal>
    ensures { IfOk result (λ texts. (blank : ℕ) × (map (λ text. string_bytes text) texts.items
        ≡ codes "a.txt" ∷ codes "copying" ∷ replicate blank [])) }
{
    let term = InMemoryTerm::new(alloc, 4, 10)?;
    let style: ProgressStyle<NoTracker> = ProgressStyle::with_template(alloc, "{msg}")?;
    let record = BarState::styled(alloc, style, None, 0)?;
    let mut bar = LoneBar::new(record, ProgressDrawTarget::term_like(term));
    let _said = bar.set_message("copying", 0)?;
    let _logged = bar.println("a.txt", 0)?;
    template_or_refused();
    a_new_terminal_is_an_opening();
    what_a_lone_run_reads::<NoTracker>();
    let left = bar.into_term().ok_or(Refusal::Memory)?;
    Ok(left.picture()?)
}

/// A bar on a board, with the message `copying`, with a name logged above it, on a new terminal of 4 rows and 10 columns; and the texts of
/// the rows afterwards: the name, the bar, and empty ones.
///
/// Refused: `Memory`.
pub fn name_above_a_board(alloc: Global) -> Result<Vec<String>, Refusal>
    ensures { IfOk result (λ texts. (blank : ℕ) × (map (λ text. string_bytes text) texts.items
        ≡ codes "a.txt" ∷ codes "copying" ∷ replicate blank [])) }
{
    let terminal = InMemoryTerm::new(alloc, 4, 10)?;
    let style: ProgressStyle<NoTracker> = ProgressStyle::with_template(alloc, "{msg}")?;
    let record = BarState::styled(alloc, style, None, 0)?;
    let said = String::from_str(alloc, "copying")?;
    let mut board = Board::new(alloc, ProgressDrawTarget::term_like(terminal), 0);
    let id = first_bar(&mut board, record)?;
    let _said = board.command(id, BarCommand::SetMessage(said), 0)?;
    let _logged = board.println("a.txt", 0)?;
    template_or_refused();
    a_new_terminal_is_an_opening();
    what_a_board_run_reads::<NoTracker>();
    let left = board.term().ok_or(Refusal::Memory)?;
    Ok(left.picture()?)
}

/// A name logged above a bar on a new terminal of 4 rows and 10 columns, then any calls with plain texts, whatever their answers; and the
/// texts of the rows afterwards. The name is the first, even if the terminal broke some of the calls off.
///
/// Refused: `Memory`, or as the log.
pub fn name_stands<K: ProgressTracker>(
    alloc: Global,
    bar: BarState<K>,
    calls: Vec<(LoneCall<K>, Moment)>,
) -> Result<Vec<String>, Refusal>
    ensures { HasPlainRecordTexts K.means bar → All (λ call. IsPlainLoneCall K.means call.0) (map lone_timed calls.items) →
        IfOk result (λ texts. (others : List (List ℕ)) × (map (λ text. string_bytes text) texts.items ≡ codes "a.txt" ∷ others)) }
{
    let term = InMemoryTerm::new(alloc, 4, 10)?;
    let mut bar = LoneBar::new(bar, ProgressDrawTarget::term_like(term));
    let record = bar.bar();
    let _style = record.style();
    let _logged = bar.println("a.txt", 0)?;
    let _answers = bar.run(calls)?;
    columns();
    a_new_terminal_is_an_opening();
    plain_texts_give_plain_lone_runs::<K>();
    where_a_terminal_stands();
    what_is_shown_is_read();
    let left = bar.into_term().ok_or(Refusal::Memory)?;
    Ok(left.picture()?)
}

/// A name logged on a new board, then any calls with plain texts, whatever their answers; and the texts of the rows afterwards. The name is
/// the first.
///
/// Refused: `Memory`, or as the log.
pub fn name_stands_on<K: ProgressTracker>(
    alloc: Global,
    calls: Vec<(Call<K>, Moment)>,
) -> Result<Vec<String>, Refusal>
    ensures { All (λ call. IsPlainCall K.means call.0) (map timed calls.items) →
        IfOk result (λ texts. (others : List (List ℕ)) × (map (λ text. string_bytes text) texts.items ≡ codes "a.txt" ∷ others)) }
{
    let term = InMemoryTerm::new(alloc, 4, 10)?;
    let mut board = Board::<K, _>::new(alloc, ProgressDrawTarget::term_like(term), 0);
    let _logged = board.println("a.txt", 0)?;
    let _answers = board.run(calls)?;
    columns();
    a_new_terminal_is_an_opening();
    plain_texts_give_plain_runs::<K>();
    where_a_terminal_stands();
    what_is_shown_is_read();
    let left = board.term().ok_or(Refusal::Memory)?;
    Ok(left.picture()?)
}

/// The bytes of two logs on a new board behind a writer, whose terminal has 4 rows and 10 columns; and how many of them the first log
/// wrote. A new terminal that gets them has the first name in its first row after each byte from there on.
///
/// Refused: `Memory`.
pub fn name_between_bytes(alloc: Global) -> Result<(usize, Vec<u8>), Refusal>
    ensures { IfOk result (λ r. (k : ℕ) → r.0 ≤ k →
        (others : List (List ℕ)) × (picture_text (after (blank_terminal 4 10) (take k r.1.items)).screen ≡ codes "a.txt" ∷ others)) }
{
    let writer = Vec::new(alloc);
    let term = Term::new(writer, 4, 10);
    let mut board = Board::<NoTracker, _>::new(alloc, ProgressDrawTarget::term_like(term), 0);
    let _one = board.println("a.txt", 0)?;
    let first = bytes_of(alloc, &board)?;
    let _other = board.println("b.txt", 0)?;
    let all = bytes_of(alloc, &board)?;
    any_cut();
    columns();
    a_new_terminal_is_an_opening();
    plain_texts_give_plain_runs::<NoTracker>();
    where_a_terminal_stands();
    what_is_shown_is_read();
    let slice = first.as_slice();
    Ok((slice.len(), all))
}

/// Any calls with plain texts on a new board behind a writer, whatever their answers, and the bytes that its terminal got. No ASCII control
/// character is among them but CR, LF, and ESC; each ESC is followed by `[`, CR or nothing.
///
/// Refused: `Memory`.
pub fn bytes_are_quiet<K: ProgressTracker>(
    alloc: Global,
    calls: Vec<(Call<K>, Moment)>,
) -> Result<Vec<u8>, Refusal>
    ensures { All (λ call. IsPlainCall K.means call.0) (map timed calls.items) → IfOk result (λ bytes. IsTrue (is_quiet bytes.items)) }
{
    let writer = Vec::new(alloc);
    let term = Term::new(writer, 4, 10);
    let mut board = Board::<K, _>::new(alloc, ProgressDrawTarget::term_like(term), 0);
    let _answers = board.run(calls)?;
    plain_texts_give_plain_runs::<K>();
    what_calm_bytes_hold();
    bytes_of(alloc, &board)
}

/// The bytes that a board's terminal got.
fn bytes_of<K: ProgressTracker>(
    alloc: Global,
    board: &Board<K, Term<Vec<u8>>>,
) -> Result<Vec<u8>, Refusal>
    ensures { IfOk result (λ bytes. IfSome (terminal_of board.now) (λ term. term.writer.items ≡ bytes.items)) }
{
    let term = board.term().ok_or(Refusal::Memory)?;
    Ok(Vec::from_slice(alloc, term.writer().as_slice())?)
}

/// Logs a text above a bar that you are lent. Whatever was done with the bar before: if its texts, its trackers' and this one are plain,
/// the call paints the bar's rows.
pub fn log_above_lent<K: ProgressTracker, T: TermLike + Drop>(
    bar: &mut LoneBar<K, T>,
    text: &str,
    now: Moment,
) -> Result<Drawn, Refusal>
    ensures { HasPlainRecordTexts K.means (record_of bar.old) → All IsPlainText (logged_lines text.now) →
        (v : TermView) → lone_known T.view bar.old ≡ Some v →
        (s : LoneState (BarRecord K)) × (next : LoneState (BarRecord K)) × LoneIsIn bar.old s × LoneIsIn bar.new next
        × (v' : TermView) × (lone_known T.view bar.new ≡ Some v') × Paints v v' (is_failure result) s.lists next.lists }
{
    plain_texts_give_plain_lone_runs::<K>();
    let record = bar.bar();
    let _style = record.style();
    bar.println(text, now)
}

/// Inserts a bar after all others.
fn first_bar(
    board: &mut Board<NoTracker, InMemoryTerm>,
    bar: BarState<NoTracker>,
) -> Result<BarId, Refusal>
    ensures { IfOk result (λ id. LeadsBy writes_nothing view_of board.old board.new (Insert End (New bar)) 0 (Given (id_of id))) }
{
    match board.add(Candidate::New(bar)) {
        Ok(id) => Ok(id),
        Err(turned) => Err(turned.refusal),
    }
}
