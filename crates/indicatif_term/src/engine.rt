//! Drawing the lines of bars on a terminal, below text that stays.
//!
//! The rows that an engine has written are of three kinds, from the top: those *above*, which never change again; those *kept*,
//! of bars that are gone; and the *live* ones, of the last frame. An engine remembers their counts and the lines of the kept
//! and the live ones, no text that was logged, so what it needs does not grow with that. A draw writes the lines that changed, or of them
//! only the cells that differ, and leaves those that stay; each twenty-fifth that changes a line writes all lines whole. Else, as for a log,
//! it goes up to the first of the kept and live rows, empties them from there down, goes up again, and writes the new ones in
//! their place. The rows above stand at every moment.
//!
//! `Engine` is here with its calls, which decide whether lines stay, are moved over or are painted anew, and remember what stands then. The
//! modules below are private. What stands:
//!
//! - `counts`: `Counts`, how many rows are kept, live or blank, and how far the cursor is: after a draw, a log, a clear or a `keep`.
//!   `Fresh`, the rows that are reached for the first time.
//! - `remembered`: `Remembered`, the lines in those rows: the live ones, those of kept rows, and new ones in their place or below.
//! - `spare`: `Spare`, room that was taken before, for lines and texts: it is taken, and kept again.
//! - `recutting`: the remembered lines at another size (`CutLines`): each row's glyphs are cut into lines of one row, as texts that begin no colour
//!   sequence; and the counts of those.
//!
//! What differs:
//!
//! - `layout`: a frame beside the lines that stand, in one pass (`Laid`): which of these stay, which new ones come in their place, which are
//!   written below; and how many rows all take (`Plan`).
//! - `logged`: a text that is logged above a frame (`Logged`), and its rows.
//! - `beside`: the lines that stand there (`Beside`), blank ones above a frame, and the room that is left for it (`Room`);
//!   new lines (`NewLine`) in the place of those that stand.
//! - `comparing`: what becomes of one line where another text comes in its place (`Turn`, `Step`): from the byte on where both part, how many
//!   characters of one column follow, and is a `Stretch` written, or the whole line?
//! - `inks`: a text read cell by cell, with the colour sequences that are open at each (`InkedText`, `Colours`), and what two texts begin with
//!   alike (`Alike`); does a text leave colours open?
//!
//! What is written:
//!
//! - `writing`: a drawing from its first byte to its last (`Writing`, `write`): rows are emptied, lines come in the place of others, and below
//!   them a text and the rest of the lines, each on a row of its own. Also its steps: up, down, rows emptied, spaces.
//! - `changing`: the lines in the place of others, from the first down to the last: which stay, which are edited in a part, which are
//!   written as a whole? Or whole lines over those that stand, where all their rows are full and none joins the one before it (`are_even`),
//!   without an empty row between.
//! - `row_edits`: a part of a row, column by column: characters in their colours, and steps over columns that stay (`Rest`).
ghost use Rattle.std.specs.Prelude.{if◌then◌else◌, min, ◌-◌, ◌^◌, ◌≡◌, ◌∷◌, List, true, false, ◌≢◌, map, length, replicate, ◌+◌, ◌<◌, ◌≤◌, IfErr, IfSome, option_map, IsTrue, IsFalse, ◌++◌, [], ℕ, Err, false, ◌⊎◌, ◌↔◌, ◌==◌, ◌&&◌, IfOk, take, drop};
ghost use Rattle.indicatif_term.specs.Lists.{Lists, opening_lists, forgotten_lists};
ghost use Rattle.indicatif_term.specs.Counts.{CountsOf};
ghost use Rattle.std.specs.List.{list_any};
ghost use Rattle.indicatif_term.specs.Remembered.{Suits};
ghost use Rattle.indicatif_term.specs.Standing.{texts};

pub(crate) mod beside;
pub(crate) mod changing;
pub(crate) mod comparing;
pub(crate) mod counts;
pub(crate) mod inks;
pub(crate) mod layout;
pub(crate) mod logged;
pub(crate) mod recutting;
pub(crate) mod remembered;
pub(crate) mod row_edits;
pub(crate) mod spare;
pub(crate) mod writing;

use crate::engine::beside::{Room, height_of, last_column, lines_within};
use crate::engine::changing::{are_even, fill_behind};
use crate::engine::counts::{Counts, Fresh, Keep};
use crate::engine::layout::{Asked, Laid, plan_drawing, run_of};
use crate::engine::logged::Logged;
use crate::engine::recutting::{CutLines, Widths};
use crate::engine::remembered::{Remembered, Span, StandingLine};
use crate::engine::spare::Spare;
use crate::engine::writing::{Drawing, Manner, Writing, told, write};
use crate::target::limiter::RateLimiter;
use crate::target::lines::Segment;
use crate::target::term_like::{Resize, TermLike};
use crate::target::window::Window;
use crate::target::{MultiProgressAlignment, ProgressDrawTarget};
use indicatif_text::columns::Refusal;
use std::alloc::Global;
use std::io::ErrorKind;

/// How many drawings in a row may leave lines that stay, and edit others, before one writes all lines as a whole: whatever another program
/// wrote into their rows is gone then.
const MOST_DRAWINGS: usize = 24;

/// Draws the lines of bars on a terminal, and takes back those that it may still change.
///
/// It begins on the cursor's row, which has to be empty, as all below it, with the cursor at its front; it may be any row of
/// the window. Lines are to hold printable characters and colour sequences alone; a line wraps where its row is full, and a
/// wide character that does not fit goes to the next row. Nobody else may write to the terminal, and only `resize` changes its size.
///
/// A call that is refused with `NoColumns`, `TooWide` or `Memory` has written nothing and changed nothing; it can be made
/// again. After `Terminal`, with the kind of the terminal's own failure, some beginning of the drawing was written: the rows
/// are forgotten, and the next drawing begins on a new row, by `write_line("")` and `clear_line`, below whatever stands there,
/// also where the terminal broke off within an escape sequence or a character. The rows above stand then, too, and from then on. As
/// long as anything may stand below, each row that a drawing is the first to reach is emptied before it is written; frames that take
/// more rows than those before are written whole.
///
/// ```
/// let mut engine = Engine::new(alloc, InMemoryTerm::new(alloc, 4, 5)?);
/// engine.draw(&frame, 0, MultiProgressAlignment::Top)?; // the lines of the frame's bars
/// engine.log("done", &frame, MultiProgressAlignment::Top)?; // stands above them from now on
/// ```
pub struct Engine<T: Drop> {
    term: T,
    alloc: Global,
    counts: Counts,
    /// The lines of the kept rows and of the last drawing.
    shown: Remembered,
    /// Room for the next lines.
    spare: Spare,
    /// Whether a call has failed, so that the next drawing begins on a new row.
    failed: bool,
    /// Whether draws write lines over those that stand there, where they can.
    moves: bool,
    /// How many drawings have changed lines since all lines were written as a whole; `MOST_DRAWINGS` where the next one is to do so.
    drawings: usize,
    ghost some: { ∥ ((l : Lists) × Suits counts failed shown l) ∥₁ },
}

impl<T: Drop> Drop for Engine<T> {
    fn drop(self) {
        let Engine {
            term: _,
            alloc: _,
            counts: _,
            shown: _,
            spare: _,
            failed: _,
            moves: _,
            drawings: _,
        } = self;
    }
}

impl<T: TermLike + Drop> Engine<T> {
    ghost use Rattle.indicatif_term.specs.Lists.{Lists, drawn, logged, cleared, kept_of, fate};
    ghost use Rattle.indicatif_term.specs.Inside.Writings.{CanWrite, writing_bytes};
    ghost use Rattle.indicatif_term.specs.Calls.{TermView};
    ghost use Rattle.indicatif_term.specs.Inside.MoveBytes.{Sends};
    ghost use Rattle.indicatif_term.specs.Lines.{bar_lines, all_lines, are_plain, logged_lines, text_lines, is_fault};
    ghost use Rattle.indicatif_term.specs.Inside.Plans.{frame_lines, logged_text};
    ghost use Rattle.indicatif_term.specs.Engines.{engine_moves, engine_term, Fits, is_failure, Answers, Counted, Paints, lists_after};
    ghost use Rattle.indicatif_term.specs.Inside.Remembered.{DrawWrites, Remembers, IsNext, IsNothing};
    ghost use Rattle.indicatif_term.specs.Inside.Layouts.{ArePut, CanPut};
    ghost use Rattle.indicatif_term.specs.Inside.Owned.{kept_below};
    ghost use Rattle.indicatif_term.specs.Remembered.{live_lines};
    ghost use Rattle.indicatif_term.specs.Shows.{IsOpening, Rests, resting};
    ghost use Rattle.indicatif_term.specs.Screen.{Screen};
    ghost use Rattle.indicatif_term.specs.Terminal.{Terminal};
    ghost use Rattle.indicatif_term.specs.Target.{is_bottom, term_of, limiter_of};

    /// An engine that has drawn nothing yet. It takes no memory and writes nothing.
    pub fn new(alloc: Global, term: T) -> Self
        ensures terminal { engine_term result ≡ term }
        ensures moves { engine_moves result ≡ false }
        ensures lists { Fits result opening_lists }
        ensures rests { (w h : ℕ) (opening : Screen) → IsOpening w h opening →
            Rests w h opening opening_lists (resting opening) }
    {
        Engine {
            term,
            alloc,
            counts: Counts::new(),
            shown: Remembered::nothing(alloc),
            spare: Spare::new(alloc),
            failed: false,
            moves: false,
            drawings: 0,
        }
    }

    /// An engine on this target's terminal, none where the target is hidden; and the target's limiter. It takes no memory and
    /// writes nothing.
    ///
    /// ```
    /// let (engine, limiter) = Engine::opened_on(alloc, ProgressDrawTarget::term_like(term)); // an engine, and no limiter
    /// ```
    pub fn opened_on(
        alloc: Global,
        target: ProgressDrawTarget<T>,
    ) -> (Option<Self>, Option<RateLimiter>)
        ensures terminal { option_map engine_term result.0 ≡ term_of target }
        ensures opened { IfSome result.0 (λ engine. Fits engine opening_lists) }
        ensures moves { IfSome result.0 (λ engine. engine_moves engine ≡ false) }
        ensures limiter { result.1 ≡ limiter_of target }
    {
        match target.into_parts() {
            Some((term, limiter)) => (Some(Engine::new(alloc, term)), limiter),
            None => (None, None),
        }
    }

    /// The engine's terminal.
    pub fn term(&self) -> &T
        ensures terminal { result.now ≡ engine_term self.now }
        ensures some { (l : Lists) × Fits self.now l }
    {
        &self.term
    }

    /// The engine's terminal; what was drawn stays on it.
    pub fn into_term(self) -> T
        ensures { result ≡ engine_term self }
    {
        let Engine {
            term,
            alloc: _,
            counts: _,
            shown: _,
            spare: _,
            failed: _,
            moves: _,
            drawings: _,
        } = self;
        term
    }

    /// Whether draws write their lines over those that stand there, by moves of the cursor alone: up to the first row, to its front,
    /// and each line with the spaces that fill its last row. It is off at first.
    ///
    /// A draw does so where that shows the same as with it off: it has a line and at least as many rows as it takes back, none of
    /// its rows ends early for a wide character, no line begins with a zero-width character, what stands in the rows is known, and
    /// it reaches no row in which anything may stand since a failure. Any other draw, a log and a clear go as with it off.
    ///
    /// ```
    /// engine.set_move_cursor(true); // for a terminal that flickers where rows are emptied
    /// ```
    pub fn set_move_cursor(&mut self, on: bool)
        ensures terminal { engine_term self.new ≡ engine_term self.old }
        ensures moves { engine_moves self.new ≡ on }
        ensures lists { (l : Lists) → Fits self.old l → Fits self.new l }
    {
        self.moves = on;
    }

    /// Draws the frame in the place of the live rows. The rows of its first `pass` members, which have numbers of their own,
    /// then become kept rows, with the blank rows above them.
    ///
    /// As many lines from the front are written as have at most the terminal's rows together, and none where the frame stands as it is.
    /// It goes over the frame once before the first byte, and twice if other blank rows stand there or a new line leaves colours open; then over
    /// the lines that it draws. Memory for new texts, where earlier drawings left no room for them, is taken before
    /// the first byte. The lines of kept rows and those that stay aren't copied; the room of the list that holds them grows with it.
    ///
    /// Refused: `NoColumns` where the terminal has no columns; `TooWide` where any line, also one past the terminal's
    /// rows, holds a character wider than the terminal; `Memory`, also in place of `TooWide`, and never where the frame has no
    /// line; then `Terminal`.
    pub fn draw(
        &mut self,
        frame: &[Segment],
        pass: usize,
        alignment: MultiProgressAlignment,
    ) -> Result<(), Refusal>
        ensures answer { Answers (T.view (engine_term self.old)).columns
            (all_lines (map bar_lines frame.now)) result }
        ensures counted { Counted (T.view (engine_term self.old)) (T.view (engine_term self.new)) result }
        ensures moves { engine_moves self.new ≡ engine_moves self.old }
        ensures memory { result ≡ Err Refusal.Memory →
            (0 < (T.view (engine_term self.old)).columns) × (0 < length (all_lines (map bar_lines frame.now))) }
        ensures unchanged { IfErr result (λ e. IsFalse (is_fault e) → self.new ≡ self.old) }
        ensures lists { (l : Lists) → Fits self.old l → let s = T.view (engine_term self.old) in
            Fits self.new (lists_after result l
            (drawn s.columns s.rows (is_bottom alignment) pass (map bar_lines frame.now) l)) }
        ensures paints { (l : Lists) → Fits self.old l →
            IsTrue (are_plain (all_lines (map bar_lines frame.now))) →
            let s = T.view (engine_term self.old) in
            Paints s (T.view (engine_term self.new)) (is_failure result) l (lists_after result l
            (drawn s.columns s.rows (is_bottom alignment) pass (map bar_lines frame.now) l)) }
    {
        let window = Window::of(&self.term)?;
        let width = window.columns;
        let old = self.counts;
        let asked = Asked {
            frame,
            pass,
            bottom: alignment.is_bottom(),
            whole: self.drawings >= MOST_DRAWINGS,
            blanks: old.blanks,
            taken: old.live,
        };
        let mut laid = self.spare.lend();
        plan_drawing(&self.shown, &mut self.spare, &mut laid, &asked, window)?;
        let rows = laid.blanks + laid.plan.rows;
        let before = Before {
            counts: old,
            failed: self.failed,
            moves: self.moves,
            width: self.shown.width,
            rows,
        };
        let fresh = old.fresh(old.kept + rows, window.rows);
        let next = old.drawn(laid.plan, laid.blanks, window.rows);
        let above = self.shown.above(width, old.kept);
        if before.stands(&next, above, &laid, self.shown.live()) {
            return self.rest(next, &mut laid);
        }
        let from = self.store(next, above, &mut laid, width)?;
        let writing = before.writing(fresh, &next, self.shown.behind(from), width);
        self.write(&writing, Logged::Nothing, from)
    }

    /// Writes the lines of the text, which stay, in the place of the kept and the live rows, and draws the frame below
    /// them.
    ///
    /// The lines are ended by LF or CR LF; an empty text is one empty line. Tabs in it are not expanded. The text is lent:
    /// it is measured in one pass and written in one.
    ///
    /// Refused as `draw`, with the text's lines among those that may be too wide.
    pub fn log(
        &mut self,
        text: &str,
        frame: &[Segment],
        alignment: MultiProgressAlignment,
    ) -> Result<(), Refusal>
        ensures answer { Answers (T.view (engine_term self.old)).columns
            (text_lines (logged_lines text.now) ++ all_lines (map bar_lines frame.now)) result }
        ensures counted { Counted (T.view (engine_term self.old)) (T.view (engine_term self.new)) result }
        ensures moves { engine_moves self.new ≡ engine_moves self.old }
        ensures memory { result ≡ Err Refusal.Memory →
            (0 < (T.view (engine_term self.old)).columns) × (0 < length (all_lines (map bar_lines frame.now))) }
        ensures unchanged { IfErr result (λ e. IsFalse (is_fault e) → self.new ≡ self.old) }
        ensures lists { (l : Lists) → Fits self.old l → let s = T.view (engine_term self.old) in
            Fits self.new (lists_after result l (logged s.columns s.rows (is_bottom alignment)
            (text_lines (logged_lines text.now)) (map bar_lines frame.now) l)) }
        ensures paints { (l : Lists) → Fits self.old l →
            IsTrue (are_plain
            (text_lines (logged_lines text.now) ++ all_lines (map bar_lines frame.now))) →
            let s = T.view (engine_term self.old) in
            Paints s (T.view (engine_term self.new)) (is_failure result) l (lists_after result l
            (logged s.columns s.rows (is_bottom alignment)
            (text_lines (logged_lines text.now)) (map bar_lines frame.now) l)) }
    {
        let window = Window::of(&self.term)?;
        let logged = Logged::of(text, window);
        let metrics = logged.metrics(window)?;
        let old = self.counts;
        let anew = self.failed;
        let taken = old.kept + old.live;
        let asked = Asked {
            frame,
            pass: 0,
            bottom: alignment.is_bottom(),
            whole: true,
            blanks: 0,
            taken: taken.saturating_sub(metrics.height),
        };
        let mut laid = self.spare.lend();
        plan_drawing(&self.shown, &mut self.spare, &mut laid, &asked, window)?;
        let end = metrics.height.saturating_add(laid.blanks + laid.plan.rows);
        let fresh = old.fresh(end, window.rows);
        let next = old.logged(metrics.height, laid.plan, laid.blanks, window.rows);
        let above = Span { from: 0, to: 0 };
        let from = self.store(next, above, &mut laid, window.columns)?;
        let last = last_column(self.shown.behind(from)).unwrap_or(metrics.last_line_width);
        let writing = Writing {
            anew,
            fresh,
            below: old.below,
            taken,
            manner: Manner::Among(0),
            width: window.columns,
            ends_below: next.below,
            fill: next.fill(Some(last), window.columns),
        };
        self.write(&writing, logged, from)
    }

    /// Takes back the kept and the live rows. Takes no memory.
    ///
    /// Refused: `NoColumns` where the terminal has no columns; then `Terminal`.
    pub fn clear(&mut self) -> Result<(), Refusal>
        ensures answer { Answers (T.view (engine_term self.old)).columns [] result }
        ensures no_memory { result ≢ Err Refusal.Memory }
        ensures counted { Counted (T.view (engine_term self.old)) (T.view (engine_term self.new)) result }
        ensures moves { engine_moves self.new ≡ engine_moves self.old }
        ensures unchanged { IfErr result (λ e. IsFalse (is_fault e) → self.new ≡ self.old) }
        ensures lists { (l : Lists) → Fits self.old l →
            Fits self.new (lists_after result l (cleared l)) }
        ensures paints { (l : Lists) → Fits self.old l →
            Paints (T.view (engine_term self.old)) (T.view (engine_term self.new)) (is_failure result) l
            (lists_after result l (cleared l)) }
    {
        let window = Window::of(&self.term)?;
        let next = self.counts.cleared();
        let writing = Writing {
            anew: self.failed,
            fresh: Fresh::none(),
            below: self.counts.below,
            taken: self.counts.kept + self.counts.live,
            manner: Manner::Among(0),
            width: window.columns,
            ends_below: next.below,
            fill: 0,
        };
        let forgotten = Remembered::nothing(self.alloc);
        self.remember(next, forgotten);
        self.write(&writing, Logged::Nothing, 0)
    }

    /// The rows of a bar that is gone become kept rows, with the blank rows above them, if they are the first live ones of a
    /// bar. Writes nothing. An engine that has failed has no rows.
    pub fn keep(&mut self, bar: u64) -> Keep
        ensures fate { (l : Lists) → Fits self.old l → result ≡ fate bar l }
        ensures lists { (l : Lists) → Fits self.old l →
            Fits self.new (kept_of (T.view (engine_term self.old)).columns bar l) }
        ensures terminal { engine_term self.new ≡ engine_term self.old }
        ensures moves { engine_moves self.new ≡ engine_moves self.old }
        ensures rests { (w h : ℕ) (l : Lists) (opening : Screen) (t : Terminal) →
            Rests w h opening l t → Rests w h opening (kept_of w bar l) t }
    {
        let blanks = self.counts.blanks;
        let own = self.shown.own(blanks);
        let count = run_of(own, bar);
        if count == 0 {
            return behind_or_absent(own, bar);
        }
        let rows = height_of(&own[..count]);
        let width = self.term.width() as usize;
        self.shown.keep(width, blanks + count);
        self.counts = self.counts.passed(rows);
        Keep::Passed
    }

    /// Remembers the next counts and a laid-out frame, which is about to be written, in place of the live lines and below some that stand.
    /// Returns the index of its first line. Refused: `Memory`, where there is a line below; all is unchanged then.
    fn store(
        &mut self,
        next: Counts,
        above: Span,
        laid: &mut Laid,
        width: usize,
    ) -> Result<usize, Refusal>
        requires some { 0 < width }
        requires fits { CanPut width above self.old.shown laid.old }
        requires suits { (r : Remembered) (ls : List StandingLine) → ArePut width (live_lines self.old.shown) laid.old ls →
            IsNext width (kept_below laid.old.plan laid.old.blanks) (drop above.from (take above.to self.old.shown.lines)) ls r → ∥ ((l : Lists) × Suits next false r l) ∥₁ }
        ensures refused { IfErr result (λ e. (e ≡ Refusal.Memory) × (0 < length laid.old.more.items) × (self.new ≡ self.old)) }
        ensures next { IfOk result (λ from. (ls : List StandingLine) × ArePut width (live_lines self.old.shown) laid.old ls
            × IsNext width (kept_below laid.old.plan laid.old.blanks) (drop above.from (take above.to self.old.shown.lines)) ls self.new.shown
            × (from ≤ length self.new.shown.lines) × (drop from self.new.shown.lines ≡ ls)) }
        ensures made { IfOk result (λ _. (self.new.counts ≡ next) × (self.new.failed ≡ false)) }
        ensures terminal { engine_term self.new ≡ engine_term self.old }
        ensures moves { engine_moves self.new ≡ engine_moves self.old }
    {
        let from = above.to - above.from;
        let drawings = drawings_behind(self.drawings, laid);
        self.shown.put(&mut self.spare, above, laid, width)?;
        self.spare.store_laid(laid);
        self.counts = next;
        self.failed = false;
        self.drawings = drawings;
        Ok(from)
    }

    /// Remembers the next counts, where all lines stay as they stand, and writes nothing.
    fn rest(&mut self, next: Counts, laid: &mut Laid) -> Result<(), Refusal>
        requires sound { self.old.failed ≡ false }
        requires suits { ∥ ((l : Lists) × Suits next false self.old.shown l) ∥₁ }
        ensures draws { DrawWrites [] (T.view (engine_term self.old)) (T.view (engine_term self.new)) result }
        ensures remembers { Remembers next self.old.shown result self.new }
        ensures moves { engine_moves self.new ≡ engine_moves self.old }
    {
        self.spare.store_laid(laid);
        self.counts = next;
        let written = told(self.term.flush());
        self.ended(written)
    }

    /// Writes this text, and the remembered lines behind the first `from`.
    fn write(&mut self, writing: &Writing, logged: Logged<'_>, from: usize) -> Result<(), Refusal>
        requires sound { self.old.failed ≡ false }
        requires within { from ≤ length self.old.shown.lines }
        requires can { CanWrite writing.now.manner (drop from self.old.shown.lines) }
        ensures draws { DrawWrites (writing_bytes writing.now (logged_text logged.entry) (drop from self.old.shown.lines))
            (T.view (engine_term self.old)) (T.view (engine_term self.new)) result }
        ensures remembers { Remembers self.old.counts self.old.shown result self.new }
        ensures moves { engine_moves self.new ≡ engine_moves self.old }
    {
        let drawing = Drawing {
            logged,
            lines: self.shown.behind(from),
        };
        let written = write(&mut self.term, writing, &drawing);
        self.drawings = drawings_below(self.drawings, logged);
        self.ended(written)
    }

    /// The answer of the engine after a drawing was written; after a failure all is forgotten but that a call has failed.
    #[inline(always)]
    fn ended(&mut self, written: Result<(), ErrorKind>) -> Result<(), Refusal>
        requires sound { self.old.failed ≡ false }
        ensures draws { (bytes : List ℕ) (v : TermView) → Sends bytes v (T.view (engine_term self.old)) written →
            DrawWrites bytes v (T.view (engine_term self.new)) result }
        ensures remembers { Remembers self.old.counts self.old.shown result self.new }
        ensures moves { engine_moves self.new ≡ engine_moves self.old }
    {
        match written {
            Ok(()) => Ok(()),
            Err(kind) => {
                self.forget();
                Err(Refusal::Terminal(kind))
            }
        }
    }

    /// Remembers these counts and lines as the engine's from now on. The colours of lines that were cut aren't known, so the next drawing
    /// writes all lines as a whole.
    fn remember(&mut self, next: Counts, shown: Remembered)
        requires { ∥ ((l : Lists) × Suits next false shown l) ∥₁ }
        ensures terminal { engine_term self.new ≡ engine_term self.old }
        ensures moves { engine_moves self.new ≡ engine_moves self.old }
        ensures remembered { (self.new.counts ≡ next) × (self.new.failed ≡ false) × (self.new.shown ≡ shown) }
    {
        self.counts = next;
        self.shown = shown;
        self.failed = false;
        self.drawings = MOST_DRAWINGS;
    }

    /// Forgets the engine's counts and lines, since the terminal failed.
    #[inline(never)]
    fn forget(&mut self)
        ensures terminal { engine_term self.new ≡ engine_term self.old }
        ensures moves { engine_moves self.new ≡ engine_moves self.old }
        ensures forgotten { CountsOf self.new.counts forgotten_lists × (self.new.failed ≡ true) × IsNothing self.new.shown }
    {
        self.counts = Counts::forgotten();
        self.shown = Remembered::nothing(self.alloc);
        self.failed = true;
    }
}

impl<T: Resize + Drop> Engine<T> {
    ghost use Rattle.indicatif_term.specs.Lists.{Lists};
    ghost use Rattle.indicatif_term.specs.Inside.Recutting.{IsShownCut};
    ghost use Rattle.indicatif_term.specs.Resizes.{Resized, SizeTakes, has_size, recut_lists, settled_whole, resized_lists};
    ghost use Rattle.indicatif_term.specs.Engines.{engine_moves, engine_term, Fits};

    /// Gets `rows` rows and `cols` columns. Nothing is written: its terminal cuts each row that stands there, and the lists are cut
    /// with them, so that the next drawing takes back just the rows that its own became. Rows aren't joined again where there are
    /// more columns than before; live rows that scroll away are rows above from then on. The same size changes nothing. What
    /// `set_move_cursor` was told last stays.
    ///
    /// After a failure of the terminal, until the next drawing, nothing but the size changes: the rows above the cursor's that were
    /// safe are cut and stay safe (`laws::what_stays_safe`).
    ///
    /// It takes memory for the lines of the kept and the live rows, one a row, before the terminal gets the size.
    ///
    /// Refused: `ZeroSize` where `rows` or `cols` is 0; `Memory`. All is unchanged then. `Memory` never comes at the size that it has. On a
    /// terminal that takes none for a size, such as a `Term`, it comes only where a kept or a live row stands: not before the first
    /// drawing, nor behind a clear or a failure. A terminal in memory may be refused it at any other size.
    ///
    /// ```
    /// engine.draw(&frame, 0, MultiProgressAlignment::Top)?; // contents: "fetched"
    /// engine.resize(4, 5)?; // contents: "fetch\ned"
    /// ```
    pub fn resize(&mut self, rows: u16, cols: u16) -> Result<(), Refusal>
        ensures resized { IfOk result (λ u. Resized cols rows (T.view (engine_term self.old)) (T.view (engine_term self.new))) }
        ensures unchanged { IfErr result (λ e. self.new ≡ self.old) }
        ensures zero_size { (result ≡ Err Refusal.ZeroSize) ↔ ((rows ≡ 0) ⊎ (cols ≡ 0)) }
        ensures no_other { IfErr result (λ e. (e ≡ Refusal.ZeroSize) ⊎ (e ≡ Refusal.Memory)) }
        ensures memory { result ≡ Err Refusal.Memory → IsFalse (has_size cols rows (T.view (engine_term self.old))) }
        ensures takes { result ≡ Err Refusal.Memory → (l : Lists) → Fits self.old l → SizeTakes T.takes_memory l }
        ensures moves { engine_moves self.new ≡ engine_moves self.old }
        ensures lists { IfOk result (λ u. (l : Lists) → Fits self.old l → let s = T.view (engine_term self.old) in
            Fits self.new (resized_lists s.columns s.rows cols rows l)) }
    {
        if rows == 0 || cols == 0 {
            return Err(Refusal::ZeroSize);
        }
        if self.failed {
            return self.resize_term(rows, cols);
        }
        if self.has_size(rows, cols) {
            return self.resize_term(rows, cols);
        }
        let cut = self.cut(rows, cols)?;
        self.resize_term(rows, cols)?;
        self.remember(cut.counts, cut.shown);
        Ok(())
    }

    /// Gives the engine's terminal alone another size.
    fn resize_term(&mut self, rows: u16, cols: u16) -> Result<(), Refusal>
        ensures resized { IfOk result (λ u. Resized cols rows (T.view (engine_term self.old)) (T.view (engine_term self.new))) }
        ensures unchanged { IfErr result (λ e. self.new ≡ self.old) }
        ensures zero_size { (result ≡ Err Refusal.ZeroSize) ↔ ((rows ≡ 0) ⊎ (cols ≡ 0)) }
        ensures no_other { IfErr result (λ e. (e ≡ Refusal.ZeroSize) ⊎ (e ≡ Refusal.Memory)) }
        ensures memory { result ≡ Err Refusal.Memory → IsFalse (has_size cols rows (T.view (engine_term self.old))) }
        ensures takes { result ≡ Err Refusal.Memory → IsTrue T.takes_memory }
        ensures moves { engine_moves self.new ≡ engine_moves self.old }
        ensures same { (self.new.counts ≡ self.old.counts) × (self.new.failed ≡ self.old.failed) × (self.new.shown ≡ self.old.shown) }
    {
        self.term.resize(rows, cols)
    }

    /// Whether the engine's terminal has this size.
    fn has_size(&self, rows: u16, cols: u16) -> bool
        ensures { result ≡ has_size cols rows (T.view (engine_term self.now)) }
    {
        self.term.width() == cols && self.term.height() == rows
    }

    /// The engine's counts and lines on a terminal of another size. Refused: `Memory`, only where a kept or a live row stands, and also
    /// where the lines of these aren't remembered: a terminal that changed its columns by itself may lead there.
    fn cut(&self, rows: u16, cols: u16) -> Result<CutDrawing, Refusal>
        requires rows { 0 < rows }
        ensures suits { IfOk result (λ c. (l : Lists) → Suits self.now.counts self.now.failed self.now.shown l → self.now.failed ≡ false →
            Suits c.counts false c.shown (settled_whole cols rows (recut_lists cols l))) }
        ensures memory { IfErr result (λ e. (e ≡ Refusal.Memory) × (0 < self.now.counts.kept + self.now.counts.live)) }
    {
        let standing = self.counts.kept + self.counts.live;
        let widths = Widths {
            from: self.term.width() as usize,
            to: cols as usize,
        };
        let cut = self.cut_lines(widths)?;
        if cut.heights.len() < standing {
            return Err(Refusal::Memory);
        }
        let above = cut.heights.len() - standing;
        let counts = self.counts.recut(&cut.heights[above..], rows as usize)?;
        Ok(CutDrawing {
            counts,
            shown: Remembered::of(widths.to, cut.lines, counts.live),
        })
    }

    /// Its lines, cut anew; none where no kept and no live row stands. Refused: `Memory`, only where one does.
    fn cut_lines(&self, widths: Widths) -> Result<CutLines, Refusal>
        ensures cut { IfOk result (λ c. IsShownCut widths.from widths.to self.now.shown c) }
        ensures memory { IfErr result (λ e. (e ≡ Refusal.Memory) × (0 < self.now.counts.kept + self.now.counts.live)) }
    {
        if self.counts.kept + self.counts.live == 0 {
            return Ok(CutLines::none(self.alloc));
        }
        self.shown.cut(self.alloc, widths)
    }
}

/// What an engine knows of its rows before a drawing: their counts, whether a call has failed, whether lines are written over those that stand
/// where they can be, the columns of the terminal on which they are remembered, and the rows of the lines that are drawn.
#[derive(Clone, Copy)]
struct Before {
    counts: Counts,
    failed: bool,
    moves: bool,
    width: usize,
    rows: usize,
}

impl Before {
    ghost use Rattle.indicatif_term.specs.Inside.Remembered.{HasRoom, CanMoveOver, Stands};
    ghost use Rattle.indicatif_term.specs.Inside.Writings.{IsChosen, whole_writing};
    ghost use Rattle.indicatif_term.specs.Inside.Changing.{placed_height};
    ghost use Rattle.indicatif_term.specs.Inside.Places.{IsWithin};
    ghost use Rattle.indicatif_term.specs.Standing.{placed};

    /// Whether all live lines stand as they were laid out, and stay live, so that nothing is written.
    fn stands(&self, next: &Counts, above: Span, laid: &Laid, live: &[StandingLine]) -> bool
        ensures { IsTrue result → Stands self.now.counts self.now.failed self.now.width self.now.rows next.now above laid.now live.now }
    {
        if self.moves || self.failed || self.counts.below || next.below {
            return false;
        }
        if self.rows != self.counts.live || self.width > 65535 || live.is_empty() {
            return false;
        }
        if above.from > 0 || laid.at != live.len() || laid.plan.passing > 0 {
            return false;
        }
        laid.changed.is_empty() && laid.more.is_empty()
    }

    /// Whether lines can be written over the live rows by moves alone, if `set_move_cursor` was told so.
    fn can_move(&self, next: &Counts, lines: &[StandingLine], width: usize) -> bool
        requires { self.now.rows ≡ placed_height (placed lines.now) }
        ensures { IsTrue result → CanMoveOver self.now.counts self.now.failed self.now.width next.now width lines.now }
    {
        let live = self.counts.live;
        if !self.moves || self.failed || next.below || lines.is_empty() {
            return false;
        }
        if self.counts.below != (live == 0) || self.rows < live {
            return false;
        }
        if live > 0 && self.width != width || self.goes_further() {
            return false;
        }
        are_even(lines, width)
    }

    /// Whether the lines take more rows than the live ones where anything may stand below.
    fn goes_further(&self) -> bool
        ensures { IsFalse result → IsTrue self.now.counts.under → self.now.rows ≤ self.now.counts.live }
    {
        self.counts.under && self.rows > self.counts.live
    }

    /// How lines stand in the place of the live rows, if those that stay can be left; else all lines are painted.
    fn room_for(&self, next: &Counts, lines: &[StandingLine], width: usize) -> Option<Room>
        requires { self.now.rows ≡ placed_height (placed lines.now) }
        ensures { IfSome result (λ room. HasRoom self.now.counts self.now.failed self.now.width next.now width lines.now × IsWithin lines.now self.now.counts.live room) }
    {
        if self.failed || self.counts.below || next.below || self.goes_further() {
            return None;
        }
        if self.width != width || width > 65535 {
            return None;
        }
        lines_within(lines, self.rows, self.counts.live)
    }

    /// How the lines of a draw are written, which goes on with these counts: as `chosen` says.
    #[inline(always)]
    fn writing(&self, fresh: Fresh, next: &Counts, lines: &[StandingLine], width: usize) -> Writing
        requires { self.now.rows ≡ placed_height (placed lines.now) }
        ensures { IsChosen self.now.counts self.now.failed self.now.width next.now lines.now
            (whole_writing self.now.counts self.now.failed fresh next.now width lines.now) result }
    {
        let whole = Writing {
            anew: self.failed,
            fresh,
            below: self.counts.below,
            taken: self.counts.live,
            manner: Manner::Among(0),
            width,
            ends_below: next.below,
            fill: next.fill(last_column(lines), width),
        };
        self.chosen(whole, next, lines)
    }

    /// How lines are written that may be written whole: over the live rows, among those that stay, or whole.
    fn chosen(&self, whole: Writing, next: &Counts, lines: &[StandingLine]) -> Writing
        requires { self.now.rows ≡ placed_height (placed lines.now) }
        ensures { IsChosen self.now.counts self.now.failed self.now.width next.now lines.now whole result }
    {
        let mut writing = whole;
        if self.can_move(next, lines, whole.width) {
            writing.fresh = Fresh::none();
            writing.taken = 0;
            writing.manner = Manner::Over(whole.taken);
            writing.fill = 0;
        } else if let Some(room) = self.room_for(next, lines, whole.width) {
            writing.fresh = Fresh::none();
            writing.taken = room.free;
            writing.manner = Manner::Among(room.lines);
            writing.fill = fill_behind(&lines[room.lines..], whole.width);
        }
        writing
    }
}

/// How many drawings have changed lines since all were written as a whole, behind one that this frame is laid out for. Where a line leaves
/// colours open, which it does only in a whole drawing, they are those of the lines below it, too, so the next drawing is whole.
fn drawings_behind(drawings: usize, laid: &Laid) -> usize {
    if laid.at == 0 {
        return if laid.leaves_open { MOST_DRAWINGS } else { 0 };
    }
    if laid.changed.is_empty() && laid.more.is_empty() {
        return drawings;
    }
    drawings.saturating_add(1)
}

/// The same behind a text that was written above the lines.
fn drawings_below(drawings: usize, logged: Logged<'_>) -> usize {
    if logged.leaves_open() {
        MOST_DRAWINGS
    } else {
        drawings
    }
}

/// What becomes of a bar of which the first of these lines isn't: whether one is.
fn behind_or_absent(lines: &[StandingLine], bar: u64) -> Keep
    ensures { result ≡ (if list_any (λ l. l.bar == bar) lines.now then Keep.Behind else Keep.Absent) }
{
    if has_line(lines, bar) {
        Keep::Behind
    } else {
        Keep::Absent
    }
}

/// Whether some of these lines are of this bar.
fn has_line(lines: &[StandingLine], bar: u64) -> bool
    ensures { result ≡ list_any (λ l. l.bar == bar) lines.now }
{
    lines.iter().any(|line| line.bar == bar)
}

/// The counts and the lines of what stands there, cut anew.
#[derive(Drop)]
struct CutDrawing {
    counts: Counts,
    shown: Remembered,
}
