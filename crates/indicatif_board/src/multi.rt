//! A board: several bars on one target, in an order.
//!
//! `Board` is here: its making, its bars and their order, its target, commands of a bar, texts above the bars, clears and draws. The
//! modules below are private:
//!
//! - `insertions`: how bars enter the order: at an index, before or after another.
//! - `leaving`: how bars leave it: removed, or dropped by their owner; whether their rows are kept.
//! - `runs`: its calls as values, one (`apply`, `call`) or a list (`run`).
ghost use Rattle.std.specs.Prelude.{◌≡◌, ◌≢◌, ◌==◌, ◌↔◌, ◌⊎◌, ◌<◌, ◌∷◌, [], ℕ, Bool, Option, Some, None, Ok, Err, is_some, false, option_map, IsTrue, IsFalse, IfOk, IfErr, IfSome, MatchResult, OnErr, if◌then◌else◌};
ghost use Rattle.std.specs.VecDeque.{deque_len};
ghost use Rattle.indicatif_term.specs.Lists.{opening_lists};
ghost use Rattle.indicatif_term.specs.Target.{is_bottom, term_of, limiter_of};
ghost use Rattle.indicatif_bar.specs.Commands.{BarRecord, command_as, command_of, is_beyond_clock};
ghost use Rattle.indicatif_bar.specs.Machines.{target_of};
ghost use Rattle.indicatif_bar.specs.Runs.{wrote};
ghost use Rattle.indicatif_bar.specs.Shown.{DrewOn};
ghost use Rattle.indicatif_bar.specs.Stages.{writing_as};
ghost use Rattle.indicatif_board.specs.BoardBars.{board_bars};
ghost use Rattle.indicatif_board.specs.Boards.{BoardState, Tell, Log, BarLog, Clear, Redraw, Align, Accepted, opening_board, says, turned_away, draw_of, board};
ghost use Rattle.indicatif_board.specs.BarIds.{id_of};
ghost use Rattle.indicatif_board.specs.Members.{order_of, said_of};
ghost use Rattle.indicatif_board.specs.Slots.{slot_of, occurrences, IsSeated};
ghost use Rattle.indicatif_board.specs.Inside.ShownBars.{HasPlace, named_laid_out, named_layout_takes};
ghost use Rattle.indicatif_board.specs.Inside.Standing.{is_of_draw, StandsAt};

mod insertions;
mod leaving;
mod runs;

pub use crate::bar_id::BarId;
pub use crate::calls::{Answer, Call, Candidate, InsertLocation, Turned};
use crate::in_window::{bars_in_window, put};
use crate::members::{leading, take_front};
pub use crate::receipts::Receipt;
pub use crate::recorded::{Entry, Opening, Recorded, Size};
use crate::shown_bars::ShownBars;
pub use crate::slots::MultiState;
use indicatif_bar::stage::{Stage, Writing};
use indicatif_bar::state::{Ask, BarCommand, BarState, Text};
use indicatif_bar::style::Tracks;
use indicatif_term::target::{
    MultiProgressAlignment, ProgressDrawTarget, Resize, Segment, TermLike,
};
use indicatif_text::columns::{Drawn, Moment, Refusal};
use std::alloc::Global;

/// Several bars on one target, a terminal or none, in an order, with text above them.
///
/// Make it while the terminal's cursor is at the front of a row, with nothing in that row or below. The rows above that one stay as they
/// are; the text lines that were logged follow them, and the rows of bars that are gone; then come the bars. Nobody else may write to the
/// terminal while the board exists, and the bars' lines hold only printable characters and colour sequences.
///
/// A call that names a bar is refused with `ForeignBar` if the bar has another board's mark, and with `NotMember` if it was removed,
/// dropped or never given; then nothing has changed. (`remove` returns `None` in place of `NotMember`, and `slot` in place of both.)
/// Otherwise a call that draws goes through the steps that `LoneBar` lists, with the stored lines of all bars in their order in place of
/// its own. Only the named bar is laid out again, before the limiter decides. The lines from the top are shown that fit on the terminal's
/// rows. A draw that was answered with `Yes` removes the dropped bars at the head of the order. After `Terminal` no bar leaves the order,
/// and the next draw begins on a new row.
///
/// ```
/// let mut board: Board<NoTracker, _> = Board::new(alloc, ProgressDrawTarget::term_like(term), 1);
/// board.println("a.txt", now)?; // stands above the bars from now on
/// ```
pub struct Board<K, T: Drop> {
    mark: u64,
    shown: ShownBars<K>,
    stage: Stage<T>,
}

impl<K: Drop, T: Drop> Drop for Board<K, T> {
    fn drop(self) {
        let Board {
            mark: _,
            shown: _,
            stage: _,
        } = self;
    }
}

impl<K: Tracks, T: TermLike + Drop> Board<K, T> {
    ghost use Rattle.indicatif_board.specs.Multi.{IsIn, IsNowhere, Keeps, mark_of, record_at, RecordsStay, OtherRecordsStay, RecordObeys, SlotsLeft, HeadHasRecord, LeadsBy, Suspends, known, moves_of, slots_of, terminal_of};

    /// A board without bars on this target, with this mark. It takes no memory and writes nothing.
    pub fn new(alloc: Global, target: ProgressDrawTarget<T>, mark: u64) -> Self
        ensures state { IsIn mark result (opening_board (limiter_of target)) }
        ensures mark { mark_of result ≡ mark }
        ensures records { (number : ℕ) → record_at number result ≡ None }
        ensures terminal { terminal_of result ≡ term_of target }
        ensures moves { IfSome (moves_of result) (λ moves. moves ≡ false) }
    {
        Board {
            mark,
            shown: ShownBars::new(alloc),
            stage: Stage::new(alloc, target),
        }
    }

    /// The board's terminal; `None` if the target is hidden.
    pub fn term(&self) -> Option<&T>
        ensures { option_map (λ t. t.now) result ≡ terminal_of self.now }
    {
        self.stage.term()
    }

    /// Whether the board's target is hidden: nothing is drawn until another is set.
    pub fn is_hidden(&self) -> bool
        ensures { IsTrue result ↔ (terminal_of self.now ≡ None) }
    {
        self.stage.is_hidden()
    }

    /// The record of a bar of the board.
    ///
    /// Refused: `ForeignBar` or `NotMember`, as `Board` says.
    pub fn bar(&self, id: BarId) -> Result<&BarState<K>, Refusal>
        ensures foreign { id.mark ≢ mark_of self.now → result ≡ Err Refusal.ForeignBar }
        ensures turned { (mark : ℕ) (s : BoardState (BarRecord K)) → IsIn mark self.now s →
            MatchResult result (λ bar. turned_away mark (id_of id) s ≡ None) (λ e. turned_away mark (id_of id) s ≡ Some e) }
        ensures bar { (mark : ℕ) (s : BoardState (BarRecord K)) (other : BarRecord K) → IsIn mark self.now s →
            IfOk result (λ bar. bar.now ≡ said_of other (λ b. b) id.number s.members) }
        ensures record { id.mark ≡ mark_of self.now →
            MatchResult result (λ bar. record_at id.number self.now ≡ Some bar.now) (λ e. (e ≡ Refusal.NotMember) × (record_at id.number self.now ≡ None)) }
    {
        let at = self.find(id)?;
        Ok(self.shown.members[at].bar())
    }

    /// The bars' numbers in their order, from the top. A dropped bar stands there until it leaves. The board is in some state; the clauses
    /// of its calls hold for each state that it may be in.
    pub fn order(&self) -> &[u64]
        ensures some { (s : BoardState (BarRecord K)) × IsIn (mark_of self.now) self.now s }
        ensures order { (mark : ℕ) (s : BoardState (BarRecord K)) → IsIn mark self.now s → result.now ≡ order_of s.members }
        ensures slots { result.now ≡ (slots_of self.now).order }
        ensures seated { IsSeated (slots_of self.now) }
        ensures absent { (number : ℕ) → occurrences number result.now ≡ 0 → record_at number self.now ≡ None }
    {
        self.shown.table.order()
    }

    /// A bar's slot; `None` if it isn't in the order, or has another board's mark. No two bars in the order have the same slot, and a bar
    /// keeps its slot as long as it stands there (law `each_bar_stays_in_its_slot`). A new bar gets the slot that was freed last, or the
    /// first unused one.
    pub fn slot(&self, id: BarId) -> Option<usize>
        ensures { result ≡ (if id.mark == mark_of self.now then slot_of id.number (slots_of self.now) else None) }
    {
        if id.mark != self.mark {
            return None;
        }
        self.shown.table.slot(id.number)
    }

    /// Sets the board's target, and returns the old one. Nothing is written to either: the rows on the old one stay, and on the new one the
    /// bars begin with their next draw.
    pub fn set_draw_target(&mut self, target: ProgressDrawTarget<T>) -> ProgressDrawTarget<T>
        ensures old { term_of result ≡ terminal_of self.old }
        ensures old_limiter { (mark : ℕ) (s : BoardState (BarRecord K)) → IsIn mark self.old s → IfSome result (λ t. t.1 ≡ s.limiter) }
        ensures new { terminal_of self.new ≡ term_of target }
        ensures moves { IfSome (moves_of self.new) (λ moves. moves ≡ false) }
        ensures mark { mark_of self.new ≡ mark_of self.old }
        ensures slots { slots_of self.new ≡ slots_of self.old }
        ensures records { RecordsStay self.old self.new }
        ensures state { (mark : ℕ) (s : BoardState (BarRecord K)) → IsIn mark self.old s →
            IsIn mark self.new (record s { limiter = limiter_of target; lists = opening_lists }) }
    {
        let alloc = self.shown.alloc;
        self.stage.set_draw_target(alloc, target)
    }

    /// Sets whether draws write their lines over the old ones, by cursor moves alone, if that shows the same: `Engine::set_move_cursor`
    /// says when. It writes nothing. On a hidden target this does nothing, and another target begins with it off.
    ///
    /// ```
    /// board.set_move_cursor(true); // for a terminal that flickers where rows are emptied
    /// ```
    pub fn set_move_cursor(&mut self, on: bool)
        ensures terminal { terminal_of self.new ≡ terminal_of self.old }
        ensures moves { IfSome (moves_of self.new) (λ moves. moves ≡ on) }
        ensures mark { mark_of self.new ≡ mark_of self.old }
        ensures slots { slots_of self.new ≡ slots_of self.old }
        ensures records { RecordsStay self.old self.new }
        ensures state { (mark : ℕ) (s : BoardState (BarRecord K)) → IsIn mark self.old s → IsIn mark self.new s }
    {
        self.stage.set_move_cursor(on);
    }

    /// Sets whether the next draws put the bars at the top or at the bottom of the rows that they clear.
    pub fn set_alignment(&mut self, alignment: MultiProgressAlignment)
        ensures keeps { Keeps T.view false self.old self.new }
        ensures leads { (now : ℕ) → LeadsBy K.means T.view self.old self.new (Align (is_bottom alignment)) now Accepted }
        ensures slots { slots_of self.new ≡ slots_of self.old }
        ensures records { RecordsStay self.old self.new }
    {
        self.shown.alignment = alignment;
    }

    /// Makes a command of a bar, whose text may be borrowed, and the draw that it asks for.
    ///
    /// ```
    /// board.tell(id, BarCommand::SetMessage("copying"), now)?; // no copy of the text is made but the record's
    /// ```
    ///
    /// Refused: `ForeignBar`, `NotMember`, `NoColumns`, `TooWide`, `Terminal` or `Memory`, as `Board` says; and `ElapsedBeyondClock`, if
    /// the command sets an elapsed time that is more than the moment: then nothing has changed.
    pub fn tell<S: Text>(
        &mut self,
        id: BarId,
        command: BarCommand<K, S>,
        now: Moment,
    ) -> Result<Drawn, Refusal>
        ensures keeps { Keeps T.view (wrote result) self.old self.new }
        ensures leads { LeadsBy K.means T.view self.old self.new (Tell (id_of id) (command_as S.bytes command)) now (says result) }
        ensures foreign { id.mark ≢ mark_of self.old → (result ≡ Err Refusal.ForeignBar) × (self.new ≡ self.old) }
        ensures not_member { id.mark ≡ mark_of self.old → (result ≡ Err Refusal.NotMember) ↔ (record_at id.number self.old ≡ None) }
        ensures beyond { id.mark ≡ mark_of self.old → IsTrue (is_some (record_at id.number self.old)) →
            (result ≡ Err Refusal.ElapsedBeyondClock) ↔ IsTrue (is_beyond_clock (command_as S.bytes command) now) }
        ensures unchanged { result ≡ Err Refusal.NotMember → self.new ≡ self.old }
        ensures untouched { result ≡ Err Refusal.ElapsedBeyondClock → RecordsStay self.old self.new }
        ensures record { id.mark ≡ mark_of self.old → RecordObeys K.means id.number (command_as S.bytes command) now result self.old self.new }
        ensures slots { SlotsLeft self.old self.new }
        ensures head { result ≡ Ok Drawn.Yes → HeadHasRecord self.new }
        ensures stay { result ≢ Ok Drawn.Yes → slots_of self.new ≡ slots_of self.old }
        ensures others { OtherRecordsStay id.number self.old self.new }
    {
        let at = self.find(id)?;
        let shown = &mut self.shown;
        let ask = shown.members[at].obey(command, now)?;
        self.draw(ask, Some(at), Writing::Frame, now)
    }

    /// Makes a command of a bar, as `tell`, with its own text.
    ///
    /// Refused: as `tell`.
    pub fn command(
        &mut self,
        id: BarId,
        command: BarCommand<K>,
        now: Moment,
    ) -> Result<Drawn, Refusal>
        ensures keeps { Keeps T.view (wrote result) self.old self.new }
        ensures leads { LeadsBy K.means T.view self.old self.new (Tell (id_of id) (command_of command)) now (says result) }
        ensures foreign { id.mark ≢ mark_of self.old → (result ≡ Err Refusal.ForeignBar) × (self.new ≡ self.old) }
        ensures not_member { id.mark ≡ mark_of self.old → (result ≡ Err Refusal.NotMember) ↔ (record_at id.number self.old ≡ None) }
        ensures beyond { id.mark ≡ mark_of self.old → IsTrue (is_some (record_at id.number self.old)) →
            (result ≡ Err Refusal.ElapsedBeyondClock) ↔ IsTrue (is_beyond_clock (command_of command) now) }
        ensures unchanged { result ≡ Err Refusal.NotMember → self.new ≡ self.old }
        ensures untouched { result ≡ Err Refusal.ElapsedBeyondClock → RecordsStay self.old self.new }
        ensures record { id.mark ≡ mark_of self.old → RecordObeys K.means id.number (command_of command) now result self.old self.new }
        ensures slots { SlotsLeft self.old self.new }
        ensures head { result ≡ Ok Drawn.Yes → HeadHasRecord self.new }
        ensures stay { result ≢ Ok Drawn.Yes → slots_of self.new ≡ slots_of self.old }
        ensures others { OtherRecordsStay id.number self.old self.new }
    {
        self.tell(id, command, now)
    }

    /// Writes the text's lines above the bars, whatever the rate says; the bars go on below them. A line is ended by `\n` or `\r\n`; an
    /// empty text is one empty line; tabs stay as they are. On a hidden target the text is dropped.
    ///
    /// Refused: `NoColumns`, `TooWide`, `Terminal` or `Memory`, as `Board` says; nothing of the text is kept.
    pub fn println(&mut self, text: &str, now: Moment) -> Result<Drawn, Refusal>
        ensures keeps { Keeps T.view (wrote result) self.old self.new }
        ensures leads { LeadsBy K.means T.view self.old self.new (Log text.now) now (says result) }
        ensures slots { SlotsLeft self.old self.new }
        ensures head { result ≡ Ok Drawn.Yes → HeadHasRecord self.new }
        ensures stay { result ≢ Ok Drawn.Yes → slots_of self.new ≡ slots_of self.old }
        ensures records { RecordsStay self.old self.new }
    {
        self.draw(Ask::Forced, None, Writing::TextAndFrame(text), now)
    }

    /// Writes lines of text above the bars, and lays out one bar's lines again.
    ///
    /// Refused: `ForeignBar`, `NotMember`, `NoColumns`, `TooWide`, `Terminal` or `Memory`, as `Board` says.
    pub fn bar_println(&mut self, id: BarId, text: &str, now: Moment) -> Result<Drawn, Refusal>
        ensures keeps { Keeps T.view (wrote result) self.old self.new }
        ensures leads { LeadsBy K.means T.view self.old self.new (BarLog (id_of id) text.now) now (says result) }
        ensures foreign { id.mark ≢ mark_of self.old → (result ≡ Err Refusal.ForeignBar) × (self.new ≡ self.old) }
        ensures not_member { id.mark ≡ mark_of self.old → (result ≡ Err Refusal.NotMember) ↔ (record_at id.number self.old ≡ None) }
        ensures unchanged { result ≡ Err Refusal.NotMember → self.new ≡ self.old }
        ensures slots { SlotsLeft self.old self.new }
        ensures head { result ≡ Ok Drawn.Yes → HeadHasRecord self.new }
        ensures stay { result ≢ Ok Drawn.Yes → slots_of self.new ≡ slots_of self.old }
        ensures records { RecordsStay self.old self.new }
    {
        let at = self.find(id)?;
        self.draw(Ask::Forced, Some(at), Writing::TextAndFrame(text), now)
    }

    /// Clears the bars' rows, whatever the rate says. The next draw shows the bars again, but for those that were dropped: rows that such
    /// bars left are erased for good, and dropped bars at the head of the order leave it. Takes no memory.
    ///
    /// Refused: `NoColumns` or `Terminal`, as `Board` says.
    pub fn clear(&mut self, now: Moment) -> Result<Drawn, Refusal>
        ensures keeps { Keeps T.view (wrote result) self.old self.new }
        ensures leads { LeadsBy K.means T.view self.old self.new Clear now (says result) }
        ensures slots { SlotsLeft self.old self.new }
        ensures head { result ≡ Ok Drawn.Yes → HeadHasRecord self.new }
        ensures stay { result ≢ Ok Drawn.Yes → slots_of self.new ≡ slots_of self.old }
        ensures records { RecordsStay self.old self.new }
    {
        self.draw(Ask::Forced, None, Writing::NoFrame, now)
    }

    /// Forces a draw of the bars as they were last laid out: what was set since without a draw, such as a style, isn't shown.
    ///
    /// Refused: `NoColumns`, `TooWide`, `Terminal` or `Memory`, as `Board` says.
    pub fn redraw(&mut self, now: Moment) -> Result<Drawn, Refusal>
        ensures keeps { Keeps T.view (wrote result) self.old self.new }
        ensures leads { LeadsBy K.means T.view self.old self.new Redraw now (says result) }
        ensures slots { SlotsLeft self.old self.new }
        ensures head { result ≡ Ok Drawn.Yes → HeadHasRecord self.new }
        ensures stay { result ≢ Ok Drawn.Yes → slots_of self.new ≡ slots_of self.old }
        ensures records { RecordsStay self.old self.new }
    {
        self.draw(Ask::Forced, None, Writing::Frame, now)
    }

    /// Clears the bars' rows, calls `f` once, which may write to the same terminal, and forces a draw, at the same moment. It returns what
    /// `f` returned, and the answer of the draw. If the clear was refused, `f` is still called, no draw is made, and the answer is that
    /// refusal.
    pub fn suspend<F: FnOnce() -> A, A>(&mut self, now: Moment, f: F) -> (A, Result<Drawn, Refusal>)
        requires { F.pre f }
        ensures value { F.post f result.0 }
        ensures nowhere { IsNowhere T.view self.old → IsFalse (wrote result.1) }
        ensures keeps { (written : Bool) × Keeps T.view written self.old self.new }
        ensures leads { Suspends K.means T.view self.old self.new now result.1 }
        ensures slots { SlotsLeft self.old self.new }
        ensures head { result.1 ≡ Ok Drawn.Yes → HeadHasRecord self.new }
        ensures records { RecordsStay self.old self.new }
    {
        let cleared = self.clear(now);
        let value = f();
        match cleared {
            Ok(_) => {
                let drawn = self.redraw(now);
                (value, drawn)
            }
            Err(e) => (value, Err(e)),
        }
    }

    /// A bar's place in the board's order.
    fn find(&self, id: BarId) -> Result<usize, Refusal>
        ensures foreign { id.mark ≢ mark_of self.now → result ≡ Err Refusal.ForeignBar }
        ensures found { (mark : ℕ) (s : BoardState (BarRecord K)) → IsIn mark self.now s →
            MatchResult result (λ p. (turned_away mark (id_of id) s ≡ None) × HasPlace (Some id.number) (Some p) s.members) (λ e. turned_away mark (id_of id) s ≡ Some e) }
        ensures within { IfOk result (λ p. p < deque_len self.now.shown.members) }
        ensures quiet { IfErr result (λ e. IsFalse (wrote (Err e))) }
        ensures own { IfOk result (λ p. StandsAt id.number p self.now.shown) }
        ensures mine { IfOk result (λ _. id.mark ≡ mark_of self.now) }
        ensures absent { id.mark ≡ mark_of self.now → IfErr result (λ e. (e ≡ Refusal.NotMember) × (record_at id.number self.now ≡ None)) }
    {
        if id.mark != self.mark {
            return Err(Refusal::ForeignBar);
        }
        let at = self.shown.place(id.number);
        if at == self.shown.members.len() {
            return Err(Refusal::NotMember);
        }
        if self.shown.members[at].is_dropped() {
            return Err(Refusal::NotMember);
        }
        Ok(at)
    }

    /// Lays a bar out again, if one is named, and draws, if the call asks for it, the target isn't hidden and has columns, and its limiter
    /// allows it. Then the dropped bars at the head leave.
    fn draw(
        &mut self,
        ask: Ask,
        bar: Option<usize>,
        writing: Writing<'_>,
        now: Moment,
    ) -> Result<Drawn, Refusal>
        requires placed { IfSome bar (λ at. at < deque_len self.old.shown.members) }
        ensures keeps { Keeps T.view (wrote result) self.old self.new }
        ensures slots { SlotsLeft self.old self.new }
        ensures head { result ≡ Ok Drawn.Yes → HeadHasRecord self.new }
        ensures stay { result ≢ Ok Drawn.Yes → slots_of self.new ≡ slots_of self.old }
        ensures records { RecordsStay self.old self.new }
        ensures refusal { IfErr result (λ e. IsTrue (is_of_draw e)) }
        ensures drew { (mark : ℕ) (takes : Bool) (s : BoardState (BarRecord K)) (number : Option ℕ) → IsIn mark self.old s → HasPlace number bar s.members →
            let old = known T.view self.old in
            (next : BoardState (BarRecord K)) × IsIn mark self.new next × DrewOn (board (board_bars K.means) mark) old (known T.view self.new)
            (draw_of (target_of old) takes ask now (writing_as writing.entry) s (named_laid_out K.means (target_of old) now number s)
            (named_layout_takes K.means number s)) s.lists result next }
    {
        if ask.is_no() {
            return Ok(Drawn::Limited);
        }
        self.shown.note_place(bar);
        let Some(engine) = &mut self.stage.engine else {
            return Ok(Drawn::Hidden);
        };
        let width = engine.term().width();
        if width == 0 {
            return Err(Refusal::NoColumns);
        }
        self.shown.lay_out(bar, width, now)?;
        if !ask.allows(&mut self.stage.limiter, now) {
            return Ok(Drawn::Limited);
        }
        let shown = &mut self.shown;
        let gone = leading(&shown.members);
        let frame: &[Segment] = shown.frame.make_contiguous();
        let end = bars_in_window(engine, frame, gone, &writing);
        let alignment = shown.alignment;
        put(engine, &frame[..end], gone.min(end), alignment, writing)?;
        take_front(&mut shown.frame, gone);
        take_front(&mut shown.members, gone);
        shown.table.remove_first(gone);
        Ok(Drawn::Yes)
    }
}

impl<K: Tracks, T: Resize + Drop> Board<K, T> {
    ghost use Rattle.indicatif_bar.specs.Scripts.{IsAnotherSize, Size as NewSize, SizedOn, sized, Plays};
    ghost use Rattle.indicatif_term.specs.Resizes.{SizeTakes};
    ghost use Rattle.indicatif_board.specs.Multi.{IsIn, RecordsStay, board_sizing, known, mark_of, moves_of, slots_of, terminal_of};

    /// Tells the board that the terminal has `rows` rows and `cols` columns now, and how its rows are wrapped then: each by itself, never
    /// joined with another. It writes nothing; the next draw erases the bars' rows as they are then. On a hidden target this does nothing.
    /// The setting of `set_move_cursor` stays.
    ///
    /// ```
    /// board.println("hello", now)?;
    /// board.resize(4, 3)?; // it stands on two rows from now on: `hel`, `lo`
    /// ```
    ///
    /// Refused: `ZeroSize` if `rows` or `cols` is 0, also on a hidden target; `Memory`, never there, nor at the size that the terminal has.
    /// Then nothing has changed. On a terminal that takes no memory for a size, such as a `Term`, it comes only if kept rows or rows of the
    /// bars stand: not before the first draw, nor after a clear or a failure. A terminal in memory may be refused it at any other size.
    pub fn resize(&mut self, rows: u16, cols: u16) -> Result<(), Refusal>
        ensures plays { (mark : ℕ) (s : BoardState (BarRecord K)) → IsIn mark self.old s →
            let machine = board (board_bars K.means) mark in
            let next = sized machine (board_sizing K.means mark) cols rows (target_of (known T.view self.old)) s in
            IfOk result (λ _. IsIn mark self.new next
            × Plays machine (board_sizing K.means mark) (NewSize cols rows ∷ []) (known T.view self.old) s (known T.view self.new) next) }
        ensures sized { IfOk result (λ _. SizedOn cols rows (known T.view self.old) (known T.view self.new)) }
        ensures mark { mark_of self.new ≡ mark_of self.old }
        ensures records { RecordsStay self.old self.new }
        ensures slots { slots_of self.new ≡ slots_of self.old }
        ensures moves { moves_of self.new ≡ moves_of self.old }
        ensures hidden { terminal_of self.old ≡ None → self.new ≡ self.old }
        ensures unchanged { OnErr result (self.new ≡ self.old) }
        ensures zero_size { (result ≡ Err Refusal.ZeroSize) ↔ ((rows ≡ 0) ⊎ (cols ≡ 0)) }
        ensures no_other { IfErr result (λ e. (e ≡ Refusal.ZeroSize) ⊎ (e ≡ Refusal.Memory)) }
        ensures memory { result ≡ Err Refusal.Memory → IsAnotherSize cols rows (known T.view self.old) }
        ensures takes { result ≡ Err Refusal.Memory → (mark : ℕ) (s : BoardState (BarRecord K)) → IsIn mark self.old s → SizeTakes T.takes_memory s.lists }
    {
        self.stage.resize(rows, cols)
    }
}
