//! A bar with several owners.
//!
//! `ProgressBar` is here: the calls that change it (position, length, texts, style, times), finish it, draw it, log above it, set its
//! target or tell its owners; and what a wrapper calls of it (`Moves`). The modules below are private. What a program calls:
//!
//! - `constructors`: bars are made: in the style of a bar, of a spinner or another, on a target or hidden.
//! - `builders`: `with_style`, `with_position` and the like set up a shared bar before it moves.
//! - `readings`: a bar's position, length, texts, style, rate and times; whether it is finished or hidden; its terminal is lent.
//! - `beside`: `println_or`, lines above bars, or to a writer where these are hidden.
//! - `told`: `tell_line`, a hidden bar as a plain line.
//! - `wrapped`: `wrap_iter`, `wrap_read` and the like, wrappers that move a shared bar; `with_style` and the like of these.
//! - `steady`: the thread that ticks a bar is started and stopped.
//! - `counting`: `worker` and `absorb`, for threads that count without the lock.
//! - `weak`: `WeakProgressBar`, a reference that doesn't own its bar, and may give another owner.
//! - `multi`: `MultiProgress`, several bars on one target: a board is made; bars are made on it, inserted, removed; texts above them,
//!   clears, alignment, target; its terminal is lent, and its history to a `RecordReader`.
//! - `unlocked`: `into_inner` takes a bar or a board out of its lock (`UnlockedBar`, `UnlockedBoard`).
//!
//! What is under the lock of a bar:
//!
//! - `shared_bar`: `SharedBar`, the lock of a bar: a call waits there while the bar is in a pause, or, with the bar unlocked, while its board
//!   is in one; `suspend` of a bar.
//! - `request`: `Tried`, a call that was made, or has to be tried again.
//! - `locked_bar`: `LockedBar`, what the lock protects: the bar, its clock, ticker and owners, and a pause, which begins and ends there.
//!   What each call does, also another target or board; rate and times at the moment of the clock. In its folder `told`: its plain line.
//! - `any_bar`: `AnyBar`, the bar there, alone or on a board: its state, texts, style and terminal, as readings find them, and what a board
//!   may insert of it.
//! - `member_bar`: `MemberBar`, a board's bar: its changes, its moves (also as a `SeekMax` says) and its draws are made by the board, which it
//!   may leave.
//! - `position_change`: `PositionChange`, how the position moves: as a command of a board's bar, or as a call of a bar that stands alone.
//! - `ticker`: `Ticker`, whether a steady ticker is installed, and its number.
//!
//! What is under the lock of a board:
//!
//! - `board_cell`: `BoardCell`, the lock of a board: a call waits there while the board is in a pause; `suspend` of a board.
//! - `pause`: `Pause`, one that has begun.
//! - `locked_board`: `LockedBoard`, what the lock protects: the board, its clock, and a pause, which begins and ends there.
//! - `any_board`: `AnyBoard`, the board there, with its history or without: each call for either, such as a bar that is inserted or
//!   removed; an insertion's answer as the bar's `BarId` or a refusal.
ghost use Rattle.std.specs.Prelude.{ℕ, IfErr};
ghost use Rattle.std.specs.Fn.{FnOnceReturnsAt};
ghost use Rattle.indicatif_bar.specs.Commands as Command;
ghost use Rattle.indicatif_bar.specs.Finishes as Finish;
ghost use Rattle.indicatif_bar.specs.Lone as Lone;
ghost use Rattle.indicatif_bar.specs.LoneBars.{lone_call_as};
ghost use Rattle.indicatif.specs.Fronts.{CanAnswer, CanDraw, CanMove, CanTurn, CanUpdate, IsMissing, MemoryOrForeign};
ghost use Rattle.indicatif.specs.Inside.LockedBar.{OwnerJoins};
ghost use Rattle.indicatif.specs.Inside.PositionChange.{position_command};

mod any_bar;
mod any_board;
mod beside;
mod board_cell;
mod builders;
mod constructors;
mod counting;
mod locked_bar;
mod locked_board;
mod member_bar;
mod multi;
mod pause;
mod position_change;
mod readings;
mod request;
mod shared_bar;
mod steady;
mod ticker;
mod told;
mod unlocked;
mod weak;
mod wrapped;

pub use self::beside::written_if_hidden;
use self::board_cell::{BoardCell, SharedBoard};
pub use self::multi::{MultiProgress, RecordReader};
use self::position_change::PositionChange;
use self::request::Tried;
use self::shared_bar::{SharedBar, wait_for_board};
pub use self::unlocked::{UnlockedBar, UnlockedBoard};
pub use self::weak::WeakProgressBar;
use crate::wrappers::moves::Moves;
use crate::wrappers::seek::SeekMax;
use indicatif_bar::lone::LoneCall;
use indicatif_bar::state::{BarCommand, Change, ProgressFinish, ProgressState};
use indicatif_bar::style::{NoTracker, ProgressStyle, Tracks};
use indicatif_board::multi::{BarId, InsertLocation};
use indicatif_term::target::{ProgressDrawTarget, TermLike};
use indicatif_text::columns::{Clock, Drawn, Refusal};
use std::alloc::{AllocError, Global};
use std::fmt::{self, Debug, Formatter};
use std::sync::{Arc, Wait};

/// One owner of a bar that others may own too, in this thread or in others: a clone is another owner of the same bar.
///
/// Each call locks the bar, makes the same call of the `LoneBar` in it, at the moment of the bar's clock, and returns its answer; what a
/// call does and refuses is described there. A call waits while another owner's call is made. Inside the closure of an `update` or a
/// `with_term` each call of the same bar, or of any bar of its board, deadlocks; inside that of a `suspend` readings answer, and a call
/// that draws or changes one of these bars deadlocks.
///
/// Once the last owner is gone, by `release` or by being dropped, a bar that isn't finished is finished by its stored finish.
///
/// Texts are borrowed: the bar's record copies its message and its prefix, and the lines above a bar aren't copied. A bar on a board
/// answers as the board does when it makes that call of the bar; so each command may be refused `NotMember` there, if the board has lost
/// the bar to another board with the same mark. If the board keeps its history, each may be refused `Memory` because the history has no
/// room, or no room for a copy of the text; then nothing has changed.
///
/// The clauses say which answers a call can give, by the call alone. No other answer comes; they also allow `ForeignBar`, which a bar's own
/// board never gives. That the bar under the lock changes accordingly is tested, not proved: no clause can name what a lock protects.
///
/// ```
/// let bar = ProgressBar::new(rt, rt.alloc(), 100, setup)?;
/// let other = bar.clone()?; // for another thread
/// bar.inc(1)?;
/// ```
pub struct ProgressBar<
    T: TermLike + Drop,
    C: Clock + Drop,
    R: Wait + Clone + Drop,
    K: Tracks = NoTracker,
> {
    pub(crate) state: Arc<SharedBar<K, T, C>, Global>,
    pub(crate) alloc: Global,
    pub(crate) rt: R,
}

impl<T: TermLike + Drop, C: Clock + Drop, R: Wait + Clone + Drop, K: Tracks> ProgressBar<
    T,
    C,
    R,
    K,
> {
    /// Makes a call of the bar, once neither the bar nor its board is in a pause. Its text is borrowed: only the bar's record copies it,
    /// and the history of a board that keeps one.
    #[tactic(auto, using(crate::proofs::FrontLemmas::place_answers))]
    fn tell(&self, call: LoneCall<K, &str>) -> Result<Drawn, Refusal>
        ensures { CanAnswer K (lone_call_as (λ text. text.now) call.entry) result }
    {
        let mut left = call;
        for _ in self.rt.forever() {
            let mut locked = self.state.turn(&self.rt);
            match locked.tell(&self.rt, left) {
                Tried::Made(answer) => return answer,
                Tried::ComeAgain(again) => left = again,
            }
            wait_for_board(&self.rt, locked);
        }
        unreachable!()
    }

    /// Changes the bar's position. The lock is usually free, and there is usually no pause: two comparisons find that.
    #[inline(always)]
    #[tactic(auto, using(crate::proofs::FrontLemmas::place_answers))]
    fn move_by(&self, change: PositionChange) -> Result<Drawn, Refusal>
        ensures { CanAnswer K (Lone.Obey (position_command change)) result }
    {
        if let Some(mut locked) = self.state.lock.try_lock() {
            match locked.move_by(&self.rt, change) {
                Tried::Made(answer) => return answer,
                Tried::ComeAgain(()) => {}
            }
        }
        self.move_in_turn(change)
    }

    /// Changes the bar's position once the lock is free and no pause is on.
    #[inline(never)]
    fn move_in_turn(&self, change: PositionChange) -> Result<Drawn, Refusal>
        ensures { CanAnswer K (Lone.Obey (position_command change)) result }
    {
        self.tell(LoneCall::Bar(change.command()))
    }

    /// Ticks once more, up to 2^64 - 1, and asks for a draw: a spinner shows its next text. While a steady ticker is on, nothing changes.
    pub fn tick(&self) -> Result<Drawn, Refusal>
        ensures { CanAnswer K (Lone.Obey Command.Tick) result }
    {
        self.tell(LoneCall::Bar(BarCommand::Tick))
    }

    /// Adds `delta` to the position, modulo 2^64. Also ticks, as often as the position's limiter allows: 10 times at once, and once more
    /// each millisecond. So a loop may call it at each of its steps. A position past the length is shown as it is, `8/5`, beside a full
    /// bar.
    #[inline(always)]
    pub fn inc(&self, delta: u64) -> Result<Drawn, Refusal>
        ensures { CanAnswer K (Lone.Obey (Command.Inc delta)) result }
    {
        self.move_by(PositionChange::Up(delta))
    }

    /// Subtracts `delta` from the position, modulo 2^64; otherwise as `inc`. So 12 taken from 0 give 2^64 - 12, and the bar shows
    /// that number: a program that may go below 0 looks at `position` first. A lower position restarts the rate.
    #[inline(always)]
    pub fn dec(&self, delta: u64) -> Result<Drawn, Refusal>
        ensures { CanAnswer K (Lone.Obey (Command.Dec delta)) result }
    {
        self.move_by(PositionChange::Down(delta))
    }

    /// Sets the position; otherwise as `inc`. A lower position restarts the rate.
    #[inline(always)]
    pub fn set_position(&self, position: u64) -> Result<Drawn, Refusal>
        ensures { CanAnswer K (Lone.Obey (Command.SetPosition position)) result }
    {
        self.move_by(PositionChange::To(position))
    }

    /// Sets the length, and asks for a draw: `{bar}`, `{percent}` and `{eta}` follow it.
    pub fn set_length(&self, len: u64) -> Result<Drawn, Refusal>
        ensures { CanAnswer K (Lone.Obey (Command.SetLength len)) result }
    {
        self.tell(LoneCall::Bar(BarCommand::SetLength(len)))
    }

    /// Removes the length, and asks for a draw: the bar is empty, `{len}` shows the position, and `{eta}` is 0.
    pub fn unset_length(&self) -> Result<Drawn, Refusal>
        ensures { CanAnswer K (Lone.Obey Command.UnsetLength) result }
    {
        self.tell(LoneCall::Bar(BarCommand::UnsetLength))
    }

    /// Adds `delta` to the length, up to 2^64 - 1, if there is one; and asks for a draw.
    pub fn inc_length(&self, delta: u64) -> Result<Drawn, Refusal>
        ensures { CanAnswer K (Lone.Obey (Command.IncLength delta)) result }
    {
        self.tell(LoneCall::Bar(BarCommand::IncLength(delta)))
    }

    /// Subtracts `delta` from the length, down to 0, if there is one; and asks for a draw.
    pub fn dec_length(&self, delta: u64) -> Result<Drawn, Refusal>
        ensures { CanAnswer K (Lone.Obey (Command.DecLength delta)) result }
    {
        self.tell(LoneCall::Bar(BarCommand::DecLength(delta)))
    }

    /// Sets the message, and asks for a draw. It shows only where the template has `{msg}` or `{wide_msg}`: the template of `new` has
    /// neither. Once the bar is finished, its draws are forced: then no rate holds the message back.
    pub fn set_message(&self, text: &str) -> Result<Drawn, Refusal>
        ensures { CanAnswer K (Lone.Obey (Command.SetMessage text.now)) result }
    {
        self.tell(LoneCall::Bar(BarCommand::SetMessage(text)))
    }

    /// Sets the prefix, and asks for a draw. It shows only where the template has `{prefix}`.
    pub fn set_prefix(&self, text: &str) -> Result<Drawn, Refusal>
        ensures { CanAnswer K (Lone.Obey (Command.SetPrefix text.now)) result }
    {
        self.tell(LoneCall::Bar(BarCommand::SetPrefix(text)))
    }

    /// Sets the style, and gives it the bar's tab width. Asks for no draw: the next one is in this style.
    ///
    /// Refused: `Memory`; the style is given up.
    pub fn set_style(&self, style: ProgressStyle<K>) -> Result<Drawn, Refusal>
        ensures { CanAnswer K (Lone.Obey (Command.SetStyle style)) result }
    {
        self.tell(LoneCall::Bar(BarCommand::SetStyle(style)))
    }

    /// Sets how many spaces a tab has in the message, the prefix and the style, and forces a draw.
    pub fn set_tab_width(&self, tab: usize) -> Result<Drawn, Refusal>
        ensures { CanAnswer K (Lone.Obey (Command.SetTabWidth tab)) result }
    {
        self.tell(LoneCall::Bar(BarCommand::SetTabWidth(tab)))
    }

    /// Sets the time since the start, in nanoseconds, as `{elapsed}` shows it: for work that began before the bar. Asks for no draw.
    ///
    /// Refused: `ElapsedBeyondClock`, if that is more than the moment.
    pub fn set_elapsed(&self, nanos: u64) -> Result<Drawn, Refusal>
        ensures { CanAnswer K (Lone.Obey (Command.SetElapsed nanos)) result }
    {
        self.tell(LoneCall::Bar(BarCommand::SetElapsed(nanos)))
    }

    /// Counts the rate, and the time that is left, from now on: for instance after a pause. Asks for no draw.
    pub fn reset_eta(&self) -> Result<Drawn, Refusal>
        ensures { CanAnswer K (Lone.Obey Command.ResetEta) result }
    {
        self.tell(LoneCall::Bar(BarCommand::ResetEta))
    }

    /// Counts the rate and the elapsed time from now on. Asks for no draw.
    pub fn reset_elapsed(&self) -> Result<Drawn, Refusal>
        ensures { CanAnswer K (Lone.Obey Command.ResetElapsed) result }
    {
        self.tell(LoneCall::Bar(BarCommand::ResetElapsed))
    }

    /// Sets the position to 0, counts rate and time from now on, and asks for a draw.
    pub fn reset(&self) -> Result<Drawn, Refusal>
        ensures { CanAnswer K (Lone.Obey Command.Reset) result }
    {
        self.tell(LoneCall::Bar(BarCommand::Reset))
    }

    /// Finishes the bar at its length, if it has one, and forces a draw: the bar stays on the screen. Each draw that it asks for from then
    /// on is forced too, so no rate holds it back.
    pub fn finish(&self) -> Result<Drawn, Refusal>
        ensures { CanAnswer K (Lone.Obey (Command.Finish Finish.AndLeave)) result }
    {
        self.tell(LoneCall::Bar(BarCommand::Finish(ProgressFinish::AndLeave)))
    }

    /// Finishes the bar as `finish`, with this message, which shows only where the template has `{msg}` or `{wide_msg}`.
    pub fn finish_with_message(&self, text: &str) -> Result<Drawn, Refusal>
        ensures { CanAnswer K (Lone.Obey (Command.Finish (Finish.WithMessage text.now))) result }
    {
        self.tell(LoneCall::Bar(BarCommand::Finish(ProgressFinish::WithMessage(text))))
    }

    /// Finishes the bar at its length, if it has one, and forces a draw: the bar leaves the screen, and has no more lines.
    pub fn finish_and_clear(&self) -> Result<Drawn, Refusal>
        ensures { CanAnswer K (Lone.Obey (Command.Finish Finish.AndClear)) result }
    {
        self.tell(LoneCall::Bar(BarCommand::Finish(ProgressFinish::AndClear)))
    }

    /// Finishes the bar where it is, for work that is given up, and forces a draw: the bar stays on the screen.
    pub fn abandon(&self) -> Result<Drawn, Refusal>
        ensures { CanAnswer K (Lone.Obey (Command.Finish Finish.Abandon)) result }
    {
        self.tell(LoneCall::Bar(BarCommand::Finish(ProgressFinish::Abandon)))
    }

    /// Finishes the bar as `abandon`, with this message.
    pub fn abandon_with_message(&self, text: &str) -> Result<Drawn, Refusal>
        ensures { CanAnswer K (Lone.Obey (Command.Finish (Finish.AbandonWithMessage text.now))) result }
    {
        self.tell(LoneCall::Bar(BarCommand::Finish(ProgressFinish::AbandonWithMessage(text))))
    }

    /// Finishes the bar by its stored finish (`with_finish`; the default is `AndClear`), and forces a draw.
    pub fn finish_using_style(&self) -> Result<Drawn, Refusal>
        ensures { CanAnswer K (Lone.Obey Command.FinishUsingStyle) result }
    {
        self.tell(LoneCall::Bar(BarCommand::FinishUsingStyle))
    }

    /// Forces a draw, and changes nothing of the bar.
    pub fn force_draw(&self) -> Result<Drawn, Refusal>
        ensures { CanAnswer K (Lone.Obey Command.ForceDraw) result }
    {
        self.tell(LoneCall::Bar(BarCommand::ForceDraw))
    }

    /// Makes the changes that the closure returns for the bar's state; then as `tick`. The closure is called under the lock, and not at all
    /// if the board hasn't the bar: that is refused, and no history keeps it. A call of this bar inside it, or of any bar of its board,
    /// deadlocks.
    pub fn update<F: FnOnce(&ProgressState) -> Change>(&self, f: F) -> Result<Drawn, Refusal>
        requires { F.IsAlwaysCallable f }
        ensures { CanUpdate K (FnOnceReturnsAt F.FnOnce f) result }
    {
        self.state.update(&self.rt, f)
    }

    /// Writes the text's lines above the bar, whatever the rate says; the bar goes on below them. On a hidden target the text is dropped:
    /// if `is_hidden` says so, print it yourself.
    pub fn println(&self, text: &str) -> Result<Drawn, Refusal>
        ensures { CanAnswer K (Lone.Log text.now) result }
    {
        self.tell(LoneCall::Log(text))
    }

    /// Clears the bar's rows (on a board the rows of all bars), calls `f` once, and forces a draw, at the moment of the clear. It returns
    /// what `f` returned, and the answer of the draw. If the clear was refused, `f` is still called, no draw is made, and the answer is
    /// that refusal.
    ///
    /// It is a pause of the bar, or of its board (`MultiProgress::suspend`). Meanwhile readings answer, also inside `f`. A call that draws,
    /// or changes a bar, waits for the end of the pause: a call from another thread goes on then; one inside `f`, of this bar or of any bar
    /// of its board, deadlocks.
    ///
    /// ```
    /// let (position, drawn) = bar.suspend(move || other.position()); // another owner of the bar
    /// ```
    pub fn suspend<F: FnOnce() -> A, A>(&self, f: F) -> (A, Result<Drawn, Refusal>)
        requires { F.pre f }
        ensures value { F.post f result.0 }
        ensures drawn { CanDraw result.1 }
    {
        self.state.suspend(&self.rt, f)
    }

    /// Sets the target. The bar begins there with its next draw, and the old target is dropped. If the bar stands alone, nothing is
    /// written to either target, and the answer is `Limited`. A board's bar leaves its board and stands alone afterwards. A forced draw
    /// shows the board's other bars, and its answer is returned.
    ///
    /// Refused: as a removal, and `NotMember` if the board hasn't the bar. Then the bar keeps its place, and the new target is dropped.
    pub fn set_draw_target(&self, target: ProgressDrawTarget<T>) -> Result<Drawn, Refusal>
        ensures { CanTurn result }
    {
        self.state.set_draw_target(&self.rt, target)
    }

    /// Clears the bar's rows and sets the target, in one call: no other thread draws on the old target in between, and nothing of the bar
    /// stays there. If the bar stands alone, the answer is that of the clear; whatever it is, the bar stands on the new target. A board's
    /// bar leaves its board, as by `set_draw_target`.
    ///
    /// ```
    /// bar.move_to(ProgressDrawTarget::hidden())?; // the bar is gone from the terminal
    /// ```
    ///
    /// Refused: as a clear; on a board as `set_draw_target`, and then the bar keeps its place.
    pub fn move_to(&self, target: ProgressDrawTarget<T>) -> Result<Drawn, Refusal>
        ensures { CanMove result }
    {
        self.state.move_to(&self.rt, target)
    }

    /// Drops this owner. If it is the last one and the bar isn't finished, the stored finish ends the bar.
    pub fn release(self) {
        drop(self);
    }

    /// The bar's number on its board; `None` if it stands alone.
    pub(crate) fn id(&self) -> Option<BarId> {
        self.state.lock.lock(&self.rt).bar().id()
    }

    /// Inserts the bar on a board.
    pub(crate) fn take_in(
        &self,
        board: SharedBoard<K, T, C>,
        at: InsertLocation,
    ) -> Result<(), Refusal>
        ensures { IfErr result IsMissing }
    {
        let mut locked = self.state.turn(&self.rt);
        locked.take_in(&self.rt, board, at, self.alloc)
    }

    /// Removes the bar from a board.
    pub(crate) fn take_out(&self, board: &BoardCell<K, T, C>) -> Result<(), Refusal>
        ensures { IfErr result MemoryOrForeign }
    {
        self.state.turn(&self.rt).take_out(&self.rt, board)
    }

    /// Counts one more owner of this bar, under its lock.
    fn counted(&self) -> bool
        ensures { (before : ℕ) × (now : ℕ) × OwnerJoins result before now }
    {
        self.state.lock.lock(&self.rt).join()
    }
}

/// Another owner of the same bar. Refused: want of memory, or 2^64 - 1 owners.
impl<T: TermLike + Drop, C: Clock + Drop, R: Wait + Clone + Drop, K: Tracks> Clone
    for ProgressBar<T, C, R, K> {
    fn clone(&self) -> Result<ProgressBar<T, C, R, K>, AllocError> {
        let rt = self.rt.clone()?;
        let state = Arc::try_clone(&self.state)?;
        if self.counted() {
            Ok(ProgressBar {
                state,
                alloc: self.alloc,
                rt,
            })
        } else {
            Err(AllocError)
        }
    }
}

impl<T: TermLike + Drop, C: Clock + Drop, R: Wait + Clone + Drop, K: Tracks> Drop
    for ProgressBar<T, C, R, K> {
    fn drop(self) {
        let ProgressBar { state, alloc, rt } = self;
        let _ = alloc;
        let last = state.release(&rt);
        if last {
            state.changed.notify_all();
        }
    }
}

impl<T: TermLike + Drop, C: Clock + Drop, R: Wait + Clone + Drop, K: Tracks> Debug
    for ProgressBar<T, C, R, K> {
    fn fmt<W: fmt::Write>(&self, f: &mut Formatter<W>) -> fmt::Result {
        f.write_str("ProgressBar")
    }
}

/// Its position can't be read in contracts, as other owners may move it meanwhile.
impl<T: TermLike + Drop, C: Clock + Drop, R: Wait + Clone + Drop, K: Tracks> Moves
    for ProgressBar<T, C, R, K> {
    #[inline(always)]
    fn advance(&mut self, n: u64) -> Result<Drawn, Refusal> {
        self.inc(n)
    }

    #[inline(always)]
    fn place(&mut self, place: u64) -> Result<Drawn, Refusal> {
        self.set_position(place)
    }

    fn finish(&mut self) -> Result<Drawn, Refusal> {
        self.finish_using_style()
    }

    #[tactic(auto, using(crate::proofs::PlacedLemmas::untold_placed))]
    fn place_after(&self, seeks: &mut SeekMax<5, 10>, n: u64) -> Option<Result<Drawn, Refusal>> {
        Some(self.state.place_after(&self.rt, seeks, n))
    }

    /// Yes: a shared bar may stop within a block, since its position can't be read in contracts.
    fn stops_within_blocks(&self) -> bool {
        true
    }

    fn position(&self) -> u64 {
        self.position()
    }

    fn finished(&self) -> bool {
        self.is_finished()
    }
}
