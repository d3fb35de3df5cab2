//! The commands of a bar: each as a value, and as a call of the bar's record.
ghost use Rattle.std.specs.Prelude.{◌≡◌, ◌<◌, ◌↔◌, ◌⊎◌, OnErr, IfOk, IfErr, IsTrue, IsFalse};
ghost use Rattle.std.specs.Fn.{FnOnceReturnsAt};
ghost use Rattle.indicatif_bar.specs.Progress.{is_finished};
ghost use Rattle.indicatif_bar.specs.declared.state.commands.Change.{Change};
ghost use Rattle.indicatif_bar.specs.Commands.{Tick, TickerTick, SetTicker, Inc, Dec, SetPosition, Update, SetLength, UnsetLength, IncLength, DecLength, SetMessage, SetPrefix, SetStyle};
ghost use Rattle.indicatif_bar.specs.Commands.{WithPosition, WithMessage, WithPrefix, WithFinish, WithTabWidth, SetTabWidth, SetElapsed, ResetEta, ResetElapsed, Reset, Finish, FinishUsingStyle};
ghost use Rattle.indicatif_bar.specs.Commands.{ForceDraw, obeyed, after_drop, command_as, command_of, copy_takes_memory, is_beyond_clock, takes_memory, update, with_length, redraw_ask};
ghost use Rattle.indicatif_bar.specs.Finishes.{AndLeave, WithMessage as LeaveWithMessage, AndClear, Abandon, AbandonWithMessage, finish_as, finish_of};

use crate::ask::Ask;
use crate::finish::ProgressFinish;
use crate::progress::{ProgressState, Status};
use crate::state::BarState;
use crate::style::ProgressStyle;
use crate::text::{Text, own_text};
use crate::tracker::Tracks;
use indicatif_text::columns::{Moment, Refusal};
use std::alloc::Global;

/// Changes of a bar's position and length; what is `None` stays.
///
/// ```
/// let change = Change { pos: Some(3), len: Some(4) };
/// bar.apply(BarCommand::Update(change), 0)?; // three of four steps are done then
/// ```
#[derive(Clone, Copy, Debug, Default, Drop, PartialEq, Eq)]
pub struct Change {
    /// The new position.
    pub pos: Option<u64>,
    /// The new length.
    pub len: Option<u64>,
}

/// A command of a bar as a value. Each is the call of `BarState` with its name, but `Update` is `set_change` and `Finish` is
/// `finish_by`; `with_style` and `with_elapsed` are `SetStyle` and `SetElapsed`.
///
/// It owns its text, so that a history can keep it, unless the type says that it borrows it: `BarCommand<K, &str>` (`Text`).
///
/// ```
/// let ask = bar.apply(BarCommand::Inc(2), now)?; // as `bar.inc(2, now)`
/// ```
#[derive(Drop)]
pub enum BarCommand<K, S = String> {
    /// A tick, unless a steady ticker is installed.
    Tick,
    /// A steady ticker's own tick.
    TickerTick,
    /// Sets whether a steady ticker is installed.
    SetTicker(bool),
    /// Adds to the position, modulo 2^64.
    Inc(u64),
    /// Subtracts from the position, modulo 2^64.
    Dec(u64),
    /// Sets the position.
    SetPosition(u64),
    /// Sets the position and the length, each if there is one.
    Update(Change),
    /// Sets the length.
    SetLength(u64),
    /// Removes the length.
    UnsetLength,
    /// Adds to the length, up to 2^64 - 1, if there is one.
    IncLength(u64),
    /// Subtracts from the length, down to 0, if there is one.
    DecLength(u64),
    /// Sets the message, and asks for a draw.
    SetMessage(S),
    /// Sets the prefix, and asks for a draw.
    SetPrefix(S),
    /// Sets the style.
    SetStyle(ProgressStyle<K>),
    /// Sets the position; asks for no draw.
    WithPosition(u64),
    /// Sets the message; asks for no draw.
    WithMessage(S),
    /// Sets the prefix; asks for no draw.
    WithPrefix(S),
    /// Sets what finishes the bar when it is dropped, or by `FinishUsingStyle`.
    WithFinish(ProgressFinish),
    /// Sets the tab width, in spaces; asks for no draw.
    WithTabWidth(usize),
    /// Sets the tab width, in spaces, and forces a draw.
    SetTabWidth(usize),
    /// Sets the time since the start, in nanoseconds.
    SetElapsed(u64),
    /// Counts the rate from now on.
    ResetEta,
    /// Counts the rate and the time from now on.
    ResetElapsed,
    /// Counts everything from now on, and sets the position to 0.
    Reset,
    /// Finishes the bar.
    Finish(ProgressFinish<S>),
    /// Finishes the bar by the finish that `WithFinish` stored.
    FinishUsingStyle,
    /// Forces a draw.
    ForceDraw,
}

impl<K: Tracks, S: Text> BarCommand<K, S> {
    /// A copy of the command, with its own text.
    ///
    /// ```
    /// let again = command.try_clone(alloc)?;
    /// ```
    ///
    /// Refused: `Memory`, only if it has a style, or a text that isn't empty.
    pub fn try_clone(&self, alloc: Global) -> Result<BarCommand<K>, Refusal>
        ensures same { IfOk result (λ other. command_of other ≡ command_as S.bytes self.now) }
        ensures memory { IfErr result (λ e. (e ≡ Refusal.Memory) × IsTrue (copy_takes_memory (command_as S.bytes self.now))) }
    {
        Ok(match self {
            BarCommand::Tick => BarCommand::Tick,
            BarCommand::TickerTick => BarCommand::TickerTick,
            BarCommand::SetTicker(installed) => BarCommand::SetTicker(*installed),
            BarCommand::Inc(delta) => BarCommand::Inc(*delta),
            BarCommand::Dec(delta) => BarCommand::Dec(*delta),
            BarCommand::SetPosition(position) => BarCommand::SetPosition(*position),
            BarCommand::Update(change) => BarCommand::Update(*change),
            BarCommand::SetLength(len) => BarCommand::SetLength(*len),
            BarCommand::UnsetLength => BarCommand::UnsetLength,
            BarCommand::IncLength(delta) => BarCommand::IncLength(*delta),
            BarCommand::DecLength(delta) => BarCommand::DecLength(*delta),
            BarCommand::SetMessage(text) => BarCommand::SetMessage(own_text(alloc, text)?),
            BarCommand::SetPrefix(text) => BarCommand::SetPrefix(own_text(alloc, text)?),
            BarCommand::SetStyle(style) => BarCommand::SetStyle(style.try_clone()?),
            BarCommand::WithPosition(position) => BarCommand::WithPosition(*position),
            BarCommand::WithMessage(text) => BarCommand::WithMessage(own_text(alloc, text)?),
            BarCommand::WithPrefix(text) => BarCommand::WithPrefix(own_text(alloc, text)?),
            BarCommand::WithFinish(finish) => BarCommand::WithFinish(finish.try_clone(alloc)?),
            BarCommand::WithTabWidth(tab) => BarCommand::WithTabWidth(*tab),
            BarCommand::SetTabWidth(tab) => BarCommand::SetTabWidth(*tab),
            BarCommand::SetElapsed(nanos) => BarCommand::SetElapsed(*nanos),
            BarCommand::ResetEta => BarCommand::ResetEta,
            BarCommand::ResetElapsed => BarCommand::ResetElapsed,
            BarCommand::Reset => BarCommand::Reset,
            BarCommand::Finish(finish) => BarCommand::Finish(finish.try_clone(alloc)?),
            BarCommand::FinishUsingStyle => BarCommand::FinishUsingStyle,
            BarCommand::ForceDraw => BarCommand::ForceDraw,
        })
    }
}

impl<K: Tracks> BarState<K> {
    /// Ticks once more, up to 2^64 - 1, and asks for a draw: a spinner shows its next text. While a steady ticker is installed, nothing
    /// changes and it asks for no draw.
    pub fn tick(&mut self, now: Moment) -> Ask
        ensures { (self.new, result) ≡ obeyed K.means Tick self.old now }
    {
        if self.ticker {
            return Ask::No;
        }
        self.ticker_tick(now)
    }

    /// Ticks once more, up to 2^64 - 1, as a steady ticker does, and asks for a draw. Returns an `Ask`.
    pub fn ticker_tick(&mut self, now: Moment) -> Ask
        ensures { (self.new, result) ≡ obeyed K.means TickerTick self.old now }
    {
        self.progress.count_tick();
        self.update_draw(now)
    }

    /// Records the position with the rate, ticks the trackers, and asks for a draw.
    fn update_draw(&mut self, now: Moment) -> Ask
        ensures { (self.new, result) ≡ update K.means self.old now }
    {
        self.progress.record_position(now);
        self.style.tick_trackers(&self.progress, now);
        self.asked()
    }

    /// A draw, which is forced if the bar is finished.
    fn asked(&self) -> Ask
        ensures { result ≡ redraw_ask self.now }
    {
        if self.progress.is_finished() {
            return Ask::Forced;
        }
        Ask::Unforced
    }

    /// Sets whether a steady ticker is installed; while one is, `tick` changes nothing. Returns `Ask::No`.
    pub fn set_ticker(&mut self, installed: bool, now: Moment) -> Ask
        ensures { (self.new, result) ≡ obeyed K.means (SetTicker installed) self.old now }
    {
        self.ticker = installed;
        Ask::No
    }

    /// Adds `delta` to the position, modulo 2^64. Also ticks, as often as the position's limiter allows: 10 times at once, and once more
    /// each millisecond, if moments don't go back.
    #[inline(always)]
    pub fn inc(&mut self, delta: u64, now: Moment) -> Ask
        ensures { (self.new, result) ≡ obeyed K.means (Inc delta) self.old now }
    {
        let position = self.progress.pos().wrapping_add(delta);
        self.set_position(position, now)
    }

    /// Subtracts `delta` from the position, modulo 2^64; otherwise as `inc`. Returns an `Ask`.
    #[inline(always)]
    pub fn dec(&mut self, delta: u64, now: Moment) -> Ask
        ensures { (self.new, result) ≡ obeyed K.means (Dec delta) self.old now }
    {
        let position = self.progress.pos().wrapping_sub(delta);
        self.set_position(position, now)
    }

    /// Sets the position; otherwise as `inc`. Returns an `Ask`.
    #[inline(always)]
    pub fn set_position(&mut self, position: u64, now: Moment) -> Ask
        ensures { (self.new, result) ≡ obeyed K.means (SetPosition position) self.old now }
    {
        self.progress.set_pos(position);
        if self.limiter.is_early(now) {
            return Ask::No;
        }
        self.look(now)
    }

    /// Ticks, if the position's limiter allows it.
    #[inline(never)]
    fn look(&mut self, now: Moment) -> Ask
        ensures { (self.new, result) ≡ obeyed K.means (SetPosition self.old.progress.position) self.old now }
    {
        if self.limiter.allow(now) {
            return self.tick(now);
        }
        Ask::No
    }

    /// Adds what workers have counted to the position, modulo 2^64; otherwise as `inc`. Returns an `Ask`.
    #[inline(always)]
    pub fn absorb(&mut self, sum: u64, now: Moment) -> Ask
        ensures { (self.new, result) ≡ obeyed K.means (Inc sum) self.old now }
    {
        self.inc(sum, now)
    }

    /// Makes the changes that the closure returns for the bar's state; then as `tick`. Returns an `Ask`.
    pub fn update<F: FnOnce(&ProgressState) -> Change>(&mut self, f: F, now: Moment) -> Ask
        requires { F.IsAlwaysCallable f }
        ensures { (change : Change) × FnOnceReturnsAt F.FnOnce f self.old.progress change
            × ((self.new, result) ≡ obeyed K.means (Update change.pos change.len) self.old now) }
    {
        let change = f(&self.progress);
        self.set_change(change, now)
    }

    /// Sets a position and a length, each if there is one; then as `tick`. Returns an `Ask`.
    pub fn set_change(&mut self, change: Change, now: Moment) -> Ask
        ensures { (self.new, result) ≡ obeyed K.means (Update change.pos change.len) self.old now }
    {
        if let Some(position) = change.pos {
            self.progress.set_pos(position);
        }
        if let Some(len) = change.len {
            self.progress.set_len(len);
        }
        self.tick(now)
    }

    /// Sets the length, and asks for a draw: `{bar}`, `{percent}` and `{eta}` follow it. The position is recorded with the rate, and the
    /// trackers tick.
    pub fn set_length(&mut self, len: u64, now: Moment) -> Ask
        ensures { (self.new, result) ≡ obeyed K.means (SetLength len) self.old now }
    {
        self.put_length(Some(len), now)
    }

    /// Removes the length, and asks for a draw: the bar is empty, `{len}` shows the position, and `{eta}` is 0. Otherwise as `set_length`.
    pub fn unset_length(&mut self, now: Moment) -> Ask
        ensures { (self.new, result) ≡ obeyed K.means UnsetLength self.old now }
    {
        self.put_length(None, now)
    }

    /// Adds `delta` to the length, up to 2^64 - 1, if there is one; and asks for a draw. Otherwise as `set_length`.
    pub fn inc_length(&mut self, delta: u64, now: Moment) -> Ask
        ensures { (self.new, result) ≡ obeyed K.means (IncLength delta) self.old now }
    {
        let len = self.progress.len().map(|len| len.saturating_add(delta));
        self.put_length(len, now)
    }

    /// Subtracts `delta` from the length, down to 0, if there is one; and asks for a draw. Otherwise as `set_length`.
    pub fn dec_length(&mut self, delta: u64, now: Moment) -> Ask
        ensures { (self.new, result) ≡ obeyed K.means (DecLength delta) self.old now }
    {
        let len = self.progress.len().map(|len| len.saturating_sub(delta));
        self.put_length(len, now)
    }

    /// Sets or removes the length, and asks for a draw.
    fn put_length(&mut self, len: Option<u64>, now: Moment) -> Ask
        ensures { (self.new, result) ≡ with_length K.means len self.old now }
    {
        self.progress.put_len(len);
        self.update_draw(now)
    }

    /// Sets the message, and asks for a draw. It shows only where the template has `{msg}` or `{wide_msg}`. Otherwise as `set_length`.
    ///
    /// Refused: `Memory`, only if the text isn't empty; then nothing has changed.
    pub fn set_message(&mut self, text: &str, now: Moment) -> Result<Ask, Refusal>
        ensures done { IfOk result (λ ask. (self.new, ask) ≡ obeyed K.means (SetMessage text.now) self.old now) }
        ensures unchanged { OnErr result (self.new ≡ self.old) }
        ensures memory { IfErr result (λ e. (e ≡ Refusal.Memory)
            × IsTrue (takes_memory (SetMessage text.now) self.old)) }
    {
        self.progress.set_message(text)?;
        Ok(self.update_draw(now))
    }

    /// Sets the prefix, and asks for a draw. It shows only where the template has `{prefix}`. Otherwise as `set_length`.
    ///
    /// Refused: `Memory`, only if the text isn't empty; then nothing has changed.
    pub fn set_prefix(&mut self, text: &str, now: Moment) -> Result<Ask, Refusal>
        ensures done { IfOk result (λ ask. (self.new, ask) ≡ obeyed K.means (SetPrefix text.now) self.old now) }
        ensures unchanged { OnErr result (self.new ≡ self.old) }
        ensures memory { IfErr result (λ e. (e ≡ Refusal.Memory)
            × IsTrue (takes_memory (SetPrefix text.now) self.old)) }
    {
        self.progress.set_prefix(text)?;
        Ok(self.update_draw(now))
    }

    /// Sets the style, and gives it the bar's tab width. Returns `Ask::No`.
    ///
    /// Refused: `Memory`, if the style has another tab width; then nothing has changed, and the style is dropped.
    pub fn set_style(&mut self, style: ProgressStyle<K>, now: Moment) -> Result<Ask, Refusal>
        ensures done { IfOk result (λ ask. (self.new, ask) ≡ obeyed K.means (SetStyle style) self.old now) }
        ensures unchanged { OnErr result (self.new ≡ self.old) }
        ensures memory { IfErr result (λ e. (e ≡ Refusal.Memory)
            × IsTrue (takes_memory (SetStyle style) self.old)) }
    {
        let mut style = style;
        style.set_tab_width(self.progress.tab_width())?;
        self.style = style;
        Ok(Ask::No)
    }

    /// Sets the style; the next draw uses it. Returns an `Ask`, otherwise as `set_style`.
    pub fn with_style(&mut self, style: ProgressStyle<K>, now: Moment) -> Result<Ask, Refusal>
        ensures done { IfOk result (λ ask. (self.new, ask) ≡ obeyed K.means (SetStyle style) self.old now) }
        ensures unchanged { OnErr result (self.new ≡ self.old) }
        ensures memory { IfErr result (λ e. (e ≡ Refusal.Memory)
            × IsTrue (takes_memory (SetStyle style) self.old)) }
    {
        self.set_style(style, now)
    }

    /// Sets the position, for work that has already begun. Returns `Ask::No`. The rate counts it with the next step, unless a tick and
    /// `reset_eta` follow.
    pub fn with_position(&mut self, position: u64, now: Moment) -> Ask
        ensures { (self.new, result) ≡ obeyed K.means (WithPosition position) self.old now }
    {
        self.progress.set_pos(position);
        Ask::No
    }

    /// Sets the message, which shows only if the template has `{msg}` or `{wide_msg}`. Returns `Ask::No`.
    ///
    /// Refused: `Memory`, only if the text isn't empty; then nothing has changed.
    pub fn with_message(&mut self, text: &str, now: Moment) -> Result<Ask, Refusal>
        ensures done { IfOk result (λ ask. (self.new, ask) ≡ obeyed K.means (WithMessage text.now) self.old now) }
        ensures unchanged { OnErr result (self.new ≡ self.old) }
        ensures memory { IfErr result (λ e. (e ≡ Refusal.Memory)
            × IsTrue (takes_memory (WithMessage text.now) self.old)) }
    {
        self.progress.set_message(text)?;
        Ok(Ask::No)
    }

    /// Sets the prefix, which shows only if the template has `{prefix}`. Returns `Ask::No`.
    ///
    /// Refused: `Memory`, only if the text isn't empty; then nothing has changed.
    pub fn with_prefix(&mut self, text: &str, now: Moment) -> Result<Ask, Refusal>
        ensures done { IfOk result (λ ask. (self.new, ask) ≡ obeyed K.means (WithPrefix text.now) self.old now) }
        ensures unchanged { OnErr result (self.new ≡ self.old) }
        ensures memory { IfErr result (λ e. (e ≡ Refusal.Memory)
            × IsTrue (takes_memory (WithPrefix text.now) self.old)) }
    {
        self.progress.set_prefix(text)?;
        Ok(Ask::No)
    }

    /// Sets the stored finish. It ends the bar when its owner is gone, or by `finish_using_style`.
    pub fn with_finish(&mut self, finish: ProgressFinish, now: Moment) -> Ask
        ensures { (self.new, result) ≡ obeyed K.means (WithFinish (finish_of finish)) self.old now }
    {
        self.on_finish = finish;
        Ask::No
    }

    /// Sets the tab width of the message, the prefix and the style, in spaces. Returns `Ask::No`.
    ///
    /// Refused: `Memory`, only if the message or the prefix has a tab, or the style another tab width; then nothing has changed.
    pub fn with_tab_width(&mut self, tab: usize, now: Moment) -> Result<Ask, Refusal>
        ensures done { IfOk result (λ ask. (self.new, ask) ≡ obeyed K.means (WithTabWidth tab) self.old now) }
        ensures unchanged { OnErr result (self.new ≡ self.old) }
        ensures memory { IfErr result (λ e. (e ≡ Refusal.Memory)
            × IsTrue (takes_memory (WithTabWidth tab) self.old)) }
    {
        let widened = self.progress.widened(tab)?;
        self.style.set_tab_width(tab)?;
        self.progress.put_tab_width(widened);
        Ok(Ask::No)
    }

    /// Sets how many spaces a tab has in the message, the prefix and the style, and forces a draw. Returns `Ask::Forced`.
    ///
    /// Refused: as `with_tab_width`; then nothing has changed.
    pub fn set_tab_width(&mut self, tab: usize, now: Moment) -> Result<Ask, Refusal>
        ensures done { IfOk result (λ ask. (self.new, ask) ≡ obeyed K.means (SetTabWidth tab) self.old now) }
        ensures unchanged { OnErr result (self.new ≡ self.old) }
        ensures memory { IfErr result (λ e. (e ≡ Refusal.Memory)
            × IsTrue (takes_memory (SetTabWidth tab) self.old)) }
    {
        self.with_tab_width(tab, now)?;
        Ok(Ask::Forced)
    }

    /// Sets the time since the start, in nanoseconds, as `{elapsed}` shows it: for work that began before the bar. Returns `Ask::No`.
    ///
    /// Refused: `ElapsedBeyondClock`, exactly if that is more than the moment; then nothing has changed.
    pub fn set_elapsed(&mut self, nanos: u64, now: Moment) -> Result<Ask, Refusal>
        ensures done { IfOk result (λ ask. (self.new, ask) ≡ obeyed K.means (SetElapsed nanos) self.old now) }
        ensures unchanged { OnErr result (self.new ≡ self.old) }
        ensures beyond { (result ≡ Err Refusal.ElapsedBeyondClock) ↔ (now < nanos) }
        ensures no_other { IfErr result (λ e. e ≡ Refusal.ElapsedBeyondClock) }
    {
        if now < nanos {
            return Err(Refusal::ElapsedBeyondClock);
        }
        self.progress.put_start(now - nanos);
        Ok(Ask::No)
    }

    /// Sets the time since the start, as `set_elapsed`. Returns `Ask::No`.
    pub fn with_elapsed(&mut self, nanos: u64, now: Moment) -> Result<Ask, Refusal>
        ensures done { IfOk result (λ ask. (self.new, ask) ≡ obeyed K.means (SetElapsed nanos) self.old now) }
        ensures unchanged { OnErr result (self.new ≡ self.old) }
        ensures beyond { (result ≡ Err Refusal.ElapsedBeyondClock) ↔ (now < nanos) }
        ensures no_other { IfErr result (λ e. e ≡ Refusal.ElapsedBeyondClock) }
    {
        self.set_elapsed(nanos, now)
    }

    /// Counts the rate, and the time that is left, from now on: for instance after a pause. Returns `Ask::No`.
    pub fn reset_eta(&mut self, now: Moment) -> Ask
        ensures { (self.new, result) ≡ obeyed K.means ResetEta self.old now }
    {
        self.progress.reset_rate(now);
        Ask::No
    }

    /// Counts the rate and the elapsed time from now on. Returns `Ask::No`.
    pub fn reset_elapsed(&mut self, now: Moment) -> Ask
        ensures { (self.new, result) ≡ obeyed K.means ResetElapsed self.old now }
    {
        self.progress.reset_rate(now);
        self.progress.put_start(now);
        Ask::No
    }

    /// Sets the position to 0, counts rate and time from now on, and asks for a draw. The trackers are reset.
    pub fn reset(&mut self, now: Moment) -> Ask
        ensures { (self.new, result) ≡ obeyed K.means Reset self.old now }
    {
        self.progress.reset(now);
        self.limiter.reset(now);
        self.style.reset_trackers(&self.progress, now);
        self.asked()
    }

    /// Finishes the bar at its length, if it has one, and forces a draw: the bar stays on the screen. Returns `Ask::Forced`.
    pub fn finish(&mut self, now: Moment) -> Ask
        ensures { (self.new, result) ≡ obeyed K.means (Finish AndLeave) self.old now }
    {
        self.progress.finish(Status::DoneVisible, now);
        Ask::Forced
    }

    /// Finishes the bar as `finish`, with this message, which shows only where the template has `{msg}` or `{wide_msg}`. Returns
    /// `Ask::Forced`.
    ///
    /// Refused: `Memory`, only if the message isn't empty; then nothing has changed.
    pub fn finish_with_message(&mut self, text: &str, now: Moment) -> Result<Ask, Refusal>
        ensures done { IfOk result (λ ask. (self.new, ask) ≡ obeyed K.means (Finish (LeaveWithMessage text.now)) self.old now) }
        ensures unchanged { OnErr result (self.new ≡ self.old) }
        ensures memory { IfErr result (λ e. (e ≡ Refusal.Memory)
            × IsTrue (takes_memory (Finish (LeaveWithMessage text.now)) self.old)) }
    {
        self.progress.set_message(text)?;
        Ok(self.finish(now))
    }

    /// Finishes the bar at its length, if it has one, and forces a draw: the bar leaves the screen, and has no more lines. Returns
    /// `Ask::Forced`.
    pub fn finish_and_clear(&mut self, now: Moment) -> Ask
        ensures { (self.new, result) ≡ obeyed K.means (Finish AndClear) self.old now }
    {
        self.progress.finish(Status::DoneHidden, now);
        Ask::Forced
    }

    /// Finishes the bar where it is, for work that is given up, and forces a draw: the bar stays on the screen. Returns `Ask::Forced`.
    pub fn abandon(&mut self, now: Moment) -> Ask
        ensures { (self.new, result) ≡ obeyed K.means (Finish Abandon) self.old now }
    {
        self.progress.abandon(now);
        Ask::Forced
    }

    /// Finishes the bar as `abandon`, with this message. Returns `Ask::Forced`.
    ///
    /// Refused: `Memory`, only if the message isn't empty; then nothing has changed.
    pub fn abandon_with_message(&mut self, text: &str, now: Moment) -> Result<Ask, Refusal>
        ensures done { IfOk result (λ ask. (self.new, ask) ≡ obeyed K.means (Finish (AbandonWithMessage text.now)) self.old now) }
        ensures unchanged { OnErr result (self.new ≡ self.old) }
        ensures memory { IfErr result (λ e. (e ≡ Refusal.Memory)
            × IsTrue (takes_memory (Finish (AbandonWithMessage text.now)) self.old)) }
    {
        self.progress.set_message(text)?;
        Ok(self.abandon(now))
    }

    /// Finishes the bar by this finish, and forces a draw.
    ///
    /// Refused: `Memory`, only if the finish has a message that isn't empty; then nothing has changed.
    pub fn finish_by<S: Text>(
        &mut self,
        finish: &ProgressFinish<S>,
        now: Moment,
    ) -> Result<Ask, Refusal>
        ensures done { IfOk result (λ ask. (self.new, ask) ≡ obeyed K.means (Finish (finish_as S.bytes finish.now)) self.old now) }
        ensures unchanged { OnErr result (self.new ≡ self.old) }
        ensures memory { IfErr result (λ e. (e ≡ Refusal.Memory)
            × IsTrue (takes_memory (Finish (finish_as S.bytes finish.now)) self.old)) }
    {
        self.progress.finish_by(finish, now)?;
        Ok(Ask::Forced)
    }

    /// Finishes the bar by its stored finish (`with_finish`; the default is `AndClear`), and forces a draw. Returns `Ask::Forced`.
    ///
    /// Refused: `Memory`, only if that finish has a message that isn't empty; then nothing has changed.
    pub fn finish_using_style(&mut self, now: Moment) -> Result<Ask, Refusal>
        ensures done { IfOk result (λ ask. (self.new, ask) ≡ obeyed K.means FinishUsingStyle self.old now) }
        ensures unchanged { OnErr result (self.new ≡ self.old) }
        ensures memory { IfErr result (λ e. (e ≡ Refusal.Memory)
            × IsTrue (takes_memory FinishUsingStyle self.old)) }
    {
        self.progress.finish_by(&self.on_finish, now)?;
        Ok(Ask::Forced)
    }

    /// Tells the record that its owner is gone: a bar that isn't finished is finished by its stored finish, and a draw is forced; otherwise
    /// nothing changes, and the command wants no draw.
    ///
    /// Refused: `Memory`, only if it is finished with a message that isn't empty; then nothing has changed.
    pub fn dropped(&mut self, now: Moment) -> Result<Ask, Refusal>
        ensures done { IfOk result (λ ask. (self.new, ask) ≡ after_drop self.old now) }
        ensures unchanged { OnErr result (self.new ≡ self.old) }
        ensures memory { IfErr result (λ e. (e ≡ Refusal.Memory) × IsFalse (is_finished self.old.progress)
            × IsTrue (takes_memory FinishUsingStyle self.old)) }
    {
        if self.progress.is_finished() {
            return Ok(Ask::No);
        }
        self.finish_using_style(now)
    }

    /// Forces a draw, and changes nothing of the bar. Returns `Ask::Forced`.
    pub fn force_draw(&mut self, now: Moment) -> Ask
        ensures { (self.new, result) ≡ obeyed K.means ForceDraw self.old now }
    {
        Ask::Forced
    }

    /// Makes the call that this value names. Its text may be borrowed, and only the record copies it.
    ///
    /// Refused: `ElapsedBeyondClock`, exactly if an elapsed time is more than the moment; `Memory`, if the command takes some. Then nothing
    /// has changed.
    pub fn tell<S: Text>(&mut self, command: BarCommand<K, S>, now: Moment) -> Result<Ask, Refusal>
        ensures done { IfOk result (λ ask. (self.new, ask) ≡ obeyed K.means (command_as S.bytes command) self.old now) }
        ensures unchanged { OnErr result (self.new ≡ self.old) }
        ensures beyond { (result ≡ Err Refusal.ElapsedBeyondClock) ↔ IsTrue (is_beyond_clock (command_as S.bytes command) now) }
        ensures memory { result ≡ Err Refusal.Memory → IsTrue (takes_memory (command_as S.bytes command) self.old) }
        ensures no_other { IfErr result (λ e. (e ≡ Refusal.ElapsedBeyondClock) ⊎ (e ≡ Refusal.Memory)) }
    {
        match command {
            BarCommand::Tick => Ok(self.tick(now)),
            BarCommand::TickerTick => Ok(self.ticker_tick(now)),
            BarCommand::SetTicker(installed) => Ok(self.set_ticker(installed, now)),
            BarCommand::Inc(delta) => Ok(self.inc(delta, now)),
            BarCommand::Dec(delta) => Ok(self.dec(delta, now)),
            BarCommand::SetPosition(position) => Ok(self.set_position(position, now)),
            BarCommand::Update(change) => Ok(self.set_change(change, now)),
            BarCommand::SetLength(len) => Ok(self.set_length(len, now)),
            BarCommand::UnsetLength => Ok(self.unset_length(now)),
            BarCommand::IncLength(delta) => Ok(self.inc_length(delta, now)),
            BarCommand::DecLength(delta) => Ok(self.dec_length(delta, now)),
            BarCommand::SetMessage(text) => self.set_message(text.as_text(), now),
            BarCommand::SetPrefix(text) => self.set_prefix(text.as_text(), now),
            BarCommand::SetStyle(style) => self.set_style(style, now),
            BarCommand::WithPosition(position) => Ok(self.with_position(position, now)),
            BarCommand::WithMessage(text) => self.with_message(text.as_text(), now),
            BarCommand::WithPrefix(text) => self.with_prefix(text.as_text(), now),
            BarCommand::WithFinish(finish) => Ok(self.with_finish(finish, now)),
            BarCommand::WithTabWidth(tab) => self.with_tab_width(tab, now),
            BarCommand::SetTabWidth(tab) => self.set_tab_width(tab, now),
            BarCommand::SetElapsed(nanos) => self.set_elapsed(nanos, now),
            BarCommand::ResetEta => Ok(self.reset_eta(now)),
            BarCommand::ResetElapsed => Ok(self.reset_elapsed(now)),
            BarCommand::Reset => Ok(self.reset(now)),
            BarCommand::Finish(finish) => self.finish_by(&finish, now),
            BarCommand::FinishUsingStyle => self.finish_using_style(now),
            BarCommand::ForceDraw => Ok(self.force_draw(now)),
        }
    }

    /// Makes the command that this value names, as `tell`, with its own text.
    ///
    /// Refused: as `tell`.
    pub fn apply(&mut self, command: BarCommand<K>, now: Moment) -> Result<Ask, Refusal>
        ensures done { IfOk result (λ ask. (self.new, ask) ≡ obeyed K.means (command_of command) self.old now) }
        ensures unchanged { OnErr result (self.new ≡ self.old) }
        ensures beyond { (result ≡ Err Refusal.ElapsedBeyondClock) ↔ IsTrue (is_beyond_clock (command_of command) now) }
        ensures memory { result ≡ Err Refusal.Memory → IsTrue (takes_memory (command_of command) self.old) }
        ensures no_other { IfErr result (λ e. (e ≡ Refusal.ElapsedBeyondClock) ⊎ (e ≡ Refusal.Memory)) }
    {
        self.tell(command, now)
    }
}
