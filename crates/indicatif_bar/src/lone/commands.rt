//! The commands of a bar that stands alone, and texts above it.
ghost use Rattle.std.specs.Prelude.{◌≡◌, ◌<◌, Ok, Err, IsTrue, IsFalse, ◌↔◌, IfOk, IfErr, OnErr};
ghost use Rattle.std.specs.Fn.{FnOnceReturnsAt};
ghost use Rattle.indicatif_bar.specs.declared.state.commands.Change.{Change as Changed};
ghost use Rattle.indicatif_bar.specs.Runs.{wrote};
ghost use Rattle.indicatif_bar.specs.Finishes.{AndLeave, WithMessage as LeaveWithMessage, AndClear, Abandon, AbandonWithMessage, finish_of};
ghost use Rattle.indicatif_bar.specs.Commands.{Tick, TickerTick, SetTicker, Inc, Dec, SetPosition, Update, SetLength, UnsetLength, IncLength, DecLength, SetMessage, SetPrefix, SetStyle};
ghost use Rattle.indicatif_bar.specs.Commands.{WithPosition, WithMessage, WithPrefix, WithFinish, WithTabWidth, SetTabWidth, SetElapsed, ResetEta};
ghost use Rattle.indicatif_bar.specs.Commands.{ResetElapsed, Reset, Finish, FinishUsingStyle, ForceDraw, takes_memory};
ghost use Rattle.indicatif_bar.specs.Lone.{Log, Clear};
ghost use Rattle.indicatif_bar.specs.LoneBars.{LoneIsNowhere, record_of, lone_moves, lone_terminal, LoneLeadsBy, Obeys, ObeysOrNot};

use crate::lone::LoneBar;
use crate::stage::Writing;
use crate::state::{Ask, Change, ProgressFinish, ProgressState};
use crate::style::ProgressStyle;
use crate::tracker::Tracks;
use indicatif_term::target::TermLike;
use indicatif_text::columns::{Drawn, Moment, Refusal};

impl<K: Tracks, T: TermLike + Drop> LoneBar<K, T> {
    /// Ticks once more, up to 2^64 - 1, and asks for a draw: a spinner shows its next text. While a steady ticker is installed, nothing
    /// changes.
    pub fn tick(&mut self, now: Moment) -> Result<Drawn, Refusal>
        ensures { Obeys K.means T.view self.old self.new Tick now result }
    {
        let ask = self.shown.bar.tick(now);
        self.obey(ask, now)
    }

    /// Ticks once more, up to 2^64 - 1, as a steady ticker does, and asks for a draw.
    pub fn ticker_tick(&mut self, now: Moment) -> Result<Drawn, Refusal>
        ensures { Obeys K.means T.view self.old self.new TickerTick now result }
    {
        let ask = self.shown.bar.ticker_tick(now);
        self.obey(ask, now)
    }

    /// Sets whether a steady ticker is installed; while one is, `tick` changes nothing. Asks for no draw.
    pub fn set_ticker(&mut self, installed: bool, now: Moment) -> Result<Drawn, Refusal>
        ensures obeys { Obeys K.means T.view self.old self.new (SetTicker installed) now result }
        ensures limited { result ≡ Ok Drawn.Limited }
    {
        let ask = self.shown.bar.set_ticker(installed, now);
        self.obey(ask, now)
    }

    /// Adds `delta` to the position, modulo 2^64. Also ticks, as often as the position's limiter allows: 10 times at once, and once more
    /// each millisecond.
    #[inline(always)]
    pub fn inc(&mut self, delta: u64, now: Moment) -> Result<Drawn, Refusal>
        ensures { Obeys K.means T.view self.old self.new (Inc delta) now result }
    {
        let ask = self.shown.bar.inc(delta, now);
        self.obey(ask, now)
    }

    /// Subtracts `delta` from the position, modulo 2^64; otherwise as `inc`.
    #[inline(always)]
    pub fn dec(&mut self, delta: u64, now: Moment) -> Result<Drawn, Refusal>
        ensures { Obeys K.means T.view self.old self.new (Dec delta) now result }
    {
        let ask = self.shown.bar.dec(delta, now);
        self.obey(ask, now)
    }

    /// Sets the position; otherwise as `inc`.
    #[inline(always)]
    pub fn set_position(&mut self, position: u64, now: Moment) -> Result<Drawn, Refusal>
        ensures { Obeys K.means T.view self.old self.new (SetPosition position) now result }
    {
        let ask = self.shown.bar.set_position(position, now);
        self.obey(ask, now)
    }

    /// Adds what workers have counted to the position, modulo 2^64; otherwise as `inc`.
    #[inline(always)]
    pub fn absorb(&mut self, sum: u64, now: Moment) -> Result<Drawn, Refusal>
        ensures { Obeys K.means T.view self.old self.new (Inc sum) now result }
    {
        let ask = self.shown.bar.absorb(sum, now);
        self.obey(ask, now)
    }

    /// Sets a position and a length, each if there is one; then as `tick`.
    pub fn set_change(&mut self, change: Change, now: Moment) -> Result<Drawn, Refusal>
        ensures { Obeys K.means T.view self.old self.new (Update change.pos change.len) now result }
    {
        let ask = self.shown.bar.set_change(change, now);
        self.obey(ask, now)
    }

    /// Sets the length, and asks for a draw: `{bar}`, `{percent}` and `{eta}` follow it.
    pub fn set_length(&mut self, len: u64, now: Moment) -> Result<Drawn, Refusal>
        ensures { Obeys K.means T.view self.old self.new (SetLength len) now result }
    {
        let ask = self.shown.bar.set_length(len, now);
        self.obey(ask, now)
    }

    /// Removes the length, and asks for a draw: the bar is empty, `{len}` shows the position, and `{eta}` is 0.
    pub fn unset_length(&mut self, now: Moment) -> Result<Drawn, Refusal>
        ensures { Obeys K.means T.view self.old self.new UnsetLength now result }
    {
        let ask = self.shown.bar.unset_length(now);
        self.obey(ask, now)
    }

    /// Adds `delta` to the length, up to 2^64 - 1, if there is one; and asks for a draw.
    pub fn inc_length(&mut self, delta: u64, now: Moment) -> Result<Drawn, Refusal>
        ensures { Obeys K.means T.view self.old self.new (IncLength delta) now result }
    {
        let ask = self.shown.bar.inc_length(delta, now);
        self.obey(ask, now)
    }

    /// Subtracts `delta` from the length, down to 0, if there is one; and asks for a draw.
    pub fn dec_length(&mut self, delta: u64, now: Moment) -> Result<Drawn, Refusal>
        ensures { Obeys K.means T.view self.old self.new (DecLength delta) now result }
    {
        let ask = self.shown.bar.dec_length(delta, now);
        self.obey(ask, now)
    }

    /// Counts the rate, and the time that is left, from now on: for instance after a pause. Asks for no draw.
    pub fn reset_eta(&mut self, now: Moment) -> Result<Drawn, Refusal>
        ensures obeys { Obeys K.means T.view self.old self.new ResetEta now result }
        ensures limited { result ≡ Ok Drawn.Limited }
    {
        let ask = self.shown.bar.reset_eta(now);
        self.obey(ask, now)
    }

    /// Counts the rate and the elapsed time from now on. Asks for no draw.
    pub fn reset_elapsed(&mut self, now: Moment) -> Result<Drawn, Refusal>
        ensures obeys { Obeys K.means T.view self.old self.new ResetElapsed now result }
        ensures limited { result ≡ Ok Drawn.Limited }
    {
        let ask = self.shown.bar.reset_elapsed(now);
        self.obey(ask, now)
    }

    /// Sets the position to 0, counts rate and time from now on, and asks for a draw.
    pub fn reset(&mut self, now: Moment) -> Result<Drawn, Refusal>
        ensures { Obeys K.means T.view self.old self.new Reset now result }
    {
        let ask = self.shown.bar.reset(now);
        self.obey(ask, now)
    }

    /// Finishes the bar at its length, if it has one, and forces a draw: the bar stays on the screen.
    pub fn finish(&mut self, now: Moment) -> Result<Drawn, Refusal>
        ensures { Obeys K.means T.view self.old self.new (Finish AndLeave) now result }
    {
        let ask = self.shown.bar.finish(now);
        self.obey(ask, now)
    }

    /// Finishes the bar at its length, if it has one, and forces a draw: the bar leaves the screen, and has no more lines.
    pub fn finish_and_clear(&mut self, now: Moment) -> Result<Drawn, Refusal>
        ensures { Obeys K.means T.view self.old self.new (Finish AndClear) now result }
    {
        let ask = self.shown.bar.finish_and_clear(now);
        self.obey(ask, now)
    }

    /// Finishes the bar where it is, for work that is given up, and forces a draw: the bar stays on the screen.
    pub fn abandon(&mut self, now: Moment) -> Result<Drawn, Refusal>
        ensures { Obeys K.means T.view self.old self.new (Finish Abandon) now result }
    {
        let ask = self.shown.bar.abandon(now);
        self.obey(ask, now)
    }

    /// Sets the position, for work that has already begun. Asks for no draw. The rate counts it with the next step, unless a tick and
    /// `reset_eta` follow.
    pub fn with_position(&mut self, position: u64, now: Moment) -> Result<Drawn, Refusal>
        ensures obeys { Obeys K.means T.view self.old self.new (WithPosition position) now result }
        ensures limited { result ≡ Ok Drawn.Limited }
    {
        let ask = self.shown.bar.with_position(position, now);
        self.obey(ask, now)
    }

    /// Sets the stored finish. It ends the bar by `finish_using_style`. Asks for no draw.
    pub fn with_finish(&mut self, finish: ProgressFinish, now: Moment) -> Result<Drawn, Refusal>
        ensures obeys { Obeys K.means T.view self.old self.new (WithFinish (finish_of finish)) now result }
        ensures limited { result ≡ Ok Drawn.Limited }
    {
        let ask = self.shown.bar.with_finish(finish, now);
        self.obey(ask, now)
    }

    /// Forces a draw, and changes nothing of the bar.
    pub fn force_draw(&mut self, now: Moment) -> Result<Drawn, Refusal>
        ensures { Obeys K.means T.view self.old self.new ForceDraw now result }
    {
        let ask = self.shown.bar.force_draw(now);
        self.obey(ask, now)
    }

    /// Sets the message, and asks for a draw. It shows only where the template has `{msg}` or `{wide_msg}`.
    ///
    /// Refused: `Memory`, only if the text isn't empty; then nothing has changed. Otherwise as a draw.
    pub fn set_message(&mut self, text: &str, now: Moment) -> Result<Drawn, Refusal>
        ensures { ObeysOrNot K.means T.view self.old self.new (SetMessage text.now) now result }
    {
        let asked = self.shown.bar.set_message(text, now);
        self.obey_unless(asked, now)
    }

    /// Sets the prefix, and asks for a draw. It shows only where the template has `{prefix}`.
    ///
    /// Refused: `Memory`, only if the text isn't empty; then nothing has changed. Otherwise as a draw.
    pub fn set_prefix(&mut self, text: &str, now: Moment) -> Result<Drawn, Refusal>
        ensures { ObeysOrNot K.means T.view self.old self.new (SetPrefix text.now) now result }
    {
        let asked = self.shown.bar.set_prefix(text, now);
        self.obey_unless(asked, now)
    }

    /// Sets the style, and gives it the bar's tab width. Asks for no draw.
    ///
    /// Refused: `Memory`, if the style has another tab width; then nothing has changed, and the style is dropped.
    pub fn set_style(&mut self, style: ProgressStyle<K>, now: Moment) -> Result<Drawn, Refusal>
        ensures obeys { ObeysOrNot K.means T.view self.old self.new (SetStyle style) now result }
        ensures memory { IfErr result (λ e. (e ≡ Refusal.Memory)
            × IsTrue (takes_memory (SetStyle style) (record_of self.old))) }
        ensures unchanged { OnErr result (self.new ≡ self.old) }
        ensures limited { IfOk result (λ drawn. drawn ≡ Drawn.Limited) }
    {
        let asked = self.shown.bar.set_style(style, now);
        self.obey_unless(asked, now)
    }

    /// Sets the style; the next draw uses it. Otherwise as `set_style`.
    ///
    /// ```
    /// let style = ProgressStyle::with_template(alloc, "{pos} of {len}")?;
    /// let drawn = bar.with_style(style, now)?; // Drawn::Limited; the next draw is in this style
    /// ```
    pub fn with_style(&mut self, style: ProgressStyle<K>, now: Moment) -> Result<Drawn, Refusal>
        ensures obeys { ObeysOrNot K.means T.view self.old self.new (SetStyle style) now result }
        ensures memory { IfErr result (λ e. (e ≡ Refusal.Memory)
            × IsTrue (takes_memory (SetStyle style) (record_of self.old))) }
        ensures unchanged { OnErr result (self.new ≡ self.old) }
        ensures limited { IfOk result (λ drawn. drawn ≡ Drawn.Limited) }
    {
        let asked = self.shown.bar.with_style(style, now);
        self.obey_unless(asked, now)
    }

    /// Sets the message, which shows only if the template has `{msg}` or `{wide_msg}`. Asks for no draw.
    ///
    /// Refused: `Memory`, only if the text isn't empty; then nothing has changed.
    pub fn with_message(&mut self, text: &str, now: Moment) -> Result<Drawn, Refusal>
        ensures obeys { ObeysOrNot K.means T.view self.old self.new (WithMessage text.now) now result }
        ensures memory { IfErr result (λ e. (e ≡ Refusal.Memory)
            × IsTrue (takes_memory (WithMessage text.now) (record_of self.old))) }
        ensures unchanged { OnErr result (self.new ≡ self.old) }
        ensures limited { IfOk result (λ drawn. drawn ≡ Drawn.Limited) }
    {
        let asked = self.shown.bar.with_message(text, now);
        self.obey_unless(asked, now)
    }

    /// Sets the prefix, which shows only if the template has `{prefix}`. Asks for no draw.
    ///
    /// Refused: `Memory`, only if the text isn't empty; then nothing has changed.
    pub fn with_prefix(&mut self, text: &str, now: Moment) -> Result<Drawn, Refusal>
        ensures obeys { ObeysOrNot K.means T.view self.old self.new (WithPrefix text.now) now result }
        ensures memory { IfErr result (λ e. (e ≡ Refusal.Memory)
            × IsTrue (takes_memory (WithPrefix text.now) (record_of self.old))) }
        ensures unchanged { OnErr result (self.new ≡ self.old) }
        ensures limited { IfOk result (λ drawn. drawn ≡ Drawn.Limited) }
    {
        let asked = self.shown.bar.with_prefix(text, now);
        self.obey_unless(asked, now)
    }

    /// Sets the tab width of the message, the prefix and the style, in spaces. Asks for no draw.
    ///
    /// Refused: `Memory`, only if the message or the prefix has a tab, or the style another tab width; then nothing has changed.
    pub fn with_tab_width(&mut self, tab: usize, now: Moment) -> Result<Drawn, Refusal>
        ensures obeys { ObeysOrNot K.means T.view self.old self.new (WithTabWidth tab) now result }
        ensures memory { IfErr result (λ e. (e ≡ Refusal.Memory)
            × IsTrue (takes_memory (WithTabWidth tab) (record_of self.old))) }
        ensures unchanged { OnErr result (self.new ≡ self.old) }
        ensures limited { IfOk result (λ drawn. drawn ≡ Drawn.Limited) }
    {
        let asked = self.shown.bar.with_tab_width(tab, now);
        self.obey_unless(asked, now)
    }

    /// Sets how many spaces a tab has in the message, the prefix and the style, and forces a draw.
    ///
    /// Refused: `Memory` as `with_tab_width`; then nothing has changed. Otherwise as a draw.
    pub fn set_tab_width(&mut self, tab: usize, now: Moment) -> Result<Drawn, Refusal>
        ensures { ObeysOrNot K.means T.view self.old self.new (SetTabWidth tab) now result }
    {
        let asked = self.shown.bar.set_tab_width(tab, now);
        self.obey_unless(asked, now)
    }

    /// Sets the time since the start, in nanoseconds, as `{elapsed}` shows it: for work that began before the bar. Asks for no draw.
    ///
    /// Refused: `ElapsedBeyondClock`, exactly if that is more than the moment; then nothing has changed.
    pub fn set_elapsed(&mut self, nanos: u64, now: Moment) -> Result<Drawn, Refusal>
        ensures obeys { ObeysOrNot K.means T.view self.old self.new (SetElapsed nanos) now result }
        ensures beyond { (result ≡ Err Refusal.ElapsedBeyondClock) ↔ (now < nanos) }
        ensures no_other { IfErr result (λ e. e ≡ Refusal.ElapsedBeyondClock) }
        ensures unchanged { OnErr result (self.new ≡ self.old) }
        ensures limited { IfOk result (λ drawn. drawn ≡ Drawn.Limited) }
    {
        let asked = self.shown.bar.set_elapsed(nanos, now);
        self.obey_unless(asked, now)
    }

    /// Sets the time since the start, as `set_elapsed`.
    ///
    /// ```
    /// let drawn = bar.with_elapsed(3_000_000_000, 4_000_000_000)?; // three seconds have passed at the fourth; Drawn::Limited
    /// ```
    pub fn with_elapsed(&mut self, nanos: u64, now: Moment) -> Result<Drawn, Refusal>
        ensures obeys { ObeysOrNot K.means T.view self.old self.new (SetElapsed nanos) now result }
        ensures beyond { (result ≡ Err Refusal.ElapsedBeyondClock) ↔ (now < nanos) }
        ensures no_other { IfErr result (λ e. e ≡ Refusal.ElapsedBeyondClock) }
        ensures unchanged { OnErr result (self.new ≡ self.old) }
        ensures limited { IfOk result (λ drawn. drawn ≡ Drawn.Limited) }
    {
        let asked = self.shown.bar.with_elapsed(nanos, now);
        self.obey_unless(asked, now)
    }

    /// Finishes the bar as `finish`, with this message, which shows only where the template has `{msg}` or `{wide_msg}`.
    ///
    /// Refused: `Memory`, only if the message isn't empty; then nothing has changed. Otherwise as a draw.
    pub fn finish_with_message(&mut self, text: &str, now: Moment) -> Result<Drawn, Refusal>
        ensures { ObeysOrNot K.means T.view self.old self.new (Finish (LeaveWithMessage text.now)) now result }
    {
        let asked = self.shown.bar.finish_with_message(text, now);
        self.obey_unless(asked, now)
    }

    /// Finishes the bar as `abandon`, with this message.
    ///
    /// Refused: as `finish_with_message`.
    pub fn abandon_with_message(&mut self, text: &str, now: Moment) -> Result<Drawn, Refusal>
        ensures { ObeysOrNot K.means T.view self.old self.new (Finish (AbandonWithMessage text.now)) now result }
    {
        let asked = self.shown.bar.abandon_with_message(text, now);
        self.obey_unless(asked, now)
    }

    /// Finishes the bar by its stored finish (`with_finish`; the default is `AndClear`), and forces a draw.
    ///
    /// Refused: `Memory`, only if that finish has a message that isn't empty; then nothing has changed. Otherwise as a draw.
    pub fn finish_using_style(&mut self, now: Moment) -> Result<Drawn, Refusal>
        ensures { ObeysOrNot K.means T.view self.old self.new FinishUsingStyle now result }
    {
        let asked = self.shown.bar.finish_using_style(now);
        self.obey_unless(asked, now)
    }

    /// Writes the text's lines above the bar, whatever the rate says. A line is ended by `\n` or `\r\n`; an empty text is one empty line;
    /// tabs stay as they are. The bar's lines are laid out again. On a hidden target the text is dropped.
    ///
    /// Refused: as a draw.
    pub fn println(&mut self, text: &str, now: Moment) -> Result<Drawn, Refusal>
        ensures bar { record_of self.new ≡ record_of self.old }
        ensures silent { IsFalse (wrote result) → lone_terminal self.new ≡ lone_terminal self.old }
        ensures nowhere { LoneIsNowhere T.view self.old → IsFalse (wrote result) }
        ensures moves { lone_moves self.new ≡ lone_moves self.old }
        ensures leads { LoneLeadsBy K.means T.view self.old self.new (Log text.now) now result }
    {
        let writing = Writing::TextAndFrame(text);
        self.shown
            .draw_on(&mut self.stage, Ask::Forced, writing, now)
    }

    /// Clears the bar's rows, whatever the rate says. The next draw shows them again. Takes no memory.
    pub fn clear(&mut self, now: Moment) -> Result<Drawn, Refusal>
        ensures bar { record_of self.new ≡ record_of self.old }
        ensures silent { IsFalse (wrote result) → lone_terminal self.new ≡ lone_terminal self.old }
        ensures nowhere { LoneIsNowhere T.view self.old → IsFalse (wrote result) }
        ensures moves { lone_moves self.new ≡ lone_moves self.old }
        ensures leads { LoneLeadsBy K.means T.view self.old self.new Clear now result }
    {
        self.shown
            .draw_on(&mut self.stage, Ask::Forced, Writing::NoFrame, now)
    }

    /// Makes the changes that the closure returns for the bar's state; then as `tick`.
    pub fn update<F: FnOnce(&ProgressState) -> Change>(
        &mut self,
        f: F,
        now: Moment,
    ) -> Result<Drawn, Refusal>
        requires { F.IsAlwaysCallable f }
        ensures { (change : Changed) × FnOnceReturnsAt F.FnOnce f (record_of self.old).progress change
            × Obeys K.means T.view self.old self.new (Update change.pos change.len) now result }
    {
        let ask = self.shown.bar.update(f, now);
        self.obey(ask, now)
    }
}
