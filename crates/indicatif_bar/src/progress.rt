//! A bar's progress, as its style and its trackers see it.
ghost use Rattle.std.specs.Prelude.{◌≡◌, ◌+◌, ◌||◌, min, OnOk, OnErr, IfOk, IfErr, IsTrue};
ghost use Rattle.indicatif_bar.specs.Measures.{greatest_u64, recorded};
ghost use Rattle.indicatif_bar.specs.Tabs.{has_tab, is_some_text};
ghost use Rattle.indicatif_bar.specs.Progress.{Progress, is_finished, is_hidden, fraction, eta, duration, per_sec, elapsed, shown_message, shown_prefix, new_progress, rate_reset, progress_reset, at_end};
ghost use Rattle.indicatif_bar.specs.Finishes.{finish_as, finished_by, finish_takes_memory};
ghost use Rattle.indicatif_bar.specs.Inside.Progress.{IsWidened};
ghost use Rattle.indicatif_bar.specs.declared.progress.Status.TheVariants.{DoneVisible};

use crate::finish::ProgressFinish;
use crate::measures::Samples;
pub use crate::measures::{Fraction, Rate};
use crate::tabbed_text::TabbedText;
use crate::text::Text;
use indicatif_text::columns::{Moment, Refusal};
use std::alloc::Global;
use std::fmt::{self, Debug, Formatter};
use std::marker::Model;
use std::mem::swap;

/// Whether a bar is in progress, or how it was finished.
#[derive(Clone, Copy, Drop)]
pub(crate) enum Status {
    /// In progress.
    InProgress,
    /// Finished, and still on the screen.
    DoneVisible,
    /// Finished, and gone from the screen.
    DoneHidden,
}

/// A bar's progress: its position, its length, its speed and its texts.
///
/// Moments and times are nanoseconds; a time from a start to an earlier moment is 0. No reading overflows: products are
/// made in 128 bits, and times stop at 2^64 - 1.
///
/// ```
/// bar.reset_eta(1_000_000_000);
/// bar.set_position(3, 2_000_000_000); // it stood at 2
/// let rate = bar.state().per_sec(2_000_000_000); // 1 step in 1,000,000,000 nanoseconds
/// ```
pub struct ProgressState {
    alloc: Global,
    position: u64,
    len: Option<u64>,
    ticks: u64,
    start: Moment,
    status: Status,
    took: u64,
    samples: Samples,
    message: TabbedText,
    prefix: TabbedText,
    /// Memory for the next text.
    spare: TabbedText,
    tab: usize,
}

impl Drop for ProgressState {
    fn drop(self) {
        let ProgressState {
            alloc: _,
            position: _,
            len: _,
            ticks: _,
            start: _,
            status: _,
            took: _,
            samples: _,
            message: _,
            prefix: _,
            spare: _,
            tab: _,
        } = self;
    }
}

/// Shows the position and the length.
impl Debug for ProgressState {
    fn fmt<W: fmt::Write>(&self, f: &mut Formatter<W>) -> fmt::Result {
        f.debug_struct("ProgressState")
            .field("position", &self.position)
            .field("len", &self.len)
            .finish_non_exhaustive()
    }
}

/// Contracts see the progress, and the texts as they were set.
impl Model for ProgressState {
    ghost use Rattle.std.specs.Prelude.{◌≡◌};
    ghost use Rattle.indicatif_bar.specs.Progress.{Progress};

    ghost Value = { Progress };

    ghost view = { λ p. record {
      position = p.position;
      len = p.len;
      ticks = p.ticks;
      start = p.start;
      status = p.status;
      took = p.took;
      samples = p.samples;
      message = p.message.text;
      prefix = p.prefix.text;
      tab = p.tab;
    } };

    ghost invariant = { λ p. (p.message.tab ≡ p.tab) × (p.prefix.tab ≡ p.tab) };
}

impl ProgressState {
    /// No progress yet, with this length or none, from this moment on. Takes no memory.
    pub(crate) fn new(alloc: Global, len: Option<u64>, now: Moment) -> Self
        ensures { result ≡ new_progress len now }
    {
        ProgressState {
            alloc,
            position: 0,
            len,
            ticks: 0,
            start: now,
            status: Status::InProgress,
            took: 0,
            samples: Samples::new(now),
            message: TabbedText::new(alloc, 8),
            prefix: TabbedText::new(alloc, 8),
            spare: TabbedText::new(alloc, 8),
            tab: 8,
        }
    }

    /// The allocator of the progress's texts.
    pub(crate) fn alloc(&self) -> Global {
        self.alloc
    }

    /// Whether the bar is finished.
    pub fn is_finished(&self) -> bool
        ensures { result ≡ is_finished self.now }
    {
        match self.status {
            Status::InProgress => false,
            Status::DoneVisible | Status::DoneHidden => true,
        }
    }

    /// The part of the length that is done, at most all of it: 0 without a length, 1 at length 0.
    pub fn fraction(&self) -> Fraction
        ensures { result ≡ fraction self.now }
    {
        Fraction::of(self.position, self.len)
    }

    /// The nanoseconds from the start to this moment; 0 at a moment before the start.
    pub fn elapsed(&self, now: Moment) -> u64
        ensures { result ≡ elapsed self.now now }
    {
        now.saturating_sub(self.start)
    }

    /// The steps since the last reset of the rate over the time since then, at this moment. For a finished bar, its position over the time
    /// since its start. No steps if there is no time.
    pub fn per_sec(&self, now: Moment) -> Rate
        ensures { result ≡ per_sec self.now now }
    {
        if self.is_finished() {
            return Rate::over(self.position, self.elapsed(now));
        }
        self.samples.rate(now)
    }

    /// The nanoseconds to the end at the rate of this moment, rounded down, at most 2^64 - 1. 0 if the bar is finished, has no length, or
    /// makes no steps.
    pub fn eta(&self, now: Moment) -> u64
        ensures { result ≡ eta self.now now }
    {
        let Some(len) = self.len else {
            return 0;
        };
        if self.is_finished() {
            return 0;
        }
        let left = len.saturating_sub(self.position);
        self.per_sec(now).time_for(left)
    }

    /// The nanoseconds from the start to the end. For a finished bar, those that it took; otherwise those so far and those to come, at most
    /// 2^64 - 1, and 0 without a length.
    pub fn duration(&self, now: Moment) -> u64
        ensures { result ≡ duration self.now now }
    {
        if self.is_finished() {
            return self.took;
        }
        match self.len {
            None => 0,
            Some(_) => self.elapsed(now).saturating_add(self.eta(now)),
        }
    }

    /// The bar's position.
    pub fn pos(&self) -> u64
        ensures { result ≡ self.now.position }
    {
        self.position
    }

    /// Sets the position. Nothing else changes: the rate doesn't count it.
    pub fn set_pos(&mut self, position: u64)
        ensures { self.new ≡ record self.old { position = position } }
    {
        self.position = position;
    }

    /// The bar's length, if there is one.
    pub fn len(&self) -> Option<u64>
        ensures { result ≡ self.now.len }
    {
        self.len
    }

    /// Sets the length. Nothing else changes.
    pub fn set_len(&mut self, len: u64)
        ensures { self.new ≡ record self.old { len = Some len } }
    {
        self.len = Some(len);
    }

    /// How often the bar has ticked, at most 2^64 - 1.
    pub fn ticks(&self) -> u64
        ensures { result ≡ self.now.ticks }
    {
        self.ticks
    }

    /// Whether the status is that of a bar that was finished and left the screen: then it has no lines.
    pub(crate) fn is_hidden(&self) -> bool
        ensures { result ≡ is_hidden self.now }
    {
        match self.status {
            Status::DoneHidden => true,
            Status::InProgress | Status::DoneVisible => false,
        }
    }

    /// A copy of the progress.
    ///
    /// Refused: `Memory`.
    pub(crate) fn try_clone(&self) -> Result<ProgressState, Refusal>
        ensures same { IfOk result (λ other. other ≡ self.now) }
        ensures memory { IfErr result (λ e. e ≡ Refusal.Memory) }
    {
        Ok(ProgressState {
            alloc: self.alloc,
            position: self.position,
            len: self.len,
            ticks: self.ticks,
            start: self.start,
            status: self.status,
            took: self.took,
            samples: self.samples,
            message: self.message.try_clone(self.alloc)?,
            prefix: self.prefix.try_clone(self.alloc)?,
            spare: TabbedText::new(self.alloc, self.tab),
            tab: self.tab,
        })
    }

    /// The message of the progress, with its tabs expanded.
    pub(crate) fn message(&self) -> &str
        ensures { result.now ≡ shown_message self.now }
    {
        self.message.as_expanded()
    }

    /// The prefix of the progress, with its tabs expanded.
    pub(crate) fn prefix(&self) -> &str
        ensures { result.now ≡ shown_prefix self.now }
    {
        self.prefix.as_expanded()
    }

    /// The tab width of the progress.
    pub(crate) fn tab_width(&self) -> usize
        ensures { result ≡ self.now.tab }
    {
        self.tab
    }

    /// Sets or removes the length of the progress.
    pub(crate) fn put_len(&mut self, len: Option<u64>)
        ensures { self.new ≡ record self.old { len = len } }
    {
        self.len = len;
    }

    /// Counts one more tick, up to 2^64 - 1.
    pub(crate) fn count_tick(&mut self)
        ensures { self.new ≡ record self.old { ticks = min (self.old.ticks + 1) greatest_u64 } }
    {
        self.ticks = self.ticks.saturating_add(1);
    }

    /// Records the position of the progress with its rate.
    pub(crate) fn record_position(&mut self, now: Moment)
        ensures { self.new ≡ record self.old { samples = recorded self.old.samples self.old.position now } }
    {
        self.samples = self.samples.record(self.position, now);
    }

    /// Counts the rate of the progress from this moment on.
    pub(crate) fn reset_rate(&mut self, now: Moment)
        ensures { self.new ≡ rate_reset self.old now }
    {
        self.samples = self.samples.restart(now);
    }

    /// Counts the time of the progress from this moment on.
    pub(crate) fn put_start(&mut self, start: Moment)
        ensures { self.new ≡ record self.old { start = start } }
    {
        self.start = start;
    }

    /// Counts the whole progress from this moment on, and sets the position to 0.
    pub(crate) fn reset(&mut self, now: Moment)
        ensures { self.new ≡ progress_reset self.old now }
    {
        self.samples = self.samples.restart(now);
        self.start = now;
        self.position = 0;
        self.status = Status::InProgress;
    }

    /// Finishes the progress at this moment, at the length if there is one.
    pub(crate) fn finish(&mut self, status: Status, now: Moment)
        ensures { self.new ≡ record (at_end self.old) { took = elapsed self.old now; status = status } }
    {
        self.took = self.elapsed(now);
        if let Some(len) = self.len {
            self.position = len;
        }
        self.status = status;
    }

    /// Finishes the progress at this moment, where it stands.
    pub(crate) fn abandon(&mut self, now: Moment)
        ensures { self.new ≡ record self.old { took = elapsed self.old now; status = DoneVisible } }
    {
        self.took = self.elapsed(now);
        self.status = Status::DoneVisible;
    }

    /// Finishes the progress by this finish at this moment.
    ///
    /// Refused: `Memory`, if the finish has a message; then nothing has changed.
    pub(crate) fn finish_by<S: Text>(
        &mut self,
        finish: &ProgressFinish<S>,
        now: Moment,
    ) -> Result<(), Refusal>
        ensures done { OnOk result (self.new ≡ finished_by (finish_as S.bytes finish.now) (record self.old { took = elapsed self.old now })) }
        ensures unchanged { OnErr result (self.new ≡ self.old) }
        ensures memory { IfErr result (λ e. (e ≡ Refusal.Memory) × IsTrue (finish_takes_memory (finish_as S.bytes finish.now))) }
    {
        match finish {
            ProgressFinish::AndLeave => self.finish(Status::DoneVisible, now),
            ProgressFinish::WithMessage(text) => {
                self.set_message(text.as_text())?;
                self.finish(Status::DoneVisible, now);
            }
            ProgressFinish::AndClear => self.finish(Status::DoneHidden, now),
            ProgressFinish::Abandon => self.abandon(now),
            ProgressFinish::AbandonWithMessage(text) => {
                self.set_message(text.as_text())?;
                self.abandon(now);
            }
        }
        Ok(())
    }

    /// Sets the message of the progress.
    ///
    /// Refused: `Memory`, if the text isn't empty; then nothing has changed.
    pub(crate) fn set_message(&mut self, text: &str) -> Result<(), Refusal>
        ensures done { OnOk result (self.new ≡ record self.old { message = text.now }) }
        ensures unchanged { OnErr result (self.new ≡ self.old) }
        ensures memory { IfErr result (λ e. (e ≡ Refusal.Memory) × IsTrue (is_some_text text.now)) }
    {
        self.spare.refill(text, self.tab)?;
        swap(&mut self.message, &mut self.spare);
        Ok(())
    }

    /// Sets the prefix of the progress.
    ///
    /// Refused: `Memory`, if the text isn't empty; then nothing has changed.
    pub(crate) fn set_prefix(&mut self, text: &str) -> Result<(), Refusal>
        ensures done { OnOk result (self.new ≡ record self.old { prefix = text.now }) }
        ensures unchanged { OnErr result (self.new ≡ self.old) }
        ensures memory { IfErr result (λ e. (e ≡ Refusal.Memory) × IsTrue (is_some_text text.now)) }
    {
        self.spare.refill(text, self.tab)?;
        swap(&mut self.prefix, &mut self.spare);
        Ok(())
    }

    /// The texts of the progress with another tab width, in memory of their own.
    ///
    /// Refused: `Memory`.
    pub(crate) fn widened(&self, tab: usize) -> Result<Widened, Refusal>
        ensures fits { IfOk result (λ w. IsWidened w self.now) }
        ensures tab { IfOk result (λ w. w.tab ≡ tab) }
        ensures memory { IfErr result (λ e. (e ≡ Refusal.Memory)
            × IsTrue (has_tab self.now.message || has_tab self.now.prefix)) }
    {
        Ok(Widened {
            tab,
            message: self.message.at_width(self.alloc, tab)?,
            prefix: self.prefix.at_width(self.alloc, tab)?,
        })
    }

    /// Takes the texts of the progress with another tab width.
    pub(crate) fn put_tab_width(&mut self, widened: Widened)
        requires { IsWidened widened self.old }
        ensures { self.new ≡ record self.old { tab = widened.tab } }
    {
        self.message.put_width(widened.message, widened.tab);
        self.prefix.put_width(widened.prefix, widened.tab);
        self.tab = widened.tab;
    }
}

/// The texts of a bar with another tab width, if they have tabs.
#[derive(Drop)]
pub(crate) struct Widened {
    tab: usize,
    message: String,
    prefix: String,
}
