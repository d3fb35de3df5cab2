//! Your own keys of a template.
ghost use Rattle.std.specs.Prelude.{◌≡◌, ℕ, List, ◌++◌, [], IfOk, IfErr, OnOk, OnErr, string_bytes};
ghost use Rattle.indicatif_bar.specs.Progress.{Progress};
ghost use Rattle.indicatif_bar.specs.Trackers.{Tracking, writes_nothing, telling, entries, changed_trackers};

use crate::progress::ProgressState;
use indicatif_text::columns::{Moment, Refusal};
use std::alloc::Global;
use std::marker::Model;
use std::sync::Arc;

/// What one of your own keys shows in a template.
///
/// Its meaning is one record: its text at a state and a moment, and how a tick and a reset change it. The text depends on nothing but the
/// tracker, the state and the moment. Each tick of a bar ticks its trackers, and so does another length, message or prefix; a reset of the
/// bar resets them.
///
/// ```
/// // `Left { of: 10 }` writes how many of 10 steps are left: "files 7" at the position 3
/// let style = ProgressStyle::with_template(alloc, "{msg} {left}")?.with_key("left", Left { of: 10 })?;
/// ```
pub trait ProgressTracker: Sized + Send + Sync + Drop {
    /// The text, and how a tick and a reset change the tracker.
    ghost means: { Tracking Self };

    /// The bar has ticked, or got another length, message or prefix, and is in this state at this moment.
    fn tick(&mut self, state: &ProgressState, now: Moment)
        ensures { self.new ≡ means.ticked self.old state.now now };

    /// The bar was reset, and is in this state at this moment.
    fn reset(&mut self, state: &ProgressState, now: Moment)
        ensures { self.new ≡ means.was_reset self.old state.now now };

    /// Appends the tracker's text. A tab in it is shown as the bar's other tabs are.
    ///
    /// Refused: `Memory`; then `out` is unchanged.
    fn write(&self, state: &ProgressState, now: Moment, out: &mut String) -> Result<(), Refusal>
        ensures text { OnOk result (string_bytes out.new
            ≡ string_bytes out.old ++ means.text self.now state.now now) }
        ensures unchanged { OnErr result (string_bytes out.new ≡ string_bytes out.old) }
        ensures memory { IfErr result (λ e. e ≡ Refusal.Memory) };

    /// A copy of the tracker.
    ///
    /// Refused: `Memory`.
    fn try_clone(&self) -> Result<Self, Refusal>
        ensures same { IfOk result (λ other. other ≡ self.now) }
        ensures memory { IfErr result (λ e. e ≡ Refusal.Memory) };
}

/// What a bar needs from the trackers of its keys: the calls of `ProgressTracker`, without that trait's two bounds on threads. Every
/// `ProgressTracker` implements it, so implement that one. Use this one as the bound of a function over bars with any trackers.
///
/// ```
/// fn step<K: Tracks, T: TermLike + Drop>(bar: &mut LoneBar<K, T>, now: Moment) -> Result<Drawn, Refusal> {
///     bar.inc(1, now)
/// }
/// ```
pub trait Tracks: Sized + Drop {
    /// The text, and how a tick and a reset change the tracker.
    ghost means: { Tracking Self };

    /// Ticks the tracker, as `ProgressTracker::tick`.
    fn track_tick(&mut self, state: &ProgressState, now: Moment)
        ensures { self.new ≡ means.ticked self.old state.now now };

    /// Resets the tracker, as `ProgressTracker::reset`.
    fn track_reset(&mut self, state: &ProgressState, now: Moment)
        ensures { self.new ≡ means.was_reset self.old state.now now };

    /// Appends the tracker's text, as `ProgressTracker::write`.
    ///
    /// Refused: `Memory`; then `out` is unchanged.
    fn track_text(
        &self,
        state: &ProgressState,
        now: Moment,
        out: &mut String,
    ) -> Result<(), Refusal>
        ensures text { OnOk result (string_bytes out.new
            ≡ string_bytes out.old ++ means.text self.now state.now now) }
        ensures unchanged { OnErr result (string_bytes out.new ≡ string_bytes out.old) }
        ensures memory { IfErr result (λ e. e ≡ Refusal.Memory) };

    /// A copy of the tracker, as `ProgressTracker::try_clone`.
    ///
    /// Refused: `Memory`.
    fn track_clone(&self) -> Result<Self, Refusal>
        ensures same { IfOk result (λ other. other ≡ self.now) }
        ensures memory { IfErr result (λ e. e ≡ Refusal.Memory) };
}

/// Every `ProgressTracker`, by its own calls.
impl<K: ProgressTracker> Tracks for K {
    ghost means = { K.means };

    fn track_tick(&mut self, state: &ProgressState, now: Moment) {
        self.tick(state, now);
    }

    fn track_reset(&mut self, state: &ProgressState, now: Moment) {
        self.reset(state, now);
    }

    fn track_text(
        &self,
        state: &ProgressState,
        now: Moment,
        out: &mut String,
    ) -> Result<(), Refusal> {
        self.write(state, now, out)
    }

    fn track_clone(&self) -> Result<K, Refusal> {
        self.try_clone()
    }
}

/// The tracker of a style without your own keys: its text is empty.
///
/// ```
/// let bar = BarState::<NoTracker>::new(alloc, Some(10), now)?;
/// ```
#[derive(Clone, Copy, Debug, Drop, PartialEq, Eq)]
pub struct NoTracker;

impl ProgressTracker for NoTracker {
    ghost means = { writes_nothing };

    fn tick(&mut self, _state: &ProgressState, _now: Moment) {}

    fn reset(&mut self, _state: &ProgressState, _now: Moment) {}

    fn write(
        &self,
        _state: &ProgressState,
        _now: Moment,
        _out: &mut String,
    ) -> Result<(), Refusal> {
        Ok(())
    }

    fn try_clone(&self) -> Result<NoTracker, Refusal> {
        Ok(*self)
    }
}

/// Gives the text of an `FnTracker`: your own type, which states its text. To use a closure, keep it in such a type, beside the fact of
/// what it returns.
///
/// ```
/// struct Always {
///     text: String,
/// }
///
/// impl TellsText for Always {
///     ghost told_text = { λ always p now. string_bytes always.text };
///
///     fn tell(&self, _state: &ProgressState, _now: Moment) -> Result<String, Refusal> {
///         Ok(self.text.clone()?)
///     }
/// }
/// ```
pub trait TellsText: Sized + Send + Sync + Drop {
    /// The text at a state and a moment, in bytes of UTF-8.
    ghost told_text: { Self → Progress → ℕ → List ℕ };

    /// Returns the tracker's text in this state at this moment.
    ///
    /// Refused: `Memory`.
    fn tell(&self, state: &ProgressState, now: Moment) -> Result<String, Refusal>
        ensures text { IfOk result (λ text. string_bytes text ≡ told_text self.now state.now now) }
        ensures memory { IfErr result (λ e. e ≡ Refusal.Memory) };
}

/// A tracker whose text comes from a value of your own type, which its copies share. Ticks and resets don't change it.
///
/// ```
/// let tracker = FnTracker::new(alloc, Always { text: String::from_str(alloc, "ready")? })?;
/// let style = ProgressStyle::with_template(alloc, "{word}!")?.with_key("word", tracker)?; // such a bar says `ready!`
/// ```
#[derive(Drop)]
pub struct FnTracker<F> {
    teller: Arc<F, Global>,
}

/// Contracts see the value that gives the text.
impl<F> Model for FnTracker<F> {
    ghost use Rattle.std.specs.Arc.{arc_value};

    ghost Value = { F };

    ghost view = { λ tracker. arc_value tracker.teller };
}

impl<F: TellsText> FnTracker<F> {
    /// A tracker with the text of `teller`.
    ///
    /// Refused: `Memory`; the teller is dropped.
    pub fn new(alloc: Global, teller: F) -> Result<FnTracker<F>, Refusal>
        ensures teller { IfOk result (λ tracker. tracker ≡ teller) }
        ensures memory { IfErr result (λ e. e ≡ Refusal.Memory) }
    {
        match Arc::new(alloc, teller) {
            Ok(teller) => Ok(FnTracker { teller }),
            Err(_) => Err(Refusal::Memory),
        }
    }
}

impl<F: TellsText> ProgressTracker for FnTracker<F> {
    ghost means = { telling F.told_text };

    fn tick(&mut self, _state: &ProgressState, _now: Moment) {}

    fn reset(&mut self, _state: &ProgressState, _now: Moment) {}

    fn write(&self, state: &ProgressState, now: Moment, out: &mut String) -> Result<(), Refusal> {
        let text = self.teller.tell(state, now)?;
        out.push_str(text.as_str())?;
        Ok(())
    }

    fn try_clone(&self) -> Result<FnTracker<F>, Refusal> {
        match Arc::try_clone(&self.teller) {
            Ok(teller) => Ok(FnTracker { teller }),
            Err(_) => Err(Refusal::Memory),
        }
    }
}

/// Ticks the trackers of these entries.
pub(crate) fn tick_all<K: Tracks>(keys: &mut Vec<(String, K)>, state: &ProgressState, now: Moment)
    ensures { entries keys.new.items
        ≡ changed_trackers (λ k. K.means.ticked k state.now now) (entries keys.old.items) }
{
    for entry in keys.iter_mut() {
        entry.1.track_tick(state, now);
    }
}

/// Resets the trackers of these entries.
pub(crate) fn reset_all<K: Tracks>(keys: &mut Vec<(String, K)>, state: &ProgressState, now: Moment)
    ensures { entries keys.new.items
        ≡ changed_trackers (λ k. K.means.was_reset k state.now now) (entries keys.old.items) }
{
    for entry in keys.iter_mut() {
        entry.1.track_reset(state, now);
    }
}
