//! Builders, which set up a wrapper's bar before it moves.
ghost use Rattle.std.specs.Prelude.{◌≡◌, IfOk, IfErr, Ok, Err};
ghost use Rattle.indicatif_bar.specs.Commands.{WithPosition, WithFinish, WithMessage, WithPrefix, SetStyle, SetElapsed};
ghost use Rattle.indicatif_bar.specs.Finishes.{finish_of};
ghost use Rattle.indicatif.specs.Owned.{Built, MayBuild};

use crate::wrappers::owned::OwnedBar;
use crate::wrappers::wrap::ProgressBarIter;
use indicatif_bar::state::ProgressFinish;
use indicatif_bar::style::{ProgressStyle, Tracks};
use indicatif_term::target::TermLike;
use indicatif_text::columns::{Clock, Drawn, Refusal};

/// Each of these asks for no draw, and leaves `last_draw` unchanged.
impl<I, K: Tracks, W: TermLike + Drop, C: Clock + Drop> ProgressBarIter<I, OwnedBar<K, W, C>> {
    /// Sets the position of the wrapper's own bar. The rate counts it with the next step: `ProgressBar::with_position` says what to do
    /// about that.
    pub fn with_position(self, position: u64) -> Self
        ensures { Built K.means W.view self (WithPosition position) result }
    {
        let mut wrapped = self;
        let now = wrapped.progress.clock.now();
        let _ = wrapped.progress.bar.with_position(position, now);
        wrapped
    }

    /// Sets what finishes the wrapper's own bar at the end.
    pub fn with_finish(self, finish: ProgressFinish) -> Self
        ensures { Built K.means W.view self (WithFinish (finish_of finish)) result }
    {
        let mut wrapped = self;
        let now = wrapped.progress.clock.now();
        let _ = wrapped.progress.bar.with_finish(finish, now);
        wrapped
    }
}

/// These ask for no draw either. One that is refused drops the wrapper, so wrap `&mut` of what you need afterwards.
impl<I: Drop, K: Tracks, W: TermLike + Drop, C: Clock + Drop> ProgressBarIter<
    I,
    OwnedBar<K, W, C>,
> {
    /// Sets the style of the wrapper's own bar.
    ///
    /// Refused: `Memory`.
    pub fn with_style(self, style: ProgressStyle<K>) -> Result<Self, Refusal>
        ensures { MayBuild K.means W.view self (SetStyle style) result }
    {
        let mut wrapped = self;
        let now = wrapped.progress.clock.now();
        let answer = wrapped.progress.bar.set_style(style, now);
        wrapped.unless_refused(answer)
    }

    /// Sets the prefix of the wrapper's own bar.
    ///
    /// Refused: `Memory`.
    pub fn with_prefix(self, text: &str) -> Result<Self, Refusal>
        ensures { MayBuild K.means W.view self (WithPrefix text.now) result }
    {
        let mut wrapped = self;
        let now = wrapped.progress.clock.now();
        let answer = wrapped.progress.bar.with_prefix(text, now);
        wrapped.unless_refused(answer)
    }

    /// Sets the message of the wrapper's own bar.
    ///
    /// Refused: `Memory`.
    pub fn with_message(self, text: &str) -> Result<Self, Refusal>
        ensures { MayBuild K.means W.view self (WithMessage text.now) result }
    {
        let mut wrapped = self;
        let now = wrapped.progress.clock.now();
        let answer = wrapped.progress.bar.with_message(text, now);
        wrapped.unless_refused(answer)
    }

    /// Sets the time since the start of the wrapper's own bar, in nanoseconds.
    ///
    /// Refused: `ElapsedBeyondClock`, if that is more than the moment of its clock.
    pub fn with_elapsed(self, nanos: u64) -> Result<Self, Refusal>
        ensures { MayBuild K.means W.view self (SetElapsed nanos) result }
    {
        let mut wrapped = self;
        let now = wrapped.progress.clock.now();
        let answer = wrapped.progress.bar.set_elapsed(nanos, now);
        wrapped.unless_refused(answer)
    }
}

impl<I: Drop, P: Drop> ProgressBarIter<I, P> {
    // Itself, unless this was refused.
    pub(crate) fn unless_refused(self, answer: Result<Drawn, Refusal>) -> Result<Self, Refusal>
        ensures itself { IfOk answer (λ _. result ≡ Ok self) }
        ensures refused { IfErr answer (λ e. result ≡ Err e) }
    {
        answer?;
        Ok(self)
    }
}
