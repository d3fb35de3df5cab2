//! Constructors of shared bars.
ghost use Rattle.std.specs.Prelude.{◌≡◌, IfErr};

use crate::shared::ProgressBar;
use crate::shared::locked_bar::LockedBar;
use crate::shared::shared_bar::SharedBar;
use indicatif_bar::lone::LoneBar;
use indicatif_bar::state::BarState;
use indicatif_bar::style::{ProgressStyle, Tracks};
use indicatif_term::target::{ProgressDrawTarget, Setup, TermLike};
use indicatif_text::columns::{Clock, Refusal};
use std::alloc::Global;
use std::sync::{Arc, Condvar, Mutex, Wait};

/// Bars whose styles have no keys of your own.
impl<T: TermLike + Drop, C: Clock + Drop, R: Wait + Clone + Drop> ProgressBar<T, C, R> {
    /// A bar of this length in the style `{wide_bar} {pos}/{len}`, which draws nothing yet.
    ///
    /// Refused: `Memory`; nothing is made, and the arguments are dropped.
    pub fn new(rt: R, alloc: Global, len: u64, setup: Setup<T, C>) -> Result<Self, Refusal>
        ensures { IfErr result (λ e. e ≡ Refusal.Memory) }
    {
        ProgressBar::plain(rt, alloc, Some(len), setup)
    }

    /// A bar without a length in the style `{wide_bar} {pos}/{len}`, which draws nothing yet: it stays empty, and `{len}` shows the
    /// position.
    ///
    /// Refused: `Memory`; nothing is made, and the arguments are dropped.
    pub fn no_length(rt: R, alloc: Global, setup: Setup<T, C>) -> Result<Self, Refusal>
        ensures { IfErr result (λ e. e ≡ Refusal.Memory) }
    {
        ProgressBar::plain(rt, alloc, None, setup)
    }

    /// A hidden bar without a length, in the style `{wide_bar} {pos}/{len}`. It is drawn once a board takes it in or it gets another
    /// target.
    ///
    /// Refused: `Memory`; nothing is made, and the arguments are dropped.
    pub fn hidden(rt: R, alloc: Global, clock: C) -> Result<Self, Refusal>
        ensures { IfErr result (λ e. e ≡ Refusal.Memory) }
    {
        let target = ProgressDrawTarget::hidden();
        ProgressBar::plain(rt, alloc, None, Setup { target, clock })
    }

    /// A bar without a length in the style `{spinner} {msg}`, which draws nothing yet.
    ///
    /// Refused: `Memory`; nothing is made, and the arguments are dropped.
    pub fn new_spinner(rt: R, alloc: Global, setup: Setup<T, C>) -> Result<Self, Refusal>
        ensures { IfErr result (λ e. e ≡ Refusal.Memory) }
    {
        ProgressBar::spinning(rt, alloc, setup)
    }

    /// A bar with this length or none on this target, with this clock, in the style `{wide_bar} {pos}/{len}`. It draws nothing yet.
    ///
    /// Refused: `Memory`; nothing is made, and the arguments are dropped.
    pub fn with_draw_target(
        rt: R,
        alloc: Global,
        len: Option<u64>,
        target: ProgressDrawTarget<T>,
        clock: C,
    ) -> Result<Self, Refusal>
        ensures { IfErr result (λ e. e ≡ Refusal.Memory) }
    {
        ProgressBar::plain(rt, alloc, len, Setup { target, clock })
    }
}

impl<T: TermLike + Drop, C: Clock + Drop, R: Wait + Clone + Drop, K: Tracks> ProgressBar<
    T,
    C,
    R,
    K,
> {
    /// A bar with this length or none in this style, which may have keys of your own. It draws nothing yet.
    ///
    /// ```
    /// let bar = ProgressBar::styled(rt, alloc, style.with_key("left", left)?, Some(10), setup)?;
    /// ```
    ///
    /// Refused: `Memory`; nothing is made, and the arguments are dropped.
    pub fn styled(
        rt: R,
        alloc: Global,
        style: ProgressStyle<K>,
        len: Option<u64>,
        setup: Setup<T, C>,
    ) -> Result<Self, Refusal>
        ensures { IfErr result (λ e. e ≡ Refusal.Memory) }
    {
        let Setup { target, mut clock } = setup;
        let now = clock.now();
        let bar = BarState::styled(alloc, style, len, now)?;
        let locked = LockedBar::owned(LoneBar::new(bar, target), clock);
        let cell = SharedBar {
            lock: Mutex::new(locked),
            changed: Condvar::new(),
        };
        match Arc::new(alloc, cell) {
            Ok(state) => Ok(ProgressBar { state, alloc, rt }),
            Err(_) => Err(Refusal::Memory),
        }
    }

    /// A bar in the style `{wide_bar} {pos}/{len}`.
    pub(crate) fn plain(
        rt: R,
        alloc: Global,
        len: Option<u64>,
        setup: Setup<T, C>,
    ) -> Result<Self, Refusal>
        ensures { IfErr result (λ e. e ≡ Refusal.Memory) }
    {
        let style = ProgressStyle::default_bar(alloc)?;
        ProgressBar::styled(rt, alloc, style, len, setup)
    }

    /// A bar in the style `{spinner} {msg}`.
    pub(crate) fn spinning(rt: R, alloc: Global, setup: Setup<T, C>) -> Result<Self, Refusal>
        ensures { IfErr result (λ e. e ≡ Refusal.Memory) }
    {
        let style = ProgressStyle::default_spinner(alloc)?;
        ProgressBar::styled(rt, alloc, style, None, setup)
    }
}
