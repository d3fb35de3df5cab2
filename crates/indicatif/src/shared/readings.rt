//! Readings of a shared bar.
ghost use Rattle.std.specs.Prelude.{◌≡◌, IfErr};
ghost use Rattle.indicatif.specs.Fronts.{IsMissing};

use crate::shared::ProgressBar;
use indicatif_bar::state::{ProgressState, Rate};
use indicatif_bar::style::{ProgressStyle, Tracks};
use indicatif_term::target::TermLike;
use indicatif_text::columns::{Clock, Refusal};
use std::sync::Wait;

impl<T: TermLike + Drop, C: Clock + Drop, R: Wait + Clone + Drop, K: Tracks> ProgressBar<
    T,
    C,
    R,
    K,
> {
    /// What the closure returns for the bar's state; `None` if its board hasn't the bar.
    fn read<F: FnOnce(&ProgressState) -> A, A>(&self, f: F) -> Option<A>
        requires { F.IsAlwaysCallable f }
    {
        self.state.lock.lock(&self.rt).bar().read(&self.rt, f)
    }

    /// Lends the terminal to `f` under the lock; `None` if the target is hidden. A call of this bar inside `f`, or of any bar of its board,
    /// deadlocks.
    pub fn with_term<F: FnOnce(Option<&T>) -> A, A>(&self, f: F) -> A
        requires { F.IsAlwaysCallable f }
        ensures { (shown : _) × F.post f shown result }
    {
        let locked = self.state.lock.lock(&self.rt);
        locked.bar().with_term(&self.rt, f)
    }

    /// The position; 0 if its board hasn't the bar.
    pub fn position(&self) -> u64 {
        self.read(|state| state.pos()).unwrap_or(0)
    }

    /// The length, if there is one; also `None` if its board hasn't the bar.
    pub fn length(&self) -> Option<u64> {
        self.read(|state| state.len()).flatten()
    }

    /// How often the bar has ticked, at most 2^64 - 1; 0 if its board hasn't the bar.
    pub fn ticks(&self) -> u64 {
        self.read(|state| state.ticks()).unwrap_or(0)
    }

    /// Whether the bar is finished, or its board hasn't it.
    pub fn is_finished(&self) -> bool {
        self.read(|state| state.is_finished()).unwrap_or(true)
    }

    /// Whether the target is hidden (on a board, the board's target): then nothing is drawn until another is set.
    pub fn is_hidden(&self) -> bool {
        self.state.lock.lock(&self.rt).bar().is_hidden(&self.rt)
    }

    /// The tab width; 8 if its board hasn't the bar.
    pub fn tab_width(&self) -> usize {
        self.state.lock.lock(&self.rt).bar().tab_width(&self.rt)
    }

    /// The message, with its tabs expanded.
    ///
    /// Refused: `Memory`; `ForeignBar` or `NotMember` if its board hasn't the bar.
    #[tactic(auto, using(crate::proofs::FrontLemmas::place_untold))]
    pub fn message(&self) -> Result<String, Refusal>
        ensures { IfErr result IsMissing }
    {
        let locked = self.state.lock.lock(&self.rt);
        locked.bar().message(&self.rt, self.alloc)
    }

    /// The prefix, with its tabs expanded.
    ///
    /// Refused: `Memory`; `ForeignBar` or `NotMember` if its board hasn't the bar.
    #[tactic(auto, using(crate::proofs::FrontLemmas::place_untold))]
    pub fn prefix(&self) -> Result<String, Refusal>
        ensures { IfErr result IsMissing }
    {
        let locked = self.state.lock.lock(&self.rt);
        locked.bar().prefix(&self.rt, self.alloc)
    }

    /// A copy of the bar's style, or of that of `default_bar` if its board hasn't the bar. Changes of the copy leave the bar unchanged.
    ///
    /// ```
    /// let style = bar.style()?.template("{pos}")?; // another template for the same characters
    /// let drawn = bar.set_style(style)?; // Drawn::Limited; the next draw is in this style
    /// ```
    ///
    /// Refused: `Memory`.
    pub fn style(&self) -> Result<ProgressStyle<K>, Refusal>
        ensures { IfErr result (λ e. e ≡ Refusal.Memory) }
    {
        let locked = self.state.lock.lock(&self.rt);
        locked.bar().style(&self.rt, self.alloc)
    }

    /// The nanoseconds that are left, at the rate so far, at most 2^64 - 1; 0 if the bar is finished, has no length or no rate, or its
    /// board hasn't it.
    pub fn eta(&self) -> u64 {
        self.state.lock.lock(&self.rt).eta(&self.rt)
    }

    /// The rate so far; no steps if its board hasn't the bar.
    pub fn per_sec(&self) -> Rate {
        self.state.lock.lock(&self.rt).per_sec(&self.rt)
    }

    /// The nanoseconds that the whole work takes, at the rate so far, at most 2^64 - 1; 0 without a length. For a finished bar, the
    /// nanoseconds that it took. 0 if its board hasn't the bar.
    pub fn duration(&self) -> u64 {
        self.state.lock.lock(&self.rt).duration(&self.rt)
    }

    /// The nanoseconds since the start; 0 if its board hasn't the bar.
    pub fn elapsed(&self) -> u64 {
        self.state.lock.lock(&self.rt).elapsed(&self.rt)
    }
}
