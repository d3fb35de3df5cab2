//! Builders, which set up a shared bar before it moves.
ghost use Rattle.std.specs.Prelude.{IfErr, Err};
ghost use Rattle.indicatif_bar.specs.Commands as Command;
ghost use Rattle.indicatif_bar.specs.Finishes.{finish_of};
ghost use Rattle.indicatif_bar.specs.Lone as Lone;
ghost use Rattle.indicatif.specs.Fronts.{CanAnswer};

use crate::shared::ProgressBar;
use indicatif_bar::lone::LoneCall;
use indicatif_bar::state::{BarCommand, ProgressFinish};
use indicatif_bar::style::{ProgressStyle, Tracks};
use indicatif_term::target::TermLike;
use indicatif_text::columns::{Clock, Refusal};
use std::sync::Wait;

/// Builders, which set up a bar before it moves: each returns it.
impl<T: TermLike + Drop, C: Clock + Drop, R: Wait + Clone + Drop, K: Tracks> ProgressBar<
    T,
    C,
    R,
    K,
> {
    /// Sets the style; the next draw uses it. Asks for no draw.
    ///
    /// Refused: `Memory`; this owner is dropped.
    pub fn with_style(self, style: ProgressStyle<K>) -> Result<Self, Refusal>
        ensures { IfErr result (λ e. CanAnswer K (Lone.Obey (Command.SetStyle style)) (Err e)) }
    {
        match self.set_style(style) {
            Ok(_) => Ok(self),
            Err(refusal) => Err(refusal),
        }
    }

    /// Sets the tab width of the message, the prefix and the style, in spaces. Asks for no draw.
    ///
    /// Refused: `Memory`; this owner is dropped.
    pub fn with_tab_width(self, tab: usize) -> Result<Self, Refusal>
        ensures { IfErr result (λ e. CanAnswer K (Lone.Obey (Command.WithTabWidth tab)) (Err e)) }
    {
        match self.tell(LoneCall::Bar(BarCommand::WithTabWidth(tab))) {
            Ok(_) => Ok(self),
            Err(refusal) => Err(refusal),
        }
    }

    /// Sets the prefix, which shows only if the template has `{prefix}`. Asks for no draw.
    ///
    /// Refused: `Memory`; this owner is dropped.
    pub fn with_prefix(self, text: &str) -> Result<Self, Refusal>
        ensures { IfErr result (λ e. CanAnswer K (Lone.Obey (Command.WithPrefix text.now)) (Err e)) }
    {
        match self.tell(LoneCall::Bar(BarCommand::WithPrefix(text))) {
            Ok(_) => Ok(self),
            Err(refusal) => Err(refusal),
        }
    }

    /// Sets the message, which shows only if the template has `{msg}` or `{wide_msg}`. Asks for no draw.
    ///
    /// Refused: `Memory`; this owner is dropped.
    pub fn with_message(self, text: &str) -> Result<Self, Refusal>
        ensures { IfErr result (λ e. CanAnswer K (Lone.Obey (Command.WithMessage text.now)) (Err e)) }
    {
        match self.tell(LoneCall::Bar(BarCommand::WithMessage(text))) {
            Ok(_) => Ok(self),
            Err(refusal) => Err(refusal),
        }
    }

    /// Sets the position, for work that has already begun. Asks for no draw.
    ///
    /// The rate still counts from 0: at position 80, after five steps in the next second, it is 85 a second. `tick` and then `reset_eta`
    /// start the count here.
    ///
    /// ```
    /// let bar = bar.with_position(80)?.with_elapsed(60_000_000_000)?; // one minute ago, 80 steps
    /// bar.tick()?;
    /// bar.reset_eta()?; // five steps in the next second are 5 a second
    /// ```
    ///
    /// Refused: only on a board, as each command there; this owner is dropped.
    pub fn with_position(self, position: u64) -> Result<Self, Refusal>
        ensures { IfErr result (λ e. CanAnswer K (Lone.Obey (Command.WithPosition position)) (Err e)) }
    {
        match self.tell(LoneCall::Bar(BarCommand::WithPosition(position))) {
            Ok(_) => Ok(self),
            Err(refusal) => Err(refusal),
        }
    }

    /// Sets the time since the start, as `set_elapsed`. Until the bar is finished, neither its rate nor its time left counts these
    /// nanoseconds. A finished bar shows its position over all of the elapsed time. If you also set a position, see `with_position`.
    ///
    /// Refused: `ElapsedBeyondClock`, if that is more than the moment; this owner is dropped.
    pub fn with_elapsed(self, nanos: u64) -> Result<Self, Refusal>
        ensures { IfErr result (λ e. CanAnswer K (Lone.Obey (Command.SetElapsed nanos)) (Err e)) }
    {
        match self.set_elapsed(nanos) {
            Ok(_) => Ok(self),
            Err(refusal) => Err(refusal),
        }
    }

    /// Sets the stored finish. It ends the bar when the last owner is gone, when a wrapped loop is over, or by `finish_using_style`. The
    /// default is `AndClear`.
    ///
    /// Refused: only on a board, as each command there; this owner is dropped.
    pub fn with_finish(self, finish: ProgressFinish) -> Result<Self, Refusal>
        ensures { IfErr result (λ e. CanAnswer K (Lone.Obey (Command.WithFinish (finish_of finish))) (Err e)) }
    {
        match self.tell(LoneCall::Bar(BarCommand::WithFinish(finish))) {
            Ok(_) => Ok(self),
            Err(refusal) => Err(refusal),
        }
    }
}
