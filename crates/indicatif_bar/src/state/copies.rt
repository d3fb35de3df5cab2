//! Copies of bars.
ghost use Rattle.std.specs.Prelude.{◌≡◌, IfOk, IfErr};

use crate::state::BarState;
use crate::tracker::Tracks;
use indicatif_text::columns::Refusal;

impl<K: Tracks> BarState<K> {
    /// A copy of the bar's record. Later commands of one don't change the other.
    ///
    /// ```
    /// let before = bar.try_clone()?;
    /// bar.inc(1, now); // `before` stays where it was
    /// ```
    ///
    /// Refused: `Memory`.
    pub fn try_clone(&self) -> Result<BarState<K>, Refusal>
        ensures same { IfOk result (λ other. other ≡ self.now) }
        ensures memory { IfErr result (λ e. e ≡ Refusal.Memory) }
    {
        Ok(BarState {
            progress: self.progress.try_clone()?,
            style: self.style.try_clone()?,
            on_finish: self.on_finish.try_clone(self.alloc())?,
            ticker: self.ticker,
            limiter: self.limiter.same(),
        })
    }
}
