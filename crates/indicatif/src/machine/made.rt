//! Shared bars on standard error, with short type names.
ghost use Rattle.std.specs.Prelude.{◌≡◌, IfErr};

use crate::machine::{MachineClock, Shares, StderrBar, on_stderr};
use crate::shared::ProgressBar;
use indicatif_bar::style::{ProgressStyle, Tracks};
use indicatif_text::columns::Refusal;

/// A bar on standard error with this length or none, in this style: `ProgressBar::styled` with the setup of `on_stderr`.
///
/// ```
/// let bar = styled_on_stderr(rt, host, style, Some(100))?;
/// ```
///
/// Refused: `Memory`; the style is dropped.
pub fn styled_on_stderr<R: Shares, K: Tracks>(
    rt: R,
    host: &HostRuntime,
    style: ProgressStyle<K>,
    len: Option<u64>,
) -> Result<StderrBar<R, K>, Refusal>
    ensures { IfErr result (λ e. e ≡ Refusal.Memory) }
{
    ProgressBar::styled(rt, rt.alloc(), style, len, on_stderr(host)?)
}

/// A hidden bar without a length, which a board on standard error may take in: `ProgressBar::hidden` with that board's type.
///
/// ```
/// let bar = board.add(hidden_bar(rt, host)?)?;
/// ```
///
/// Refused: `Memory`.
pub fn hidden_bar<R: Shares>(rt: R, host: &HostRuntime) -> Result<StderrBar<R>, Refusal>
    ensures { IfErr result (λ e. e ≡ Refusal.Memory) }
{
    ProgressBar::hidden(rt, rt.alloc(), MachineClock::new(*host))
}
