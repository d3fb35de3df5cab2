//! That keys with texts of the caller's own keep runs plain, as laws on pictures ask.
ghost use Rattle.std.specs.Prelude.{ℕ, IfOk};
ghost use Rattle.indicatif_bar.specs.PlainLaws.{IsPlainStyle, IsPlainWithTabs};
ghost use Rattle.indicatif_bar.specs.Progress.{Progress};
ghost use Rattle.indicatif_bar.specs.Trackers.{telling};

use indicatif_bar::laws::plain_tellers_are_plain_trackers;
use indicatif_bar::style::{FnTracker, ProgressStyle, TellsText};
use indicatif_text::columns::Refusal;
use std::alloc::Global;

/// A plain style with one key more, whose text a type of the caller's tells. It is a plain style where each text of that is plain.
///
/// Refused: `Memory`.
pub fn with_own_key<F: TellsText>(
    alloc: Global,
    style: ProgressStyle<FnTracker<F>>,
    name: &str,
    teller: F,
) -> Result<ProgressStyle<FnTracker<F>>, Refusal>
    ensures { IsPlainStyle (telling F.told_text) style → ((p : Progress) (now : ℕ) → IsPlainWithTabs (F.told_text teller p now)) → IfOk result (IsPlainStyle (telling F.told_text)) }
{
    plain_tellers_are_plain_trackers::<F>();
    let tracker = FnTracker::new(alloc, teller)?;
    Ok(style.with_key(name, tracker)?)
}
