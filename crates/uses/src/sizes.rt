//! That another size takes no memory if nothing stands that it wraps, on a terminal that takes none itself.
ghost use Rattle.std.specs.Prelude.{◌≢◌, Err};

use indicatif_bar::laws::what_a_lone_bar_answers;
use indicatif_bar::lone::LoneBar;
use indicatif_bar::state::BarState;
use indicatif_bar::style::ProgressTracker;
use indicatif_term::laws::where_a_size_takes_none;
use indicatif_term::target::{ProgressDrawTarget, Term};
use indicatif_text::columns::{Moment, Refusal};
use std::io::Write;

/// A bar behind a writer gets another size before it is drawn.
pub fn sized_at_first<K: ProgressTracker, W: Write + Drop>(
    record: BarState<K>,
    term: Term<W>,
    rows: u16,
    cols: u16,
) -> Result<LoneBar<K, Term<W>>, Refusal>
    ensures { result ≢ Err Refusal.Memory }
{
    let mut bar = LoneBar::new(record, ProgressDrawTarget::term_like(term));
    where_a_size_takes_none();
    bar.resize(rows, cols)?;
    Ok(bar)
}

/// A bar behind a writer, which you are lent, gets another size after its rows were cleared.
pub fn sized_behind_clear<K: ProgressTracker, W: Write + Drop>(
    now: Moment,
    bar: &mut LoneBar<K, Term<W>>,
    rows: u16,
    cols: u16,
) -> Result<(), Refusal>
    ensures { result ≢ Err Refusal.Memory }
{
    let _in_some_state = bar.bar();
    what_a_lone_bar_answers::<K>();
    where_a_size_takes_none();
    bar.clear(now)?;
    bar.resize(rows, cols)
}
