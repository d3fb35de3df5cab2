//! A pause, in which a closure runs while the rows are cleared.
ghost use Rattle.indicatif.specs.Fronts.{CanClear};

use indicatif_text::columns::{Drawn, Moment, Refusal};

/// A pause that began at this moment, by a clear with this answer.
#[derive(Drop)]
pub struct Pause {
    pub now: Moment,
    pub cleared: Result<Drawn, Refusal>,
    ghost by_clear: { CanClear cleared },
}
