//! A bar with its clock.
ghost use Rattle.std.specs.Prelude.{◌≡◌, ◌==◌, ℕ, IfOk, IfErr, IsFalse};
ghost use Rattle.indicatif_bar.specs.Commands.{new_bar};
ghost use Rattle.indicatif.specs.Owned.{lone_of, Begins, BeginsPlain};

use crate::wrappers::moves::Moves;
use indicatif_bar::lone::LoneBar;
use indicatif_bar::state::BarState;
use indicatif_bar::style::{NoTracker, ProgressStyle, TICKS, Tracks};
use indicatif_term::target::{Setup, TermLike};
use indicatif_text::columns::{Clock, Drawn, Refusal};
use std::alloc::Global;
use std::fmt::{self, Debug, Formatter};

/// A bar that stands alone on its target, with its clock. A wrapper moves it if the bar isn't shared: an item is its `inc(1)`, a place its
/// `set_position`, the end its `finish_using_style`, each at the moment of the clock. So a wrapped loop is a run of that bar, and all that
/// is proved about a run holds for it.
///
/// ```
/// let bar = OwnedBar::new(LoneBar::new(state, target), StepClock { next: 0, step: 1_000_000 });
/// let mut wrapped = ProgressBarIter::new(items.into_iter(), bar);
/// ```
pub struct OwnedBar<K, T: Drop, C> {
    pub(crate) bar: LoneBar<K, T>,
    pub(crate) clock: C,
}

impl<K: Drop, T: Drop, C: Drop> Drop for OwnedBar<K, T, C> {
    fn drop(self) {
        let OwnedBar { bar: _, clock: _ } = self;
    }
}

impl<K, T: Drop, C> OwnedBar<K, T, C> {
    /// The bar with this clock. Neither changes.
    pub fn new(bar: LoneBar<K, T>, clock: C) -> OwnedBar<K, T, C>
        ensures { lone_of result ≡ bar }
    {
        OwnedBar { bar, clock }
    }

    /// The bar, without its clock.
    pub fn bar(&self) -> &LoneBar<K, T>
        ensures { result.now ≡ lone_of self.now }
    {
        &self.bar
    }

    /// The bar and its clock as they are; the bar isn't finished.
    pub fn into_parts(self) -> (LoneBar<K, T>, C)
        ensures { result.0 ≡ lone_of self }
    {
        let OwnedBar { bar, clock } = self;
        (bar, clock)
    }
}

impl<K, T: Drop, C> Debug for OwnedBar<K, T, C> {
    fn fmt<W: fmt::Write>(&self, f: &mut Formatter<W>) -> fmt::Result {
        f.write_str("OwnedBar")
    }
}

impl<K: Tracks, T: TermLike + Drop, C: Clock + Drop> OwnedBar<K, T, C> {
    /// A bar with its clock, with this length or none, in this style, on the setup's target, made at the moment of its clock. Nothing is
    /// drawn.
    ///
    /// Refused: `Memory`, only if the style has a tab width other than 8; nothing is made, and the arguments are dropped.
    pub fn styled(
        alloc: Global,
        style: ProgressStyle<K>,
        len: Option<u64>,
        setup: Setup<T, C>,
    ) -> Result<Self, Refusal>
        ensures bar { IfOk result (λ owned. (now : ℕ) × Begins owned (new_bar style len now) setup.target) }
        ensures memory { IfErr result (λ e. (e ≡ Refusal.Memory) × IsFalse (8 == style.tab)) }
    {
        let Setup { target, mut clock } = setup;
        let now = clock.now();
        let state = BarState::styled(alloc, style, len, now)?;
        Ok(OwnedBar::new(LoneBar::new(state, target), clock))
    }
}

impl<T: TermLike + Drop, C: Clock + Drop> OwnedBar<NoTracker, T, C> {
    /// A bar with its clock, as that of `styled`, with the template `{wide_bar} {pos}/{len}`.
    ///
    /// Refused: `Memory`; nothing is made, and the arguments are dropped.
    pub fn plain(alloc: Global, len: Option<u64>, setup: Setup<T, C>) -> Result<Self, Refusal>
        ensures bar { IfOk result (λ owned. BeginsPlain owned TICKS.now len setup.target) }
        ensures memory { IfErr result (λ e. e ≡ Refusal.Memory) }
    {
        let style = ProgressStyle::default_bar(alloc)?;
        OwnedBar::styled(alloc, style, len, setup)
    }
}

/// Its type states where it stands.
impl<K: Tracks, T: TermLike + Drop, C: Clock + Drop> Moves for OwnedBar<K, T, C> {
    ghost use Rattle.std.specs.Prelude.{Some};
    ghost use Rattle.indicatif_bar.specs.LoneBars.{record_of};
    ghost use Rattle.indicatif.specs.Owned.{lone_of, standing_of, Commanded};

    ghost stands = { λ owned. Some (standing_of (record_of (lone_of owned))) };

    ghost leads = { λ old move answer new. Commanded K.means T.view old move answer new };

    #[inline(always)]
    fn advance(&mut self, n: u64) -> Result<Drawn, Refusal> {
        let now = self.clock.now();
        self.bar.inc(n, now)
    }

    #[inline(always)]
    fn place(&mut self, place: u64) -> Result<Drawn, Refusal> {
        let now = self.clock.now();
        self.bar.set_position(place, now)
    }

    fn finish(&mut self) -> Result<Drawn, Refusal> {
        let now = self.clock.now();
        self.bar.finish_using_style(now)
    }

    fn position(&self) -> u64 {
        self.bar.bar().state().pos()
    }

    fn finished(&self) -> bool {
        self.bar.bar().state().is_finished()
    }
}
