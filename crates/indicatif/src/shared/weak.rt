//! A shared bar without an owner.
use crate::shared::ProgressBar;
use crate::shared::shared_bar::SharedBar;
use indicatif_bar::style::{NoTracker, Tracks};
use indicatif_term::target::TermLike;
use indicatif_text::columns::Clock;
use std::alloc::{AllocError, Global};
use std::fmt::{self, Debug, Formatter};
use std::sync::{Arc, Wait};

/// A reference that doesn't own its bar. While the bar has an owner, `upgrade` makes another one; the bar ends with its last owner.
/// The bar's memory, its terminal among it, stays until this one is gone too.
///
/// ```
/// let weak = bar.downgrade()?;
/// if let Some(bar) = weak.upgrade()? {
///     bar.set_position(3)?;
/// }
/// ```
pub struct WeakProgressBar<
    T: TermLike + Drop,
    C: Clock + Drop,
    R: Wait + Clone + Drop,
    K: Tracks = NoTracker,
> {
    of: Option<Known<T, C, R, K>>,
}

impl<T: TermLike + Drop, C: Clock + Drop, R: Wait + Clone + Drop, K: Tracks> Drop
    for WeakProgressBar<T, C, R, K> {
    fn drop(self) {
        let WeakProgressBar { of: _ } = self;
    }
}

/// The bar that it refers to.
#[derive(Drop)]
struct Known<T: TermLike + Drop, C: Clock + Drop, R: Wait + Clone + Drop, K: Tracks> {
    state: Arc<SharedBar<K, T, C>, Global>,
    alloc: Global,
    rt: R,
}

impl<T: TermLike + Drop, C: Clock + Drop, R: Wait + Clone + Drop, K: Tracks> WeakProgressBar<
    T,
    C,
    R,
    K,
> {
    /// A reference to no bar: `upgrade` always returns `None`.
    pub fn new() -> WeakProgressBar<T, C, R, K> {
        WeakProgressBar { of: None }
    }

    /// A reference to this bar.
    pub(crate) fn of(state: Arc<SharedBar<K, T, C>, Global>, alloc: Global, rt: R) -> Self {
        WeakProgressBar {
            of: Some(Known { state, alloc, rt }),
        }
    }

    /// Another owner of the bar; `None` exactly if it has no owner left, or 2^64 - 1 of them, or there is no bar.
    ///
    /// Refused: want of memory; then nothing has changed.
    pub fn upgrade(&self) -> Result<Option<ProgressBar<T, C, R, K>>, AllocError> {
        let Some(known) = &self.of else {
            return Ok(None);
        };
        let state = Arc::try_clone(&known.state)?;
        let rt = known.rt.clone()?;
        if known.state.lock.lock(&rt).join() {
            Ok(Some(ProgressBar {
                state,
                alloc: known.alloc,
                rt,
            }))
        } else {
            Ok(None)
        }
    }
}

impl<T: TermLike + Drop, C: Clock + Drop, R: Wait + Clone + Drop, K: Tracks> ProgressBar<
    T,
    C,
    R,
    K,
> {
    /// A weak reference to this bar, which isn't an owner.
    ///
    /// Refused: want of memory; then nothing has changed.
    pub fn downgrade(&self) -> Result<WeakProgressBar<T, C, R, K>, AllocError> {
        let state = Arc::try_clone(&self.state)?;
        let rt = self.rt.clone()?;
        Ok(WeakProgressBar::of(state, self.alloc, rt))
    }
}

impl<T: TermLike + Drop, C: Clock + Drop, R: Wait + Clone + Drop, K: Tracks> Default
    for WeakProgressBar<T, C, R, K> {
    fn default() -> WeakProgressBar<T, C, R, K> {
        WeakProgressBar::new()
    }
}

impl<T: TermLike + Drop, C: Clock + Drop, R: Wait + Clone + Drop, K: Tracks> Clone
    for WeakProgressBar<T, C, R, K> {
    fn clone(&self) -> Result<WeakProgressBar<T, C, R, K>, AllocError> {
        match &self.of {
            None => Ok(WeakProgressBar::new()),
            Some(known) => Ok(WeakProgressBar::of(
                Arc::try_clone(&known.state)?,
                known.alloc,
                known.rt.clone()?,
            )),
        }
    }
}

impl<T: TermLike + Drop, C: Clock + Drop, R: Wait + Clone + Drop, K: Tracks> Debug
    for WeakProgressBar<T, C, R, K> {
    fn fmt<W: fmt::Write>(&self, f: &mut Formatter<W>) -> fmt::Result {
        f.write_str("WeakProgressBar")
    }
}
