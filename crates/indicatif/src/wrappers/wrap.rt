//! The wrapper.
ghost use Rattle.std.specs.Prelude.{◌≡◌, None};
ghost use Rattle.indicatif.specs.Seek.{no_seeks};
ghost use Rattle.indicatif.specs.Moves.{PlacedAfter};
ghost use Rattle.indicatif.specs.Wrap.{inner_of, wrapped_seeks, last_draw_of, PlacesBar};

use crate::wrappers::moves::Moves;
use crate::wrappers::seek::SeekMax;
use indicatif_text::columns::{Drawn, Refusal};

/// An iterator, reader, writer or stream that moves a bar. It gives what the inner one gives, and moves the bar:
///
/// - an item, from either end, advances the bar by 1; the end of an iterator finishes a bar that isn't finished, and each end of a
///   stream finishes it, by its stored finish;
/// - bytes that were read, consumed or written move the bar by their number, and a seek places it at its target, by the rule of `SeekMax<5,
///   10>`, which keeps a bar from jumping with a reader that seeks back and forth;
/// - an error or a pending poll leaves the bar as it is. Only a polled read that fails places the bar, as a read of 0 bytes does, and as
///   the Rust crate does: the position stays if no seek is remembered.
///
/// The answer of the last draw is kept for `last_draw`, since an iterator can't return it.
///
/// ```
/// let mut wrapped = ProgressBarIter::new(items.into_iter(), bar);
/// while let Some(item) = wrapped.next() { .. }
/// let (_, bar) = wrapped.into_inner();
/// ```
#[derive(Drop, Debug)]
pub struct ProgressBarIter<T, P> {
    pub(crate) it: T,
    /// The bar.
    pub progress: P,
    pub(crate) seeks: SeekMax<5, 10>,
    pub(crate) last: Option<Result<Drawn, Refusal>>,
}

impl<T, P> ProgressBarIter<T, P> {
    /// Wraps `it`, whose progress `progress` shows. Neither changes.
    pub fn new(it: T, progress: P) -> ProgressBarIter<T, P>
        ensures it { inner_of result ≡ it }
        ensures progress { result.progress ≡ progress }
        ensures seeks { wrapped_seeks result ≡ no_seeks }
        ensures last { last_draw_of result ≡ None }
    {
        ProgressBarIter {
            it,
            progress,
            seeks: SeekMax::new(),
            last: None,
        }
    }

    /// The wrapped value, and the bar as it is; it isn't finished.
    pub fn into_inner(self) -> (T, P)
        ensures { result ≡ (inner_of self, self.progress) }
    {
        let ProgressBarIter { it, progress, .. } = self;
        (it, progress)
    }

    /// The answer of the last draw; `None` if there was none.
    pub fn last_draw(&self) -> Option<Result<Drawn, Refusal>>
        ensures { result ≡ last_draw_of self.now }
    {
        self.last
    }
}

impl<T, P: Moves> ProgressBarIter<T, P> {
    // Places the bar after `n` more bytes.
    #[tactic(auto, using(crate::proofs::PlacedLemmas::wrapper_placed))]
    pub(crate) fn went_on(&mut self, n: u64)
        ensures it { inner_of self.new ≡ inner_of self.old }
        ensures placed { PlacesBar P.stands P.leads self.old n self.new }
    {
        let answer = match self.progress.place_after(&mut self.seeks, n) {
            Some(answer) => answer,
            None => place(&mut self.progress, &mut self.seeks, n),
        };
        self.last = Some(answer);
    }
}

/// Reads the position of a wrapper's bar, and sets it `n` further.
fn place<P: Moves>(bar: &mut P, seeks: &mut SeekMax<5, 10>, n: u64) -> Result<Drawn, Refusal>
    ensures { PlacedAfter P.stands P.leads bar.old seeks.old n result bar.new seeks.new }
{
    let place = seeks.update_seq(bar.position(), n);
    bar.place(place)
}
