//! A bar on its way along a list.
ghost use Rattle.std.specs.Prelude.{◌≡◌, ◌⊎◌, ◌≤◌, ◌<◌};
ghost use Rattle.indicatif.specs.Inside.Courses.{GoesOn};
ghost use Rattle.indicatif.specs.Parallel.{block_length};

use crate::parallel::claims::{Claim, Claims};
use crate::wrappers::moves::Moves;
use rayon::current_num_threads;
use std::thread::Threads;

/// The maximum number of items of a block.
const BLOCK: usize = 4096;

/// How many blocks a list is cut into if it fits in one.
const PARTS: usize = 10;

/// The number of items of each block but the last, in a list of `items` items: the maximum; if the list is no longer than that, a tenth,
/// and at least one for each processor.
fn block_of<R: Threads>(rt: &R, items: usize) -> usize
    ensures { (0 < result) × (result ≤ block_length) }
{
    if items > BLOCK {
        return BLOCK;
    }
    items
        .div_ceil(PARTS)
        .max(current_num_threads(rt))
        .min(BLOCK)
}

/// A bar on its way along a list.
#[derive(Drop)]
pub struct Course<P: Drop> {
    /// The bar.
    pub bar: P,
    /// The number of items by which it was advanced.
    pub done: usize,
    /// The number of items of each block but the last.
    block: usize,
    ghost some: { 0 < block },
    ghost most: { block ≤ block_length },
}

impl<P: Moves + Drop> Course<P> {
    /// A course before the first block of a list of `items` items.
    pub fn new<R: Threads>(rt: &R, bar: P, items: usize) -> Course<P>
        ensures bar { result.bar ≡ bar }
        ensures done { result.done ≡ 0 }
    {
        Course {
            bar,
            done: 0,
            block: block_of(rt, items),
        }
    }

    /// Advances the bar to the end of its block, but not past this item.
    fn step(&mut self, item: usize)
        requires before { self.old.done < item }
        ensures farther { self.old.done < self.new.done }
        ensures within { self.new.done ≤ item }
        ensures goes { GoesOn P.stands P.leads self.old.done self.old.bar self.new.done self.new.bar }
    {
        let left = self.block - self.done % self.block;
        let n = left.min(item - self.done);
        let _ = self.bar.advance(n as u64);
        self.done += n;
    }

    /// Advances the bar to this item, with a stop after each block; not at all if it is farther.
    pub fn reach(&mut self, item: usize)
        ensures reached { self.old.done ≤ item → self.new.done ≡ item }
        ensures farther { item ≤ self.old.done → self.new.done ≡ self.old.done }
        ensures goes { GoesOn P.stands P.leads self.old.done self.old.bar self.new.done self.new.bar }
    {
        while self.done < item {
            self.step(item);
        }
    }

    /// Advances the bar on its course to `met` items, if it may stop within a block; otherwise to the end of the last block that they fill.
    fn follow(&mut self, met: usize)
        ensures within { (self.new.done ≡ self.old.done) ⊎ (self.new.done ≤ met) }
        ensures goes { GoesOn P.stands P.leads self.old.done self.old.bar self.new.done self.new.bar }
    {
        if self.bar.stops_within_blocks() {
            self.reach(met);
        } else {
            self.reach(met - met % self.block);
        }
    }

    /// The thread that has the bar met the items of a part: the bar follows what all threads have met.
    pub fn follow_part(&mut self, claims: &Claims, part: &Claim)
        ensures within { self.old.done ≤ claims.now.items → self.new.done ≤ claims.now.items }
        ensures goes { GoesOn P.stands P.leads self.old.done self.old.bar self.new.done self.new.bar }
    {
        claims.tell(part);
        self.follow(claims.met());
    }
}
