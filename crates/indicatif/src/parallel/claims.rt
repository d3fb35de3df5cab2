//! The parts of a list that threads take, and their progress.
ghost use Rattle.std.specs.Prelude.{◌≡◌, ◌≤◌, ◌<◌, IfSome};

use std::sync::atomic::{AtomicU64, Ordering};

/// How many parts a long list has.
const PARTS: usize = 1024;

/// A part of a list: the items from one place to another.
#[derive(Drop)]
pub struct Claim {
    /// The place of its first item.
    pub start: usize,
    /// The place behind its last item.
    pub end: usize,
    ghost ordered: { start ≤ end },
}

/// A list of which each thread takes the next part that is left. No contract says which one that is.
#[derive(Drop)]
pub struct Claims {
    /// The number of items of the list.
    pub items: usize,
    /// The number of items of each part but the last.
    each: usize,
    taken: AtomicU64,
    met: AtomicU64,
    ghost some: { 0 < each },
}

impl Claims {
    /// A list of `items` items, of which nothing is taken.
    pub fn new(items: usize) -> Claims
        ensures { result.items ≡ items }
    {
        Claims {
            items,
            each: items / PARTS + 1,
            taken: AtomicU64::new(0),
            met: AtomicU64::new(0),
        }
    }

    /// How many parts of the list threads take.
    pub fn parts(&self) -> usize {
        self.items.div_ceil(self.each)
    }

    /// The next part of the list, if one is left.
    pub fn take(&self) -> Option<Claim>
        ensures { IfSome result (λ part. part.end ≤ self.now.items) }
    {
        let number = self.taken.fetch_add(1, Ordering::SeqCst) as usize;
        let start = number.saturating_mul(self.each);
        if start >= self.items {
            return None;
        }
        let end = start.saturating_add(self.each).min(self.items);
        Some(Claim { start, end })
    }

    /// The place of the next item, if one is left, where items are taken one by one.
    pub fn take_one(&self) -> Option<usize>
        ensures { IfSome result (λ place. place < self.now.items) }
    {
        let place = self.taken.fetch_add(1, Ordering::SeqCst) as usize;
        if place < self.items {
            Some(place)
        } else {
            None
        }
    }

    /// Marks the items of this claimed part as met.
    pub fn tell(&self, part: &Claim) {
        let count = part.end - part.start;
        self.met.fetch_add(count as u64, Ordering::SeqCst);
    }

    /// How many items the threads have marked as met.
    pub fn met(&self) -> usize
        ensures { result ≤ self.now.items }
    {
        (self.met.load(Ordering::SeqCst) as usize).min(self.items)
    }
}
