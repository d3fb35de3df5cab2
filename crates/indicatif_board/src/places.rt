//! The places where bars were last found.
use std::alloc::Global;

/// Where bars stood when they were last inserted or named, so that the usual call finds its bar at once.
///
/// One place is kept for each value of the numbers' last bits, and bars in between may have come or gone since. So the caller compares: the
/// contract promises nothing about a kept place.
#[derive(Drop)]
pub struct Places {
    /// A power of two of them, or none; each with `gone` added, so that none changes if bars come or go at the head.
    places: Vec<usize>,
    /// How many bars left at the head, less those that came there, modulo 2^64.
    gone: usize,
}

impl Places {
    /// No place is kept yet. Takes no memory.
    pub fn new(alloc: Global) -> Places {
        Places {
            places: Vec::new(alloc),
            gone: 0,
        }
    }

    /// The place that is kept for a bar, or any other.
    pub fn last(&self, number: u64) -> usize {
        match self.places.get(self.key(number)) {
            Some(at) => at.wrapping_sub(self.gone),
            None => 0,
        }
    }

    /// Keeps the place where a bar was found, if there is room for it.
    pub fn note(&mut self, number: u64, at: usize) {
        let key = self.key(number);
        if let Some(noted) = self.places.get_mut(key) {
            *noted = at.wrapping_add(self.gone);
        }
    }

    /// Makes room for the places of `bars` bars, if there is memory for it.
    pub fn fit(&mut self, bars: usize) {
        let size = self.places.len();
        if size < bars {
            match self.places.resize(size.saturating_mul(2).max(8), 0) {
                Ok(()) | Err(_) => (),
            }
        }
    }

    /// Adjusts the kept places: a bar was inserted at a place, which is kept.
    pub fn inserted(&mut self, number: u64, at: usize) {
        if at == 0 {
            self.gone = self.gone.wrapping_sub(1);
        }
        self.note(number, at);
    }

    /// Adjusts the kept places: the bar at a place was removed.
    pub fn removed(&mut self, at: usize) {
        if at == 0 {
            self.gone = self.gone.wrapping_add(1);
        }
    }

    /// Adjusts the kept places: the first `count` bars were removed.
    pub fn removed_first(&mut self, count: usize) {
        self.gone = self.gone.wrapping_add(count);
    }

    /// Where a bar's place is kept, if there is room for any.
    fn key(&self, number: u64) -> usize {
        number as usize & self.places.len().wrapping_sub(1)
    }
}
