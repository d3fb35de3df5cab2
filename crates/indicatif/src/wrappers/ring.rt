//! The greatest of the last places.
ghost use Rattle.std.specs.Prelude.{◌≡◌, ◌<◌, ◌≤◌, List, ℕ, [], ◌∷◌, take};
ghost use Rattle.indicatif.specs.Ring.{greatest_of};

use std::marker::Model;

/// The last `N` places, for `N` from 1 to 255. Contracts see them as a list, the latest first. The rule is that of the Rust crate
/// `indicatif` 0.18.6.
///
/// ```
/// let mut places = MaxRingBuf::<1>::new();
/// places.update(7);
/// places.update(3);
/// places.max() // 3: the 7 is no longer the last
/// ```
#[derive(Drop, Debug)]
pub struct MaxRingBuf<const N: usize> {
    places: [u64; N],
    len: usize,
}

impl<const N: usize> Model for MaxRingBuf<N> {
    ghost Value = { List ℕ };

    ghost view = { λ r. take r.len r.places };

    ghost invariant = { λ r. (r.len ≤ N) × (0 < N) × (N < 256) };
}

impl<const N: usize> MaxRingBuf<N> {
    /// A ring without any place. A capacity of 0, or above 255, doesn't compile. Takes no memory.
    pub fn new() -> Self
        requires { (0 < N) × (N < 256) }
        ensures { result ≡ [] }
    {
        MaxRingBuf {
            places: [0; N],
            len: 0,
        }
    }

    /// Adds a place to the ring; it replaces the oldest if there are `N`.
    pub fn update(&mut self, place: u64)
        ensures { self.new ≡ take N (place ∷ self.old) }
    {
        self.places.rotate_right(1);
        self.places[0] = place;
        self.len = (self.len + 1).min(N);
    }

    /// The greatest of the last `N` places, 0 if there are none.
    pub fn max(&self) -> u64
        ensures { result ≡ greatest_of self.now }
    {
        let mut most = 0;
        for place in &self.places[..self.len] {
            most = most.max(*place);
        }
        most
    }
}
