//! How often a new position counts as a tick.
ghost use Rattle.std.specs.Prelude.{◌≡◌, ◌≤◌, IsTrue, false};
ghost use Rattle.indicatif_bar.specs.PositionLimiters.{PositionLimiter, position_limiter, allow_position, position_reset};

use indicatif_text::columns::Moment;
use std::marker::Model;

/// How often a new position counts as a tick: 10 may come at once, and one more for each millisecond after that, never with more than 10 in
/// hand. Moments are counted from its making.
#[derive(Drop)]
pub(crate) struct PositionLimiter {
    making: Moment,
    capacity: u64,
    /// Nanoseconds since the making.
    prev: u64,
    /// A moment before which none is allowed, so that for most moments one comparison is enough.
    next: Moment,
}

/// How many looks are in hand, and the time since the making from which they count.
#[derive(Clone, Copy, Drop)]
struct InHand {
    capacity: u64,
    prev: u64,
}

/// Contracts see the making, what is in hand, and the time from which it counts.
impl Model for PositionLimiter {
    ghost use Rattle.std.specs.Prelude.{◌≡◌, ◌≤◌, ◌+◌, ◌⊎◌};
    ghost use Rattle.indicatif_bar.specs.PositionLimiters.{PositionLimiter};

    ghost Value = { PositionLimiter };

    ghost view = { λ p. record {
      making = p.making;
      limiter = record { interval = 1000000; most = 10; capacity = p.capacity; prev = p.prev };
    } };

    ghost invariant = { λ p. (p.capacity ≤ 10)
        × ((p.next ≤ p.making) ⊎ ((p.capacity ≡ 0) × (p.next ≤ p.making + p.prev + 1000000))) };
}

impl PositionLimiter {
    /// Nanoseconds between two looks.
    const INTERVAL: u64 = 1_000_000;
    /// How many looks may be in hand.
    const MOST: u64 = 10;

    /// A limiter of positions, made at this moment.
    pub(crate) fn new(now: Moment) -> PositionLimiter
        ensures { result ≡ position_limiter now }
    {
        let all = InHand {
            capacity: PositionLimiter::MOST,
            prev: 0,
        };
        PositionLimiter::counting(now, all)
    }

    /// A limiter made at `making`, with these looks in hand.
    fn counting(making: Moment, looks: InHand) -> PositionLimiter
        requires { looks.capacity ≤ 10 }
        ensures { result ≡ record {
          making = making;
          limiter = record { interval = 1000000; most = 10; capacity = looks.capacity; prev = looks.prev };
        } }
    {
        let InHand { capacity, prev } = looks;
        let next = if capacity == 0 {
            making
                .saturating_add(prev)
                .saturating_add(PositionLimiter::INTERVAL)
        } else {
            making
        };
        PositionLimiter {
            making,
            capacity,
            prev,
            next,
        }
    }

    /// Whether a look at the position comes too early at this moment, by one comparison.
    #[inline(always)]
    pub(crate) fn is_early(&self, now: Moment) -> bool
        ensures { IsTrue result → allow_position self.now now ≡ (false, self.now) }
    {
        now < self.next
    }

    /// Whether a new position counts as a tick at this moment; if so, it is counted.
    pub(crate) fn allow(&mut self, now: Moment) -> bool
        ensures answer { result ≡ (allow_position self.old now).0 }
        ensures next { self.new ≡ (allow_position self.old now).1 }
    {
        if now < self.making {
            return false;
        }
        let at = now - self.making;
        let elapsed = at.saturating_sub(self.prev);
        if self.capacity == 0 && elapsed < PositionLimiter::INTERVAL {
            return false;
        }
        let new = elapsed / PositionLimiter::INTERVAL;
        let capacity = PositionLimiter::MOST.min(self.capacity + new - 1);
        let prev = at - elapsed % PositionLimiter::INTERVAL;
        *self = PositionLimiter::counting(self.making, InHand { capacity, prev });
        true
    }

    /// Restarts the limiter's time at this moment.
    pub(crate) fn reset(&mut self, now: Moment)
        ensures { self.new ≡ position_reset self.old now }
    {
        let looks = InHand {
            capacity: self.capacity,
            prev: now.saturating_sub(self.making),
        };
        *self = PositionLimiter::counting(self.making, looks);
    }

    /// A copy of the limiter of positions.
    pub(crate) fn same(&self) -> PositionLimiter
        ensures { result ≡ self.now }
    {
        let looks = InHand {
            capacity: self.capacity,
            prev: self.prev,
        };
        PositionLimiter::counting(self.making, looks)
    }
}
