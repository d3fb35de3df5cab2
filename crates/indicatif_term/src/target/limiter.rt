//! How often a target may draw.
ghost use Rattle.std.specs.Prelude.{◌≡◌, ◌<◌, ◌↔◌, IfOk, IfErr};
ghost use Rattle.indicatif_term.specs.Limiters.{Limiter, allow, burst, default_rate, draw_limiter};

use indicatif_text::columns::{Moment, Refusal};
use std::marker::Model;

/// How often a target of `stdout` or `stderr` draws a second, by the documentation of the Rust crate `indicatif` 0.18.6.
///
/// ```
/// let mut limiter = RateLimiter::new(DEFAULT_RATE, 0)?; // as that of `ProgressDrawTarget::stderr` at the moment 0
/// ```
pub const DEFAULT_RATE: u8 = 20;

/// How many draws may come at once.
const BURST: u64 = 20;

/// How often a target may draw: 20 draws may come at once, and one more for each interval after that, never with more than 20 in hand. The
/// rule is that of the documentation of the Rust crate `indicatif` 0.18.6.
///
/// Of any moments, in any order, it allows at most 20, and one for each interval from its making to the last one allowed.
///
/// ```
/// let mut limiter = RateLimiter::new(DEFAULT_RATE, 0)?;
/// let first = limiter.allow(0); // true, and so are 19 more at this moment; then one each 50,000,000 nanoseconds
/// ```
#[derive(Debug, Drop)]
pub struct RateLimiter {
    interval: u64,
    capacity: u64,
    prev: Moment,
}

/// Contracts see the limiter's interval, what it has in hand, and the moment from which it counts.
impl Model for RateLimiter {
    ghost use Rattle.std.specs.Prelude.{◌<◌, ◌≤◌};
    ghost use Rattle.indicatif_term.specs.Limiters.{Limiter, burst};

    ghost Value = { Limiter };

    ghost view = { λ l. record { interval = l.interval; most = burst; capacity = l.capacity; prev = l.prev } };

    ghost invariant = { λ l. (0 < l.interval) × (l.capacity ≤ burst) };
}

impl RateLimiter {
    /// A limiter for `rate` draws a second, made at this moment. Its interval is `1000 / rate` whole milliseconds.
    ///
    /// Refused: `ZeroRate`, exactly if `rate` is 0.
    pub fn new(rate: u8, now: Moment) -> Result<Self, Refusal>
        ensures limiter { IfOk result (λ l. l ≡ draw_limiter rate now) }
        ensures zero { (result ≡ Err Refusal.ZeroRate) ↔ (rate ≡ 0) }
        ensures no_other { IfErr result (λ e. e ≡ Refusal.ZeroRate) }
    {
        if rate == 0 {
            return Err(Refusal::ZeroRate);
        }
        Ok(RateLimiter::spaced(1000 / u64::from(rate) * 1_000_000, now))
    }

    /// The limiter of a target of `stdout` or `stderr`, made at this moment.
    pub(crate) fn by_default(now: Moment) -> Self
        ensures { result ≡ draw_limiter default_rate now }
    {
        RateLimiter::spaced(1000 / u64::from(DEFAULT_RATE) * 1_000_000, now)
    }

    /// A limiter with this interval, made at this moment.
    fn spaced(interval: u64, now: Moment) -> Self
        requires { 0 < interval }
        ensures { result ≡ record { interval = interval; most = burst; capacity = burst; prev = now } }
    {
        RateLimiter {
            interval,
            capacity: BURST,
            prev: now,
        }
    }

    /// Whether a draw is allowed at this moment; if so, it is counted. None is allowed at a moment before the one from which it counts;
    /// then nothing changes.
    pub fn allow(&mut self, now: Moment) -> bool
        ensures answer { result ≡ (allow self.old now).0 }
        ensures next { self.new ≡ (allow self.old now).1 }
    {
        if now < self.prev {
            return false;
        }
        let elapsed = now - self.prev;
        if self.capacity == 0 && elapsed < self.interval {
            return false;
        }
        let new = elapsed / self.interval;
        self.capacity = (self.capacity + new.min(BURST + 1) - 1).min(BURST);
        self.prev = now - elapsed % self.interval;
        true
    }

    /// A copy of the limiter. The two count separately.
    ///
    /// ```
    /// let before = limiter.same();
    /// ```
    pub fn same(&self) -> Self
        ensures { result ≡ self.now }
    {
        RateLimiter {
            interval: self.interval,
            capacity: self.capacity,
            prev: self.prev,
        }
    }
}
