//! How fast bytes may be sent.
ghost use Rattle.std.specs.Prelude.{◌≡◌, ◌<◌, ◌≤◌, ◌-◌, min, max, nat_le};
ghost use Rattle.meter_parts.specs.Pace.{piece_of, due_after};

/// Bytes at a rate: what was sent is due at some moment, and no more is sent before. After a pause at most a tenth of a second is made up
/// for. Moments are nanoseconds.
///
/// ```
/// let mut pace = Pace::new(1000);
/// pace.went(100, 0); // due after a tenth of a second
/// ```
#[derive(Clone, Copy, Drop)]
pub struct Pace {
    rate: u64,
    due: u64,
    ghost some: { 0 < rate },
}

/// A tenth of a second.
const CREDIT: u64 = 100_000_000;

impl Pace {
    /// A pace of `rate` bytes a second.
    pub fn new(rate: u64) -> Pace
        requires { 0 < rate }
        ensures { (result.rate ≡ rate) × (result.due ≡ 0) }
    {
        Pace { rate, due: 0 }
    }

    /// How many of the wanted bytes may be sent at once: what a twentieth of a second allows, and at least one.
    pub fn piece(&self, wanted: usize) -> usize
        ensures { result ≡ piece_of self.now.rate wanted }
    {
        match usize::try_from((self.rate / 20).max(1)) {
            Ok(most) => wanted.min(most),
            Err(_) => wanted,
        }
    }

    /// How many nanoseconds to wait until more may be sent.
    pub fn wait(&self, now: u64) -> u64
        ensures { result ≡ self.now.due - now }
    {
        self.due.saturating_sub(now)
    }

    /// Notes that `count` bytes were sent.
    pub fn went(&mut self, count: usize, now: u64)
        ensures { (self.new.rate ≡ self.old.rate) × (self.new.due ≡ due_after self.old.rate self.old.due count now) }
    {
        let nanos = (count as u64).saturating_mul(1_000_000_000) / self.rate;
        self.due = self
            .due
            .max(now.saturating_sub(CREDIT))
            .saturating_add(nanos);
    }
}
