//! Moments and clocks.
ghost use Rattle.std.specs.Prelude.{◌≡◌, ◌+◌, ◌-◌, ◌^◌, min};

/// Nanoseconds since a start of your choice.
///
/// ```
/// let second: Moment = 1_000_000_000;
/// ```
pub type Moment = u64;

/// Tells the moment. This crate never reads the machine's time: you pass a clock.
///
/// ```
/// let opened = clock.now();
/// bar.tick(opened)?;
/// ```
pub trait Clock {
    /// The moment now.
    fn now(&mut self) -> Moment;
}

/// A clock that returns `next` and then advances by `step` nanoseconds, up to 2^64 - 1.
///
/// ```
/// let mut clock = StepClock { next: 5, step: 2 };
/// assert_eq!(clock.now(), 5);
/// assert_eq!(clock.now(), 7);
/// ```
#[derive(Clone, Copy, Debug, Drop)]
pub struct StepClock {
    /// The moment that the next reading returns.
    pub next: Moment,
    /// How far a reading advances the clock, in nanoseconds.
    pub step: u64,
}

impl Clock for StepClock {
    /// Returns `next`; then the clock is `step` later, at most at 2^64 - 1.
    fn now(&mut self) -> Moment
        ensures moment { result ≡ self.old.next }
        ensures next { self.new.next ≡ min (self.old.next + self.old.step) (2 ^ 64 - 1) }
        ensures step { self.new.step ≡ self.old.step }
    {
        let moment = self.next;
        self.next = moment.saturating_add(self.step);
        moment
    }
}
