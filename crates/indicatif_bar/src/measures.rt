//! Progress and speed, as quotients of whole numbers.
ghost use Rattle.std.specs.Prelude.{◌≡◌, ◌<◌};
ghost use Rattle.indicatif_bar.specs.Measures.{fraction_of, first_samples, recorded, restarted, rate_over, rate_since, steps_a_second, time_for};

use indicatif_text::columns::Moment;

/// A fraction: `num` of `den`, where `den` is above 0 and `num` at most `den`.
///
/// ```
/// state.fraction(); // 3 of 4: Fraction { num: 3, den: 4 }
/// ```
#[derive(Clone, Copy, Debug, Drop, PartialEq, Eq)]
pub struct Fraction {
    /// The numerator: what is done.
    pub num: u64,
    /// The denominator: the whole.
    pub den: u64,
}

impl Fraction {
    /// The fraction of a length that is done: 0 without a length, 1 at length 0.
    pub(crate) fn of(position: u64, len: Option<u64>) -> Fraction
        ensures { result ≡ fraction_of position len }
    {
        match len {
            None => Fraction { num: 0, den: 1 },
            Some(0) => Fraction { num: 1, den: 1 },
            Some(len) => Fraction {
                num: position.min(len),
                den: len,
            },
        }
    }
}

/// A speed, as a quotient: `steps` in `nanos` nanoseconds, where `nanos` is above 0.
///
/// ```
/// state.per_sec(now); // none yet: Rate { steps: 0, nanos: 1 }
/// ```
#[derive(Clone, Copy, Debug, Drop, PartialEq, Eq)]
pub struct Rate {
    /// The number of steps.
    pub steps: u64,
    /// The time that they took, in nanoseconds.
    pub nanos: u64,
}

impl Rate {
    /// The rate of `steps` in `nanos` nanoseconds; no steps if `nanos` is 0.
    pub(crate) fn over(steps: u64, nanos: u64) -> Rate
        ensures { result ≡ rate_over steps nanos }
    {
        if nanos == 0 {
            return Rate { steps: 0, nanos: 1 };
        }
        Rate { steps, nanos }
    }

    /// The whole steps a second, rounded down, at most 2^64 - 1; 0 if `nanos` is 0.
    ///
    /// ```
    /// let rate = Rate {
    ///     steps: 3,
    ///     nanos: 2_000_000_000,
    /// };
    /// rate.steps_a_second() // 1
    /// ```
    pub fn steps_a_second(self) -> u64
        ensures { result ≡ steps_a_second self }
    {
        if self.nanos == 0 {
            return 0;
        }
        let steps = u128::from(self.steps) * 1_000_000_000 / u128::from(self.nanos);
        steps.min(u128::from(u64::MAX)) as u64
    }

    /// The nanoseconds that `left` steps take, rounded down, at most 2^64 - 1; 0 if the rate is 0.
    ///
    /// ```
    /// rate.time_for(6) // of three steps in two seconds: 4_000_000_000
    /// ```
    pub fn time_for(self, left: u64) -> u64
        ensures { result ≡ time_for self left }
    {
        if self.steps == 0 {
            return 0;
        }
        let nanos = u128::from(left) * u128::from(self.nanos) / u128::from(self.steps);
        nanos.min(u128::from(u64::MAX)) as u64
    }
}

/// A number of steps by a moment.
///
/// ```
/// let sample = Sample { steps: 3, moment: 2_000_000_000 }; // three in two seconds
/// ```
#[derive(Clone, Copy, Drop)]
pub struct Sample {
    /// The number of steps.
    pub steps: u64,
    /// The moment, in nanoseconds.
    pub moment: Moment,
}

/// The two samples that a rate is computed from: where its count began, and where it stands.
#[derive(Clone, Copy, Drop)]
pub struct Samples {
    base: Sample,
    last: Sample,
}

impl Samples {
    /// The two samples of no steps at this moment.
    pub(crate) fn new(now: Moment) -> Samples
        ensures { result ≡ first_samples now }
    {
        Samples::at(Sample {
            steps: 0,
            moment: now,
        })
    }

    /// The two samples of a count that begins at this one.
    fn at(sample: Sample) -> Samples
        ensures { result ≡ record { base = sample; last = sample } }
    {
        Samples {
            base: sample,
            last: sample,
        }
    }

    /// Records that `steps` steps are made by this moment. Steps that went back restart the count; otherwise only more steps at a later
    /// moment count.
    pub(crate) fn record(self, steps: u64, now: Moment) -> Samples
        ensures { result ≡ recorded self steps now }
    {
        let sample = Sample { steps, moment: now };
        if steps < self.last.steps {
            return Samples::at(sample);
        }
        if self.last.steps < steps && self.last.moment < now {
            return Samples {
                base: self.base,
                last: sample,
            };
        }
        self
    }

    /// Restarts the count of the two samples at this moment.
    pub(crate) fn restart(self, now: Moment) -> Samples
        ensures { result ≡ restarted self now }
    {
        Samples::at(Sample {
            steps: self.last.steps,
            moment: now,
        })
    }

    /// The rate between the samples, up to this moment.
    pub(crate) fn rate(self, now: Moment) -> Rate
        ensures { result ≡ rate_since self now }
    {
        let steps = self.last.steps.saturating_sub(self.base.steps);
        Rate::over(steps, now.saturating_sub(self.base.moment))
    }
}
