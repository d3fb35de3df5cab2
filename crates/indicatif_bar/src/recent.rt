//! The recent speed of a bar.
ghost use Rattle.std.specs.Prelude.{◌≡◌, ◌<◌, ◌++◌, None, OnOk, IfErr, string_bytes};
ghost use Rattle.indicatif_bar.specs.Recent.{from_sample, after_sample, seen_after, recent_rate, stands, rate_lately, eta_lately, text_lately, tells_lately};

use crate::measures::{Rate, Sample};
use crate::progress::ProgressState;
use crate::style::keys::{CountForm, TimeForm, push_rate, push_time, push_whole_rate};
use crate::tracker::ProgressTracker;
use indicatif_text::columns::{Moment, Refusal};

/// Two samples, from which the rate of the last seconds is computed: of at least one and a half seconds, once there are as many, and of at
/// most three and the time between two samples. So a stall shows as a rate that falls to 0.
///
/// ```
/// let seconds = LastSeconds::starting(Sample { steps: 0, moment: 0 });
/// let now = Sample { steps: 3_000, moment: 2_000_000_000 };
/// let seconds = seconds.go_on(now);
/// seconds.rate(now) // 3,000 in two seconds
/// ```
#[derive(Clone, Copy, Drop)]
pub struct LastSeconds {
    /// The sample that the rate is counted from.
    pub older: Sample,
    /// The sample that it will be counted from next.
    pub newer: Sample,
}

/// One and a half seconds.
const SPAN: u64 = 1_500_000_000;

impl LastSeconds {
    /// The last seconds of a count that begins at this sample.
    pub fn starting(now: Sample) -> LastSeconds
        ensures { result ≡ from_sample now }
    {
        LastSeconds {
            older: now,
            newer: now,
        }
    }

    /// Adds a sample to the last seconds. Steps that went back restart the count.
    pub fn go_on(self, now: Sample) -> LastSeconds
        ensures { result ≡ after_sample self now }
    {
        if now.steps < self.newer.steps {
            return LastSeconds::starting(now);
        }
        if now.moment.saturating_sub(self.newer.moment) >= SPAN {
            return LastSeconds {
                older: self.newer,
                newer: now,
            };
        }
        self
    }

    /// The rate of the last seconds up to this sample; no steps if no time has passed.
    pub fn rate(&self, now: Sample) -> Rate
        ensures { result ≡ recent_rate self.now now }
    {
        let steps = now.steps.saturating_sub(self.older.steps);
        Rate::over(steps, now.moment.saturating_sub(self.older.moment))
    }
}

/// The key that a `Recent` shows.
#[derive(Clone, Copy, Drop)]
pub enum RecentKey {
    /// `{per_sec}`: `12.5/s`.
    PerSec,
    /// `{bytes_per_sec}`: `1.50 MiB/s`.
    BytesPerSec,
    /// `{decimal_bytes_per_sec}`: `1.50 MB/s`.
    DecimalBytesPerSec,
    /// `{eta}`: `5s`.
    Eta,
    /// `{eta_precise}`: `00:00:05`.
    EtaPrecise,
}

/// A tracker that shows the rate of the last seconds, or the time that is left at that rate. `{per_sec}` and `{eta}` themselves show the
/// mean since the bar was made: if the speed changes, they follow slowly.
///
/// The rate is that of the last one and a half to three seconds (`LastSeconds`). It is 0 before the first tick. For a finished bar it is
/// the mean since its start, as that of `{per_sec}`; then no time is left.
///
/// ```
/// let style = ProgressStyle::with_template(alloc, "{per_sec} {eta}")?;
/// let style = style
///     .with_key("per_sec", Recent::new(RecentKey::PerSec))?
///     .with_key("eta", Recent::new(RecentKey::Eta))?;
/// ```
#[derive(Clone, Copy, Drop)]
pub struct Recent {
    /// What it shows.
    pub key: RecentKey,
    /// Its samples; none before the first tick.
    pub seen: Option<LastSeconds>,
}

impl Recent {
    /// A tracker for this key, without samples.
    pub fn new(key: RecentKey) -> Recent
        ensures { (result.key ≡ key) × (result.seen ≡ None) }
    {
        Recent { key, seen: None }
    }

    /// The rate that a `Recent` shows.
    fn rate(&self, state: &ProgressState, now: Moment) -> Rate
        ensures rate { result ≡ rate_lately self.now state.now now }
        ensures some { 0 < result.nanos }
    {
        if state.is_finished() {
            return state.per_sec(now);
        }
        match &self.seen {
            None => Rate::over(0, 0),
            Some(seen) => seen.rate(sample_of(state, now)),
        }
    }

    /// The nanoseconds that are left at the rate of the last seconds.
    fn eta(&self, state: &ProgressState, now: Moment) -> u64
        ensures { result ≡ eta_lately self.now state.now now }
    {
        let Some(len) = state.len() else {
            return 0;
        };
        if state.is_finished() {
            return 0;
        }
        let left = len.saturating_sub(state.pos());
        self.rate(state, now).time_for(left)
    }

    /// Appends the text of a `Recent`.
    fn push(&self, state: &ProgressState, now: Moment, out: &mut String) -> Result<(), Refusal>
        ensures text { OnOk result (string_bytes out.new ≡ string_bytes out.old ++ text_lately self.now.key self.now state.now now) }
        ensures memory { IfErr result (λ e. e ≡ Refusal.Memory) }
    {
        match self.key {
            RecentKey::PerSec => push_rate(self.rate(state, now), 4, out),
            RecentKey::BytesPerSec => push_whole_rate(
                CountForm::Binary,
                self.rate(state, now),
                out,
            ),
            RecentKey::DecimalBytesPerSec => {
                push_whole_rate(CountForm::Decimal, self.rate(state, now), out)
            }
            RecentKey::Eta => push_time(TimeForm::Short, self.eta(state, now), out),
            RecentKey::EtaPrecise => push_time(TimeForm::Clock, self.eta(state, now), out),
        }
    }
}

/// The sample that a bar's state gives for the last seconds.
fn sample_of(state: &ProgressState, now: Moment) -> Sample
    ensures { result ≡ stands state.now now }
{
    Sample {
        steps: state.pos(),
        moment: now,
    }
}

impl ProgressTracker for Recent {
    ghost means = { tells_lately };

    fn tick(&mut self, state: &ProgressState, now: Moment) {
        let sample = sample_of(state, now);
        self.seen = match self.seen {
            None => Some(LastSeconds::starting(sample)),
            Some(seen) => Some(seen.go_on(sample)),
        };
    }

    fn reset(&mut self, state: &ProgressState, now: Moment) {
        self.seen = Some(LastSeconds::starting(sample_of(state, now)));
    }

    fn write(&self, state: &ProgressState, now: Moment, out: &mut String) -> Result<(), Refusal> {
        let mut text = String::new(*out.allocator());
        self.push(state, now, &mut text)?;
        out.push_str(text.as_str())?;
        Ok(())
    }

    fn try_clone(&self) -> Result<Recent, Refusal> {
        Ok(*self)
    }
}
