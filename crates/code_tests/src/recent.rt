//! A rate that follows: keys of the last seconds.
use crate::checks::{Granted, Runtime, is_line};
use indicatif::{BarState, LastSeconds, Moment, ProgressStyle, Rate, Recent, RecentKey, Sample};

/// A bar of a hundred, made at moment 0, in the style of a template with these two keys.
fn hundred(rt: &impl Runtime) -> BarState<Recent> {
    let alloc = rt.alloc();
    let style = ProgressStyle::with_template(alloc, "{per_sec} {eta}").granted(rt);
    let style = style
        .with_key("per_sec", Recent::new(RecentKey::PerSec))
        .granted(rt)
        .with_key("eta", Recent::new(RecentKey::Eta))
        .granted(rt);
    BarState::styled(alloc, style, Some(100), 0).granted(rt)
}

/// Ends the test if the bar's line is another one.
fn shows(rt: &impl Runtime, bar: &BarState<Recent>, now: Moment, wanted: &str) {
    is_line(rt, &bar.lines(now, 80).granted(rt), wanted);
}

/// A tenth of a second, and a second.
const TENTH: u64 = 100_000_000;

const SECOND: u64 = 1_000_000_000;

/// Ninety steps at ten a second; then one a second. The mean is 7.75 a second at the end, although the speed is one. A bar that is finished
/// shows its mean, and one that is reset nothing yet.
#[test]
fn a_rate_follows(rt: HostRuntime) {
    let mut bar = hundred(&rt);
    shows(&rt, &bar, SECOND, "0/s 0s");
    for step in 1..91u64 {
        bar.set_position(step, step.saturating_mul(TENTH));
    }
    shows(&rt, &bar, 90 * TENTH, "10/s 1s");
    bar.set_position(91, 10 * SECOND);
    shows(&rt, &bar, 10 * SECOND, "6.25/s 1s");
    bar.set_position(92, 11 * SECOND);
    bar.set_position(93, 12 * SECOND);
    shows(&rt, &bar, 12 * SECOND, "1/s 7s");
    shows(&rt, &bar, 14 * SECOND, "0.5/s 14s");
    bar.finish(12 * SECOND);
    shows(&rt, &bar, 12 * SECOND, "8.3333/s 0s");
    bar.reset(20 * SECOND);
    shows(&rt, &bar, 21 * SECOND, "0/s 0s");
}

/// Three steps in two seconds are 1.5 a second, and six take four seconds. (`measures.txt` has others.)
#[test]
fn rates_as_whole_numbers(rt: HostRuntime) {
    let rate = Rate {
        steps: 3,
        nanos: 2_000_000_000,
    };
    same!(&rt; (rate.steps_a_second(), rate.time_for(6)), (1, 4_000_000_000));
}

/// Two samples: where they count from, and steps that went back.
#[test]
fn samples_of_the_last_seconds(rt: HostRuntime) {
    let seconds = LastSeconds::starting(Sample {
        steps: 0,
        moment: 0,
    });
    let now = Sample {
        steps: 3_000,
        moment: 2_000_000_000,
    };
    let seconds = seconds.go_on(now);
    let rate = seconds.rate(now);
    same!(&rt; (rate.steps, rate.nanos), (3_000, 2_000_000_000));
    let sample = Sample {
        steps: 3,
        moment: 2_000_000_000,
    };
    let rate = seconds.go_on(sample).rate(sample);
    same!(&rt; (rate.steps, rate.nanos), (0, 1));
}
