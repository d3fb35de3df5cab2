//! Steady tickers, looked at from outside: no limit of time, but of turns. How often one ticks, tickers that replace one another, what their threads
//! give up once they are told to end, also in two tests of the crate `indicatif`, and calls that find no memory for another owner.
use crate::checks::Runtime;
use crate::fronts::{Bar, alone, setup};
use crate::lent::{Count, Lent, first};
use indicatif::machine::MachineClock;
use indicatif::{Clock, InMemoryTerm, Moment, ProgressBar, Refusal, StepClock, TermLike};
use std::alloc::Global;
use std::sync::{Arc, Wait};
use std::thread::{join, sleep};
use std::time::Duration;

/// Disables a bar's ticker.
pub fn tick_off<T: TermLike + Drop, C: Clock + Drop, R: Wait + Clone + Drop>(
    bar: &ProgressBar<T, C, R>,
) -> Result<(), Refusal> {
    bar.disable_steady_tick()
}

/// Whether the bar has ticked more often than the given number, at the latest after 10,000 readings a millisecond apart.
pub fn ticks_on<T: TermLike + Drop, C: Clock + Drop, R: Wait + Clone + Drop, S: Runtime>(
    rt: &S,
    bar: &ProgressBar<T, C, R>,
    before: u64,
) -> bool {
    for _ in 0..10_000u32 {
        if bar.ticks() > before {
            return true;
        }
        sleep(rt, Duration::from_millis(1));
    }
    false
}

/// Fifty turns of a millisecond: a running ticker of a millisecond ticks meanwhile.
pub fn waits<R: Runtime>(rt: &R) {
    for _ in 0..50u32 {
        sleep(rt, Duration::from_millis(1));
    }
}

/// An hour, in nanoseconds: such a ticker ticks once in a test.
pub const HOUR: u64 = 3_600_000_000_000;

/// A millisecond.
pub const MILLISECOND: u64 = 1_000_000;

// ---- how often it ticks, by the machine's clock: a machine that is slow makes ticks late, and never early

/// A tenth of a second.
const INTERVAL: u64 = 100_000_000;

/// The pace of the first 21 ticks of a ticker that was enabled after this moment of the clock: within ten seconds, of which this interval needs two, at
/// the latest after 10,000 readings a millisecond apart; and at no more than twice the rate.
fn pace_of<R: Runtime>(
    rt: &R,
    bar: &Bar<R>,
    (mut clock, opened): (MachineClock<R>, Moment),
) -> Result<(), &'static str> {
    for _ in 0..10_000u32 {
        let ticks = bar.ticks();
        let passed = clock.now().saturating_sub(opened);
        if ticks.saturating_sub(2).saturating_mul(INTERVAL / 2) > passed {
            return Err("fast");
        }
        if ticks > 20 {
            return Ok(());
        }
        sleep(rt, Duration::from_millis(1));
    }
    Err("slow")
}

#[test]
fn a_ticker_keeps_its_interval(rt: HostRuntime) {
    let bar = alone(&rt, "{pos}");
    let mut clock = MachineClock::new(rt);
    let opened = clock.now();
    same!(&rt; bar.enable_steady_tick(INTERVAL), Ok(()));
    let pace = pace_of(&rt, &bar, (clock, opened));
    same!(&rt; bar.disable_steady_tick(), Ok(()));
    same!(&rt; pace, Ok(()));
}

// ---- on and off

/// Enables a ticker with this interval `times` times, each in place of the last one.
fn tells_on<R: Runtime>(bar: &Bar<R>, interval: u64, times: u32) -> Result<(), Refusal> {
    for _ in 0..times {
        bar.enable_steady_tick(interval)?;
    }
    Ok(())
}

/// Disables it `times` times.
fn tells_off<R: Runtime>(bar: &Bar<R>, times: u32) -> Result<(), Refusal> {
    for _ in 0..times {
        tick_off(bar)?;
    }
    Ok(())
}

/// Of ten tickers of an hour, each of which replaces the last one, none ticks more than once: disabling and ending others makes none of
/// them tick before its hour is over.
fn replaced_wake_none<R: Runtime>(rt: &R, bar: &Bar<R>, before: u64) {
    same!(rt; tells_on(bar, HOUR, 10), Ok(()));
    holds!(rt; ticks_on(rt, bar, before));
    waits(rt);
    holds!(rt; bar.ticks() <= before.saturating_add(10));
    same!(rt; tick_off(bar), Ok(()));
}

/// One thread enables a ticker while another disables it: both finish, and once it is off it stays off. Then others are enabled.
#[test]
fn on_and_off_from_two_threads(rt: HostRuntime) {
    let bar = alone(&rt, "{pos}");
    let told = join(
        &rt,
        || tells_on(&bar, MILLISECOND, 200),
        || tells_off(&bar, 200),
    );
    same!(&rt; told, (Ok(()), Ok(())));
    same!(&rt; tick_off(&bar), Ok(()));
    let before = bar.ticks();
    waits(&rt);
    same!(&rt; bar.ticks(), before);
    replaced_wake_none(&rt, &bar, before);
}

// ---- threads of tickers

/// A bar with a runtime that is counted.
type Counted<R> = ProgressBar<InMemoryTerm, StepClock, Lent<R>>;

/// A spinner with a counted runtime, and the count.
fn counted_bar<R: Runtime>(rt: &R) -> (Counted<R>, Arc<Count, Global>) {
    let (lent, count) = first(rt);
    let bar = ProgressBar::new_spinner(lent, rt.alloc(), setup(rt, 10));
    (bar.expect(rt, "granted"), count)
}

/// 50 milliseconds.
const OFTEN: u64 = 50_000_000;

/// Enables a ticker with this interval, which ticks. With an interval of an hour the thread then waits.
fn ticks_each<R: Runtime>(rt: &R, bar: &Counted<R>, interval: u64) {
    let before = bar.ticks();
    same!(rt; bar.enable_steady_tick(interval), Ok(()));
    holds!(rt; ticks_on(rt, bar, before));
}

/// Whether this many runtimes are left, at the latest after 10,000 looks a millisecond apart. The thread of a ticker has one.
fn comes_to<R: Runtime>(rt: &R, count: &Count, left: u64) -> bool {
    for _ in 0..10_000u32 {
        if count.living() == left {
            return true;
        }
        sleep(rt, Duration::from_millis(1));
    }
    false
}

/// The thread of a ticker of an hour drops its runtime long before the hour is over: if the ticker is disabled, if another replaces it, and
/// if the bar's last owner is gone.
#[test]
fn threads_of_tickers_end(rt: HostRuntime) {
    let (bar, count) = counted_bar(&rt);
    ticks_each(&rt, &bar, HOUR);
    same!(&rt; count.living(), 2);
    same!(&rt; tick_off(&bar), Ok(()));
    holds!(&rt; comes_to(&rt, &count, 1));
    ticks_each(&rt, &bar, HOUR);
    ticks_each(&rt, &bar, HOUR);
    holds!(&rt; comes_to(&rt, &count, 2));
    drop(bar);
    holds!(&rt; comes_to(&rt, &count, 0));
}

/// A test of the crate `indicatif` 0.18.6. The crate waits for the thread's end; here the ticker is disabled, and the thread ends.
#[test]
fn ticker_thread_terminates_on_drop(rt: HostRuntime) {
    let (bar, count) = counted_bar(&rt);
    ticks_each(&rt, &bar, OFTEN);
    holds!(&rt; ticks_on(&rt, &bar, bar.ticks().saturating_add(1)));
    same!(&rt; count.living(), 2);
    drop(bar);
    holds!(&rt; comes_to(&rt, &count, 0));
}

/// Another one: it goes on while an owner is left.
#[test]
fn ticker_thread_terminates_on_drop_2(rt: HostRuntime) {
    let (bar, count) = counted_bar(&rt);
    let other = bar.clone().expect(&rt, "granted");
    ticks_each(&rt, &bar, OFTEN);
    drop(bar);
    let before = other.ticks().saturating_add(1);
    holds!(&rt; ticks_on(&rt, &other, before));
    drop(other);
    holds!(&rt; comes_to(&rt, &count, 0));
}

// ---- no memory

/// If there is no memory for a ticker's thread, the installed ticker goes on.
#[test]
fn no_memory_for_a_ticker(rt: HostRuntime) {
    let (bar, count) = counted_bar(&rt);
    ticks_each(&rt, &bar, OFTEN);
    count.refuse(true);
    same!(&rt; bar.enable_steady_tick(HOUR), Err(Refusal::Memory));
    holds!(&rt; ticks_on(&rt, &bar, bar.ticks().saturating_add(1)));
    same!(&rt; tick_off(&bar), Ok(()));
}

/// If there is no memory for another owner, a weak bar's refusal differs from having no owner left; a clone is refused too. Then nothing
/// has changed: the owner that is left is the last.
#[test]
fn no_memory_for_another_owner(rt: HostRuntime) {
    let (bar, count) = counted_bar(&rt);
    let weak = bar.downgrade().expect(&rt, "granted");
    count.refuse(true);
    holds!(&rt; weak.upgrade().is_err());
    holds!(&rt; bar.clone().is_err());
    holds!(&rt; bar.downgrade().is_err());
    holds!(&rt; bar.wrap_iter(0..1u32).is_err());
    count.refuse(false);
    holds!(&rt; weak.upgrade().expect(&rt, "granted").is_some());
    bar.release();
    holds!(&rt; weak.upgrade().expect(&rt, "granted").is_none());
    drop(weak);
    same!(&rt; count.living(), 0);
}
