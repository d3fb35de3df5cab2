//! Bars that something wraps: what is said of them, and two threads that read through wrappers of one. (Each makes its own wrapper: a function that
//! owns two is more than the prover can hold.)
use crate::checks::{Granted, Runtime};
use crate::fronts::{Bar, alone, bar_shows, setup};
use crate::tickers::HOUR;
use indicatif::{
    ProgressBar, ProgressBarIter, ProgressFinish, ProgressStyle, Refusal, Setup, StepClock,
};
use std::io::{self, Read};
use std::ops::Range;
use std::thread::join;

/// A second.
const SECOND: u64 = 1_000_000_000;

/// A bar without a length, on a machine that has run for an hour and whose clock stands still.
fn bar_after_an_hour<R: Runtime>(rt: &R) -> Bar<R> {
    let Setup { target, clock: _ } = setup(rt, 20);
    let clock = StepClock {
        next: HOUR,
        step: 0,
    };
    ProgressBar::no_length(*rt, rt.alloc(), Setup { target, clock }).expect(rt, "granted")
}

/// Calls all builders of a wrapper's bar.
fn with_all_builders<R: Runtime>(
    rt: &R,
    wrapped: ProgressBarIter<Range<u32>, Bar<R>>,
) -> ProgressBarIter<Range<u32>, Bar<R>> {
    let style = ProgressStyle::with_template(rt.alloc(), "{prefix} {msg} {pos}").granted(rt);
    let wrapped = wrapped.with_style(style).expect(rt, "granted");
    let wrapped = wrapped.with_prefix("a").expect(rt, "granted");
    let wrapped = wrapped.with_message("b").expect(rt, "granted");
    let wrapped = wrapped.with_position(7).expect(rt, "granted");
    let wrapped = wrapped.with_elapsed(HOUR).expect(rt, "granted");
    let wrapped = wrapped.with_finish(ProgressFinish::Abandon);
    wrapped.expect(rt, "granted")
}

/// A wrapper's bar is set up before it moves, which its other owners see. On a machine that has run for an hour an elapsed hour is
/// accepted, and no second more. The wrapper's `Debug` shows its fields, and its bar's the name.
#[test]
fn a_wrappers_bar_is_told(rt: HostRuntime) {
    let bar = bar_after_an_hour(&rt);
    let items = 0..3u32;
    let mut wrapped = bar.wrap_iter(items.into_iter()).expect(&rt, "granted");
    let mut wrapped = with_all_builders(&rt, wrapped);
    let text = format!(in rt.alloc(); "{wrapped:?}").granted(&rt);
    holds!(&rt; text.as_str().starts_with("ProgressBarIter { it: 0..3, progress: ProgressBar, "));
    same!(&rt; (bar.position(), bar.elapsed()), (7, HOUR));
    while let Some(_item) = wrapped.next() {}
    same!(&rt; bar.position(), 10);
    holds!(&rt; bar.is_finished());
    bar_shows(&rt, &bar, "a b 10");
    let refused = wrapped.with_elapsed(HOUR + SECOND).err();
    same!(&rt; refused, Some(Refusal::ElapsedBeyondClock));
}

/// Reads to the end, seven bytes at a time.
fn reads_all<T: Read, R: Runtime>(wrapped: &mut ProgressBarIter<T, Bar<R>>) -> io::Result<u64> {
    let mut room = [0u8; 7];
    let mut sum: u64 = 0;
    for _ in 0..10_000u32 {
        let n = wrapped.read(&mut room)?;
        if n == 0 {
            break;
        }
        sum = sum.wrapping_add(n as u64);
    }
    Ok(sum)
}

/// How many bytes a wrapper of the bar reads; `None` if a read fails.
fn reads_along<R: Runtime>(rt: &R, bar: &Bar<R>, bytes: &[u8]) -> Option<u64> {
    let mut wrapped = bar.wrap_read(bytes).expect(rt, "granted");
    reads_all(&mut wrapped).ok()
}

/// Two threads read 20,000 bytes each through wrappers of one bar, which then stands at 40,000.
#[test]
fn two_readers_of_one_bar_lose_no_byte(rt: HostRuntime) {
    let bytes = [7u8; 20_000];
    let bar = alone(&rt, "{pos}");
    let read = join(
        &rt,
        || reads_along(&rt, &bar, &bytes),
        || reads_along(&rt, &bar, &bytes),
    );
    same!(&rt; read, (Some(20_000), Some(20_000)));
    same!(&rt; bar.position(), 40_000);
}
