//! Updates by closures in two threads: the lock is held meanwhile, so that nobody else's call comes between.
use crate::checks::Runtime;
use crate::fronts::{Bar, alone, bar_on, recorded};
use indicatif::{Change, ProgressState};
use std::thread::join;

/// One step further.
fn further(state: &ProgressState) -> Change {
    Change {
        pos: Some(state.pos().wrapping_add(1)),
        len: None,
    }
}

/// Sets the position to the current one plus 1, `times` times; how often it was refused.
fn updates<R: Runtime>(bar: &Bar<R>, times: u32) -> u32 {
    let mut refused: u32 = 0;
    for _ in 0..times {
        if bar.update(|state| further(state)).is_err() {
            refused = refused.saturating_add(1);
        }
    }
    refused
}

/// Two threads bring a bar to 2000 by a thousand updates each.
fn is_updated_by_two<R: Runtime>(rt: &R, bar: &Bar<R>) {
    let refused = join(rt, || updates(bar, 1000), || updates(bar, 1000));
    same!(rt; refused, (0, 0));
    same!(rt; bar.position(), 2000);
}

/// Two threads update a bar that stands alone, and one on a board: no update is lost.
#[test]
fn updates_of_two_threads(rt: HostRuntime) {
    is_updated_by_two(&rt, &alone(&rt, "{pos}"));
    is_updated_by_two(&rt, &bar_on(&rt, &recorded(&rt), "a"));
}
