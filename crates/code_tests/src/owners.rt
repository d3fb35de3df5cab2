//! What the last owner of a bar leaves, what stays on another target, and what crosses threads.
use crate::checks::Runtime;
use crate::fronts::{self, Shared};
use crate::shown::Screen;
use indicatif::{Drawn, InMemoryTerm, ProgressFinish, StepClock, WeakProgressBar};

/// Draws a bar with this stored finish, and releases its owner, and then another one, which is the last; or drops its only owner: then this
/// must stand there.
fn leaves<R: Runtime>(rt: &R, (finish, is_released): (ProgressFinish, bool), wanted: &str) {
    let screen = Screen::new(rt);
    let bar = screen.bar("{pos}/{len}");
    let bar = bar.with_finish(finish).expect(rt, "granted");
    same!(rt; bar.set_position(3), Ok(Drawn::Yes));
    match is_released {
        true => {
            let other = bar.clone().expect(rt, "granted");
            bar.release();
            other.release();
        }
        false => drop(bar),
    }
    screen.shows(wanted);
}

/// The last owner finishes the bar by its stored finish, whether it is released or dropped. With `AndClear` its row goes.
#[test]
fn the_last_owner_finishes(rt: HostRuntime) {
    leaves(&rt, (ProgressFinish::AndLeave, true), "10/10");
    leaves(&rt, (ProgressFinish::AndLeave, false), "10/10");
    leaves(&rt, (ProgressFinish::AndClear, false), "");
}

/// What a bar drew on its own target stays there: after it gets another one, and after a board has inserted it.
#[test]
fn what_was_drawn_stays(rt: HostRuntime) {
    let (first, second, third) = (Screen::new(&rt), Screen::new(&rt), Screen::new(&rt));
    let bar = first.bar("{pos}");
    same!(&rt; bar.set_position(1), Ok(Drawn::Yes));
    same!(&rt; bar.set_draw_target(second.setup().target), Ok(Drawn::Limited));
    same!(&rt; bar.set_position(2), Ok(Drawn::Yes));
    let board = third.board();
    let bar = board.add(bar).expect(&rt, "granted");
    same!(&rt; bar.set_position(3), Ok(Drawn::Yes));
    first.shows("1");
    second.shows("2");
    third.shows("3");
}

/// Types that may go to another thread, and be used by several.
fn crosses<X: Send + Sync>() {}

/// A test of the crate `indicatif` 0.18.6: shared types may go to another thread, and be used by several.
#[test]
fn progress_bar_sync_send(rt: HostRuntime) {
    crosses::<fronts::Bar<HostRuntime>>();
    crosses::<WeakProgressBar<InMemoryTerm, StepClock, HostRuntime>>();
    crosses::<Shared<HostRuntime>>();
}
