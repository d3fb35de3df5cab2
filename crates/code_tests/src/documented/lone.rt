//! Examples of a bar on its terminal.
use crate::checks::{Granted, Runtime};
use crate::fronts;
use indicatif::style::Tracks;
use indicatif::{
    BarCommand, BarState, Clock, Drawn, InMemoryTerm, LoneBar, LoneCall, Moment, NoTracker,
    ProgressDrawTarget, ProgressStyle, Refusal, StepClock, TermLike,
};

type Bar = LoneBar<NoTracker, InMemoryTerm>;

/// Ends the test if a bar's terminal shows something else.
fn shows(rt: &impl Runtime, bar: &Bar, wanted: &str) {
    same!(rt; fronts::contents(bar.term()).granted(rt).as_str(), wanted);
}

/// A bar on a terminal of 4 rows and 20 columns, a name above it.
fn named_bar(rt: &impl Runtime) -> Box<Bar> {
    let (alloc, now) = (rt.alloc(), 0);
    let term = InMemoryTerm::new(alloc, 4, 20).granted(rt);
    let mut bar = LoneBar::new(
        BarState::new(alloc, Some(10), now).granted(rt),
        ProgressDrawTarget::term_like(term),
    );
    bar.set_message("copying", now).granted(rt);
    bar.println("a.txt", now).granted(rt);
    Box::new(alloc, bar).granted(rt)
}

/// Draws a bar at the moment of a clock.
fn draws_now(rt: &impl Runtime, bar: &mut Bar) {
    let second: Moment = 1_000_000_000;
    let mut clock = StepClock {
        next: 5_000_000_000,
        step: second,
    };
    let opened = clock.now();
    same!(rt; bar.tick(opened).granted(rt), Drawn::Yes);
}

/// A step of a bar with any keys.
fn step<K: Tracks, T: TermLike + Drop>(
    bar: &mut LoneBar<K, T>,
    now: Moment,
) -> Result<Drawn, Refusal> {
    bar.inc(1, now)
}

/// Three calls: a tick, a line and a clear.
fn plays(rt: &impl Runtime, bar: &mut Bar) {
    let alloc = rt.alloc();
    let log = LoneCall::Log(String::from_str(alloc, "a.txt").granted(rt));
    let calls = vec![in alloc;
        (LoneCall::Bar(BarCommand::Tick), 0),
        (log, 0),
        (LoneCall::Clear, 5),
    ]
    .granted(rt);
    let answers = bar.run(calls).granted(rt);
    same!(rt; answers.len(), 3);
    shows(rt, bar, "a.txt\na.txt");
}

/// Three calls, another style, an elapsed time, and then a hidden target.
#[test]
fn calls_style_time_and_target(rt: HostRuntime) {
    let (alloc, now) = (rt.alloc(), 5);
    let mut bar = named_bar(&rt);
    plays(&rt, &mut bar);
    bar.set_move_cursor(true);
    let style = ProgressStyle::with_template(alloc, "{pos} of {len}").granted(&rt);
    let drawn = bar.with_style(style, now).granted(&rt);
    same!(&rt; drawn, Drawn::Limited);
    let drawn = bar.with_elapsed(3_000_000_000, 4_000_000_000).granted(&rt);
    same!(&rt; drawn, Drawn::Limited);
    draws_now(&rt, &mut bar);
    shows(&rt, &bar, "a.txt\na.txt\n0 of 10");
    same!(&rt; step(&mut bar, 6_000_000_000), Ok(Drawn::Yes));
    drop(bar.set_draw_target(ProgressDrawTarget::hidden()));
    let drawn = bar.tick(0).granted(&rt);
    same!(&rt; drawn, Drawn::Hidden);
}

/// A bar with a text of 13 columns is drawn on 20 columns; of then 5 and 20 it takes three rows, until it is drawn again.
#[test]
fn terminal_of_new_sizes(rt: HostRuntime) {
    let (alloc, now) = (rt.alloc(), 0);
    let mut bar = named_bar(&rt);
    let style = ProgressStyle::with_template(alloc, "progress bars").granted(&rt);
    bar.with_style(style, now).granted(&rt);
    bar.tick(now).granted(&rt);
    bar.resize(4, 5).granted(&rt); // `progress bars` stands on three rows: `progr`, `ess b`, `ars`
    shows(&rt, &bar, "a.txt\nprogr\ness b\nars");
    bar.resize(4, 20).granted(&rt); // and still does
    bar.tick(now).granted(&rt); // stands on one row again
    shows(&rt, &bar, "a.txt\nprogress bars");
}
