//! Examples of the engine, its lines and its limiter.
use crate::checks::{Granted, Runtime};
use indicatif::{
    DEFAULT_RATE, Engine, InMemoryTerm, Keep, LineType, MultiProgressAlignment, ProgressDrawTarget,
    RateLimiter, Segment,
};

/// A frame of one bar with one line.
fn frame_of(rt: &impl Runtime) -> Vec<Segment> {
    let alloc = rt.alloc();
    let line = LineType::Text(String::from_str(alloc, "fetched").granted(rt));
    holds!(rt; line.is_text("fetched"));
    let lines = vec![in alloc; line].granted(rt);
    let frame = vec![in alloc; Segment { bar: 1, lines }].granted(rt);
    frame
}

/// A terminal gets fewer columns. The next draw is as tall as the rows that it replaces, so no row above it is blank; then a text is logged, and
/// the rows are kept.
#[test]
fn drawn_logged_and_kept(rt: HostRuntime) {
    let (alloc, frame) = (rt.alloc(), frame_of(&rt));
    let mut engine = Engine::new(alloc, InMemoryTerm::new(alloc, 4, 10).granted(&rt));
    engine
        .draw(&frame, 0, MultiProgressAlignment::Top)
        .granted(&rt);
    engine.resize(4, 5).granted(&rt);
    engine
        .draw(&frame, 0, MultiProgressAlignment::Bottom)
        .granted(&rt);
    same!(&rt; engine.term().contents().granted(&rt).as_str(), "fetch\ned");
    let mut engine = Engine::new(alloc, InMemoryTerm::new(alloc, 4, 5).granted(&rt));
    engine.set_move_cursor(true);
    engine
        .draw(&frame, 0, MultiProgressAlignment::Top)
        .granted(&rt);
    engine
        .log("done", &frame, MultiProgressAlignment::Top)
        .granted(&rt);
    same!(&rt; engine.keep(1), Keep::Passed);
    same!(&rt; engine.term().contents().granted(&rt).as_str(), "done\nfetch\ned");
}

/// The draws of a limiter at one moment, and of a copy; a target without one.
#[test]
fn draws_of_a_limiter(rt: HostRuntime) {
    let mut limiter = RateLimiter::new(DEFAULT_RATE, 0).granted(&rt);
    let first = limiter.allow(0);
    let mut count = u64::from(first);
    for _ in 0..30u32 {
        count = count.saturating_add(u64::from(limiter.allow(0)));
    }
    let before = limiter.same();
    same!(&rt; count, 20);
    let mut copied = before;
    holds!(&rt; !copied.allow(0));
    let alloc = rt.alloc();
    let term = InMemoryTerm::new(alloc, 2, 3).granted(&rt);
    let (engine, limiter) = Engine::opened_on(alloc, ProgressDrawTarget::term_like(term));
    same!(&rt; (engine.is_some(), limiter.is_some()), (true, false));
}
