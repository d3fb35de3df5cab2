//! Pauses: with threads, what stands on a terminal while the closure of a `suspend` runs, what answers meanwhile, and what waits until it has run.
use crate::checks::{Granted, Runtime};
use crate::shown::{Bar, Board, Screen, bar_of};
use crate::tickers::{HOUR, MILLISECOND, tick_off, ticks_on, waits};
use indicatif::{Drawn, Refusal};
use std::alloc::Global;
use std::sync::atomic::{AtomicU64, Ordering};
use std::sync::{Arc, Wait};
use std::thread::{sleep, spawn};
use std::time::Duration;

/// A board with two bars on a terminal that others read; and the call that is made while a closure runs.
#[derive(Drop)]
struct Scene<R: Wait + Clone + Drop> {
    rt: R,
    screen: Screen<R>,
    board: Board<R>,
    one: Bar<R>,
    other: Bar<R>,
    call: Call,
    stage: AtomicU64,
}

/// A scene that threads and closures own. (A closure of `suspend` owns what it reads.)
type Shared<R> = Arc<Scene<R>, Global>;

/// The call that another thread makes while a closure runs.
#[derive(Clone, Copy, Drop)]
enum Call {
    /// A step of the first of two bars on a board, `0/10` and `b`.
    Inc,
    /// A line above that bar.
    Above,
    /// A message of a bar that stands alone, `0/10`; the other is another owner of it, and the board has no bars.
    Message,
}

/// Stages: the closure runs.
const PAUSED: u64 = 1;

/// The other thread is making its call.
const MADE: u64 = 2;

/// Its call has come back.
const ANSWERED: u64 = 3;

/// The bars of a scene with this call.
fn bars_of<R: Runtime>(
    rt: &R,
    screen: &Screen<R>,
    board: &Board<R>,
    call: Call,
) -> (Bar<R>, Bar<R>) {
    match call {
        Call::Inc | Call::Above => (bar_of(rt, board, "{pos}/10{msg}"), bar_of(rt, board, "b")),
        Call::Message => {
            let bar = screen.bar("{pos}/10{msg}");
            let other = bar.clone().expect(rt, "granted");
            (bar, other)
        }
    }
}

/// A scene whose bars are drawn.
fn make_scene<R: Runtime>(rt: R, call: Call) -> Shared<R> {
    let alloc = rt.alloc();
    let screen = Screen::new(&rt);
    let board = screen.board();
    let (one, other) = bars_of(&rt, &screen, &board, call);
    same!(&rt; one.tick(), Ok(Drawn::Yes));
    same!(&rt; other.tick(), Ok(Drawn::Yes));
    let scene = Scene {
        rt,
        screen,
        board,
        one,
        other,
        call,
        stage: AtomicU64::new(0),
    };
    Arc::new(alloc, scene).expect(&rt, "granted")
}

// ---- what draws waits

/// Whether this stage comes, at the latest after 10,000 looks a millisecond apart.
fn comes<R: Runtime>(scene: &Scene<R>, wanted: u64) -> bool {
    for _ in 0..10_000u32 {
        if scene.stage.load(Ordering::SeqCst) >= wanted {
            return true;
        }
        sleep(&scene.rt, Duration::from_millis(1));
    }
    false
}

/// While a closure runs: the other thread is making its call, which doesn't return. Nothing stands on the terminal, and the bars are read.
fn looks<R: Runtime>(scene: &Scene<R>) -> (u64, Option<u64>, bool) {
    let rt = &scene.rt;
    scene.stage.store(PAUSED, Ordering::SeqCst);
    holds!(rt; comes(scene, MADE));
    waits(rt);
    same!(rt; scene.stage.load(Ordering::SeqCst), MADE);
    scene.screen.shows("");
    let length = scene.one.length();
    (scene.one.position(), length, scene.other.is_finished())
}

/// What `looks` returns, and that the end of the pause draws.
const SEEN: ((u64, Option<u64>, bool), Result<Drawn, Refusal>) = (
    (0, Some(10), false),
    Ok(Drawn::Yes),
);

/// The scene's call.
fn made_call<R: Runtime>(scene: &Scene<R>) -> Result<Drawn, Refusal> {
    match scene.call {
        Call::Inc => scene.one.inc(1),
        Call::Message => scene.one.set_message("!"),
        Call::Above => scene.one.println("x"),
    }
}

/// Makes the scene's call in its pause. It draws once the pause is over.
fn calls<R: Runtime>(scene: &Scene<R>) -> Result<Drawn, Refusal> {
    holds!(&scene.rt; comes(scene, PAUSED));
    scene.stage.store(MADE, Ordering::SeqCst);
    let answer = made_call(scene);
    scene.stage.store(ANSWERED, Ordering::SeqCst);
    answer
}

/// Calls that draw wait for the end of a board's pause. Its bars stand there again afterwards.
#[test]
fn what_draws_waits_for_a_board(rt: HostRuntime) {
    let scene = make_scene(rt, Call::Inc);
    let others = Arc::try_clone(&scene).expect(&rt, "granted");
    let own = Arc::try_clone(&scene).expect(&rt, "granted");
    let child = spawn(&rt, move || calls(&others)).granted(&rt);
    same!(&rt; scene.board.suspend(move || looks(&own)), SEEN);
    same!(&rt; child.join(&rt), Ok(Drawn::Yes));
    scene.screen.shows("1/10\nb");
}

/// They wait for a pause that a bar of the board began: a line above another bar.
#[test]
fn what_draws_waits_for_another_bar(rt: HostRuntime) {
    let scene = make_scene(rt, Call::Above);
    let others = Arc::try_clone(&scene).expect(&rt, "granted");
    let own = Arc::try_clone(&scene).expect(&rt, "granted");
    let child = spawn(&rt, move || calls(&others)).granted(&rt);
    same!(&rt; scene.other.suspend(move || looks(&own)), SEEN);
    same!(&rt; child.join(&rt), Ok(Drawn::Yes));
    scene.screen.shows("x\n0/10\nb");
}

/// They wait for the pause of a bar that stands alone.
#[test]
fn what_draws_waits_for_a_bar(rt: HostRuntime) {
    let scene = make_scene(rt, Call::Message);
    let others = Arc::try_clone(&scene).expect(&rt, "granted");
    let own = Arc::try_clone(&scene).expect(&rt, "granted");
    let child = spawn(&rt, move || calls(&others)).granted(&rt);
    same!(&rt; scene.other.suspend(move || looks(&own)), SEEN);
    same!(&rt; child.join(&rt), Ok(Drawn::Yes));
    scene.screen.shows("0/10!");
}

// ---- what waits for nothing

/// While a closure runs: a bar goes, and another comes, whose ticker is enabled and disabled. Nothing is drawn. Returns that bar.
fn takes_turns<R: Runtime>(scene: &Scene<R>) -> Bar<R> {
    let rt = &scene.rt;
    same!(rt; scene.board.remove(&scene.other), Ok(()));
    let third = bar_of(rt, &scene.board, "c");
    same!(rt; third.enable_steady_tick(HOUR), Ok(()));
    same!(rt; tick_off(&third), Ok(()));
    scene.screen.shows("");
    third
}

/// Calls that draw nothing don't wait, not even in the closure itself.
#[test]
fn what_draws_nothing_waits_for_nothing(rt: HostRuntime) {
    let scene = make_scene(rt, Call::Inc);
    let own = Arc::try_clone(&scene).expect(&rt, "granted");
    let (third, drawn) = scene.board.suspend(move || takes_turns(&own));
    same!(&rt; drawn, Ok(Drawn::Yes));
    scene.screen.shows("0/10");
    same!(&rt; third.tick(), Ok(Drawn::Yes));
    scene.screen.shows("0/10\nc");
}

// ---- tickers

/// While a closure runs: the first bar's ticker doesn't tick, and nothing stands there.
fn is_still<R: Runtime>(scene: &Scene<R>) -> bool {
    let before = scene.one.ticks();
    waits(&scene.rt);
    scene.screen.shows("");
    scene.one.ticks() == before
}

/// A ticker doesn't tick while a closure runs, and goes on afterwards.
#[test]
fn a_ticker_waits(rt: HostRuntime) {
    let scene = make_scene(rt, Call::Inc);
    same!(&rt; scene.one.enable_steady_tick(MILLISECOND), Ok(()));
    holds!(&rt; ticks_on(&rt, &scene.one, scene.one.ticks()));
    let own = Arc::try_clone(&scene).expect(&rt, "granted");
    same!(&rt; scene.other.suspend(move || is_still(&own)), (true, Ok(Drawn::Yes)));
    holds!(&rt; ticks_on(&rt, &scene.one, scene.one.ticks()));
    same!(&rt; tick_off(&scene.one), Ok(()));
    scene.screen.shows("0/10\nb");
}

// ---- another target

/// Ticks the first bar until the other thread has changed the target; the rows on the old one have been cleared.
fn moves_away<R: Runtime>(scene: &Scene<R>) {
    let rt = &scene.rt;
    same!(rt; scene.one.enable_steady_tick(MILLISECOND), Ok(()));
    holds!(rt; ticks_on(rt, &scene.one, scene.one.ticks()));
    let screen = Screen::new(rt);
    scene.board.move_to(screen.setup().target).granted(rt);
    scene.screen.shows("");
    holds!(rt; ticks_on(rt, &scene.one, scene.one.ticks().saturating_add(1)));
    same!(rt; tick_off(&scene.one), Ok(()));
    scene.screen.shows("");
    screen.shows("0/10\nb");
}

/// `move_to` beside a ticker leaves no row on the old target, and bars continue on the new one.
#[test]
fn another_target_at_once(rt: HostRuntime) {
    moves_away(&make_scene(rt, Call::Inc));
}
