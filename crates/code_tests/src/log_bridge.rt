//! Lines of a log above the bars of a board that threads share: the calls in the board's history, and the rows on its terminal. (Threads log in
//! `receipts`, and in the program `examples storm`.)
use crate::checks::{Granted, Runtime};
use crate::fronts::{Shared, hidden, open, recorded};
use crate::recorded::{kept, logged, replays};
use indicatif::bridge::{LevelOnEachLine, LineForm, LogBridge, StderrLogger, logger_above};
use indicatif::machine::{MachineClock, Shares, StderrTerm, hidden_bar, on_stderr};
use indicatif::{InMemoryTerm, MultiProgress, ProgressDrawTarget, Refusal, StepClock, Term};
use log::sink::{Console, Lines, Memory};
use log::{Level, LevelFilter, Log, Logged, debug, error, info, trace, warn};
use scripts::got::Got;
use scripts::row::At;
use scripts::screen::{Screen, Wire, look_at};
use std::rc::Rc;

/// Another owner of a board.
fn owner<R: Runtime>(rt: &R, board: &Shared<R>) -> Shared<R> {
    board.clone().expect(rt, "granted")
}

// ---- filters, and forms of lines

fn log_each_level<L: Log>(rt: &L) {
    trace!(rt; "t");
    debug!(rt; "d");
    warn!(rt; "w\nx");
    info!(rt; "i");
    error!(rt; "e\nf");
}

/// Your own form of a line: the text alone.
#[derive(Drop)]
struct TextAlone;

impl LineForm for TextAlone {
    fn push_line(&self, _level: Level, text: &str, out: &mut String) -> Result<(), Refusal> {
        Ok(out.push_str(text)?)
    }
}

/// A form that gets no memory for a line.
#[derive(Drop)]
struct NoRoom;

impl LineForm for NoRoom {
    fn push_line(&self, _level: Level, _text: &str, _out: &mut String) -> Result<(), Refusal> {
        Err(Refusal::Memory)
    }
}

type Bridge<R, F> = LogBridge<InMemoryTerm, StepClock, R, F>;

/// How many of five records were missed.
fn missed<R: Runtime, F: LineForm + Drop>(rt: &R, bridge: Bridge<R, F>) -> u64 {
    let log = Logged::new(*rt, Level::Trace, bridge);
    log_each_level(&log);
    log.sink().missed()
}

/// A filter lets warnings and errors through. The level stands before a text, or before each of its lines.
fn with_levels<R: Runtime>(rt: &R, board: &Shared<R>) {
    let bridge = LogBridge::new(board.clone().expect(rt, "granted")).with_filter(LevelFilter::Warn);
    same!(rt; missed(rt, bridge), 0);
    same!(rt; kept(board), 2);
    same!(rt; (logged(board, "WARN  w\nx"), logged(board, "ERROR e\nf")), (1, 1));
    let bridge = LogBridge::new(board.clone().expect(rt, "granted")).with_form(LevelOnEachLine);
    same!(rt; missed(rt, bridge), 0);
    same!(rt; (logged(board, "WARN  w\nWARN  x"), logged(board, "ERROR e\nERROR f")), (1, 1));
    same!(rt; (logged(board, "DEBUG d"), logged(board, "TRACE t")), (1, 1));
}

/// A record that a filter drops isn't missed; one whose line is refused is. A line has the form of its bridge.
#[test]
fn filters_and_forms(rt: HostRuntime) {
    let board = recorded(&rt);
    with_levels(&rt, &board);
    same!(&rt; missed(&rt, LogBridge::new(owner(&rt, &board)).with_form(TextAlone)), 0);
    same!(&rt; logged(&board, "e\nf"), 1);
    same!(&rt; kept(&board), 12);
    same!(&rt; missed(&rt, LogBridge::new(owner(&rt, &board)).with_form(NoRoom)), 5);
    same!(&rt; kept(&board), 12);
    replays(&rt, &board);
}

// ---- spans and pairs, and a hidden board

/// A record in a span, one with a pair and two lines, and one that isn't logged.
fn log_two<L: Log>(rt: &L) {
    let span = rt.span("copy").with("id", 7u32);
    info!(span; target: "db", rows = 3u32; "started");
    warn!(rt; target: "db", left = 2u32; "a\nb");
    debug!(rt; "not logged");
}

/// What another sink got of these records, which are logged above the bars of a board, or go there if it is hidden.
fn handed_on<R: Runtime>(rt: &R, board: Shared<R>) -> Lines {
    let others = Memory::new(rt.alloc());
    let bridge = LogBridge::over(board, &others).with_filter(LevelFilter::Info);
    let log = Logged::new(*rt, Level::Info, bridge);
    log_two(&log);
    same!(rt; log.sink().missed(), 0);
    drop(log);
    others.into_lines()
}

/// Spans stand before the message and pairs behind it, above the bars. Once the board is hidden, whole records go to the other sink, which
/// gets none of those above the bars; none is missed.
#[test]
fn a_hidden_board_hands_records_on(rt: HostRuntime) {
    let board = recorded(&rt);
    same!(&rt; handed_on(&rt, owner(&rt, &board)).len(), 0);
    same!(&rt; logged(&board, "INFO  copy{id=7}: started rows=3"), 1);
    same!(&rt; logged(&board, "WARN  a\nb left=2"), 1);
    let lines = handed_on(&rt, open(&rt, hidden()));
    let texts = lines.as_slice();
    same!(&rt; texts.len(), 2);
    same!(&rt; texts.first().granted(&rt).as_str(), "[INFO  db] copy{id=7}: started rows=3");
    same!(&rt; texts.last().granted(&rt).as_str(), "[WARN  db] a\nb left=2");
}

// ---- a terminal that fails

type Broken<R> = MultiProgress<Term<Wire>, StepClock, R>;

/// A board on a screen whose first write fails; and the screen.
fn breaking<R: Runtime>(rt: &R) -> (Broken<R>, Rc<Screen>) {
    let alloc = rt.alloc();
    let screen = Screen::new(alloc, 4, 20).granted(rt);
    let at = At { alloc, now: 0 };
    let is_told = look_at(&screen, "fails_call 1", at, &mut Got::new(alloc));
    holds!(rt; matches!(is_told, Ok(true)));
    let wire = Wire(screen.clone().granted(rt));
    let target = ProgressDrawTarget::term_like(Term::new(wire, 4, 20));
    let clock = StepClock { next: 0, step: 1 };
    let board = MultiProgress::with_draw_target(*rt, alloc, target, clock, 1);
    (board.expect(rt, "granted"), screen)
}

fn warn_twice<L: Log>(rt: &L) {
    warn!(rt; "low disk");
    error!(rt; "a\nb");
}

/// The first record meets the failure and is counted; the next ones stand on the rows after.
#[test]
fn a_record_that_failed_is_missed(rt: HostRuntime) {
    let (board, screen) = breaking(&rt);
    let bridge = LogBridge::new(board.clone().expect(&rt, "granted"));
    let log = Logged::new(rt, Level::Trace, bridge);
    warn!(log; "one");
    same!(&rt; log.sink().missed(), 1);
    warn_twice(&log);
    same!(&rt; log.sink().missed(), 1);
    let text = screen.contents().granted(&rt);
    same!(&rt; text.as_str(), "\nWARN  low disk\nERROR a\nb");
}

// ---- on standard error

/// A bar that a board inserts, and its loggers.
fn taken_in<R: Shares>(rt: R, host: &HostRuntime) -> Result<u64, Refusal> {
    let board = MultiProgress::new(rt, rt.alloc(), on_stderr(host)?, 1)?;
    let bar = board.add(hidden_bar(rt, host)?)?;
    bar.inc(2)?;
    copy(&logger_above(rt, host, &board, Level::Error)?);
    let bridge = LogBridge::over(board.clone()?, Console(*host));
    let rt = Logged::new(rt, Level::Info, bridge);
    warn!(rt; "low disk");
    Ok(bar.position().wrapping_add(rt.sink().missed()))
}

fn copy<R: Shares>(log: &StderrLogger<R>) {
    info!(log; "copied a.txt");
}

/// A sink that drops records if the board is hidden, in its type.
type Logger<R> = Logged<R, LogBridge<StderrTerm, MachineClock<HostRuntime>, R>>;

fn dropping<R: Shares>(rt: R, host: &HostRuntime) -> Result<Logger<R>, Refusal> {
    let board = MultiProgress::new(rt, rt.alloc(), on_stderr(host)?, 1)?;
    Ok(Logged::new(rt, Level::Info, LogBridge::new(board)))
}

#[test]
fn loggers_on_standard_error(rt: HostRuntime) {
    same!(&rt; taken_in(rt, &rt), Ok(2));
    let log = dropping(rt, &rt).expect(&rt, "granted");
    same!(&rt; log.sink().missed(), 0);
}
