//! The module `machine`: its clock, facts and setups; the terminals behind the program's own streams or behind a writer; and bars of one owner there.
use crate::checks::{Granted, Runtime, is_line};
use crate::shown::Broken;
use indicatif::machine::{
    MachineClock, StderrSetup, StreamSetup, TerminalSetup, facts_of, on_stderr, on_stdout,
    on_stream, sized_target, style_on_stderr, told_setup, wants_colors,
};
use indicatif::{
    BarState, Clock, Drawn, Facts, InMemoryTerm, LoneBar, NoTracker, ProgressDrawTarget,
    ProgressIterator, ProgressStyle, Refusal,
};
use std::cell::Cell;
use std::io::{self, ErrorKind, Stderr, Stdout};
use std::time::{self, Duration};

// ---- facts

/// The facts of a terminal with cursor moves.
fn facts_of_xterm(rt: &HostRuntime) -> Result<Facts, Refusal> {
    let term = Some(String::from_str(rt.alloc(), "xterm")?);
    let facts = Facts {
        rows: 24,
        cols: 80,
        attended: true,
        term,
    };
    Ok(facts)
}

/// The facts of a terminal without a name, which is hidden.
fn facts_without_a_name() -> Facts {
    let facts = Facts {
        rows: 24,
        cols: 80,
        attended: true,
        term: None,
    };
    facts
}

/// Whether these facts hide a bar: its stream is no terminal, or one without cursor moves.
fn is_hidden_by(facts: &Facts) -> bool {
    match &facts.term {
        Some(term) => !facts.attended || term.as_str() == "dumb",
        None => true,
    }
}

/// A target is hidden where the facts say so. Another is drawn on at each call that wants a draw.
#[test]
fn targets_of_facts(rt: HostRuntime) {
    let (writer, facts, now) = (rt.stderr(), facts_of_xterm(&rt).granted(&rt), 0);
    let target = ProgressDrawTarget::stderr(writer, facts, now);
    holds!(&rt; !target.is_hidden());
    let term = InMemoryTerm::new(rt.alloc(), 3, 10).granted(&rt);
    let often = ProgressDrawTarget::term_like(term);
    holds!(&rt; !often.is_hidden());
    let facts = facts_without_a_name();
    holds!(&rt; facts.hides());
    let mut facts = facts_of(&rt, &rt.stderr()).granted(&rt);
    facts.cols = 20;
    let hides = is_hidden_by(&facts);
    let setup = told_setup(&rt, rt.stderr(), facts).granted(&rt);
    same!(&rt; setup.target.is_hidden(), hides);
}

#[test]
fn the_programs_own_streams(rt: HostRuntime) {
    let out = is_hidden_by(&facts_of(&rt, &rt.stdout()).granted(&rt));
    let setup: StreamSetup<Stdout> = on_stdout(&rt).granted(&rt);
    same!(&rt; setup.target.is_hidden(), out);
    let setup = on_stream(&rt, rt.stdout()).granted(&rt);
    same!(&rt; setup.target.is_hidden(), out);
    let target = sized_target(&rt, rt.stdout(), 50, 132).granted(&rt);
    same!(&rt; target.is_hidden(), out);
    let err = is_hidden_by(&facts_of(&rt, &rt.stderr()).granted(&rt));
    same!(&rt; on_stderr(&rt).granted(&rt).target.is_hidden(), err);
}

// ---- bars and terminals

/// A bar on a terminal of which is told, and one on standard error; and a list with its own bar there.
#[test]
fn bars_of_one_owner_on_standard_error(rt: HostRuntime) {
    let (alloc, now) = (rt.alloc(), 0);
    let (bar, facts) = (new_bar(&rt).granted(&rt), facts_without_a_name());
    let setup: TerminalSetup<Stderr> = told_setup(&rt, rt.stderr(), facts).granted(&rt);
    let mut bar = LoneBar::new(bar, setup.target);
    same!(&rt; bar.inc(1, now), Ok(Drawn::Hidden));
    let bar = BarState::<NoTracker>::new(alloc, Some(10), now).granted(&rt);
    let setup: StderrSetup = on_stderr(&rt).granted(&rt);
    let bar = LoneBar::new(bar, setup.target);
    same!(&rt; bar.bar().state().pos(), 0);
    let list = vec![in alloc; 7u64].granted(&rt);
    let mut wrapped = list
        .into_iter()
        .progress(alloc, on_stderr(&rt).expect(&rt, "granted"))
        .expect(&rt, "granted");
    same!(&rt; wrapped.next(), Some(7));
}

/// A bar without a length.
fn new_bar(rt: &HostRuntime) -> Result<BarState<NoTracker>, Refusal> {
    BarState::new(rt.alloc(), None, 0)
}

/// The answers of two logs of a bar behind such a writer, and whether the terminal is gone afterwards.
fn logged_twice(rt: &HostRuntime, number: i32) -> Result<(Drawn, Drawn, bool), Refusal> {
    let setup = told_setup(rt, Broken(number), facts_of_xterm(rt)?)?;
    let mut bar = LoneBar::new(new_bar(rt)?, setup.target);
    let first = bar.println("a", 0)?;
    let second = bar.println("b", 0)?;
    let Some(term) = bar.term() else {
        return Err(Refusal::NoColumns);
    };
    let is_gone = term.writer().get_ref().is_gone();
    Ok((first, second, is_gone))
}

/// An input/output error, as from a closed terminal; a call that would block; a closed pipe; a closed connection.
const GONE: &[i32] = &[5, 11, 32, 104];

/// A full disk.
const FULL: i32 = 28;

/// Work goes on if the reader is gone; another failure is a refusal.
#[test]
fn a_terminal_that_goes_away(rt: HostRuntime) {
    for number in GONE {
        let wanted = Ok((Drawn::Yes, Drawn::Yes, true));
        same!(&rt; logged_twice(&rt, *number), wanted);
    }
    let wanted = Err(Refusal::Terminal(ErrorKind::StorageFull));
    same!(&rt; logged_twice(&rt, FULL), wanted);
}

// ---- styles

/// Ends the test if a bar with the message `x` has another line in a style.
fn shows(rt: &impl Runtime, style: ProgressStyle<NoTracker>, wanted: &str) {
    let bar = BarState::styled(rt.alloc(), style, None, 0).expect(rt, "granted");
    let mut bar = Box::new(rt.alloc(), bar).expect(rt, "granted");
    holds!(rt; bar.set_message("x", 0).is_ok());
    is_line(rt, &bar.lines(0, 20).granted(rt), wanted);
}

/// How many bytes the last spinner text of a style has: it is a space.
fn last_spinner(style: &ProgressStyle<NoTracker>) -> usize {
    style.get_final_tick_str().len()
}

/// A style for standard error has colours if they are wanted there, and none elsewhere.
#[test]
fn a_style_for_standard_error(rt: HostRuntime) {
    let wanted = match wants_colors(&rt, &rt.stderr()).granted(&rt) {
        true => "\u{1b}[31mx\u{1b}[0m",
        false => "x",
    };
    let style = style_on_stderr(&rt, "{msg:.red}").granted(&rt);
    shows(&rt, style, wanted);
    let style = style_on_stderr(&rt, "[{bar:40.cyan/blue}] {pos}/{len} {msg}").granted(&rt);
    let style = style
        .with_colors(wants_colors(&rt, &rt.stderr()).granted(&rt))
        .granted(&rt);
    same!(&rt; last_spinner(&style), 1);
}

// ---- clocks

/// A machine that gives these times one after another, and then refuses.
#[derive(Drop)]
struct Telling<'a> {
    times: &'a [Duration],
    readings: Cell<usize>,
}

impl time::Clock for Telling<'_> {
    fn monotonic(&self) -> io::Result<Duration> {
        let reading = self.readings.get();
        self.readings.set(reading.saturating_add(1));
        match self.times.get(reading) {
            Some(time) => Ok(*time),
            None => Err(io::Error::from(ErrorKind::Unsupported)),
        }
    }

    fn since_1970(&self) -> io::Result<Duration> {
        self.monotonic()
    }
}

/// Whether the clock of a machine with these times gives these moments, one after another.
fn tells(times: &[Duration], moments: &[u64]) -> bool {
    let readings = Cell::new(0);
    let mut clock = MachineClock::new(Telling { times, readings });
    for moment in moments {
        if clock.now() != *moment {
            return false;
        }
    }
    true
}

/// It gives the machine's time, doesn't go back, and stands still if the machine refuses. After 584 years the nanoseconds exceed 64 bits:
/// then it stands still at 2^64 - 1.
#[test]
fn a_clock_of_a_machine(rt: HostRuntime) {
    let times = [
        Duration::from_nanos(5_000_000_007),
        Duration::from_nanos(4_000_000_000),
        Duration::from_secs(18_446_744_072),
    ];
    let last = 18_446_744_072_000_000_000;
    let moments = [5_000_000_007, 5_000_000_007, last, last];
    holds!(&rt; tells(times.as_slice(), moments.as_slice()));
    holds!(&rt; tells(&[Duration::from_secs(18_446_744_074)], &[u64::MAX]));
    holds!(&rt; tells(&[Duration::from_secs(u64::MAX)], &[u64::MAX]));
}
