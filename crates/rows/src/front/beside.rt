//! A shared bar that stands alone beside a `LoneBar`, call by call: the same answers, the same rows on the terminal, and the same
//! readings.
//!
//! `beside` begins; `learn CALL` keeps a call (`tell`) for later. `on ROWS COLS FROM STEP RATE` makes both bars again, on terminals of this
//! size, with clocks that start at `FROM` and advance by `STEP`; they are drawn at most `RATE` times a second if that isn't 0, and with the
//! rate `hidden` there is no terminal. `turn RATE` gives both another terminal. `call CALL` makes a call of both, `each` makes the kept
//! calls, and `random N SEED` N of them, by the numbers of a generator: `same`, or the call and what differs after it.
use crate::front::bars::{Bar, Room, RowClock, Target, Told, spinner};
use crate::front::tell::further;
use indicatif::{
    BarCommand, BarState, Clock, InMemoryTerm, LoneBar, LoneCall, Moment, NoTracker, ProgressBar,
    ProgressDrawTarget, ProgressStyle, Refusal, Setup,
};
use scripts::got::{Bad, Got, Outcome};
use scripts::lone::{lone_call, read_bar};
use scripts::replay::rows_of;
use scripts::row::{At, Words, headed, number};
use std::alloc::Global;
use std::sync::Wait;

/// The bar that stands alone.
#[derive(Drop)]
struct Lone(LoneBar<NoTracker, InMemoryTerm>);

/// The two, and the clock of the second, which gives the same moments as the first one's.
#[derive(Drop)]
struct Both<R: Wait + Copy + Clone + Drop> {
    shared: Bar<R>,
    lone: Box<Lone>,
    clock: RowClock,
    alloc: Global,
    room: Room,
}

/// The two, once they were made, and the kept calls.
#[derive(Drop)]
pub struct Pair<R: Wait + Copy + Clone + Drop> {
    rt: R,
    calls: Vec<String>,
    both: Option<Box<Both<R>>>,
}

const TEMPLATE: &str = "{prefix}{msg} {pos}/{len}\n{spinner} {elapsed_precise}";

/// The readings of both.
const READINGS: &str =
    "pos len ticks finished tab_width message prefix last_tick eta duration elapsed rate";

fn style(alloc: Global) -> Result<ProgressStyle<NoTracker>, Refusal> {
    ProgressStyle::with_template(alloc, TEMPLATE)?.tick_strings(&["-", "+", "ok"])
}

/// A target with this rate.
fn target(alloc: Global, room: Room, rate: &str) -> Result<Target, Bad> {
    if rate == "hidden" {
        return Ok(ProgressDrawTarget::hidden());
    }
    let pace = match number(rate)? {
        0 => None,
        hz => Some((hz, 0)),
    };
    Ok(Room { pace, ..room }.target(alloc)?)
}

impl<R: Wait + Copy + Clone + Drop> Both<R> {
    /// The shared bar, and a `LoneBar` that is made at the moment of the first, and then given the same style.
    fn on(rt: R, alloc: Global, rest: &str) -> Result<Box<Both<R>>, Bad> {
        let mut words = Words::of(rest);
        let room = Room::of(&mut words)?;
        let mut clock = room.clock;
        let bar = BarState::new(alloc, Some(10), clock.now())?;
        let lone = LoneBar::new(bar, target(alloc, room, words.rest())?);
        let mut lone = Box::new(alloc, Lone(lone))?;
        lone.0.with_style(style(alloc)?, clock.now())?;
        let setup = Setup {
            target: target(alloc, room, words.rest())?,
            clock: room.clock,
        };
        let shared = Bar(ProgressBar::new(rt, alloc, 10, setup)?.with_style(style(alloc)?)?);
        let both = Both {
            shared,
            lone,
            clock,
            alloc,
            room,
        };
        Ok(Box::new(alloc, both)?)
    }

    /// Whether both show the same.
    fn show_same(&self) -> bool {
        let (one, other) = (&self.shared.0, &self.lone.0);
        match (one.with_term(rows_of), rows_of(other.term())) {
            (Ok(rows), Ok(wanted)) => rows == wanted && one.is_hidden() == other.is_hidden(),
            _ => false,
        }
    }

    /// Whether a reading gives the same for both. Some take a moment.
    fn read_same(&mut self, name: &str) -> Result<bool, Bad> {
        let (mut one, mut other) = (Got::new(self.alloc), Got::new(self.alloc));
        let now = match name {
            "eta" | "duration" | "elapsed" | "rate" => self.clock.now(),
            _ => 0,
        };
        let are_read = self.shared.read(name, &mut one)?
            && read_bar(self.lone.0.bar(), name, now, &mut other)?;
        Ok(are_read && one.as_str() == other.as_str())
    }

    /// The reading that differs, if one does.
    fn unlike(&mut self) -> Result<Option<&'static str>, Bad> {
        for name in READINGS.split(' ') {
            if !self.read_same(name)? {
                return Ok(Some(name));
            }
        }
        Ok(None)
    }

    /// What differs after the same call of both, if anything does.
    fn differ_by(&mut self, call: &str) -> Result<Option<&'static str>, Bad> {
        let answer = self.shared.tell(self.alloc, call)?;
        let now = self.clock.now();
        if tell_alone(&mut self.lone, self.alloc, call, now)? != answer {
            return Ok(Some("answers"));
        }
        match self.show_same() {
            true => self.unlike(),
            false => Ok(Some("rows")),
        }
    }

    /// Sets another target with this rate for both: the answer of the shared one, and whether they show the same.
    fn turn(&mut self, rate: &str, got: &mut Got) -> Outcome {
        let one = target(self.alloc, self.room, rate)?;
        let other = target(self.alloc, self.room, rate)?;
        got.answer(self.shared.0.set_draw_target(one));
        let _ = self.lone.0.set_draw_target(other);
        got.text(if self.show_same() { " same" } else { " rows" });
        Ok(())
    }

    /// Makes a call of both; whether nothing differs, otherwise appends what does.
    fn is_same(&mut self, call: &str, got: &mut Got) -> Result<bool, Bad> {
        let differs = self.differ_by(call)?;
        if let Some(what) = differs {
            got.number(format_args!("{call}: {what}"));
        }
        Ok(differs.is_none())
    }

    /// Makes each of these calls.
    fn each(&mut self, calls: &[String], got: &mut Got) -> Outcome {
        for call in calls {
            if !self.is_same(call.as_str(), got)? {
                return Ok(());
            }
        }
        got.number(format_args!("{} same", calls.len()));
        Ok(())
    }

    /// Makes `N` of these calls, by the numbers of a generator: `N SEED`.
    fn random(&mut self, calls: &[String], words: &str, got: &mut Got) -> Outcome {
        let (times, seed) = headed(words);
        let (times, mut seed): (u32, u64) = (number(times)?, number(seed)?);
        for _ in 0..times {
            if !self.is_same(chosen(calls, &mut seed)?, got)? {
                return Ok(());
            }
        }
        got.number(format_args!("{times} same"));
        Ok(())
    }
}

/// One of these calls, by the next number of a fixed generator: Marsaglia's xorshift of 64 bits, with the shifts 13, 7 and 17.
fn chosen<'a>(calls: &'a [String], seed: &mut u64) -> Result<&'a str, Bad> {
    let mut x = *seed;
    x ^= x.wrapping_shl(13);
    x ^= x >> 7;
    x ^= x.wrapping_shl(17);
    *seed = x;
    let count = calls.len().max(1) as u64;
    let call = calls.get((x % count) as usize).ok_or(Bad::Step)?;
    Ok(call.as_str())
}

/// No bars yet, and no calls.
pub fn begin<R: Wait + Copy + Clone + Drop>(rt: R, at: At) -> Result<Box<Pair<R>>, Bad> {
    at.boxed(Pair {
        rt,
        calls: Vec::new(at.alloc),
        both: None,
    })
}

impl<R: Wait + Copy + Clone + Drop> Pair<R> {
    /// Makes a step.
    pub fn step(&mut self, step: &str, at: At, got: &mut Got) -> Outcome {
        let (name, rest) = headed(step);
        match (name, &mut self.both) {
            ("learn", _) => self.calls.push(String::from_str(at.alloc, rest)?)?,
            ("on", both) => *both = Some(Both::on(self.rt, at.alloc, rest)?),
            ("each", Some(both)) => both.each(&self.calls, got)?,
            ("turn", Some(both)) => both.turn(rest, got)?,
            ("random", Some(both)) => both.random(&self.calls, rest, got)?,
            ("call", Some(both)) => {
                let is_same = both.is_same(rest, got)?;
                got.text(if is_same { "same" } else { "" });
            }
            _ => return Err(Bad::Step),
        }
        Ok(())
    }
}

/// Makes the call of a text of a `LoneBar`. A wrapper's call, and a builder, become a command.
fn tell_alone(bar: &mut Lone, alloc: Global, text: &str, now: Moment) -> Result<Told, Bad> {
    let command = match headed(text) {
        ("suspend", "") => return Ok(bar.0.suspend(now, || ()).1),
        ("further", n) => {
            let delta = number(n)?;
            return Ok(bar.0.update(|state| further(state, delta), now));
        }
        ("at_end", "") => BarCommand::FinishUsingStyle,
        ("set_style" | "with_style", last) => BarCommand::SetStyle(spinner(alloc, last)?),
        ("advance", n) => BarCommand::Inc(number(n)?),
        ("place", n) => BarCommand::SetPosition(number(n)?),
        _ => return Ok(bar.0.call(lone_call(alloc, text)?, now)),
    };
    Ok(bar.0.call(LoneCall::Bar(command), now))
}
