//! What the bar shows each interval besides the count: the recent rate, and when it will be over.
use crate::arguments::{Asked, Begins, Look, Timing, Unit};
use crate::shown::Bar;
use indicatif::machine::MachineClock;
use indicatif::{
    Clock as Tells, Drawn, HumanBytes, HumanCount, HumanDuration, LastSeconds, Rate, Refusal,
    Sample,
};
use jiff_core::Timestamp;
use jiff_tz::{SystemTimeZone, TimeZoneDatabase};
use meter_parts::TimeOfDay;
use std::env::{self, Env};
use std::rt::Files;
use std::sync::Wait;
use std::time::{Clock, Duration};
use std::{fs, thread};

/// How often a thread checks whether the bar is finished.
const SLICE: u64 = 5_000_000;

/// A second.
const SECOND: u64 = 1_000_000_000;

/// Where the system keeps its time zones.
const ZONES: &str = "/usr/share/zoneinfo";

/// What is known before the first byte.
#[derive(Clone, Copy, Drop)]
pub struct Known {
    /// How much will come, if it is known.
    pub size: Option<u64>,
    /// The separator of two numbers.
    pub parting: &'static str,
}

/// Updates the bar's rate and its end each interval, until it is finished. Once a second its rows are written again.
pub fn tell_until_finished<R: AllocGlobal + Env + Files + Wait + Clock + Copy + Drop>(
    rt: &R,
    bar: &Bar<R>,
    asked: &Asked<'_>,
    known: Known,
) {
    let teller = Teller {
        rt,
        bar,
        look: &asked.look,
        timing: asked.timing,
        known,
        zone: zone_seconds(rt),
    };
    let mut clock = MachineClock::new(*rt);
    let begin = done_by(bar, clock.now());
    let mut lately = LastSeconds::starting(begin);
    let mut written = begin.moment;
    for _ in rt.forever() {
        if teller.is_over() {
            break;
        }
        let now = done_by(bar, clock.now());
        lately = lately.go_on(now);
        if !teller.waits(now) {
            let _ = teller.tell(lately, now);
            written = teller.write_anew(written, now.moment);
        }
    }
}

/// What is done by this moment.
fn done_by<R: Wait + Clock + Copy + Drop>(bar: &Bar<R>, moment: u64) -> Sample {
    Sample {
        steps: bar.position(),
        moment,
    }
}

/// Updates a bar.
#[derive(Drop)]
struct Teller<'a, R: Wait + Clock + Copy + Drop> {
    rt: &'a R,
    bar: &'a Bar<R>,
    look: &'a Look<'a>,
    timing: Timing,
    known: Known,
    zone: u64,
}

impl<R: AllocGlobal + Wait + Clock + Copy + Drop> Teller<'_, R> {
    /// Waits for an interval, at most until the bar is finished; whether it is.
    fn is_over(&self) -> bool {
        let mut left = self.timing.interval;
        for _ in 0..u64::MAX {
            if self.bar.is_finished() {
                return true;
            }
            if left == 0 {
                break;
            }
            let step = left.min(SLICE);
            thread::sleep(self.rt, Duration::from_nanos(step));
            left -= step;
        }
        false
    }

    /// Whether nothing is shown yet, since nothing came.
    fn waits(&self, now: Sample) -> bool {
        matches!(self.timing.begins, Begins::WithFirstByte) && now.steps == 0
    }

    /// Writes the bar's rows again, if that was last done a second ago; returns when it was last done. Any other draw writes only what
    /// changed, so text that another program wrote in between would stay.
    fn write_anew(&self, last: u64, now: u64) -> u64 {
        if now.saturating_sub(last) < SECOND {
            return last;
        }
        let _ = self.bar.suspend(|| ());
        now
    }

    /// Updates the bar: its prefix is the rate, its message the time left and the time of day of the end.
    fn tell(&self, lately: LastSeconds, now: Sample) -> Result<(), Refusal> {
        let mut text = String::new(self.rt.alloc());
        let rate = lately.rate(now);
        self.push_rates(&mut text, rate.steps_a_second(), now.steps)?;
        self.bar.set_prefix(text.as_str())?;
        if let Some(size) = self.known.size {
            let left = time_left(rate, size.saturating_sub(now.steps));
            let left = left_text(self.rt, left, self.zone)?;
            self.bar.set_message(left.as_str())?;
        }
        Ok(())
    }

    /// Appends the rate; for lines also the mean rate, which a template would show with decimals.
    fn push_rates(&self, text: &mut String, rate: u64, count: u64) -> Result<(), Refusal> {
        let is_own = self.look.format.is_none();
        let parts = self.look.parts;
        if matches!(self.look.unit, Unit::Bytes) {
            text.write(HumanBytes(rate))?;
            text.push_str("/s")?;
            return Ok(());
        }
        if parts.rate || !is_own {
            text.write(HumanCount(rate))?;
            text.push_str("/s")?;
        }
        if parts.mean && is_own {
            self.push_mean(text, count)?;
        }
        Ok(())
    }

    /// Appends the mean rate since the start, separated from the rate.
    fn push_mean(&self, text: &mut String, count: u64) -> Result<(), Refusal> {
        let nanos = self.bar.elapsed();
        let mean = Rate {
            steps: count,
            nanos,
        };
        if self.look.parts.rate {
            text.push_str(self.known.parting)?;
        }
        text.push_str("mean ")?;
        text.write(HumanCount(mean.steps_a_second()))?;
        text.push_str("/s")?;
        Ok(())
    }
}

/// The nanoseconds for the rest at this rate; none if the rate is 0.
fn time_left(rate: Rate, left: u64) -> Option<u64> {
    match rate.steps {
        0 => None,
        _ => Some(rate.time_for(left)),
    }
}

/// The time left and the time of day of the end; `stalled` if there is no rate.
fn left_text<R: AllocGlobal + Clock>(
    rt: &R,
    left: Option<u64>,
    zone: u64,
) -> Result<String, Refusal> {
    let mut text = String::new(rt.alloc());
    match left {
        Some(left) => {
            let end = day_seconds(rt, zone).saturating_add(left / SECOND);
            HumanDuration(left).write_short(&mut text)?;
            text.push(' ')?;
            text.write(TimeOfDay(end))?;
        }
        None => text.push_str("stalled")?,
    }
    Ok(text)
}

/// Gives a finished bar the time of day.
pub fn tell_end<R: AllocGlobal + Env + Files + Wait + Clock + Copy + Drop>(
    rt: &R,
    bar: &Bar<R>,
) -> Result<Drawn, Refusal> {
    let time = TimeOfDay(day_seconds(rt, zone_seconds(rt))).to_string(rt.alloc())?;
    bar.set_message(time.as_str())
}

/// The seconds of today, and of the days before it, if the zone is `zone` seconds ahead.
fn day_seconds<R: Clock>(rt: &R, zone: u64) -> u64 {
    match rt.since_1970() {
        Ok(time) => time.as_secs().saturating_add(zone),
        Err(_) => zone,
    }
}

/// How many seconds the system's time zone is ahead of UTC now, modulo a day; 0 if it isn't known.
fn zone_seconds<R: AllocGlobal + Env + Files + Clock>(rt: &R) -> u64 {
    zone_now(rt)
        .unwrap_or(0)
        .rem_euclid(86_400)
        .unsigned_abs()
        .into()
}

/// How many seconds the system's time zone is ahead of UTC now, negative if it is behind, if it is known.
fn zone_now<R: AllocGlobal + Env + Files + Clock>(rt: &R) -> Option<i32> {
    let Ok(time) = rt.since_1970() else {
        return None;
    };
    let nanos = i128::try_from(time.as_nanos()).ok()?;
    let now = Timestamp::from_nanosecond(nanos).ok()?;
    match SystemTimeZone::read(rt) {
        Ok(zone) => seconds_in(&zone, &named_zone(rt), now),
        Err(_) => None,
    }
}

/// The zone named by `TZ`, as a database; an empty one if the system has no such zone.
fn named_zone<R: AllocGlobal + Env + Files>(rt: &R) -> TimeZoneDatabase {
    let mut zones = TimeZoneDatabase::new(rt.alloc());
    let Ok(said) = env::var(rt, "TZ") else {
        return zones;
    };
    let name = said.as_str().trim_start_matches(':');
    if let Ok(path) = format!(in rt.alloc(); "{ZONES}/{name}") {
        if let Ok(bytes) = fs::read(rt, path.as_str()) {
            let _ = zones.insert(name, bytes.as_slice());
        }
    }
    zones
}

/// How many seconds a zone is ahead of UTC at this moment, if it is known.
fn seconds_in(zone: &SystemTimeZone, zones: &TimeZoneDatabase, now: Timestamp) -> Option<i32> {
    match zone.time_zone(zones) {
        Ok(told) => Some(told.to_offset(now).seconds),
        Err(_) => None,
    }
}
