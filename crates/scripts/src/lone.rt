//! Calls of a lone bar, bars in rows, and readings of a bar.
use crate::commands::{self, command};
use crate::got::{Bad, Got};
use crate::row::{At, headed};
use crate::spelling::{number, unescaped};
use indicatif_bar::lone::LoneCall;
use indicatif_bar::state::{Ask, BarState, Fraction, ProgressState, Rate};
use indicatif_bar::style::{NoTracker, ProgressStyle};
use indicatif_text::columns::Moment;
use std::alloc::Global;
use std::convert::AsStr;

/// A bar's record.
pub type Bar = BarState<NoTracker>;

/// A bar with this length: with this template; after `'` with only a message, which is this; or `default_bar`. Escapes stand for
/// characters.
pub fn bar_of(at: At, text: &str, len: Option<u64>) -> Result<Box<Bar>, Bad> {
    if text == "default_bar" {
        return at.boxed(BarState::new(at.alloc, len, at.now)?);
    }
    match text.strip_prefix('\'') {
        Some(message) => {
            let mut bar = templated(at, "{msg}", len)?;
            bar.with_message(unescaped(at.alloc, message)?.as_str(), at.now)?;
            Ok(bar)
        }
        None => templated(at, text, len),
    }
}

fn templated(at: At, template: &str, len: Option<u64>) -> Result<Box<Bar>, Bad> {
    let style = style_of(at, template)?;
    at.boxed(BarState::styled(at.alloc, Box::into_inner(style), len, at.now)?)
}

/// The style with a template with escapes.
pub fn style_of(at: At, template: &str) -> Result<Box<ProgressStyle<NoTracker>>, Bad> {
    at.boxed(commands::templated(at.alloc, template)?)
}

/// The call of a step: `clear`, `log TEXT`, or a command of the bar.
pub fn lone_call(alloc: Global, text: &str) -> Result<LoneCall<NoTracker>, Bad> {
    if text == "clear" {
        return Ok(LoneCall::Clear);
    }
    match text.split_once(' ') {
        Some(("log", rest)) => Ok(LoneCall::Log(unescaped(alloc, rest)?)),
        _ => Ok(LoneCall::Bar(command(alloc, text)?)),
    }
}

/// Reads something from a bar's record; whether the text is such a reading. `lines COLS`: the lines, each followed by a newline.
pub fn read_bar(bar: &Bar, text: &str, now: Moment, got: &mut Got) -> Result<bool, Bad> {
    let state = bar.state();
    match headed(text) {
        ("message", "") => got.text(bar.message()),
        ("prefix", "") => got.text(bar.prefix()),
        ("last_tick", "") => got.text(bar.style().get_final_tick_str()),
        ("tab_width", "") => got.number(bar.tab_width()),
        ("state", "") => got.text(name_of(bar, now)?),
        ("pos", "") => got.number(state.pos()),
        ("len", "") => got.optional(state.len()),
        ("ticks", "") => got.number(state.ticks()),
        ("finished", "") => got.flag(state.is_finished()),
        ("reached", "") => push_reached(state, got),
        ("fraction", "") => {
            let Fraction { num, den } = state.fraction();
            got.number(format_args!("{num}/{den}"));
        }
        ("rate", "") => push_rate(state.per_sec(now), got),
        ("per_sec", "") => push_speed(state.per_sec(now), got),
        ("eta", "") => got.number(state.eta(now)),
        ("duration", "") => got.number(state.duration(now)),
        ("elapsed", "") => got.number(state.elapsed(now)),
        ("lines", columns) => push_lines(bar, number(columns)?, now, got)?,
        _ => return Ok(false),
    }
    Ok(true)
}

/// Appends the lines for `columns` columns, each followed by a newline.
pub fn push_lines(bar: &Bar, columns: u16, now: Moment, got: &mut Got) -> Result<(), Bad> {
    let lines = bar.lines(now, columns)?;
    for line in &lines {
        got.text(line.as_str());
        got.text("\n");
    }
    Ok(())
}

/// `progress`, or for a finished bar whether it has lines: `visible`, `hidden`.
fn name_of(bar: &Bar, now: Moment) -> Result<&'static str, Bad> {
    Ok(match bar.state().is_finished() {
        false => "progress",
        true if bar.lines(now, 1)?.is_empty() => "hidden",
        true => "visible",
    })
}

/// Appends the position, the length, the ticks, and whether the bar is finished, separated by spaces.
fn push_reached(state: &ProgressState, got: &mut Got) {
    got.number(format_args!("{} ", state.pos()));
    got.optional(state.len());
    got.number(format_args!(" {} ", state.ticks()));
    got.flag(state.is_finished());
}

/// Appends a rate: steps, `/`, nanoseconds.
pub fn push_rate(rate: Rate, got: &mut Got) {
    got.number(format_args!("{}/{}", rate.steps, rate.nanos));
}

/// Appends a rate, or `0` if there are no steps.
fn push_speed(rate: Rate, got: &mut Got) {
    match rate.steps {
        0 => got.text("0"),
        _ => push_rate(rate, got),
    }
}

/// Appends the draw that a command asks for: `no`, `unforced` or `forced`.
pub fn push_ask(ask: Ask, got: &mut Got) {
    got.text(match ask {
        Ask::No => "no",
        Ask::Unforced => "unforced",
        Ask::Forced => "forced",
    });
}
