//! How the bytes are shown.
use crate::arguments::{Asked, Look, Manner, Parts, Unit};
use indicatif::machine::{MachineClock, StderrTerm, facts_of, own_stderr, wants_colors};
use indicatif::{Facts, NoTracker, ProgressBar, ProgressStyle, Refusal, Setup};
use meter_parts::{cut, plain_text};
use std::alloc::Global;
use std::env::Env;
use std::io::Stderr;
use std::sync::Wait;
use std::time;

/// A bar on standard error, shared by the thread that copies and the one that shows.
pub type Bar<R> = ProgressBar<StderrTerm, MachineClock<R>, R>;

/// If rows have fewer columns, each number has its own row.
const WIDE: u16 = 71;

/// A bar with this length or none, shown as requested; hidden if standard error is no terminal.
///
/// Refused: `Memory`, and as for templates.
pub fn bar_for<R: AllocGlobal + Env + Wait + time::Clock + Copy + Drop>(
    rt: &R,
    errors: Stderr,
    asked: &Asked<'_>,
    size: Option<u64>,
) -> Result<Bar<R>, Refusal> {
    let facts = facts_for(rt, errors, &asked.look)?;
    let style = style_for(rt.alloc(), &asked.look, size, facts.cols)?;
    let style = style.with_colors(wants_colors(rt, &errors)?)?;
    let setup = Setup {
        target: own_stderr(rt, errors, facts, asked.look.row)?,
        clock: MachineClock::new(*rt),
    };
    let bar = ProgressBar::styled(*rt, rt.alloc(), style, size, setup)?;
    bar.with_prefix(no_rate(&asked.look))
}

/// The text in place of the rate before there is one.
fn no_rate(look: &Look<'_>) -> &'static str {
    match look.unit {
        Unit::Bytes => "0 B/s",
        Unit::Lines(_) if look.parts.rate => "0/s",
        Unit::Lines(_) => "",
    }
}

/// What separates the numbers: a space in one row, otherwise a line end.
pub fn parting_for<R: AllocGlobal + Env>(rt: &R, errors: Stderr, look: &Look<'_>) -> &'static str {
    match facts_for(rt, errors, look) {
        Ok(facts) => parting(look, facts.cols),
        Err(_) => " ",
    }
}

/// What separates the numbers if rows have `columns` columns.
fn parting(look: &Look<'_>, columns: u16) -> &'static str {
    if columns >= WIDE || look.row.is_some() {
        " "
    } else {
        "\n"
    }
}

/// The facts of standard error: rows have one column less than the terminal, on whose last column the cursor waits.
fn facts_for<R: AllocGlobal + Env>(
    rt: &R,
    errors: Stderr,
    look: &Look<'_>,
) -> Result<Facts, Refusal> {
    let mut facts = facts_of(rt, &errors)?;
    let columns = look.columns.unwrap_or(facts.cols);
    facts.cols = columns.saturating_sub(1).max(1);
    if look.row.is_some() {
        facts.rows = 1;
    }
    match look.manner {
        Manner::Bar => {}
        Manner::ForcedBar => facts.attended = true,
        Manner::Numbers | Manner::Quiet => facts.attended = false,
    }
    Ok(facts)
}

/// The bar's style.
fn style_for(
    alloc: Global,
    look: &Look<'_>,
    size: Option<u64>,
    columns: u16,
) -> Result<ProgressStyle<NoTracker>, Refusal> {
    if let Some(format) = look.format {
        return ProgressStyle::with_template(alloc, format);
    }
    let mut text = String::new(alloc);
    push_template(alloc, &mut text, look, size, columns)?;
    ProgressStyle::with_template(alloc, text.as_str())
}

/// A part of the template.
#[derive(Clone, Copy, Drop)]
struct Field {
    is_asked: bool,
    text: &'static str,
    /// The most columns that it takes.
    columns: u16,
}

/// The parts in the first row: how much was sent, and for how long.
fn first_fields(look: &Look<'_>) -> [Field; 2] {
    let Parts { count, elapsed, .. } = look.parts;
    let (text, columns) = match look.unit {
        Unit::Bytes => ("{bytes}", 11),
        Unit::Lines(_) => ("{human_pos}", 14),
    };
    [
        Field {
            is_asked: count,
            text,
            columns,
        },
        Field {
            is_asked: elapsed,
            text: "{elapsed_precise}",
            columns: 8,
        },
    ]
}

/// The others: the rate of the last seconds and the mean, and with a length the progress and the time left. If lines are counted both rates
/// are the prefix, which has no decimals.
fn other_fields(look: &Look<'_>, has_size: bool) -> [Field; 4] {
    let Parts {
        rate,
        mean,
        bar,
        left,
        ..
    } = look.parts;
    let is_bytes = matches!(look.unit, Unit::Bytes);
    [
        Field {
            is_asked: rate || mean && !is_bytes,
            text: "{prefix}",
            columns: if is_bytes { 13 } else { 38 },
        },
        Field {
            is_asked: mean && is_bytes,
            text: "mean {bytes_per_sec}",
            columns: 18,
        },
        Field {
            is_asked: bar && has_size,
            text: "[{wide_bar}] {percent}%",
            columns: 12,
        },
        Field {
            is_asked: left && has_size,
            text: "{msg}",
            columns: 13,
        },
    ]
}

/// The template of a bar with this length or none: the name, and the requested parts. In one row that is short, those that fit.
fn push_template(
    alloc: Global,
    text: &mut String,
    look: &Look<'_>,
    size: Option<u64>,
    columns: u16,
) -> Result<(), Refusal> {
    let parting = parting(look, columns);
    let is_short = columns < WIDE && look.row.is_some();
    let mut room = if is_short { columns } else { u16::MAX };
    if let Some(name) = look.name {
        let most = if parting == " " { columns / 8 } else { columns };
        push_name(alloc, text, name, most)?;
        room = room.saturating_sub(most);
    }
    let [count, elapsed] = first_fields(look);
    push_fields(text, &[count], parting, &mut room)?;
    push_fields(text, &[elapsed], " ", &mut room)?;
    push_fields(
        text,
        &other_fields(look, size.is_some()),
        parting,
        &mut room,
    )
}

/// Appends these parts, as far as they fit, each after a separator if something stands before it.
fn push_fields(
    text: &mut String,
    fields: &[Field],
    parting: &str,
    room: &mut u16,
) -> Result<(), Refusal> {
    for field in fields {
        let is_first = text.as_str().is_empty();
        let wide = field.columns.saturating_add(if is_first { 0 } else { 1 });
        if !field.is_asked || *room < wide {
            continue;
        }
        *room -= wide;
        if !is_first {
            text.push_str(parting)?;
        }
        text.push_str(field.text)?;
    }
    Ok(())
}

/// A name as a literal of a template, made plain and cut.
fn push_name(alloc: Global, text: &mut String, name: &str, room: u16) -> Result<(), Refusal> {
    let plain = plain_text(alloc, name)?;
    let cut = cut(alloc, plain.as_str(), room as usize)?;
    push_literal(text, cut.as_str())
}

/// A text as a literal of a template.
fn push_literal(text: &mut String, literal: &str) -> Result<(), Refusal> {
    for c in literal.chars() {
        if c == '{' || c == '}' {
            text.push(c)?;
        }
        text.push(c)?;
    }
    Ok(())
}
