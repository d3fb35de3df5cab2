//! Calls of a board, their answers, and readings of a board.
use crate::commands::{command, push_command};
use crate::got::{Bad, Got};
use crate::lone::bar_of;
use crate::row::{At, Words, headed};
use crate::spelling::{number, optional, unescaped};
use indicatif_bar::style::NoTracker;
use indicatif_board::multi::{Answer, BarId, Call, Candidate, InsertLocation};
use indicatif_term::target::MultiProgressAlignment;
use std::alloc::Global;

/// The mark of the board in rows.
pub const MARK: u64 = 1;

/// The bar with a number; after `x`, one of another board.
pub fn bar_id(text: &str) -> Result<BarId, Bad> {
    let (mark, digits) = match text.strip_prefix('x') {
        Some(rest) => (MARK + 1, rest),
        None => (MARK, text),
    };
    Ok(BarId {
        mark,
        number: number(digits)?,
    })
}

/// The bar of a step, as in `0: tick`, and the rest.
pub fn of_bar(text: &str) -> Option<(BarId, &str)> {
    let (bar, rest) = text.split_once(": ")?;
    Some((bar_id(bar).ok()?, rest))
}

/// The call of a step: `clear`, `redraw`, `top`, `bottom`, `log TEXT`, an insertion; or after a bar's number and `: ` one of that bar.
pub fn board_call(at: At, text: &str) -> Result<Call<NoTracker>, Bad> {
    if let Some((id, rest)) = of_bar(text) {
        return bar_call(at.alloc, id, rest);
    }
    Ok(match headed(text) {
        ("clear", "") => Call::Clear,
        ("redraw", "") => Call::Redraw,
        ("top", "") => Call::Align(MultiProgressAlignment::Top),
        ("bottom", "") => Call::Align(MultiProgressAlignment::Bottom),
        ("log", text) => Call::Log(unescaped(at.alloc, text)?),
        (name, rest) => insertion(at, name, rest)?,
    })
}

/// A call of a bar: `drop`, `remove`, `log TEXT`, or a command.
fn bar_call(alloc: Global, id: BarId, text: &str) -> Result<Call<NoTracker>, Bad> {
    Ok(match headed(text) {
        ("drop", "") => Call::Drop(id),
        ("remove", "") => Call::Remove(id),
        ("log", text) => Call::BarLog(id, unescaped(alloc, text)?),
        _ => Call::Bar(id, command(alloc, text)?),
    })
}

/// The call that inserts a bar: `add BAR`, `insert N BAR`, `back N BAR`, `before N BAR`, `after N BAR`.
fn insertion(at: At, name: &str, rest: &str) -> Result<Call<NoTracker>, Bad> {
    let mut words = Words::of(rest);
    let place = match name {
        "add" => InsertLocation::End,
        "insert" => InsertLocation::Index(words.number()?),
        "back" => InsertLocation::FromBack(words.number()?),
        "before" => InsertLocation::Before(bar_id(words.word())?),
        "after" => InsertLocation::After(bar_id(words.word())?),
        _ => return Err(Bad::Step),
    };
    let candidate = candidate(at, words.rest())?;
    Ok(Call::Insert {
        at: place,
        candidate,
    })
}

/// What to insert: after `=` a bar that may be there, or a new one, after `len=LEN ` with that length.
fn candidate(at: At, text: &str) -> Result<Candidate<NoTracker>, Bad> {
    if let Some(id) = text.strip_prefix('=') {
        return Ok(Candidate::Member(bar_id(id)?));
    }
    let (len, bar) = match text.strip_prefix("len=") {
        Some(rest) => headed(rest),
        None => ("-", text),
    };
    let bar = bar_of(at, bar, optional(len)?)?;
    Ok(Candidate::New(Box::into_inner(bar)))
}

/// Appends the answer of a call: a bar's number, `done`, or as for a lone bar's call.
pub fn push_answer(answer: Answer, got: &mut Got) {
    match answer {
        Answer::Id(id) => got.number(id.number),
        Answer::Accepted => got.text("done"),
        Answer::Drawn(drawn) => got.answer(Ok(drawn)),
        Answer::Refused(refusal) => got.refusal(refusal),
    }
}

// ---- calls as texts: a style by its last text, a new bar by its message

/// Appends a call.
pub fn push_call(call: &Call<NoTracker>, got: &mut Got) {
    match call {
        Call::Insert { at, candidate } => push_insertion(*at, candidate, got),
        Call::Remove(id) => push_about(*id, "remove", got),
        Call::Drop(id) => push_about(*id, "drop", got),
        Call::Log(text) => got.number(format_args!("log {text}")),
        Call::BarLog(id, text) => {
            push_about(*id, "log ", got);
            got.text(text.as_str());
        }
        Call::Bar(id, command) => {
            push_about(*id, "", got);
            push_command(command, got);
        }
        Call::Clear => got.text("clear"),
        Call::Redraw => got.text("redraw"),
        Call::Align(MultiProgressAlignment::Top) => got.text("top"),
        Call::Align(MultiProgressAlignment::Bottom) => got.text("bottom"),
    }
}

/// Appends the number of a bar, with `x` before it for one of another board.
pub fn push_id(id: BarId, got: &mut Got) {
    got.text(if id.mark == MARK { "" } else { "x" });
    got.number(id.number);
}

fn push_about(id: BarId, name: &str, got: &mut Got) {
    push_id(id, got);
    got.number(format_args!(": {name}"));
}

fn push_insertion(at: InsertLocation, candidate: &Candidate<NoTracker>, got: &mut Got) {
    match at {
        InsertLocation::End => got.text("add "),
        InsertLocation::Index(index) => got.number(format_args!("insert {index} ")),
        InsertLocation::FromBack(count) => got.number(format_args!("back {count} ")),
        InsertLocation::Before(id) => push_anchor("before ", id, got),
        InsertLocation::After(id) => push_anchor("after ", id, got),
    }
    match candidate {
        Candidate::New(bar) => got.text(bar.message()),
        Candidate::Member(id) => {
            got.text("=");
            push_id(*id, got);
        }
    }
}

fn push_anchor(name: &str, id: BarId, got: &mut Got) {
    got.text(name);
    push_id(id, got);
    got.text(" ");
}
