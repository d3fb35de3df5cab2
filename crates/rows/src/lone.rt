//! Bars without a board: a lone bar, and a bar's record alone.
use indicatif_bar::lone::{LoneBar, LoneCall};
use indicatif_bar::state::{Ask, BarCommand, ProgressFinish};
use indicatif_bar::style::NoTracker;
use indicatif_text::columns::{Drawn, Moment, Refusal};
use scripts::called;
use scripts::commands::{command, finish};
use scripts::got::{Bad, Got, Outcome};
use scripts::lone::{Bar, bar_of, lone_call, push_ask, read_bar, style_of};
use scripts::row::{At, Words, flag, headed, number, timed};
use scripts::screen::Behind;

/// A lone bar on the terminal of a screen.
pub type Lone = LoneBar<NoTracker, Behind>;

/// The answer of a call.
type Answer = Result<Drawn, Refusal>;

/// `LEN BAR`: a bar with this length, or none.
pub fn new_bar(words: &mut Words<'_>, at: At) -> Result<Box<Bar>, Bad> {
    let len = words.optional()?;
    bar_of(at, words.rest(), len)
}

// ---- a lone bar

/// Makes a call, and appends its answer; `run CALL | CALL ..` makes calls as one list. Or reads the bar.
pub fn step(bar: &mut Lone, step: &str, at: At, got: &mut Got) -> Outcome {
    if read_bar(bar.bar(), step, at.now, got)? {
        return Ok(());
    }
    match headed(step) {
        ("move", word) => bar.set_move_cursor(flag(word)?),
        ("run", calls) => push_answers(&bar.run(calls_of(calls, at)?)?, got),
        _ => got.answer(answer(bar, step, at)?),
    }
    Ok(())
}

/// The answer of the bar to the call of a step.
fn answer(bar: &mut Lone, step: &str, at: At) -> Result<Answer, Bad> {
    let now = at.now;
    Ok(match headed(step) {
        ("absorb", sum) => bar.absorb(number(sum)?, now),
        ("with_elapsed", nanos) => bar.with_elapsed(number(nanos)?, now),
        ("with_style", template) => bar.with_style(Box::into_inner(style_of(at, template)?), now),
        _ => match lone_call(at.alloc, step)? {
            LoneCall::Log(text) => bar.println(text.as_str(), now),
            LoneCall::Clear => bar.clear(now),
            LoneCall::Bar(command) => match by_name(bar, &command, now) {
                Some(answer) => answer,
                None => bar.call(LoneCall::Bar(command), now),
            },
        },
    })
}

/// Makes a command by the call with its name; `None` if that takes an argument by value.
fn by_name(bar: &mut Lone, command: &BarCommand<NoTracker>, now: Moment) -> Option<Answer> {
    match command {
        BarCommand::TickerTick => Some(bar.ticker_tick(now)),
        BarCommand::SetTicker(is_on) => Some(bar.set_ticker(*is_on, now)),
        BarCommand::Update(change) => Some(bar.set_change(*change, now)),
        BarCommand::WithPosition(position) => Some(bar.with_position(*position, now)),
        BarCommand::WithTabWidth(width) => Some(bar.with_tab_width(*width, now)),
        BarCommand::WithMessage(text) => Some(bar.with_message(text.as_str(), now)),
        BarCommand::WithPrefix(text) => Some(bar.with_prefix(text.as_str(), now)),
        _ => called!(bar, command, now),
    }
}

/// `CALL | CALL ..`: calls as one list, each at its moment.
fn calls_of(calls: &str, at: At) -> Result<Vec<(LoneCall<NoTracker>, Moment)>, Bad> {
    let mut timed_calls = Vec::new(at.alloc);
    for text in calls.split(" | ") {
        let (text, now) = timed(text);
        timed_calls.push((lone_call(at.alloc, text)?, now.unwrap_or(at.now)))?;
    }
    Ok(timed_calls)
}

fn push_answers(answers: &[Answer], got: &mut Got) {
    for answer in answers {
        got.between(" ");
        got.answer(*answer);
    }
}

// ---- a record

/// Makes a command of a record (`record LEN BAR`), and appends the draw that it asks for; or reads the bar.
pub fn ask(bar: &mut Bar, step: &str, at: At, got: &mut Got) -> Outcome {
    if read_bar(bar, step, at.now, got)? {
        return Ok(());
    }
    match asked(bar, step, at)? {
        Ok(ask) => push_ask(ask, got),
        Err(refusal) => got.refusal(refusal),
    }
    Ok(())
}

/// The draw that a step of a bar asks for, or its refusal.
fn asked(bar: &mut Bar, step: &str, at: At) -> Result<Result<Ask, Refusal>, Bad> {
    let now = at.now;
    Ok(match headed(step) {
        ("absorb", sum) => Ok(bar.absorb(number(sum)?, now)),
        ("with_elapsed", nanos) => bar.with_elapsed(number(nanos)?, now),
        ("with_style", template) => bar.with_style(Box::into_inner(style_of(at, template)?), now),
        ("finish_by", text) => bar.finish_by(&finish(at.alloc, text)?, now),
        ("dropped", "") => bar.dropped(now),
        _ => bar.apply(command(at.alloc, step)?, now),
    })
}
