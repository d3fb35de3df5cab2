//! Commands of a bar in rows: a name and its arguments. A command is a value, the call with its name, and the text of a value.
use crate::got::{Bad, Got};
use crate::row::headed;
use crate::spelling::{flag, number, optional, unescaped};
use indicatif_bar::state::{BarCommand, Change, ProgressFinish};
use indicatif_bar::style::{NoTracker, ProgressStyle};
use std::alloc::Global;

type Command = BarCommand<NoTracker>;

/// The command of a step. `with_style` and `with_elapsed` are the names of builders alone.
pub fn command(alloc: Global, step: &str) -> Result<Command, Bad> {
    Ok(match headed(step) {
        ("tick", "") => BarCommand::Tick,
        ("ticker_tick", "") => BarCommand::TickerTick,
        ("set_ticker", is_on) => BarCommand::SetTicker(flag(is_on)?),
        ("unset_length", "") => BarCommand::UnsetLength,
        ("reset_eta", "") => BarCommand::ResetEta,
        ("reset_elapsed", "") => BarCommand::ResetElapsed,
        ("reset", "") => BarCommand::Reset,
        ("finish_using_style", "") => BarCommand::FinishUsingStyle,
        ("force_draw", "") => BarCommand::ForceDraw,
        ("inc", n) => BarCommand::Inc(number(n)?),
        ("dec", n) => BarCommand::Dec(number(n)?),
        ("set_position", n) => BarCommand::SetPosition(number(n)?),
        ("with_position", n) => BarCommand::WithPosition(number(n)?),
        ("set_length", n) => BarCommand::SetLength(number(n)?),
        ("inc_length", n) => BarCommand::IncLength(number(n)?),
        ("dec_length", n) => BarCommand::DecLength(number(n)?),
        ("set_elapsed" | "with_elapsed", n) => BarCommand::SetElapsed(number(n)?),
        ("with_tab_width", n) => BarCommand::WithTabWidth(number(n)?),
        ("set_tab_width", n) => BarCommand::SetTabWidth(number(n)?),
        ("update", words) => BarCommand::Update(change(words)?),
        ("set_message", text) => BarCommand::SetMessage(unescaped(alloc, text)?),
        ("set_prefix", text) => BarCommand::SetPrefix(unescaped(alloc, text)?),
        ("with_message", text) => BarCommand::WithMessage(unescaped(alloc, text)?),
        ("with_prefix", text) => BarCommand::WithPrefix(unescaped(alloc, text)?),
        ("set_style" | "with_style", text) => BarCommand::SetStyle(styled(alloc, text)?),
        ("with_finish", text) => BarCommand::WithFinish(finish(alloc, text)?),
        _ => BarCommand::Finish(finish(alloc, step)?),
    })
}

/// The finish that a text spells, with its message.
pub fn finish(alloc: Global, text: &str) -> Result<ProgressFinish, Bad> {
    Ok(match headed(text) {
        ("finish", "") => ProgressFinish::AndLeave,
        ("finish_and_clear", "") => ProgressFinish::AndClear,
        ("abandon", "") => ProgressFinish::Abandon,
        ("finish_with_message", text) => ProgressFinish::WithMessage(unescaped(alloc, text)?),
        ("abandon_with_message", text) => {
            ProgressFinish::AbandonWithMessage(unescaped(alloc, text)?)
        }
        _ => return Err(Bad::Step),
    })
}

/// An update to a position and a length; `-` leaves one as it is.
fn change(text: &str) -> Result<Change, Bad> {
    let (pos, len) = headed(text);
    Ok(Change {
        pos: optional(pos)?,
        len: optional(len)?,
    })
}

/// The style with a template; after `chars=CHARS ` with these progress characters.
fn styled(alloc: Global, text: &str) -> Result<ProgressStyle<NoTracker>, Bad> {
    let Some(rest) = text.strip_prefix("chars=") else {
        return templated(alloc, text);
    };
    let (chars, template) = headed(rest);
    let chars = unescaped(alloc, chars)?;
    Ok(templated(alloc, template)?.progress_chars(chars.as_str())?)
}

/// The style with a template with escapes.
pub fn templated(alloc: Global, template: &str) -> Result<ProgressStyle<NoTracker>, Bad> {
    let template = unescaped(alloc, template)?;
    Ok(ProgressStyle::with_template(alloc, template.as_str())?)
}

// ---- calls by their names

/// Makes a command by the call with its name: of a lone bar, which takes a moment, or of a shared one. `None` if the two have no such call
/// in common, or one that takes the command's argument by value. It names `BarCommand` and `ProgressFinish`.
#[macro_export]
macro_rules! called {
    ($bar:expr, $command:expr $(, $now:expr)?) => {
        match $command {
            BarCommand::Tick => Some($bar.tick($($now)?)),
            BarCommand::UnsetLength => Some($bar.unset_length($($now)?)),
            BarCommand::ResetEta => Some($bar.reset_eta($($now)?)),
            BarCommand::ResetElapsed => Some($bar.reset_elapsed($($now)?)),
            BarCommand::Reset => Some($bar.reset($($now)?)),
            BarCommand::ForceDraw => Some($bar.force_draw($($now)?)),
            BarCommand::FinishUsingStyle => Some($bar.finish_using_style($($now)?)),
            BarCommand::Inc(n) => Some($bar.inc(*n $(, $now)?)),
            BarCommand::Dec(n) => Some($bar.dec(*n $(, $now)?)),
            BarCommand::SetPosition(n) => Some($bar.set_position(*n $(, $now)?)),
            BarCommand::SetLength(n) => Some($bar.set_length(*n $(, $now)?)),
            BarCommand::IncLength(n) => Some($bar.inc_length(*n $(, $now)?)),
            BarCommand::DecLength(n) => Some($bar.dec_length(*n $(, $now)?)),
            BarCommand::SetElapsed(n) => Some($bar.set_elapsed(*n $(, $now)?)),
            BarCommand::SetTabWidth(n) => Some($bar.set_tab_width(*n $(, $now)?)),
            BarCommand::SetMessage(text) => Some($bar.set_message(text.as_str() $(, $now)?)),
            BarCommand::SetPrefix(text) => Some($bar.set_prefix(text.as_str() $(, $now)?)),
            BarCommand::Finish(finish) => Some(match finish {
                ProgressFinish::AndLeave => $bar.finish($($now)?),
                ProgressFinish::AndClear => $bar.finish_and_clear($($now)?),
                ProgressFinish::Abandon => $bar.abandon($($now)?),
                ProgressFinish::WithMessage(text) => {
                    $bar.finish_with_message(text.as_str() $(, $now)?)
                }
                ProgressFinish::AbandonWithMessage(text) => {
                    $bar.abandon_with_message(text.as_str() $(, $now)?)
                }
            }),
            _ => None,
        }
    };
}

// ---- values as texts: a style by its last text

/// Appends a command.
pub fn push_command(command: &Command, got: &mut Got) {
    match command {
        BarCommand::Tick => got.text("tick"),
        BarCommand::TickerTick => got.text("ticker_tick"),
        BarCommand::SetTicker(is_on) => got.number(format_args!("set_ticker {}", u8::from(*is_on))),
        BarCommand::UnsetLength => got.text("unset_length"),
        BarCommand::ResetEta => got.text("reset_eta"),
        BarCommand::ResetElapsed => got.text("reset_elapsed"),
        BarCommand::Reset => got.text("reset"),
        BarCommand::FinishUsingStyle => got.text("finish_using_style"),
        BarCommand::ForceDraw => got.text("force_draw"),
        BarCommand::Inc(n) => got.number(format_args!("inc {n}")),
        BarCommand::Dec(n) => got.number(format_args!("dec {n}")),
        BarCommand::SetPosition(n) => got.number(format_args!("set_position {n}")),
        BarCommand::WithPosition(n) => got.number(format_args!("with_position {n}")),
        BarCommand::SetLength(n) => got.number(format_args!("set_length {n}")),
        BarCommand::IncLength(n) => got.number(format_args!("inc_length {n}")),
        BarCommand::DecLength(n) => got.number(format_args!("dec_length {n}")),
        BarCommand::SetElapsed(n) => got.number(format_args!("set_elapsed {n}")),
        BarCommand::WithTabWidth(n) => got.number(format_args!("with_tab_width {n}")),
        BarCommand::SetTabWidth(n) => got.number(format_args!("set_tab_width {n}")),
        BarCommand::Update(change) => push_change(*change, got),
        _ => push_worded(command, got),
    }
}

fn push_change(change: Change, got: &mut Got) {
    got.text("update ");
    got.optional(change.pos);
    got.text(" ");
    got.optional(change.len);
}

fn push_worded(command: &Command, got: &mut Got) {
    let (name, text) = match command {
        BarCommand::SetMessage(text) => ("set_message", text.as_str()),
        BarCommand::SetPrefix(text) => ("set_prefix", text.as_str()),
        BarCommand::WithMessage(text) => ("with_message", text.as_str()),
        BarCommand::WithPrefix(text) => ("with_prefix", text.as_str()),
        BarCommand::SetStyle(style) => ("set_style", style.get_final_tick_str()),
        BarCommand::Finish(finish) => finish_of(finish),
        BarCommand::WithFinish(finish) => {
            got.text("with_finish ");
            finish_of(finish)
        }
        _ => ("another command", ""),
    };
    got.text(name);
    got.text(if text.is_empty() { "" } else { " " });
    got.text(text);
}

/// The name and the text of a finish.
fn finish_of(finish: &ProgressFinish) -> (&'static str, &str) {
    match finish {
        ProgressFinish::AndLeave => ("finish", ""),
        ProgressFinish::AndClear => ("finish_and_clear", ""),
        ProgressFinish::Abandon => ("abandon", ""),
        ProgressFinish::WithMessage(text) => ("finish_with_message", text.as_str()),
        ProgressFinish::AbandonWithMessage(text) => ("abandon_with_message", text.as_str()),
    }
}
