//! The command of a line.
ghost use Rattle.std.specs.Prelude.{◌≡◌, Some, option_map};
ghost use Rattle.bars_run.specs.Arguments.{size_spelled};
ghost use Rattle.bars_run.specs.Commands.{Resize, command_of, action_of as action_as, spelled, spelled_text, worded, word_of, rest_of, on_bar, action_named};

use crate::arguments::{Size, is_digits};
use std::str;

/// A command of a line.
#[derive(Clone, Copy, Drop)]
pub enum Command<'a> {
    /// Adds a bar with this message.
    Add(&'a str),
    /// Logs this text above the bars.
    Log(&'a str),
    /// Logs this text above the bars, as a warning.
    Warn(&'a str),
    /// Erases the bars' rows.
    Clear,
    /// Gives the terminal another size.
    Size(Size),
    /// An action on the bar with a number; `None` if that is past 2^64 - 1, which no bar has.
    Bar(Option<u64>, BarAction<'a>),
}

/// An action on a bar.
#[derive(Clone, Copy, Drop)]
pub enum BarAction<'a> {
    /// Sets its message.
    Message(&'a str),
    /// Ticks it.
    Tick,
    /// Finishes it.
    Finish,
    /// Finishes and hides it.
    Hide,
    /// Finishes it where it is.
    Abandon,
    /// Marks it as ownerless.
    Drop,
    /// Removes it from the order.
    Remove,
}

impl<'a> Command<'a> {
    /// The command of a line without its newline; `None` if it isn't one, or isn't UTF-8.
    pub fn spelt(line: &'a [u8]) -> Option<Command<'a>>
        ensures { option_map command_of result ≡ spelled line.now }
    {
        match str::from_utf8(line) {
            Ok(text) => in_text(text),
            Err(_) => None,
        }
    }
}

/// The command of a text.
fn in_text<'a>(text: &'a str) -> Option<Command<'a>>
    ensures { option_map command_of result ≡ spelled_text text.now }
{
    match text {
        "clear" => Some(Command::Clear),
        _ => {
            let (word, rest) = parted(text);
            with_rest(word, rest)
        }
    }
}

/// The word before the first space, and the text after it; a text without a space is all word.
fn parted(text: &str) -> (&str, &str)
    ensures word { result.0.now ≡ word_of text.now }
    ensures rest { result.1.now ≡ rest_of text.now }
{
    match text.split_once(' ') {
        Some(parts) => parts,
        None => (text, ""),
    }
}

/// The command of a word, with the text after the space.
fn with_rest<'a>(word: &str, rest: &'a str) -> Option<Command<'a>>
    ensures { option_map command_of result ≡ worded word.now rest.now }
{
    match word {
        "add" => Some(Command::Add(rest)),
        "log" => Some(Command::Log(rest)),
        "warn" => Some(Command::Warn(rest)),
        "size" => sizing(rest),
        "msg" => {
            let (number, text) = parted(rest);
            numbered(number, BarAction::Message(text))
        }
        _ => numbered(rest, action_of(word)?),
    }
}

/// The command for another size of the terminal, from its text.
fn sizing(text: &str) -> Option<Command<'static>>
    ensures { option_map command_of result ≡ option_map Resize (size_spelled (word_of text.now) (rest_of text.now)) }
{
    let (rows, columns) = parted(text);
    match Size::spelt(rows, columns) {
        Some(size) => Some(Command::Size(size)),
        None => None,
    }
}

/// The action of a word.
fn action_of(word: &str) -> Option<BarAction<'static>>
    ensures { option_map action_as result ≡ action_named word.now }
{
    match word {
        "tick" => Some(BarAction::Tick),
        "finish" => Some(BarAction::Finish),
        "abandon" => Some(BarAction::Abandon),
        "hide" => Some(BarAction::Hide),
        "drop" => Some(BarAction::Drop),
        "remove" => Some(BarAction::Remove),
        _ => None,
    }
}

/// The command of a bar, if its number is one or more decimal digits.
fn numbered<'a>(digits: &str, action: BarAction<'a>) -> Option<Command<'a>>
    ensures { option_map command_of result ≡ on_bar digits.now (Some (action_as action.entry)) }
{
    if !is_digits(digits) {
        return None;
    }
    Some(Command::Bar(digits.parse::<u64>().ok(), action))
}
