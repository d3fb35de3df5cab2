//! Random templates, and the lines of bars in their styles.
use crate::faults::{Fault, Held, Tally};
use crate::numbers::Numbers;
use indicatif_bar::state::BarState;
use indicatif_bar::style::{NoTracker, ProgressStyle};
use indicatif_term::target::LineType;
use indicatif_text::columns::{Moment, pieces};
use std::alloc::Global;
use std::convert::AsStr;

/// The pieces of templates, and what breaks them, parted by bars.
const PIECES: &str =
    "{|}|{{|}}|:|.|!|/|<|^|>| |\n|\t|0|9|70000|a|国|\u{308}|red|cyan.on_blue|{msg}|{prefix}|{pos}|{len}|{bar}\
    |{wide_bar}|{wide_msg}|{spinner}|{percent}|{percent_precise}|{eta}|{elapsed_precise}|{per_sec}|{bytes}/{total_bytes}|{msg:5}\
    |{msg:^7!}|{pos:>9}|{bar:8.red/blue}|{wide_bar:.green.on_red/blue}|{human_pos:<4.bold}|{prefix:.dim}|{key}";

/// Those of messages: small letters, wide characters, zero-width characters after a letter, colours, tabs and newlines.
const SAID: &str = "a|b|cd|efghij| |国|e\u{301}|\u{1B}[31m|\u{1B}[0m|\t|\n|z";

type Bar = Box<BarState<NoTracker>>;

type Place = (Moment, u16);

/// A bar in some state, with some clusters and some texts of its spinner.
fn bar_by(alloc: Global, numbers: &mut Numbers) -> Result<Bar, Fault> {
    let style = ProgressStyle::default_bar(alloc)?;
    let style = style.progress_chars(numbers.piece_of("=>-|=-|国国国|国国"))?;
    let ticks = ["-", "", "国", "ab"];
    let count = numbers.below(3).saturating_add(2);
    let style = style.tick_strings(ticks.get(..count).unwrap_or(&ticks))?;
    let len = match numbers.below(3) {
        0 => None,
        1 => Some(numbers.below(9) as u64),
        _ => Some(u64::MAX),
    };
    let mut bar = Box::new(alloc, BarState::styled(alloc, style, len, 0)?)?;
    tell(alloc, numbers, &mut bar)?;
    Ok(bar)
}

/// Changes a bar's state.
fn tell(alloc: Global, numbers: &mut Numbers, bar: &mut Bar) -> Held {
    bar.with_message(numbers.joined(alloc, SAID, 8)?.as_str(), 0)?;
    bar.with_prefix(numbers.joined(alloc, SAID, 8)?.as_str(), 0)?;
    bar.with_tab_width(numbers.below(6), 0)?;
    bar.with_position(numbers.below(12) as u64, 0);
    for _ in 0..numbers.below(3) {
        bar.tick(0);
    }
    Ok(())
}

/// The lines without their colours, each followed by a newline. None has a newline or a tab.
fn visible(alloc: Global, lines: &[LineType]) -> Result<String, Fault> {
    let mut text = String::new(alloc);
    for line in lines {
        push_visible(line.as_str(), &mut text)?;
    }
    Ok(text)
}

fn push_visible(line: &str, text: &mut String) -> Held {
    Fault::Line.unless(!line.contains('\n') && !line.contains('\t'))?;
    for piece in pieces(line) {
        if !piece.colour {
            text.push_str(piece.text)?;
        }
    }
    Ok(text.push('\n')?)
}

/// Whether the visible lines with colours differ from those without at most by an empty line at the end, and by white space if that may be.
///
/// What follows the last newline is a line if it isn't empty, and colours alone are enough for that. A wide message drops the white space at
/// its end if nothing follows it in its line of the template. Colours after it count: those of its own placeholder, or of an empty one.
fn are_same(plain: &str, coloured: &str, spaces_may_differ: bool) -> bool {
    match spaces_may_differ {
        true => is_but_for_white_space(plain, coloured),
        false => matches!(coloured.strip_prefix(plain), Some("" | "\n")),
    }
}

/// Whether the second text is the first with more white space.
fn is_but_for_white_space(plain: &str, coloured: &str) -> bool {
    let mut wanted = plain.chars();
    let mut next = wanted.next();
    for c in coloured.chars() {
        if next == Some(c) {
            next = wanted.next();
        } else if !c.is_whitespace() {
            return false;
        }
    }
    next.is_none()
}

/// The visible lines of the same bar in a copy of its style, with colours or without, at this moment and with this number of columns.
fn visible_lines(alloc: Global, bar: &Bar, colours: bool, place: Place) -> Result<String, Fault> {
    let style = bar.style().try_clone()?.with_colors(colours)?;
    let mut copy = Box::new(alloc, bar.try_clone()?)?;
    copy.with_style(style, 0)?;
    visible(alloc, &copy.lines(place.0, place.1)?)
}

/// Checks a bar's lines with this template, if it is one, at any width: colours change no visible character.
fn is_laid_out_by(
    alloc: Global,
    numbers: &mut Numbers,
    (bar, text): (&mut Bar, &str),
    spaces_may_differ: bool,
) -> Held {
    let Ok(style) = bar.style().try_clone()?.template(text) else {
        return Ok(());
    };
    bar.with_style(style, 0)?;
    let place = (numbers.next().into(), numbers.below(41) as u16);
    let plain = visible_lines(alloc, bar, false, place)?;
    let coloured = visible_lines(alloc, bar, true, place)?;
    Fault::Colours.unless(are_same(plain.as_str(), coloured.as_str(), spaces_may_differ))
}

/// A template with a zero-width character at the end of each line.
fn ended(alloc: Global, text: &str) -> Result<String, Fault> {
    let mut ended = String::new(alloc);
    for line in text.split('\n') {
        if !ended.is_empty() {
            ended.push('\n')?;
        }
        ended.push_str(line)?;
        ended.push('\u{1}')?;
    }
    Ok(ended)
}

/// Checks the lines of a bar with a random template, if the text is one, and with a character at the end of each line of the template:
/// then nothing is dropped behind a wide message.
fn drawn(alloc: Global, numbers: &mut Numbers) -> Held {
    let text = numbers.joined(alloc, PIECES, 10)?;
    let mut bar = bar_by(alloc, numbers)?;
    let is_wide = text.contains("{wide_msg");
    is_laid_out_by(alloc, numbers, (&mut bar, text.as_str()), is_wide)?;
    let ended = ended(alloc, text.as_str())?;
    is_laid_out_by(alloc, numbers, (&mut bar, ended.as_str()), false)
}

/// Makes `count` runs, each with its own stream of numbers.
pub fn all(alloc: Global, seed: u64, count: u64) -> Tally<u64> {
    let mut tally = Tally::new();
    for number in 0..count {
        tally.count(number, drawn(alloc, &mut Numbers::new(seed, number)));
    }
    tally
}
