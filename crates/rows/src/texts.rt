//! Texts: those of formatters; columns, rows and pieces of a text; and clocks.
use indicatif_text::columns::{
    Clock, StepClock, columns, is_parameter, pieces, width, wrapped, write_ansi_range,
};
use indicatif_text::format::{
    BinaryBytes, DecimalBytes, FormattedDuration, HumanBytes, HumanCount, HumanDuration,
    HumanFloatCount,
};
use meter_parts::{cut, plain_text};
use scripts::got::{Bad, Got, Outcome};
use scripts::row::{At, Words, headed, number, unescaped};

/// Appends the text of a formatter, `format FORMATTER VALUE`: `HumanBytes N`, and so on. `HumanDurationShort` is by `write_short`. A quotient
/// is `HumanFloatCount NUM/DEN`, and by `with_decimals` `HumanFloatCount:N NUM/DEN`; `-` if there is none.
pub fn formatted(rest: &str, got: &mut Got) -> Outcome {
    let (formatter, value) = headed(rest);
    if let Some(decimals) = formatter.strip_prefix("HumanFloatCount") {
        return push_quotient(decimals, value, got);
    }
    let value = number(value)?;
    match formatter {
        "BinaryBytes" => got.number(BinaryBytes(value)),
        "DecimalBytes" => got.number(DecimalBytes(value)),
        "FormattedDuration" => got.number(FormattedDuration(value)),
        "HumanBytes" => got.number(HumanBytes(value)),
        "HumanCount" => got.number(HumanCount(value)),
        "HumanDuration" => got.number(HumanDuration(value)),
        "HumanDurationShort" => HumanDuration(value).write_short(got.room())?,
        _ => return Err(Bad::Step),
    }
    Ok(())
}

fn push_quotient(decimals: &str, value: &str, got: &mut Got) -> Outcome {
    let (num, den) = value.split_once('/').unwrap_or((value, ""));
    let count = HumanFloatCount::new(number(num)?, number(den)?);
    match (count, decimals.strip_prefix(':')) {
        (Some(count), Some(decimals)) => count.with_decimals(number(decimals)?, got.room())?,
        (count, _) => got.optional(count),
    }
    Ok(())
}

/// Appends a reading of a text, or of a clock; whether the step with this name asks for one.
///
/// - `columns TEXT`; `width C`; `parameter C`: whether it is one of a colour.
/// - `wrapped WIDTH TEXT`: its rows, and the columns of the last one.
/// - `range START END TEXT`: the part in these columns.
/// - `pieces TEXT`: colours in brackets, the runs between them in braces; `plain TEXT`: the runs.
/// - `cut COLUMNS TEXT`: its prefix, as `meter` cuts a name; `made_plain TEXT`: without control characters, as `meter` makes it.
/// - `clock NEXT STEP COUNT`: the given number of readings.
pub fn asked(name: &str, rest: &str, at: At, got: &mut Got) -> Result<bool, Bad> {
    let mut words = Words::of(rest);
    match name {
        "wrapped" => {
            let width = words.number()?;
            let rows = wrapped(words.text(at.alloc)?.as_str(), width)?;
            got.number(format_args!("{} {}", rows.height, rows.last_line_width));
        }
        "range" => {
            let (start, end) = (words.number()?, words.number()?);
            write_ansi_range(words.text(at.alloc)?.as_str(), start, end, got.room())?;
        }
        "clock" => {
            let (next, step) = (words.number()?, words.number()?);
            push_clock(StepClock { next, step }, words.number()?, got);
        }
        "cut" => {
            let room = words.number()?;
            got.text(cut(at.alloc, words.text(at.alloc)?.as_str(), room)?.as_str());
        }
        "columns" | "pieces" | "plain" | "made_plain" | "width" | "parameter" => {
            of_text(name, unescaped(at.alloc, rest)?.as_str(), at, got)?
        }
        _ => return Ok(false),
    }
    Ok(true)
}

fn of_text(name: &str, text: &str, at: At, got: &mut Got) -> Outcome {
    match (name, text.chars().next()) {
        ("columns", _) => got.number(columns(text)),
        ("pieces" | "plain", _) => push_pieces(text, name == "plain", got),
        ("made_plain", _) => got.text(plain_text(at.alloc, text)?.as_str()),
        ("width", Some(c)) => got.number(width(c)),
        ("parameter", Some(c)) => got.flag(is_parameter(c)),
        _ => return Err(Bad::Step),
    }
    Ok(())
}

/// Appends the pieces of a text between their marks, or plainly, without the colours.
fn push_pieces(text: &str, is_plain: bool, got: &mut Got) {
    for piece in pieces(text) {
        match (is_plain, piece.colour) {
            (true, true) => (),
            (true, false) => got.text(piece.text),
            (false, true) => got.number(format_args!("[{}]", piece.text)),
            (false, false) => got.number(format_args!("{{{}}}", piece.text)),
        }
    }
}

/// Appends the given number of readings of a clock.
fn push_clock(mut clock: StepClock, count: u8, got: &mut Got) {
    for _ in 0..count {
        got.between(" ");
        got.number(clock.now());
    }
}
