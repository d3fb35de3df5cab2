//! Templates, and the words of styles.
use indicatif_text::columns::Style;
use indicatif_text::template::{Alignment, Part, Template};
use scripts::got::{Bad, Got, Outcome};
use scripts::row::{At, headed, unescaped};

/// Appends the parts of `parse TEMPLATE`, separated by ` | `: `L TEXT`, `N` for a newline, or `P KEY ALIGNMENT WIDTH ! STYLE STYLE`, with
/// `-` for what isn't there and styles as the numbers that they write.
pub fn parsed(rest: &str, at: At, got: &mut Got) -> Outcome {
    let text = unescaped(at.alloc, rest)?;
    match Template::parse(at.alloc, text.as_str()) {
        Ok(template) => push_parts(&template, at, got),
        Err(error) => Err(Bad::Refused(error.into())),
    }
}

fn push_parts(template: &Template, at: At, got: &mut Got) -> Outcome {
    for part in template.parts() {
        got.between(" | ");
        match part {
            Part::Literal(text) => got.number(format_args!("L {text}")),
            Part::NewLine => got.text("N"),
            Part::Placeholder {
                key,
                align,
                width,
                truncate,
                style,
                alternative,
            } => {
                got.number(format_args!("P {key} {} ", sign_of(align)));
                got.optional(width);
                got.text(if truncate { " !" } else { " -" });
                push_numbers(style, at, got)?;
                push_numbers(alternative, at, got)?;
            }
        }
    }
    Ok(())
}

fn sign_of(align: Alignment) -> char {
    match align {
        Alignment::Left => '<',
        Alignment::Center => '^',
        Alignment::Right => '>',
    }
}

/// Appends the numbers of a style, separated by commas: those that it writes around an empty text, except the last.
fn push_numbers(style: Option<Style>, at: At, got: &mut Got) -> Outcome {
    let mut written = String::new(at.alloc);
    if let Some(style) = style {
        style.apply_to(true, "", &mut written)?;
    }
    push_sequences(written.as_str(), got);
    Ok(())
}

fn push_sequences(written: &str, got: &mut Got) {
    let mut is_first = true;
    for sequence in written.split('m') {
        match sequence.strip_prefix("\x1b[") {
            None | Some("0") => (),
            Some(number) => {
                got.text(if is_first { " " } else { "," });
                got.text(number);
                is_first = false;
            }
        }
    }
    if is_first {
        got.text(" -");
    }
}

/// Appends the results of words of a style.
///
/// - `painted WORDS TEXT`, `unpainted WORDS TEXT`: a text in this style, with colours and without.
/// - `opened WORDS`: whether sequences are written, and the text.
/// - `same_style WORDS WORDS`; `no_style WORDS`: whether the style is that of no words.
pub fn styled(name: &str, rest: &str, at: At, got: &mut Got) -> Outcome {
    let (words, rest) = headed(rest);
    let style = Style::from_dotted_str(words);
    match name {
        "opened" => {
            let is_open = style.open(true, got.room())?;
            got.text(" ");
            got.flag(is_open);
        }
        "same_style" => got.flag(style == Style::from_dotted_str(rest)),
        "no_style" => got.flag(style == Style::new()),
        _ => {
            let text = unescaped(at.alloc, rest)?;
            style.apply_to(name == "painted", text.as_str(), got.room())?;
        }
    }
    Ok(())
}
