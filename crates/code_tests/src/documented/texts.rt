//! Examples of `indicatif_text`.
use crate::checks::Granted;
use indicatif_text::columns::{
    Clock, Metrics, Piece, Refusal, StepClock, Style, TemplateState, colour_len, columns,
    is_parameter, is_parameter_byte, pieces, width, wrapped,
};
use indicatif_text::format::{
    BinaryBytes, DecimalBytes, FormattedDuration, HumanBytes, HumanCount, HumanDuration,
    HumanFloatCount, nearest,
};
use indicatif_text::template::{Alignment, Part, Template, TemplateError};

#[test]
fn columns_of_texts(rt: HostRuntime) {
    same!(&rt; width('国'), 2);
    same!(&rt; width('\n'), 0);
    same!(&rt; columns("\u{1b}[31mred\u{1b}[0m"), 3);
    holds!(&rt; colour_len("\u{1b}[31mred") == 5 && colour_len("red") == 0);
    holds!(&rt; is_parameter_byte(b'7') && !is_parameter_byte(b'm'));
    holds!(&rt; is_parameter('7') && is_parameter(';') && !is_parameter('m'));
    let measured = Metrics {
        height: 3,
        last_line_width: 1,
    };
    same!(&rt; wrapped("123456789国123456789", 10), Ok(measured));
    let line = "123456789国123456789";
    same!(&rt; wrapped(line, 10), Ok(Metrics { height: 3, last_line_width: 1 }));
    same!(&rt; wrapped(line, 1), Err(Refusal::TooWide));
    same!(&rt; wrapped(line, 0), Err(Refusal::NoColumns));
    let mut clock = StepClock { next: 5, step: 2 };
    same!(&rt; clock.now(), 5);
    same!(&rt; clock.now(), 7);
}

#[test]
fn pieces_of_a_text(rt: HostRuntime) {
    let mut left = pieces("a\u{1b}[1mb");
    same!(&rt; left.next(), Some(Piece { text: "a", colour: false }));
    same!(&rt; left.next(), Some(Piece { text: "\u{1b}[1m", colour: true }));
    same!(&rt; left.next(), Some(Piece { text: "b", colour: false }));
    same!(&rt; left.next(), None);
    let first = pieces("\u{1b}[1mb").next();
    same!(&rt; first, Some(Piece { text: "\u{1b}[1m", colour: true }));
    let text = "a\u{1b}[1mb";
    let mut out = String::new(rt.alloc());
    for piece in pieces(text) {
        if !piece.colour {
            out.push_str(piece.text).granted(&rt);
        }
    }
    same!(&rt; out.as_str(), "ab");
}

#[test]
fn durations_and_bytes(rt: HostRuntime) {
    let alloc = rt.alloc();
    let text = FormattedDuration(90_061 * 1_000_000_000)
        .to_string(alloc)
        .granted(&rt);
    same!(&rt; text.as_str(), "1d 01:01:01");
    same!(&rt; HumanDuration(89_499_000_000).to_string(alloc).granted(&rt).as_str(), "89 seconds");
    same!(&rt; HumanDuration(89_500_000_000).to_string(alloc).granted(&rt).as_str(), "2 minutes");
    same!(&rt; HumanBytes(1_500).to_string(alloc).granted(&rt).as_str(), "1.46 KiB");
    same!(&rt; DecimalBytes(1_500).to_string(alloc).granted(&rt).as_str(), "1.50 kB");
    same!(&rt; BinaryBytes(1_500).to_string(alloc).granted(&rt).as_str(), "1.46 KiB");
    let mut out = String::new(alloc);
    HumanDuration(4_000_000_000)
        .write_short(&mut out)
        .granted(&rt);
    same!(&rt; out.as_str(), "4s");
}

#[test]
fn counts_and_refusals(rt: HostRuntime) {
    let alloc = rt.alloc();
    same!(&rt; HumanCount(7_654_321).to_string(alloc).granted(&rt).as_str(), "7,654,321");
    same!(&rt; (nearest(7, 2), nearest(5, 2)), (4, 2));
    let count = HumanFloatCount::new(85, 2)
        .ok_or("a divisor of 0")
        .granted(&rt);
    same!(&rt; count.to_string(alloc).granted(&rt).as_str(), "42.5");
    holds!(&rt; HumanFloatCount::new(1, 0).is_none());
    let eighth = HumanFloatCount::new(1, 8)
        .ok_or("a divisor of 0")
        .granted(&rt);
    let mut out = String::new(alloc);
    eighth.with_decimals(2, &mut out).granted(&rt);
    same!(&rt; out.as_str(), "0.12");
    let refusal = Refusal::NoColumns;
    same!(&rt; refusal.to_string(alloc).granted(&rt).as_str(), "a terminal of no columns");
    same!(&rt; Refusal::RecordedTarget.number(), 17);
}

#[test]
fn templates(rt: HostRuntime) {
    let alloc = rt.alloc();
    let template = Template::parse(alloc, "{foo:5!3}").granted(&rt);
    same!(&rt; template.part_count(), 1);
    same!(&rt; Template::parse(alloc, "{{x}}").granted(&rt).part_count(), 1);
    let lines = Template::parse(alloc, "a\nb").granted(&rt);
    same!(&rt; lines.part_count(), 3);
    holds!(&rt; lines.part(2) == Some(Part::Literal("b")));
    holds!(&rt; lines.parts().next() == Some(Part::Literal("a")));
    same!(&rt; lines.parts().count(), 3);
    same!(&rt; Template::of_bar(alloc).granted(&rt).part_count(), 5);
    same!(&rt; Template::of_spinner(alloc).granted(&rt).part_count(), 3);
    same!(&rt; Template::parse(alloc, "{k:65536}").err(), Some(TemplateError::WidthTooLarge));
    let state = TemplateState::DoubleClose;
    let error = Template::parse(alloc, "}x").err();
    same!(&rt; error, Some(TemplateError::Unexpected { next: 'x', state }));
    let error = TemplateError::Unexpected { next: 'x', state };
    let text = "TemplateError: unexpected character 'x' in state DoubleClose";
    same!(&rt; error.to_string(alloc).granted(&rt).as_str(), text);
}

/// Whether a template begins with a placeholder whose text is right-aligned.
fn is_right(template: &Template) -> bool {
    match template.part(0) {
        Some(Part::Placeholder { align, .. }) => align == Alignment::Right,
        _ => false,
    }
}

/// A template's literals, and the names of its keys, of which the first is right-aligned.
#[test]
fn parts_in_their_order(rt: HostRuntime) {
    let template = Template::parse(rt.alloc(), "{k:>2}:\n{x}").granted(&rt);
    holds!(&rt; is_right(&template));
    let mut out = String::new(rt.alloc());
    for part in template.parts() {
        match part {
            Part::Literal(text) => out.push_str(text).granted(&rt),
            Part::NewLine => out.push('\n').granted(&rt),
            Part::Placeholder { key, .. } => out.push_str(key).granted(&rt),
        }
    }
    same!(&rt; out.as_str(), "k:\nx");
}

#[test]
fn styles(rt: HostRuntime) {
    let mut out = String::new(rt.alloc());
    let style = Style::from_dotted_str("red.on_blue");
    style.apply_to(true, " XXX ", &mut out).granted(&rt);
    same!(&rt; out.as_str(), "\x1b[31m\x1b[44m XXX \x1b[0m");
    same!(&rt; Style::new(), Style::from_dotted_str(""));
    out.clear();
    let style = Style::from_dotted_str("red.green");
    style.apply_to(true, "x", &mut out).granted(&rt);
    same!(&rt; out.as_str(), "\x1b[32mx\x1b[0m");
    out.clear();
    Style::from_dotted_str("hidden.bold.dim")
        .apply_to(true, "", &mut out)
        .granted(&rt);
    same!(&rt; out.as_str(), "\x1b[1m\x1b[2m\x1b[8m\x1b[0m");
    out.clear();
    let is_open = Style::from_dotted_str("red")
        .open(true, &mut out)
        .granted(&rt);
    holds!(&rt; is_open);
    same!(&rt; out.as_str(), "\x1b[31m");
}
