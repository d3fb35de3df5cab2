//! The numbers and texts of refusals.
use indicatif_text::columns::{Refusal, TemplateState};
use indicatif_text::template::TemplateError;
use scripts::got::{Bad, Got, Outcome};
use scripts::row::{At, headed, unescaped};
use std::io::ErrorKind;

/// The refusals by their names, except that of a character in a template.
const NAMED: &[(&str, Refusal)] = &[
    ("ZeroRate", Refusal::ZeroRate),
    ("FewTicks", Refusal::FewTicks),
    ("FewProgressChars", Refusal::FewProgressChars),
    ("UnequalWidths", Refusal::UnequalWidths),
    ("ZeroWidthChars", Refusal::ZeroWidthChars),
    ("WidthTooLarge", Refusal::WidthTooLarge),
    ("ForeignBar", Refusal::ForeignBar),
    ("NotMember", Refusal::NotMember),
    ("ElapsedBeyondClock", Refusal::ElapsedBeyondClock),
    ("NoColumns", Refusal::NoColumns),
    ("TooWide", Refusal::TooWide),
    ("BrokenPipe", Refusal::Terminal(ErrorKind::BrokenPipe)),
    ("Memory", Refusal::Memory),
    ("ZeroSize", Refusal::ZeroSize),
    ("ZeroPieces", Refusal::ZeroPieces),
    ("RecordedTarget", Refusal::RecordedTarget),
];

/// Appends a refusal's number and its text: `refusal NAME`; `refusal Template C STATE`: that of a character.
pub fn push_refusal(rest: &str, at: At, got: &mut Got) -> Outcome {
    let refusal = match rest.strip_prefix("Template ") {
        Some(rest) => unexpected(rest, at)?.into(),
        None => refusal_named(rest)?,
    };
    got.refusal(refusal);
    got.number(format_args!(" {refusal}"));
    Ok(())
}

/// Appends an error's text, and its refusal: `template_error NAME`, or `template_error C STATE`.
pub fn of_template(rest: &str, at: At, got: &mut Got) -> Outcome {
    let error = match rest {
        "WidthTooLarge" => TemplateError::WidthTooLarge,
        "Memory" => TemplateError::Memory,
        rest => unexpected(rest, at)?,
    };
    got.number(format_args!("{error} "));
    got.refusal(error.into());
    Ok(())
}

/// The error of a character in a state.
fn unexpected(rest: &str, at: At) -> Result<TemplateError, Bad> {
    let (spelled, state) = headed(rest);
    let state = match state {
        "MaybeOpen" => TemplateState::MaybeOpen,
        "DoubleClose" => TemplateState::DoubleClose,
        "Align" => TemplateState::Align,
        "Width" => TemplateState::Width,
        _ => return Err(Bad::Step),
    };
    let next = unescaped(at.alloc, spelled)?.as_str().chars().next();
    let next = next.ok_or(Bad::Step)?;
    Ok(TemplateError::Unexpected { next, state })
}

fn refusal_named(name: &str) -> Result<Refusal, Bad> {
    for (named, refusal) in NAMED {
        if *named == name {
            return Ok(*refusal);
        }
    }
    Err(Bad::Step)
}
