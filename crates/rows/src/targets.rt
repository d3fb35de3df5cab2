//! Targets on streams: which are hidden, and which rates are refused; and limiters.
use indicatif_bar::lone::LoneBar;
use indicatif_term::cells::InMemoryTerm;
use indicatif_term::target::{Facts, ProgressDrawTarget, RateLimiter, Term};
use indicatif_text::columns::{Drawn, Refusal};
use scripts::got::{Bad, Got, Outcome};
use scripts::lone::bar_of;
use scripts::row::{At, Words, flag, number, unescaped};

/// A target on a stream of bytes.
type Target = ProgressDrawTarget<Term<Vec<u8>>>;

/// `stream NAME ATTENDED TERM`, of 4 rows and 10 columns, where the name is `stdout`, `stderr` or `bar`, `-` is for no `TERM` and `''` for
/// an empty one: whether a target there is hidden; for `bar` the answer of a tick. After these a rate, in draws a second.
pub fn on_stream(rest: &str, at: At, got: &mut Got) -> Outcome {
    let mut words = Words::of(rest);
    let name = words.word();
    let facts = facts(&mut words, (4, 10), at)?;
    if name == "bar" {
        got.answer(ticked(facts, at)?);
        return Ok(());
    }
    let is_hidden = target(name, facts, (words.rest(), at))?.is_hidden();
    got.text(if is_hidden { "hidden" } else { "shown" });
    Ok(())
}

/// Appends whether bars are hidden by `hides ROWS COLS ATTENDED TERM`: by a size, `yes` or `no`, and the value of `TERM`, as in `stream`.
pub fn hides(rest: &str, at: At, got: &mut Got) -> Outcome {
    let mut words = Words::of(rest);
    let size = (words.number()?, words.number()?);
    got.flag(facts(&mut words, size, at)?.hides());
    Ok(())
}

/// Facts of a stream with this size: the next words, `ATTENDED TERM`.
fn facts(words: &mut Words<'_>, (rows, cols): (u16, u16), at: At) -> Result<Facts, Bad> {
    let attended = flag(words.word())?;
    let term = match words.word() {
        "-" => None,
        "''" => Some(String::new(at.alloc)),
        text => Some(unescaped(at.alloc, text)?),
    };
    Ok(Facts {
        rows,
        cols,
        attended,
        term,
    })
}

/// A target on this stream, with the rate of a word; without a limit if there is no word, or `-`.
fn target(name: &str, facts: Facts, (rate, at): (&str, At)) -> Result<Target, Bad> {
    let to = Vec::new(at.alloc);
    if let "" | "-" = rate {
        return match name {
            "stdout" => Ok(ProgressDrawTarget::stdout(to, facts, at.now)),
            "stderr" => Ok(ProgressDrawTarget::stderr(to, facts, at.now)),
            _ => Err(Bad::Step),
        };
    }
    let hz = number(rate)?;
    match name {
        "stdout" => Ok(ProgressDrawTarget::stdout_with_hz(to, facts, hz, at.now)?),
        "stderr" => Ok(ProgressDrawTarget::stderr_with_hz(to, facts, hz, at.now)?),
        _ => Err(Bad::Step),
    }
}

/// The answer of a tick of a bar on a terminal in memory in place of the stream.
fn ticked(facts: Facts, at: At) -> Result<Result<Drawn, Refusal>, Bad> {
    let memory = InMemoryTerm::new(at.alloc, 4, 10)?;
    let target = at.boxed(ProgressDrawTarget::term(memory, facts, 20, at.now)?)?;
    let bar = Box::into_inner(bar_of(at, "{msg}", None)?);
    let mut bar = at.boxed(LoneBar::new(bar, Box::into_inner(target)))?;
    Ok(bar.tick(at.now))
}

/// Appends the answers of a limiter at these moments, one after another, 1 if it allows a draw: `limiter RATE MAKING MOMENT ..`.
pub fn limited(rest: &str, got: &mut Got) -> Outcome {
    let mut words = Words::of(rest);
    let mut limiter = RateLimiter::new(words.number()?, words.number()?)?;
    for moment in words.rest().split_whitespace() {
        let is_allowed = limiter.allow(number(moment)?);
        got.text(if is_allowed { "1" } else { "0" });
    }
    Ok(())
}
