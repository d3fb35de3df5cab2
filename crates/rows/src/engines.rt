//! The engine by itself: lines drawn, logged above, kept and cleared.
use indicatif_term::target::{Engine, Keep, LineType, MultiProgressAlignment, Segment};
use scripts::got::{Bad, Got, Outcome};
use scripts::row::{At, flag, headed, number, tabbed, unescaped};
use scripts::screen::Behind;

/// An engine, and where its bars stand.
#[derive(Drop)]
pub struct Drawing {
    pub engine: Engine<Behind>,
    alignment: MultiProgressAlignment,
}

/// One with bars at the `top` or the `bottom`.
pub fn begin(term: Behind, word: &str, at: At) -> Result<Box<Drawing>, Bad> {
    let alignment = match word {
        "top" => MultiProgressAlignment::Top,
        "bottom" => MultiProgressAlignment::Bottom,
        _ => return Err(Bad::Step),
    };
    let engine = Engine::new(at.alloc, term);
    at.boxed(Drawing { engine, alignment })
}

impl Drawing {
    /// `draw FRAME`; `pass N FRAME`, of which the first N bars are dropped; `log TEXT` and, each after a tab, the frame's bars; `keep BAR`;
    /// `clear`; `move yes` or `move no`.
    pub fn step(&mut self, step: &str, at: At, got: &mut Got) -> Outcome {
        match headed(step) {
            ("draw", bars) => self.draw(bars, 0, at)?,
            ("pass", rest) => {
                let (count, bars) = headed(rest);
                self.draw(bars, number(count)?, at)?;
            }
            ("log", rest) => {
                let (text, bars) = tabbed(rest);
                let (text, frame) = (unescaped(at.alloc, text)?, frame(bars, at)?);
                self.engine.log(text.as_str(), &frame, self.alignment)?;
            }
            ("keep", bar) => got.text(match self.engine.keep(number(bar)?) {
                Keep::Passed => "passed",
                Keep::Behind => "behind",
                Keep::Absent => "absent",
            }),
            ("clear", "") => self.engine.clear()?,
            ("move", word) => self.engine.set_move_cursor(flag(word)?),
            _ => return Err(Bad::Step),
        }
        Ok(())
    }

    fn draw(&mut self, bars: &str, pass: usize, at: At) -> Outcome {
        Ok(self.engine.draw(&frame(bars, at)?, pass, self.alignment)?)
    }
}

/// The frame of bars, separated by tabs: `NUMBER LINES`.
fn frame(bars: &str, at: At) -> Result<Vec<Segment>, Bad> {
    let mut frame = Vec::new(at.alloc);
    for bar in bars.split('\t') {
        if !bar.is_empty() {
            frame.push(segment(bar, at)?)?;
        }
    }
    Ok(frame)
}

/// The lines of a bar, separated by `|`: an empty one, `~` and a text, or a bar.
fn segment(bar: &str, at: At) -> Result<Segment, Bad> {
    let (bar, words) = headed(bar);
    let bar = number(bar)?;
    let mut lines = Vec::new(at.alloc);
    for line in words.split('|') {
        lines.push(line_of(line, at)?)?;
    }
    Ok(Segment { bar, lines })
}

fn line_of(line: &str, at: At) -> Result<LineType, Bad> {
    match (line, line.strip_prefix('~')) {
        ("", _) => Ok(LineType::Empty),
        (_, Some(text)) => Ok(LineType::Text(unescaped(at.alloc, text)?)),
        (_, None) => Ok(LineType::Bar(unescaped(at.alloc, line)?)),
    }
}

/// Appends whether this is the text of a line: `is_text LINE`, a tab, and a text.
pub fn is_text(rest: &str, at: At, got: &mut Got) -> Outcome {
    let (line, text) = tabbed(rest);
    let (line, text) = (line_of(line, at)?, unescaped(at.alloc, text)?);
    got.flag(line.is_text(text.as_str()));
    Ok(())
}
