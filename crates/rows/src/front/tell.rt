//! A bar's calls in rows, a name and its argument, and its readings.
//!
//! - The commands of `scripts::commands`, but for `update`, and those of a ticker; and `with_elapsed`.
//! - Without an argument: `suspend`; `at_end`: by a wrapper, at its end.
//! - With a number: `further`: an update of the position; `advance` and `place`: by a wrapper; `absorb`: a sum of one worker that has added
//!   the number.
//! - With a text: `log`; `set_style` and `with_style`: a spinner whose last text is this one; `template`: the bar's own style with another
//!   template.
//! - Readings: `shows`, `message`, `prefix`, `last_tick` (of its style), `pos`, `len`, `ticks`, `finished`, `hidden`, `tab_width`, `eta`,
//!   `duration`, `elapsed`; and `per_sec` or `rate`, steps and the nanoseconds that they took.
//!
//! A builder counts as `limited`, since it draws nothing.
use crate::front::bars::{Bar, Told, contents, push_contents, spinner};
use indicatif::{BarCommand, Change, Drawn, Moves, NoTracker, ProgressFinish, ProgressState};
use scripts::called;
use scripts::commands::command;
use scripts::got::{Bad, Got};
use scripts::lone::push_rate;
use scripts::row::{headed, number, unescaped};
use std::alloc::Global;
use std::sync::Wait;

/// The change to a position `delta` further.
pub fn further(state: &ProgressState, delta: u64) -> Change {
    Change {
        pos: Some(state.pos().wrapping_add(delta)),
        len: None,
    }
}

impl<R: Wait + Copy + Clone + Drop> Bar<R> {
    /// Makes the call of a text.
    pub fn tell(&self, alloc: Global, text: &str) -> Result<Told, Bad> {
        match headed(text) {
            ("suspend", "") => Ok(self.0.suspend(|| ()).1),
            ("at_end", "") => Ok(self.moved(text, 0)),
            (name @ ("log" | "set_style" | "with_style" | "template"), rest) => {
                self.worded(alloc, name, unescaped(alloc, rest)?.as_str())
            }
            (name @ ("advance" | "place"), n) => Ok(self.moved(name, number(n)?)),
            ("absorb", n) => Ok(self.absorbed(number(n)?)),
            ("with_elapsed", n) => self.built(BarCommand::SetElapsed(number(n)?)),
            ("further", n) => {
                let n = number(n)?;
                Ok(self.0.update(|state| further(state, n)))
            }
            _ => {
                let command = command(alloc, text)?;
                match called!(self.0, &command) {
                    Some(told) => Ok(told),
                    None => self.built(command),
                }
            }
        }
    }

    fn absorbed(&self, n: u64) -> Told {
        let (done, mut worker) = self.0.worker()?;
        worker.add(&done, n);
        self.0.absorb(done, worker)
    }

    /// A move by a wrapper, of another owner.
    fn moved(&self, name: &str, n: u64) -> Told {
        let mut bar = self.0.clone()?;
        match name {
            "advance" => bar.advance(n),
            "place" => bar.place(n),
            _ => Moves::finish(&mut bar),
        }
    }

    /// Makes a command by its builder, of another owner.
    fn built(&self, command: BarCommand<NoTracker>) -> Result<Told, Bad> {
        let bar = self.0.clone()?;
        let given = match command {
            BarCommand::WithPosition(n) => bar.with_position(n),
            BarCommand::SetElapsed(n) => bar.with_elapsed(n),
            BarCommand::WithTabWidth(n) => bar.with_tab_width(n),
            BarCommand::WithMessage(text) => bar.with_message(text.as_str()),
            BarCommand::WithPrefix(text) => bar.with_prefix(text.as_str()),
            BarCommand::SetStyle(style) => bar.with_style(style),
            BarCommand::WithFinish(finish) => bar.with_finish(finish),
            _ => return Err(Bad::Step),
        };
        match given {
            Ok(_) => Ok(Ok(Drawn::Limited)),
            Err(refusal) => Ok(Err(refusal)),
        }
    }

    fn worded(&self, alloc: Global, name: &str, text: &str) -> Result<Told, Bad> {
        match name {
            "log" => Ok(self.0.println(text)),
            "template" => Ok(self.retemplated(text)),
            "set_style" => Ok(self.0.set_style(spinner(alloc, text)?)),
            _ => self.built(BarCommand::SetStyle(spinner(alloc, text)?)),
        }
    }

    fn retemplated(&self, text: &str) -> Told {
        self.0.set_style(self.0.style()?.template(text)?)
    }

    /// Reads the bar; whether the text is a reading.
    pub fn read(&self, text: &str, got: &mut Got) -> Result<bool, Bad> {
        let bar = &self.0;
        match text {
            "shows" => push_contents(bar.with_term(contents), got)?,
            "message" => got.text(bar.message()?.as_str()),
            "prefix" => got.text(bar.prefix()?.as_str()),
            "last_tick" => got.text(bar.style()?.get_final_tick_str()),
            "pos" => got.number(bar.position()),
            "len" => got.optional(bar.length()),
            "ticks" => got.number(bar.ticks()),
            "finished" => got.flag(bar.is_finished()),
            "hidden" => got.flag(bar.is_hidden()),
            "tab_width" => got.number(bar.tab_width()),
            "eta" => got.number(bar.eta()),
            "duration" => got.number(bar.duration()),
            "elapsed" => got.number(bar.elapsed()),
            "per_sec" | "rate" => push_rate(bar.per_sec(), got),
            _ => return Ok(false),
        }
        Ok(true)
    }
}
