//! The world that steps are played on, and the module of a step. A new kind of world is a module, a variant of `On`, and a line each in
//! `begun` and `step`; a question that needs no world is a module and a line in `asked`.
use crate::boards::of_table;
use crate::front::beside::Pair;
use crate::front::bytes::Over;
use crate::front::counted::Counted;
use crate::front::fronts::WithWrapped;
use crate::front::loops::{List, Looped};
use crate::front::on_panes::OnPanes;
use crate::front::places::Places;
use crate::front::plain::Plain;
use crate::front::{beside, environment, loops, on_panes, places, plain};
use crate::screens::OnScreen;
use crate::styles::Styled;
use crate::terminals::Noted;
use crate::{
    engines, lone, program, refusals, screens, styles, targets, templates, terminals, texts,
};
use indicatif::InMemoryTerm;
use indicatif::machine::Shares;
use indicatif_board::multi::MultiState;
use indicatif_term::cells::Cells;
use meter_parts::bytes_said;
use scripts::got::{Bad, Got, Outcome};
use scripts::lone::Bar;
use scripts::row::{At, Words, headed, timed};
use std::mem::replace;
use std::random::RandomSource;
use std::sync::Wait;

/// A world that steps are played on. Those from `Fronts` on are over `indicatif`.
#[derive(Drop)]
enum On<R: Wait + Copy + Clone + Drop> {
    Nothing,
    Screen(OnScreen),
    Record(Box<Bar>),
    Table(Box<MultiState>),
    Cells(Box<Cells>),
    Memory(Box<InMemoryTerm>),
    Noted(Box<Noted>),
    Style(Styled),
    Fronts(Box<WithWrapped<R>>),
    Beside(Box<Pair<R>>),
    Bytes(Box<Over<Counted>>),
    List(Box<List>),
    Loop(Looped),
    Places(Box<Places>),
    Panes(OnPanes),
    Plain(Plain),
}

/// Answers a question that needs no world; whether the step with this name is one. `--size TEXT`: the bytes of a text, as the option of
/// `meter` reads it; `-` if it is no number.
fn asked(name: &str, rest: &str, at: At, got: &mut Got) -> Result<bool, Bad> {
    match name {
        "bars" => program::ran(rest, at, got)?,
        "stream" => targets::on_stream(rest, at, got)?,
        "hides" => targets::hides(rest, at, got)?,
        "limiter" => targets::limited(rest, got)?,
        "format" => texts::formatted(rest, got)?,
        "--size" => got.optional(bytes_said(rest)),
        "parse" => templates::parsed(rest, at, got)?,
        "painted" | "unpainted" | "opened" | "same_style" | "no_style" => {
            templates::styled(name, rest, at, got)?
        }
        "refusal" => refusals::push_refusal(rest, at, got)?,
        "template_error" => refusals::of_template(rest, at, got)?,
        "fed" => terminals::fed(rest, at, got)?,
        "is_text" => engines::is_text(rest, at, got)?,
        "said" | "placed" | "coloured" | "laid" => styles::laid_out(name, rest, at, got)?,
        "runs" => styles::in_runs(rest, at, got)?,
        _ => return texts::asked(name, rest, at, got),
    }
    Ok(true)
}

impl<R: Shares + RandomSource> On<R> {
    /// Makes a step, or reads something.
    fn step(&mut self, step: &str, at: At, got: &mut Got) -> Outcome {
        match self {
            On::Nothing => Err(Bad::Step),
            On::Screen(world) => world.step(step, at, got),
            On::Record(bar) => lone::ask(bar, step, at, got),
            On::Table(table) => of_table(table, step, got),
            On::Cells(cells) => terminals::step_cells(cells, step, at, got),
            On::Memory(term) => terminals::step(term, step, at, got),
            On::Noted(world) => world.step(step, at, got),
            On::Style(world) => world.step(step, at, got),
            On::Fronts(world) => world.step(step, got),
            On::Beside(world) => world.step(step, at, got),
            On::Bytes(world) => world.step(step, got),
            On::List(world) => world.step(step, got),
            On::Loop(world) => world.step(step, at, got),
            On::Places(world) => world.step(step, got),
            On::Panes(world) => world.step(step, at, got),
            On::Plain(world) => world.step(step, at, got),
        }
    }

    /// Another world made of the current one: `ended`, the bar is gone, and its terminal stays; `shown ROWS COLS RATE`, a record becomes
    /// the bar of a screen.
    fn turned(self, step: &str, at: At) -> Result<On<R>, Bad> {
        match (self, headed(step)) {
            (On::Record(bar), ("shown", rest)) => Ok(On::Screen(screens::showing(bar, rest, at)?)),
            (On::Screen(world), ("ended", "")) => Ok(On::Screen(world.ended(at)?)),
            _ => Err(Bad::Step),
        }
    }
}

/// The world, the moment of the last step, and whether steps are those over `indicatif`.
#[derive(Drop)]
pub struct World<R: Wait + Copy + Clone + Drop> {
    rt: R,
    at: At,
    on: On<R>,
    is_front: bool,
}

impl<R: Shares + RandomSource> World<R> {
    /// One with nothing on it.
    pub fn new(rt: R, is_front: bool) -> World<R> {
        World {
            rt,
            at: At {
                alloc: rt.alloc(),
                now: 0,
            },
            on: On::Nothing,
            is_front,
        }
    }

    /// The world that the step with this name begins, below `indicatif`.
    fn begun(&self, name: &str, rest: &str, at: At) -> Result<Option<On<R>>, Bad> {
        Ok(Some(match name {
            "lone" | "board" | "recorded" | "term" | "engine" => {
                On::Screen(screens::begin(name, rest, at)?)
            }
            "record" => On::Record(lone::new_bar(&mut Words::of(rest), at)?),
            "table" => On::Table(at.boxed(MultiState::new(at.alloc))?),
            "cells" => On::Cells(terminals::of_cells(rest, at)?),
            "memory" => On::Memory(terminals::in_memory(rest, at)?),
            "noted" => On::Noted(terminals::begin_noted(rest, at)?),
            "style" | "default_bar" | "default_spinner" => {
                On::Style(styles::begin(name, rest, at)?)
            }
            _ => return Ok(None),
        }))
    }

    /// The world over `indicatif` that the step with this name begins.
    fn begun_front(&self, name: &str, rest: &str, at: At) -> Result<Option<On<R>>, Bad> {
        Ok(Some(match name {
            "fronts" => On::Fronts(WithWrapped::begin(self.rt, rest, at)?),
            "beside" => On::Beside(beside::begin(self.rt, at)?),
            "bytes" => On::Bytes(at.boxed(Over::begin(&self.rt, rest)?)?),
            "list" => On::List(loops::begin_list(rest, at)?),
            "loop" => On::Loop(loops::begin(rest, at)?),
            "places" => On::Places(places::begin(rest, at)?),
            "plain" => On::Plain(plain::begin(rest, at)?),
            "told" | "trusted" | "row" | "widths" | "broken" => {
                On::Panes(on_panes::begin(name, rest, at)?)
            }
            _ => return Ok(None),
        }))
    }

    /// Makes a step, and appends what it gives. It begins another world, at this moment or at 0, where the step does so; else it goes on with
    /// what is there.
    pub fn play(&mut self, step: &str, got: &mut Got) -> Outcome {
        let (step, moment) = timed(step);
        let (name, rest) = headed(step);
        let is_asked = match self.is_front {
            true => environment::asked(name, rest, self.at, got)?,
            false => asked(name, rest, self.at, got)?,
        };
        if is_asked {
            return Ok(());
        }
        let at = At {
            now: moment.unwrap_or(0),
            ..self.at
        };
        let begun = match self.is_front {
            true => self.begun_front(name, rest, at)?,
            false => self.begun(name, rest, at)?,
        };
        if let Some(on) = begun {
            self.on = on;
            self.at = at;
            return Ok(());
        }
        self.at.now = moment.unwrap_or(self.at.now);
        match name {
            "ended" | "shown" => {
                self.on = replace(&mut self.on, On::Nothing).turned(step, self.at)?;
                Ok(())
            }
            _ => self.on.step(step, self.at, got),
        }
    }
}
