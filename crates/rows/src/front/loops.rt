//! Wrapped lists: with a bar that counts its moves, and with a bar of their own on a terminal in memory.
//!
//! `list POSITION ITEMS`, the items separated by spaces, begins the first; `next`, `next_back`, `size` (the two bounds and the length),
//! `last`, `stands`, `finished`, and `unwrap`, which gives the position of the bar that comes back.
//!
//! `loop ROWS COLS FROM STEP HOW: ITEMS` begins the second, with a clock that starts at `FROM` and advances by `STEP`; `HOW` is `progress`,
//! `count LEN`, `style TEMPLATE`, or `made` (a bar of length 1 that was made before). Then `next`, `shows`, `last`, `pos`, `len`,
//! `finished`, and the builders: `with_style TEMPLATE`, `with_prefix TEXT`, `with_message TEXT`, `with_position N`, `with_elapsed N`,
//! `with_finish CALL`.
use crate::front::bars::{Room, RowClock, contents, push_contents};
use crate::front::bytes::push_last;
use crate::front::counted::Counted;
use indicatif::{
    BarCommand, BarState, InMemoryTerm, LoneBar, NoTracker, OwnedBar, ProgressBarIter,
    ProgressIterator, ProgressStyle,
};
use scripts::commands::command;
use scripts::got::{Bad, Got, Outcome};
use scripts::lone::read_bar;
use scripts::row::{At, Words, headed, number};
use std::alloc::Global;
use std::vec::IntoIter;

/// The list of these items.
fn items_of(alloc: Global, words: &str) -> Result<IntoIter<u32>, Bad> {
    let mut items = Vec::new(alloc);
    for word in words.split(' ') {
        items.push(number(word)?)?;
    }
    Ok(items.into_iter())
}

// ---- a list with a bar that counts its moves

/// A wrapped list; none once it was unwrapped.
#[derive(Drop)]
pub struct List(Option<ProgressBarIter<IntoIter<u32>, Counted>>);

/// A list, wrapped.
pub fn begin_list(rest: &str, at: At) -> Result<Box<List>, Bad> {
    let mut words = Words::of(rest);
    let bar = Counted::at(words.number()?);
    let wrapped = items_of(at.alloc, words.rest())?.progress_with(bar);
    at.boxed(List(Some(wrapped)))
}

impl List {
    /// Makes a step, or reads the bar.
    pub fn step(&mut self, step: &str, got: &mut Got) -> Outcome {
        let wrapped = self.0.as_mut().ok_or(Bad::Step)?;
        match step {
            "next" => got.number_or(wrapped.next(), "end"),
            "next_back" => got.number_or(wrapped.next_back(), "end"),
            "size" => match wrapped.size_hint() {
                (least, Some(most)) => got.number(format_args!("{least} {most} {}", wrapped.len())),
                (least, None) => got.number(format_args!("{least} -")),
            },
            "last" => push_last(wrapped.last_draw(), got),
            "finished" => got.flag(wrapped.progress.finished),
            "stands" => wrapped.progress.push(got),
            "unwrap" => self.unwrap(got),
            _ => return Err(Bad::Step),
        }
        Ok(())
    }

    fn unwrap(&mut self, got: &mut Got) {
        if let Some(wrapped) = self.0.take() {
            let (items, bar) = wrapped.into_inner();
            drop(items);
            bar.push(got);
        }
    }
}

// ---- a list with a bar of its own

/// A wrapped list with its own bar.
type Wrapped = ProgressBarIter<IntoIter<u32>, OwnedBar<NoTracker, InMemoryTerm, RowClock>>;

/// A loop as a separate type.
#[derive(Drop)]
struct Loop(Wrapped);

/// A loop; none after a call was refused and dropped it.
#[derive(Drop)]
pub struct Looped(Option<Box<Loop>>);

/// A loop over these items, wrapped in the way of some words.
fn over(how: &str, room: Room, items: IntoIter<u32>, alloc: Global) -> Result<Wrapped, Bad> {
    let setup = room.setup(alloc)?;
    Ok(match headed(how) {
        ("progress", "") => items.progress(alloc, setup)?,
        ("count", len) => items.progress_count(alloc, number(len)?, setup)?,
        ("style", template) => {
            let style = ProgressStyle::with_template(alloc, template)?;
            items.progress_with_style(alloc, style, setup)?
        }
        ("made", "") => {
            let bar = LoneBar::new(BarState::new(alloc, Some(1), 0)?, setup.target);
            ProgressBarIter::new(items, OwnedBar::new(bar, setup.clock))
        }
        _ => return Err(Bad::Step),
    })
}

/// A loop.
pub fn begin(rest: &str, at: At) -> Result<Looped, Bad> {
    let mut words = Words::of(rest);
    let room = Room::of(&mut words)?;
    let (how, items) = words.rest().split_once(": ").ok_or(Bad::Step)?;
    let items = items_of(at.alloc, items)?;
    let wrapped = over(how, room, items, at.alloc)?;
    Ok(Looped(Some(at.boxed(Loop(wrapped))?)))
}

impl Looped {
    /// Makes a step, or reads the bar. A builder that is refused drops the loop.
    pub fn step(&mut self, step: &str, at: At, got: &mut Got) -> Outcome {
        if step.starts_with("with_") {
            let wrapped = self.0.take().ok_or(Bad::Step)?;
            let told = built(Box::into_inner(wrapped).0, command(at.alloc, step)?)?;
            self.0 = Some(at.boxed(Loop(told))?);
            return Ok(());
        }
        let wrapped = &mut self.0.as_mut().ok_or(Bad::Step)?.0;
        match step {
            "next" => got.number_or(wrapped.next(), "end"),
            "shows" => push_contents(contents(wrapped.progress.bar().term()), got)?,
            "last" => push_last(wrapped.last_draw(), got),
            _ => match read_bar(wrapped.progress.bar().bar(), step, 0, got)? {
                true => (),
                false => return Err(Bad::Step),
            },
        }
        Ok(())
    }
}

/// Makes a command by its builder.
fn built(wrapped: Wrapped, command: BarCommand<NoTracker>) -> Result<Wrapped, Bad> {
    Ok(match command {
        BarCommand::SetStyle(style) => wrapped.with_style(style)?,
        BarCommand::WithPrefix(text) => wrapped.with_prefix(text.as_str())?,
        BarCommand::WithMessage(text) => wrapped.with_message(text.as_str())?,
        BarCommand::WithPosition(position) => wrapped.with_position(position),
        BarCommand::SetElapsed(nanos) => wrapped.with_elapsed(nanos)?,
        BarCommand::WithFinish(finish) => wrapped.with_finish(finish),
        _ => return Err(Bad::Step),
    })
}
