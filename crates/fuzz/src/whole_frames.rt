//! Random lists of calls of an engine, and of one whose cursor only moves, beside one that writes whole frames: rows, the colours of each
//! cell and the cursor must be the same after each call.
//!
//! - `whole`: the engine that writes whole frames. `calls`: random calls. `coloured`: a terminal that keeps colours.
//!
//! `fuzz whole_frames` plays a thousand lists; `fuzz whole_frames SEED COUNT` COUNT lists with that seed. `fuzz whole_frames SEED COUNT
//! bytes` prints, for each list, the terminal's rows and columns, and then what each of the three engines writes, as a text between quotes,
//! one a line.
mod calls;
mod coloured;
mod whole;

use crate::numbers::Numbers;
use crate::sweeps::number_of;
use crate::sweeps::record::Size;
use crate::whole_frames::calls::{Answer, Call, Frame};
use crate::whole_frames::coloured::Coloured;
use crate::whole_frames::whole::WholeFrames;
use anyhow::Result;
use indicatif_term::target::{Engine, Term};
use indicatif_text::columns::Refusal;
use std::alloc::Global;
use std::env::Args;

/// How many calls a list has.
const CALLS: u32 = 16;

/// The stream of random numbers.
const STREAM: u64 = 54;

/// An engine on a terminal that keeps what is written, and what that shows.
#[derive(Drop)]
struct Beside {
    engine: Engine<Term<Vec<u8>>>,
    shown: Coloured,
}

impl Beside {
    /// A new engine, whose cursor only moves or not.
    fn new(alloc: Global, size: Size, moves: bool) -> Result<Beside, Refusal> {
        let term = Term::new(Vec::new(alloc), size.rows, size.cols);
        let mut engine = Engine::new(alloc, term);
        engine.set_move_cursor(moves);
        let shown = Coloured::new(alloc, size)?;
        Ok(Beside { engine, shown })
    }

    /// Makes a call.
    fn make(&mut self, call: &Call, frame: &Frame) -> Answer {
        let (bars, alignment) = (&frame.bars, frame.alignment);
        match call {
            Call::Draw(pass) => self.engine.draw(bars, *pass, alignment)?,
            Call::Log(text) => self.engine.log(text.as_str(), bars, alignment)?,
            Call::Clear => self.engine.clear()?,
            Call::Keep(bar) => return Ok(Some(self.engine.keep(*bar))),
        }
        Ok(None)
    }

    fn written(&self) -> &[u8] {
        self.engine.term().writer()
    }
}

/// The engines, each on its own terminal, and what that of the one that writes whole frames shows.
#[derive(Drop)]
struct Three {
    engines: [Beside; 2],
    whole: WholeFrames,
    shown: Coloured,
}

impl Three {
    fn new(alloc: Global, size: Size) -> Result<Three, Refusal> {
        let engine = Beside::new(alloc, size, false)?;
        let moving = Beside::new(alloc, size, true)?;
        Ok(Three {
            engines: [engine, moving],
            whole: WholeFrames::new(alloc, size),
            shown: Coloured::new(alloc, size)?,
        })
    }

    /// Whether all give the same answer to a call, and show the same after it.
    fn agree(&mut self, call: &Call, frame: &Frame) -> Result<bool, Refusal> {
        let wanted = self.whole.make(call, frame);
        let mut agree = self.shown.read_on(self.whole.written())?;
        for beside in &mut self.engines {
            agree &= beside.make(call, frame) == wanted;
            agree &= beside.shown.read_on(beside.engine.term().writer())?;
            agree &= beside.shown.is_as(&self.shown)?;
        }
        Ok(agree)
    }
}

/// A terminal's size.
fn size_by(numbers: &mut Numbers) -> Size {
    let rows = 1 + numbers.below(5) as u16;
    let cols = 1 + numbers.below(9) as u16;
    Size { rows, cols }
}

/// Plays one more call; whether all agree.
fn step(three: &mut Three, frame: &mut Frame, numbers: &mut Numbers) -> Result<bool, Refusal> {
    frame.change(numbers)?;
    let call = frame.call(numbers)?;
    let agree = three.agree(&call, frame)?;
    frame.follow(&call);
    Ok(agree)
}

/// Plays one list of calls; the number of the first one after which they differ, from 1.
fn first_difference(
    alloc: Global,
    three: &mut Three,
    numbers: &mut Numbers,
) -> Result<Option<u32>, Refusal> {
    let mut frame = Frame::new(alloc);
    let mut first = None;
    for call in 1..=CALLS {
        if !step(three, &mut frame, numbers)? && first.is_none() {
            first = Some(call);
        }
    }
    Ok(first)
}

/// Plays lists with a seed, and compares them up to the first one in which the engines differ.
pub fn compare<R: AllocGlobal + Print>(rt: &R, seed: u64, count: u64) -> Result<()> {
    let mut numbers = Numbers::new(seed, STREAM);
    for at in 0..count {
        let mut three = Three::new(rt.alloc(), size_by(&mut numbers))?;
        if let Some(call) = first_difference(rt.alloc(), &mut three, &mut numbers)? {
            println!(rt; "list {at}: they differ behind call {call}")?;
            return Ok(());
        }
    }
    println!(rt; "{count} lists: the same rows, colours and cursor behind each call")?;
    Ok(())
}

/// Plays lists with a seed, and prints what each engine writes.
fn print_written<R: AllocGlobal + Print>(rt: &R, seed: u64, count: u64) -> Result<()> {
    let mut numbers = Numbers::new(seed, STREAM);
    for _ in 0..count {
        let size = size_by(&mut numbers);
        let mut three = Three::new(rt.alloc(), size)?;
        first_difference(rt.alloc(), &mut three, &mut numbers)?;
        let [engine, moving] = &three.engines;
        println!(rt; "{} {}", size.rows, size.cols)?;
        println!(rt; "{:?}", str::from_utf8(engine.written())?)?;
        println!(rt; "{:?}", str::from_utf8(moving.written())?)?;
        println!(rt; "{:?}", str::from_utf8(three.whole.written())?)?;
    }
    Ok(())
}

/// Runs the request of the words after `whole_frames`.
pub fn run<R: AllocGlobal + Print>(rt: &R, words: &mut Args) -> Result<()> {
    let seed = number_of(words.next()).unwrap_or(1);
    let count = number_of(words.next()).unwrap_or(1000);
    match words.next().as_deref() {
        Some("bytes") => print_written(rt, seed, count),
        _ => compare(rt, seed, count),
    }
}
