//! Inputs passed on, one after another.
use crate::arguments::{Asked, Begins, Ends, Manner, Timing, Unit};
use crate::numbers::Numbers;
use crate::shown::Bar;
use indicatif::machine::MachineClock;
use indicatif::{Clock, Refusal};
use meter_parts::{Broken, Gauge, Pace, bytes_of_lines, lines_in, pass_on};
use std::fs::{self, File};
use std::io::{Error, Read, Stdin, Stdout};
use std::os::unix::fs::MetadataExt;
use std::rt::Files;
use std::sync::Wait;
use std::time::Duration;
use std::{thread, time};

/// The bytes before the buffer. The C library of Linux gives a block of this size from byte 16 of a page on, so the buffer begins with a
/// page, from and to which the system copies fastest.
const FRONT: usize = 4_080;

/// An input that wasn't passed on, or not to its end: which one, from 0, and why.
#[derive(Clone, Copy, Drop)]
pub struct Fault {
    /// The place among the files; 0 for standard input alone.
    pub input: usize,
    /// Why.
    pub why: Why,
}

/// Why an input wasn't passed on.
#[derive(Clone, Copy, Drop)]
pub enum Why {
    /// It failed.
    Failed(Error),
    /// It is the file that standard output goes to: it would grow as long as it is read.
    IsOutput,
}

/// The result for the inputs.
#[derive(Drop)]
pub struct Copied {
    /// Inputs that failed.
    pub faults: Vec<Fault>,
    /// Why the output failed, if it did.
    pub output: Option<Error>,
}

/// The standard streams: bytes go from the first to the second.
#[derive(Clone, Copy, Drop)]
pub struct Streams {
    /// Standard input.
    pub input: Stdin,
    /// Standard output.
    pub output: Stdout,
}

/// Reports bytes as they are passed on.
#[derive(Drop)]
struct Watch<'a, R: Wait + time::Clock + Copy + Drop> {
    rt: &'a R,
    bar: &'a Bar<R>,
    clock: MachineClock<R>,
    unit: Unit,
    timing: Timing,
    pace: Option<Pace>,
    numbers: Option<Numbers>,
    has_begun: bool,
}

impl<R: Eprint + Wait + time::Clock + Copy + Drop> Gauge for Watch<'_, R> {
    fn piece(&mut self, bytes: &[u8]) -> usize {
        let Some(pace) = self.pace else {
            return bytes.len();
        };
        let nanos = pace.wait(self.clock.now());
        if nanos > 0 {
            thread::sleep(self.rt, Duration::from_nanos(nanos));
        }
        let most = pace.piece(bytes.len());
        match self.unit {
            Unit::Bytes => most,
            Unit::Lines(end) => bytes_of_lines(bytes, end, most),
        }
    }

    fn went(&mut self, bytes: &[u8]) {
        if !self.has_begun {
            self.has_begun = true;
            // (from then on the thread that tells the bar its rate draws it each interval)
            if matches!(self.timing.begins, Begins::WithFirstByte) {
                let _ = self.bar.reset_elapsed();
            }
        }
        let count = match self.unit {
            Unit::Bytes => bytes.len() as u64,
            Unit::Lines(end) => lines_in(bytes, end),
        };
        let _ = self.bar.inc(count);
        if let Some(pace) = &mut self.pace {
            pace.went(
                usize::try_from(count).unwrap_or(usize::MAX),
                self.clock.now(),
            );
        }
        if let Some(numbers) = &mut self.numbers {
            numbers.went(self.rt, self.clock.now(), count);
        }
    }

    fn rest(&mut self) {
        thread::sleep(self.rt, Duration::from_millis(10));
    }
}

impl<'a, R: AllocGlobal + Wait + time::Clock + Copy + Drop> Watch<'a, R> {
    /// Reports to this bar, as requested.
    fn new(rt: &'a R, bar: &'a Bar<R>, asked: &Asked<'_>, size: Option<u64>) -> Watch<'a, R> {
        let timing = asked.timing;
        Watch {
            rt,
            bar,
            clock: MachineClock::new(*rt),
            unit: asked.look.unit,
            timing,
            pace: match timing.limit {
                Some(0) | None => None,
                Some(rate) => Some(Pace::new(rate)),
            },
            numbers: match asked.look.manner {
                Manner::Numbers => Some(Numbers::new(size, timing.interval)),
                _ => None,
            },
            has_begun: false,
        }
    }
}

/// Passes all inputs on to standard output, and finishes the bar where it stands. The bar, and numbers, follow each piece.
///
/// Refused: `Memory`; the bar is still finished.
pub fn copy_all<R: Files + AllocGlobal + Eprint + Wait + time::Clock + Copy + Drop>(
    rt: &R,
    streams: Streams,
    asked: &Asked<'_>,
    size: Option<u64>,
    bar: &Bar<R>,
) -> Result<Copied, Refusal> {
    let copied = handed_on(rt, streams, asked, size, bar);
    let _ = bar.abandon();
    copied
}

/// Passes them on, and writes the last number.
fn handed_on<R: Files + AllocGlobal + Eprint + Wait + time::Clock + Copy + Drop>(
    rt: &R,
    streams: Streams,
    asked: &Asked<'_>,
    size: Option<u64>,
    bar: &Bar<R>,
) -> Result<Copied, Refusal> {
    let mut block = vec![in rt.alloc(); 0u8; asked.passing.block.saturating_add(FRONT)]?;
    let front = FRONT.min(block.len());
    let mut watch = Watch::new(rt, bar, asked, size);
    let mut way = Way {
        streams,
        left: match (asked.passing.ends, size) {
            (Ends::AtSize, Some(size)) => size,
            _ => u64::MAX,
        },
        buffer: &mut block[front..],
    };
    let copied = copy_files(rt, &mut way, &asked.files, &mut watch)?;
    if let Some(numbers) = &mut watch.numbers {
        numbers.end(rt);
    }
    Ok(copied)
}

/// The source and the destination of bytes, their buffer, and how many may still be sent.
#[derive(Drop)]
struct Way<'b> {
    streams: Streams,
    left: u64,
    buffer: &'b mut [u8],
}

/// Passes these files on, or standard input if there are none, until the output fails or the limit is reached.
fn copy_files<R: Files + AllocGlobal, G: Gauge>(
    rt: &R,
    way: &mut Way<'_>,
    files: &[&str],
    gauge: &mut G,
) -> Result<Copied, Refusal> {
    let mut copied = Copied {
        faults: Vec::new(rt.alloc()),
        output: None,
    };
    let files = if files.is_empty() { &["-"] } else { files };
    for (input, name) in files.iter().enumerate() {
        match copy_other(rt, way, name, gauge) {
            Ok(()) => {}
            Err(Stopped::Input(why)) => copied.faults.push(Fault { input, why })?,
            Err(Stopped::Output(error)) => {
                copied.output = Some(error);
                break;
            }
        }
    }
    Ok(copied)
}

/// What stopped an input.
#[derive(Clone, Copy, Drop)]
enum Stopped {
    /// The input itself.
    Input(Why),
    /// The output.
    Output(Error),
}

/// Passes on the file with this name, unless standard output goes to it.
fn copy_other<R: Files, G: Gauge>(
    rt: &R,
    way: &mut Way<'_>,
    name: &str,
    gauge: &mut G,
) -> Result<(), Stopped> {
    if is_output(rt, name) {
        return Err(Stopped::Input(Why::IsOutput));
    }
    match copy_named(rt, way, name, gauge) {
        Ok(()) => Ok(()),
        Err(Broken::Input(error)) => Err(Stopped::Input(Why::Failed(error))),
        Err(Broken::Output(error)) => Err(Stopped::Output(error)),
    }
}

/// Whether standard output goes to the file with this name.
fn is_output<R: Files>(rt: &R, name: &str) -> bool {
    let path = if name == "-" { "/dev/stdin" } else { name };
    match (fs::metadata(rt, path), fs::metadata(rt, "/dev/stdout")) {
        (Ok(from), Ok(to)) => { to.is_file() && from.dev() == to.dev() && from.ino() == to.ino() }
        _ => false,
    }
}

/// Passes on the file with this name.
fn copy_named<R: Files, G: Gauge>(
    rt: &R,
    way: &mut Way<'_>,
    name: &str,
    gauge: &mut G,
) -> Result<(), Broken> {
    if name == "-" {
        return copy_from(way, way.streams.input, gauge);
    }
    match File::open(rt, name) {
        Ok(file) => copy_from(way, file, gauge),
        Err(error) => Err(Broken::Input(error)),
    }
}

/// Passes on an input, up to the limit.
fn copy_from<I: Read + Drop, G: Gauge>(
    way: &mut Way<'_>,
    input: I,
    gauge: &mut G,
) -> Result<(), Broken> {
    let mut input = input.take(way.left);
    let mut output = way.streams.output;
    let passed = pass_on(&mut input, &mut output, gauge, way.buffer);
    if way.left < u64::MAX {
        way.left = input.limit();
    }
    passed
}
