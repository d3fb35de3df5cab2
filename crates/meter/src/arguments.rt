//! The program's request, from its arguments.
use clap::error::ErrorKind as WordsErrorKind;
use clap::{Arg, ArgAction, ArgMatches, Command, Error, value_parser};
use indicatif_term::target::OwnRow;
use meter_parts::{bytes_said, nanos_said, row_said};
use std::alloc::{AllocError, AllocFailed, Global};
use std::env::{self, Env};
use std::io::ErrorKind;

/// A request.
#[derive(Drop)]
pub struct Asked<'a> {
    /// The inputs, in turn; none for standard input.
    pub files: Vec<&'a str>,
    /// How much will come, if given.
    pub size: Option<u64>,
    /// How progress is shown.
    pub look: Look<'a>,
    /// When progress is shown.
    pub timing: Timing,
    /// How bytes are passed on.
    pub passing: Passing,
}

/// How bytes are passed on.
#[derive(Clone, Copy, Drop)]
pub struct Passing {
    /// The most bytes that are sent at once.
    pub block: usize,
    /// Where to stop.
    pub ends: Ends,
}

/// Where to stop.
#[derive(Clone, Copy, Drop)]
pub enum Ends {
    /// After all inputs.
    WithInputs,
    /// After the given size, if it is known.
    AtSize,
}

/// How progress is shown.
#[derive(Drop)]
pub struct Look<'a> {
    /// Where progress is shown.
    pub manner: Manner,
    /// What is counted.
    pub unit: Unit,
    /// Which parts are shown.
    pub parts: Parts,
    /// The name before the numbers.
    pub name: Option<&'a str>,
    /// A template from the user.
    pub format: Option<&'a str>,
    /// The columns of the terminal, if they are given.
    pub columns: Option<u16>,
    /// The row, if other programs have rows too.
    pub row: Option<OwnRow>,
}

/// Where it is shown.
#[derive(Clone, Copy, Drop)]
pub enum Manner {
    /// As a bar, if standard error is a terminal.
    Bar,
    /// As a bar in any case.
    ForcedBar,
    /// As numbers, one a line.
    Numbers,
    /// Nowhere.
    Quiet,
}

/// What is counted.
#[derive(Clone, Copy, Drop)]
pub enum Unit {
    /// Bytes.
    Bytes,
    /// Lines, each of which ends with this byte.
    Lines(u8),
}

/// Which parts are shown.
#[derive(Clone, Copy, Drop)]
pub struct Parts {
    /// How much was sent.
    pub count: bool,
    /// The time since the start.
    pub elapsed: bool,
    /// The rate of the last seconds.
    pub rate: bool,
    /// The mean rate.
    pub mean: bool,
    /// A bar, and the percent.
    pub bar: bool,
    /// The time left, and the time of day of the end.
    pub left: bool,
}

impl Parts {
    /// All parts.
    const ALL: Parts = Parts {
        count: true,
        elapsed: true,
        rate: true,
        mean: true,
        bar: true,
        left: true,
    };

    /// Whether there are no parts.
    fn is_none(&self) -> bool {
        !(self.count || self.elapsed || self.rate || self.mean || self.bar || self.left)
    }
}

/// When progress is shown, and how fast bytes are sent.
#[derive(Clone, Copy, Drop)]
pub struct Timing {
    /// The nanoseconds from one draw to the next.
    pub interval: u64,
    /// When the time begins.
    pub begins: Begins,
    /// The most bytes a second.
    pub limit: Option<u64>,
}

/// When the time begins.
#[derive(Clone, Copy, Drop)]
pub enum Begins {
    /// At once.
    AtOnce,
    /// With the first byte.
    WithFirstByte,
}

/// Why there is no request.
#[derive(Drop)]
pub enum Unasked {
    /// The words are wrong, or ask for help.
    Words(Error),
    /// The value of an option is wrong, or the words aren't UTF-8.
    Value(&'static str),
    /// Memory was refused.
    Memory,
}

impl From<AllocError> for Unasked {
    fn from(_: AllocError) -> Unasked {
        Unasked::Memory
    }
}

impl<T: Drop> From<AllocFailed<T>> for Unasked {
    fn from(_: AllocFailed<T>) -> Unasked {
        Unasked::Memory
    }
}

impl From<Error> for Unasked {
    fn from(error: Error) -> Unasked {
        match error.kind() {
            WordsErrorKind::OutOfMemory => Unasked::Memory,
            _ => Unasked::Words(error),
        }
    }
}

/// A tenth of a second.
const INTERVAL: u64 = 100_000_000;

/// The version, which is that of the library's source.
const VERSION: &str = "0.18.6";

/// As many bytes as `cat` copies at once.
const BLOCK: usize = 131_072;

/// The inputs, or an option.
#[derive(Clone, Copy, Drop)]
struct Choice {
    /// Its name, which is that of the long option.
    name: &'static str,
    /// How it is given.
    given: Given,
    /// Its line in the help.
    help: &'static str,
}

/// How a choice is given.
#[derive(Clone, Copy, Drop)]
enum Given {
    /// As words that are no options.
    Words,
    /// By its letter or its name.
    Flag(char),
    /// By its letter or its name, with a value, and the value's name in the help.
    Valued(char, &'static str),
    /// By its letter or its name, and a number of columns.
    Columns(char),
    /// By its name, with one of several rows.
    Row,
}

/// An option of `pv` that this program hasn't.
#[derive(Clone, Copy, Drop)]
struct Absent {
    /// How it is given.
    given: Given,
    /// Its name.
    name: &'static str,
    /// The message, with what is nearest.
    instead: &'static str,
}

/// The options, in the order of the help.
const CHOICES: &[Choice] = &[
    Choice {
        name: "file",
        given: Given::Words,
        help: "The inputs, copied in turn; - or no file is standard input",
    },
    Choice {
        name: "size",
        given: Given::Valued('s', "N"),
        help: "How many bytes or lines will come: 700, 10M or 10MiB (1024 x 1024 each), 10MB (a million each)",
    },
    Choice {
        name: "rate-limit",
        given: Given::Valued('L', "N"),
        help: "Copies at most N bytes a second, or lines with --lines",
    },
    Choice {
        name: "name",
        given: Given::Valued('N', "TEXT"),
        help: "A text before the numbers",
    },
    Choice {
        name: "format",
        given: Given::Valued('F', "TEMPLATE"),
        help: "The look, as a template of indicatif",
    },
    Choice {
        name: "interval",
        given: Given::Valued('i', "SEC"),
        help: "The seconds between two drawings (0.1)",
    },
    Choice {
        name: "columns",
        given: Given::Columns('w'),
        help: "The terminal's columns, if COLUMNS isn't exported",
    },
    Choice {
        name: "row",
        given: Given::Row,
        help: "Draws on row K of N; other meters of the pipeline draw on the other rows",
    },
    Choice {
        name: "progress",
        given: Given::Flag('p'),
        help: "Shows the bar and the percent; with one of -p -t -e -r -a -b nothing else is shown",
    },
    Choice {
        name: "timer",
        given: Given::Flag('t'),
        help: "Shows for how long bytes go",
    },
    Choice {
        name: "eta",
        given: Given::Flag('e'),
        help: "Shows the time that is left, and the time of the end",
    },
    Choice {
        name: "fineta",
        given: Given::Flag('I'),
        help: "The same",
    },
    Choice {
        name: "rate",
        given: Given::Flag('r'),
        help: "Shows how fast bytes went in the last seconds",
    },
    Choice {
        name: "average-rate",
        given: Given::Flag('a'),
        help: "Shows how fast they went on the whole",
    },
    Choice {
        name: "bytes",
        given: Given::Flag('b'),
        help: "Shows how many went",
    },
    Choice {
        name: "lines",
        given: Given::Flag('l'),
        help: "Counts lines, not bytes",
    },
    Choice {
        name: "null",
        given: Given::Flag('0'),
        help: "Counts lines that end with NUL",
    },
    Choice {
        name: "stop-at-size",
        given: Given::Flag('S'),
        help: "Ends after as many bytes as --size says",
    },
    Choice {
        name: "buffer-size",
        given: Given::Valued('B', "N"),
        help: "Hands on at most N bytes at once (128K)",
    },
    Choice {
        name: "no-splice",
        given: Given::Flag('C'),
        help: "Changes nothing: bytes are never spliced",
    },
    Choice {
        name: "numeric",
        given: Given::Flag('n'),
        help: "Prints numbers, one on a line: the percent, or the count if no size is known",
    },
    Choice {
        name: "quiet",
        given: Given::Flag('q'),
        help: "Shows nothing",
    },
    Choice {
        name: "wait",
        given: Given::Flag('W'),
        help: "Counts the time from the first byte",
    },
    Choice {
        name: "force",
        given: Given::Flag('f'),
        help: "Shows the bar even if standard error isn't a terminal",
    },
];

/// The options that `pv` has and this program hasn't, and what to use instead.
const ABSENT: &[Absent] = &[
    Absent {
        given: Given::Flag('c'),
        name: "cursor",
        instead: "-c (--cursor) isn't there: --row K/N gives each meter of a pipeline its row",
    },
    Absent {
        given: Given::Flag('E'),
        name: "skip-errors",
        instead: "-E (--skip-errors) isn't there: dd conv=sync,noerror skips what can't be read",
    },
    Absent {
        given: Given::Valued('D', "SEC"),
        name: "delay-start",
        instead: "-D (--delay-start) isn't there: --wait counts from the first byte",
    },
    Absent {
        given: Given::Valued('H', "N"),
        name: "height",
        instead: "-H (--height) isn't there: export LINES",
    },
    Absent {
        given: Given::Valued('A', "N"),
        name: "last-written",
        instead: "-A (--last-written) isn't there: tee keeps what went",
    },
    Absent {
        given: Given::Flag('T'),
        name: "buffer-percent",
        instead: "-T (--buffer-percent) isn't there: --buffer-size says how much is held",
    },
    Absent {
        given: Given::Valued('d', "PID"),
        name: "watchfd",
        instead: "-d (--watchfd) isn't there: name the file, as meter FILE > COPY",
    },
    Absent {
        given: Given::Valued('R', "PID"),
        name: "remote",
        instead: "-R (--remote) isn't there: end the other and begin anew",
    },
    Absent {
        given: Given::Valued('P', "FILE"),
        name: "pidfile",
        instead: "-P (--pidfile) isn't there: sh -c 'echo $$ > FILE; exec meter' writes one",
    },
];

/// The program's arguments, the first of which is its name.
pub fn words_of<R: Env + AllocGlobal>(rt: &R) -> Result<Vec<String>, Unasked> {
    match env::args(rt) {
        Ok(words) => Ok(words.collect(rt.alloc())?),
        Err(e) if e.kind() == ErrorKind::OutOfMemory => Err(Unasked::Memory),
        Err(_) => Err(Unasked::Value(
            "an argument isn't UTF-8: write meter < FILE for a file of such a name",
        )),
    }
}

/// The matches of these words.
fn found<'a>(alloc: Global, words: &'a [String]) -> Result<ArgMatches<'a>, Error> {
    let mut command = Command::new(alloc, "meter").about(
        "Copies files or standard input to standard output, and shows the progress on standard error",
    );
    for choice in CHOICES {
        let known = argument(alloc, choice.name, choice.given).help(choice.help);
        let known = match pv_name(choice.name) {
            Some(name) => known.alias(name)?,
            None => known,
        };
        command = command.arg(known)?;
    }
    for absent in ABSENT {
        let unknown = argument(alloc, absent.name, absent.given);
        command = command.arg(unknown.hide(true))?;
    }
    command.version(VERSION).try_get_matches_from(words)
}

/// The name that `pv` has for an option with another name here; that name works too.
fn pv_name(name: &str) -> Option<&'static str> {
    match name {
        "lines" => Some("line-mode"),
        "columns" => Some("width"),
        _ => None,
    }
}

/// An argument with this name, given in this way.
fn argument<'a>(alloc: Global, name: &'static str, given: Given) -> Arg<'a> {
    let named = Arg::new(alloc, name);
    match given {
        Given::Words => named.value_name("FILE").num_args(0..),
        Given::Flag(letter) => named.long(name).short(letter).action(ArgAction::SetTrue),
        Given::Valued(letter, value) => named.long(name).short(letter).value_name(value),
        Given::Columns(letter) => named
            .long(name)
            .short(letter)
            .value_name("N")
            .value_parser(value_parser!(u16).range(1..)),
        Given::Row => named.long(name).value_name("K/N"),
    }
}

/// The request of these words, the first of which is the program's name.
pub fn asked_by<'a>(alloc: Global, words: &'a [String]) -> Result<Asked<'a>, Unasked> {
    let matches = found(alloc, words)?;
    for absent in ABSENT {
        if is_given(&matches, absent) {
            return Err(Unasked::Value(absent.instead));
        }
    }
    asked_in(alloc, &matches)
}

/// Whether an option that this program hasn't was given.
fn is_given(matches: &ArgMatches<'_>, absent: &Absent) -> bool {
    match absent.given {
        Given::Flag(_) => matches.get_flag(absent.name),
        _ => matches.get_str(absent.name).is_some(),
    }
}

/// The request of these matches.
fn asked_in<'a>(alloc: Global, matches: &ArgMatches<'a>) -> Result<Asked<'a>, Unasked> {
    let mut files = Vec::new(alloc);
    for name in matches.get_strs("file").unwrap_or(&[]) {
        files.push(*name)?;
    }
    Ok(Asked {
        files,
        size: bytes_in(
            matches,
            "size",
            "a size is a number as 700, 10M, 10MB or 1GiB",
        )?,
        look: look_in(matches)?,
        timing: timing_in(matches)?,
        passing: passing_in(matches)?,
    })
}

/// How bytes are passed on.
fn passing_in(matches: &ArgMatches<'_>) -> Result<Passing, Unasked> {
    let said = bytes_in(
        matches,
        "buffer-size",
        "a buffer's size is a number as 700, 64K or 1MiB",
    )?;
    let block = match usize::try_from(said.unwrap_or(BLOCK as u64)) {
        Ok(0) | Err(_) => return Err(Unasked::Value("a buffer of 0 bytes lets nothing go")),
        Ok(block) => block,
    };
    let ends = if matches.get_flag("stop-at-size") {
        Ends::AtSize
    } else {
        Ends::WithInputs
    };
    match (ends, unit_in(matches)) {
        (Ends::AtSize, Unit::Lines(_)) => {
            Err(Unasked::Value("-S counts bytes, and -l lines: head -n ends after some"))
        }
        _ => Ok(Passing { block, ends }),
    }
}

/// What is counted.
fn unit_in(matches: &ArgMatches<'_>) -> Unit {
    if matches.get_flag("null") {
        Unit::Lines(0)
    } else if matches.get_flag("lines") {
        Unit::Lines(b'\n')
    } else {
        Unit::Bytes
    }
}

/// Which parts are shown: all if none is given.
fn parts_in(matches: &ArgMatches<'_>) -> Parts {
    let asked = Parts {
        count: matches.get_flag("bytes"),
        elapsed: matches.get_flag("timer"),
        rate: matches.get_flag("rate"),
        mean: matches.get_flag("average-rate"),
        bar: matches.get_flag("progress"),
        left: matches.get_flag("eta") || matches.get_flag("fineta"),
    };
    if asked.is_none() { Parts::ALL } else { asked }
}

/// The bytes that an option gives, if it is there.
fn bytes_in(
    matches: &ArgMatches<'_>,
    name: &str,
    wanted: &'static str,
) -> Result<Option<u64>, Unasked> {
    let Some(text) = matches.get_str(name) else {
        return Ok(None);
    };
    match bytes_said(text) {
        Some(bytes) => Ok(Some(bytes)),
        None => Err(Unasked::Value(wanted)),
    }
}

/// How progress is shown.
fn look_in<'a>(matches: &ArgMatches<'a>) -> Result<Look<'a>, Unasked> {
    Ok(Look {
        manner: manner_in(matches),
        unit: unit_in(matches),
        parts: parts_in(matches),
        name: matches.get_str("name"),
        format: matches.get_str("format"),
        columns: matches.get_one::<u16>("columns"),
        row: row_in(matches)?,
    })
}

/// Where progress is shown.
fn manner_in(matches: &ArgMatches<'_>) -> Manner {
    if matches.get_flag("quiet") {
        Manner::Quiet
    } else if matches.get_flag("numeric") {
        Manner::Numbers
    } else if matches.get_flag("force") {
        Manner::ForcedBar
    } else {
        Manner::Bar
    }
}

/// The row to show it on, if it is one of several.
fn row_in(matches: &ArgMatches<'_>) -> Result<Option<OwnRow>, Unasked> {
    let Some(text) = matches.get_str("row") else {
        return Ok(None);
    };
    match row_said(text) {
        Some(row) => Ok(Some(row)),
        None => Err(Unasked::Value("a row is one of several, as 2/3")),
    }
}

/// When progress is shown.
fn timing_in(matches: &ArgMatches<'_>) -> Result<Timing, Unasked> {
    let interval = interval_in(matches)?;
    let limit = bytes_in(
        matches,
        "rate-limit",
        "a rate is a number a second as 700, 10M, 10MB or 1GiB",
    )?;
    if limit == Some(0) {
        return Err(Unasked::Value("a rate of 0 lets nothing go"));
    }
    Ok(Timing {
        interval,
        begins: if matches.get_flag("wait") {
            Begins::WithFirstByte
        } else {
            Begins::AtOnce
        },
        limit,
    })
}

/// The nanoseconds from one draw to the next.
fn interval_in(matches: &ArgMatches<'_>) -> Result<u64, Unasked> {
    let Some(text) = matches.get_str("interval") else {
        return Ok(INTERVAL);
    };
    match nanos_said(text) {
        Some(nanos) => Ok(nanos),
        None => Err(Unasked::Value("an interval is a number of seconds as 2 or 0.5")),
    }
}
