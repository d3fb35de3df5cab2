//! `bars run` with an output that fails.
use crate::faults::{Fault, Tally};
use crate::sweeps::play::Where;
use crate::sweeps::record::{Plan, Point, Record, Size, Wire};
use crate::sweeps::sweep::{AT_EACH_SIZE, Case, Runs, SIZES, size_of, sweep_at};
use bars_run::run_bars;
use indicatif_text::columns::Refusal;
use std::alloc::Global;

/// What is played, and what it prints on four rows and ten columns: `b` is finished and cleared when it is dropped, and the row of `c` stays
/// until the next draw.
const COMMANDS: &[u8] =
    b"add a\nadd b\ntick 1\ntick 2\nlog one\nmsg 1 c\nlog two\ndrop 2\nremove 1\n";

const PRINTED: &[u8] = b"one\ntwo\nc\n";

/// The size on which it prints that.
const WIDE: Size = Size { rows: 4, cols: 10 };

/// The initial room of the output and of the messages, in bytes.
const ROOM: usize = 64;

/// The result of a run of the program: its status, what its output got, what it printed and its message.
#[derive(Drop)]
struct Ran {
    status: u8,
    point: Point,
    printed: Vec<u8>,
    said: Vec<u8>,
}

impl Ran {
    /// Runs the program on a terminal of this size with an output that fails as planned.
    fn new(alloc: Global, Case { size, plan }: Case) -> Result<Ran, Refusal> {
        let Size { rows, cols } = size;
        let run = String::from_str(alloc, "run")?;
        let (rows, cols) = (format!(in alloc; "{rows}")?, format!(in alloc; "{cols}")?);
        let args = vec![in alloc; run, rows, cols]?;
        let record = Record::new(alloc, plan, ROOM)?;
        let mut said = Vec::with_capacity(alloc, ROOM)?;
        let mut output = Wire(record.clone()?);
        let status = run_bars(alloc, &args, COMMANDS, &mut output, &mut said);
        let point = record.point();
        Ok(Ran {
            status,
            point,
            printed: record.between(alloc, (Point::default(), point))?,
            said,
        })
    }

    /// Whether it ended well, without a message.
    fn is_whole(&self) -> bool {
        self.status == 0 && self.point.failures == 0 && self.said.is_empty()
    }

    /// Whether it printed a prefix of the other's output, all before the byte that failed, reported that its output failed, and wrote no
    /// more.
    fn is_beginning_of(&self, whole: &Ran, plan: Plan) -> bool {
        let is_short = matches!(plan, Plan::Byte(byte) if byte != self.printed.len());
        !is_short
            && self.status == 2
            && self.point.failures == 1
            && self.said.as_slice() == b"bars: output failed\n".as_slice()
            && whole.printed.starts_with(&self.printed)
    }
}

/// Runs the program with an output that fails as planned: how much that got in a run without a failure. On the wide terminal such a run
/// prints the expected rows.
pub fn run(alloc: Global, case: Case) -> Result<Point, Fault> {
    let whole = Ran::new(alloc, Case::unbroken(case.size))?;
    let holds = match case.plan {
        Plan::Never => whole.is_whole()
            && (case.size != WIDE || whole.printed.as_slice() == PRINTED),
        plan => Ran::new(alloc, case)?.is_beginning_of(&whole, plan),
    };
    Fault::Answer.unless(holds)?;
    Ok(whole.point)
}

/// Makes the sweeps on terminals of one to four rows and one to six columns, and on the wide one.
pub fn sweep_each_size<R: Runs>(rt: R) -> Tally<Case> {
    let mut tally = Tally::new();
    sweep_all(rt, WIDE, &mut tally);
    for number in 0..SIZES {
        sweep_all(rt, size_of(number), &mut tally);
    }
    tally
}

fn sweep_all<R: Runs>(rt: R, size: Size, tally: &mut Tally<Case>) {
    for plan in AT_EACH_SIZE {
        sweep_at(rt, None, Case { size, plan: *plan }, tally);
    }
}

/// Where memory was refused in a run whose output has room for everything: it prints that, or names the line, or reports that it was none.
pub fn refused(alloc: Global) -> Result<Where, Fault> {
    let case = Case::unbroken(WIDE);
    let ran = Ran::new(alloc, case).or_else(|_| Ran::new(alloc, case))?;
    match ran.status {
        0 if ran.is_whole() && ran.printed.as_slice() == PRINTED => Ok(Where::Nowhere),
        1 if ran.printed.is_empty() => place_named(&ran.said),
        _ => Err(Fault::Answer),
    }
}

/// Where memory was refused, by the message on standard error: in a line, or before the first or after the last.
fn place_named(said: &[u8]) -> Result<Where, Fault> {
    let (line, rest) = match said.strip_prefix(b"bars: ") {
        Some([b'l', b'i', b'n', b'e', b' ', digit, b':', b' ', rest @ ..]) => {
            (usize::from(digit.wrapping_sub(b'0')), rest)
        }
        Some(rest) => (0, rest),
        None => return Err(Fault::Answer),
    };
    match rest {
        b"E14\n" if line <= 9 => Ok(Where::Call(line)),
        b"E13\n" if line <= 9 => Ok(Where::Terminal(line)),
        _ => Err(Fault::Answer),
    }
}
