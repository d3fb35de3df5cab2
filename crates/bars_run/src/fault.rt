//! Why a run of the program `bars` ends before everything is printed.
ghost use Rattle.std.specs.Prelude.{◌≡◌};
ghost use Rattle.bars_run.specs.Fault.{status_of};

use indicatif_text::columns::Refusal;
use std::fmt;

/// The message for wrong arguments.
const USAGE: &str = "usage: bars demo | bars run ROWS COLS [bottom]";

/// Why a run ended before its picture was printed. Its text is the program's message; format options, such as a width in `{:>12}`, are
/// ignored.
///
/// ```
/// let fault = Fault::Line(4, Refusal::NotMember);
/// assert_eq!(fault.to_string(alloc)?.as_str(), "bars: line 4: E9");
/// assert_eq!(fault.status(), 1);
/// ```
#[derive(Clone, Copy, Drop)]
pub enum Fault {
    /// Wrong arguments.
    Usage,
    /// The line with this number, counted from 1, isn't a command.
    BadCommand(u64),
    /// The command in the line with this number was refused.
    Line(u64, Refusal),
    /// Something that belongs to no line was refused.
    Refused(Refusal),
    /// A read failed.
    Input,
    /// A write of the output failed.
    Output,
}

impl Fault {
    /// The exit status: 1 after a refusal, otherwise 2.
    pub fn status(&self) -> u8
        ensures { result ≡ status_of self.now }
    {
        match self {
            Fault::Line(..) | Fault::Refused(_) => 1,
            Fault::Usage | Fault::BadCommand(_) | Fault::Input | Fault::Output => 2,
        }
    }
}

impl From<Refusal> for Fault {
    ghost use Rattle.bars_run.specs.declared.fault.Fault.TheVariants.{Refused};

    ghost from_gives = { λ refusal fault. fault ≡ Refused refusal };

    fn from(refusal: Refusal) -> Fault {
        Fault::Refused(refusal)
    }
}

impl fmt::Display for Fault {
    ghost use Rattle.bars_run.specs.Fault.{fault_text};

    ghost output = { fault_text };

    fn fmt<W: fmt::Write>(&self, f: &mut fmt::Formatter<W>) -> fmt::Result {
        match self {
            Fault::Usage => f.write_str(USAGE),
            Fault::BadCommand(line) => write!(f, "bars: line {line}: bad command"),
            Fault::Line(line, refusal) => {
                let number = refusal.number();
                write!(f, "bars: line {line}: E{number}")
            }
            Fault::Refused(refusal) => {
                let number = refusal.number();
                write!(f, "bars: E{number}")
            }
            Fault::Input => f.write_str("bars: input failed"),
            Fault::Output => f.write_str("bars: output failed"),
        }
    }
}
