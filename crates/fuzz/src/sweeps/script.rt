//! Calls, and the answer of each if nothing fails.
use indicatif_text::columns::{Drawn, Refusal};

/// The answer of a call; one that draws nothing counts as `Limited`.
pub type Said = Result<Drawn, Refusal>;

/// A call. Bars have numbers, from 0 on in the order of insertion; for a lone bar any number does.
#[derive(Clone, Copy, Drop)]
pub enum Step {
    /// Adds a new bar with this message last.
    Add(&'static str),
    /// Adds a new bar with this message before another.
    Before(u64, &'static str),
    /// Draws a bar.
    Tick(u64),
    /// Sets a bar's message.
    Message(u64, &'static str),
    /// Sets a bar's message without a draw.
    Told(u64, &'static str),
    /// Lets a bar keep its rows when it is dropped.
    Keep(u64),
    /// Finishes a bar.
    Finish(u64),
    /// Drops a bar.
    Drop(u64),
    /// Removes a bar.
    Remove(u64),
    /// Logs a text above all bars.
    Log(&'static str),
    /// Logs a text above all bars, by a call of this bar.
    BarLog(u64, &'static str),
    /// Erases all rows of the bars.
    Clear,
    /// Draws all bars.
    Redraw,
    /// Erases all rows, and draws all bars.
    Suspend,
    /// Puts bars in the last rows of those that a draw erases.
    Bottom,
    /// Puts bars in the first rows of those that a draw erases.
    Top,
    /// Gives the terminal another size: rows and columns.
    Size(u16, u16),
}

impl Step {
    /// Its answer if nothing fails.
    pub fn wanted(self) -> Said {
        match self {
            Step::Size(0, _) | Step::Size(_, 0) => Err(Refusal::ZeroSize),
            Step::Add(_)
            | Step::Before(..)
            | Step::Told(..)
            | Step::Keep(_)
            | Step::Remove(_)
            | Step::Bottom
            | Step::Top
            | Step::Size(..) => Ok(Drawn::Limited),
            _ => Ok(Drawn::Yes),
        }
    }

    /// What it does before its draw, and so may have done if that draw gets no memory.
    pub fn begun(self) -> Option<Step> {
        match self {
            Step::Message(bar, text) => Some(Step::Told(bar, text)),
            Step::Suspend => Some(Step::Clear),
            _ => None,
        }
    }

    /// Whether it stores a bar's new lines before it draws: if it gets no memory after that, the next draw shows them.
    pub fn stores(self) -> bool {
        matches!(
            self,
            Step::Message(..) | Step::Tick(_) | Step::Finish(_) | Step::Drop(_)
        )
    }

    /// Whether it draws bars.
    pub fn draws(self) -> bool {
        self.wanted() == Ok(Drawn::Yes) && !matches!(self, Step::Clear)
    }

    /// Whether it erases rows of bars that are gone.
    pub fn takes_back(self) -> bool {
        matches!(
            self,
            Step::Log(_) | Step::BarLog(..) | Step::Clear | Step::Suspend
        )
    }

    /// The text that stands above the bars from then on.
    pub fn logged(self) -> Option<&'static str> {
        match self {
            Step::Log(text) | Step::BarLog(_, text) => Some(text),
            _ => None,
        }
    }
}

/// A script's calls.
macro_rules! script {
    ($($name:ident $(($($of:expr),*))?),* $(,)?) => { &[$(Step::$name $(($($of),*))?),*] };
}

/// Twenty calls of a board. Logged texts have letters that occur nowhere else.
pub const BOARD: &[Step] = script! {
    Add("a"), Tick(0), Add("bb"), Before(1, "c\nd"), Tick(2), Tick(1), Log("AB"), Bottom, Message(2, "c"), BarLog(0, "CD\nE"),
    Keep(1), Drop(1), Tick(0), Remove(0), Log("F"), Redraw, Top, Suspend, Clear, Tick(2),
};

/// Twelve calls of a lone bar.
pub const LONE: &[Step] = script! {
    Tick(0), Message(0, "b\nc"), Log("AB"), Tick(0), Message(0, "d"), Suspend, BarLog(0, "CD\nE"), Message(0, "efg\nh\ni"), Clear,
    Tick(0), Finish(0), Log("F"),
};

/// Thirty-five calls of a board whose terminal is resized between them: before and after a draw, a text and a clear, with rows of a bar
/// that is gone, also after a draw without lines, and with rows that scroll away or come back.
pub const SIZED_BOARD: &[Step] = script! {
    Add("abcd"), Tick(0), Size(4, 2), Tick(0), Add("e\nf"), Tick(1), Log("AB"), Size(2, 5), Message(0, "g"), Keep(1), Drop(1),
    Size(0, 3), Size(3, 1), BarLog(0, "CD\nE"), Bottom, Remove(0), Redraw, Size(4, 3), Add("hi"), Tick(2), Size(1, 6), Clear,
    Size(3, 2), Log("FGH"), Size(4, 6), Message(2, "klmnopqrstuvwx"), Keep(2), Drop(2), Redraw, Size(4, 5), Size(3, 6),
    Add("o\np\nq\nr"), Tick(3), Size(2, 4), Log("IJ"),
};

/// Sixteen calls of a lone bar whose terminal is resized between them.
pub const SIZED_LONE: &[Step] = script! {
    Size(3, 4), Message(0, "abc\nde"), Size(2, 2), Tick(0), Log("AB"), Size(3, 0), Size(4, 5), Suspend, BarLog(0, "CD\nE"),
    Size(1, 3), Message(0, "f"), Clear, Size(2, 6), Finish(0), Size(4, 1), Log("FGH"),
};
