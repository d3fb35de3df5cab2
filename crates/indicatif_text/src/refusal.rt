//! Why a call was refused, and the result of a draw.
ghost use Rattle.std.specs.Prelude.{◌≡◌};
ghost use Rattle.indicatif_text.specs.Refusal.{refusal_number};
ghost use Rattle.indicatif_text.specs.Template.{state_name};
ghost use Rattle.indicatif_text.specs.declared.refusal.Refusal.TheVariants.{Memory};

use std::alloc::{AllocError, AllocFailed};
use std::io::ErrorKind;
use thiserror::Error;

/// Where in a template a character was refused.
///
/// ```
/// let state = TemplateState::DoubleClose;
/// let error = Template::parse(alloc, "}x").err();
/// assert_eq!(error, Some(TemplateError::Unexpected { next: 'x', state }));
/// ```
#[derive(Clone, Copy, Debug, Drop, PartialEq, Eq)]
pub enum TemplateState {
    /// Right after an opening brace.
    MaybeOpen,
    /// After a single closing brace.
    DoubleClose,
    /// Right after the colon that follows a key.
    Align,
    /// Later in the options after the colon, before a dot.
    Width,
}

impl TemplateState {
    /// The name of the template's state.
    pub(crate) fn name(self) -> &'static str
        ensures { result.now ≡ state_name self }
    {
        match self {
            TemplateState::MaybeOpen => "MaybeOpen",
            TemplateState::DoubleClose => "DoubleClose",
            TemplateState::Align => "Align",
            TemplateState::Width => "Width",
        }
    }
}

/// Why a call was refused. A call that returns a `Refusal` fails in no other way, and its documentation says what has changed after each.
///
/// Its text says what was wrong; format options, such as a width in `{:>12}`, are ignored.
///
/// ```
/// let refusal = Refusal::NoColumns;
/// assert_eq!(refusal.to_string(alloc)?.as_str(), "a terminal of no columns");
/// ```
#[derive(Clone, Copy, Debug, Drop, PartialEq, Eq, Error)]
pub enum Refusal {
    /// A refresh rate of 0 draws a second. Nothing is made; the terminal or the writer is dropped.
    #[error("a refresh rate of 0")]
    ZeroRate,
    /// Fewer than two tick strings. The style is dropped.
    #[error("fewer than two tick strings")]
    FewTicks,
    /// Fewer than two progress clusters. The style is dropped.
    #[error("fewer than two progress characters")]
    FewProgressChars,
    /// Progress clusters of different widths. The style is dropped.
    #[error("progress characters of unequal widths")]
    UnequalWidths,
    /// Progress clusters without columns. The style is dropped.
    #[error("progress characters of no columns")]
    ZeroWidthChars,
    /// A character that the grammar of templates refuses. Nothing is made; a style that was to have the template is dropped.
    #[error("unexpected character {next:?} in state {state:?} of a template")]
    Template {
        /// The character.
        next: char,
        /// Where it stood.
        state: TemplateState,
    },
    /// A template width past 65,535. Nothing is made; a style that was to have the template is dropped.
    #[error("a template width past 65,535")]
    WidthTooLarge,
    /// A bar or an anchor of another board. The board is unchanged; an owner of a shared bar that was passed is dropped.
    #[error("a bar of another board")]
    ForeignBar,
    /// A bar or an anchor that was removed, dropped or never given. The board is unchanged; an owner of a shared bar that was passed is
    /// dropped.
    #[error("no such bar on this board")]
    NotMember,
    /// An elapsed time greater than the moment. The bar is unchanged; an owner of a shared bar that a builder would return is dropped.
    #[error("an elapsed time beyond the clock")]
    ElapsedBeyondClock,
    /// A terminal without columns. The bar's record has changed; its lines are unchanged.
    #[error("a terminal of no columns")]
    NoColumns,
    /// A line that holds a character wider than the terminal. The bar's lines are laid out; nothing is written.
    #[error("a character wider than the terminal")]
    TooWide,
    /// The terminal failed in this call. The rows are forgotten, and the next draw begins on a new row.
    #[error("the terminal failed: {0}")]
    Terminal(ErrorKind),
    /// Memory, a thread or a number was refused. Then a draw has written nothing; a call that does more says what it had already done.
    #[error("out of memory")]
    Memory,
    /// A terminal in memory without rows or columns. Nothing is made.
    #[error("a terminal of no cells")]
    ZeroSize,
    /// A list of work without a piece. Nothing is run.
    #[error("no piece of work")]
    ZeroPieces,
    /// A recorded board keeps its target. The board is unchanged; the new target is dropped.
    #[error("a recorded board keeps its target")]
    RecordedTarget,
}

impl Refusal {
    /// The refusal's number, from 1 for `ZeroRate` to 17 for `RecordedTarget`, in the order above.
    ///
    /// ```
    /// assert_eq!(Refusal::RecordedTarget.number(), 17);
    /// ```
    pub fn number(&self) -> u8
        ensures { result ≡ refusal_number self.now }
    {
        match self {
            Refusal::ZeroRate => 1,
            Refusal::FewTicks => 2,
            Refusal::FewProgressChars => 3,
            Refusal::UnequalWidths => 4,
            Refusal::ZeroWidthChars => 5,
            Refusal::Template { .. } => 6,
            Refusal::WidthTooLarge => 7,
            Refusal::ForeignBar => 8,
            Refusal::NotMember => 9,
            Refusal::ElapsedBeyondClock => 10,
            Refusal::NoColumns => 11,
            Refusal::TooWide => 12,
            Refusal::Terminal(_) => 13,
            Refusal::Memory => 14,
            Refusal::ZeroSize => 15,
            Refusal::ZeroPieces => 16,
            Refusal::RecordedTarget => 17,
        }
    }
}

/// Memory that was refused is `Refusal::Memory`.
impl From<AllocError> for Refusal {
    ghost from_gives = { λ _ e. e ≡ Memory };

    fn from(_e: AllocError) -> Refusal {
        Refusal::Memory
    }
}

/// Memory that was refused for a value is `Refusal::Memory`; the value is dropped.
impl<T: Drop> From<AllocFailed<T>> for Refusal {
    ghost from_gives = { λ _ e. e ≡ Memory };

    fn from(_e: AllocFailed<T>) -> Refusal {
        Refusal::Memory
    }
}

/// The result of a draw that was not refused.
///
/// ```
/// let drawn = bar.tick(0)?;
/// assert_eq!(drawn, Drawn::Hidden);
/// ```
#[derive(Clone, Copy, Debug, Drop, PartialEq, Eq)]
pub enum Drawn {
    /// The terminal was written.
    Yes,
    /// Nothing was written: the call wants no draw, or the limiter refused it.
    Limited,
    /// Nothing was written: the target is hidden.
    Hidden,
}
