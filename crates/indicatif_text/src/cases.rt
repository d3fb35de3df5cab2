//! The worked cases of the definitions, which the check of this crate computes.
ghost use Rattle.indicatif_text.specs.ColumnCases.{WideOneGoesDown, EmptyIsOneRow, WholeRows, WideRows, JoinedRows, ColoursTakeNone, RunsAndColours};
ghost use Rattle.indicatif_text.specs.FormatCases.{DurationCases, ShortDurationCases, FormattedDurationCases, BinaryBytesCases, DecimalBytesCases, CountCases, FloatCountCases};
ghost use Rattle.indicatif_text.specs.StyleCases.{StyleNumbers, StyledText};
ghost use Rattle.indicatif_text.specs.TemplateCases.{Templates};

/// Lines with their rows and columns, and the pieces of a text.
pub fn lines()
    ensures wide { WideOneGoesDown }
    ensures empty { EmptyIsOneRow }
    ensures whole_rows { WholeRows }
    ensures wide_rows { WideRows }
    ensures joined_rows { JoinedRows }
    ensures colours { ColoursTakeNone }
    ensures pieces { RunsAndColours }
{}

/// Durations in words, and in short.
pub fn durations()
    ensures words { DurationCases }
    ensures short { ShortDurationCases }
    ensures formatted { FormattedDurationCases }
{}

/// Bytes with binary and with decimal prefixes.
pub fn bytes()
    ensures binary { BinaryBytesCases }
    ensures decimal { DecimalBytesCases }
{}

/// Counts with commas, whole ones and rounded ones.
pub fn counts()
    ensures whole { CountCases }
    ensures rounded { FloatCountCases }
{}

/// Templates with their parts, and texts that are refused with their places.
pub fn templates()
    ensures { Templates }
{}

/// Styles with their numbers, and what they write.
pub fn styles()
    ensures numbers { StyleNumbers }
    ensures text { StyledText }
{}
