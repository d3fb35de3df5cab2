//! Laws of the definitions: each law is the contract of a function that does nothing.
ghost use Rattle.indicatif_text.specs.ColumnLaws.{PlainTextsJoin, SpacesAreSeen, NumbersAreUnseen, StylesAreUnseen, StylesAreBytes, OthersAreSeen, PlainTextsHaveWidths, PlainTextsTrim, PrintedIsPlain, OneRow};
ghost use Rattle.indicatif_text.specs.RangeLaws.{WholeRange, RangesFit, SequencesStay, NoCharacterIsAdded, RangesStayPlain};
ghost use Rattle.indicatif_text.specs.FormatLaws.{RoundsByHalf, TiesToEven, RoundsHalfUp, LastDigitsAreRest, DigitsSpell, CommasAside, NumeralSpells, CommasByThousands, OnlyZerosDropped, NoZeroLeft, FloatCountSpells, FloatCountCounts, FloatCountEnds, GreatestPrefix, BinaryBytesTell, DecimalBytesTell, TellsSeconds, NoLongerUnit, ReachesUnit, WordsTell, ShortIsWords, FormattedIsPrinted};
ghost use Rattle.indicatif_text.specs.PieceLaws.{PiecesJoin, RunsAreVisible, PiecesAreExact, NoEmptyPieces, RunsAreLongest};
ghost use Rattle.indicatif_text.specs.TemplateLaws.{OneOfBoth, NeverBoth, OneList, OnePlace};

/// The pieces of every text: joined they are the text, and the joined runs are its visible characters; each piece is exactly one colour
/// sequence, or a run in which none begins; none is empty, and no run follows a run.
pub fn pieces()
    ensures join { PiecesJoin }
    ensures visible { RunsAreVisible }
    ensures exact { PiecesAreExact }
    ensures no_empty { NoEmptyPieces }
    ensures longest { RunsAreLongest }
{}

/// A rounded quotient is the nearest whole number, the even one of a tie.
pub fn quotients()
    ensures near { RoundsByHalf }
    ensures even { TiesToEven }
{}

/// A count is its numeral, with a comma before every third digit from the right.
pub fn counts()
    ensures digits { CommasAside }
    ensures spells { NumeralSpells }
    ensures commas { CommasByThousands }
{}

/// Decimals are the remainder by a power of ten, without zeros at the end.
pub fn decimals()
    ensures rest { LastDigitsAreRest }
    ensures spell { DigitsSpell }
    ensures only_zeros { OnlyZerosDropped }
    ensures all_zeros { NoZeroLeft }
{}

/// The text of a rounded quotient spells it, with a count before the point and no zero or point at its end.
pub fn float_counts()
    ensures spells { FloatCountSpells }
    ensures counts { FloatCountCounts }
    ensures ends { FloatCountEnds }
{}

/// The prefix of a number of bytes is the greatest that leaves at least 1.
pub fn prefixes()
    ensures { GreatestPrefix }
{}

/// The text of a number of bytes gives it in the unit that it names.
pub fn byte_texts()
    ensures binary { BinaryBytesTell }
    ensures decimal { DecimalBytesTell }
{}

/// A duration in hours, minutes and seconds gives back its whole seconds.
pub fn clocks()
    ensures { TellsSeconds }
{}

/// A duration in words has the longest unit that it reaches, rounded half up.
pub fn units()
    ensures longest { NoLongerUnit }
    ensures reached { ReachesUnit }
    ensures near { RoundsHalfUp }
{}

/// A duration in words is its count and its unit, and the short form is the count and the unit's first letter.
pub fn words()
    ensures words { WordsTell }
    ensures short { ShortIsWords }
{}

/// The texts of numbers are printable ASCII.
pub fn printed()
    ensures { FormattedIsPrinted }
{}

/// Each text is a template of one list of parts, or refused at one place.
pub fn template_or_refused()
    ensures one { OneOfBoth }
    ensures never_both { NeverBoth }
    ensures one_list { OneList }
    ensures one_place { OnePlace }
{}

/// The visible characters of a text are visible in longer texts: after a text of characters with a width and colour sequences, before
/// spaces, and within what a style writes; a text no wider than the terminal takes one row.
pub fn columns()
    ensures join { PlainTextsJoin }
    ensures spaces { SpacesAreSeen }
    ensures numbers { NumbersAreUnseen }
    ensures styles { StylesAreUnseen }
    ensures bytes { StylesAreBytes }
    ensures others { OthersAreSeen }
    ensures widths { PlainTextsHaveWidths }
    ensures trim { PlainTextsTrim }
    ensures printed { PrintedIsPlain }
    ensures one_row { OneRow }
{}

/// The range of all columns is the text; a range is no wider than its columns, has every colour sequence of its text and no other, and no
/// characters but those of its text; a range of a plain text is plain.
pub fn ranges()
    ensures whole { WholeRange }
    ensures fit { RangesFit }
    ensures sequences { SequencesStay }
    ensures no_more { NoCharacterIsAdded }
    ensures plain { RangesStayPlain }
{}
