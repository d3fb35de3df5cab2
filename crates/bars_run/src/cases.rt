//! Worked cases of the definitions: each clause computes.
ghost use Rattle.bars_run.specs.Cases.{WordsRead, LinesRead, CommandsRead, LogPrinted, EmptyPrinted, SizePrinted};

/// The requests of words, and the commands of lines.
pub fn spellings()
    ensures words { WordsRead }
    ensures lines { LinesRead }
    ensures commands { CommandsRead }
{}

/// The rows after lines, and what is printed.
pub fn prints()
    ensures log { LogPrinted }
    ensures empty { EmptyPrinted }
    ensures size { SizePrinted }
{}
