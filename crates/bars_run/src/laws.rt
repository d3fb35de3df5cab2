//! Laws of the definitions: functions that do nothing, each with a law as its contract.
ghost use Rattle.std.specs.Prelude.{◌≡◌, ℕ, List, Option, Some, All, map};
ghost use Rattle.std.specs.Io.KnownBytes.{Appends};
ghost use Rattle.indicatif_term.specs.Pictures.{row_text};
ghost use Rattle.bars_run.specs.declared.arguments.Asked.{Asked};
ghost use Rattle.bars_run.specs.Arguments.{asked_by};
ghost use Rattle.bars_run.specs.Commands.{Spelled, input_lines, spelled, each};
ghost use Rattle.bars_run.specs.Player.{Step, script_step, rows_after, IsPlain};
ghost use Rattle.bars_run.specs.Printing.{Prints, printed};

/// What was printed follows from the words and the input alone, if the texts of its commands consist of characters with a width and colour
/// sequences.
pub fn what_is_printed()
    ensures { (words : List (List ℕ)) (input : List ℕ) (old new : Option (List ℕ)) (asked : Asked) (commands : List Spelled) (steps : List Step) →
        Prints words input old new → asked_by words ≡ Some asked → each spelled (input_lines input) ≡ Some commands → each script_step commands ≡ Some steps →
        All IsPlain commands → Appends old new (printed (map row_text (rows_after asked steps))) }
{}
