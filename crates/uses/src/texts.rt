//! The rows of a line, the texts of an amount and a range, and a text that is no template.
ghost use Rattle.std.specs.Prelude.{◌≡◌, ◌⊎◌, ◌++◌, ◌∷◌, Ok, Err, IfOk, IfErr, OnOk, codes, string_bytes};
ghost use Rattle.indicatif_text.specs.Format.{binary_bytes};

use indicatif_text::cases::{bytes, templates};
use indicatif_text::columns::{Refusal, TemplateState, wrapped, write_ansi_range};
use indicatif_text::format::HumanBytes;
use indicatif_text::template::{Template, TemplateError};
use std::alloc::Global;

/// An amount of a whole, as in `1.50 KiB of 2.00 KiB`.
pub fn amount(alloc: Global, there: u64, whole: u64) -> Result<String, Refusal>
    ensures text { IfOk result (λ text. string_bytes text ≡ binary_bytes there ++ codes " of " ++ binary_bytes whole) }
    ensures memory { IfErr result (λ e. e ≡ Refusal.Memory) }
{
    Ok(format!(in alloc; "{} of {}", HumanBytes(there), HumanBytes(whole))?)
}

/// The rows of four characters of two columns each on a terminal of three: one each, since none is split. Its columns by division would
/// make three.
pub fn rows_of_wide_ones() -> Result<usize, Refusal>
    ensures { result ≡ Ok 4 }
{
    let metrics = wrapped("国国国国", 3)?;
    Ok(metrics.height)
}

/// The greatest amount below a mebibyte: its prefix is chosen before it is rounded. After that it would be `1.00 MiB`.
pub fn nearly_a_mebibyte(alloc: Global) -> Result<String, Refusal>
    ensures { IfOk result (λ text. string_bytes text ≡ codes "1024.00 KiB") }
{
    bytes();
    Ok(format!(in alloc; "{}", HumanBytes(1_048_575))?)
}

/// Appends the first column of a bold `ab`. The sequence after it stays too, so that what follows isn't bold.
pub fn first_column(out: &mut String) -> Result<(), Refusal>
    ensures { OnOk result (string_bytes out.new ≡ string_bytes out.old ++ (27 ∷ codes "[1ma" ++ 27 ∷ codes "[0m")) }
{
    write_ansi_range("\u{1b}[1mab\u{1b}[0m", 0, 1, out)
}

/// A template with a single closing brace, which is no literal text: it is refused, unless memory is.
pub fn single_brace(alloc: Global) -> Result<Template, TemplateError>
    ensures { (result ≡ Err (TemplateError.Unexpected 120 TemplateState.DoubleClose)) ⊎ (result ≡ Err TemplateError.Memory) }
{
    templates();
    Template::parse(alloc, "}x")
}
