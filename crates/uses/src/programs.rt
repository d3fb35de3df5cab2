//! What the program `bars run` prints, if its words and its input are known.
ghost use Rattle.std.specs.Prelude.{◌≡◌, ◌++◌, ◌∷◌, [], IfOk, map, string_bytes, codes};

use bars_run::cases::prints;
use bars_run::laws::what_is_printed;
use bars_run::run_bars;
use indicatif_text::columns::Refusal;
use indicatif_text::laws::columns;
use std::alloc::Global;

/// What `bars run 4 10` prints for a bar with the message `x`, with a name logged above it: the name and the bar, and nothing else.
///
/// Refused: `Memory`.
pub fn name_printed(alloc: Global) -> Result<Vec<u8>, Refusal>
    ensures { IfOk result (λ out. out.items ≡ codes "a.txt\nx\n") }
{
    let run = String::from_str(alloc, "run")?;
    let rows = String::from_str(alloc, "4")?;
    let columns = String::from_str(alloc, "10")?;
    let words = [run, rows, columns];
    let input = b"add x\ntick 1\nlog a.txt\n";
    let mut out = Vec::new(alloc);
    if print_name(alloc, words.as_slice(), input.as_slice(), &mut out) == 0 {
        Ok(out)
    } else {
        Err(Refusal::Memory)
    }
}

/// Runs it with these words on this input. Returns the program's status.
fn print_name(alloc: Global, words: &[String], input: &[u8], out: &mut Vec<u8>) -> u8
    requires words { map (λ word. string_bytes word) words.now ≡ codes "run" ∷ codes "4" ∷ codes "10" ∷ [] }
    requires input { input.now ≡ codes "add x\ntick 1\nlog a.txt\n" }
    ensures printed { result ≡ 0 → out.new.items ≡ out.old.items ++ codes "a.txt\nx\n" }
{
    columns();
    what_is_printed();
    prints();
    let mut err = Vec::new(alloc);
    run_bars(alloc, words, input, out, &mut err)
}
